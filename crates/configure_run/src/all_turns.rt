// All turns, and the refusals of those that are left over behind them.
ghost use Rattle.std.specs.Prelude.{◌≡◌, ◌++◌, ℕ, None, Some, IfErr, IfOk, IsTrue, OnOk};
ghost use Rattle.dependency_check.specs.Waiting.{IsConfigurableNow};
ghost use Rattle.dependency_sets.specs.Sets.{has};
ghost use Rattle.held_administration.specs.Open.{IsOpen};
ghost use Rattle.host_core.specs.Host.{Needs, Since, NoFault};
ghost use Rattle.host_core.specs.Loss.{IsAnswered};
ghost use Rattle.held_administration.specs.Order.{IsInOrder};
ghost use Rattle.unit_reports.specs.Held.{held_by};
ghost use Rattle.unit_reports.specs.Units.{CountsReply, IsBrokenBy, calls_of};
ghost use Rattle.unit_reports.specs.declared.report.Breakage.TheVariants.{Abandoned, Closed};
ghost use Rattle.unit_reports.specs.Watching.{AddsTold};
ghost use Rattle.undo_rows.specs.Transcript.{TellsAll};
ghost use Rattle.configure_run.specs.Starting.{AreSameButWaiting, AreWaiting};
ghost use Rattle.configure_run.specs.Turns.{EndTurns, HaveTurned, IsAmidTurns, StopTurns};
ghost use Rattle.configure_run.specs.Whose.{IsNobodysTurn};

use crate::left_over::refuse_left;
use crate::options::ConfigureOptions;
use crate::queue::Queue;
use crate::turn::Configuring;
use crate::unit::no_memory;
use diversions::Diversions;
use held_administration::Administration;
use host_core::Host;
use relation_index::Packages;
use unit_reports::{Unit, Watcher};
use unit_runs::run_units;

// All turns, up to a unit that is broken off. The answer is what is left over.
fn take_turns<H: Host, W: Watcher>(
    host: &mut H,
    administration: &mut Administration,
    diversions: &Diversions,
    options: ConfigureOptions,
    queue: Queue,
    silent: Vec<bool>,
    units: &mut Vec<Unit>,
    watcher: &mut W,
) -> Result<Queue, Unit>
    requires open { IsOpen diversions.now.ways administration.old }
    requires wait { AreWaiting queue administration.old.database.records }
    requires order { Needs (H.state host.old)
        (IsInOrder administration.old.database administration.old.lists.lists) }
    ensures ok { IfOk result (λ left. HaveTurned options (has silent.items) queue
        (held_by administration.old diversions.now) (H.state host.old) units.old.items
        units.new.items left (held_by administration.new diversions.now) (H.state host.new)) }
    ensures ended { IfOk result (λ left. IsNobodysTurn options.ignore_depends
        (has silent.items) left) }
    ensures none_left { IfOk result (λ left. (x : ℕ) → IsConfigurableNow left x → ⊥) }
    ensures packages { IfOk result (λ left. left.packages ≡ queue.packages) }
    ensures others { OnOk result (AreSameButWaiting queue administration.old.database.records
        administration.new.database.records) }
    ensures answered { OnOk result (IsAnswered (H.state host.old) (H.state host.new)) }
    ensures order { OnOk result (Needs (H.state host.new)
        (IsInOrder administration.new.database administration.new.lists.lists)) }
    ensures open { OnOk result (IsOpen diversions.now.ways administration.new) }
    ensures err { IfErr result (λ unit. StopTurns options (has silent.items) queue
        (held_by administration.old diversions.now) (H.state host.old) units.old.items
        units.new.items (Some unit) (H.state host.new)) }
    ensures told { OnOk result (TellsAll (H.state host.old) (H.state host.new)
        (calls_of units.old.items) (calls_of units.new.items)) }
    ensures told_broken { IfErr result (λ unit. TellsAll (H.state host.old) (H.state host.new)
        (calls_of units.old.items) (calls_of units.new.items ++ unit.calls.items)) }
    ensures any_moment { Since (IsAmidTurns options (has silent.items) queue
        (held_by administration.old diversions.now) (H.state host.old)) (H.state host.old)
        (H.state host.new) }
    ensures no_fault { OnOk result (NoFault (H.state host.old) (H.state host.new)) }
    ensures counts { IfErr result (λ unit. CountsReply (H.state host.old) (H.state host.new)
        unit.reply) }
    ensures not_closed { IfErr result (λ unit. IsBrokenBy Closed unit.reply → ⊥) }
    ensures abandoned { IfErr result (λ unit. IsBrokenBy Abandoned unit.reply
        → IsTrue (W.ends watcher.new)) }
    ensures watched { AddsTold W.tells (H.state host.old) units.old.items units.new.items
        watcher.old watcher.new }
{
    let mut turns = Configuring {
        queue: Some(queue),
        taken: None,
        silent,
        options,
        diversions,
    };
    match run_units(host, administration, &mut turns, units, watcher) {
        Ok(()) => {
            let Configuring {
                queue,
                taken: _,
                silent: _,
                options: _,
                diversions: _,
            } = turns;
            match queue {
                Some(left) => Ok(left),
                None => unreachable!(),
            }
        }
        Err(unit) => Err(unit),
    }
}

/// All turns, and the refusals of those left over; or the unit that was broken off. The answer is the packages of the
/// queue.
pub(crate) fn run_turns<H: Host, W: Watcher>(
    host: &mut H,
    administration: &mut Administration,
    diversions: &Diversions,
    options: ConfigureOptions,
    queue: Queue,
    silent: Vec<bool>,
    units: &mut Vec<Unit>,
    watcher: &mut W,
) -> Result<Packages, Unit>
    requires open { IsOpen diversions.now.ways administration.old }
    requires wait { AreWaiting queue administration.old.database.records }
    requires order { Needs (H.state host.old)
        (IsInOrder administration.old.database administration.old.lists.lists) }
    ensures ok { OnOk result (EndTurns options (has silent.items) queue
        (held_by administration.old diversions.now) (H.state host.old) units.old.items
        units.new.items (held_by administration.new diversions.now) (H.state host.new)) }
    ensures packages { IfOk result (λ packages. packages ≡ queue.packages) }
    ensures others { OnOk result (AreSameButWaiting queue administration.old.database.records
        administration.new.database.records) }
    ensures answered { OnOk result (IsAnswered (H.state host.old) (H.state host.new)) }
    ensures order { OnOk result (Needs (H.state host.new)
        (IsInOrder administration.new.database administration.new.lists.lists)) }
    ensures open { OnOk result (IsOpen diversions.now.ways administration.new) }
    ensures err { IfErr result (λ unit. StopTurns options (has silent.items) queue
        (held_by administration.old diversions.now) (H.state host.old) units.old.items
        units.new.items (Some unit) (H.state host.new)) }
    ensures told { OnOk result (TellsAll (H.state host.old) (H.state host.new)
        (calls_of units.old.items) (calls_of units.new.items)) }
    ensures told_broken { IfErr result (λ unit. TellsAll (H.state host.old) (H.state host.new)
        (calls_of units.old.items) (calls_of units.new.items ++ unit.calls.items)) }
    ensures any_moment { Since (IsAmidTurns options (has silent.items) queue
        (held_by administration.old diversions.now) (H.state host.old)) (H.state host.old)
        (H.state host.new) }
    ensures no_fault { OnOk result (NoFault (H.state host.old) (H.state host.new)) }
    ensures counts { IfErr result (λ unit. CountsReply (H.state host.old) (H.state host.new)
        unit.reply) }
    ensures not_closed { IfErr result (λ unit. IsBrokenBy Closed unit.reply → ⊥) }
    ensures abandoned { IfErr result (λ unit. IsBrokenBy Abandoned unit.reply
        → IsTrue (W.ends watcher.new)) }
    ensures watched { AddsTold W.tells (H.state host.old) units.old.items units.new.items
        watcher.old watcher.new }
{
    let alloc = administration.alloc;
    match take_turns(
        host,
        administration,
        diversions,
        options,
        queue,
        silent,
        units,
        watcher,
    ) {
        Ok(left) => match refuse_left(alloc, host, &left, units, watcher) {
            Ok(()) => Ok(left.into_packages()),
            Err(_) => Err(no_memory(alloc)),
        },
        Err(unit) => Err(unit),
    }
}
