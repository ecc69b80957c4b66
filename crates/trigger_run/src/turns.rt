// The units of some names, one after another.
ghost use Rattle.std.specs.Prelude.{◌≡◌, ◌<◌, ◌++◌, [], true, IfErr, IfOk, IfSome, IsTrue, None, OnOk, Some, is_some, length};
ghost use Rattle.host_core.specs.Host.{AtEachMomentOf, Needs, NoFault, Since};
ghost use Rattle.host_core.specs.Loss.{IsAnswered};
ghost use Rattle.held_administration.specs.Open.{IsOpen};
ghost use Rattle.held_administration.specs.Order.{IsInOrder};
ghost use Rattle.recorded_packages.specs.Packages.{ArePackagesOf};
ghost use Rattle.undo_rows.specs.Transcript.{TellsAll};
ghost use Rattle.unit_reports.specs.Held.{held_by};
ghost use Rattle.unit_reports.specs.Units.{CountsReply, IsBrokenBy, calls_of};
ghost use Rattle.unit_reports.specs.declared.report.Breakage.TheVariants.{Abandoned, Closed};
ghost use Rattle.unit_reports.specs.Watching.{AddsTold};
ghost use Rattle.unit_runs.specs.Taking.{CountsTaken, IsTaken, calls_in};
ghost use Rattle.unit_runs.specs.Turns as runs;
ghost use Rattle.unit_runs.specs.declared.barring.Bar.TheVariants as bar;
ghost use Rattle.trigger_run.specs.Turns.{HasCalledNext, HasStopped, HasTurned, IsAmidTurn, IsAmidTurns, IsTurn};

use crate::units::process_one;
use diversions::Diversions;
use held_administration::Administration;
use host_core::Host;
use relation_index::Packages;
use texts::Text;
use unit_reports::{Unit, Watcher};
use unit_runs::{Bar, Turns, run_units};

// The unit of the first name; none where no name is left.
fn take_next<H: Host>(
    host: &mut H,
    administration: &mut Administration,
    packages: &mut Packages,
    diversions: &Diversions,
    barred: Option<Bar>,
    names: &mut Vec<Text>,
) -> Result<Option<Unit>, Unit>
    requires order { Needs (H.state host.old)
        (IsInOrder administration.old.database administration.old.lists.lists) }
    requires open { IsOpen diversions.now.ways administration.old }
    requires indexed { ArePackagesOf administration.old.database.records packages.old }
    ensures taken { IsTaken IsTurn (λ left later. HasCalledNext left) (λ left held. left ≡ [])
        names.old.items names.new.items (held_by administration.old diversions.now)
        (held_by administration.new diversions.now) (H.state host.old) (H.state host.new) result }
    ensures fewer { IfOk result (λ found. IfSome found (λ unit. length names.new.items
        < length names.old.items)) }
    ensures barred { is_some barred ≡ true → IfOk result (λ found. found ≡ None) }
    ensures order { OnOk result (Needs (H.state host.new)
        (IsInOrder administration.new.database administration.new.lists.lists)) }
    ensures open { OnOk result (IsOpen diversions.now.ways administration.new) }
    ensures indexed { OnOk result (ArePackagesOf administration.new.database.records packages.new) }
    ensures answered { OnOk result (IsAnswered (H.state host.old) (H.state host.new)) }
    ensures told { TellsAll (H.state host.old) (H.state host.new) [] (calls_in result) }
    ensures any_moment { AtEachMomentOf (runs.IsAmidNext (λ left later. IsAmidTurn left)
        names.old.items names.new.items (held_by administration.old diversions.now))
        (H.state host.old) (H.state host.new) }
    ensures counts { CountsTaken (H.state host.old) (H.state host.new) result }
    ensures not_closed { IfErr result (λ unit. IsBrokenBy Closed unit.reply → ⊥) }
    ensures abandoned { IfErr result (λ unit. IsBrokenBy Abandoned unit.reply
        → barred ≡ Some bar.Abandoned) }
{
    if names.is_empty() {
        return Ok(None);
    }
    let name = names.remove(0);
    match process_one(host, administration, packages, diversions, name, barred) {
        Ok(unit) => Ok(Some(unit)),
        Err(unit) => Err(unit),
    }
}

/// The names that are left, and the packages of the records. Their units go by these diversions.
#[derive(Drop)]
pub(crate) struct Processing<'d> {
    pub(crate) diversions: &'d Diversions,
    pub(crate) packages: Packages,
    pub(crate) names: Vec<Text>,
}

impl<'d, H: Host> Turns<H> for Processing<'d> {
    ghost use Rattle.std.specs.Prelude.{ℕ, List, length};
    ghost use Rattle.diversions.specs.Diverted.{Diverted};
    ghost use Rattle.trigger_run.specs.Turns.{HasCalledNext, IsAmidTurn, IsTurn};
    ghost use Rattle.trigger_run.specs.Taking.{IsBetween, IsOver, left_of, task_of};

    ghost Task = { Diverted };

    ghost task = { task_of };

    ghost Left = { List (List ℕ) };

    ghost left = { left_of };

    ghost size = { λ names. length names };

    ghost turn = { λ task. IsTurn };

    ghost amid = { λ task left later. IsAmidTurn left };

    ghost called = { λ task left later. HasCalledNext left };

    ghost goes = { λ task left later. Unit {0} };

    ghost diverted = { λ p. p.diversions.now };

    ghost between = { IsBetween };

    ghost over = { IsOver };

    fn take(
        &mut self,
        host: &mut H,
        administration: &mut Administration,
        barred: Option<Bar>,
    ) -> Result<Option<Unit>, Unit> {
        take_next(
            host,
            administration,
            &mut self.packages,
            self.diversions,
            barred,
            &mut self.names,
        )
    }
}

/// The units of some names in turn, until none is left or one was broken off. The packages are those of the records, and the answer
/// is those of the records that are left.
pub(crate) fn run_turns<H: Host, W: Watcher>(
    host: &mut H,
    administration: &mut Administration,
    packages: Packages,
    diversions: &Diversions,
    names: Vec<Text>,
    units: &mut Vec<Unit>,
    watcher: &mut W,
) -> Result<Packages, Unit>
    requires order { Needs (H.state host.old)
        (IsInOrder administration.old.database administration.old.lists.lists) }
    requires open { IsOpen diversions.now.ways administration.old }
    requires indexed { ArePackagesOf administration.old.database.records packages }
    ensures turned { OnOk result (HasTurned names.items [] (held_by administration.old
        diversions.now) (held_by administration.new diversions.now) (H.state host.old)
        (H.state host.new) units.old.items units.new.items) }
    ensures indexed { IfOk result (ArePackagesOf administration.new.database.records) }
    ensures stopped { IfErr result (HasStopped names.items (held_by administration.old
        diversions.now) (H.state host.old) (H.state host.new) units.old.items units.new.items) }
    ensures told { OnOk result (TellsAll (H.state host.old) (H.state host.new)
        (calls_of units.old.items) (calls_of units.new.items)) }
    ensures told_stopped { IfErr result (λ unit. TellsAll (H.state host.old) (H.state host.new)
        (calls_of units.old.items) (calls_of units.new.items ++ unit.calls.items)) }
    ensures any_moment { Since (IsAmidTurns names.items (held_by administration.old diversions.now)
        (H.state host.old)) (H.state host.old) (H.state host.new) }
    ensures no_fault { OnOk result (NoFault (H.state host.old) (H.state host.new)) }
    ensures counts { IfErr result (λ unit. CountsReply (H.state host.old) (H.state host.new)
        unit.reply) }
    ensures not_closed { IfErr result (λ unit. IsBrokenBy Closed unit.reply → ⊥) }
    ensures abandoned { IfErr result (λ unit. IsBrokenBy Abandoned unit.reply
        → IsTrue (W.ends watcher.new)) }
    ensures order { OnOk result (Needs (H.state host.new)
        (IsInOrder administration.new.database administration.new.lists.lists)) }
    ensures open { OnOk result (IsOpen diversions.now.ways administration.new) }
    ensures answered { OnOk result (IsAnswered (H.state host.old) (H.state host.new)) }
    ensures watched { AddsTold W.tells (H.state host.old) units.old.items units.new.items
        watcher.old watcher.new }
{
    let mut turns = Processing {
        diversions,
        packages,
        names,
    };
    match run_units(host, administration, &mut turns, units, watcher) {
        Ok(()) => {
            let Processing {
                diversions: _,
                packages,
                names: _,
            } = turns;
            Ok(packages)
        }
        Err(unit) => Err(unit),
    }
}
