// The turns of the packages that wait.
ghost use Rattle.std.specs.Prelude.{◌≡◌, ℕ, Bool, [], true, None, Some, IfErr, IfOk, IfSome, IsTrue, OnOk, is_some};
ghost use Rattle.dependency_sets.specs.Sets.{has};
ghost use Rattle.held_administration.specs.Open.{IsOpen};
ghost use Rattle.host_core.specs.Host.{AtEachMomentOf, Needs, NoFault};
ghost use Rattle.host_core.specs.Loss.{IsAnswered};
ghost use Rattle.held_administration.specs.Order.{IsInOrder};
ghost use Rattle.unit_reports.specs.Held.{held_by};
ghost use Rattle.unit_reports.specs.Units.{CountsReply, IsBrokenBy};
ghost use Rattle.unit_reports.specs.declared.report.Breakage.TheVariants.{Abandoned, Closed};
ghost use Rattle.undo_rows.specs.Transcript.{TellsAll};
ghost use Rattle.unit_runs.specs.Taking.{CountsTaken, IsTaken, calls_in};
ghost use Rattle.unit_runs.specs.Turns as runs;
ghost use Rattle.unit_runs.specs.declared.barring.Bar.TheVariants as bar;
ghost use Rattle.configure_run.specs.Starting.{AreWaiting};
ghost use Rattle.configure_run.specs.Turns.{HasCalledNext, IsAmidTurn, IsTurn, after_turn, is_done};
ghost use Rattle.configure_run.specs.Taking.{IsAmidTurnOf, IsBrokenAt, IsNoneLeft, IsTurnOf, left_behind};

use crate::options::ConfigureOptions;
use crate::queue::Queue;
use crate::unit::{is_done, no_memory, unit_of};
use conffiles::ConfPolicy;
use diversions::Diversions;
use held_administration::Administration;
use host_core::Host;
use std::mem;
use unit_reports::{Unit, is_broken};
use unit_runs::{Bar, Turns, barred_unit};

// The unit of the package of a number, or the unit that was broken off.
fn take_turn<H: Host>(
    host: &mut H,
    administration: &mut Administration,
    diversions: &Diversions,
    policy: ConfPolicy,
    queue: &Queue,
    number: usize,
    barred: Option<Bar>,
) -> Result<Unit, Unit>
    requires open { IsOpen diversions.now.ways administration.old }
    requires wait { AreWaiting queue.now administration.old.database.records }
    requires order { Needs (H.state host.old)
        (IsInOrder administration.old.database administration.old.lists.lists) }
    requires waits { IsTrue (has queue.now.waiting number) }
    ensures ok { IfOk result (IsTurnOf policy queue.now number
        (held_by administration.old diversions.now) (held_by administration.new diversions.now)
        (H.state host.old) (H.state host.new)) }
    ensures barred { OnOk result (barred ≡ None) }
    ensures wait { IfOk result (λ unit. AreWaiting (after_turn (is_done unit.reply) number
        queue.now) administration.new.database.records) }
    ensures order { OnOk result (Needs (H.state host.new)
        (IsInOrder administration.new.database administration.new.lists.lists)) }
    ensures open { OnOk result (IsOpen diversions.now.ways administration.new) }
    ensures broken_off { IfErr result (IsBrokenAt policy queue.now number
        (held_by administration.old diversions.now) (H.state host.old) (H.state host.new)) }
    ensures told { IfOk result (λ unit. TellsAll (H.state host.old) (H.state host.new) []
        unit.calls.items) }
    ensures told_broken { IfErr result (λ unit. TellsAll (H.state host.old) (H.state host.new) []
        unit.calls.items) }
    ensures any_moment { AtEachMomentOf (IsAmidTurnOf policy queue.now number
        (held_by administration.old diversions.now)) (H.state host.old) (H.state host.new) }
    ensures no_fault { OnOk result (NoFault (H.state host.old) (H.state host.new)) }
    ensures counts { IfErr result (λ unit. CountsReply (H.state host.old) (H.state host.new)
        unit.reply) }
    ensures not_closed { IfErr result (λ unit. IsBrokenBy Closed unit.reply → ⊥) }
    ensures abandoned { IfErr result (λ unit. IsBrokenBy Abandoned unit.reply
        → barred ≡ Some bar.Abandoned) }
{
    if let Some(bar) = barred {
        return Err(barred_unit(administration.alloc, bar));
    }
    queue.law();
    let packages = queue.packages();
    let breakers = queue.breakers();
    let of = &packages.as_slice()[number];
    let unit = unit_of(
        host,
        administration,
        diversions,
        packages,
        breakers,
        of,
        policy,
    );
    if is_broken(&unit) {
        return Err(unit);
    }
    Ok(unit)
}

// The same of the next package; none where no turn is left. It is told which turn was taken, and whether the package was configured.
fn take_next<H: Host>(
    host: &mut H,
    administration: &mut Administration,
    diversions: &Diversions,
    options: ConfigureOptions,
    queue: &Queue,
    silent: &[bool],
    barred: Option<Bar>,
    taken: &mut Option<(usize, bool)>,
) -> Result<Option<Unit>, Unit>
    requires open { IsOpen diversions.now.ways administration.old }
    requires wait { AreWaiting queue.now administration.old.database.records }
    requires order { Needs (H.state host.old)
        (IsInOrder administration.old.database administration.old.lists.lists) }
    ensures taken { IsTaken (IsTurn options (has silent.now))
        (λ left later. HasCalledNext options (has silent.now) left)
        (λ left held. IsNoneLeft options silent.now taken.new left) queue.now
        (left_behind queue.now taken.new) (held_by administration.old diversions.now)
        (held_by administration.new diversions.now) (H.state host.old) (H.state host.new) result }
    ensures waits { OnOk result (IfSome taken.new (λ n. IsTrue (has queue.now.waiting n.0))) }
    ensures found { IfOk result (λ found. IfSome found (λ unit. (n : ℕ × Bool) × (taken.new
        ≡ Some n) × IsTrue (has queue.now.waiting n.0))) }
    ensures barred { is_some barred ≡ true → IfOk result (λ found. found ≡ None) }
    ensures wait { OnOk result (AreWaiting (left_behind queue.now taken.new)
        administration.new.database.records) }
    ensures order { OnOk result (Needs (H.state host.new)
        (IsInOrder administration.new.database administration.new.lists.lists)) }
    ensures open { OnOk result (IsOpen diversions.now.ways administration.new) }
    ensures answered { OnOk result (IsAnswered (H.state host.old) (H.state host.new)) }
    ensures told { TellsAll (H.state host.old) (H.state host.new) [] (calls_in result) }
    ensures any_moment { AtEachMomentOf (runs.IsAmidNext
        (λ left later. IsAmidTurn options (has silent.now) left) queue.now queue.now
        (held_by administration.old diversions.now)) (H.state host.old) (H.state host.new) }
    ensures counts { CountsTaken (H.state host.old) (H.state host.new) result }
    ensures not_closed { IfErr result (λ unit. IsBrokenBy Closed unit.reply → ⊥) }
    ensures abandoned { IfErr result (λ unit. IsBrokenBy Abandoned unit.reply
        → barred ≡ Some bar.Abandoned) }
{
    let alloc = administration.alloc;
    *taken = None;
    match queue.next(alloc, silent, options.ignore_depends) {
        Ok(Some(number)) => match take_turn(
            host,
            administration,
            diversions,
            options.policy,
            queue,
            number,
            barred,
        ) {
            Ok(unit) => {
                *taken = Some((number, is_done(&unit)));
                Ok(Some(unit))
            }
            Err(unit) => Err(unit),
        },
        Ok(None) => Ok(None),
        Err(_) => Err(no_memory(alloc)),
    }
}

/// The turns of a configure: the queue, and the turn that was taken last, with whether its package was configured. The queue goes
/// on behind that turn when the next one is taken; where memory is wanting for it, it is gone. They go by
/// these diversions.
#[derive(Drop)]
pub(crate) struct Configuring<'d> {
    pub(crate) diversions: &'d Diversions,
    pub(crate) queue: Option<Queue>,
    pub(crate) taken: Option<(usize, bool)>,
    pub(crate) silent: Vec<bool>,
    pub(crate) options: ConfigureOptions,
}

impl<'d, H: Host> Turns<H> for Configuring<'d> {
    ghost use Rattle.dependency_check.specs.Waiting.{Waiting};
    ghost use Rattle.dependency_sets.specs.Sets.{has};
    ghost use Rattle.configure_run.specs.Turns.{HasCalledNext, IsAmidTurn, IsTurn};
    ghost use Rattle.configure_run.specs.Taking.{IsBetween, IsOver, Task, count, left_of, task_of};

    ghost Task = { Task };

    ghost task = { task_of };

    ghost Left = { Waiting };

    ghost left = { left_of };

    ghost size = { count };

    ghost turn = { λ task. IsTurn task.options (has task.silent) };

    ghost amid = { λ task left later. IsAmidTurn task.options (has task.silent) left };

    ghost called = { λ task left later. HasCalledNext task.options (has task.silent) left };

    ghost goes = { λ task left later. Unit {0} };

    ghost diverted = { λ c. c.diversions.now };

    ghost between = { IsBetween };

    ghost over = { λ turns left held. IsOver turns left };

    fn take(
        &mut self,
        host: &mut H,
        administration: &mut Administration,
        barred: Option<Bar>,
    ) -> Result<Option<Unit>, Unit> {
        let alloc = administration.alloc;
        match mem::replace(&mut self.queue, None) {
            Some(queue) => match queue.behind(alloc, self.taken) {
                Ok(queue) => {
                    let taken = take_next(
                        host,
                        administration,
                        self.diversions,
                        self.options,
                        &queue,
                        self.silent.as_slice(),
                        barred,
                        &mut self.taken,
                    );
                    self.queue = Some(queue);
                    taken
                }
                Err(_) => Err(no_memory(alloc)),
            },
            None => unreachable!(),
        }
    }
}
