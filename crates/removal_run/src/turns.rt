// The removals of a command, one after another.
ghost use Rattle.std.specs.Prelude.{◌≡◌, ◌<◌, ◌++◌, [], ℕ, true, IfErr, IfOk, IfSome, IsTrue, None, OnOk, Some, is_some, length};
ghost use Rattle.dependency_check.specs.Waiting.{IsRemovableNow};
ghost use Rattle.host_core.specs.Host.{AtEachMomentOf, Needs, Since, NoFault};
ghost use Rattle.host_core.specs.Loss.{IsAnswered};
ghost use Rattle.held_administration.specs.Open.{IsOpen};
ghost use Rattle.recorded_packages.specs.Renewal.{AreSameBut};
ghost use Rattle.removal_run.specs.Next.{IsNothing};
ghost use Rattle.removal_run.specs.Taking.{IsQueueTo};
ghost use Rattle.removal_run.specs.Turns.{AreAccepted, HasCalledNext, HasStopped, HasTurned, IsAmidTurn, IsAmidTurns, IsTurn};
ghost use Rattle.removal_run.specs.Waiting.{IsQueueNow};
ghost use Rattle.held_administration.specs.Order.{IsInOrder};
ghost use Rattle.unit_reports.specs.Held.{held_by};
ghost use Rattle.unit_reports.specs.Units.{CountsReply, IsBrokenBy, TellsNoPackage, calls_of};
ghost use Rattle.unit_reports.specs.declared.report.Breakage.TheVariants.{Abandoned, Closed, NoMemory};
ghost use Rattle.unit_reports.specs.Watching.{AddsTold};
ghost use Rattle.undo_rows.specs.Transcript.{TellsAll};
ghost use Rattle.unit_runs.specs.Taking.{CountsTaken, IsTaken, calls_in};
ghost use Rattle.unit_runs.specs.Turns as runs;
ghost use Rattle.unit_runs.specs.declared.barring.Bar.TheVariants as bar;

use crate::extents::purges;
use crate::names::strike;
use crate::options::RemovalOptions;
use crate::units::remove_one;
use crate::waiting::{Next, next_of, queue_now, queue_of};
use dependency_check::RemoveQueue;
use diversions::Diversions;
use held_administration::Administration;
use host_core::Host;
use relation_index::Packages;
use std::alloc::Global;
use std::mem;
use texts::Text;
use unit_reports::{Breakage, Unit, Watcher, broken};
use unit_runs::{Bar, Turns, run_units};

// Memory was wanting before anything was done.
fn no_memory(alloc: Global) -> Unit
    ensures reply { IsBrokenBy NoMemory result.reply }
    ensures told { result.calls.items ≡ [] }
    ensures touched { TellsNoPackage result }
{
    broken(alloc, Vec::new(alloc), Breakage::NoMemory)
}

// The removal of the next of the queue; none where none of those that wait can be removed. It is told which was removed.
fn take_next<H: Host>(
    host: &mut H,
    administration: &mut Administration,
    diversions: &Diversions,
    options: RemovalOptions,
    queue: &RemoveQueue,
    barred: Option<Bar>,
    waiting: &mut Vec<Text>,
    removed: &mut Option<usize>,
) -> Result<Option<Unit>, Unit>
    requires order { Needs (H.state host.old)
        (IsInOrder administration.old.database administration.old.lists.lists) }
    requires open { IsOpen diversions.now.ways administration.old }
    requires accepted { AreAccepted options.extents administration.old.database.records waiting.old.items }
    requires queue { IsQueueNow queue.now.packages administration.old.database.records
        waiting.old.items queue.now }
    ensures taken { IsTaken (IsTurn options queue.now.packages)
        (λ left later. HasCalledNext options queue.now.packages left)
        (λ left held. (waiting.new.items ≡ left) × IsNothing options.ignore_depends queue.now.packages held.records.records
        left queue.now) waiting.old.items waiting.new.items
        (held_by administration.old diversions.now) (held_by administration.new diversions.now)
        (H.state host.old) (H.state host.new) result }
    ensures queue { OnOk result (IsQueueTo queue.now.packages administration.new.database.records
        waiting.new.items queue.now removed.new) }
    ensures accepted { OnOk result (AreAccepted options.extents administration.new.database.records
        waiting.new.items) }
    ensures fewer { IfOk result (λ found. IfSome found (λ unit. length waiting.new.items
        < length waiting.old.items)) }
    ensures barred { is_some barred ≡ true → IfOk result (λ found. found ≡ None) }
    ensures order { OnOk result (Needs (H.state host.new)
        (IsInOrder administration.new.database administration.new.lists.lists)) }
    ensures open { OnOk result (IsOpen diversions.now.ways administration.new) }
    ensures answered { OnOk result (IsAnswered (H.state host.old) (H.state host.new)) }
    ensures told { TellsAll (H.state host.old) (H.state host.new) [] (calls_in result) }
    ensures any_moment { AtEachMomentOf (runs.IsAmidNext
        (λ left later. IsAmidTurn options queue.now.packages left) waiting.old.items waiting.new.items
        (held_by administration.old diversions.now)) (H.state host.old) (H.state host.new) }
    ensures counts { CountsTaken (H.state host.old) (H.state host.new) result }
    ensures not_closed { IfErr result (λ unit. IsBrokenBy Closed unit.reply → ⊥) }
    ensures abandoned { IfErr result (λ unit. IsBrokenBy Abandoned unit.reply
        → barred ≡ Some bar.Abandoned) }
{
    let alloc = administration.alloc;
    *removed = None;
    match next_of(alloc, queue, waiting.as_slice(), options.ignore_depends) {
        Ok(Some(next)) => {
            let Next { number, name } = next;
            let purge = purges(options.extents, &administration.database, &name);
            strike(waiting, &name);
            match remove_one(host, administration, diversions, name, purge, barred) {
                Ok(unit) => {
                    *removed = Some(number);
                    Ok(Some(unit))
                }
                Err(unit) => Err(unit),
            }
        }
        Ok(None) => Ok(None),
        Err(_) => Err(no_memory(alloc)),
    }
}

/// The removals of a command: the queue, the package that was removed last, and the names that wait. The queue is that of before
/// that removal until the next one is taken; where memory is wanting for it, it is gone. They go by
/// these diversions.
#[derive(Drop)]
pub(crate) struct Removing<'d> {
    pub(crate) diversions: &'d Diversions,
    pub(crate) queue: Option<RemoveQueue>,
    pub(crate) removed: Option<usize>,
    pub(crate) waiting: Vec<Text>,
    pub(crate) options: RemovalOptions,
}

impl<'d, H: Host> Turns<H> for Removing<'d> {
    ghost use Rattle.std.specs.Prelude.{ℕ, List, length};
    ghost use Rattle.removal_run.specs.Turns.{HasCalledNext, IsAmidTurn, IsTurn};
    ghost use Rattle.removal_run.specs.Taking.{IsBetween, IsOver, Task, names_of, task_of};

    ghost Task = { Task };

    ghost task = { task_of };

    ghost Left = { List (List ℕ) };

    ghost left = { names_of };

    ghost size = { λ names. length names };

    ghost turn = { λ task. IsTurn task.options task.packages };

    ghost amid = { λ task left later. IsAmidTurn task.options task.packages left };

    ghost called = { λ task left later. HasCalledNext task.options task.packages left };

    ghost goes = { λ task left later. Unit {0} };

    ghost diverted = { λ r. r.diversions.now };

    ghost between = { IsBetween };

    ghost over = { IsOver };

    fn take(
        &mut self,
        host: &mut H,
        administration: &mut Administration,
        barred: Option<Bar>,
    ) -> Result<Option<Unit>, Unit> {
        let alloc = administration.alloc;
        match mem::replace(&mut self.queue, None) {
            Some(queue) => match queue_now(
                alloc,
                queue,
                self.removed,
                &administration.database,
                self.waiting.as_slice(),
            ) {
                Ok(queue) => {
                    let found = take_next(
                        host,
                        administration,
                        self.diversions,
                        self.options,
                        &queue,
                        barred,
                        &mut self.waiting,
                        &mut self.removed,
                    );
                    self.queue = Some(queue);
                    found
                }
                Err(_) => Err(no_memory(alloc)),
            },
            None => unreachable!(),
        }
    }
}

/// Removes packages in turn until none of those that wait can be removed, or one was broken off. The packages are those of
/// all records in the beginning. The answer is the queue of those that still wait, and their names.
pub(crate) fn run_turns<H: Host, W: Watcher>(
    host: &mut H,
    administration: &mut Administration,
    packages: Packages,
    diversions: &Diversions,
    options: RemovalOptions,
    waiting: Vec<Text>,
    units: &mut Vec<Unit>,
    watcher: &mut W,
) -> Result<(RemoveQueue, Vec<Text>), Unit>
    requires order { Needs (H.state host.old)
        (IsInOrder administration.old.database administration.old.lists.lists) }
    requires open { IsOpen diversions.now.ways administration.old }
    requires accepted { AreAccepted options.extents administration.old.database.records waiting.items }
    ensures turned { IfOk result (λ left. HasTurned options packages waiting.items left.1.items
        (held_by administration.old diversions.now) (held_by administration.new diversions.now)
        (H.state host.old) (H.state host.new) units.old.items units.new.items) }
    ensures nothing { IfOk result (λ left. IsNothing options.ignore_depends packages administration.new.database.records
        left.1.items left.0) }
    ensures others { OnOk result (AreSameBut waiting.items administration.old.database.records
        administration.new.database.records) }
    ensures stopped { IfErr result (HasStopped options packages waiting.items
        (held_by administration.old diversions.now) (H.state host.old) (H.state host.new)
        units.old.items units.new.items) }
    ensures told { OnOk result (TellsAll (H.state host.old) (H.state host.new)
        (calls_of units.old.items) (calls_of units.new.items)) }
    ensures told_stopped { IfErr result (λ unit. TellsAll (H.state host.old) (H.state host.new)
        (calls_of units.old.items) (calls_of units.new.items ++ unit.calls.items)) }
    ensures any_moment { Since (IsAmidTurns options packages waiting.items
        (held_by administration.old diversions.now) (H.state host.old)) (H.state host.old)
        (H.state host.new) }
    ensures no_fault { OnOk result (NoFault (H.state host.old) (H.state host.new)) }
    ensures counts { IfErr result (λ unit. CountsReply (H.state host.old) (H.state host.new)
        unit.reply) }
    ensures not_closed { IfErr result (λ unit. IsBrokenBy Closed unit.reply → ⊥) }
    ensures abandoned { IfErr result (λ unit. IsBrokenBy Abandoned unit.reply
        → IsTrue (W.ends watcher.new)) }
    ensures order { OnOk result (Needs (H.state host.new)
        (IsInOrder administration.new.database administration.new.lists.lists)) }
    ensures open { OnOk result (IsOpen diversions.now.ways administration.new) }
    ensures answered { OnOk result (IsAnswered (H.state host.old) (H.state host.new)) }
    ensures watched { AddsTold W.tells (H.state host.old) units.old.items units.new.items
        watcher.old watcher.new }
{
    let alloc = administration.alloc;
    let queue = match queue_of(
        alloc,
        packages,
        &administration.database,
        waiting.as_slice(),
    ) {
        Ok(queue) => queue,
        Err(_) => return Err(no_memory(alloc)),
    };
    let mut turns = Removing {
        queue: Some(queue),
        removed: None,
        waiting,
        options,
        diversions,
    };
    match run_units(host, administration, &mut turns, units, watcher) {
        Ok(()) => {
            let Removing {
                queue,
                removed: _,
                waiting,
                options: _,
                diversions: _,
            } = turns;
            match queue {
                Some(queue) => Ok((queue, waiting)),
                None => unreachable!(),
            }
        }
        Err(unit) => Err(unit),
    }
}
