// A run of rows: forward, and back where one fails.
ghost use Rattle.std.specs.Prelude.{◌≡◌, ◌++◌, [], IfNone, IfOk, IfSome, IsSome, List, None, Some, length};
ghost use Rattle.host_core.specs.Host.{Counts, State};
ghost use Rattle.scattered_losses.specs.Apart.{WorksApart};
ghost use Rattle.undo_rows.specs.Faults.{OnlyIfDeclined};
ghost use Rattle.undo_rows.specs.Place.{Back, Fit, Forward};
ghost use Rattle.undo_rows.specs.Stops.{AtEachStop};
ghost use Rattle.undo_rows.specs.Telling.{Begun, HasRun, HasSucceeded, HasUnwound};
ghost use Rattle.undo_rows.specs.declared.rows.Called.{Called};
ghost use Rattle.undo_rows.specs.Transcripts.{MayRun, MayUnwind};
ghost use Rattle.undo_rows.specs.Ended.{IsCauseOf, cause_of, end_place, ended_as};
ghost use Rattle.undo_rows.specs.Stepping.{HasStopped, stop_place};

use crate::around::Around;
use crate::failed::Failed;
use crate::failure::failure_of;
use crate::laws::{steps_and_an_unwind_are_a_run, what_is_broken_off_begins_a_run};
use crate::rows::{Called, Row};
use crate::stack::Stack;
use crate::stopped::Stopped;
use crate::unwinding::Unwinding;
use host_core::{Call, Host, HostFault};
use std::alloc::{AllocError, Global};

// The forward call of a row, which goes into the stack before it can fail.
fn forward_copy(row: &Row) -> Result<Option<Call>, AllocError>
    ensures { IfOk result (λ forward. forward ≡ row.now.forward) }
{
    match &row.forward {
        Some(call) => Ok(Some(call.copy()?)),
        None => Ok(None),
    }
}

// Steps through the rows behind those of the stack, until one fails.
fn step_rows<H: Host, A: Around<H>>(
    host: &mut H,
    around: &mut A,
    stack: &mut Stack,
    rows: Vec<Row>,
    told: &mut Vec<Called>,
) -> Result<Option<Stopped>, HostFault>
    requires place { A.at around.old (H.state host.old) (Forward (length stack.old)) }
    requires rows { Fit (A.fits (A.task around.old)) (stack.old ++ rows.items) }
    ensures calls { IfOk result
        (λ stopped. HasStopped (A.file_step_fault (A.task around.old)) stopped stack.old rows.items
        stack.new (H.state host.old) (H.state host.new) told.old.items told.new.items) }
    ensures told { (start : State) (before : List Called)
        → HasSucceeded (A.file_step_fault (A.task around.old)) stack.old start (H.state host.old)
        before told.old.items
        → Begun (MayRun (stack.old ++ rows.items)) start (H.state host.new) before told.new.items }
    ensures stacked { IfOk result
        (λ stopped. IfNone stopped (stack.new ≡ stack.old ++ rows.items)) }
    ensures place { IfOk result
        (λ stopped. A.at around.new (H.state host.new)
        (stop_place (length (stack.old ++ rows.items)) (length stack.new) stopped)) }
    ensures denied { IfOk result
        (λ stopped. IfSome stopped
        (λ one. OnlyIfDeclined one.fall.fault (H.state host.old) (H.state host.new))) }
    ensures any_moment { AtEachStop (A.stops (A.task around.old)) (H.state host.old)
        (H.state host.new) }
    ensures apart { WorksApart result A.area (H.state host.old) (H.state host.new) }
    ensures task { A.task around.new ≡ A.task around.old }
    ensures reference { A.reference around.new ≡ A.reference around.old }
    ensures counts { Counts (H.state host.old) (H.state host.new) result }
{
    steps_and_an_unwind_are_a_run::<H, A>();
    what_is_broken_off_begins_a_run::<H, A>();
    for row in rows {
        let forward = forward_copy(&row)?;
        if let Some(fall) = stack.step(host, around, row, told)? {
            return Ok(Some(Stopped { fall, forward }));
        }
    }
    Ok(None)
}

fn unwinding_of(stopped: Stopped, failed: Vec<Failed>) -> Result<Unwinding, AllocError>
    requires called { stopped.fall.fault ≡ None → IsSome stopped.forward }
    ensures fall { IfOk result (λ u. u.fall ≡ stopped.fall) }
    ensures failed { IfOk result (λ u. u.failed.items ≡ failed.items) }
    ensures cause { IfOk result
        (λ u. cause_of stopped.fall.fault stopped.forward ≡ Some u.failure) }
{
    let Stopped { fall, forward } = stopped;
    let failure = failure_of(&fall, forward)?;
    Ok(Unwinding {
        fall,
        failed,
        failure,
    })
}

// Undoes the rows of the stack, of which the last has failed.
fn unwind_rows<H: Host, A: Around<H>>(
    alloc: Global,
    host: &mut H,
    around: &mut A,
    stack: &mut Stack,
    stopped: Stopped,
    told: &mut Vec<Called>,
) -> Result<Unwinding, HostFault>
    requires place { A.at around.old (H.state host.old) (Back (length stack.old) stopped.fall []) }
    requires rows { Fit (A.fits (A.task around.old)) stack.old }
    requires called { stopped.fall.fault ≡ None → IsSome stopped.forward }
    ensures calls { IfOk result
        (λ u.
        HasUnwound stack.old u.failed.items (H.state host.old) (H.state host.new) told.old.items
        told.new.items) }
    ensures fall { IfOk result (λ u. u.fall ≡ stopped.fall) }
    ensures cause { IfOk result
        (λ u. cause_of stopped.fall.fault stopped.forward ≡ Some u.failure) }
    ensures told { Begun (MayUnwind stack.old) (H.state host.old) (H.state host.new) told.old.items
        told.new.items }
    ensures place { IfOk result
        (λ u. A.at around.new (H.state host.new) (Back 0 stopped.fall u.failed.items)) }
    ensures any_moment { AtEachStop (A.stops (A.task around.old)) (H.state host.old)
        (H.state host.new) }
    ensures apart { WorksApart result A.area (H.state host.old) (H.state host.new) }
    ensures task { A.task around.new ≡ A.task around.old }
    ensures reference { A.reference around.new ≡ A.reference around.old }
    ensures counts { Counts (H.state host.old) (H.state host.new) result }
{
    match stack.unwind(alloc, host, around, &stopped.fall, told) {
        Ok(failed) => Ok(unwinding_of(stopped, failed)?),
        Err(fault) => Err(fault),
    }
}

/// Steps through the rows behind those of the stack, which have succeeded; where one fails, it and all before it are undone. The
/// answer is how, or none where all succeeded; the stack has them too then.
pub fn run_part<H: Host, A: Around<H>>(
    alloc: Global,
    host: &mut H,
    around: &mut A,
    stack: &mut Stack,
    rows: Vec<Row>,
    told: &mut Vec<Called>,
) -> Result<Option<Unwinding>, HostFault>
    requires place { A.at around.old (H.state host.old) (Forward (length stack.old)) }
    requires rows { Fit (A.fits (A.task around.old)) (stack.old ++ rows.items) }
    ensures calls { IfOk result (λ u. (start : State) (before : List Called)
        → HasSucceeded (A.file_step_fault (A.task around.old)) stack.old start (H.state host.old)
        before told.old.items
        → HasRun (A.file_step_fault (A.task around.old)) (ended_as u) (stack.old ++ rows.items)
        start (H.state host.new) before told.new.items) }
    ensures stacked { IfOk result (λ u. IfNone u (stack.new ≡ stack.old ++ rows.items)) }
    ensures cause { IfOk result (IsCauseOf (stack.old ++ rows.items)) }
    ensures denied { IfOk result
        (λ u. IfSome u
        (λ one. OnlyIfDeclined one.fall.fault (H.state host.old) (H.state host.new))) }
    ensures told { (start : State) (before : List Called)
        → HasSucceeded (A.file_step_fault (A.task around.old)) stack.old start (H.state host.old)
        before told.old.items
        → Begun (MayRun (stack.old ++ rows.items)) start (H.state host.new) before told.new.items }
    ensures place { IfOk result (λ u. A.at around.new (H.state host.new)
        (end_place (length (stack.old ++ rows.items)) u)) }
    ensures any_moment { AtEachStop (A.stops (A.task around.old)) (H.state host.old)
        (H.state host.new) }
    ensures apart { WorksApart result A.area (H.state host.old) (H.state host.new) }
    ensures task { A.task around.new ≡ A.task around.old }
    ensures reference { A.reference around.new ≡ A.reference around.old }
    ensures counts { Counts (H.state host.old) (H.state host.new) result }
{
    steps_and_an_unwind_are_a_run::<H, A>();
    what_is_broken_off_begins_a_run::<H, A>();
    let Some(stopped) = step_rows(host, around, stack, rows, told)? else {
        return Ok(None);
    };
    Ok(Some(unwind_rows(alloc, host, around, stack, stopped, told)?))
}

/// Steps through the rows; where one fails, it and those before it are undone. The answer is how, or none where all succeeded.
pub fn run_rows<H: Host, A: Around<H>>(
    alloc: Global,
    host: &mut H,
    around: &mut A,
    rows: Vec<Row>,
    told: &mut Vec<Called>,
) -> Result<Option<Unwinding>, HostFault>
    requires place { A.at around.old (H.state host.old) (Forward 0) }
    requires rows { Fit (A.fits (A.task around.old)) rows.items }
    ensures calls { IfOk result
        (λ u.
        HasRun (A.file_step_fault (A.task around.old)) (ended_as u) rows.items (H.state host.old)
        (H.state host.new) told.old.items told.new.items) }
    ensures cause { IfOk result (IsCauseOf rows.items) }
    ensures denied { IfOk result
        (λ u. IfSome u
        (λ one. OnlyIfDeclined one.fall.fault (H.state host.old) (H.state host.new))) }
    ensures told { Begun (MayRun rows.items) (H.state host.old) (H.state host.new) told.old.items
        told.new.items }
    ensures place { IfOk result
        (λ u. A.at around.new (H.state host.new) (end_place (length rows.items) u)) }
    ensures any_moment { AtEachStop (A.stops (A.task around.old)) (H.state host.old)
        (H.state host.new) }
    ensures apart { WorksApart result A.area (H.state host.old) (H.state host.new) }
    ensures task { A.task around.new ≡ A.task around.old }
    ensures reference { A.reference around.new ≡ A.reference around.old }
    ensures counts { Counts (H.state host.old) (H.state host.new) result }
{
    steps_and_an_unwind_are_a_run::<H, A>();
    let mut stack = Stack::new(alloc);
    run_part(alloc, host, around, &mut stack, rows, told)
}
