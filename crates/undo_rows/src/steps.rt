// One row after another, forward and back.
ghost use Rattle.std.specs.Prelude.{◌≡◌, ◌≢◌, ◌+◌, [], IfOk, IfSome, OnOk, IsTrue, ◌↔◌, length};
ghost use Rattle.host_core.specs.World.{is_kept};
ghost use Rattle.host_core.specs.Host.{AtEachMomentOf, Counts, OnlyScripts};
ghost use Rattle.scattered_losses.specs.Apart.{WorksApart};
ghost use Rattle.undo_rows.specs.declared.rows.Owner.TheVariants.{Files};
ghost use Rattle.undo_rows.specs.Transcript.{Begins, Makes, Tries, TriesRow};
ghost use Rattle.undo_rows.specs.Faults.{OnlyIfDeclined};
ghost use Rattle.undo_rows.specs.Place.{Back, Fit, Forward, blamed, called, leads};
ghost use Rattle.undo_rows.specs.Stops.{AtEachStop};
ghost use Rattle.undo_rows.specs.Telling.{Begun, HasStepped, HasUnwound, Made};
ghost use Rattle.undo_rows.specs.Transcripts.{MayStep, MayUndo, MayUnwind};
ghost use Rattle.undo_rows.specs.Undoing.{Undoes, UndoesAt};

use crate::around::Around;
use crate::failed::{Failed, failed_at, has_failed};
use crate::fall::Fall;
use crate::rows::{Called, Owner, Row, try_row, undo_row};
use host_core::{Host, HostFault, Keep};
use std::alloc::Global;

// Whether it is the file row.
fn is_files(row: &Row) -> bool
    ensures { IsTrue result ↔ (row.now.owner ≡ Files) }
{
    match &row.owner {
        Owner::Package(_) => false,
        Owner::Files => true,
    }
}

// A row of calls on the way forward. The answer is whether it succeeded.
fn step_calls<H: Host, A: Around<H>>(
    host: &mut H,
    around: &mut A,
    row: &Row,
    index: usize,
    told: &mut Vec<Called>,
) -> Result<bool, HostFault>
    requires place { A.at around.old (H.state host.old) (Forward index) }
    requires row { A.fits (A.task around.old) index row.now }
    requires calls { row.now.owner ≢ Files }
    ensures calls { IfOk result
        (λ ok. Made (λ ts. Tries row.now ts ok) (H.state host.old) (H.state host.new) told.old.items
        told.new.items) }
    ensures told { Begun (TriesRow row.now) (H.state host.old) (H.state host.new) told.old.items
        told.new.items }
    ensures place { IfOk result (λ ok. A.at around.new (H.state host.new) (called index ok)) }
    ensures any_moment { AtEachStop (A.stops (A.task around.old)) (H.state host.old)
        (H.state host.new) }
    ensures apart { WorksApart result A.area (H.state host.old) (H.state host.new) }
    ensures task { A.task around.new ≡ A.task around.old }
    ensures reference { A.reference around.new ≡ A.reference around.old }
    ensures counts { Counts (H.state host.old) (H.state host.new) result }
{
    around.prepare(host, row, index)?;
    let keep = Keep {
        places: around.places(),
    };
    let succeeded = try_row(host, &keep, row, told)?;
    around.conclude(host, row, index, succeeded)?;
    Ok(succeeded)
}

/// One row on the way forward. The answer is how it failed, if it did.
pub(crate) fn step<H: Host, A: Around<H>>(
    host: &mut H,
    around: &mut A,
    row: &Row,
    index: usize,
    told: &mut Vec<Called>,
) -> Result<Option<Fall>, HostFault>
    requires place { A.at around.old (H.state host.old) (Forward index) }
    requires row { A.fits (A.task around.old) index row.now }
    ensures calls { IfOk result
        (λ fall. HasStepped (A.file_step_fault (A.task around.old)) row.now fall (H.state host.old)
        (H.state host.new) told.old.items told.new.items) }
    ensures row { IfOk result (λ fall. IfSome fall (λ one. one.row ≡ index)) }
    ensures denied { IfOk result
        (λ fall. IfSome fall
        (λ one. OnlyIfDeclined one.fault (H.state host.old) (H.state host.new))) }
    ensures told { Begun (MayStep row.now) (H.state host.old) (H.state host.new) told.old.items
        told.new.items }
    ensures place { IfOk result (λ fall. A.at around.new (H.state host.new) (leads index fall)) }
    ensures any_moment { AtEachStop (A.stops (A.task around.old)) (H.state host.old)
        (H.state host.new) }
    ensures apart { WorksApart result A.area (H.state host.old) (H.state host.new) }
    ensures task { A.task around.new ≡ A.task around.old }
    ensures reference { A.reference around.new ≡ A.reference around.old }
    ensures counts { Counts (H.state host.old) (H.state host.new) result }
{
    if is_files(row) {
        let Some(fault) = around.work(host, row, index)? else {
            return Ok(None);
        };
        return Ok(Some(Fall {
            row: index,
            fault: Some(fault),
        }));
    }
    if step_calls(host, around, row, index, told)? {
        return Ok(None);
    }
    Ok(Some(Fall {
        row: index,
        fault: None,
    }))
}

// The undo call of a row, unless it is absent or its owner has a failed one. The answer is whether it failed.
fn undo_call<H: Host>(
    alloc: Global,
    host: &mut H,
    keep: &Keep<'_>,
    row: &Row,
    failed: &[Failed],
    told: &mut Vec<Called>,
) -> Result<bool, HostFault>
    requires calls { row.now.owner ≢ Files }
    ensures calls { IfOk result
        (λ fails.
        Makes (is_kept keep.now) (λ ts. Undoes row.now failed.now ts fails) (H.state host.old)
        (H.state host.new) told.old.items told.new.items) }
    ensures told { Begins (is_kept keep.now) (MayUndo row.now failed.now) (H.state host.old)
        (H.state host.new) told.old.items told.new.items }
    ensures any_moment { AtEachMomentOf (OnlyScripts (is_kept keep.now)) (H.state host.old)
        (H.state host.new) }
    ensures counts { Counts (H.state host.old) (H.state host.new) result }
{
    if has_failed(failed, &row.owner) {
        return Ok(false);
    }
    let mut owners = Vec::new(alloc);
    undo_row(host, keep, row, &mut owners, told)?;
    Ok(!owners.is_empty())
}

// A row of calls on the way back. The answer is whether its undo call failed.
fn undo_calls<H: Host, A: Around<H>>(
    alloc: Global,
    host: &mut H,
    around: &mut A,
    row: &Row,
    index: usize,
    fall: &Fall,
    failed: &[Failed],
    told: &mut Vec<Called>,
) -> Result<bool, HostFault>
    requires place { A.at around.old (H.state host.old) (Back (index + 1) fall.now failed.now) }
    requires row { A.fits (A.task around.old) index row.now }
    requires calls { row.now.owner ≢ Files }
    ensures calls { IfOk result
        (λ fails.
        Made (λ ts. Undoes row.now failed.now ts fails) (H.state host.old) (H.state host.new)
        told.old.items told.new.items) }
    ensures told { Begun (MayUndo row.now failed.now) (H.state host.old) (H.state host.new)
        told.old.items told.new.items }
    ensures place { IfOk result
        (λ fails. A.at around.new (H.state host.new)
        (Back index fall.now (blamed fails index row.now.owner failed.now))) }
    ensures any_moment { AtEachStop (A.stops (A.task around.old)) (H.state host.old)
        (H.state host.new) }
    ensures apart { WorksApart result A.area (H.state host.old) (H.state host.new) }
    ensures task { A.task around.new ≡ A.task around.old }
    ensures reference { A.reference around.new ≡ A.reference around.old }
    ensures counts { Counts (H.state host.old) (H.state host.new) result }
{
    let keep = Keep {
        places: around.places(),
    };
    let fails = undo_call(alloc, host, &keep, row, failed, told)?;
    around.undone(host, row, index, fall, failed, fails)?;
    Ok(fails)
}

// One row on the way back.
fn undo<H: Host, A: Around<H>>(
    alloc: Global,
    host: &mut H,
    around: &mut A,
    row: &Row,
    index: usize,
    fall: &Fall,
    failed: &mut Vec<Failed>,
    told: &mut Vec<Called>,
) -> Result<(), HostFault>
    requires place { A.at around.old (H.state host.old)
        (Back (index + 1) fall.now failed.old.items) }
    requires row { A.fits (A.task around.old) index row.now }
    ensures calls { OnOk result
        (Made (λ ts. UndoesAt index row.now failed.old.items ts failed.new.items) (H.state host.old)
        (H.state host.new) told.old.items told.new.items) }
    ensures told { Begun (MayUndo row.now failed.old.items) (H.state host.old) (H.state host.new)
        told.old.items told.new.items }
    ensures place { OnOk result
        (A.at around.new (H.state host.new) (Back index fall.now failed.new.items)) }
    ensures any_moment { AtEachStop (A.stops (A.task around.old)) (H.state host.old)
        (H.state host.new) }
    ensures apart { WorksApart result A.area (H.state host.old) (H.state host.new) }
    ensures task { A.task around.new ≡ A.task around.old }
    ensures reference { A.reference around.new ≡ A.reference around.old }
    ensures counts { Counts (H.state host.old) (H.state host.new) result }
{
    if is_files(row) {
        return around.put_back(host, row, index, fall, failed.as_slice());
    }
    if undo_calls(
        alloc,
        host,
        around,
        row,
        index,
        fall,
        failed.as_slice(),
        told,
    )? {
        failed.push(failed_at(index, &row.owner)?)?;
    }
    Ok(())
}

/// Undoes the rows, the last first.
pub(crate) fn unwind<H: Host, A: Around<H>>(
    alloc: Global,
    host: &mut H,
    around: &mut A,
    rows: &[Row],
    fall: &Fall,
    failed: &mut Vec<Failed>,
    told: &mut Vec<Called>,
) -> Result<(), HostFault>
    requires place { A.at around.old (H.state host.old) (Back (length rows.now) fall.now []) }
    requires rows { Fit (A.fits (A.task around.old)) rows.now }
    requires none { failed.old.items ≡ [] }
    ensures calls { OnOk result
        (HasUnwound rows.now failed.new.items (H.state host.old) (H.state host.new) told.old.items
        told.new.items) }
    ensures told { Begun (MayUnwind rows.now) (H.state host.old) (H.state host.new) told.old.items
        told.new.items }
    ensures place { OnOk result
        (A.at around.new (H.state host.new) (Back 0 fall.now failed.new.items)) }
    ensures any_moment { AtEachStop (A.stops (A.task around.old)) (H.state host.old)
        (H.state host.new) }
    ensures apart { WorksApart result A.area (H.state host.old) (H.state host.new) }
    ensures task { A.task around.new ≡ A.task around.old }
    ensures reference { A.reference around.new ≡ A.reference around.old }
    ensures counts { Counts (H.state host.old) (H.state host.new) result }
{
    let mut left = rows.len();
    while left > 0 {
        left -= 1;
        undo(alloc, host, around, &rows[left], left, fall, failed, told)?;
    }
    Ok(())
}
