// The rows before that of the files, and the others.
ghost use Rattle.std.specs.Prelude.{◌≡◌, ◌≤◌, ◌++◌, ◌+◌, IfOk, false, length, take};
ghost use Rattle.unpack_rows.specs.Stages.{has_files, is_files};

use crate::plan::Rows;
use std::alloc::{AllocError, Global};
use undo_rows::Row;
use unpack_rows::RowKind;

/// The rows of an unpack up to that of the files, and the others.
#[derive(Drop)]
pub struct Halves {
    pub before: Vec<Row>,
    pub files: Vec<Row>,
}

// It is the row of the files.
fn is_files(kind: &RowKind) -> bool
    ensures { result ≡ is_files kind.now }
{
    match kind {
        RowKind::Files => true,
        RowKind::Prerm | RowKind::Other(_) | RowKind::Preinst | RowKind::Postrm => false,
    }
}

// How many rows are before that of the files.
fn count_before(kinds: &[RowKind]) -> usize
    ensures within { result ≤ length kinds.now }
    ensures before { has_files (take result kinds.now) ≡ false }
    ensures next { has_files (take (result + 1) kinds.now) ≡ has_files kinds.now }
{
    let mut count = 0;
    for kind in kinds {
        if is_files(kind) {
            return count;
        }
        count += 1;
    }
    count
}

/// Parts the rows of an unpack where that of the files comes.
pub fn part_rows(alloc: Global, rows: &Rows, calls: Vec<Row>) -> Result<Halves, AllocError>
    requires { length calls.items ≡ length rows.now.kinds.items }
    ensures all { IfOk result (λ h. h.before.items ++ h.files.items ≡ calls.items) }
    ensures before { IfOk result (λ h.
        has_files (take (length h.before.items) rows.now.kinds.items) ≡ false) }
    ensures next { IfOk result (λ h.
        has_files (take (length h.before.items + 1) rows.now.kinds.items)
        ≡ has_files rows.now.kinds.items) }
{
    let count = count_before(rows.kinds.as_slice());
    let mut before = Vec::new(alloc);
    let mut files = Vec::new(alloc);
    for row in calls {
        if before.len() < count {
            before.push(row)?;
        } else {
            files.push(row)?;
        }
    }
    Ok(Halves { before, files })
}
