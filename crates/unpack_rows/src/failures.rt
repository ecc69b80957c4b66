// Which owners have an undo call that failed.
ghost use Rattle.std.specs.Prelude.{◌≡◌, ◌||◌};
ghost use Rattle.unpack_rows.specs.Failures.{has_failed, is_same};

use undo_rows::{Failed, Owner};

fn is_same(a: &Owner, b: &Owner) -> bool
    ensures { result ≡ is_same a.now b.now }
{
    match (a, b) {
        (Owner::Package(a), Owner::Package(b)) => a.as_str() == b.as_str(),
        (Owner::Files, Owner::Files) => true,
        _ => false,
    }
}

// Whether an undo call of this row or a later one failed, and is this owner's.
fn has_failed(row: usize, owner: &Owner, failed: &[Failed]) -> bool
    ensures { result ≡ has_failed row owner.now failed.now }
{
    failed
        .iter()
        .any(|one| row <= one.row && is_same(owner, &one.owner))
}

/// Whether nothing is noted after the undo of a row: it fails, or its owner has a failed one.
pub fn is_spared(fails: bool, row: usize, owner: &Owner, failed: &[Failed]) -> bool
    ensures { result ≡ (fails || has_failed row owner.now failed.now) }
{
    fails || has_failed(row, owner, failed)
}
