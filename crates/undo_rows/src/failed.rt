// Undo calls that failed.
ghost use Rattle.std.specs.Prelude.{◌≡◌, IfOk, IsTrue, ◌↔◌, Contains};
ghost use Rattle.undo_rows.specs.Undoing.{owners_of};

use crate::rows::Owner;
use std::alloc::AllocError;

/// An undo call that failed: of which row, counted from 0, and whose.
#[derive(Drop)]
pub struct Failed {
    pub row: usize,
    pub owner: Owner,
}

fn is_same(a: &Owner, b: &Owner) -> bool
    ensures { IsTrue result ↔ (a.now ≡ b.now) }
{
    match (a, b) {
        (Owner::Package(a), Owner::Package(b)) => a.is(b),
        (Owner::Files, Owner::Files) => true,
        _ => false,
    }
}

// Whether an undo call of this owner's has failed.
pub(crate) fn has_failed(failed: &[Failed], owner: &Owner) -> bool
    ensures { IsTrue result ↔ Contains (owners_of failed.now) owner.now }
{
    for one in failed {
        if is_same(&one.owner, owner) {
            return true;
        }
    }
    false
}

pub(crate) fn failed_at(index: usize, owner: &Owner) -> Result<Failed, AllocError>
    ensures row { IfOk result (λ f. f.row ≡ index) }
    ensures owner { IfOk result (λ f. f.owner ≡ owner.now) }
{
    Ok(Failed {
        row: index,
        owner: match owner {
            Owner::Package(name) => Owner::Package(name.copy()?),
            Owner::Files => Owner::Files,
        },
    })
}
