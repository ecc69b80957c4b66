// The first of a set, and its members in name order.
ghost use Rattle.std.specs.Prelude.{◌≡◌, ℕ, ◌++◌, ◌∷◌, [], MatchOption, IfOk, OnOk, IsTrue, ◌&&◌, if◌then◌else◌};
ghost use Rattle.dependency_sets.specs.Sets.{has};
ghost use Rattle.dependency_sets.specs.Choices.{IsFirst, IsListing};

use crate::marks::has;
use crate::numbers::Numbers;
use std::alloc::{AllocError, Global};

fn has_both(one: &[bool], other: &[bool], package_number: usize) -> bool
    ensures { result ≡ (has one.now package_number && has other.now package_number) }
{
    has(one, package_number) && has(other, package_number)
}

/// The first package that is in both sets.
pub fn first_of_both(one: &[bool], other: &[bool]) -> Option<usize>
    ensures { MatchOption result ((x : ℕ) → IsTrue (has one.now x && has other.now x)
        → ⊥) (IsFirst (λ x. IsTrue (has one.now x && has other.now x))) }
{
    for i in 0..one.len() {
        if has_both(one, other, i) {
            return Some(i);
        }
    }
    None
}

fn push_if_marked(list: &mut Numbers, set: &[bool], number: usize) -> Result<(), AllocError>
    ensures { OnOk result (list.new ≡ (if has set.now number then list.old ++ number
        ∷ [] else list.old)) }
{
    if has(set, number) {
        list.push(number)?;
    }
    Ok(())
}

/// The members of a set in name order.
pub fn listed(alloc: Global, set: &[bool]) -> Result<Numbers, AllocError>
    ensures { IfOk result (IsListing (λ x. IsTrue (has set.now x))) }
{
    let mut list = Numbers::new(alloc);
    for number in 0..set.len() {
        push_if_marked(&mut list, set, number)?;
    }
    Ok(list)
}
