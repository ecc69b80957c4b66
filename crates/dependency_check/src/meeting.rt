// Whether one of some packages meets a clause.
ghost use Rattle.std.specs.Prelude.{◌≡◌, IfOk, IsTrue, ◌↔◌};
ghost use Rattle.std.specs.List.{list_any};
ghost use Rattle.dependency_sets.specs.Sets.{has};
ghost use Rattle.dependency_check.specs.Queues.{IsMetBy};
ghost use Rattle.relation_index.specs.Packages.{meets, those};

use dependency_sets::has;
use relation_fields::Clause;
use relation_index::{Package, Packages};
use std::alloc::{AllocError, Global};

fn has_one(set: &[bool], numbers: &[usize]) -> bool
    ensures { result ≡ list_any (has set.now) numbers.now }
{
    numbers.iter().any(|number| has(set, *number))
}

/// Whether one of the set meets the clause.
pub(crate) fn is_met_by(
    alloc: Global,
    packages: &Packages,
    clause: &Clause,
    set: &[bool],
) -> Result<bool, AllocError>
    ensures { IfOk result (λ met. IsTrue met ↔ IsMetBy packages.now clause.now (has set.now)) }
{
    let meeters = packages.meeters(alloc, clause)?;
    let met = has_one(set, meeters.as_slice());
    Ok(met)
}

/// Whether the package of this number meets the clause.
pub(crate) fn is_met_by_number(packages: &[Package], clause: &Clause, number: usize) -> bool
    ensures { result ≡ those (meets clause.now) packages.now number }
{
    match packages.get(number) {
        Some(other) => other.meets(clause),
        None => false,
    }
}

/// Whether one of these meets the clause.
pub(crate) fn is_met_by_one(packages: &[Package], clause: &Clause, numbers: &[usize]) -> bool
    ensures { result ≡ list_any (those (meets clause.now) packages.now) numbers.now }
{
    numbers
        .iter()
        .any(|number| is_met_by_number(packages, clause, *number))
}
