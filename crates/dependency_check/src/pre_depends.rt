// Whether Pre-Depends are met before an unpack.
ghost use Rattle.std.specs.Prelude.{◌≡◌, ℕ, IfOk, IsTrue, ◌↔◌, MatchOption};
ghost use Rattle.std.specs.List.{list_any};
ghost use Rattle.dependency_sets.specs.Choices.{IsFirst};
ghost use Rattle.dependency_check.specs.Unpack.{met_when_configured, meets_beforehand, IsMetBeforehand, IsUnmetBeforehand};
ghost use Rattle.relation_index.specs.Packages.{those};

use relation_fields::{Clause, Offer};
use relation_index::{Package, Packages};
use std::alloc::{AllocError, Global};

fn met_when_configured(clause: &Clause, other: &Package) -> bool
    ensures { result ≡ met_when_configured clause.now other.now other.now.configured }
{
    match &other.configured {
        Some(version) => clause.admits(&Offer {
            name: other.name.as_str(),
            architecture: &other.architecture,
            version,
            provides: &other.provides,
        }),
        None => false,
    }
}

fn meets_beforehand(clause: &Clause, other: &Package) -> bool
    ensures { result ≡ meets_beforehand clause.now other.now }
{
    other.meets(clause)
        && ((other.is_installed() && !other.awaits)
            || (other.is_unpacked()
                && (!other.removed_since && met_when_configured(clause, other))))
}

fn meets_beforehand_at(packages: &[Package], clause: &Clause, number: usize) -> bool
    ensures { result ≡ those (meets_beforehand clause.now) packages.now number }
{
    match packages.get(number) {
        Some(other) => meets_beforehand(clause, other),
        None => false,
    }
}

fn one_meets_beforehand(packages: &[Package], clause: &Clause, numbers: &[usize]) -> bool
    ensures { result ≡ list_any (those (meets_beforehand clause.now) packages.now) numbers.now }
{
    numbers
        .iter()
        .any(|number| meets_beforehand_at(packages, clause, *number))
}

fn is_met_beforehand(
    alloc: Global,
    packages: &Packages,
    clause: &Clause,
) -> Result<bool, AllocError>
    ensures { IfOk result (λ met. IsTrue met ↔ IsMetBeforehand packages.now clause.now) }
{
    let meeters = packages.meeters(alloc, clause)?;
    let met = one_meets_beforehand(packages.as_slice(), clause, meeters.as_slice());
    Ok(met)
}

/// The first of the clauses of Pre-Depends that no package meets before the unpack.
pub(crate) fn first_unmet_beforehand(
    alloc: Global,
    packages: &Packages,
    clauses: &[Clause],
) -> Result<Option<usize>, AllocError>
    ensures { IfOk result (λ found. MatchOption found ((k : ℕ) → IsUnmetBeforehand packages.now
        clauses.now k → ⊥) (IsFirst (IsUnmetBeforehand packages.now clauses.now))) }
{
    for place in 0..clauses.len() {
        let met = is_met_beforehand(alloc, packages, &clauses[place])?;
        if !met {
            return Ok(Some(place));
        }
    }
    Ok(None)
}
