// Which package breaks one that is to be configured.
ghost use Rattle.std.specs.Prelude.{◌≡◌, ℕ, IfOk, IsTrue, MatchOption};
ghost use Rattle.dependency_sets.specs.Choices.{IsFirst};
ghost use Rattle.dependency_check.specs.Breaking.{AreBreakers, states_breaks, states_some};
ghost use Rattle.dependency_check.specs.Deconfigured.{of_role};
ghost use Rattle.dependency_check.specs.declared.roles.Role.TheVariants.{Breaking};

use crate::roles::is_breaking;
use dependency_sets::{Numbers, listed};
use relation_fields::Clause;
use relation_index::{Package, Packages};
use std::alloc::{AllocError, Global};

fn states_some(field: &[Clause]) -> bool
    ensures { result ≡ states_some field.now }
{
    match field {
        [] => false,
        [_, ..] => true,
    }
}

fn states_breaks(of: &Package) -> bool
    ensures { result ≡ states_breaks of.now }
{
    states_some(of.breaks.clauses())
}

/// The packages that state Breaks, in name order: no other breaks one.
pub fn breakers_of(alloc: Global, packages: &[Package]) -> Result<Numbers, AllocError>
    ensures { IfOk result (AreBreakers packages.now) }
{
    let mut marks = Vec::new(alloc);
    for of in packages {
        marks.push(states_breaks(of))?;
    }
    let list = listed(alloc, marks.as_slice())?;
    Ok(list)
}

// Whether the package of a number breaks it.
fn is_breaking_at(packages: &[Package], of: &Package, number: usize) -> bool
    ensures { result ≡ of_role Breaking of.now packages.now number }
{
    match packages.get(number) {
        Some(other) => is_breaking(of, other),
        None => false,
    }
}

fn first_breaking(packages: &[Package], breakers: &[usize], of: &Package) -> Option<usize>
    requires { AreBreakers packages.now breakers.now }
    ensures { MatchOption result ((x : ℕ) → IsTrue (of_role Breaking of.now packages.now x)
        → ⊥) (IsFirst (λ x. IsTrue (of_role Breaking of.now packages.now x))) }
{
    for number in breakers {
        if is_breaking_at(packages, of, *number) {
            return Some(*number);
        }
    }
    None
}

/// The first other package that is at least half-installed and admits this one in Breaks. Only those that state some are looked
/// at.
pub fn broken_by(packages: &Packages, breakers: &[usize], of: &Package) -> Option<usize>
    requires { AreBreakers packages.now breakers.now }
    ensures { MatchOption result ((x : ℕ) → IsTrue (of_role Breaking of.now packages.now x)
        → ⊥) (IsFirst (λ x. IsTrue (of_role Breaking of.now packages.now x))) }
{
    first_breaking(packages.as_slice(), breakers, of)
}
