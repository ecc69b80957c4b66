// What other packages are to a package that is unpacked or configured.
ghost use Rattle.std.specs.Prelude.{◌≡◌, ℕ, map, IfOk, IsTrue, MatchOption};
ghost use Rattle.dependency_sets.specs.Choices.{IsFirst, IsListing};
ghost use Rattle.dependency_check.specs.Deconfigured.{of_role};
ghost use Rattle.dependency_check.specs.Roles.{admits_in, is_other, is_conflicting, is_unyielding, is_broken, is_going, is_remaining, is_dependable, is_breaking, plays};

use dependency_sets::{Numbers, listed};
use relation_fields::Clause;
use relation_index::Package;
use std::alloc::{AllocError, Global};

/// What another package is to one that is unpacked or configured.
#[derive(Clone, Copy, Debug)]
pub enum Role {
    /// One of the two admits the other in Conflicts.
    Conflicting,
    /// Conflicting, and not admitted by Replaces or requiring reinstallation.
    Unyielding,
    /// Conflicting and essential.
    EssentialConflict,
    /// Installed, not conflicting, and admitted by Breaks.
    Broken,
    /// Installed and conflicting.
    Going,
    /// Installed and not conflicting.
    Remaining,
    /// Remaining and not broken.
    Dependable,
    /// Admits the package in Breaks.
    Breaking,
}

fn admits_in(field: &[Clause], other: &Package) -> bool
    ensures { result ≡ admits_in field.now other.now }
{
    field.iter().any(|clause| other.meets(clause))
}

fn is_other(incoming: &Package, other: &Package) -> bool
    ensures { result ≡ is_other incoming.now other.now }
{
    !(other.name.as_str() == incoming.name.as_str())
}

fn is_conflicting(incoming: &Package, other: &Package) -> bool
    ensures { result ≡ is_conflicting incoming.now other.now }
{
    is_other(incoming, other)
        && (other.is_present()
            && (admits_in(incoming.conflicts.clauses(), other)
                || admits_in(other.conflicts.clauses(), incoming)))
}

fn is_unyielding(incoming: &Package, other: &Package) -> bool
    ensures { result ≡ is_unyielding incoming.now other.now }
{
    is_conflicting(incoming, other)
        && (other.reinstreq || !admits_in(incoming.replaces.clauses(), other))
}

fn is_broken(incoming: &Package, other: &Package) -> bool
    ensures { result ≡ is_broken incoming.now other.now }
{
    is_other(incoming, other)
        && (other.is_installed()
            && (!is_conflicting(incoming, other) && admits_in(incoming.breaks.clauses(), other)))
}

fn is_going(incoming: &Package, other: &Package) -> bool
    ensures { result ≡ is_going incoming.now other.now }
{
    other.is_installed() && is_conflicting(incoming, other)
}

fn is_remaining(incoming: &Package, other: &Package) -> bool
    ensures { result ≡ is_remaining incoming.now other.now }
{
    other.is_installed() && (is_other(incoming, other) && !is_conflicting(incoming, other))
}

fn is_dependable(incoming: &Package, other: &Package) -> bool
    ensures { result ≡ is_dependable incoming.now other.now }
{
    is_remaining(incoming, other) && !is_broken(incoming, other)
}

pub(crate) fn is_breaking(incoming: &Package, other: &Package) -> bool
    ensures { result ≡ is_breaking incoming.now other.now }
{
    is_other(incoming, other) && (other.is_present() && admits_in(other.breaks.clauses(), incoming))
}

pub(crate) fn plays(role: Role, incoming: &Package, other: &Package) -> bool
    ensures { result ≡ plays role incoming.now other.now }
{
    match role {
        Role::Conflicting => is_conflicting(incoming, other),
        Role::Unyielding => is_unyielding(incoming, other),
        Role::EssentialConflict => is_conflicting(incoming, other) && other.essential,
        Role::Broken => is_broken(incoming, other),
        Role::Going => is_going(incoming, other),
        Role::Remaining => is_remaining(incoming, other),
        Role::Dependable => is_dependable(incoming, other),
        Role::Breaking => is_breaking(incoming, other),
    }
}

/// The packages that play a role.
pub(crate) fn marks_of_role(
    alloc: Global,
    packages: &[Package],
    incoming: &Package,
    role: Role,
) -> Result<Vec<bool>, AllocError>
    ensures { IfOk result (λ marks. marks.items ≡ map (plays role incoming.now) packages.now) }
{
    let mut marks = Vec::new(alloc);
    for other in packages {
        marks.push(plays(role, incoming, other))?;
    }
    Ok(marks)
}

/// The packages that play a role, in name order.
pub(crate) fn list_of_role(
    alloc: Global,
    packages: &[Package],
    incoming: &Package,
    role: Role,
) -> Result<Numbers, AllocError>
    ensures { IfOk result (IsListing (λ x. IsTrue (of_role role incoming.now packages.now x))) }
{
    let marks = marks_of_role(alloc, packages, incoming, role)?;
    let list = listed(alloc, marks.as_slice())?;
    Ok(list)
}

/// The first package that plays a role.
pub(crate) fn first_of_role(packages: &[Package], incoming: &Package, role: Role) -> Option<usize>
    ensures { MatchOption result ((x : ℕ) → IsTrue (of_role role incoming.now packages.now x)
        → ⊥) (IsFirst (λ x. IsTrue (of_role role incoming.now packages.now x))) }
{
    for number in 0..packages.len() {
        if plays(role, incoming, &packages[number]) {
            return Some(number);
        }
    }
    None
}
