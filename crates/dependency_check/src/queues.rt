// The sets of packages that can be configured or removed together, and which is next.
ghost use Rattle.std.specs.Prelude.{ℕ, IfOk, IsTrue, ◌↔◌, MatchOption};
ghost use Rattle.dependency_sets.specs.Sets.{has};
ghost use Rattle.dependency_check.specs.Queues.{CanBeConfigured, CanBeRemoved, IsConfiguredNext, IsRemovedNext};

use relation_index::Packages;
use std::alloc::{AllocError, Global};

/// The packages that can be configured together: those of the largest set of waiting packages whose Depends and
/// Pre-Depends are met by what is installed and the set.
pub fn configurable(
    alloc: Global,
    packages: &Packages,
    installed: &[bool],
    waiting: &[bool],
) -> Result<Vec<bool>, AllocError>
    ensures { IfOk result (λ members. (x : ℕ) → IsTrue (has members.items x)
        ↔ CanBeConfigured packages.now (has installed.now) (has waiting.now) x) }
{
    let clauses = packages.clauses(alloc)?;
    let list = clauses.as_slice();
    let members = dependency_sets::configurable(alloc, list, installed, waiting)?;
    Ok(members)
}

/// The member that is configured next; `silent` are the packages without postinst. None where there is no member.
pub fn next_to_configure(
    alloc: Global,
    packages: &Packages,
    installed: &[bool],
    members: &[bool],
    silent: &[bool],
) -> Result<Option<usize>, AllocError>
    ensures { IfOk result (λ next. MatchOption next ((x : ℕ) → IsTrue (has members.now x)
        → ⊥) (IsConfiguredNext packages.now (has installed.now) (has members.now)
        (has silent.now))) }
{
    let clauses = packages.clauses(alloc)?;
    let list = clauses.as_slice();
    let next = configure_order::next_to_configure(alloc, list, installed, members, silent)?;
    Ok(next)
}

/// The packages that can be removed together: those of the largest set of waiting packages that leaves each clause of
/// an installed package outside met, if a member met it.
pub fn removable(
    alloc: Global,
    packages: &Packages,
    installed: &[bool],
    waiting: &[bool],
) -> Result<Vec<bool>, AllocError>
    ensures { IfOk result (λ members. (x : ℕ) → IsTrue (has members.items x)
        ↔ CanBeRemoved packages.now (has installed.now) (has waiting.now) x) }
{
    let clauses = packages.clauses(alloc)?;
    let list = clauses.as_slice();
    let members = dependency_sets::removable(alloc, list, installed, waiting)?;
    Ok(members)
}

/// The member that is removed next. None where there is no member.
pub fn next_to_remove(
    alloc: Global,
    packages: &Packages,
    installed: &[bool],
    members: &[bool],
) -> Result<Option<usize>, AllocError>
    ensures { IfOk result (λ next. MatchOption next ((x : ℕ) → IsTrue (has members.now x)
        → ⊥) (IsRemovedNext packages.now (has installed.now) (has members.now))) }
{
    let clauses = packages.clauses(alloc)?;
    let list = clauses.as_slice();
    let next = dependency_sets::next_to_remove(alloc, list, installed, members)?;
    Ok(next)
}
