// Whether a tree can be unpacked beside the recorded packages, where Depends and Pre-Depends are ignored.
ghost use Rattle.std.specs.Prelude.{◌≡◌, ℕ, [], false, true, IfOk, IsTrue, List, MatchOption};
ghost use Rattle.dependency_check.specs.Deconfigured.{of_role};
ghost use Rattle.dependency_check.specs.Unpack.{IsPlannedUnpack};
ghost use Rattle.dependency_check.specs.declared.roles.Role.TheVariants.{Broken};
ghost use Rattle.dependency_sets.specs.Choices.{IsFirst, IsListing};
ghost use Rattle.recorded_packages.specs.Packages.{ArePackagesOf};
ghost use Rattle.status_records.specs.declared.record.Record.{Record as ARecord};
ghost use Rattle.unpack_relations.specs.Checks.{AreBesideApart, IsCheckedBy, without_pre_depends};

use crate::beside::beside_of;
use crate::checking::Checked;
use crate::refusal::rule_of;
use dependency_check::{CheckFault, Plan, UnpackRefusal, check_unpack};
use relation_fields::{Form, Relations, reading_is_exact};
use relation_index::{Package, Packages};
use std::alloc::{AllocError, Global};

// No clauses, as an empty field states them; it can be read, so nothing but memory may be wanting.
fn no_relations(alloc: Global) -> Result<Relations, AllocError>
    ensures { IfOk result (λ relations. relations ≡ []) }
{
    reading_is_exact();
    match Relations::read(alloc, b"".as_slice(), Form::Plain) {
        Ok(relations) => Ok(relations),
        Err(_) => Err(AllocError),
    }
}

/// The package without its Pre-Depends.
pub(crate) fn without_pre_depends(alloc: Global, incoming: Package) -> Result<Package, AllocError>
    ensures { IfOk result (λ p. p ≡ without_pre_depends incoming) }
{
    let none = no_relations(alloc)?;
    let mut incoming = incoming;
    incoming.pre_depends = none;
    Ok(incoming)
}

// The first of the packages that it breaks, where none may be deconfigured.
fn first_broken(
    packages: &[Package],
    incoming: &Package,
    broken: &[usize],
    auto_deconfigure: bool,
) -> Option<usize>
    requires { IsListing (λ x. IsTrue (of_role Broken incoming.now packages.now x)) broken.now }
    ensures { MatchOption result (auto_deconfigure ≡ false → (x : ℕ)
        → IsTrue (of_role Broken incoming.now packages.now x) → ⊥) (λ x. (auto_deconfigure ≡ false)
        × IsFirst (λ y. IsTrue (of_role Broken incoming.now packages.now y)) x) }
{
    match broken {
        [first, ..] if !auto_deconfigure => Some(*first),
        _ => None,
    }
}

// What it does by a plan of which the dependents stay as they are.
fn checked_plan(
    alloc: Global,
    packages: &[Package],
    incoming: &Package,
    plan: Plan,
    auto_deconfigure: bool,
) -> Result<Checked, AllocError>
    requires { IsPlannedUnpack packages.now incoming.now true plan }
    ensures { IfOk result (IsCheckedBy true packages.now incoming.now auto_deconfigure) }
{
    let Plan {
        broken,
        dependents: _,
        conflicting,
    } = plan;
    if let Some(number) = first_broken(packages, incoming, broken.as_slice(), auto_deconfigure) {
        let rule = rule_of(packages, incoming, UnpackRefusal::Breaks(number))?;
        return Ok(Checked::Refused(rule));
    }
    let plan = Plan {
        broken,
        dependents: Vec::new(alloc),
        conflicting,
    };
    let beside = beside_of(alloc, packages, incoming, &plan)?;
    Ok(Checked::Planned(beside))
}

/// What the unpack of a package without Pre-Depends does to other packages, or the first reason that refuses it. Those that lose
/// what they depend on stay as they are.
pub(crate) fn checked_ignoring(
    alloc: Global,
    packages: &Packages,
    incoming: &Package,
    auto_deconfigure: bool,
) -> Result<Checked, AllocError>
    requires { incoming.now.pre_depends ≡ [] }
    ensures checked { IfOk result (IsCheckedBy true packages.now incoming.now auto_deconfigure) }
    ensures apart { IfOk result (λ checked. (records : List ARecord)
        → ArePackagesOf records packages.now → AreBesideApart incoming.now.name records checked) }
{
    let list = packages.as_slice();
    match check_unpack(alloc, packages, incoming, true) {
        Ok(plan) => {
            let checked = checked_plan(alloc, list, incoming, plan, auto_deconfigure)?;
            Ok(checked)
        }
        Err(CheckFault::Refused(refusal)) => {
            Ok(Checked::Refused(rule_of(list, incoming, refusal)?))
        }
        Err(CheckFault::NoMemory) => Err(AllocError),
    }
}
