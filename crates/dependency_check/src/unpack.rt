// Whether a package can be unpacked beside the others.
ghost use Rattle.std.specs.Prelude.{◌≡◌, ℕ, IfOk, IfErr, IsTrue, MatchOption};
ghost use Rattle.dependency_check.specs.Unpack.{DoAllYield, IsNoneEssential, IsRefusedConflict, IsAlwaysRefused, MayBeUnpacked, IsRefusedUndeconfigured, NeedsNoDeconfiguring, IsRefusedUnpack, IsPlannedUnpack, IsFaultOfUnpack};
ghost use Rattle.dependency_check.specs.Deconfigured.{IsPlan, first_number};
ghost use Rattle.dependency_check.specs.declared.unpack.CheckFault.TheVariants.{NoMemory};

use crate::plan::{Dependent, Plan, plan_of};
use crate::pre_depends::first_unmet_beforehand;
use crate::roles::{Role, first_of_role};
use relation_index::{Package, Packages};
use std::alloc::{AllocError, Global};

/// Why an unpack is refused: the clause of Pre-Depends by its place in the field, or the other package.
#[derive(Clone, Copy, Debug)]
pub enum UnpackRefusal {
    PreDepends(usize),
    Conflicts(usize),
    ConflictEssential(usize),
    Dependents(usize),
    Breaks(usize),
}

/// Why there is no plan of an unpack.
#[derive(Clone, Copy, Debug)]
pub enum CheckFault {
    Refused(UnpackRefusal),
    NoMemory,
}

impl From<AllocError> for CheckFault {
    ghost from_gives = { λ _ e. e ≡ NoMemory };

    fn from(_: AllocError) -> Self {
        CheckFault::NoMemory
    }
}

// Which conflicting package refuses the unpack.
fn refused_conflict(packages: &[Package], incoming: &Package) -> Option<UnpackRefusal>
    ensures { MatchOption result (DoAllYield packages.now incoming.now
        × IsNoneEssential packages.now incoming.now) (IsRefusedConflict packages.now incoming.now) }
{
    let unyielding = first_of_role(packages, incoming, Role::Unyielding);
    if let Some(number) = unyielding {
        return Some(UnpackRefusal::Conflicts(number));
    }
    let essential = first_of_role(packages, incoming, Role::EssentialConflict);
    match essential {
        Some(number) => Some(UnpackRefusal::ConflictEssential(number)),
        None => None,
    }
}

// What refuses the unpack whatever may be deconfigured.
fn always_refused(
    alloc: Global,
    packages: &Packages,
    incoming: &Package,
) -> Result<Option<UnpackRefusal>, AllocError>
    ensures { IfOk result (λ found. MatchOption found (MayBeUnpacked packages.now incoming.now)
        (IsAlwaysRefused packages.now incoming.now)) }
{
    let before = incoming.pre_depends.clauses();
    let unmet = first_unmet_beforehand(alloc, packages, before)?;
    if let Some(place) = unmet {
        return Ok(Some(UnpackRefusal::PreDepends(place)));
    }
    let refused = refused_conflict(packages.as_slice(), incoming);
    Ok(refused)
}

fn first_number(dependents: &[Dependent]) -> Option<usize>
    ensures { result ≡ first_number dependents.now }
{
    match dependents {
        [] => None,
        [first, ..] => Some(first.number),
    }
}

// What refuses the unpack where no package may be deconfigured.
fn refused_undeconfigured(
    packages: &Packages,
    incoming: &Package,
    plan: &Plan,
) -> Option<UnpackRefusal>
    requires { IsPlan packages.now incoming.now plan.now }
    ensures { MatchOption result (NeedsNoDeconfiguring packages.now incoming.now)
        (IsRefusedUndeconfigured packages.now incoming.now) }
{
    let dependent = first_number(plan.dependents.as_slice());
    if let Some(number) = dependent {
        return Some(UnpackRefusal::Dependents(number));
    }
    let broken = first_of_role(packages.as_slice(), incoming, Role::Broken);
    match broken {
        Some(number) => Some(UnpackRefusal::Breaks(number)),
        None => None,
    }
}

/// The packages that the unpack of a package deconfigures or removes, or the first reason that refuses it. Packages
/// are deconfigured only by leave.
pub fn check_unpack(
    alloc: Global,
    packages: &Packages,
    incoming: &Package,
    auto_deconfigure: bool,
) -> Result<Plan, CheckFault>
    ensures plan { IfOk result (IsPlannedUnpack packages.now incoming.now auto_deconfigure) }
    ensures fault { IfErr result (IsFaultOfUnpack packages.now incoming.now auto_deconfigure) }
{
    let refused = always_refused(alloc, packages, incoming)?;
    if let Some(refusal) = refused {
        return Err(CheckFault::Refused(refusal));
    }
    let plan = plan_of(alloc, packages, incoming)?;
    if auto_deconfigure {
        return Ok(plan);
    }
    let undeconfigured = refused_undeconfigured(packages, incoming, &plan);
    match undeconfigured {
        Some(refusal) => Err(CheckFault::Refused(refusal)),
        None => Ok(plan),
    }
}
