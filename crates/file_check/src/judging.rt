// The first fault of a path, by what was seen.
ghost use Rattle.std.specs.Prelude.{◌≡◌, false, IfOk, option_copied};
ghost use Rattle.std.specs.BTreeSet.{contains_text};
ghost use Rattle.undo_rows.specs.Place.{is_declined};
ghost use Rattle.file_check.specs.Clashes.{clash_by};
ghost use Rattle.file_check.specs.Sound.{fault_by};
ghost use Rattle.file_check.specs.Targets.{diversion_to};
ghost use Rattle.file_check.specs.InWay.{in_way_by};

use crate::above::Above;
use crate::clash::clash_of;
use crate::owning::Owning;
use crate::sight::{Sight, is_in_way};
use diversions::Diversion;
use host_core::RootPath;
use package_files::Work;
use std::alloc::{AllocError, Global};
use std::collections::BTreeSet;
use texts::Text;
use undo_rows::StepFault;

// The order in which faults are looked for.
fn first_fault(
    path: &RootPath,
    above: Above,
    way: bool,
    clash: Option<Text>,
    diversion: Option<&Diversion>,
) -> Result<Option<StepFault>, AllocError>
    ensures first { IfOk result
        (λ found. found ≡ fault_by path.now above way clash (option_copied diversion.entry)) }
    ensures undeclined { IfOk result (λ found. is_declined found ≡ false) }
{
    match (above, way, clash, diversion) {
        (Above::Link, _, _, _) => Ok(Some(StepFault::LinkParent(path.copy()?))),
        (Above::Lacking, _, _, _) => Ok(Some(StepFault::NoParent(path.copy()?))),
        (Above::Directories, true, _, _) => Ok(Some(StepFault::DirInWay(path.copy()?))),
        (Above::Directories, false, Some(owner), _) => {
            Ok(Some(StepFault::Clash(path.copy()?, owner)))
        }
        (Above::Directories, false, None, Some(entry)) => {
            let diverter = entry.owner.name()?;
            Ok(Some(StepFault::DiversionTarget(path.copy()?, diverter)))
        }
        (Above::Directories, false, None, None) => Ok(None),
    }
}

/// The first fault of a path, by what was seen above it and around it.
pub(crate) fn judge(
    alloc: Global,
    owning: &Owning<'_>,
    twice: &BTreeSet<String>,
    shipped: &Work,
    above: Above,
    sight: Sight,
) -> Result<Option<StepFault>, AllocError>
    ensures first { IfOk result
        (λ found. found
        ≡ fault_by shipped.now.path above (in_way_by owning.now shipped.now shipped.now.had sight)
        (clash_by owning.now (contains_text twice.now) shipped.now sight.place)
        (diversion_to owning.now shipped.now)) }
    ensures undeclined { IfOk result (λ found. is_declined found ≡ false) }
{
    let clash = clash_of(alloc, owning, twice, shipped, sight.place)?;
    let way = is_in_way(owning, shipped, sight)?;
    let diversion = owning.diversion_to(shipped)?;
    first_fault(&shipped.path, above, way, clash, diversion)
}
