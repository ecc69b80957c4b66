// For what a run of rows failed.
ghost use Rattle.std.specs.Prelude.{◌≡◌, IfOk, IsSome, None, Some};
ghost use Rattle.undo_rows.specs.Ended.{cause_of};

use crate::fall::{Fall, StepFault};
use host_core::Call;
use std::alloc::AllocError;
use texts::Text;

/// For what a run failed: a row's forward call, or the step fault of the files.
#[derive(Drop)]
pub enum Failure {
    OfCall(Call),
    OfFiles(StepFault),
}

fn name_copy(name: &Option<Text>) -> Result<Option<Text>, AllocError>
    ensures { IfOk result (λ copy. copy ≡ name.now) }
{
    match name {
        None => Ok(None),
        Some(name) => Ok(Some(name.copy()?)),
    }
}

fn fault_copy(fault: &StepFault) -> Result<StepFault, AllocError>
    ensures { IfOk result (λ copy. copy ≡ fault.now) }
{
    match fault {
        StepFault::LinkParent(path) => Ok(StepFault::LinkParent(path.copy()?)),
        StepFault::NoParent(path) => Ok(StepFault::NoParent(path.copy()?)),
        StepFault::DirInWay(path) => Ok(StepFault::DirInWay(path.copy()?)),
        StepFault::Clash(path, name) => Ok(StepFault::Clash(path.copy()?, name.copy()?)),
        StepFault::DiversionTarget(path, diverter) => {
            Ok(StepFault::DiversionTarget(path.copy()?, name_copy(diverter)?))
        }
        StepFault::Declined(path) => Ok(StepFault::Declined(path.copy()?)),
    }
}

// The step fault of a row, or else its forward call.
pub(crate) fn failure_of(fall: &Fall, forward: Option<Call>) -> Result<Failure, AllocError>
    requires called { fall.now.fault ≡ None → IsSome forward }
    ensures cause { IfOk result (λ failure. cause_of fall.now.fault forward ≡ Some failure) }
{
    if let Some(fault) = &fall.fault {
        return Ok(Failure::OfFiles(fault_copy(fault)?));
    }
    Ok(Failure::OfCall(forward.unwrap()))
}
