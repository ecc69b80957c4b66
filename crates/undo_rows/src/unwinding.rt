// How a run of rows was unwound.
use crate::failed::Failed;
use crate::failure::Failure;
use crate::fall::Fall;

/// The row that failed, the undo calls that failed after that, in the order of the calls, and for what the row failed.
#[derive(Drop)]
pub struct Unwinding {
    pub fall: Fall,
    pub failed: Vec<Failed>,
    pub failure: Failure,
}
