// A row that failed.
use crate::fall::Fall;
use host_core::Call;

// How a row failed, and its forward call.
#[derive(Drop)]
pub(crate) struct Stopped {
    pub(crate) fall: Fall,
    pub(crate) forward: Option<Call>,
}
