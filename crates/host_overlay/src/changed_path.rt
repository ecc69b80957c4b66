// A path that was changed.
use host_core::RootPath;

/// A path at which something else may stand than below, and whether something stands there.
#[derive(Drop)]
pub struct ChangedPath {
    pub path: RootPath,
    pub stands: bool,
}
