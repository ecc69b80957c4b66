// A listed path of a package whose files are taken away.
use host_core::RootPath;

/// The place at which a listed path's node stands, and whether it may go: the caller has asked the
/// other packages' lists, the conffiles and the administration.
#[derive(Drop)]
pub struct Leaving {
    pub place: RootPath,
    pub goes: bool,
}
