// How packages are removed.
use crate::extents::Extents;

/// How a command removes packages.
#[derive(Clone, Copy)]
pub struct RemovalOptions {
    /// How much goes of each package.
    pub extents: Extents,
    /// Whether those go too that are left over, since others depend on them.
    pub ignore_depends: bool,
}
