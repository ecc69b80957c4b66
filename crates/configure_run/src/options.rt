// How packages are configured.
use conffiles::ConfPolicy;

/// How a command configures packages.
#[derive(Clone, Copy, Debug, PartialEq)]
pub struct ConfigureOptions {
    /// How conffiles are settled.
    pub policy: ConfPolicy,
    /// Whether those go too that are left over, though their Depends and Pre-Depends aren't met.
    pub ignore_depends: bool,
}
