// What an unpack is allowed.

/// What an unpack is allowed to do to other packages, and what of its relations it ignores.
#[derive(Clone, Copy, Debug)]
pub struct UnpackOptions {
    /// Whether packages that it breaks, or that lose what they depend on, are deconfigured for it; else it is refused.
    pub auto_deconfigure: bool,
    /// Whether its Pre-Depends are ignored, and the Depends of packages that lose by it what they depend on: these stay as they
    /// are.
    pub ignore_depends: bool,
}
