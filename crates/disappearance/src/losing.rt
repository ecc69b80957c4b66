// The packages that may disappear, and those that did.
use host_core::Call;
use texts::{Text, Texts};

/// A package that may disappear, and how many paths it listed before the unpack.
#[derive(Drop)]
pub struct Losing {
    pub name: Text,
    pub listed: usize,
}

/// Who disappeared, in order, and the first call that failed.
#[derive(Drop)]
pub struct Disappeared {
    pub names: Texts,
    pub failed: Option<Call>,
}
