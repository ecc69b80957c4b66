//! Recorded packages with the relations that they state (Policy 7.1).
#![tactic(auto)]

mod packages;
mod renewal;

pub use packages::{is_foreign, packages_of, root_architecture, root_of};
pub use renewal::{renew, renew_one};
