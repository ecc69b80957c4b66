//! The packages that an unpack displaces: those of which nothing is left, and those that conflict with it (Policy 6.6, 7.4, 7.6.1).
#![tactic(auto)]

mod displacing;
mod losing;

pub use displacing::{Displaced, displace};
pub use losing::losing_beside;
