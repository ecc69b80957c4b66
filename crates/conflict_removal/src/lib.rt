//! The packages that conflict with one that was unpacked are removed in its favour (Policy 6.6,
//! 7.4).
//!
//! # What is proved
//!
//! `remove_in_favour` removes conflicting packages behind the unpack, in order, each from its files
//! on, whichever fails; the answer is the first call that failed (`removed`).
//! **displaced_packages**: `displace` does the one and then the other, and brings it to the disk
//! (`displaced`); `losing_beside` are the packages that may disappear.
#![tactic(auto)]

mod laws;
mod removing;

pub use laws::{what_removals_call, what_removals_leave};
pub use removing::remove_in_favour;
