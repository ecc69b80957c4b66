//! What stands in the way of a package's files, before any of them is written (Policy 6.6, 7.6,
//! 10.1): the first step fault of the shipped paths, or none.
//!
//! # What is proved
//!
//! `check` gives the first step fault of shipped paths, in path order and of each path the first of
//! LinkParent, NoParent, DirInWay, Clash and DiversionTarget, over the lists and diversions
//! (`fault`), or tells that there is none and what the writing needs (`sound`, `free`, `homed`),
//! and only looks.
#![tactic(auto)]

mod above;
mod checking;
mod clash;
mod index;
mod judging;
mod order;
mod owning;
mod sight;
mod targets;
mod whole;
mod works;

pub use order::order_works;
pub use whole::check;
pub use works::{shipped_work, works_of};
