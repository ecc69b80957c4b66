//! Filters for the paths of packages, as dpkg's `--path-exclude` and `--path-include` give them.
//!
//! # What is proved
//!
//! `hides` tells whether filters hide a path, by the definition (specs/Filters): the last one that
//! matches the whole path decides, and a directory or link stays that may lead to what is included.
//! `excludes_any` tells whether one of them is an exclude. Without filters nothing is hidden, and one
//! that matches decides whatever stands before it (`the_last_decides`).
#![tactic(auto)]

mod filters;
mod hiding;
mod laws;

pub use filters::{Filter, Filters};
pub use hiding::{excludes_any, hides};
pub use laws::the_last_decides;
