//! The accesses that an administrator set in place of those of packages (statoverride): what its file
//! says, and a package with them.
//!
//! # What is proved
//!
//! `read_overrides` only looks, and answers what the file says (`overrides_of`): its overrides by
//! their paths, or its first faulty line; where no name stands in it, the files that give names their
//! numbers aren't read. `first_unknown` is the first shipped path whose override names an owner that
//! has no number there. `override_accesses` gives each shipped file and directory that an override
//! names, by its path as it is listed, the access of the override, and leaves all else of a package
//! (`overridden`).
#![tactic(auto)]

mod lines;
mod owners;
mod packages;
mod reading;
mod table;
mod words;

pub use lines::{Override, Owner};
pub use packages::override_accesses;
pub use reading::read_overrides;
pub use table::Overrides;
