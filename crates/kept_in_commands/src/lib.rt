//! No file is lost by the names of places, over the units of a command: what stands at a place that
//! another package's list has is neither written over nor taken away (Policy 6.6, 6.8, 7.4, 7.6):
//! laws of what sessions promise. Nothing here runs.
//!
//! # What is proved
//!
//! A file or link at a place of a package stands as before behind the whole unit that unpacks
//! another one, whatever that displaces, unless the first one yields, where the unit's scripts left
//! the table of diversions alone; so it does behind a run of units of several trees, where it does
//! behind each, and its path leads to the place by what is read before each too. And what stands at
//! a place of a package that a removal or a purge doesn't name stands as before behind the whole
//! command.
#![tactic(auto)]

mod removals;
mod runs;
mod unpacks;

pub use removals::no_file_is_lost_by_removals;
pub use runs::no_file_is_lost_by_unpacks;
pub use unpacks::no_file_is_lost_by_the_unit_of_an_unpack;
