//! What a stop at any moment leaves of a unit that configures, removes or purges a package, or lets
//! one disappear, path by path (Policy 6.6 to 6.8): laws of what the engines promise of each
//! moment. Nothing here runs.
//!
//! # What is proved
//!
//! Of each path what may stand there at a moment of configuring, of a removal or a purge, and of a
//! disappearance, as it follows from the clause `any_moment` of the engines: the records that the
//! next opening finds, the package's own list and control files, those of other packages, and what
//! stands anywhere else; a file that a removal takes away lends no rights before it goes, and a
//! directory stays where its removal was declined. Each script that configuring, a removal or a
//! purge calls was stored with the package when the unit began, and its file is as it was then as
//! long as the unit is to call it.
#![tactic(auto)]

mod called;
mod configure_records;
mod configure_steps;
mod disappearing;
mod owned;
mod removal_paths;
mod removal_records;
mod removal_steps;

pub use called::what_a_stored_script_holds;
pub use configure_records::what_configuring_leaves_at_each_moment;
pub use configure_steps::what_each_step_of_configuring_leaves;
pub use disappearing::what_a_disappearance_leaves_at_each_moment;
pub use owned::what_stands_at_places_of_other_packages;
pub use removal_paths::what_a_removal_leaves_at_each_moment;
pub use removal_records::what_the_next_opening_finds_of_a_removal;
pub use removal_steps::what_each_step_of_a_removal_leaves;
