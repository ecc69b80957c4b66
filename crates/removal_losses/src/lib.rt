//! What a loss of power leaves of a removal or a purge, on a disk that keeps no order between
//! directories (Policy 6.8). Nothing here runs.
//!
//! # What is proved
//!
//! A package's record is on the disk before its files change: where the next opening finds a record
//! by which the package has its files, that is neither half-installed nor removed, each path
//! outside the administration's directory is as before, on paths that no script wrote and that are
//! no temporary names (`what_a_loss_leaves_of_a_removal`).
#![tactic(auto)]

mod removals;

pub use removals::what_a_loss_leaves_of_a_removal;
