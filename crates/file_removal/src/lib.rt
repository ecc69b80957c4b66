//! How listed paths of a package and names that only the installer writes are taken away.
//!
//! # What is proved
//!
//! `remove_owned` takes the listed paths away that may go, the last first, a directory where
//! nothing is left below it and its removal isn't declined (`removed`), `remove_directories`
//! directories alone, `clear_names` and `retire_names` what stands at reserved names; at each moment
//! each path is as before, or a file that lends no rights any more, or gone (`any_moment`), and the
//! same removal finishes one that was stopped (`what_a_removal_leaves`). What a listed file or a
//! backup lent it lends no more when it goes (`lowered`), and the removal of a file alone can be
//! told as declined (`declined`).
#![tactic(auto)]

mod clearing;
mod laws;
mod leaving;
mod removal;

pub use clearing::{clear_name, clear_names, retire_names};
pub use laws::{what_a_clearing_leaves, what_a_removal_leaves};
pub use leaving::Leaving;
pub use removal::{remove_directories, remove_owned};
