//! Sets of names: each name once, in the order of its first mention, and a set to look one up.
//!
//! # What is proved
//!
//! `each_once` gives each name of a list once, in the order of its first mention: a further mention
//! is dropped. `set_of` has the names of a list and no other, and `add_all` brings those of a list
//! in and takes none out.
#![tactic(auto)]

mod mentions;
mod sets;

pub use mentions::each_once;
pub use sets::{add_all, set_of};
