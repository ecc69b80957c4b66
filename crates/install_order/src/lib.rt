//! In which order the trees of an install are taken (Policy 7.2): in rounds, each of which is
//! unpacked and then configured, so that what the unpack of a tree needs was configured before.
//!
//! # What is proved
//!
//! `rounds_of` gives the rounds (`AreRounds`): round after round the largest set of trees each of
//! which has what its unpack needs by what is recorded or by trees of earlier rounds, and what it
//! needs to be configured by these and its own round; where no tree can be, those left are the last
//! round. Needs that no tree meets don't count. Each tree is in one round, once
//! (`each_tree_is_taken_once`).
#![tactic(auto)]

mod bearers;
mod index;
mod laws;
mod met_already;
mod needs;
mod rounds;
mod stage;
mod taking;

pub use laws::each_tree_is_taken_once;
pub use rounds::rounds_of;
