//! Which triggers of packages are still to be processed, what led to each, and which of them lead to
//! themselves: a processing asks for others by dpkg-trigger, these for others again (deb-triggers).
//!
//! # What is proved
//!
//! A wish is a trigger that a package is to process, with the chain of processings that led to it.
//! `package_of` tells whose turn it is, the package of the first wish, and `divide` gives the wishes
//! of a package and the others, each in their order. `first_looped` tells the first of them that
//! stands in its own chain. `chain_behind` gives the chain of what is wished behind a turn: the chains
//! of its wishes, and these themselves, each step once. `add_wishes` puts wishes for steps behind the
//! others, where none is wished for yet. `steps_by` brings steps into the order of packages, and
//! `new_steps` gives those that weren't there before.
#![tactic(auto)]

mod chosen;
mod steps;
mod wishes;

pub use chosen::{new_steps, steps_by};
pub use steps::{Chain, Step};
pub use wishes::{Divided, Wish, add_wishes, chain_behind, divide, first_looped, package_of};
