//! Which packages can be configured or removed together, and which is next (Policy 6.7, 6.8, 7.2).
//!
//! # What is proved
//!
//! Over numbered packages, `configurable` and `removable` are the largest sets of those waiting
//! that can be configured or removed together, `next_to_remove` the next member as defined;
//! `Configuring` and `Leaving` keep these sets while results come in. The law that striking out
//! until none fails gives the largest set is stated once (specs/Largest).
#![tactic(auto)]

mod choices;
mod clause;
mod configuring;
mod leaving;
mod marks;
mod meets;
mod numbers;
mod removing;
mod striking;

pub use choices::{first_of_both, listed};
pub use clause::Clause;
pub use configuring::Configuring;
pub use leaving::Leaving;
pub use marks::has;
pub use meets::{empty_rows, enter, enter_all};
pub use numbers::Numbers;
pub use removing::{next_to_remove, removable};
pub use striking::configurable;
