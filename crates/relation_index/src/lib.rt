//! Packages and the relations that they state, which packages meet a clause, and the clauses of
//! Depends and Pre-Depends as numbers (Policy 7.1, 7.2, 7.5).
//!
//! # What is proved
//!
//! `Packages::of` takes packages in the order of their names; `meeters` finds by an index of names
//! what a look through all packages finds, `clauses` are the clauses of Depends and Pre-Depends;
//! `put` and `remove` change one package, and what is found by names is as with an index made anew.
#![tactic(auto)]

mod clauses;
mod index;
mod package;
mod packages;
mod row;

pub use package::{Package, PackageState};
pub use packages::Packages;
