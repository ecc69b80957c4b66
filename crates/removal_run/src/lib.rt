//! Removals and purges of several packages, one after another: which are refused, which is next,
//! and why those left over stay (Policy 6.8, 7.2).
//!
//! # What is proved
//!
//! `remove_packages`: what it promises stands in the heading of configure_run, beside
//! `configure_packages`. How much goes of each package is told for all, or stands in its record
//! (`Extents`: `purges`); `selected_names` are the packages that are to go as it is recorded of
//! them.
#![tactic(auto)]

mod extents;
mod left;
mod names;
mod options;
mod refusals;
mod run;
mod selected;
mod telling;
mod turns;
mod units;
mod waiting;

pub use extents::Extents;
pub use options::RemovalOptions;
pub use run::remove_packages;
pub use selected::selected_names;
