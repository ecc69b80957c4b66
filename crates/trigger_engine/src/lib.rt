//! The unit that processes the triggers that are pending of a package (deb-triggers).
//!
//! # What is proved
//!
//! `process`, the unit: half-configured is noted, with which the pending names go; the stored
//! postinst is called with `triggered` and these names as one argument; then the package is
//! installed again. The stages are those of the record (`unit`: `HasProcessed`), and the record is
//! installed in the end, or half-configured where postinst failed, all others as before (`end`).
//! Each record is on the disk before what comes behind it is done (`apart`). In either case no name
//! is pending, and what the package awaits stays (`what_a_processed_record_tells`).
#![tactic(auto)]

mod laws;
mod stages;
mod unit;

pub use laws::what_a_processed_record_tells;
pub use unit::process;
