//! The triggers that are pending of several packages processed, one package after another
//! (deb-triggers).
//!
//! # What is proved
//!
//! `process_packages`: a unit for each of the names once, in their order, from what the one before
//! it left. A package that has triggers to process then, and whose Depends and Pre-Depends are met
//! by the records of then, has them processed (trigger_engine, `IsReady`); one that has none, or
//! that lacks what it needs, is passed over, and one without a record is refused (`whole`:
//! `IsTriggerRun`; `part` where a unit was broken off: `HasRun`). Each unit that made a step is on the disk before
//! the next (`answered`); at each moment some units are done and the next is under way
//! (`any_moment`); a `Watcher` is told each unit as in configure_run (`watched`). The packages of
//! the records go back as those of the records that are left (`indexed`).
#![tactic(auto)]

mod names;
mod needs;
mod pending;
mod run;
mod turns;
mod units;

pub use run::process_packages;
