//! Packages configured one after another, in the order that their relations ask for (Policy 6.7,
//! 7.2).
//!
//! # What is proved
//!
//! `configure_packages`, `remove_packages`: all units of a command. First those that their records
//! refuse, in the order of the names; then one after another the next that the relations let be
//! configured or removed, from what the one before it left (of a removal the relations are those
//! that were stated when the command began, and installed is what is recorded so at that turn:
//! `IsQueueNow`); then those left over, each with the clause or the package that stands in its way
//! (`whole`: `IsConfigureRun`, `IsRemovalRun`; `part` where a unit was broken off).
//!
//! Each unit that made a step is on the disk before the next (`answered`); at each moment some
//! units are done and the next is under way (`any_moment`). Both take the packages of the records
//! from their caller and give them back as those of the records that they leave, unless a unit was
//! broken off (`indexed`); so does displaced_packages. A `Watcher` (unit_reports) is told each unit
//! of the report once, in order, when it is on the disk and no later one has made a call, and
//! nothing of the one that was broken off (`watched`). Once it wants no further unit the next one
//! is abandoned before it begins (`abandoned`). The turns themselves are taken by unit_runs.
#![tactic(auto)]

mod all_turns;
mod asked;
mod early;
mod left_over;
mod options;
mod queue;
mod run;
mod starting;
mod telling;
mod turn;
mod unit;

pub use asked::waiting_names;
pub use options::ConfigureOptions;
pub use run::configure_packages;
