//! No activation of a trigger is lost, over several commands, wherever they stopped (deb-triggers):
//! laws of what commands promise of triggers around their units. Nothing here runs.
//!
//! # What is proved
//!
//! Behind a command that ended each trigger that one of its units hit is pending of each installed
//! package that is interested in it then and that no later unit tells, and so is each that the journal
//! asked for, and each that was pending (`what_is_activated_becomes_pending`); from there to its end it
//! stays pending, or is processed, or the package is left half-configured
//! (`what_is_pending_is_processed`, `no_activation_of_a_command_is_lost`). What a command that was
//! stopped may have activated is asked for still: its lines stand in the journal, by which the next one
//! takes each trigger as asked for (`what_a_stopped_command_leaves_is_asked_for`). So it is through
//! commands of all these kinds, one after another (`no_activation_is_lost`).
//!
//! What is assumed, beside an honest host: where a command stops, and between commands, to the journal
//! it was only added since the lines were written; and the records that are read then have what was
//! pending, but of packages that a unit tells and of those less than installed. Of finished units that
//! is proved (`units_leave_what_is_pending`), and so it is of a stop amid writing ahead and amid notes
//! (`what_a_stop_beside_units_leaves`). What commands promise around their units makes a command that
//! ended (`what_is_done_around_units_is_a_command`).
#![tactic(auto)]

mod commands;
mod moments;
mod noting;
mod stops;
mod turns;
mod units;

pub use commands::{
    no_activation_is_lost, no_activation_of_a_command_is_lost,
    what_is_done_around_units_is_a_command,
};
pub use moments::what_a_stop_beside_units_leaves;
pub use noting::what_is_activated_becomes_pending;
pub use stops::what_a_stopped_command_leaves_is_asked_for;
pub use turns::what_is_pending_is_processed;
pub use units::units_leave_what_is_pending;
