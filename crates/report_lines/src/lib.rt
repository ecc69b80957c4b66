//! The lines that tell what a command did, and the status that it ends with.
//!
//! # What is proved
//!
//! The lines of a report, its status, the line of a refused opening and that of notes that are left
//! are functions of the report or fault (specs/Reports, specs/Openings, specs/Notes).
#![tactic(auto)]

mod faults;
mod notes;
mod reports;

pub use faults::opening_line;
pub use notes::notes_line;
pub use reports::{report_status, report_text, unit_text};
