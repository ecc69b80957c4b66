//! What a loss of power leaves of records on a disk that keeps no order between directories: they
//! are read from the status file and from notes, which lie in two. Nothing here runs.
//!
//! # What is proved
//!
//! Where at the places of records the directories take turns, that is where between two barriers
//! either the status file or the notes change (status_db promises it of `note`, `forget` and
//! `checkpoint`, `turns`), what is read behind a loss is what a stop leaves to be read: while notes
//! are merged the same records, while one is noted those of before or those of after
//! (`records_are_read_behind_a_loss`).
#![tactic(auto)]

mod records;

pub use records::records_are_read_behind_a_loss;
