//! The status database: the records of all packages, the file that holds them, and the notes of
//! what changed since.
//!
//! # What is proved
//!
//! `NotedDatabase` keeps each change in a file of its own: `note` and `forget` write one note,
//! whatever the number of packages, and merge first where 250 stand (`kept`, `placed`, `number`); a
//! note with not-installed takes the package's record away, and is written only where there was one
//! (`records`: `entered_in`; `number`); `open` reads the status file and the notes in the order of
//! their numbers, or tells the first faulty line of the first faulty file (`records`, `damage`);
//! `checkpoint` writes the status file and then takes the notes away, the smallest number first
//! (`merged`). `note_record` and `note_no_record` are the same of records that are open.
//!
//! At each moment of all three the records are those of before or with the one change, and the next
//! opening can read them (`any_moment`); after a fault it is closed (`err`, `closed`, `shut`).
//! A note that was written is on the disk (`on_disk`). What was done before it is on the disk before
//! anything changes at the places of records, which change apart from all others, and a barrier is
//! behind them (`apart`). The new status file is on the disk before the first note goes: there the
//! code has a barrier.
//! `records_stand_at_their_places`: the records are those of their files, whatever else changes.
#![tactic(auto)]

mod laws;
mod merging;
mod note_paths;
mod note_reading;
mod note_text;
mod noted_database;
mod noting;
mod open_records;
mod record_fault;
mod room;
mod status_reading;
mod table;
mod updates;

pub use laws::{records_are_a_table, records_stand_at_their_places};
pub use noted_database::NotedDatabase;
pub use open_records::{note_no_record, note_record};
pub use record_fault::RecordFault;
