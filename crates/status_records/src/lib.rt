//! The record of a package: its parts, how it changes with what is done to the package, and its
//! text in the status file.
//!
//! # What is proved
//!
//! Of a record the names, states and versions, Essential, Removed-Since, the conffiles and the
//! relation fields have to be such that they can be read, and those that are noted are (the type
//! `Record`). A record has its parts as types: the version last configured, whether a removal has
//! come since, its conffiles with their digests and flags and the digests that aren't settled yet,
//! both in path order, the triggers that it is to process and the packages that it awaits, and the
//! other fields of the control file; what is written of it, in dpkg's order of fields (specs/Order),
//! reads back as the same record.
//!
//! The word of the state in the status file, `word`, tells of triggers too (specs/Words, the table
//! `agrees`): a paragraph whose word and fields disagree is a faulty one.
//!
//! `standing_as`, `wanting`, `removed`, `configured`, `with_conffiles` and `unpacked` are how a
//! record changes with what is done to its package, each part of it pinned (specs/Standings);
//! `committed_entries` are the conffiles behind an unpack (specs/Conffiles). `has_conffile` is
//! whether a path is one of a conffile, of a record or of any.
//!
//! `read_text` reads the records of a status file, or tells its first faulty line; `entry_of`
//! judges one paragraph after those of other packages.
#![tactic(auto)]

mod committed;
mod conffile_fields;
mod conffile_lists;
mod conffile_reading;
mod conffile_writing;
mod entries;
mod names;
mod order;
mod reading;
mod record;
mod recorded;
mod standings;
mod trigger_names;
mod triggers;
mod values;
mod words;
mod writing;

pub use committed::{Ships, committed_entries};
pub use conffile_lists::{ConffileEntries, PendingDigests};
pub use entries::{ConffileEntry, PendingDigest};
pub use names::Names;
pub use reading::{Entry, StatusFault, entry_of, first_bad, line_in, read_text};
pub use record::Record;
pub use trigger_names::TriggerNames;
pub use triggers::Triggers;
pub use words::{Flag, State, StateWord, Want};
pub use writing::{add_line, paragraph_of, record_text, status_node};
