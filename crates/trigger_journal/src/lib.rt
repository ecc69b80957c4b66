//! The journal of activations that aren't taken in yet (dpkg's `triggers/Unincorp`): what
//! `dpkg-trigger` asks for, and what a command writes ahead of its units, so that a stop loses none.
//!
//! # What is proved
//!
//! `write_ahead` leaves, beside what stood there, a line of ours for each trigger in which a package
//! with files is interested (`IsAhead`), on the disk, and writes nothing where none is missing; at each
//! moment the journal is as before or the whole new one. `clear` leaves an empty one where it asked for
//! something. Where something is in the way they say so, and leave the journal as it is. `read_requests`
//! and `read_asked` only look: what the journal asks for (`requests_of`), and of each installed package
//! the triggers of its interests that are asked for (`asked_of`). What is written ahead can be read:
//! each request that stood there stands there still, and each of these triggers is asked for by a line
//! of ours; where there is one, each interest is (`what_is_written_ahead_is_asked_for`).
#![tactic(auto)]

mod asking;
mod foreseeing;
mod laws;
mod requests;
mod writing;

pub use asking::read_asked;
pub use foreseeing::{clear, has_files, write_ahead};
pub use laws::what_is_written_ahead_is_asked_for;
pub use requests::{Request, read_requests};
