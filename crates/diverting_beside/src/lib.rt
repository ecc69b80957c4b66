//! Changes of the diversions beside a command that runs, for the scripts that it calls
//! (dpkg-divert(1)).
//!
//! # What is proved
//!
//! `divert_beside` and `undivert_beside` read the records, with the notes, all lists, the diversions
//! and the aliases of the root, as a question does: no note is merged, nothing is made or taken away,
//! no unit of the command is settled. Then the diversion is added or taken away as a session does it,
//! by the first rule that holds, from what was read, and nothing else changes (`done`:
//! `IsChangedBeside`; each moment of it is one of that change). What can't be read, or a table that
//! can't be written, is told as damage, and nothing is done (`refused`, `finds`). No script is called
//! (`silent`, `calls`).
#![tactic(auto)]

mod changing;
mod reading;

pub use changing::{divert_beside, undivert_beside};
