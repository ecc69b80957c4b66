//! The rows of an unpack from each state in which a package may be, what is noted beside each row,
//! and how each package ends where one fails (Policy 6.6). Nothing here calls the host.
//!
//! # What is proved
//!
//! With no host: `rows_of` gives the rows of an unpack from every state in which the package may be
//! found, with their arguments, fallbacks and undo calls (specs/ForwardRows); `note_before` and
//! `note_undone` what is noted beside each. The notes grow row by row (`notes_grow_row_by_row`),
//! and end as the table of ends says, for each package by its own record, its own last row and its
//! own failed undo (`each_package_ends_as_noted`).
#![tactic(auto)]

mod failures;
mod kinds;
mod laws;
mod notes;
mod rows;

pub use failures::is_spared;
pub use kinds::{RowKind, kinds_of};
pub use laws::{
    each_package_ends_as_noted, each_row_is_of_its_kind, files_go_with_their_row,
    notes_grow_row_by_row,
};
pub use notes::{Note, note_before, note_undone};
pub use rows::{OtherPackage, Present, rows_of};
