//! The rows of an unpack with all that is done beside their calls: the notes in the records, the
//! package's list and its files. A row that fails is undone with those before it (Policy 6.6).
//!
//! # What is proved
//!
//! `Underway::run` runs rows of an unpack with its notes, the list and the files, behind those that
//! have run before; where one fails, all are undone. What was true before the row of the files is
//! true with any places of the shipped paths (`rows_before_the_files_go_by_any_table`), so the table
//! of diversions may be read again there; `part_rows` parts the rows at that place.
//!
//! Where it ends, the records are those of before with the notes up to there, and the world came
//! about by the script calls, notes and the file row alone, which lists old and new paths before it
//! writes the first file, in the world at that moment, and puts files back before the old list; what
//! a name without a record left in `info/` goes before the row of its new preinst, and stands as
//! before till then (`there`: `At`).
//!
//! What is done before a note is on the disk before the places of records change, and what comes
//! behind it is done when it is on the disk (`apart`: `WorksApart`).
//!
//! At each moment the next opening finds the records of before with the first of the notes, and
//! while files are written, stand or go back the package is half-installed reinstreq (`any_moment`:
//! `Stops`).
#![tactic(auto)]

mod around;
mod clearing;
mod file_moves;
mod halves;
mod laws;
mod notes;
mod plan;
mod run;
mod underway;
mod unpacking;

pub use halves::{Halves, part_rows};
pub use laws::{rows_before_the_files_go_by_any_table, rows_begin_before_the_first};
pub use plan::Rows;
pub use underway::Underway;
pub use unpacking::Start;
