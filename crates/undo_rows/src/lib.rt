//! Rows of script calls: they are stepped through, and undone where one fails (Policy 6.6).
//!
//! # What is proved
//!
//! `try_row` and `undo_row` make exactly the calls of a row (`calls`), and tell them in step with
//! the host's own list; whatever their answer, the calls that were made are the first of some that
//! the row allows (`told`); while they run only paths change that aren't kept (`any_moment`).
//!
//! `Stack::step` and `unwind` make exactly the calls that a row, and the undoing of the rows,
//! allow, in order, and tell them; the rows may be of any owners, and those of an owner one of
//! whose undo calls failed are left out. What an engine does around the calls comes from the trait
//! `Around`, whose `stops` holds at each moment of both, of all that was done and of the world
//! (`any_moment`); the places that scripts leave alone may grow from row to row. Steps one after
//! another and an unwind are a legal run (`steps_and_an_unwind_are_a_run`), and what is broken off
//! has made the first calls of one (`what_is_broken_off_begins_a_run`).
//!
//! The names of an area of the engine's own (`Around::area`: those of what it notes) change apart
//! from all others through steps and unwinding, if each of its parts keeps to that (`apart`:
//! `WorksApart`).
//!
//! `run_rows` steps through a whole list of rows over any `Around` and undoes them where one fails:
//! the calls are a legal run of the rows (`calls`), and where it failed, for which forward call or
//! step fault (`cause`). `run_part` does so with rows behind others that have succeeded, all of which
//! it undoes; so the rows may run in parts, and the run of a first part is one of all of them
//! (`the_first_rows_are_rows_of_all`).
#![tactic(auto)]

mod around;
mod failed;
mod failure;
mod fall;
mod laws;
mod rows;
mod run;
mod stack;
mod steps;
mod stopped;
mod unwinding;

pub use around::Around;
pub use failed::Failed;
pub use failure::Failure;
pub use fall::{Fall, StepFault};
pub use laws::{
    steps_and_an_unwind_are_a_run, the_first_rows_are_rows_of_all, what_is_broken_off_begins_a_run,
};
pub use rows::{Called, Owner, Row, try_row, undo_row};
pub use run::{run_part, run_rows};
pub use stack::Stack;
pub use unwinding::Unwinding;
