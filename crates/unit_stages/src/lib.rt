//! A unit as a list of stages: what is done beside script calls (notes, conffiles, paths that go,
//! the package's list), then one script call, and what undoes it (Policy 6.6 to 6.8).
//!
//! # What is proved
//!
//! `run_stages` runs stages, each of parts and one script call, up to a call that failed, whose
//! undo is called and whose restoring parts are done where the undo didn't fail (`ran`: `HaveRun`);
//! its calls, whatever its answer, are the first of those that are legal for the stages (`told`);
//! at each moment `AreRunning` (`any_moment`), and behind it the administration is in order
//! (`order`).
//!
//! The parts of a stage are done one after another (notes, conffiles, paths that go, names that are
//! cleared, the list, control files): what they leave is told by the worlds between them
//! (`HaveDone`); at each moment some are done, the next is under way, and the next opening finds
//! the records of before it or those after it (`AreDoing`). Of the directories that were to go only
//! those stay, with those above them, whose removal was declined in between or below which
//! something is left (`DoesParts`, and `AreAmid` by what was declined so far).
//!
//! What a unit does before it notes a record is on the disk before the places of records change,
//! and what comes behind the note is done when it is on the disk (`apart`: `WorksApart`).
//!
//! `what_stages_leave`: what lies outside is as before, in the end and at each moment.
#![tactic(auto)]

mod calls;
mod doing;
mod laws;
mod listing;
mod members;
mod noting;
mod part;
mod parts;
mod running;
mod stage;
mod step;

pub use laws::{
    what_a_run_of_stages_leaves, what_is_broken_off_begins_a_run_of_stages, what_stages_leave,
};
pub use part::Part;
pub use running::run_stages;
pub use stage::Stage;
