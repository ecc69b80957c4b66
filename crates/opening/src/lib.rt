//! Opening an administration: its directories are made where missing, its files are read, and what
//! a unit left behind that was broken off is removed.
//!
//! # What is proved
//!
//! `open_administration` brings names in `info/` with an architecture to those without
//! (info_format), and then reads the administration part by part: the records, lists and diversions
//! of an administration all of whose parts can be read (`opened`), or the fault of the first part
//! that can't (`opens`), and there is none where all can (`what_is_fine_has_no_fault`); at each
//! moment of it, whatever the answer, nothing has changed but such names, that missing directories
//! of the administration were made and that some of what was left in `tmp.ci` is gone (`any_moment`),
//! which stays where damage is told; the directories that were made have mode 755 in the end unless
//! the device failed (`opens`). Where notes stand or `tmp.ci`, so that a command was stopped, the
//! whole root is brought to the disk before any other step (`brought`).
//!
//! `open_followed` reads the aliases of the root behind that: each listed path, each path of a
//! diversion and those in the usual directories are followed to where they lead in the world
//! (`followed`, specs/Followed). It only looks.
//!
//! `open_adopted` is what a command opens with: behind all that it is refused where records are of
//! packages of two architectures (specs/Architectures), which is told as damage of the status file; else it takes up the conffiles that another
//! program unpacked (adopted_conffiles, specs/TakenUp). The records that it answers are those of the
//! administration as they are taken up, and only they have changed (`taken_up`).
//!
//! Where no name has an architecture no record, list or diversion is another behind an opening,
//! but for those that are taken up, wherever it is broken off, and the next one finds no damage (`a_stopped_opening_can_be_opened`).
#![tactic(auto)]

mod adopting;
mod architectures;
mod following;
mod laws;
mod open;
mod stopped;

pub use adopting::open_adopted;
pub use following::{follow, open_followed};
pub use laws::{a_stopped_opening_can_be_opened, what_is_fine_has_no_fault};
pub use open::{Opened, check_root, names_of, open_administration};
