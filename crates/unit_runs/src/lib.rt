//! One runner of units: the turns of a command are taken one after another, and each finished unit
//! is told.
//!
//! # What is proved
//!
//! `run_units`, over any `Turns`: one unit after another, each from what the one before it left
//! (`turned`: `TurnsTo`), until no turn is left; or up to the unit that was broken off, and since
//! the one before it only that one was under way (`stopped`). The calls that the units tell are
//! those of the host's own list (`told`), and at each moment some units are done and the next is
//! under way (`any_moment`). A `Watcher` is told each unit once, before the next one makes a call,
//! and only once what it did is on the disk; the one that was broken off it isn't told (`watched`).
//! Once the watcher wants no further unit, the next one is abandoned before it begins; none is
//! abandoned else (`abandoned`).
#![tactic(auto)]

mod barring;
mod run;
mod turns;

pub use barring::{Bar, barred_unit};
pub use run::run_units;
pub use turns::Turns;
