//! The packages of which an unpack leaves nothing disappear (Policy 6.6, 7.6.1).
//!
//! # What is proved
//!
//! `disappear_packages` looks at packages whose files an unpack may have taken over, in order, each
//! by the records, lists and diversions that the one before it left: one that lists fewer paths
//! than before, of which only directories are left, and which no installed package nor the unpacked
//! one needs, disappears (`disappeared`): its stored postrm is called, and whatever that answers
//! its control files, list and record go; each other one is only looked at. Who has no record any
//! more is told, and all other records are as before (`left`). At each moment some are gone, the
//! next is under way, and the next opening finds records (`any_moment`).
#![tactic(auto)]

mod laws;
mod looks;
mod losing;
mod needed;
mod run;
mod stages;
mod unit;

pub use laws::{what_disappearances_call, what_disappearances_leave};
pub use losing::{Disappeared, Losing};
pub use run::disappear_packages;
