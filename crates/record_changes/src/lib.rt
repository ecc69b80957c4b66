//! Records are changed, one after another: what is wanted of a package, so that it can be carried
//! out later, which triggers it is to process, that these are abandoned, or which packages it awaits.
//!
//! # What is proved
//!
//! `change_records`: each change is a unit, in the order given. A package without a record is
//! refused; where the change is made already nothing is done; else a note is written that changes
//! what is wanted, puts the names that are missing behind those of the triggers that are pending,
//! leaves the package half-configured without these, or changes the names that it awaits
//! (specs/Activated), and nothing else, and it is on the disk before the unit is told (`whole`). A package that isn't installed is to process no
//! triggers: configuring it does what they would. At each moment some changes are recorded, and of the
//! next nothing or all (`any_moment`); where one was broken off, what those before it recorded stands
//! (`part`). No script is called (`silent`), and what is kept of what the packages state is that of
//! their records (`indexed`).
//!
//! `pending_triggers`: each trigger that is pending of a package, in name order (specs/Pending).
//!
//! `settled_awaits`: the changes of the packages that await some of which nothing is pending any more (specs/Awaits). One that awaits
//! nothing then is configured, where it is installed.
#![tactic(auto)]

mod awaits;
mod change;
mod changed;
mod pending;
mod run;
mod turns;
mod units;

pub use awaits::settled_awaits;
pub use change::{Change, RecordChange};
pub use pending::{PendingTrigger, pending_triggers};
pub use run::change_records;
