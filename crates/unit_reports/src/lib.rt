//! What units answer, and why one is refused.
#![tactic(auto)]

mod refusal;
mod report;
mod units;
mod watching;

pub use refusal::{Refusal, Rule};
pub use report::{Breakage, Cycle, Failure, Reply, Report, Touched, Unit};
pub use units::{
    breakage_of, broken, is_broken, record_of, refresh, refused, touched_at, touched_of,
};
pub use watching::{Unwatched, Watcher, what_is_told_in_turn};
