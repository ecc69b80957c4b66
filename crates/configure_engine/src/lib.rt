//! The unit that configures a package (Policy 6.7, 10.7).
//!
//! # What is proved
//!
//! `configure`, the unit: what is decided of each conffile is decided by the digests recorded and
//! shipped and the file at its place, where links to directories above its path lead; of those that
//! have one place the shipped one is settled. The stages are those of the record (`unit`:
//! `HasConfigured`), and the record is installed in the end, or half-configured where postinst
//! failed, all others as before (`end`). Each record is on the disk before what comes behind it is
//! done (`apart`). `obstacle`: the first name at a place where a conffile can't be
//! settled.
#![tactic(auto)]

mod decisions;
mod laws;
mod obstacles;
mod settled;
mod stages;
mod unit;
mod waiting;

pub use laws::{what_a_settled_record_tells, what_is_settled_where_no_link_leads_away};
pub use obstacles::obstacle;
pub use unit::configure;
