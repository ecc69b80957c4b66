//! The files of `DEBIAN/` that are kept with a package, scripts and others: stored in `info/` under
//! the package's name, and laid out in `tmp.ci` while a unit runs.
//!
//! # What is proved
//!
//! `replace_members` puts new control files in the place of the old ones in `info/`, each that of
//! before or the new one at each moment, and no other file changes (`any_moment`); `stored_names`
//! are the names of those that are stored; `lay_out` and `clear_away` put those of a tree into
//! `tmp.ci` and take them away.
#![tactic(auto)]

mod incoming;
mod laws;
mod member;
mod members;
mod names;
mod stored;

pub use incoming::{clear_away, lay_out};
pub use laws::{
    control_members_are_apart, control_members_stay_ready, scripts_leave_control_members,
};
pub use member::Member;
pub use members::Members;
pub use names::is_member_name;
pub use stored::{discard_members, replace_members, stored_names};
