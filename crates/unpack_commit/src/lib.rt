//! What an unpack does once all its rows have succeeded: the package's list, control files and
//! record become the new ones, and places that it took over leave other packages (Policy 6.6).
//!
//! # What is proved
//!
//! `commit`, what follows where all rows succeeded, by the worlds between its parts in Policy's
//! order (`committed`), and at each moment (`any_moment`), behind a barrier (`first`); of the
//! directories that could go only those stay whose removal is declined. What is done before the
//! notes is on the disk before the places of records change (`apart`). `takeover_of` and
//! `yields_of`: what leaves packages of which only conffiles are left. Laws: all else is as before
//! (`what_a_commit_leaves`), no directory comes into `info/` (`a_commit_leaves_info_loose`), the
//! next opening reads the records at each moment (`a_commit_can_be_opened_amid`).
#![tactic(auto)]

mod change;
mod committing;
mod laws;
mod losing;
mod moving;
mod noting;
mod storing;
mod taken;
mod takeover;

pub use change::Change;
pub use committing::commit;
pub use laws::{
    a_commit_can_be_opened_amid, a_commit_leaves_info_loose, a_commit_leaves_packages_ready,
    a_losing_record_changes, losers_are_packages, what_a_commit_leaves,
};
pub use takeover::{Takeover, takeover_of, yields_of};
