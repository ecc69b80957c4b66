//! What becomes of a conffile where the package's own differs from the one that is there (Policy
//! 10.7.3): decided by the digests alone, and then carried out.
//!
//! # What is proved
//!
//! `Digest::of` is MD5 as the kit's `md5` defines it, its text 32 lower case hexadecimal digits
//! that read back (`exact`, `value`, `back`). `decide` gives the decision of the row in which the
//! recorded, current and shipped digests fall; each case falls in exactly one of the twelve rows
//! (`each_case_has_one_row`). `apply` leaves the files of the table and no other change
//! (`settled`), and at each moment each conffile is as before or as its row says, each whole
//! (`any_moment`); settling again after a stop ends as without it (`settling_again_ends_alike`).
//! `find_obstacle` is the first name in the way.
#![tactic(auto)]

mod again;
mod decisions;
mod digests;
mod entries;
mod obstacles;
mod settling;

pub use again::settling_again_ends_alike;
pub use decisions::{Changed, ConfPolicy, Decision, decide, each_case_has_one_row};
pub use digests::{Digest, digest_of};
pub use entries::Settled;
pub use obstacles::find_obstacle;
pub use settling::apply;
