//! What a rehearsal tells of paths: which would be written, replaced or taken away, each with its
//! package, and which edited conffiles would stay.
//!
//! # What is proved
//!
//! `look_over` looks at each path that an overlay has changed, once, and reads the administration
//! that would stand (`IsLookedOver`); `changes_text` reads the one that stands below and tells both
//! beside each other (`AreTold`): of each path outside the administration how what would stand
//! there differs, with a package whose list has it, and no other path; and of each package whose
//! record would be another the conffiles that stay as they are though their bytes aren't those of
//! the recorded digest. A look at which the device fails is told as one that failed, and the
//! others taken.
#![tactic(auto)]

mod change;
mod keeping;
mod looking;
mod owning;
mod reading;
mod staying;
mod telling;

pub use change::Change;
pub use looking::{LookedOver, LookedPath, look_over};
pub use telling::changes_text;
