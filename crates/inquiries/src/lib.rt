//! Questions about an administration, answered from what stands on a host that is only looked at.
//!
//! # What is proved
//!
//! Each question reads what it answers from and nothing more, and changes nothing (`reads`,
//! `silent`); its text is the one that queries defines over the records, lists and diversions that
//! stand there (`told`). `list`, `selections` and `status` read the records, with the notes;
//! `list_files` the records, and where the package has one, its list alone; `search` and `audit`
//! the records, all lists and the diversions (lists as a command's opening would find them, where
//! names in `info/` have an architecture: `IsSeenAs`); `truename` and `list_diversions` the
//! diversions. `search` and `truename` go by places, with the aliases of the root above the path
//! that is asked for, those that diversions name, and for `search` all listed ones. Damage is told
//! of the first of these that can't be read, behind a look whether the root is a directory, and of
//! nothing else (`finds`); a directory that is missing holds nothing.
//!
//! What is proved of an answer is so of a root that nobody changes meanwhile. `Glance::take` tells
//! what a command would change (`IsGlance`: what stands at `status`, the names in `updates/`, and
//! where lists are read those in `info/`), and `is_same` compares two of them: what differs is told
//! (`exact`), and two glances at one world are the same (`same`).
#![tactic(auto)]

mod files;
mod glance;
mod places;
mod reading;
mod records;

pub use files::{audit, list_files, search, search_matching};
pub use glance::Glance;
pub use places::{list_diversions, truename};
pub use reading::{SeenAll, read_all, read_followed};
pub use records::{list, selections, status};
