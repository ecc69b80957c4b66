//! The texts that questions about an administration are answered with.
//!
//! # What is proved
//!
//! The texts that questions are answered with, each a definition over the open records, lists and
//! diversions (specs/Records, Selections, Files, Places), no part of which they change.
//! `list_text`, `audit_text` and `selections_text`, what is wanted of packages as dpkg prints it,
//! go by the names of the packages, in whatever order the status file has them; `status_text` is
//! the record as status_db writes it, and there is none exactly where the package has no record, as
//! of `files_text`, the paths that a package lists; `search_text` has each listed path that lies at
//! a place, whatever diversions there are; `truename_text` and `diversions_text` tell of the
//! diversions.
#![tactic(auto)]

mod asked;
mod files;
mod paths;
mod places;
mod records;
mod selections;

pub use asked::Told;
pub use files::{files_text, matching_text, search_text};
pub use paths::path_text;
pub use places::{diversions_text, truename_text};
pub use records::{audit_text, is_settled, list_text, status_text};
pub use selections::selections_text;
