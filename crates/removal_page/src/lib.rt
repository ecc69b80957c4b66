//! Policy 6.7 and 6.8 on one page: each line of it is what a unit may call that configures, removes
//! or purges a package, and no such unit calls anything else. Nothing here runs.
//!
//! # What is proved
//!
//! The page has a line for each call that may fail and for its undo (specs/Page). Where all scripts
//! of a package are stored, what may be called to configure, remove or purge it are the lines of the
//! page and nothing else; how the calls end decides the line; and a run tells the calls of one line
//! and leaves the record that it says (`configuring_is_on_the_page`, `a_removal_is_on_the_page`,
//! `a_purge_is_on_the_page`).
#![tactic(auto)]

mod laws;

pub use laws::{a_purge_is_on_the_page, a_removal_is_on_the_page, configuring_is_on_the_page};
