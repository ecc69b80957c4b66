//! Policy 6.6 on one page: each line of it is what an unpack may call, and no unpack calls anything
//! else. Nothing here runs.
//!
//! # What is proved
//!
//! The page has a line for each call that may fail and for each undo call that fails then
//! (specs/Page). From every state in which a package may be found, where all its scripts are there
//! and no other package is concerned, what may be called are the lines of the page and nothing else;
//! how the calls end decides the line; and the record and the files are left as it says
//! (`an_upgrade_is_on_the_page`, `an_unconfigured_upgrade_is_on_the_page`,
//! `an_install_is_on_the_page`). What a run of such rows tells are the calls of one line
//! (`a_run_tells_a_line`).
#![tactic(auto)]

mod laws;

pub use laws::{
    a_run_tells_a_line, an_install_is_on_the_page, an_unconfigured_upgrade_is_on_the_page,
    an_upgrade_is_on_the_page,
};
