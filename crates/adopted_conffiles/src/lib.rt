//! Conffiles that another program unpacked with a package are taken up as our own. dpkg leaves the
//! shipped file of each as `X.dpkg-new` beside its place, and records no digest of it: a configure
//! wouldn't settle it, nor a purge take it away.
//!
//! # What is proved
//!
//! `adopt` is the stage of an opening: each record that waits to be configured and tells of no
//! conffile that isn't settled yet gets the digests of the files beside the places of its conffiles
//! (`records`), those of obsolete entries and of ones to be removed left out (`all_adopted`,
//! specs/Adopted). The record of an installed package loses what it still tells of conffiles that
//! weren't settled, or of a removal (`settled`): dpkg configured it, and keeps our fields. They are noted one after another, and at each moment those in front are taken up
//! and those behind are as before (`any_moment`). Where there is neither it only looks
//! (`still`). Taking up what was taken up in part ends alike (`what_is_taken_up_stays`).
#![tactic(auto)]

mod beside;
mod finding;
mod laws;
mod noting;

pub use laws::what_is_taken_up_stays;
pub use noting::adopt;
