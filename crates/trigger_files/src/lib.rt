//! The files by which dpkg knows who is interested in which trigger (deb-triggers): `triggers/File`
//! for those that are paths, and one with the name of each other trigger.
//!
//! # What is proved
//!
//! `write_interests` brings them to the interests of the packages with files (`HasRegistered`): a file
//! that hasn't the lines that belong there, in whatever order, is written whole, or goes where there
//! are none; each other file, and all else, stays as it is. At each moment each is as before, or as it
//! is to be (`IsRegistering`). A directory or link is left alone, which is told. Where the directory is
//! missing nothing is done: dpkg makes it, and takes the interests from the packages' own files then.
#![tactic(auto)]

mod due;
mod entries;
mod lines;
mod places;
mod registering;
mod writing;

pub use registering::write_interests;
