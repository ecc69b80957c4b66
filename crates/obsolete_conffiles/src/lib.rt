//! Packages of which another one takes obsolete conffiles (Policy 10.7): dpkg lets a package ship as a
//! conffile what is an obsolete conffile of another one, and needs no Replaces for it.
//!
//! # What is proved
//!
//! `obsolete_yields`: the names of those recorded packages that leave the incoming package an obsolete
//! conffile, and have nothing else at the places of what it ships but directories of both
//! (`yields_obsolete`, specs/Yields). Conffiles are compared by their places: diversions and links to
//! directories are followed. Nothing is looked at but what is held.
#![tactic(auto)]

mod leaving;
mod meeting;
mod yields;

pub use yields::obsolete_yields;
