//! No file is lost by the names of places: what stands at a place that another package's list has
//! is neither written over nor taken away (Policy 6.6, 6.8, 7.6): laws of what the engines promise.
//! Nothing here runs.
//!
//! # What is proved
//!
//! Of a place that a package has by its list, with the links to directories above it followed: a
//! file or link there stands as before behind an unpack of another package, however that ended,
//! unless the first one yields (only its conffiles are left, it is replaced, it is removed in
//! favour, or obsolete conffiles alone are taken of it); and behind a removal or purge of another
//! package, whatever came of that. So it does at each moment of a removal, and of an unpack whose
//! paths the check found sound.
#![tactic(auto)]

mod removing;
mod unpacking;

pub use removing::no_file_is_lost_by_a_removal;
pub use unpacking::no_file_is_lost_by_an_unpack;
