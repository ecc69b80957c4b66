//! Which listed paths differ from what was installed, which packages were left half-way, and how a
//! package differs from its tree.
//!
//! # What is proved
//!
//! `verify` reads the records, all lists, the diversions and the aliases of the root, and then looks
//! once at the place of each listed path of the packages that are verified; it changes nothing
//! (`reads`, `silent`). Its text is the definition's of what stands there (`told`, specs/Verified):
//! first the names without a record, then the packages with which work was cut off, then a line for
//! each path that differs, and none for another. Bytes are compared where a digest is known: of a
//! conffile the recorded one, of another path that of the package's `md5sums`. A look at which the
//! device failed is told and counted, and the next path is looked at (`told`); damage is told as for
//! the audit (`finds`).
//!
//! `verify_tree` reads the same, and the links above what a package's tree ships; then it looks once
//! at the place of each path that the tree ships. Its text is the definition's too (`told`,
//! specs/Compared): a line for each path at which something else stands than the tree has there,
//! with the text of links, modes and owners, and none for another; or why nothing is compared.
#![tactic(auto)]

mod comparing;
mod difference;
mod following;
mod looking;
mod packages;
mod shipped;
mod sums;
mod verifying;

pub use comparing::verify_tree;
pub use verifying::{Verified, verify};
