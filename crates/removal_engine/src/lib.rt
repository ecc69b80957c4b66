//! The units that remove and purge a package (Policy 6.8).
//!
//! # What is proved
//!
//! `remove`, the unit of a removal or a purge, likewise (`unit`: `HasRemoved`, `end`): prerm, the
//! files, postrm, the control files, and for a purge the names beside conffiles, postrm again,
//! directories, and the record. A removal in favour of a package that conflicts with it (`Extent`)
//! begins with the files. A directory whose removal is declined stays, and the removal goes on.
//! Each record is on the disk before what it tells of is done (`apart`).
#![tactic(auto)]

mod extent;
mod lists;
mod names;
mod paths;
mod records;
mod scripts;
mod side_names;
mod stages;
mod unit;

pub use extent::Extent;
pub use scripts::Stored;
pub use unit::remove;
