//! What a loss of power leaves of a package's files, at any moment of an unpack, on a disk that keeps
//! no order between directories (Policy 6.6). Nothing here runs.
//!
//! # What is proved
//!
//! Of files that are written or put back each target is left as it was or whole as shipped, and is
//! missing only where a directory takes the place of a file (`no_file_is_left_in_part`): the names
//! of a work lie in one directory.
//!
//! Of a whole unpack what is left in each directory is like what a stop at some moment left there,
//! on paths that no script wrote and apart from the bytes at temporary names. So at the target of a
//! shipped path that lasts stands what stood there or the shipped node, never a part of it, and
//! nothing only where a directory takes the place of what is then at the backup; and a path that
//! the unpack passes by is as it was (`what_a_loss_leaves_of_an_unpack`).
//!
//! The record of the package is on the disk before its files change: where the next opening finds
//! it neither marked as half-installed nor unpacked by this unit, each path outside the
//! administration's directory is as before, on paths that no script wrote and that are no temporary
//! names, but for directories that had to stay and names beside places
//! (`what_a_loss_leaves_of_an_unmarked_package`).
#![tactic(auto)]

mod files;
mod standing;
mod unpacks;

pub use files::no_file_is_left_in_part;
pub use standing::what_a_loss_leaves_of_an_unmarked_package;
pub use unpacks::what_a_loss_leaves_of_an_unpack;
