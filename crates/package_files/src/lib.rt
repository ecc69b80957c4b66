//! The paths that a package ships, with the names at which they are written; their file step, and
//! putting it back (Policy 6.6, the files of an unpack).
//!
//! # What is proved
//!
//! `write_files` goes in three passes: directories are made, what files and links take the places
//! of gets its second name, and they stand at their temporary names (`preparing`), the bytes of all
//! go to the disk in one step, and files and links take their places (`committing`). It leaves each
//! target with its shipped node and what stood there at `.dpkg-tmp`, and all else as before; or a
//! step was declined, and then each target is as it was, but for a directory that was made and has
//! something below it (`written`). A declined step is an error only where one of the undoing was
//! declined too (`twice`). `put_back_files` leaves each target as it was, and made directories only
//! where something stays below them (`back`). At each moment of both a target is as before or whole
//! as shipped, what stood there is at the target or its second name, and it is missing only where a
//! directory takes the place of a file (`any_moment`). An old file is read only where the file
//! system gives it no second name: then a copy stands there, which is on the disk before it gets
//! that name.
#![tactic(auto)]

mod clearing;
mod committing;
mod laws;
mod preparing;
mod putting_back;
mod work;
mod writing;

pub use laws::{names_of_works_differ, written_files_stay};
pub use putting_back::put_back_files;
pub use work::Work;
pub use writing::write_files;
