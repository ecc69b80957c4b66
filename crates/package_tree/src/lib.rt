//! Package trees given as directories: their control file and scripts.
//!
//! # What is proved
//!
//! `read_tree` gives the package that a tree stands for, or its first fault (`read`, `fault`): its
//! control file and scripts (these and the other kept files of `DEBIAN` with user and group 0,
//! `scripts`, `AreOthers`), each path that it ships with what stands there (`AreFiles`, a file's
//! bytes are read once and handed on), its conffiles, plain and flagged `remove-on-upgrade`, the
//! other files of `DEBIAN` that are kept, and what its six relation fields state, as read
//! (`relations`).
//!
//! Its faults come in one order: the control file (above 16 MiB, then its text), `conffiles` or a
//! script above 16 MiB, a bad path, a reserved one, a conffile that isn't shipped, one that is
//! flagged and shipped, an odd line, a shipped file above 16 GiB or more than 65,536 paths, another
//! kept file of `DEBIAN` above 16 MiB; by line or in path order within each. No file of `DEBIAN`
//! above its limit was read of a tree that is read as a package (`members`, `small`).
//!
//! A device fault is told exactly where the device failed, once and last (`counts`); nothing is
//! changed (`reads`); what a package's type promises holds whatever the host told (`AreFitting`:
//! each conffile is a shipped file); `copy` gives an equal package; `give_to_root` gives what it
//! ships to user and group 0 and changes nothing else (`owned_by_root`); a tree that reads as a
//! package is that of one package, with the relations that its control file states (`relations`),
//! and has no fault (`trees_are_of_one_package`).
//!
//! `read_control_file` gives the control file alone (`read`), which is that of the package for which
//! the tree stands, if it stands for one (`trees_have_their_control_files`).
#![tactic(auto)]

mod collecting;
mod conffile_lines;
mod control_file;
mod control_limit;
mod fault;
mod laws;
mod line_faults;
mod line_names;
mod line_text;
mod other_file;
mod other_files;
mod others;
mod package;
mod path_faults;
mod reading;
mod ship_map;
mod ship_paths;
mod shipped;
mod walk;

pub use control_file::ControlFile;
pub use fault::{FieldName, LineName, TreeFault};
pub use laws::{trees_are_of_one_package, trees_have_their_control_files};
pub use line_text::LineText;
pub use other_file::OtherFile;
pub use other_files::OtherFiles;
pub use package::Package;
pub use reading::{read_control_file, read_tree};
pub use ship_map::ShipMap;
pub use ship_paths::ShipPaths;
pub use shipped::Shipped;
