//! A root directory of the real file system, whose scripts are started as child processes.
//!
//! # What is proved
//!
//! `FilesHost<D: Disk>` meets the trait `Host` for every account `D` of what the directory holds
//! (see "Of real files" above).
//!
//! Each method's calls of the system are kept in a trace, and each answer is shown by it: which
//! calls a step makes, with which paths under the root, in which order (`IsStepBy`, specs/Shown),
//! that a script's command has the program, arguments, directory and variables that it is to have
//! (`command_of`), that a fault is counted and what a person is told of it is kept (`failure`),
//! that what is missing is never told as a fault, that names are sorted, that a file has at most 64
//! GiB, that a barrier syncs the directories in which names changed, and that what was made gets its
//! owner, mode and time through what is open of it, and what goes is taken from its directory, which
//! is open (`IsTakenFrom`). A file that was written is listed until it is on the disk, and a sync of
//! all files syncs each that is listed, or all of its file system (`AreOnDisk`). Where all of the root is
//! to be there and the program `sync` can't be had, each file and directory is synced that is met
//! below the root (`IsWalked`).
//!
//! That nothing stands at a path is told only where the last look told nothing there, or that no
//! directory stands above it (`IsAbsentBy`), or where a call before told that nothing stands above it
//! (`IsLackingBy`). The rights that a file lends are taken by what is open of it, and where the
//! program is told of owners it is left as it is only where a look told that it lends none
//! (`HasLowered`).
//!
//! A large file is lent (`lending_limit`): it is read through once, in pieces, and once more as it is written elsewhere or
//! compared. That its bytes are then the same is supposed, as what the directory holds is.
//!
//! Before a look at a path in a directory of which nothing is remembered, that directory is looked at,
//! which counts as a call too (`see`).
//!
//! What it doesn't look at again is tied to the record of its calls: the directory that it
//! remembers is known by them (`IsKnown`: seen, or above what was seen or made, and no script,
//! fault or step at it since), the path below which it doesn't look is vacant by them (`IsVacant`:
//! nothing was seen there, and since then no script or fault, no step at it, above it or below it,
//! and nothing that was seen), the file that it takes for the last one written is that (`IsNew`),
//! and what a step moves or syncs was seen in that call or is that file (`IsSure`). In each account
//! that fits the answers such a directory is one, nothing stands at such a path or below it, and such
//! a file stands (`what_is_remembered_stands`).
#![tactic(auto)]

mod changed;
mod command;
mod comparing;
mod disk;
mod disk_model;
mod errors;
mod failure;
mod files_host;
mod looking;
mod opened;
mod record;
mod remembered;
mod root;
mod scripts;
mod steps;
mod syncing;
mod system;
mod told;
mod trace;
mod walking;
mod way;
mod written;

pub use disk_model::{Disk, Unknown};
pub use failure::Failure;
pub use files_host::{FilesHost, is_superuser};
pub use record::{Asked, Noted};
pub use remembered::what_is_remembered_stands;
pub use system::ScriptStreams;
pub use told::Made;
