//! The unit of an unpack: rows, notes, lists and files, in Policy's order (Policy 6.6).
//!
//! # What is proved
//!
//! `unpack`, the unit.
//!
//! For every honest host and every outcome of each call: the plan is that of the tree, of what the
//! administration says and of the rows of other packages that are given, the calls are the host's
//! own list and legal for all these rows, and it is carried out: the control files are laid out,
//! the rows run, and the commit follows, or nothing but the end of a list whose package has no
//! record any more, where its new preinst's row was reached (`unit`: `HasUnpacked`); the failure
//! that is told is that of the failed row (`cause`); the packages that are told are the one that
//! was named and each other whose record differs (`touched`), and it is told whether the lists of all
//! other packages are those of before (`alone`); in the end the administration is in order, and lists
//! are read back as they are held (`order`). The places that scripts leave alone begin with those of
//! before (`places`).
//!
//! Behind the scripts that are called before the files the table of diversions is read again, and the
//! links above what the unit ships, what its package lists and what diversions name are looked at again;
//! the files go by these (`table`: `GoesByTable`, specs/Followed). A table that can't be read leaves that
//! of before.
//!
//! Where it is broken off, its calls are the first of some that are legal for the plan's rows
//! (`told`). What is done before a record is noted is on the disk before the places of records
//! change, and the note before what comes behind it (`apart`). At each moment the next opening
//! finds the records at its stage: while it begins those of before, while rows run these with the
//! notes up to their place, and then those with the first records of the commit, none of which is
//! noted before all else in it is done; and nothing is in its way; all else is as the parts say, by
//! the table as the unit began or as it was read again (`any_moment`: `IsAmidEither`). A device
//! fault is told exactly where the device failed, once and last (`counts`).
#![tactic(auto)]

mod committed;
mod finishing;
mod following;
mod looks;
mod path_texts;
mod renewing;
mod running;
mod touched;
mod unit;
mod unwound;

pub use finishing::Unpacked;
pub use unit::unpack;
pub use unpack_plan::Others;
