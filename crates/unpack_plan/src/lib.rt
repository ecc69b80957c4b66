//! What an unpack is going to do, told before anything is done and without the host: the rows of
//! its calls, what is written and listed, which old paths go, and the record that it ends with
//! (Policy 6.6).
//!
//! # What is proved
//!
//! `plan_of`, what an unpack is going to do, each part by its definition over the tree, records,
//! lists and diversions (`IsPlanned`): rows, works, the three lists, old paths that go, names that
//! are cleared, control files, and the record of the unpacked package; and the packages with which
//! no path clashes: those of which only conffiles are left, and those that are given (`yields`). Where one of these records a
//! digest of a conffile's place, and the package has no entry of it, that digest counts as recorded
//! (Policy 10.7.4, `IsFresh`). `plan_again` plans the files of a tree by another table of diversions:
//! what it gives is that part of a plan by that table, the records and rows of which stay.
#![tactic(auto)]

mod again;
mod calls;
mod conffile_paths;
mod contents;
mod digests;
mod files;
mod lists;
mod members;
mod names;
mod others;
mod plan;
mod records;
mod rows;
mod texts_of;
mod works;
mod yielded;

pub use again::{PlannedFiles, plan_again};
pub use others::Others;
pub use plan::{Plan, PlannedCommit, plan_of};
