//! What relations between packages forbid and ask for (Policy 6.7, 6.8, 7.2 to 7.6): which packages
//! can be configured or removed and in which order, why those left over can't, and what an unpack
//! does to other packages or why it is refused. Packages are named by their numbers in name order.
//!
//! # What is proved
//!
//! Over packages and their relations as read: the four set calls are the union of all sets of
//! waiting packages whose Depends and Pre-Depends are met by the installed packages and the set,
//! and the like of removal, with their next members; `first_unmet` and `depended_on_by` are the
//! details of the refusals of what is left over, `broken_by` the package that breaks one, looked
//! for among those that state Breaks (`breakers_of`); `check_unpack` gives what an unpack
//! deconfigures and removes (`plan`), or the first reason why it is refused (`fault`): PreDepends,
//! Conflicts, ConflictEssential, Dependents, Breaks.
#![tactic(auto)]

mod breaking;
mod configure_queue;
mod dependents;
mod left;
mod meeting;
mod plan;
mod pre_depends;
mod queues;
mod remove_queue;
mod roles;
mod unpack;

pub use breaking::{breakers_of, broken_by};
pub use configure_queue::ConfigureQueue;
pub use left::{UnmetClause, depended_on_by, first_unmet};
pub use plan::{Dependent, Plan};
pub use queues::{configurable, next_to_configure, next_to_remove, removable};
pub use remove_queue::RemoveQueue;
pub use roles::Role;
pub use unpack::{CheckFault, UnpackRefusal, check_unpack};
