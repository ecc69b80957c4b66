//! How an unpack or a removal changes the list of a package (Policy 6.6, 6.8): what it lists
//! meanwhile and then, and which of its paths go.
//!
//! # What is proved
//!
//! `union_of` is what a package lists while its files are written, `list_of` what it lists then:
//! the shipped paths, those that stay and the directories above them, `list_with_parents` what it
//! lists behind a removal; `leaving_of` tells of each listed path whether it goes: not the root
//! nor a directory to which an alias leads, not where the list to come or another list has its place,
//! nothing in the administration and no conffile. **listed_files**: `write_listed` writes the list and then the files, `put_back_listed`
//! puts the files back and then writes the old list, `renew_list` takes old paths away and writes
//! the new list, `release` takes places from other lists and clears reserved names, and `conclude`
//! notes the record behind that; what holds at each moment says in which order (`any_moment`), and
//! `what_a_move_leaves` what lies outside each.
#![tactic(auto)]

mod clearable;
mod leaving;
mod ordering;
mod parents;
mod union;

pub use clearable::{clearable_name, joined};
pub use leaving::leaving_of;
pub use parents::{list_of, list_with_parents};
pub use union::union_of;
