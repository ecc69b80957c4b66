//! What a stop at any moment of an unpack leaves, path by path (Policy 6.6), and what the next
//! unpack leaves of that: laws of what the engine promises. Nothing here runs.
//!
//! # What is proved
//!
//! What `any_moment` of an unpack says path by path, as the table above lists it; laws alone,
//! nothing runs.
#![tactic(auto)]

mod called;
mod done;
mod files;
mod info;
mod marked;
mod packages;
mod paths;
mod records;

pub use called::what_a_called_script_holds;
pub use done::what_an_unpack_that_is_done_leaves;
pub use files::what_stands_of_the_package;
pub use info::what_stands_in_info;
pub use marked::what_is_marked;
pub use packages::what_other_packages_keep;
pub use paths::what_stands_where_no_work_comes;
pub use records::what_the_next_opening_finds;
