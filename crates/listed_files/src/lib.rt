//! A package's files with the list that names them: written, put back, renewed, and places that
//! other lists lose. It knows nothing of script calls (Policy 6.6).
#![tactic(auto)]

mod closing;
mod laws;
mod listing;
mod open_lists;

pub use closing::{release, renew_list};
pub use laws::{what_a_move_leaves, works_are_apart_from_the_administration};
pub use listing::{put_back_listed, write_listed};
pub use open_lists::{drop_list, replace_list};
