//! What a loss of power leaves on a disk that keeps an order of what is done in one directory, and
//! none between two. Nothing here runs.
//!
//! # What is proved
//!
//! Laws of losses. Of what was done since the last barrier each directory keeps a front, whichever
//! another one keeps (`IsScattered`); one order of all names is a case of that, and any choice of
//! fronts is one. In each directory by itself such a loss leaves what a loss in one order leaves,
//! so what a stop at some step left; behind a command that has answered it takes nothing
//! (`a_loss_is_path_by_path_like_a_stop`). Where of some names those of one directory alone change
//! between two barriers, it leaves all of them as one stop left them
//! (`directories_that_take_turns_are_left_as_one`). Where between two barriers the names of an area
//! change, or others, and not both, a path outside is as before where it was so at each
//! moment at which the area was like what is left of it (`names_that_change_apart_are_left_in_order`).
#![tactic(auto)]

mod apart;
mod directories;
mod turns;

pub use apart::names_that_change_apart_are_left_in_order;
pub use directories::a_loss_is_path_by_path_like_a_stop;
pub use turns::directories_that_take_turns_are_left_as_one;
