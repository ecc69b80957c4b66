//! Diversions: the file that keeps them, where a diverted path is, and how one is added and taken
//! away.
//!
//! # What is proved
//!
//! `Diversions::open` reads the file `diversions` as the table that it stands for (`entries`), or
//! tells its first faulty entry (`damage`); `read_above` adds the aliases above a path. By both,
//! `place` and `truename` say where a path is: at the target of its diversion or at itself, the
//! aliases followed. Two names of one place are one: the diversion is that of the listed name, else
//! the first whose path has the same place. Without aliases places are as the file says
//! (`without_aliases_places_are_as_listed`).
//!
//! `Diversions::add` and `remove` are refused by the first condition that holds, and then make no
//! step (`answer`, `same`); else they move the node between the places of the two names, where
//! `rename` asks for it, and then write the table with the names as they were asked for (`done`,
//! `any_moment`), and after a fault they are closed (`err`, `closed`, `shut`). The node gets its new
//! name before it loses the old one, and a barrier is behind each (`turns`), so that no loss of
//! power takes it (`a_loss_leaves_a_diversion_whole`); where a file or link stands at the target
//! already, what a stopped command did is brought to the disk first (`brought`).
//! `a_stopped_change_is_finished`: stopped at any moment, the same change asked for again finishes
//! it. `a_table_is_read_as_written`: a table that is written is read back.
#![tactic(auto)]

mod changing;
mod conditions;
mod diversions;
mod entry;
mod fault;
mod known;
mod laws;
mod lines;
mod moves;
mod reading;
mod refusal;
mod route;
mod sight;
mod table;
mod ways;
mod writing;

pub use diversions::Diversions;
pub use entry::{Diversion, Owner};
pub use fault::DiversionFault;
pub use laws::{
    a_loss_leaves_a_diversion_whole, a_node_is_moved_whole, a_stopped_change_is_finished,
    a_table_is_read_as_written, without_aliases_places_are_as_listed,
};
pub use lines::cut_line;
pub use refusal::{Answer, Refusal, Seen};
pub use sight::Sight;
