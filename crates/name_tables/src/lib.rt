//! Tables of values in the order of their names, each name once, searched by halves.
//!
//! # What is proved
//!
//! Of values in name order `place_of` tells how many stand before a name, in as many steps as the
//! number of values can be halved, and `is_there` whether the next one is of this name; `find`
//! tells where the value of a name stands; `are_in_order` tells whether they are in name order.
//! `NameTable` keeps values so: `get` is the value of a name, `put` brings one in place of that of
//! its name or in among the others, `remove` takes one out, and nothing else changes. What the name
//! of a value is, `Named` tells.
#![tactic(auto)]

mod named;
mod places;
mod table;

pub use named::Named;
pub use places::{are_in_order, find, is_there, place_of};
pub use table::NameTable;
