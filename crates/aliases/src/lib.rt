//! Links to directories above the paths of packages (`/bin -> usr/bin`): where they stand, where they
//! lead, and the place of a path behind them.
//!
//! # What is proved
//!
//! `Aliases::resolve` gives the place of a path (`resolved`): the path with the aliases on its way
//! followed. A path on which no alias stands (`is_free`) is its own place. `Aliases::read_above` adds
//! the aliases above a path: it only looks, what was there stays (`grows`), each new one is a link of
//! this world that stands above the path and leads to that directory, as the root sees it, and
//! afterwards each directory above the path is followed to where it leads in the world (`whole`).
//! `Aliases::read_above_once` does the same for one path after another: a directory that was looked
//! at is `settled`, and isn't looked at again. No two aliases stand at one place (`law`). Aliases of
//! one world are flat: none stands on the way to a target, so that to follow a path twice is to
//! follow it once (`aliases_of_a_world_are_flat`, `a_place_is_its_own`), and where those above a path
//! were read no link to a directory stands above its place (`no_link_stands_above_a_place`).
//! `Aliases::leads_alike` tells whether a link that a package ships would lead to where the alias leads
//! that stands at its path, followed by the aliases alone.
#![tactic(auto)]

mod aliases;
mod laws;
mod links;
mod looked;
mod names;
mod reading;
mod shipped;

pub use aliases::Aliases;
pub use laws::{a_place_is_its_own, aliases_of_a_world_are_flat, no_link_stands_above_a_place};
pub use looked::Looked;
pub use names::directory_of;
