//! Which triggers a command activates (deb-triggers): what packages hit before it, and what those
//! that its units touched hit behind them, in the order of the units.
//!
//! # What is proved
//!
//! `watch` and `activations` only look. `watch` tells of each recorded package the names that it
//! hits among the interests of all installed packages (`IsWatch`): those that the paths of its list
//! hit, where files count, and those that it activates by itself. `activations` tells, by that and by
//! what the touched packages hit now, which interests are activated of the packages that are
//! installed now: those that a package hits which was touched behind the last unit that touched the
//! interested one (`is_activated`); by its paths, and by what it hit before, where its files changed,
//! and by the names that it activates by itself in any case (`hits_at`). Of each of these packages it
//! tells once, in the order of the interests, the names, each once (`activations_of`), and none is
//! passed over (`each_is_told`).
#![tactic(auto)]

mod activating;
mod hits;
mod laws;
mod names;
mod touching;
mod watching;

pub use activating::{Activation, activations, activations_by};
pub use hits::Hits;
pub use laws::each_is_told;
pub use names::each_once;
pub use touching::Touch;
pub use watching::{TriggerWatch, watch};
