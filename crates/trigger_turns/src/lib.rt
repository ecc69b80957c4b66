//! Processes the triggers that are pending, turn after turn, together with those that scripts ask for
//! meanwhile (deb-triggers, dpkg-trigger).
//!
//! # What is proved
//!
//! `process_in_turns` takes turns until nothing is wished for, or 65,536 of them (`HasTurned`): in each
//! the package of the first wish has its triggers processed by the session; what the journal of
//! activations asks for then becomes pending, the journal is emptied, and what became pending is wished
//! for by what led to the turn (`IsTurn`). A package whose triggers lead to themselves is given up
//! instead. A turn that was broken off ends it, with why in the unit behind those that were finished
//! (`IsBrokenTurn`); that one is abandoned only where the watcher wants no further one (`abandoned`).
//! Each unit was told once, as it was finished (`AreToldInTurns`). `pending_owners` gives the
//! packages of which something is pending.
#![tactic(auto)]

mod asking;
mod settling;
mod turns;
mod wishing;

pub use settling::process_pending;
pub use turns::process_in_turns;
pub use wishing::pending_owners;
