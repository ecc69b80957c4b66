//! A host over another one: what its steps change is kept in memory, what they don't is told from below, and no script is
//! started. It is what a dry run goes over.
//!
//! # What is proved
//!
//! `Overlay` is a host as honest as the one below: its world is what its events make of the world that it was put over. It calls
//! no step and no script of the host below, which is only looked at from `over` to `into_below` (`untouched`); its steps are
//! made whole, or want memory and do nothing. A script call ends with exit status 0, or 1 where it was assumed to fail
//! (`CallsAsAssumed`), and changes nothing; in a rehearsal (`rehearsing`) the calls that are assumed to fail are foretold by its
//! first events, and all calls end by these (`GoAsForetold`, `calls_as_assumed`). A path that was taken away doesn't show through from below, nor is an added name
//! left out of a listing. `changes` tells all paths at which something else may stand than below.
//!
//! `SeenNames` are such changes of names alone, without a host: a host is looked at through them (`node`, `kind`, `list`), and
//! is seen as if these steps had been made on it.
#![tactic(auto)]

mod changed_path;
mod changes;
mod done;
mod failing;
mod layer;
mod looking;
mod overlay;
mod seen_names;
mod standing;
mod step;
mod stored;

pub use changed_path::ChangedPath;
pub use done::{DeviceStep, Done, Made};
pub use failing::{AssumedFailure, Plan};
pub use overlay::Overlay;
pub use seen_names::SeenNames;
pub use stored::Stored;
