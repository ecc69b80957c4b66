//! What relations between packages say of an unpack (Policy 7.2 to 7.6): what it does to other
//! packages, or why it is refused.
//!
//! # What is proved
//!
//! `check`, over the packages of the records, whatever table they are those of, and the package of
//! a tree: the first reason why its unpack is refused, its architecture where that isn't the root's, else with the clause or the name of the package
//! that stands in its way, or what it would do to other packages, by their names: which it breaks,
//! which lose what they depend on, with which it conflicts, which it replaces (`checked`:
//! `IsChecked`).
//!
//! Those that it would deconfigure or remove are recorded, none of them is the package of the tree,
//! and none plays two parts (`apart`).
#![tactic(auto)]

mod beside;
mod checking;
mod ignoring;
mod incoming;
mod names;
mod options;
mod refusal;
mod replaced;

pub use beside::{Beside, Dependent};
pub use checking::{Checked, check};
pub use options::UnpackOptions;
