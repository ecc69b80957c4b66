//! What a package's fields state of other packages (Policy 7.1), of its architecture (5.6.8), and
//! whether it is essential (Policy 3.8).
//!
//! # What is proved
//!
//! What the relation fields of a paragraph state, each as it is read, and whether it says that the
//! package is essential (`stated_relations`: `States`); the architecture that a paragraph names, and
//! as which its package counts in a root (`architecture_of`, `counted_as`). **recorded_packages** (Policy 7.1):
//! `packages_of`, the records as packages with the relations that their fields state; `renew`
//! brings packages up to date where the records of these names may have changed: whatever table
//! they were the packages of before, if it has the same records of all other names they are those
//! of the records now. **unit_reports**: the types of reports, and what units tell.
#![tactic(auto)]

mod architecture;
mod relations;
mod stated;

pub use architecture::{architecture_of, counted_as};
pub use relations::{is_essential, provides_of, relations_of};
pub use stated::{StatedRelations, stated_relations};
