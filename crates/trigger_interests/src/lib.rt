//! Triggers (deb-triggers): in which of them packages are interested, which they activate by
//! themselves, and which of them paths hit.
//!
//! # What is proved
//!
//! `read_declarations` reads the text of a package's file `triggers`: its declarations, or the
//! number of its first faulty line (`declarations_in`). `read_interests` and `read_activations`
//! only look: the interests of packages, in their order (`interests_of`), and the names that a
//! package activates (`activations_of`), by their stored files; a file with a faulty line declares
//! nothing; of an interest is kept whether nobody waits for it. `add_interests_as` adds those of one
//! package. `hits_of` marks the interests whose names are hit by paths (`hits_of`): by the path of
//! that name or one below it, component by component, and by none below which another stands.
#![tactic(auto)]

mod hits;
mod interests;
mod lines;
mod words;

pub use hits::hits_of;
pub use interests::{Interest, add_interests_as, read_activations, read_interests};
pub use lines::{Declaration, read_declarations};
pub use words::Directive;
