//! What is held of an open administration, as one value: the records, what they state of others,
//! the lists of their packages, and the places of these that running scripts leave alone.
#![tactic(auto)]

mod held;

pub use held::Administration;
