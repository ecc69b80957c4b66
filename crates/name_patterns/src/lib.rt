//! Patterns for the names of packages and for paths, as dpkg takes them: `*`, `?`, and a backslash
//! before a sign that stands for itself.
//!
//! # What is proved
//!
//! `matches` tells whether a pattern matches the whole of a text, by the definition over both
//! (specs/Patterns), whatever stars there are, in a time of the product of their lengths.
//! `is_readable` tells whether a pattern has nothing else that is a sign to dpkg, `is_wild` whether a
//! text has a star or a question mark.
#![tactic(auto)]

mod marks;
mod patterns;

pub use patterns::{is_readable, is_wild, matches};
