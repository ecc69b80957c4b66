//! Lines as they are printed: what could end a line or control a terminal is shown by its digits,
//! so that a name in a line can be neither.
//!
//! # What is proved
//!
//! `line` gives a text as it is printed, `shown`: each byte below 32 and byte 127 by its digits.
#![tactic(auto)]

mod lines;

pub use lines::{line, shown};
