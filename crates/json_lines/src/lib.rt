//! The lines that the program prints as JSON, for programs that read them: each line one object on
//! a line of its own. Over texts.
//!
//! # What is proved
//!
//! `json_text` gives of a text of lines exactly what its definition has (specs/Lines): the object
//! of each line, in the order of the lines, with the members that the table of specs/Forms names,
//! or one object of the fields of a paragraph.
#![tactic(auto)]

mod cutting;
mod diverted;
mod forms;
mod lines;
mod members;
mod paragraphs;

pub use forms::Kind;
pub use lines::json_text;
