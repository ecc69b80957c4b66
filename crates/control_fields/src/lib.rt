//! Control text (Policy 5.1): paragraphs of named fields, read and written.
//!
//! # What is proved
//!
//! What is read stands in the grammar (`reads`), a fault comes only where no reading exists and is
//! the first (`fault`, and the law `reading_is_exact`, clause `no_fault`); a text has one reading
//! (`once`); what is written reads back, and what was read can be written
//! (`what_is_written_is_read`); `get` finds the field of a name without regard to case; fields
//! stand on the lines that are told (`lines`); `Field::value` is the value on all its lines.
//!
//! What is said of writing is said of paragraphs whose fields have a written form, as all that were
//! read have; `Paragraph::push` takes any name that is new, and after refused memory leaves the
//! paragraph as it was (`err`), as adding a line to its last field does.
#![tactic(auto)]

mod blanks;
mod fault;
mod field;
mod laws;
mod line_list;
mod located;
mod paragraph;
mod reading;
mod writing;

pub use fault::ControlFault;
pub use field::Field;
pub use laws::{reading_is_exact, what_is_written_is_read};
pub use line_list::Lines;
pub use located::{ControlText, Located};
pub use paragraph::Paragraph;
pub use reading::{read_located, read_one, read_paragraphs};
pub use writing::{write_paragraph, write_paragraphs};
