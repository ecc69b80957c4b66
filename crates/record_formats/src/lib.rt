//! Records as a format shows them, and as dpkg's table of packages: what dpkg-query prints.
//!
//! # What is proved
//!
//! `read_format` reads a format, the text that `dpkg-query --showformat` takes, by the definition of
//! specs/Formats, or says that it can't be read; `formatted_text` is what stands for records under
//! one, each part of it by specs/Values and specs/Formats: a byte for itself, a field by its value,
//! padded and cut to its width. `table_text` is dpkg's table (`dpkg -l`), as it is printed where
//! standard output is no terminal (specs/Tables).
#![tactic(auto)]

mod formatted;
mod layouts;
mod pieces;
mod reading;
mod rows;
mod table;
mod values;

pub use formatted::formatted_text;
pub use layouts::Layout;
pub use pieces::{Piece, Pieces, Shown};
pub use reading::read_format;
pub use table::table_text;
