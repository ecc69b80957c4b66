//! dpkg's words, translated into this program's own: for those that call it where they call dpkg.
//!
//! # What is proved
//!
//! `translate` gives of dpkg's words exactly what its definition has (specs/), which is a table in
//! dpkg's terms: the program's own words, also with files behind them that are still to be found or
//! picked, a text with a status, or a refusal that names the option that isn't taken. `selecting_words` gives
//! of a text the words by which what it selects is recorded, or tells the first line that can't be
//! read. `options_in` gives the options that stand in a text, and `with_options` puts options in front
//! of words. `idle_warnings` gives a line for each thing that is forced and changes nothing, of words
//! that are carried out. `speaks_dpkg` tells by which names of the program its words are dpkg's.
#![tactic(auto)]

mod arguments;
mod configured;
mod forces;
mod names;
mod numbers;
mod options;
mod own_words;
mod picking;
mod reading;
mod refusals;
mod screens;
mod selections;
mod translation;
mod warnings;
mod words;

pub use configured::{options_in, with_options};
pub use names::speaks_dpkg;
pub use own_words::OwnWords;
pub use picking::Picking;
pub use selections::{Selected, selecting_words};
pub use translation::{Clearing, Gathered, Printed, Translated, translate};
pub use warnings::idle_warnings;
