//! The words of a command line: what they ask for, and the answer to a comparison of versions.
//!
//! # What is proved
//!
//! `command_of` gives the command of the words, with its texts and flags, exactly where clap
//! accepts them and they are no usage fault (`asked`, `usage`): confold with confnew is one, and so is
//! `--triggers-only` beside a package or `--no-triggers`; a flag
//! for help or the version asks for that, whatever else the words are (`flagged`); behind a usage
//! fault stands the screen of the subcommand that the words name (`screen`); `rehearsal_of` tells
//! whether the command is only rehearsed, which calls are assumed to fail then, and whether changed
//! paths are told; `filters_of` gives the filters for paths in their order; `wants_json` tells whether each line is to be an object;
//! `Comparison::verdict` is that of the versions' order, with an empty text before or behind all versions as the operator
//! has it (`order_of`), or the first text that is neither empty nor a version.
#![tactic(auto)]

mod command;
mod comparison;
mod diverting;
mod filters;
mod forced;
mod found;
mod frontends;
mod help;
mod limits;
mod mistakes;
mod objects;
mod owners;
mod packages;
mod query;
mod rehearsal;
mod selecting;
mod selections;
mod streams;
mod triggers;
mod unpacking;
mod verifying;
mod waits;
mod words;

pub use command::subcommand_names;
pub use comparison::{Comparison, Operator, Verdict, bad_version_line};
pub use diverting::{Diverting, Undiverting};
pub use filters::filters_of;
pub use forced::Forced;
pub use frontends::{logs_of, status_fds_of};
pub use help::{Topic, help_text, version_text};
pub use objects::wants_json;
pub use owners::TreeOwners;
pub use packages::{Configuring, Removing};
pub use query::{Query, Question};
pub use rehearsal::Rehearsal;
pub use selecting::{RemovingSelected, Selecting};
pub use selections::{Selected, Selections, Wanted};
pub use streams::ScriptStreams;
pub use triggers::ProcessingTriggers;
pub use unpacking::Unpacking;
pub use verifying::Verifying;
pub use words::{Asked, WordsFault, command_of, rehearsal_of};
