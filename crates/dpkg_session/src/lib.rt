//! A session over one root: commands as lists of units.
//!
//! # What is proved
//!
//! `Session::open`, `run`, `install`, `configure`, `remove`, `purge`, `remove_selected`, `change`,
//! `process_triggers` and `into_host`. `configure`, `remove`, `purge` and `remove_selected` (what
//! the records want to go) have the clauses of `run`, with the units of configure_run and
//! removal_run in the place of the unpacks, and so have `change`, with those of record_changes, and
//! `process_triggers`, with those of trigger_run;
//! `install` is a run of unpacks and then a configure of the packages whose unpack was done, each
//! with those that were deconfigured for it, without those that a later candidate took away, with a
//! report of each. `watch_triggers` and `activations` only look, and tell what trigger_watch says of
//! the records and lists (`looks`); the session stays as it is, and a closed one doesn't look
//! (`refused`, `same`). `pending_triggers` tells what is pending by the records. `requested_triggers` and `asked_changes` likewise tell what trigger_journal
//! says of the journal, and `foresee_triggers` and `clear_triggers` write it and empty it: nothing
//! else changes, and it stands on the disk when they answer (`ahead`, `cleared`, `on_disk`). So do the files
//! of interests when `register_triggers` answers (`registered`). An open session always knows its administration, records, lists and
//! diversions (`ready`), and keeps the places of all listed paths (`opened`).
//!
//! An opening reads the aliases of the root behind the administration, and only looks for that: each
//! listed path, each that a diversion names and those in the usual directories are followed to where
//! they lead (`followed`). While the session is open more are added: before
//! the unit of a tree is decided those above its paths (`HasRead`), and before a diversion is added
//! or taken away those above its path and target (`HasDiverted`, `HasUndiverted`). The kept places
//! are those of all listed paths with what is known then.
//!
//! The table of diversions is read again before the unit of a tree (`HasRead`: `IsReread`), before
//! the packages of an install are configured, and before a configure, a removal and the processing of
//! triggers (`BehindReading`): what is held then has the entries of the file. Where they are others
//! than before, the aliases are read anew; a table that can't be read breaks the unit or the command
//! off, and nothing of it is done (`IsBrokenOff`: `damaged`; `IsUnread`). An unpack reads it once
//! more behind the scripts that are called before its files: these go by what stands there then,
//! and so do the packages that it displaces (`HasUnpackedBeside`: `late`, `table`); the aliases stay.
//!
//! Where it keeps what the recorded packages state of others, that is what the records state at
//! each command (`indexed`).
//!
//! `run` has the main theorem of this command: the units are a run of the trees that were read, in
//! order (`run`: `HasRunThrough`, with `whole` and `part`), and these are all trees where no unit
//! was broken off, else no more than those whose units are told and the one whose unit was broken
//! off (`all`, `read`); a closed session reads none (`unread`); each unit of the report was told to
//! the watcher, in order: when it and those before it had made their calls and no other was made,
//! and all that they did was on the disk (`watched`); the run is from the records, lists and
//! diversions of before to those of after; a tree that can't be read, a faulty line of the
//! overrides or one of a shipped path whose owner has no number, a conffile that is diverted, and
//! relations to the recorded packages are refused by the first of these that holds, without a call
//! and without a change; a package has the accesses of the overrides that stand in the root at its
//! turn (`IsOverriddenUnit`); the other trees are unpacked as unpack_engine says, with the rows
//! that in_favour_rows gives for the packages that are deconfigured or conflict; behind one whose
//! rows all succeeded packages disappear and are removed as displaced_packages says; the reply, the
//! touched packages and those that were deconfigured are as defined; after a unit that was broken
//! off, which is that of the next tree and touches no package, what the earlier ones left stands,
//! and the calls of the broken unit are the first of those that its tables allow, made once all was
//! ready for them, or none where it would have been refused, or memory was wanting or it was
//! abandoned before it was decided (`part`); no further one runs and the session is closed
//! (`closes`, `refused`, `same`), and no other session answers that it is closed (`not_closed`); a
//! unit is abandoned only where the watcher wants no further one to be begun (`abandoned`).
//!
//! A unit is broken off for a device fault exactly where the device failed, once and as the last
//! thing done; where it is broken off by a declined step, or fails for one of its files, a step was
//! declined in it (`counts`). A unit that was carried out, and an opening, are brought to the disk
//! before they are answered, by the host's barrier as the last thing done (`on_disk`; in a run each
//! unit only looked or is on the disk, `RunsUnit.answered`).
//!
//! A loss of power during an opening or a run leaves, on kept paths that no script of the session
//! wrote, a world that a stop at some moment of it could have left, apart from the bytes at
//! temporary names (`loss`, `loss_refused`); a loss after a run began that ended without Broken is
//! one during it, or one since it answered (`stands`). The calls that a report tells, those of a
//! unit that was broken off among them, are those by which the host's own list has grown, in order
//! and count (`told`).
//!
//! What holds at each moment of a run is `any_moment`, and of each unit by itself `whole` and
//! `part`. `divert` and `undivert` change the table of diversions, each by one unit (`whole`): it
//! is refused by the first rule that holds, with the path, and then world, table and kept places
//! are as they were, or it is done, the table has changed, the node at the path or the target is
//! moved where that is asked for, nothing else has changed, and all of it is on the disk before it
//! is answered (`answered`, `stands`).
//!
//! At each moment the file has the table of before or after, and the node stands whole at one of
//! its two names (`any_moment`), also where power was lost (`loss`). A unit that was broken off
//! closes the session, tells no call and no package, and is all that is reported (`broken`,
//! `closes`); no script is called (`silent`, `told`), records and lists stay. `divert_followed` and
//! `undivert_followed` do so for an administration that no session holds.
//!
//! `checkpoint` ends a command: the notes are merged into the status file, and that is on the disk
//! (`merged`, `written`, `answered`); where none stand the host is as it was (`none`). At each
//! moment of it, also where it is broken off or power is lost, the next opening finds the same
//! records (`any_moment`, `loss`).
//!
//! `history_stands`: after any commands (unpacks, diversions that are added or taken away), with
//! any change between them at other paths than the program's own, all parts of the administration
//! can be read, and it stands for the records and diversions that the last of them left, and for
//! the lists of before. A run that ended without Broken only looked or is on the disk (`answered`).
#![tactic(auto)]

mod asked;
mod changing;
mod checkpointing;
mod configuring;
mod displacing;
mod diverting;
mod done;
mod foreseeing;
mod growing;
mod installing;
mod laws;
mod overriding;
mod processing;
mod read_packages;
mod recorded;
mod refusal;
mod removing;
mod removing_selected;
mod report;
mod rereading;
mod seen;
mod session;
mod table_units;
mod tellings;
mod trees;
mod unchanged;
mod undiverting;
mod units;
mod unpacking;
mod unpacks;
mod watching;
mod yields;

pub use asked::{Diverting, Undiverting};
pub use configure_run::ConfigureOptions;
pub use diverting::divert_followed;
pub use installing::Installed;
pub use laws::history_stands;
pub use record_changes::{Change, PendingTrigger, RecordChange};
pub use removal_run::{Extents, RemovalOptions};
pub use report::Candidate;
pub use session::Session;
pub use trees::Trees;
pub use trigger_journal::Request;
pub use trigger_watch::{Hits, Touch, TriggerWatch};
pub use undiverting::undivert_followed;
pub use unit_reports::{
    Breakage, Cycle, Failure, Refusal, Reply, Report, Rule, Touched, Unit, Unwatched, Watcher,
};
pub use unpack_relations::UnpackOptions;
