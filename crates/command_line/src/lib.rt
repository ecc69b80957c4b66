//! Carries out what the words of a command line ask for, over any hosts.
//!
//! # What is proved
//!
//! `run_words`, over any hosts, whatever can be written and whatever the status. There is an answer
//! to what the words ask for, or memory was wanting before any host was opened (`answered`). For
//! `unpack` this answer tells how the command ended: by the report of a run of the trees behind the
//! words, each of them read as its package or its first fault, from the administration that was
//! opened on the host behind the root's word to the state in which this host was given back; or by
//! why the administration couldn't be opened, with the state that this left.
//!
//! Behind the units of these commands, refused and failed ones too, the notes are merged into the
//! status file before anything more is answered (`HasEnded`): where none stand nothing is done, and
//! behind a unit that was broken off they stay. Where the merging is broken off that is told on
//! standard error, with status 2, and the notes that are left are valid.
//!
//! For `install` it is the same with two reports for each round that was begun, that of the unpacks
//! and that of what was configured then, whose lines are told one after the other. The rounds are
//! those of install_order by the control files of the trees, which are looked at first, and by the
//! packages that are recorded (`AreRoundsOf`); or one round of all trees, where they are to be
//! taken as given. Only its own fault, or a counted one of the host, has a tree count as none
//! there: where memory is wanting for a look, nothing is done (`IsLookedAt`). Behind a unit that
//! was broken off no round is begun (`HasInstalledRounds`). For `configure`, `remove` and `purge`
//! it tells likewise by the report of the units of the named packages. For `select` and
//! `remove-selected` it does so of what is to be wanted of packages, as words tell it, and of the
//! packages that go because it is recorded that this is wanted.
//!
//! Around the units of these commands triggers are watched, but for those of `select`
//! (`IsAround`): before anything else is done it is looked at what packages hit and what the journal
//! of activations asks for, and that is written ahead (`HasBegun`); a fault of that ends the command
//! (`IsUnbegun`). Behind units of which none was broken off the triggers that the touched packages
//! have activated since become pending, and those that are asked for; then the journal is emptied,
//! and, unless the words have a flag against it, what is pending is processed (`HasTriggered`), turn
//! after turn with what scripts ask for meanwhile, of which the journal is emptied each time; a
//! package whose triggers lead to themselves is given up (`HasTurned`). The lines of both stand behind
//! those of the units, and the worst status is told (`with_triggers`). With `--triggers-only` that
//! is all that is done.
//!
//! For `divert` and `undivert` it tells likewise how the one unit ended, of a change as the words
//! ask for it, on the administration that was opened; a path or target that no package may ship is
//! told on standard error before the root is opened.
//!
//! For a question the answer is its text over what it reads of the records, lists and diversions
//! that stand on the host behind the root's word, which was only looked at (`IsInquiredOn`), or the
//! first damage of what it reads (`IsUnansweredOn`). What a command changes is looked at before an
//! answer and behind it, and only an answer with the same before it and behind it is told
//! (`settle`, whatever others do to what is asked); where there is none among ten, that is told as
//! a lock that is held, and never where nobody else writes (`IsUnsteadyOn`). Where another program holds the root, that is
//! told of a command with the root's word, and no root was opened. For `verify` it is the text of a
//! verification, from a host that was only looked at (`IsVerifiedOn`): looks that fail are told in it,
//! and the others taken; status 1 where it tells anything (`verified_answer`). With a tree it is that
//! of the tree's package against what the tree was read as (`HasComparedUnder`), or its first fault
//! as for `unpack` (`tree_answer`). For help it is a screen on the topic, on standard output;
//! where the words ask for nothing a text on standard error ends with the screen of the subcommand
//! that they name. A fault of the device is told only where one was counted.
//!
//! Words that tell a rehearsal (`rehearsal_of` of command_words) are answered by the answer of the
//! very command, by the same definition, over hosts that are put over these (`dry`), behind a first
//! line (`IsReplyTo`): what was given back was only looked at since another host was put over it,
//! and no script of it was called.
//!
//! The answer is written whole, or in its place that memory was wanting for it, and its status
//! returned; or the status is 2 and of one of these two a part was written, standard output first,
//! and not all of it. The lines of units are written as each is finished (`Prints`): behind lines
//! that were cut short, or for which memory was wanting, no more are written, and the units go on;
//! so for commands that have units there is one more case, that the first lines of the answer are
//! written, and then in place of the others that memory was wanting for them.
//!
//! One tree is opened and read at a time, once the unit of the one before it is told
//! (`AreReadFor`). Only these commands and a question whose path is one open a root (`unopened`),
//! and only for them, for rehearsals, for help and for the names of the subcommands is standard
//! output written to (`quiet`). What stands behind a word, and in which state it was given back, is what the trait
//! `Hosts` says of it.
#![tactic(auto)]

mod answer;
mod changing;
mod command;
mod dry_hosts;
mod ending;
mod fault;
mod hosts;
mod installing;
mod limits;
mod ordering;
mod packages;
mod printing;
mod questions;
mod reading;
mod shown;
mod steady;
mod telling;
mod telling_hosts;
mod triggering;
mod unpacking;
mod verifying;
mod writing;

pub use answer::FAILED;
pub use command::run_words;
pub use command_words::{ScriptStreams, TreeOwners};
pub use fault::{Lock, RootFault, TreeOpening};
pub use hosts::Hosts;
