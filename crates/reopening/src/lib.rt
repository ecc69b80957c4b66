//! What a stop or a loss of power leaves of an administration can be opened.
//!
//! # What is proved
//!
//! Laws of what the next opening finds. From an administration that stands (`FindsStanding`: what
//! `Session::open` answers, and `history_stands` keeps) and where no control file of any package has a name with an architecture
//! (`HaveShortNames`), which each moment keeps, it can be opened (`CanBeOpened`) at each
//! moment of an unpack and an install (`an_unpack_can_be_opened_amid`), a configure, a removal or a
//! purge, while records are changed, while triggers are processed, while a diversion is added or taken away, and while notes are merged at a command's end
//! (`a_checkpoint_can_be_opened_amid`; behind that the status file alone has all records): the records with their notes, the lists and
//! stored scripts of all recorded packages and the diversions can be read, and what lies in
//! `tmp.ci` can be taken away. They begin from the clause `part` of each command, since what its
//! `any_moment` says of a later unit leaves open whether the host was honest until then. A command that reads the table of diversions
//! again first begins on one that stands with this table (`a_table_that_was_read_again_stands`).
//!
//! For an unpack the shipped paths are to be text, which each package in memory fulfils
//! (`ships_texts`). An opening that is broken off can be opened again, and of an administration
//! that isn't damaged, as of a root without its directories, a loss of power during an opening
//! leaves one that isn't (`an_opening_can_be_opened_amid`). A loss of power at any moment, where no
//! script of the session wrote a file of the administration, leaves what can be opened; and behind
//! a command that has answered, with all on the disk, an administration that stands for the
//! records, lists and diversions that it left (`a_loss_can_be_opened`: `amid`, `answered`,
//! `command`).
//!
//! An opening, and a loss of power at any moment of it, keep each control file that dpkg read by a
//! name with an architecture or without, and what could be brought to the names without still can be
//! (`an_opening_keeps_control_files`, specs/ControlFiles).
//!
//! What can be opened isn't damaged (`what_can_be_opened_is_undamaged`).
#![tactic(auto)]

mod laws;
mod tree_texts;

pub use laws::{
    a_change_can_be_opened_amid, a_checkpoint_can_be_opened_amid, a_configure_can_be_opened_amid,
    a_diversion_can_be_opened_amid, a_loss_can_be_opened, a_removal_can_be_opened_amid,
    a_table_that_was_read_again_stands, an_opening_can_be_opened_amid,
    an_opening_keeps_control_files, an_unpack_can_be_opened_amid, triggers_can_be_opened_amid,
    what_can_be_opened_is_undamaged,
};
pub use tree_texts::ships_texts;
