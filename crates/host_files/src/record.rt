// A record of the host's calls and their answers. It takes no memory, and only clauses read it.
ghost use Rattle.std.specs.Prelude.{◌≡◌, List, [], ◌∷◌};
ghost use Rattle.std.specs.Borrow.{ftrue};
ghost use Rattle.host_files.specs.declared.record.Noted.{Noted};

use host_core::{Access, Call, Content, Kind, Listing, Node, Outcome, Places, RootPath};
use std::marker::Model;
use texts::Text;

/// A step that the device is asked for.
#[derive(Drop)]
pub enum Asked {
    Write(RootPath, Node),
    Move(RootPath, RootPath),
    Take(RootPath),
    MakeDir(RootPath, Access),
    RemoveDir(RootPath),
    HardLink(RootPath, RootPath),
    MakeLink(RootPath, Text),
    Sync(RootPath),
    Barrier,
    SyncAll,
    SyncRoot,
    Lower(RootPath),
}

/// A call with its answer: what was found; whether two files' bytes are the same; a step that was done, of which Device was told, or that
/// was declined; a script call that ended, or of which Device was told; a fault of looking at
/// something.
#[derive(Drop)]
pub enum Noted {
    Looked(RootPath, Option<Node>),
    Seen(RootPath, Option<Kind>),
    Listed(RootPath, Listing),
    Compared(Content, Content, bool),
    Done(Asked),
    Undone(Asked),
    Declined(Asked),
    Ended(Call, Places, Outcome),
    Broke(Call, Places),
    Missed,
}

/// A step, lent.
#[derive(Clone, Copy, Drop)]
pub(crate) enum Asks<'a> {
    Write(&'a RootPath, &'a Node),
    Move(&'a RootPath, &'a RootPath),
    Take(&'a RootPath),
    MakeDir(&'a RootPath, Access),
    RemoveDir(&'a RootPath),
    HardLink(&'a RootPath, &'a RootPath),
    MakeLink(&'a RootPath, &'a Text),
    Sync(&'a RootPath),
    Barrier,
    SyncAll,
    SyncRoot,
    Lower(&'a RootPath),
}

/// A call with its answer, lent.
#[derive(Clone, Copy, Drop)]
pub(crate) enum Note<'a> {
    Looked(&'a RootPath, &'a Option<Node>),
    Seen(&'a RootPath, Option<Kind>),
    Listed(&'a RootPath, &'a Listing),
    Compared(&'a Content, &'a Content, bool),
    Done(Asks<'a>),
    Undone(Asks<'a>),
    Declined(Asks<'a>),
    Ended(&'a Call, &'a Places, Outcome),
    Broke(&'a Call, &'a Places),
    Missed,
}

/// The newest call comes first.
#[derive(Drop)]
pub(crate) struct Record {
    pub(crate) ghost notes: { List Noted },
}

impl Model for Record {
    ghost also_owns = { λ _. ftrue };
}

impl Record {
    ghost use Rattle.host_files.specs.Notes.{noted};

    pub(crate) fn new() -> Record
        ensures { result.notes ≡ [] }
    {
        Record {}
    }

    pub(crate) fn with(&self, _note: &Note<'_>) -> Record
        ensures { result.notes ≡ noted _note.now ∷ self.now.notes }
    {
        Record {}
    }
}
