// A trace of the system's calls. It takes no memory, and only clauses read it.
ghost use Rattle.std.specs.Prelude.{◌≡◌, List, [], ◌∷◌};
ghost use Rattle.std.specs.Borrow.{ftrue};
ghost use Rattle.host_files.specs.declared.trace.SystemCall.{SystemCall};

use crate::opened::Opened;
use host_core::{Access, Content, Modified};
use std::fs::Metadata;
use std::marker::Model;
use std::process::{Command, ExitStatus};
use texts::{Bytes, Text, Texts};

/// What the system is asked for, with the system's paths that it is told.
#[derive(Drop)]
pub enum SystemCall {
    /// what stands at a path; with the answer, its kind and permissions
    Look(Text, Option<u32>),
    /// an empty file where nothing stands, which only its owner may read and write
    Create(Text),
    /// bytes at the end of the file that was made last
    Append(Bytes),
    /// a directory where nothing stands, with this mode, of which the mask of this program takes bits
    MakeDirectory(Text, u16),
    /// the directory that was made last is opened, which was just seen at that path
    OpenMade(Text),
    /// what is open of it told that it has this access
    SeenMade(Access),
    /// of the file or directory that was made last, by what is open of it
    SetOwnerMade(u32, u32),
    SetModeMade(u16),
    SetTimeMade(Modified),
    /// of the file at a path, by what is open of it, which is the one that a look there told
    SetModeSeen(Text, u16),
    Rename(Text, Text),
    /// a second name, the latter, for what stands at the former
    Link(Text, Text),
    /// a symbolic link to the former, at the latter
    MakeLink(Text, Text),
    Unlink(Text),
    RemoveDirectory(Text),
    /// the entry of the latter name goes from the directory at the former place, which is open: the root's was opened,
    /// and then each name from the directory above it, where no link is followed
    UnlinkAt(Text, Text),
    RemoveDirectoryAt(Text, Text),
    /// the call before this one was answered by no error
    Gone,
    SyncFile(Text),
    /// the bytes of the file that was made last, which is open still
    SyncMade,
    /// the names in a directory
    SyncDirectory(Text),
    /// the names in a directory that are text, as it told them
    Names(Text, Texts),
    /// a directory was seen at that path that lies on another file system than the root
    Apart(Text),
    /// all of the file system with this number: the program `sync` was told a directory of it, and ended with 0
    SyncDevice(u64, Text),
    /// all of every file system: the program `sync` was told none, and ended with 0
    SyncSystem,
    /// a program, with its arguments and its working directory
    Start(Text, Texts, Option<Text>),
    /// the end of the program that was started last, with its status if it has one
    End(Option<i32>),
}

/// The same, lent.
#[derive(Clone, Copy, Drop)]
pub(crate) enum Request<'a> {
    Look(&'a str, &'a Option<Metadata>),
    Create(&'a str),
    Append(&'a Content),
    MakeDirectory(&'a str, u16),
    OpenMade(&'a str),
    SeenMade(Access),
    SetOwnerMade(u32, u32),
    SetModeMade(u16),
    SetTimeMade(Modified),
    SetModeSeen(&'a str, u16),
    Rename(&'a str, &'a str),
    Link(&'a str, &'a str),
    MakeLink(&'a str, &'a str),
    Unlink(&'a str),
    RemoveDirectory(&'a str),
    UnlinkAt(&'a Opened, &'a str),
    RemoveDirectoryAt(&'a Opened, &'a str),
    Gone,
    SyncFile(&'a str),
    SyncMade,
    SyncDirectory(&'a str),
    Names(&'a str, &'a [String]),
    Apart(&'a str),
    SyncDevice(u64, &'a str),
    SyncSystem,
    Start(&'a Command),
    End(&'a ExitStatus),
}

/// The newest call comes first.
#[derive(Drop)]
pub(crate) struct Trace {
    pub(crate) ghost calls: { List SystemCall },
}

impl Model for Trace {
    ghost also_owns = { λ _. ftrue };
}

impl Trace {
    ghost use Rattle.host_files.specs.SystemCalls.{requested};

    pub(crate) fn new() -> Trace
        ensures { result.calls ≡ [] }
    {
        Trace {}
    }

    pub(crate) fn with(&self, _request: &Request<'_>) -> Trace
        ensures { result.calls ≡ requested _request.now ∷ self.now.calls }
    {
        Trace {}
    }
}
