// What a unit does beside its script calls.
use conffiles::Settled;
use file_lists::Paths;
use file_removal::Leaving;
use host_core::RootPath;
use status_records::Record;

/// One thing that a unit does beside its script calls.
#[derive(Drop)]
pub enum Part {
    /// The record of the unit's package is noted.
    Note(Record),
    /// Its record goes.
    Forget,
    /// Conffiles are settled.
    Settle(Vec<Settled>),
    /// What stands at listed places goes.
    Remove(Vec<Leaving>),
    /// Directories at listed places go.
    RemoveDirectories(Vec<Leaving>),
    /// Files and links at these names go.
    Clear(Vec<RootPath>),
    /// The package's list is written.
    List(Paths),
    /// The file of its list goes.
    DropList,
    /// Its stored control files go; all but the postrm, where that is to stay.
    DropMembers { keep_postrm: bool },
}
