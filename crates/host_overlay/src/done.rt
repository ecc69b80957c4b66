// What was done on an overlay, one thing after another.
use crate::stored::Stored;
use host_core::{Access, Call, Outcome, RootPath};
use texts::Text;

/// A call that was told and not made, with how it is taken to have ended.
#[derive(Drop)]
pub struct Made {
    pub call: Call,
    pub outcome: Outcome,
}

/// A step that was made over the host below.
#[derive(Drop)]
pub enum DeviceStep {
    Write(RootPath, Stored),
    Move(RootPath, RootPath),
    Take(RootPath),
    MakeDir(RootPath, Access),
    RemoveDir(RootPath),
    HardLink(RootPath, RootPath),
    MakeLink(RootPath, Text),
    Sync(RootPath),
    Barrier,
    SyncAll,
    SyncRoot,
    Lower(RootPath),
}

/// What was done: a step, a script call, or nothing where the device below failed as it was looked at, and where a call that is
/// assumed to fail is foretold.
#[derive(Drop)]
pub enum Done {
    Did(DeviceStep),
    Finished(Made),
    Failed,
    Foretold(Call),
}
