// The files that were written, and whose bytes may not be on the disk yet.
ghost use Rattle.std.specs.Prelude.{◌≡◌, ◌<◌, [], vec_len, vec_capacity, OnErr, OnOk};
ghost use Rattle.host_files.specs.Unsynced.{IsListed, is_listed, is_readable, others};

use host_core::{Access, HostFault, Node, RootPath};
use std::alloc::{AllocError, Global};

/// Which file this is among those of the system: the number of its file system, and its own there.
#[derive(Clone, Copy, PartialEq)]
pub(crate) struct Identity {
    pub(crate) device: u64,
    pub(crate) inode: u64,
}

/// A file by its path under the root.
#[derive(Drop)]
pub(crate) struct Unsynced {
    pub(crate) path: RootPath,
    pub(crate) identity: Identity,
}

#[derive(Drop)]
pub(crate) struct Written {
    pub(crate) files: Vec<Unsynced>,
}

/// Whether a file can be opened again once it is closed: its own user may read it, or the superuser opens it.
pub(crate) fn is_readable(owners: bool, access: Access) -> bool
    ensures { result ≡ is_readable owners access }
{
    owners || access.mode & 0o400 != 0
}

impl Written {
    pub(crate) fn new(alloc: Global) -> Written
        ensures { result.files.items ≡ [] }
    {
        Written {
            files: Vec::new(alloc),
        }
    }

    /// Makes room for one more.
    pub(crate) fn reserve(&mut self) -> Result<(), AllocError>
        ensures room { OnOk result (vec_len self.new.files < vec_capacity self.new.files) }
        ensures same { self.new.files.items ≡ self.old.files.items }
    {
        self.files.reserve(1)
    }

    /// Takes a file that was written; one that can't be opened again was synced as it was written.
    pub(crate) fn take(
        &mut self,
        owners: bool,
        node: &Node,
        file: Unsynced,
        written: &Result<(), HostFault>,
    )
        requires { vec_len self.old.files < vec_capacity self.old.files }
        ensures listed { OnOk written.now (IsListed owners self.new.files.items file.path node.now) }
    {
        if written.is_ok() && is_listed(owners, node) {
            self.files.push_reserved(file);
        }
    }

    /// Behind a step that was done what stands at a path is on the disk, or stands there no more.
    pub(crate) fn leave(&mut self, path: &RootPath, settled: &Result<(), HostFault>)
        ensures done { OnOk settled.now (self.new.files.items ≡ others path.now
            self.old.files.items) }
        ensures failed { OnErr settled.now (self.new.files ≡ self.old.files) }
    {
        if settled.is_ok() {
            strike(&mut self.files, path);
        }
    }

    /// After a sync that was done all are on the disk.
    pub(crate) fn clear_after(&mut self, synced: &Result<(), HostFault>)
        ensures done { OnOk synced.now (self.new.files.items ≡ []) }
        ensures failed { OnErr synced.now (self.new.files ≡ self.old.files) }
    {
        if synced.is_ok() {
            self.files.clear();
        }
    }
}

// Whether a file is to be listed.
fn is_listed(owners: bool, node: &Node) -> bool
    ensures { result ≡ is_listed owners node.now }
{
    match node {
        Node::File { access, .. } => is_readable(owners, *access),
        Node::Dir { .. } => false,
        Node::Link { .. } => false,
    }
}

// Takes the file at a path away.
fn strike(files: &mut Vec<Unsynced>, path: &RootPath)
    ensures { files.new.items ≡ others path.now files.old.items }
{
    files.retain(|file| !(file.path.as_str() == path.as_str()));
}
