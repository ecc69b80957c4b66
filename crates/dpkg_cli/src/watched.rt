// A host beside which the line of progress stands.
ghost use Rattle.std.specs.Prelude.{◌≡◌};

use crate::frontends::Told;
use crate::progress::Line;
use crate::records::Records;
use host_core::{
    Access, Call, Content, Host, HostFault, Keep, Kind, Listing, Node, Outcome, RootPath,
};
use host_files::{Disk, FilesHost};
use std::str::from_utf8;
use texts::Text;

/// All is done by the host. The line is gone before a script is started, and names each package as its record changes; a
/// script is told the architecture that its package's record has; a frontend is told each state once its note stands.
#[derive(Drop)]
pub(crate) struct Watched<'a, D: Disk> {
    pub(crate) host: FilesHost<D>,
    pub(crate) line: Line<'a>,
    pub(crate) records: Records,
    /// What a frontend is to be told of the note that was written last, once it has its name.
    pub(crate) written: Option<Told>,
}

fn is_note(path: &RootPath) -> bool {
    path.as_str().starts_with("/var/lib/dpkg/updates/")
}

// The records that a node is, if it is such a file.
fn records_in<'a>(path: &RootPath, node: &'a Node) -> Option<&'a [u8]> {
    match node {
        Node::File { bytes, .. } if is_note(path) || path.as_str() == "/var/lib/dpkg/status" => {
            bytes.held().ok()
        }
        _ => None,
    }
}

// The package of a record, which is its first field.
fn package_in(record: &[u8]) -> Option<&str> {
    let line = record.split(|b| *b == b'\n').next()?;
    from_utf8(line.strip_prefix(b"Package: ")?).ok()
}

// Takes from what is read or noted what is known of records, and of the tree that is opened.
fn learn(records: &mut Records, line: Line<'_>, path: &RootPath, node: &Node) {
    if let Some(read) = records_in(path, node) {
        records.learn(read);
    }
    if path.as_str() == "/DEBIAN/control" {
        if let Node::File { bytes, .. } = node {
            if let Ok(bytes) = bytes.held() {
                line.frontend.learn_tree(bytes);
            }
        }
    }
}

// Keeps what a frontend is to be told of a note.
fn keep(
    written: &mut Option<Told>,
    line: Line<'_>,
    records: &Records,
    path: &RootPath,
    node: &Node,
) {
    if !is_note(path) || !line.frontend.is_open() {
        return;
    }
    *written = match records_in(path, node) {
        Some(record) => line.frontend.told_of(line.phase(), records, record),
        None => None,
    };
}

// Tells it, once the note has its name.
fn tell(written: &mut Option<Told>, line: Line<'_>, path: &RootPath) {
    if !is_note(path) {
        return;
    }
    if let Some(told) = written.take() {
        line.frontend.tell_note(&told);
    }
}

impl<'a, D: Disk> Watched<'a, D> {
    fn architecture_of(&self, package: &str) -> Option<String> {
        let architecture = self.records.architecture_of(package)?;
        String::from_str(self.line.rt.alloc(), architecture).ok()
    }

    fn show(&self, path: &RootPath, node: &Node) {
        if !is_note(path) {
            return;
        }
        if let Some(package) = records_in(path, node).and_then(package_in) {
            self.line.show_package(package);
        }
    }
}

impl<'a, D: Disk> Host for Watched<'a, D> {
    ghost use Rattle.host_files.specs.Replay.{replay};

    ghost state = { λ h. replay D.Disk.model h.host.told.log.notes };

    ghost tree = { λ h. D.Disk.sound.tree h.host.told.log.notes };

    ghost settled = { λ h. h.host.settled };

    fn node(&mut self, path: &RootPath) -> Result<Option<Node>, HostFault> {
        let found = self.host.node(path);
        if let Ok(Some(node)) = &found {
            learn(&mut self.records, self.line, path, node);
        }
        found
    }

    fn same(&mut self, one: &Content, other: &Content) -> Result<bool, HostFault> {
        self.host.same(one, other)
    }

    fn kind(&mut self, path: &RootPath) -> Result<Option<Kind>, HostFault> {
        self.host.kind(path)
    }

    fn list(&mut self, path: &RootPath) -> Result<Listing, HostFault> {
        self.host.list(path)
    }

    fn write_new(&mut self, path: &RootPath, node: &Node) -> Result<(), HostFault> {
        self.show(path, node);
        keep(&mut self.written, self.line, &self.records, path, node);
        learn(&mut self.records, self.line, path, node);
        self.host.write_new(path, node)
    }

    fn make_dir(&mut self, path: &RootPath, access: Access) -> Result<(), HostFault> {
        self.host.make_dir(path, access)
    }

    fn make_link(&mut self, path: &RootPath, target: &Text) -> Result<(), HostFault> {
        self.host.make_link(path, target)
    }

    fn link(&mut self, from: &RootPath, to: &RootPath) -> Result<(), HostFault> {
        self.host.link(from, to)
    }

    fn sync(&mut self, path: &RootPath) -> Result<(), HostFault> {
        self.host.sync(path)
    }

    fn barrier(&mut self) -> Result<(), HostFault> {
        self.host.barrier()
    }

    fn sync_written(&mut self) -> Result<(), HostFault> {
        self.host.sync_written()
    }

    fn sync_root(&mut self) -> Result<(), HostFault> {
        self.host.sync_root()
    }

    fn rename(&mut self, from: &RootPath, to: &RootPath) -> Result<(), HostFault> {
        let renamed = self.host.rename(from, to);
        if let Ok(()) = &renamed {
            tell(&mut self.written, self.line, to);
        }
        renamed
    }

    fn lower(&mut self, path: &RootPath) -> Result<(), HostFault> {
        self.host.lower(path)
    }

    fn remove(&mut self, path: &RootPath) -> Result<(), HostFault> {
        self.host.remove(path)
    }

    fn remove_dir(&mut self, path: &RootPath) -> Result<(), HostFault> {
        self.host.remove_dir(path)
    }

    fn run(&mut self, call: &Call, keep: &Keep<'_>) -> Result<Outcome, HostFault> {
        self.line.clear();
        let architecture = self.architecture_of(call.package.as_str());
        self.host.set_architecture(architecture);
        self.host.run(call, keep)
    }
}
