// The directories of the real file system as hosts.
ghost use Rattle.std.specs.Prelude.{◌≡◌, ◌≤◌, ◌<◌, [], ⊤, IfOk, IsErrOf, OnOk, is_some, true};
ghost use Rattle.host_core.specs.declared.fault.HostFault.TheVariants.{Declined, Device};
ghost use Rattle.command_line.specs.declared.fault.RootFault.TheVariants.{Host as OfHost};
ghost use Rattle.command_line.specs.declared.fault.TreeOpening.TheVariants.{Host as OfTreeHost};

use crate::archives::{Archives, Missing};
use crate::locks::{Held, is_in_script, locks_of, table_lock_of};
use crate::progress::Line;
use crate::records::Records;
use crate::watched::Watched;
use command_line::{Hosts, RootFault, ScriptStreams, TreeOpening, TreeOwners};
use host_core::HostFault;
use host_files::{Disk, Failure, FilesHost, is_superuser};
use path_filters::Filters;
use shown_lines::shown;
use std::alloc::AllocError;
use std::io::ErrorKind;
use std::marker::PhantomData;
use std::os::unix::fs::MetadataExt;
use std::{fs, io};

/// Opens directories; a tree's path begins at the working directory. What these hold, and what scripts and faults do, is
/// supposed: all that is proved here holds of each account of it.
#[derive(Drop)]
pub(crate) struct Directories<'a, D: Disk> {
    rt: HostRuntime,
    /// How many openings failed for a fault of the device.
    faults: u64,
    /// What is held of the root, so that one program at a time changes it.
    lock: Option<Held>,
    /// Whether a script started the program.
    beside: bool,
    /// Whether roots are looked at for a rehearsal, in which a file that can't be read is passed.
    rehearses: bool,
    line: Line<'a>,
    /// How many trees were opened.
    trees: usize,
    /// Of the root that was given back, if the device failed there or a step was declined.
    failure: Option<Failure>,
    archives: Archives,
    disk: PhantomData<D>,
}

// Tells a person a text in one line, which no name in it can end; nothing where memory is wanting for it.
fn tell_line(rt: &HostRuntime, text: Result<String, AllocError>) {
    let Ok(text) = text else {
        return;
    };
    if let Ok(line) = shown(rt.alloc(), text.as_str()) {
        let _ = eprintln!(rt; "{line}");
    }
}

// The fault for the system's error, which a person is told beside the fixed lines, with the directory.
pub(crate) fn fault_of(rt: &HostRuntime, directory: &str, error: &io::Error) -> HostFault {
    if error.kind() == ErrorKind::OutOfMemory {
        return HostFault::NoMemory;
    }
    tell_line(rt, format!(in rt.alloc(); "{directory}: {error}"));
    HostFault::Device
}

fn streams_of(streams: ScriptStreams) -> host_files::ScriptStreams {
    match streams {
        ScriptStreams::Own => host_files::ScriptStreams::Own,
        ScriptStreams::Error => host_files::ScriptStreams::Error,
    }
}

// Tells a person why a directory isn't opened.
fn tell_why(rt: &HostRuntime, directory: &str) {
    match fs::metadata(rt, directory) {
        Ok(_) => {
            let why = "no directory, or its path is too long";
            tell_line(rt, format!(in rt.alloc(); "{directory}: {why}"));
        }
        Err(error) => {
            let _ = fault_of(rt, directory, &error);
        }
    }
}

// Tells a person of a tree that another user may change while root takes its files' owners as they are.
fn tell_owner(rt: &HostRuntime, tree: &str) {
    let Ok(found) = fs::metadata(rt, tree) else {
        return;
    };
    let owner = found.uid();
    if owner != 0 {
        let keep = "its files keep their owners (--owner-root gives them to root)";
        tell_line(
            rt,
            format!(in rt.alloc(); "{tree} belongs to user {owner}: {keep}"),
        );
    }
}

impl<'a, D: Disk> Directories<'a, D> {
    /// Of archives what the filters hide isn't there.
    pub(crate) fn new(
        rt: HostRuntime,
        line: Line<'a>,
        rehearses: bool,
        filters: Filters,
    ) -> Directories<'a, D>
        ensures { result.faults ≡ 0 }
    {
        Directories {
            rt,
            faults: 0,
            lock: None,
            beside: is_in_script(&rt),
            rehearses,
            line,
            trees: 0,
            failure: None,
            archives: Archives::none(filters),
            disk: PhantomData,
        }
    }

    // Tells a person of a fault of the device, or of a step that was declined.
    fn tell(&self, failure: &Failure) {
        self.line.clear();
        tell_line(&self.rt, format!(in self.rt.alloc(); "{failure}"));
    }

    /// Tells a person what failed or was declined in the root, behind the program's own lines.
    pub(crate) fn tell_failure(&self) {
        if let Some(failure) = &self.failure {
            self.tell(failure);
        }
    }

    // Tells a person which files were passed since they couldn't be read.
    fn tell_unread(&self, host: &FilesHost<D>) {
        for path in host.unread() {
            self.line.clear();
            let path = path.as_str();
            tell_line(&self.rt, format!(in self.rt.alloc(); "unread {path}"));
        }
    }

    /// Takes away what archives were unpacked into.
    pub(crate) fn drop_archives(&mut self) {
        self.archives.drop_last(&self.rt);
    }

    // Where a tree lies: of an archive the directory that it is unpacked into, else where its word says.
    fn place_of(&mut self, tree: &str) -> Result<Option<String>, TreeOpening>
        ensures faults { self.old.faults ≤ self.new.faults }
        ensures cause { IsErrOf result (OfTreeHost Device) → self.old.faults < self.new.faults }
        ensures undeclined { IsErrOf result (OfTreeHost Declined) → ⊥ }
    {
        match self.archives.tree_of(&self.rt, tree) {
            Ok(place) => Ok(place),
            Err(Missing::NoRoom(path, place, error)) => {
                self.line.clear();
                tell_line(&self.rt, format!(in self.rt.alloc(); "{place}: {error}"));
                Err(TreeOpening::NoRoom(path))
            }
            Err(Missing::Other(error)) => Err(TreeOpening::Host(self.failed_at(tree, &error))),
        }
    }

    // Tells a person of the system's error at a place, and counts a fault of the device.
    fn failed_at(&mut self, place: &str, error: &io::Error) -> HostFault
        ensures faults { self.old.faults ≤ self.new.faults }
        ensures cause { result ≡ Device → self.old.faults < self.new.faults }
        ensures undeclined { result ≡ Declined → ⊥ }
        ensures lock { self.new.lock ≡ self.old.lock }
    {
        self.line.clear();
        match fault_of(&self.rt, place, error) {
            HostFault::NoMemory => HostFault::NoMemory,
            _ => self.failed(),
        }
    }

    // Archives are unpacked below the root from now on, where its locks are held.
    fn hold_archives(&mut self, directory: &str) -> Result<(), HostFault>
        ensures faults { self.old.faults ≤ self.new.faults }
        ensures cause { IsErrOf result Device → self.old.faults < self.new.faults }
        ensures undeclined { IsErrOf result Declined → ⊥ }
        ensures lock { self.new.lock ≡ self.old.lock }
    {
        if matches!(self.lock, None | Some(Held::Table(_) | Held::Nothing)) {
            return Ok(());
        }
        match self.archives.hold(&self.rt, directory) {
            Ok(()) => Ok(()),
            Err(error) => Err(self.failed_at(directory, &error)),
        }
    }

    fn watched(&self, host: FilesHost<D>) -> Watched<'a, D>
        ensures { result.host ≡ host }
    {
        Watched {
            host,
            line: self.line,
            records: Records::new(self.rt.alloc()),
            written: None,
        }
    }

    // Opens a directory, and counts a fault of the device. With a full count nothing is opened any more.
    fn open(&mut self, directory: &str) -> Result<FilesHost<D>, HostFault>
        ensures fresh { IfOk result (λ host. host.told.log.notes ≡ []) }
        ensures faults { self.old.faults ≤ self.new.faults }
        ensures cause { IsErrOf result Device → self.old.faults < self.new.faults }
        ensures undeclined { IsErrOf result Declined → ⊥ }
    {
        if self.faults == u64::MAX {
            return Err(HostFault::NoMemory);
        }
        match FilesHost::open(self.rt, directory) {
            Ok(host) => Ok(host),
            Err(HostFault::Device) => {
                self.line.clear();
                tell_why(&self.rt, directory);
                self.faults += 1;
                Err(HostFault::Device)
            }
            Err(HostFault::NoMemory) => Err(HostFault::NoMemory),
            Err(HostFault::Declined) => {
                self.faults += 1;
                Err(HostFault::Device)
            }
        }
    }

    // Counts a fault of the device. With a full count it is one of memory.
    fn failed(&mut self) -> HostFault
        ensures faults { self.old.faults ≤ self.new.faults }
        ensures cause { result ≡ Device → self.old.faults < self.new.faults }
        ensures undeclined { result ≡ Declined → ⊥ }
        ensures lock { self.new.lock ≡ self.old.lock }
    {
        if self.faults == u64::MAX {
            return HostFault::NoMemory;
        }
        self.faults += 1;
        HostFault::Device
    }

    // Holds the root's locks that were taken, or counts a fault of the device.
    fn hold(&mut self, taken: Result<Held, RootFault>) -> Result<(), RootFault>
        ensures locked { OnOk result (is_some self.new.lock ≡ true) }
        ensures faults { self.old.faults ≤ self.new.faults }
        ensures cause { IsErrOf result (OfHost Device) → self.old.faults < self.new.faults }
        ensures undeclined { IsErrOf result (OfHost Declined) → ⊥ }
    {
        match taken {
            Ok(held) => {
                self.lock = Some(held);
                Ok(())
            }
            Err(RootFault::Locked(lock)) => Err(RootFault::Locked(lock)),
            Err(RootFault::Host(HostFault::NoMemory)) => {
                Err(RootFault::Host(HostFault::NoMemory))
            }
            Err(RootFault::Host(_)) => Err(RootFault::Host(self.failed())),
        }
    }

    // The root's host. Its scripts have the administration's lock open, so that it is held as long as they run.
    fn locked(&mut self, directory: &str, host: FilesHost<D>) -> Result<FilesHost<D>, HostFault>
        requires held { is_some self.old.lock ≡ true }
        requires fresh { host.told.log.notes ≡ [] }
        ensures fresh { IfOk result (λ host. host.told.log.notes ≡ []) }
        ensures faults { self.old.faults ≤ self.new.faults }
        ensures cause { IsErrOf result Device → self.old.faults < self.new.faults }
        ensures undeclined { IsErrOf result Declined → ⊥ }
    {
        let mut host = host;
        let copied = match &self.lock {
            Some(held) => held.copied(),
            None => Ok(None),
        };
        match copied {
            Ok(Some(input)) => host.set_script_input(input),
            Ok(None) => (),
            Err(error) => {
                let _ = fault_of(&self.rt, directory, &error);
                return Err(self.failed());
            }
        }
        Ok(host)
    }
}

impl<'a, D: Disk> Hosts for Directories<'a, D> {
    ghost use Rattle.std.specs.Prelude.{◌≡◌, [], ⊤};
    ghost use Rattle.host_files.specs.Replay.{replay};

    type Opened = Watched<'a, D>;

    ghost faults = { λ d. d.faults };

    // a root is as the account has it, and a host for a tree has done nothing; no more is claimed of what stands on the disk
    ghost root = { λ _ _ state. state ≡ replay D.Disk.model [] };

    ghost tree = { λ _ _ state. state.events ≡ [] };

    ghost left = { λ _ _. ⊤ };

    ghost seen = { λ _ _. ⊤ };

    ghost unopened = { λ _ _. ⊤ };

    // nor of what other programs hold
    ghost locked = { λ _ _ _. ⊤ };

    // nor of what room there is
    ghost full = { λ _ _ _. ⊤ };

    ghost beside = { λ d. d.beside };

    ghost below = { λ _. 0 };

    fn is_beside(&self) -> bool {
        self.beside
    }

    fn open_root(
        &mut self,
        directory: &str,
        streams: ScriptStreams,
        wait: u32,
    ) -> Result<Watched<'a, D>, RootFault> {
        let host = self.open(directory)?;
        let taken = locks_of(&self.rt, directory, wait);
        self.hold(taken)?;
        self.hold_archives(directory)?;
        let mut host = self.locked(directory, host)?;
        host.set_script_streams(streams_of(streams));
        Ok(self.watched(host))
    }

    fn open_beside(&mut self, directory: &str, wait: u32) -> Result<Watched<'a, D>, RootFault> {
        let host = self.open(directory)?;
        let table = table_lock_of(&self.rt, directory, wait);
        self.hold(table)?;
        Ok(self.watched(host))
    }

    fn look_at_root(&mut self, directory: &str) -> Result<Watched<'a, D>, HostFault> {
        let mut host = self.open(directory)?;
        if self.rehearses {
            host.pass_unread();
        }
        Ok(self.watched(host))
    }

    fn open_tree(&mut self, tree: &str, owners: TreeOwners) -> Result<Watched<'a, D>, TreeOpening> {
        self.line.show_tree(tree, self.trees);
        self.line.frontend.begin_tree();
        self.trees = self.trees.saturating_add(1);
        let unpacked = self.place_of(tree)?;
        let place = match &unpacked {
            Some(place) => place.as_str(),
            None => tree,
        };
        if unpacked.is_none() && is_superuser() && matches!(owners, TreeOwners::Kept) {
            self.line.clear();
            tell_owner(&self.rt, tree);
        }
        let mut host = self.open(place)?;
        host.set_tree();
        if unpacked.is_some() && !self.archives.is_held() {
            host.hold_files();
        }
        Ok(self.watched(host))
    }

    fn close_root(&mut self, host: Watched<'a, D>) {
        self.tell_unread(&host.host);
        self.failure = host.host.into_failure();
    }

    fn close_tree(&mut self, host: Watched<'a, D>) {
        if let Some(failure) = host.host.failure() {
            self.tell(failure);
        }
    }
}
