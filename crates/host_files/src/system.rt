// The calls of the operating system that change something, start a program or look at a path. Each function makes one
// and keeps it in the trace; an error of one that a step makes is one by which it was declined, or a fault of the device.
ghost use Rattle.std.specs.Prelude.{◌≡◌, ◌∷◌, [], ℕ, List, Err, None, true, false, is_some, map, IfErr, IfOk, IfSome, OnOk, OnErr, string_bytes};
ghost use Rattle.std.specs.IoError.{raw_os_error};
ghost use Rattle.std.specs.Process.{exit_code};
ghost use Rattle.host_core.specs.declared.fault.HostFault.TheVariants.{Declined, Device, NoMemory};
ghost use Rattle.host_files.specs.Faults.{IsFaultOf, IsOfStep, IsUndeclined, step_fault_of};
ghost use Rattle.host_files.specs.declared.trace.SystemCall.TheVariants.{Create, Append, MakeDirectory, OpenMade, SeenMade, SetOwnerMade, SetModeMade, SetTimeMade, SetModeSeen, Rename, Link, MakeLink, Unlink, RemoveDirectory, Gone, SyncFile, SyncMade, SyncDirectory, Names, Apart, SyncDevice, SyncSystem, End, UnlinkAt, RemoveDirectoryAt};
ghost use Rattle.host_files.specs.Shown.{IsNotBegun};
ghost use Rattle.host_files.specs.SystemCalls.{changes_in, Looks, start_call};
ghost use Rattle.host_files.specs.Places.{place_of};

use crate::changed::directory_of;
use crate::comparing::not_as_read;
use crate::disk::{access_of, fault_of, is_absent, stat};
use crate::errors::{is_declined, is_start_error};
use crate::looking::{is_no_text, is_unread};
use crate::opened::Opened;
use crate::root::Root;
use crate::trace::{Request, Trace};
use crate::way::open_by_way;
use crate::written::{Identity, Unsynced};
use host_core::{Access, Content, HostFault, Lent, Modified, Node, RootPath};
use libc::types::timespec;
use std::alloc::{AllocError, Global};
use std::collections::BTreeSet;
use std::fs::{DirBuilder, DirEntry, File, Metadata, OpenOptions, Permissions};
use std::io::{Error, Read, Write};
use std::os::fd::AsRawFd;
use std::os::unix::fs::{
    DirBuilderExt, MetadataExt, OpenOptionsExt, PermissionsExt, fchown, symlink,
};
use std::process::{Child, Command, ExitStatus, Stdio};
use std::{fs, io};

// of Debian's essential package coreutils
const SYNC: &str = "/bin/sync";

/// Where scripts write: each stream where the program's own goes, or both where its standard error goes.
#[derive(Clone, Copy)]
pub enum ScriptStreams {
    Own,
    Error,
}

#[derive(Drop)]
pub(crate) struct System {
    pub(crate) rt: HostRuntime,
    pub(crate) trace: Trace,
    pub(crate) streams: ScriptStreams,
    /// what scripts read, if it is given
    pub(crate) input: Option<File>,
    /// of the package of the next script, where it is known
    pub(crate) architecture: Option<String>,
    // the file that was made last, while it is open
    made: Option<File>,
    // of the file that was made last
    identity: Identity,
    // the directory from which something was taken away last, until another step is made
    opened: Option<Opened>,
    // the paths of files that were passed since they couldn't be read
    pub(crate) unread: BTreeSet<String>,
    // what a person is told of the failure of the call that was begun
    error: Option<Error>,
    // the place of that failure, where it isn't the one that was asked for
    error_place: Option<String>,
}

// The fault of a step that ended with an error.
fn step_fault_of(error: &Error) -> HostFault
    ensures { result ≡ step_fault_of (raw_os_error error.now) }
{
    if is_declined(error) {
        HostFault::Declined
    } else {
        HostFault::Device
    }
}

// Makes a file where nothing stands.
fn create_new(rt: &HostRuntime, place: &str) -> io::Result<File> {
    OpenOptions::new()
        .write(true)
        .create_new(true)
        .mode(0o600)
        .open(rt, place)
}

// Adds the bytes of a file that is lent, which is read in pieces and is to be as long as it was.
fn copy_lent(rt: &HostRuntime, made: &mut File, lent: &Lent) -> io::Result<()> {
    let length = lent.length();
    let mut file = fs::open(rt, lent.place())?.take(length.saturating_add(1));
    if io::copy(&mut file, made)? == length {
        Ok(())
    } else {
        Err(not_as_read())
    }
}

fn write_content(rt: &HostRuntime, made: &mut File, bytes: &Content) -> io::Result<()> {
    match bytes.source() {
        Some(lent) => copy_lent(rt, made, lent),
        None => made.write_all(bytes.held()?),
    }
}

// Opens the directory that stands at a place, if it is the one that a look just told: a link that took its place in
// between is followed, so that what is opened is compared.
fn open_seen(rt: &HostRuntime, place: &str) -> io::Result<Option<(File, Metadata)>> {
    let seen = fs::symlink_metadata(rt, place)?;
    if !seen.is_dir() {
        return Ok(None);
    }
    let opened = fs::open(rt, place)?;
    let found = opened.metadata()?;
    if identity_of(&seen) != identity_of(&found) {
        return Ok(None);
    }
    Ok(Some((opened, found)))
}

fn identity_of(found: &Metadata) -> Identity {
    Identity {
        device: found.dev(),
        inode: found.ino(),
    }
}

// Brings a file to the disk that was written before, and tells whether it still stands there.
fn sync_same(rt: &HostRuntime, place: &str, identity: Identity) -> io::Result<bool> {
    let opened = fs::open(rt, place)?;
    if identity_of(&opened.metadata()?) != identity {
        return Ok(false);
    }
    opened.sync_all()?;
    Ok(true)
}

// Starts the program `sync` with these words, and tells whether it ended with 0.
fn run_sync(rt: &HostRuntime, words: &[&str]) -> io::Result<bool> {
    let mut command = Command::new(rt.alloc(), SYNC)?;
    for word in words {
        command.arg(*word)?;
    }
    command.stdin(Stdio::null());
    command.stdout(Stdio::null());
    command.stderr(Stdio::null());
    Ok(command.status(rt)?.code() == Some(0))
}

// Whether that was done; where the program can't be started it wasn't. Want of memory is told.
fn has_synced(rt: &HostRuntime, words: &[&str]) -> Result<bool, HostFault>
    ensures { IfErr result IsUndeclined }
{
    match run_sync(rt, words) {
        Ok(synced) => Ok(synced),
        Err(error) => match fault_of(&error) {
            HostFault::NoMemory => Err(HostFault::NoMemory),
            _ => Ok(false),
        },
    }
}

// Sets the mode of the file at a place, if it is the one that a look just told, and tells whether it is.
fn set_mode_of(rt: &HostRuntime, place: &str, seen: &Metadata, mode: u16) -> io::Result<bool> {
    let opened = fs::open(rt, place)?;
    if identity_of(&opened.metadata()?) != identity_of(seen) {
        return Ok(false);
    }
    opened.set_permissions(Permissions::from_mode(u32::from(mode)))?;
    Ok(true)
}

// Sets when what is open was last modified, and leaves when it was last read.
fn set_modified(made: &File, time: Modified) -> io::Result<()> {
    let read = timespec {
        tv_sec: 0,
        tv_nsec: libc::UTIME_OMIT,
    };
    let modified = timespec {
        tv_sec: time.seconds,
        tv_nsec: i64::from(time.nanoseconds),
    };
    if libc::futimens(made.as_raw_fd(), &[read, modified]) < 0 {
        return Err(Error::from_raw_os_error(os::errno()));
    }
    Ok(())
}

// Brings what is open to the disk.
fn sync(rt: &HostRuntime, place: &str) -> io::Result<()> {
    fs::open(rt, place)?.sync_all()
}

// A name that isn't text is passed over: by such a one nothing can be opened.
fn add_text(alloc: Global, entry: io::Result<DirEntry>, names: &mut Vec<String>) -> io::Result<()> {
    match entry {
        Ok(entry) => {
            names.push(String::from_str(alloc, entry.file_name())?)?;
            Ok(())
        }
        Err(error) if is_no_text(&error) => Ok(()),
        Err(error) => Err(error),
    }
}

fn text_names(rt: &HostRuntime, place: &str) -> io::Result<Vec<String>> {
    let mut names = Vec::new(rt.alloc());
    let entries = match fs::read_dir(rt, place) {
        Ok(entries) => entries,
        Err(error) if is_absent(&error) => return Ok(names),
        Err(error) => return Err(error),
    };
    for entry in entries {
        add_text(rt.alloc(), entry, &mut names)?;
    }
    Ok(names)
}

impl System {
    pub(crate) fn new(rt: HostRuntime) -> System
        ensures { result.trace.calls ≡ [] }
    {
        System {
            rt,
            trace: Trace::new(),
            streams: ScriptStreams::Own,
            input: None,
            architecture: None,
            made: None,
            identity: Identity {
                device: 0,
                inode: 0,
            },
            opened: None,
            unread: BTreeSet::new(rt.alloc()),
            error: None,
            error_place: None,
        }
    }

    /// Begins the trace of a call.
    pub(crate) fn begin(&mut self)
        ensures { self.new.trace.calls ≡ [] }
    {
        self.opened = None;
        self.begin_open();
    }

    /// The same of a call that looks at something, or takes something away: the directory that is open stays open.
    pub(crate) fn begin_open(&mut self)
        ensures { self.new.trace.calls ≡ [] }
    {
        self.trace = Trace::new();
        self.error = None;
        self.error_place = None;
    }

    /// The fault that an error is; a person is told the error.
    pub(crate) fn fault(&mut self, error: Error) -> HostFault
        ensures fault { IsFaultOf error result }
        ensures trace { self.new.trace ≡ self.old.trace }
        ensures made { self.new.made ≡ self.old.made }
    {
        let fault = fault_of(&error);
        self.error = Some(error);
        fault
    }

    // The same at a place that isn't the one that was asked for.
    fn fault_at(&mut self, place: String, error: Error) -> HostFault
        ensures fault { IsFaultOf error result }
        ensures trace { self.new.trace ≡ self.old.trace }
    {
        self.error_place = Some(place);
        self.fault(error)
    }

    /// A fault of the device of which the system tells nothing: a person is told these words.
    pub(crate) fn refuse(&mut self, words: &str) -> HostFault
        ensures fault { result ≡ Device }
        ensures trace { self.new.trace ≡ self.old.trace }
    {
        self.error = Some(Error::other(words));
        HostFault::Device
    }

    /// A fault of the device by an error of a call that changes nothing.
    pub(crate) fn fail(&mut self, error: Error) -> HostFault
        ensures fault { result ≡ Device }
        ensures trace { self.new.trace ≡ self.old.trace }
    {
        self.error = Some(error);
        HostFault::Device
    }

    /// The error of the call that was begun, with its place where that isn't the one that was asked for.
    pub(crate) fn take_error(&mut self) -> (Option<String>, Option<Error>)
        ensures { self.new.trace ≡ self.old.trace }
    {
        (self.error_place.take(), self.error.take())
    }

    // The fault of a step that ended with an error, which a person is told.
    fn step_fault(&mut self, error: Error) -> HostFault
        ensures fault { result ≡ step_fault_of (raw_os_error error) }
        ensures step { IsOfStep result }
        ensures trace { self.new.trace ≡ self.old.trace }
        ensures made { self.new.made ≡ self.old.made }
    {
        let fault = step_fault_of(&error);
        self.error = Some(error);
        fault
    }

    // How a call ended that was made for a step.
    fn ended(&mut self, answer: io::Result<()>) -> Result<(), HostFault>
        ensures fault { IfErr answer (λ error. result ≡ Err (step_fault_of (raw_os_error error))) }
        ensures err { IfErr result IsOfStep }
        ensures trace { self.new.trace ≡ self.old.trace }
        ensures made { self.new.made ≡ self.old.made }
    {
        match answer {
            Ok(()) => Ok(()),
            Err(error) => Err(self.step_fault(error)),
        }
    }

    /// What stands at the place. No link at its end is followed.
    pub(crate) fn look(&mut self, place: &str) -> Result<Option<Metadata>, HostFault>
        ensures ok { IfOk result (λ found. Looks place.now found self.old.trace.calls
            self.new.trace.calls) }
        ensures err { OnErr result (self.new.trace.calls ≡ self.old.trace.calls) }
        ensures fault { IfErr result IsUndeclined }
    {
        match stat(&self.rt, place) {
            Ok(found) => {
                self.trace = self.trace.with(&Request::Look(place, &found));
                Ok(found)
            }
            Err(error) => Err(self.fault(error)),
        }
    }

    /// Keeps the path of what was read, where it was passed.
    pub(crate) fn note_unread(&mut self, path: &RootPath, node: &Node) -> Result<(), AllocError>
        ensures { self.new.trace ≡ self.old.trace }
    {
        if is_unread(node) {
            self.unread
                .insert(String::from_str(self.rt.alloc(), path.as_str())?)?;
        }
        Ok(())
    }

    /// An empty file, which is open.
    pub(crate) fn create(&mut self, place: &str) -> Result<File, HostFault>
        ensures made { self.new.trace.calls ≡ Create place.now ∷ self.old.trace.calls }
        ensures err { IfErr result IsOfStep }
    {
        self.made = None;
        self.trace = self.trace.with(&Request::Create(place));
        match create_new(&self.rt, place) {
            Ok(file) => Ok(file),
            Err(error) => Err(self.step_fault(error)),
        }
    }

    /// Adds bytes to the file that was made last. Those that are lent are read once more.
    pub(crate) fn append(&mut self, made: &mut File, bytes: &Content) -> Result<(), HostFault>
        ensures made { self.new.trace.calls ≡ Append bytes.now ∷ self.old.trace.calls }
        ensures err { IfErr result IsOfStep }
    {
        self.trace = self.trace.with(&Request::Append(bytes));
        let answer = write_content(&self.rt, made, bytes);
        self.ended(answer)
    }

    pub(crate) fn set_owner(&mut self, made: &File, user: u32, group: u32) -> Result<(), HostFault>
        ensures made { self.new.trace.calls ≡ SetOwnerMade user group ∷ self.old.trace.calls }
        ensures err { IfErr result IsOfStep }
    {
        self.trace = self.trace.with(&Request::SetOwnerMade(user, group));
        let answer = fchown(made, Some(user), Some(group));
        self.ended(answer)
    }

    pub(crate) fn set_mode(&mut self, made: &File, mode: u16) -> Result<(), HostFault>
        ensures made { self.new.trace.calls ≡ SetModeMade mode ∷ self.old.trace.calls }
        ensures err { IfErr result IsOfStep }
    {
        self.trace = self.trace.with(&Request::SetModeMade(mode));
        let answer = made.set_permissions(Permissions::from_mode(u32::from(mode)));
        self.ended(answer)
    }

    pub(crate) fn set_time(&mut self, made: &File, time: Modified) -> Result<(), HostFault>
        ensures made { self.new.trace.calls ≡ SetTimeMade time ∷ self.old.trace.calls }
        ensures err { IfErr result IsOfStep }
    {
        self.trace = self.trace.with(&Request::SetTimeMade(time));
        let answer = set_modified(made, time);
        self.ended(answer)
    }

    /// Keeps the file that was made last open, until another is made or a program is started. The system is told that nobody
    /// will read it, by which it begins to bring its bytes to the disk.
    pub(crate) fn keep(&mut self, made: File, found: &Metadata)
        ensures { self.new.trace ≡ self.old.trace }
    {
        libc::posix_fadvise(made.as_raw_fd(), 0, 0, libc::POSIX_FADV_DONTNEED);
        self.identity = identity_of(found);
        self.made = Some(made);
    }

    /// Which file was made last.
    pub(crate) fn identity(&self) -> Identity {
        self.identity
    }

    pub(crate) fn make_directory(&mut self, place: &str, mode: u16) -> Result<(), HostFault>
        ensures made { self.new.trace.calls ≡ MakeDirectory place.now mode ∷ self.old.trace.calls }
        ensures err { IfErr result IsOfStep }
    {
        self.trace = self.trace.with(&Request::MakeDirectory(place, mode));
        let answer = DirBuilder::new()
            .mode(u32::from(mode))
            .create(&self.rt, place);
        self.ended(answer)
    }

    /// The directory that was made last, which is open, with the access that it has; another that stands there is a fault.
    pub(crate) fn open_made(
        &mut self,
        owners: bool,
        place: &str,
    ) -> Result<(File, Access), HostFault>
        ensures made { IfOk result (λ opened. self.new.trace.calls ≡ SeenMade opened.1
            ∷ OpenMade place.now ∷ self.old.trace.calls) }
        ensures not { OnErr result (self.new.trace.calls ≡ OpenMade place.now
            ∷ self.old.trace.calls) }
        ensures err { IfErr result IsOfStep }
    {
        self.trace = self.trace.with(&Request::OpenMade(place));
        match open_seen(&self.rt, place) {
            Ok(Some((directory, found))) => {
                let access = access_of(owners, &found);
                self.trace = self.trace.with(&Request::SeenMade(access));
                Ok((directory, access))
            }
            Ok(None) => Err(self.refuse("what was made there is no longer there")),
            Err(error) => Err(self.step_fault(error)),
        }
    }

    /// The file that a look just told; another that stands there is a fault.
    pub(crate) fn set_mode_seen(
        &mut self,
        place: &str,
        seen: &Metadata,
        mode: u16,
    ) -> Result<(), HostFault>
        ensures made { self.new.trace.calls ≡ SetModeSeen place.now mode ∷ self.old.trace.calls }
        ensures err { IfErr result IsOfStep }
    {
        self.trace = self.trace.with(&Request::SetModeSeen(place, mode));
        match set_mode_of(&self.rt, place, seen, mode) {
            Ok(true) => Ok(()),
            Ok(false) => Err(self.refuse("another file stands there than was seen")),
            Err(error) => Err(self.step_fault(error)),
        }
    }

    pub(crate) fn rename(&mut self, from: &str, to: &str) -> Result<(), HostFault>
        ensures made { self.new.trace.calls ≡ Rename from.now to.now ∷ self.old.trace.calls }
        ensures err { IfErr result IsOfStep }
    {
        self.trace = self.trace.with(&Request::Rename(from, to));
        let answer = fs::rename(&self.rt, from, to);
        self.ended(answer)
    }

    /// The system follows no link here.
    pub(crate) fn link(&mut self, from: &str, to: &str) -> Result<(), HostFault>
        ensures made { self.new.trace.calls ≡ Link from.now to.now ∷ self.old.trace.calls }
        ensures err { IfErr result IsOfStep }
    {
        self.trace = self.trace.with(&Request::Link(from, to));
        let answer = fs::hard_link(&self.rt, from, to);
        self.ended(answer)
    }

    pub(crate) fn make_link(&mut self, target: &str, place: &str) -> Result<(), HostFault>
        ensures made { self.new.trace.calls ≡ MakeLink target.now place.now ∷ self.old.trace.calls }
        ensures err { IfErr result IsOfStep }
    {
        self.trace = self.trace.with(&Request::MakeLink(target, place));
        let answer = symlink(&self.rt, target, place);
        self.ended(answer)
    }

    pub(crate) fn unlink(&mut self, place: &str) -> Result<(), HostFault>
        ensures made { self.new.trace.calls ≡ Unlink place.now ∷ self.old.trace.calls }
        ensures err { IfErr result IsOfStep }
    {
        self.trace = self.trace.with(&Request::Unlink(place));
        let answer = fs::remove_file(&self.rt, place);
        self.ended(answer)
    }

    pub(crate) fn remove_directory(&mut self, place: &str) -> Result<(), HostFault>
        ensures made { self.new.trace.calls ≡ RemoveDirectory place.now ∷ self.old.trace.calls }
        ensures err { IfErr result IsOfStep }
    {
        self.trace = self.trace.with(&Request::RemoveDirectory(place));
        let answer = fs::remove_dir(&self.rt, place);
        self.ended(answer)
    }

    // The directory that is open, if it is that at a place.
    fn take_opened(&mut self, place: &str) -> Option<Opened>
        ensures place { IfSome result (λ o. string_bytes o.place ≡ place.now) }
        ensures trace { self.new.trace ≡ self.old.trace }
    {
        let opened = self.opened.take()?;
        (opened.place.as_str() == place).then_some(opened)
    }

    /// The directory at a place below the root, which is opened unless it is open.
    pub(crate) fn open_directory(&mut self, root: &Root, place: &str) -> Result<Opened, HostFault>
        ensures place { IfOk result (λ o. string_bytes o.place ≡ place.now) }
        ensures trace { self.new.trace ≡ self.old.trace }
    {
        if let Some(opened) = self.take_opened(place) {
            return Ok(opened);
        }
        match open_by_way(root, place) {
            Ok(opened) => Ok(opened),
            Err(error) => Err(self.opening_fault(error)),
        }
    }

    // Why a directory can't be opened; want of this process's own memory is told.
    fn opening_fault(&mut self, error: Error) -> HostFault
        ensures trace { self.new.trace ≡ self.old.trace }
    {
        match fault_of(&error) {
            HostFault::NoMemory => HostFault::NoMemory,
            _ => self.step_fault(error),
        }
    }

    /// What stands by that name in the directory that is open.
    pub(crate) fn unlink_at(&mut self, opened: Opened, name: &str) -> Result<(), HostFault>
        ensures made { self.new.trace.calls ≡ UnlinkAt (string_bytes opened.place) name.now ∷ self.old.trace.calls }
        ensures err { IfErr result IsOfStep }
    {
        self.trace = self.trace.with(&Request::UnlinkAt(&opened, name));
        let answer = opened.unlink(name);
        self.opened = Some(opened);
        self.ended(answer)
    }

    /// The same of a directory.
    pub(crate) fn remove_directory_at(
        &mut self,
        opened: Opened,
        name: &str,
    ) -> Result<(), HostFault>
        ensures made { self.new.trace.calls ≡ RemoveDirectoryAt (string_bytes opened.place) name.now
            ∷ self.old.trace.calls }
        ensures err { IfErr result IsOfStep }
    {
        self.trace = self.trace.with(&Request::RemoveDirectoryAt(&opened, name));
        let answer = opened.remove_directory(name);
        self.opened = Some(opened);
        self.ended(answer)
    }

    /// Takes away a file that was made in a step that was declined. Where that can't be done either the device has failed.
    pub(crate) fn take_away_file(&mut self, place: &str) -> HostFault
        ensures gone { result ≡ Declined → self.new.trace.calls ≡ Gone ∷ Unlink place.now
            ∷ self.old.trace.calls }
        ensures left { result ≡ Device → self.new.trace.calls ≡ Unlink place.now
            ∷ self.old.trace.calls }
        ensures fault { IsOfStep result }
    {
        match self.unlink(place) {
            Ok(()) => self.gone(),
            Err(_) => HostFault::Device,
        }
    }

    /// The same of a directory.
    pub(crate) fn take_away_directory(&mut self, place: &str) -> HostFault
        ensures gone { result ≡ Declined → self.new.trace.calls ≡ Gone ∷ RemoveDirectory place.now
            ∷ self.old.trace.calls }
        ensures left { result ≡ Device → self.new.trace.calls ≡ RemoveDirectory place.now
            ∷ self.old.trace.calls }
        ensures fault { IsOfStep result }
    {
        match self.remove_directory(place) {
            Ok(()) => self.gone(),
            Err(_) => HostFault::Device,
        }
    }

    // What a step that was declined had made is gone.
    fn gone(&mut self) -> HostFault
        ensures gone { self.new.trace.calls ≡ Gone ∷ self.old.trace.calls }
        ensures fault { result ≡ Declined }
    {
        self.trace = self.trace.with(&Request::Gone);
        HostFault::Declined
    }

    pub(crate) fn sync_file(&mut self, place: &str) -> Result<(), HostFault>
        ensures made { self.new.trace.calls ≡ SyncFile place.now ∷ self.old.trace.calls }
        ensures err { IfErr result IsOfStep }
    {
        self.trace = self.trace.with(&Request::SyncFile(place));
        let answer = sync(&self.rt, place);
        self.ended(answer)
    }

    /// Whether the file that was made last is open.
    pub(crate) fn has_made(&self) -> bool
        ensures { result ≡ is_some self.now.made }
    {
        self.made.is_some()
    }

    pub(crate) fn sync_made(&mut self) -> Result<(), HostFault>
        ensures made { self.new.trace.calls ≡ SyncMade ∷ self.old.trace.calls }
        ensures err { IfErr result IsOfStep }
    {
        self.trace = self.trace.with(&Request::SyncMade);
        let answer = match &self.made {
            Some(file) => file.sync_all(),
            None => return Err(HostFault::Device),
        };
        self.ended(answer)
    }

    /// The same of a file that isn't kept.
    pub(crate) fn sync_open(&mut self, made: &File) -> Result<(), HostFault>
        ensures made { self.new.trace.calls ≡ SyncMade ∷ self.old.trace.calls }
        ensures err { IfErr result IsOfStep }
    {
        self.trace = self.trace.with(&Request::SyncMade);
        let answer = made.sync_all();
        self.ended(answer)
    }

    /// A file that was written before, by its path under the root; another that stands there is a fault.
    pub(crate) fn sync_written(&mut self, root: &Root, file: &Unsynced) -> Result<(), HostFault>
        ensures made { OnOk result (self.new.trace.calls ≡ SyncFile
            (place_of (string_bytes root.now.front) file.now.path) ∷ self.old.trace.calls) }
        ensures same { changes_in self.new.trace.calls ≡ changes_in self.old.trace.calls }
    {
        let place = root.place(file.path.as_str())?;
        self.trace = self.trace.with(&Request::SyncFile(place.as_str()));
        let answer = sync_same(&self.rt, place.as_str(), file.identity);
        let fault = match answer {
            Ok(true) => return Ok(()),
            Ok(false) => self.refuse("another file stands there than was written"),
            Err(error) => self.step_fault(error),
        };
        self.error_place = Some(place);
        Err(fault)
    }

    /// All of the file system that a file lies on, if the program `sync` can be had.
    pub(crate) fn sync_device(&mut self, root: &Root, file: &Unsynced) -> Result<bool, HostFault>
        ensures done { IfOk result (λ done. done ≡ true → (place : List ℕ)
            × (self.new.trace.calls ≡ SyncDevice file.now.identity.device place
            ∷ self.old.trace.calls)) }
        ensures not { IfOk result (λ done. done ≡ false → self.new.trace ≡ self.old.trace) }
        ensures err { OnErr result (self.new.trace ≡ self.old.trace) }
        ensures fault { IfErr result IsUndeclined }
    {
        let place = root.place(directory_of(&file.path))?;
        let synced = has_synced(&self.rt, &["-f", place.as_str()])?;
        if synced {
            let device = file.identity.device;
            self.trace = self
                .trace
                .with(&Request::SyncDevice(device, place.as_str()));
        }
        Ok(synced)
    }

    /// All of every file system, if the program `sync` can be had.
    pub(crate) fn sync_system(&mut self) -> Result<bool, HostFault>
        ensures done { IfOk result (λ done. done ≡ true → self.new.trace.calls ≡ SyncSystem
            ∷ self.old.trace.calls) }
        ensures not { IfOk result (λ done. done ≡ false → self.new.trace ≡ self.old.trace) }
        ensures err { OnErr result (self.new.trace ≡ self.old.trace) }
        ensures fault { IfErr result IsUndeclined }
    {
        let synced = has_synced(&self.rt, &[])?;
        if synced {
            self.trace = self.trace.with(&Request::SyncSystem);
        }
        Ok(synced)
    }

    /// The directory is told by its path under the root. Where it is gone, or a link leads to it,
    /// nothing is to be brought to the disk.
    pub(crate) fn sync_directory(&mut self, root: &Root, directory: &str) -> Result<(), HostFault>
        ensures made { OnOk result (self.new.trace.calls ≡ SyncDirectory
            (place_of (string_bytes root.now.front) directory.now) ∷ self.old.trace.calls) }
        ensures same { changes_in self.new.trace.calls ≡ changes_in self.old.trace.calls }
        ensures fault { IfErr result IsUndeclined }
    {
        let place = root.place(directory)?;
        self.trace = self.trace.with(&Request::SyncDirectory(place.as_str()));
        let answer = match root.stands(&self.rt, directory) {
            Ok(true) => sync(&self.rt, place.as_str()),
            Ok(false) => Ok(()),
            Err(error) => Err(error),
        };
        match answer {
            Ok(()) => Ok(()),
            Err(error) => Err(self.fault_at(place, error)),
        }
    }

    /// A file that was just seen there; where it is gone nothing is to be brought to the disk.
    pub(crate) fn sync_seen(&mut self, place: String) -> Result<(), HostFault>
        ensures made { OnOk result (self.new.trace.calls ≡ SyncFile (string_bytes place)
            ∷ self.old.trace.calls) }
        ensures same { changes_in self.new.trace.calls ≡ changes_in self.old.trace.calls }
        ensures fault { IfErr result IsUndeclined }
    {
        self.trace = self.trace.with(&Request::SyncFile(place.as_str()));
        match sync(&self.rt, place.as_str()) {
            Ok(()) => Ok(()),
            Err(error) if is_absent(&error) => Ok(()),
            Err(error) => Err(self.fault_at(place, error)),
        }
    }

    /// The names in a directory under the root that are text; none where it is gone.
    pub(crate) fn names_in(&mut self, root: &Root, path: &str) -> Result<Vec<String>, HostFault>
        ensures told { IfOk result (λ names. self.new.trace.calls ≡ Names
            (place_of (string_bytes root.now.front) path.now) (map string_bytes names.items)
            ∷ self.old.trace.calls) }
        ensures same { changes_in self.new.trace.calls ≡ changes_in self.old.trace.calls }
        ensures fault { IfErr result IsUndeclined }
    {
        let place = root.place(path)?;
        match text_names(&self.rt, place.as_str()) {
            Ok(names) => {
                self.trace = self
                    .trace
                    .with(&Request::Names(place.as_str(), names.as_slice()));
                Ok(names)
            }
            Err(error) => Err(self.fault_at(place, error)),
        }
    }

    /// Keeps that a directory lies on another file system.
    pub(crate) fn pass_over(&mut self, place: &str)
        ensures { self.new.trace.calls ≡ Apart place.now ∷ self.old.trace.calls }
    {
        self.trace = self.trace.with(&Request::Apart(place));
    }

    /// Nothing where the program is one that can't be started, or is missing. Where memory was wanting nothing was started.
    /// A file that is open for writing couldn't be started.
    pub(crate) fn start(&mut self, command: &mut Command) -> Result<Option<Child>, HostFault>
        ensures made { OnOk result (self.new.trace.calls ≡ start_call command.old
            ∷ self.old.trace.calls) }
        ensures err { IfErr result (IsNotBegun command.old self.old.trace.calls
            self.new.trace.calls) }
        ensures closed { self.new.made ≡ None }
    {
        self.made = None;
        let started = self.trace.with(&Request::Start(command));
        match command.spawn(&self.rt) {
            Ok(child) => {
                self.trace = started;
                Ok(Some(child))
            }
            Err(error) if is_start_error(&error) => {
                self.trace = started;
                Ok(None)
            }
            Err(error) => {
                let fault = self.fault(error);
                self.note_failed_start(started, fault);
                Err(fault)
            }
        }
    }

    // A start for which the device failed stands in the trace; for want of memory none was made.
    fn note_failed_start(&mut self, started: Trace, fault: HostFault)
        ensures device { fault ≡ Device → self.new.trace ≡ started }
        ensures open { self.new.made ≡ self.old.made }
        ensures memory { fault ≡ NoMemory → self.new.trace ≡ self.old.trace }
    {
        if let HostFault::Device = fault {
            self.trace = started;
        }
    }

    /// Waits for the end of the program that was started last.
    pub(crate) fn wait(&mut self, mut child: Child) -> Result<ExitStatus, HostFault>
        ensures ok { IfOk result (λ status. self.new.trace.calls ≡ End (exit_code status)
            ∷ self.old.trace.calls) }
        ensures err { IfErr result (λ fault. (fault ≡ Device)
            × (self.new.trace.calls ≡ self.old.trace.calls)) }
    {
        match child.wait() {
            Ok(status) => {
                self.trace = self.trace.with(&Request::End(&status));
                Ok(status)
            }
            Err(error) => {
                self.error = Some(error);
                Err(HostFault::Device)
            }
        }
    }
}
