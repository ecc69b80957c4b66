// The host over a real directory.
ghost use Rattle.std.specs.Prelude.{◌≡◌, ◌<◌, IsTrue, is_some, string_bytes, true};
ghost use Rattle.std.specs.Option.{ForSome};
ghost use Rattle.host_core.specs.Unsynced.{IsSettled};
ghost use Rattle.host_files.specs.Remembered.{IsKnown, IsNew, IsVacant};
ghost use Rattle.host_core.specs.World.{place_of};
ghost use Rattle.host_files.specs.Notes.{asked_by};
ghost use Rattle.host_files.specs.Replay.{replay, step_of};

use crate::changed::Changed;
use crate::comparing::are_same;
use crate::disk::fault_of;
use crate::disk_model::Disk;
use crate::failure::Failure;
use crate::looking::{kind_at, listing_at, node_at};
use crate::record::{Asks, Note};
use crate::root::Root;
use crate::scripts::run_script;
use crate::steps::{
    hard_link, lower_file, make_directory, move_over, symlink, unlink, unlink_directory, write_file,
};
use crate::syncing::{flush, flush_all, flush_root, flush_written};
use crate::system::{ScriptStreams, System};
use crate::told::{Made, Told};
use crate::written::{Unsynced, Written};
use host_core::{
    Access, Call, Content, Host, HostFault, Keep, Kind, Listing, Node, Outcome, Places, RootPath,
};
use std::collections::BTreeSet;
use std::fs;
use std::fs::File;
use std::marker::PhantomData;
use texts::Text;

/// A root directory of the real file system. Its state is what its calls and their answers make of
/// a directory that is supposed.
#[derive(Drop)]
pub struct FilesHost<D: Disk> {
    system: System,
    root: Root,
    changed: Changed,
    written: Written,
    told: Told,
    failure: Option<Failure>,
    disk: PhantomData<D>,
    ghost explained: { 0 < told.faults → is_some failure ≡ true },
    ghost settled: { IsTrue (replay D.Disk.model told.log.notes).honest → IsSettled (replay D.Disk.model told.log.notes).events },
    ghost known: { ForSome root.remembered.directory (λ s. ∥ IsKnown (string_bytes s) told.log.notes ∥₁) },
    ghost last: { ForSome root.remembered.file (λ f. ∥ IsNew f told.log.notes ∥₁) },
    ghost vacant: { ForSome root.remembered.vacant (λ v. ∥ IsVacant v told.log.notes ∥₁) },
}

// the longest directory that leaves room for every path below it
const MAX_DIRECTORY: usize = 3000;

/// Whether owners can be set, and are told.
pub fn is_superuser() -> bool {
    libc::geteuid() == 0
}

// The path that a step is told by where it is declined; that of one which names none is kept by the system's call.
fn place_of<'a>(asked: Asks<'a>) -> &'a str
    ensures { result.now ≡ place_of (step_of (asked_by asked.entry)) }
{
    match asked {
        Asks::Write(path, _)
        | Asks::Move(_, path)
        | Asks::Take(path)
        | Asks::MakeDir(path, _)
        | Asks::RemoveDir(path)
        | Asks::HardLink(_, path)
        | Asks::MakeLink(path, _)
        | Asks::Sync(path)
        | Asks::Lower(path) => path.as_str(),
        Asks::Barrier | Asks::SyncAll | Asks::SyncRoot => "",
    }
}

// The path that a person is told where it fails: that at which something is to stand before.
fn path_of<'a>(asked: Asks<'a>) -> &'a str {
    match asked {
        Asks::Move(path, _) | Asks::HardLink(path, _) => path.as_str(),
        _ => place_of(asked),
    }
}

// What a person is told of a fault of the call that was begun, which is at a path.
fn failure_of(system: &mut System, root: &Root, path: &str) -> Failure {
    let (place, error) = system.take_error();
    Failure::new(&system.rt, root, path, place, error)
}

// The kept places, lent.
fn places_of<'a>(keep: &'a Keep<'_>) -> &'a Places
    ensures { result.now ≡ keep.now }
{
    keep.places
}

impl<D: Disk> FilesHost<D> {
    ghost use Rattle.std.specs.Prelude.{◌≡◌, ◌∷◌, [], ◌<◌, ◌^◌, ◌-◌, true, is_some, map, vec_len, vec_capacity, Err, OnOk, IfOk, length, string_bytes};
    ghost use Rattle.host_core.specs.declared.fault.HostFault.TheVariants.{Device, NoMemory};
    ghost use Rattle.host_core.specs.declared.fault.HostFault.TheVariants as fault;
    ghost use Rattle.host_files.specs.Faults.{IsUndeclined};
    ghost use Rattle.host_files.specs.FilesState.{directory_of};
    ghost use Rattle.host_files.specs.Notes.{noted, told_of, calls_in, faults_in, IsPlain, IsNotedFault};
    ghost use Rattle.host_files.specs.Shown.{IsBrought, IsDeclinedBy, IsEndedBy, IsRemembered, IsShownBy, IsStepBy, IsSure};
    ghost use Rattle.host_files.specs.SystemCalls.{changes_in};
    ghost use Rattle.host_files.specs.declared.record.Noted.TheVariants.{Done, Undone, Declined, Ended};
    ghost use Rattle.host_core.specs.Host.{Counts, Reads, Silent, Tells};
    ghost use Rattle.host_core.specs.Unsynced.{KeepsSettled};
    ghost use Rattle.host_core.specs.World.{kind_of};
    ghost use Rattle.host_files.specs.Replay.{IsOwed};

    /// Links may lead to the directory. Device where there is none, or its path has more than 3,000
    /// bytes.
    pub fn open(rt: HostRuntime, directory: &str) -> Result<FilesHost<D>, HostFault>
        ensures fresh { IfOk result (λ host. host.told.log.notes ≡ []) }
        ensures directory { IfOk result (λ host. directory_of host ≡ directory.now) }
        ensures long { 3000 < length directory.now → result ≡ Err Device }
    {
        if directory.len() > MAX_DIRECTORY {
            return Err(HostFault::Device);
        }
        let alloc = rt.alloc();
        let root = Root::new(alloc, directory, is_superuser())?;
        match fs::metadata(&rt, directory) {
            Ok(found) if found.is_dir() => Ok(FilesHost {
                system: System::new(rt),
                root,
                changed: Changed::new(alloc),
                written: Written::new(alloc),
                told: Told::new(alloc),
                failure: None,
                disk: PhantomData,
            }),
            Ok(_) => Err(HostFault::Device),
            Err(error) => Err(fault_of(&error)),
        }
    }

    /// Where scripts write, their programs' own streams unless this is called.
    pub fn set_script_streams(&mut self, streams: ScriptStreams)
        ensures { self.new.told ≡ self.old.told }
    {
        self.system.streams = streams;
    }

    /// That it is a package's tree: what is none of a file, a directory and a link is a fault of the device there. In
    /// any other root it counts as a file without bytes.
    pub fn set_tree(&mut self)
        ensures { self.new.told ≡ self.old.told }
    {
        self.root.tree = true;
    }

    /// The bytes of each file that is read are held in memory, however many they are: what is read may be asked for when the
    /// directory is gone.
    pub fn hold_files(&mut self)
        ensures { self.new.told ≡ self.old.told }
    {
        self.root.holds = true;
    }

    /// A file that can't be opened for want of rights counts from now on as one with bytes that nobody ships, and is told
    /// by `unread`: for a root that is only looked at.
    pub fn pass_unread(&mut self)
        ensures { self.new.told ≡ self.old.told }
    {
        self.root.passes = true;
    }

    /// The paths of such files, in the order of their bytes, each once.
    pub fn unread(&self) -> &BTreeSet<String> {
        &self.system.unread
    }

    /// What scripts read in place of `/dev/null` from now on. They have it open as long as they run.
    pub fn set_script_input(&mut self, input: File)
        ensures { self.new.told ≡ self.old.told }
    {
        self.system.input = Some(input);
    }

    /// The architecture that scripts are told from now on, if it is known.
    pub fn set_architecture(&mut self, architecture: Option<String>)
        ensures { self.new.told ≡ self.old.told }
    {
        self.system.architecture = architecture;
    }

    /// Of its last fault, or of the last step that was declined, whichever came later.
    pub fn failure(&self) -> Option<&Failure>
        ensures { 0 < faults_in self.now.told.log.notes → is_some result ≡ true }
    {
        self.failure.as_ref()
    }

    /// The same, of a host that is given back.
    pub fn into_failure(self) -> Option<Failure>
        ensures { 0 < faults_in self.told.log.notes → is_some result ≡ true }
    {
        self.failure
    }

    /// All calls so far.
    pub fn calls(&self) -> &[Made]
        ensures { map told_of result.now ≡ calls_in self.now.told.log.notes }
    {
        self.told.calls.as_slice()
    }

    /// How often the device has failed.
    pub fn faults(&self) -> u64
        ensures { result ≡ faults_in self.now.told.log.notes }
    {
        self.told.faults
    }

    // Notes a call that was answered by looking.
    fn note(&mut self, note: &Note<'_>)
        requires plain { IsPlain (noted note.now) }
        requires shown { IsShownBy (string_bytes self.old.root.directory)
            (string_bytes self.old.root.front) self.old.root.owners self.old.told.log.notes
            (noted note.now) self.old.system.trace.calls }
        requires owed { IsTrue (replay D.Disk.model self.old.told.log.notes).honest
            → IsOwed (replay D.Disk.model self.old.told.log.notes).events (noted note.now) }
        ensures notes { self.new.told.log.notes ≡ noted note.now ∷ self.old.told.log.notes }
    {
        self.root.remembered.take_note(note);
        self.told.note(note);
    }

    // Notes a call at a path that failed with Device; want of memory is no event.
    fn fail(&mut self, fault: HostFault, path: &str, note: &Note<'_>) -> HostFault
        requires undeclined { IsUndeclined fault }
        requires fault { IsNotedFault (noted note.now) }
        requires shown { fault ≡ Device → IsShownBy (string_bytes self.old.root.directory)
            (string_bytes self.old.root.front) self.old.root.owners self.old.told.log.notes
            (noted note.now) self.old.system.trace.calls }
        requires unchanged { fault ≡ NoMemory → changes_in self.old.system.trace.calls ≡ [] }
        requires owed { IsTrue (replay D.Disk.model self.old.told.log.notes).honest
            → IsOwed (replay D.Disk.model self.old.told.log.notes).events (noted note.now) }
        requires countable { self.old.told.faults < 2 ^ 64 - 1 }
        ensures undeclined { IsUndeclined result }
        ensures device { result ≡ Device → self.new.told.log.notes ≡ noted note.now
            ∷ self.old.told.log.notes }
        ensures memory { result ≡ NoMemory → self.new.told.log.notes ≡ self.old.told.log.notes }
    {
        match fault {
            HostFault::Device => {
                self.failure = Some(failure_of(&mut self.system, &self.root, path));
                self.root.remembered.take_note(note);
                self.told.fail(note);
                HostFault::Device
            }
            HostFault::NoMemory | HostFault::Declined => fault,
        }
    }

    // Notes a step that was declined, and keeps what a person is told of it.
    fn decline(&mut self, asked: Asks<'_>)
        requires shown { IsDeclinedBy (string_bytes self.old.root.front) self.old.root.owners
            (asked_by asked) self.old.system.trace.calls }
        requires owed { IsTrue (replay D.Disk.model self.old.told.log.notes).honest
            → KeepsSettled (replay D.Disk.model self.old.told.log.notes).events
            (step_of (asked_by asked)) }
        ensures { self.new.told.log.notes ≡ Declined (asked_by asked.entry)
            ∷ self.old.told.log.notes }
    {
        self.note(&Note::Declined(asked));
        self.failure = Some(failure_of(&mut self.system, &self.root, place_of(asked)));
    }

    // Notes how a step ended.
    fn settle(&mut self, asked: Asks<'_>, ended: Result<(), HostFault>) -> Result<(), HostFault>
        requires shown { IsStepBy (string_bytes self.old.root.front) self.old.root.owners
            (asked_by asked) self.old.system.trace.calls ended }
        requires remembered { IsRemembered self.old.changed.directories (asked_by asked) }
        requires brought { OnOk ended (IsBrought (string_bytes self.old.root.front)
            self.old.root.owners self.old.changed.directories self.old.written.files.items
            (asked_by asked) self.old.system.trace.calls) }
        requires sure { OnOk ended (IsSure (string_bytes self.old.root.front)
            self.old.told.log.notes (asked_by asked) self.old.system.trace.calls) }
        requires owed { IsTrue (replay D.Disk.model self.old.told.log.notes).honest
            → KeepsSettled (replay D.Disk.model self.old.told.log.notes).events
            (step_of (asked_by asked)) }
        requires countable { self.old.told.faults < 2 ^ 64 - 1 }
        ensures done { OnOk result (self.new.told.log.notes ≡ Done (asked_by asked.entry)
            ∷ self.old.told.log.notes) }
        ensures device { result ≡ Err Device → self.new.told.log.notes
            ≡ Undone (asked_by asked.entry) ∷ self.old.told.log.notes }
        ensures memory { result ≡ Err NoMemory → self.new.told.log.notes ≡ self.old.told.log.notes }
        ensures declined { result ≡ Err fault.Declined → self.new.told.log.notes
            ≡ Declined (asked_by asked.entry) ∷ self.old.told.log.notes }
    {
        match ended {
            Ok(()) => {
                self.note(&Note::Done(asked));
                Ok(())
            }
            Err(HostFault::Declined) => {
                self.decline(asked);
                Err(HostFault::Declined)
            }
            Err(fault) => Err(self.fail(fault, path_of(asked), &Note::Undone(asked))),
        }
    }

    // Notes a script that ended.
    fn end(&mut self, called: Call, call: &Call, kept: &Places, outcome: Outcome)
        requires room { vec_len self.old.told.calls < vec_capacity self.old.told.calls }
        requires copied { called ≡ call.now }
        requires shown { IsEndedBy (string_bytes self.old.root.directory)
            (string_bytes self.old.root.front) call.now outcome self.old.system.trace.calls }
        ensures notes { self.new.told.log.notes ≡ Ended call.now kept.now outcome
            ∷ self.old.told.log.notes }
    {
        let note = Note::Ended(call, kept, outcome);
        self.root.remembered.take_note(&note);
        self.told.end(called, call, kept, outcome);
    }

    // What kind of node stands at a path. A person is told of a fault by the path that was asked for.
    fn see(&mut self, path: &RootPath, wanted: &RootPath) -> Result<Option<Kind>, HostFault>
        ensures found { Tells result (λ kind w. kind ≡ kind_of (w path.now)) (replay D.Disk.model self.old.told.log.notes)
            (replay D.Disk.model self.new.told.log.notes) }
        ensures reads { Reads (replay D.Disk.model self.old.told.log.notes)
            (replay D.Disk.model self.new.told.log.notes) }
        ensures silent { Silent (replay D.Disk.model self.old.told.log.notes)
            (replay D.Disk.model self.new.told.log.notes) }
        ensures counts { Counts (replay D.Disk.model self.old.told.log.notes)
            (replay D.Disk.model self.new.told.log.notes) result }
    {
        self.told.guard()?;
        self.system.begin_open();
        if self.root.remembered.lacks(path.as_str()) {
            self.note(&Note::Seen(path, None));
            return Ok(None);
        }
        match kind_at(&mut self.system, &self.root, path) {
            Ok(kind) => {
                self.note(&Note::Seen(path, kind));
                Ok(kind)
            }
            Err(fault) => Err(self.fail(fault, wanted.as_str(), &Note::Missed)),
        }
    }

    fn read(&mut self, path: &RootPath) -> Result<Option<Node>, HostFault>
        ensures found { Tells result (λ node w. node ≡ w path.now) (replay D.Disk.model self.old.told.log.notes)
            (replay D.Disk.model self.new.told.log.notes) }
        ensures reads { Reads (replay D.Disk.model self.old.told.log.notes)
            (replay D.Disk.model self.new.told.log.notes) }
        ensures silent { Silent (replay D.Disk.model self.old.told.log.notes)
            (replay D.Disk.model self.new.told.log.notes) }
        ensures counts { Counts (replay D.Disk.model self.old.told.log.notes)
            (replay D.Disk.model self.new.told.log.notes) result }
    {
        self.told.guard()?;
        self.system.begin_open();
        if self.root.remembered.lacks(path.as_str()) {
            self.note(&Note::Looked(path, &None));
            return Ok(None);
        }
        match node_at(&mut self.system, &self.root, path) {
            Ok(node) => {
                self.note(&Note::Looked(path, &node));
                Ok(node)
            }
            Err(fault) => Err(self.fail(fault, path.as_str(), &Note::Missed)),
        }
    }

    // The directory that a path stands in is looked at first, so that it is remembered.
    fn approach(&mut self, path: &RootPath) -> Result<(), HostFault>
        ensures reads { Reads (replay D.Disk.model self.old.told.log.notes)
            (replay D.Disk.model self.new.told.log.notes) }
        ensures silent { Silent (replay D.Disk.model self.old.told.log.notes)
            (replay D.Disk.model self.new.told.log.notes) }
        ensures counts { Counts (replay D.Disk.model self.old.told.log.notes)
            (replay D.Disk.model self.new.told.log.notes) result }
    {
        match self.root.unknown_above(path) {
            Some(directory) => match self.see(&directory, path) {
                Ok(_) => Ok(()),
                Err(fault) => Err(fault),
            },
            None => Ok(()),
        }
    }
}

impl<D: Disk> Host for FilesHost<D> {
    ghost state = { λ h. replay D.Disk.model h.told.log.notes };

    ghost tree = { λ h. D.Disk.sound.tree h.told.log.notes };

    ghost settled = { λ h. h.settled };

    fn node(&mut self, path: &RootPath) -> Result<Option<Node>, HostFault> {
        match self.approach(path) {
            Ok(()) => self.read(path),
            Err(fault) => Err(fault),
        }
    }

    fn same(&mut self, one: &Content, other: &Content) -> Result<bool, HostFault> {
        self.told.guard()?;
        self.system.begin_open();
        match are_same(&self.system.rt, one, other) {
            Ok(same) => {
                self.note(&Note::Compared(one, other, same));
                Ok(same)
            }
            Err(error) => {
                let fault = self.system.fault(error);
                Err(self.fail(fault, "", &Note::Missed))
            }
        }
    }

    fn kind(&mut self, path: &RootPath) -> Result<Option<Kind>, HostFault> {
        match self.approach(path) {
            Ok(()) => self.see(path, path),
            Err(fault) => Err(fault),
        }
    }

    fn list(&mut self, path: &RootPath) -> Result<Listing, HostFault> {
        self.told.guard()?;
        self.system.begin_open();
        match listing_at(&self.system.rt, &self.root, path) {
            Ok(listing) => {
                self.note(&Note::Listed(path, &listing));
                Ok(listing)
            }
            Err(error) => {
                let fault = self.system.fault(error);
                Err(self.fail(fault, path.as_str(), &Note::Missed))
            }
        }
    }

    fn write_new(&mut self, path: &RootPath, node: &Node) -> Result<(), HostFault> {
        self.told.guard()?;
        self.system.begin();
        self.changed.add(path)?;
        self.written.reserve()?;
        let listed = path.copy()?;
        let written = write_file(&mut self.system, &self.root, path, node);
        let file = Unsynced {
            path: listed,
            identity: self.system.identity(),
        };
        self.written.take(self.root.owners, node, file, &written);
        self.settle(Asks::Write(path, node), written)
    }

    fn make_dir(&mut self, path: &RootPath, access: Access) -> Result<(), HostFault> {
        self.told.guard()?;
        self.system.begin();
        self.changed.add(path)?;
        let made = make_directory(&mut self.system, &self.root, path, access);
        self.settle(Asks::MakeDir(path, access), made)
    }

    fn make_link(&mut self, path: &RootPath, target: &Text) -> Result<(), HostFault> {
        self.told.guard()?;
        self.system.begin();
        self.changed.add(path)?;
        let made = symlink(&mut self.system, &self.root, path, target);
        self.settle(Asks::MakeLink(path, target), made)
    }

    fn link(&mut self, from: &RootPath, to: &RootPath) -> Result<(), HostFault> {
        self.told.guard()?;
        self.system.begin();
        self.changed.add(to)?;
        let linked = hard_link(&mut self.system, &self.root, from, to);
        self.settle(Asks::HardLink(from, to), linked)
    }

    fn sync(&mut self, path: &RootPath) -> Result<(), HostFault> {
        self.told.guard()?;
        self.system.begin();
        let flushed = flush(&mut self.system, &self.root, path);
        let settled = self.settle(Asks::Sync(path), flushed);
        self.written.leave(path, &settled);
        settled
    }

    fn barrier(&mut self) -> Result<(), HostFault> {
        self.told.guard()?;
        self.system.begin();
        let flushed = flush_all(&mut self.system, &self.root, &self.changed);
        let settled = self.settle(Asks::Barrier, flushed);
        self.changed.clear_after(&settled);
        settled
    }

    fn sync_written(&mut self) -> Result<(), HostFault> {
        self.told.guard()?;
        self.system.begin();
        let flushed = flush_written(&mut self.system, &self.root, &self.written);
        let settled = self.settle(Asks::SyncAll, flushed);
        self.written.clear_after(&settled);
        settled
    }

    fn sync_root(&mut self) -> Result<(), HostFault> {
        self.told.guard()?;
        self.system.begin();
        let flushed = flush_root(&mut self.system, &self.root, &self.changed);
        let settled = self.settle(Asks::SyncRoot, flushed);
        self.changed.clear_after(&settled);
        settled
    }

    fn rename(&mut self, from: &RootPath, to: &RootPath) -> Result<(), HostFault> {
        self.told.guard()?;
        self.system.begin();
        self.changed.add(from)?;
        self.changed.add(to)?;
        let moved = move_over(&mut self.system, &self.root, from, to);
        let settled = self.settle(Asks::Move(from, to), moved);
        self.written.leave(to, &settled);
        settled
    }

    fn lower(&mut self, path: &RootPath) -> Result<(), HostFault> {
        self.told.guard()?;
        self.system.begin_open();
        let lowered = lower_file(&mut self.system, &self.root, path);
        self.settle(Asks::Lower(path), lowered)
    }

    fn remove(&mut self, path: &RootPath) -> Result<(), HostFault> {
        self.told.guard()?;
        self.system.begin_open();
        self.changed.add(path)?;
        let removed = unlink(&mut self.system, &self.root, path);
        let settled = self.settle(Asks::Take(path), removed);
        self.written.leave(path, &settled);
        settled
    }

    fn remove_dir(&mut self, path: &RootPath) -> Result<(), HostFault> {
        self.told.guard()?;
        self.system.begin_open();
        self.changed.add(path)?;
        let removed = unlink_directory(&mut self.system, &self.root, path);
        self.settle(Asks::RemoveDir(path), removed)
    }

    fn run(&mut self, call: &Call, keep: &Keep<'_>) -> Result<Outcome, HostFault> {
        self.told.guard()?;
        self.system.begin();
        let kept = places_of(keep);
        let called = call.copy()?;
        self.told.reserve()?;
        match run_script(&mut self.system, &self.root, call) {
            Ok(outcome) => {
                self.end(called, call, kept, outcome);
                Ok(outcome)
            }
            Err(fault) => Err(self.fail(fault, call.at.as_str(), &Note::Broke(call, kept))),
        }
    }
}
