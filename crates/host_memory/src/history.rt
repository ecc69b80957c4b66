// What stands on a root, what was done on it, and what a loss of power may bring back.
ghost use Rattle.std.specs.Prelude.{◌≡◌, ◌≤◌, map, drop, length};
ghost use Rattle.std.specs.BTreeMap.{get_by_text};
ghost use Rattle.host_core.specs.Events.{follow_all};
ghost use Rattle.host_core.specs.Unsynced.{IsSettled};
ghost use Rattle.host_memory.specs.Doings.{event_of};
ghost use Rattle.host_memory.specs.Losing.{naming_steps, ArePasts, IsUnflushed};

use crate::change::{Ending, Entry, carry_each};
use crate::done::{DeviceStep, Done, done_of};
use crate::files::Files;
use crate::past::Past;
use crate::placing::place;
use crate::step::perform;
use crate::unsynced::fill_unsynced;
use host_core::{Call, Keep, Node, RootPath};
use std::alloc::{AllocError, Global};
use std::mem;

// What survives a loss of power: so many events since all was on the disk, and what stood behind them.
#[derive(Clone, Copy)]
struct Survivors<'a> {
    count: usize,
    files: &'a Files,
}

// The files that stand, and those that stood when all was on the disk: behind that many events. Of the steps on names since
// then it is kept what stood before each.
#[derive(Drop)]
pub(crate) struct History {
    alloc: Global,
    events: Vec<Done>,
    files: Files,
    disk: Files,
    flushed: usize,
    pasts: Vec<Past>,
    ghost settled: { IsSettled (map event_of events.items) },
    ghost bound: { flushed ≤ length events.items },
    ghost late: { IsUnflushed (drop flushed (map event_of events.items)) },
    ghost reached: { get_by_text files.nodes ≡ follow_all (drop flushed (map event_of events.items)) (get_by_text disk.nodes) },
    ghost total: { naming_steps (drop flushed (map event_of events.items)) ≡ length pasts.items },
    ghost before: { ArePasts (get_by_text disk.nodes) (drop flushed (map event_of events.items)) pasts.items },
}

impl History {
    ghost use Rattle.host_core.specs.Events.{follow_all};
    ghost use Rattle.std.specs.Prelude.{◌≡◌, take, [], Some, true, false, map, IfOk, OnOk, OnErr, MatchBool};
    ghost use Rattle.std.specs.BTreeMap.{get_by_text};
    ghost use Rattle.host_core.specs.Events.{Did, Failed, Denied};
    ghost use Rattle.host_core.specs.Unsynced.{KeepsSettled};
    ghost use Rattle.host_core.specs.World.{put, is_kept};
    ghost use Rattle.host_core.specs.Loss.{flushes};
    ghost use Rattle.host_memory.specs.Able.{CanDo};
    ghost use Rattle.host_memory.specs.Changes.{change_of};
    ghost use Rattle.host_memory.specs.Doings.{event_of, step_of};
    ghost use Rattle.host_memory.specs.Losing.{names, naming_steps, Survives};
    ghost use Rattle.host_memory.specs.Trees.{CanPlace, IsPlaced, new_directory, nothing};
    ghost use Rattle.host_memory.specs.Histories.{HasAllRoom, HasRoom, Goes, IsAsBefore, IsLeft, IsOnDisk, RunsSo, Steps, disk_state, history_state, since_disk};

    // A root directory and nothing else.
    pub(crate) fn new(alloc: Global) -> Result<History, AllocError>
        ensures state { IfOk result (λ history. history_state history ≡ record {
          honest = true;
          world = put nothing [] (Some new_directory);
          events = [];
        }) }
        ensures disk { IfOk result (λ history. IsOnDisk history) }
    {
        let files = Files::new(alloc)?;
        let disk = files.copy()?;
        Ok(History {
            alloc,
            events: Vec::new(alloc),
            files,
            disk,
            flushed: 0,
            pasts: Vec::new(alloc),
        })
    }

    pub(crate) fn files(&self) -> &Files
        ensures { result.now ≡ self.now.files }
    {
        &self.files
    }

    pub(crate) fn events(&self) -> &[Done]
        ensures { map event_of result.now ≡ (history_state self.now).events }
    {
        self.events.as_slice()
    }

    // How many steps on names aren't on the disk.
    pub(crate) fn names_since(&self) -> usize
        ensures { result ≡ naming_steps (since_disk self.now) }
    {
        self.pasts.len()
    }

    // Sets what stands at a path, and all is on the disk.
    pub(crate) fn place(&mut self, path: &RootPath, node: Node) -> Result<bool, AllocError>
        ensures ok { IfOk result (λ done. MatchBool done (IsPlaced (history_state self.old).world
            (history_state self.new).world path.now node)
            ((CanPlace (history_state self.old).world path.now node → ⊥)
            × ((history_state self.new).world ≡ (history_state self.old).world))) }
        ensures disk { OnOk result (IsOnDisk self.new) }
        ensures err { OnErr result (IsAsBefore self.old self.new) }
        ensures events { (history_state self.new).events ≡ (history_state self.old).events }
    {
        path.law();
        let mut files = self.files.copy()?;
        let done = place(self.alloc, &mut files, path.as_str(), node)?;
        self.disk = files.copy()?;
        self.files = files;
        self.flushed = self.events.len();
        self.pasts = Vec::new(self.alloc);
        Ok(done)
    }

    // Makes room to tell two events, and to keep what stood before one.
    fn make_room(&mut self) -> Result<(), AllocError>
        ensures same { IsAsBefore self.old self.new }
        ensures ok { OnOk result (HasAllRoom self.new) }
    {
        self.events.reserve(2)?;
        self.pasts.reserve(1)?;
        Ok(())
    }

    // Makes room to tell one event.
    pub(crate) fn make_room_for_fault(&mut self) -> Result<(), AllocError>
        ensures same { IsAsBefore self.old self.new }
        ensures ok { OnOk result (HasRoom self.new) }
    {
        self.make_room()
    }

    // Tells that the device failed.
    pub(crate) fn tell_fault(&mut self)
        requires { HasRoom self.old }
        ensures { Goes Failed self.old self.new }
    {
        self.events.push_reserved(Done::Failed);
    }

    // Tells that a step at this path was declined.
    pub(crate) fn tell_denial(&mut self, path: RootPath)
        requires { HasRoom self.old }
        ensures { Goes (Denied path) self.old self.new }
    {
        self.events.push_reserved(Done::Denied(path));
    }

    // Makes a step that brings all to the disk.
    fn flush(&mut self, step: DeviceStep) -> Result<(), AllocError>
        requires flushing { flushes (step_of step) ≡ true }
        requires naming { names (step_of step) ≡ false }
        requires settled { KeepsSettled (history_state self.old).events (step_of step) }
        ensures ok { OnOk result (Steps (step_of step) self.old self.new × HasRoom self.new) }
        ensures err { OnErr result (IsAsBefore self.old self.new) }
    {
        self.make_room()?;
        self.disk = self.files.copy()?;
        self.events.push_reserved(Done::Did(step));
        self.flushed = self.events.len();
        self.pasts = Vec::new(self.alloc);
        Ok(())
    }

    // Makes a step that brings bytes to the disk, and touches no name.
    fn sync(&mut self, step: DeviceStep) -> Result<(), AllocError>
        requires flushing { flushes (step_of step) ≡ false }
        requires naming { names (step_of step) ≡ false }
        requires settled { KeepsSettled (history_state self.old).events (step_of step) }
        ensures ok { OnOk result (Steps (step_of step) self.old self.new × HasRoom self.new) }
        ensures err { OnErr result (IsAsBefore self.old self.new) }
    {
        self.make_room()?;
        self.events.push_reserved(Done::Did(step));
        Ok(())
    }

    // Makes a step on names, and keeps what stood before it.
    fn step_on_names(&mut self, step: DeviceStep) -> Result<(), AllocError>
        requires naming { names (step_of step) ≡ true }
        requires can { CanDo (step_of step) (history_state self.old).world }
        requires settled { KeepsSettled (history_state self.old).events (step_of step) }
        ensures ok { OnOk result (Steps (step_of step) self.old self.new × HasRoom self.new) }
        ensures err { OnErr result (IsAsBefore self.old self.new) }
    {
        self.make_room()?;
        let mut files = self.files.copy()?;
        perform(self.alloc, &mut files, &step)?;
        let count = self.events.len() - self.flushed;
        let files = mem::replace(&mut self.files, files);
        self.pasts.push_reserved(Past { count, files });
        self.events.push_reserved(Done::Did(step));
        Ok(())
    }

    // Makes a step, and keeps room to tell one event.
    pub(crate) fn do_step(&mut self, step: DeviceStep) -> Result<(), AllocError>
        requires can { CanDo (step_of step) (history_state self.old).world }
        requires settled { KeepsSettled (history_state self.old).events (step_of step) }
        ensures ok { OnOk result (Steps (step_of step) self.old self.new × HasRoom self.new) }
        ensures err { OnErr result (IsAsBefore self.old self.new) }
    {
        match step {
            DeviceStep::Barrier => self.flush(DeviceStep::Barrier),
            DeviceStep::SyncRoot => self.flush(DeviceStep::SyncRoot),
            DeviceStep::Sync(path) => self.sync(DeviceStep::Sync(path)),
            DeviceStep::SyncAll => self.sync(DeviceStep::SyncAll),
            step => self.step_on_names(step),
        }
    }

    // Does of a change what may be done, tells the call, and keeps room to tell one event.
    pub(crate) fn run(
        &mut self,
        call: &Call,
        keep: &Keep<'_>,
        ending: Ending,
        planned: &[Entry],
    ) -> Result<(), AllocError>
        ensures ok { OnOk result (RunsSo (is_kept keep.now) call.now ending (change_of planned.now)
            self.old self.new × HasRoom self.new) }
        ensures err { OnErr result (IsAsBefore self.old self.new) }
    {
        self.make_room()?;
        let call = call.copy()?;
        let mut files = self.files.copy()?;
        let change = carry_each(self.alloc, &mut files, keep, planned)?;
        self.files = files;
        self.events.push_reserved(done_of(call, ending, change));
        Ok(())
    }

    // What survives a loss that leaves at most so many of the steps on names since all was on the disk.
    fn survivors(&self, keep: usize) -> Survivors<'_>
        ensures survives { Survives keep (since_disk self.now) result.count }
        ensures files { get_by_text result.files.now.nodes ≡ follow_all
            (take result.count (since_disk self.now)) (disk_state self.now).world }
    {
        match self.pasts.get(keep) {
            Some(past) => Survivors {
                count: past.count,
                files: &past.files,
            },
            None => Survivors {
                count: self.events.len() - self.flushed,
                files: &self.files,
            },
        }
    }

    // The files that it leaves, of which those that weren't synced are filled.
    fn left_by_loss(&self, keep: usize, fill: u8) -> Result<Files, AllocError>
        ensures { IfOk result (λ files. IsLeft keep fill self.now (get_by_text files.nodes)) }
    {
        let survivors = self.survivors(keep);
        let mut files = survivors.files.copy()?;
        let events = &self.events[..self.flushed + survivors.count];
        fill_unsynced(self.alloc, &mut files, events, fill)?;
        Ok(files)
    }

    // Loses what isn't on the disk, but for some steps on names; what is left is on the disk.
    pub(crate) fn lose(&mut self, keep: usize, fill: u8) -> Result<(), AllocError>
        ensures ok { OnOk result (IsLeft keep fill self.old (history_state self.new).world) }
        ensures disk { OnOk result (IsOnDisk self.new) }
        ensures events { OnOk result ((history_state self.new).events
            ≡ (history_state self.old).events) }
        ensures err { OnErr result (self.new ≡ self.old) }
    {
        let files = self.left_by_loss(keep, fill)?;
        self.disk = files.copy()?;
        self.files = files;
        self.flushed = self.events.len();
        self.pasts = Vec::new(self.alloc);
        Ok(())
    }
}
