// The host in memory.
ghost use Rattle.std.specs.Prelude.{◌≡◌};
ghost use Rattle.host_memory.specs.Endings.{next_ending, next_change};

use crate::change::{Ending, Entry, Planned};
use crate::denial_plan::{is_denied, pass_step};
use crate::done::{DeviceStep, Done, count_denied, part_of, place_of};
use crate::fault_plan::{Effect, Fate, FaultPlan, StepFault};
use crate::history::History;
use host_core::{
    Access, Call, Content, Host, HostFault, Keep, Kind, Listing, Node, Outcome, RootPath,
};
use std::alloc::{AllocError, Global};
use std::collections::VecDeque;
use texts::Text;

// What the first plan says, lent.
#[derive(Clone, Copy)]
struct Next<'a> {
    ending: Ending,
    change: &'a [Entry],
}

// How the next call ends.
fn next_of(pending: &VecDeque<Planned>) -> Next<'_>
    ensures ending { result.ending ≡ next_ending pending.now.items }
    ensures change { result.change.now ≡ next_change pending.now.items }
{
    match pending.front() {
        Some(planned) => Next {
            ending: planned.ending,
            change: planned.change.as_slice(),
        },
        None => Next {
            ending: Ending::Ended(Outcome::Exit(0)),
            change: &[],
        },
    }
}

/// A root in memory. Its calls end as planned, in order, and when none is left with exit status 0; its device fails where
/// that is planned, and its steps are declined where that is. It answers NoMemory where an allocation is refused, and then nothing has changed.
#[derive(Drop)]
pub struct MemoryHost {
    alloc: Global,
    history: History,
    pending: VecDeque<Planned>,
    faults: FaultPlan,
    // so many steps are made before each that is declined, counted from the one before
    denials: VecDeque<usize>,
}

impl MemoryHost {
    ghost use Rattle.std.specs.Prelude.{◌≡◌, ◌++◌, ◌∷◌, [], Some, true, false, map, IfErr, IfOk, OnOk, OnErr, MatchBool};
    ghost use Rattle.host_memory.specs.Histories.{Breaks, IsAsBefore, since_disk};
    ghost use Rattle.host_memory.specs.Losing.{naming_steps};
    ghost use Rattle.host_core.specs.World.{put, is_kept};
    ghost use Rattle.host_core.specs.Unsynced.{KeepsSettled};
    ghost use Rattle.host_memory.specs.Able.{CanDo};
    ghost use Rattle.host_memory.specs.Doings.{event_of, step_of, part_left};
    ghost use Rattle.host_core.specs.Host.{denials};
    ghost use Rattle.host_memory.specs.DenialPlans.{awaits_denial};
    ghost use Rattle.host_memory.specs.FaultPlans.{awaits, fate_at, no_faults};
    ghost use Rattle.host_memory.specs.Trees.{CanPlace, IsPlaced, new_directory, nothing};
    ghost use Rattle.host_memory.specs.Memory.{memory_state, flushed_state, planned_of, denials_planned, faults_planned, is_stopped, CallsAsPlanned, IsBehindStep, KeepsPlans, Looks, Loses, MakesStep, TouchesFilesAlone};

    /// A root directory and nothing else.
    pub fn new(alloc: Global) -> Result<MemoryHost, AllocError>
        ensures state { IfOk result (λ host. memory_state host ≡ record {
          honest = true;
          world = put nothing [] (Some new_directory);
          events = [];
        }) }
        ensures disk { IfOk result (λ host. flushed_state host ≡ memory_state host) }
        ensures planned { IfOk result (λ host. planned_of host ≡ []) }
        ensures faults { IfOk result (λ host. faults_planned host ≡ no_faults) }
        ensures denials { IfOk result (λ host. denials_planned host ≡ []) }
    {
        Ok(MemoryHost {
            alloc,
            history: History::new(alloc)?,
            pending: VecDeque::new(alloc),
            faults: FaultPlan::none(),
            denials: VecDeque::new(alloc),
        })
    }

    /// Sets what stands at a path, with the directories that are missing above it. False where a file
    /// or link stands above, or the node would replace a directory that isn't empty. What was done before is then on the disk.
    pub fn place(&mut self, path: &RootPath, node: Node) -> Result<bool, AllocError>
        ensures ok { IfOk result (λ done. MatchBool done (IsPlaced (memory_state self.old).world
            (memory_state self.new).world path.now node)
            ((CanPlace (memory_state self.old).world path.now node → ⊥)
            × ((memory_state self.new).world ≡ (memory_state self.old).world))) }
        ensures err { OnErr result (memory_state self.new ≡ memory_state self.old) }
        ensures disk { OnOk result (flushed_state self.new ≡ memory_state self.new) }
        ensures alone { TouchesFilesAlone self.old self.new }
    {
        self.history.place(path, node)
    }

    /// Adds how a later call ends, after those that were planned before.
    pub fn plan(&mut self, planned: Planned) -> Result<(), AllocError>
        ensures ok { OnOk result (planned_of self.new ≡ planned_of self.old ++ planned ∷ []) }
        ensures err { OnErr result (planned_of self.new ≡ planned_of self.old) }
        ensures state { memory_state self.new ≡ memory_state self.old }
        ensures faults { faults_planned self.new ≡ faults_planned self.old }
        ensures denials { denials_planned self.new ≡ denials_planned self.old }
    {
        self.pending.push_back(planned)?;
        Ok(())
    }

    /// From now on `before` steps are made, and at the next one the device fails once. This stands in place of what was planned
    /// for steps before.
    pub fn fail_step(&mut self, before: usize, effect: Effect)
        ensures faults { faults_planned self.new ≡ record (faults_planned self.old)
            { step = Some (record { before = before; effect = effect; stops = false }) } }
        ensures planned { planned_of self.new ≡ planned_of self.old }
        ensures state { memory_state self.new ≡ memory_state self.old }
        ensures denials { denials_planned self.new ≡ denials_planned self.old }
    {
        self.faults.step = Some(StepFault {
            before,
            effect,
            stops: false,
        });
    }

    /// The same, and the device stops at that step: until the host is started again each call fails and does nothing.
    pub fn stop_step(&mut self, before: usize, effect: Effect)
        ensures faults { faults_planned self.new ≡ record (faults_planned self.old)
            { step = Some (record { before = before; effect = effect; stops = true }) } }
        ensures planned { planned_of self.new ≡ planned_of self.old }
        ensures state { memory_state self.new ≡ memory_state self.old }
        ensures denials { denials_planned self.new ≡ denials_planned self.old }
    {
        self.faults.step = Some(StepFault {
            before,
            effect,
            stops: true,
        });
    }

    /// From now on so many nodes, kinds and lists are told, and at the next one the device fails once.
    pub fn fail_read(&mut self, before: usize)
        ensures faults { faults_planned self.new ≡ record (faults_planned self.old)
            { read = Some before } }
        ensures planned { planned_of self.new ≡ planned_of self.old }
        ensures state { memory_state self.new ≡ memory_state self.old }
        ensures denials { denials_planned self.new ≡ denials_planned self.old }
    {
        self.faults.read = Some(before);
    }

    /// Behind the steps that are to be declined already, `before` steps are made, and the next one is declined: nothing changes
    /// in the root, what was done has the path of the step (of a move or link its target, of a barrier the root), and the
    /// answer is `Declined`. A step at which the device fails isn't declined, and counts; a sync and a barrier may be declined as
    /// any other.
    pub fn decline_step(&mut self, before: usize) -> Result<(), AllocError>
        ensures ok { OnOk result (denials_planned self.new ≡ denials_planned self.old
            ++ before ∷ []) }
        ensures err { OnErr result (denials_planned self.new ≡ denials_planned self.old) }
        ensures planned { planned_of self.new ≡ planned_of self.old }
        ensures faults { faults_planned self.new ≡ faults_planned self.old }
        ensures state { memory_state self.new ≡ memory_state self.old }
    {
        self.denials.push_back(before)?;
        Ok(())
    }

    /// The host started again, with no fault and no denial planned. What it holds and has done is as before.
    pub fn restart(self) -> MemoryHost
        ensures state { memory_state result ≡ memory_state self }
        ensures disk { flushed_state result ≡ flushed_state self }
        ensures planned { planned_of result ≡ planned_of self }
        ensures faults { faults_planned result ≡ no_faults }
        ensures denials { denials_planned result ≡ [] }
    {
        let mut host = self;
        host.faults = FaultPlan::none();
        host.denials.clear();
        host
    }

    /// Loses power, and is started again with no fault and no denial planned: of the steps since all was on the disk the first `keep` that
    /// make, move or remove a name survive (all, if there are fewer), and what was done before the next one; a file that a
    /// step wrote and that wasn't synced until then has the byte `fill` throughout. What the host has done is told as before.
    pub fn lose(self, keep: usize, fill: u8) -> Result<MemoryHost, (MemoryHost, AllocError)>
        ensures ok { IfOk result (λ host. Loses keep fill self host) }
        ensures err { IfErr result (λ back. back.0 ≡ self) }
    {
        let mut host = self;
        match host.history.lose(keep, fill) {
            Ok(()) => Ok(host.restart()),
            Err(error) => Err((host, error)),
        }
    }

    /// How many steps since all was on the disk made, moved or removed a name: those that a loss may undo.
    pub fn names_since_barrier(&self) -> usize
        ensures { result ≡ naming_steps (since_disk self.now.history) }
    {
        self.history.names_since()
    }

    /// Whether a fault that was planned hasn't come yet.
    pub fn awaits_fault(&self) -> bool
        ensures { result ≡ awaits (faults_planned self.now) }
    {
        self.faults.step.is_some() || self.faults.read.is_some()
    }

    /// Whether a step is still to be declined.
    pub fn awaits_denial(&self) -> bool
        ensures { result ≡ awaits_denial (denials_planned self.now) }
    {
        self.denials.front().is_some()
    }

    /// How many steps were declined so far.
    pub fn denials(&self) -> usize
        ensures { result ≡ denials (memory_state self.now) }
    {
        count_denied(self.history.events())
    }

    /// Whether the device has stopped.
    pub fn is_stopped(&self) -> bool
        ensures { result ≡ is_stopped self.now }
    {
        self.faults.is_stopped
    }

    /// All that was done so far.
    pub fn events(&self) -> &[Done]
        ensures { map event_of result.now ≡ (memory_state self.now).events }
    {
        self.history.events()
    }

    // Does of a step what a fault leaves of it, and tells the fault.
    fn break_step(&mut self, step: DeviceStep, effect: Effect) -> Result<(), AllocError>
        requires can { CanDo (step_of step) (memory_state self.old).world }
        requires settled { KeepsSettled (memory_state self.old).events (step_of step) }
        ensures ok { OnOk result (Breaks (part_left effect (step_of step)) self.old.history
            self.new.history) }
        ensures err { OnErr result (IsAsBefore self.old.history self.new.history) }
        ensures plans { KeepsPlans self.old self.new }
    {
        let Some(part) = part_of(self.alloc, step, effect)? else {
            self.history.make_room_for_fault()?;
            self.history.tell_fault();
            return Ok(());
        };
        self.history.do_step(part)?;
        self.history.tell_fault();
        Ok(())
    }

    // What comes of the next step.
    fn fate(&self) -> Fate
        ensures { result ≡ fate_at (faults_planned self.now) (denials_planned self.now) }
    {
        match self.faults.fate() {
            Fate::Made if is_denied(&self.denials) => Fate::Declined,
            fate => fate,
        }
    }

    // One step of those that the plans count is over.
    fn pass_step(&mut self)
        ensures passed { IsBehindStep self.old self.new }
        ensures history { self.new.history ≡ self.old.history }
    {
        self.faults = self.faults.behind_step();
        pass_step(&mut self.denials);
    }

    // Makes a step, or fails at it or declines it as planned.
    fn make_step(&mut self, step: DeviceStep) -> Result<(), HostFault>
        requires can { CanDo (step_of step) (memory_state self.old).world }
        requires settled { KeepsSettled (memory_state self.old).events (step_of step) }
        ensures { MakesStep (step_of step) self.old self.new result }
    {
        match self.fate() {
            Fate::Made => {
                self.history.do_step(step)?;
                self.pass_step();
                Ok(())
            }
            Fate::Failed(effect) => {
                self.break_step(step, effect)?;
                self.pass_step();
                Err(HostFault::Device)
            }
            Fate::Declined => {
                self.history.make_room_for_fault()?;
                self.history.tell_denial(place_of(self.alloc, step));
                self.pass_step();
                Err(HostFault::Declined)
            }
        }
    }

    // Lets a read be answered, or fail as planned.
    fn look(&mut self) -> Result<(), HostFault>
        ensures { Looks self.old self.new result }
    {
        if self.faults.read_fails() {
            self.history.make_room_for_fault()?;
            self.history.tell_fault();
            self.faults = self.faults.behind_read();
            return Err(HostFault::Device);
        }
        self.faults = self.faults.behind_read();
        Ok(())
    }

    // Ends a call as the first plan says, which is then used up.
    fn end_call(&mut self, call: &Call, keep: &Keep<'_>) -> Result<Outcome, HostFault>
        requires { is_stopped self.old ≡ false }
        ensures { CallsAsPlanned (is_kept keep.now) call.now self.old self.new result }
    {
        let next = next_of(&self.pending);
        let ending = next.ending;
        self.history.run(call, keep, ending, next.change)?;
        self.pending.pop_front();
        match ending {
            Ending::Ended(outcome) => Ok(outcome),
            Ending::CutOff => {
                self.history.tell_fault();
                Err(HostFault::Device)
            }
        }
    }
}

impl Host for MemoryHost {
    ghost use Rattle.std.specs.Prelude.{◌≡◌, ◌≤◌, None, true, false, IfErr, IfOk, OnOk};
    ghost use Rattle.std.specs.Str.{bytes_eq};
    ghost use Rattle.host_core.specs.Paths.{Path};
    ghost use Rattle.host_core.specs.declared.fault.HostFault.TheVariants.{NoMemory};
    ghost use Rattle.host_core.specs.World.{Write, Move, Take, MakeDir, RemoveDir, HardLink, MakeLink, Sync, Barrier, SyncAll, SyncRoot, Lower, kind_of, HasParent, IsBare, IsDirectory, IsFile, IsLoose, is_kept};
    ghost use Rattle.host_core.specs.Host.{Runs, Counts, Falls};
    ghost use Rattle.host_core.specs.Tree.{IsListing};
    ghost use Rattle.host_core.specs.Unsynced.{is_temporary, unsynced};
    ghost use Rattle.host_memory.specs.Memory.{memory_state, memory_tree, memory_settled, CallsAsPlanned, Looks, MakesStep};

    ghost state = { memory_state };

    ghost tree = { memory_tree };

    ghost settled = { memory_settled };

    fn node(&mut self, path: &RootPath) -> Result<Option<Node>, HostFault>
        ensures found { IfOk result (λ node. node ≡ (memory_state self.old).world path.now) }
        ensures looks { Looks self.old self.new result }
    {
        let node = self.history.files().copy_at(path)?;
        self.look()?;
        Ok(node)
    }

    /// All files are in memory. No fault is due for it.
    fn same(&mut self, one: &Content, other: &Content) -> Result<bool, HostFault>
        ensures same { IfOk result (λ same. same ≡ bytes_eq one.now other.now) }
        ensures err { IfErr result (λ fault. fault ≡ NoMemory) }
        ensures unchanged { self.new ≡ self.old }
    {
        Ok(one.held()? == other.held()?)
    }

    fn kind(&mut self, path: &RootPath) -> Result<Option<Kind>, HostFault>
        ensures found { IfOk result (λ kind. kind ≡ kind_of ((memory_state self.old).world
            path.now)) }
        ensures looks { Looks self.old self.new result }
    {
        let kind = self.history.files().kind_at(path);
        self.look()?;
        Ok(kind)
    }

    fn list(&mut self, path: &RootPath) -> Result<Listing, HostFault>
        ensures listed { IfOk result (λ listing. IsListing (memory_state self.old).world path.now
            listing.names listing.bad) }
        ensures looks { Looks self.old self.new result }
    {
        let names = self.history.files().names_in(self.alloc, path)?;
        self.look()?;
        Ok(Listing { names, bad: false })
    }

    fn write_new(&mut self, path: &RootPath, node: &Node) -> Result<(), HostFault>
        requires file { IsFile node.now }
        requires temporary { is_temporary path.now ≡ true }
        requires absent { (memory_state self.old).world path.now ≡ None }
        requires parent { HasParent (memory_state self.old).world path.now }
        ensures { MakesStep (Write path.now node.now) self.old self.new result }
    {
        self.make_step(DeviceStep::Write(path.copy()?, node.copy()?))
    }

    fn make_dir(&mut self, path: &RootPath, access: Access) -> Result<(), HostFault>
        requires absent { (memory_state self.old).world path.now ≡ None }
        requires parent { HasParent (memory_state self.old).world path.now }
        ensures { MakesStep (MakeDir path.now access) self.old self.new result }
    {
        self.make_step(DeviceStep::MakeDir(path.copy()?, access))
    }

    fn make_link(&mut self, path: &RootPath, target: &Text) -> Result<(), HostFault>
        requires absent { (memory_state self.old).world path.now ≡ None }
        requires parent { HasParent (memory_state self.old).world path.now }
        ensures makes { MakesStep (MakeLink path.now target.now) self.old self.new result }
        ensures synced { OnOk result (unsynced (memory_state self.new).events path.now ≡ false) }
    {
        self.make_step(DeviceStep::MakeLink(path.copy()?, target.copy()?))
    }

    fn link(&mut self, from: &RootPath, to: &RootPath) -> Result<(), HostFault>
        requires there { IsLoose ((memory_state self.old).world from.now) }
        requires synced { unsynced (memory_state self.old).events from.now ≡ false }
        requires absent { (memory_state self.old).world to.now ≡ None }
        requires parent { HasParent (memory_state self.old).world to.now }
        ensures { MakesStep (HardLink from.now to.now) self.old self.new result }
    {
        self.make_step(DeviceStep::HardLink(from.copy()?, to.copy()?))
    }

    fn sync(&mut self, path: &RootPath) -> Result<(), HostFault>
        requires { IsLoose ((memory_state self.old).world path.now) }
        ensures makes { MakesStep (Sync path.now) self.old self.new result }
        ensures synced { OnOk result (unsynced (memory_state self.new).events path.now ≡ false) }
    {
        self.make_step(DeviceStep::Sync(path.copy()?))
    }

    fn barrier(&mut self) -> Result<(), HostFault>
        ensures { MakesStep Barrier self.old self.new result }
    {
        self.make_step(DeviceStep::Barrier)
    }

    fn sync_written(&mut self) -> Result<(), HostFault>
        ensures makes { MakesStep SyncAll self.old self.new result }
        ensures synced { OnOk result ((q : Path) → unsynced (memory_state self.new).events q ≡ false) }
    {
        self.make_step(DeviceStep::SyncAll)
    }

    fn sync_root(&mut self) -> Result<(), HostFault>
        ensures { MakesStep SyncRoot self.old self.new result }
    {
        self.make_step(DeviceStep::SyncRoot)
    }

    fn rename(&mut self, from: &RootPath, to: &RootPath) -> Result<(), HostFault>
        requires synced { unsynced (memory_state self.old).events from.now ≡ false }
        requires there { IsLoose ((memory_state self.old).world from.now) }
        requires over { IsDirectory ((memory_state self.old).world to.now) → ⊥ }
        requires parent { HasParent (memory_state self.old).world to.now }
        ensures { MakesStep (Move from.now to.now) self.old self.new result }
    {
        self.make_step(DeviceStep::Move(from.copy()?, to.copy()?))
    }

    fn lower(&mut self, path: &RootPath) -> Result<(), HostFault>
        requires { IsLoose ((memory_state self.old).world path.now) }
        ensures { MakesStep (Lower path.now) self.old self.new result }
    {
        self.make_step(DeviceStep::Lower(path.copy()?))
    }

    fn remove(&mut self, path: &RootPath) -> Result<(), HostFault>
        requires { IsLoose ((memory_state self.old).world path.now) }
        ensures { MakesStep (Take path.now) self.old self.new result }
    {
        self.make_step(DeviceStep::Take(path.copy()?))
    }

    fn remove_dir(&mut self, path: &RootPath) -> Result<(), HostFault>
        requires there { IsDirectory ((memory_state self.old).world path.now) }
        requires bare { IsBare (memory_state self.old).world path.now }
        ensures { MakesStep (RemoveDir path.now) self.old self.new result }
    {
        self.make_step(DeviceStep::RemoveDir(path.copy()?))
    }

    /// The call ends as the first plan says, which is then used up.
    fn run(&mut self, call: &Call, keep: &Keep<'_>) -> Result<Outcome, HostFault>
        ensures runs { Runs (is_kept keep.now) call.now (memory_state self.old)
            (memory_state self.new) result }
        ensures honest { Falls (memory_state self.old) (memory_state self.new) }
        ensures counts { Counts (memory_state self.old) (memory_state self.new) result }
        ensures planned { CallsAsPlanned (is_kept keep.now) call.now self.old self.new result }
    {
        if self.faults.is_stopped {
            self.history.make_room_for_fault()?;
            self.history.tell_fault();
            return Err(HostFault::Device);
        }
        self.end_call(call, keep)
    }
}
