// A host over another one.
ghost use Rattle.std.specs.Prelude.{◌≡◌, IsTrue, map};
ghost use Rattle.std.specs.BTreeMap.{get_by_text};
ghost use Rattle.host_core.specs.Events.{follow_all};
ghost use Rattle.host_core.specs.Host.{Falls};
ghost use Rattle.host_core.specs.Unsynced.{IsSettled};
ghost use Rattle.host_overlay.specs.Doings.{event_of};
ghost use Rattle.host_overlay.specs.Failing.{GoAsForetold, left_in};
ghost use Rattle.host_overlay.specs.Looked.{looked_at};
ghost use Rattle.host_overlay.specs.Standings.{AreThere};
ghost use Rattle.host_overlay.specs.Trees.{IsTreeByTest};

use crate::changed_path::ChangedPath;
use crate::done::{DeviceStep, Done};
use crate::failing::{AssumedFailure, Plan, end_call};
use crate::layer::Layer;
use crate::looking::{kind_over, node_over};
use crate::stored::Stored;
use host_core::{
    Access, Call, Content, Host, HostFault, Keep, Kind, Listing, Node, Outcome, RootPath,
};
use std::alloc::{AllocError, Global};
use std::snapshot::Snapshot;
use texts::Text;

/// A host over another one, of which it changes nothing: its steps are kept in memory, and its script calls start no script. A
/// fault of the device below, as it is looked at, is its own; else only memory can be wanting.
#[derive(Drop)]
pub struct Overlay<H: Host> {
    alloc: Global,
    below: H,
    begun: Snapshot<H>,
    layer: Layer,
    failing: Vec<AssumedFailure>,
    ghost world: { (H.state below).world ≡ (H.state begun.value).world },
    ghost failures: { (H.state below).events ≡ looked_at (H.state begun.value) (H.state below) },
    ghost honest: { Falls (H.state begun.value) (H.state below) },
    ghost tree: { IsTrue (H.state below).honest → IsTreeByTest (follow_all (map event_of layer.events.items) (H.state begun.value).world) },
    ghost settled: { IsTrue (H.state below).honest → IsSettled (map event_of layer.events.items) },
    ghost there: { IsTrue (H.state below).honest → AreThere (get_by_text layer.changes.map) (H.state begun.value).world },
    ghost went: { GoAsForetold (map event_of layer.events.items) },
    ghost rest: { failing.items ≡ left_in (map event_of layer.events.items) },
}

impl<H: Host> Overlay<H> {
    ghost use Rattle.std.specs.Prelude.{[], IfOk};
    ghost use Rattle.host_core.specs.Host.{Needs, Reads, Silent};
    ghost use Rattle.host_core.specs.Unsynced.{KeepsSettled};
    ghost use Rattle.host_overlay.specs.Able.{CanDo};
    ghost use Rattle.host_overlay.specs.Doings.{step_of};
    ghost use Rattle.host_overlay.specs.Failing.{foretold};
    ghost use Rattle.host_overlay.specs.Overlays.{assumed, begun_state, below_state, overlay_state, LooksOver, MakesStep, TellsChanges};

    /// Over this host.
    pub fn over(alloc: Global, below: H) -> Overlay<H>
        ensures state { overlay_state result ≡ record (H.state below) { events = [] } }
        ensures below { below_state result ≡ H.state below }
        ensures begun { begun_state result ≡ H.state below }
    {
        let begun = Snapshot::of(&below);
        Overlay {
            alloc,
            below,
            begun,
            layer: Layer::new(alloc),
            failing: Vec::new(alloc),
        }
    }

    /// Over this host, with the calls assumed to fail that are foretold.
    pub fn rehearsing(alloc: Global, below: H, plan: Plan) -> Overlay<H>
        ensures state { overlay_state result ≡ record (H.state below) {
          events = foretold plan.failing.items;
        } }
        ensures below { below_state result ≡ H.state below }
        ensures begun { begun_state result ≡ H.state below }
    {
        let begun = Snapshot::of(&below);
        let Plan { failing, told } = plan;
        Overlay {
            alloc,
            below,
            begun,
            layer: Layer::behind(alloc, told),
            failing,
        }
    }

    /// The host below. From when the overlay was put over it, it was only looked at.
    pub fn into_below(self) -> H
        ensures below { H.state result ≡ below_state self }
        ensures untouched { Reads (begun_state self) (H.state result) }
        ensures silent { Silent (begun_state self) (H.state result) }
        ensures foretold { GoAsForetold (overlay_state self).events }
    {
        self.below
    }

    /// All that was done so far.
    pub fn events(&self) -> &[Done]
        ensures { map event_of result.now ≡ (overlay_state self.now).events }
    {
        self.layer.events.as_slice()
    }

    /// The paths at which something else may stand than below, in the order of their bytes.
    pub fn changes(&self) -> Result<Vec<ChangedPath>, AllocError>
        ensures { IfOk result (λ told. TellsChanges self.now told.items) }
    {
        self.layer.changes.told()
    }

    /// What stands at a path of the host below, whatever was done over it.
    pub fn node_below(&mut self, path: &RootPath) -> Result<Option<Node>, HostFault>
        ensures { LooksOver result (λ node w. node ≡ (begun_state self.old).world path.now)
            self.old self.new }
    {
        self.layer.make_room()?;
        let told = self.below.node(path);
        self.layer.tell(&told);
        told
    }

    /// The calls that were assumed to fail and weren't made.
    pub fn unmet(&self) -> &[AssumedFailure]
        ensures { result.now ≡ assumed self.now }
    {
        self.failing.as_slice()
    }

    fn make_step(&mut self, step: DeviceStep) -> Result<(), HostFault>
        requires can { Needs (overlay_state self.old) (CanDo (step_of step)) }
        requires settled { IsTrue (overlay_state self.old).honest
            → KeepsSettled (overlay_state self.old).events (step_of step) }
        ensures { MakesStep (step_of step) self.old self.new result }
    {
        self.layer.do_step(step)?;
        Ok(())
    }
}

impl<H: Host> Host for Overlay<H> {
    ghost use Rattle.std.specs.Prelude.{◌≡◌, None, true, false, OnOk};
    ghost use Rattle.std.specs.Str.{bytes_eq};
    ghost use Rattle.host_core.specs.Paths.{Path};
    ghost use Rattle.host_core.specs.World.{Write, Move, Take, MakeDir, RemoveDir, HardLink, MakeLink, Sync, Barrier, SyncAll, SyncRoot, Lower, kind_of, HasParent, IsBare, IsDirectory, IsFile, IsLoose, is_kept};
    ghost use Rattle.host_core.specs.Host.{Counts, Falls, Needs, Runs};
    ghost use Rattle.host_core.specs.Tree.{IsListing};
    ghost use Rattle.host_core.specs.Unsynced.{is_temporary, unsynced};
    ghost use Rattle.host_overlay.specs.Overlays.{overlay_state, overlay_tree, overlay_settled, CallsAsAssumed, IsUntouched, LooksOver, MakesStep};

    ghost state = { overlay_state };

    ghost tree = { overlay_tree };

    ghost settled = { overlay_settled };

    fn node(&mut self, path: &RootPath) -> Result<Option<Node>, HostFault>
        ensures { LooksOver result (λ node w. node ≡ w path.now) self.old self.new }
    {
        self.layer.make_room()?;
        let told = node_over(&mut self.below, &self.layer.changes, path);
        self.layer.tell(&told);
        told
    }

    fn same(&mut self, one: &Content, other: &Content) -> Result<bool, HostFault>
        ensures { LooksOver result (λ same w. same ≡ bytes_eq one.now other.now) self.old self.new }
    {
        self.layer.make_room()?;
        let told = self.below.same(one, other);
        self.layer.tell(&told);
        told
    }

    fn kind(&mut self, path: &RootPath) -> Result<Option<Kind>, HostFault>
        ensures { LooksOver result (λ kind w. kind ≡ kind_of (w path.now)) self.old self.new }
    {
        self.layer.make_room()?;
        let told = kind_over(&mut self.below, &self.layer.changes, path);
        self.layer.tell(&told);
        told
    }

    fn list(&mut self, path: &RootPath) -> Result<Listing, HostFault>
        ensures { LooksOver result (λ listing w. IsListing w path.now listing.names listing.bad)
            self.old self.new }
    {
        self.layer.make_room()?;
        let told = self.below.list(path);
        self.layer.tell(&told);
        match told {
            Ok(listing) => Ok(self.layer.changes.listing(path, &listing)?),
            Err(fault) => Err(fault),
        }
    }

    fn write_new(&mut self, path: &RootPath, node: &Node) -> Result<(), HostFault>
        requires file { IsFile node.now }
        requires temporary { is_temporary path.now ≡ true }
        requires absent { Needs (overlay_state self.old) (λ w. w path.now ≡ None) }
        requires parent { Needs (overlay_state self.old) (λ w. HasParent w path.now) }
        ensures { MakesStep (Write path.now node.now) self.old self.new result }
    {
        let stored = Stored::new(self.alloc, node.copy()?)?;
        self.make_step(DeviceStep::Write(path.copy()?, stored))
    }

    fn make_dir(&mut self, path: &RootPath, access: Access) -> Result<(), HostFault>
        requires absent { Needs (overlay_state self.old) (λ w. w path.now ≡ None) }
        requires parent { Needs (overlay_state self.old) (λ w. HasParent w path.now) }
        ensures { MakesStep (MakeDir path.now access) self.old self.new result }
    {
        self.make_step(DeviceStep::MakeDir(path.copy()?, access))
    }

    fn make_link(&mut self, path: &RootPath, target: &Text) -> Result<(), HostFault>
        requires absent { Needs (overlay_state self.old) (λ w. w path.now ≡ None) }
        requires parent { Needs (overlay_state self.old) (λ w. HasParent w path.now) }
        ensures makes { MakesStep (MakeLink path.now target.now) self.old self.new result }
        ensures synced { OnOk result (unsynced (overlay_state self.new).events path.now ≡ false) }
    {
        self.make_step(DeviceStep::MakeLink(path.copy()?, target.copy()?))
    }

    fn link(&mut self, from: &RootPath, to: &RootPath) -> Result<(), HostFault>
        requires there { Needs (overlay_state self.old) (λ w. IsLoose (w from.now)) }
        requires synced { IsTrue (overlay_state self.old).honest
            → unsynced (overlay_state self.old).events from.now ≡ false }
        requires absent { Needs (overlay_state self.old) (λ w. w to.now ≡ None) }
        requires parent { Needs (overlay_state self.old) (λ w. HasParent w to.now) }
        ensures { MakesStep (HardLink from.now to.now) self.old self.new result }
    {
        self.make_step(DeviceStep::HardLink(from.copy()?, to.copy()?))
    }

    fn sync(&mut self, path: &RootPath) -> Result<(), HostFault>
        requires { Needs (overlay_state self.old) (λ w. IsLoose (w path.now)) }
        ensures makes { MakesStep (Sync path.now) self.old self.new result }
        ensures synced { OnOk result (unsynced (overlay_state self.new).events path.now ≡ false) }
    {
        self.make_step(DeviceStep::Sync(path.copy()?))
    }

    fn barrier(&mut self) -> Result<(), HostFault>
        ensures { MakesStep Barrier self.old self.new result }
    {
        self.make_step(DeviceStep::Barrier)
    }

    fn sync_written(&mut self) -> Result<(), HostFault>
        ensures makes { MakesStep SyncAll self.old self.new result }
        ensures synced { OnOk result ((q : Path) → unsynced (overlay_state self.new).events q
            ≡ false) }
    {
        self.make_step(DeviceStep::SyncAll)
    }

    fn sync_root(&mut self) -> Result<(), HostFault>
        ensures { MakesStep SyncRoot self.old self.new result }
    {
        self.make_step(DeviceStep::SyncRoot)
    }

    fn rename(&mut self, from: &RootPath, to: &RootPath) -> Result<(), HostFault>
        requires synced { IsTrue (overlay_state self.old).honest
            → unsynced (overlay_state self.old).events from.now ≡ false }
        requires there { Needs (overlay_state self.old) (λ w. IsLoose (w from.now)) }
        requires over { Needs (overlay_state self.old) (λ w. IsDirectory (w to.now) → ⊥) }
        requires parent { Needs (overlay_state self.old) (λ w. HasParent w to.now) }
        ensures { MakesStep (Move from.now to.now) self.old self.new result }
    {
        self.make_step(DeviceStep::Move(from.copy()?, to.copy()?))
    }

    fn lower(&mut self, path: &RootPath) -> Result<(), HostFault>
        requires { Needs (overlay_state self.old) (λ w. IsLoose (w path.now)) }
        ensures { MakesStep (Lower path.now) self.old self.new result }
    {
        self.make_step(DeviceStep::Lower(path.copy()?))
    }

    fn remove(&mut self, path: &RootPath) -> Result<(), HostFault>
        requires { Needs (overlay_state self.old) (λ w. IsLoose (w path.now)) }
        ensures { MakesStep (Take path.now) self.old self.new result }
    {
        self.make_step(DeviceStep::Take(path.copy()?))
    }

    fn remove_dir(&mut self, path: &RootPath) -> Result<(), HostFault>
        requires there { Needs (overlay_state self.old) (λ w. IsDirectory (w path.now)) }
        requires bare { Needs (overlay_state self.old) (λ w. IsBare w path.now) }
        ensures { MakesStep (RemoveDir path.now) self.old self.new result }
    {
        self.make_step(DeviceStep::RemoveDir(path.copy()?))
    }

    /// No script is started.
    fn run(&mut self, call: &Call, keep: &Keep<'_>) -> Result<Outcome, HostFault>
        ensures runs { Runs (is_kept keep.now) call.now (overlay_state self.old)
            (overlay_state self.new) result }
        ensures honest { Falls (overlay_state self.old) (overlay_state self.new) }
        ensures counts { Counts (overlay_state self.old) (overlay_state self.new) result }
        ensures assumed { CallsAsAssumed call.now self.old self.new result }
        ensures untouched { IsUntouched self.old self.new }
    {
        let _ = keep;
        let told = call.copy()?;
        self.layer.make_room()?;
        let outcome = end_call(&mut self.failing, call);
        self.layer.tell_call(told, outcome);
        Ok(outcome)
    }
}
