// Paths that an overlay has changed, looked at one after another.
ghost use Rattle.std.specs.Prelude.{◌≡◌, ◌<◌, ◌≤◌, ◌+◌, IfOk, IsErrOf, IsTrue, List, Some, map};
ghost use Rattle.std.specs.List.{AllByRecursion};
ghost use Rattle.host_core.specs.Host.{Reads, faults};
ghost use Rattle.host_core.specs.Paths.{Path};
ghost use Rattle.host_core.specs.declared.fault.HostFault.TheVariants.{Device};
ghost use Rattle.administration.specs.Places.{home_path, is_within};
ghost use Rattle.host_overlay.specs.Overlays.{LooksThrough, begun_state, overlay_state};
ghost use Rattle.host_overlay.specs.declared.changed_path.ChangedPath.{ChangedPath as AChangedPath};
ghost use Rattle.foretold_changes.specs.Changes.{IsFound, change_at, change_of, unread_paths};
ghost use Rattle.foretold_changes.specs.Told.{IsLookedOver, IsReadFrom};
ghost use Rattle.foretold_changes.specs.declared.change.Change.TheVariants.{Unread};
ghost use Rattle.foretold_changes.specs.declared.looking.LookedPath.{LookedPath as ALookedPath};

use crate::change::{Change, change_of};
use crate::reading::read_indexed;
use administration::AdministrationFault;
use host_core::{Host, HostFault, RootPath};
use host_overlay::{ChangedPath, Overlay};
use inquiries::SeenAll;
use std::alloc::Global;

/// A path, and how what would stand there differs.
#[derive(Drop)]
pub struct LookedPath {
    pub path: RootPath,
    pub found: Option<Change>,
}

/// What an overlay showed: the paths that it has changed, and the administration that would stand.
#[derive(Drop)]
pub struct LookedOver {
    pub looked: Vec<LookedPath>,
    pub to_come: SeenAll,
}

fn is_within_home(path: &str) -> bool
    ensures { result ≡ is_within home_path path.now }
{
    path == "/var/lib/dpkg" || path.as_bytes().starts_with(b"/var/lib/dpkg/")
}

// What stood at a path, beside what stands there.
fn compare<H: Host>(host: &mut Overlay<H>, path: &RootPath) -> Result<Option<Change>, HostFault>
    ensures found { IfOk result (λ found. IsTrue (overlay_state host.new).honest → found ≡ change_of
        ((begun_state host.old).world path.now) ((overlay_state host.old).world path.now)) }
    ensures known { IfOk result (λ found. found ≡ Some Unread → ⊥) }
    ensures cause { IsErrOf result Device → faults (overlay_state host.old)
        < faults (overlay_state host.new) }
    ensures reads { Reads (overlay_state host.old) (overlay_state host.new) }
    ensures through { LooksThrough host.old host.new }
{
    let before = host.node_below(path)?;
    let now = host.node(path)?;
    change_of(host, &before, &now)
}

// That the device failed is told too.
fn find_change<H: Host>(host: &mut Overlay<H>, path: &RootPath) -> Result<Option<Change>, HostFault>
    ensures found { IfOk result (λ found. IsTrue (overlay_state host.new).honest
        → (found ≡ Some Unread → ⊥) → found ≡ change_of
        ((begun_state host.old).world path.now) ((overlay_state host.old).world path.now)) }
    ensures cause { IfOk result (λ found. found ≡ Some Unread → faults (overlay_state host.old)
        < faults (overlay_state host.new)) }
    ensures reads { Reads (overlay_state host.old) (overlay_state host.new) }
    ensures through { LooksThrough host.old host.new }
{
    match compare(host, path) {
        Err(HostFault::Device) => Ok(Some(Change::Unread)),
        told => told,
    }
}

// A path of the administration isn't looked at.
fn look_at<H: Host>(host: &mut Overlay<H>, path: &RootPath) -> Result<LookedPath, HostFault>
    ensures path { IfOk result (λ looked. looked.path ≡ path.now) }
    ensures found { IfOk result (λ looked. IsTrue (overlay_state host.new).honest
        → IsFound (begun_state host.old).world (overlay_state host.old).world looked) }
    ensures cause { IfOk result (λ looked. looked.found ≡ Some Unread
        → faults (overlay_state host.old) < faults (overlay_state host.new)) }
    ensures reads { Reads (overlay_state host.old) (overlay_state host.new) }
    ensures through { LooksThrough host.old host.new }
{
    let copy = path.copy()?;
    if is_within_home(path.as_str()) {
        return Ok(LookedPath {
            path: copy,
            found: None,
        });
    }
    let found = find_change(host, path)?;
    Ok(LookedPath { path: copy, found })
}

fn look_at_each<H: Host>(
    alloc: Global,
    host: &mut Overlay<H>,
    changed: &[ChangedPath],
) -> Result<Vec<LookedPath>, HostFault>
    ensures paths { IfOk result (λ looked. map (λ (x : ALookedPath). x.path) looked.items
        ≡ map (λ (x : AChangedPath). x.path) changed.now) }
    ensures found { IfOk result (λ looked. IsTrue (overlay_state host.new).honest → AllByRecursion
        (IsFound (begun_state host.old).world (overlay_state host.old).world) looked.items) }
    ensures few { IfOk result (λ looked. unread_paths looked.items
        + faults (overlay_state host.old) ≤ faults (overlay_state host.new)) }
    ensures reads { Reads (overlay_state host.old) (overlay_state host.new) }
    ensures through { LooksThrough host.old host.new }
{
    let mut looked = Vec::new(alloc);
    for change in changed {
        let found = look_at(host, &change.path)?;
        looked.push(found)?;
    }
    Ok(looked)
}

// What stands over the host below, once the administration was read there.
fn look_behind<H: Host>(
    alloc: Global,
    host: &mut Overlay<H>,
    now: SeenAll,
) -> Result<LookedOver, HostFault>
    requires { IsTrue (overlay_state host.old).honest
        → IsReadFrom (overlay_state host.old).world now }
    ensures told { IfOk result (λ over. IsTrue (overlay_state host.new).honest
        → IsLookedOver (begun_state host.old).world (overlay_state host.old).world over) }
    ensures few { IfOk result (λ over. unread_paths over.looked.items
        + faults (overlay_state host.old) ≤ faults (overlay_state host.new)) }
    ensures reads { Reads (overlay_state host.old) (overlay_state host.new) }
    ensures through { LooksThrough host.old host.new }
{
    let changed = host.changes()?;
    let looked = look_at_each(alloc, host, changed.as_slice())?;
    Ok(LookedOver {
        looked,
        to_come: now,
    })
}

/// Looks at each path at which something else may stand than on the host below, and reads the administration that would stand.
pub fn look_over<H: Host>(
    alloc: Global,
    host: &mut Overlay<H>,
) -> Result<LookedOver, AdministrationFault>
    ensures told { IfOk result (λ over. IsTrue (overlay_state host.new).honest
        → IsLookedOver (begun_state host.new).world (overlay_state host.old).world over) }
    ensures few { IfOk result (λ over. unread_paths over.looked.items
        + faults (overlay_state host.old) ≤ faults (overlay_state host.new)) }
    ensures reads { Reads (overlay_state host.old) (overlay_state host.new) }
{
    let now = read_indexed(alloc, host)?;
    match look_behind(alloc, host, now) {
        Ok(over) => Ok(over),
        Err(fault) => Err(AdministrationFault::from(fault)),
    }
}
