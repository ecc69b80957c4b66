// Which files a loss of power may spoil, and what it makes of them.
ghost use Rattle.std.specs.Prelude.{◌≡◌, Bool, true, false, Some, ◌&&◌, map, IfOk, OnOk};
ghost use Rattle.std.specs.BTreeMap.{get_by_text};
ghost use Rattle.std.specs.Option.{option_copied};
ghost use Rattle.host_core.specs.Paths.{Path};
ghost use Rattle.host_core.specs.World.{put};
ghost use Rattle.host_core.specs.Unsynced.{marked, unsynced, unsynced_after, unsynced_step};
ghost use Rattle.host_core.specs.declared.node.Node.{Node};
ghost use Rattle.host_memory.specs.Doings.{event_of, step_of};
ghost use Rattle.host_memory.specs.Losing.{filled, left_of};
ghost use Rattle.host_memory.specs.Traces.{event_target, is_target, target_of, told_by};

use crate::done::{DeviceStep, Done};
use crate::files::Files;
use host_core::{Content, Node, RootPath};
use std::alloc::{AllocError, Global};

// Whether an unsynced file stands at a path behind an event: so, or as at another path before it.
#[derive(Clone, Copy)]
pub(crate) enum Trace<'a> {
    Known(bool),
    From(&'a RootPath),
}

fn marked_at<'a>(place: &RootPath, known: bool, path: &'a RootPath) -> Trace<'a>
    ensures { (u : Path → Bool) → told_by result u ≡ marked u place.now known path.now }
{
    if place.is(path) {
        return Trace::Known(known);
    }
    Trace::From(path)
}

fn linked_at<'a>(from: &'a RootPath, to: &RootPath, path: &'a RootPath) -> Trace<'a>
    ensures { (u : Path → Bool) → told_by result u ≡ marked u to.now (u from.now) path.now }
{
    if to.is(path) {
        return Trace::From(from);
    }
    Trace::From(path)
}

fn moved_at<'a>(from: &'a RootPath, to: &RootPath, path: &'a RootPath) -> Trace<'a>
    ensures { (u : Path → Bool) → told_by result u ≡ marked (marked u from.now false) to.now
        (u from.now) path.now }
{
    if to.is(path) {
        return Trace::From(from);
    }
    marked_at(from, false, path)
}

fn trace_step<'a>(step: &'a DeviceStep, path: &'a RootPath) -> Trace<'a>
    ensures { (u : Path → Bool) → told_by result u ≡ unsynced_step (step_of step.now) u path.now }
{
    match step {
        DeviceStep::Write(written, _) => marked_at(written, true, path),
        DeviceStep::Move(from, to) => moved_at(from, to, path),
        DeviceStep::HardLink(from, to) => linked_at(from, to, path),
        DeviceStep::Take(gone) => marked_at(gone, false, path),
        DeviceStep::MakeDir(made, _) => marked_at(made, false, path),
        DeviceStep::MakeLink(made, _) => marked_at(made, false, path),
        DeviceStep::Sync(synced) => marked_at(synced, false, path),
        DeviceStep::SyncAll => Trace::Known(false),
        DeviceStep::RemoveDir(_)
        | DeviceStep::Barrier
        | DeviceStep::SyncRoot
        | DeviceStep::Lower(_) => Trace::From(path),
    }
}

fn trace_event<'a>(done: &'a Done, path: &'a RootPath) -> Trace<'a>
    ensures { (u : Path → Bool) → told_by result u ≡ unsynced_after (event_of done.now) u path.now }
{
    match done {
        Done::Did(step) => trace_step(step, path),
        Done::Finished(_) | Done::Cut(_, _) | Done::Failed | Done::Denied(_) => Trace::From(path),
    }
}

// Whether at a path a file stands that one of these events wrote and none synced since.
fn is_unsynced(events: &[Done], path: &RootPath) -> bool
    ensures { result ≡ unsynced (map event_of events.now) path.now }
{
    let Some((last, before)) = events.split_last() else {
        return false;
    };
    match trace_event(last, path) {
        Trace::Known(unsynced) => unsynced,
        Trace::From(path) => is_unsynced(before, path),
    }
}

// Where a step puts a file.
fn target_of(step: &DeviceStep) -> Option<&RootPath>
    ensures { option_copied result ≡ target_of (step_of step.now) }
{
    match step {
        DeviceStep::Write(path, _) => Some(path),
        DeviceStep::Move(_, to) | DeviceStep::HardLink(_, to) => Some(to),
        _ => None,
    }
}

fn event_target(done: &Done) -> Option<&RootPath>
    ensures { option_copied result ≡ event_target (event_of done.now) }
{
    match done {
        Done::Did(step) => target_of(step),
        Done::Finished(_) | Done::Cut(_, _) | Done::Failed | Done::Denied(_) => None,
    }
}

fn fill_node(alloc: Global, node: &Node, fill: u8) -> Result<Node, AllocError>
    ensures { IfOk result (λ full. Some full ≡ filled fill (Some node.now)) }
{
    match node {
        Node::File { bytes, access } => {
            let bytes = vec![in alloc; fill; bytes.held()?.len()]?;
            Ok(Node::File {
                bytes: Content::new(bytes),
                access: *access,
            })
        }
        Node::Dir { .. } | Node::Link { .. } => node.copy(),
    }
}

// A file at the path gets one byte throughout.
fn fill_at(alloc: Global, files: &mut Files, path: &RootPath, fill: u8) -> Result<(), AllocError>
    ensures { OnOk result (get_by_text files.new.nodes ≡ put (get_by_text files.old.nodes) path.now
        (filled fill (get_by_text files.old.nodes path.now))) }
{
    let Some(node) = files.get(path.as_str()) else {
        return Ok(());
    };
    let full = fill_node(alloc, node, fill)?;
    path.law();
    files.put(alloc, path.as_str(), full)
}

// Fills the file that one of the events put somewhere, where it is unsynced.
fn fill_target(
    alloc: Global,
    files: &mut Files,
    events: &[Done],
    done: &Done,
    fill: u8,
) -> Result<(), AllocError>
    ensures { OnOk result ((q : Path) → get_by_text files.new.nodes q ≡ left_of fill
        (is_target (event_of done.now) q && unsynced (map event_of events.now) q)
        (get_by_text files.old.nodes q)) }
{
    let Some(path) = event_target(done) else {
        return Ok(());
    };
    if !is_unsynced(events, path) {
        return Ok(());
    }
    fill_at(alloc, files, path, fill)
}

// Fills the files that the events wrote and didn't sync.
pub(crate) fn fill_unsynced(
    alloc: Global,
    files: &mut Files,
    events: &[Done],
    fill: u8,
) -> Result<(), AllocError>
    ensures { OnOk result ((q : Path) → get_by_text files.new.nodes q ≡ left_of fill
        (unsynced (map event_of events.now) q) (get_by_text files.old.nodes q)) }
{
    for done in events {
        fill_target(alloc, files, events, done, fill)?;
    }
    Ok(())
}
