// What was done on a root, one thing after another.
ghost use Rattle.std.specs.Prelude.{◌≡◌, ◌≤◌, ◌∷◌, [], map, option_map, IfOk};
ghost use Rattle.host_core.specs.Events.{denials_of};
ghost use Rattle.host_core.specs.World.{place_of};
ghost use Rattle.host_memory.specs.Changes.{change_of};
ghost use Rattle.host_memory.specs.Doings.{cut_short, event_of, how_ended, step_of, part_left};

use crate::change::{Ending, Entry};
use crate::fault_plan::Effect;
use host_core::{Access, Call, Content, Node, Outcome, RootPath};
use std::alloc::{AllocError, Global};
use texts::Text;

/// A call that was made, with what it changed.
#[derive(Drop)]
pub struct Made {
    pub call: Call,
    pub outcome: Outcome,
    pub change: Vec<Entry>,
}

/// A step of the device.
#[derive(Drop)]
pub enum DeviceStep {
    Write(RootPath, Node),
    Move(RootPath, RootPath),
    Take(RootPath),
    MakeDir(RootPath, Access),
    RemoveDir(RootPath),
    HardLink(RootPath, RootPath),
    MakeLink(RootPath, Text),
    Sync(RootPath),
    Barrier,
    SyncAll,
    SyncRoot,
    Lower(RootPath),
}

/// What was done: a step or the part of one that was, a script call that ended, one that a fault cut off, or nothing
/// where the device failed, or where a step at this path was declined.
#[derive(Drop)]
pub enum Done {
    Did(DeviceStep),
    Finished(Made),
    Cut(Call, Vec<Entry>),
    Failed,
    Denied(RootPath),
}

// A call that was made and ended so.
pub(crate) fn done_of(call: Call, ending: Ending, change: Vec<Entry>) -> Done
    ensures { event_of result ≡ how_ended call ending (change_of change.items) }
{
    match ending {
        Ending::Ended(outcome) => Done::Finished(Made {
            call,
            outcome,
            change,
        }),
        Ending::CutOff => Done::Cut(call, change),
    }
}

// The first bytes of a file.
fn front_of(alloc: Global, node: &Node, count: usize) -> Result<Node, AllocError>
    ensures { IfOk result (λ front. front ≡ cut_short count node.now) }
{
    match node {
        Node::File { bytes, access } => {
            let bytes = bytes.held()?;
            let front = bytes.get(..count).unwrap_or(bytes);
            Ok(Node::File {
                bytes: Content::from_slice(alloc, front)?,
                access: *access,
            })
        }
        Node::Dir { .. } | Node::Link { .. } => node.copy(),
    }
}

// What is done of a step at which the device fails.
pub(crate) fn part_of(
    alloc: Global,
    step: DeviceStep,
    effect: Effect,
) -> Result<Option<DeviceStep>, AllocError>
    ensures { IfOk result (λ part. option_map step_of part ≡ part_left effect (step_of step)) }
{
    match (effect, step) {
        (Effect::None, _) => Ok(None),
        (Effect::Whole, step) => Ok(Some(step)),
        (Effect::Prefix(count), DeviceStep::Write(path, node)) => {
            let node = front_of(alloc, &node, count)?;
            Ok(Some(DeviceStep::Write(path, node)))
        }
        (Effect::Prefix(_), _) => Ok(None),
    }
}

// The path that a step is told by where it is declined.
pub(crate) fn place_of(alloc: Global, step: DeviceStep) -> RootPath
    ensures { result ≡ place_of (step_of step) }
{
    match step {
        DeviceStep::Write(path, _) => path,
        DeviceStep::MakeDir(path, _) => path,
        DeviceStep::MakeLink(path, _) => path,
        DeviceStep::Move(_, to) => to,
        DeviceStep::HardLink(_, to) => to,
        DeviceStep::Take(path) => path,
        DeviceStep::RemoveDir(path) => path,
        DeviceStep::Sync(path) => path,
        DeviceStep::Lower(path) => path,
        DeviceStep::Barrier | DeviceStep::SyncAll | DeviceStep::SyncRoot => {
            RootPath::new(String::new(alloc))
        }
    }
}

// One for a step that was declined, else none.
fn denied(done: &Done) -> usize
    ensures count { result ≡ denials_of (event_of done.now ∷ []) }
    ensures one { result ≤ 1 }
{
    match done {
        Done::Denied(_) => 1,
        _ => 0,
    }
}

// How many steps were declined.
pub(crate) fn count_denied(events: &[Done]) -> usize
    ensures { result ≡ denials_of (map event_of events.now) }
{
    let mut count = 0;
    for done in events {
        count += denied(done);
    }
    count
}
