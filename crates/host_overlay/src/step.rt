// What a step changes over a host below.
ghost use Rattle.std.specs.Prelude.{◌≡◌, OnOk, OnErr};
ghost use Rattle.std.specs.BTreeMap.{get_by_text};
ghost use Rattle.host_core.specs.World.{HardLink, Lower, Move};
ghost use Rattle.host_overlay.specs.Doings.{step_of};
ghost use Rattle.host_overlay.specs.Standings.{changed, made, Becomes, Stays};

use crate::changes::Changes;
use crate::done::DeviceStep;
use crate::standing::{Origin, Standing};
use crate::stored::Stored;
use host_core::{Node, RootPath};
use std::alloc::{AllocError, Global};

// A node is made at a path.
fn make(alloc: Global, changes: &mut Changes, path: &RootPath, node: Node) -> Result<(), AllocError>
    ensures ok { OnOk result (get_by_text changes.new.map ≡ changed (get_by_text changes.old.map)
        path.now (made node)) }
    ensures err { OnErr result (get_by_text changes.new.map ≡ get_by_text changes.old.map) }
{
    let stored = Stored::new(alloc, node)?;
    changes.set(path, Standing::new(Origin::Made(stored)))
}

// What stands at one path comes to stand at another, and then not there any more, so that memory is refused before anything
// is changed.
fn move_name(changes: &mut Changes, from: &RootPath, to: &RootPath) -> Result<(), AllocError>
    ensures ok { OnOk result (Becomes (Move from.now to.now) (get_by_text changes.old.map)
        (get_by_text changes.new.map)) }
    ensures err { OnErr result (Stays (Move from.now to.now) (get_by_text changes.old.map)
        (get_by_text changes.new.map)) }
{
    let held = changes.held(from)?;
    let standing = held.copy()?;
    changes.set(from, held)?;
    changes.set(to, standing)?;
    if !from.is(to) {
        changes.put_out(from);
    }
    Ok(())
}

pub(crate) fn link_name(
    changes: &mut Changes,
    from: &RootPath,
    to: &RootPath,
) -> Result<(), AllocError>
    ensures ok { OnOk result (Becomes (HardLink from.now to.now) (get_by_text changes.old.map)
        (get_by_text changes.new.map)) }
    ensures err { OnErr result (get_by_text changes.new.map ≡ get_by_text changes.old.map) }
{
    let standing = changes.held(from)?;
    changes.set(to, standing)
}

fn lower(changes: &mut Changes, path: &RootPath) -> Result<(), AllocError>
    ensures ok { OnOk result (Becomes (Lower path.now) (get_by_text changes.old.map)
        (get_by_text changes.new.map)) }
    ensures err { OnErr result (get_by_text changes.new.map ≡ get_by_text changes.old.map) }
{
    let standing = changes.held(path)?;
    changes.set(path, standing.lowered())
}

// Makes a step. Where memory is refused nothing is done.
pub(crate) fn perform(
    alloc: Global,
    changes: &mut Changes,
    step: &DeviceStep,
) -> Result<(), AllocError>
    ensures ok { OnOk result (Becomes (step_of step.now) (get_by_text changes.old.map)
        (get_by_text changes.new.map)) }
    ensures err { OnErr result (Stays (step_of step.now) (get_by_text changes.old.map)
        (get_by_text changes.new.map)) }
{
    match step {
        DeviceStep::Write(path, node) => {
            changes.set(path, Standing::new(Origin::Made(node.share()?)))
        }
        DeviceStep::Move(from, to) => move_name(changes, from, to),
        DeviceStep::Take(path) => changes.set(path, Standing::new(Origin::Nothing)),
        DeviceStep::MakeDir(path, access) => {
            make(alloc, changes, path, Node::Dir { access: *access })
        }
        DeviceStep::RemoveDir(path) => changes.set(path, Standing::new(Origin::Nothing)),
        DeviceStep::HardLink(from, to) => link_name(changes, from, to),
        DeviceStep::MakeLink(path, target) => {
            let target = target.copy()?;
            make(alloc, changes, path, Node::Link { target })
        }
        DeviceStep::Lower(path) => lower(changes, path),
        DeviceStep::Sync(_) | DeviceStep::Barrier | DeviceStep::SyncAll | DeviceStep::SyncRoot =>
            Ok(()),
    }
}
