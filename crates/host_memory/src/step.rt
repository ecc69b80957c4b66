// What a step of the device does to the files.
ghost use Rattle.std.specs.Prelude.{◌≡◌, None, Some, OnOk, OnErr};
ghost use Rattle.std.specs.BTreeMap.{get_by_text};
ghost use Rattle.host_core.specs.World.{after, lowered, lowered_access, moved, put, HasParent, IsDirectory, IsLoose};
ghost use Rattle.host_memory.specs.Able.{CanDo};
ghost use Rattle.host_memory.specs.Doings.{step_of};
ghost use Rattle.host_memory.specs.Trees.{Fits};

use crate::done::DeviceStep;
use crate::files::Files;
use host_core::{Access, Node, RootPath};
use std::alloc::{AllocError, Global};

// A node comes to stand where nothing stood.
fn add(alloc: Global, files: &mut Files, path: &RootPath, node: Node) -> Result<(), AllocError>
    requires absent { get_by_text files.old.nodes path.now ≡ None }
    requires parent { HasParent (get_by_text files.old.nodes) path.now }
    ensures ok { OnOk result (get_by_text files.new.nodes ≡ put (get_by_text files.old.nodes)
        path.now (Some node)) }
    ensures err { OnErr result (get_by_text files.new.nodes ≡ get_by_text files.old.nodes) }
{
    path.law();
    files.put(alloc, path.as_str(), node)?;
    Ok(())
}

// The node is copied to its new name, and then the old one goes: so memory is refused before anything is changed.
fn move_node(
    alloc: Global,
    files: &mut Files,
    from: &RootPath,
    to: &RootPath,
) -> Result<(), AllocError>
    requires there { IsLoose (get_by_text files.old.nodes from.now) }
    requires over { IsDirectory (get_by_text files.old.nodes to.now) → ⊥ }
    requires parent { HasParent (get_by_text files.old.nodes) to.now }
    ensures ok { OnOk result (get_by_text files.new.nodes ≡ moved (get_by_text files.old.nodes)
        from.now to.now) }
    ensures err { OnErr result (get_by_text files.new.nodes ≡ get_by_text files.old.nodes) }
{
    let node = match files.copy_at(from)? {
        Some(node) => node,
        None => unreachable!(),
    };
    to.law();
    files.put(alloc, to.as_str(), node)?;
    if !from.is(to) {
        files.take(from.as_str());
    }
    Ok(())
}

// The node is copied to its second name.
fn link_node(
    alloc: Global,
    files: &mut Files,
    from: &RootPath,
    to: &RootPath,
) -> Result<(), AllocError>
    requires there { IsLoose (get_by_text files.old.nodes from.now) }
    requires absent { get_by_text files.old.nodes to.now ≡ None }
    requires parent { HasParent (get_by_text files.old.nodes) to.now }
    ensures ok { OnOk result (get_by_text files.new.nodes ≡ put (get_by_text files.old.nodes) to.now
        (get_by_text files.old.nodes from.now)) }
    ensures err { OnErr result (get_by_text files.new.nodes ≡ get_by_text files.old.nodes) }
{
    let node = match files.copy_at(from)? {
        Some(node) => node,
        None => unreachable!(),
    };
    add(alloc, files, to, node)
}

// The access of a file that lent rights, when it is to go.
fn lowered_access(access: Access) -> Access
    ensures { result ≡ lowered_access access }
{
    if access.mode & 0o6000 == 0 {
        return access;
    }
    Access {
        mode: 0o600,
        user: access.user,
        group: access.group,
    }
}

fn lowered(node: Node) -> Node
    ensures { Some result ≡ lowered (Some node) }
{
    match node {
        Node::File { bytes, access } => Node::File {
            bytes,
            access: lowered_access(access),
        },
        Node::Dir { access } => Node::Dir { access },
        Node::Link { target } => Node::Link { target },
    }
}

// A file lends no rights any more.
fn lower(alloc: Global, files: &mut Files, path: &RootPath) -> Result<(), AllocError>
    requires { IsLoose (get_by_text files.old.nodes path.now) }
    ensures ok { OnOk result (get_by_text files.new.nodes ≡ put (get_by_text files.old.nodes)
        path.now (lowered (get_by_text files.old.nodes path.now))) }
    ensures err { OnErr result (get_by_text files.new.nodes ≡ get_by_text files.old.nodes) }
{
    let node = match files.copy_at(path)? {
        Some(node) => node,
        None => unreachable!(),
    };
    path.law();
    files.put(alloc, path.as_str(), lowered(node))
}

// Nothing stands at a path any more, below which nothing stood.
fn remove(files: &mut Files, path: &RootPath)
    requires { Fits (get_by_text files.old.nodes) path.now None }
    ensures { get_by_text files.new.nodes ≡ put (get_by_text files.old.nodes) path.now None }
{
    files.take(path.as_str());
}

// Makes a step. Where memory is refused nothing is done.
pub(crate) fn perform(alloc: Global, files: &mut Files, step: &DeviceStep) -> Result<(), AllocError>
    requires { CanDo (step_of step.now) (get_by_text files.old.nodes) }
    ensures ok { OnOk result (get_by_text files.new.nodes ≡ after (step_of step.now)
        (get_by_text files.old.nodes)) }
    ensures err { OnErr result (get_by_text files.new.nodes ≡ get_by_text files.old.nodes) }
{
    match step {
        DeviceStep::Write(path, node) => add(alloc, files, path, node.copy()?),
        DeviceStep::Move(from, to) => move_node(alloc, files, from, to),
        DeviceStep::Take(path) => {
            remove(files, path);
            Ok(())
        }
        DeviceStep::MakeDir(path, access) => {
            add(alloc, files, path, Node::Dir { access: *access })
        }
        DeviceStep::RemoveDir(path) => {
            remove(files, path);
            Ok(())
        }
        DeviceStep::HardLink(from, to) => link_node(alloc, files, from, to),
        DeviceStep::MakeLink(path, target) => {
            let target = target.copy()?;
            add(alloc, files, path, Node::Link { target })
        }
        DeviceStep::Lower(path) => lower(alloc, files, path),
        DeviceStep::Sync(_) | DeviceStep::Barrier | DeviceStep::SyncAll | DeviceStep::SyncRoot =>
            Ok(()),
    }
}
