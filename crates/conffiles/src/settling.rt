// Settling conffiles: what was decided is carried out.
ghost use Rattle.std.specs.Prelude.{◌≡◌, ◌≢◌, ◌⊎◌, ◌↔◌, true, false, Some, None, IfOk, IfSome, IfNone, IsSome, IsTrue};
ghost use Rattle.std.specs.List.{All, AllPairs};
ghost use Rattle.host_core.specs.World.{IsFile, HasParent};
ghost use Rattle.host_core.specs.Unsynced.{is_temporary};
ghost use Rattle.host_core.specs.Host.{AtEachMoment, Counts, Leaves, Needs, Silent};
ghost use Rattle.host_core.specs.Looks.{Looks};
ghost use Rattle.administration.specs.Files.{NoDirectory};
ghost use Rattle.conffiles.specs.declared.decisions.Decision.TheVariants.{TakeNew, DropNew, NewToDist, BackupOld, Delete, Rename};
ghost use Rattle.conffiles.specs.Settling.{shipped_name, access_at, with_access, renewed, settled_files, backed_up, CanSettle, IsFileOrNone, IsMovedIfThere, HasChanged, IsChanging, AreSettled, AreSettling};

use crate::decisions::Decision;
use crate::entries::Settled;
use administration::{discard, replace, write_aside};
use host_core::{Access, Host, HostFault, Node, RootPath, ShipPath, Suffix};
use std::alloc::AllocError;

fn access_of(node: &Option<Node>) -> Option<Access>
    ensures { result ≡ access_at node.now }
{
    match node {
        Some(Node::File { access, .. }) => Some(*access),
        Some(Node::Dir { .. }) => None,
        Some(Node::Link { .. }) => None,
        None => None,
    }
}

// The file with another access.
fn with_access(node: &Node, access: Access) -> Result<Node, AllocError>
    ensures { IfOk result (λ n. n ≡ with_access node.now (Some access)) }
{
    match node {
        Node::File { bytes, .. } => Ok(Node::File {
            bytes: bytes.copy()?,
            access,
        }),
        Node::Dir { .. } => node.copy(),
        Node::Link { .. } => node.copy(),
    }
}

fn has_access(node: &Node, access: Access) -> bool
    ensures { IsTrue result ↔ (access_at (Some node.now) ≡ Some access) }
{
    match node {
        Node::File { access: own, .. } => *own == access,
        Node::Dir { .. } => false,
        Node::Link { .. } => false,
    }
}

fn only_file(node: Option<Node>) -> Option<Node>
    ensures file { IfSome result IsFile }
    ensures same { IsFileOrNone node → result ≡ node }
{
    match node {
        Some(Node::File { bytes, access }) => Some(Node::File { bytes, access }),
        Some(Node::Dir { .. }) => None,
        Some(Node::Link { .. }) => None,
        None => None,
    }
}

// The file at a path, where one is there.
fn file_at<H: Host>(host: &mut H, path: &RootPath) -> Result<Option<Node>, HostFault>
    ensures file { IfOk result (λ found. IfSome found IsFile) }
    ensures looks { Looks result (λ found w. IsFileOrNone (w path.now) → found ≡ w path.now)
        (H.state host.old) (H.state host.new) }
{
    let node = host.node(path)?;
    Ok(only_file(node))
}

// The access of the file at a path, where one is there.
fn look_at_access<H: Host>(host: &mut H, path: &RootPath) -> Result<Option<Access>, HostFault>
    ensures looks { Looks result (λ access w. access ≡ access_at (w path.now)) (H.state host.old)
        (H.state host.new) }
{
    let node = host.node(path)?;
    Ok(access_of(&node))
}

// Moves a file, where one is there.
fn move_file<H: Host>(host: &mut H, from: &RootPath, to: &RootPath) -> Result<(), HostFault>
    requires proper { is_temporary from.now ≡ false }
    requires from { Needs (H.state host.old) (λ w. NoDirectory (w from.now)) }
    requires to { Needs (H.state host.old) (λ w. NoDirectory (w to.now)) }
    requires parent { Needs (H.state host.old) (λ w. IsSome (w from.now) → HasParent w to.now) }
    ensures moved { Leaves result (IsMovedIfThere from.now to.now) (H.state host.old)
        (H.state host.new) }
    ensures any_moment { AtEachMoment (λ old now. (now ≡ old) ⊎ IsMovedIfThere from.now to.now old
        now) (H.state host.old) (H.state host.new) }
    ensures silent { Silent (H.state host.old) (H.state host.new) }
    ensures counts { Counts (H.state host.old) (H.state host.new) result }
{
    let kind = host.kind(from)?;
    if kind.is_some() {
        return host.rename(from, to);
    }
    Ok(())
}

fn drop_new<H: Host>(host: &mut H, path: &ShipPath) -> Result<(), HostFault>
    requires { Needs (H.state host.old) (CanSettle path.now) }
    ensures settled { Leaves result (HasChanged (settled_files DropNew) path.now) (H.state host.old)
        (H.state host.new) }
    ensures any_moment { AtEachMoment (IsChanging (settled_files DropNew) path.now)
        (H.state host.old) (H.state host.new) }
    ensures silent { Silent (H.state host.old) (H.state host.new) }
    ensures counts { Counts (H.state host.old) (H.state host.new) result }
{
    let shipped = path.beside(Suffix::New)?;
    discard(host, &shipped)
}

fn delete<H: Host>(host: &mut H, path: &ShipPath) -> Result<(), HostFault>
    requires { Needs (H.state host.old) (CanSettle path.now) }
    ensures settled { Leaves result (HasChanged (settled_files Delete) path.now) (H.state host.old)
        (H.state host.new) }
    ensures any_moment { AtEachMoment (IsChanging (settled_files Delete) path.now)
        (H.state host.old) (H.state host.new) }
    ensures silent { Silent (H.state host.old) (H.state host.new) }
    ensures counts { Counts (H.state host.old) (H.state host.new) result }
{
    let home = path.at()?;
    discard(host, &home)
}

fn rename_home<H: Host>(host: &mut H, path: &ShipPath) -> Result<(), HostFault>
    requires { Needs (H.state host.old) (CanSettle path.now) }
    ensures settled { Leaves result (HasChanged (settled_files Rename) path.now) (H.state host.old)
        (H.state host.new) }
    ensures any_moment { AtEachMoment (IsChanging (settled_files Rename) path.now)
        (H.state host.old) (H.state host.new) }
    ensures silent { Silent (H.state host.old) (H.state host.new) }
    ensures counts { Counts (H.state host.old) (H.state host.new) result }
{
    path.law();
    let home = path.at()?;
    let backup = path.beside(Suffix::Old)?;
    move_file(host, &home, &backup)
}

fn new_to_dist<H: Host>(host: &mut H, path: &ShipPath) -> Result<(), HostFault>
    requires { Needs (H.state host.old) (CanSettle path.now) }
    ensures settled { Leaves result (HasChanged (settled_files NewToDist) path.now)
        (H.state host.old) (H.state host.new) }
    ensures any_moment { AtEachMoment (IsChanging (settled_files NewToDist) path.now)
        (H.state host.old) (H.state host.new) }
    ensures silent { Silent (H.state host.old) (H.state host.new) }
    ensures counts { Counts (H.state host.old) (H.state host.new) result }
{
    path.law();
    let shipped = path.beside(Suffix::New)?;
    let dist = path.beside(Suffix::Dist)?;
    move_file(host, &shipped, &dist)
}

// The access that the shipped file is to be given in place of its own.
fn other_access(shipped: &Node, had: Option<Access>) -> Option<Access>
    ensures some { IfSome result (λ access. had ≡ Some access) }
    ensures none { IfNone result (with_access shipped.now had ≡ shipped.now) }
{
    let Some(access) = had else {
        return None;
    };
    if has_access(shipped, access) {
        None
    } else {
        Some(access)
    }
}

// Renames the shipped file to its place, where it has the right access.
fn take_home<H: Host>(host: &mut H, path: &ShipPath) -> Result<(), HostFault>
    requires can { Needs (H.state host.old) (CanSettle path.now) }
    requires there { Needs (H.state host.old) (λ w. IsSome (w (shipped_name path.now))) }
    requires same { Needs (H.state host.old) (λ w. renewed (w path.now) (w (shipped_name path.now))
        ≡ w (shipped_name path.now)) }
    ensures settled { Leaves result (HasChanged (settled_files TakeNew) path.now) (H.state host.old)
        (H.state host.new) }
    ensures any_moment { AtEachMoment (IsChanging (settled_files TakeNew) path.now)
        (H.state host.old) (H.state host.new) }
    ensures silent { Silent (H.state host.old) (H.state host.new) }
    ensures counts { Counts (H.state host.old) (H.state host.new) result }
{
    path.law();
    let home = path.at()?;
    let shipped = path.beside(Suffix::New)?;
    host.rename(&shipped, &home)
}

// Puts the shipped file, with the access of the one that is there, in its place.
fn renew<H: Host>(host: &mut H, path: &ShipPath, node: &Node) -> Result<(), HostFault>
    requires file { IsFile node.now }
    requires can { Needs (H.state host.old) (CanSettle path.now) }
    requires there { Needs (H.state host.old) (λ w. IsSome (w (shipped_name path.now))) }
    requires renewed { Needs (H.state host.old) (λ w. renewed (w path.now)
        (w (shipped_name path.now)) ≡ Some node.now) }
    ensures settled { Leaves result (HasChanged (settled_files TakeNew) path.now) (H.state host.old)
        (H.state host.new) }
    ensures any_moment { AtEachMoment (IsChanging (settled_files TakeNew) path.now)
        (H.state host.old) (H.state host.new) }
    ensures silent { Silent (H.state host.old) (H.state host.new) }
    ensures counts { Counts (H.state host.old) (H.state host.new) result }
{
    path.law();
    let home = path.at()?;
    let shipped = path.beside(Suffix::New)?;
    replace(host, &home, node)?;
    host.remove(&shipped)
}

fn install<H: Host>(host: &mut H, path: &ShipPath, shipped: &Node) -> Result<(), HostFault>
    requires file { IsFile shipped.now }
    requires can { Needs (H.state host.old) (CanSettle path.now) }
    requires shipped { Needs (H.state host.old) (λ w. w (shipped_name path.now)
        ≡ Some shipped.now) }
    ensures settled { Leaves result (HasChanged (settled_files TakeNew) path.now) (H.state host.old)
        (H.state host.new) }
    ensures any_moment { AtEachMoment (IsChanging (settled_files TakeNew) path.now)
        (H.state host.old) (H.state host.new) }
    ensures silent { Silent (H.state host.old) (H.state host.new) }
    ensures counts { Counts (H.state host.old) (H.state host.new) result }
{
    let home = path.at()?;
    let had = look_at_access(host, &home)?;
    match other_access(shipped, had) {
        Some(access) => {
            let node = with_access(shipped, access)?;
            return renew(host, path, &node);
        }
        None => {
            return take_home(host, path);
        }
    }
}

fn take_new<H: Host>(host: &mut H, path: &ShipPath) -> Result<(), HostFault>
    requires { Needs (H.state host.old) (CanSettle path.now) }
    ensures settled { Leaves result (HasChanged (settled_files TakeNew) path.now) (H.state host.old)
        (H.state host.new) }
    ensures any_moment { AtEachMoment (IsChanging (settled_files TakeNew) path.now)
        (H.state host.old) (H.state host.new) }
    ensures silent { Silent (H.state host.old) (H.state host.new) }
    ensures counts { Counts (H.state host.old) (H.state host.new) result }
{
    let name = path.beside(Suffix::New)?;
    let node = file_at(host, &name)?;
    match &node {
        Some(shipped) => {
            return install(host, path, shipped);
        }
        None => {
            return Ok(());
        }
    }
}

// Keeps a copy of the file that is there.
fn keep_copy<H: Host>(host: &mut H, path: &ShipPath, had: &Node) -> Result<(), HostFault>
    requires file { IsFile had.now }
    requires can { Needs (H.state host.old) (CanSettle path.now) }
    requires home { Needs (H.state host.old) (λ w. w path.now ≡ Some had.now) }
    ensures copied { Leaves result (HasChanged backed_up path.now) (H.state host.old)
        (H.state host.new) }
    ensures any_moment { AtEachMoment (IsChanging backed_up path.now) (H.state host.old)
        (H.state host.new) }
    ensures silent { Silent (H.state host.old) (H.state host.new) }
    ensures counts { Counts (H.state host.old) (H.state host.new) result }
{
    path.law();
    let spare = path.beside(Suffix::Inst)?;
    let backup = path.beside(Suffix::Old)?;
    write_aside(host, &spare, had)?;
    host.rename(&spare, &backup)
}

fn back_up<H: Host>(host: &mut H, path: &ShipPath) -> Result<(), HostFault>
    requires { Needs (H.state host.old) (CanSettle path.now) }
    ensures copied { Leaves result (HasChanged backed_up path.now) (H.state host.old)
        (H.state host.new) }
    ensures any_moment { AtEachMoment (IsChanging backed_up path.now) (H.state host.old)
        (H.state host.new) }
    ensures silent { Silent (H.state host.old) (H.state host.new) }
    ensures counts { Counts (H.state host.old) (H.state host.new) result }
{
    let home = path.at()?;
    let node = file_at(host, &home)?;
    match &node {
        Some(had) => {
            return keep_copy(host, path, had);
        }
        None => {
            return Ok(());
        }
    }
}

fn back_up_old<H: Host>(host: &mut H, path: &ShipPath) -> Result<(), HostFault>
    requires { Needs (H.state host.old) (CanSettle path.now) }
    ensures settled { Leaves result (HasChanged (settled_files BackupOld) path.now)
        (H.state host.old) (H.state host.new) }
    ensures any_moment { AtEachMoment (IsChanging (settled_files BackupOld) path.now)
        (H.state host.old) (H.state host.new) }
    ensures silent { Silent (H.state host.old) (H.state host.new) }
    ensures counts { Counts (H.state host.old) (H.state host.new) result }
{
    let shipped = path.beside(Suffix::New)?;
    let kind = host.kind(&shipped)?;
    if kind.is_none() {
        return Ok(());
    }
    back_up(host, path)?;
    take_new(host, path)
}

fn settle<H: Host>(host: &mut H, entry: &Settled) -> Result<(), HostFault>
    requires { Needs (H.state host.old) (CanSettle entry.now.path) }
    ensures settled { Leaves result (HasChanged (settled_files entry.now.decision) entry.now.path)
        (H.state host.old) (H.state host.new) }
    ensures any_moment { AtEachMoment (IsChanging (settled_files entry.now.decision) entry.now.path)
        (H.state host.old) (H.state host.new) }
    ensures silent { Silent (H.state host.old) (H.state host.new) }
    ensures counts { Counts (H.state host.old) (H.state host.new) result }
{
    match entry.decision {
        Decision::TakeNew => take_new(host, &entry.path),
        Decision::DropNew => drop_new(host, &entry.path),
        Decision::NewToDist => new_to_dist(host, &entry.path),
        Decision::BackupOld => back_up_old(host, &entry.path),
        Decision::Nothing => Ok(()),
        Decision::Delete => delete(host, &entry.path),
        Decision::Rename => rename_home(host, &entry.path),
    }
}

/// Settles conffiles in the order of the list, each by what was decided. A stop leaves each as before or as its decision
/// says; what is there is replaced whole, and only when a copy of it is kept, where one is to be.
pub fn apply<H: Host>(host: &mut H, list: &[Settled]) -> Result<(), HostFault>
    requires once { AllPairs (λ e f. e.path ≢ f.path) list.now }
    requires can { Needs (H.state host.old) (λ w. All (λ e. CanSettle e.path w) list.now) }
    ensures settled { Leaves result (AreSettled list.now) (H.state host.old) (H.state host.new) }
    ensures any_moment { AtEachMoment (AreSettling list.now) (H.state host.old) (H.state host.new) }
    ensures silent { Silent (H.state host.old) (H.state host.new) }
    ensures counts { Counts (H.state host.old) (H.state host.new) result }
{
    for entry in list {
        settle(host, entry)?;
    }
    Ok(())
}
