// Conffiles that would stay, looked at one after another.
ghost use Rattle.std.specs.Prelude.{◌≡◌, ◌<◌, ◌≤◌, ◌+◌, IfOk, IsErrOf, IsTrue, Some, map};
ghost use Rattle.std.specs.List.{AllByRecursion};
ghost use Rattle.std.specs.Str.{bytes_eq};
ghost use Rattle.md5.specs.Md5.{md5};
ghost use Rattle.host_core.specs.Host.{Reads, Silent, faults};
ghost use Rattle.host_core.specs.declared.fault.HostFault.TheVariants.{Device};
ghost use Rattle.foretold_changes.specs.Staying.{IsSeen, is_edited, stay_of, unread_stays};
ghost use Rattle.foretold_changes.specs.declared.staying.LookedConffile.{LookedConffile as ALookedConffile};
ghost use Rattle.foretold_changes.specs.declared.staying.Stay.TheVariants.{Unread};

use crate::keeping::Conffile;
use conffiles::Digest;
use host_core::{Content, Host, HostFault, Node};
use std::alloc::Global;

/// What is told of a conffile that would stay.
#[derive(Clone, Copy)]
pub enum Stay {
    Edited,
    Unread,
}

/// A conffile, and what is told of it.
#[derive(Drop)]
pub struct LookedConffile {
    pub conffile: Conffile,
    pub stay: Option<Stay>,
}

fn has_digest(content: &Content, digest: Digest) -> bool
    ensures { result ≡ bytes_eq (md5 content.now) digest }
{
    Digest::of_content(content) == digest
}

fn is_edited(node: &Option<Node>, digest: Option<Digest>) -> bool
    ensures { result ≡ is_edited node.now digest }
{
    match (node, digest) {
        (Some(Node::File { bytes, .. }), Some(digest)) => !has_digest(bytes, digest),
        (Some(Node::File { .. }), None) => false,
        (Some(Node::Dir { .. }), _) => false,
        (Some(Node::Link { .. }), _) => false,
        (None, _) => false,
    }
}

fn stay_of(node: &Option<Node>, digest: Option<Digest>) -> Option<Stay>
    ensures value { result ≡ stay_of node.now digest }
    ensures known { result ≡ Some Unread → ⊥ }
{
    if is_edited(node, digest) {
        return Some(Stay::Edited);
    }
    None
}

// What stands at its place.
fn look<H: Host>(host: &mut H, conffile: &Conffile) -> Result<Option<Stay>, HostFault>
    ensures found { IfOk result (λ stay. IsTrue (H.state host.new).honest
        → stay ≡ stay_of ((H.state host.old).world conffile.now.at) conffile.now.digest) }
    ensures known { IfOk result (λ stay. stay ≡ Some Unread → ⊥) }
    ensures cause { IsErrOf result Device → faults (H.state host.old)
        < faults (H.state host.new) }
    ensures reads { Reads (H.state host.old) (H.state host.new) }
    ensures silent { Silent (H.state host.old) (H.state host.new) }
{
    let node = host.node(&conffile.at)?;
    Ok(stay_of(&node, conffile.digest))
}

// That the device failed is told too.
fn find_stay<H: Host>(host: &mut H, conffile: &Conffile) -> Result<Option<Stay>, HostFault>
    ensures found { IfOk result (λ stay. IsTrue (H.state host.new).honest
        → (stay ≡ Some Unread → ⊥)
        → stay ≡ stay_of ((H.state host.old).world conffile.now.at) conffile.now.digest) }
    ensures cause { IfOk result (λ stay. stay ≡ Some Unread → faults (H.state host.old)
        < faults (H.state host.new)) }
    ensures reads { Reads (H.state host.old) (H.state host.new) }
    ensures silent { Silent (H.state host.old) (H.state host.new) }
{
    match look(host, conffile) {
        Err(HostFault::Device) => Ok(Some(Stay::Unread)),
        told => told,
    }
}

fn look_at<H: Host>(host: &mut H, conffile: &Conffile) -> Result<LookedConffile, HostFault>
    ensures conffile { IfOk result (λ looked. looked.conffile ≡ conffile.now) }
    ensures seen { IfOk result (λ looked. IsTrue (H.state host.new).honest
        → IsSeen (H.state host.old).world looked) }
    ensures cause { IfOk result (λ looked. looked.stay ≡ Some Unread
        → faults (H.state host.old) < faults (H.state host.new)) }
    ensures reads { Reads (H.state host.old) (H.state host.new) }
    ensures silent { Silent (H.state host.old) (H.state host.new) }
{
    let copy = conffile.copy()?;
    let stay = find_stay(host, conffile)?;
    Ok(LookedConffile {
        conffile: copy,
        stay,
    })
}

/// Looks at each of them.
pub(crate) fn look_at_stays<H: Host>(
    alloc: Global,
    host: &mut H,
    conffiles: &[Conffile],
) -> Result<Vec<LookedConffile>, HostFault>
    ensures each { IfOk result (λ stays. map (λ (x : ALookedConffile). x.conffile) stays.items
        ≡ conffiles.now) }
    ensures stay { IfOk result (λ stays. IsTrue (H.state host.new).honest
        → AllByRecursion (IsSeen (H.state host.old).world) stays.items) }
    ensures few { IfOk result (λ stays. unread_stays stays.items + faults (H.state host.old)
        ≤ faults (H.state host.new)) }
    ensures reads { Reads (H.state host.old) (H.state host.new) }
    ensures silent { Silent (H.state host.old) (H.state host.new) }
{
    let mut stays = Vec::new(alloc);
    for conffile in conffiles {
        let looked = look_at(host, conffile)?;
        stays.push(looked)?;
    }
    Ok(stays)
}
