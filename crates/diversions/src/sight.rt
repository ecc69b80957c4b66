// What stands where a node is to be moved.
ghost use Rattle.std.specs.Prelude.{◌≡◌, ◌&&◌, IfOk};
ghost use Rattle.host_core.specs.World.{kind_of};
ghost use Rattle.host_core.specs.Looks.{Looks};
ghost use Rattle.diversions.specs.Names.{front_of};
ghost use Rattle.diversions.specs.Sights.{sight_of};
ghost use Rattle.diversions.specs.Sights as spec;

use host_core::{Host, HostFault, Kind, Node, RootPath, ShipPath};
use std::alloc::{AllocError, Global};

/// The kinds of what stands where a node is moved from, where it is moved to, and above that; and with `rename` whether the
/// same file or link stands at both.
#[derive(Clone, Copy)]
pub struct Sight {
    pub from: Option<Kind>,
    pub to: Option<Kind>,
    pub above: Option<Kind>,
    pub same: bool,
}

/// Whether the node is moved, and whether what stands at its target is brought to the disk before: where it is moved, that is
/// the node itself.
#[derive(Clone, Copy)]
pub(crate) struct Way {
    pub moves: bool,
    pub brings: bool,
}

pub(crate) fn is_loose(kind: Option<Kind>) -> bool
    ensures { result ≡ spec.is_loose_kind kind }
{
    match kind {
        None => false,
        Some(Kind::File) => true,
        Some(Kind::Directory) => false,
        Some(Kind::SymbolicLink) => true,
    }
}

fn same_loose<H: Host>(host: &mut H, one: &Node, other: &Node) -> Result<bool, HostFault>
    ensures looks { Looks result (λ same w. same ≡ spec.same_loose one.now other.now)
        (H.state host.old) (H.state host.new) }
{
    match (one, other) {
        (
            Node::File { bytes, access },
            Node::File {
                bytes: others,
                access: owned,
            },
        ) => Ok(host.same(bytes, others)? && access.is_same(*owned)),
        (Node::File { .. }, Node::Dir { .. }) => Ok(false),
        (Node::File { .. }, Node::Link { .. }) => Ok(false),
        (Node::Dir { .. }, _) => Ok(false),
        (Node::Link { .. }, Node::File { .. }) => Ok(false),
        (Node::Link { .. }, Node::Dir { .. }) => Ok(false),
        (Node::Link { target }, Node::Link { target: aimed }) => Ok(target.is(aimed)),
    }
}

fn same_node<H: Host>(
    host: &mut H,
    one: &Option<Node>,
    other: &Option<Node>,
) -> Result<bool, HostFault>
    ensures looks { Looks result (λ same w. same ≡ spec.same_node one.now other.now)
        (H.state host.old) (H.state host.new) }
{
    match (one, other) {
        (None, _) => Ok(false),
        (Some(_), None) => Ok(false),
        (Some(node), Some(there)) => same_loose(host, node, there),
    }
}

// What stands before the last slash.
fn front_of(path: &str) -> &str
    ensures { result.now ≡ front_of path.now }
{
    match path.rsplit_once('/') {
        Some((front, _)) => front,
        None => "",
    }
}

// The directory that a path lies in.
fn directory_of(alloc: Global, path: &ShipPath) -> Result<RootPath, AllocError>
    ensures { IfOk result (λ p. p ≡ front_of path.now) }
{
    path.law();
    RootPath::from_str(alloc, front_of(path.as_str()))
}

fn kind_at<H: Host>(host: &mut H, path: &ShipPath) -> Result<Option<Kind>, HostFault>
    ensures looks { Looks result (λ kind w. kind ≡ kind_of (w path.now)) (H.state host.old)
        (H.state host.new) }
{
    let place = path.at()?;
    host.kind(&place)
}

fn kind_above<H: Host>(
    alloc: Global,
    host: &mut H,
    path: &ShipPath,
) -> Result<Option<Kind>, HostFault>
    ensures looks { Looks result (λ kind w. kind ≡ kind_of (w (front_of path.now)))
        (H.state host.old) (H.state host.new) }
{
    let directory = directory_of(alloc, path)?;
    host.kind(&directory)
}

fn node_at<H: Host>(host: &mut H, path: &ShipPath) -> Result<Option<Node>, HostFault>
    ensures looks { Looks result (λ node w. node ≡ w path.now) (H.state host.old)
        (H.state host.new) }
{
    let place = path.at()?;
    host.node(&place)
}

// Whether the same file or link stands at both paths, where that is asked.
#[tactic(auto, using(host_core::proofs::Moments::reads_then))]
fn same_at<H: Host>(
    host: &mut H,
    from: &ShipPath,
    to: &ShipPath,
    asked: bool,
) -> Result<bool, HostFault>
    ensures looks { Looks result
        (λ same w. same ≡ (asked && spec.same_node (w from.now) (w to.now)))
        (H.state host.old) (H.state host.new) }
{
    if !asked {
        return Ok(false);
    }
    let there = node_at(host, from)?;
    let taken = node_at(host, to)?;
    same_node(host, &there, &taken)
}

// With what is seen of kinds, whether the same file or link stands at both.
#[tactic(auto, using(host_core::proofs::Moments::reads_then))]
fn look_at_both<H: Host>(
    host: &mut H,
    from: &ShipPath,
    to: &ShipPath,
    rename: bool,
    kinds: Sight,
) -> Result<Sight, HostFault>
    ensures looks { Looks result
        (λ sight w. sight ≡ record {
          from = kinds.from;
          to = kinds.to;
          above = kinds.above;
          same = (rename && (spec.is_loose_kind kinds.from && spec.is_loose_kind kinds.to))
              && spec.same_node (w from.now) (w to.now);
        })
        (H.state host.old) (H.state host.new) }
{
    let asked = rename && (is_loose(kinds.from) && is_loose(kinds.to));
    let same = same_at(host, from, to, asked)?;
    Ok(Sight {
        from: kinds.from,
        to: kinds.to,
        above: kinds.above,
        same,
    })
}

/// What stands at two paths, and above the second. Files are read only where both may be one node that is moved.
#[tactic(auto, using(host_core::proofs::Moments::reads_then))]
pub(crate) fn look_around<H: Host>(
    alloc: Global,
    host: &mut H,
    from: &ShipPath,
    to: &ShipPath,
    rename: bool,
) -> Result<Sight, HostFault>
    ensures looks { Looks result (λ sight w. sight ≡ sight_of rename w from.now to.now)
        (H.state host.old) (H.state host.new) }
{
    let there = kind_at(host, from)?;
    let taken = kind_at(host, to)?;
    let above = kind_above(alloc, host, to)?;
    let kinds = Sight {
        from: there,
        to: taken,
        above,
        same: false,
    };
    look_at_both(host, from, to, rename, kinds)
}
