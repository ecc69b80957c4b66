// How what stands at the places of shipped paths differs from what their tree has there.
ghost use Rattle.std.specs.Prelude.{◌≡◌, ◌∷◌, [], IfOk, OnOk, string_bytes};
ghost use Rattle.host_core.specs.Host.{Reads, Silent};
ghost use Rattle.host_core.specs.Looks.{Looks};
ghost use Rattle.verification.specs.Counting.{CountsLooks};
ghost use Rattle.verification.specs.Looks.{AddsEach};
ghost use Rattle.verification.specs.Shipped.{difference_between, file_difference, shipped_lines, stands_for, unless};
ghost use Rattle.verification.specs.Told.{IsToldBeside};

use crate::difference::{Difference, add_difference};
use diversions::Diversions;
use host_core::{Access, Content, Host, HostFault, Node, RootPath};
use package_tree::Shipped;
use std::alloc::{AllocError, Global};
use texts::Text;

fn unless(same: bool, difference: Difference) -> Option<Difference>
    ensures { result ≡ unless same difference }
{
    if same { None } else { Some(difference) }
}

fn file_difference<H: Host>(
    host: &mut H,
    bytes: &Content,
    access: Access,
    others: &Content,
    owned: Access,
) -> Result<Option<Difference>, HostFault>
    ensures looks { Looks result (λ d w. d ≡ file_difference bytes.now access others.now owned)
        (H.state host.old) (H.state host.new) }
{
    if host.same(bytes, others)? {
        return Ok(unless(access.is_same(owned), Difference::Access));
    }
    Ok(Some(Difference::Bytes))
}

fn difference_of<H: Host>(
    host: &mut H,
    node: &Node,
    shipped: &Node,
) -> Result<Option<Difference>, HostFault>
    ensures looks { Looks result (λ d w. d ≡ difference_between (Some node.now) shipped.now)
        (H.state host.old) (H.state host.new) }
{
    match (node, shipped) {
        (
            Node::File { bytes, access },
            Node::File {
                bytes: others,
                access: owned,
            },
        ) => file_difference(host, bytes, *access, others, *owned),
        (Node::File { .. }, Node::Dir { .. }) => Ok(Some(Difference::Kind)),
        (Node::File { .. }, Node::Link { .. }) => Ok(Some(Difference::Kind)),
        (Node::Dir { .. }, Node::File { .. }) => Ok(Some(Difference::Kind)),
        (Node::Dir { access }, Node::Dir { access: owned }) => {
            Ok(unless(access.is_same(*owned), Difference::Access))
        }
        (Node::Dir { .. }, Node::Link { .. }) => Ok(Some(Difference::Kind)),
        (Node::Link { .. }, Node::File { .. }) => Ok(Some(Difference::Kind)),
        (Node::Link { .. }, Node::Dir { .. }) => Ok(Some(Difference::Kind)),
        (Node::Link { target }, Node::Link { target: aimed }) => {
            Ok(unless(target.is(aimed), Difference::Target))
        }
    }
}

fn difference_between<H: Host>(
    host: &mut H,
    node: &Option<Node>,
    shipped: &Node,
) -> Result<Option<Difference>, HostFault>
    ensures looks { Looks result (λ d w. d ≡ difference_between node.now shipped.now)
        (H.state host.old) (H.state host.new) }
{
    match node {
        None => Ok(Some(Difference::Missing)),
        Some(node) => difference_of(host, node, shipped),
    }
}

#[tactic(auto, using(host_core::proofs::Moments::reads_then))]
fn compare<H: Host>(
    host: &mut H,
    place: &RootPath,
    shipped: &Node,
) -> Result<Option<Difference>, HostFault>
    ensures looks { Looks result (λ d w. d ≡ difference_between (w place.now) shipped.now)
        (H.state host.old) (H.state host.new) }
{
    let node = host.node(place)?;
    difference_between(host, &node, shipped)
}

// That the device failed is told too.
fn find_difference<H: Host>(
    host: &mut H,
    place: &RootPath,
    shipped: &Node,
) -> Result<Option<Difference>, HostFault>
    ensures told { IfOk result
        (IsToldBeside place.now shipped.now (H.state host.old) (H.state host.new)) }
    ensures reads { Reads (H.state host.old) (H.state host.new) }
    ensures silent { Silent (H.state host.old) (H.state host.new) }
    ensures counts { CountsLooks (H.state host.old) (H.state host.new) result }
{
    match compare(host, place, shipped) {
        Err(HostFault::Device) => Ok(Some(Difference::Unread)),
        told => told,
    }
}

// Whether a link to a directory stands for a directory or a link that is shipped.
fn stands_for(diversions: &Diversions, path: &RootPath, shipped: &Node) -> Result<bool, AllocError>
    ensures { IfOk result
        (λ b. b ≡ stands_for diversions.now.ways.aliases path.now shipped.now) }
{
    match shipped {
        Node::File { .. } => Ok(false),
        Node::Dir { .. } => diversions.stands_at(path),
        Node::Link { .. } => diversions.stands_at(path),
    }
}

fn add_file<H: Host>(
    alloc: Global,
    host: &mut H,
    diversions: &Diversions,
    name: &Text,
    file: &Shipped,
    lines: &mut String,
) -> Result<(), HostFault>
    ensures added { OnOk result (AddsEach (shipped_lines diversions.now.ways name.now)
        (file.now ∷ []) (H.state host.old) (H.state host.new) (string_bytes lines.old)
        (string_bytes lines.new)) }
    ensures reads { Reads (H.state host.old) (H.state host.new) }
    ensures silent { Silent (H.state host.old) (H.state host.new) }
    ensures counts { CountsLooks (H.state host.old) (H.state host.new) result }
{
    let path = file.path.at()?;
    if stands_for(diversions, &path, &file.node)? {
        return Ok(());
    }
    let place = diversions.place(name, &path)?;
    let difference = find_difference(host, &place, &file.node)?;
    Ok(add_difference(alloc, lines, &path, name, difference)?)
}

/// Adds the lines of the shipped paths that differ, of a package of this name.
pub(crate) fn add_files<H: Host>(
    alloc: Global,
    host: &mut H,
    diversions: &Diversions,
    name: &Text,
    files: &[Shipped],
    lines: &mut String,
) -> Result<(), HostFault>
    ensures added { OnOk result (AddsEach (shipped_lines diversions.now.ways name.now) files.now
        (H.state host.old) (H.state host.new) (string_bytes lines.old) (string_bytes lines.new)) }
    ensures reads { Reads (H.state host.old) (H.state host.new) }
    ensures silent { Silent (H.state host.old) (H.state host.new) }
    ensures counts { CountsLooks (H.state host.old) (H.state host.new) result }
{
    for file in files {
        add_file(alloc, host, diversions, name, file, lines)?;
    }
    Ok(())
}
