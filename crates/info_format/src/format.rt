// The format of `info/`, and what stands at the two names of a control file.
ghost use Rattle.std.specs.Prelude.{◌≡◌, IfOk, Option, is_some};
ghost use Rattle.host_core.specs.World.{kind_of};
ghost use Rattle.host_core.specs.declared.node.Node.{Node as ANode};
ghost use Rattle.host_core.specs.Looks.{Looks};
ghost use Rattle.info_format.specs.Format.{IsSaid};
ghost use Rattle.info_format.specs.Tests as spec;

use host_core::{Host, HostFault, Kind, Node, RootPath};
use std::alloc::AllocError;

/// Which names control files have.
#[derive(Clone, Copy)]
pub(crate) enum Format {
    /// Each begins with the package's name alone.
    Short,
    /// Those of packages with `Multi-Arch: same` have the architecture too.
    Long,
    /// One that isn't known.
    Unknown,
}

// What the file says.
fn said(node: &Option<Node>) -> Result<Format, AllocError>
    ensures { IfOk result (IsSaid node.now) }
{
    match node {
        None => Ok(Format::Short),
        Some(Node::File { bytes, .. }) => {
            if bytes.held()? == b"1\n".as_slice() {
                return Ok(Format::Long);
            }
            Ok(Format::Unknown)
        }
        Some(Node::Dir { .. }) => Ok(Format::Unknown),
        Some(Node::Link { .. }) => Ok(Format::Unknown),
    }
}

/// The format that the file at its path tells.
pub(crate) fn read_format<H: Host>(host: &mut H, path: &RootPath) -> Result<Format, HostFault>
    ensures looks { Looks result (λ format w. IsSaid (w path.now) format) (H.state host.old)
        (H.state host.new) }
{
    let node = host.node(path)?;
    Ok(said(&node)?)
}

// Whether at the name without the architecture nothing stands, or the same.
fn is_fit(long: &Option<Node>, short: &Option<Node>) -> Result<bool, AllocError>
    ensures { IfOk result (λ same. same ≡ spec.is_fit long.now short.now) }
{
    match (long, short) {
        (None, None) => Ok(true),
        (None, Some(_)) => Ok(true),
        (Some(node), None) => Ok(!node.is_dir()),
        (Some(node), Some(there)) => Ok(!node.is_dir() && node.is_same(there)?),
    }
}

fn same_content(one: &Node, other: &Node) -> Result<bool, AllocError>
    ensures { IfOk result (λ same. same ≡ spec.same_content one.now other.now) }
{
    match (one, other) {
        (Node::File { bytes, .. }, Node::File { bytes: others, .. }) => {
            Ok(bytes.held()? == others.held()?)
        }
        (Node::File { .. }, Node::Dir { .. }) => Ok(false),
        (Node::File { .. }, Node::Link { .. }) => Ok(false),
        (Node::Dir { .. }, Node::File { .. }) => Ok(false),
        (Node::Dir { .. }, Node::Dir { .. }) => Ok(false),
        (Node::Dir { .. }, Node::Link { .. }) => Ok(false),
        (Node::Link { .. }, Node::File { .. }) => Ok(false),
        (Node::Link { .. }, Node::Dir { .. }) => Ok(false),
        (Node::Link { target }, Node::Link { target: aimed }) => Ok(target.is(aimed)),
    }
}

// Whether both names have the same bytes or target, where both stand.
fn is_double(long: &Option<Node>, short: &Option<Node>) -> Result<bool, AllocError>
    ensures { IfOk result (λ same. same ≡ spec.is_double long.now short.now) }
{
    match (long, short) {
        (None, None) => Ok(true),
        (None, Some(_)) => Ok(true),
        (Some(_), None) => Ok(true),
        (Some(node), Some(there)) => same_content(node, there),
    }
}

/// Whether the two names fit in format 1, or in format 0.
pub(crate) fn fits(one: bool, long: &Option<Node>, short: &Option<Node>) -> Result<bool, AllocError>
    ensures { IfOk result (λ same. same ≡ spec.fits one long.now short.now) }
{
    if one {
        return is_fit(long, short);
    }
    is_double(long, short)
}

/// Whether what is of this kind is a file or link.
pub(crate) fn is_loose_kind(kind: Option<Kind>) -> bool
    ensures { (node : Option ANode) → kind ≡ kind_of node → result ≡ spec.is_loose node }
{
    match kind {
        None => false,
        Some(Kind::File) => true,
        Some(Kind::Directory) => false,
        Some(Kind::SymbolicLink) => true,
    }
}

/// Whether something stands at a path.
pub(crate) fn is_there<H: Host>(host: &mut H, path: &RootPath) -> Result<bool, HostFault>
    ensures looks { Looks result (λ there w. there ≡ is_some (w path.now)) (H.state host.old)
        (H.state host.new) }
{
    let kind = host.kind(path)?;
    Ok(is_some_kind(kind))
}

pub(crate) fn is_some_kind(kind: Option<Kind>) -> bool
    ensures { (node : Option ANode) → kind ≡ kind_of node → result ≡ is_some node }
{
    match kind {
        None => false,
        Some(Kind::File) => true,
        Some(Kind::Directory) => true,
        Some(Kind::SymbolicLink) => true,
    }
}
