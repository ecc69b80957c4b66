// The ship map of a tree.
ghost use Rattle.std.specs.Prelude.{◌≡◌, ◌≤◌, ◌++◌, ◌∷◌, [], IfNone, IfOk, OnOk, IsTrue, MatchBool, MatchOption, Some, length};
ghost use Rattle.host_core.specs.Host.{Needs};
ghost use Rattle.host_core.specs.Looks.{Looks};
ghost use Rattle.host_core.specs.declared.node.Node.{Node as ANode};
ghost use Rattle.package_tree.specs.ShipMap.{paths_of, AreFiles, IsExcess, IsLarge, IsTooLarge};
ghost use Rattle.package_tree.specs.Shipped.{AreShipped, HasNoPath};

use crate::shipped::Shipped;
use host_core::{Host, HostFault, Node, RootPath, ShipPath};
use std::alloc::{AllocError, Global};

// The most paths that a tree may ship.
const MOST_PATHS: usize = 65_536;

// The most bytes of a shipped file: 16 GiB.
const MOST_BYTES: u64 = 17_179_869_184;

/// Why a shipped path is more than a tree may hold: its file is too large, or as many paths as may be come before it.
#[derive(Drop)]
pub(crate) enum Excess {
    Large(RootPath),
    Many(RootPath),
}

fn is_large(node: &Option<Node>) -> bool
    ensures { MatchBool result (IsLarge node.now) (IsLarge node.now → ⊥) }
{
    match node {
        Some(Node::File { bytes, .. }) => bytes.length() > MOST_BYTES,
        Some(Node::Dir { .. }) => false,
        Some(Node::Link { .. }) => false,
        None => false,
    }
}

// Adds a path with what stands there. What the walk found is there and is a path of a package,
// unless another writer is at work on the tree.
fn push(
    alloc: Global,
    path: &RootPath,
    node: Option<Node>,
    files: &mut Vec<Shipped>,
) -> Result<(), AllocError>
    ensures { OnOk result
        ((found : ANode) × (node ≡ Some found)
        × (files.new.items ≡ files.old.items ++ record { path = path.now; node = found } ∷ [])) }
{
    let Some(node) = node else {
        return Err(AllocError);
    };
    let Some(path) = ShipPath::parse(alloc, path.as_str())? else {
        return Err(AllocError);
    };
    files.push(Shipped { path, node })?;
    Ok(())
}

// Adds a path with what stands there, and tells whether that is too large instead.
fn add<H: Host>(
    alloc: Global,
    host: &mut H,
    path: &RootPath,
    files: &mut Vec<Shipped>,
) -> Result<bool, HostFault>
    ensures looks { Looks result
        (λ large w. MatchBool large (IsLarge (w path.now))
        ((IsLarge (w path.now) → ⊥)
        × ((node : ANode) × (w path.now ≡ Some node)
        × (files.new.items ≡ files.old.items ++ record { path = path.now; node = node } ∷ []))))
        (H.state host.old) (H.state host.new) }
    ensures added { IfOk result
        (λ large. MatchBool large (files.new.items ≡ files.old.items)
        ((node : ANode)
        × (files.new.items ≡ files.old.items ++ record { path = path.now; node = node } ∷ []))) }
{
    let node = host.node(path)?;
    if is_large(&node) {
        return Ok(true);
    }
    push(alloc, path, node, files)?;
    Ok(false)
}

/// Collects what stands at the shipped paths, or tells the first of them that is more than a tree
/// may hold. Each file is read once, and none behind that path.
#[tactic(auto, using(host_core::proofs::Moments::reads_then))]
pub(crate) fn collect<H: Host>(
    alloc: Global,
    host: &mut H,
    paths: &[RootPath],
    files: &mut Vec<Shipped>,
) -> Result<Option<Excess>, HostFault>
    requires empty { files.old.items ≡ [] }
    requires shipped { Needs (H.state host.old) (λ w. AreShipped w paths.now) }
    ensures looks { Looks result
        (λ excess w. MatchOption excess (AreFiles w files.new.items × HasNoPath (IsTooLarge w))
        (IsExcess w))
        (H.state host.old) (H.state host.new) }
    ensures whole { IfOk result
        (λ excess.
        IfNone excess ((paths_of files.new.items ≡ paths.now) × (length files.new.items ≤ 65536))) }
{
    for (index, path) in paths.iter().enumerate() {
        if index >= MOST_PATHS {
            return Ok(Some(Excess::Many(path.copy()?)));
        }
        if add(alloc, host, path, files)? {
            return Ok(Some(Excess::Large(path.copy()?)));
        }
    }
    Ok(None)
}
