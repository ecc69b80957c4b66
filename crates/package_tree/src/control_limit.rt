// The limit of the files of `DEBIAN`.
ghost use Rattle.std.specs.Prelude.{IfOk, MatchBool, MatchOption, ◌≡◌};
ghost use Rattle.package_tree.specs.ControlLimit.{IsOver, IsOverFile, AreNoneOver, IsFirstOverAmong};
ghost use Rattle.package_tree.specs.OtherFiles.{control_member};

use crate::other_file::OtherFile;
use host_core::{Node, RootPath};
use std::alloc::{AllocError, Global};
use texts::Text;

// The most bytes of a file of `DEBIAN` that is read: 16 MiB.
const MOST_BYTES: u64 = 16_777_216;

fn is_over_file(node: &Node) -> bool
    ensures { MatchBool result (IsOverFile node.now) (IsOverFile node.now → ⊥) }
{
    match node {
        Node::File { bytes, .. } => bytes.length() > MOST_BYTES,
        Node::Dir { .. } => false,
        Node::Link { .. } => false,
    }
}

/// Whether a file of more bytes than that stands there.
pub(crate) fn is_over(node: &Option<Node>) -> bool
    ensures { MatchBool result (IsOver node.now) (IsOver node.now → ⊥) }
{
    match node {
        Some(node) => is_over_file(node),
        None => false,
    }
}

/// The first of some files that has more bytes.
pub(crate) fn first_over(others: &[OtherFile]) -> Option<&OtherFile>
    ensures { MatchOption result (AreNoneOver others.now)
        (λ other. IsFirstOverAmong others.now other.now) }
{
    for other in others {
        if is_over_file(&other.node) {
            return Some(other);
        }
    }
    None
}

/// Where a file of `DEBIAN` stands in a tree.
pub(crate) fn member_path(alloc: Global, name: &Text) -> Result<RootPath, AllocError>
    ensures { IfOk result (λ path. path ≡ control_member name.now) }
{
    let directory = RootPath::from_str(alloc, "/DEBIAN")?;
    match directory.child(name)? {
        Some(path) => Ok(path),
        None => Err(AllocError),
    }
}
