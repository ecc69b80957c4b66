// How what would stand at a path differs from what stands there.
ghost use Rattle.std.specs.Prelude.{◌≡◌, ◌≢◌, IfOk, Some};
ghost use Rattle.host_core.specs.Nodes.{same_node};
ghost use Rattle.host_overlay.specs.Overlays.{LooksOver};
ghost use Rattle.foretold_changes.specs.Changes.{change_of, change_word};
ghost use Rattle.foretold_changes.specs.declared.change.Change.TheVariants.{Unread};

use host_core::{Host, HostFault, Node};
use host_overlay::Overlay;

/// What is told of a path; that it can't be read, where the device fails at a look.
#[derive(Clone, Copy)]
pub enum Change {
    Write,
    Replace,
    Remove,
    Unread,
}

fn same_node<H: Host>(host: &mut Overlay<H>, one: &Node, other: &Node) -> Result<bool, HostFault>
    ensures { LooksOver result (λ same w. same ≡ same_node one.now other.now) host.old
        host.new }
{
    match (one, other) {
        (
            Node::File { bytes, access },
            Node::File {
                bytes: others,
                access: owned,
            },
        ) => Ok(host.same(bytes, others)? && access.is_same(*owned)),
        (Node::File { .. }, Node::Dir { .. }) => Ok(false),
        (Node::File { .. }, Node::Link { .. }) => Ok(false),
        (Node::Dir { .. }, Node::File { .. }) => Ok(false),
        (Node::Dir { access }, Node::Dir { access: owned }) => Ok(access.is_same(*owned)),
        (Node::Dir { .. }, Node::Link { .. }) => Ok(false),
        (Node::Link { .. }, Node::File { .. }) => Ok(false),
        (Node::Link { .. }, Node::Dir { .. }) => Ok(false),
        (Node::Link { target }, Node::Link { target: aimed }) => {
            Ok(target.as_str() == aimed.as_str())
        }
    }
}

/// How two nodes differ.
pub(crate) fn change_of<H: Host>(
    host: &mut Overlay<H>,
    before: &Option<Node>,
    now: &Option<Node>,
) -> Result<Option<Change>, HostFault>
    ensures looks { LooksOver result (λ change w. change ≡ change_of before.now now.now) host.old
        host.new }
    ensures known { IfOk result (λ change. change ≢ Some Unread) }
{
    match (before, now) {
        (None, None) => Ok(None),
        (None, Some(_)) => Ok(Some(Change::Write)),
        (Some(_), None) => Ok(Some(Change::Remove)),
        (Some(old), Some(new)) => {
            if same_node(host, old, new)? {
                return Ok(None);
            }
            Ok(Some(Change::Replace))
        }
    }
}

pub(crate) fn change_word(change: Change) -> &'static str
    ensures { result.now ≡ change_word change }
{
    match change {
        Change::Write => "write",
        Change::Replace => "replace",
        Change::Remove => "remove",
        Change::Unread => "unread",
    }
}
