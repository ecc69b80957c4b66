// What stands at a path, by what was changed there and by the host below.
ghost use Rattle.std.specs.Prelude.{◌≡◌, ◌≤◌, false};
ghost use Rattle.std.specs.BTreeMap.{get_by_text};
ghost use Rattle.host_core.specs.Looks.{Looks};
ghost use Rattle.host_core.specs.World.{kind_of, lowered, lowered_access};
ghost use Rattle.host_overlay.specs.Standings.{comes, overlaid, stands};

use crate::changes::Changes;
use crate::standing::{Origin, Standing};
use host_core::{Access, Host, HostFault, Kind, Node, RootPath};

// The access of a file that lends no rights any more.
fn lowered_access(access: Access) -> Access
    ensures { result ≡ lowered_access access }
{
    if access.mode & 0o6000 == 0 {
        return access;
    }
    Access {
        mode: 0o600,
        user: access.user,
        group: access.group,
    }
}

fn lowered(node: Option<Node>) -> Option<Node>
    ensures { result ≡ lowered node }
{
    match node {
        Some(Node::File { bytes, access }) => Some(Node::File {
            bytes,
            access: lowered_access(access),
        }),
        other => other,
    }
}

fn origin_node<H: Host>(below: &mut H, origin: &Origin) -> Result<Option<Node>, HostFault>
    ensures { Looks result (λ node w. node ≡ comes origin.now w) (H.state below.old)
        (H.state below.new) }
{
    match origin {
        Origin::Nothing => Ok(None),
        Origin::Made(stored) => Ok(Some(stored.node().copy()?)),
        Origin::Below(path) => below.node(path),
    }
}

fn origin_kind<H: Host>(below: &mut H, origin: &Origin) -> Result<Option<Kind>, HostFault>
    ensures { Looks result (λ kind w. kind ≡ kind_of (comes origin.now w)) (H.state below.old)
        (H.state below.new) }
{
    match origin {
        Origin::Nothing => Ok(None),
        Origin::Made(stored) => Ok(Some(stored.node().kind())),
        Origin::Below(path) => below.kind(path),
    }
}

fn standing_node<H: Host>(below: &mut H, standing: &Standing) -> Result<Option<Node>, HostFault>
    ensures { Looks result (λ node w. node ≡ stands standing.now w) (H.state below.old)
        (H.state below.new) }
{
    let node = origin_node(below, &standing.origin)?;
    if standing.is_lowered {
        Ok(lowered(node))
    } else {
        Ok(node)
    }
}

// What stands at a path.
pub(crate) fn node_over<H: Host>(
    below: &mut H,
    changes: &Changes,
    path: &RootPath,
) -> Result<Option<Node>, HostFault>
    ensures { Looks result (λ node w. node ≡ overlaid (get_by_text changes.now.map) w path.now)
        (H.state below.old) (H.state below.new) }
{
    match changes.get(path) {
        Some(standing) => standing_node(below, standing),
        None => below.node(path),
    }
}

// What kind of node stands at a path.
pub(crate) fn kind_over<H: Host>(
    below: &mut H,
    changes: &Changes,
    path: &RootPath,
) -> Result<Option<Kind>, HostFault>
    ensures { Looks result (λ kind w. kind ≡ kind_of (overlaid (get_by_text changes.now.map) w
        path.now)) (H.state below.old) (H.state below.new) }
{
    match changes.get(path) {
        Some(standing) => origin_kind(below, &standing.origin),
        None => below.kind(path),
    }
}
