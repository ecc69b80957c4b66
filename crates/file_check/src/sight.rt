// What stands at the place of a shipped path and at the names beside it, and which of it is in the way.
ghost use Rattle.std.specs.Prelude.{◌≡◌, IfOk};
ghost use Rattle.host_core.specs.World.{kind_of};
ghost use Rattle.host_core.specs.Host.{Needs};
ghost use Rattle.host_core.specs.Looks.{Looks};
ghost use Rattle.package_files.specs.Free.{IsSeen};
ghost use Rattle.file_check.specs.InWay.{at_names, in_way, in_way_by, sight_of};

use crate::above::is_directory;
use crate::owning::Owning;
use crate::works::{is_astray, is_directory_node};
use host_core::{Host, HostFault, Kind, Node};
use package_files::Work;
use std::alloc::AllocError;

/// The kinds of what stands at a place and at the names beside it.
#[derive(Clone, Copy)]
pub(crate) struct Sight {
    pub place: Option<Kind>,
    pub backup: Option<Kind>,
    pub fresh: Option<Kind>,
}

fn at_names(target: Option<Kind>, backup: Option<Kind>, fresh: Option<Kind>) -> bool
    ensures { result ≡ at_names target backup fresh }
{
    is_directory(target) || is_directory(backup) || is_directory(fresh)
}

// A file or link needs its names but where a directory stands at its place; a directory needs the
// backup where it takes the place of a file.
fn in_way(diverted: bool, node: &Node, target: Option<Kind>, sight: Sight) -> bool
    ensures { result ≡ in_way diverted node.now sight.place target sight.backup sight.fresh }
{
    match (node, sight.place) {
        (Node::File { .. }, Some(Kind::Directory)) => true,
        (Node::File { .. }, _) => at_names(target, sight.backup, sight.fresh),
        (Node::Dir { .. }, Some(Kind::File)) => diverted || is_directory(sight.backup),
        (Node::Dir { .. }, _) => diverted,
        (Node::Link { .. }, Some(Kind::Directory)) => false,
        (Node::Link { .. }, _) => at_names(target, sight.backup, sight.fresh),
    }
}

/// Whether a directory is in the way, by what was seen. Only of a directory it matters whether it is diverted.
pub(crate) fn is_in_way(
    owning: &Owning<'_>,
    shipped: &Work,
    sight: Sight,
) -> Result<bool, AllocError>
    ensures { IfOk result (λ way. way ≡ in_way_by owning.now shipped.now shipped.now.had sight) }
{
    if !is_directory_node(&shipped.node) {
        let astray = is_astray(owning.diversions, shipped)?;
        return Ok(astray || in_way(false, &shipped.node, shipped.had, sight));
    }
    let diverted = owning.is_diverted(shipped)?;
    Ok(in_way(diverted, &shipped.node, shipped.had, sight))
}

// What stands at the place, which for all but a conffile is the target.
fn kind_at_place<H: Host>(host: &mut H, shipped: &Work) -> Result<Option<Kind>, HostFault>
    requires seen { Needs (H.state host.old) (λ w. IsSeen w shipped.now) }
    ensures looks { Looks result (λ kind w. kind ≡ kind_of (w shipped.now.place)) (H.state host.old)
        (H.state host.new) }
{
    if shipped.target.is(&shipped.place) {
        return Ok(shipped.had);
    }
    host.kind(&shipped.place)
}

/// Looks at the place of a shipped path and at the names beside it.
#[tactic(auto, using(host_core::proofs::Moments::reads_then))]
pub(crate) fn look_around<H: Host>(host: &mut H, shipped: &Work) -> Result<Sight, HostFault>
    requires seen { Needs (H.state host.old) (λ w. IsSeen w shipped.now) }
    ensures looks { Looks result (λ sight w. sight ≡ sight_of w shipped.now) (H.state host.old)
        (H.state host.new) }
{
    let place = kind_at_place(host, shipped)?;
    let backup = host.kind(&shipped.backup)?;
    let fresh = host.kind(&shipped.fresh)?;
    Ok(Sight {
        place,
        backup,
        fresh,
    })
}
