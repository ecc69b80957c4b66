// What has the first of two names gets the second, or a copy does where none can be had.
ghost use Rattle.std.specs.Prelude.{◌≡◌, IfOk, MatchBool, MatchOption, None, false};
ghost use Rattle.host_core.specs.Host.{AtEachMoment, Counts, Gives, Leaves, Needs, Silent};
ghost use Rattle.host_core.specs.Paths.{is_path};
ghost use Rattle.host_core.specs.Unsynced.{is_temporary};
ghost use Rattle.host_core.specs.World.{HasParent, IsFile, IsLoose};
ghost use Rattle.administration.specs.Files.{IsReplaced};
ghost use Rattle.administration.specs.Places.{temporary};
ghost use Rattle.info_format.specs.Steps.{HasNoRoom, IsAtBoth, IsGiving, IsWriting};

use crate::pairs::Pair;
use administration::{is_directory, replace};
use host_core::{Host, HostFault, Node, RootPath};
use std::alloc::{AllocError, Global};

// The name at which a file is written before it gets this one, if that makes a path.
fn spare_of(alloc: Global, short: &RootPath) -> Result<Option<RootPath>, AllocError>
    ensures { IfOk result (λ o. MatchOption o (is_path (temporary short.now) ≡ false)
        (λ p. p ≡ temporary short.now)) }
{
    let mut text = String::from_str(alloc, short.as_str())?;
    text.push_str(".dpkg-inst")?;
    RootPath::parse(alloc, text.as_str())
}

// A file is written where nothing stands, and whether there was room for that.
fn write_file<H: Host>(
    alloc: Global,
    host: &mut H,
    short: &RootPath,
    node: &Node,
) -> Result<bool, HostFault>
    requires file { IsFile node.now }
    requires absent { Needs (H.state host.old) (λ w. w short.now ≡ None) }
    requires parent { Needs (H.state host.old) (λ w. HasParent w short.now) }
    ensures written { Gives result (λ done old new. MatchBool done
        (IsReplaced short.now node.now old new)
        ((new ≡ old) × HasNoRoom short.now old)) (H.state host.old) (H.state host.new) }
    ensures any_moment { AtEachMoment (IsWriting short.now node.now) (H.state host.old)
        (H.state host.new) }
    ensures silent { Silent (H.state host.old) (H.state host.new) }
    ensures counts { Counts (H.state host.old) (H.state host.new) result }
{
    let Some(spare) = spare_of(alloc, short)? else {
        return Ok(false);
    };
    spare.law();
    if is_directory(host, &spare)? {
        return Ok(false);
    }
    replace(host, short, node)?;
    Ok(true)
}

// A copy of what has the first name stands at the second, and whether there was room for it.
fn copy<H: Host>(alloc: Global, host: &mut H, pair: &Pair) -> Result<bool, HostFault>
    requires there { Needs (H.state host.old) (λ w. IsLoose (w pair.now.long)) }
    requires absent { Needs (H.state host.old) (λ w. w pair.now.short ≡ None) }
    requires parent { Needs (H.state host.old) (λ w. HasParent w pair.now.short) }
    ensures copied { Gives result (λ done old new. MatchBool done
        (IsAtBoth pair.now.long pair.now.short old new)
        ((new ≡ old) × HasNoRoom pair.now.short old)) (H.state host.old) (H.state host.new) }
    ensures any_moment { AtEachMoment (IsGiving pair.now.long pair.now.short) (H.state host.old)
        (H.state host.new) }
    ensures silent { Silent (H.state host.old) (H.state host.new) }
    ensures counts { Counts (H.state host.old) (H.state host.new) result }
{
    let Some(node) = host.node(&pair.long)? else {
        return Ok(false);
    };
    match &node {
        Node::File { .. } => write_file(alloc, host, &pair.short, &node),
        Node::Dir { .. } => Ok(false),
        Node::Link { target } => {
            host.make_link(&pair.short, target)?;
            Ok(true)
        }
    }
}

/// What has the first name gets the second, where nothing stands; where the file system gives none a
/// copy does, whose bytes are on the disk before.
pub(crate) fn link_or_copy<H: Host>(
    alloc: Global,
    host: &mut H,
    pair: &Pair,
) -> Result<(), HostFault>
    requires proper { is_temporary pair.now.long ≡ false }
    requires there { Needs (H.state host.old) (λ w. IsLoose (w pair.now.long)) }
    requires absent { Needs (H.state host.old) (λ w. w pair.now.short ≡ None) }
    requires parent { Needs (H.state host.old) (λ w. HasParent w pair.now.short) }
    ensures both { Leaves result (IsAtBoth pair.now.long pair.now.short) (H.state host.old)
        (H.state host.new) }
    ensures any_moment { AtEachMoment (IsGiving pair.now.long pair.now.short) (H.state host.old)
        (H.state host.new) }
    ensures silent { Silent (H.state host.old) (H.state host.new) }
    ensures counts { Counts (H.state host.old) (H.state host.new) result }
{
    match host.link(&pair.long, &pair.short) {
        Ok(()) => Ok(()),
        Err(HostFault::Declined) => {
            if copy(alloc, host, pair)? {
                return Ok(());
            }
            Err(HostFault::Declined)
        }
        Err(HostFault::Device) => Err(HostFault::Device),
        Err(HostFault::NoMemory) => Err(HostFault::NoMemory),
    }
}
