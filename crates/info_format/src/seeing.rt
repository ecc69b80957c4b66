// Names are seen as they would be brought to format 0, of a host that is only looked at.
ghost use Rattle.std.specs.Prelude.{◌≡◌, ◌&&◌, is_some, not};
ghost use Rattle.host_core.specs.Host.{Leaves, Needs, Reads, Silent, Counts};
ghost use Rattle.host_core.specs.Looks.{Looks};
ghost use Rattle.host_core.specs.World.{HasParent};
ghost use Rattle.host_overlay.specs.Seen.{AreSources, seen};
ghost use Rattle.info_format.specs.Seeing.{HasNoFirst, HasSecond};
ghost use Rattle.info_format.specs.Steps.{AreApart, AreGiven, AreTaken, HaveParents};
ghost use Rattle.info_format.specs.Tests.{is_loose};

use crate::format::{is_loose_kind, is_some_kind};
use crate::pairs::Pair;
use host_core::{Host, HostFault, RootPath};
use host_overlay::SeenNames;

// Whether a file or link is seen there.
fn is_loose<H: Host>(host: &mut H, names: &SeenNames, path: &RootPath) -> Result<bool, HostFault>
    ensures looks { Looks result (λ loose w. loose ≡ is_loose (seen names.now w path.now))
        (H.state host.old) (H.state host.new) }
{
    let kind = names.kind(host, path)?;
    Ok(is_loose_kind(kind))
}

// Whether something is.
fn is_there<H: Host>(host: &mut H, names: &SeenNames, path: &RootPath) -> Result<bool, HostFault>
    ensures looks { Looks result (λ there w. there ≡ is_some (seen names.now w path.now))
        (H.state host.old) (H.state host.new) }
{
    let kind = names.kind(host, path)?;
    Ok(is_some_kind(kind))
}

// Whether what has the first name lacks the second.
#[tactic(auto, using(host_core::proofs::Moments::reads_then))]
fn lacks<H: Host>(host: &mut H, names: &SeenNames, pair: &Pair) -> Result<bool, HostFault>
    ensures looks { Looks result (λ lacks w. lacks ≡ (is_loose (seen names.now w pair.now.long)
        && not (is_some (seen names.now w pair.now.short)))) (H.state host.old)
        (H.state host.new) }
{
    let loose = is_loose(host, names, &pair.long)?;
    let there = is_there(host, names, &pair.short)?;
    Ok(loose && !there)
}

// Whether it stands beside the second.
#[tactic(auto, using(host_core::proofs::Moments::reads_then))]
fn is_beside<H: Host>(host: &mut H, names: &SeenNames, pair: &Pair) -> Result<bool, HostFault>
    ensures looks { Looks result (λ beside w. beside ≡ (is_loose (seen names.now w pair.now.long)
        && is_loose (seen names.now w pair.now.short))) (H.state host.old) (H.state host.new) }
{
    let long = is_loose(host, names, &pair.long)?;
    let short = is_loose(host, names, &pair.short)?;
    Ok(long && short)
}

// What has the first name is seen at the second, where nothing stands.
fn see_second<H: Host>(host: &mut H, names: &mut SeenNames, pair: &Pair) -> Result<(), HostFault>
    requires parent { Needs (H.state host.old)
        (λ w. HasParent (seen names.old w) pair.now.short) }
    ensures given { Leaves result
        (λ w _. HasSecond pair.now.long pair.now.short (seen names.old w) (seen names.new w))
        (H.state host.old) (H.state host.new) }
    ensures there { Leaves result (λ w _. AreSources names.old w → AreSources names.new w)
        (H.state host.old) (H.state host.new) }
    ensures reads { Reads (H.state host.old) (H.state host.new) }
    ensures silent { Silent (H.state host.old) (H.state host.new) }
    ensures counts { Counts (H.state host.old) (H.state host.new) result }
{
    if lacks(host, names, pair)? {
        return Ok(names.link(&pair.long, &pair.short)?);
    }
    Ok(())
}

/// Of each pair.
pub(crate) fn see_seconds<H: Host>(
    host: &mut H,
    names: &mut SeenNames,
    pairs: &[Pair],
) -> Result<(), HostFault>
    requires apart { AreApart pairs.now }
    requires parents { Needs (H.state host.old) (λ w. HaveParents pairs.now (seen names.old w)) }
    ensures given { Leaves result
        (λ w _. AreGiven pairs.now (seen names.old w) (seen names.new w))
        (H.state host.old) (H.state host.new) }
    ensures there { Leaves result (λ w _. AreSources names.old w → AreSources names.new w)
        (H.state host.old) (H.state host.new) }
    ensures reads { Reads (H.state host.old) (H.state host.new) }
    ensures silent { Silent (H.state host.old) (H.state host.new) }
    ensures counts { Counts (H.state host.old) (H.state host.new) result }
{
    for pair in pairs {
        see_second(host, names, pair)?;
    }
    Ok(())
}

// The first name isn't seen any more, where the second stands.
fn lose_first<H: Host>(host: &mut H, names: &mut SeenNames, pair: &Pair) -> Result<(), HostFault>
    ensures taken { Leaves result
        (λ w _. HasNoFirst pair.now.long pair.now.short (seen names.old w) (seen names.new w))
        (H.state host.old) (H.state host.new) }
    ensures there { Leaves result (λ w _. AreSources names.old w → AreSources names.new w)
        (H.state host.old) (H.state host.new) }
    ensures reads { Reads (H.state host.old) (H.state host.new) }
    ensures silent { Silent (H.state host.old) (H.state host.new) }
    ensures counts { Counts (H.state host.old) (H.state host.new) result }
{
    if is_beside(host, names, pair)? {
        return Ok(names.take(&pair.long)?);
    }
    Ok(())
}

/// Of each pair.
pub(crate) fn lose_firsts<H: Host>(
    host: &mut H,
    names: &mut SeenNames,
    pairs: &[Pair],
) -> Result<(), HostFault>
    requires apart { AreApart pairs.now }
    ensures taken { Leaves result
        (λ w _. AreTaken pairs.now (seen names.old w) (seen names.new w))
        (H.state host.old) (H.state host.new) }
    ensures there { Leaves result (λ w _. AreSources names.old w → AreSources names.new w)
        (H.state host.old) (H.state host.new) }
    ensures reads { Reads (H.state host.old) (H.state host.new) }
    ensures silent { Silent (H.state host.old) (H.state host.new) }
    ensures counts { Counts (H.state host.old) (H.state host.new) result }
{
    for pair in pairs {
        lose_first(host, names, pair)?;
    }
    Ok(())
}
