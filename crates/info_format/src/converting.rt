// Names with an architecture are brought to those without.
ghost use Rattle.std.specs.Prelude.{◌≡◌, ◌≢◌, ◌&&◌, IfErr, IsTrue, MatchBool, OnOk, false, is_some, not, true};
ghost use Rattle.host_core.specs.Host.{AtEachMoment, Counts, Leaves, Needs, Reads, Silent};
ghost use Rattle.host_core.specs.Loss.{IsOnDisk};
ghost use Rattle.host_core.specs.Looks.{Looks};
ghost use Rattle.host_core.specs.Unsynced.{is_temporary};
ghost use Rattle.host_core.specs.World.{HasParent, IsLoose};
ghost use Rattle.administration.specs.Fault.{CountsAdministration};
ghost use Rattle.info_format.specs.Steps.{AreApart, AreGiven, AreFit, AreGiving, AreTaken, AreTaking, HasFirst, HasOther, HaveParents, IsGiving, IsTaken, IsUnfit, IsUnfitAmong, NoFirst};
ghost use Rattle.info_format.specs.Tests.{fits, is_loose};

use crate::copying::link_or_copy;
use crate::format::{fits, is_loose_kind, is_there};
use crate::pairs::Pair;
use administration::AdministrationFault;
use host_core::{Host, HostFault, Node, RootPath};
use std::alloc::Global;

// Looks at the two names of a control file.
#[tactic(auto, using(host_core::proofs::Moments::reads_then))]
fn check<H: Host>(host: &mut H, one: bool, pair: &Pair) -> Result<(), AdministrationFault>
    ensures fit { IsTrue (H.state host.new).honest → OnOk result
        (fits one ((H.state host.old).world pair.now.long)
        ((H.state host.old).world pair.now.short) ≡ true) }
    ensures fault { IsTrue (H.state host.new).honest
        → IfErr result (IsUnfit one (H.state host.old).world pair.now) }
    ensures reads { Reads (H.state host.old) (H.state host.new) }
    ensures silent { Silent (H.state host.old) (H.state host.new) }
    ensures counts { CountsAdministration (H.state host.old) (H.state host.new) result }
{
    let long = host.node(&pair.long)?;
    let short = host.node(&pair.short)?;
    let fit = fits(one, &long, &short)?;
    if fit {
        return Ok(());
    }
    Err(AdministrationFault::Damaged {
        file: pair.long.copy()?,
        line: 0,
    })
}

/// Looks at those of all, by whether it's format 1.
pub(crate) fn check_all<H: Host>(
    host: &mut H,
    one: bool,
    pairs: &[Pair],
) -> Result<(), AdministrationFault>
    ensures fit { IsTrue (H.state host.new).honest → OnOk result
        (AreFit one pairs.now (H.state host.old).world) }
    ensures fault { IsTrue (H.state host.new).honest
        → IfErr result (IsUnfitAmong one (H.state host.old).world pairs.now) }
    ensures reads { Reads (H.state host.old) (H.state host.new) }
    ensures silent { Silent (H.state host.old) (H.state host.new) }
    ensures counts { CountsAdministration (H.state host.old) (H.state host.new) result }
{
    for pair in pairs {
        check(host, one, pair)?;
    }
    Ok(())
}

/// Whether one of the first names stands.
pub(crate) fn has_long<H: Host>(host: &mut H, pairs: &[Pair]) -> Result<bool, HostFault>
    ensures looks { Looks result
        (λ any w. MatchBool any (HasFirst pairs.now w) (NoFirst pairs.now w)) (H.state host.old)
        (H.state host.new) }
{
    for pair in pairs {
        if is_there(host, &pair.long)? {
            return Ok(true);
        }
    }
    Ok(false)
}

// Whether a file or link stands there.
fn is_loose<H: Host>(host: &mut H, path: &RootPath) -> Result<bool, HostFault>
    ensures looks { Looks result (λ loose w. loose ≡ is_loose (w path.now)) (H.state host.old)
        (H.state host.new) }
{
    let kind = host.kind(path)?;
    Ok(is_loose_kind(kind))
}

// Whether what has the first name lacks the second.
#[tactic(auto, using(host_core::proofs::Moments::reads_then))]
fn lacks<H: Host>(host: &mut H, pair: &Pair) -> Result<bool, HostFault>
    ensures looks { Looks result (λ lacks w. lacks ≡ (is_loose (w pair.now.long)
        && not (is_some (w pair.now.short)))) (H.state host.old) (H.state host.new) }
{
    let loose = is_loose(host, &pair.long)?;
    let there = is_there(host, &pair.short)?;
    Ok(loose && !there)
}

// Whether it stands beside the second.
#[tactic(auto, using(host_core::proofs::Moments::reads_then))]
fn is_beside<H: Host>(host: &mut H, pair: &Pair) -> Result<bool, HostFault>
    ensures looks { Looks result (λ beside w. beside ≡ (is_loose (w pair.now.long)
        && is_loose (w pair.now.short))) (H.state host.old) (H.state host.new) }
{
    let long = is_loose(host, &pair.long)?;
    let short = is_loose(host, &pair.short)?;
    Ok(long && short)
}

// Gives what has the first name the second, where nothing stands.
fn give<H: Host>(alloc: Global, host: &mut H, pair: &Pair) -> Result<(), HostFault>
    requires proper { (is_temporary pair.now.long ≡ false)
        × (is_temporary pair.now.short ≡ false) }
    requires parent { Needs (H.state host.old) (λ w. HasParent w pair.now.short) }
    ensures given { Leaves result (HasOther pair.now.long pair.now.short) (H.state host.old)
        (H.state host.new) }
    ensures any_moment { AtEachMoment (IsGiving pair.now.long pair.now.short) (H.state host.old)
        (H.state host.new) }
    ensures silent { Silent (H.state host.old) (H.state host.new) }
    ensures counts { Counts (H.state host.old) (H.state host.new) result }
{
    if lacks(host, pair)? {
        return link_or_copy(alloc, host, pair);
    }
    Ok(())
}

// Gives each its second name.
pub(crate) fn give_all<H: Host>(
    alloc: Global,
    host: &mut H,
    pairs: &[Pair],
) -> Result<(), HostFault>
    requires apart { AreApart pairs.now }
    requires parents { Needs (H.state host.old) (HaveParents pairs.now) }
    ensures given { Leaves result (AreGiven pairs.now) (H.state host.old) (H.state host.new) }
    ensures any_moment { AtEachMoment (AreGiving pairs.now) (H.state host.old) (H.state host.new) }
    ensures silent { Silent (H.state host.old) (H.state host.new) }
    ensures counts { Counts (H.state host.old) (H.state host.new) result }
{
    for pair in pairs {
        give(alloc, host, pair)?;
    }
    Ok(())
}

// Takes the first name away where the second stands.
fn take<H: Host>(host: &mut H, pair: &Pair) -> Result<(), HostFault>
    ensures taken { Leaves result (λ old new. IsLoose (old pair.now.short)
        → IsLoose (new pair.now.long) → ⊥) (H.state host.old) (H.state host.new) }
    ensures any_moment { AtEachMoment (IsTaken pair.now.long pair.now.short) (H.state host.old)
        (H.state host.new) }
    ensures silent { Silent (H.state host.old) (H.state host.new) }
    ensures counts { Counts (H.state host.old) (H.state host.new) result }
{
    if is_beside(host, pair)? {
        return host.remove(&pair.long);
    }
    Ok(())
}

// Takes the first names away of those that have the second.
pub(crate) fn take_all<H: Host>(host: &mut H, pairs: &[Pair]) -> Result<(), HostFault>
    requires apart { AreApart pairs.now }
    requires disk { IsOnDisk (H.state host.old).events }
    ensures taken { Leaves result (AreTaken pairs.now) (H.state host.old) (H.state host.new) }
    ensures any_moment { AtEachMoment (AreTaking pairs.now) (H.state host.old) (H.state host.new) }
    ensures silent { Silent (H.state host.old) (H.state host.new) }
    ensures counts { Counts (H.state host.old) (H.state host.new) result }
{
    for pair in pairs {
        take(host, pair)?;
    }
    Ok(())
}
