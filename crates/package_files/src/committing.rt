// Files and links that stand at their temporary names take their places.
ghost use Rattle.std.specs.Prelude.{◌≡◌, ◌<◌, false, IfOk, IfSome, IsTrue, length};
ghost use Rattle.host_core.specs.Host.{AtEachMoment, Counts, Gives, Needs, Silent, denials};
ghost use Rattle.package_files.specs.Files.{Each};
ghost use Rattle.package_files.specs.Laid.{AllSynced, AreCommitting, CanCommit, CanCommitAll, CanTakePlace, Commits, CommitsAll, HasTakenPlace, IsCommitting, IsSame, IsTakingPlace};
ghost use Rattle.package_files.specs.Names.{AllInOrder, IsNamed};
ghost use Rattle.package_files.specs.Steps.{DeclinesTwice};

use crate::putting_back::take_back;
use crate::work::Work;
use host_core::{Host, HostFault};

/// A file or link takes the place of a file, a link or nothing, which is never missing; tells whether it has.
fn take_place<H: Host>(host: &mut H, work: &Work) -> Result<bool, HostFault>
    requires named { IsNamed work.now }
    requires synced { AllSynced (H.state host.old).events }
    requires ready { Needs (H.state host.old) (CanTakePlace work.now) }
    ensures taken { Gives result (λ whole old new. IsTrue whole → HasTakenPlace work.now old new)
        (H.state host.old) (H.state host.new) }
    ensures synced { IfOk result (λ whole. IsTrue whole → AllSynced (H.state host.new).events) }
    ensures left { Gives result (λ whole old new. whole ≡ false → IsSame old new)
        (H.state host.old) (H.state host.new) }
    ensures denied { IfOk result (λ whole. whole ≡ false → denials (H.state host.old)
        < denials (H.state host.new)) }
    ensures twice { DeclinesTwice result (H.state host.old) (H.state host.new) }
    ensures any_moment { AtEachMoment (IsTakingPlace work.now) (H.state host.old)
        (H.state host.new) }
    ensures silent { Silent (H.state host.old) (H.state host.new) }
    ensures counts { Counts (H.state host.old) (H.state host.new) result }
{
    match host.rename(&work.fresh, &work.target) {
        Ok(()) => Ok(true),
        Err(HostFault::Declined) => Ok(false),
        Err(HostFault::Device) => Err(HostFault::Device),
        Err(HostFault::NoMemory) => Err(HostFault::NoMemory),
    }
}

/// What is to take a place takes it.
fn commit_one<H: Host>(host: &mut H, work: &Work) -> Result<bool, HostFault>
    requires named { IsNamed work.now }
    requires synced { AllSynced (H.state host.old).events }
    requires ready { Needs (H.state host.old) (CanCommit work.now) }
    ensures taken { Gives result (λ whole old new. IsTrue whole → Commits work.now old new)
        (H.state host.old) (H.state host.new) }
    ensures synced { IfOk result (λ whole. IsTrue whole → AllSynced (H.state host.new).events) }
    ensures left { Gives result (λ whole old new. whole ≡ false → IsSame old new)
        (H.state host.old) (H.state host.new) }
    ensures denied { IfOk result (λ whole. whole ≡ false → denials (H.state host.old)
        < denials (H.state host.new)) }
    ensures twice { DeclinesTwice result (H.state host.old) (H.state host.new) }
    ensures any_moment { AtEachMoment (IsCommitting work.now) (H.state host.old)
        (H.state host.new) }
    ensures silent { Silent (H.state host.old) (H.state host.new) }
    ensures counts { Counts (H.state host.old) (H.state host.new) result }
{
    if !work.is_exchanged() {
        return Ok(true);
    }
    take_place(host, work)
}

/// Paths that were prepared take their places. Where a step is declined all are put back, and the answer is the place among
/// the works of the path that didn't take its own.
pub(crate) fn commit_all<H: Host>(host: &mut H, works: &[Work]) -> Result<Option<usize>, HostFault>
    requires named { Each IsNamed works.now }
    requires order { AllInOrder works.now }
    requires synced { AllSynced (H.state host.old).events }
    requires prepared { Needs (H.state host.old) (CanCommitAll works.now) }
    ensures within { IfOk result (λ declined. IfSome declined (λ k. k < length works.now)) }
    ensures committed { Gives result (λ declined. CommitsAll declined works.now) (H.state host.old)
        (H.state host.new) }
    ensures denied { IfOk result (λ declined. IfSome declined (λ k. denials (H.state host.old)
        < denials (H.state host.new))) }
    ensures twice { DeclinesTwice result (H.state host.old) (H.state host.new) }
    ensures any_moment { AtEachMoment (AreCommitting works.now) (H.state host.old)
        (H.state host.new) }
    ensures silent { Silent (H.state host.old) (H.state host.new) }
    ensures counts { Counts (H.state host.old) (H.state host.new) result }
{
    let mut index = 0;
    while index < works.len() {
        if !commit_one(host, &works[index])? {
            take_back(host, works)?;
            return Ok(Some(index));
        }
        index += 1;
    }
    Ok(None)
}
