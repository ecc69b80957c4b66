// Shipped paths are written, in three passes.
ghost use Rattle.std.specs.Prelude.{◌≡◌, ◌<◌, false, IfOk, IfSome, IsTrue, MatchOption, length};
ghost use Rattle.host_core.specs.Host.{AtEachMoment, Counts, Gives, Needs, Silent, denials};
ghost use Rattle.package_files.specs.Files.{Each, IsAmid, Undone, Written};
ghost use Rattle.package_files.specs.Free.{IsFreeIn, IsSeen};
ghost use Rattle.package_files.specs.Laid.{AllSynced, CanUndo, IsUndoing, Undoes};
ghost use Rattle.package_files.specs.Names.{AllInOrder, IsHomed, IsNamed};
ghost use Rattle.package_files.specs.Steps.{DeclinesTwice};

use crate::committing::commit_all;
use crate::preparing::prepare_all;
use crate::putting_back::take_back;
use crate::work::Work;
use host_core::{Host, HostFault};

/// The bytes of all new files go to the disk, and the answer is whether they did; where that is declined all is put back.
fn sync_all<H: Host>(host: &mut H, works: &[Work]) -> Result<bool, HostFault>
    requires named { Each IsNamed works.now }
    requires order { AllInOrder works.now }
    requires prepared { Needs (H.state host.old) (CanUndo works.now) }
    ensures synced { IfOk result (λ whole. IsTrue whole → AllSynced (H.state host.new).events) }
    ensures stays { Gives result (λ whole old new. IsTrue whole → new ≡ old) (H.state host.old)
        (H.state host.new) }
    ensures undone { Gives result (λ whole old new. whole ≡ false → Undoes works.now old new)
        (H.state host.old) (H.state host.new) }
    ensures denied { IfOk result (λ whole. whole ≡ false → denials (H.state host.old)
        < denials (H.state host.new)) }
    ensures twice { DeclinesTwice result (H.state host.old) (H.state host.new) }
    ensures any_moment { AtEachMoment (IsUndoing works.now) (H.state host.old)
        (H.state host.new) }
    ensures silent { Silent (H.state host.old) (H.state host.new) }
    ensures counts { Counts (H.state host.old) (H.state host.new) result }
{
    match host.sync_written() {
        Ok(()) => Ok(true),
        Err(HostFault::Declined) => {
            take_back(host, works)?;
            Ok(false)
        }
        Err(HostFault::Device) => Err(HostFault::Device),
        Err(HostFault::NoMemory) => Err(HostFault::NoMemory),
    }
}

/// Writes shipped paths in three passes: all are prepared, their bytes go to the disk in one step, and they take their
/// places. So a full disk shows before any file changes. Where a step is declined all that was done is undone, and the
/// answer is the place among the works of the path whose step it was, the first where it was that for all.
pub fn write_files<H: Host>(host: &mut H, works: &[Work]) -> Result<Option<usize>, HostFault>
    requires named { Each IsNamed works.now }
    requires order { AllInOrder works.now }
    requires free { Needs (H.state host.old) (λ w. Each (IsFreeIn w) works.now) }
    requires seen { Needs (H.state host.old) (λ w. Each (IsSeen w) works.now) }
    requires homed { Needs (H.state host.old) (λ w. Each (IsHomed works.now w) works.now) }
    ensures within { IfOk result (λ declined. IfSome declined (λ k. k < length works.now)) }
    ensures written { Gives result (λ declined old new. MatchOption declined
        (Written works.now old new) (λ k. Undone works.now old new)) (H.state host.old)
        (H.state host.new) }
    ensures denied { IfOk result (λ declined. IfSome declined (λ k. denials (H.state host.old)
        < denials (H.state host.new))) }
    ensures twice { DeclinesTwice result (H.state host.old) (H.state host.new) }
    ensures any_moment { AtEachMoment (λ old now. IsAmid works.now old old now) (H.state host.old)
        (H.state host.new) }
    ensures silent { Silent (H.state host.old) (H.state host.new) }
    ensures counts { Counts (H.state host.old) (H.state host.new) result }
{
    if let Some(index) = prepare_all(host, works)? {
        return Ok(Some(index));
    }
    if works.is_empty() {
        return Ok(None);
    }
    if !sync_all(host, works)? {
        return Ok(Some(0));
    }
    commit_all(host, works)
}
