// The first step fault of the files of a package, or none.
ghost use Rattle.std.specs.Prelude.{◌≡◌, false, IfOk, IfNone, IfSome, MatchOption};
ghost use Rattle.std.specs.List.{IsDistinct};
ghost use Rattle.host_core.specs.Host.{Needs, Tells};
ghost use Rattle.host_core.specs.Looks.{Looks};
ghost use Rattle.package_files.specs.Files.{Each};
ghost use Rattle.package_files.specs.Free.{IsFreeIn, IsSeen};
ghost use Rattle.package_files.specs.Names.{IsHomed, IsNamed};
ghost use Rattle.undo_rows.specs.Place.{is_declined};
ghost use Rattle.file_check.specs.Clashes.{owning};
ghost use Rattle.file_check.specs.Ready.{is_one_place, IsFitting, IsSameBut};
ghost use Rattle.file_check.specs.Sound.{AllSound, IsFirstFault};

use crate::checking::check_each;
use crate::index::Index;
use crate::owning::Owning;
use crate::targets::look_at_targets;
use diversions::Diversions;
use file_lists::FileLists;
use host_core::{Host, HostFault};
use package_files::Work;
use std::alloc::Global;
use texts::Text;
use undo_rows::StepFault;

// Checks works at whose targets it was looked.
fn check_seen<H: Host>(
    alloc: Global,
    host: &mut H,
    owning: &Owning<'_>,
    works: &[Work],
) -> Result<Option<StepFault>, HostFault>
    requires seen { Needs (H.state host.old) (λ w. Each (IsSeen w) works.now) }
    ensures looks { Looks result
        (λ found w.
        MatchOption found (AllSound owning.now works.now w) (IsFirstFault owning.now works.now w))
        (H.state host.old) (H.state host.new) }
    ensures distinct { IfOk result (λ found. IfNone found (IsDistinct is_one_place works.now)) }
    ensures undeclined { IfOk result (λ found. is_declined found ≡ false) }
{
    let index = Index::of_works(alloc, works)?;
    check_each(alloc, host, owning, &index, works)
}

/// Finds the first step fault of a package's paths, given in path order, and sets what stands at each target.
pub fn check<H: Host>(
    alloc: Global,
    host: &mut H,
    lists: &FileLists,
    diversions: &Diversions,
    yields: &[Text],
    incoming: &Text,
    works: &mut [Work],
) -> Result<Option<StepFault>, HostFault>
    requires named { Each IsNamed works.old }
    requires fitting { Each IsFitting works.old }
    ensures same_works { IsSameBut works.old works.new }
    ensures seen { Tells result (λ found w. IfNone found (Each (IsSeen w) works.new))
        (H.state host.old) (H.state host.new) }
    ensures free { Tells result (λ found w. IfNone found (Each (IsFreeIn w) works.new))
        (H.state host.old) (H.state host.new) }
    ensures homed { Tells result (λ found w. IfNone found (Each (IsHomed works.new w) works.new))
        (H.state host.old) (H.state host.new) }
    ensures sound { Tells result
        (λ found w. IfNone found
        (AllSound (owning diversions.now.ways lists.now.lists yields.now incoming.now) works.new
        w))
        (H.state host.old) (H.state host.new) }
    ensures distinct { IfOk result (λ found. IfNone found (IsDistinct is_one_place works.new)) }
    ensures undeclined { IfOk result (λ found. is_declined found ≡ false) }
    ensures looks { Looks result
        (λ found w. IfSome found
        (IsFirstFault (owning diversions.now.ways lists.now.lists yields.now incoming.now)
        works.old w))
        (H.state host.old) (H.state host.new) }
{
    look_at_targets(host, works)?;
    let owning = Owning {
        lists,
        diversions,
        yields,
        incoming,
    };
    check_seen(alloc, host, &owning, works)
}
