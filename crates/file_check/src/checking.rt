// Shipped paths, one after another.
ghost use Rattle.std.specs.Prelude.{◌≡◌, false, MatchOption, IfOk, IfNone};
ghost use Rattle.std.specs.BTreeSet.{contains_text};
ghost use Rattle.host_core.specs.Host.{Needs};
ghost use Rattle.host_core.specs.Looks.{Looks};
ghost use Rattle.package_files.specs.Files.{Each};
ghost use Rattle.package_files.specs.Free.{IsSeen};
ghost use Rattle.undo_rows.specs.Place.{is_declined};
ghost use Rattle.file_check.specs.Index.{AllOutside};
ghost use Rattle.file_check.specs.Sound.{AreSound, IsFaultOf, IsFirstOf, IsSound};

use crate::above::look_above;
use crate::index::Index;
use crate::judging::judge;
use crate::owning::Owning;
use crate::sight::look_around;
use host_core::{Host, HostFault};
use package_files::Work;
use std::alloc::Global;
use undo_rows::StepFault;

// Looks at one path.
fn check_one<H: Host>(
    alloc: Global,
    host: &mut H,
    owning: &Owning<'_>,
    index: &Index,
    shipped: &Work,
) -> Result<Option<StepFault>, HostFault>
    requires seen { Needs (H.state host.old) (λ w. IsSeen w shipped.now) }
    ensures looks { Looks result
        (λ found w. MatchOption found
        (IsSound owning.now (contains_text index.now.made) (contains_text index.now.twice) w
        shipped.now)
        (IsFaultOf owning.now (contains_text index.now.made) (contains_text index.now.twice) w
        shipped.now))
        (H.state host.old) (H.state host.new) }
    ensures apart { IfOk result
        (λ found. IfNone found (contains_text index.now.twice shipped.now.place ≡ false)) }
    ensures undeclined { IfOk result (λ found. is_declined found ≡ false) }
{
    shipped.place.law();
    let above = look_above(alloc, host, &index.made, shipped.place.as_str())?;
    let sight = look_around(host, shipped)?;
    Ok(judge(alloc, owning, &index.twice, shipped, above, sight)?)
}

/// Looks at shipped paths in order, up to the first that has a fault.
pub(crate) fn check_each<H: Host>(
    alloc: Global,
    host: &mut H,
    owning: &Owning<'_>,
    index: &Index,
    works: &[Work],
) -> Result<Option<StepFault>, HostFault>
    requires seen { Needs (H.state host.old) (λ w. Each (IsSeen w) works.now) }
    ensures looks { Looks result
        (λ found w. MatchOption found
        (AreSound owning.now (contains_text index.now.made) (contains_text index.now.twice) w
        works.now)
        (IsFirstOf owning.now (contains_text index.now.made) (contains_text index.now.twice) w
        works.now))
        (H.state host.old) (H.state host.new) }
    ensures apart { IfOk result
        (λ found. IfNone found (AllOutside (contains_text index.now.twice) works.now)) }
    ensures undeclined { IfOk result (λ found. is_declined found ≡ false) }
{
    for one in works {
        if let Some(fault) = check_one(alloc, host, owning, index, one)? {
            return Ok(Some(fault));
        }
    }
    Ok(None)
}
