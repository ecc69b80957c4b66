// Steps of an unpack's commit.
ghost use Rattle.std.specs.Prelude.{◌≡◌, ◌⊎◌, ℕ, List, Contains, OnOk, OnErr, true, false};
ghost use Rattle.host_core.specs.Events.{IsDeniedIn};
ghost use Rattle.host_core.specs.Host.{AtEachMoment, AtEachMomentOf, Counts, Leaves, Needs, Silent, WasDenied};
ghost use Rattle.texts.specs.PackageNames.{is_package_name};
ghost use Rattle.administration.specs.Places.{list_path};
ghost use Rattle.file_lists.specs.Owners.{AreListPaths};
ghost use Rattle.file_lists.specs.Taking.{without_all};
ghost use Rattle.file_lists.specs.Writing.{list_file, with_list, IsListReady};
ghost use Rattle.listed_files.specs.Closing.{BeganWithBarrier, HasReleased, HasRenewedUnless, LeavesRetired, MayRelease, MayRenewUnless, SparesAdministration};

use crate::open_lists::{replace_list, take_places};
use diversions::Diversions;
use file_lists::{FileLists, Paths};
use file_removal::{Leaving, remove_owned, retire_names};
use host_core::{Host, HostFault, RootPath};
use std::alloc::Global;
use texts::Text;

/// Takes away what the new version of a package has no more, but for directories whose removal is
/// declined, and then writes its list. What was written in the place of old files is on the disk
/// before: what goes may be another name of a file whose place was taken, and lends no rights any
/// more.
pub fn renew_list<H: Host>(
    alloc: Global,
    host: &mut H,
    lists: &mut FileLists,
    name: &Text,
    leaving: &[Leaving],
    shipped: Paths,
) -> Result<(), HostFault>
    requires opened { lists.old.closed ≡ false }
    requires named { is_package_name name.now ≡ true }
    requires spared { SparesAdministration leaving.now }
    requires paths { AreListPaths shipped }
    requires ready { Needs (H.state host.old) (IsListReady name.now) }
    ensures lists { OnOk result (lists.new ≡ record lists.old {
      lists = with_list name.now shipped
          lists.old.lists;
    }) }
    ensures err { OnErr result ((lists.new ≡ record lists.old { closed = true })
        ⊎ (lists.new ≡ lists.old)) }
    ensures renewed { Leaves result (HasRenewedUnless (WasDenied (H.state host.old)
        (H.state host.new)) leaving.now (list_path name.now) (list_file shipped)) (H.state host.old)
        (H.state host.new) }
    ensures any_moment { AtEachMomentOf (λ old so_far now. MayRenewUnless (IsDeniedIn so_far)
        leaving.now (list_path name.now) (list_file shipped) old now) (H.state host.old) (H.state host.new) }
    ensures first { OnOk result (BeganWithBarrier (H.state host.old) (H.state host.new)) }
    ensures silent { Silent (H.state host.old) (H.state host.new) }
    ensures counts { Counts (H.state host.old) (H.state host.new) result }
{
    host.barrier()?;
    remove_owned(host, leaving)?;
    replace_list(alloc, host, lists, name, shipped)
}

/// Takes the places of written files and links out of these packages' lists, and then takes away
/// what stands at names that only the installer writes: backups, and new versions of conffiles that
/// are shipped no more. No other name of such a file lends rights any more.
pub fn release<H: Host>(
    alloc: Global,
    host: &mut H,
    lists: &mut FileLists,
    diversions: &Diversions,
    places: &[RootPath],
    from: &[Text],
    names: &[RootPath],
) -> Result<(), HostFault>
    requires opened { lists.old.closed ≡ false }
    requires named { (name : List ℕ) → Contains from.now name → is_package_name name ≡ true }
    requires ready { Needs (H.state host.old) (λ w. (name : List ℕ) → Contains from.now name
        → IsListReady name w) }
    ensures lists { OnOk result (lists.new ≡ record lists.old
        { lists = without_all diversions.now.ways places.now from.now lists.old.lists }) }
    ensures err { OnErr result ((lists.new.closed ≡ true)
        ⊎ (lists.new ≡ record lists.old {
          lists = without_all diversions.now.ways places.now
              from.now lists.old.lists;
        })) }
    ensures released { Leaves result (HasReleased diversions.now.ways places.now from.now
        lists.old.lists names.now) (H.state host.old) (H.state host.new) }
    ensures retired { LeavesRetired result diversions.now.ways places.now from.now
        lists.old.lists (H.state host.old) (H.state host.new) }
    ensures any_moment { AtEachMoment (MayRelease diversions.now.ways places.now from.now
        lists.old.lists names.now) (H.state host.old) (H.state host.new) }
    ensures silent { Silent (H.state host.old) (H.state host.new) }
    ensures counts { Counts (H.state host.old) (H.state host.new) result }
{
    take_places(alloc, host, lists, diversions, places, from)?;
    retire_names(host, names)
}
