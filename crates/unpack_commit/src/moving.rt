// The moves of a commit, with what its change says.
ghost use Rattle.std.specs.Prelude.{◌≡◌, ◌⊎◌, ℕ, List, Contains, OnOk, OnErr, true, false};
ghost use Rattle.host_core.specs.Events.{IsDeniedIn};
ghost use Rattle.host_core.specs.Host.{AtEachMoment, AtEachMomentOf, Counts, Leaves, Needs, Silent, WasDenied};
ghost use Rattle.texts.specs.PackageNames.{is_package_name};
ghost use Rattle.administration.specs.Places.{list_path};
ghost use Rattle.file_lists.specs.Owners.{AreListPaths};
ghost use Rattle.file_lists.specs.Taking.{without_all};
ghost use Rattle.file_lists.specs.Writing.{list_file, with_list, IsListReady};
ghost use Rattle.listed_files.specs.Closing.{BeganWithBarrier, HasReleased, HasRenewedUnless, MayRelease, MayRenewUnless, SparesAdministration};

use crate::change::Change;
use diversions::Diversions;
use file_lists::{FileLists, Paths};
use host_core::{Host, HostFault};
use listed_files::{release, renew_list};
use std::alloc::Global;

/// Takes away what goes, and then writes the new list.
pub(crate) fn renew<H: Host>(
    alloc: Global,
    host: &mut H,
    lists: &mut FileLists,
    change: &Change,
    new_list: Paths,
) -> Result<(), HostFault>
    requires opened { lists.old.closed ≡ false }
    requires named { is_package_name change.now.name ≡ true }
    requires spared { SparesAdministration change.now.leaving.items }
    requires paths { AreListPaths new_list }
    requires ready { Needs (H.state host.old) (IsListReady change.now.name) }
    ensures lists { OnOk result (lists.new ≡ record lists.old {
      lists = with_list change.now.name
          new_list lists.old.lists;
    }) }
    ensures err { OnErr result ((lists.new ≡ record lists.old { closed = true })
        ⊎ (lists.new ≡ lists.old)) }
    ensures renewed { Leaves result (HasRenewedUnless (WasDenied (H.state host.old)
        (H.state host.new)) change.now.leaving.items (list_path change.now.name)
        (list_file new_list)) (H.state host.old) (H.state host.new) }
    ensures any_moment { AtEachMomentOf (λ old so_far now. MayRenewUnless (IsDeniedIn so_far)
        change.now.leaving.items (list_path change.now.name) (list_file new_list) old now)
        (H.state host.old) (H.state host.new) }
    ensures first { OnOk result (BeganWithBarrier (H.state host.old) (H.state host.new)) }
    ensures silent { Silent (H.state host.old) (H.state host.new) }
    ensures counts { Counts (H.state host.old) (H.state host.new) result }
{
    let leaving = change.leaving.as_slice();
    renew_list(alloc, host, lists, &change.name, leaving, new_list)
}

/// Takes the places out of other lists, and clears the names that only the installer writes.
pub(crate) fn release_places<H: Host>(
    alloc: Global,
    host: &mut H,
    lists: &mut FileLists,
    diversions: &Diversions,
    change: &Change,
) -> Result<(), HostFault>
    requires opened { lists.old.closed ≡ false }
    requires named { (name : List ℕ) → Contains change.now.losers name → is_package_name name
        ≡ true }
    requires ready { Needs (H.state host.old) (λ w. (name : List ℕ)
        → Contains change.now.losers name → IsListReady name w) }
    ensures lists { OnOk result (lists.new ≡ record lists.old {
      lists = without_all diversions.now.ways change.now.places.items change.now.losers
          lists.old.lists;
    }) }
    ensures err { OnErr result ((lists.new.closed ≡ true)
        ⊎ (lists.new ≡ record lists.old {
          lists = without_all diversions.now.ways
              change.now.places.items change.now.losers lists.old.lists;
        })) }
    ensures released { Leaves result (HasReleased diversions.now.ways change.now.places.items
        change.now.losers lists.old.lists change.now.names.items) (H.state host.old)
        (H.state host.new) }
    ensures any_moment { AtEachMoment (MayRelease diversions.now.ways change.now.places.items
        change.now.losers lists.old.lists change.now.names.items) (H.state host.old)
        (H.state host.new) }
    ensures silent { Silent (H.state host.old) (H.state host.new) }
    ensures counts { Counts (H.state host.old) (H.state host.new) result }
{
    let places = change.places.as_slice();
    let losers = change.losers.as_slice();
    let names = change.names.as_slice();
    release(alloc, host, lists, diversions, places, losers, names)
}
