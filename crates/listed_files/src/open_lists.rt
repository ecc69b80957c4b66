// Writing into lists that are open, and the file of a list that goes.
ghost use Rattle.std.specs.Prelude.{◌≡◌, ℕ, List, Contains, OnOk, OnErr, true, false};
ghost use Rattle.host_core.specs.Host.{AtEachMoment, Counts, Leaves, Needs, Silent};
ghost use Rattle.texts.specs.PackageNames.{is_package_name};
ghost use Rattle.administration.specs.Files.{IsDropped, IsDropping, IsReplaced, IsReplacing};
ghost use Rattle.administration.specs.Places.{list_path as list_place};
ghost use Rattle.file_lists.specs.Owners.{AreListPaths};
ghost use Rattle.file_lists.specs.Taking.{HasTakenAll, IsTaking, without_all};
ghost use Rattle.file_lists.specs.Writing.{list_file, with_list, IsListReady};

use administration::{discard, list_path};
use diversions::Diversions;
use file_lists::{FileLists, ListFault, Paths};
use host_core::{Host, HostFault, RootPath};
use std::alloc::Global;
use texts::Text;

/// Writes the list of a package: since the lists are open, no other fault than the host's comes.
pub fn replace_list<H: Host>(
    alloc: Global,
    host: &mut H,
    lists: &mut FileLists,
    name: &Text,
    paths: Paths,
) -> Result<(), HostFault>
    requires opened { lists.old.closed ≡ false }
    requires named { is_package_name name.now ≡ true }
    requires paths { AreListPaths paths }
    requires ready { Needs (H.state host.old) (IsListReady name.now) }
    ensures lists { OnOk result
        (lists.new ≡ record lists.old { lists = with_list name.now paths lists.old.lists }) }
    ensures err { OnErr result (lists.new ≡ record lists.old { closed = true }) }
    ensures replaced { Leaves result (IsReplaced (list_place name.now) (list_file paths))
        (H.state host.old) (H.state host.new) }
    ensures any_moment { AtEachMoment (IsReplacing (list_place name.now) (list_file paths))
        (H.state host.old) (H.state host.new) }
    ensures silent { Silent (H.state host.old) (H.state host.new) }
    ensures counts { Counts (H.state host.old) (H.state host.new) result }
{
    match lists.replace(alloc, host, name, paths) {
        Ok(()) => Ok(()),
        Err(ListFault::Device) => Err(HostFault::Device),
        Err(ListFault::NoMemory) => Err(HostFault::NoMemory),
        Err(ListFault::Declined) => Err(HostFault::Declined),
        Err(ListFault::Closed) => unreachable!(),
    }
}

/// The file of a package's list goes.
pub fn drop_list<H: Host>(alloc: Global, host: &mut H, name: &Text) -> Result<(), HostFault>
    requires named { is_package_name name.now ≡ true }
    requires ready { Needs (H.state host.old) (IsListReady name.now) }
    ensures dropped { Leaves result (IsDropped (list_place name.now))
        (H.state host.old) (H.state host.new) }
    ensures any_moment { AtEachMoment (IsDropping (list_place name.now))
        (H.state host.old) (H.state host.new) }
    ensures silent { Silent (H.state host.old) (H.state host.new) }
    ensures counts { Counts (H.state host.old) (H.state host.new) result }
{
    let path = list_path(alloc, name)?;
    discard(host, &path)
}

/// Takes these places out of the lists of these packages.
pub(crate) fn take_places<H: Host>(
    alloc: Global,
    host: &mut H,
    lists: &mut FileLists,
    diversions: &Diversions,
    places: &[RootPath],
    from: &[Text],
) -> Result<(), HostFault>
    requires opened { lists.old.closed ≡ false }
    requires named { (name : List ℕ) → Contains from.now name → is_package_name name ≡ true }
    requires ready { Needs (H.state host.old) (λ w. (name : List ℕ) → Contains from.now name
        → IsListReady name w) }
    ensures lists { OnOk result (lists.new ≡ record lists.old
        { lists = without_all diversions.now.ways places.now from.now lists.old.lists }) }
    ensures err { OnErr result (lists.new.closed ≡ true) }
    ensures taken { Leaves result (HasTakenAll diversions.now.ways places.now from.now
        lists.old.lists) (H.state host.old) (H.state host.new) }
    ensures any_moment { AtEachMoment (IsTaking diversions.now.ways places.now from.now
        lists.old.lists) (H.state host.old) (H.state host.new) }
    ensures silent { Silent (H.state host.old) (H.state host.new) }
    ensures counts { Counts (H.state host.old) (H.state host.new) result }
{
    match lists.take(alloc, host, diversions, places, from) {
        Ok(()) => Ok(()),
        Err(ListFault::Device) => Err(HostFault::Device),
        Err(ListFault::NoMemory) => Err(HostFault::NoMemory),
        Err(ListFault::Declined) => Err(HostFault::Declined),
        Err(ListFault::Closed) => unreachable!(),
    }
}
