// What is missing of the aliases above paths, read before a unit is decided.
ghost use Rattle.std.specs.Prelude.{◌≡◌, IfOk, IsTrue, List, OnOk, length};
ghost use Rattle.aliases.specs.Aliases.{Alias};
ghost use Rattle.aliases.specs.Reading.{AreAliasesIn};
ghost use Rattle.file_lists.specs.Followed.{AreWhole, GrowAlong, HasMoreAliases};
ghost use Rattle.file_lists.specs.Owners.{places_in};
ghost use Rattle.held_administration.specs.Open.{IsOpen};
ghost use Rattle.host_core.specs.Host.{Counts, Leaves, Reads, Silent};
ghost use Rattle.package_tree.specs.ShipMap.{paths_of};
ghost use Rattle.unit_reports.specs.Held.{held_by};
ghost use Rattle.dpkg_session.specs.Growth.{AreAdded, KeepsEntries, with_more};

use diversions::Diversions;
use file_lists::{FileLists, read_above_each};
use held_administration::Administration;
use host_core::{Host, HostFault, Places, RootPath};
use package_tree::{Package, Shipped};
use std::alloc::{AllocError, Global};
use unit_reports::refresh;

// The paths of what a package ships.
fn paths_of(alloc: Global, files: &[Shipped]) -> Result<Vec<RootPath>, AllocError>
    ensures { IfOk result (λ paths. paths.items ≡ paths_of files.now) }
{
    let mut paths = Vec::new(alloc);
    for file in files {
        paths.push(file.path.at()?)?;
    }
    Ok(paths)
}

// Computes the places anew where there are more aliases than so many.
fn refresh_if_more(
    alloc: Global,
    lists: &FileLists,
    diversions: &Diversions,
    count: usize,
    places: &mut Places,
) -> Result<(), AllocError>
    ensures { OnOk result
        ((length diversions.now.ways.aliases ≡ count
        → places.old ≡ places_in diversions.now.ways lists.now.lists)
        → places.new ≡ places_in diversions.now.ways lists.now.lists) }
{
    if diversions.aliases().len() == count {
        return Ok(());
    }
    refresh(alloc, lists, diversions, places)
}

/// Reads what is missing of the aliases above paths, and computes the places of all lists anew where any came in.
pub(crate) fn follow_paths<H: Host>(
    alloc: Global,
    host: &mut H,
    lists: &FileLists,
    diversions: &mut Diversions,
    places: &mut Places,
    paths: &[RootPath],
) -> Result<(), HostFault>
    requires kept { places.old ≡ places_in diversions.old.ways lists.now.lists }
    ensures added { OnOk result ((added : List Alias)
        × (diversions.new.ways ≡ with_more diversions.old.ways added)
        × (IsTrue (H.state host.new).honest
        → AreAdded (H.state host.old).world paths.now diversions.old.ways.aliases added)) }
    ensures places { OnOk result (places.new ≡ places_in diversions.new.ways lists.now.lists) }
    ensures kept { KeepsEntries diversions.old diversions.new }
    ensures reads { Reads (H.state host.old) (H.state host.new) }
    ensures silent { Silent (H.state host.old) (H.state host.new) }
    ensures counts { Counts (H.state host.old) (H.state host.new) result }
{
    let count = diversions.aliases().len();
    read_above_each(alloc, host, paths, diversions)?;
    refresh_if_more(alloc, lists, diversions, count, places)?;
    Ok(())
}

/// The same above the paths of a tree.
pub(crate) fn follow_tree<H: Host>(
    host: &mut H,
    administration: &mut Administration,
    diversions: &mut Diversions,
    incoming: &Package,
) -> Result<(), HostFault>
    requires open { IsOpen diversions.old.ways administration.old }
    ensures added { OnOk result ((added : List Alias)
        × (diversions.new.ways ≡ with_more diversions.old.ways added)
        × (IsTrue (H.state host.new).honest → AreAdded (H.state host.old).world
        (paths_of incoming.now.files) diversions.old.ways.aliases added)) }
    ensures open { OnOk result (IsOpen diversions.new.ways administration.new) }
    ensures kept { KeepsEntries diversions.old diversions.new }
    ensures same { administration.new ≡ record administration.old {
      places = administration.new.places;
    } }
    ensures reads { Reads (H.state host.old) (H.state host.new) }
    ensures silent { Silent (H.state host.old) (H.state host.new) }
    ensures counts { Counts (H.state host.old) (H.state host.new) result }
{
    let alloc = administration.alloc;
    let paths = paths_of(alloc, incoming.files.as_slice())?;
    follow_paths(
        alloc,
        host,
        &administration.lists,
        diversions,
        &mut administration.places,
        paths.as_slice(),
    )
}
