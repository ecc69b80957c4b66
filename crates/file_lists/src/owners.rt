// Who owns a place.
ghost use Rattle.std.specs.Prelude.{◌≡◌, ◌++◌, List, IfOk, OnOk, Contains};
ghost use Rattle.host_core.specs.Paths.{Path};
ghost use Rattle.aliases.specs.Aliases.{resolved};
ghost use Rattle.file_lists.specs.declared.paths.Listed.{Listed as AListed};
ghost use Rattle.file_lists.specs.declared.spot.Spot.{Spot as ASpot};
ghost use Rattle.file_lists.specs.Owners.{owners_in, owners_of};
ghost use Rattle.file_lists.specs.Index.{row_of, owner_if, owner_at, AreKeys, IsComplete, HasOwners};

use crate::index::Index;
use crate::paths::{Listed, PackageList, Paths};
use crate::spot::Spot;
use aliases::Aliases;
use diversions::{Diversion, Diversions};
use host_core::RootPath;
use std::alloc::{AllocError, Global};
use std::collections::BTreeSet;
use std::marker::Model;
use texts::Text;

/// The listed paths that lie at one place, in the order of the packages' names.
#[derive(Drop)]
pub struct Owners {
    pub items: Vec<Listed>,
}

impl Model for Owners {
    ghost Value = { List AListed };

    ghost view = { λ o. o.items.items };
}

// Adds the key of a diverted path if its diversion leads to the place.
fn take_key(
    aliases: &Aliases,
    at: &RootPath,
    entry: &Diversion,
    keys: &mut Paths,
) -> Result<(), AllocError>
    ensures kept { OnOk result ((key : Path) → Contains keys.old key → Contains keys.new key) }
    ensures there { OnOk result
        (resolved aliases.now entry.now.target ≡ at.now
        → Contains keys.new (resolved aliases.now entry.now.path)) }
{
    if aliases.is_at(entry.target.as_str(), at.as_str())? {
        keys.items.push(aliases.resolve(&entry.path)?.at()?)?;
    }
    Ok(())
}

/// The keys of a place: the place itself, and those of the paths that are diverted to it.
pub(crate) fn keys_of(
    alloc: Global,
    diversions: &Diversions,
    at: &RootPath,
) -> Result<Paths, AllocError>
    ensures { IfOk result (AreKeys diversions.now.ways at.now) }
{
    let mut keys = Paths {
        items: Vec::new(alloc),
    };
    keys.items.push(at.copy()?)?;
    let mut entries = diversions.entries();
    while let Some(entry) = entries.next() {
        take_key(diversions.aliases(), at, entry, &mut keys)?;
    }
    Ok(keys)
}

// Adds a path of a package if it lies at the place.
fn take_owner(
    diversions: &Diversions,
    at: &RootPath,
    name: &Text,
    path: &RootPath,
    owners: &mut Owners,
) -> Result<(), AllocError>
    ensures { OnOk result
        (owners.new ≡ owners.old ++ owner_if diversions.now.ways at.now name.now path.now) }
{
    if !diversions.is_at(name, path, at)? {
        return Ok(());
    }
    owners.items.push(Listed {
        name: name.copy()?,
        path: path.copy()?,
    })?;
    Ok(())
}

// Adds the paths of one list that lie at the place, by going over all.
fn take_owners(
    diversions: &Diversions,
    at: &RootPath,
    list: &PackageList,
    owners: &mut Owners,
) -> Result<(), AllocError>
    ensures { OnOk result
        (owners.new ≡ owners.old ++ owners_in diversions.now.ways at.now list.now) }
{
    for path in list.paths.as_slice() {
        take_owner(diversions, at, &list.name, path, owners)?;
    }
    Ok(())
}

/// The owners of a place, by going over all lists.
pub(crate) fn scan(
    alloc: Global,
    diversions: &Diversions,
    at: &RootPath,
    lists: &[PackageList],
) -> Result<Owners, AllocError>
    ensures { IfOk result (λ o. o ≡ owners_of diversions.now.ways lists.now at.now) }
{
    let mut owners = Owners {
        items: Vec::new(alloc),
    };
    for list in lists {
        take_owners(diversions, at, list, &mut owners)?;
    }
    Ok(owners)
}

fn take_spots(row: &[Spot], spots: &mut BTreeSet<Spot>) -> Result<(), AllocError>
    ensures kept { OnOk result
        ((s : ASpot) → Contains spots.old.keys s → Contains spots.new.keys s) }
    ensures there { OnOk result
        ((s : ASpot) → Contains row.now s → Contains spots.new.keys s) }
{
    for spot in row {
        spots.insert(*spot)?;
    }
    Ok(())
}

// Where paths stand that may have one of these keys.
fn spots_in(alloc: Global, index: &Index, keys: &[RootPath]) -> Result<BTreeSet<Spot>, AllocError>
    ensures { IfOk result
        (λ spots.
        (key : Path) (s : ASpot) → Contains keys.now key → Contains (row_of index.now.rows key) s
        → Contains spots.keys s) }
{
    let mut spots = BTreeSet::new(alloc);
    for key in keys {
        take_spots(index.row(key), &mut spots)?;
    }
    Ok(spots)
}

// Adds the path that stands at a spot if it lies at the place.
fn take_owner_at(
    diversions: &Diversions,
    at: &RootPath,
    lists: &[PackageList],
    spot: Spot,
    owners: &mut Owners,
) -> Result<(), AllocError>
    ensures { OnOk result
        (owners.new ≡ owners.old ++ owner_at diversions.now.ways at.now lists.now spot) }
{
    if spot.list >= lists.len() {
        return Ok(());
    }
    let list = &lists[spot.list];
    let paths = list.paths.as_slice();
    if spot.path >= paths.len() {
        return Ok(());
    }
    take_owner(diversions, at, &list.name, &paths[spot.path], owners)
}

// The owners at these spots, in their order.
fn gather(
    alloc: Global,
    diversions: &Diversions,
    at: &RootPath,
    lists: &[PackageList],
    spots: &mut BTreeSet<Spot>,
) -> Result<Owners, AllocError>
    requires { HasOwners diversions.now.ways at.now lists.now spots.old.keys }
    ensures { IfOk result (λ o. o ≡ owners_of diversions.now.ways lists.now at.now) }
{
    let mut owners = Owners {
        items: Vec::new(alloc),
    };
    while let Some(spot) = spots.pop_first() {
        take_owner_at(diversions, at, lists, spot, &mut owners)?;
    }
    Ok(owners)
}

/// The owners of a place, by the index.
pub(crate) fn look_up(
    alloc: Global,
    diversions: &Diversions,
    at: &RootPath,
    lists: &[PackageList],
    index: &Index,
) -> Result<Owners, AllocError>
    requires aliases { index.now.aliases ≡ diversions.now.ways.aliases }
    requires complete { IsComplete index.now lists.now }
    ensures { IfOk result (λ o. o ≡ owners_of diversions.now.ways lists.now at.now) }
{
    let keys = keys_of(alloc, diversions, at)?;
    let mut spots = spots_in(alloc, index, keys.as_slice())?;
    gather(alloc, diversions, at, lists, &mut spots)
}
