// Whether another package owns a place.
ghost use Rattle.std.specs.Prelude.{◌≡◌, IfOk, MatchBool, Contains, true, false};
ghost use Rattle.file_lists.specs.declared.spot.Spot.{Spot as ASpot};
ghost use Rattle.file_lists.specs.Index.{IsComplete};
ghost use Rattle.file_lists.specs.Others.{has_other, is_other_at};
ghost use Rattle.file_lists.specs.Owners.{has_other_owner, owners_in};

use crate::index::Index;
use crate::owners::keys_of;
use crate::paths::PackageList;
use crate::spot::Spot;
use diversions::Diversions;
use host_core::RootPath;
use std::alloc::{AllocError, Global};
use texts::Text;

// Whether the path that stands at a spot is another package's, and lies at the place.
fn is_other_at(
    diversions: &Diversions,
    at: &RootPath,
    name: &Text,
    lists: &[PackageList],
    spot: Spot,
) -> Result<bool, AllocError>
    ensures { IfOk result
        (λ is. is ≡ is_other_at diversions.now.ways at.now name.now lists.now spot) }
{
    if spot.list >= lists.len() {
        return Ok(false);
    }
    let list = &lists[spot.list];
    let paths = list.paths.as_slice();
    if spot.path >= paths.len() {
        return Ok(false);
    }
    if list.name.as_str() == name.as_str() {
        return Ok(false);
    }
    diversions.is_at(&list.name, &paths[spot.path], at)
}

// The same of one of these spots.
fn is_other_at_one(
    diversions: &Diversions,
    at: &RootPath,
    name: &Text,
    lists: &[PackageList],
    spots: &[Spot],
) -> Result<bool, AllocError>
    ensures { IfOk result (λ is. MatchBool is
        (has_other_owner diversions.now.ways lists.now name.now at.now ≡ true)
        ((spot : ASpot) → Contains spots.now spot
        → is_other_at diversions.now.ways at.now name.now lists.now spot ≡ false)) }
{
    for spot in spots {
        if is_other_at(diversions, at, name, lists, *spot)? {
            return Ok(true);
        }
    }
    Ok(false)
}

/// Whether another package owns the place, by the index.
pub(crate) fn look_up_other(
    alloc: Global,
    diversions: &Diversions,
    name: &Text,
    at: &RootPath,
    lists: &[PackageList],
    index: &Index,
) -> Result<bool, AllocError>
    requires aliases { index.now.aliases ≡ diversions.now.ways.aliases }
    requires complete { IsComplete index.now lists.now }
    ensures { IfOk result
        (λ has. has ≡ has_other_owner diversions.now.ways lists.now name.now at.now) }
{
    let keys = keys_of(alloc, diversions, at)?;
    for key in keys.as_slice() {
        if is_other_at_one(diversions, at, name, lists, index.row(key))? {
            return Ok(true);
        }
    }
    Ok(false)
}

// Whether it is the list of another package, and has a path of the place.
fn is_other(
    diversions: &Diversions,
    at: &RootPath,
    name: &Text,
    list: &PackageList,
) -> Result<bool, AllocError>
    ensures { IfOk result
        (λ is. is ≡ has_other name.now (owners_in diversions.now.ways at.now list.now)) }
{
    if list.name.as_str() == name.as_str() {
        return Ok(false);
    }
    for path in list.paths.as_slice() {
        if diversions.is_at(&list.name, path, at)? {
            return Ok(true);
        }
    }
    Ok(false)
}

/// Whether another package owns the place, by going over all lists.
pub(crate) fn scan_for_other(
    diversions: &Diversions,
    name: &Text,
    at: &RootPath,
    lists: &[PackageList],
) -> Result<bool, AllocError>
    ensures { IfOk result
        (λ has. has ≡ has_other_owner diversions.now.ways lists.now name.now at.now) }
{
    for list in lists {
        if is_other(diversions, at, name, list)? {
            return Ok(true);
        }
    }
    Ok(false)
}
