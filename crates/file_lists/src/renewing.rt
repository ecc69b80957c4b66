// The places of all lists, where the list of one package is another than it was.
ghost use Rattle.std.specs.Prelude.{◌≡◌, ◌+◌, ◌≤◌, ◌++◌, List, IfSome, OnOk, cond, drop, length, map, take};
ghost use Rattle.std.specs.Ordering.{nat_cmp, is_lt};
ghost use Rattle.std.specs.Cmp.Lexicographic.{slice_cmp};
ghost use Rattle.diversions.specs.Ways.{place};
ghost use Rattle.file_lists.specs.Beside.{HadPlaces, lists_before, lists_behind, path_count};
ghost use Rattle.file_lists.specs.Owners.{places_in};

use crate::paths::PackageList;
use crate::table::{Table, take_places};
use diversions::Diversions;
use host_core::{Places, RootPath};
use std::alloc::{AllocError, Global};
use std::cmp::Ordering;
use texts::Text;

fn is_before(list: &PackageList, name: &Text) -> bool
    ensures { result ≡ is_lt (slice_cmp nat_cmp list.now.name name.now) }
{
    list.name.as_str().as_bytes().cmp(name.as_str().as_bytes()) == Ordering::Less
}

fn is_behind(list: &PackageList, name: &Text) -> bool
    ensures { result ≡ is_lt (slice_cmp nat_cmp name.now list.now.name) }
{
    name.as_str().as_bytes().cmp(list.name.as_str().as_bytes()) == Ordering::Less
}

// With the paths of a list that counts, if they are that many.
fn counted(count: usize, list: &PackageList, counts: bool) -> Option<usize>
    ensures { IfSome result (λ sum. sum ≡ count + cond counts (length list.now.paths) 0) }
{
    if !counts {
        return Some(count);
    }
    count.checked_add(list.paths.as_slice().len())
}

// How many paths the lists before a name have, and how many those behind it.
fn counts_beside(lists: &[PackageList], name: &Text) -> Option<(usize, usize)>
    ensures before { IfSome result
        (λ counts. counts.0 ≡ path_count (lists_before name.now lists.now)) }
    ensures behind { IfSome result
        (λ counts. counts.1 ≡ path_count (lists_behind name.now lists.now)) }
{
    let mut before = 0;
    let mut behind = 0;
    for list in lists {
        before = counted(before, list, is_before(list, name))?;
        behind = counted(behind, list, is_behind(list, name))?;
    }
    Some((before, behind))
}

// Puts a package's places in the stead of those from one number up to another.
fn put_places(
    diversions: &Diversions,
    name: &Text,
    paths: &[RootPath],
    start: usize,
    end: usize,
    places: &mut Places,
) -> Result<(), AllocError>
    requires order { start ≤ end }
    requires within { end ≤ length places.old }
    ensures { OnOk result
        (places.new
        ≡ take start places.old ++ map (place diversions.now.ways name.now) paths.now
        ++ drop end places.old) }
{
    let mut behind = places.items.split_off(end)?;
    places.items.truncate(start);
    take_places(diversions, name, paths, places)?;
    places.items.append(&mut behind)?;
    Ok(())
}

/// The places of these lists, of places of lists that are the same but for one package's. None but
/// that package's are computed.
pub(crate) fn renew_places(
    alloc: Global,
    diversions: &Diversions,
    table: &Table,
    name: &Text,
    places: &mut Places,
) -> Result<(), AllocError>
    ensures { OnOk result
        (HadPlaces diversions.now.ways name.now table.now places.old
        → places.new ≡ places_in diversions.now.ways table.now) }
{
    table.law();
    let all = places.items.len();
    if let Some((before, behind)) = counts_beside(table.as_slice(), name) {
        if before <= all && behind <= all - before {
            let paths = table.list_of(name);
            put_places(diversions, name, paths, before, all - behind, places)?;
            return Ok(());
        }
    }
    *places = table.places(alloc, diversions)?;
    Ok(())
}
