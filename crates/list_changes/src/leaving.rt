// Which paths of a package's list go.
ghost use Rattle.std.specs.Prelude.{◌≡◌, List, IfOk};
ghost use Rattle.std.specs.List.{list_any};
ghost use Rattle.std.specs.BTreeSet.{contains_text};
ghost use Rattle.std.specs.Str.{bytes_eq};
ghost use Rattle.host_core.specs.Paths.{Path};
ghost use Rattle.administration.specs.Places.{home_path, is_within};
ghost use Rattle.list_changes.specs.Leaving.{is_place_of, leaving_at, leaving_of, stays};

use diversions::Diversions;
use file_lists::FileLists;
use file_removal::Leaving;
use host_core::{RootPath, ShipPath};
use std::alloc::{AllocError, Global};
use std::collections::BTreeSet;
use texts::Text;

// The places of a package's paths.
fn places_of(
    alloc: Global,
    diversions: &Diversions,
    name: &Text,
    paths: &[RootPath],
) -> Result<BTreeSet<String>, AllocError>
    ensures { IfOk result
        (λ places. (at : Path)
        → contains_text places at ≡ is_place_of diversions.now.ways name.now paths.now at) }
{
    let mut places = BTreeSet::new(alloc);
    for path in paths {
        let place = diversions.place(name, path)?;
        places.insert(String::from_str(alloc, place.as_str())?)?;
    }
    Ok(places)
}

fn is_within_home(at: &str) -> bool
    ensures { result ≡ is_within home_path at.now }
{
    at == "/var/lib/dpkg" || at.as_bytes().starts_with(b"/var/lib/dpkg/")
}

// The texts of conffiles' paths.
fn texts_of(alloc: Global, conffiles: &[ShipPath]) -> Result<BTreeSet<String>, AllocError>
    ensures { IfOk result
        (λ set. (q : Path) → contains_text set q ≡ list_any (bytes_eq q) conffiles.now) }
{
    let mut set = BTreeSet::new(alloc);
    for path in conffiles {
        set.insert(String::from_str(alloc, path.as_str())?)?;
    }
    Ok(set)
}

// Whether a place stays.
fn stays(
    alloc: Global,
    lists: &FileLists,
    diversions: &Diversions,
    name: &Text,
    to_come: &BTreeSet<String>,
    at: &RootPath,
) -> Result<bool, AllocError>
    ensures { IfOk result
        (λ stay. (paths : List Path)
        → ((q : Path)
        → contains_text to_come.now q ≡ is_place_of diversions.now.ways name.now paths q)
        → stay ≡ stays diversions.now.ways lists.now.lists name.now paths at.now) }
{
    let text = at.as_str();
    if diversions.is_led_to(at) || is_within_home(text) || to_come.contains(text) {
        return Ok(true);
    }
    lists.has_other_owner(alloc, diversions, name, at)
}

// A listed path with its place, and whether it goes.
fn leaving_at(
    alloc: Global,
    lists: &FileLists,
    diversions: &Diversions,
    name: &Text,
    to_come: &BTreeSet<String>,
    conffiles: &BTreeSet<String>,
    path: &RootPath,
) -> Result<Leaving, AllocError>
    ensures { IfOk result
        (λ leaving. (paths of : List Path)
        → ((q : Path)
        → contains_text to_come.now q ≡ is_place_of diversions.now.ways name.now paths q)
        → ((q : Path) → contains_text conffiles.now q ≡ list_any (bytes_eq q) of)
        → leaving ≡ leaving_at diversions.now.ways lists.now.lists name.now paths of path.now) }
{
    let place = diversions.place(name, path)?;
    let stay = stays(alloc, lists, diversions, name, to_come, &place)?;
    let goes = !(conffiles.contains(path.as_str()) || stay);
    Ok(Leaving { place, goes })
}

/// Each path of a package's list with its place, and whether it goes: not where the list to come or
/// another list has that place, nor a directory to which a link leads, nor one in the administration,
/// nor a conffile. Where many paths are asked for, the lists' index is to be built before.
pub fn leaving_of(
    alloc: Global,
    lists: &FileLists,
    diversions: &Diversions,
    name: &Text,
    to_come: &[RootPath],
    conffiles: &[ShipPath],
    listed: &[RootPath],
) -> Result<Vec<Leaving>, AllocError>
    ensures { IfOk result
        (λ leaving. leaving.items
        ≡ leaving_of diversions.now.ways lists.now.lists name.now to_come.now conffiles.now
        listed.now) }
{
    let places = places_of(alloc, diversions, name, to_come)?;
    let texts = texts_of(alloc, conffiles)?;
    let mut leaving = Vec::new(alloc);
    for path in listed {
        leaving.push(leaving_at(alloc, lists, diversions, name, &places, &texts, path)?)?;
    }
    Ok(leaving)
}
