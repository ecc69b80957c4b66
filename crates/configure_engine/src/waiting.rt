// Which conffiles of a record are to be settled.
ghost use Rattle.std.specs.Prelude.{◌≡◌, ◌≤◌, ◌++◌, ◌∷◌, [], cond, length, map, IfOk, OnOk};
ghost use Rattle.std.specs.List.{insert, list_any};
ghost use Rattle.std.specs.Str.{bytes_eq};
ghost use Rattle.status_records.specs.ConffilePaths.{in_path_order, is_before, placed_by};
ghost use Rattle.configure_engine.specs.Waiting.{goes, going_paths, pending_paths, place_of, places_once, settling_paths};

use diversions::Diversions;
use host_core::ShipPath;
use status_records::{ConffileEntry, PendingDigests, Record};
use std::alloc::{AllocError, Global};
use std::cmp::Ordering;

fn is_before(path: &ShipPath, other: &ShipPath) -> bool
    ensures { result ≡ is_before path.now other.now }
{
    path.as_str().as_bytes().cmp(other.as_str().as_bytes()) == Ordering::Less
}

// Whether a path is to go.
fn goes(entry: &ConffileEntry, pending: &PendingDigests) -> bool
    ensures { result ≡ goes pending.now entry.now }
{
    entry.remove_on_upgrade && !pending.has(&entry.path)
}

/// The flagged paths that are to go.
pub(crate) fn going_paths(alloc: Global, entry: &Record) -> Result<Vec<ShipPath>, AllocError>
    ensures { IfOk result (λ paths. paths.items ≡ going_paths entry.now) }
{
    let mut paths = Vec::new(alloc);
    for conffile in entry.conffiles.as_slice() {
        if goes(conffile, &entry.pending) {
            paths.push(conffile.path.copy()?)?;
        }
    }
    Ok(paths)
}

fn pending_paths(alloc: Global, entry: &Record) -> Result<Vec<ShipPath>, AllocError>
    ensures { IfOk result (λ paths. paths.items ≡ pending_paths entry.now) }
{
    let mut paths = Vec::new(alloc);
    for digest in entry.pending.as_slice() {
        paths.push(digest.path.copy()?)?;
    }
    Ok(paths)
}

// The paths of the digests that aren't settled yet, and then those that are to go.
fn waiting_paths(alloc: Global, entry: &Record) -> Result<Vec<ShipPath>, AllocError>
    ensures { IfOk result
        (λ paths. paths.items ≡ pending_paths entry.now ++ going_paths entry.now) }
{
    let mut paths = pending_paths(alloc, entry)?;
    for path in going_paths(alloc, entry)? {
        paths.push(path)?;
    }
    Ok(paths)
}

fn is_among(places: &[ShipPath], place: &ShipPath) -> bool
    ensures { result ≡ list_any (λ q. bytes_eq place.now q) places.now }
{
    for other in places {
        if place.as_str() == other.as_str() {
            return true;
        }
    }
    false
}

// Keeps a path beside those kept, and its place beside theirs, unless its place is among these.
fn keep(
    places: &mut Vec<ShipPath>,
    kept: &mut Vec<ShipPath>,
    place: ShipPath,
    path: ShipPath,
) -> Result<(), AllocError>
    ensures places { OnOk result (places.new.items ≡ cond (list_any (bytes_eq place)
        places.old.items) places.old.items (places.old.items ++ place ∷ [])) }
    ensures kept { OnOk result (kept.new.items ≡ cond (list_any (bytes_eq place)
        places.old.items) kept.old.items (kept.old.items ++ path ∷ [])) }
{
    if is_among(places.as_slice(), &place) {
        return Ok(());
    }
    places.push(place)?;
    kept.push(path)?;
    Ok(())
}

// Of the paths that have one place the first.
fn places_once(
    alloc: Global,
    diversions: &Diversions,
    paths: Vec<ShipPath>,
) -> Result<Vec<ShipPath>, AllocError>
    ensures { IfOk result (λ kept. kept.items ≡ places_once diversions.now.ways paths.items) }
{
    let mut places = Vec::new(alloc);
    let mut kept = Vec::new(alloc);
    for path in paths {
        let place = diversions.resolve_ship(&path)?;
        keep(&mut places, &mut kept, place, path)?;
    }
    Ok(kept)
}

// The index of the first path that isn't before this one.
fn index_of(paths: &[ShipPath], path: &ShipPath) -> usize
    ensures within { result ≤ length paths.now }
    ensures place { placed_by (λ q. q) path.now paths.now ≡ insert paths.now result path.now }
{
    for (i, other) in paths.iter().enumerate() {
        if !is_before(other, path) {
            return i;
        }
    }
    paths.len()
}

fn in_path_order(alloc: Global, paths: Vec<ShipPath>) -> Result<Vec<ShipPath>, AllocError>
    ensures { IfOk result (λ ordered. ordered.items ≡ in_path_order (λ q. q) paths.items) }
{
    let mut ordered = Vec::new(alloc);
    for path in paths {
        let index = index_of(ordered.as_slice(), &path);
        ordered.insert(index, path)?;
    }
    Ok(ordered)
}

/// The paths of all conffiles of a record that are to be settled, in their order.
pub(crate) fn settling_paths(
    alloc: Global,
    diversions: &Diversions,
    entry: &Record,
) -> Result<Vec<ShipPath>, AllocError>
    ensures { IfOk result (λ paths. paths.items ≡ settling_paths diversions.now.ways entry.now) }
{
    let paths = waiting_paths(alloc, entry)?;
    let kept = places_once(alloc, diversions, paths)?;
    in_path_order(alloc, kept)
}

/// The places of some conffiles.
pub(crate) fn places_of(
    alloc: Global,
    diversions: &Diversions,
    paths: &[ShipPath],
) -> Result<Vec<ShipPath>, AllocError>
    ensures { IfOk result
        (λ places. places.items ≡ map (place_of diversions.now.ways) paths.now) }
{
    let mut places = Vec::new(alloc);
    for path in paths {
        places.push(diversions.resolve_ship(path)?)?;
    }
    Ok(places)
}
