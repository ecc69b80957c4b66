// What the administration says of a path that is to be diverted: it goes by places, whatever names the path has.
ghost use Rattle.std.specs.Prelude.{◌≡◌, IfOk};
ghost use Rattle.std.specs.List.{list_any};
ghost use Rattle.std.specs.Str.{bytes_eq};
ghost use Rattle.aliases.specs.Aliases.{resolved};
ghost use Rattle.dpkg_session.specs.Diversions.{has_conffile_at, is_listed, seen_of};

use crate::asked::Diverting;
use diversions::{Diversions, Owner, Seen};
use file_lists::FileLists;
use host_core::{RootPath, ShipPath};
use status_db::NotedDatabase;
use status_records::ConffileEntry;
use std::alloc::AllocError;

// Whether one of these paths has a place.
fn has_place(
    diversions: &Diversions,
    place: &ShipPath,
    paths: &[RootPath],
) -> Result<bool, AllocError>
    ensures { IfOk result (λ has. has ≡ list_any (λ path. bytes_eq place.now
        (resolved diversions.now.ways.aliases path)) paths.now) }
{
    for path in paths {
        let other = diversions.resolve(path)?;
        if place.as_str() == other.as_str() {
            return Ok(true);
        }
    }
    Ok(false)
}

// Whether the owner's list has a place.
fn is_listed(
    diversions: &Diversions,
    lists: &FileLists,
    owner: &Owner,
    path: &ShipPath,
) -> Result<bool, AllocError>
    ensures { IfOk result (λ listed. listed ≡ is_listed diversions.now.ways.aliases lists.now.lists
        owner.now path.now) }
{
    let place = diversions.resolve_ship(path)?;
    match owner {
        Owner::Local => Ok(false),
        Owner::Package(name) => has_place(diversions, &place, lists.list_of(name)),
    }
}

// Whether one of these conffiles has a place.
fn has_conffile(
    diversions: &Diversions,
    place: &ShipPath,
    entries: &[ConffileEntry],
) -> Result<bool, AllocError>
    ensures { IfOk result (λ has. has ≡ list_any (λ entry. bytes_eq place.now
        (resolved diversions.now.ways.aliases entry.path)) entries.now) }
{
    for entry in entries {
        let other = diversions.resolve_ship(&entry.path)?;
        if place.as_str() == other.as_str() {
            return Ok(true);
        }
    }
    Ok(false)
}

// Whether a conffile of a record has the place of a path.
fn is_conffile(
    diversions: &Diversions,
    database: &NotedDatabase,
    path: &ShipPath,
) -> Result<bool, AllocError>
    ensures { IfOk result (λ is. is ≡ list_any
        (has_conffile_at diversions.now.ways.aliases path.now) database.now.records) }
{
    let place = diversions.resolve_ship(path)?;
    for entry in database.records() {
        if has_conffile(diversions, &place, entry.conffiles.as_slice())? {
            return Ok(true);
        }
    }
    Ok(false)
}

/// What the records and the owner's list say of the path.
pub(crate) fn seen_of(
    database: &NotedDatabase,
    lists: &FileLists,
    diversions: &Diversions,
    asked: &Diverting,
) -> Result<Seen, AllocError>
    ensures { IfOk result (λ seen. seen ≡ seen_of diversions.now.ways.aliases database.now.records
        lists.now.lists asked.now.owner asked.now.path) }
{
    let conffile = is_conffile(diversions, database, &asked.path)?;
    let listed = is_listed(diversions, lists, &asked.owner, &asked.path)?;
    Ok(Seen { conffile, listed })
}
