// The conditions of a refusal, in their order.
ghost use Rattle.std.specs.Prelude.{◌≡◌, ◌&&◌, ◌||◌, false, not, IfOk, MatchResult, Some, None};
ghost use Rattle.std.specs.Str.{bytes_eq};
ghost use Rattle.aliases.specs.Aliases.{resolved};
ghost use Rattle.diversions.specs.Refusals.{first_holding, has_same, is_name_taken, is_path_taken, is_place_taken, is_rival, is_target_taken, add_conditions, move_conditions, owner_conditions};
ghost use Rattle.diversions.specs.Held.{ways_of};
ghost use Rattle.diversions.specs.Routes.{route_of};
ghost use Rattle.diversions.specs.Ways.{truename};
ghost use Rattle.diversions.specs.Sights as spec;

use crate::entry::{Diversion, Owner};
use crate::refusal::{Refusal, Seen};
use crate::route::{Route, route_of};
use crate::sight::{Sight, Way, is_loose};
use crate::table::Table;
use crate::ways::Ways;
use aliases::Aliases;
use host_core::{Kind, ShipPath};
use std::alloc::AllocError;

fn is_directory(kind: Option<Kind>) -> bool
    ensures { result ≡ spec.is_directory_kind kind }
{
    match kind {
        None => false,
        Some(Kind::File) => false,
        Some(Kind::Directory) => true,
        Some(Kind::SymbolicLink) => false,
    }
}

/// Whether the node that is seen is moved, and whether what is at its target is brought to the disk.
pub(crate) fn way_of(rename: bool, listed: bool, sight: Sight) -> Way
    ensures moves { result.moves ≡ spec.moves_node rename listed sight }
    ensures brings { result.brings ≡ spec.brings_first rename listed sight }
{
    let asked = rename && !listed;
    Way {
        moves: asked && is_loose(sight.from),
        brings: asked && is_loose(sight.to),
    }
}

/// Whether the table has this very diversion.
pub(crate) fn has_same(table: &Table, entry: &Diversion) -> bool
    ensures { result ≡ has_same table.now entry.now }
{
    match table.get(entry.path.as_str()) {
        Some(there) => {
            there.target.as_str() == entry.target.as_str() && there.owner.is(&entry.owner)
        }
        None => false,
    }
}

/// Why the node that is to be moved can't be.
pub(crate) fn move_refusal(moves: bool, sight: Sight) -> Option<Refusal>
    ensures { result ≡ first_holding (move_conditions moves sight) }
{
    if moves && !is_directory(sight.above) {
        return Some(Refusal::NoParent);
    }
    if moves && (sight.to.is_some() && !sight.same) {
        return Some(Refusal::TargetExists);
    }
    None
}

/// The same of a node that goes back, where its two places aren't one.
pub(crate) fn way_back(rename: bool, route: &Route, sight: Sight) -> Way
    ensures moves { result.moves
        ≡ (not (bytes_eq route.now.from route.now.to) && spec.moves_node rename false sight) }
    ensures brings { result.brings ≡ spec.brings_first rename false sight }
{
    let way = way_of(rename, false, sight);
    Way {
        moves: route.from.as_str() != route.to.as_str() && way.moves,
        brings: way.brings,
    }
}

// Whether an entry diverts the place of the path for another owner.
fn is_rival(
    aliases: &Aliases,
    entry: &Diversion,
    route: &Route,
    other: &Diversion,
) -> Result<bool, AllocError>
    requires { route.now ≡ route_of aliases.now entry.now.path entry.now.target }
    ensures { IfOk result (λ b. b ≡ is_rival aliases.now entry.now other.now) }
{
    if other.owner.is(&entry.owner) {
        return Ok(false);
    }
    aliases.is_at(other.path.as_str(), route.from.as_str())
}

// Whether the listed name is diverted, or its place is for another owner.
fn is_path_taken(ways: &Ways, entry: &Diversion, route: &Route) -> Result<bool, AllocError>
    requires { route.now ≡ route_of ways.now.aliases entry.now.path entry.now.target }
    ensures { IfOk result (λ b. b ≡ is_path_taken (ways_of ways.now) entry.now) }
{
    if ways.entries.is_diverted(entry.path.as_str()) {
        return Ok(true);
    }
    let mut entries = ways.entries.entries();
    while let Some(other) = entries.next() {
        if is_rival(&ways.aliases, entry, route, other)? {
            return Ok(true);
        }
    }
    Ok(false)
}

// Whether the target stands in an entry, or the path is the target of one.
fn is_name_taken(table: &Table, entry: &Diversion) -> bool
    ensures { result ≡ is_name_taken table.now entry.now }
{
    let path = entry.path.as_str();
    let target = entry.target.as_str();
    table.is_diverted(target) || table.is_target(target) || table.is_target(path)
}

// Whether an entry has the place of the target, or goes to that of the path.
fn is_in_way(aliases: &Aliases, route: &Route, other: &Diversion) -> Result<bool, AllocError>
    ensures { IfOk result
        (λ b. b
        ≡ (bytes_eq (resolved aliases.now other.now.path) route.now.to
        || (bytes_eq (resolved aliases.now other.now.target) route.now.to
        || bytes_eq (resolved aliases.now other.now.target) route.now.from))) }
{
    let path = other.path.as_str();
    let target = other.target.as_str();
    if aliases.is_at(path, route.to.as_str())? {
        return Ok(true);
    }
    if aliases.is_at(target, route.to.as_str())? {
        return Ok(true);
    }
    aliases.is_at(target, route.from.as_str())
}

// The same, unless it diverts the same place for the same owner.
fn is_place_taken(
    aliases: &Aliases,
    entry: &Diversion,
    route: &Route,
    other: &Diversion,
) -> Result<bool, AllocError>
    requires { route.now ≡ route_of aliases.now entry.now.path entry.now.target }
    ensures { IfOk result (λ b. b ≡ is_place_taken aliases.now entry.now other.now) }
{
    let here = aliases.is_at(other.path.as_str(), route.from.as_str())?;
    if here && other.owner.is(&entry.owner) {
        return Ok(false);
    }
    is_in_way(aliases, route, other)
}

// Whether the target is taken, by its name or by its place.
fn is_target_taken(ways: &Ways, entry: &Diversion, route: &Route) -> Result<bool, AllocError>
    requires { route.now ≡ route_of ways.now.aliases entry.now.path entry.now.target }
    ensures { IfOk result (λ b. b ≡ is_target_taken (ways_of ways.now) entry.now) }
{
    if is_name_taken(&ways.entries, entry) {
        return Ok(true);
    }
    let mut entries = ways.entries.entries();
    while let Some(other) = entries.next() {
        if is_place_taken(&ways.aliases, entry, route, other)? {
            return Ok(true);
        }
    }
    Ok(false)
}

/// Why an entry isn't added.
pub(crate) fn add_refusal(
    ways: &Ways,
    entry: &Diversion,
    route: &Route,
    sight: Sight,
    rename: bool,
    seen: Seen,
) -> Result<Option<Refusal>, AllocError>
    requires { route.now ≡ route_of ways.now.aliases entry.now.path entry.now.target }
    ensures { IfOk result
        (λ refusal. refusal
        ≡ first_holding (add_conditions sight (ways_of ways.now) entry.now rename seen)) }
{
    if route.to.as_str() == route.from.as_str() {
        return Ok(Some(Refusal::SamePath));
    }
    if is_directory(sight.from) || is_directory(sight.to) {
        return Ok(Some(Refusal::Directory));
    }
    if is_path_taken(ways, entry, route)? {
        return Ok(Some(Refusal::AlreadyDiverted));
    }
    if is_target_taken(ways, entry, route)? {
        return Ok(Some(Refusal::TargetDiverted));
    }
    if seen.conffile {
        return Ok(Some(Refusal::Conffile));
    }
    Ok(move_refusal(way_of(rename, seen.listed, sight).moves, sight))
}

/// From the place of the target of the owner's diversion of a path to that of the path, or why there is none.
pub(crate) fn own_route(
    ways: &Ways,
    path: &ShipPath,
    owner: &Owner,
) -> Result<Result<Route, Refusal>, AllocError>
    ensures { IfOk result
        (λ found. MatchResult found
        (λ route. (first_holding (owner_conditions ways.now.entries path.now owner.now) ≡ None)
        × (route.from ≡ truename (ways_of ways.now) path.now)
        × (route.to ≡ resolved ways.now.aliases path.now))
        (λ refusal. first_holding (owner_conditions ways.now.entries path.now owner.now)
        ≡ Some refusal)) }
{
    match ways.entries.get(path.as_str()) {
        Some(entry) => {
            if !entry.owner.is(owner) {
                return Ok(Err(Refusal::OtherOwner));
            }
            Ok(Ok(route_of(&ways.aliases, &entry.target, path)?))
        }
        None => Ok(Err(Refusal::NotDiverted)),
    }
}
