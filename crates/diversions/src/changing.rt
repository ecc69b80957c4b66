// Changing the table: the conditions are looked at, the node is moved, the file is written, and then the table follows.
ghost use Rattle.std.specs.Prelude.{◌≡◌, ◌++◌, ◌∷◌, [], true, false, IsTrue, OnOk, OnErr};
ghost use Rattle.host_core.specs.Host.{AtEachMoment, Counts, Leaves, Needs, Reads, Silent, Tells};
ghost use Rattle.aliases.specs.Aliases.{resolved};
ghost use Rattle.diversions.specs.Changes.{BeginsOnDisk, CanMove, HasAdded, HasRemoved, IsAdding, IsBroughtFirst, IsRecorded, IsRemoving, IsTableReady, IsUnderWay, LeavesDone, OnDone, OnRefused, diversion_of, diverted, doubled_if, moved_if, restored, restored_twice, set_aside, set_aside_twice, with_entry};
ghost use Rattle.diversions.specs.Turns.{GoesByTurns};
ghost use Rattle.diversions.specs.Entries.{IsShipLine, IsTable, IsWellFormed, is_owner, without};
ghost use Rattle.diversions.specs.Refusals.{add_answer, add_conditions, answer_of, back_conditions, first_holding, has_same, remove_answer};
ghost use Rattle.diversions.specs.Held.{ways_of};
ghost use Rattle.diversions.specs.Routes.{route_of};
ghost use Rattle.diversions.specs.Ways.{truename};
ghost use Rattle.diversions.specs.Refusals as refusals;
ghost use Rattle.diversions.specs.Sights.{sight_of};

use crate::conditions::{add_refusal, has_same, move_refusal, own_route, way_back, way_of};
use crate::entry::{Diversion, Owner};
use crate::refusal::{Answer, Seen};
use crate::route::{Route, route_of};
use crate::sight::{Way, look_around};
use crate::table::Table;
use crate::ways::Ways;
use crate::writing::{record_new, record_without};
use host_core::{Host, HostFault, ShipPath};
use std::alloc::Global;

// Moves the node, writes the file, and enters the entry.
fn enter<H: Host>(
    alloc: Global,
    host: &mut H,
    table: &mut Table,
    entry: &Diversion,
    route: &Route,
    way: Way,
) -> Result<(), HostFault>
    requires may { IsTable (table.old ++ entry.now ∷ []) }
    requires ready { Needs (H.state host.old) IsTableReady }
    requires can { Needs (H.state host.old)
        (λ w. IsTrue way.moves → CanMove way.brings route.now.from route.now.to w) }
    ensures table { OnOk result (table.new ≡ table.old ++ entry.now ∷ []) }
    ensures err { OnErr result (table.new ≡ table.old) }
    ensures done { Leaves result
        (λ old new. IsRecorded (table.old ++ entry.now ∷ [])
        (moved_if way.moves route.now.from route.now.to old) new)
        (H.state host.old) (H.state host.new) }
    ensures any_moment { AtEachMoment
        (IsUnderWay (doubled_if way.moves route.now.from route.now.to)
        (moved_if way.moves route.now.from route.now.to) (table.old ++ entry.now ∷ []))
        (H.state host.old) (H.state host.new) }
    ensures brought { IsTrue way.brings
        → OnOk result (BeginsOnDisk (H.state host.old) (H.state host.new)) }
    ensures turns { GoesByTurns (H.state host.old) (H.state host.new) }
    ensures silent { Silent (H.state host.old) (H.state host.new) }
    ensures counts { Counts (H.state host.old) (H.state host.new) result }
{
    record_new(alloc, host, table, entry, route, way)?;
    table.push(entry.copy()?)?;
    Ok(())
}

// Adds an entry that the table doesn't have, between the places of its names.
fn add_along<H: Host>(
    alloc: Global,
    host: &mut H,
    ways: &mut Ways,
    entry: &Diversion,
    route: &Route,
    rename: bool,
    seen: Seen,
) -> Result<Answer, HostFault>
    requires formed { IsWellFormed entry.now }
    requires route { route.now ≡ route_of ways.old.aliases entry.now.path entry.now.target }
    requires ready { Needs (H.state host.old) IsTableReady }
    ensures answer { Tells result
        (λ answer w. answer
        ≡ answer_of
        (first_holding
        (add_conditions (sight_of rename w route.now.from route.now.to) (ways_of ways.old) entry.now rename
        seen)))
        (H.state host.old) (H.state host.new) }
    ensures table { OnDone result
        (ways.new ≡ record ways.old { entries = ways.old.entries ++ entry.now ∷ [] }) }
    ensures refused { OnRefused result (ways.new ≡ ways.old) }
    ensures err { OnErr result (ways.new ≡ ways.old) }
    ensures same { OnRefused result (Reads (H.state host.old) (H.state host.new)) }
    ensures done { LeavesDone result
        (λ old new.
        IsRecorded (ways.old.entries ++ entry.now ∷ [])
        (set_aside route.now.from route.now.to rename seen old) new)
        (H.state host.old) (H.state host.new) }
    ensures any_moment { AtEachMoment
        (IsUnderWay (set_aside_twice route.now.from route.now.to rename seen)
        (set_aside route.now.from route.now.to rename seen) (ways.old.entries ++ entry.now ∷ []))
        (H.state host.old) (H.state host.new) }
    ensures brought { OnDone result
        (IsBroughtFirst rename seen.listed route.now.from route.now.to (H.state host.old)
        (H.state host.new)) }
    ensures turns { GoesByTurns (H.state host.old) (H.state host.new) }
    ensures silent { Silent (H.state host.old) (H.state host.new) }
    ensures counts { Counts (H.state host.old) (H.state host.new) result }
{
    ways.entries.law();
    route.to.law();
    let sight = look_around(alloc, host, &route.from, &route.to, rename)?;
    if let Some(refusal) = add_refusal(ways, entry, route, sight, rename, seen)? {
        return Ok(Answer::Refused(refusal));
    }
    let way = way_of(rename, seen.listed, sight);
    enter(alloc, host, &mut ways.entries, entry, route, way)?;
    Ok(Answer::Done)
}

// Adds an entry that the table doesn't have.
fn add_other<H: Host>(
    alloc: Global,
    host: &mut H,
    ways: &mut Ways,
    entry: &Diversion,
    rename: bool,
    seen: Seen,
) -> Result<Answer, HostFault>
    requires formed { IsWellFormed entry.now }
    requires ready { Needs (H.state host.old) IsTableReady }
    ensures answer { Tells result
        (λ answer w. answer ≡ answer_of (refusals.add_refusal w (ways_of ways.old) entry.now rename seen))
        (H.state host.old) (H.state host.new) }
    ensures table { OnDone result
        (ways.new ≡ record ways.old { entries = ways.old.entries ++ entry.now ∷ [] }) }
    ensures refused { OnRefused result (ways.new ≡ ways.old) }
    ensures err { OnErr result (ways.new ≡ ways.old) }
    ensures same { OnRefused result (Reads (H.state host.old) (H.state host.new)) }
    ensures done { LeavesDone result
        (λ old new.
        IsRecorded (ways.old.entries ++ entry.now ∷ [])
        (diverted (ways_of ways.old) entry.now rename seen old) new)
        (H.state host.old) (H.state host.new) }
    ensures any_moment { AtEachMoment (IsAdding (ways_of ways.old) entry.now rename seen) (H.state host.old)
        (H.state host.new) }
    ensures brought { OnDone result
        (IsBroughtFirst rename seen.listed (resolved ways.old.aliases entry.now.path)
        (resolved ways.old.aliases entry.now.target) (H.state host.old) (H.state host.new)) }
    ensures turns { GoesByTurns (H.state host.old) (H.state host.new) }
    ensures silent { Silent (H.state host.old) (H.state host.new) }
    ensures counts { Counts (H.state host.old) (H.state host.new) result }
{
    let route = route_of(&ways.aliases, &entry.path, &entry.target)?;
    add_along(alloc, host, ways, entry, &route, rename, seen)
}

fn add_entry<H: Host>(
    alloc: Global,
    host: &mut H,
    ways: &mut Ways,
    entry: &Diversion,
    rename: bool,
    seen: Seen,
) -> Result<Answer, HostFault>
    requires formed { IsWellFormed entry.now }
    requires ready { Needs (H.state host.old) IsTableReady }
    ensures answer { Tells result (λ answer w. answer ≡ add_answer w (ways_of ways.old) entry.now rename seen)
        (H.state host.old) (H.state host.new) }
    ensures table { OnDone result
        (ways.new ≡ record ways.old { entries = with_entry ways.old.entries entry.now }) }
    ensures refused { OnRefused result (ways.new ≡ ways.old) }
    ensures err { OnErr result (ways.new ≡ ways.old) }
    ensures same { OnRefused result (Reads (H.state host.old) (H.state host.new)) }
    ensures again { refusals.has_same ways.old.entries entry.now ≡ true
        → Reads (H.state host.old) (H.state host.new) }
    ensures done { LeavesDone result (HasAdded (ways_of ways.old) entry.now rename seen) (H.state host.old)
        (H.state host.new) }
    ensures any_moment { AtEachMoment (IsAdding (ways_of ways.old) entry.now rename seen) (H.state host.old)
        (H.state host.new) }
    ensures brought { refusals.has_same ways.old.entries entry.now ≡ false
        → OnDone result (IsBroughtFirst rename seen.listed
        (resolved ways.old.aliases entry.now.path) (resolved ways.old.aliases entry.now.target)
        (H.state host.old) (H.state host.new)) }
    ensures turns { GoesByTurns (H.state host.old) (H.state host.new) }
    ensures silent { Silent (H.state host.old) (H.state host.new) }
    ensures counts { Counts (H.state host.old) (H.state host.new) result }
{
    if has_same(&ways.entries, entry) {
        return Ok(Answer::Done);
    }
    add_other(alloc, host, ways, entry, rename, seen)
}

// What holds of a path, as a line of the file.
fn ship_law(path: &ShipPath)
    ensures { IsShipLine path.now }
{
    path.law();
    let _line = path.as_str();
}

/// Adds the diversion of a path to a target.
pub(crate) fn add_diversion<H: Host>(
    alloc: Global,
    host: &mut H,
    ways: &mut Ways,
    path: &ShipPath,
    target: &ShipPath,
    owner: &Owner,
    rename: bool,
    seen: Seen,
) -> Result<Answer, HostFault>
    requires owner { is_owner owner.now ≡ true }
    requires ready { Needs (H.state host.old) IsTableReady }
    ensures answer { Tells result
        (λ answer w.
        answer ≡ add_answer w (ways_of ways.old) (diversion_of path.now target.now owner.now) rename seen)
        (H.state host.old) (H.state host.new) }
    ensures table { OnDone result (ways.new ≡ record ways.old {
      entries = with_entry ways.old.entries (diversion_of path.now target.now owner.now);
    }) }
    ensures refused { OnRefused result (ways.new ≡ ways.old) }
    ensures err { OnErr result (ways.new ≡ ways.old) }
    ensures same { OnRefused result (Reads (H.state host.old) (H.state host.new)) }
    ensures again { refusals.has_same ways.old.entries
        (diversion_of path.now target.now owner.now) ≡ true
        → Reads (H.state host.old) (H.state host.new) }
    ensures done { LeavesDone result
        (HasAdded (ways_of ways.old) (diversion_of path.now target.now owner.now) rename seen)
        (H.state host.old) (H.state host.new) }
    ensures any_moment { AtEachMoment
        (IsAdding (ways_of ways.old) (diversion_of path.now target.now owner.now) rename seen)
        (H.state host.old) (H.state host.new) }
    ensures brought { refusals.has_same ways.old.entries
        (diversion_of path.now target.now owner.now) ≡ false
        → OnDone result (IsBroughtFirst rename seen.listed (resolved ways.old.aliases path.now)
        (resolved ways.old.aliases target.now) (H.state host.old) (H.state host.new)) }
    ensures turns { GoesByTurns (H.state host.old) (H.state host.new) }
    ensures silent { Silent (H.state host.old) (H.state host.new) }
    ensures counts { Counts (H.state host.old) (H.state host.new) result }
{
    ship_law(path);
    ship_law(target);
    let entry = Diversion {
        path: path.copy()?,
        target: target.copy()?,
        owner: owner.copy()?,
    };
    add_entry(alloc, host, ways, &entry, rename, seen)
}

// Moves the node back, writes the file, and takes the entry away.
fn strike<H: Host>(
    alloc: Global,
    host: &mut H,
    table: &mut Table,
    path: &ShipPath,
    route: &Route,
    way: Way,
) -> Result<(), HostFault>
    requires ready { Needs (H.state host.old) IsTableReady }
    requires can { Needs (H.state host.old)
        (λ w. IsTrue way.moves → CanMove way.brings route.now.from route.now.to w) }
    ensures table { OnOk result (table.new ≡ without path.now table.old) }
    ensures err { OnErr result (table.new ≡ table.old) }
    ensures done { Leaves result
        (λ old new.
        IsRecorded (without path.now table.old)
        (moved_if way.moves route.now.from route.now.to old) new)
        (H.state host.old) (H.state host.new) }
    ensures any_moment { AtEachMoment
        (IsUnderWay (doubled_if way.moves route.now.from route.now.to)
        (moved_if way.moves route.now.from route.now.to) (without path.now table.old))
        (H.state host.old) (H.state host.new) }
    ensures brought { IsTrue way.brings
        → OnOk result (BeginsOnDisk (H.state host.old) (H.state host.new)) }
    ensures turns { GoesByTurns (H.state host.old) (H.state host.new) }
    ensures silent { Silent (H.state host.old) (H.state host.new) }
    ensures counts { Counts (H.state host.old) (H.state host.new) result }
{
    record_without(alloc, host, table, path, route, way)?;
    table.remove(path.as_str());
    Ok(())
}

// Takes the entry of a path away, between the places of its names.
fn take_away<H: Host>(
    alloc: Global,
    host: &mut H,
    table: &mut Table,
    path: &ShipPath,
    route: &Route,
    rename: bool,
) -> Result<Answer, HostFault>
    requires ready { Needs (H.state host.old) IsTableReady }
    ensures answer { Tells result
        (λ answer w. answer
        ≡ answer_of (first_holding (back_conditions w route.now.from route.now.to rename)))
        (H.state host.old) (H.state host.new) }
    ensures table { OnDone result (table.new ≡ without path.now table.old) }
    ensures refused { OnRefused result (table.new ≡ table.old) }
    ensures err { OnErr result (table.new ≡ table.old) }
    ensures same { OnRefused result (Reads (H.state host.old) (H.state host.new)) }
    ensures done { LeavesDone result
        (λ old new.
        IsRecorded (without path.now table.old)
        (restored route.now.to route.now.from rename old) new)
        (H.state host.old) (H.state host.new) }
    ensures any_moment { AtEachMoment
        (IsUnderWay (restored_twice route.now.to route.now.from rename)
        (restored route.now.to route.now.from rename) (without path.now table.old))
        (H.state host.old) (H.state host.new) }
    ensures brought { OnDone result
        (IsBroughtFirst rename false route.now.from route.now.to (H.state host.old)
        (H.state host.new)) }
    ensures turns { GoesByTurns (H.state host.old) (H.state host.new) }
    ensures silent { Silent (H.state host.old) (H.state host.new) }
    ensures counts { Counts (H.state host.old) (H.state host.new) result }
{
    route.to.law();
    let sight = look_around(alloc, host, &route.from, &route.to, rename)?;
    let way = way_back(rename, route, sight);
    if let Some(refusal) = move_refusal(way.moves, sight) {
        return Ok(Answer::Refused(refusal));
    }
    strike(alloc, host, table, path, route, way)?;
    Ok(Answer::Done)
}

/// Takes an owner's diversion of a path away.
pub(crate) fn remove_diversion<H: Host>(
    alloc: Global,
    host: &mut H,
    ways: &mut Ways,
    path: &ShipPath,
    owner: &Owner,
    rename: bool,
) -> Result<Answer, HostFault>
    requires ready { Needs (H.state host.old) IsTableReady }
    ensures answer { Tells result
        (λ answer w. answer ≡ remove_answer w (ways_of ways.old) path.now owner.now rename)
        (H.state host.old) (H.state host.new) }
    ensures table { OnDone result
        (ways.new ≡ record ways.old { entries = without path.now ways.old.entries }) }
    ensures refused { OnRefused result (ways.new ≡ ways.old) }
    ensures err { OnErr result (ways.new ≡ ways.old) }
    ensures same { OnRefused result (Reads (H.state host.old) (H.state host.new)) }
    ensures done { LeavesDone result (HasRemoved (ways_of ways.old) path.now rename) (H.state host.old)
        (H.state host.new) }
    ensures any_moment { AtEachMoment (IsRemoving (ways_of ways.old) path.now rename) (H.state host.old)
        (H.state host.new) }
    ensures brought { OnDone result
        (IsBroughtFirst rename false (truename (ways_of ways.old) path.now)
        (resolved ways.old.aliases path.now) (H.state host.old) (H.state host.new)) }
    ensures turns { GoesByTurns (H.state host.old) (H.state host.new) }
    ensures silent { Silent (H.state host.old) (H.state host.new) }
    ensures counts { Counts (H.state host.old) (H.state host.new) result }
{
    match own_route(ways, path, owner)? {
        Ok(route) => {
            return take_away(alloc, host, &mut ways.entries, path, &route, rename);
        }
        Err(refusal) => {
            return Ok(Answer::Refused(refusal));
        }
    }
}
