// A session adds a diversion as one unit.
ghost use Rattle.std.specs.Prelude.{◌≡◌, ◌⊎◌, ◌∷◌, [], true, false, IsErrOf, IsNone, IfOk, IfSome, is_some};
ghost use Rattle.host_core.specs.Host.{AtEachMoment, Gives, Needs, Silent, Tells};
ghost use Rattle.host_core.specs.Loss.{IsAnswered};
ghost use Rattle.diversions.specs.Changes.{HasAdded, IsAdding, IsTableReady, with_entry};
ghost use Rattle.diversions.specs.Fault.{CountsDiversion};
ghost use Rattle.diversions.specs.Refusals.{add_answer};
ghost use Rattle.diversions.specs.declared.fault.DiversionFault.TheVariants as fault;
ghost use Rattle.diversions.specs.Turns.{GoesByTurns};
ghost use Rattle.file_lists.specs.Owners.{places_in};
ghost use Rattle.dpkg_session.specs.Diversions.{HasBroken, HasDiverted, IsDiverted, IsDiverting, IsFlushed, IsOneUnit, LeavesAnswer, asked_entry, by_answer, seen_of, with_entries};
ghost use Rattle.dpkg_session.specs.PowerLoss.{LosesLikeAStop, StandsOnceAnswered};
ghost use Rattle.unit_reports.specs.Units.{CountsLast, CountsReply, IsBroken, IsBrokenBy, IsClosedReport, TellsCalls, TellsNoPackage, calls_told};
ghost use Rattle.unit_reports.specs.declared.report.Breakage.TheVariants.{Closed};

use crate::asked::Diverting;
use crate::growing::follow_paths;
use crate::seen::seen_of;
use crate::session::{Session, closed_report};
use crate::table_units::{breakage_of, broken_report, flush_done, no_memory, report_of, unit_of};
use diversions::{Answer, DiversionFault, Diversions, Seen};
use file_lists::FileLists;
use host_core::{Host, Places, RootPath};
use status_db::NotedDatabase;
use std::alloc::{AllocError, Global};
use unit_reports::{Report, Unit, broken};

// Adds a diversion, and brings that to the disk.
fn add_to_disk<H: Host>(
    alloc: Global,
    host: &mut H,
    diversions: &mut Diversions,
    asked: &Diverting,
    seen: Seen,
) -> Result<Answer, DiversionFault>
    requires ready { Needs (H.state host.old) IsTableReady }
    requires writable { diversions.old.closed ≡ false }
    ensures answer { Tells result (λ answer w. answer ≡ add_answer w diversions.old.ways
        (asked_entry asked.now) asked.now.rename seen) (H.state host.old) (H.state host.new) }
    ensures table { IfOk result (λ answer. diversions.new ≡ record diversions.old {
      ways = by_answer answer diversions.old.ways (with_entries diversions.old.ways
          (with_entry diversions.old.ways.entries (asked_entry asked.now)));
    }) }
    ensures left { Gives result (λ answer. LeavesAnswer answer (HasAdded diversions.old.ways
        (asked_entry asked.now) asked.now.rename seen)) (H.state host.old) (H.state host.new) }
    ensures flushed { IfOk result (λ answer. IsFlushed answer (H.state host.old)
        (H.state host.new)) }
    ensures any_moment { AtEachMoment (IsAdding diversions.old.ways (asked_entry asked.now)
        asked.now.rename seen) (H.state host.old) (H.state host.new) }
    ensures turns { GoesByTurns (H.state host.old) (H.state host.new) }
    ensures silent { Silent (H.state host.old) (H.state host.new) }
    ensures counts { CountsDiversion (H.state host.old) (H.state host.new) result }
    ensures not_closed { IsErrOf result fault.Closed → ⊥ }
{
    let answer = diversions.add(
        alloc,
        host,
        &asked.path,
        &asked.target,
        &asked.owner,
        asked.rename,
        seen,
    )?;
    flush_done(host, answer)?;
    Ok(answer)
}

// The unit that adds a diversion.
fn add_unit<H: Host>(
    alloc: Global,
    host: &mut H,
    lists: &FileLists,
    diversions: &mut Diversions,
    places: &mut Places,
    asked: &Diverting,
    seen: Seen,
) -> Unit
    requires ready { Needs (H.state host.old) IsTableReady }
    requires writable { diversions.old.closed ≡ false }
    requires kept { places.old ≡ places_in diversions.old.ways lists.now.lists }
    ensures unit { IsBroken result.reply ⊎ IsDiverted asked.now seen diversions.old.ways
        diversions.new.ways result (H.state host.old) (H.state host.new) }
    ensures writable { IsBroken result.reply ⊎ (diversions.new.closed ≡ false) }
    ensures kept { IsBroken result.reply
        ⊎ (places.new ≡ places_in diversions.new.ways lists.now.lists) }
    ensures calls { result.calls.items ≡ [] }
    ensures touched { TellsNoPackage result }
    ensures any_moment { AtEachMoment (IsAdding diversions.old.ways (asked_entry asked.now)
        asked.now.rename seen) (H.state host.old) (H.state host.new) }
    ensures turns { GoesByTurns (H.state host.old) (H.state host.new) }
    ensures silent { Silent (H.state host.old) (H.state host.new) }
    ensures counts { CountsReply (H.state host.old) (H.state host.new) result.reply }
    ensures not_closed { IsBrokenBy Closed result.reply → ⊥ }
{
    asked.path.law();
    asked.target.law();
    match add_to_disk(alloc, host, diversions, asked, seen) {
        Ok(answer) => unit_of(alloc, lists, diversions, places, &asked.path, answer),
        Err(fault) => broken(alloc, Vec::new(alloc), breakage_of(fault)),
    }
}

// The report of the unit that adds a diversion.
fn divert_on<H: Host>(
    alloc: Global,
    host: &mut H,
    database: &NotedDatabase,
    lists: &FileLists,
    diversions: &mut Diversions,
    places: &mut Places,
    asked: &Diverting,
) -> Report
    requires ready { Needs (H.state host.old) IsTableReady }
    requires writable { diversions.old.closed ≡ false }
    requires kept { places.old ≡ places_in diversions.old.ways lists.now.lists }
    ensures whole { IsNone result.last
        → IsOneUnit (λ u. IsDiverted asked.now (seen_of diversions.old.ways.aliases
        database.now.records lists.now.lists asked.now.owner asked.now.path) diversions.old.ways
        diversions.new.ways u (H.state host.old) (H.state host.new)) result.units.items }
    ensures broken { HasBroken result }
    ensures calls { calls_told result ≡ [] }
    ensures writable { IsNone result.last → diversions.new.closed ≡ false }
    ensures kept { IsNone result.last → places.new ≡ places_in diversions.new.ways
        lists.now.lists }
    ensures any_moment { AtEachMoment (IsAdding diversions.old.ways (asked_entry asked.now)
        asked.now.rename (seen_of diversions.old.ways.aliases database.now.records lists.now.lists
        asked.now.owner asked.now.path)) (H.state host.old) (H.state host.new) }
    ensures turns { GoesByTurns (H.state host.old) (H.state host.new) }
    ensures silent { Silent (H.state host.old) (H.state host.new) }
    ensures counts { CountsLast (H.state host.old) (H.state host.new) result.last }
    ensures not_closed { IfSome result.last (λ unit. IsBrokenBy Closed unit.reply → ⊥) }
{
    let mut units = Vec::new(alloc);
    if units.reserve(1).is_err() {
        return no_memory(alloc);
    }
    let Ok(seen) = seen_of(database, lists, diversions, asked) else {
        return no_memory(alloc);
    };
    let unit = add_unit(alloc, host, lists, diversions, places, asked, seen);
    report_of(units, unit)
}

// The paths above which the aliases are read.
fn paths_of(alloc: Global, asked: &Diverting) -> Result<Vec<RootPath>, AllocError>
    ensures { IfOk result (λ paths. paths.items ≡ asked.now.path ∷ asked.now.target ∷ []) }
{
    let mut paths = Vec::new(alloc);
    paths.push(asked.path.at()?)?;
    paths.push(asked.target.at()?)?;
    Ok(paths)
}

/// Adds a diversion, by the administration that these hold, once what is missing of the aliases above its path and its target was read.
pub fn divert_followed<H: Host>(
    alloc: Global,
    host: &mut H,
    database: &NotedDatabase,
    lists: &FileLists,
    diversions: &mut Diversions,
    places: &mut Places,
    asked: &Diverting,
) -> Report
    requires ready { Needs (H.state host.old) IsTableReady }
    requires writable { diversions.old.closed ≡ false }
    requires kept { places.old ≡ places_in diversions.old.ways lists.now.lists }
    ensures whole { IsNone result.last
        → IsOneUnit (λ u. HasDiverted asked.now database.now.records lists.now.lists
        diversions.old.ways diversions.new.ways u (H.state host.old) (H.state host.new))
        result.units.items }
    ensures broken { HasBroken result }
    ensures calls { calls_told result ≡ [] }
    ensures writable { IsNone result.last → diversions.new.closed ≡ false }
    ensures kept { IsNone result.last → places.new ≡ places_in diversions.new.ways
        lists.now.lists }
    ensures any_moment { AtEachMoment (IsDiverting asked.now database.now.records lists.now.lists
        diversions.old.ways) (H.state host.old) (H.state host.new) }
    ensures turns { GoesByTurns (H.state host.old) (H.state host.new) }
    ensures silent { Silent (H.state host.old) (H.state host.new) }
    ensures counts { CountsLast (H.state host.old) (H.state host.new) result.last }
    ensures not_closed { IfSome result.last (λ unit. IsBrokenBy Closed unit.reply → ⊥) }
{
    let Ok(paths) = paths_of(alloc, asked) else {
        return no_memory(alloc);
    };
    match follow_paths(alloc, host, lists, diversions, places, paths.as_slice()) {
        Ok(()) => divert_on(alloc, host, database, lists, diversions, places, asked),
        Err(fault) => broken_report(alloc, fault),
    }
}

impl<H: Host> Session<H> {
    /// Adds a diversion: one unit. What is missing of the aliases above its path and its target is read first. One that is broken off
    /// closes the session.
    pub fn divert(&mut self, asked: &Diverting) -> Report
        ensures whole { self.old.closed ≡ false → IsNone result.last
            → IsOneUnit (λ u. HasDiverted asked.now self.old.administration.database.records
            self.old.administration.lists.lists self.old.diversions.ways self.new.diversions.ways u
            (H.state self.old.host) (H.state self.new.host)) result.units.items }
        ensures broken { HasBroken result }
        ensures told { TellsCalls (H.state self.old.host) (H.state self.new.host) result }
        ensures any_moment { self.old.closed ≡ false
            → AtEachMoment (IsDiverting asked.now self.old.administration.database.records
            self.old.administration.lists.lists self.old.diversions.ways) (H.state self.old.host)
            (H.state self.new.host) }
        ensures turns { GoesByTurns (H.state self.old.host) (H.state self.new.host) }
        ensures loss { self.old.closed ≡ false
            → LosesLikeAStop (λ so_far. IsDiverting asked.now
            self.old.administration.database.records self.old.administration.lists.lists
            self.old.diversions.ways (H.state self.old.host).world) (H.state self.old.host)
            (H.state self.new.host) }
        ensures stands { self.old.closed ≡ false → IsNone result.last
            → StandsOnceAnswered (H.state self.old.host) (H.state self.new.host) }
        ensures answered { self.old.closed ≡ false → IsNone result.last
            → IsAnswered (H.state self.old.host) (H.state self.new.host) }
        ensures closes { self.new.closed ≡ is_some result.last }
        ensures refused { self.old.closed ≡ true → IsClosedReport result }
        ensures same { self.old.closed ≡ true → H.state self.new.host ≡ H.state self.old.host }
        ensures same_table { self.old.closed ≡ true → self.new.diversions ≡ self.old.diversions }
        ensures database { self.new.administration.database ≡ self.old.administration.database }
        ensures lists { self.new.administration.lists ≡ self.old.administration.lists }
        ensures silent { Silent (H.state self.old.host) (H.state self.new.host) }
        ensures counts { self.old.closed ≡ false → CountsLast (H.state self.old.host)
            (H.state self.new.host) result.last }
        ensures not_closed { self.old.closed ≡ false
            → IfSome result.last (λ unit. IsBrokenBy Closed unit.reply → ⊥) }
    {
        if self.closed {
            return closed_report(self.administration.alloc);
        }
        let administration = &mut self.administration;
        let report = divert_followed(
            administration.alloc,
            &mut self.host,
            &administration.database,
            &administration.lists,
            &mut self.diversions,
            &mut administration.places,
            asked,
        );
        self.closed = report.last.is_some();
        report
    }
}
