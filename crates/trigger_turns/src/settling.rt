// Who awaits what isn't pending any more ceases to, behind the turns.
ghost use Rattle.std.specs.Prelude.{◌≡◌, false, IfErr, IfOk, IfSome, IsNone, IsTrue, OnOk, ℕ, List};
ghost use Rattle.record_changes.specs.Awaits.{settled_awaits};
ghost use Rattle.unit_reports.specs.Held.{held_by};
ghost use Rattle.unit_reports.specs.Units.{IsBrokenBy};
ghost use Rattle.unit_reports.specs.declared.report.Breakage.TheVariants.{Abandoned};
ghost use Rattle.trigger_turns.specs.Settled.{HasProcessedPending, HasSettled};
ghost use Rattle.trigger_turns.specs.Told.{AreToldInTurns, HaveBeenTold};
ghost use Rattle.trigger_turns.specs.Turns.{NotesThose, first_wishes};

use crate::asking::{note_those, unbegun};
use crate::turns::process_in_turns;
use dpkg_session::{Report, Session, Unit, Watcher};
use host_core::{Host, HostFault};
use std::alloc::{AllocError, Global};
use texts::Text;

// There may be no room for the units.
fn note_settled<H: Host, W: Watcher>(
    alloc: Global,
    session: &mut Session<H>,
    units: &mut Vec<Unit>,
    watcher: &mut W,
) -> Result<bool, Unit>
    requires { session.old.closed ≡ false }
    ensures noted { NotesThose (settled_awaits session.old.administration.database.records)
        units.old.items units.new.items
        (held_by session.old.administration session.old.diversions)
        (held_by session.new.administration session.new.diversions) (H.state session.old.host)
        (H.state session.new.host) result }
    ensures open { OnOk result (session.new.closed ≡ false) }
    ensures abandoned { IfErr result (λ unit. IsBrokenBy Abandoned unit.reply
        → IsTrue (W.ends watcher.new)) }
    ensures watched { HaveBeenTold W.tells units.old.items units.new.items watcher.old
        watcher.new }
{
    match session.settled_awaits() {
        Ok(changes) => note_those(alloc, session, changes, units, watcher),
        Err(_) => Err(unbegun(alloc, HostFault::NoMemory)),
    }
}

// Behind units none of which was broken off.
fn settle<H: Host, W: Watcher>(
    alloc: Global,
    session: &mut Session<H>,
    units: Vec<Unit>,
    watcher: &mut W,
) -> Report
    requires { session.old.closed ≡ false }
    ensures settled { HasSettled units.items result
        (held_by session.old.administration session.old.diversions)
        (held_by session.new.administration session.new.diversions) (H.state session.old.host)
        (H.state session.new.host) }
    ensures open { IsNone result.last → session.new.closed ≡ false }
    ensures abandoned { IfSome result.last (λ unit. IsBrokenBy Abandoned unit.reply
        → IsTrue (W.ends watcher.new)) }
    ensures watched { HaveBeenTold W.tells units.items result.units.items watcher.old
        watcher.new }
{
    let mut units = units;
    match note_settled(alloc, session, &mut units, watcher) {
        Ok(_) => Report { units, last: None },
        Err(unit) => Report {
            units,
            last: Some(unit),
        },
    }
}

/// Processes what is pending of packages, in turns, and notes then who doesn't await anything any more.
pub fn process_pending<H: Host, W: Watcher>(
    alloc: Global,
    session: &mut Session<H>,
    names: Result<Vec<Text>, AllocError>,
    takes: bool,
    watcher: &mut W,
) -> Report
    requires { session.old.closed ≡ false }
    ensures processed { (order : List (List ℕ)) → IfOk names (λ copies. copies.items ≡ order)
        → HasProcessedPending (first_wishes order session.old.administration.database.records) takes
        result (held_by session.old.administration session.old.diversions)
        (held_by session.new.administration session.new.diversions) (H.state session.old.host)
        (H.state session.new.host) }
    ensures open { IsNone result.last → session.new.closed ≡ false }
    ensures abandoned { IfSome result.last (λ unit. IsBrokenBy Abandoned unit.reply
        → IsTrue (W.ends watcher.new)) }
    ensures watched { AreToldInTurns W.tells watcher.old result.units.items watcher.new }
{
    let Report { units, last } = process_in_turns(alloc, session, names, takes, watcher);
    match last {
        None => settle(alloc, session, units, watcher),
        Some(unit) => Report {
            units,
            last: Some(unit),
        },
    }
}
