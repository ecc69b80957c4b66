// What scripts ask for behind a package that was processed: it becomes pending, and is wished for.
ghost use Rattle.std.specs.Prelude.{◌≡◌, ◌+◌, ◌≤◌, ◌++◌, [], false, true, length, map, vec_capacity, vec_len, IfErr, IfOk, IsTrue, MatchOption, OnOk};
ghost use Rattle.dpkg_session.specs.Activated.{change_by};
ghost use Rattle.host_core.specs.Host.{AtEachMoment, Counts, Silent};
ghost use Rattle.host_core.specs.Looks.{Looks};
ghost use Rattle.trigger_chains.specs.Steps.{new_steps};
ghost use Rattle.trigger_chains.specs.Wishes.{with_wishes};
ghost use Rattle.trigger_journal.specs.Asked.{asked_of};
ghost use Rattle.trigger_journal.specs.Requests.{requests_of};
ghost use Rattle.trigger_journal.specs.Writing.{IsClearing};
ghost use Rattle.unit_reports.specs.Held.{held_by};
ghost use Rattle.unit_reports.specs.Units.{IsBrokenBy, breakage_of};
ghost use Rattle.unit_reports.specs.declared.report.Breakage.TheVariants.{Abandoned};
ghost use Rattle.trigger_turns.specs.Told.{HaveBeenTold};
ghost use Rattle.trigger_turns.specs.Turns.{AddsAsked, AddsReport, EndsWith, Follows, HasChanged, HasEmptied, IsFull, IsCutOff, NotesThose, answered, pending_steps};

use crate::wishing::{pending_steps, wish_for_new};
use dpkg_session::{RecordChange, Report, Request, Session, Unit, Watcher};
use host_core::{Host, HostFault};
use std::alloc::Global;
use trigger_chains::{Chain, Step, Wish};
use unit_reports::{breakage_of, broken};

/// The wishes that are left, and whether what scripts ask for is taken in.
#[derive(Drop)]
pub(crate) struct Wished {
    pub(crate) wishes: Vec<Wish>,
    pub(crate) takes: bool,
}

pub(crate) fn unbegun(alloc: Global, fault: HostFault) -> Unit
    ensures { IsCutOff (breakage_of fault) result }
{
    broken(alloc, Vec::new(alloc), breakage_of(fault))
}

// Room for so many units more.
pub(crate) fn has_room(units: &mut Vec<Unit>, more: usize) -> bool
    ensures same { units.new.items ≡ units.old.items }
    ensures room { result ≡ true → vec_len units.new + more ≤ vec_capacity units.new }
{
    units.reserve(more).is_ok()
}

fn push_all(units: &mut Vec<Unit>, more: Vec<Unit>)
    requires { vec_len units.old + length more.items ≤ vec_capacity units.old }
    ensures { units.new.items ≡ units.old.items ++ more.items }
{
    for unit in more {
        units.push_reserved(unit);
    }
}

// The units of a report behind others. There is room for them.
pub(crate) fn add_units(units: &mut Vec<Unit>, report: Report) -> Result<(), Unit>
    requires { vec_len units.old + length report.units.items ≤ vec_capacity units.old }
    ensures items { units.new.items ≡ units.old.items ++ report.units.items }
    ensures ends { EndsWith result report.last }
{
    let Report { units: more, last } = report;
    push_all(units, more);
    match last {
        Some(unit) => Err(unit),
        None => Ok(()),
    }
}

// There is room for a unit of each change.
pub(crate) fn note_changes<H: Host, W: Watcher>(
    session: &mut Session<H>,
    changes: Vec<RecordChange>,
    units: &mut Vec<Unit>,
    watcher: &mut W,
) -> Result<(), Unit>
    requires open { session.old.closed ≡ false }
    requires room { vec_len units.old + length changes.items ≤ vec_capacity units.old }
    ensures changed { AddsReport (λ done. HasChanged changes.items done
        (held_by session.old.administration session.old.diversions)
        (held_by session.new.administration session.new.diversions) (H.state session.old.host)
        (H.state session.new.host)) units.old.items units.new.items result }
    ensures open { OnOk result (session.new.closed ≡ false) }
    ensures abandoned { IfErr result (λ unit. IsBrokenBy Abandoned unit.reply
        → IsTrue (W.ends watcher.new)) }
    ensures watched { HaveBeenTold W.tells units.old.items units.new.items watcher.old
        watcher.new }
{
    let report = session.change(changes, watcher);
    add_units(units, report)
}

// The session only looks.
fn asked_some<H: Host>(session: &mut Session<H>) -> Result<Option<Vec<RecordChange>>, HostFault>
    requires { session.old.closed ≡ false }
    ensures looks { Looks result (λ found w. MatchOption found ⊥ (λ changes. changes.items
        ≡ map change_by (asked_of w session.old.administration.database.records [])))
        (H.state session.old.host) (H.state session.new.host) }
    ensures held { held_by session.new.administration session.new.diversions
        ≡ held_by session.old.administration session.old.diversions }
    ensures open { session.new.closed ≡ false }
{
    match session.asked_changes(&[]) {
        Ok(changes) => Ok(Some(changes)),
        Err(fault) => Err(fault),
    }
}

// None where no request was found. The session only looks.
fn asked_for<H: Host>(
    session: &mut Session<H>,
    found: &[Request],
) -> Result<Option<Vec<RecordChange>>, HostFault>
    requires { session.old.closed ≡ false }
    ensures looks { Looks result (λ all w. MatchOption all (found.now ≡ [])
        (λ changes. changes.items
        ≡ map change_by (asked_of w session.old.administration.database.records [])))
        (H.state session.old.host) (H.state session.new.host) }
    ensures held { held_by session.new.administration session.new.diversions
        ≡ held_by session.old.administration session.old.diversions }
    ensures open { session.new.closed ≡ false }
{
    if found.is_empty() {
        return Ok(None);
    }
    asked_some(session)
}

// What the journal asks for; none where it asks for nothing. The session only looks.
pub(crate) fn asked<H: Host>(
    session: &mut Session<H>,
) -> Result<Option<Vec<RecordChange>>, HostFault>
    requires { session.old.closed ≡ false }
    ensures looks { Looks result (λ found w. MatchOption found (requests_of w ≡ [])
        (λ changes. changes.items
        ≡ map change_by (asked_of w session.old.administration.database.records [])))
        (H.state session.old.host) (H.state session.new.host) }
    ensures held { held_by session.new.administration session.new.diversions
        ≡ held_by session.old.administration session.old.diversions }
    ensures open { session.new.closed ≡ false }
{
    match session.requested_triggers() {
        Ok(found) => asked_for(session, found.as_slice()),
        Err(fault) => Err(fault),
    }
}

// The same, as the answer that something was there.
pub(crate) fn answered(ended: Result<(), Unit>) -> Result<bool, Unit>
    ensures { result ≡ answered ended }
{
    match ended {
        Ok(()) => Ok(true),
        Err(unit) => Err(unit),
    }
}

// Notes these changes. There may be no room for their units.
pub(crate) fn note_those<H: Host, W: Watcher>(
    alloc: Global,
    session: &mut Session<H>,
    changes: Vec<RecordChange>,
    units: &mut Vec<Unit>,
    watcher: &mut W,
) -> Result<bool, Unit>
    requires { session.old.closed ≡ false }
    ensures noted { NotesThose changes.items units.old.items units.new.items
        (held_by session.old.administration session.old.diversions)
        (held_by session.new.administration session.new.diversions) (H.state session.old.host)
        (H.state session.new.host) result }
    ensures open { OnOk result (session.new.closed ≡ false) }
    ensures abandoned { IfErr result (λ unit. IsBrokenBy Abandoned unit.reply
        → IsTrue (W.ends watcher.new)) }
    ensures watched { HaveBeenTold W.tells units.old.items units.new.items watcher.old
        watcher.new }
{
    match has_room(units, changes.len()) {
        true => answered(note_changes(session, changes, units, watcher)),
        false => Err(unbegun(alloc, HostFault::NoMemory)),
    }
}

// Notes what the journal asks for, and answers whether it asks for something.
fn note_asked<H: Host, W: Watcher>(
    alloc: Global,
    session: &mut Session<H>,
    units: &mut Vec<Unit>,
    watcher: &mut W,
) -> Result<bool, Unit>
    requires { session.old.closed ≡ false }
    ensures noted { AddsAsked units.old.items units.new.items
        (held_by session.old.administration session.old.diversions)
        (held_by session.new.administration session.new.diversions) (H.state session.old.host)
        (H.state session.new.host) result }
    ensures open { OnOk result (session.new.closed ≡ false) }
    ensures abandoned { IfErr result (λ unit. IsBrokenBy Abandoned unit.reply
        → IsTrue (W.ends watcher.new)) }
    ensures watched { HaveBeenTold W.tells units.old.items units.new.items watcher.old
        watcher.new }
{
    match asked(session) {
        Ok(Some(changes)) => note_those(alloc, session, changes, units, watcher),
        Ok(None) => Ok(false),
        Err(fault) => Err(unbegun(alloc, fault)),
    }
}

// Empties the journal, once what it asks for is noted, and wishes for it. Answers whether nothing was in the way.
fn renew<H: Host>(
    alloc: Global,
    session: &mut Session<H>,
    chain: &Chain,
    before: &[Step],
    wishes: &mut Vec<Wish>,
) -> Result<bool, HostFault>
    requires { session.old.closed ≡ false }
    ensures emptied { IfOk result (λ written. HasEmptied written (H.state session.old.host)
        (H.state session.new.host)) }
    ensures wished { OnOk result (wishes.new.items ≡ with_wishes chain.now wishes.old.items
        (new_steps before.now (pending_steps session.old.administration.database.records))) }
    ensures any_moment { AtEachMoment IsClearing (H.state session.old.host)
        (H.state session.new.host) }
    ensures silent { Silent (H.state session.old.host) (H.state session.new.host) }
    ensures counts { Counts (H.state session.old.host) (H.state session.new.host) result }
    ensures held { held_by session.new.administration session.new.diversions
        ≡ held_by session.old.administration session.old.diversions }
    ensures open { session.new.closed ≡ false }
{
    match session.clear_triggers() {
        Ok(written) => match wish_for_new(alloc, session, chain, before, wishes) {
            Ok(()) => Ok(written),
            Err(_) => Err(HostFault::NoMemory),
        },
        Err(fault) => Err(fault),
    }
}

// Takes in what was noted of what scripts asked for, since these were pending.
fn take_noted<H: Host>(
    alloc: Global,
    session: &mut Session<H>,
    before: &[Step],
    chain: &Chain,
    left: &mut Wished,
) -> Result<(), Unit>
    requires { session.old.closed ≡ false }
    ensures emptied { OnOk result (HasEmptied left.new.takes (H.state session.old.host)
        (H.state session.new.host)) }
    ensures wished { OnOk result (left.new.wishes.items ≡ with_wishes chain.now
        left.old.wishes.items (new_steps before.now
        (pending_steps session.old.administration.database.records))) }
    ensures full { IfErr result (λ unit. IsFull unit (H.state session.old.host)
        (H.state session.new.host)) }
    ensures held { held_by session.new.administration session.new.diversions
        ≡ held_by session.old.administration session.old.diversions }
    ensures open { session.new.closed ≡ false }
{
    match renew(alloc, session, chain, before, &mut left.wishes) {
        Ok(written) => {
            left.takes = written;
            Ok(())
        }
        Err(fault) => Err(unbegun(alloc, fault)),
    }
}

// Takes in what scripts asked for behind a package that was processed; these were pending by then.
fn take_since<H: Host, W: Watcher>(
    alloc: Global,
    session: &mut Session<H>,
    before: &[Step],
    chain: &Chain,
    left: &mut Wished,
    units: &mut Vec<Unit>,
    watcher: &mut W,
) -> Result<(), Unit>
    requires open { session.old.closed ≡ false }
    requires takes { left.old.takes ≡ true }
    requires pending { before.now ≡ pending_steps session.old.administration.database.records }
    ensures taken { Follows true chain.now left.old.wishes.items units.old.items units.new.items
        (held_by session.old.administration session.old.diversions)
        (held_by session.new.administration session.new.diversions) (H.state session.old.host)
        (H.state session.new.host) left.new.wishes.items left.new.takes result }
    ensures open { OnOk result (session.new.closed ≡ false) }
    ensures abandoned { IfErr result (λ unit. IsBrokenBy Abandoned unit.reply
        → IsTrue (W.ends watcher.new)) }
    ensures watched { HaveBeenTold W.tells units.old.items units.new.items watcher.old
        watcher.new }
{
    match note_asked(alloc, session, units, watcher) {
        Ok(true) => take_noted(alloc, session, before, chain, left),
        Ok(false) => Ok(()),
        Err(unit) => Err(unit),
    }
}

// Takes in what scripts asked for behind a package that was processed.
pub(crate) fn take_in<H: Host, W: Watcher>(
    alloc: Global,
    session: &mut Session<H>,
    chain: &Chain,
    left: &mut Wished,
    units: &mut Vec<Unit>,
    watcher: &mut W,
) -> Result<(), Unit>
    requires open { session.old.closed ≡ false }
    requires takes { left.old.takes ≡ true }
    ensures taken { Follows true chain.now left.old.wishes.items units.old.items units.new.items
        (held_by session.old.administration session.old.diversions)
        (held_by session.new.administration session.new.diversions) (H.state session.old.host)
        (H.state session.new.host) left.new.wishes.items left.new.takes result }
    ensures open { OnOk result (session.new.closed ≡ false) }
    ensures abandoned { IfErr result (λ unit. IsBrokenBy Abandoned unit.reply
        → IsTrue (W.ends watcher.new)) }
    ensures watched { HaveBeenTold W.tells units.old.items units.new.items watcher.old
        watcher.new }
{
    match pending_steps(alloc, session) {
        Ok(before) => {
            take_since(
                alloc,
                session,
                before.as_slice(),
                chain,
                left,
                units,
                watcher,
            )
        }
        Err(_) => Err(unbegun(alloc, HostFault::NoMemory)),
    }
}
