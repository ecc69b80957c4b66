// Triggers around the units of a command: those that its packages activate are noted behind them, and processed.
ghost use Rattle.std.specs.Prelude.{◌≡◌, ◌≤◌, ◌++◌, ℕ, List, None, false, is_some, map, IfErr, IfOk, IsNone, OnOk};
ghost use Rattle.dpkg_session.specs.Activated.{change_by};
ghost use Rattle.host_core.specs.Looks.{Looks};
ghost use Rattle.trigger_journal.specs.Asked.{asked_of};
ghost use Rattle.trigger_watch.specs.Activations.{activations_of};
ghost use Rattle.trigger_watch.specs.declared.touching.Touch.{Touch as ATouch};
ghost use Rattle.unit_reports.specs.Held.{held_by};
ghost use Rattle.unit_reports.specs.Units.{breakage_of};
ghost use Rattle.trigger_turns.specs.Told.{AreTold, AreToldInTurns};
ghost use Rattle.trigger_turns.specs.Turns.{names_told};
ghost use Rattle.command_line.specs.Triggering.{AreTriggersTold, HasBegun, HasForeseen, HasGoneOn, HasNoted, HasProcessed, HasProcessedIf, HasTriggeredBehind, IsBrokenOff, IsIdle, IsUnforeseen, IsUntriggered, changes_files, changes_of, has_changed_files, last_behind, touch_of, touched_of, triggered_status};

use dpkg_session::{
    RecordChange, Report, Request, Session, Touch, Touched, TriggerWatch, Unit, Watcher,
};
use host_core::{Host, HostFault};
use report_lines::report_status;
use status_records::{Record, State};
use std::alloc::{AllocError, Global};
use texts::Text;
use trigger_turns::{pending_owners, process_pending};
use unit_reports::{breakage_of, broken};

/// What is done of triggers around the units of a command.
#[derive(Clone, Copy)]
pub(crate) struct Triggering {
    /// The files of packages count, and not only what these activate by themselves.
    pub(crate) by_files: bool,
    /// What is pending then is processed.
    pub(crate) process: bool,
}

/// What is known of triggers before the units of a command: what each package hits, and what the journal asked for.
#[derive(Drop)]
pub(crate) struct Known {
    pub(crate) watch: TriggerWatch,
    pub(crate) found: Vec<Request>,
}

/// What came of triggers: a report on the records in which they were noted, and one on the packages that processed them.
#[derive(Drop)]
pub(crate) struct Triggered {
    pub(crate) noted: Report,
    pub(crate) processed: Report,
}

/// Nothing was done.
pub(crate) fn idle(alloc: Global) -> Report
    ensures { IsIdle result }
{
    Report {
        units: Vec::new(alloc),
        last: None,
    }
}

/// Nothing was to be done.
pub(crate) fn untriggered(alloc: Global) -> Triggered
    ensures { IsUntriggered result }
{
    Triggered {
        noted: idle(alloc),
        processed: idle(alloc),
    }
}

// Looks at what the journal asks for, and writes ahead.
fn foresee<H: Host>(session: &mut Session<H>) -> Result<Vec<Request>, HostFault>
    requires { session.old.closed ≡ false }
    ensures foreseen { IfOk result (λ found. HasForeseen found.items
        (held_by session.old.administration session.old.diversions) (H.state session.old.host)
        (H.state session.new.host)) }
    ensures unforeseen { IfErr result (λ fault. IsUnforeseen fault (H.state session.old.host)
        (H.state session.new.host)) }
    ensures held { held_by session.new.administration session.new.diversions
        ≡ held_by session.old.administration session.old.diversions }
    ensures open { session.new.closed ≡ false }
{
    match session.requested_triggers() {
        Ok(found) => match session.foresee_triggers() {
            Ok(_) => Ok(found),
            Err(fault) => Err(fault),
        },
        Err(fault) => Err(fault),
    }
}

/// What is done of triggers before units: it is looked at what is known of them, and the journal is written ahead.
pub(crate) fn begin<H: Host>(session: &mut Session<H>, by_files: bool) -> Result<Known, HostFault>
    requires { session.old.closed ≡ false }
    ensures begun { IfOk result (λ known. HasBegun by_files known
        (held_by session.old.administration session.old.diversions) (H.state session.old.host)
        (H.state session.new.host)) }
    ensures unbegun { IfErr result (λ fault. IsUnforeseen fault (H.state session.old.host)
        (H.state session.new.host)) }
    ensures held { held_by session.new.administration session.new.diversions
        ≡ held_by session.old.administration session.old.diversions }
    ensures open { session.new.closed ≡ false }
{
    match session.watch_triggers(by_files) {
        Ok(watch) => match foresee(session) {
            Ok(found) => Ok(Known { watch, found }),
            Err(fault) => Err(fault),
        },
        Err(fault) => Err(fault),
    }
}

// The report on a look or a step that failed.
fn unnoted(alloc: Global, fault: HostFault) -> Report
    ensures { IsBrokenOff (breakage_of fault) result }
{
    Report {
        units: Vec::new(alloc),
        last: Some(broken(alloc, Vec::new(alloc), breakage_of(fault))),
    }
}

fn has_changed_files(state: State) -> bool
    ensures { result ≡ has_changed_files state }
{
    match state {
        State::NotInstalled | State::ConfigFiles | State::HalfInstalled | State::Unpacked => true,
        State::HalfConfigured | State::Installed => false,
    }
}

// Whether the files of a package were unpacked or taken away in the unit that tells it.
fn changes_files(entry: &Option<Record>) -> bool
    ensures { result ≡ changes_files entry.now }
{
    match entry {
        Some(entry) => has_changed_files(entry.state),
        None => true,
    }
}

fn add_touches(touched: &[Touched], touches: &mut Vec<Touch>) -> Result<(), AllocError>
    ensures { OnOk result (touches.new.items ≡ touches.old.items ++ map touch_of touched.now) }
{
    for one in touched {
        touches.push(Touch {
            package: one.package.copy()?,
            files: changes_files(&one.entry),
        })?;
    }
    Ok(())
}

/// Adds the packages that units touched.
pub(crate) fn add_touched_of(units: &[Unit], touches: &mut Vec<Touch>) -> Result<(), AllocError>
    ensures { OnOk result (touches.new.items ≡ touches.old.items ++ touched_of units.now) }
{
    for unit in units {
        add_touches(unit.touched.as_slice(), touches)?;
    }
    Ok(())
}

// What is to be noted, of packages that were touched. The session only looks.
fn activated<H: Host>(
    session: &mut Session<H>,
    by_files: bool,
    watch: &TriggerWatch,
    touched: Result<Vec<Touch>, AllocError>,
) -> Result<Vec<RecordChange>, HostFault>
    requires { session.old.closed ≡ false }
    ensures looks { (touches : List ATouch) → IfOk touched (λ copies. copies.items ≡ touches)
        → Looks result (λ changes w. changes.items ≡ map change_by
        (activations_of w session.old.administration.database.records
        session.old.administration.lists.lists by_files watch.now touches))
        (H.state session.old.host) (H.state session.new.host) }
    ensures held { held_by session.new.administration session.new.diversions
        ≡ held_by session.old.administration session.old.diversions }
    ensures open { session.new.closed ≡ false }
{
    match touched {
        Ok(touches) => session.activations(by_files, watch, touches.as_slice()),
        Err(_) => Err(HostFault::NoMemory),
    }
}

// Changes, and more of them.
fn joined(
    changes: Vec<RecordChange>,
    more: Vec<RecordChange>,
) -> Result<Vec<RecordChange>, AllocError>
    ensures { IfOk result (λ all. all.items ≡ changes.items ++ more.items) }
{
    let mut all = changes;
    for change in more {
        all.push(change)?;
    }
    Ok(all)
}

// Changes, and those that are asked for. The session only looks.
fn with_asked<H: Host>(
    session: &mut Session<H>,
    found: &[Request],
    changes: Vec<RecordChange>,
) -> Result<Vec<RecordChange>, HostFault>
    requires { session.old.closed ≡ false }
    ensures looks { Looks result
        (λ all w. all.items ≡ changes.items ++ map change_by
        (asked_of w session.old.administration.database.records found.now))
        (H.state session.old.host) (H.state session.new.host) }
    ensures held { held_by session.new.administration session.new.diversions
        ≡ held_by session.old.administration session.old.diversions }
    ensures open { session.new.closed ≡ false }
{
    match session.asked_changes(found) {
        Ok(more) => Ok(joined(changes, more)?),
        Err(fault) => Err(fault),
    }
}

// What is to be noted behind units that touched packages. The session only looks.
fn pending<H: Host>(
    session: &mut Session<H>,
    by_files: bool,
    known: &Known,
    touched: Result<Vec<Touch>, AllocError>,
) -> Result<Vec<RecordChange>, HostFault>
    requires { session.old.closed ≡ false }
    ensures looks { (touches : List ATouch) → IfOk touched (λ copies. copies.items ≡ touches)
        → Looks result (λ changes w. changes.items
        ≡ changes_of w (held_by session.old.administration session.old.diversions) by_files
        known.now touches) (H.state session.old.host) (H.state session.new.host) }
    ensures held { held_by session.new.administration session.new.diversions
        ≡ held_by session.old.administration session.old.diversions }
    ensures open { session.new.closed ≡ false }
{
    match activated(session, by_files, &known.watch, touched) {
        Ok(changes) => with_asked(session, known.found.as_slice(), changes),
        Err(fault) => Err(fault),
    }
}

fn note<H: Host, W: Watcher>(
    alloc: Global,
    session: &mut Session<H>,
    by_files: bool,
    known: &Known,
    touched: Result<Vec<Touch>, AllocError>,
    watcher: &mut W,
) -> Report
    requires { session.old.closed ≡ false }
    ensures noted { (touches : List ATouch) → IfOk touched (λ copies. copies.items ≡ touches)
        → HasNoted by_files known.now touches result
        (held_by session.old.administration session.old.diversions)
        (held_by session.new.administration session.new.diversions) (H.state session.old.host)
        (H.state session.new.host) }
    ensures open { IsNone result.last → session.new.closed ≡ false }
    ensures watched { AreTold W.tells watcher.old result.units.items watcher.new }
{
    match pending(session, by_files, known, touched) {
        Ok(changes) => session.change(changes, watcher),
        Err(fault) => unnoted(alloc, fault),
    }
}

fn process_if<H: Host, W: Watcher>(
    alloc: Global,
    session: &mut Session<H>,
    wanted: bool,
    names: Result<Vec<Text>, AllocError>,
    takes: bool,
    watcher: &mut W,
) -> Report
    requires { session.old.closed ≡ false }
    ensures processed { (order : List (List ℕ)) → IfOk names (λ copies. copies.items ≡ order)
        → HasProcessedIf wanted order takes result
        (held_by session.old.administration session.old.diversions)
        (held_by session.new.administration session.new.diversions) (H.state session.old.host)
        (H.state session.new.host) }
    ensures open { IsNone result.last → session.new.closed ≡ false }
    ensures watched { AreToldInTurns W.tells watcher.old result.units.items watcher.new }
{
    match wanted {
        true => process_pending(alloc, session, names, takes, watcher),
        false => idle(alloc),
    }
}

// Once all is noted dpkg's files of interests are brought to those of the packages; then what is pending is processed.
fn register<H: Host, W: Watcher>(
    alloc: Global,
    session: &mut Session<H>,
    wanted: bool,
    names: Result<Vec<Text>, AllocError>,
    takes: bool,
    watcher: &mut W,
) -> Report
    requires { session.old.closed ≡ false }
    ensures registered { (order : List (List ℕ)) → IfOk names (λ copies. copies.items ≡ order)
        → HasGoneOn wanted order takes result
        (held_by session.old.administration session.old.diversions)
        (held_by session.new.administration session.new.diversions) (H.state session.old.host)
        (H.state session.new.host) }
    ensures open { IsNone result.last → session.new.closed ≡ false }
    ensures watched { AreToldInTurns W.tells watcher.old result.units.items watcher.new }
{
    match session.register_triggers() {
        Ok(_) => process_if(alloc, session, wanted, names, takes, watcher),
        Err(fault) => unnoted(alloc, fault),
    }
}

// Before that the journal is emptied.
fn take_up<H: Host, W: Watcher>(
    alloc: Global,
    session: &mut Session<H>,
    wanted: bool,
    names: Result<Vec<Text>, AllocError>,
    watcher: &mut W,
) -> Report
    requires { session.old.closed ≡ false }
    ensures taken { (order : List (List ℕ)) → IfOk names (λ copies. copies.items ≡ order)
        → HasProcessed wanted order None result
        (held_by session.old.administration session.old.diversions)
        (held_by session.new.administration session.new.diversions) (H.state session.old.host)
        (H.state session.new.host) }
    ensures open { IsNone result.last → session.new.closed ≡ false }
    ensures watched { AreToldInTurns W.tells watcher.old result.units.items watcher.new }
{
    match session.clear_triggers() {
        Ok(written) => register(alloc, session, wanted, names, written, watcher),
        Err(fault) => unnoted(alloc, fault),
    }
}

fn process<H: Host, W: Watcher>(
    alloc: Global,
    session: &mut Session<H>,
    wanted: bool,
    names: Result<Vec<Text>, AllocError>,
    last: &Option<Unit>,
    watcher: &mut W,
) -> Report
    requires { IsNone last.now → session.old.closed ≡ false }
    ensures processed { (order : List (List ℕ)) → IfOk names (λ copies. copies.items ≡ order)
        → HasProcessed wanted order last.now result
        (held_by session.old.administration session.old.diversions)
        (held_by session.new.administration session.new.diversions) (H.state session.old.host)
        (H.state session.new.host) }
    ensures open { IsNone last.now → IsNone result.last → session.new.closed ≡ false }
    ensures watched { AreToldInTurns W.tells watcher.old result.units.items watcher.new }
{
    match last {
        None => take_up(alloc, session, wanted, names, watcher),
        Some(_) => idle(alloc),
    }
}

fn push_touched(touched: &[Touched], names: &mut Vec<Text>) -> Result<(), AllocError>
    ensures { OnOk result (names.new.items ≡ names.old.items ++ map (λ t. t.«package»)
        touched.now) }
{
    for one in touched {
        names.push(one.package.copy()?)?;
    }
    Ok(())
}

fn push_told(units: &[Unit], names: &mut Vec<Text>) -> Result<(), AllocError>
    ensures { OnOk result (names.new.items ≡ names.old.items ++ names_told units.now) }
{
    for unit in units {
        push_touched(unit.touched.as_slice(), names)?;
    }
    Ok(())
}

fn told_behind(names: Vec<Text>, units: &[Unit]) -> Result<Vec<Text>, AllocError>
    ensures { IfOk result (λ all. all.items ≡ names.items ++ names_told units.now) }
{
    let mut all = names;
    push_told(units, &mut all)?;
    Ok(all)
}

// Names, and behind them those of the packages that units tell.
fn with_told(names: Result<Vec<Text>, AllocError>, units: &[Unit]) -> Result<Vec<Text>, AllocError>
    ensures { (order : List (List ℕ)) → IfOk names (λ copies. copies.items ≡ order)
        → IfOk result (λ all. all.items ≡ order ++ names_told units.now) }
{
    match names {
        Ok(names) => told_behind(names, units),
        Err(fault) => Err(fault),
    }
}

/// Notes the triggers that packages have activated since the watch was taken, and those that are asked for, and processes what is
/// pending then; nothing behind a unit that was broken off.
pub(crate) fn trigger_behind<H: Host, W: Watcher>(
    alloc: Global,
    session: &mut Session<H>,
    triggering: Triggering,
    known: &Known,
    last: &Option<Unit>,
    touched: Result<Vec<Touch>, AllocError>,
    watcher: &mut W,
) -> Triggered
    requires { session.old.closed ≡ is_some last.now }
    ensures triggered { (touches : List ATouch) → IfOk touched (λ copies. copies.items ≡ touches)
        → HasTriggeredBehind triggering known.now last.now touches result
        (held_by session.old.administration session.old.diversions)
        (held_by session.new.administration session.new.diversions) (H.state session.old.host)
        (H.state session.new.host) }
    ensures open { IsNone (last_behind last.now result) → session.new.closed ≡ false }
    ensures watched { AreTriggersTold W.tells watcher.old result watcher.new }
{
    match last {
        None => {
            let first = pending_owners(alloc, session);
            let noted = note(alloc, session, triggering.by_files, known, touched, watcher);
            let names = with_told(first, noted.units.as_slice());
            let processed = process(
                alloc,
                session,
                triggering.process,
                names,
                &noted.last,
                watcher,
            );
            Triggered { noted, processed }
        }
        Some(_) => untriggered(alloc),
    }
}

/// The unit that was broken off, of those that a command has of its own or of these behind them.
pub(crate) fn last_behind<'a>(last: &'a Option<Unit>, came: &'a Triggered) -> &'a Option<Unit>
    ensures { result.now ≡ last_behind last.now came.now }
{
    if last.is_some() {
        return last;
    }
    if came.noted.last.is_some() {
        return &came.noted.last;
    }
    &came.processed.last
}

/// The worse status of both reports.
pub(crate) fn triggered_status(came: &Triggered) -> u8
    ensures value { result ≡ triggered_status came.now }
    ensures bound { result ≤ 2 }
{
    report_status(&came.noted).max(report_status(&came.processed))
}
