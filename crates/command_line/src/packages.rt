// Packages are configured, removed or purged by their names, or by what is wanted of them, which is recorded too: the root is
// opened to do it.
ghost use Rattle.std.specs.Prelude.{◌≡◌, ◌≤◌, None, Some, false, IfErr, IfOk, OnErr, is_some, option_map};
ghost use Rattle.unit_reports.specs.Held.{held_by};
ghost use Rattle.unit_reports.specs.Watching.{IsTold};
ghost use Rattle.command_line.specs.Packages.{HasWorked, HasWorkedSince, HasWorkedToEnd, HasWorkedUnder, HasWorkedWith, IsWorkedOn, changed_of, options_of, policy_of, selections_of, triggering_of, want_of};
ghost use Rattle.command_line.specs.Roots.{IsNotBegunOn, IsUnbegun, IsUnitsFault, around};
ghost use Rattle.command_line.specs.Triggering.{AreAllTold, touched_of};

use crate::ending::{Ended, end};
use crate::fault::{NotOpened, RootFault};
use crate::hosts::Hosts;
use crate::triggering::{
    Known, Triggering, add_touched_of, begin, idle, last_behind, trigger_behind, untriggered,
};
use administration::AdministrationFault;
use command_words::{Forced, ScriptStreams, Selected, Selections, Wanted};
use conffiles::{Changed, ConfPolicy};
use dpkg_session::{Change, ConfigureOptions, RecordChange, Report, Session, Touch, Unit, Watcher};
use host_core::Host;
use status_records::Want;
use std::alloc::{AllocError, Global};
use texts::{Text, Texts};

/// What is to be done with packages; all that wait are configured where none is named.
#[derive(Drop)]
pub(crate) enum Work {
    Configure(Option<Texts>, ConfigureOptions),
    /// And whether they go too where others depend on them.
    Remove(Texts, bool),
    Purge(Texts, bool),
    /// What is wanted of packages is recorded.
    Select(Selections),
    /// Packages go as it is recorded.
    RemoveSelected(bool),
    /// Nothing but what is done of triggers around it: those that are pending are processed.
    ProcessTriggers,
}

fn changed_of(confnew: bool) -> Changed
    ensures { result ≡ changed_of confnew }
{
    if confnew {
        Changed::Install
    } else {
        Changed::Keep
    }
}

// How conffiles are settled.
fn policy_of(forced: Forced) -> ConfPolicy
    ensures { result ≡ policy_of forced }
{
    ConfPolicy {
        changed: changed_of(forced.confnew),
        missing: forced.confmiss,
    }
}

/// How packages are configured.
pub(crate) fn options_of(forced: Forced) -> ConfigureOptions
    ensures { result ≡ options_of forced }
{
    ConfigureOptions {
        policy: policy_of(forced),
        ignore_depends: forced.depends,
    }
}

/// Copies of texts.
pub(crate) fn listed(alloc: Global, names: &[Text]) -> Result<Vec<Text>, AllocError>
    ensures { IfOk result (λ copies. copies.items ≡ names.now) }
{
    let mut copies = Vec::new(alloc);
    for name in names {
        copies.push(name.copy()?)?;
    }
    Ok(copies)
}

fn listed_if_named(alloc: Global, names: &Option<Texts>) -> Result<Option<Vec<Text>>, AllocError>
    ensures { IfOk result (λ copies. option_map (λ v. v.items) copies ≡ names.now) }
{
    match names {
        Some(names) => Ok(Some(listed(alloc, names.as_slice())?)),
        None => Ok(None),
    }
}

fn want_of(wanted: Wanted) -> Want
    ensures { result ≡ want_of wanted }
{
    match wanted {
        Wanted::Install => Want::Install,
        Wanted::Hold => Want::Hold,
        Wanted::Deinstall => Want::Deinstall,
        Wanted::Purge => Want::Purge,
    }
}

// What is to be recorded of what words tell.
fn selections_of(alloc: Global, told: &[Selected]) -> Result<Vec<RecordChange>, AllocError>
    ensures { IfOk result (λ selections. selections.items ≡ selections_of told.now) }
{
    let mut selections = Vec::new(alloc);
    for selected in told {
        let name = selected.name.copy()?;
        let change = Change::Want(want_of(selected.want));
        selections.push(RecordChange { name, change })?;
    }
    Ok(selections)
}

// The report of an open session.
fn carry_out<H: Host, W: Watcher>(
    alloc: Global,
    session: &mut Session<H>,
    asked: &Work,
    watcher: &mut W,
) -> Result<Report, AllocError>
    requires { session.old.closed ≡ false }
    ensures done { IfOk result (λ done. HasWorked asked.now done
        (held_by session.old.administration session.old.diversions)
        (held_by session.new.administration session.new.diversions) (H.state session.old.host)
        (H.state session.new.host)) }
    ensures closes { IfOk result (λ done. session.new.closed ≡ is_some done.last) }
    ensures unmoved { OnErr result (H.state session.new.host ≡ H.state session.old.host) }
    ensures watched { IfOk result (λ done. IsTold W.tells (H.state session.old.host) watcher.old
        done.units.items watcher.new) }
    ensures unwatched { OnErr result (watcher.new ≡ watcher.old) }
{
    match asked {
        Work::Configure(names, options) => {
            let names = listed_if_named(alloc, names)?;
            Ok(session.configure(names, *options, watcher))
        }
        Work::Remove(names, ignore_depends) => {
            let names = listed(alloc, names.as_slice())?;
            Ok(session.remove(names, *ignore_depends, watcher))
        }
        Work::Purge(names, ignore_depends) => {
            let names = listed(alloc, names.as_slice())?;
            Ok(session.purge(names, *ignore_depends, watcher))
        }
        Work::Select(told) => {
            let selections = selections_of(alloc, told.as_slice())?;
            Ok(session.change(selections, watcher))
        }
        Work::RemoveSelected(ignore_depends) => {
            Ok(session.remove_selected(*ignore_depends, watcher))
        }
        Work::ProcessTriggers => Ok(idle(alloc)),
    }
}

// What is done of triggers around the work.
fn triggering_of(asked: &Work, process: bool) -> Option<Triggering>
    ensures { result ≡ triggering_of asked.now process }
{
    match asked {
        Work::Configure(_, _) | Work::ProcessTriggers => Some(Triggering {
            by_files: false,
            process,
        }),
        Work::Select(_) => None,
        Work::Remove(_, _) | Work::Purge(_, _) | Work::RemoveSelected(_) => Some(Triggering {
            by_files: true,
            process,
        }),
    }
}

// The work of an open session around which triggers don't count, and the end of the command behind it.
fn work_alone<H: Host, W: Watcher>(
    alloc: Global,
    session: &mut Session<H>,
    asked: &Work,
    watcher: &mut W,
) -> Result<Ended<Report>, AllocError>
    requires { session.old.closed ≡ false }
    ensures done { IfOk result (λ ended. HasWorkedWith None asked.now ended
        (held_by session.old.administration session.old.diversions) (H.state session.old.host)
        (H.state session.new.host)) }
    ensures unmoved { OnErr result (H.state session.new.host ≡ H.state session.old.host) }
    ensures watched { IfOk result (λ ended. AreAllTold W.tells watcher.old ended.done.units.items
        ended.triggered watcher.new) }
    ensures unwatched { OnErr result (watcher.new ≡ watcher.old) }
{
    let done = carry_out(alloc, session, asked, watcher)?;
    let left = end(session, &done.last);
    let triggered = untriggered(alloc);
    Ok(Ended {
        done,
        triggered,
        left,
    })
}

// The packages that units touched.
fn touched_in(alloc: Global, units: &[Unit]) -> Result<Vec<Touch>, AllocError>
    ensures { IfOk result (λ touches. touches.items ≡ touched_of units.now) }
{
    let mut touches = Vec::new(alloc);
    add_touched_of(units, &mut touches)?;
    Ok(touches)
}

// The work of an open session behind what is done of triggers before it, with what is done of them behind it, and the end of the command.
fn work_watched<H: Host, W: Watcher>(
    alloc: Global,
    session: &mut Session<H>,
    asked: &Work,
    triggering: Triggering,
    known: &Known,
    watcher: &mut W,
) -> Result<Ended<Report>, AllocError>
    requires { session.old.closed ≡ false }
    ensures done { IfOk result (λ ended. HasWorkedSince triggering known.now asked.now ended
        (held_by session.old.administration session.old.diversions) (H.state session.old.host)
        (H.state session.new.host)) }
    ensures unmoved { OnErr result (H.state session.new.host ≡ H.state session.old.host) }
    ensures watched { IfOk result (λ ended. AreAllTold W.tells watcher.old ended.done.units.items
        ended.triggered watcher.new) }
    ensures unwatched { OnErr result (watcher.new ≡ watcher.old) }
{
    let done = carry_out(alloc, session, asked, watcher)?;
    let touched = touched_in(alloc, done.units.as_slice());
    let triggered = trigger_behind(
        alloc, session, triggering, known, &done.last, touched, watcher,
    );
    let left = end(session, last_behind(&done.last, &triggered));
    Ok(Ended {
        done,
        triggered,
        left,
    })
}

// The same with what is done of triggers before it.
fn watch_and_work<H: Host, W: Watcher>(
    alloc: Global,
    session: &mut Session<H>,
    asked: &Work,
    triggering: Triggering,
    watcher: &mut W,
) -> Result<Ended<Report>, AdministrationFault>
    requires { session.old.closed ≡ false }
    ensures done { IfOk result (λ ended. HasWorkedWith (Some triggering) asked.now ended
        (held_by session.old.administration session.old.diversions) (H.state session.old.host)
        (H.state session.new.host)) }
    ensures unbegun { IfErr result (λ fault. IsUnbegun (Some triggering) fault (H.state session.old.host)
        (H.state session.new.host)) }
    ensures watched { IfOk result (λ ended. AreAllTold W.tells watcher.old ended.done.units.items
        ended.triggered watcher.new) }
    ensures unwatched { OnErr result (watcher.new ≡ watcher.old) }
{
    match begin(session, triggering.by_files) {
        Ok(known) => match work_watched(alloc, session, asked, triggering, &known, watcher) {
            Ok(ended) => Ok(ended),
            Err(_) => Err(AdministrationFault::NoMemory),
        },
        Err(fault) => Err(AdministrationFault::from(fault)),
    }
}

// The work of an open session, with what is done of triggers around it, and the end of the command behind all.
fn work_to_end<H: Host, W: Watcher>(
    alloc: Global,
    session: &mut Session<H>,
    asked: &Work,
    process: bool,
    watcher: &mut W,
) -> Result<Ended<Report>, AdministrationFault>
    requires { session.old.closed ≡ false }
    ensures done { IfOk result (λ ended. HasWorkedToEnd asked.now process ended
        (held_by session.old.administration session.old.diversions) (H.state session.old.host)
        (H.state session.new.host)) }
    ensures unbegun { IfErr result (λ fault. IsUnbegun (triggering_of asked.now process) fault
        (H.state session.old.host) (H.state session.new.host)) }
    ensures watched { IfOk result (λ ended. AreAllTold W.tells watcher.old ended.done.units.items
        ended.triggered watcher.new) }
    ensures unwatched { OnErr result (watcher.new ≡ watcher.old) }
{
    match triggering_of(asked, process) {
        Some(triggering) => watch_and_work(alloc, session, asked, triggering, watcher),
        None => match work_alone(alloc, session, asked, watcher) {
            Ok(ended) => Ok(ended),
            Err(_) => Err(AdministrationFault::NoMemory),
        },
    }
}

// The work on the host of the root, which is given back.
fn work_on<S: Hosts, W: Watcher>(
    alloc: Global,
    hosts: &mut S,
    host: S::Opened,
    asked: &Work,
    process: bool,
    watcher: &mut W,
) -> Result<Ended<Report>, AdministrationFault>
    ensures done { IfOk result (IsWorkedOn (S.left hosts.new) (S.Opened.state host) asked.now
        process) }
    ensures refused { IfErr result (IsNotBegunOn (triggering_of asked.now process)
        (S.left hosts.new) (S.Opened.state host)) }
    ensures faults { S.faults hosts.old ≤ S.faults hosts.new }
    ensures watched { IfOk result (λ ended. AreAllTold W.tells watcher.old ended.done.units.items
        ended.triggered watcher.new) }
    ensures unwatched { OnErr result (watcher.new ≡ watcher.old) }
    ensures below { S.below hosts.new ≡ S.below hosts.old }
{
    match Session::open(alloc, host) {
        Ok(mut session) => {
            let ended = work_to_end(alloc, &mut session, asked, process, watcher);
            hosts.close_root(session.into_host());
            ended
        }
        Err((host, fault)) => {
            hosts.close_root(host);
            Err(fault)
        }
    }
}

/// Does the work under the root, and processes what is pending behind it where that is wanted and the work activates triggers; or
/// tells why the root can't be opened. Want of memory outside of the units, and a fault of the look at triggers before them, are
/// told likewise.
pub(crate) fn work_under<S: Hosts, W: Watcher>(
    alloc: Global,
    hosts: &mut S,
    root: &Text,
    streams: ScriptStreams,
    wait: u32,
    asked: &Work,
    process: bool,
    watcher: &mut W,
) -> Result<Ended<Report>, NotOpened>
    ensures done { IfOk result (HasWorkedUnder (around S.Hosts hosts.old hosts.new) root.now
        asked.now process) }
    ensures refused { IfErr result (IsUnitsFault (triggering_of asked.now process)
        (around S.Hosts hosts.old hosts.new) root.now) }
    ensures watched { IfOk result (λ ended. AreAllTold W.tells watcher.old ended.done.units.items
        ended.triggered watcher.new) }
    ensures unwatched { OnErr result (watcher.new ≡ watcher.old) }
    ensures below { S.below hosts.new ≡ S.below hosts.old }
{
    match hosts.open_root(root.as_str(), streams, wait) {
        Ok(host) => match work_on(alloc, hosts, host, asked, process, watcher) {
            Ok(ended) => Ok(ended),
            Err(fault) => Err(NotOpened::Opening(fault)),
        },
        Err(RootFault::Locked(lock)) => Err(NotOpened::Locked(lock)),
        Err(RootFault::Host(fault)) => Err(NotOpened::Opening(AdministrationFault::from(fault))),
    }
}
