// Trees: the root is opened, they are read one after another, and their packages are unpacked or installed.
ghost use Rattle.std.specs.Prelude.{◌≡◌, ◌≤◌, ◌++◌, IfErr, IfOk, None, OnErr, OnOk, Some, false, is_some};
ghost use Rattle.std.specs.List.{flat_map};
ghost use Rattle.std.specs.Vec.Iter.{into_iter_items};
ghost use Rattle.unit_reports.specs.Held.{held_by};
ghost use Rattle.trigger_turns.specs.Told.{AreTold};
ghost use Rattle.command_line.specs.Printing.{IsDoneTold, last_in, last_of_rounds, units_of, units_of_round};
ghost use Rattle.command_line.specs.Reading.{HaveGoneOn};
ghost use Rattle.command_line.specs.Roots.{around, IsNotBegunOn, IsUnbegun, IsUnitsFault};
ghost use Rattle.command_line.specs.Triggering.{touched_of};
ghost use Rattle.command_line.specs.Unpacks.{HasRunSince, HasRunToEnd, HasRunTrees, HasUnpacked, HasUnpackedTrees, IsAllTold, IsUnpackedOn, allowed_of, triggering_for};

use crate::ending::{Ended, end};
use crate::fault::{NotOpened, RootFault};
use crate::hosts::Hosts;
use crate::installing::install_trees;
use crate::packages::listed;
use crate::reading::TreeWords;
use crate::triggering::{Known, Triggering, add_touched_of, begin, last_behind, trigger_behind};
use administration::AdministrationFault;
use command_words::Unpacking;
use dpkg_session::{
    ConfigureOptions, Installed, Report, Session, Touch, Unit, UnpackOptions, Watcher,
};
use std::alloc::{AllocError, Global};

/// What came of trees: a report of their unpacks; or of each round that was begun of an install one of the unpacks, and one of what
/// was configured then.
#[derive(Drop)]
pub(crate) enum Done {
    Unpacked(Report),
    Installed(Vec<Installed>),
}

// The unit that was broken off in rounds.
fn last_of_rounds<'a>(rounds: &'a [Installed], none: &'a Option<Unit>) -> &'a Option<Unit>
    requires { none.now ≡ None }
    ensures { result.now ≡ last_of_rounds rounds.now }
{
    match rounds.split_first() {
        Some((came, more)) => {
            if came.unpacked.last.is_some() {
                return &came.unpacked.last;
            }
            if came.configured.last.is_some() {
                return &came.configured.last;
            }
            last_of_rounds(more, none)
        }
        None => none,
    }
}

impl Done {
    /// The unit that was broken off, or this, which is none.
    pub(crate) fn last<'a>(&'a self, none: &'a Option<Unit>) -> &'a Option<Unit>
        requires { none.now ≡ None }
        ensures { result.now ≡ last_in self.now }
    {
        match self {
            Done::Unpacked(report) => &report.last,
            Done::Installed(rounds) => last_of_rounds(rounds.as_slice(), none),
        }
    }
}

/// What unpacks are allowed to do to other packages, and whether relations are ignored.
pub(crate) fn allowed_of(asked: &Unpacking) -> UnpackOptions
    ensures { result ≡ allowed_of asked.now }
{
    UnpackOptions {
        auto_deconfigure: asked.auto_deconfigure,
        ignore_depends: asked.forced.depends,
    }
}

// What a session makes of trees as they are given. Its caller learns here that the hosts are still the same.
fn run_session<S: Hosts, W: Watcher>(
    session: &mut Session<S::Opened>,
    trees: &mut TreeWords<'_, S>,
    watcher: &mut W,
) -> Report
    requires open { session.old.closed ≡ false }
    requires unread { into_iter_items trees.old.left.now ≡ trees.old.asked.now.trees }
    requires all { trees.old.words.now ≡ trees.old.asked.now.trees }
    ensures same_hosts { trees.new.hosts.ghost_name ≡ trees.old.hosts.ghost_name }
    ensures done { HasUnpackedTrees (around S.Hosts trees.old.hosts.now trees.new.hosts.now)
        trees.old.asked.now result (held_by session.old.administration session.old.diversions)
        (held_by session.new.administration session.new.diversions)
        (S.Opened.state session.old.host) (S.Opened.state session.new.host) }
    ensures closes { session.new.closed ≡ is_some result.last }
    ensures on { HaveGoneOn S.Hosts trees.old.hosts.now trees.new.hosts.now }
    ensures watched { AreTold W.tells watcher.old result.units.items watcher.new }
{
    let allowed = allowed_of(trees.asked);
    session.run(trees, allowed, watcher)
}

// What a session makes of the trees behind words, whose copies are taken from a list in turn.
fn unpack_trees<S: Hosts, W: Watcher>(
    alloc: Global,
    hosts: &mut S,
    session: &mut Session<S::Opened>,
    unpacking: &Unpacking,
    watcher: &mut W,
) -> Result<Report, AllocError>
    requires { session.old.closed ≡ false }
    ensures done { IfOk result (λ done. HasUnpackedTrees (around S.Hosts hosts.old hosts.new)
        unpacking.now done (held_by session.old.administration session.old.diversions)
        (held_by session.new.administration session.new.diversions)
        (S.Opened.state session.old.host) (S.Opened.state session.new.host)) }
    ensures closes { IfOk result (λ done. session.new.closed ≡ is_some done.last) }
    ensures unread { OnErr result (S.Opened.state session.new.host ≡ S.Opened.state
        session.old.host) }
    ensures on { HaveGoneOn S.Hosts hosts.old hosts.new }
    ensures watched { IfOk result (λ done. AreTold W.tells watcher.old done.units.items
        watcher.new) }
    ensures unwatched { OnErr result (watcher.new ≡ watcher.old) }
{
    let words = unpacking.trees.as_slice();
    let mut left = listed(alloc, words)?.into_iter();
    let mut trees = TreeWords {
        alloc,
        hosts,
        asked: unpacking,
        words,
        left: &mut left,
    };
    Ok(run_session(session, &mut trees, watcher))
}

// What a session makes of trees, which are installed where it is told how.
fn run_trees<S: Hosts, W: Watcher>(
    alloc: Global,
    hosts: &mut S,
    session: &mut Session<S::Opened>,
    unpacking: &Unpacking,
    options: Option<ConfigureOptions>,
    watcher: &mut W,
) -> Result<Done, AllocError>
    requires { session.old.closed ≡ false }
    ensures done { IfOk result (λ done. HasRunTrees (around S.Hosts hosts.old hosts.new) options
        unpacking.now done (held_by session.old.administration session.old.diversions)
        (held_by session.new.administration session.new.diversions)
        (S.Opened.state session.old.host) (S.Opened.state session.new.host)) }
    ensures closes { IfOk result (λ done. session.new.closed ≡ is_some (last_in done)) }
    ensures unread { OnErr result (S.Opened.state session.new.host ≡ S.Opened.state
        session.old.host) }
    ensures on { HaveGoneOn S.Hosts hosts.old hosts.new }
    ensures watched { IfOk result (λ done. IsDoneTold W.tells watcher.old done watcher.new) }
    ensures unwatched { OnErr result (watcher.new ≡ watcher.old) }
{
    match options {
        Some(options) => match install_trees(alloc, hosts, session, unpacking, options, watcher) {
            Ok(rounds) => Ok(Done::Installed(rounds)),
            Err(fault) => Err(fault),
        },
        None => match unpack_trees(alloc, hosts, session, unpacking, watcher) {
            Ok(report) => Ok(Done::Unpacked(report)),
            Err(fault) => Err(fault),
        },
    }
}

// Adds the packages that the units of a round touched.
fn add_touched_in(came: &Installed, touches: &mut Vec<Touch>) -> Result<(), AllocError>
    ensures { OnOk result (touches.new.items ≡ touches.old.items ++ touched_of
        (units_of_round came.now)) }
{
    add_touched_of(came.unpacked.units.as_slice(), touches)?;
    add_touched_of(came.configured.units.as_slice(), touches)
}

fn add_touched_of_rounds(rounds: &[Installed], touches: &mut Vec<Touch>) -> Result<(), AllocError>
    ensures { OnOk result (touches.new.items ≡ touches.old.items ++ touched_of
        (flat_map units_of_round rounds.now)) }
{
    for came in rounds {
        add_touched_in(came, touches)?;
    }
    Ok(())
}

// The packages that the units touched.
fn touched_in(alloc: Global, done: &Done) -> Result<Vec<Touch>, AllocError>
    ensures { IfOk result (λ touches. touches.items ≡ touched_of (units_of done.now)) }
{
    let mut touches = Vec::new(alloc);
    match done {
        Done::Unpacked(report) => add_touched_of(report.units.as_slice(), &mut touches)?,
        Done::Installed(rounds) => add_touched_of_rounds(rounds.as_slice(), &mut touches)?,
    }
    Ok(touches)
}

// What is done of triggers around trees.
fn triggering_for(unpacking: &Unpacking) -> Triggering
    ensures { result ≡ triggering_for unpacking.now }
{
    Triggering {
        by_files: true,
        process: unpacking.triggers,
    }
}

// What a session makes of trees behind what is done of triggers before them, with what is done of these behind them, and the end of the command.
fn run_watched<S: Hosts, W: Watcher>(
    alloc: Global,
    hosts: &mut S,
    session: &mut Session<S::Opened>,
    unpacking: &Unpacking,
    options: Option<ConfigureOptions>,
    known: &Known,
    watcher: &mut W,
) -> Result<Ended<Done>, AllocError>
    requires { session.old.closed ≡ false }
    ensures done { IfOk result (λ ended. HasRunSince (around S.Hosts hosts.old hosts.new)
        known.now options unpacking.now ended
        (held_by session.old.administration session.old.diversions)
        (S.Opened.state session.old.host) (S.Opened.state session.new.host)) }
    ensures unread { OnErr result (S.Opened.state session.new.host ≡ S.Opened.state
        session.old.host) }
    ensures on { HaveGoneOn S.Hosts hosts.old hosts.new }
    ensures watched { IfOk result (λ ended. IsAllTold W.tells watcher.old ended watcher.new) }
    ensures unwatched { OnErr result (watcher.new ≡ watcher.old) }
{
    let done = run_trees(alloc, hosts, session, unpacking, options, watcher)?;
    let none = None;
    let last = done.last(&none);
    let touched = touched_in(alloc, &done);
    let triggering = triggering_for(unpacking);
    let triggered = trigger_behind(alloc, session, triggering, known, last, touched, watcher);
    let left = end(session, last_behind(last, &triggered));
    Ok(Ended {
        done,
        triggered,
        left,
    })
}

// What a session makes of trees, with what is done of triggers around them, and the end of the command behind all.
fn run_to_end<S: Hosts, W: Watcher>(
    alloc: Global,
    hosts: &mut S,
    session: &mut Session<S::Opened>,
    unpacking: &Unpacking,
    options: Option<ConfigureOptions>,
    watcher: &mut W,
) -> Result<Ended<Done>, AdministrationFault>
    requires { session.old.closed ≡ false }
    ensures done { IfOk result (λ ended. HasRunToEnd (around S.Hosts hosts.old hosts.new) options
        unpacking.now ended (held_by session.old.administration session.old.diversions)
        (S.Opened.state session.old.host) (S.Opened.state session.new.host)) }
    ensures unbegun { IfErr result (λ fault. IsUnbegun (Some (triggering_for unpacking.now)) fault
        (S.Opened.state session.old.host) (S.Opened.state session.new.host)) }
    ensures on { HaveGoneOn S.Hosts hosts.old hosts.new }
    ensures watched { IfOk result (λ ended. IsAllTold W.tells watcher.old ended watcher.new) }
    ensures unwatched { OnErr result (watcher.new ≡ watcher.old) }
{
    match begin(session, triggering_for(unpacking).by_files) {
        Ok(known) => {
            match run_watched(alloc, hosts, session, unpacking, options, &known, watcher) {
                Ok(ended) => Ok(ended),
                Err(_) => Err(AdministrationFault::NoMemory),
            }
        }
        Err(fault) => Err(AdministrationFault::from(fault)),
    }
}

// The units on the host of the root, which is given back.
fn unpack_on<S: Hosts, W: Watcher>(
    alloc: Global,
    hosts: &mut S,
    host: S::Opened,
    unpacking: &Unpacking,
    options: Option<ConfigureOptions>,
    watcher: &mut W,
) -> Result<Ended<Done>, AdministrationFault>
    ensures done { IfOk result (IsUnpackedOn (around S.Hosts hosts.old hosts.new)
        (S.Opened.state host) options unpacking.now) }
    ensures refused { IfErr result (IsNotBegunOn (Some (triggering_for unpacking.now))
        (S.left hosts.new) (S.Opened.state host)) }
    ensures faults { S.faults hosts.old ≤ S.faults hosts.new }
    ensures watched { IfOk result (λ ended. IsAllTold W.tells watcher.old ended watcher.new) }
    ensures unwatched { OnErr result (watcher.new ≡ watcher.old) }
    ensures below { S.below hosts.new ≡ S.below hosts.old }
{
    match Session::open(alloc, host) {
        Ok(mut session) => {
            let ended = run_to_end(alloc, hosts, &mut session, unpacking, options, watcher);
            hosts.close_root(session.into_host());
            ended
        }
        Err((host, fault)) => {
            hosts.close_root(host);
            Err(fault)
        }
    }
}

/// Unpacks the trees under the root, and configures their packages where it is told how; or tells why the root
/// can't be opened. Want of memory outside of the units, and a fault of the look at triggers before them, are told likewise.
pub(crate) fn unpack<S: Hosts, W: Watcher>(
    alloc: Global,
    hosts: &mut S,
    unpacking: &Unpacking,
    options: Option<ConfigureOptions>,
    watcher: &mut W,
) -> Result<Ended<Done>, NotOpened>
    ensures done { IfOk result (HasUnpacked (around S.Hosts hosts.old hosts.new) options
        unpacking.now) }
    ensures refused { IfErr result (IsUnitsFault (Some (triggering_for unpacking.now))
        (around S.Hosts hosts.old hosts.new) unpacking.now.root) }
    ensures faults { S.faults hosts.old ≤ S.faults hosts.new }
    ensures watched { IfOk result (λ ended. IsAllTold W.tells watcher.old ended watcher.new) }
    ensures unwatched { OnErr result (watcher.new ≡ watcher.old) }
    ensures below { S.below hosts.new ≡ S.below hosts.old }
{
    match hosts.open_root(unpacking.root.as_str(), unpacking.streams, unpacking.wait) {
        Ok(host) => match unpack_on(alloc, hosts, host, unpacking, options, watcher) {
            Ok(ended) => Ok(ended),
            Err(fault) => Err(NotOpened::Opening(fault)),
        },
        Err(RootFault::Locked(lock)) => Err(NotOpened::Locked(lock)),
        Err(RootFault::Host(fault)) => Err(NotOpened::Opening(AdministrationFault::from(fault))),
    }
}
