// The turns of packages, one after another.
ghost use Rattle.std.specs.Prelude.{◌≡◌, ◌+◌, ◌≤◌, ◌∷◌, [], ℕ, List, Some, false, length, vec_capacity, vec_len, IfErr, IfOk, IfSome, IsNone, IsTrue, OnOk};
ghost use Rattle.trigger_chains.specs.Wishes.{chain_behind, first_package, mine, without};
ghost use Rattle.unit_reports.specs.Held.{held_by};
ghost use Rattle.unit_reports.specs.Units.{IsBrokenBy};
ghost use Rattle.unit_reports.specs.declared.report.Breakage.TheVariants.{Abandoned};
ghost use Rattle.trigger_chains.specs.declared.wishes.Wish.{Wish as AWish};
ghost use Rattle.trigger_turns.specs.Told.{AreToldInTurns, HaveBeenTold};
ghost use Rattle.trigger_turns.specs.Turns.{AddsReport, AddsTurn, Follows, HasProcessedNamed, HasTurned, IsSingle, IsTurnOf, IsWay, RunsTurn, first_wishes};

use crate::asking::{Wished, add_units, answered, has_room, note_changes, take_in, unbegun};
use crate::wishing::{Prepared, Way, first_wishes, prepare};
use dpkg_session::{Report, Session, Unit, Watcher};
use host_core::{Host, HostFault};
use std::alloc::{AllocError, Global};
use std::mem;
use texts::Text;
use trigger_chains::{Chain, Wish};

/// How many turns a command takes at most.
const MOST_TURNS: u32 = 65_536;

// There is room for a unit.
fn process_named<H: Host, W: Watcher>(
    session: &mut Session<H>,
    names: Vec<Text>,
    units: &mut Vec<Unit>,
    watcher: &mut W,
) -> Result<(), Unit>
    requires open { session.old.closed ≡ false }
    requires one { length names.items ≡ 1 }
    requires room { vec_len units.old + 1 ≤ vec_capacity units.old }
    ensures processed { AddsReport (λ done. HasProcessedNamed names.items done
        (held_by session.old.administration session.old.diversions)
        (held_by session.new.administration session.new.diversions) (H.state session.old.host)
        (H.state session.new.host)) units.old.items units.new.items result }
    ensures open { OnOk result (session.new.closed ≡ false) }
    ensures abandoned { IfErr result (λ unit. IsBrokenBy Abandoned unit.reply
        → IsTrue (W.ends watcher.new)) }
    ensures watched { HaveBeenTold W.tells units.old.items units.new.items watcher.old
        watcher.new }
{
    let report = session.process_triggers(names, watcher);
    add_units(units, report)
}

// What is done behind a package that was processed, whose wishes led to this chain.
fn follow<H: Host, W: Watcher>(
    alloc: Global,
    session: &mut Session<H>,
    chain: &Chain,
    left: &mut Wished,
    units: &mut Vec<Unit>,
    watcher: &mut W,
) -> Result<(), Unit>
    requires open { session.old.closed ≡ false }
    ensures followed { Follows left.old.takes chain.now left.old.wishes.items units.old.items
        units.new.items (held_by session.old.administration session.old.diversions)
        (held_by session.new.administration session.new.diversions) (H.state session.old.host)
        (H.state session.new.host) left.new.wishes.items left.new.takes result }
    ensures open { OnOk result (session.new.closed ≡ false) }
    ensures abandoned { IfErr result (λ unit. IsBrokenBy Abandoned unit.reply
        → IsTrue (W.ends watcher.new)) }
    ensures watched { HaveBeenTold W.tells units.old.items units.new.items watcher.old
        watcher.new }
{
    match left.takes {
        true => take_in(alloc, session, chain, left, units, watcher),
        false => Ok(()),
    }
}

// Processes a package, and takes in what scripts asked for. The wishes are those of the other packages.
fn process_one<H: Host, W: Watcher>(
    alloc: Global,
    session: &mut Session<H>,
    names: Vec<Text>,
    chain: &Chain,
    left: &mut Wished,
    units: &mut Vec<Unit>,
    watcher: &mut W,
) -> Result<(), Unit>
    requires open { session.old.closed ≡ false }
    requires one { length names.items ≡ 1 }
    requires room { vec_len units.old + 1 ≤ vec_capacity units.old }
    ensures turned { (name : List ℕ) (wishes : List AWish) → IsTurnOf name wishes
        → names.items ≡ name ∷ [] → chain.now ≡ chain_behind (mine name wishes)
        → left.old.wishes.items ≡ without name wishes
        → AddsTurn wishes left.old.takes left.new.wishes.items left.new.takes units.old.items
        units.new.items (held_by session.old.administration session.old.diversions)
        (held_by session.new.administration session.new.diversions) (H.state session.old.host)
        (H.state session.new.host) result }
    ensures open { OnOk result (session.new.closed ≡ false) }
    ensures abandoned { IfErr result (λ unit. IsBrokenBy Abandoned unit.reply
        → IsTrue (W.ends watcher.new)) }
    ensures watched { HaveBeenTold W.tells units.old.items units.new.items watcher.old
        watcher.new }
{
    match process_named(session, names, units, watcher) {
        Ok(()) => follow(alloc, session, chain, left, units, watcher),
        Err(unit) => Err(unit),
    }
}

// Takes a turn. The wishes are those of the other packages.
fn take_turn<H: Host, W: Watcher>(
    alloc: Global,
    session: &mut Session<H>,
    way: Way,
    left: &mut Wished,
    units: &mut Vec<Unit>,
    watcher: &mut W,
) -> Result<(), Unit>
    requires open { session.old.closed ≡ false }
    requires one { IsSingle way }
    requires room { vec_len units.old + 1 ≤ vec_capacity units.old }
    ensures turned { (name : List ℕ) (wishes : List AWish) → first_package wishes ≡ Some name
        → IsWay name wishes way → left.old.wishes.items ≡ without name wishes
        → AddsTurn wishes left.old.takes left.new.wishes.items left.new.takes units.old.items
        units.new.items (held_by session.old.administration session.old.diversions)
        (held_by session.new.administration session.new.diversions) (H.state session.old.host)
        (H.state session.new.host) result }
    ensures open { OnOk result (session.new.closed ≡ false) }
    ensures abandoned { IfErr result (λ unit. IsBrokenBy Abandoned unit.reply
        → IsTrue (W.ends watcher.new)) }
    ensures watched { HaveBeenTold W.tells units.old.items units.new.items watcher.old
        watcher.new }
{
    match way {
        Way::GiveUp(changes) => note_changes(session, changes, units, watcher),
        Way::Process(names, chain) => {
            process_one(alloc, session, names, &chain, left, units, watcher)
        }
    }
}

// One turn more, where there is room for its first unit. The answer is whether something was wished for.
fn run_next<H: Host, W: Watcher>(
    alloc: Global,
    session: &mut Session<H>,
    left: &mut Wished,
    units: &mut Vec<Unit>,
    watcher: &mut W,
) -> Result<bool, Unit>
    requires open { session.old.closed ≡ false }
    requires room { vec_len units.old + 1 ≤ vec_capacity units.old }
    ensures turned { RunsTurn left.old.wishes.items left.old.takes left.new.wishes.items
        left.new.takes units.old.items units.new.items
        (held_by session.old.administration session.old.diversions)
        (held_by session.new.administration session.new.diversions) (H.state session.old.host)
        (H.state session.new.host) result }
    ensures open { OnOk result (session.new.closed ≡ false) }
    ensures abandoned { IfErr result (λ unit. IsBrokenBy Abandoned unit.reply
        → IsTrue (W.ends watcher.new)) }
    ensures watched { HaveBeenTold W.tells units.old.items units.new.items watcher.old
        watcher.new }
{
    let wishes = mem::replace(&mut left.wishes, Vec::new(alloc));
    match prepare(alloc, wishes) {
        Ok(Some(next)) => {
            let Prepared { way, others } = next;
            left.wishes = others;
            answered(take_turn(alloc, session, way, left, units, watcher))
        }
        Ok(None) => Ok(false),
        Err(_) => Err(unbegun(alloc, HostFault::NoMemory)),
    }
}

// One turn more. The answer is whether something was wished for.
fn run_turn<H: Host, W: Watcher>(
    alloc: Global,
    session: &mut Session<H>,
    left: &mut Wished,
    units: &mut Vec<Unit>,
    watcher: &mut W,
) -> Result<bool, Unit>
    requires { session.old.closed ≡ false }
    ensures turned { RunsTurn left.old.wishes.items left.old.takes left.new.wishes.items
        left.new.takes units.old.items units.new.items
        (held_by session.old.administration session.old.diversions)
        (held_by session.new.administration session.new.diversions) (H.state session.old.host)
        (H.state session.new.host) result }
    ensures open { OnOk result (session.new.closed ≡ false) }
    ensures abandoned { IfErr result (λ unit. IsBrokenBy Abandoned unit.reply
        → IsTrue (W.ends watcher.new)) }
    ensures watched { HaveBeenTold W.tells units.old.items units.new.items watcher.old
        watcher.new }
{
    match has_room(units, 1) {
        true => run_next(alloc, session, left, units, watcher),
        false => Err(unbegun(alloc, HostFault::NoMemory)),
    }
}

fn process_wishes<H: Host, W: Watcher>(
    alloc: Global,
    session: &mut Session<H>,
    wishes: Vec<Wish>,
    takes: bool,
    watcher: &mut W,
) -> Report
    requires { session.old.closed ≡ false }
    ensures turned { HasTurned wishes.items takes result
        (held_by session.old.administration session.old.diversions)
        (held_by session.new.administration session.new.diversions) (H.state session.old.host)
        (H.state session.new.host) }
    ensures open { IsNone result.last → session.new.closed ≡ false }
    ensures abandoned { IfSome result.last (λ unit. IsBrokenBy Abandoned unit.reply
        → IsTrue (W.ends watcher.new)) }
    ensures watched { AreToldInTurns W.tells watcher.old result.units.items watcher.new }
{
    let mut left = Wished { wishes, takes };
    let mut units = Vec::new(alloc);
    for _turn in 0..MOST_TURNS {
        match run_turn(alloc, session, &mut left, &mut units, watcher) {
            Ok(true) => (),
            Ok(false) => return Report { units, last: None },
            Err(unit) => {
                return Report {
                    units,
                    last: Some(unit),
                };
            }
        }
    }
    Report { units, last: None }
}

/// Processes what is pending of these packages, in their order, and what scripts ask for meanwhile: unless nothing is taken in, since
/// something is in the way of the journal.
pub fn process_in_turns<H: Host, W: Watcher>(
    alloc: Global,
    session: &mut Session<H>,
    names: Result<Vec<Text>, AllocError>,
    takes: bool,
    watcher: &mut W,
) -> Report
    requires { session.old.closed ≡ false }
    ensures turned { (order : List (List ℕ)) → IfOk names (λ copies. copies.items ≡ order)
        → HasTurned (first_wishes order session.old.administration.database.records) takes result
        (held_by session.old.administration session.old.diversions)
        (held_by session.new.administration session.new.diversions) (H.state session.old.host)
        (H.state session.new.host) }
    ensures open { IsNone result.last → session.new.closed ≡ false }
    ensures abandoned { IfSome result.last (λ unit. IsBrokenBy Abandoned unit.reply
        → IsTrue (W.ends watcher.new)) }
    ensures watched { AreToldInTurns W.tells watcher.old result.units.items watcher.new }
{
    match first_wishes(alloc, session, names) {
        Ok(wishes) => process_wishes(alloc, session, wishes, takes, watcher),
        Err(_) => Report {
            units: Vec::new(alloc),
            last: Some(unbegun(alloc, HostFault::NoMemory)),
        },
    }
}
