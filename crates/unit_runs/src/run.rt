// Units, one after another.
ghost use Rattle.std.specs.Prelude.{◌≡◌, ◌++◌, ◌<◌, [], IsTrue, None, Some, false, true, IfErr, IfOk, OnErr, OnOk, vec_capacity, vec_len};
ghost use Rattle.host_core.specs.Host.{AtEachMomentOf, Needs, Since, NoFault};
ghost use Rattle.host_core.specs.Loss.{IsAnswered};
ghost use Rattle.held_administration.specs.Open.{IsOpen};
ghost use Rattle.held_administration.specs.Order.{IsInOrder};
ghost use Rattle.undo_rows.specs.Transcript.{TellsAll};
ghost use Rattle.unit_reports.specs.Held.{held_by};
ghost use Rattle.unit_reports.specs.Units.{CountsReply, IsBrokenBy, calls_of};
ghost use Rattle.unit_reports.specs.Watching.{AddsTold};
ghost use Rattle.unit_reports.specs.declared.report.Breakage.TheVariants.{Abandoned, Closed};
ghost use Rattle.unit_runs.specs.Taking.{GoesOn};
ghost use Rattle.unit_runs.specs.declared.barring.Bar.TheVariants as bar;
ghost use Rattle.unit_runs.specs.Turns.{GoesTo, HasStopped, HaveAllTurned, IsAmidNext, IsAmidTurns, IsBrokenNext};

use crate::barring::Bar;
use crate::turns::Turns;
use held_administration::Administration;
use host_core::Host;
use unit_reports::{Unit, Watcher, what_is_told_in_turn};

// Why the next unit isn't begun, where it isn't; else there is room for it.
fn bar_of<W: Watcher>(units: &mut Vec<Unit>, watcher: &W) -> Option<Bar>
    ensures same { units.new.items ≡ units.old.items }
    ensures room { result ≡ None → vec_len units.new < vec_capacity units.new }
    ensures going { result ≡ None → W.ends watcher.now ≡ false }
    ensures abandoned { result ≡ Some bar.Abandoned → IsTrue (W.ends watcher.now) }
{
    if watcher.is_over() {
        return Some(Bar::Abandoned);
    }
    if units.reserve(1).is_err() {
        return Some(Bar::NoRoom);
    }
    None
}

// The unit of the next turn more, or the unit that was broken off. The answer is whether a turn was left.
fn run_one<H: Host, T: Turns<H>, W: Watcher>(
    host: &mut H,
    administration: &mut Administration,
    turns: &mut T,
    units: &mut Vec<Unit>,
    watcher: &mut W,
) -> Result<bool, Unit>
    requires between { T.between turns.old administration.old }
    requires open { IsOpen (T.diverted turns.old).ways administration.old }
    requires order { Needs (H.state host.old)
        (IsInOrder administration.old.database administration.old.lists.lists) }
    ensures ok { IfOk result (GoesOn (T.turn (T.task turns.old)) (T.over turns.new)
        (T.left turns.old) (T.left turns.new) (held_by administration.old (T.diverted turns.old))
        (held_by administration.new (T.diverted turns.new)) (H.state host.old) (H.state host.new)
        units.old.items units.new.items) }
    ensures between { OnOk result (T.between turns.new administration.new) }
    ensures open { OnOk result (IsOpen (T.diverted turns.new).ways administration.new) }
    ensures order { OnOk result (Needs (H.state host.new)
        (IsInOrder administration.new.database administration.new.lists.lists)) }
    ensures answered { OnOk result (IsAnswered (H.state host.old) (H.state host.new)) }
    ensures err { OnErr result (units.new.items ≡ units.old.items) }
    ensures broken_off { IfErr result (IsBrokenNext (T.called (T.task turns.old)) (T.left turns.old)
        (T.left turns.new) (held_by administration.old (T.diverted turns.old)) (H.state host.old)
        (H.state host.new)) }
    ensures told { OnOk result (TellsAll (H.state host.old) (H.state host.new)
        (calls_of units.old.items) (calls_of units.new.items)) }
    ensures told_broken { IfErr result (λ unit. TellsAll (H.state host.old) (H.state host.new) []
        unit.calls.items) }
    ensures any_moment { AtEachMomentOf (IsAmidNext (T.amid (T.task turns.old)) (T.left turns.old)
        (T.left turns.new) (held_by administration.old (T.diverted turns.old))) (H.state host.old)
        (H.state host.new) }
    ensures no_fault { OnOk result (NoFault (H.state host.old) (H.state host.new)) }
    ensures counts { IfErr result (λ unit. CountsReply (H.state host.old) (H.state host.new)
        unit.reply) }
    ensures not_closed { IfErr result (λ unit. IsBrokenBy Closed unit.reply → ⊥) }
    ensures abandoned { IfErr result (λ unit. IsBrokenBy Abandoned unit.reply
        → IsTrue (W.ends watcher.new)) }
    ensures task { OnOk result (T.task turns.new ≡ T.task turns.old) }
    ensures goes { T.goes (T.task turns.old) (T.left turns.old) (T.left turns.new) }
    ensures fewer { IfOk result (λ more. more ≡ true → T.size (T.left turns.new)
        < T.size (T.left turns.old)) }
    ensures watched { AddsTold W.tells (H.state host.old) units.old.items units.new.items
        watcher.old watcher.new }
{
    what_is_told_in_turn::<W>();
    let barred = bar_of(units, watcher);
    match turns.take(host, administration, barred) {
        Ok(Some(unit)) => {
            watcher.finished(host, &unit);
            units.push(unit).unwrap();
            Ok(true)
        }
        Ok(None) => Ok(false),
        Err(unit) => Err(unit),
    }
}

/// The units of all turns, or those up to the one that was broken off. There is room for a unit before its turn is taken, or it
/// is broken off; it is told as it is finished.
pub fn run_units<H: Host, T: Turns<H>, W: Watcher>(
    host: &mut H,
    administration: &mut Administration,
    turns: &mut T,
    units: &mut Vec<Unit>,
    watcher: &mut W,
) -> Result<(), Unit>
    requires between { T.between turns.old administration.old }
    requires open { IsOpen (T.diverted turns.old).ways administration.old }
    requires order { Needs (H.state host.old)
        (IsInOrder administration.old.database administration.old.lists.lists) }
    ensures turned { OnOk result (HaveAllTurned (T.turn (T.task turns.old)) (T.over turns.new)
        (T.left turns.old) (held_by administration.old (T.diverted turns.old)) (H.state host.old)
        units.old.items units.new.items (held_by administration.new (T.diverted turns.new))
        (H.state host.new)) }
    ensures between { OnOk result (T.between turns.new administration.new) }
    ensures open { OnOk result (IsOpen (T.diverted turns.new).ways administration.new) }
    ensures order { OnOk result (Needs (H.state host.new)
        (IsInOrder administration.new.database administration.new.lists.lists)) }
    ensures answered { OnOk result (IsAnswered (H.state host.old) (H.state host.new)) }
    ensures stopped { IfErr result (HasStopped (T.turn (T.task turns.old))
        (T.amid (T.task turns.old)) (T.called (T.task turns.old)) (T.left turns.old)
        (held_by administration.old (T.diverted turns.old)) (H.state host.old) units.old.items
        units.new.items (T.left turns.new) (H.state host.new)) }
    ensures told { OnOk result (TellsAll (H.state host.old) (H.state host.new)
        (calls_of units.old.items) (calls_of units.new.items)) }
    ensures told_stopped { IfErr result (λ unit. TellsAll (H.state host.old) (H.state host.new)
        (calls_of units.old.items) (calls_of units.new.items ++ unit.calls.items)) }
    ensures any_moment { Since (IsAmidTurns (T.turn (T.task turns.old)) (T.amid (T.task turns.old))
        (λ later. GoesTo (T.goes (T.task turns.old)) later (T.left turns.new)) (T.left turns.old)
        (held_by administration.old (T.diverted turns.old)) (H.state host.old)) (H.state host.old)
        (H.state host.new) }
    ensures no_fault { OnOk result (NoFault (H.state host.old) (H.state host.new)) }
    ensures counts { IfErr result (λ unit. CountsReply (H.state host.old) (H.state host.new)
        unit.reply) }
    ensures not_closed { IfErr result (λ unit. IsBrokenBy Closed unit.reply → ⊥) }
    ensures abandoned { IfErr result (λ unit. IsBrokenBy Abandoned unit.reply
        → IsTrue (W.ends watcher.new)) }
    ensures task { OnOk result (T.task turns.new ≡ T.task turns.old) }
    ensures goes { GoesTo (T.goes (T.task turns.old)) (T.left turns.old) (T.left turns.new) }
    ensures watched { AddsTold W.tells (H.state host.old) units.old.items units.new.items
        watcher.old watcher.new }
{
    what_is_told_in_turn::<W>();
    loop {
        match run_one(host, administration, turns, units, watcher) {
            Ok(true) => {}
            Ok(false) => return Ok(()),
            Err(unit) => return Err(unit),
        }
    }
}
