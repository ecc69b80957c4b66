// The turns of a command.
ghost use Rattle.std.specs.Prelude.{◌≡◌, ◌<◌, [], ℕ, true, List, None, Some, IfErr, IfOk, IfSome, OnOk, is_some};
ghost use Rattle.host_core.specs.Events.{Event};
ghost use Rattle.host_core.specs.Host.{AtEachMomentOf, Needs, State};
ghost use Rattle.host_core.specs.Loss.{IsAnswered};
ghost use Rattle.host_core.specs.World.{World};
ghost use Rattle.diversions.specs.Diverted.{Diverted};
ghost use Rattle.held_administration.specs.Open.{IsOpen};
ghost use Rattle.held_administration.specs.Order.{IsInOrder};
ghost use Rattle.held_administration.specs.declared.held.Administration.{Administration as AnAdministration};
ghost use Rattle.undo_rows.specs.Transcript.{TellsAll};
ghost use Rattle.unit_reports.specs.Held.{Held, held_by};
ghost use Rattle.unit_reports.specs.Units.{IsBrokenBy};
ghost use Rattle.unit_reports.specs.declared.report.Breakage.TheVariants.{Abandoned, Closed};
ghost use Rattle.unit_reports.specs.declared.report.Unit.{Unit as AUnit};
ghost use Rattle.unit_runs.specs.Taking.{CountsTaken, IsTaken, calls_in};
ghost use Rattle.unit_runs.specs.Turns.{IsAmidNext};
ghost use Rattle.unit_runs.specs.declared.barring.Bar.TheVariants as bar;

use crate::barring::Bar;
use held_administration::Administration;
use host_core::Host;
use unit_reports::Unit;

/// What waits for its turn.
pub trait Turns<H: Host> {
    /// What stays the same over all turns.
    ghost Task: { Type 0 };

    ghost task: { Self → Self.Task };

    /// What still waits.
    ghost Left: { Type 0 };

    ghost left: { Self → Self.Left };

    /// How many turns there may be yet.
    ghost size: { Self.Left → ℕ };

    /// One finished unit: what waits and is held before it, and behind it.
    ghost turn: { Self.Task → Self.Left → Held → AUnit → Self.Left → Held → State → State
        → Type 0 };

    /// What holds at each moment of the next unit, by what waits before it, and behind it.
    ghost amid: { Self.Task → Self.Left → Self.Left → Held → World → List Event → World → Type 0 };

    /// The calls of the next unit where it was broken off.
    ghost called: { Self.Task → Self.Left → Self.Left → Held → State → State → AUnit → Type 0 };

    /// What waits goes on so by a turn, whatever its end.
    ghost goes: { Self.Task → Self.Left → Self.Left → Type 0 };

    /// The diversions that its turns go by, and the aliases.
    ghost diverted: { Self → Diverted };

    /// What holds between turns.
    ghost between: { Self → AnAdministration → Type 0 };

    /// No turn is left of what waits.
    ghost over: { Self → Self.Left → Held → Type 0 };

    /// The unit of the next turn; none where no turn is left. An error is the unit that was broken off, as it is where it
    /// isn't to be begun.
    fn take(
        &mut self,
        host: &mut H,
        administration: &mut Administration,
        barred: Option<Bar>,
    ) -> Result<Option<Unit>, Unit>
        requires between { between self.old administration.old }
        requires open { IsOpen (diverted self.old).ways administration.old }
        requires order { Needs (H.state host.old)
            (IsInOrder administration.old.database administration.old.lists.lists) }
        ensures taken { IsTaken (turn (task self.old)) (called (task self.old)) (over self.new)
            (left self.old) (left self.new) (held_by administration.old (diverted self.old))
            (held_by administration.new (diverted self.new)) (H.state host.old) (H.state host.new)
            result }
        ensures barred { is_some barred ≡ true → IfOk result (λ found. found ≡ None) }
        ensures between { OnOk result (between self.new administration.new) }
        ensures open { OnOk result (IsOpen (diverted self.new).ways administration.new) }
        ensures order { OnOk result (Needs (H.state host.new)
            (IsInOrder administration.new.database administration.new.lists.lists)) }
        ensures answered { OnOk result (IsAnswered (H.state host.old) (H.state host.new)) }
        ensures told { TellsAll (H.state host.old) (H.state host.new) [] (calls_in result) }
        ensures any_moment { AtEachMomentOf (IsAmidNext (amid (task self.old)) (left self.old)
            (left self.new) (held_by administration.old (diverted self.old))) (H.state host.old)
            (H.state host.new) }
        ensures counts { CountsTaken (H.state host.old) (H.state host.new) result }
        ensures not_closed { IfErr result (λ unit. IsBrokenBy Closed unit.reply → ⊥) }
        ensures abandoned { IfErr result (λ unit. IsBrokenBy Abandoned unit.reply
            → barred ≡ Some bar.Abandoned) }
        ensures task { OnOk result (task self.new ≡ task self.old) }
        ensures goes { goes (task self.old) (left self.old) (left self.new) }
        ensures fewer { IfOk result (λ found. IfSome found (λ unit. size (left self.new)
            < size (left self.old))) };
}
