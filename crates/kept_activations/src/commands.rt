// No activation is lost, by one command and by several.
ghost use Rattle.std.specs.Prelude.{◌≡◌, ◌⊎◌, ◌||◌, ℕ, true, IsTrue, List, None};
ghost use Rattle.host_core.specs.Host.{State};
ghost use Rattle.trigger_journal.specs.Asked.{is_asked, is_found};
ghost use Rattle.trigger_journal.specs.Requests.{requests_of};
ghost use Rattle.command_line.specs.Triggering.{IsAround, touched_of};
ghost use Rattle.unit_reports.specs.Held.{Held};
ghost use Rattle.unit_reports.specs.declared.report.Unit.{Unit as AUnit};
ghost use Rattle.kept_activations.specs.Commands.{AreSuchUnits, Command as ACommand, Commands as AreCommands, IsCarried, IsCarriedOut, IsCausedBy, IsEnded, IsSettledBy, IsSettledIn, Moment as AMoment, ended_one, moment};
ghost use Rattle.kept_activations.specs.Hitting.{IsHitLast};
ghost use Rattle.kept_activations.specs.Known.{Known as IsKnown, Triggered as ATriggered, Triggering as ATriggering};
ghost use Rattle.kept_activations.specs.Pending.{IsInterested, IsPending};
ghost use Rattle.kept_activations.specs.Processing.{IsKept};

use trigger_journal::what_is_written_ahead_is_asked_for;

/// Behind the units of a command of which nothing was broken off (of `IsAround`: `triggered`), each trigger that one of them hit is kept
/// for each package that was installed and interested in it when that was noted: it is pending; or the command has processed it; or the
/// package is left half-configured. So it is with each that the journal had before the units, or that others ask for in it behind them,
/// and with each that was pending behind the units.
pub fn no_activation_of_a_command_is_lost()
    ensures hit { (t : ATriggering) (us : List AUnit) (known : IsKnown) (came : ATriggered)
        (before after : Held) (s end : State) (owner trigger : List ℕ)
        → IsCarriedOut t us known came before after s end
        → IsInterested s.world before.records.records owner trigger
        → IsHitLast s.world before.lists t.by_files known.watch.before.items (touched_of us) owner
        trigger
        → IsKept after.records.records came.processed.units.items owner trigger }
    ensures asked { (t : ATriggering) (us : List AUnit) (known : IsKnown) (came : ATriggered)
        (before after : Held) (s end : State) (owner trigger : List ℕ)
        → IsCarriedOut t us known came before after s end
        → IsInterested s.world before.records.records owner trigger
        → is_found known.found.items trigger || is_asked (requests_of s.world) trigger ≡ true
        → IsKept after.records.records came.processed.units.items owner trigger }
    ensures stays { (t : ATriggering) (us : List AUnit) (known : IsKnown) (came : ATriggered)
        (before after : Held) (s end : State) (owner trigger : List ℕ)
        → IsCarriedOut t us known came before after s end
        → IsPending before.records.records owner trigger
        → IsKept after.records.records came.processed.units.items owner trigger }
{}

/// What stands around the units of a command (`IsAround`), of which nothing was broken off, and what stands before it and behind it make a
/// command that ended, where its units are such as is assumed of them.
pub fn what_is_done_around_units_is_a_command()
    ensures { (t : ATriggering) (us : List AUnit) (came : ATriggered) (before after : Held)
        (s end : State)
        → IsAround t us None (AreSuchUnits us before) came before after s end
        → came.noted.last ≡ None → came.processed.last ≡ None → IsTrue end.honest
        → IsEnded (moment s.world before.records.records) (moment end.world after.records.records) }
{}

/// Through commands, each of which ended or was stopped at some moment, an activation isn't lost. One that a command has caused is
/// behind it pending of each package, or asked for by the journal, or settled. What is so carried is carried on by each later
/// command and by what comes between, or settled; and behind one that ended it is pending or settled.
pub fn no_activation_is_lost()
    ensures caused { (old new : AMoment) (command : ACommand old new) (owner trigger : List ℕ)
        → IsCausedBy old new command trigger
        → IsCarried new owner trigger ⊎ IsSettledBy old new command owner trigger }
    ensures carried { (first last : AMoment) (commands : AreCommands first last)
        (owner trigger : List ℕ) → IsCarried first owner trigger
        → IsCarried last owner trigger ⊎ IsSettledIn first last commands owner trigger }
    ensures ended { (first mid last : AMoment) (commands : AreCommands first mid)
        (command : IsEnded mid last) (owner trigger : List ℕ) → IsCarried first owner trigger
        → IsPending last.records owner trigger
        ⊎ (IsSettledIn first mid commands owner trigger
        ⊎ IsSettledBy mid last (ended_one mid last command) owner trigger) }
{
    what_is_written_ahead_is_asked_for();
}
