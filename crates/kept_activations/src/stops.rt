// What a command that was stopped leaves for the next one.
ghost use Rattle.std.specs.Prelude.{◌≡◌, ℕ, Bool, true, IsTrue, List};
ghost use Rattle.host_core.specs.Host.{State};
ghost use Rattle.host_core.specs.World.{World};
ghost use Rattle.trigger_journal.specs.Asked.{is_found};
ghost use Rattle.trigger_journal.specs.Requests.{requests_of};
ghost use Rattle.unit_reports.specs.Held.{Held};
ghost use Rattle.kept_activations.specs.Commands.{IsBegun, Moment as AMoment};
ghost use Rattle.kept_activations.specs.Journal.{IsSomeInterested, StandsStill};
ghost use Rattle.kept_activations.specs.Known.{Known as IsKnown};

use trigger_journal::what_is_written_ahead_is_asked_for;

/// Where a command had begun whose lines are written ahead, as they are where a package with files is interested in some trigger, and
/// nothing is in the way of the journal: as long as to the journal it is only added, a later command finds that each trigger is asked for,
/// whatever the first one did, and wherever it stopped. And what was asked for before a command is so still once it has begun, and a command
/// that begins knows it.
pub fn what_a_stopped_command_leaves_is_asked_for()
    ensures found { (by_files : Bool) (known : IsKnown) (old : AMoment) (before : Held)
        (begun : State) (later : World) (trigger : List ℕ)
        → (first : IsBegun by_files known old before begun) → IsTrue begun.honest
        → first.begins.foreseen.written ≡ true → IsSomeInterested old.world old.records
        → StandsStill begun.world later → is_found (requests_of later) trigger ≡ true }
    ensures keeps { (by_files : Bool) (known : IsKnown) (old : AMoment) (before : Held)
        (begun : State) (later : World) (trigger : List ℕ)
        → IsBegun by_files known old before begun → IsTrue begun.honest
        → is_found (requests_of old.world) trigger ≡ true
        → StandsStill begun.world later → is_found (requests_of later) trigger ≡ true }
    ensures known { (by_files : Bool) (known : IsKnown) (old : AMoment) (before : Held)
        (begun : State) → IsBegun by_files known old before begun → IsTrue begun.honest
        → known.found.items ≡ requests_of old.world }
{
    what_is_written_ahead_is_asked_for();
}
