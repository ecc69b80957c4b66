// What stands at each moment before the journal is emptied.
ghost use Rattle.std.specs.Prelude.{◌≡◌, ℕ, List, map};
ghost use Rattle.host_core.specs.Events.{Event};
ghost use Rattle.host_core.specs.Host.{State};
ghost use Rattle.host_core.specs.World.{World};
ghost use Rattle.dpkg_session.specs.Activated.{change_by};
ghost use Rattle.record_changes.specs.Run.{IsAmidRun};
ghost use Rattle.record_changes.specs.declared.change.RecordChange.{RecordChange as AChange};
ghost use Rattle.status_db.specs.Held.{HasRecords};
ghost use Rattle.status_records.specs.declared.record.Record.{Record as ARecord};
ghost use Rattle.trigger_journal.specs.Places.{journal_path};
ghost use Rattle.trigger_journal.specs.Writing.{IsWritingAhead};
ghost use Rattle.trigger_watch.specs.declared.activating.Activation.{Activation as AnActivation};
ghost use Rattle.unit_reports.specs.Held.{Held};
ghost use Rattle.kept_activations.specs.Journal.{StandsStill};
ghost use Rattle.kept_activations.specs.Pending.{IsPending};

use trigger_journal::what_is_written_ahead_is_asked_for;

/// At each moment of writing ahead to the journal it was only added. At each moment of notes it is as before; and where these say what
/// was activated, the next opening finds records by which all is pending that was. So is what is assumed where a command stops there.
pub fn what_a_stop_beside_units_leaves()
    ensures ahead { (records : List ARecord) (old now : World) → IsWritingAhead records old now
        → StandsStill old now }
    ensures journal { (changes : List AChange) (before : Held) (s : State) (so_far : List Event)
        (now : World) → IsAmidRun changes before s so_far now
        → now journal_path ≡ s.world journal_path }
    ensures records { (activations : List AnActivation) (before : Held) (s : State)
        (so_far : List Event) (now : World) → HasRecords s.world before.records.records
        → IsAmidRun (map change_by activations) before s so_far now
        → (found : List ARecord) × HasRecords now found × ((owner trigger : List ℕ)
        → IsPending before.records.records owner trigger → IsPending found owner trigger) }
{
    what_is_written_ahead_is_asked_for();
}
