// What is read of what was written ahead.
ghost use Rattle.std.specs.Prelude.{ℕ, List};
ghost use Rattle.host_core.specs.World.{World};
ghost use Rattle.status_records.specs.declared.record.Record.{Record as ARecord};
ghost use Rattle.trigger_journal.specs.Read.{AddsRequests, AreAllForeseen, IsEachFound};

/// Of the text that is written ahead each request is read that stood there, and before it ours, one for each trigger in which a package
/// with files is interested. So where there is one, a command that finds it takes each trigger as asked for.
pub fn what_is_written_ahead_is_asked_for()
    ensures adds { (w : World) (records : List ARecord) (text : List ℕ)
        → AddsRequests w records text }
    ensures all { (w : World) (records : List ARecord) (text : List ℕ)
        → AreAllForeseen w records text }
    ensures found { (w : World) (records : List ARecord) (text : List ℕ)
        → IsEachFound w records text }
{}
