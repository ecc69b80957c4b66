// What is read of records behind a loss of power.
ghost use Rattle.std.specs.Prelude.{◌⊎◌, IsTrue, List};
ghost use Rattle.host_core.specs.Host.{AtEachMoment, State};
ghost use Rattle.host_core.specs.Loss.{ScriptsAvoid};
ghost use Rattle.host_core.specs.Unsynced.{IsSettled};
ghost use Rattle.host_core.specs.World.{World};
ghost use Rattle.scattered_losses.specs.Scattered.{LosesScattered};
ghost use Rattle.scattered_losses.specs.Turns.{TakeTurns};
ghost use Rattle.status_db.specs.Held.{HasRecords, is_record_place};
ghost use Rattle.status_db.specs.Noting.{IsMerging, IsNoting};
ghost use Rattle.status_records.specs.declared.record.Record.{Record as ARecord};

/// Behind a loss while notes are merged the same records are read, and while a record is noted those of before or those of
/// after, where the directory of the status file and that of the notes take turns.
pub fn records_are_read_behind_a_loss()
    ensures merging { (begun old new : State) (left : World) (records : List ARecord)
        → IsTrue new.honest → IsSettled new.events → ScriptsAvoid is_record_place begun new
        → TakeTurns is_record_place old new → LosesScattered begun old new left
        → AtEachMoment (IsMerging records) old new → HasRecords left records }
    ensures noting { (begun old new : State) (left : World) (before after : List ARecord)
        → IsTrue new.honest → IsSettled new.events → ScriptsAvoid is_record_place begun new
        → TakeTurns is_record_place old new → LosesScattered begun old new left
        → AtEachMoment (IsNoting before after) old new
        → HasRecords left before ⊎ HasRecords left after }
{}
