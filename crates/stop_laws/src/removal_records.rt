// What a stop of a removal leaves of records.
ghost use Rattle.std.specs.Prelude.{◌≡◌, List};
ghost use Rattle.host_core.specs.Events.{Event};
ghost use Rattle.host_core.specs.World.{World};
ghost use Rattle.status_db.specs.Recorded.{Recorded};
ghost use Rattle.held_administration.specs.Order.{IsInOrder};
ghost use Rattle.removal_engine.specs.Scripts.{stored_in};
ghost use Rattle.removal_engine.specs.Units.{Given, IsAmidUnit, IsRemovable};
ghost use Rattle.stop_laws.specs.Removing.{HasRecordsAmid};

/// At each moment of a removal or a purge that began in order the next opening finds the records of all other packages as before, and
/// of the package that of before, one that the unit notes, or none.
pub fn what_the_next_opening_finds_of_a_removal()
    ensures { (g : Given) (removable : IsRemovable g.extent g.before.records g.name) (d : Recorded)
        (old now : World) (so_far : List Event)
        → IsInOrder d g.before.lists old
        → d.records ≡ g.before.records
        → IsAmidUnit g old so_far now
        → HasRecordsAmid g removable.entry (stored_in g.name old) now }
{}
