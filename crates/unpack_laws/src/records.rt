// What a stop leaves of records.
ghost use Rattle.std.specs.Prelude.{◌≡◌, List};
ghost use Rattle.host_core.specs.Events.{Event};
ghost use Rattle.host_core.specs.Paths.{Path};
ghost use Rattle.host_core.specs.World.{World};
ghost use Rattle.status_db.specs.Recorded.{Recorded};
ghost use Rattle.held_administration.specs.Order.{IsInOrder};
ghost use Rattle.unpack_engine.specs.Others.{AreOthers};
ghost use Rattle.unpack_engine.specs.Units.{Given, IsAmidUnit};
ghost use Rattle.unpack_laws.specs.InHand.{unit_name};
ghost use Rattle.unpack_laws.specs.NextOpening.{HasRecordsAmid};

/// At each moment of an unpack that began in order the next opening finds records, and each is one of these. The package's own is
/// that of before or one that the unit notes. That of any other package is the one of before, or half-configured where it has a
/// row; where it yields and lists a path whose place a shipped file or link has, the conffiles at such places may be gone from it.
pub fn what_the_next_opening_finds()
    ensures { (g : Given) (d : Recorded) (places : List Path) (old now : World)
        (so_far : List Event)
        → AreOthers (unit_name g) g.records g.others → IsInOrder d g.lists old
        → d.records ≡ g.records → IsAmidUnit g places old so_far now → HasRecordsAmid g now }
{}
