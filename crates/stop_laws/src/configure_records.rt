// What a stop of configuring leaves of records, lists, control files and paths.
ghost use Rattle.std.specs.Prelude.{◌≡◌, ◌≢◌, ℕ, List, Some, false, true};
ghost use Rattle.host_core.specs.Events.{Event, changes_of};
ghost use Rattle.host_core.specs.Paths.{Path, is_below_administration};
ghost use Rattle.host_core.specs.World.{World, changed};
ghost use Rattle.administration.specs.Places.{diversions_path, list_path};
ghost use Rattle.control_members.specs.Names.{is_member_name};
ghost use Rattle.control_members.specs.Stored.{stored_member_path};
ghost use Rattle.status_db.specs.Recorded.{Recorded};
ghost use Rattle.status_records.specs.Records.{record_in};
ghost use Rattle.status_records.specs.declared.record.Record.{Record as ARecord};
ghost use Rattle.held_administration.specs.Order.{IsInOrder};
ghost use Rattle.configure_engine.specs.Units.{Given, IsAmidUnit};
ghost use Rattle.stop_laws.specs.Configuring.{HasRecordsAmid, IsOwnList, is_settling_name};

/// At each moment of configuring a package that began in order the next opening finds the records of all other packages as before, and
/// of the package that of before, or one that the unit notes. The diversions, each other package's list and all stored control files are as they were;
/// the package's list is that of before, or that without the paths that go. What stands at any other path is changed by script calls
/// alone, but at names of conffiles that are to be settled.
pub fn what_configuring_leaves_at_each_moment()
    ensures records { (g : Given) (r : ARecord) (d : Recorded) (old now : World)
        (so_far : List Event)
        → record_in g.before.records g.name ≡ Some r
        → IsInOrder d g.before.lists old
        → d.records ≡ g.before.records
        → IsAmidUnit g old so_far now
        → HasRecordsAmid g r now }
    ensures lists { (g : Given) (old now : World) (so_far : List Event) (q : List ℕ)
        → q ≢ g.name
        → IsAmidUnit g old so_far now
        → now (list_path q) ≡ old (list_path q) }
    ensures members { (g : Given) (old now : World) (so_far : List Event) (q : List ℕ)
        (member : Path)
        → is_member_name member ≡ true
        → IsAmidUnit g old so_far now
        → now (stored_member_path q member) ≡ old (stored_member_path q member) }
    ensures diversions { (g : Given) (old now : World) (so_far : List Event)
        → IsAmidUnit g old so_far now
        → now diversions_path ≡ old diversions_path }
    ensures own_list { (g : Given) (r : ARecord) (old now : World) (so_far : List Event)
        → record_in g.before.records g.name ≡ Some r
        → IsAmidUnit g old so_far now
        → IsOwnList g r (old (list_path g.name)) (now (list_path g.name)) }
    ensures paths { (g : Given) (r : ARecord) (old now : World) (so_far : List Event) (q : Path)
        → record_in g.before.records g.name ≡ Some r
        → is_below_administration q ≡ false
        → is_settling_name g.ways r q ≡ false
        → IsAmidUnit g old so_far now
        → now q ≡ changed (changes_of so_far) old q }
{}
