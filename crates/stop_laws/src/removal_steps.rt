// How far a removal or a purge is, as a stop leaves it.
ghost use Rattle.std.specs.Prelude.{◌≡◌, List};
ghost use Rattle.host_core.specs.Events.{Event, IsDeniedIn, changes_of};
ghost use Rattle.host_core.specs.World.{World};
ghost use Rattle.status_db.specs.Recorded.{Recorded};
ghost use Rattle.held_administration.specs.Order.{IsInOrder};
ghost use Rattle.removal_engine.specs.Scripts.{stored_in};
ghost use Rattle.removal_engine.specs.Units.{Given, IsAmidUnit, IsRemovable};
ghost use Rattle.stop_laws.specs.RemovalSteps.{IsAtStep};

/// At each moment of a removal or a purge that began in order nothing outside the administration
/// has gone; or its files are going, and the package is half-installed and to be installed again;
/// or they are gone, but for directories whose removal was declined; or it is being purged, and
/// conffiles and directories alone have gone since, until its record goes.
pub fn what_each_step_of_a_removal_leaves()
    ensures { (g : Given) (removable : IsRemovable g.extent g.before.records g.name) (d : Recorded)
        (old now : World) (so_far : List Event)
        → IsInOrder d g.before.lists old
        → d.records ≡ g.before.records
        → IsAmidUnit g old so_far now
        → IsAtStep g removable.entry (stored_in g.name old) (IsDeniedIn so_far) old
        (changes_of so_far) now }
{}
