// What a stop leaves at places of other packages.
ghost use Rattle.std.specs.Prelude.{◌≡◌, List, Some, false, true};
ghost use Rattle.host_core.specs.Events.{Event};
ghost use Rattle.host_core.specs.Paths.{Path, has_reserved_suffix, is_below_administration};
ghost use Rattle.host_core.specs.World.{World};
ghost use Rattle.administration.specs.Places.{home_path, is_within};
ghost use Rattle.status_records.specs.Records.{record_in};
ghost use Rattle.status_records.specs.declared.record.Record.{Record as ARecord};
ghost use Rattle.configure_engine.specs.Units.{Given as Configuring, IsAmidUnit as IsAmidConfiguring};
ghost use Rattle.file_lists.specs.Owners.{has_other_owner};
ghost use Rattle.removal_engine.specs.Units.{Given as Removing, IsAmidUnit as IsAmidRemoving, IsRemovable};
ghost use Rattle.stop_laws.specs.Configuring.{is_settling_name};

/// At each moment of configuring, of a removal or of a purge a place outside the administration's directory that another package's
/// list has is as it was: neither the unit nor a script call changes what stands there. A removal may take away what stands at a name
/// with an ending that the installer keeps for itself, and configuring what stands at a name of a conffile that is to be settled.
pub fn what_stands_at_places_of_other_packages()
    ensures removing { (g : Removing) (removable : IsRemovable g.extent g.before.records g.name)
        (old now : World) (so_far : List Event) (q : Path)
        → has_other_owner g.ways g.before.lists g.name q ≡ true
        → has_reserved_suffix q ≡ false
        → is_within home_path q ≡ false
        → IsAmidRemoving g old so_far now
        → now q ≡ old q }
    ensures configuring { (g : Configuring) (r : ARecord) (old now : World) (so_far : List Event)
        (q : Path)
        → record_in g.before.records g.name ≡ Some r
        → has_other_owner g.ways g.before.lists g.name q ≡ true
        → is_settling_name g.ways r q ≡ false
        → is_below_administration q ≡ false
        → IsAmidConfiguring g old so_far now
        → now q ≡ old q }
{}
