// What a stop leaves of other packages.
ghost use Rattle.std.specs.Prelude.{◌≡◌, ◌≢◌, ℕ, List, true};
ghost use Rattle.host_core.specs.Events.{Event};
ghost use Rattle.host_core.specs.Paths.{Path};
ghost use Rattle.host_core.specs.World.{World};
ghost use Rattle.administration.specs.Places.{diversions_path, list_path};
ghost use Rattle.control_members.specs.Names.{is_member_name};
ghost use Rattle.control_members.specs.Stored.{stored_member_path};
ghost use Rattle.unpack_engine.specs.Units.{Given, IsAmidUnit};
ghost use Rattle.unpack_laws.specs.InHand.{KeepsPlaces, unit_name};

/// At each moment of an unpack another package that loses no place has its list as it was, and each other package has its
/// stored control files as they were; so are the diversions.
pub fn what_other_packages_keep()
    ensures lists { (g : Given) (places : List Path) (old now : World) (so_far : List Event)
        (q : List ℕ)
        → q ≢ unit_name g → KeepsPlaces g q → IsAmidUnit g places old so_far now
        → now (list_path q) ≡ old (list_path q) }
    ensures members { (g : Given) (places : List Path) (old now : World) (so_far : List Event)
        (q : List ℕ) (member : Path)
        → q ≢ unit_name g → is_member_name member ≡ true → IsAmidUnit g places old so_far now
        → now (stored_member_path q member) ≡ old (stored_member_path q member) }
    ensures diversions { (g : Given) (places : List Path) (old now : World) (so_far : List Event)
        → IsAmidUnit g places old so_far now → now diversions_path ≡ old diversions_path }
{}
