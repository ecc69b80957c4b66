// What a stop leaves of other packages' lists and of the package's control files.
ghost use Rattle.std.specs.Prelude.{◌≡◌, ◌≢◌, ℕ, List, true};
ghost use Rattle.host_core.specs.Events.{Event};
ghost use Rattle.host_core.specs.Paths.{Path};
ghost use Rattle.host_core.specs.World.{World};
ghost use Rattle.administration.specs.Places.{list_path};
ghost use Rattle.control_members.specs.Names.{is_member_name};
ghost use Rattle.control_members.specs.Stored.{stored_member_path};
ghost use Rattle.unpack_engine.specs.Units.{Given, IsAmidUnit};
ghost use Rattle.unpack_laws.specs.InHand.{unit_name};
ghost use Rattle.unpack_laws.specs.Info.{IsOtherList, IsOwnMember};

/// At each moment of an unpack another package's list is the one of before or, where the package yields, that without its paths
/// at places of shipped files and links; and each stored control file of the package is that of before, none, or that of the tree.
pub fn what_stands_in_info()
    ensures lists { (g : Given) (places : List Path) (old now : World) (so_far : List Event)
        (q : List ℕ)
        → q ≢ unit_name g → IsAmidUnit g places old so_far now
        → IsOtherList g q (old (list_path q)) (now (list_path q)) }
    ensures members { (g : Given) (places : List Path) (old now : World) (so_far : List Event)
        (member : Path)
        → is_member_name member ≡ true → IsAmidUnit g places old so_far now
        → IsOwnMember g member (old (stored_member_path (unit_name g) member))
        (now (stored_member_path (unit_name g) member)) }
{}
