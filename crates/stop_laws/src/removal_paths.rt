// What a stop of a removal leaves of other packages, of paths, and of the package's own list and control files.
ghost use Rattle.std.specs.Prelude.{◌≡◌, ◌≢◌, ℕ, List, true, false};
ghost use Rattle.host_core.specs.Events.{Event, changes_of};
ghost use Rattle.host_core.specs.Paths.{Path};
ghost use Rattle.host_core.specs.World.{World};
ghost use Rattle.administration.specs.Places.{diversions_path, home_path, is_within, list_path};
ghost use Rattle.control_members.specs.Names.{is_member_name};
ghost use Rattle.control_members.specs.Stored.{stored_member_path};
ghost use Rattle.removal_engine.specs.Scripts.{stored_in};
ghost use Rattle.removal_engine.specs.Units.{Given, IsAmidUnit, IsRemovable};
ghost use Rattle.stop_laws.specs.Left.{IsLeftOrGoing};
ghost use Rattle.stop_laws.specs.Removing.{IsListed, IsOwnList, IsOwnMember, MayGo};

/// At each moment of a removal or a purge the diversions, and the lists and the stored control
/// files of other packages, are as they were. Outside the administration's directory script calls
/// alone have changed what stands at a path, unless it may go: then what stood there is gone, and
/// script calls alone have made what stands there since; or it is a listed file on its way, which
/// lends no rights any more. The package's list is that of before, that of the conffiles that stay
/// and of the directories above all conffiles, one without a path, or none; each of its stored
/// control files is that of before, or none.
pub fn what_a_removal_leaves_at_each_moment()
    ensures lists { (g : Given) (removable : IsRemovable g.extent g.before.records g.name)
        (old now : World) (so_far : List Event) (q : List ℕ)
        → q ≢ g.name
        → IsAmidUnit g old so_far now
        → now (list_path q) ≡ old (list_path q) }
    ensures members { (g : Given) (removable : IsRemovable g.extent g.before.records g.name)
        (old now : World) (so_far : List Event) (q : List ℕ) (member : Path)
        → q ≢ g.name
        → is_member_name member ≡ true
        → IsAmidUnit g old so_far now
        → now (stored_member_path q member) ≡ old (stored_member_path q member) }
    ensures diversions { (g : Given) (removable : IsRemovable g.extent g.before.records g.name)
        (old now : World) (so_far : List Event)
        → IsAmidUnit g old so_far now
        → now diversions_path ≡ old diversions_path }
    ensures paths { (g : Given) (removable : IsRemovable g.extent g.before.records g.name)
        (old now : World) (so_far : List Event) (q : Path)
        → is_within home_path q ≡ false
        → IsAmidUnit g old so_far now
        → IsLeftOrGoing q (MayGo g removable.entry (stored_in g.name old) q)
        (IsListed g removable.entry (stored_in g.name old) q) (changes_of so_far) old now }
    ensures own_list { (g : Given) (removable : IsRemovable g.extent g.before.records g.name)
        (old now : World) (so_far : List Event)
        → IsAmidUnit g old so_far now
        → IsOwnList g removable.entry (stored_in g.name old) (old (list_path g.name))
        (now (list_path g.name)) }
    ensures own_members { (g : Given) (removable : IsRemovable g.extent g.before.records g.name)
        (old now : World) (so_far : List Event) (member : Path)
        → is_member_name member ≡ true
        → IsAmidUnit g old so_far now
        → IsOwnMember (old (stored_member_path g.name member))
        (now (stored_member_path g.name member)) }
{}
