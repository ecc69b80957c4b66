// What a stop leaves while a package disappears.
ghost use Rattle.std.specs.Prelude.{◌≡◌, ◌≢◌, ℕ, List, false, true};
ghost use Rattle.host_core.specs.Events.{Event, changes_of};
ghost use Rattle.host_core.specs.Host.{State as HostState};
ghost use Rattle.host_core.specs.Paths.{Path, is_below_administration};
ghost use Rattle.host_core.specs.World.{World, changed};
ghost use Rattle.administration.specs.Places.{diversions_path, list_path};
ghost use Rattle.control_members.specs.Names.{is_member_name};
ghost use Rattle.control_members.specs.Stored.{stored_member_path};
ghost use Rattle.diversions.specs.Ways.{Ways};
ghost use Rattle.unit_stages.specs.Holding.{Holding};
ghost use Rattle.disappearance.specs.Units.{IsAmidOne, IsAmidUnit, IsInOrderWith};
ghost use Rattle.disappearance.specs.declared.losing.Losing.{Losing as ALosing};
ghost use Rattle.file_lists.specs.Owners.{has_other_owner};
ghost use Rattle.stop_laws.specs.Disappearing.{HasRecordsAmid};

/// At each moment while a package disappears the next opening finds its record as before or gone, and the records of all other packages
/// as before. The diversions, and lists and stored control files of other packages, are as they were. What stands anywhere else is
/// changed by script calls alone, and not at a place that another package's list has.
pub fn what_a_disappearance_leaves_at_each_moment()
    ensures records { (incoming version : List ℕ) (ways : Ways) (l : ALosing)
        (h : Holding) (s : HostState) (so_far : List Event) (now : World)
        → IsInOrderWith h s.world
        → IsAmidUnit incoming version ways l h s so_far now
        → HasRecordsAmid l.name h.records now }
    ensures lists { (incoming version : List ℕ) (ways : Ways) (l : ALosing)
        (h : Holding) (s : HostState) (so_far : List Event) (now : World) (q : List ℕ)
        → q ≢ l.name
        → IsAmidOne incoming version ways l h s so_far now
        → now (list_path q) ≡ s.world (list_path q) }
    ensures members { (incoming version : List ℕ) (ways : Ways) (l : ALosing)
        (h : Holding) (s : HostState) (so_far : List Event) (now : World) (q : List ℕ)
        (member : Path)
        → q ≢ l.name
        → is_member_name member ≡ true
        → IsAmidOne incoming version ways l h s so_far now
        → now (stored_member_path q member) ≡ s.world (stored_member_path q member) }
    ensures diversions { (incoming version : List ℕ) (ways : Ways) (l : ALosing)
        (h : Holding) (s : HostState) (so_far : List Event) (now : World)
        → IsAmidOne incoming version ways l h s so_far now
        → now diversions_path ≡ s.world diversions_path }
    ensures paths { (incoming version : List ℕ) (ways : Ways) (l : ALosing)
        (h : Holding) (s : HostState) (so_far : List Event) (now : World) (q : Path)
        → is_below_administration q ≡ false
        → IsAmidOne incoming version ways l h s so_far now
        → now q ≡ changed (changes_of so_far) s.world q }
    ensures owned { (incoming version : List ℕ) (ways : Ways) (l : ALosing)
        (h : Holding) (s : HostState) (so_far : List Event) (now : World) (q : Path)
        → is_below_administration q ≡ false
        → has_other_owner ways h.lists l.name q ≡ true
        → IsAmidOne incoming version ways l h s so_far now
        → now q ≡ s.world q }
{}
