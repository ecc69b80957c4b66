// What a stop leaves at paths outside the administration.
ghost use Rattle.std.specs.Prelude.{◌≡◌, List, true};
ghost use Rattle.host_core.specs.Events.{Event, changes_of};
ghost use Rattle.host_core.specs.Paths.{Path};
ghost use Rattle.host_core.specs.World.{World, changed, is_kept};
ghost use Rattle.unpack_engine.specs.Units.{Given, IsAmidUnit};
ghost use Rattle.unpack_laws.specs.InHand.{IsPassedBy};

/// At each moment of an unpack a path that it passes by has what script calls made of what stood there; where they leave the
/// path alone, what stood there.
pub fn what_stands_where_no_work_comes()
    ensures scripts { (g : Given) (places : List Path) (old now : World) (so_far : List Event)
        (q : Path)
        → IsPassedBy g q → IsAmidUnit g places old so_far now
        → now q ≡ changed (changes_of so_far) old q }
    ensures kept { (g : Given) (places : List Path) (old now : World) (so_far : List Event)
        (q : Path)
        → IsPassedBy g q → is_kept places q ≡ true → IsAmidUnit g places old so_far now
        → now q ≡ old q }
{}
