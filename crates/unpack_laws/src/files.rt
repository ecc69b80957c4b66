// What a stop leaves of the package's files and its list.
ghost use Rattle.std.specs.Prelude.{◌≡◌, List, Contains, true};
ghost use Rattle.host_core.specs.Events.{Event, changes_of};
ghost use Rattle.host_core.specs.Paths.{Path, is_ship_text};
ghost use Rattle.host_core.specs.World.{World};
ghost use Rattle.administration.specs.Places.{list_path};
ghost use Rattle.package_files.specs.Files.{Each};
ghost use Rattle.package_files.specs.declared.work.Work.{Work as AWork};
ghost use Rattle.unpack_engine.specs.Units.{Given, IsAmidUnit};
ghost use Rattle.unpack_laws.specs.InHand.{unit_name, unit_works};
ghost use Rattle.unpack_laws.specs.Whole.{IsLasting, IsOwnList, IsWorkAmid};

/// At each moment of an unpack each target that lasts has what scripts made of what stood there, or the shipped node whole;
/// and the package's list is the one of before, the old paths with those to come, or the new one. A target at the place of its
/// path lasts.
pub fn what_stands_of_the_package()
    ensures files { (g : Given) (places : List Path) (old now : World) (so_far : List Event)
        → IsAmidUnit g places old so_far now
        → Each (λ x. IsLasting g x.target → IsWorkAmid old now (changes_of so_far) x)
        (unit_works g) }
    ensures lasting { (g : Given) (x : AWork)
        → Contains (unit_works g) x → is_ship_text x.place ≡ true → x.target ≡ x.place
        → IsLasting g x.target }
    ensures list { (g : Given) (places : List Path) (old now : World) (so_far : List Event)
        → IsAmidUnit g places old so_far now
        → IsOwnList g (old (list_path (unit_name g))) (now (list_path (unit_name g))) }
{}
