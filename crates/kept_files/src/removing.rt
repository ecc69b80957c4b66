// No file of another package is lost by a removal or a purge.
ghost use Rattle.std.specs.Prelude.{◌≡◌, IsTrue};
ghost use Rattle.host_core.specs.Host.{AtEachMomentOf, State as HostState};
ghost use Rattle.host_core.specs.Paths.{Path};
ghost use Rattle.removal_engine.specs.Units.{Given, IsAmidUnit, IsRemovable};
ghost use Rattle.kept_files.specs.Kept.{IsOthersPlace, IsPackagePlace};

/// What stands at a place of another package stands there as before behind a removal, a purge, or a removal in favour of another
/// package, whatever its answer: done, failed, or broken off at any moment.
pub fn no_file_is_lost_by_a_removal()
    ensures { (g : Given) (removable : IsRemovable g.extent g.before.records g.name)
        (old new : HostState) (q : Path)
        → IsOthersPlace g.ways g.before.lists g.name q → IsPackagePlace q
        → AtEachMomentOf (IsAmidUnit g) old new → IsTrue new.honest → new.world q ≡ old.world q }
{}
