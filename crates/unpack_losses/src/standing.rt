// What a loss of power leaves of a package whose record is that of before.
ghost use Rattle.std.specs.Prelude.{◌≡◌, Bool, IsTrue, List, false, true};
ghost use Rattle.administration.specs.Places.{home_path, is_within};
ghost use Rattle.host_core.specs.Host.{AtEachMomentOf, State};
ghost use Rattle.host_core.specs.Loss.{ScriptsAvoid};
ghost use Rattle.host_core.specs.Paths.{Path};
ghost use Rattle.host_core.specs.Unsynced.{IsSettled, is_temporary};
ghost use Rattle.host_core.specs.World.{World};
ghost use Rattle.scattered_losses.specs.Apart.{IsApart};
ghost use Rattle.scattered_losses.specs.Scattered.{LosesScattered};
ghost use Rattle.status_db.specs.Held.{is_record_place};
ghost use Rattle.unpack_engine.specs.Units.{Given, IsAmidUnit};
ghost use Rattle.unpack_losses.specs.Standing.{IsLeftUnmarked, IsNoRemainder};

use unpack_laws::what_is_marked;

/// Where the record of the package that is left to be read neither marks it as half-installed nor is the one that the unpack ends
/// with, each path outside the administration's directory is as before the unpack, but for directories that had to stay and the
/// names beside places: no file has changed before its record told so.
pub fn what_a_loss_leaves_of_an_unmarked_package()
    ensures { (kept : Path → Bool) (g : Given) (places : List Path)
        (begun old new : State) (left : World) (q : Path)
        → IsTrue new.honest → IsSettled new.events → ScriptsAvoid kept begun new
        → ((p : Path) → is_record_place p ≡ true → kept p ≡ true) → kept q ≡ true
        → is_within home_path q ≡ false → is_temporary q ≡ false → IsNoRemainder g q
        → IsApart is_record_place old new → AtEachMomentOf (IsAmidUnit g places) old new
        → LosesScattered begun old new left → IsLeftUnmarked g left → left q ≡ old.world q }
{
    what_is_marked();
}
