// What a loss of power leaves of an unpack.
ghost use Rattle.std.specs.Prelude.{◌≡◌, Bool, IsTrue, List, false, true};
ghost use Rattle.host_core.specs.Host.{AtEachMomentOf, State};
ghost use Rattle.host_core.specs.Loss.{IsLikeOne, ScriptsAvoid};
ghost use Rattle.host_core.specs.Paths.{Path};
ghost use Rattle.host_core.specs.Unsynced.{IsSettled, is_temporary};
ghost use Rattle.host_core.specs.World.{World};
ghost use Rattle.package_files.specs.Apart.{HasNames};
ghost use Rattle.package_files.specs.Files.{Each};
ghost use Rattle.package_files.specs.Names.{IsNamed};
ghost use Rattle.scattered_losses.specs.Scattered.{LosesScattered, within};
ghost use Rattle.unpack_engine.specs.Units.{Given, IsAmidUnit};
ghost use Rattle.unpack_laws.specs.InHand.{IsPassedBy, unit_works};
ghost use Rattle.unpack_laws.specs.Whole.{IsLasting};
ghost use Rattle.unpack_losses.specs.Targets.{IsTargetLeft};

use unpack_laws::{what_stands_of_the_package, what_stands_where_no_work_comes};

/// On kept paths what is left in a directory is like what stood there at some moment of the unpack, all names of it at the same
/// one. Each target that lasts has what stood there or the shipped node whole, and is missing only where a directory takes the
/// place of what is then at the backup. A path that the unpack passes by is as before.
pub fn what_a_loss_leaves_of_an_unpack()
    ensures moment { (kept : Path → Bool) (g : Given) (places : List Path)
        (begun old new : State) (left : World)
        → IsTrue new.honest → IsSettled new.events → ScriptsAvoid kept begun new
        → AtEachMomentOf (IsAmidUnit g places) old new → LosesScattered begun old new left
        → (directory : Path)
        → IsLikeOne (within kept directory) (IsAmidUnit g places old.world) left }
    ensures files { (kept : Path → Bool) (g : Given) (places : List Path)
        (begun old new : State) (left : World)
        → IsTrue new.honest → IsSettled new.events → ScriptsAvoid kept begun new
        → AtEachMomentOf (IsAmidUnit g places) old new → LosesScattered begun old new left
        → Each (λ x. IsNamed x → HasNames kept x → IsLasting g x.target
        → IsTargetLeft x old.world left) (unit_works g) }
    ensures beside { (kept : Path → Bool) (g : Given) (places : List Path)
        (begun old new : State) (left : World)
        → IsTrue new.honest → IsSettled new.events → ScriptsAvoid kept begun new
        → AtEachMomentOf (IsAmidUnit g places) old new → LosesScattered begun old new left
        → (q : Path) → IsPassedBy g q → kept q ≡ true → is_temporary q ≡ false
        → left q ≡ old.world q }
{
    what_stands_of_the_package();
    what_stands_where_no_work_comes();
}
