// What a loss of power leaves of a removal.
ghost use Rattle.std.specs.Prelude.{◌≡◌, Bool, IsTrue, false, true};
ghost use Rattle.administration.specs.Places.{home_path, is_within};
ghost use Rattle.held_administration.specs.Order.{IsInOrder};
ghost use Rattle.host_core.specs.Host.{AtEachMomentOf, State};
ghost use Rattle.host_core.specs.Loss.{ScriptsAvoid};
ghost use Rattle.host_core.specs.Paths.{Path};
ghost use Rattle.host_core.specs.Unsynced.{IsSettled, is_temporary};
ghost use Rattle.host_core.specs.World.{World};
ghost use Rattle.removal_engine.specs.Units.{Given, IsAmidUnit, IsRemovable};
ghost use Rattle.removal_losses.specs.Standing.{HasItsFiles};
ghost use Rattle.scattered_losses.specs.Apart.{IsApart};
ghost use Rattle.scattered_losses.specs.Scattered.{LosesScattered};
ghost use Rattle.status_db.specs.Held.{is_record_place};
ghost use Rattle.status_db.specs.Recorded.{Recorded};
ghost use Rattle.stop_laws.specs.Left.{IsRecorded};

use stop_laws::what_each_step_of_a_removal_leaves;

/// Where the record of the package that is left to be read says that it has its files, each path
/// outside the administration's directory is as before the removal: no file has gone before its
/// record told so.
pub fn what_a_loss_leaves_of_a_removal()
    ensures files { (kept : Path → Bool) (g : Given)
        (removable : IsRemovable g.extent g.before.records g.name) (d : Recorded)
        (begun old new : State) (left : World) (q : Path)
        → IsTrue new.honest → IsSettled new.events → ScriptsAvoid kept begun new
        → ((p : Path) → is_record_place p ≡ true → kept p ≡ true) → kept q ≡ true
        → is_within home_path q ≡ false → is_temporary q ≡ false
        → IsInOrder d g.before.lists old.world → d.records ≡ g.before.records
        → IsApart is_record_place old new → AtEachMomentOf (IsAmidUnit g) old new
        → LosesScattered begun old new left → IsRecorded g.name HasItsFiles left
        → left q ≡ old.world q }
{
    what_each_step_of_a_removal_leaves();
}
