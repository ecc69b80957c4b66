// A loss of power where names of an area change apart from all others.
ghost use Rattle.std.specs.Prelude.{◌≡◌, Bool, IsTrue, false, true};
ghost use Rattle.host_core.specs.Events.{changes_of};
ghost use Rattle.host_core.specs.Host.{AtEachMoment, AtEachMomentOf, State};
ghost use Rattle.host_core.specs.Loss.{IsLater, IsLike, ScriptsAvoid};
ghost use Rattle.host_core.specs.Paths.{Path};
ghost use Rattle.host_core.specs.Unsynced.{IsSettled, is_temporary};
ghost use Rattle.host_core.specs.World.{Avoids, KeepsBut, SameOn, World};
ghost use Rattle.scattered_losses.specs.Apart.{GoApart, IsApart, WaitsForBarrier};
ghost use Rattle.scattered_losses.specs.Scattered.{LosesScattered};
ghost use Rattle.scattered_losses.specs.Turns.{IsQuiet, TakeTurns};

/// Where between two barriers the names of an area change, or others, and not both, a loss leaves them in order: a path outside the
/// area is as before, where it was so at each moment at which the area was like what is left of it.
/// So it is of work that leaves the area alone, of work that changes it alone and begins with a barrier, and of one behind the
/// other where a barrier is behind what the first changed in the area.
pub fn names_that_change_apart_are_left_in_order()
    ensures first { (kept area : Path → Bool) (q : Path) (begun old new : State) (left : World)
        → IsTrue new.honest → IsSettled new.events → ScriptsAvoid kept begun new
        → ((p : Path) → area p ≡ true → kept p ≡ true) → kept q ≡ true → area q ≡ false
        → is_temporary q ≡ false → TakeTurns area old new → GoApart area old new
        → LosesScattered begun old new left
        → AtEachMomentOf (λ w so_far now. IsLike area left now → Avoids kept (changes_of so_far)
        → now q ≡ w q) old new
        → left q ≡ old.world q }
    ensures here { (area : Path → Bool) (s : State) → IsTrue s.honest
        → IsApart area s s × IsQuiet area s s }
    ensures beside { (area : Path → Bool) (old new : State) → IsTrue new.honest
        → AtEachMoment (SameOn area) old new → IsApart area old new × IsQuiet area old new }
    ensures alone { (area : Path → Bool) (old new : State) → IsTrue new.honest
        → AtEachMoment (KeepsBut area) old new → TakeTurns area old new
        → WaitsForBarrier area old new → IsApart area old new }
    ensures behind { (area : Path → Bool) (old mid new : State) → IsLater old mid
        → IsLater mid new → IsApart area old mid → IsQuiet area old mid → IsApart area mid new
        → IsApart area old new }
    ensures quiet { (area : Path → Bool) (old mid new : State) → IsLater old mid
        → IsLater mid new → IsQuiet area old mid → WaitsForBarrier area mid new
        → IsQuiet area mid new → IsQuiet area old new }
{}
