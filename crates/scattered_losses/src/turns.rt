// A loss of power where directories take turns.
ghost use Rattle.std.specs.Prelude.{Bool, IsTrue};
ghost use Rattle.host_core.specs.Host.{AtEachMoment, State};
ghost use Rattle.host_core.specs.Loss.{IsLater, IsLikeAStop, IsOnDisk, ScriptsAvoid};
ghost use Rattle.host_core.specs.Paths.{Path};
ghost use Rattle.host_core.specs.Unsynced.{IsSettled};
ghost use Rattle.host_core.specs.World.{SameOn, World};
ghost use Rattle.scattered_losses.specs.Scattered.{LosesScattered};
ghost use Rattle.scattered_losses.specs.Turns.{IsQuiet, KeepsOutside, TakeTurns};

/// Where of some kept names those of one directory alone change between two barriers, a loss leaves all of them as one stop could
/// have left them, apart from the bytes at temporary names. So it is of work that changes names of one directory alone; of more
/// such work where none of the names changed since a barrier; and of any work that leaves them alone.
pub fn directories_that_take_turns_are_left_as_one()
    ensures stop { (kept : Path → Bool) (begun old new : State) (left : World)
        → IsSettled new.events → ScriptsAvoid kept begun new → TakeTurns kept old new
        → LosesScattered begun old new left → IsLikeAStop kept old new left }
    ensures alone { (area : Path → Bool) (directory : Path) (old new : State) → IsTrue new.honest
        → AtEachMoment (KeepsOutside area directory) old new → TakeTurns area old new }
    ensures behind { (area : Path → Bool) (old mid new : State) → IsLater old mid
        → IsLater mid new → TakeTurns area old mid → IsQuiet area old mid → TakeTurns area mid new
        → TakeTurns area old new }
    ensures beside { (area : Path → Bool) (old mid new : State) → IsTrue new.honest
        → IsLater old mid → AtEachMoment (SameOn area) mid new → TakeTurns area old mid
        → TakeTurns area old new }
    ensures on_disk { (area : Path → Bool) (old new : State) → IsOnDisk new.events
        → IsQuiet area old new }
    ensures quiet { (area : Path → Bool) (old mid new : State) → IsTrue new.honest
        → IsLater old mid → AtEachMoment (SameOn area) mid new → IsQuiet area old mid
        → IsQuiet area old new }
{}
