// What a loss of power leaves.
ghost use Rattle.std.specs.Prelude.{Bool, ◌⊎◌, ◌≡◌, List, ◌++◌};
ghost use Rattle.host_core.specs.Paths.{Path};
ghost use Rattle.host_core.specs.World.{World};
ghost use Rattle.host_core.specs.Events.{Event, changes_of};
ghost use Rattle.host_core.specs.Host.{State};
ghost use Rattle.host_core.specs.Unsynced.{IsSettled};
ghost use Rattle.host_core.specs.Loss.{IsLater, LosesSince, LosesBehind, ScriptsAvoid, unwritten, IsLikeAStop, IsOnDisk, IsAnswered};

/// A loss of power since a moment at which all was on the disk leaves, on paths that no script of the session wrote, what a stop
/// at some step since could have left, apart from the bytes at temporary names; the paths that none wrote are such paths. A loss
/// behind a barrier is one since it. A loss in a run of commands is one in a single command: those before it stand whole.
pub fn a_loss_is_like_a_stop()
    ensures stop { (kept : Path → Bool) (begun old new : State) (left : World)
        → IsSettled new.events → ScriptsAvoid kept begun new → LosesSince begun old new left
        → IsLikeAStop kept old new left }
    ensures session { (kept : Path → Bool) (begun new : State) (added : List Event)
        → new.events ≡ begun.events ++ added → ScriptsAvoid (unwritten kept (changes_of added))
        begun new }
    ensures barrier { (begun old mid new : State) (left : World) → IsOnDisk mid.events
        → LosesBehind begun old mid new left → LosesSince begun mid new left }
    ensures part { (begun old mid new : State) (left : World) → IsLater old mid → IsLater mid new
        → IsAnswered old mid → LosesSince begun old new left → LosesSince begun old mid left
        ⊎ LosesSince begun mid new left }
{}
