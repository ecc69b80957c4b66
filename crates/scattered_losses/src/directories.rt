// A loss of power, one directory by itself.
ghost use Rattle.std.specs.Prelude.{◌≡◌, ◌⊎◌, ◌++◌, Bool, List};
ghost use Rattle.host_core.specs.Events.{Event, follow_all};
ghost use Rattle.host_core.specs.Host.{State};
ghost use Rattle.host_core.specs.Loss.{HasNoBarrier, IsAnswered, IsLater, IsLikeAStop, IsMoment, LosesSince, ScriptsAvoid};
ghost use Rattle.host_core.specs.Paths.{Path};
ghost use Rattle.host_core.specs.Unsynced.{IsSettled};
ghost use Rattle.host_core.specs.World.{World};
ghost use Rattle.scattered_losses.specs.Scattered.{IsLeftInOrder, LosesScattered, parent_of, within};

/// In each directory by itself a loss leaves what one leaves that keeps one order of all names; so, on kept paths, what a stop at
/// some step since the last barrier could have left, all names of the directory as at the same one, apart from the bytes at
/// temporary names. In a run of commands it is a loss in one of them: those that have answered stand whole. Losses in one order
/// are such losses, and each choice of fronts is one.
pub fn a_loss_is_path_by_path_like_a_stop()
    ensures ordered { (begun old new : State) (left : World) (directory : Path)
        → LosesScattered begun old new left → IsLeftInOrder begun old new directory left }
    ensures stop { (kept : Path → Bool) (begun old new : State) (left : World)
        → IsSettled new.events → ScriptsAvoid kept begun new → LosesScattered begun old new left
        → (directory : Path) → IsLikeAStop (within kept directory) old new left }
    ensures one { (begun old new : State) (left : World) → LosesSince begun old new left
        → LosesScattered begun old new left }
    ensures part { (begun old mid new : State) (left : World) → IsLater old mid → IsLater mid new
        → IsAnswered old mid → LosesScattered begun old new left
        → LosesScattered begun old mid left ⊎ LosesScattered begun mid new left }
    ensures fronts { (begun old new : State) (earlier added durable late : List Event)
        (front rest : Path → List Event)
        → old.events ≡ begun.events ++ earlier → new.events ≡ old.events ++ added
        → IsMoment added (durable ++ late) → HasNoBarrier late
        → ((directory : Path) → late ≡ front directory ++ rest directory)
        → LosesScattered begun old new
        (λ q. follow_all (durable ++ front (parent_of q)) old.world q) }
{}
