// What a loss of power leaves of a package's files.
ghost use Rattle.std.specs.Prelude.{Bool, IsTrue, List};
ghost use Rattle.host_core.specs.Host.{AtEachMoment, State};
ghost use Rattle.host_core.specs.Loss.{ScriptsAvoid};
ghost use Rattle.host_core.specs.Paths.{Path};
ghost use Rattle.host_core.specs.Unsynced.{IsSettled};
ghost use Rattle.host_core.specs.World.{World};
ghost use Rattle.package_files.specs.Apart.{HasNames};
ghost use Rattle.package_files.specs.Back.{IsGoingBack};
ghost use Rattle.package_files.specs.Files.{Each, IsAmid};
ghost use Rattle.package_files.specs.Free.{IsWrittenFrom};
ghost use Rattle.package_files.specs.Names.{IsNamed};
ghost use Rattle.package_files.specs.declared.work.Work.{Work as AWork};
ghost use Rattle.unpack_losses.specs.Files.{AreLeftWhole};
ghost use Rattle.scattered_losses.specs.Scattered.{LosesScattered};

/// Of files that are written, or put back, a loss leaves each target as it was or whole as shipped, with what had stood there at
/// the target or its second name, which lies in the same directory; no target is missing but where a directory takes the place
/// of a file. All kept paths beside theirs are as before.
pub fn no_file_is_left_in_part()
    ensures written { (kept : Path → Bool) (works : List AWork) (begun old new : State)
        (left : World)
        → IsTrue new.honest → IsSettled new.events → ScriptsAvoid kept begun new → Each IsNamed works
        → Each (HasNames kept) works → AtEachMoment (λ old now. IsAmid works old old now) old new
        → LosesScattered begun old new left
        → AreLeftWhole kept works old.world old.world left }
    ensures back { (kept : Path → Bool) (works : List AWork) (begun old new : State)
        (was left : World)
        → IsTrue new.honest → IsSettled new.events → ScriptsAvoid kept begun new
        → Each IsNamed works → Each (HasNames kept) works
        → AtEachMoment (IsGoingBack works) old new → IsWrittenFrom works was old.world
        → LosesScattered begun old new left → AreLeftWhole kept works was old.world left }
{}
