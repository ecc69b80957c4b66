// What removals in favour of another package leave, and which calls they make.
ghost use Rattle.std.specs.Prelude.{◌≡◌, ℕ, IsTrue, List, Option, true};
ghost use Rattle.host_core.specs.Paths.{Path, is_own};
ghost use Rattle.host_core.specs.World.{World};
ghost use Rattle.host_core.specs.Events.{Event};
ghost use Rattle.host_core.specs.Host.{State};
ghost use Rattle.host_core.specs.Loss.{IsLater};
ghost use Rattle.host_core.specs.declared.call.Call.{Call as ACall};
ghost use Rattle.diversions.specs.Ways.{Ways};
ghost use Rattle.unit_stages.specs.Holding.{Holding};
ghost use Rattle.undo_rows.specs.Transcript.{TellsAll};
ghost use Rattle.undo_rows.specs.declared.rows.Called.{Called as ACalled};
ghost use Rattle.conflict_removal.specs.Removals.{CanBeOpened, HaveBeenRemoved, HaveCalled, IsAmidRemovals, IsAsideOfAll, IsInOrderWith};

use unit_stages::{
    what_a_run_of_stages_leaves, what_is_broken_off_begins_a_run_of_stages, what_stages_leave,
};

/// Removals leave an administration in order. In the end and at each moment of them a place of the program's own is as before, unless
/// it is a record's or one of these packages', and the next opening finds records.
pub fn what_removals_leave()
    ensures later { (ways : Ways) (names : List (List ℕ)) (failed : Option ACall)
        (before after : Holding) (s t : State) (told now : List ACalled)
        → HaveBeenRemoved ways names failed before after s t told now
        → IsLater s t }
    ensures order { (ways : Ways) (names : List (List ℕ)) (failed : Option ACall)
        (before after : Holding) (s t : State) (told now : List ACalled)
        → HaveBeenRemoved ways names failed before after s t told now
        → IsTrue t.honest
        → IsInOrderWith before s.world
        → IsInOrderWith after t.world }
    ensures aside { (ways : Ways) (names : List (List ℕ)) (failed : Option ACall)
        (before after : Holding) (s t : State) (told now : List ACalled) (q : Path)
        → IsAsideOfAll names q
        → is_own q ≡ true
        → HaveBeenRemoved ways names failed before after s t told now
        → IsTrue t.honest
        → t.world q ≡ s.world q }
    ensures amid { (ways : Ways) (names : List (List ℕ)) (before : Holding)
        (s : State) (so_far : List Event) (now : World) (q : Path)
        → IsAsideOfAll names q
        → is_own q ≡ true
        → IsAmidRemovals ways names before s so_far now
        → now q ≡ s.world q }
    ensures opens { (ways : Ways) (names : List (List ℕ)) (before : Holding)
        (s : State) (so_far : List Event) (now : World)
        → IsAmidRemovals ways names before s so_far now
        → CanBeOpened now }
{
    what_a_run_of_stages_leaves();
    what_stages_leave();
}

/// The calls of removals are those of the host's own list, and each is told, whatever the answer.
pub fn what_removals_call()
    ensures removed { (ways : Ways) (names : List (List ℕ)) (failed : Option ACall)
        (before after : Holding) (s t : State) (told now : List ACalled)
        → HaveBeenRemoved ways names failed before after s t told now
        → TellsAll s t told now }
    ensures called { (ways : Ways) (names : List (List ℕ)) (before : Holding)
        (s t : State) (told now : List ACalled)
        → HaveCalled ways names before s t told now
        → TellsAll s t told now }
{
    what_a_run_of_stages_leaves();
    what_is_broken_off_begins_a_run_of_stages();
}
