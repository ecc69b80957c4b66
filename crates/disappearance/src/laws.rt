// What packages that disappear leave.
ghost use Rattle.std.specs.Prelude.{◌≡◌, ℕ, IsTrue, List, Option, true};
ghost use Rattle.host_core.specs.Paths.{Path, is_own};
ghost use Rattle.host_core.specs.World.{World};
ghost use Rattle.host_core.specs.Events.{Event};
ghost use Rattle.host_core.specs.Host.{State};
ghost use Rattle.host_core.specs.Loss.{IsLater};
ghost use Rattle.host_core.specs.declared.call.Call.{Call as ACall};
ghost use Rattle.undo_rows.specs.Transcript.{TellsAll};
ghost use Rattle.undo_rows.specs.declared.rows.Called.{Called as ACalled};
ghost use Rattle.diversions.specs.Ways.{Ways};
ghost use Rattle.unit_stages.specs.Holding.{Holding};
ghost use Rattle.disappearance.specs.Runs.{HaveCalled, HaveDisappeared, IsAmidDisappearances, IsAsideOfAll};
ghost use Rattle.disappearance.specs.Units.{CanBeOpened, IsInOrderWith};
ghost use Rattle.disappearance.specs.declared.losing.Losing.{Losing as ALosing};

use unit_stages::what_stages_leave;

/// Packages that disappear leave an administration in order. In the end and at each moment of it a place of the program's own is as
/// before, unless it is a record's or one of these packages', and the next opening finds records.
pub fn what_disappearances_leave()
    ensures later { (incoming version : List ℕ) (ways : Ways) (losing : List ALosing)
        (names : List (List ℕ)) (failed : Option ACall) (before after : Holding) (s t : State)
        (told now : List ACalled)
        → HaveDisappeared incoming version ways losing names failed before after s t told now
        → IsLater s t }
    ensures order { (incoming version : List ℕ) (ways : Ways) (losing : List ALosing)
        (names : List (List ℕ)) (failed : Option ACall) (before after : Holding) (s t : State)
        (told now : List ACalled)
        → HaveDisappeared incoming version ways losing names failed before after s t told now
        → IsTrue t.honest
        → IsInOrderWith before s.world
        → IsInOrderWith after t.world }
    ensures aside { (incoming version : List ℕ) (ways : Ways) (losing : List ALosing)
        (names : List (List ℕ)) (failed : Option ACall) (before after : Holding) (s t : State)
        (told now : List ACalled) (q : Path)
        → IsAsideOfAll losing q
        → is_own q ≡ true
        → HaveDisappeared incoming version ways losing names failed before after s t told now
        → IsTrue t.honest
        → t.world q ≡ s.world q }
    ensures amid { (incoming version : List ℕ) (ways : Ways) (losing : List ALosing)
        (before : Holding) (s : State) (so_far : List Event) (now : World) (q : Path)
        → IsAsideOfAll losing q
        → is_own q ≡ true
        → IsAmidDisappearances incoming version ways losing before s so_far now
        → now q ≡ s.world q }
    ensures opens { (incoming version : List ℕ) (ways : Ways) (losing : List ALosing)
        (before : Holding) (s : State) (so_far : List Event) (now : World)
        → IsAmidDisappearances incoming version ways losing before s so_far now
        → CanBeOpened now }
{
    what_stages_leave();
}

/// The calls of packages that disappear are those of the host's own list, and each is told, whatever the answer.
pub fn what_disappearances_call()
    ensures disappeared { (incoming version : List ℕ) (ways : Ways)
        (losing : List ALosing) (names : List (List ℕ)) (failed : Option ACall)
        (before after : Holding) (s t : State) (told now : List ACalled)
        → HaveDisappeared incoming version ways losing names failed before after s t told now
        → TellsAll s t told now }
    ensures called { (incoming version : List ℕ) (ways : Ways) (losing : List ALosing)
        (before : Holding) (s t : State) (told now : List ACalled)
        → HaveCalled incoming version ways losing before s t told now
        → TellsAll s t told now }
{}
