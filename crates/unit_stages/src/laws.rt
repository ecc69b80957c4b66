// What runs of stages leave.
ghost use Rattle.std.specs.Prelude.{◌≡◌, ◌++◌, ℕ, List, Option, None, IsTrue, true};
ghost use Rattle.host_core.specs.Paths.{Path, is_own};
ghost use Rattle.host_core.specs.World.{World};
ghost use Rattle.host_core.specs.Events.{Event, Ran};
ghost use Rattle.host_core.specs.Host.{State, calls};
ghost use Rattle.host_core.specs.Loss.{IsLater};
ghost use Rattle.host_core.specs.declared.call.Call.{Call as ACall};
ghost use Rattle.undo_rows.specs.Transcript.{Tells};
ghost use Rattle.undo_rows.specs.declared.rows.Called.{Called as ACalled};
ghost use Rattle.undo_rows.specs.Telling.{Begun, Made};
ghost use Rattle.diversions.specs.Ways.{Ways};
ghost use Rattle.unit_stages.specs.Aside.{IsAside};
ghost use Rattle.unit_stages.specs.Calls.{AreCallsOf, MayRunStages};
ghost use Rattle.unit_stages.specs.Ends.{IsLeftBy};
ghost use Rattle.unit_stages.specs.Fitting.{AreStagesFit};
ghost use Rattle.unit_stages.specs.Holding.{Holding};
ghost use Rattle.unit_stages.specs.Running.{AreRunning};
ghost use Rattle.unit_stages.specs.Runs.{HaveRun};
ghost use Rattle.unit_stages.specs.declared.stage.Stage.{Stage as AStage};

/// A run of stages leaves the records and the lists that the notes of its stages give: of all where none failed, else of those up to
/// the one that failed, with what was done then. Its calls are those that are legal for the stages, each was told, and the host's own
/// list of calls has grown by them.
pub fn what_a_run_of_stages_leaves()
    ensures left { (name : List ℕ) (ways : Ways) (stages : List AStage)
        (failed : Option ACall) (before after : Holding) (s t : State) (told now : List ACalled)
        → HaveRun name ways stages failed before after s t told now
        → IsLeftBy name stages failed before after }
    ensures made { (name : List ℕ) (ways : Ways) (stages : List AStage)
        (failed : Option ACall) (before after : Holding) (s t : State) (told now : List ACalled)
        → HaveRun name ways stages failed before after s t told now
        → Made (AreCallsOf stages failed) s t told now }
    ensures calls { (name : List ℕ) (ways : Ways) (stages : List AStage)
        (failed : Option ACall) (before after : Holding) (s t : State) (told now : List ACalled)
        → HaveRun name ways stages failed before after s t told now
        → (ts : List Ran)
        × (calls t ≡ calls s ++ ts)
        × (AreCallsOf stages failed ts × Tells ts told now) }
    ensures later { (name : List ℕ) (ways : Ways) (stages : List AStage)
        (failed : Option ACall) (before after : Holding) (s t : State) (told now : List ACalled)
        → HaveRun name ways stages failed before after s t told now
        → IsLater s t }
{}

/// Where a run is broken off, the calls that were made and told are the first of some that are legal for its stages.
pub fn what_is_broken_off_begins_a_run_of_stages()
    ensures calls { (stages : List AStage) (a b : State) (told now : List ACalled)
        → Begun (MayRunStages stages) a b told now
        → (ts more : List Ran)
        × (calls b ≡ calls a ++ ts)
        × (MayRunStages stages (ts ++ more) × Tells ts told now) }
{}

/// In the end and at each moment of stages that fit, a place of the program's own is as before, unless it is a record's or the
/// package's.
pub fn what_stages_leave()
    ensures run { (name : Path) (ways : Ways) (stages : List AStage)
        (failed : Option ACall) (before after : Holding) (s t : State) (told now : List ACalled)
        (q : Path)
        → IsAside name q
        → is_own q ≡ true
        → AreStagesFit name stages before.records before.lists
        → HaveRun name ways stages failed before after s t told now
        → IsTrue t.honest
        → t.world q ≡ s.world q }
    ensures running { (name : Path) (ways : Ways) (stages : List AStage) (h : Holding)
        (old now : World) (so_far : List Event) (q : Path)
        → IsAside name q
        → is_own q ≡ true
        → AreStagesFit name stages h.records h.lists
        → AreRunning name ways stages h old so_far now
        → now q ≡ old q }
{}
