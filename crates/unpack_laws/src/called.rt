// What stands at the file that a script call names.
ghost use Rattle.std.specs.Prelude.{List};
ghost use Rattle.std.specs.List.{AllByRecursion};
ghost use Rattle.host_core.specs.Events.{Event, Ran};
ghost use Rattle.host_core.specs.Paths.{Path};
ghost use Rattle.host_core.specs.World.{World};
ghost use Rattle.host_core.specs.declared.call.Call.{Call};
ghost use Rattle.undo_rows.specs.declared.rows.Row.{Row};
ghost use Rattle.undo_rows.specs.Transcripts.{MayRun};
ghost use Rattle.unpack_engine.specs.Units.{Given, IsAmid, ground_of};
ghost use Rattle.unpack_laws.specs.Called.{AreCalling, HasScript, IsCallAmong, OthersCallStored};

/// The calls that may be made for rows are calls of these rows. At each moment of an unpack's rows from its first call on the file
/// that a call of them names holds its script, with its access: the one that was stored with its package when the unit began, or
/// that of the tree. So it does when the call is made.
pub fn what_a_called_script_holds()
    ensures calls { (rows : List Row) (ts : List Ran) → MayRun rows ts
        → AllByRecursion (λ (t : Ran). IsCallAmong rows t.call) ts }
    ensures files { (g : Given) (places : List Path) (old now : World) (so_far : List Event)
        (amid : IsAmid g places old so_far now) (call : Call)
        → OthersCallStored g old → AreCalling (ground_of g places) amid.plan old so_far now
        → IsCallAmong amid.plan.rows call → HasScript g.«package».scripts old now call }
{}
