// Which scripts a unit of stages calls, and what stands at their files then.
ghost use Rattle.std.specs.Prelude.{◌≡◌, List, true};
ghost use Rattle.std.specs.List.{AllByRecursion};
ghost use Rattle.host_core.specs.Events.{Event, Ran};
ghost use Rattle.host_core.specs.World.{World};
ghost use Rattle.host_core.specs.declared.call.Call.{Call};
ghost use Rattle.unit_stages.specs.Calls.{MayRunStages};
ghost use Rattle.unit_stages.specs.declared.stage.Stage.{Stage};
ghost use Rattle.configure_engine.specs.Units.{Given as Configuring, IsAmid as IsAmidConfiguring, IsPlanOf as IsPlanOfConfiguring};
ghost use Rattle.removal_engine.specs.Units.{Given as Removing, IsAmid as IsAmidRemoving, IsPlanOf as IsPlanOfRemoving};
ghost use Rattle.stop_laws.specs.Called.{CallsStored, IsCallAmong};

/// The calls that may be made for stages are calls of these stages. Those of configuring, of a removal and of a purge are of scripts
/// that were stored with the package when the unit began. The file that such a call names is as it was then: in a removal or a purge as
/// long as a stage that has the call is not past; in configuring at each moment.
pub fn what_a_stored_script_holds()
    ensures calls { (stages : List Stage) (ts : List Ran) → MayRunStages stages ts
        → AllByRecursion (λ (t : Ran). IsCallAmong stages t.call) ts }
    ensures removal_calls { (g : Removing) (old : World) (stages : List Stage)
        → IsPlanOfRemoving g old true stages → (call : Call)
        → IsCallAmong stages call → CallsStored g.name old call }
    ensures configure_calls { (g : Configuring) (old : World) (stages : List Stage)
        → IsPlanOfConfiguring g old true stages → (call : Call)
        → IsCallAmong stages call → CallsStored g.name old call }
    ensures removal_files { (g : Removing) (old now : World) (so_far : List Event)
        (amid : IsAmidRemoving g old so_far now) (call : Call)
        → IsCallAmong amid.running.back call → now call.at ≡ old call.at }
    ensures configure_files { (g : Configuring) (old now : World) (so_far : List Event)
        (amid : IsAmidConfiguring g old so_far now) (call : Call)
        → IsCallAmong amid.stages call → now call.at ≡ old call.at }
{}
