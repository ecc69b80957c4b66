// No file of another package is lost by removals.
ghost use Rattle.std.specs.Prelude.{◌≡◌, ℕ, List, Option, IsTrue};
ghost use Rattle.host_core.specs.Events.{Event};
ghost use Rattle.host_core.specs.Host.{State as HostState};
ghost use Rattle.host_core.specs.Paths.{Path};
ghost use Rattle.host_core.specs.World.{World};
ghost use Rattle.unit_reports.specs.Held.{Held};
ghost use Rattle.unit_reports.specs.declared.report.Unit.{Unit as AUnit};
ghost use Rattle.removal_run.specs.Run.{HasRun, IsAmidRun, IsRemovalRun};
ghost use Rattle.removal_run.specs.declared.options.RemovalOptions.{RemovalOptions as AnOptions};
ghost use Rattle.kept_in_commands.specs.Commands.{IsUnnamedPlace};

/// What stands at a place of a package that a removal or a purge of packages doesn't name stands as before: behind the whole command,
/// whatever each unit of it answered; behind one of which a unit was broken off; and at each moment of it.
pub fn no_file_is_lost_by_removals()
    ensures whole { (names : List (List ℕ)) (options : AnOptions) (us : List AUnit)
        (before after : Held) (s t : HostState) (q : Path)
        → IsUnnamedPlace before names q → IsRemovalRun names options us before after s t
        → IsTrue t.honest → t.world q ≡ s.world q }
    ensures part { (names : List (List ℕ)) (options : AnOptions) (us : List AUnit)
        (last : Option AUnit) (before : Held) (s t : HostState) (q : Path)
        → IsUnnamedPlace before names q → HasRun names options us last before s t
        → IsTrue t.honest → t.world q ≡ s.world q }
    ensures moments { (names : List (List ℕ)) (options : AnOptions) (before : Held)
        (s : HostState) (so_far : List Event) (now : World) (q : Path)
        → IsUnnamedPlace before names q → IsAmidRun names options before s so_far now
        → now q ≡ s.world q }
{}
