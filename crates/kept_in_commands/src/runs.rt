// No file of another package is lost by a run of unpacks.
ghost use Rattle.std.specs.Prelude.{◌≡◌, IsTrue, List};
ghost use Rattle.host_core.specs.Host.{State as HostState};
ghost use Rattle.host_core.specs.Paths.{Path};
ghost use Rattle.host_core.specs.World.{IsLoose};
ghost use Rattle.file_lists.specs.declared.paths.Listed.{Listed};
ghost use Rattle.unit_reports.specs.Held.{Held};
ghost use Rattle.unit_reports.specs.declared.report.Unit.{Unit as AUnit};
ghost use Rattle.unpack_relations.specs.declared.options.UnpackOptions.{UnpackOptions as AnOptions};
ghost use Rattle.dpkg_session.specs.Run.{IsRun};
ghost use Rattle.dpkg_session.specs.declared.report.Candidate.{Candidate as ACandidate};
ghost use Rattle.kept_in_commands.specs.Commands.{Has, IsHeldThrough, IsPlaceOf};

/// Behind a run of units of several trees, done, failed or refused, a file or link at a place of a package stands as before, and that
/// package has the place still. That is so where each unit's package is another one, to which the first doesn't yield, and where its path
/// leads to the place also by the diversions and links that are read before each unit, which the scripts of the unit leave alone. That
/// the package has the place, and that the file stands there, is assumed before the first unit alone.
pub fn no_file_is_lost_by_unpacks()
    ensures kept { (allowed : AnOptions) (cs : List ACandidate) (us : List AUnit)
        (before after : Held) (s t : HostState) (owner : Listed) (q : Path)
        → IsPlaceOf owner before q → IsLoose (s.world q)
        → (run : IsRun allowed cs us before after s t)
        → IsHeldThrough owner allowed cs us before after s t run
        → IsTrue t.honest → t.world q ≡ s.world q }
    ensures held { (allowed : AnOptions) (cs : List ACandidate) (us : List AUnit)
        (before after : Held) (s t : HostState) (owner : Listed) (q : Path)
        → IsPlaceOf owner before q → (run : IsRun allowed cs us before after s t)
        → IsHeldThrough owner allowed cs us before after s t run → Has after q owner }
{}
