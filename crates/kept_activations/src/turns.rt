// What comes of triggers that are pending.
ghost use Rattle.std.specs.Prelude.{◌≡◌, ℕ, Bool, List, None};
ghost use Rattle.host_core.specs.Host.{State};
ghost use Rattle.command_line.specs.Triggering.{HasProcessed};
ghost use Rattle.unit_reports.specs.Held.{Held};
ghost use Rattle.unit_reports.specs.declared.report.Report.{Report as AReport};
ghost use Rattle.kept_activations.specs.Pending.{IsPending};
ghost use Rattle.kept_activations.specs.Processing.{IsKept};

/// From the notes to the end of the command, in which the journal is emptied and triggers are processed turn after turn, none that was
/// pending is lost: it is pending in the end; or one of the units processed it; or the package was given up, and is half-configured.
pub fn what_is_pending_is_processed()
    ensures { (wanted : Bool) (names : List (List ℕ)) (done : AReport) (before after : Held)
        (s end : State) (owner trigger : List ℕ)
        → HasProcessed wanted names None done before after s end → done.last ≡ None
        → IsPending before.records.records owner trigger
        → IsKept after.records.records done.units.items owner trigger }
{}
