// Units leave what is pending of packages that they don't tell.
ghost use Rattle.std.specs.Prelude.{◌++◌, ℕ, List};
ghost use Rattle.host_core.specs.Host.{State};
ghost use Rattle.status_records.specs.declared.record.Record.{Record as ARecord};
ghost use Rattle.configure_run.specs.Run.{IsConfigureRun};
ghost use Rattle.configure_run.specs.declared.options.ConfigureOptions.{ConfigureOptions as ConfigureAsked};
ghost use Rattle.dpkg_session.specs.Installs.{IsInstall};
ghost use Rattle.dpkg_session.specs.Run.{IsRun};
ghost use Rattle.dpkg_session.specs.declared.report.Candidate.{Candidate as ACandidate};
ghost use Rattle.removal_run.specs.Run.{IsRemovalRun};
ghost use Rattle.removal_run.specs.declared.options.RemovalOptions.{RemovalOptions as RemovalAsked};
ghost use Rattle.unpack_relations.specs.declared.options.UnpackOptions.{UnpackOptions as UnpackAsked};
ghost use Rattle.unit_reports.specs.Held.{Held};
ghost use Rattle.unit_reports.specs.declared.report.Unit.{Unit as AUnit};
ghost use Rattle.kept_activations.specs.Commands.{KeepsUntold, LeavesPending};

/// What is pending of a package stays so behind the units of an unpack, an install, a configure and a removal, unless one of them tells
/// the package; and so behind several of these, one after another. That is what is assumed of the units of a command.
pub fn units_leave_what_is_pending()
    ensures unpacked { (allowed : UnpackAsked) (cs : List ACandidate) (us : List AUnit)
        (before after : Held) (s t : State) → IsRun allowed cs us before after s t
        → KeepsUntold us before.records.records after.records.records }
    ensures installed { (allowed : UnpackAsked) (cs : List ACandidate) (options : ConfigureAsked)
        (unpacked configured : List AUnit) (before after : Held) (s t : State)
        → IsInstall allowed cs options unpacked configured before after s t
        → KeepsUntold (unpacked ++ configured) before.records.records after.records.records }
    ensures configured { (names : List (List ℕ)) (options : ConfigureAsked) (us : List AUnit)
        (before after : Held) (s t : State) → IsConfigureRun names options us before after s t
        → KeepsUntold us before.records.records after.records.records }
    ensures removed { (names : List (List ℕ)) (options : RemovalAsked) (us : List AUnit)
        (before after : Held) (s t : State) → IsRemovalRun names options us before after s t
        → KeepsUntold us before.records.records after.records.records }
    ensures joined { (us more : List AUnit) (first mid last : List ARecord)
        → KeepsUntold us first mid → KeepsUntold more mid last → KeepsUntold (us ++ more) first last }
    ensures leaves { (us : List AUnit) (old new : List ARecord) → KeepsUntold us old new
        → LeavesPending us old new }
{}
