// Laws of commands given one after another.
ghost use Rattle.std.specs.Prelude.{List};
ghost use Rattle.host_core.specs.Paths.{is_own};
ghost use Rattle.host_core.specs.World.{World, SameOn};
ghost use Rattle.unit_reports.specs.Held.{Held};
ghost use Rattle.dpkg_session.specs.History.{IsHistory, Ran, Stands};

/// After any commands (unpacks, installs, packages that are configured, removed or purged, records
/// that are changed, triggers that are processed, diversions that are added or taken away, notes
/// that are merged at their end) the administration stands for the records, lists and diversions
/// that the last of them left, so that a further command finds them, whatever has changed at other
/// paths than the program's own.
pub fn history_stands()
    ensures outside { (h : Held) (old new : World) → SameOn is_own old new → Stands h old
        → Stands h new }
    ensures history { (commands : List Ran) (before after : Held) (old new : World)
        → IsHistory commands before after old new → Stands before old → Stands after new }
{}
