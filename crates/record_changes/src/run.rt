// All changes of a command.
ghost use Rattle.std.specs.Prelude.{IfSome, IsNone, IsTrue};
ghost use Rattle.held_administration.specs.Open.{IsOpen};
ghost use Rattle.held_administration.specs.Order.{IsInOrder};
ghost use Rattle.host_core.specs.Host.{Needs, Silent, Since};
ghost use Rattle.host_core.specs.Loss.{IsAnswered};
ghost use Rattle.recorded_packages.specs.Packages.{ArePackagesOf};
ghost use Rattle.record_changes.specs.Run.{HasRun, IsAmidRun, IsChangeRun};
ghost use Rattle.unit_reports.specs.Held.{held_by};
ghost use Rattle.unit_reports.specs.Units.{CountsLast, IsBrokenBy, TellsCalls};
ghost use Rattle.unit_reports.specs.Watching.{IsTold};
ghost use Rattle.unit_reports.specs.declared.report.Breakage.TheVariants.{Abandoned, Closed};

use crate::change::RecordChange;
use crate::turns::Changing;
use diversions::Diversions;
use held_administration::Administration;
use host_core::Host;
use unit_reports::{Report, Watcher};
use unit_runs::run_units;

/// Changes records, one after another: what is wanted of packages, which triggers they are to process, whose are abandoned, and what they
/// await. The watcher is told each unit as it is finished; the one that was broken off it isn't told.
pub fn change_records<H: Host, W: Watcher>(
    host: &mut H,
    administration: &mut Administration,
    diversions: &Diversions,
    changes: Vec<RecordChange>,
    watcher: &mut W,
) -> Report
    requires order { Needs (H.state host.old)
        (IsInOrder administration.old.database administration.old.lists.lists) }
    requires open { IsOpen diversions.now.ways administration.old }
    requires indexed { IfSome administration.old.packages
        (ArePackagesOf administration.old.database.records) }
    ensures whole { IsNone result.last → IsChangeRun changes.items result.units.items
        (held_by administration.old diversions.now) (held_by administration.new diversions.now)
        (H.state host.old) (H.state host.new) }
    ensures part { HasRun changes.items result.units.items result.last
        (held_by administration.old diversions.now) (H.state host.old) (H.state host.new) }
    ensures told { TellsCalls (H.state host.old) (H.state host.new) result }
    ensures any_moment { Since (IsAmidRun changes.items
        (held_by administration.old diversions.now) (H.state host.old)) (H.state host.old)
        (H.state host.new) }
    ensures silent { Silent (H.state host.old) (H.state host.new) }
    ensures counts { CountsLast (H.state host.old) (H.state host.new) result.last }
    ensures not_closed { IfSome result.last (λ unit. IsBrokenBy Closed unit.reply → ⊥) }
    ensures abandoned { IfSome result.last (λ unit. IsBrokenBy Abandoned unit.reply
        → IsTrue (W.ends watcher.new)) }
    ensures order { IsNone result.last → Needs (H.state host.new)
        (IsInOrder administration.new.database administration.new.lists.lists) }
    ensures open { IsNone result.last → IsOpen diversions.now.ways administration.new }
    ensures indexed { IsNone result.last → IfSome administration.new.packages
        (ArePackagesOf administration.new.database.records) }
    ensures answered { IsNone result.last → IsAnswered (H.state host.old) (H.state host.new) }
    ensures watched { IsTold W.tells (H.state host.old) watcher.old result.units.items watcher.new }
{
    let mut units = Vec::new(administration.alloc);
    let mut turns = Changing {
        diversions,
        changes,
        next: 0,
    };
    match run_units(host, administration, &mut turns, &mut units, watcher) {
        Ok(()) => Report { units, last: None },
        Err(unit) => Report {
            units,
            last: Some(unit),
        },
    }
}
