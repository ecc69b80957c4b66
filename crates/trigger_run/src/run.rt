// The triggers of packages processed, as a whole.
ghost use Rattle.std.specs.Prelude.{◌≡◌, [], IfSome, IsNone, IsTrue};
ghost use Rattle.host_core.specs.Host.{Needs, Since};
ghost use Rattle.host_core.specs.Loss.{IsAnswered};
ghost use Rattle.held_administration.specs.Open.{IsOpen};
ghost use Rattle.held_administration.specs.Order.{IsInOrder};
ghost use Rattle.recorded_packages.specs.Packages.{ArePackagesOf};
ghost use Rattle.trigger_run.specs.Run.{HasRun, IsAmidRun, IsTriggerRun, RunsUpTo};
ghost use Rattle.trigger_run.specs.Turns.{IsAmidTurns, ProcessesTo};
ghost use Rattle.unit_reports.specs.Held.{held_by};
ghost use Rattle.unit_reports.specs.Units.{CountsLast, IsBrokenBy, TellsCalls};
ghost use Rattle.unit_reports.specs.Watching.{IsTold};
ghost use Rattle.unit_reports.specs.declared.report.Breakage.TheVariants.{Abandoned, Closed};

use crate::names::once;
use crate::turns::run_turns;
use diversions::Diversions;
use held_administration::Administration;
use host_core::Host;
use relation_index::Packages;
use std::mem;
use texts::Text;
use unit_reports::{Breakage, Report, Watcher, broken};

// The units of these names.
fn process_each<H: Host, W: Watcher>(
    host: &mut H,
    administration: &mut Administration,
    packages: &mut Packages,
    diversions: &Diversions,
    names: Vec<Text>,
    watcher: &mut W,
) -> Report
    requires order { Needs (H.state host.old)
        (IsInOrder administration.old.database administration.old.lists.lists) }
    requires open { IsOpen diversions.now.ways administration.old }
    requires indexed { ArePackagesOf administration.old.database.records packages.old }
    ensures whole { IsNone result.last → ProcessesTo names.items
        (held_by administration.old diversions.now) (H.state host.old) result.units.items []
        (held_by administration.new diversions.now) (H.state host.new) }
    ensures part { RunsUpTo names.items result.units.items result.last
        (held_by administration.old diversions.now) (H.state host.old) (H.state host.new) }
    ensures told { TellsCalls (H.state host.old) (H.state host.new) result }
    ensures any_moment { Since (IsAmidTurns names.items
        (held_by administration.old diversions.now) (H.state host.old)) (H.state host.old)
        (H.state host.new) }
    ensures counts { CountsLast (H.state host.old) (H.state host.new) result.last }
    ensures not_closed { IfSome result.last (λ unit. IsBrokenBy Closed unit.reply → ⊥) }
    ensures abandoned { IfSome result.last (λ unit. IsBrokenBy Abandoned unit.reply
        → IsTrue (W.ends watcher.new)) }
    ensures order { IsNone result.last → Needs (H.state host.new)
        (IsInOrder administration.new.database administration.new.lists.lists) }
    ensures open { IsNone result.last → IsOpen diversions.now.ways administration.new }
    ensures indexed { IsNone result.last → ArePackagesOf administration.new.database.records
        packages.new }
    ensures answered { IsNone result.last → IsAnswered (H.state host.old) (H.state host.new) }
    ensures watched { IsTold W.tells (H.state host.old) watcher.old result.units.items watcher.new }
{
    let alloc = administration.alloc;
    let taken = mem::replace(packages, Packages::new(alloc));
    let mut units = Vec::new(alloc);
    match run_turns(
        host,
        administration,
        taken,
        diversions,
        names,
        &mut units,
        watcher,
    ) {
        Ok(left) => {
            *packages = left;
            Report { units, last: None }
        }
        Err(unit) => Report {
            units,
            last: Some(unit),
        },
    }
}

/// Processes the triggers of packages, one after another in the order of these names; a second mention of a name is dropped. Of
/// each those that are pending at its turn are processed, if what it needs is there: where none is pending, or it isn't, the unit
/// tells the package and has done nothing; a package without a record is refused. The watcher is told each unit as it is finished;
/// the one that was broken off it isn't told. The packages are those of all records, and are so again behind the command; behind a
/// unit that was broken off they may be any.
pub fn process_packages<H: Host, W: Watcher>(
    host: &mut H,
    administration: &mut Administration,
    packages: &mut Packages,
    diversions: &Diversions,
    names: Vec<Text>,
    watcher: &mut W,
) -> Report
    requires order { Needs (H.state host.old)
        (IsInOrder administration.old.database administration.old.lists.lists) }
    requires open { IsOpen diversions.now.ways administration.old }
    requires indexed { ArePackagesOf administration.old.database.records packages.old }
    ensures whole { IsNone result.last → IsTriggerRun names.items result.units.items
        (held_by administration.old diversions.now) (held_by administration.new diversions.now)
        (H.state host.old) (H.state host.new) }
    ensures part { HasRun names.items result.units.items result.last
        (held_by administration.old diversions.now) (H.state host.old) (H.state host.new) }
    ensures told { TellsCalls (H.state host.old) (H.state host.new) result }
    ensures any_moment { Since (IsAmidRun names.items (held_by administration.old diversions.now)
        (H.state host.old)) (H.state host.old) (H.state host.new) }
    ensures counts { CountsLast (H.state host.old) (H.state host.new) result.last }
    ensures not_closed { IfSome result.last (λ unit. IsBrokenBy Closed unit.reply → ⊥) }
    ensures abandoned { IfSome result.last (λ unit. IsBrokenBy Abandoned unit.reply
        → IsTrue (W.ends watcher.new)) }
    ensures order { IsNone result.last → Needs (H.state host.new)
        (IsInOrder administration.new.database administration.new.lists.lists) }
    ensures open { IsNone result.last → IsOpen diversions.now.ways administration.new }
    ensures indexed { IsNone result.last → ArePackagesOf administration.new.database.records
        packages.new }
    ensures answered { IsNone result.last → IsAnswered (H.state host.old) (H.state host.new) }
    ensures watched { IsTold W.tells (H.state host.old) watcher.old result.units.items watcher.new }
{
    let alloc = administration.alloc;
    match once(alloc, names) {
        Ok(names) => process_each(host, administration, packages, diversions, names, watcher),
        Err(_) => Report {
            units: Vec::new(alloc),
            last: Some(broken(alloc, Vec::new(alloc), Breakage::NoMemory)),
        },
    }
}
