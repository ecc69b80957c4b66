// All units of a configure.
ghost use Rattle.std.specs.Prelude.{◌≡◌, ◌++◌, [], Some, IfErr, IfOk, IfSome, IsNone, IsTrue, OnErr, OnOk};
ghost use Rattle.dependency_sets.specs.Sets.{has};
ghost use Rattle.held_administration.specs.Open.{IsOpen};
ghost use Rattle.host_core.specs.Host.{Needs, Since, NoFault};
ghost use Rattle.host_core.specs.Looks.{Looks};
ghost use Rattle.host_core.specs.Loss.{IsAnswered};
ghost use Rattle.recorded_packages.specs.Packages.{ArePackagesOf};
ghost use Rattle.held_administration.specs.Order.{IsInOrder};
ghost use Rattle.unit_reports.specs.Held.{held_by};
ghost use Rattle.unit_reports.specs.Units.{CountsLast, CountsReply, IsBrokenBy, TellsCalls, calls_of};
ghost use Rattle.unit_reports.specs.declared.report.Breakage.TheVariants.{Abandoned, Closed};
ghost use Rattle.unit_reports.specs.Watching.{AddsTold, IsTold};
ghost use Rattle.undo_rows.specs.Transcript.{TellsAll};
ghost use Rattle.name_sets.specs.Names.{each_once};
ghost use Rattle.configure_run.specs.Early.{AreRefused, AreSomeRefused, early_refusals};
ghost use Rattle.configure_run.specs.Run.{HasRun, IsAmidRun, IsConfigureRun};
ghost use Rattle.configure_run.specs.Starting.{AreSilent, IsBegun};
ghost use Rattle.configure_run.specs.Turns.{EndTurns, IsAmidTurns, StopTurns};

use crate::all_turns::run_turns;
use crate::early::refuse_early;
use crate::options::ConfigureOptions;
use crate::queue::Queue;
use crate::starting::silent_of;
use crate::unit::no_memory;
use diversions::Diversions;
use held_administration::Administration;
use host_core::{Host, HostFault};
use name_sets::each_once;
use recorded_packages::renew;
use relation_index::Packages;
use status_db::NotedDatabase;
use std::alloc::{AllocError, Global};
use std::mem;
use texts::Text;
use unit_reports::{Report, Unit, Watcher, breakage_of, broken};

// Refuses the packages that can't wait, each once.
fn refuse_first<H: Host, W: Watcher>(
    alloc: Global,
    host: &H,
    database: &NotedDatabase,
    names: &[Text],
    units: &mut Vec<Unit>,
    watcher: &mut W,
) -> Result<(), AllocError>
    requires none { units.old.items ≡ [] }
    ensures ok { OnOk result (AreRefused (early_refusals database.now.records (each_once names.now))
        units.new.items) }
    ensures err { OnErr result (AreSomeRefused (early_refusals database.now.records
        (each_once names.now)) units.new.items) }
    ensures watched { AddsTold W.tells (H.state host.now) units.old.items units.new.items
        watcher.old watcher.new }
{
    let list = each_once(alloc, names)?;
    refuse_early(alloc, host, database, list.as_slice(), units, watcher)?;
    Ok(())
}

// The queue of the packages that wait, for which the packages are taken, and which of these have no postinst.
fn begun<H: Host>(
    alloc: Global,
    host: &mut H,
    database: &NotedDatabase,
    packages: &mut Packages,
    names: &[Text],
) -> Result<(Queue, Vec<bool>), HostFault>
    requires indexed { ArePackagesOf database.now.records packages.old }
    ensures begun { IfOk result (λ both. IsBegun names.now database.now.records both.0) }
    ensures looks { Looks result (λ both w. AreSilent w both.0 (has both.1.items)) (H.state host.old)
        (H.state host.new) }
{
    let taken = mem::replace(packages, Packages::new(alloc));
    let queue = Queue::of(alloc, database, taken, names)?;
    match silent_of(alloc, host, names, database.records()) {
        Ok(silent) => Ok((queue, silent)),
        Err(fault) => Err(fault),
    }
}

// All turns and the refusals of those left over, or the unit that was broken off; then the packages are given back, those of
// the names as they are recorded now.
fn run_and_renew<H: Host, W: Watcher>(
    host: &mut H,
    administration: &mut Administration,
    packages: &mut Packages,
    diversions: &Diversions,
    names: &[Text],
    options: ConfigureOptions,
    queue: Queue,
    silent: Vec<bool>,
    units: &mut Vec<Unit>,
    watcher: &mut W,
) -> Result<(), Unit>
    requires open { IsOpen diversions.now.ways administration.old }
    requires begun { IsBegun names.now administration.old.database.records queue }
    requires order { Needs (H.state host.old)
        (IsInOrder administration.old.database administration.old.lists.lists) }
    ensures ok { OnOk result (EndTurns options (has silent.items) queue
        (held_by administration.old diversions.now) (H.state host.old) units.old.items
        units.new.items (held_by administration.new diversions.now) (H.state host.new)) }
    ensures indexed { OnOk result (ArePackagesOf administration.new.database.records packages.new) }
    ensures answered { OnOk result (IsAnswered (H.state host.old) (H.state host.new)) }
    ensures order { OnOk result (Needs (H.state host.new)
        (IsInOrder administration.new.database administration.new.lists.lists)) }
    ensures open { OnOk result (IsOpen diversions.now.ways administration.new) }
    ensures err { IfErr result (λ unit. StopTurns options (has silent.items) queue
        (held_by administration.old diversions.now) (H.state host.old) units.old.items
        units.new.items (Some unit) (H.state host.new)) }
    ensures told { OnOk result (TellsAll (H.state host.old) (H.state host.new)
        (calls_of units.old.items) (calls_of units.new.items)) }
    ensures told_broken { IfErr result (λ unit. TellsAll (H.state host.old) (H.state host.new)
        (calls_of units.old.items) (calls_of units.new.items ++ unit.calls.items)) }
    ensures any_moment { Since (IsAmidTurns options (has silent.items) queue
        (held_by administration.old diversions.now) (H.state host.old)) (H.state host.old)
        (H.state host.new) }
    ensures no_fault { OnOk result (NoFault (H.state host.old) (H.state host.new)) }
    ensures counts { IfErr result (λ unit. CountsReply (H.state host.old) (H.state host.new)
        unit.reply) }
    ensures not_closed { IfErr result (λ unit. IsBrokenBy Closed unit.reply → ⊥) }
    ensures abandoned { IfErr result (λ unit. IsBrokenBy Abandoned unit.reply
        → IsTrue (W.ends watcher.new)) }
    ensures watched { AddsTold W.tells (H.state host.old) units.old.items units.new.items
        watcher.old watcher.new }
{
    administration.database.law();
    let alloc = administration.alloc;
    match run_turns(
        host,
        administration,
        diversions,
        options,
        queue,
        silent,
        units,
        watcher,
    ) {
        Ok(back) => {
            *packages = back;
            match renew(alloc, packages, &administration.database, names) {
                Ok(()) => Ok(()),
                Err(_) => Err(no_memory(alloc)),
            }
        }
        Err(unit) => Err(unit),
    }
}

// All units of a configure, or the one that was broken off.
fn run_all<H: Host, W: Watcher>(
    host: &mut H,
    administration: &mut Administration,
    packages: &mut Packages,
    diversions: &Diversions,
    names: &[Text],
    options: ConfigureOptions,
    units: &mut Vec<Unit>,
    watcher: &mut W,
) -> Result<(), Unit>
    requires none { units.old.items ≡ [] }
    requires indexed { ArePackagesOf administration.old.database.records packages.old }
    requires open { IsOpen diversions.now.ways administration.old }
    requires order { Needs (H.state host.old)
        (IsInOrder administration.old.database administration.old.lists.lists) }
    ensures ok { OnOk result (IsConfigureRun names.now options units.new.items
        (held_by administration.old diversions.now) (held_by administration.new diversions.now)
        (H.state host.old) (H.state host.new)) }
    ensures indexed { OnOk result (ArePackagesOf administration.new.database.records packages.new) }
    ensures err { IfErr result (λ unit. HasRun names.now options units.new.items (Some unit)
        (held_by administration.old diversions.now) (H.state host.old) (H.state host.new)) }
    ensures answered { OnOk result (IsAnswered (H.state host.old) (H.state host.new)) }
    ensures order { OnOk result (Needs (H.state host.new)
        (IsInOrder administration.new.database administration.new.lists.lists)) }
    ensures open { OnOk result (IsOpen diversions.now.ways administration.new) }
    ensures told { OnOk result (TellsAll (H.state host.old) (H.state host.new) []
        (calls_of units.new.items)) }
    ensures told_broken { IfErr result (λ unit. TellsAll (H.state host.old) (H.state host.new) []
        (calls_of units.new.items ++ unit.calls.items)) }
    ensures any_moment { Since (IsAmidRun names.now options
        (held_by administration.old diversions.now) (H.state host.old)) (H.state host.old)
        (H.state host.new) }
    ensures no_fault { OnOk result (NoFault (H.state host.old) (H.state host.new)) }
    ensures counts { IfErr result (λ unit. CountsReply (H.state host.old) (H.state host.new)
        unit.reply) }
    ensures not_closed { IfErr result (λ unit. IsBrokenBy Closed unit.reply → ⊥) }
    ensures abandoned { IfErr result (λ unit. IsBrokenBy Abandoned unit.reply
        → IsTrue (W.ends watcher.new)) }
    ensures watched { AddsTold W.tells (H.state host.old) units.old.items units.new.items
        watcher.old watcher.new }
{
    let alloc = administration.alloc;
    match refuse_first(alloc, host, &administration.database, names, units, watcher) {
        Ok(()) => match begun(alloc, host, &administration.database, packages, names) {
            Ok((queue, silent)) => match run_and_renew(
                host,
                administration,
                packages,
                diversions,
                names,
                options,
                queue,
                silent,
                units,
                watcher,
            ) {
                Ok(()) => Ok(()),
                Err(unit) => Err(unit),
            },
            Err(fault) => Err(broken(alloc, Vec::new(alloc), breakage_of(fault))),
        },
        Err(_) => Err(no_memory(alloc)),
    }
}

/// Configures packages: those that can't wait are refused, in the order in which they are named; then each is
/// configured at its turn, as what it depends on is; and those that are left over are refused. Each unit is told as it is
/// finished; the one that was broken off is not. The packages may be gone behind a unit that was broken off.
pub fn configure_packages<H: Host, W: Watcher>(
    host: &mut H,
    administration: &mut Administration,
    packages: &mut Packages,
    diversions: &Diversions,
    names: Vec<Text>,
    options: ConfigureOptions,
    watcher: &mut W,
) -> Report
    requires indexed { ArePackagesOf administration.old.database.records packages.old }
    requires open { IsOpen diversions.now.ways administration.old }
    requires order { Needs (H.state host.old)
        (IsInOrder administration.old.database administration.old.lists.lists) }
    ensures whole { IsNone result.last → IsConfigureRun names.items options result.units.items
        (held_by administration.old diversions.now) (held_by administration.new diversions.now)
        (H.state host.old) (H.state host.new) }
    ensures part { HasRun names.items options result.units.items result.last
        (held_by administration.old diversions.now) (H.state host.old) (H.state host.new) }
    ensures told { TellsCalls (H.state host.old) (H.state host.new) result }
    ensures any_moment { Since (IsAmidRun names.items options
        (held_by administration.old diversions.now) (H.state host.old)) (H.state host.old)
        (H.state host.new) }
    ensures answered { IsNone result.last → IsAnswered (H.state host.old) (H.state host.new) }
    ensures order { IsNone result.last → Needs (H.state host.new)
        (IsInOrder administration.new.database administration.new.lists.lists) }
    ensures open { IsNone result.last → IsOpen diversions.now.ways administration.new }
    ensures indexed { IsNone result.last → ArePackagesOf administration.new.database.records
        packages.new }
    ensures counts { CountsLast (H.state host.old) (H.state host.new) result.last }
    ensures not_closed { IfSome result.last (λ unit. IsBrokenBy Closed unit.reply → ⊥) }
    ensures abandoned { IfSome result.last (λ unit. IsBrokenBy Abandoned unit.reply
        → IsTrue (W.ends watcher.new)) }
    ensures watched { IsTold W.tells (H.state host.old) watcher.old result.units.items watcher.new }
{
    let mut units = Vec::new(administration.alloc);
    match run_all(
        host,
        administration,
        packages,
        diversions,
        names.as_slice(),
        options,
        &mut units,
        watcher,
    ) {
        Ok(()) => Report { units, last: None },
        Err(unit) => Report {
            units,
            last: Some(unit),
        },
    }
}
