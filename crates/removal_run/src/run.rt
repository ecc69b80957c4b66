// A removal or a purge of packages, as a whole.
ghost use Rattle.std.specs.Prelude.{◌≡◌, ◌++◌, [], ℕ, IfOk, OnOk, OnErr, IfSome, IsNone, IsTrue, map};
ghost use Rattle.std.specs.List.{AllByRecursion};
ghost use Rattle.dependency_check.specs.Waiting.{IsRemovableNow};
ghost use Rattle.host_core.specs.Host.{Needs, Since};
ghost use Rattle.host_core.specs.Loss.{IsAnswered};
ghost use Rattle.held_administration.specs.Open.{IsOpen};
ghost use Rattle.name_sets.specs.Names.{each_once};
ghost use Rattle.removal_run.specs.Refusals.{AreRefused, accepted, refusals};
ghost use Rattle.recorded_packages.specs.Packages.{ArePackagesOf};
ghost use Rattle.removal_run.specs.Run.{AddsLeft, AreRenewed, EndsAs, HasRun, IsAmidRun, IsRemovalRun, RunsThrough, RunsUpTo};
ghost use Rattle.removal_run.specs.Waiting.{is_named};
ghost use Rattle.removal_run.specs.Turns.{AreAccepted, IsAmidTurns};
ghost use Rattle.held_administration.specs.Order.{IsInOrder};
ghost use Rattle.unit_reports.specs.Held.{held_by};
ghost use Rattle.unit_reports.specs.Units.{CountsLast, IsBrokenBy, IsRefusal, TellsCalls, calls_of};
ghost use Rattle.unit_reports.specs.Watching.{AddsTold, IsTold};
ghost use Rattle.unit_reports.specs.declared.report.Breakage.TheVariants.{Abandoned, Closed};

use crate::extents::Extents;
use crate::left::left_over;
use crate::options::RemovalOptions;
use crate::refusals::{Sorted, sort};
use crate::telling::tell_all;
use crate::turns::run_turns;
use dependency_check::RemoveQueue;
use diversions::Diversions;
use held_administration::Administration;
use host_core::Host;
use name_sets::each_once;
use recorded_packages::renew;
use relation_index::Packages;
use status_db::NotedDatabase;
use std::alloc::{AllocError, Global};
use texts::Text;
use unit_reports::{Breakage, Report, Unit, Watcher, broken};

// The names once each, by whether a rule refuses them.
fn sorted(
    alloc: Global,
    extents: Extents,
    database: &NotedDatabase,
    names: Vec<Text>,
) -> Result<Sorted, AllocError>
    ensures refused { IfOk result (λ sorted. AreRefused (refusals extents database.now.records
        (each_once names.items)) sorted.refused.items) }
    ensures waiting { IfOk result (λ sorted. sorted.waiting.items ≡ accepted extents
        database.now.records (each_once names.items)) }
    ensures asked { IfOk result (λ sorted. sorted.asked.items ≡ sorted.waiting.items) }
{
    let list = each_once(alloc, names.as_slice())?;
    sort(alloc, extents, database, list)
}

// Units behind others, all of them or none: they are told once there is room for them.
fn append<H: Host, W: Watcher>(
    host: &H,
    units: &mut Vec<Unit>,
    more: Vec<Unit>,
    watcher: &mut W,
) -> Result<(), AllocError>
    requires quiet { calls_of more.items ≡ [] }
    requires refused { AllByRecursion (λ unit. IsRefusal unit.reply) more.items }
    ensures ok { OnOk result (units.new.items ≡ units.old.items ++ more.items) }
    ensures err { OnErr result (units.new.items ≡ units.old.items) }
    ensures watched { AddsTold W.tells (H.state host.now) units.old.items units.new.items
        watcher.old watcher.new }
{
    let mut more = more;
    units.reserve(more.len())?;
    tell_all(host, more.as_slice(), watcher);
    units.append(&mut more).unwrap();
    Ok(())
}

// The packages go back, and those of which something was asked are read anew.
fn give_back(
    alloc: Global,
    queue: RemoveQueue,
    packages: &mut Packages,
    database: &NotedDatabase,
    asked: &[Text],
) -> Result<(), AllocError>
    ensures { OnOk result (AreRenewed asked.now database.now.records queue.packages packages.new) }
{
    *packages = queue.into_packages();
    renew(alloc, packages, database, asked)?;
    Ok(())
}

// The units of those that are left over, behind the others, once the packages are given back.
fn tell_left<H: Host, W: Watcher>(
    alloc: Global,
    host: &H,
    queue: RemoveQueue,
    waiting: &[Text],
    packages: &mut Packages,
    database: &NotedDatabase,
    asked: &[Text],
    units: &mut Vec<Unit>,
    watcher: &mut W,
) -> Result<(), AllocError>
    requires queue { queue.waiting ≡ map (is_named waiting.now) queue.packages }
    requires none { (x : ℕ) → IsRemovableNow queue x → ⊥ }
    ensures ok { OnOk result (AddsLeft queue units.old.items units.new.items) }
    ensures err { OnErr result (units.new.items ≡ units.old.items) }
    ensures renewed { OnOk result (AreRenewed asked.now database.now.records queue.packages
        packages.new) }
    ensures watched { AddsTold W.tells (H.state host.now) units.old.items units.new.items
        watcher.old watcher.new }
{
    let left = left_over(alloc, &queue, waiting)?;
    give_back(alloc, queue, packages, database, asked)?;
    append(host, units, left, watcher)
}

// The report of units behind which those that are left over are told.
fn ended<H: Host, W: Watcher>(
    alloc: Global,
    host: &H,
    queue: RemoveQueue,
    waiting: &[Text],
    packages: &mut Packages,
    database: &NotedDatabase,
    asked: &[Text],
    mut units: Vec<Unit>,
    watcher: &mut W,
) -> Report
    requires queue { queue.waiting ≡ map (is_named waiting.now) queue.packages }
    requires none { (x : ℕ) → IsRemovableNow queue x → ⊥ }
    ensures ends { EndsAs queue units.items result }
    ensures renewed { IsNone result.last → AreRenewed asked.now database.now.records queue.packages
        packages.new }
    ensures watched { AddsTold W.tells (H.state host.now) units.items result.units.items
        watcher.old watcher.new }
{
    match tell_left(
        alloc, host, queue, waiting, packages, database, asked, &mut units, watcher,
    ) {
        Ok(()) => Report { units, last: None },
        Err(_) => Report {
            units,
            last: Some(broken(alloc, Vec::new(alloc), Breakage::NoMemory)),
        },
    }
}

// The report of a command whose names are sorted.
fn run_sorted<H: Host, W: Watcher>(
    host: &mut H,
    administration: &mut Administration,
    packages: &mut Packages,
    diversions: &Diversions,
    options: RemovalOptions,
    sorted: Sorted,
    watcher: &mut W,
) -> Report
    requires order { Needs (H.state host.old)
        (IsInOrder administration.old.database administration.old.lists.lists) }
    requires open { IsOpen diversions.now.ways administration.old }
    requires accepted { AreAccepted options.extents administration.old.database.records sorted.waiting.items }
    requires told { calls_of sorted.refused.items ≡ [] }
    requires refused { AllByRecursion (λ unit. IsRefusal unit.reply) sorted.refused.items }
    requires asked { sorted.asked.items ≡ sorted.waiting.items }
    requires indexed { ArePackagesOf administration.old.database.records packages.old }
    ensures whole { IsNone result.last → RunsThrough options sorted.waiting.items sorted.refused.items
        result.units.items (held_by administration.old diversions.now)
        (held_by administration.new diversions.now) (H.state host.old) (H.state host.new) }
    ensures part { RunsUpTo options sorted.waiting.items sorted.refused.items result.units.items
        result.last (held_by administration.old diversions.now) (H.state host.old)
        (H.state host.new) }
    ensures told { TellsCalls (H.state host.old) (H.state host.new) result }
    ensures any_moment { Since (IsAmidTurns options packages.old sorted.waiting.items
        (held_by administration.old diversions.now) (H.state host.old)) (H.state host.old)
        (H.state host.new) }
    ensures counts { CountsLast (H.state host.old) (H.state host.new) result.last }
    ensures not_closed { IfSome result.last (λ unit. IsBrokenBy Closed unit.reply → ⊥) }
    ensures abandoned { IfSome result.last (λ unit. IsBrokenBy Abandoned unit.reply
        → IsTrue (W.ends watcher.new)) }
    ensures order { IsNone result.last → Needs (H.state host.new)
        (IsInOrder administration.new.database administration.new.lists.lists) }
    ensures open { IsNone result.last → IsOpen diversions.now.ways administration.new }
    ensures indexed { IsNone result.last → ArePackagesOf administration.new.database.records
        packages.new }
    ensures answered { IsNone result.last → IsAnswered (H.state host.old) (H.state host.new) }
    ensures watched { IsTold W.tells (H.state host.old) watcher.old result.units.items watcher.new }
{
    let Sorted {
        refused: mut units,
        waiting,
        asked,
    } = sorted;
    tell_all(host, units.as_slice(), watcher);
    administration.database.law();
    let alloc = administration.alloc;
    let taken = std::mem::replace(packages, Packages::new(alloc));
    match run_turns(
        host,
        administration,
        taken,
        diversions,
        options,
        waiting,
        &mut units,
        watcher,
    ) {
        Ok((queue, left)) => ended(
            alloc,
            host,
            queue,
            left.as_slice(),
            packages,
            &administration.database,
            asked.as_slice(),
            units,
            watcher,
        ),
        Err(unit) => Report {
            units,
            last: Some(unit),
        },
    }
}

/// Removes packages, or purges them, as it is told for all or recorded of each. A second mention of a name is dropped. First those that a rule refuses are told, in the
/// order given; then packages are removed one after another, each the next of those that can be removed as all are recorded
/// then; those left over are told last, each with a package that depends on it. The watcher is told each unit as it is
/// finished; the one that was broken off it isn't told. The packages are those of all records, and are so again behind the
/// command; behind a unit that was broken off they may be any.
pub fn remove_packages<H: Host, W: Watcher>(
    host: &mut H,
    administration: &mut Administration,
    packages: &mut Packages,
    diversions: &Diversions,
    names: Vec<Text>,
    options: RemovalOptions,
    watcher: &mut W,
) -> Report
    requires order { Needs (H.state host.old)
        (IsInOrder administration.old.database administration.old.lists.lists) }
    requires open { IsOpen diversions.now.ways administration.old }
    requires indexed { ArePackagesOf administration.old.database.records packages.old }
    ensures whole { IsNone result.last → IsRemovalRun names.items options result.units.items
        (held_by administration.old diversions.now) (held_by administration.new diversions.now)
        (H.state host.old) (H.state host.new) }
    ensures part { HasRun names.items options result.units.items result.last
        (held_by administration.old diversions.now) (H.state host.old) (H.state host.new) }
    ensures told { TellsCalls (H.state host.old) (H.state host.new) result }
    ensures any_moment { Since (IsAmidRun names.items options
        (held_by administration.old diversions.now) (H.state host.old)) (H.state host.old)
        (H.state host.new) }
    ensures counts { CountsLast (H.state host.old) (H.state host.new) result.last }
    ensures not_closed { IfSome result.last (λ unit. IsBrokenBy Closed unit.reply → ⊥) }
    ensures abandoned { IfSome result.last (λ unit. IsBrokenBy Abandoned unit.reply
        → IsTrue (W.ends watcher.new)) }
    ensures order { IsNone result.last → Needs (H.state host.new)
        (IsInOrder administration.new.database administration.new.lists.lists) }
    ensures open { IsNone result.last → IsOpen diversions.now.ways administration.new }
    ensures indexed { IsNone result.last → ArePackagesOf administration.new.database.records
        packages.new }
    ensures answered { IsNone result.last → IsAnswered (H.state host.old) (H.state host.new) }
    ensures watched { IsTold W.tells (H.state host.old) watcher.old result.units.items watcher.new }
{
    let alloc = administration.alloc;
    match sorted(alloc, options.extents, &administration.database, names) {
        Ok(sorted) => run_sorted(
            host,
            administration,
            packages,
            diversions,
            options,
            sorted,
            watcher,
        ),
        Err(_) => Report {
            units: Vec::new(alloc),
            last: Some(broken(alloc, Vec::new(alloc), Breakage::NoMemory)),
        },
    }
}
