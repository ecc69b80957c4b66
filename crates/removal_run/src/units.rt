// The removal of one package, brought to the disk.
ghost use Rattle.std.specs.Prelude.{◌≡◌, ◌⊎◌, ◌∷◌, [], IfOk, OnOk, IfErr, None, Some};
ghost use Rattle.host_core.specs.Host.{AtEachMomentOf, Counts, Needs, NoFault};
ghost use Rattle.host_core.specs.Loss.{IsAnswered, IsOnDisk};
ghost use Rattle.held_administration.specs.Open.{IsOpen};
ghost use Rattle.held_administration.specs.Order.{IsInOrder};
ghost use Rattle.unit_reports.specs.Held.{held_by};
ghost use Rattle.unit_reports.specs.Units.{CountsReply, IsBroken, IsBrokenBy, IsFromBefore, TellsNoPackage, touched_at};
ghost use Rattle.unit_reports.specs.declared.report.Breakage.TheVariants.{Abandoned, Closed, NoMemory};
ghost use Rattle.removal_run.specs.Refusals.{rule_for};
ghost use Rattle.removal_run.specs.Units.{Answers, AreOthersKept, HasCalledRemoving, IsAmidRemoval, IsBroughtToDisk, IsBrokenOff, IsRemoval, RunsRemoval, extent_of, reply_to};
ghost use Rattle.undo_rows.specs.Transcript.{TellsAll};
ghost use Rattle.unit_runs.specs.declared.barring.Bar.TheVariants as bar;

use diversions::Diversions;
use held_administration::Administration;
use host_core::{Call, Host, HostFault};
use removal_engine::{Extent, remove};
use status_db::NotedDatabase;
use std::alloc::{AllocError, Global};
use texts::{Text, Texts};
use undo_rows::{Called, Failure as Cause};
use unit_reports::{
    Breakage, Failure, Reply, Touched, Unit, breakage_of, broken, is_broken, touched_at,
};
use unit_runs::{Bar, barred_unit};

// The reply to a unit of a package, by the call for which it failed.
fn reply_to(package: Text, failed: Option<Call>) -> Reply
    ensures { result ≡ reply_to «package» failed }
{
    match failed {
        None => Reply::Done,
        Some(call) => Reply::Failed(Failure {
            package,
            cause: Cause::OfCall(call),
        }),
    }
}

fn extent_of(purge: bool) -> Extent
    ensures { result ≡ extent_of purge }
{
    if purge { Extent::Purge } else { Extent::Remove }
}

// Removes a package, and brings all that was done to the disk.
fn remove_to_disk<H: Host>(
    host: &mut H,
    administration: &mut Administration,
    diversions: &Diversions,
    name: &Text,
    purge: bool,
    told: &mut Vec<Called>,
) -> Result<Option<Call>, HostFault>
    requires order { Needs (H.state host.old)
        (IsInOrder administration.old.database administration.old.lists.lists) }
    requires open { IsOpen diversions.now.ways administration.old }
    requires accepted { rule_for purge administration.old.database.records name.now ≡ None }
    ensures unit { IfOk result (λ failed. IsBroughtToDisk purge name.now
        (held_by administration.old diversions.now) failed
        (held_by administration.new diversions.now) (H.state host.old) (H.state host.new)
        told.old.items told.new.items) }
    ensures order { IfOk result (λ failed. Needs (H.state host.new)
        (IsInOrder administration.new.database administration.new.lists.lists)) }
    ensures open { OnOk result (IsOpen diversions.now.ways administration.new) }
    ensures others { OnOk result (AreOthersKept name.now administration.old.database.records
        administration.new.database.records) }
    ensures on_disk { OnOk result (IsOnDisk (H.state host.new).events) }
    ensures told { HasCalledRemoving purge name.now (held_by administration.old diversions.now)
        (H.state host.old) (H.state host.new) told.old.items told.new.items }
    ensures any_moment { AtEachMomentOf (IsAmidRemoval purge name.now
        (held_by administration.old diversions.now)) (H.state host.old) (H.state host.new) }
    ensures counts { Counts (H.state host.old) (H.state host.new) result }
{
    let extent = extent_of(purge);
    match remove(host, administration, diversions, name, extent, told) {
        Ok(failed) => match host.barrier() {
            Ok(()) => Ok(failed),
            Err(fault) => Err(fault),
        },
        Err(fault) => Err(fault),
    }
}

fn touched_alone(
    alloc: Global,
    database: &NotedDatabase,
    name: &Text,
) -> Result<Vec<Touched>, AllocError>
    ensures { IfOk result (λ touched. touched.items ≡ touched_at database.now.records name.now
        ∷ []) }
{
    let mut touched = Vec::new(alloc);
    touched.push(touched_at(database, name)?)?;
    Ok(touched)
}

// The unit of what was removed.
fn answered(
    alloc: Global,
    database: &NotedDatabase,
    package: Text,
    failed: Option<Call>,
    calls: Vec<Called>,
) -> Unit
    ensures answer { IsBrokenBy NoMemory result.reply ⊎ Answers «package» database.now.records
        failed result }
    ensures told { result.calls.items ≡ calls.items }
    ensures untouched { IsBroken result.reply → TellsNoPackage result }
{
    match touched_alone(alloc, database, &package) {
        Ok(touched) => Unit {
            calls,
            touched,
            deconfigured: Texts::new(alloc),
            reply: reply_to(package, failed),
        },
        Err(_) => broken(alloc, calls, Breakage::NoMemory),
    }
}

// The unit of a package of this name.
fn remove_named<H: Host>(
    host: &mut H,
    administration: &mut Administration,
    diversions: &Diversions,
    package: Text,
    purge: bool,
) -> Unit
    requires order { Needs (H.state host.old)
        (IsInOrder administration.old.database administration.old.lists.lists) }
    requires open { IsOpen diversions.now.ways administration.old }
    requires accepted { rule_for purge administration.old.database.records «package» ≡ None }
    ensures unit { IsBroken result.reply ⊎ IsRemoval purge «package»
        (held_by administration.old diversions.now) (held_by administration.new diversions.now)
        result (H.state host.old) (H.state host.new) }
    ensures open { IsBroken result.reply ⊎ IsOpen diversions.now.ways administration.new }
    ensures others { IsBroken result.reply ⊎ AreOthersKept «package»
        administration.old.database.records administration.new.database.records }
    ensures answered { IsBroken result.reply ⊎ IsAnswered (H.state host.old) (H.state host.new) }
    ensures untouched { IsBroken result.reply → TellsNoPackage result }
    ensures told { HasCalledRemoving purge «package» (held_by administration.old diversions.now)
        (H.state host.old) (H.state host.new) [] result.calls.items }
    ensures any_moment { AtEachMomentOf (IsAmidRemoval purge «package»
        (held_by administration.old diversions.now)) (H.state host.old) (H.state host.new) }
    ensures counts { CountsReply (H.state host.old) (H.state host.new) result.reply }
    ensures not_closed { IsFromBefore result.reply → ⊥ }
{
    let alloc = administration.alloc;
    let mut calls = Vec::new(alloc);
    match remove_to_disk(
        host,
        administration,
        diversions,
        &package,
        purge,
        &mut calls,
    ) {
        Ok(failed) => answered(alloc, &administration.database, package, failed, calls),
        Err(fault) => broken(alloc, calls, breakage_of(fault)),
    }
}

/// The unit of a package, or the unit that was broken off, as it is where it isn't to be begun.
pub(crate) fn remove_one<H: Host>(
    host: &mut H,
    administration: &mut Administration,
    diversions: &Diversions,
    package: Text,
    purge: bool,
    barred: Option<Bar>,
) -> Result<Unit, Unit>
    requires order { Needs (H.state host.old)
        (IsInOrder administration.old.database administration.old.lists.lists) }
    requires open { IsOpen diversions.now.ways administration.old }
    requires accepted { rule_for purge administration.old.database.records «package» ≡ None }
    ensures ok { IfOk result (λ unit. RunsRemoval purge «package»
        (held_by administration.old diversions.now) (held_by administration.new diversions.now)
        unit (H.state host.old) (H.state host.new)) }
    ensures barred { OnOk result (barred ≡ None) }
    ensures open { OnOk result (IsOpen diversions.now.ways administration.new) }
    ensures others { OnOk result (AreOthersKept «package» administration.old.database.records
        administration.new.database.records) }
    ensures broken_off { IfErr result (λ unit. IsBrokenOff purge «package»
        (held_by administration.old diversions.now) unit (H.state host.old) (H.state host.new)) }
    ensures told { IfOk result (λ unit. TellsAll (H.state host.old) (H.state host.new) []
        unit.calls.items) }
    ensures any_moment { AtEachMomentOf (IsAmidRemoval purge «package»
        (held_by administration.old diversions.now)) (H.state host.old) (H.state host.new) }
    ensures no_fault { OnOk result (NoFault (H.state host.old) (H.state host.new)) }
    ensures counts { IfErr result (λ unit. CountsReply (H.state host.old) (H.state host.new)
        unit.reply) }
    ensures not_closed { IfErr result (λ unit. IsBrokenBy Closed unit.reply → ⊥) }
    ensures abandoned { IfErr result (λ unit. IsBrokenBy Abandoned unit.reply
        → barred ≡ Some bar.Abandoned) }
{
    if let Some(bar) = barred {
        return Err(barred_unit(administration.alloc, bar));
    }
    let unit = remove_named(host, administration, diversions, package, purge);
    if is_broken(&unit) {
        return Err(unit);
    }
    Ok(unit)
}
