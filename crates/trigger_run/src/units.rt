// The unit of one name, brought to the disk.
ghost use Rattle.std.specs.Prelude.{◌≡◌, ◌⊎◌, ◌∷◌, [], List, IfOk, OnOk, IfErr, None, Some};
ghost use Rattle.host_core.specs.Host.{AtEachMomentOf, Counts, Needs, NoFault};
ghost use Rattle.host_core.specs.Loss.{IsAnswered, IsOnDisk};
ghost use Rattle.held_administration.specs.Open.{IsOpen};
ghost use Rattle.held_administration.specs.Order.{IsInOrder};
ghost use Rattle.recorded_packages.specs.Packages.{ArePackagesOf};
ghost use Rattle.recorded_packages.specs.Renewal.{AreSameBut};
ghost use Rattle.status_db.specs.Order.{AreInOrder};
ghost use Rattle.status_records.specs.Records.{record_in};
ghost use Rattle.status_records.specs.declared.record.Record.{Record as ARecord};
ghost use Rattle.undo_rows.specs.Transcript.{TellsAll};
ghost use Rattle.unit_reports.specs.Held.{held_by};
ghost use Rattle.unit_reports.specs.Units.{CountsReply, IsBroken, IsBrokenBy, IsFromBefore, TellsNoPackage, touched_at};
ghost use Rattle.unit_reports.specs.declared.report.Breakage.TheVariants.{Abandoned, Closed, NoMemory};
ghost use Rattle.trigger_engine.specs.Units.{HasEnded, IsPending};
ghost use Rattle.trigger_run.specs.Needs.{IsLetBe};
ghost use Rattle.unit_runs.specs.declared.barring.Bar.TheVariants as bar;
ghost use Rattle.trigger_run.specs.Units.{Answers, HasCalledProcessing, HasCalledUnitOf, IsAmidProcessing, IsAmidUnitOf, IsBroughtToDisk, IsBrokenOff, IsProcessing, IsQuietUnit, IsUnitOf, reply_to};

use crate::needs::is_ready;
use diversions::Diversions;
use held_administration::Administration;
use host_core::{Call, Host, HostFault};
use recorded_packages::renew_one;
use relation_index::Packages;
use status_db::NotedDatabase;
use std::alloc::{AllocError, Global};
use texts::{Text, Texts};
use trigger_engine::process;
use undo_rows::{Called, Failure as Cause};
use unit_reports::{
    Breakage, Failure, Reply, Rule, Touched, Unit, breakage_of, broken, is_broken, refused,
    touched_at,
};
use unit_runs::{Bar, barred_unit};

// The reply to a unit of a package, by the call for which it failed.
fn reply_to(package: Text, failed: Option<Call>) -> Reply
    ensures { result ≡ reply_to «package» failed }
{
    match failed {
        None => Reply::Done,
        Some(call) => Reply::Failed(Failure {
            package,
            cause: Cause::OfCall(call),
        }),
    }
}

// Processes the triggers of a package, and brings all that was done to the disk.
fn process_to_disk<H: Host>(
    host: &mut H,
    administration: &mut Administration,
    diversions: &Diversions,
    name: &Text,
    told: &mut Vec<Called>,
) -> Result<Option<Call>, HostFault>
    requires order { Needs (H.state host.old)
        (IsInOrder administration.old.database administration.old.lists.lists) }
    requires open { IsOpen diversions.now.ways administration.old }
    requires pending { IsPending administration.old.database.records name.now }
    ensures unit { IfOk result (λ failed. IsBroughtToDisk name.now
        (held_by administration.old diversions.now) failed
        (held_by administration.new diversions.now) (H.state host.old) (H.state host.new)
        told.old.items told.new.items) }
    ensures end { IfOk result (λ failed. HasEnded name.now failed
        administration.old.database.records administration.new.database.records) }
    ensures order { IfOk result (λ failed. Needs (H.state host.new)
        (IsInOrder administration.new.database administration.new.lists.lists)) }
    ensures open { OnOk result (IsOpen diversions.now.ways administration.new) }
    ensures on_disk { OnOk result (IsOnDisk (H.state host.new).events) }
    ensures told { HasCalledProcessing name.now (held_by administration.old diversions.now)
        (H.state host.old) (H.state host.new) told.old.items told.new.items }
    ensures any_moment { AtEachMomentOf (IsAmidProcessing name.now
        (held_by administration.old diversions.now)) (H.state host.old) (H.state host.new) }
    ensures counts { Counts (H.state host.old) (H.state host.new) result }
{
    match process(host, administration, diversions, name, told) {
        Ok(failed) => match host.barrier() {
            Ok(()) => Ok(failed),
            Err(fault) => Err(fault),
        },
        Err(fault) => Err(fault),
    }
}

fn touched_alone(
    alloc: Global,
    database: &NotedDatabase,
    name: &Text,
) -> Result<Vec<Touched>, AllocError>
    ensures { IfOk result (λ touched. touched.items ≡ touched_at database.now.records name.now
        ∷ []) }
{
    let mut touched = Vec::new(alloc);
    touched.push(touched_at(database, name)?)?;
    Ok(touched)
}

// The unit of what was done.
fn answered(
    alloc: Global,
    database: &NotedDatabase,
    package: Text,
    failed: Option<Call>,
    calls: Vec<Called>,
) -> Unit
    ensures answer { IsBrokenBy NoMemory result.reply ⊎ Answers «package» database.now.records
        failed result }
    ensures told { result.calls.items ≡ calls.items }
    ensures untouched { IsBroken result.reply → TellsNoPackage result }
{
    match touched_alone(alloc, database, &package) {
        Ok(touched) => Unit {
            calls,
            touched,
            deconfigured: Texts::new(alloc),
            reply: reply_to(package, failed),
        },
        Err(_) => broken(alloc, calls, Breakage::NoMemory),
    }
}

// The unit of what was done, behind which the package is read anew.
fn finished(
    alloc: Global,
    packages: &mut Packages,
    database: &NotedDatabase,
    package: Text,
    failed: Option<Call>,
    calls: Vec<Called>,
) -> Unit
    ensures answer { IsBrokenBy NoMemory result.reply ⊎ Answers «package» database.now.records
        failed result }
    ensures told { result.calls.items ≡ calls.items }
    ensures untouched { IsBroken result.reply → TellsNoPackage result }
    ensures indexed { IsBroken result.reply ⊎ ((before : List ARecord) → AreInOrder before
        → ArePackagesOf before packages.old
        → AreSameBut («package» ∷ []) before database.now.records
        → ArePackagesOf database.now.records packages.new) }
{
    match renew_one(alloc, packages, database, &package) {
        Ok(()) => answered(alloc, database, package, failed, calls),
        Err(_) => broken(alloc, calls, Breakage::NoMemory),
    }
}

// The unit of a package whose triggers are to be processed.
fn process_named<H: Host>(
    host: &mut H,
    administration: &mut Administration,
    packages: &mut Packages,
    diversions: &Diversions,
    package: Text,
) -> Unit
    requires order { Needs (H.state host.old)
        (IsInOrder administration.old.database administration.old.lists.lists) }
    requires open { IsOpen diversions.now.ways administration.old }
    requires indexed { ArePackagesOf administration.old.database.records packages.old }
    requires pending { IsPending administration.old.database.records «package» }
    ensures unit { IsBroken result.reply ⊎ IsProcessing «package»
        (held_by administration.old diversions.now) (held_by administration.new diversions.now)
        result (H.state host.old) (H.state host.new) }
    ensures open { IsBroken result.reply ⊎ IsOpen diversions.now.ways administration.new }
    ensures indexed { IsBroken result.reply
        ⊎ ArePackagesOf administration.new.database.records packages.new }
    ensures answered { IsBroken result.reply ⊎ IsAnswered (H.state host.old) (H.state host.new) }
    ensures untouched { IsBroken result.reply → TellsNoPackage result }
    ensures told { HasCalledProcessing «package» (held_by administration.old diversions.now)
        (H.state host.old) (H.state host.new) [] result.calls.items }
    ensures any_moment { AtEachMomentOf (IsAmidProcessing «package»
        (held_by administration.old diversions.now)) (H.state host.old) (H.state host.new) }
    ensures counts { CountsReply (H.state host.old) (H.state host.new) result.reply }
    ensures not_closed { IsFromBefore result.reply → ⊥ }
{
    administration.database.law();
    let alloc = administration.alloc;
    let mut calls = Vec::new(alloc);
    match process_to_disk(host, administration, diversions, &package, &mut calls) {
        Ok(failed) => finished(
            alloc,
            packages,
            &administration.database,
            package,
            failed,
            calls,
        ),
        Err(fault) => broken(alloc, calls, breakage_of(fault)),
    }
}

// The unit of a name for which nothing is to be done.
fn passed_over(alloc: Global, database: &NotedDatabase, package: Text) -> Unit
    ensures unit { IsBrokenBy NoMemory result.reply ⊎ IsQuietUnit (record_in database.now.records
        «package») «package» database.now.records result }
    ensures told { result.calls.items ≡ [] }
    ensures untouched { IsBroken result.reply → TellsNoPackage result }
{
    if database.get(&package).is_none() {
        return refused(alloc, Rule::Unknown, package);
    }
    answered(alloc, database, package, None, Vec::new(alloc))
}

// The unit of a name, by the records.
fn unit_for<H: Host>(
    host: &mut H,
    administration: &mut Administration,
    packages: &mut Packages,
    diversions: &Diversions,
    package: Text,
) -> Unit
    requires order { Needs (H.state host.old)
        (IsInOrder administration.old.database administration.old.lists.lists) }
    requires open { IsOpen diversions.now.ways administration.old }
    requires indexed { ArePackagesOf administration.old.database.records packages.old }
    ensures unit { IsBroken result.reply ⊎ IsUnitOf «package»
        (held_by administration.old diversions.now) (held_by administration.new diversions.now)
        result (H.state host.old) (H.state host.new) }
    ensures order { IsBroken result.reply ⊎ Needs (H.state host.new)
        (IsInOrder administration.new.database administration.new.lists.lists) }
    ensures open { IsBroken result.reply ⊎ IsOpen diversions.now.ways administration.new }
    ensures indexed { IsBroken result.reply
        ⊎ ArePackagesOf administration.new.database.records packages.new }
    ensures answered { IsBroken result.reply ⊎ IsAnswered (H.state host.old) (H.state host.new) }
    ensures untouched { IsBroken result.reply → TellsNoPackage result }
    ensures told { HasCalledUnitOf «package» (held_by administration.old diversions.now)
        (H.state host.old) (H.state host.new) result }
    ensures any_moment { AtEachMomentOf (IsAmidUnitOf «package»
        (held_by administration.old diversions.now)) (H.state host.old) (H.state host.new) }
    ensures counts { CountsReply (H.state host.old) (H.state host.new) result.reply }
    ensures not_closed { IsFromBefore result.reply → ⊥ }
{
    let alloc = administration.alloc;
    match is_ready(alloc, &administration.database, packages, &package) {
        Ok(true) => process_named(host, administration, packages, diversions, package),
        Ok(false) => passed_over(alloc, &administration.database, package),
        Err(_) => broken(alloc, Vec::new(alloc), Breakage::NoMemory),
    }
}

/// The unit of a name, or the unit that was broken off, as it is where it isn't to be begun.
pub(crate) fn process_one<H: Host>(
    host: &mut H,
    administration: &mut Administration,
    packages: &mut Packages,
    diversions: &Diversions,
    package: Text,
    barred: Option<Bar>,
) -> Result<Unit, Unit>
    requires order { Needs (H.state host.old)
        (IsInOrder administration.old.database administration.old.lists.lists) }
    requires open { IsOpen diversions.now.ways administration.old }
    requires indexed { ArePackagesOf administration.old.database.records packages.old }
    ensures ok { IfOk result (λ unit. IsUnitOf «package»
        (held_by administration.old diversions.now) (held_by administration.new diversions.now)
        unit (H.state host.old) (H.state host.new)) }
    ensures barred { OnOk result (barred ≡ None) }
    ensures order { OnOk result (Needs (H.state host.new)
        (IsInOrder administration.new.database administration.new.lists.lists)) }
    ensures open { OnOk result (IsOpen diversions.now.ways administration.new) }
    ensures indexed { OnOk result (ArePackagesOf administration.new.database.records packages.new) }
    ensures answered { OnOk result (IsAnswered (H.state host.old) (H.state host.new)) }
    ensures broken_off { IfErr result (λ unit. IsBrokenOff «package»
        (held_by administration.old diversions.now) unit (H.state host.old) (H.state host.new)) }
    ensures told { IfOk result (λ unit. TellsAll (H.state host.old) (H.state host.new) []
        unit.calls.items) }
    ensures any_moment { AtEachMomentOf (IsAmidUnitOf «package»
        (held_by administration.old diversions.now)) (H.state host.old) (H.state host.new) }
    ensures no_fault { OnOk result (NoFault (H.state host.old) (H.state host.new)) }
    ensures counts { IfErr result (λ unit. CountsReply (H.state host.old) (H.state host.new)
        unit.reply) }
    ensures not_closed { IfErr result (λ unit. IsBrokenBy Closed unit.reply → ⊥) }
    ensures abandoned { IfErr result (λ unit. IsBrokenBy Abandoned unit.reply
        → barred ≡ Some bar.Abandoned) }
{
    if let Some(bar) = barred {
        return Err(barred_unit(administration.alloc, bar));
    }
    let unit = unit_for(host, administration, packages, diversions, package);
    if is_broken(&unit) {
        return Err(unit);
    }
    Ok(unit)
}
