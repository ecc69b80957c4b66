// One change.
ghost use Rattle.std.specs.Prelude.{◌≡◌, ◌⊎◌, [], ◌∷◌, IfErr, IfOk, None, OnOk, Some};
ghost use Rattle.diversions.specs.Diverted.{Diverted};
ghost use Rattle.held_administration.specs.Open.{CanWrite};
ghost use Rattle.held_administration.specs.Order.{IsInOrder};
ghost use Rattle.host_core.specs.Host.{AtEachMomentOf, Needs, NoFault, Silent};
ghost use Rattle.record_changes.specs.Taking.{HasDecided, MakesChange, packages_behind};
ghost use Rattle.record_changes.specs.Units.{IsAmidChange, IsAnsweredBy, reply_to};
ghost use Rattle.record_changes.specs.declared.units.Decided.TheVariants.{Changed};
ghost use Rattle.unit_reports.specs.Held.{held_by};
ghost use Rattle.unit_reports.specs.Units.{CountsReply, IsBroken, IsBrokenBy, IsFromBefore, IsRefusedUnit, TellsNoPackage, touched_at};
ghost use Rattle.unit_reports.specs.declared.refusal.Rule.TheVariants.{Unknown};
ghost use Rattle.unit_reports.specs.declared.report.Breakage.TheVariants.{Abandoned, Closed, NoMemory};
ghost use Rattle.unit_reports.specs.declared.report.Reply.TheVariants.{Done};
ghost use Rattle.unit_runs.specs.declared.barring.Bar.TheVariants as bar;

use crate::change::{Change, RecordChange};
use crate::changed::{changed, is_made};
use held_administration::Administration;
use host_core::Host;
use relation_index::Packages;
use status_db::{NotedDatabase, note_record};
use status_records::Record;
use std::alloc::{AllocError, Global};
use texts::{Text, Texts};
use unit_reports::{
    Breakage, Cycle, Reply, Rule, Touched, Unit, breakage_of, broken, is_broken, refused,
    touched_at,
};
use unit_runs::{Bar, barred_unit};

/// What is to be done of a change.
#[derive(Drop)]
pub(crate) enum Decided {
    /// The package has no record.
    Refused,
    /// It is made already.
    Made,
    /// This record is to be noted.
    Changed(Record),
}

fn decide(
    alloc: Global,
    database: &NotedDatabase,
    asked: &RecordChange,
) -> Result<Decided, AllocError>
    ensures { IfOk result (HasDecided asked.now database.now.records) }
{
    match database.get(&asked.name) {
        Some(entry) => {
            if is_made(&asked.change, entry) {
                return Ok(Decided::Made);
            }
            Ok(Decided::Changed(changed(alloc, &asked.change, entry)?))
        }
        None => Ok(Decided::Refused),
    }
}

fn touched_alone(
    alloc: Global,
    database: &NotedDatabase,
    name: &Text,
) -> Result<Vec<Touched>, AllocError>
    ensures { IfOk result (λ touched. touched.items ≡ touched_at database.now.records name.now
        ∷ []) }
{
    let mut touched = Vec::new(alloc);
    touched.push(touched_at(database, name)?)?;
    Ok(touched)
}

// Memory was wanting.
fn no_memory(alloc: Global) -> Unit
    ensures reply { IsBrokenBy NoMemory result.reply }
    ensures told { result.calls.items ≡ [] }
    ensures touched { TellsNoPackage result }
{
    broken(alloc, Vec::new(alloc), Breakage::NoMemory)
}

fn reply_to(asked: &RecordChange) -> Result<Reply, AllocError>
    ensures reply { IfOk result (λ reply. reply ≡ reply_to asked.now) }
    ensures whole { IfOk result (λ reply. IsBroken reply → ⊥) }
{
    match &asked.change {
        Change::Want(_) | Change::Activate(_) | Change::Await(_) => Ok(Reply::Done),
        Change::Abandon(trigger) => Ok(Reply::Looped(Cycle {
            package: asked.name.copy()?,
            trigger: trigger.copy()?,
        })),
    }
}

fn answered(alloc: Global, database: &NotedDatabase, name: &Text, reply: Reply) -> Unit
    requires { IsBroken reply → ⊥ }
    ensures unit { IsBrokenBy NoMemory result.reply ⊎ IsAnsweredBy reply name.now
        database.now.records result }
    ensures told { result.calls.items ≡ [] }
    ensures untouched { IsBroken result.reply → TellsNoPackage result }
{
    match touched_alone(alloc, database, name) {
        Ok(touched) => Unit {
            calls: Vec::new(alloc),
            touched,
            deconfigured: Texts::new(alloc),
            reply,
        },
        Err(_) => no_memory(alloc),
    }
}

// The unit of a package whose record was as is asked.
fn made(alloc: Global, database: &NotedDatabase, name: &Text) -> Unit
    ensures unit { IsBrokenBy NoMemory result.reply ⊎ IsAnsweredBy Done name.now
        database.now.records result }
    ensures told { result.calls.items ≡ [] }
    ensures untouched { IsBroken result.reply → TellsNoPackage result }
{
    answered(alloc, database, name, Reply::Done)
}

// The unit of a package whose record is as was asked by now.
fn noted(alloc: Global, database: &NotedDatabase, asked: &RecordChange) -> Unit
    ensures unit { IsBrokenBy NoMemory result.reply ⊎ IsAnsweredBy (reply_to asked.now)
        asked.now.name database.now.records result }
    ensures told { result.calls.items ≡ [] }
    ensures untouched { IsBroken result.reply → TellsNoPackage result }
{
    match reply_to(asked) {
        Ok(reply) => answered(alloc, database, &asked.name, reply),
        Err(_) => no_memory(alloc),
    }
}

// The unit of a package without a record.
fn unknown(alloc: Global, name: &Text) -> Unit
    ensures unit { IsBrokenBy NoMemory result.reply ⊎ IsRefusedUnit Unknown name.now result }
    ensures told { result.calls.items ≡ [] }
    ensures untouched { IsBroken result.reply → TellsNoPackage result }
{
    match name.copy() {
        Ok(name) => refused(alloc, Rule::Unknown, name),
        Err(_) => no_memory(alloc),
    }
}

// An abandoned package meets no relation any more, and one that awaits nothing any more meets some: what the packages state is to be
// read anew.
fn forget_changed(asked: &Change, packages: &mut Option<Packages>)
    ensures { packages.new ≡ packages_behind asked.now packages.old }
{
    match asked {
        Change::Want(_) | Change::Activate(_) => {}
        Change::Abandon(_) => *packages = None,
        Change::Await(_) => *packages = None,
    }
}

// Notes a changed record. It is on the disk behind that.
fn note<H: Host>(
    host: &mut H,
    administration: &mut Administration,
    asked: &RecordChange,
    entry: Record,
) -> Unit
    requires writes { CanWrite administration.old }
    requires order { Needs (H.state host.old)
        (IsInOrder administration.old.database administration.old.lists.lists) }
    requires decided { HasDecided asked.now administration.old.database.records (Changed entry) }
    ensures unit { IsBroken result.reply ⊎ MakesChange asked.now administration.old administration.new
        result (H.state host.old) (H.state host.new) }
    ensures untouched { IsBroken result.reply → TellsNoPackage result }
    ensures told { result.calls.items ≡ [] }
    ensures silent { Silent (H.state host.old) (H.state host.new) }
    ensures any_moment { (diverted : Diverted) → AtEachMomentOf (IsAmidChange asked.now
        (held_by administration.old diverted)) (H.state host.old) (H.state host.new) }
    ensures counts { CountsReply (H.state host.old) (H.state host.new) result.reply }
    ensures not_closed { IsFromBefore result.reply → ⊥ }
{
    administration.database.law();
    let alloc = administration.alloc;
    match note_record(alloc, host, &mut administration.database, entry) {
        Ok(()) => {
            forget_changed(&asked.change, &mut administration.packages);
            noted(alloc, &administration.database, asked)
        }
        Err(fault) => broken(alloc, Vec::new(alloc), breakage_of(fault)),
    }
}

// The unit of a change.
fn change_named<H: Host>(
    host: &mut H,
    administration: &mut Administration,
    asked: &RecordChange,
) -> Unit
    requires writes { CanWrite administration.old }
    requires order { Needs (H.state host.old)
        (IsInOrder administration.old.database administration.old.lists.lists) }
    ensures unit { IsBroken result.reply ⊎ MakesChange asked.now administration.old administration.new
        result (H.state host.old) (H.state host.new) }
    ensures untouched { IsBroken result.reply → TellsNoPackage result }
    ensures told { result.calls.items ≡ [] }
    ensures silent { Silent (H.state host.old) (H.state host.new) }
    ensures any_moment { (diverted : Diverted) → AtEachMomentOf (IsAmidChange asked.now
        (held_by administration.old diverted)) (H.state host.old) (H.state host.new) }
    ensures counts { CountsReply (H.state host.old) (H.state host.new) result.reply }
    ensures not_closed { IsFromBefore result.reply → ⊥ }
{
    let alloc = administration.alloc;
    match decide(alloc, &administration.database, asked) {
        Ok(Decided::Changed(entry)) => note(host, administration, asked, entry),
        Ok(Decided::Made) => made(alloc, &administration.database, &asked.name),
        Ok(Decided::Refused) => unknown(alloc, &asked.name),
        Err(_) => no_memory(alloc),
    }
}

/// The unit of a change, or the unit that was broken off, as it is where it isn't to be begun.
pub(crate) fn change_one<H: Host>(
    host: &mut H,
    administration: &mut Administration,
    asked: &RecordChange,
    barred: Option<Bar>,
) -> Result<Unit, Unit>
    requires writes { CanWrite administration.old }
    requires order { Needs (H.state host.old)
        (IsInOrder administration.old.database administration.old.lists.lists) }
    ensures ok { IfOk result (λ unit. MakesChange asked.now administration.old administration.new
        unit (H.state host.old) (H.state host.new)) }
    ensures barred { OnOk result (barred ≡ None) }
    ensures err { IfErr result (λ unit. IsBroken unit.reply × TellsNoPackage unit) }
    ensures told { IfOk result (λ unit. unit.calls.items ≡ []) }
    ensures told_broken { IfErr result (λ unit. unit.calls.items ≡ []) }
    ensures silent { Silent (H.state host.old) (H.state host.new) }
    ensures any_moment { (diverted : Diverted) → AtEachMomentOf (IsAmidChange asked.now
        (held_by administration.old diverted)) (H.state host.old) (H.state host.new) }
    ensures no_fault { OnOk result (NoFault (H.state host.old) (H.state host.new)) }
    ensures counts { IfErr result (λ unit. CountsReply (H.state host.old) (H.state host.new)
        unit.reply) }
    ensures not_closed { IfErr result (λ unit. IsBrokenBy Closed unit.reply → ⊥) }
    ensures abandoned { IfErr result (λ unit. IsBrokenBy Abandoned unit.reply
        → barred ≡ Some bar.Abandoned) }
{
    if let Some(bar) = barred {
        return Err(barred_unit(administration.alloc, bar));
    }
    let unit = change_named(host, administration, asked);
    if is_broken(&unit) {
        return Err(unit);
    }
    Ok(unit)
}
