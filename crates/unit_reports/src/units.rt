// Units, and what they tell of packages.
ghost use Rattle.std.specs.Prelude.{◌≡◌, IfOk, OnOk, MatchBool, map};
ghost use Rattle.file_lists.specs.Owners.{places_in};
ghost use Rattle.status_records.specs.Records.{record_in};
ghost use Rattle.unit_reports.specs.Units.{IsBroken, IsBrokenBy, IsRefusedUnit, TellsNoPackage, breakage_of, touched_at};

use crate::refusal::{Refusal, Rule};
use crate::report::{Breakage, Reply, Touched, Unit};
use diversions::Diversions;
use file_lists::FileLists;
use host_core::{HostFault, Places};
use status_db::NotedDatabase;
use status_records::Record;
use std::alloc::{AllocError, Global};
use texts::{Text, Texts};
use undo_rows::Called;

/// The record of a package, copied.
pub fn record_of(database: &NotedDatabase, name: &Text) -> Result<Option<Record>, AllocError>
    ensures { IfOk result (λ entry. entry ≡ record_in database.now.records name.now) }
{
    match database.get(name) {
        Some(entry) => Ok(Some(entry.copy()?)),
        None => Ok(None),
    }
}

/// A package with its record.
pub fn touched_at(database: &NotedDatabase, name: &Text) -> Result<Touched, AllocError>
    ensures { IfOk result (λ touched. touched ≡ touched_at database.now.records name.now) }
{
    Ok(Touched {
        package: name.copy()?,
        entry: record_of(database, name)?,
    })
}

/// Packages with their records, in order.
pub fn touched_of(
    alloc: Global,
    database: &NotedDatabase,
    names: &[Text],
) -> Result<Vec<Touched>, AllocError>
    ensures { IfOk result (λ touched. touched.items ≡ map (touched_at database.now.records)
        names.now) }
{
    let mut touched = Vec::new(alloc);
    for name in names {
        touched.push(touched_at(database, name)?)?;
    }
    Ok(touched)
}

/// A unit that was broken off behind these calls: no package is told.
pub fn broken(alloc: Global, calls: Vec<Called>, breakage: Breakage) -> Unit
    ensures reply { IsBrokenBy breakage result.reply }
    ensures told { result.calls.items ≡ calls.items }
    ensures touched { TellsNoPackage result }
{
    Unit {
        calls,
        touched: Vec::new(alloc),
        deconfigured: Texts::new(alloc),
        reply: Reply::Broken(breakage),
    }
}

/// The unit that is refused by a rule: no call is told, and no package.
pub fn refused(alloc: Global, rule: Rule, package: Text) -> Unit
    ensures { IsRefusedUnit rule «package» result }
{
    Unit {
        calls: Vec::new(alloc),
        touched: Vec::new(alloc),
        deconfigured: Texts::new(alloc),
        reply: Reply::Refused(Refusal { rule, package }),
    }
}

/// Whether a unit was broken off.
pub fn is_broken(unit: &Unit) -> bool
    ensures { MatchBool result (IsBroken unit.now.reply) (IsBroken unit.now.reply → ⊥) }
{
    match &unit.reply {
        Reply::Broken(_) => true,
        Reply::Done => false,
        Reply::Refused(_) => false,
        Reply::Failed(_) => false,
        Reply::Looped(_) => false,
    }
}

/// What a fault of the host breaks off.
pub fn breakage_of(fault: HostFault) -> Breakage
    ensures { result ≡ breakage_of fault }
{
    match fault {
        HostFault::Device => Breakage::Device,
        HostFault::NoMemory => Breakage::NoMemory,
        HostFault::Declined => Breakage::Declined,
    }
}

/// Computes the places anew that running scripts leave alone, as lists or diversions have changed.
pub fn refresh(
    alloc: Global,
    lists: &FileLists,
    diversions: &Diversions,
    places: &mut Places,
) -> Result<(), AllocError>
    ensures { OnOk result (places.new ≡ places_in diversions.now.ways lists.now.lists) }
{
    *places = lists.places(alloc, diversions)?;
    Ok(())
}
