// What packages still await, as records tell of it.
ghost use Rattle.std.specs.Prelude.{◌≡◌, ◌++◌, [], Some, filter, IfOk, OnOk};
ghost use Rattle.std.specs.List.{list_all};
ghost use Rattle.record_changes.specs.Activated.{with_names};
ghost use Rattle.record_changes.specs.Awaits.{is_due, names_due, package_named, settled_awaits, settled_of};

use crate::change::{Change, RecordChange};
use crate::changed::add_name;
use crate::pending::{names_in, names_text};
use status_db::NotedDatabase;
use status_records::{Record, TriggerNames};
use std::alloc::{AllocError, Global};
use texts::Text;

fn package_named(name: &str) -> &str
    ensures { result.now ≡ package_named name.now }
{
    match name.split_once(':') {
        Some((package, _)) => package,
        None => name,
    }
}

fn is_due(alloc: Global, database: &NotedDatabase, name: &Text) -> Result<bool, AllocError>
    ensures { IfOk result (λ due. due ≡ is_due database.now.records name.now) }
{
    let package = Text::from_str(alloc, package_named(name.as_str()))?;
    match database.get(&package) {
        Some(entry) => Ok(entry.triggers.pending.is_some()),
        None => Ok(false),
    }
}

fn are_due(alloc: Global, database: &NotedDatabase, names: &[Text]) -> Result<bool, AllocError>
    ensures { IfOk result (λ due. due ≡ list_all (is_due database.now.records) names.now) }
{
    for name in names {
        if !is_due(alloc, database, name)? {
            return Ok(false);
        }
    }
    Ok(true)
}

fn text_due(alloc: Global, database: &NotedDatabase, names: &[Text]) -> Result<Vec<u8>, AllocError>
    ensures { IfOk result (λ text. text.items
        ≡ with_names [] (filter (is_due database.now.records) names.now)) }
{
    let mut text = Vec::new(alloc);
    for name in names {
        if is_due(alloc, database, name)? {
            add_name(&mut text, name.as_str().as_bytes())?;
        }
    }
    Ok(text)
}

fn names_due(
    alloc: Global,
    database: &NotedDatabase,
    awaited: &TriggerNames,
) -> Result<Option<TriggerNames>, AllocError>
    ensures { IfOk result (λ names. names ≡ names_due database.now.records awaited.now) }
{
    let names = names_in(alloc, names_text(awaited))?;
    let text = text_due(alloc, database, names.as_slice())?;
    TriggerNames::read(alloc, text.as_slice())
}

fn settle(
    alloc: Global,
    database: &NotedDatabase,
    package: &Text,
    awaited: &TriggerNames,
    found: &mut Vec<RecordChange>,
) -> Result<(), AllocError>
    ensures { OnOk result (found.new.items ≡ found.old.items
        ++ settled_of database.now.records «package».now (Some awaited.now)) }
{
    let names = names_in(alloc, names_text(awaited))?;
    if are_due(alloc, database, names.as_slice())? {
        return Ok(());
    }
    found.push(RecordChange {
        name: package.copy()?,
        change: Change::Await(names_due(alloc, database, awaited)?),
    })?;
    Ok(())
}

fn settle_record(
    alloc: Global,
    database: &NotedDatabase,
    entry: &Record,
    found: &mut Vec<RecordChange>,
) -> Result<(), AllocError>
    ensures { OnOk result (found.new.items ≡ found.old.items
        ++ settled_of database.now.records entry.now.name entry.now.triggers.awaited) }
{
    match &entry.triggers.awaited {
        Some(awaited) => settle(alloc, database, &entry.name, awaited, found),
        None => Ok(()),
    }
}

/// What is to be changed of the packages that await some of which nothing is pending any more: each awaits the others then, where there
/// are some. The packages are in name order.
pub fn settled_awaits(
    alloc: Global,
    database: &NotedDatabase,
) -> Result<Vec<RecordChange>, AllocError>
    ensures { IfOk result (λ found. found.items ≡ settled_awaits database.now.records) }
{
    let mut found = Vec::new(alloc);
    for entry in database.records() {
        settle_record(alloc, database, entry, &mut found)?;
    }
    Ok(found)
}
