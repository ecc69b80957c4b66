// Which other packages have a row in an unpack, and why.
ghost use Rattle.std.specs.Prelude.{◌≡◌, ◌++◌, IfOk, OnOk};
ghost use Rattle.std.specs.Option.{option_copied};
ghost use Rattle.unpack_rows.specs.Kinds.{has_prerm};
ghost use Rattle.in_favour_rows.specs.Entries.{broken_entries, conflicting_entries, dependent_entries, entries_of, entry_of, with_prerm};

use status_db::NotedDatabase;
use status_records::{Record, State};
use std::alloc::{AllocError, Global};
use texts::Text;
use unpack_relations::{Beside, Dependent};
use version_order::Version;

/// Why an unpack calls the prerm of another package: the incoming package breaks it, or the package that it depends on is
/// removed, and it is deconfigured; or it conflicts, and is removed.
#[derive(Drop)]
pub(crate) enum Role {
    Broken,
    Dependent { removing: Text, version: Version },
    Conflicting,
}

/// Another package that has a row.
#[derive(Drop)]
pub(crate) struct Entry {
    pub record: Record,
    pub role: Role,
}

fn has_prerm(state: State) -> bool
    ensures { result ≡ has_prerm state }
{
    match state {
        State::NotInstalled => false,
        State::ConfigFiles => false,
        State::HalfInstalled => false,
        State::Unpacked => false,
        State::HalfConfigured => true,
        State::Installed => true,
    }
}

// The record of a package that is configured, or half so.
fn with_prerm(found: Option<&Record>) -> Option<&Record>
    ensures { option_copied result ≡ with_prerm (option_copied found.entry) }
{
    match found {
        Some(record) if has_prerm(record.state) => found,
        _ => None,
    }
}

fn push_entry(
    entries: &mut Vec<Entry>,
    role: Role,
    found: Option<&Record>,
) -> Result<(), AllocError>
    ensures { OnOk result (entries.new.items ≡ entries.old.items ++ entry_of role
        (option_copied found.entry)) }
{
    if let Some(record) = found {
        let record = record.copy()?;
        entries.push(Entry { record, role })?;
    }
    Ok(())
}

fn push_broken(
    entries: &mut Vec<Entry>,
    database: &NotedDatabase,
    names: &[Text],
) -> Result<(), AllocError>
    ensures { OnOk result (entries.new.items ≡ entries.old.items ++ broken_entries
        database.now.records names.now) }
{
    for name in names {
        push_entry(entries, Role::Broken, database.get(name))?;
    }
    Ok(())
}

fn push_dependents(
    entries: &mut Vec<Entry>,
    database: &NotedDatabase,
    dependents: &[Dependent],
) -> Result<(), AllocError>
    ensures { OnOk result (entries.new.items ≡ entries.old.items ++ dependent_entries
        database.now.records dependents.now) }
{
    for dependent in dependents {
        let role = Role::Dependent {
            removing: dependent.removing.copy()?,
            version: dependent.version.copy()?,
        };
        push_entry(entries, role, database.get(&dependent.name))?;
    }
    Ok(())
}

fn push_conflicting(
    entries: &mut Vec<Entry>,
    database: &NotedDatabase,
    names: &[Text],
) -> Result<(), AllocError>
    ensures { OnOk result (entries.new.items ≡ entries.old.items ++ conflicting_entries
        database.now.records names.now) }
{
    for name in names {
        push_entry(entries, Role::Conflicting, with_prerm(database.get(name)))?;
    }
    Ok(())
}

/// The other packages that have a row, in the order of their rows.
pub(crate) fn entries_of(
    alloc: Global,
    database: &NotedDatabase,
    beside: &Beside,
) -> Result<Vec<Entry>, AllocError>
    ensures { IfOk result (λ entries. entries.items ≡ entries_of database.now.records beside.now) }
{
    let mut entries = Vec::new(alloc);
    push_broken(&mut entries, database, beside.broken.as_slice())?;
    push_dependents(&mut entries, database, beside.dependents.as_slice())?;
    push_conflicting(&mut entries, database, beside.conflicting.as_slice())?;
    Ok(entries)
}
