// The rows of other packages.
ghost use Rattle.std.specs.Prelude.{◌≡◌, [], IfOk, OnOk, map};
ghost use Rattle.host_core.specs.Looks.{Looks};
ghost use Rattle.status_records.specs.Records.{AreApart, IsWithout};
ghost use Rattle.unpack_relations.specs.Checks as checks;
ghost use Rattle.unpack_rows.specs.EndStates.{AreRecorded};
ghost use Rattle.unpack_rows.specs.ForwardRows.{AreOwn, records_of};
ghost use Rattle.undo_rows.specs.declared.rows.Owner.TheVariants.{Package as OfPackage};
ghost use Rattle.in_favour_rows.specs.Entries.{entries_of, entry_records};
ghost use Rattle.in_favour_rows.specs.Rows.{AreRowsBeside, AreRowsOf, other_package, package_with};
ghost use Rattle.in_favour_rows.specs.declared.stored.Stored.{Stored as WhichAreStored};

use crate::entries::{Entry, entries_of};
use crate::rows::row_of;
use crate::stored::look_for_scripts;
use host_core::{Host, HostFault};
use package_tree::Package;
use status_db::NotedDatabase;
use std::alloc::Global;
use unpack_relations::Beside;
use unpack_rows::OtherPackage;

fn other_package<H: Host>(
    alloc: Global,
    host: &mut H,
    incoming: &Package,
    entry: &Entry,
) -> Result<OtherPackage, HostFault>
    ensures same { IfOk result (λ other. other.«record» ≡ entry.now.«record») }
    ensures own { IfOk result (λ other. other.row.owner ≡ OfPackage entry.now.«record».name) }
    ensures shaped { IfOk result (λ other. (stored : WhichAreStored)
        × (other ≡ package_with incoming.now.name incoming.now.version stored entry.now)) }
    ensures looks { Looks result (λ other w. other ≡ other_package incoming.now.name
        incoming.now.version w entry.now) (H.state host.old) (H.state host.new) }
{
    let stored = look_for_scripts(alloc, host, &entry.record.name)?;
    let row = row_of(alloc, incoming, stored, &entry.record.name, &entry.role)?;
    Ok(OtherPackage {
        record: entry.record.copy()?,
        row,
    })
}

fn push_others<H: Host>(
    alloc: Global,
    host: &mut H,
    incoming: &Package,
    entries: &[Entry],
    others: &mut Vec<OtherPackage>,
) -> Result<(), HostFault>
    requires { others.old.items ≡ [] }
    ensures same { OnOk result (records_of others.new.items ≡ entry_records entries.now) }
    ensures own { OnOk result (AreOwn others.new.items) }
    ensures shaped { OnOk result (AreRowsOf incoming.now.name incoming.now.version entries.now
        others.new.items) }
    ensures looks { Looks result (λ done w. others.new.items ≡ map (other_package incoming.now.name
        incoming.now.version w) entries.now) (H.state host.old) (H.state host.new) }
{
    for entry in entries {
        others.push(other_package(alloc, host, incoming, entry)?)?;
    }
    Ok(())
}

/// The rows that the unpack of a package has for other packages, in the order in which they are made. Each calls the stored
/// scripts of its package; one that isn't stored isn't called.
pub fn rows_beside<H: Host>(
    alloc: Global,
    host: &mut H,
    database: &NotedDatabase,
    incoming: &Package,
    beside: &Beside,
) -> Result<Vec<OtherPackage>, HostFault>
    requires { checks.AreApart incoming.now.name database.now.records beside.now }
    ensures looks { Looks result (λ others w. AreRowsBeside incoming.now.name incoming.now.version
        database.now.records beside.now w others.items) (H.state host.old) (H.state host.new) }
    ensures shaped { IfOk result (λ others. AreRowsOf incoming.now.name incoming.now.version
        (entries_of database.now.records beside.now) others.items) }
    ensures own { IfOk result (λ others. AreOwn others.items) }
    ensures recorded { IfOk result (λ others. AreRecorded database.now.records
        (records_of others.items)) }
    ensures unnamed { IfOk result (λ others. IsWithout incoming.now.name
        (records_of others.items)) }
    ensures apart { IfOk result (λ others. AreApart (records_of others.items)) }
{
    let entries = entries_of(alloc, database, beside)?;
    let mut others = Vec::new(alloc);
    match push_others(alloc, host, incoming, entries.as_slice(), &mut others) {
        Ok(()) => Ok(others),
        Err(fault) => Err(fault),
    }
}
