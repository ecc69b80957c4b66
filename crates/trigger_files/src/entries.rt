// Whose interests are kept.
ghost use Rattle.std.specs.Prelude.{◌≡◌, ◌++◌, IfOk, IfNone, IfSome, None, Some};
ghost use Rattle.host_core.specs.Host.{Counts, Leaves, Reads, Silent};
ghost use Rattle.host_core.specs.Looks.{Looks};
ghost use Rattle.info_format.specs.Names.{architecture_of, value_in};
ghost use Rattle.trigger_files.specs.Entries.{entries_by, entries_of, label_of};

use host_core::{Host, HostFault};
use status_records::Record;
use std::alloc::{AllocError, Global};
use texts::{Text, package_name};
use trigger_interests::{Interest, add_interests_as};
use trigger_journal::has_files;

// The value on the line of a record's field, given by its name in lower case.
fn value_in<'a>(record: &'a Record, field: &[u8]) -> &'a [u8]
    ensures { result.now ≡ value_in field.now record.now }
{
    match record.fields.get(field) {
        Some(field) => field.own_line(),
        None => b"",
    }
}

fn architecture_of(record: &Record) -> Option<&str>
    ensures some { IfSome result (λ it. architecture_of record.now ≡ Some it.now) }
    ensures none { IfNone result (architecture_of record.now ≡ None) }
{
    if value_in(record, b"multi-arch") != b"same".as_slice() {
        return None;
    }
    let _name = package_name(record.name.as_str().as_bytes())?;
    package_name(value_in(record, b"architecture"))
}

fn label_of(alloc: Global, record: &Record) -> Result<Text, AllocError>
    ensures { IfOk result (λ label. label ≡ label_of record.now) }
{
    let Some(architecture) = architecture_of(record) else {
        return record.name.copy();
    };
    let mut label = String::from_str(alloc, record.name.as_str())?;
    label.push(':')?;
    label.push_str(architecture)?;
    Ok(Text::new(label))
}

// Adds those of a package.
fn add_record<H: Host>(
    alloc: Global,
    host: &mut H,
    record: &Record,
    found: &mut Vec<Interest>,
) -> Result<(), HostFault>
    ensures added { Leaves result (λ w _. found.new.items ≡ found.old.items ++ entries_by w
        «record».now) (H.state host.old) (H.state host.new) }
    ensures reads { Reads (H.state host.old) (H.state host.new) }
    ensures silent { Silent (H.state host.old) (H.state host.new) }
    ensures counts { Counts (H.state host.old) (H.state host.new) result }
{
    if !has_files(record.state) {
        return Ok(());
    }
    let label = label_of(alloc, record)?;
    add_interests_as(alloc, host, &record.name, &label, found)
}

// Adds those of each package.
fn add_records<H: Host>(
    alloc: Global,
    host: &mut H,
    records: &[Record],
    found: &mut Vec<Interest>,
) -> Result<(), HostFault>
    ensures added { Leaves result (λ w _. found.new.items ≡ found.old.items ++ entries_of w
        records.now) (H.state host.old) (H.state host.new) }
    ensures reads { Reads (H.state host.old) (H.state host.new) }
    ensures silent { Silent (H.state host.old) (H.state host.new) }
    ensures counts { Counts (H.state host.old) (H.state host.new) result }
{
    for entry in records {
        add_record(alloc, host, entry, found)?;
    }
    Ok(())
}

/// Those of packages, in their order.
pub(crate) fn read_entries<H: Host>(
    alloc: Global,
    host: &mut H,
    records: &[Record],
) -> Result<Vec<Interest>, HostFault>
    ensures looks { Looks result (λ entries w. entries.items ≡ entries_of w records.now)
        (H.state host.old) (H.state host.new) }
{
    let mut entries = Vec::new(alloc);
    match add_records(alloc, host, records, &mut entries) {
        Ok(()) => Ok(entries),
        Err(fault) => Err(fault),
    }
}
