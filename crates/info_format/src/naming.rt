// The packages whose control files have names with an architecture.
ghost use Rattle.std.specs.Prelude.{◌≡◌, IfOk, IfSome, IfNone, None, Some};
ghost use Rattle.info_format.specs.Names.{architecture_of, architectures, value_in};
ghost use Rattle.info_format.specs.Naming.{AreQualified, IsQualifiedBy, IsQualifiedIn};

use status_db::NotedDatabase;
use status_records::Record;
use std::alloc::{AllocError, Global};
use texts::{Text, package_name};

/// A package, by its name and by that with its architecture.
#[derive(Drop)]
pub(crate) struct Qualified {
    pub(crate) name: Text,
    pub(crate) front: Text,
}

// The value on the line of a record's field, given by its name in lower case.
fn value_in<'a>(record: &'a Record, field: &[u8]) -> &'a [u8]
    ensures { result.now ≡ value_in field.now record.now }
{
    match record.fields.get(field) {
        Some(field) => field.own_line(),
        None => b"",
    }
}

// The architecture of a record with `Multi-Arch: same`.
fn architecture_of(record: &Record) -> Option<&str>
    ensures some { IfSome result (λ it. architecture_of record.now ≡ Some it.now) }
    ensures none { IfNone result (architecture_of record.now ≡ None) }
{
    if value_in(record, b"multi-arch") != b"same".as_slice() {
        return None;
    }
    let _name = package_name(record.name.as_str().as_bytes())?;
    package_name(value_in(record, b"architecture"))
}

// The package of a record, where its names have the architecture.
fn package_of(alloc: Global, record: &Record) -> Result<Option<Qualified>, AllocError>
    ensures { IfOk result (IsQualifiedBy record.now) }
{
    let Some(architecture) = architecture_of(record) else {
        return Ok(None);
    };
    let mut front = String::from_str(alloc, record.name.as_str())?;
    front.push(':')?;
    front.push_str(architecture)?;
    Ok(Some(Qualified {
        name: record.name.copy()?,
        front: Text::new(front),
    }))
}

// The same, of the record of a name.
fn package_in(
    alloc: Global,
    database: &NotedDatabase,
    name: &Text,
) -> Result<Option<Qualified>, AllocError>
    ensures { IfOk result (IsQualifiedIn database.now.records name.now) }
{
    match database.get(name) {
        Some(record) => package_of(alloc, record),
        None => Ok(None),
    }
}

/// All of them.
pub(crate) fn packages_of(
    alloc: Global,
    database: &NotedDatabase,
) -> Result<Vec<Qualified>, AllocError>
    ensures { IfOk result
        (λ found. AreQualified (architectures database.now.records) found.items) }
{
    let mut found = Vec::new(alloc);
    for record in database.records() {
        if let Some(one) = package_in(alloc, database, &record.name)? {
            found.push(one)?;
        }
    }
    Ok(found)
}
