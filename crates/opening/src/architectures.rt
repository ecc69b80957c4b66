// A root of packages of two architectures isn't for commands.
ghost use Rattle.std.specs.Prelude.{◌≡◌, IfErr, IfOk, IsTrue, OnOk, option_copied};
ghost use Rattle.administration.specs.Fault.{CountsAdministration};
ghost use Rattle.host_core.specs.Host.{Reads, Silent};
ghost use Rattle.host_core.specs.Looks.{Looks};
ghost use Rattle.opening.specs.Architectures.{AreOfOne, AreOfTwo, IsLineAt, IsLineIn, IsToldAt, first_foreign, is_named, line_named, second_in};

use crate::open::Opened;
use administration::{AdministrationFault, STATUS};
use control_fields::{Located, Paragraph, read_located};
use host_core::{Host, HostFault, Node, RootPath};
use recorded_packages::{is_foreign, root_of};
use status_db::NotedDatabase;
use status_records::Record;
use std::alloc::{AllocError, Global};
use texts::Text;

fn first_foreign<'a>(root: Option<&str>, records: &'a [Record]) -> Option<&'a Record>
    ensures { option_copied result ≡ first_foreign (option_copied root.entry) records.now }
{
    for record in records {
        if is_foreign(root, record) {
            return Some(record);
        }
    }
    None
}

// The first record of a package of a second architecture.
fn second_in(records: &[Record]) -> Option<&Record>
    ensures { option_copied result ≡ second_in records.now }
{
    first_foreign(root_of(records), records)
}

fn is_named(name: &Text, fields: &Paragraph) -> bool
    ensures { result ≡ is_named name.now fields.now }
{
    match fields.get(b"package") {
        Some(field) => field.first.as_slice() == name.as_str().as_bytes(),
        None => name.as_str().as_bytes().is_empty(),
    }
}

fn line_named(name: &Text, paragraphs: &[Located]) -> u64
    ensures { result ≡ line_named name.now paragraphs.now }
{
    for one in paragraphs {
        if is_named(name, &one.paragraph) {
            return one.line;
        }
    }
    0
}

// The line where the paragraph of a package begins.
fn line_in(alloc: Global, name: &Text, bytes: &[u8]) -> Result<u64, AllocError>
    ensures { IfOk result (IsLineIn bytes.now name.now) }
{
    let text = read_located(alloc, bytes)?;
    Ok(line_named(name, text.paragraphs.as_slice()))
}

fn line_at(alloc: Global, name: &Text, node: &Option<Node>) -> Result<u64, AllocError>
    ensures { IfOk result (IsLineAt node.now name.now) }
{
    match node {
        Some(Node::File { bytes, .. }) => line_in(alloc, name, bytes.held()?),
        Some(Node::Dir { .. }) => Ok(0),
        Some(Node::Link { .. }) => Ok(0),
        None => Ok(0),
    }
}

// The same, of what stands at a place.
fn look_for<H: Host>(
    alloc: Global,
    host: &mut H,
    path: &RootPath,
    name: &Text,
) -> Result<u64, HostFault>
    ensures looks { Looks result (λ line w. IsLineAt (w path.now) name.now line)
        (H.state host.old) (H.state host.new) }
{
    let node = host.node(path)?;
    match line_at(alloc, name, &node) {
        Ok(line) => Ok(line),
        Err(fault) => Err(HostFault::from(fault)),
    }
}

// Refuses an administration for the package of this record.
fn refuse_for<H: Host>(
    alloc: Global,
    host: &mut H,
    record: &Record,
) -> Result<(), AdministrationFault>
    ensures refused { OnOk result ⊥ }
    ensures told { IsTrue (H.state host.new).honest
        → IfErr result (IsToldAt (H.state host.old).world record.now.name) }
    ensures reads { Reads (H.state host.old) (H.state host.new) }
    ensures silent { Silent (H.state host.old) (H.state host.new) }
    ensures counts { CountsAdministration (H.state host.old) (H.state host.new) result }
{
    let file = RootPath::from_str(alloc, STATUS)?;
    let line = look_for(alloc, host, &file, &record.name)?;
    Err(AdministrationFault::Damaged { file, line })
}

// Whether the records are of packages of one architecture.
fn check_one<H: Host>(
    alloc: Global,
    host: &mut H,
    database: &NotedDatabase,
) -> Result<(), AdministrationFault>
    ensures one { OnOk result (AreOfOne database.now.records) }
    ensures told { IsTrue (H.state host.new).honest
        → IfErr result (AreOfTwo (H.state host.old).world database.now.records) }
    ensures reads { Reads (H.state host.old) (H.state host.new) }
    ensures silent { Silent (H.state host.old) (H.state host.new) }
    ensures counts { CountsAdministration (H.state host.old) (H.state host.new) result }
{
    match second_in(database.records()) {
        Some(record) => refuse_for(alloc, host, record),
        None => Ok(()),
    }
}

/// The same of what was opened.
pub(crate) fn keep_of_one<H: Host>(
    alloc: Global,
    host: &mut H,
    opened: Opened,
) -> Result<Opened, AdministrationFault>
    ensures same { IfOk result (λ kept. kept ≡ opened) }
    ensures one { OnOk result (AreOfOne opened.database.records) }
    ensures told { IsTrue (H.state host.new).honest
        → IfErr result (AreOfTwo (H.state host.old).world opened.database.records) }
    ensures reads { Reads (H.state host.old) (H.state host.new) }
    ensures silent { Silent (H.state host.old) (H.state host.new) }
    ensures counts { CountsAdministration (H.state host.old) (H.state host.new) result }
{
    match check_one(alloc, host, &opened.database) {
        Ok(()) => Ok(opened),
        Err(fault) => Err(fault),
    }
}
