// Reading a note: a text that is one paragraph.
ghost use Rattle.std.specs.Prelude.{◌≡◌, [], ℕ, List, None, Some, IfOk, IfErr, OnOk};
ghost use Rattle.status_records.specs.Damage.{HasLines};
ghost use Rattle.status_db.specs.NoteFaults.{IsNoteFileFault, IsNoteTextFault, IsRestFault, IsStartFault};
ghost use Rattle.status_db.specs.NoteDamage.{end_line};
ghost use Rattle.status_db.specs.Notes.{IsNote, IsNoteTaken, IsSaid, entered};
ghost use Rattle.status_records.specs.Records.{record_in};

use crate::table::Table;
use administration::AdministrationFault;
use control_fields::{ControlFault, Located, read_located};
use host_core::{Content, Node, RootPath};
use status_records::{Entry, Names, StatusFault, entry_of, first_bad, line_in};
use std::alloc::{AllocError, Global};

fn end_line(fault: Option<ControlFault>) -> u64
    ensures { result ≡ end_line fault }
{
    match fault {
        Some(fault) => line_in(fault),
        None => 1,
    }
}

// What is wrong with a text that has no whole paragraph.
fn fault_of_start(alloc: Global, begun: &Located, fault: Option<ControlFault>) -> StatusFault
    requires { HasLines begun.now }
    ensures { IsStartFault begun.now fault result }
{
    match first_bad(alloc, begun) {
        Ok(Some(line)) => StatusFault::Line(line),
        Ok(None) => StatusFault::Line(end_line(fault)),
        Err(_) => StatusFault::NoMemory,
    }
}

// Behind the first paragraph nothing may stand.
fn check_rest(
    rest: &[Located],
    begun: &Located,
    fault: Option<ControlFault>,
) -> Result<(), StatusFault>
    ensures rest { OnOk result (rest.now ≡ []) }
    ensures whole { OnOk result (fault ≡ None) }
    ensures fault { IfErr result (IsRestFault rest.now begun.now fault) }
{
    if let Some(second) = rest.first() {
        return Err(StatusFault::Line(second.line));
    }
    if begun.paragraph.fields().next().is_some() {
        return Err(StatusFault::Line(begun.line));
    }
    match fault {
        Some(fault) => Err(StatusFault::Line(line_in(fault))),
        None => Ok(()),
    }
}

// What a note's text says.
fn read_text(alloc: Global, bytes: &[u8]) -> Result<Entry, StatusFault>
    ensures note { IfOk result (λ e. IsNote bytes.now (record { name = e.name; entry = e.kept })) }
    ensures fault { IfErr result (IsNoteTextFault bytes.now) }
{
    let text = read_located(alloc, bytes)?;
    let paragraphs = text.paragraphs.as_slice();
    if paragraphs.is_empty() {
        return Err(fault_of_start(alloc, &text.begun, text.fault));
    }
    let names = Names::new(alloc);
    let entry = entry_of(alloc, &names, &paragraphs[0])?;
    check_rest(&paragraphs[1..], &text.begun, text.fault)?;
    Ok(entry)
}

// What a note's file says.
fn read_note(alloc: Global, content: &Content) -> Result<Entry, StatusFault>
    ensures note { IfOk result (λ e. IsNote content.now (record { name = e.name; entry = e.kept })) }
    ensures fault { IfErr result (IsNoteTextFault content.now) }
{
    read_text(alloc, content.held()?)
}

// What a note says takes the place of what was said of its package.
fn enter(table: &mut Table, entry: Entry) -> Result<(), AllocError>
    requires { IsSaid entry.name entry.kept }
    ensures { OnOk result ((name : List ℕ) → record_in table.new name ≡ entered
        (Some (record { name = entry.name; entry = entry.kept })) (record_in table.old) name) }
{
    let Entry { name, kept } = entry;
    match kept {
        Some(kept) => table.put(kept),
        None => {
            table.remove(&name);
            Ok(())
        }
    }
}

/// Takes what stands at a note's place into the table.
pub(crate) fn take_note(
    alloc: Global,
    path: RootPath,
    node: Option<Node>,
    table: &mut Table,
) -> Result<(), AdministrationFault>
    ensures taken { OnOk result (IsNoteTaken node table.old table.new) }
    ensures fault { IfErr result (IsNoteFileFault path node) }
{
    match node {
        None => Ok(()),
        Some(Node::File { bytes, .. }) => match read_note(alloc, &bytes) {
            Ok(entry) => Ok(enter(table, entry)?),
            Err(StatusFault::Line(line)) => Err(AdministrationFault::Damaged { file: path, line }),
            Err(StatusFault::NoMemory) => Err(AdministrationFault::NoMemory),
        },
        Some(_) => Err(AdministrationFault::Damaged {
            file: path,
            line: 0,
        }),
    }
}
