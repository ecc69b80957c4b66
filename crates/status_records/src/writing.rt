// Writing the status file.
ghost use Rattle.std.specs.Prelude.{◌≡◌, ◌++◌, ◌∷◌, [], IfOk, OnOk, ℕ, List, IsTrue, IfSome, true, false, map, codes};
ghost use Rattle.std.specs.List.{AllByRecursion};
ghost use Rattle.control_fields.specs.Names.{stands};
ghost use Rattle.host_core.specs.Nodes.{own_access};
ghost use Rattle.host_core.specs.declared.node.Node.TheVariants.{File};
ghost use Rattle.version_order.specs.Versions.{IsVersion};
ghost use Rattle.status_records.specs.Records.{AreApart, standing};
ghost use Rattle.status_records.specs.ConffileFields.{conffile_line, pending_line};
ghost use Rattle.status_records.specs.Words.{is_not_installed, status_text};
ghost use Rattle.status_records.specs.Paragraphs.{line_field, first_fields, config_field, removed_field, lines_field, names_field, trigger_fields, record_word, own_fields, paragraph_of, record_text, HasParts};
ghost use Rattle.status_records.specs.Status.{IsStatus};
ghost use Rattle.status_records.specs.TriggerNames.{are_trigger_names};

use crate::conffile_writing::{conffile_lines, pending_lines};
use crate::order::merged;
use crate::record::Record;
use crate::trigger_names::TriggerNames;
use crate::triggers::Triggers;
use control_fields::{Field, Lines, Paragraph, write_paragraph, write_paragraphs};
use host_core::{Access, Content, Node};
use std::alloc::{AllocError, Global};
use texts::Bytes;
use version_order::Version;

fn status_text(alloc: Global, entry: &Record) -> Result<Vec<u8>, AllocError>
    ensures { IfOk result (λ text. text.items ≡ status_text entry.now.want entry.now.flag
        (record_word entry.now)) }
{
    let mut text = Vec::new(alloc);
    text.extend_from_slice(entry.want.name().as_bytes())?;
    text.push(b' ')?;
    text.extend_from_slice(entry.flag.name().as_bytes())?;
    text.push(b' ')?;
    text.extend_from_slice(entry.word().name().as_bytes())?;
    Ok(text)
}

/// Adds a field of one line, whose name doesn't stand yet.
pub fn add_line(
    alloc: Global,
    name: &[u8],
    value: &[u8],
    fields: &mut Paragraph,
) -> Result<(), AllocError>
    requires { stands name.now fields.old ≡ false }
    ensures { OnOk result (fields.new ≡ fields.old ++ line_field name.now value.now ∷ []) }
{
    fields.push(Field::one_line(alloc, name, value)?)
}

// The same where no field is looked up by its name.
fn push_line(
    alloc: Global,
    name: &[u8],
    value: &[u8],
    fields: &mut Vec<Field>,
) -> Result<(), AllocError>
    ensures { OnOk result (fields.new.items ≡ fields.old.items ++ line_field name.now value.now ∷ []) }
{
    fields.push(Field::one_line(alloc, name, value)?)?;
    Ok(())
}

fn add_first_fields(
    alloc: Global,
    entry: &Record,
    fields: &mut Vec<Field>,
) -> Result<(), AllocError>
    requires { fields.old.items ≡ [] }
    ensures fields { OnOk result (fields.new.items ≡ first_fields entry.now.name
        (status_text entry.now.want entry.now.flag (record_word entry.now)) entry.now.version) }
    ensures version { OnOk result (IsVersion entry.now.version) }
{
    let status = status_text(alloc, entry)?;
    let name = entry.name.as_str().as_bytes();
    let version = entry.version.text().as_bytes();
    push_line(alloc, b"Package", name, fields)?;
    push_line(alloc, b"Status", status.as_slice(), fields)?;
    push_line(alloc, b"Version", version, fields)
}

// Adds Config-Version, where there is a version.
fn add_config(
    alloc: Global,
    version: &Option<Version>,
    fields: &mut Vec<Field>,
) -> Result<(), AllocError>
    ensures field { OnOk result (fields.new.items ≡ fields.old.items ++ config_field version.now) }
    ensures version { OnOk result (IfSome version.now IsVersion) }
{
    match version {
        Some(version) => push_line(alloc, b"Config-Version", version.text().as_bytes(), fields),
        None => Ok(()),
    }
}

// Adds Removed-Since, where it holds.
fn add_removed(alloc: Global, removed: bool, fields: &mut Vec<Field>) -> Result<(), AllocError>
    ensures { OnOk result (fields.new.items ≡ fields.old.items ++ removed_field removed) }
{
    if !removed {
        return Ok(());
    }
    push_line(alloc, b"Removed-Since", b"yes", fields)
}

// Adds a field whose value stands on these lines, where there are any.
fn add_lines(
    alloc: Global,
    name: &[u8],
    lines: Lines,
    fields: &mut Vec<Field>,
) -> Result<(), AllocError>
    ensures { OnOk result (fields.new.items ≡ fields.old.items ++ lines_field name.now lines) }
{
    if lines.as_slice().is_empty() {
        return Ok(());
    }
    fields.push(Field {
        name: Bytes::from_slice(alloc, name)?,
        first: Bytes::new(Vec::new(alloc)),
        more: lines,
    })?;
    Ok(())
}

fn add_conffiles(alloc: Global, entry: &Record, fields: &mut Vec<Field>) -> Result<(), AllocError>
    ensures { OnOk result (fields.new.items ≡ fields.old.items ++ lines_field (codes "Conffiles")
        (map conffile_line entry.now.conffiles)) }
{
    let lines = conffile_lines(alloc, &entry.conffiles)?;
    add_lines(alloc, b"Conffiles", lines, fields)
}

fn add_pending(alloc: Global, entry: &Record, fields: &mut Vec<Field>) -> Result<(), AllocError>
    ensures { OnOk result (fields.new.items ≡ fields.old.items ++ lines_field (codes "New-Conffiles")
        (map pending_line entry.now.pending)) }
{
    let lines = pending_lines(alloc, &entry.pending)?;
    add_lines(alloc, b"New-Conffiles", lines, fields)
}

// Adds names of triggers or packages, where there are any.
fn add_names(
    alloc: Global,
    name: &[u8],
    names: &Option<TriggerNames>,
    fields: &mut Vec<Field>,
) -> Result<(), AllocError>
    ensures field { OnOk result (fields.new.items ≡ fields.old.items ++ names_field name.now names.now) }
    ensures names { OnOk result (IfSome names.now (λ text. are_trigger_names text ≡ true)) }
{
    match names {
        Some(names) => push_line(alloc, name, names.text(), fields),
        None => Ok(()),
    }
}

fn add_triggers(
    alloc: Global,
    triggers: &Triggers,
    fields: &mut Vec<Field>,
) -> Result<(), AllocError>
    ensures fields { OnOk result (fields.new.items ≡ fields.old.items ++ trigger_fields triggers.now) }
    ensures pending { OnOk result (IfSome triggers.now.pending (λ text. are_trigger_names text ≡ true)) }
    ensures awaited { OnOk result (IfSome triggers.now.awaited (λ text. are_trigger_names text ≡ true)) }
{
    add_names(alloc, b"Triggers-Pending", &triggers.pending, fields)?;
    add_names(alloc, b"Triggers-Awaited", &triggers.awaited, fields)
}

// The fields of a record's own.
fn own_fields(alloc: Global, entry: &Record) -> Result<Vec<Field>, AllocError>
    ensures fields { IfOk result (λ fields. fields.items ≡ own_fields entry.now) }
    ensures parts { OnOk result (HasParts entry.now) }
{
    entry.conffiles.law();
    entry.pending.law();
    let mut fields = Vec::new(alloc);
    add_first_fields(alloc, entry, &mut fields)?;
    add_config(alloc, &entry.config_version, &mut fields)?;
    add_conffiles(alloc, entry, &mut fields)?;
    add_triggers(alloc, &entry.triggers, &mut fields)?;
    add_removed(alloc, entry.removed_since, &mut fields)?;
    add_pending(alloc, entry, &mut fields)?;
    Ok(fields)
}

pub fn paragraph_of(alloc: Global, entry: &Record) -> Result<Paragraph, AllocError>
    ensures paragraph { IfOk result (λ p. p ≡ paragraph_of entry.now) }
    ensures parts { OnOk result (HasParts entry.now) }
{
    let own = own_fields(alloc, entry)?;
    merged(alloc, own.as_slice(), &entry.fields)
}

/// A record as it is written in the status file, from which it is read again.
pub fn record_text(alloc: Global, entry: &Record) -> Result<Bytes, AllocError>
    ensures text { IfOk result (λ text. text ≡ record_text entry.now) }
    ensures read { is_not_installed entry.now.state ≡ false → IfOk
        result (λ text. ∥ IsStatus text (entry.now ∷ []) ∥₁) }
{
    let paragraph = paragraph_of(alloc, entry)?;
    match write_paragraph(alloc, &paragraph) {
        Ok(text) => Ok(Bytes::new(text)),
        Err(_) => Err(AllocError),
    }
}

fn paragraphs_of(alloc: Global, records: &[Record]) -> Result<Vec<Paragraph>, AllocError>
    ensures paragraphs { IfOk result (λ ps. ps.items ≡ map paragraph_of (standing records.now)) }
    ensures parts { OnOk result (AllByRecursion HasParts (standing records.now)) }
{
    let mut paragraphs = Vec::new(alloc);
    for entry in records {
        if !entry.state.is_not_installed() {
            paragraphs.push(paragraph_of(alloc, entry)?)?;
        }
    }
    Ok(paragraphs)
}

fn status_content(alloc: Global, records: &[Record]) -> Result<Content, AllocError>
    requires { AreApart records.now }
    ensures { IfOk result (λ bytes. ∥ IsStatus bytes records.now ∥₁) }
{
    let paragraphs = paragraphs_of(alloc, records)?;
    match write_paragraphs(alloc, paragraphs.as_slice()) {
        Ok(text) => Ok(Content::new(text)),
        Err(_) => Err(AllocError),
    }
}

/// The status file of a table.
pub fn status_node(alloc: Global, records: &[Record]) -> Result<Node, AllocError>
    requires { AreApart records.now }
    ensures { IfOk result (λ node. (bytes : List ℕ) × (node ≡ File bytes (own_access 0o644))
        × ∥ IsStatus bytes records.now ∥₁) }
{
    Ok(Node::File {
        bytes: status_content(alloc, records)?,
        access: Access {
            mode: 0o644,
            user: 0,
            group: 0,
        },
    })
}
