// What is told of the records.
ghost use Rattle.std.specs.Prelude.{◌≡◌, ◌≤◌, ◌++◌, IfOk, OnOk, List, length, map, option_copied, string_bytes};
ghost use Rattle.std.specs.Cmp.Lexicographic.{slice_cmp};
ghost use Rattle.std.specs.List.{flat_map, insert};
ghost use Rattle.std.specs.Ordering.{is_lt, nat_cmp};
ghost use Rattle.status_records.specs.Records.{place_record};
ghost use Rattle.status_records.specs.declared.record.Record.{Record as ARecord};
ghost use Rattle.queries.specs.Asked.{by_name};
ghost use Rattle.queries.specs.Records.{audit_line, audit_lines, audit_text, is_done, is_final, is_settled, list_line, list_text, reinstreq_mark, status_text, told_in};

use crate::asked::{Told, asked, unfound};
use record_formats::{Layout, formatted_text, table_text};
use recorded_packages::{is_foreign, root_of};
use shown_lines::line;
use status_db::NotedDatabase;
use status_records::{Flag, Record, State, record_text};
use std::alloc::{AllocError, Global};
use std::cmp::Ordering;
use texts::{Bytes, Text};

// Whether a record's name stands before another's.
fn is_before(entry: &Record, other: &Record) -> bool
    ensures { result ≡ is_lt (slice_cmp nat_cmp entry.now.name other.now.name) }
{
    entry
        .name
        .as_str()
        .as_bytes()
        .cmp(other.name.as_str().as_bytes())
        == Ordering::Less
}

// The index of the first record of no lesser name.
fn place_of(ordered: &[&Record], entry: &Record) -> usize
    ensures within { result ≤ length ordered.now }
    ensures place { place_record entry.now (map (λ r. r.now) ordered.now)
        ≡ insert (map (λ r. r.now) ordered.now) result entry.now }
{
    for (i, other) in ordered.iter().enumerate() {
        if !is_before(other, entry) {
            return i;
        }
    }
    ordered.len()
}

/// The records in the order of their names' bytes.
pub(crate) fn by_name<'a>(
    alloc: Global,
    records: &'a [Record],
) -> Result<Vec<&'a Record>, AllocError>
    ensures { IfOk result (λ ordered. map (λ r. r.now) ordered.items ≡ by_name records.now) }
{
    let mut ordered = Vec::new(alloc);
    let mut count = records.len();
    while count > 0 {
        count -= 1;
        let entry = &records[count];
        let place = place_of(ordered.as_slice(), entry);
        ordered.insert(place, entry)?;
    }
    Ok(ordered)
}

fn reinstreq_mark(flag: Flag) -> &'static str
    ensures { result.now ≡ reinstreq_mark flag }
{
    match flag {
        Flag::Ok => "",
        Flag::Reinstreq => " reinstreq",
    }
}

fn list_line(alloc: Global, entry: &Record) -> Result<String, AllocError>
    ensures { IfOk result (λ printed. string_bytes printed ≡ list_line entry.now) }
{
    let name = entry.name.as_str();
    let version = entry.version.text();
    let state = entry.word().name();
    let mark = reinstreq_mark(entry.flag);
    let content = format!(in alloc; "{name} {version} {state}{mark}")?;
    line(alloc, content.as_str())
}

fn add_list(alloc: Global, lines: &mut String, entries: &[&Record]) -> Result<(), AllocError>
    ensures { OnOk result (string_bytes lines.new ≡ string_bytes lines.old ++ flat_map list_line
        (map (λ r. r.now) entries.now)) }
{
    for entry in entries {
        let line = list_line(alloc, entry)?;
        lines.push_str(line.as_str())?;
    }
    Ok(())
}

fn lines_text(alloc: Global, entries: &[&Record]) -> Result<Bytes, AllocError>
    ensures { IfOk result (λ text. text ≡ flat_map list_line (map (λ r. r.now) entries.now)) }
{
    let mut lines = String::new(alloc);
    add_list(alloc, &mut lines, entries)?;
    Ok(Bytes::new(lines.into_bytes()))
}

// Packages of a root of this architecture, as they are told.
fn told_in(
    alloc: Global,
    layout: &Layout,
    root: Option<&str>,
    entries: &[&Record],
) -> Result<Bytes, AllocError>
    ensures { IfOk result (λ text. text ≡ told_in layout.now (option_copied root.entry)
        (map (λ r. r.now) entries.now)) }
{
    match layout {
        Layout::Lines => lines_text(alloc, entries),
        Layout::Table => table_text(alloc, root, entries),
        Layout::Format(pieces) => formatted_text(alloc, root, pieces, entries),
    }
}

/// The packages that have a record and whose names match one of the patterns, or all without a
/// pattern, in the order of their names: by a line with version and state, and `reinstreq` where a
/// package has to be installed again, by dpkg's table, or by a format.
pub fn list_text(
    alloc: Global,
    layout: &Layout,
    patterns: &[Text],
    database: &NotedDatabase,
) -> Result<Told, AllocError>
    ensures { IfOk result (λ told. told ≡ list_text layout.now patterns.now database.now.records) }
{
    let entries = asked(alloc, patterns, database.records())?;
    let (lines, complete) = unfound(alloc, patterns, database.records())?;
    let root = root_of(database.records());
    let told = told_in(alloc, layout, root, entries.as_slice())?;
    let mut text = lines.into_bytes();
    text.extend_from_slice(told.as_slice())?;
    Ok(Told {
        text: Bytes::new(text),
        complete,
    })
}

fn is_final(state: State) -> bool
    ensures { result ≡ is_final state }
{
    match state {
        State::NotInstalled => false,
        State::ConfigFiles => true,
        State::HalfInstalled => false,
        State::Unpacked => false,
        State::HalfConfigured => false,
        State::Installed => true,
    }
}

/// Whether nothing has to be done with a package of this flag and state.
pub fn is_settled(flag: Flag, state: State) -> bool
    ensures { result ≡ is_settled flag state }
{
    match flag {
        Flag::Ok => is_final(state),
        Flag::Reinstreq => false,
    }
}

// Whether nothing has to be done with a package, and it has no triggers.
fn is_done(entry: &Record) -> bool
    ensures { result ≡ is_done entry.now }
{
    is_settled(entry.flag, entry.state) && !entry.triggers.are_some()
}

fn audit_line(alloc: Global, entry: &Record) -> Result<String, AllocError>
    ensures { IfOk result (λ printed. string_bytes printed ≡ audit_line entry.now) }
{
    let name = entry.name.as_str();
    let state = entry.word().name();
    let flag = entry.flag.name();
    let content = format!(in alloc; "{name} {state} {flag}")?;
    line(alloc, content.as_str())
}

// The line of a package with which something has to be done, or that is of another architecture than its root.
fn audit_lines(alloc: Global, root: Option<&str>, entry: &Record) -> Result<String, AllocError>
    ensures { IfOk result (λ printed. string_bytes printed
        ≡ audit_lines (option_copied root.entry) entry.now) }
{
    if is_done(entry) && !is_foreign(root, entry) {
        return Ok(String::new(alloc));
    }
    audit_line(alloc, entry)
}

fn add_audit(
    alloc: Global,
    root: Option<&str>,
    lines: &mut String,
    entries: &[&Record],
) -> Result<(), AllocError>
    ensures { OnOk result (string_bytes lines.new ≡ string_bytes lines.old
        ++ flat_map (audit_lines (option_copied root.entry)) (map (λ r. r.now) entries.now)) }
{
    for entry in entries {
        let line = audit_lines(alloc, root, entry)?;
        lines.push_str(line.as_str())?;
    }
    Ok(())
}

/// The packages with which something has to be done, in the order of their names: all but those
/// installed or with their configuration files alone, and not to be installed again; those with
/// triggers; and those of another architecture than the first that is of one.
pub fn audit_text(alloc: Global, database: &NotedDatabase) -> Result<Bytes, AllocError>
    ensures { IfOk result (λ text. text ≡ audit_text database.now.records) }
{
    let ordered = by_name(alloc, database.records())?;
    let mut lines = String::new(alloc);
    let root = root_of(database.records());
    add_audit(alloc, root, &mut lines, ordered.as_slice())?;
    Ok(Bytes::new(lines.into_bytes()))
}

/// The record of a package as the status file has it; none where the package has no record.
pub fn status_text(
    alloc: Global,
    database: &NotedDatabase,
    name: &Text,
) -> Result<Option<Bytes>, AllocError>
    ensures { IfOk result (λ text. text ≡ status_text database.now.records name.now) }
{
    match database.get(name) {
        Some(entry) => Ok(Some(record_text(alloc, entry)?)),
        None => Ok(None),
    }
}
