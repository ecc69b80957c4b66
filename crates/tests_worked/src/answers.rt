// What the crates answer, each answer as one text, and in the modules below the rows that it is to equal.
mod control_rows;
mod memory_hosts;
mod path_rows;
mod real_rows;
mod relation_rows;
mod version_rows;

use command_line::{Hosts, run_words};
use control_fields::{Paragraph, read_one, read_paragraphs, write_paragraph};
use host_core::RootPath;
use relation_fields::{Clause, Form, Provided, Provides, Relations};
use std::alloc::{AllocError, Global};
use std::process::Abort;
use std::rt::Env;
use std::test::Fail;
use std::{env, str};

// Stops the test where the answer isn't the row's.
fn expect(rt: &impl Abort, answer: Result<String, AllocError>, row: &str) -> Result<(), Fail> {
    assert_eq!(rt; answer?.as_str(), row);
    Ok(())
}

// What stands in bytes that are to be text.
fn text_of(bytes: &[u8]) -> &str {
    str::from_utf8(bytes).unwrap_or("bytes that are no text")
}

// The path that a row names.
fn path_of(alloc: Global, text: &str) -> Result<RootPath, AllocError> {
    match RootPath::parse(alloc, text)? {
        Some(path) => Ok(path),
        None => Err(AllocError),
    }
}

// Told on standard error; where the test's buffers can't grow, a write fails.
const WANTS: &[&str] = &["|broken memory\n|2\n", "||2\n"];

// Told as the fault of the tree.
fn is_unread_tree(text: &str) -> bool {
    match text.strip_suffix(" NoMemory\n||1\n") {
        Some(refused) => refused.starts_with("refused ") && !refused.contains('\n'),
        None => false,
    }
}

// Whether a unit was broken off for want of memory, behind the lines of calls that it made, or behind all units what they activate
// of triggers.
fn is_broken_off(text: &str, calls: &str) -> bool {
    match text.strip_suffix("broken memory\n||2\n") {
        Some(made) if made.is_empty() || made.ends_with("\n") => {
            calls.starts_with(made) || made.starts_with(calls)
        }
        _ => false,
    }
}

// Whether no line is written, or those of the first units alone, and then a want of memory is told.
fn is_cut_short(text: &str, calls: &str) -> bool {
    for want in WANTS {
        if let Some(front) = text.strip_suffix(*want) {
            return calls.starts_with(front) && (front.is_empty() || front.ends_with("\n"));
        }
    }
    false
}

// Told where the notes of a command that has made all its calls aren't merged into the status file for want of memory.
const NOTES_LEFT: &str = "|notes left: /var/lib/dpkg/updates: memory\n|2\n";

// Whether the notes are left behind all calls, or behind a unit that was itself broken off for want of memory.
fn is_left_in_notes(text: &str, calls: &str) -> bool {
    let Some(told) = text.strip_suffix(NOTES_LEFT) else {
        return false;
    };
    match told.strip_suffix("broken memory\n") {
        Some(made) => calls.starts_with(made) && (made.is_empty() || made.ends_with("\n")),
        None => told.starts_with(calls),
    }
}

fn is_want(text: &str, calls: &str) -> bool {
    is_cut_short(text, calls)
        || is_unread_tree(text)
        || is_broken_off(text, calls)
        || is_left_in_notes(text, calls)
}

// Whether an allocation of this run is refused, as scripts/refused_memory does: only then may a want of memory stand in
// place of an answer.
fn is_refusing(rt: &(impl Env + AllocGlobal)) -> bool {
    match env::var(rt, "FAIL_AT") {
        Ok(number) => number.as_str() != "0",
        Err(_) => false,
    }
}

// The words of a line, parted by spaces.
fn words_of(alloc: Global, line: &str) -> Result<Vec<String>, AllocError> {
    let mut words = Vec::new(alloc);
    for word in line.split(' ') {
        words.push(String::from_str(alloc, word)?)?;
    }
    Ok(words)
}

// What the program answers to a line of words, the first of which is its name: its output, behind the first bar what
// it writes to standard error, and behind the second its status.
fn answer<S: Hosts>(alloc: Global, hosts: &mut S, line: &str) -> Result<String, AllocError> {
    let words = words_of(alloc, line)?;
    let mut out = Vec::new(alloc);
    let mut err = Vec::new(alloc);
    let status = run_words(alloc, hosts, words.as_slice(), &mut out, &mut err);
    let out = text_of(out.as_slice());
    let err = text_of(err.as_slice());
    format!(in alloc; "{out}|{err}|{status}\n")
}

// Adds a paragraph as it is written, behind a line of its own.
fn push_paragraph(
    alloc: Global,
    text: &mut String,
    paragraph: &Paragraph,
) -> Result<(), AllocError> {
    text.push_str("paragraph\n")?;
    match write_paragraph(alloc, paragraph) {
        Ok(bytes) => text.push_str(text_of(bytes.as_slice())),
        // No other fault than a want of memory.
        Err(_) => Err(AllocError),
    }
}

fn written(alloc: Global, paragraphs: &[Paragraph]) -> Result<String, AllocError> {
    let mut text = String::new(alloc);
    for paragraph in paragraphs {
        push_paragraph(alloc, &mut text, paragraph)?;
    }
    Ok(text)
}

// Control text as it is read and written.
fn read_control(alloc: Global, bytes: &[u8]) -> Result<String, AllocError> {
    match read_paragraphs(alloc, bytes) {
        Ok(paragraphs) => written(alloc, paragraphs.as_slice()),
        Err(fault) => format!(in alloc; "{fault:?}"),
    }
}

// The package in a copy.
fn package_in(alloc: Global, paragraph: &Paragraph) -> Result<String, AllocError> {
    match paragraph.copy()?.get(b"package") {
        Some(field) => String::from_str(alloc, text_of(field.first.as_slice())),
        None => String::from_str(alloc, "no package"),
    }
}

// What a text that is to be one paragraph says of its package.
fn package_of(alloc: Global, bytes: &[u8]) -> Result<String, AllocError> {
    match read_one(alloc, bytes) {
        Ok(paragraph) => package_in(alloc, &paragraph),
        Err(fault) => format!(in alloc; "{fault:?}"),
    }
}

// Adds a copy of a clause as it is printed.
fn push_clause(text: &mut String, clause: &Clause) -> Result<(), AllocError> {
    let printed = clause.copy()?.printed()?;
    text.push_str(printed.as_str())?;
    text.push('\n')
}

fn push_clauses(text: &mut String, clauses: &[Clause]) -> Result<(), AllocError> {
    for clause in clauses {
        push_clause(text, clause)?;
    }
    Ok(())
}

// The clauses of a copy, a line for each.
fn printed(alloc: Global, relations: &Relations) -> Result<String, AllocError> {
    let mut text = String::new(alloc);
    push_clauses(&mut text, relations.copy()?.clauses())?;
    Ok(text)
}

// A relation field as it is read and printed.
fn read_field(alloc: Global, field: &str, form: Form) -> Result<String, AllocError> {
    match Relations::read(alloc, field.as_bytes(), form) {
        Ok(relations) => printed(alloc, &relations),
        Err(fault) => format!(in alloc; "{fault:?}"),
    }
}

// Adds an entry: its name, and behind a space its version.
fn push_entry(text: &mut String, entry: &Provided) -> Result<(), AllocError> {
    text.push_str(entry.name.as_str())?;
    if let Some(version) = &entry.version {
        text.push(' ')?;
        text.push_str(version.text())?;
    }
    text.push('\n')
}

fn push_entries(text: &mut String, entries: &[Provided]) -> Result<(), AllocError> {
    for entry in entries {
        push_entry(text, entry)?;
    }
    Ok(())
}

// The entries of a copy, a line for each.
fn entries(alloc: Global, provides: &Provides) -> Result<String, AllocError> {
    let mut text = String::new(alloc);
    push_entries(&mut text, provides.copy()?.entries())?;
    Ok(text)
}

// A Provides field as it is read.
fn read_provides(alloc: Global, field: &str) -> Result<String, AllocError> {
    match Provides::read(alloc, field.as_bytes()) {
        Ok(provides) => entries(alloc, &provides),
        Err(fault) => format!(in alloc; "{fault:?}"),
    }
}
