// Which packages a question is about, by patterns for their names.
ghost use Rattle.std.specs.Prelude.{◌≡◌, ◌++◌, IfOk, OnOk, map, string_bytes};
ghost use Rattle.std.specs.List.{flat_map, list_all, list_any};
ghost use Rattle.name_patterns.specs.Patterns.{matches};
ghost use Rattle.queries.specs.Asked.{asked, is_asked, is_found, unfound_lines, unfound_text};

use crate::records::by_name;
use name_patterns::matches;
use shown_lines::line;
use status_records::Record;
use std::alloc::{AllocError, Global};
use texts::{Bytes, Text};

/// What is told of packages.
#[derive(Drop)]
pub struct Told {
    pub text: Bytes,
    /// Whether each pattern matches a package.
    pub complete: bool,
}

fn matches_any(alloc: Global, patterns: &[Text], name: &Text) -> Result<bool, AllocError>
    ensures { IfOk result (λ is. is ≡ list_any (λ pattern. matches pattern name.now) patterns.now) }
{
    for pattern in patterns {
        if matches(alloc, pattern.as_str().as_bytes(), name.as_str().as_bytes())? {
            return Ok(true);
        }
    }
    Ok(false)
}

fn is_asked(alloc: Global, patterns: &[Text], name: &Text) -> Result<bool, AllocError>
    ensures { IfOk result (λ is. is ≡ is_asked patterns.now name.now) }
{
    if patterns.is_empty() {
        return Ok(true);
    }
    matches_any(alloc, patterns, name)
}

/// The records whose names match one of the patterns, or all without a pattern, in the order of
/// their names' bytes.
pub(crate) fn asked<'a>(
    alloc: Global,
    patterns: &[Text],
    records: &'a [Record],
) -> Result<Vec<&'a Record>, AllocError>
    ensures { IfOk result (λ entries. map (λ r. r.now) entries.items ≡ asked patterns.now
        records.now) }
{
    let ordered = by_name(alloc, records)?;
    let mut entries = Vec::new(alloc);
    for entry in ordered.as_slice() {
        if is_asked(alloc, patterns, &entry.name)? {
            entries.push(*entry)?;
        }
    }
    Ok(entries)
}

fn is_found(alloc: Global, records: &[Record], pattern: &Text) -> Result<bool, AllocError>
    ensures { IfOk result (λ is. is ≡ is_found records.now pattern.now) }
{
    for entry in records {
        if matches(
            alloc,
            pattern.as_str().as_bytes(),
            entry.name.as_str().as_bytes(),
        )? {
            return Ok(true);
        }
    }
    Ok(false)
}

fn unfound_lines(alloc: Global, records: &[Record], pattern: &Text) -> Result<String, AllocError>
    ensures { IfOk result (λ printed. string_bytes printed ≡ unfound_lines records.now
        pattern.now) }
{
    if is_found(alloc, records, pattern)? {
        return Ok(String::new(alloc));
    }
    let pattern = pattern.as_str();
    let content = format!(in alloc; "refused {pattern} Unknown")?;
    line(alloc, content.as_str())
}

// The patterns that match the name of no package, a line each.
fn unfound_text(alloc: Global, patterns: &[Text], records: &[Record]) -> Result<String, AllocError>
    ensures { IfOk result (λ printed. string_bytes printed ≡ unfound_text patterns.now records.now) }
{
    let mut lines = String::new(alloc);
    for pattern in patterns {
        let printed = unfound_lines(alloc, records, pattern)?;
        lines.push_str(printed.as_str())?;
    }
    Ok(lines)
}

/// The same, and whether there is none.
pub(crate) fn unfound(
    alloc: Global,
    patterns: &[Text],
    records: &[Record],
) -> Result<(String, bool), AllocError>
    ensures text { IfOk result (λ told. string_bytes told.0 ≡ unfound_text patterns.now
        records.now) }
    ensures complete { IfOk result (λ told. told.1 ≡ list_all (is_found records.now)
        patterns.now) }
{
    let lines = unfound_text(alloc, patterns, records)?;
    let complete = lines.as_str().is_empty();
    Ok((lines, complete))
}
