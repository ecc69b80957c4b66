// The rows of dpkg's table, and how wide its columns are.
ghost use Rattle.std.specs.Prelude.{◌≡◌, IfOk, fold, length, map, max, option_copied};
ghost use Rattle.record_formats.specs.Tables.{least, row_from, row_of, widened, widths_of};

use crate::values::{abbreviation, line_in, qualified_name, summary};
use control_fields::Paragraph;
use status_records::{Record, paragraph_of};
use std::alloc::{AllocError, Global};
use texts::Bytes;

/// What is told of a package.
#[derive(Drop)]
pub(crate) struct Row {
    pub(crate) standing: Bytes,
    pub(crate) name: Bytes,
    pub(crate) version: Bytes,
    pub(crate) architecture: Bytes,
    pub(crate) summary: Bytes,
}

/// How wide the columns are.
#[derive(Clone, Copy)]
pub(crate) struct Widths {
    pub(crate) name: usize,
    pub(crate) version: usize,
    pub(crate) architecture: usize,
    pub(crate) summary: usize,
}

fn row_from(
    alloc: Global,
    root: Option<&str>,
    entry: &Record,
    fields: &Paragraph,
) -> Result<Row, AllocError>
    ensures { IfOk result (λ row. row ≡ row_from (option_copied root.entry) entry.now fields.now) }
{
    Ok(Row {
        standing: abbreviation(alloc, entry)?,
        name: qualified_name(alloc, root, entry, fields)?,
        version: Bytes::from_slice(alloc, entry.version.text().as_bytes())?,
        architecture: Bytes::from_slice(alloc, line_in(fields, b"architecture"))?,
        summary: Bytes::from_slice(alloc, summary(entry, fields))?,
    })
}

fn row_of(alloc: Global, root: Option<&str>, entry: &Record) -> Result<Row, AllocError>
    ensures { IfOk result (λ row. row ≡ row_of (option_copied root.entry) entry.now) }
{
    let fields = paragraph_of(alloc, entry)?;
    row_from(alloc, root, entry, &fields)
}

/// The rows of records, in a root of this architecture.
pub(crate) fn rows_of(
    alloc: Global,
    root: Option<&str>,
    entries: &[&Record],
) -> Result<Vec<Row>, AllocError>
    ensures { IfOk result (λ rows. rows.items ≡ map (row_of (option_copied root.entry))
        (map (λ r. r.now) entries.now)) }
{
    let mut rows = Vec::new(alloc);
    for entry in entries {
        rows.push(row_of(alloc, root, entry)?)?;
    }
    Ok(rows)
}

fn wider(width: usize, text: &[u8]) -> usize
    ensures { result ≡ max width (length text.now) }
{
    if width < text.len() {
        return text.len();
    }
    width
}

fn widened(widths: Widths, row: &Row) -> Widths
    ensures { result ≡ widened widths row.now }
{
    Widths {
        name: wider(widths.name, row.name.as_slice()),
        version: wider(widths.version, row.version.as_slice()),
        architecture: wider(widths.architecture, row.architecture.as_slice()),
        summary: wider(widths.summary, row.summary.as_slice()),
    }
}

fn least() -> Widths
    ensures { result ≡ least }
{
    Widths {
        name: 14,
        version: 12,
        architecture: 12,
        summary: 33,
    }
}

/// How wide the columns of these rows are.
pub(crate) fn widths_of(rows: &[Row]) -> Widths
    ensures { result ≡ widths_of rows.now }
{
    let mut widths = least();
    for row in rows {
        widths = widened(widths, row);
    }
    widths
}
