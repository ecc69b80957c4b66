// dpkg's table of packages.
ghost use Rattle.std.specs.Prelude.{◌≡◌, ◌++◌, IfOk, OnOk, codes, map, option_copied};
ghost use Rattle.std.specs.List.{flat_map};
ghost use Rattle.record_formats.specs.Tables.{cell, cells, key_text, lines_text, row_text, rows_text, rule_text, strokes, table_text, title_text, widths_of};

use crate::rows::{Row, Widths, rows_of, widths_of};
use crate::values::{padded, repeated};
use status_records::Record;
use std::alloc::{AllocError, Global};
use texts::Bytes;

const KEY: &str =
    "Desired=Unknown/Install/Remove/Purge/Hold\n| Status=Not/Inst/Conf-files/Unpacked/halF-conf/Half-inst/trig-aWait/Trig-pend\n|/ Err?=(none)/Reinst-required (Status,Err: uppercase=bad)\n";

fn add_cell(alloc: Global, width: usize, value: &[u8], text: &mut Vec<u8>) -> Result<(), AllocError>
    ensures { OnOk result (text.new.items ≡ text.old.items ++ cell width value.now) }
{
    let all = padded(alloc, value, width, true)?;
    text.extend_from_slice(all.as_slice())?;
    text.extend_from_slice(" ".as_bytes())
}

fn add_cells(
    alloc: Global,
    widths: Widths,
    name: &[u8],
    version: &[u8],
    architecture: &[u8],
    rest: &[u8],
    text: &mut Vec<u8>,
) -> Result<(), AllocError>
    ensures { OnOk result (text.new.items ≡ text.old.items ++ cells widths name.now version.now
        architecture.now rest.now) }
{
    add_cell(alloc, widths.name, name, text)?;
    add_cell(alloc, widths.version, version, text)?;
    add_cell(alloc, widths.architecture, architecture, text)?;
    text.extend_from_slice(rest)?;
    text.extend_from_slice("\n".as_bytes())
}

fn add_row(alloc: Global, widths: Widths, row: &Row, text: &mut Vec<u8>) -> Result<(), AllocError>
    ensures { OnOk result (text.new.items ≡ text.old.items ++ row_text widths row.now) }
{
    text.extend_from_slice(row.standing.as_slice())?;
    text.extend_from_slice(" ".as_bytes())?;
    add_cells(
        alloc,
        widths,
        row.name.as_slice(),
        row.version.as_slice(),
        row.architecture.as_slice(),
        row.summary.as_slice(),
        text,
    )
}

fn add_title(alloc: Global, widths: Widths, text: &mut Vec<u8>) -> Result<(), AllocError>
    ensures { OnOk result (text.new.items ≡ text.old.items ++ title_text widths) }
{
    text.extend_from_slice("||/ ".as_bytes())?;
    add_cells(
        alloc,
        widths,
        "Name".as_bytes(),
        "Version".as_bytes(),
        "Architecture".as_bytes(),
        "Description".as_bytes(),
        text,
    )
}

fn add_strokes(
    alloc: Global,
    before: &str,
    width: usize,
    text: &mut Vec<u8>,
) -> Result<(), AllocError>
    ensures { OnOk result (text.new.items ≡ text.old.items ++ (before.now ++ strokes width)) }
{
    text.extend_from_slice(before.as_bytes())?;
    let all = repeated(alloc, b'=', width)?;
    text.extend_from_slice(all.as_slice())
}

fn add_rule(alloc: Global, widths: Widths, text: &mut Vec<u8>) -> Result<(), AllocError>
    ensures { OnOk result (text.new.items ≡ text.old.items ++ rule_text widths) }
{
    add_strokes(alloc, "+++-", widths.name, text)?;
    add_strokes(alloc, "-", widths.version, text)?;
    add_strokes(alloc, "-", widths.architecture, text)?;
    add_strokes(alloc, "-", widths.summary, text)?;
    text.extend_from_slice("\n".as_bytes())
}

fn add_rows(
    alloc: Global,
    widths: Widths,
    rows: &[Row],
    text: &mut Vec<u8>,
) -> Result<(), AllocError>
    ensures { OnOk result (text.new.items ≡ text.old.items ++ flat_map (row_text widths) rows.now) }
{
    for row in rows {
        add_row(alloc, widths, row, text)?;
    }
    Ok(())
}

fn lines_text(alloc: Global, rows: &[Row]) -> Result<Bytes, AllocError>
    ensures { IfOk result (λ text. text ≡ lines_text rows.now) }
{
    let widths = widths_of(rows);
    let mut text = Vec::from_slice(alloc, KEY.as_bytes())?;
    add_title(alloc, widths, &mut text)?;
    add_rule(alloc, widths, &mut text)?;
    add_rows(alloc, widths, rows, &mut text)?;
    Ok(Bytes::new(text))
}

// No line where there is no row.
fn rows_text(alloc: Global, rows: &[Row]) -> Result<Bytes, AllocError>
    ensures { IfOk result (λ text. text ≡ rows_text rows.now) }
{
    if rows.is_empty() {
        return Ok(Bytes::new(Vec::new(alloc)));
    }
    lines_text(alloc, rows)
}

/// dpkg's table of records, in a root of this architecture.
pub fn table_text(
    alloc: Global,
    root: Option<&str>,
    entries: &[&Record],
) -> Result<Bytes, AllocError>
    ensures { IfOk result (λ text. text ≡ table_text (option_copied root.entry)
        (map (λ r. r.now) entries.now)) }
{
    let rows = rows_of(alloc, root, entries)?;
    rows_text(alloc, rows.as_slice())
}
