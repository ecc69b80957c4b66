// What is told of what is wanted of packages.
ghost use Rattle.std.specs.Prelude.{◌≡◌, ◌++◌, IfOk, OnOk, map, string_bytes};
ghost use Rattle.std.specs.List.{flat_map};
ghost use Rattle.queries.specs.Selections.{is_wanted, selection_line, selection_lines, selections_text, tabs_behind};

use crate::asked::{Told, asked, unfound};
use shown_lines::shown;
use status_db::NotedDatabase;
use status_records::{Record, Want};
use std::alloc::{AllocError, Global};
use texts::{Bytes, Text};

// The tabs between a name and what is wanted of its package.
fn tabs_behind(name: &str) -> &'static str
    ensures { result.now ≡ tabs_behind name.now }
{
    match name.len() / 8 {
        0 => "\t\t\t\t\t\t",
        1 => "\t\t\t\t\t",
        2 => "\t\t\t\t",
        3 => "\t\t\t",
        4 => "\t\t",
        _ => "\t",
    }
}

fn selection_line(alloc: Global, entry: &Record) -> Result<String, AllocError>
    ensures { IfOk result (λ printed. string_bytes printed ≡ selection_line entry.now) }
{
    let name = entry.name.as_str();
    let mut line = shown(alloc, name)?;
    line.push_str(tabs_behind(name))?;
    line.push_str(entry.want.name())?;
    line.push_str("\n")?;
    Ok(line)
}

fn is_wanted(want: Want) -> bool
    ensures { result ≡ is_wanted want }
{
    match want {
        Want::Unknown => false,
        Want::Install => true,
        Want::Hold => true,
        Want::Deinstall => true,
        Want::Purge => true,
    }
}

// The line of a package of which something is wanted.
fn selection_lines(alloc: Global, entry: &Record) -> Result<String, AllocError>
    ensures { IfOk result (λ printed. string_bytes printed ≡ selection_lines entry.now) }
{
    if is_wanted(entry.want) {
        return selection_line(alloc, entry);
    }
    Ok(String::new(alloc))
}

fn add_selections(alloc: Global, lines: &mut String, entries: &[&Record]) -> Result<(), AllocError>
    ensures { OnOk result (string_bytes lines.new ≡ string_bytes lines.old ++ flat_map
        selection_lines (map (λ r. r.now) entries.now)) }
{
    for entry in entries {
        let line = selection_lines(alloc, entry)?;
        lines.push_str(line.as_str())?;
    }
    Ok(())
}

/// What is wanted of the packages that have a record and whose names match one of the patterns, or
/// of all without a pattern, in the order of their names, as dpkg's `--get-selections` prints it; of
/// a package of which nothing is wanted there is no line.
pub fn selections_text(
    alloc: Global,
    patterns: &[Text],
    database: &NotedDatabase,
) -> Result<Told, AllocError>
    ensures { IfOk result (λ told. told ≡ selections_text patterns.now database.now.records) }
{
    let entries = asked(alloc, patterns, database.records())?;
    let (mut lines, complete) = unfound(alloc, patterns, database.records())?;
    add_selections(alloc, &mut lines, entries.as_slice())?;
    Ok(Told {
        text: Bytes::new(lines.into_bytes()),
        complete,
    })
}
