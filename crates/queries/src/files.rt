// What is told of the file lists.
ghost use Rattle.std.specs.Prelude.{◌≡◌, ◌++◌, IfOk, OnOk, map, string_bytes};
ghost use Rattle.std.specs.List.{flat_map};
ghost use Rattle.file_lists.specs.Owners.{listed, paths_of};
ghost use Rattle.queries.specs.Files.{files_text, listing_text, matching_in, matching_lines, matching_text, search_line, search_text};
ghost use Rattle.queries.specs.Paths.{path_line};

use crate::paths::{path_line, path_text};
use crate::records::by_name;
use diversions::Diversions;
use file_lists::{FileLists, Listed};
use host_core::RootPath;
use name_patterns::matches;
use shown_lines::line;
use status_db::NotedDatabase;
use status_records::Record;
use std::alloc::{AllocError, Global};
use texts::{Bytes, Text};

fn add_paths(alloc: Global, lines: &mut String, paths: &[RootPath]) -> Result<(), AllocError>
    ensures { OnOk result (string_bytes lines.new ≡ string_bytes lines.old ++ flat_map path_line
        paths.now) }
{
    for path in paths {
        let line = path_line(alloc, path)?;
        lines.push_str(line.as_str())?;
    }
    Ok(())
}

fn listing_text(alloc: Global, paths: &[RootPath]) -> Result<Bytes, AllocError>
    ensures { IfOk result (λ text. text ≡ listing_text paths.now) }
{
    let mut lines = String::from_str(alloc, "/.\n")?;
    add_paths(alloc, &mut lines, paths)?;
    Ok(Bytes::new(lines.into_bytes()))
}

/// The paths that a package lists; none where the package has no record.
pub fn files_text(
    alloc: Global,
    database: &NotedDatabase,
    lists: &FileLists,
    name: &Text,
) -> Result<Option<Bytes>, AllocError>
    ensures { IfOk result (λ text. text ≡ files_text database.now.records lists.now.lists
        name.now) }
{
    match database.get(name) {
        Some(_) => Ok(Some(listing_text(alloc, lists.list_of(name))?)),
        None => Ok(None),
    }
}

fn listed_line(alloc: Global, name: &Text, path: &RootPath) -> Result<String, AllocError>
    ensures { IfOk result (λ printed. string_bytes printed ≡ search_line
        (listed name.now path.now)) }
{
    let name = name.as_str();
    let path = path_text(path);
    let content = format!(in alloc; "{name}: {path}")?;
    line(alloc, content.as_str())
}

fn search_line(alloc: Global, listed: &Listed) -> Result<String, AllocError>
    ensures { IfOk result (λ printed. string_bytes printed ≡ search_line listed.now) }
{
    listed_line(alloc, &listed.name, &listed.path)
}

fn add_listed(alloc: Global, lines: &mut String, all: &[Listed]) -> Result<(), AllocError>
    ensures { OnOk result (string_bytes lines.new ≡ string_bytes lines.old ++ flat_map search_line
        all.now) }
{
    for listed in all {
        let line = search_line(alloc, listed)?;
        lines.push_str(line.as_str())?;
    }
    Ok(())
}

/// The listed paths that lie at a place, each with its package.
pub fn search_text(
    alloc: Global,
    lists: &FileLists,
    diversions: &Diversions,
    place: &RootPath,
) -> Result<Bytes, AllocError>
    ensures { IfOk result (λ text. text ≡ search_text diversions.now.ways lists.now.lists
        place.now) }
{
    let owners = lists.owners(alloc, diversions, place)?;
    let mut lines = String::new(alloc);
    add_listed(alloc, &mut lines, owners.items.as_slice())?;
    Ok(Bytes::new(lines.into_bytes()))
}

// The line of a listed path that matches a pattern.
fn matching_lines(
    alloc: Global,
    pattern: &Text,
    name: &Text,
    path: &RootPath,
) -> Result<String, AllocError>
    ensures { IfOk result (λ printed. string_bytes printed ≡ matching_lines pattern.now name.now
        path.now) }
{
    if matches(
        alloc,
        pattern.as_str().as_bytes(),
        path_text(path).as_bytes(),
    )? {
        return listed_line(alloc, name, path);
    }
    Ok(String::new(alloc))
}

fn add_matching_in(
    alloc: Global,
    lines: &mut String,
    pattern: &Text,
    lists: &FileLists,
    name: &Text,
) -> Result<(), AllocError>
    ensures { OnOk result (string_bytes lines.new ≡ string_bytes lines.old
        ++ flat_map (matching_lines pattern.now name.now) (paths_of lists.now.lists name.now)) }
{
    for path in lists.list_of(name) {
        let printed = matching_lines(alloc, pattern, name, path)?;
        lines.push_str(printed.as_str())?;
    }
    Ok(())
}

fn add_matching(
    alloc: Global,
    lines: &mut String,
    pattern: &Text,
    lists: &FileLists,
    entries: &[&Record],
) -> Result<(), AllocError>
    ensures { OnOk result (string_bytes lines.new ≡ string_bytes lines.old
        ++ flat_map (matching_in pattern.now lists.now.lists) (map (λ r. r.now) entries.now)) }
{
    for entry in entries {
        add_matching_in(alloc, lines, pattern, lists, &entry.name)?;
    }
    Ok(())
}

/// The listed paths that match a pattern, each with its package, in the order of the packages' names.
pub fn matching_text(
    alloc: Global,
    pattern: &Text,
    database: &NotedDatabase,
    lists: &FileLists,
) -> Result<Bytes, AllocError>
    ensures { IfOk result (λ text. text ≡ matching_text pattern.now database.now.records
        lists.now.lists) }
{
    let ordered = by_name(alloc, database.records())?;
    let mut lines = String::new(alloc);
    add_matching(alloc, &mut lines, pattern, lists, ordered.as_slice())?;
    Ok(Bytes::new(lines.into_bytes()))
}
