// The paths that the lines of `DEBIAN/conffiles` name.
ghost use Rattle.std.specs.Prelude.{◌≡◌, ◌||◌, ◌++◌, ◌∷◌, [], true, ℕ, List, IfOk, OnOk, Contains};
ghost use Rattle.std.specs.List.{list_any, filter};
ghost use Rattle.std.specs.Str.{IsUtf8, bytes_eq};
ghost use Rattle.std.specs.BTreeSet.{contains_text};
ghost use Rattle.host_core.specs.Paths.{is_ship_text};
ghost use Rattle.host_core.specs.World.{is_file};
ghost use Rattle.package_tree.specs.LineNames.{is_named, HasTakenPath};
ghost use Rattle.package_tree.specs.ShipMap.{paths_of, is_file_in};
ghost use Rattle.package_tree.specs.Shipped.{AreInOrder};

use crate::conffile_lines::Entry;
use crate::shipped::Shipped;
use host_core::{Node, ShipPath};
use std::alloc::{AllocError, Global};
use std::collections::BTreeSet;

/// The two kinds of lines that name paths.
#[derive(Clone, Copy)]
pub(crate) enum LineKind {
    Plain,
    Flagged,
}

// Adds bytes that are text.
fn add_text(alloc: Global, bytes: &[u8], names: &mut BTreeSet<String>) -> Result<(), AllocError>
    ensures { OnOk result
        ((q : List ℕ) → IsUtf8 q
        → contains_text names.new q ≡ (bytes_eq bytes.now q || contains_text names.old q)) }
{
    if let Ok(text) = str::from_utf8(bytes) {
        names.insert(String::from_str(alloc, text)?)?;
    }
    Ok(())
}

// Adds what a line names, if it is of this kind.
fn add_name(
    alloc: Global,
    entry: &Entry,
    kind: LineKind,
    names: &mut BTreeSet<String>,
) -> Result<(), AllocError>
    ensures { OnOk result
        ((q : List ℕ) → IsUtf8 q
        → contains_text names.new q ≡ (is_named kind q entry.now || contains_text names.old q)) }
{
    match (kind, entry) {
        (LineKind::Plain, Entry::Plain(path)) => add_text(alloc, path.as_slice(), names),
        (LineKind::Flagged, Entry::Flagged(path)) => add_text(alloc, path.as_slice(), names),
        _ => Ok(()),
    }
}

/// What the lines of one kind name, as far as it is text.
pub(crate) fn names_of(
    alloc: Global,
    entries: &[Entry],
    kind: LineKind,
) -> Result<BTreeSet<String>, AllocError>
    ensures { IfOk result
        (λ names.
        (q : List ℕ) → IsUtf8 q → contains_text names q ≡ list_any (is_named kind q) entries.now) }
{
    let mut names = BTreeSet::new(alloc);
    for entry in entries {
        add_name(alloc, entry, kind, &mut names)?;
    }
    Ok(names)
}

fn is_file(node: &Node) -> bool
    ensures { result ≡ is_file node.now }
{
    match node {
        Node::File { .. } => true,
        Node::Dir { .. } => false,
        Node::Link { .. } => false,
    }
}

fn is_file_in(file: &Shipped, names: &BTreeSet<String>) -> bool
    ensures { result ≡ is_file_in (contains_text names.now) file.now }
{
    is_file(&file.node) && names.contains(file.path.as_str())
}

// Adds the path of a shipped file that is in a set.
fn add_file_in(
    file: &Shipped,
    names: &BTreeSet<String>,
    paths: &mut Vec<ShipPath>,
) -> Result<(), AllocError>
    ensures { OnOk result
        (paths.new.items
        ≡ paths.old.items
        ++ paths_of (filter (is_file_in (contains_text names.now)) (file.now ∷ []))) }
{
    if is_file_in(file, names) {
        paths.push(file.path.copy()?)?;
        return Ok(());
    }
    Ok(())
}

/// The paths of the shipped files that are in a set, in their order.
pub(crate) fn files_in(
    alloc: Global,
    files: &[Shipped],
    names: &BTreeSet<String>,
) -> Result<Vec<ShipPath>, AllocError>
    ensures { IfOk result
        (λ paths.
        paths.items ≡ paths_of (filter (is_file_in (contains_text names.now)) files.now)) }
{
    let mut paths = Vec::new(alloc);
    for file in files {
        add_file_in(file, names, &mut paths)?;
    }
    Ok(paths)
}

// Adds the path that a text is, if a package may ship it.
fn add_path(alloc: Global, text: &str, paths: &mut Vec<ShipPath>) -> Result<(), AllocError>
    ensures { OnOk result (HasTakenPath text.now paths.old.items paths.new.items) }
{
    match ShipPath::parse(alloc, text)? {
        Some(path) => {
            paths.push(path)?;
            Ok(())
        }
        None => Ok(()),
    }
}

/// The texts of a set that are paths which a package may ship, in their order.
pub(crate) fn in_order(alloc: Global, names: BTreeSet<String>) -> Result<Vec<ShipPath>, AllocError>
    ensures order { IfOk result (λ paths. AreInOrder paths.items) }
    ensures only { IfOk result
        (λ paths. (q : List ℕ) → Contains paths.items q → contains_text names q ≡ true) }
    ensures whole { IfOk result
        (λ paths. (q : List ℕ) → contains_text names q ≡ true → is_ship_text q ≡ true
        → Contains paths.items q) }
{
    let mut left = names;
    let mut paths = Vec::new(alloc);
    while let Some(text) = left.pop_first() {
        add_path(alloc, text.as_str(), &mut paths)?;
    }
    Ok(paths)
}
