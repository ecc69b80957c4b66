// What the package lists before, while and after its files are written, and which of the old paths go.
ghost use Rattle.std.specs.Prelude.{◌≡◌, not, IfOk, filter};
ghost use Rattle.std.specs.BTreeSet.{contains_text};
ghost use Rattle.std.specs.List.{AllByRecursion};
ghost use Rattle.std.specs.Option.{option_copied};
ghost use Rattle.file_lists.specs.Owners.{AreListPaths, IsListable, paths_of as listed_paths};
ghost use Rattle.package_tree.specs.ShipMap.{paths_of};
ghost use Rattle.listed_files.specs.Closing.{SparesAdministration};
ghost use Rattle.unpack_plan.specs.Lists.{entry_paths, staying, IsAfter, IsUnion, old_leaving};

use crate::conffile_paths::entry_paths;
use crate::texts_of::shipped_texts;
use diversions::Diversions;
use file_lists::{FileLists, Paths};
use file_removal::Leaving;
use host_core::RootPath;
use list_changes::{leaving_of, list_of, union_of};
use package_tree::{Package, Shipped};
use status_records::{ConffileEntry, Record};
use std::alloc::{AllocError, Global};
use std::collections::BTreeSet;
use texts::Text;

// Copies of the paths that the package lists.
fn listed_paths(alloc: Global, lists: &FileLists, name: &Text) -> Result<Paths, AllocError>
    ensures listed { IfOk result (λ paths. paths ≡ listed_paths lists.now.lists name.now) }
    ensures paths { IfOk result AreListPaths }
{
    lists.law();
    let mut items = Vec::new(alloc);
    for path in lists.list_of(name) {
        items.push(path.copy()?)?;
    }
    Ok(Paths { items })
}

// The shipped paths.
fn shipped_paths(alloc: Global, files: &[Shipped]) -> Result<Vec<RootPath>, AllocError>
    ensures paths { IfOk result (λ paths. paths.items ≡ paths_of files.now) }
    ensures listable { IfOk result (λ paths. AllByRecursion IsListable paths.items) }
{
    let mut paths = Vec::new(alloc);
    for file in files {
        file.path.law();
        paths.push(file.path.at()?)?;
    }
    Ok(paths)
}

// The paths of entries that aren't shipped.
fn staying_paths(
    alloc: Global,
    entries: &[ConffileEntry],
    shipped: &BTreeSet<String>,
) -> Result<Vec<RootPath>, AllocError>
    ensures paths { IfOk result (λ paths. paths.items
        ≡ entry_paths (filter (λ e. not (contains_text shipped.now e.path)) entries.now)) }
    ensures listable { IfOk result (λ paths. AllByRecursion IsListable paths.items) }
{
    let mut paths = Vec::new(alloc);
    for entry in entries {
        if shipped.contains(entry.path.as_str()) {
            continue;
        }
        entry.path.law();
        paths.push(entry.path.at()?)?;
    }
    Ok(paths)
}

// What the package lists then.
fn new_list(
    alloc: Global,
    files: &[Shipped],
    shipped: &[RootPath],
    fresh: &Record,
) -> Result<Paths, AllocError>
    requires shipped { shipped.now ≡ paths_of files.now }
    requires listable { AllByRecursion IsListable shipped.now }
    ensures { IfOk result (IsAfter files.now fresh.now) }
{
    let set = shipped_texts(alloc, files)?;
    let staying = staying_paths(alloc, fresh.conffiles.as_slice(), &set)?;
    let paths = list_of(alloc, shipped, staying.as_slice())?;
    Ok(paths)
}

// Which of the old paths go.
fn old_leaving(
    alloc: Global,
    lists: &FileLists,
    diversions: &Diversions,
    name: &Text,
    found: Option<&Record>,
    new_list: &[RootPath],
    listed: &[RootPath],
) -> Result<Vec<Leaving>, AllocError>
    ensures leaving { IfOk result (λ leaving. leaving.items
        ≡ old_leaving diversions.now.ways lists.now.lists name.now (option_copied found.entry)
        new_list.now listed.now) }
    ensures spares { IfOk result (λ leaving. SparesAdministration leaving.items) }
{
    let conffiles = entry_paths(alloc, found)?;
    let leaving = leaving_of(
        alloc,
        lists,
        diversions,
        name,
        new_list,
        conffiles.as_slice(),
        listed,
    )?;
    Ok(leaving)
}

/// The lists of an unpack, and which of the old paths go.
#[derive(Drop)]
pub(crate) struct ListChanges {
    pub(crate) listed: Paths,
    pub(crate) union: Paths,
    pub(crate) new_list: Paths,
    pub(crate) leaving: Vec<Leaving>,
}

// Those of a package that ships these files, with the record found and the one that it ends with.
fn changes_of(
    alloc: Global,
    lists: &FileLists,
    diversions: &Diversions,
    name: &Text,
    files: &[Shipped],
    found: Option<&Record>,
    fresh: &Record,
) -> Result<ListChanges, AllocError>
    ensures listed { IfOk result (λ c. c.listed ≡ listed_paths lists.now.lists name.now) }
    ensures listed_paths { IfOk result (λ c. AreListPaths c.listed) }
    ensures union { IfOk result (λ c. IsUnion c.listed (paths_of files.now) c.union) }
    ensures new_list { IfOk result (λ c. IsAfter files.now fresh.now c.new_list) }
    ensures leaving { IfOk result (λ c. c.leaving.items
        ≡ old_leaving diversions.now.ways lists.now.lists name.now (option_copied found.entry)
        c.new_list c.listed) }
    ensures spares { IfOk result (λ c. SparesAdministration c.leaving.items) }
{
    let listed = listed_paths(alloc, lists, name)?;
    let shipped = shipped_paths(alloc, files)?;
    let union = union_of(alloc, listed.as_slice(), shipped.as_slice())?;
    let new_list = new_list(alloc, files, shipped.as_slice(), fresh)?;
    let leaving = old_leaving(
        alloc,
        lists,
        diversions,
        name,
        found,
        new_list.as_slice(),
        listed.as_slice(),
    )?;
    Ok(ListChanges {
        listed,
        union,
        new_list,
        leaving,
    })
}

/// Those of an unpack of a tree.
pub(crate) fn own_changes(
    alloc: Global,
    lists: &FileLists,
    diversions: &Diversions,
    tree: &Package,
    found: Option<&Record>,
    fresh: &Record,
) -> Result<ListChanges, AllocError>
    ensures listed { IfOk result (λ c. c.listed ≡ listed_paths lists.now.lists tree.now.name) }
    ensures listed_paths { IfOk result (λ c. AreListPaths c.listed) }
    ensures union { IfOk result (λ c. IsUnion c.listed (paths_of tree.now.files) c.union) }
    ensures new_list { IfOk result (λ c. IsAfter tree.now.files fresh.now c.new_list) }
    ensures leaving { IfOk result (λ c. c.leaving.items
        ≡ old_leaving diversions.now.ways lists.now.lists tree.now.name
        (option_copied found.entry) c.new_list c.listed) }
    ensures spares { IfOk result (λ c. SparesAdministration c.leaving.items) }
{
    let files = tree.files.as_slice();
    let changes = changes_of(alloc, lists, diversions, &tree.name, files, found, fresh)?;
    Ok(changes)
}
