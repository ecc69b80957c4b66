// Names beside the places of a package at which nothing is left behind a removal.
ghost use Rattle.std.specs.Prelude.{◌≡◌, ◌++◌, ◌∷◌, [], List, IfOk, OnOk, cond};
ghost use Rattle.std.specs.BTreeSet.{contains_text};
ghost use Rattle.std.specs.List.{list_any};
ghost use Rattle.std.specs.Str.{bytes_eq};
ghost use Rattle.host_core.specs.Paths.{Path};
ghost use Rattle.diversions.specs.Ways.{place};
ghost use Rattle.list_changes.specs.Clearable.{clearable};
ghost use Rattle.listed_files.specs.Concluding.{AreElsewhere};
ghost use Rattle.removal_engine.specs.Names.{cleared_names, stopped_names, unpack_names, waiting_names};

use crate::paths::conffile_paths;
use diversions::Diversions;
use file_lists::FileLists;
use host_core::{RootPath, ShipPath, Suffix};
use list_changes::clearable_name;
use status_records::{PendingDigest, Record};
use std::alloc::{AllocError, Global};
use std::collections::BTreeSet;
use texts::Text;

// Adds it.
fn push_name(
    alloc: Global,
    at: &str,
    ending: &str,
    names: &mut Vec<RootPath>,
) -> Result<(), AllocError>
    ensures { OnOk result
        (names.new.items ≡ names.old.items ++ clearable ((at.now ++ ending.now) ∷ [])) }
{
    if let Some(name) = clearable_name(alloc, at, ending)? {
        names.push(name)?;
    }
    Ok(())
}

fn push_unpack_names(
    alloc: Global,
    at: &RootPath,
    names: &mut Vec<RootPath>,
) -> Result<(), AllocError>
    ensures { OnOk result (names.new.items ≡ names.old.items ++ clearable (unpack_names at.now)) }
{
    let place = at.as_str();
    push_name(alloc, place, Suffix::Inst.text(), names)?;
    push_name(alloc, place, Suffix::Tmp.text(), names)?;
    Ok(())
}

// The texts of conffiles' paths.
fn texts_of(alloc: Global, conffiles: &[ShipPath]) -> Result<BTreeSet<String>, AllocError>
    ensures { IfOk result
        (λ set. (q : Path) → contains_text set q ≡ list_any (bytes_eq q) conffiles.now) }
{
    let mut set = BTreeSet::new(alloc);
    for path in conffiles {
        set.insert(String::from_str(alloc, path.as_str())?)?;
    }
    Ok(set)
}

// Adds those of a listed path that isn't in the set.
fn push_stopped(
    alloc: Global,
    diversions: &Diversions,
    name: &Text,
    conffiles: &BTreeSet<String>,
    path: &RootPath,
    names: &mut Vec<RootPath>,
) -> Result<(), AllocError>
    ensures { OnOk result
        (names.new.items
        ≡ names.old.items
        ++ cond (contains_text conffiles.now path.now) []
        (clearable (unpack_names (place diversions.now.ways name.now path.now)))) }
{
    if conffiles.contains(path.as_str()) {
        return Ok(());
    }
    let place = diversions.place(name, path)?;
    push_unpack_names(alloc, &place, names)
}

// Adds what an unpack that was stopped left beside listed paths that aren't conffiles.
fn push_all_stopped(
    alloc: Global,
    diversions: &Diversions,
    name: &Text,
    conffiles: &[ShipPath],
    listed: &[RootPath],
    names: &mut Vec<RootPath>,
) -> Result<(), AllocError>
    ensures { OnOk result
        (names.new.items
        ≡ names.old.items
        ++ stopped_names diversions.now.ways name.now conffiles.now listed.now) }
{
    let set = texts_of(alloc, conffiles)?;
    for path in listed {
        push_stopped(alloc, diversions, name, &set, path, names)?;
    }
    Ok(())
}

// Adds where conffiles wait to be settled.
fn push_waiting(
    alloc: Global,
    diversions: &Diversions,
    name: &Text,
    pending: &[PendingDigest],
    names: &mut Vec<RootPath>,
) -> Result<(), AllocError>
    ensures { OnOk result
        (names.new.items
        ≡ names.old.items ++ waiting_names diversions.now.ways name.now pending.now) }
{
    for digest in pending {
        let place = diversions.ship_place(name, &digest.path)?;
        push_name(alloc, place.as_str(), Suffix::New.text(), names)?;
    }
    Ok(())
}

/// Where conffiles of a package wait to be settled.
pub(crate) fn waiting_names(
    alloc: Global,
    diversions: &Diversions,
    entry: &Record,
) -> Result<Vec<RootPath>, AllocError>
    ensures names { IfOk result
        (λ names. names.items
        ≡ waiting_names diversions.now.ways entry.now.name entry.now.pending) }
    ensures elsewhere { IfOk result (λ names. AreElsewhere names.items) }
{
    let mut names = Vec::new(alloc);
    let pending = entry.pending.as_slice();
    push_waiting(alloc, diversions, &entry.name, pending, &mut names)?;
    Ok(names)
}

/// The names that a removal clears behind the paths.
pub(crate) fn cleared_names(
    alloc: Global,
    lists: &FileLists,
    diversions: &Diversions,
    entry: &Record,
) -> Result<Vec<RootPath>, AllocError>
    ensures names { IfOk result
        (λ names. names.items ≡ cleared_names diversions.now.ways lists.now.lists entry.now) }
    ensures elsewhere { IfOk result (λ names. AreElsewhere names.items) }
{
    let conffiles = conffile_paths(alloc, entry.conffiles.as_slice())?;
    let listed = lists.list_of(&entry.name);
    let mut names = Vec::new(alloc);
    push_all_stopped(
        alloc,
        diversions,
        &entry.name,
        conffiles.as_slice(),
        listed,
        &mut names,
    )?;
    Ok(names)
}
