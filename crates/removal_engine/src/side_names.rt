// Names beside conffiles at which nothing is left behind a purge.
ghost use Rattle.std.specs.Prelude.{◌≡◌, ◌≢◌, ◌<◌, ◌++◌, ◌∷◌, [], ℕ, map, IfOk, MatchOption, OnOk, length, get_or, string_bytes, codes};
ghost use Rattle.diversions.specs.Ways.{place};
ghost use Rattle.host_core.specs.Paths.{reserved_suffixes};
ghost use Rattle.host_core.specs.Suffixes.{suffix_text};
ghost use Rattle.listed_files.specs.Concluding.{AreElsewhere};
ghost use Rattle.removal_engine.specs.Names.{ownerless, purged_names, side_names_at, signed};

use diversions::Diversions;
use file_lists::FileLists;
use host_core::{RootPath, ShipPath, Suffix};
use list_changes::{clearable_name, joined};
use status_records::Record;
use std::alloc::{AllocError, Global};
use texts::Text;

// Adds a name with an ending, unless another package's list has a path of that place.
fn push_ownerless(
    alloc: Global,
    lists: &FileLists,
    diversions: &Diversions,
    name: &Text,
    at: &str,
    ending: &str,
    names: &mut Vec<RootPath>,
) -> Result<(), AllocError>
    ensures { OnOk result
        (names.new.items
        ≡ names.old.items
        ++ ownerless diversions.now.ways lists.now.lists name.now
        ((at.now ++ ending.now) ∷ [])) }
{
    let Some(beside) = clearable_name(alloc, at, ending)? else {
        return Ok(());
    };
    if lists.has_other_owner(alloc, diversions, name, &beside)? {
        return Ok(());
    }
    names.push(beside)?;
    Ok(())
}

fn cut_last(path: &str) -> Option<(&str, &str)>
    ensures { MatchOption result ((i : ℕ) → i < length path.now → get_or path.now i 0 ≢ 47)
        (λ x. (path.now ≡ x.0.now ++ 47 ∷ x.1.now)
        × ((i : ℕ) → i < length x.1.now → get_or x.1.now i 0 ≢ 47)) }
{
    path.rsplit_once('/')
}

// A number sign in front of the last name.
fn signed(alloc: Global, at: &str) -> Result<String, AllocError>
    ensures { IfOk result (λ s. string_bytes s ≡ signed at.now) }
{
    let Some((front, name)) = cut_last(at) else {
        return joined(alloc, "#", at);
    };
    let sign = joined(alloc, front, "/#")?;
    joined(alloc, sign.as_str(), name)
}

// Adds a conffile and what editors leave beside it.
fn push_edited(
    alloc: Global,
    lists: &FileLists,
    diversions: &Diversions,
    name: &Text,
    at: &str,
    names: &mut Vec<RootPath>,
) -> Result<(), AllocError>
    ensures { OnOk result
        (names.new.items
        ≡ names.old.items
        ++ ownerless diversions.now.ways lists.now.lists name.now
        (at.now ∷ (at.now ++ codes "~") ∷ (at.now ++ codes "%") ∷ (signed at.now ++ codes "#")
        ∷ [])) }
{
    push_ownerless(alloc, lists, diversions, name, at, "", names)?;
    push_ownerless(alloc, lists, diversions, name, at, "~", names)?;
    push_ownerless(alloc, lists, diversions, name, at, "%", names)?;
    let signed = signed(alloc, at)?;
    push_ownerless(alloc, lists, diversions, name, signed.as_str(), "#", names)?;
    Ok(())
}

// Adds a name with a reserved ending, unless another package's list has a path of that place.
fn push_suffixed(
    alloc: Global,
    lists: &FileLists,
    diversions: &Diversions,
    name: &Text,
    at: &str,
    suffix: Suffix,
    names: &mut Vec<RootPath>,
) -> Result<(), AllocError>
    ensures { OnOk result
        (names.new.items
        ≡ names.old.items
        ++ ownerless diversions.now.ways lists.now.lists name.now
        ((at.now ++ suffix_text suffix) ∷ [])) }
{
    push_ownerless(alloc, lists, diversions, name, at, suffix.text(), names)
}

// Adds the names that the installer leaves beside a conffile.
fn push_reserved(
    alloc: Global,
    lists: &FileLists,
    diversions: &Diversions,
    name: &Text,
    at: &str,
    names: &mut Vec<RootPath>,
) -> Result<(), AllocError>
    ensures { OnOk result
        (names.new.items
        ≡ names.old.items
        ++ ownerless diversions.now.ways lists.now.lists name.now
        (map (λ suffix. at.now ++ suffix) reserved_suffixes)) }
{
    push_suffixed(alloc, lists, diversions, name, at, Suffix::New, names)?;
    push_suffixed(alloc, lists, diversions, name, at, Suffix::Old, names)?;
    push_suffixed(alloc, lists, diversions, name, at, Suffix::Dist, names)?;
    push_suffixed(alloc, lists, diversions, name, at, Suffix::Tmp, names)?;
    push_suffixed(alloc, lists, diversions, name, at, Suffix::Inst, names)?;
    Ok(())
}

// Adds the side names of one conffile.
fn push_side_names(
    alloc: Global,
    lists: &FileLists,
    diversions: &Diversions,
    name: &Text,
    path: &ShipPath,
    names: &mut Vec<RootPath>,
) -> Result<(), AllocError>
    ensures { OnOk result
        (names.new.items
        ≡ names.old.items
        ++ side_names_at diversions.now.ways lists.now.lists name.now
        (place diversions.now.ways name.now path.now)) }
{
    let place = diversions.ship_place(name, path)?;
    let at = place.at()?;
    let owned = lists.has_other_owner(alloc, diversions, name, &at)?;
    if owned {
        return Ok(());
    }
    let text = place.as_str();
    push_edited(alloc, lists, diversions, name, text, names)?;
    push_reserved(alloc, lists, diversions, name, text, names)?;
    Ok(())
}

/// The names that a purge clears.
pub(crate) fn purged_names(
    alloc: Global,
    lists: &FileLists,
    diversions: &Diversions,
    entry: &Record,
) -> Result<Vec<RootPath>, AllocError>
    ensures names { IfOk result
        (λ names. names.items ≡ purged_names diversions.now.ways lists.now.lists entry.now) }
    ensures elsewhere { IfOk result (λ names. AreElsewhere names.items) }
{
    let mut names = Vec::new(alloc);
    for conffile in entry.conffiles.as_slice() {
        push_side_names(
            alloc,
            lists,
            diversions,
            &entry.name,
            &conffile.path,
            &mut names,
        )?;
    }
    Ok(names)
}
