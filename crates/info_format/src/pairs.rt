// The two names of each control file of such packages.
ghost use Rattle.std.specs.Prelude.{◌≡◌, ◌++◌, ◌∷◌, Contains, IfOk, IfSome, IfNone, List, MatchOption, OnOk, false, true, ℕ};
ghost use Rattle.host_core.specs.Paths.{is_path};
ghost use Rattle.file_lists.specs.Info.{entry_path};
ghost use Rattle.info_format.specs.Names.{Architectures, are_ending_signs, is_ending, is_ending_sign};
ghost use Rattle.info_format.specs.Naming.{ArePairs, AreQualified, HasPairs, IsEntryOf, IsPairAt, IsPairIn};

use crate::naming::Qualified;
use administration::INFO;
use host_core::RootPath;
use std::alloc::{AllocError, Global};
use texts::Text;

/// A control file's path with the package's architecture in its name, and that without.
#[derive(Drop)]
pub(crate) struct Pair {
    pub(crate) long: RootPath,
    pub(crate) short: RootPath,
}

fn is_ending_sign(byte: u8) -> bool
    ensures { result ≡ is_ending_sign byte }
{
    !(byte == b'.' || byte == b'/' || byte == b':')
}

fn are_ending_signs(bytes: &[u8]) -> bool
    ensures { result ≡ are_ending_signs bytes.now }
{
    bytes.iter().all(|byte| is_ending_sign(*byte))
}

fn is_ending(text: &str) -> bool
    ensures { result ≡ is_ending text.now }
{
    are_ending_signs(text.as_bytes()) && text != "dpkg-inst"
}

// What an entry ends in behind this front and a dot.
fn ending_behind<'a>(front: &Text, entry: &'a Text) -> Option<&'a str>
    ensures some { IfSome result (λ ending. (entry.entry.now ≡ front.now ++ 46 ∷ ending.now)
        × (is_ending ending.now ≡ true)) }
    ensures none { IfNone result ((ending : List ℕ) → is_ending ending ≡ true
        → entry.entry.now ≡ front.now ++ 46 ∷ ending → ⊥) }
{
    let Some(rest) = entry.as_str().strip_prefix(front.as_str()) else {
        return None;
    };
    let Some(ending) = rest.strip_prefix('.') else {
        return None;
    };
    if is_ending(ending) {
        return Some(ending);
    }
    None
}

// What an entry ends in that is a control file of this owner.
fn ending_of<'a>(owner: &Qualified, entry: &'a Text) -> Option<&'a str>
    ensures some { IfSome result (λ ending. IsEntryOf owner.now entry.entry.now ending.now) }
    ensures none { IfNone result ((ending : List ℕ) → IsEntryOf owner.now entry.entry.now ending
        → ⊥) }
{
    match ending_behind(&owner.name, entry) {
        Some(ending) => Some(ending),
        None => ending_behind(&owner.front, entry),
    }
}

// The path of a name, if it makes one.
fn path_of(alloc: Global, front: &Text, ending: &str) -> Result<Option<RootPath>, AllocError>
    ensures { IfOk result (λ o. MatchOption o
        (is_path (entry_path (front.now ++ 46 ∷ ending.now)) ≡ false)
        (λ p. p ≡ entry_path (front.now ++ 46 ∷ ending.now))) }
{
    let mut text = String::from_str(alloc, front.as_str())?;
    text.push('.')?;
    text.push_str(ending)?;
    RootPath::from_str(alloc, INFO)?.child(&Text::new(text))
}

// Both names of what ends so, if both make paths.
fn pair_of(alloc: Global, owner: &Qualified, ending: &str) -> Result<Option<Pair>, AllocError>
    ensures { IfOk result (IsPairIn owner.now ending.now) }
{
    let Some(long) = path_of(alloc, &owner.front, ending)? else {
        return Ok(None);
    };
    let Some(short) = path_of(alloc, &owner.name, ending)? else {
        return Ok(None);
    };
    long.law();
    short.law();
    Ok(Some(Pair { long, short }))
}

// The same, of an entry that is a control file of this owner.
fn pair_at(alloc: Global, owner: &Qualified, entry: &Text) -> Result<Option<Pair>, AllocError>
    ensures { IfOk result (IsPairAt owner.now entry.now) }
{
    match ending_of(owner, entry) {
        Some(ending) => pair_of(alloc, owner, ending),
        None => Ok(None),
    }
}

// Adds the names of a package's control files.
fn add_pairs(
    alloc: Global,
    owner: &Qualified,
    entries: &[Text],
    pairs: &mut Vec<Pair>,
) -> Result<(), AllocError>
    ensures { OnOk result (HasPairs owner.now entries.now pairs.old.items pairs.new.items) }
{
    for entry in entries {
        if let Some(pair) = pair_at(alloc, owner, entry)? {
            pairs.push(pair)?;
        }
    }
    Ok(())
}

/// The names among these entries that control files of these packages have, each with its other one.
pub(crate) fn pairs_of(
    alloc: Global,
    packages: &[Qualified],
    entries: &[Text],
) -> Result<Vec<Pair>, AllocError>
    ensures { (arches : Architectures) → AreQualified arches packages.now
        → IfOk result (λ pairs. ArePairs arches entries.now pairs.items) }
{
    let mut pairs = Vec::new(alloc);
    for owner in packages {
        add_pairs(alloc, owner, entries, &mut pairs)?;
    }
    Ok(pairs)
}
