// Lines of `DEBIAN/conffiles` that don't fit what the package ships.
ghost use Rattle.std.specs.Prelude.{◌≡◌, ◌↔◌, IfOk, IsTrue, MatchBool, MatchOption, Some, Contains};
ghost use Rattle.host_core.specs.Host.{Needs};
ghost use Rattle.host_core.specs.Looks.{Looks};
ghost use Rattle.host_core.specs.declared.node.Kind.{Kind as AKind};
ghost use Rattle.package_tree.specs.Conffiles.{HasNoEntry};
ghost use Rattle.package_tree.specs.ConffileFaults.{IsAstray, IsFirstAstray, IsNameOf, IsOfBoth, named_by};
ghost use Rattle.package_tree.specs.ShipMap.{ShipsFile};
ghost use Rattle.package_tree.specs.Shipped.{AreInOrder, AreShipped, HasNoPath, IsFirstPath, IsShipLine};

use crate::conffile_lines::Entry;
use crate::fault::LineName;
use crate::line_text::LineText;
use host_core::{Host, HostFault, Kind, RootPath, ShipPath};
use std::alloc::{AllocError, Global};
use std::cmp::Ordering;

// The path among paths in their order, found by halves.
fn find<'a>(paths: &'a [RootPath], path: &[u8]) -> Option<&'a RootPath>
    requires { AreInOrder paths.now }
    ensures { MatchOption result (Contains paths.now path.now → ⊥)
        (λ found. (found.now ≡ path.now) × Contains paths.now path.now) }
{
    let mut rest = paths;
    while !rest.is_empty() {
        let (front, back) = rest.split_at(rest.len() / 2);
        let middle = &back[0];
        match middle.as_str().as_bytes().cmp(path) {
            Ordering::Less => {
                rest = &back[1..];
            }
            Ordering::Equal => {
                return Some(middle);
            }
            Ordering::Greater => {
                rest = front;
            }
        }
    }
    None
}

fn is_file(kind: Option<Kind>) -> bool
    ensures { IsTrue result ↔ (kind ≡ Some AKind.File) }
{
    match kind {
        Some(Kind::File) => true,
        Some(Kind::Directory) => false,
        Some(Kind::SymbolicLink) => false,
        None => false,
    }
}

// Whether a file is shipped at a path. Only its kind is looked at, so that a tree that is refused
// for a line costs no reading of what it ships.
fn ships_file<H: Host>(host: &mut H, paths: &[RootPath], path: &[u8]) -> Result<bool, HostFault>
    requires order { AreInOrder paths.now }
    requires shipped { Needs (H.state host.old) (λ w. AreShipped w paths.now) }
    ensures looks { Looks result
        (λ is w. MatchBool is (ShipsFile w path.now) (ShipsFile w path.now → ⊥)) (H.state host.old)
        (H.state host.new) }
{
    match find(paths, path) {
        Some(found) => Ok(is_file(host.kind(found)?)),
        None => Ok(false),
    }
}

// Whether a line is the text of a path that a package may ship.
fn is_ship_line(alloc: Global, line: &[u8]) -> Result<bool, AllocError>
    ensures { IfOk result (λ is. MatchBool is (IsShipLine line.now) (IsShipLine line.now → ⊥)) }
{
    let Ok(text) = str::from_utf8(line) else {
        return Ok(false);
    };
    Ok(ShipPath::parse(alloc, text)?.is_some())
}

// Whether a line names what it must not.
fn is_astray<H: Host>(
    alloc: Global,
    host: &mut H,
    paths: &[RootPath],
    entry: &Entry,
) -> Result<bool, HostFault>
    requires order { AreInOrder paths.now }
    requires shipped { Needs (H.state host.old) (λ w. AreShipped w paths.now) }
    ensures looks { Looks result
        (λ astray w. MatchBool astray (IsAstray w entry.now) (IsAstray w entry.now → ⊥))
        (H.state host.old) (H.state host.new) }
{
    match entry {
        Entry::Blank => Ok(false),
        Entry::Plain(path) => Ok(!ships_file(host, paths, path.as_slice())?),
        Entry::Flagged(path) => Ok(!is_ship_line(alloc, path.as_slice())?),
        Entry::Odd => Ok(false),
    }
}

fn named_by(entry: &Entry) -> &[u8]
    ensures { result.now ≡ named_by entry.now }
{
    match entry {
        Entry::Blank => &[],
        Entry::Plain(path) => path.as_slice(),
        Entry::Flagged(path) => path.as_slice(),
        Entry::Odd => &[],
    }
}

// What a line names, as a fault gives it.
fn name_of(alloc: Global, entry: &Entry, number: u64) -> Result<LineName, AllocError>
    ensures { IfOk result (IsNameOf entry.now number) }
{
    match str::from_utf8(named_by(entry)) {
        Ok(text) => Ok(LineName::Text(LineText::from_str(alloc, text)?)),
        Err(_) => Ok(LineName::Number(number)),
    }
}

/// What the first line names that isn't the path of a shipped file, or whose flagged path isn't one
/// that a package may ship.
#[tactic(auto, using(host_core::proofs::Moments::reads_then))]
pub(crate) fn first_astray<H: Host>(
    alloc: Global,
    host: &mut H,
    paths: &[RootPath],
    entries: &[Entry],
) -> Result<Option<LineName>, HostFault>
    requires order { AreInOrder paths.now }
    requires shipped { Needs (H.state host.old) (λ w. AreShipped w paths.now) }
    ensures looks { Looks result
        (λ found w.
        MatchOption found (HasNoEntry (IsAstray w) entries.now) (IsFirstAstray w entries.now))
        (H.state host.old) (H.state host.new) }
{
    for (index, entry) in entries.iter().enumerate() {
        if is_astray(alloc, host, paths, entry)? {
            return Ok(Some(name_of(alloc, entry, index as u64 + 1)?));
        }
    }
    Ok(None)
}

/// The first of the flagged paths that is shipped.
pub(crate) fn first_flagged(
    paths: &[RootPath],
    flagged: &[ShipPath],
) -> Result<Option<RootPath>, AllocError>
    requires paths { AreInOrder paths.now }
    requires flagged { AreInOrder flagged.now }
    ensures { IfOk result
        (λ found. MatchOption found (HasNoPath (IsOfBoth flagged.now paths.now))
        (IsFirstPath (IsOfBoth flagged.now paths.now))) }
{
    for path in flagged {
        if let Some(found) = find(paths, path.as_str().as_bytes()) {
            return Ok(Some(found.copy()?));
        }
    }
    Ok(None)
}
