// The list of a package behind an unpack, or behind the removal of its files.
ghost use Rattle.std.specs.Prelude.{◌≡◌, ◌≢◌, ◌<◌, ◌↔◌, ◌⊎◌, ◌++◌, ◌∷◌, ℕ, Contains, IfOk, OnOk, MatchOption, length, get_or, true};
ghost use Rattle.std.specs.List.{AllByRecursion};
ghost use Rattle.host_core.specs.Paths.{Path};
ghost use Rattle.file_lists.specs.Owners.{AreListPaths, IsListable};
ghost use Rattle.list_changes.specs.NewList.{IsAbove, IsAboveOne, IsNewList, IsWithParents};

use crate::ordering::in_order;
use crate::union::add_all;
use file_lists::Paths;
use host_core::RootPath;
use std::alloc::{AllocError, Global};

fn cut_last(path: &str) -> Option<(&str, &str)>
    ensures { MatchOption result ((i : ℕ) → i < length path.now → get_or path.now i 0 ≢ 47)
        (λ x. (path.now ≡ x.0.now ++ 47 ∷ x.1.now)
        × ((i : ℕ) → i < length x.1.now → get_or x.1.now i 0 ≢ 47)) }
{
    path.rsplit_once('/')
}

// Adds the directories above a path, without the root.
fn add_parents(alloc: Global, paths: &mut Paths, path: &RootPath) -> Result<(), AllocError>
    ensures { OnOk result
        ((q : Path) → Contains paths.new q ↔ (Contains paths.old q ⊎ IsAbove q path.now)) }
{
    path.law();
    let mut rest = path.as_str();
    while let Some((front, _)) = cut_last(rest) {
        if front.is_empty() {
            return Ok(());
        }
        paths.items.push(RootPath::from_str(alloc, front)?)?;
        rest = front;
    }
    Ok(())
}

// The same of each of some paths.
fn add_all_parents(alloc: Global, paths: &mut Paths, of: &[RootPath]) -> Result<(), AllocError>
    ensures { OnOk result
        ((q : Path) → Contains paths.new q ↔ (Contains paths.old q ⊎ IsAboveOne q of.now)) }
{
    for path in of {
        add_parents(alloc, paths, path)?;
    }
    Ok(())
}

/// What a package lists then: the paths that it ships, those that stay beside them, as conffiles
/// that it doesn't ship any more, and the directories above these.
pub fn list_of(
    alloc: Global,
    shipped: &[RootPath],
    staying: &[RootPath],
) -> Result<Paths, AllocError>
    requires shipped { AllByRecursion IsListable shipped.now }
    requires staying { AllByRecursion IsListable staying.now }
    ensures paths { IfOk result AreListPaths }
    ensures list { IfOk result (IsNewList shipped.now staying.now) }
{
    let mut paths = Paths {
        items: Vec::new(alloc),
    };
    add_all(&mut paths, shipped)?;
    add_all(&mut paths, staying)?;
    add_all_parents(alloc, &mut paths, staying)?;
    in_order(alloc, paths)
}

/// What a package lists once its files are removed: paths, and the directories above others, each once.
pub fn list_with_parents(
    alloc: Global,
    paths: &[RootPath],
    of: &[RootPath],
) -> Result<Paths, AllocError>
    requires paths { AllByRecursion IsListable paths.now }
    requires of { AllByRecursion IsListable of.now }
    ensures paths { IfOk result AreListPaths }
    ensures list { IfOk result (IsWithParents paths.now of.now) }
{
    let mut listed = Paths {
        items: Vec::new(alloc),
    };
    add_all(&mut listed, paths)?;
    add_all_parents(alloc, &mut listed, of)?;
    in_order(alloc, listed)
}
