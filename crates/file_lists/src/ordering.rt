// Names and paths in the order of their bytes.
ghost use Rattle.std.specs.Prelude.{◌≡◌, IfOk, ℕ, List, IsTrue};
ghost use Rattle.std.specs.List.{list_any, AllByRecursion};
ghost use Rattle.std.specs.Str.{bytes_eq};
ghost use Rattle.std.specs.BTreeSet.{contains_text};
ghost use Rattle.std.specs.Ordering.{nat_cmp, is_lt};
ghost use Rattle.std.specs.Cmp.Lexicographic.{slice_cmp};
ghost use Rattle.file_lists.specs.Owners.{IsListable, AreListPaths, IsSameSet};
ghost use Rattle.file_lists.specs.Increasing.{AreIncreasing};

use crate::paths::Paths;
use host_core::RootPath;
use std::alloc::{AllocError, Global};
use std::cmp::Ordering;
use std::collections::BTreeSet;
use texts::Text;

/// These names in the order of their bytes.
pub(crate) fn sorted(alloc: Global, names: &[Text]) -> Result<BTreeSet<String>, AllocError>
    ensures { IfOk result
        (λ set. (q : List ℕ) → contains_text set q ≡ list_any (bytes_eq q) names.now) }
{
    let mut set = BTreeSet::new(alloc);
    for name in names {
        set.insert(String::from_str(alloc, name.as_str())?)?;
    }
    Ok(set)
}

fn is_before(path: &RootPath, other: &RootPath) -> bool
    ensures { result ≡ is_lt (slice_cmp nat_cmp path.now other.now) }
{
    path.as_str().as_bytes().cmp(other.as_str().as_bytes()) == Ordering::Less
}

fn are_increasing(paths: &[RootPath]) -> bool
    ensures { IsTrue result → AreIncreasing paths.now }
{
    for at in 1..paths.len() {
        if !is_before(&paths[at - 1], &paths[at]) {
            return false;
        }
    }
    true
}

/// The texts of these paths in the order of their bytes.
pub(crate) fn texts_of(alloc: Global, paths: &[RootPath]) -> Result<BTreeSet<String>, AllocError>
    ensures { IfOk result
        (λ set. (q : List ℕ) → contains_text set q ≡ list_any (bytes_eq q) paths.now) }
{
    let mut set = BTreeSet::new(alloc);
    for path in paths {
        set.insert(String::from_str(alloc, path.as_str())?)?;
    }
    Ok(set)
}

// The same, where some path may stand there more than once.
fn each_once(alloc: Global, paths: Paths) -> Result<Paths, AllocError>
    requires { AllByRecursion IsListable paths }
    ensures paths { IfOk result AreListPaths }
    ensures same { IfOk result (IsSameSet paths) }
{
    let mut set = texts_of(alloc, paths.as_slice())?;
    let mut items = Vec::new(alloc);
    while let Some(text) = set.pop_first() {
        items.push(RootPath::new(text))?;
    }
    Ok(Paths { items })
}

/// These paths in the order of their bytes, each once. A list that was written by dpkg has few runs, which the sort joins.
pub(crate) fn in_order(alloc: Global, paths: Paths) -> Result<Paths, AllocError>
    requires { AllByRecursion IsListable paths }
    ensures paths { IfOk result AreListPaths }
    ensures same { IfOk result (IsSameSet paths) }
{
    if are_increasing(paths.as_slice()) {
        return Ok(paths);
    }
    let mut sorted = paths;
    sorted.items.sort_by(|a, b| a.as_str().cmp(b.as_str()))?;
    if are_increasing(sorted.as_slice()) {
        return Ok(sorted);
    }
    each_once(alloc, sorted)
}
