// Sets of paths' texts, in which paths are looked up.
ghost use Rattle.std.specs.Prelude.{◌≡◌, ℕ, List, IfOk};
ghost use Rattle.std.specs.BTreeSet.{contains_text};
ghost use Rattle.file_check.specs.Ships.{is_conffile};
ghost use Rattle.unpack_plan.specs.Records.{is_shipped};

use host_core::ShipPath;
use package_tree::Shipped;
use std::alloc::{AllocError, Global};
use std::collections::BTreeSet;

/// The texts of paths.
pub(crate) fn texts_of(alloc: Global, paths: &[ShipPath]) -> Result<BTreeSet<String>, AllocError>
    ensures { IfOk result (λ set. (q : List ℕ) → contains_text set q ≡ is_conffile paths.now q) }
{
    let mut set = BTreeSet::new(alloc);
    for path in paths {
        set.insert(String::from_str(alloc, path.as_str())?)?;
    }
    Ok(set)
}

/// The texts of all shipped paths.
pub(crate) fn shipped_texts(
    alloc: Global,
    files: &[Shipped],
) -> Result<BTreeSet<String>, AllocError>
    ensures { IfOk result (λ set. (q : List ℕ) → contains_text set q ≡ is_shipped files.now q) }
{
    let mut set = BTreeSet::new(alloc);
    for file in files {
        set.insert(String::from_str(alloc, file.path.as_str())?)?;
    }
    Ok(set)
}
