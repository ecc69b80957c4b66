// The list of a package while its files are written.
ghost use Rattle.std.specs.Prelude.{◌≡◌, ◌↔◌, ◌⊎◌, ◌++◌, Contains, IfOk, OnOk};
ghost use Rattle.std.specs.List.{AllByRecursion};
ghost use Rattle.host_core.specs.Paths.{Path};
ghost use Rattle.file_lists.specs.Owners.{AreListPaths, IsListable};

use crate::ordering::in_order;
use file_lists::Paths;
use host_core::RootPath;
use std::alloc::{AllocError, Global};

/// Adds copies of paths behind others.
pub(crate) fn add_all(paths: &mut Paths, more: &[RootPath]) -> Result<(), AllocError>
    ensures { OnOk result (paths.new ≡ paths.old ++ more.now) }
{
    for path in more {
        paths.items.push(path.copy()?)?;
    }
    Ok(())
}

/// What a package lists from before its first file is written: the paths of its list and those that
/// it ships, each once.
pub fn union_of(
    alloc: Global,
    listed: &[RootPath],
    shipped: &[RootPath],
) -> Result<Paths, AllocError>
    requires listed { AllByRecursion IsListable listed.now }
    requires shipped { AllByRecursion IsListable shipped.now }
    ensures paths { IfOk result AreListPaths }
    ensures union { IfOk result
        (λ paths.
        (q : Path) → Contains paths q ↔ (Contains listed.now q ⊎ Contains shipped.now q)) }
{
    let mut paths = Paths {
        items: Vec::new(alloc),
    };
    add_all(&mut paths, listed)?;
    add_all(&mut paths, shipped)?;
    in_order(alloc, paths)
}
