// The works of what a package ships.
ghost use Rattle.std.specs.Prelude.{◌≡◌, List, IfOk};
ghost use Rattle.file_check.specs.Ready.{IsFitting};
ghost use Rattle.file_check.specs.Ships.{shipped_works};
ghost use Rattle.package_files.specs.Files.{Each};
ghost use Rattle.package_files.specs.Names.{IsNamed};
ghost use Rattle.host_core.specs.Paths.{Path};
ghost use Rattle.package_tree.specs.Package.{AreFitting};
ghost use Rattle.unpack_plan.specs.Planned.{pairs_of};

use diversions::Diversions;
use file_check::works_of;
use host_core::{Node, ShipPath};
use package_files::Work;
use package_tree::{ShipMap, ShipPaths, Shipped};
use std::alloc::{AllocError, Global};
use texts::Text;

// Each shipped path with what stands there, moved and not copied.
fn pairs_of(alloc: Global, files: Vec<Shipped>) -> Result<Vec<(ShipPath, Node)>, AllocError>
    ensures { IfOk result (λ pairs. pairs.items ≡ pairs_of files.items) }
{
    let mut pairs = Vec::new(alloc);
    for file in files {
        pairs.push((file.path, file.node))?;
    }
    Ok(pairs)
}

/// The works of a package's files, in path order.
pub(crate) fn own_works(
    alloc: Global,
    name: &Text,
    diversions: &Diversions,
    files: ShipMap,
    conffiles: &ShipPaths,
) -> Result<Vec<Work>, AllocError>
    requires { (flagged : List Path) × ∥ AreFitting files conffiles.now flagged ∥₁ }
    ensures works { IfOk result (λ works. works.items
        ≡ shipped_works diversions.now.ways name.now conffiles.now (pairs_of files)) }
    ensures named { IfOk result (λ works. Each IsNamed works.items) }
    ensures fitting { IfOk result (λ works. Each IsFitting works.items) }
{
    files.law();
    conffiles.law();
    let pairs = pairs_of(alloc, files.into_vec())?;
    let works = works_of(alloc, name, diversions, pairs, conffiles.as_slice())?;
    Ok(works)
}
