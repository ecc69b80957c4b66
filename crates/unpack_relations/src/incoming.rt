// The package of a tree, as relations see it.
ghost use Rattle.std.specs.Prelude.{IfOk, option_copied};
ghost use Rattle.unpack_relations.specs.Incoming.{IsIncomingPackage};

use relation_index::{Package, PackageState};
use stated_relations::{StatedRelations, counted_as, is_essential};
use std::alloc::{AllocError, Global};

/// The package of a tree in a root of this architecture: it is not installed, whatever is recorded of its name.
pub(crate) fn incoming_package(
    alloc: Global,
    root: Option<&str>,
    tree: &package_tree::Package,
) -> Result<Package, AllocError>
    ensures { IfOk result (IsIncomingPackage (option_copied root.entry) tree.now) }
{
    let StatedRelations {
        provides,
        pre_depends,
        depends,
        breaks,
        conflicts,
        replaces,
    } = tree.relations.copy()?;
    Ok(Package {
        name: tree.name.copy()?,
        architecture: counted_as(alloc, root, &tree.control)?,
        version: tree.version.copy()?,
        state: PackageState::NotInstalled,
        awaits: false,
        reinstreq: false,
        essential: is_essential(&tree.control),
        configured: None,
        removed_since: false,
        provides,
        pre_depends,
        depends,
        breaks,
        conflicts,
        replaces,
    })
}
