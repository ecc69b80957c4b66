// The digests of the conffiles that a package ships.
ghost use Rattle.std.specs.Prelude.{◌≡◌, ◌++◌, true, List, IfOk, OnOk, map};
ghost use Rattle.std.specs.List.{AllByRecursion};
ghost use Rattle.std.specs.BTreeSet.{contains_text};
ghost use Rattle.host_core.specs.Paths.{Path};
ghost use Rattle.file_check.specs.Ships.{is_conffile};
ghost use Rattle.package_tree.specs.Package.{AreTrimmed};
ghost use Rattle.package_tree.specs.ShipMap.{paths_of};
ghost use Rattle.package_tree.specs.Shipped.{AreInOrder};
ghost use Rattle.status_records.specs.ConffilePaths.{is_before, is_trimmed};
ghost use Rattle.unpack_plan.specs.Digests.{conffile_digest, digest_at, shipped_digests, told_digest};

use crate::texts_of::texts_of;
use conffiles::Digest;
use host_core::{Node, ShipPath};
use package_tree::Shipped;
use status_records::{PendingDigest, PendingDigests};
use std::alloc::{AllocError, Global};
use std::collections::BTreeSet;

// Adds the digest of what stands at a path, behind those of paths before it.
fn add_digest(path: &ShipPath, node: &Node, pending: &mut PendingDigests) -> Result<(), AllocError>
    requires trimmed { is_trimmed path.now ≡ true }
    requires before { AllByRecursion (λ p. is_before p.path path.now ≡ true) pending.old }
    ensures { OnOk result
        (map told_digest pending.new
        ≡ map told_digest pending.old ++ digest_at path.now node.now) }
{
    match node {
        Node::File { bytes, .. } => {
            let digest = Digest::of_content(bytes);
            pending.put(PendingDigest::new(path.copy()?, digest))?;
            Ok(())
        }
        Node::Dir { .. } => Ok(()),
        Node::Link { .. } => Ok(()),
    }
}

// The same of a shipped path, if it is in the set.
fn add_conffile(
    file: &Shipped,
    conffiles: &BTreeSet<String>,
    pending: &mut PendingDigests,
) -> Result<(), AllocError>
    requires trimmed { contains_text conffiles.now file.now.path ≡ true → is_trimmed file.now.path
        ≡ true }
    requires before { AllByRecursion (λ p. is_before p.path file.now.path ≡ true) pending.old }
    ensures { OnOk result
        ((paths : List Path)
        → ((q : Path) → contains_text conffiles.now q ≡ is_conffile paths q)
        → map told_digest pending.new
        ≡ map told_digest pending.old ++ conffile_digest paths file.now) }
{
    if conffiles.contains(file.path.as_str()) {
        add_digest(&file.path, &file.node, pending)?;
        return Ok(());
    }
    Ok(())
}

/// The digest of each conffile that is shipped, taken from its bytes as they are.
pub(crate) fn digests_of(
    alloc: Global,
    files: &[Shipped],
    conffiles: &[ShipPath],
) -> Result<PendingDigests, AllocError>
    requires order { AreInOrder (paths_of files.now) }
    requires trimmed { AreTrimmed conffiles.now }
    ensures { IfOk result
        (λ pending. map told_digest pending ≡ shipped_digests conffiles.now files.now) }
{
    let set = texts_of(alloc, conffiles)?;
    let mut pending = PendingDigests::new(alloc);
    for file in files {
        add_conffile(file, &set, &mut pending)?;
    }
    Ok(pending)
}
