// The lists and the contents of an unpack.
ghost use Rattle.std.specs.Prelude.{◌≡◌, IfOk};
ghost use Rattle.std.specs.Option.{option_copied};
ghost use Rattle.file_check.specs.Ready.{IsFitting};
ghost use Rattle.file_check.specs.Ships.{shipped_works};
ghost use Rattle.file_lists.specs.Owners.{AreListPaths, paths_of as listed_paths};
ghost use Rattle.listed_files.specs.Closing.{SparesAdministration};
ghost use Rattle.listed_files.specs.Concluding.{AreElsewhere};
ghost use Rattle.package_files.specs.Files.{Each};
ghost use Rattle.package_files.specs.Names.{IsNamed};
ghost use Rattle.package_tree.specs.ShipMap.{paths_of};
ghost use Rattle.unpack_plan.specs.Lists.{IsAfter, IsUnion, old_leaving};
ghost use Rattle.unpack_plan.specs.Members.{AreMembersOf};
ghost use Rattle.unpack_plan.specs.Names.{cleared_names};
ghost use Rattle.unpack_plan.specs.Planned.{pairs_of};

use crate::contents::{Contents, contents_of};
use crate::lists::{ListChanges, own_changes};
use diversions::Diversions;
use file_lists::FileLists;
use package_tree::Package;
use status_records::Record;
use std::alloc::{AllocError, Global};

/// Both, of one tree.
#[derive(Drop)]
pub(crate) struct OwnFiles {
    pub(crate) changes: ListChanges,
    pub(crate) contents: Contents,
}

/// Those of a tree, which is used up, with the record found and the one that the unpack ends with.
pub(crate) fn own_files(
    alloc: Global,
    lists: &FileLists,
    diversions: &Diversions,
    tree: Package,
    found: Option<&Record>,
    fresh: &Record,
) -> Result<OwnFiles, AllocError>
    ensures listed { IfOk result (λ f. f.changes.listed
        ≡ listed_paths lists.now.lists tree.name) }
    ensures listed_paths { IfOk result (λ f. AreListPaths f.changes.listed) }
    ensures union { IfOk result (λ f. IsUnion f.changes.listed (paths_of tree.files)
        f.changes.union) }
    ensures new_list { IfOk result (λ f. IsAfter tree.files fresh.now f.changes.new_list) }
    ensures leaving { IfOk result (λ f. f.changes.leaving.items
        ≡ old_leaving diversions.now.ways lists.now.lists tree.name (option_copied found.entry)
        f.changes.new_list f.changes.listed) }
    ensures spares { IfOk result (λ f. SparesAdministration f.changes.leaving.items) }
    ensures works { IfOk result (λ f. f.contents.works.items
        ≡ shipped_works diversions.now.ways tree.name tree.conffiles (pairs_of tree.files)) }
    ensures named { IfOk result (λ f. Each IsNamed f.contents.works.items) }
    ensures fitting { IfOk result (λ f. Each IsFitting f.contents.works.items) }
    ensures names { IfOk result (λ f. f.contents.names.items
        ≡ cleared_names diversions.now.ways tree.name (option_copied found.entry)
        tree.conffiles f.contents.works.items f.changes.leaving.items) }
    ensures elsewhere { IfOk result (λ f. AreElsewhere f.contents.names.items) }
    ensures members { IfOk result (λ f. AreMembersOf tree.scripts tree.others
        f.contents.members) }
{
    let changes = own_changes(alloc, lists, diversions, &tree, found, fresh)?;
    let leaving = changes.leaving.as_slice();
    let contents = contents_of(alloc, diversions, tree, found, leaving)?;
    Ok(OwnFiles { changes, contents })
}
