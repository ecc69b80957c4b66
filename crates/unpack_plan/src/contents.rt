// What of a tree is written and kept, and which names are cleared.
ghost use Rattle.std.specs.Prelude.{◌≡◌, IfOk};
ghost use Rattle.std.specs.Option.{option_copied};
ghost use Rattle.file_check.specs.Ready.{IsFitting};
ghost use Rattle.file_check.specs.Ships.{shipped_works};
ghost use Rattle.package_files.specs.Files.{Each};
ghost use Rattle.package_files.specs.Names.{IsNamed};
ghost use Rattle.listed_files.specs.Concluding.{AreElsewhere};
ghost use Rattle.unpack_plan.specs.Members.{AreMembersOf};
ghost use Rattle.unpack_plan.specs.Names.{cleared_names as names_cleared};
ghost use Rattle.unpack_plan.specs.Planned.{pairs_of};

use crate::members::own_members;
use crate::names::cleared_names;
use crate::works::own_works;
use control_members::Members;
use diversions::Diversions;
use file_removal::Leaving;
use host_core::RootPath;
use package_files::Work;
use package_tree::Package;
use status_records::Record;
use std::alloc::{AllocError, Global};

/// The works, the control files, and names that only the installer writes.
#[derive(Drop)]
pub(crate) struct Contents {
    pub(crate) works: Vec<Work>,
    pub(crate) names: Vec<RootPath>,
    pub(crate) members: Members,
}

/// Those of a tree, which is used up.
pub(crate) fn contents_of(
    alloc: Global,
    diversions: &Diversions,
    tree: Package,
    found: Option<&Record>,
    leaving: &[Leaving],
) -> Result<Contents, AllocError>
    ensures works { IfOk result (λ c. c.works.items
        ≡ shipped_works diversions.now.ways tree.name tree.conffiles (pairs_of tree.files)) }
    ensures named { IfOk result (λ c. Each IsNamed c.works.items) }
    ensures fitting { IfOk result (λ c. Each IsFitting c.works.items) }
    ensures names { IfOk result (λ c. c.names.items
        ≡ names_cleared diversions.now.ways tree.name (option_copied found.entry) tree.conffiles
        c.works.items leaving.now) }
    ensures elsewhere { IfOk result (λ c. AreElsewhere c.names.items) }
    ensures members { IfOk result (λ c. AreMembersOf tree.scripts tree.others c.members) }
{
    let name = tree.name;
    let conffiles = tree.conffiles;
    let works = own_works(alloc, &name, diversions, tree.files, &conffiles)?;
    let kept = conffiles.as_slice();
    let names = cleared_names(
        alloc,
        diversions,
        &name,
        found,
        kept,
        works.as_slice(),
        leaving,
    )?;
    let members = own_members(alloc, tree.scripts, tree.others)?;
    Ok(Contents {
        works,
        names,
        members,
    })
}
