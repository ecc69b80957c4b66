// What of a plan goes by where paths are, planned again by another table of diversions.
ghost use Rattle.std.specs.Prelude.{◌≡◌, IfOk, List};
ghost use Rattle.package_files.specs.declared.work.Work.{Work as AWork};
ghost use Rattle.undo_rows.specs.declared.rows.Row.{Row};
ghost use Rattle.unpack_plan.specs.Planned.{IsPlanned, Job, planned_from};
ghost use Rattle.unpack_plan.specs.declared.plan.PlannedCommit.{PlannedCommit as ACommit};

use crate::files::{OwnFiles, own_files};
use diversions::Diversions;
use file_lists::{FileLists, Paths};
use file_removal::Leaving;
use host_core::RootPath;
use package_files::Work;
use package_tree::Package;
use status_records::Record;
use std::alloc::{AllocError, Global};
use unpack_steps::Rows;

/// What is shipped, in path order; and what the commit does by the places of paths.
#[derive(Drop)]
pub struct PlannedFiles {
    pub works: Vec<Work>,
    pub new_list: Paths,
    pub leaving: Vec<Leaving>,
    pub names: Vec<RootPath>,
}

/// Plans the files of a tree again, by another table than that which its plan went by. The records, the rows and the control files
/// stay; the tree is used up.
pub fn plan_again(
    alloc: Global,
    incoming: Package,
    rows: &Rows,
    fresh: &Record,
    lists: &FileLists,
    diversions: &Diversions,
) -> Result<PlannedFiles, AllocError>
    ensures { IfOk result (λ again. (j : Job) (works : List AWork) (calls : List Row) (commit : ACommit)
        → j.«package» ≡ incoming → j.lists ≡ lists.now.lists → commit.fresh ≡ fresh.now
        → IsPlanned j (planned_from rows.now works calls commit)
        → IsPlanned (record j { ways = diversions.now.ways })
        (planned_from rows.now again.works.items calls (record commit {
          new_list = again.new_list;
          leaving = again.leaving;
          names = again.names;
        }))) }
{
    let found = rows.found.as_ref();
    let files = own_files(alloc, lists, diversions, incoming, found, fresh)?;
    let OwnFiles { changes, contents } = files;
    Ok(PlannedFiles {
        works: contents.works,
        new_list: changes.new_list,
        leaving: changes.leaving,
        names: contents.names,
    })
}
