// What an unpack is going to do.
ghost use Rattle.std.specs.Prelude.{◌≡◌, ◌++◌, IfOk};
ghost use Rattle.unpack_commit.specs.Takeover.{yields_of};
ghost use Rattle.unpack_plan.specs.Planned.{planned, IsPlanned};

use crate::calls::{OwnCalls, own_calls};
use crate::files::{OwnFiles, own_files};
use crate::others::Others;
use control_members::Members;
use diversions::Diversions;
use file_lists::{FileLists, Paths};
use file_removal::Leaving;
use host_core::RootPath;
use package_files::Work;
use package_tree::Package;
use status_db::NotedDatabase;
use status_records::Record;
use std::alloc::{AllocError, Global};
use undo_rows::Row;
use unpack_rows::Present;
use unpack_steps::Rows;

/// What is done once all rows have succeeded, and the control files that lie in `tmp.ci` until the
/// end.
#[derive(Drop)]
pub struct PlannedCommit {
    /// The record of the unpacked package.
    pub fresh: Record,
    pub new_list: Paths,
    /// The old paths, and which of them go.
    pub leaving: Vec<Leaving>,
    /// Names that only the installer writes, at which nothing is to be left.
    pub names: Vec<RootPath>,
    /// The control files of the tree.
    pub members: Members,
}

/// What an unpack is going to do, by the parts in which it is carried out.
#[derive(Drop)]
pub struct Plan {
    pub rows: Rows,
    /// What is shipped, in path order.
    pub works: Vec<Work>,
    /// The calls of the rows.
    pub calls: Vec<Row>,
    pub commit: PlannedCommit,
}

// The plan of these parts.
fn plan_from(calls: OwnCalls, files: OwnFiles) -> Plan
    ensures planned { planned result ≡ record {
      found = calls.records.found;
      incoming = calls.records.incoming;
      fresh = calls.records.fresh;
      rows = calls.rows.rows.items;
      kinds = calls.rows.kinds.items;
      others = calls.rows.others.items;
      works = files.contents.works.items;
      listed = files.changes.listed;
      union = files.changes.union;
      new_list = files.changes.new_list;
      leaving = files.changes.leaving.items;
      names = files.contents.names.items;
      members = files.contents.members;
    } }
    ensures yields { result.rows.yields ≡ calls.yields }
{
    let OwnCalls {
        records,
        rows,
        yields,
    } = calls;
    let OwnFiles { changes, contents } = files;
    Plan {
        rows: Rows {
            found: records.found,
            incoming: records.incoming,
            kinds: rows.kinds,
            others: rows.others,
            yields,
            listed: changes.listed,
            union: changes.union,
        },
        works: contents.works,
        calls: rows.rows,
        commit: PlannedCommit {
            fresh: records.fresh,
            new_list: changes.new_list,
            leaving: changes.leaving,
            names: contents.names,
            members: contents.members,
        },
    }
}

/// What an unpack of a tree is going to do, by the records, the lists and the diversions; `stored`
/// are the scripts of the old version, `others` the packages that have rows beside it or yield to
/// it. The tree is used up, and none of its files is copied. Where the package lists many paths,
/// the lists' index is to be built before.
pub fn plan_of(
    alloc: Global,
    incoming: Package,
    database: &NotedDatabase,
    lists: &FileLists,
    diversions: &Diversions,
    stored: Present,
    others: Others,
) -> Result<Plan, AllocError>
    ensures planned { IfOk result (λ p. IsPlanned
        (record {
          «package» = incoming;
          records = database.now.records;
          lists = lists.now.lists;
          begun = diversions.now.ways;
          ways = diversions.now.ways;
          stored = stored;
          others = others.packages.items;
          yields = others.yields;
        })
        (planned p)) }
    ensures yields { IfOk result (λ p. p.rows.yields
        ≡ yields_of database.now.records ++ others.yields) }
{
    let found = database.get(&incoming.name);
    let calls = own_calls(
        alloc, &incoming, database, diversions, found, stored, others,
    )?;
    let fresh = &calls.records.fresh;
    let files = own_files(alloc, lists, diversions, incoming, found, fresh)?;
    Ok(plan_from(calls, files))
}
