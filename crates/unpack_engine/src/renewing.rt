// The table of diversions and the links above the paths in hand, read again behind the scripts that are called before the files of a
// unit; and what of its plan goes by them.
ghost use Rattle.std.specs.Prelude.{◌≡◌, IfOk, IfSome, IsTrue, List, OnOk, false, is_some, true};
ghost use Rattle.diversions.specs.Diverted.{Diverted};
ghost use Rattle.host_core.specs.Host.{Counts, Reads, Silent};
ghost use Rattle.undo_rows.specs.declared.rows.Row.{Row};
ghost use Rattle.unpack_plan.specs.Planned.{IsPlanned, Job, planned_from};
ghost use Rattle.unpack_engine.specs.Tables.{fault_in};
ghost use Rattle.unpack_engine.specs.Followed.{AreFollowedAgain, paths_in_hand, with_entries_of};
ghost use Rattle.unpack_engine.specs.Units.{IsTableIn, with_ways_of};

use crate::following::follow_in_hand;
use administration::AdministrationFault;
use diversions::Diversions;
use file_lists::FileLists;
use host_core::{Host, HostFault, RootPath};
use package_files::Work;
use package_tree::Package;
use std::alloc::{AllocError, Global};
use unpack_plan::{PlannedCommit, plan_again};
use unpack_steps::Rows;

// Takes the entries of a table that was read, if they are others. The answer is whether they are.
fn take_changed(diversions: &mut Diversions, read: Diversions) -> bool
    ensures entries { diversions.new.ways.entries ≡ read.ways.entries }
    ensures kept { diversions.new ≡ with_entries_of diversions.new diversions.old }
    ensures same { result ≡ false → diversions.new ≡ diversions.old }
{
    if diversions.has_entries_of(&read) {
        return false;
    }
    diversions.take_entries(read);
    true
}

// What a fault of the reading is to a unit that is under way: where the table can't be read, that which was held stays.
fn fault_in(fault: &AdministrationFault) -> Result<bool, HostFault>
    ensures { result ≡ fault_in fault.now }
{
    match fault {
        AdministrationFault::Damaged { .. } => Ok(false),
        AdministrationFault::Device => Err(HostFault::Device),
        AdministrationFault::NoMemory => Err(HostFault::NoMemory),
        AdministrationFault::Declined => Err(HostFault::Declined),
    }
}

// Reads the table again. The answer is whether it has other entries than that which was held.
fn read_again<H: Host>(
    alloc: Global,
    host: &mut H,
    diversions: &mut Diversions,
) -> Result<bool, HostFault>
    ensures table { IfOk result (λ changed. IsTrue (H.state host.new).honest
        → IsTableIn (H.state host.old).world diversions.old.ways diversions.new.ways) }
    ensures kept { diversions.new ≡ with_entries_of diversions.new diversions.old }
    ensures same { IfOk result (λ changed. changed ≡ false → diversions.new ≡ diversions.old) }
    ensures reads { Reads (H.state host.old) (H.state host.new) }
    ensures silent { Silent (H.state host.old) (H.state host.new) }
    ensures counts { Counts (H.state host.old) (H.state host.new) result }
{
    match Diversions::open(alloc, host) {
        Ok(read) => Ok(take_changed(diversions, read)),
        Err(fault) => fault_in(&fault),
    }
}

// Reads the table again, and looks again at the links above the paths in hand. The answer is whether a place may be another.
fn read_ways<H: Host>(
    alloc: Global,
    host: &mut H,
    lists: &FileLists,
    diversions: &mut Diversions,
    union: &[RootPath],
) -> Result<bool, HostFault>
    ensures table { IfOk result (λ changed. IsTrue (H.state host.new).honest
        → IsTableIn (H.state host.old).world diversions.old.ways diversions.new.ways) }
    ensures aliases { IfOk result (λ changed. IsTrue (H.state host.new).honest
        → AreFollowedAgain lists.now.lists
        (paths_in_hand diversions.old.ways.aliases union.now diversions.new.ways.entries)
        diversions.old.ways diversions.new.ways (H.state host.old).world) }
    ensures kept { diversions.new ≡ with_ways_of diversions.new diversions.old }
    ensures same { IfOk result (λ changed. changed ≡ false → diversions.new ≡ diversions.old) }
    ensures reads { Reads (H.state host.old) (H.state host.new) }
    ensures silent { Silent (H.state host.old) (H.state host.new) }
    ensures counts { Counts (H.state host.old) (H.state host.new) result }
{
    match read_again(alloc, host, diversions) {
        Ok(changed) => match follow_in_hand(alloc, host, lists, diversions, union) {
            Ok(moved) => Ok(changed || moved),
            Err(fault) => Err(fault),
        },
        Err(fault) => Err(fault),
    }
}

// Plans the files again, where the tree is there, which is used up.
fn replan(
    alloc: Global,
    lists: &FileLists,
    diversions: &Diversions,
    rows: &Rows,
    works: &mut Vec<Work>,
    commit: &mut PlannedCommit,
    spare: &mut Option<Package>,
) -> Result<(), AllocError>
    requires { is_some spare.old ≡ true }
    ensures planned { OnOk result ((j : Job) (calls : List Row)
        → IfSome spare.old (λ tree. j.«package» ≡ tree) → j.lists ≡ lists.now.lists
        → IsPlanned j (planned_from rows.now works.old.items calls commit.old)
        → IsPlanned (record j { ways = diversions.now.ways })
        (planned_from rows.now works.new.items calls commit.new)) }
    ensures members { commit.new.members ≡ commit.old.members }
{
    let Some(tree) = spare.take() else {
        return Ok(());
    };
    let files = plan_again(alloc, tree, rows, &commit.fresh, lists, diversions)?;
    *works = files.works;
    commit.new_list = files.new_list;
    commit.leaving = files.leaving;
    commit.names = files.names;
    Ok(())
}

/// Reads the table again, and looks again at the links above the paths in hand, where scripts may have changed them: the tree is
/// there then. Where a place may be another, the files are planned again; the answer is whether that was done.
pub(crate) fn renew_files<H: Host>(
    alloc: Global,
    host: &mut H,
    lists: &FileLists,
    diversions: &mut Diversions,
    rows: &Rows,
    works: &mut Vec<Work>,
    commit: &mut PlannedCommit,
    spare: &mut Option<Package>,
) -> Result<bool, HostFault>
    ensures again { IfOk result (λ anew. (j : Job) (calls : List Row)
        → IfSome spare.old (λ tree. j.«package» ≡ tree) → j.lists ≡ lists.now.lists
        → j.ways ≡ diversions.old.ways
        → IsPlanned j (planned_from rows.now works.old.items calls commit.old)
        → IsPlanned (record j { ways = diversions.new.ways })
        (planned_from rows.now works.new.items calls commit.new)) }
    ensures members { commit.new.members ≡ commit.old.members }
    ensures table { IfOk result (λ anew. is_some spare.old ≡ true
        → IsTrue (H.state host.new).honest
        → IsTableIn (H.state host.old).world diversions.old.ways diversions.new.ways) }
    ensures aliases { IfOk result (λ anew. is_some spare.old ≡ true
        → IsTrue (H.state host.new).honest
        → AreFollowedAgain lists.now.lists
        (paths_in_hand diversions.old.ways.aliases rows.now.union diversions.new.ways.entries)
        diversions.old.ways diversions.new.ways (H.state host.old).world) }
    ensures kept { diversions.new ≡ with_ways_of diversions.new diversions.old }
    ensures same { IfOk result (λ anew. anew ≡ false → diversions.new ≡ diversions.old) }
    ensures unread { IfOk result (λ anew. is_some spare.old ≡ false
        → diversions.new ≡ diversions.old) }
    ensures reads { Reads (H.state host.old) (H.state host.new) }
    ensures silent { Silent (H.state host.old) (H.state host.new) }
    ensures counts { Counts (H.state host.old) (H.state host.new) result }
{
    if spare.is_none() {
        return Ok(false);
    }
    match read_ways(alloc, host, lists, diversions, rows.union.as_slice()) {
        Ok(true) => match replan(alloc, lists, diversions, rows, works, commit, spare) {
            Ok(()) => Ok(true),
            Err(_) => Err(HostFault::NoMemory),
        },
        Ok(false) => Ok(false),
        Err(fault) => Err(fault),
    }
}
