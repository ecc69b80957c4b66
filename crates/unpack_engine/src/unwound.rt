// What follows rows that were unwound.
ghost use Rattle.std.specs.Prelude.{◌≡◌, true};
ghost use Rattle.texts.specs.PackageNames.{is_package_name};
ghost use Rattle.host_core.specs.Host.{AtEachMoment, Counts, Leaves, Needs, Silent};
ghost use Rattle.scattered_losses.specs.Apart.{WorksApart};
ghost use Rattle.control_members.specs.LaidOut.{AreLaidOut};
ghost use Rattle.file_lists.specs.Writing.{IsListReady};
ghost use Rattle.status_db.specs.Held.{IsKept, is_record_place};
ghost use Rattle.status_records.specs.Records.{record_in};
ghost use Rattle.unpack_engine.specs.Units.{HasDropped, HasLeftBy, MayDrop, MayLeaveBy};

use control_members::{Members, clear_away};
use host_core::{Host, HostFault};
use listed_files::drop_list;
use status_db::NotedDatabase;
use std::alloc::Global;
use texts::Text;

// Drops the list of a package that has no record, where its rows went on to the new preinst's.
fn drop_unrecorded<H: Host>(
    alloc: Global,
    host: &mut H,
    database: &NotedDatabase,
    name: &Text,
    reached: bool,
) -> Result<(), HostFault>
    requires named { is_package_name name.now ≡ true }
    requires ready { Needs (H.state host.old) (IsListReady name.now) }
    ensures dropped { Leaves result
        (HasDropped reached (record_in database.now.records name.now) name.now)
        (H.state host.old) (H.state host.new) }
    ensures any_moment { AtEachMoment
        (MayDrop reached (record_in database.now.records name.now) name.now)
        (H.state host.old) (H.state host.new) }
    ensures silent { Silent (H.state host.old) (H.state host.new) }
    ensures counts { Counts (H.state host.old) (H.state host.new) result }
{
    if !reached {
        return Ok(());
    }
    match database.get(name) {
        Some(_) => Ok(()),
        None => drop_list(alloc, host, name),
    }
}

/// Ends a unit whose rows were unwound: nothing that it brought of a package without a record stays, and `tmp.ci` goes. What
/// stood under such a name is left alone where the rows didn't go on to its new preinst.
pub(crate) fn end_unwound<H: Host>(
    alloc: Global,
    host: &mut H,
    database: &NotedDatabase,
    name: &Text,
    reached: bool,
    members: &Members,
) -> Result<(), HostFault>
    requires named { is_package_name name.now ≡ true }
    requires ready { Needs (H.state host.old) (IsListReady name.now) }
    requires laid { Needs (H.state host.old) (AreLaidOut members.now) }
    requires kept { Needs (H.state host.old) (IsKept database.now) }
    ensures left { Leaves result
        (HasLeftBy (HasDropped reached (record_in database.now.records name.now) name.now))
        (H.state host.old) (H.state host.new) }
    ensures any_moment { AtEachMoment
        (MayLeaveBy
        (HasDropped reached (record_in database.now.records name.now) name.now)
        (MayDrop reached (record_in database.now.records name.now) name.now))
        (H.state host.old) (H.state host.new) }
    ensures silent { Silent (H.state host.old) (H.state host.new) }
    ensures apart { WorksApart result is_record_place (H.state host.old) (H.state host.new) }
    ensures counts { Counts (H.state host.old) (H.state host.new) result }
{
    drop_unrecorded(alloc, host, database, name, reached)?;
    clear_away(alloc, host, members)
}
