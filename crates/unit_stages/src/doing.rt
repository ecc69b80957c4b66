// Parts are done, one after another.
ghost use Rattle.std.specs.Prelude.{◌≡◌, IsTrue, OnOk, true, false};
ghost use Rattle.host_core.specs.Host.{AtEachMomentOf, Counts, Leaves, Needs, Silent, WasDenied};
ghost use Rattle.texts.specs.PackageNames.{is_package_name};
ghost use Rattle.unit_stages.specs.Doing.{AreAmid};
ghost use Rattle.unit_stages.specs.PartFitting.{AreFit, AreSettleable};
ghost use Rattle.held_administration.specs.Order.{IsInOrder};
ghost use Rattle.unit_stages.specs.Parts.{HaveDone, parts_lists, parts_records};
ghost use Rattle.scattered_losses.specs.Apart.{WorksApart};
ghost use Rattle.status_db.specs.Held.{is_record_place};

use crate::part::Part;
use crate::step::do_part;
use file_lists::FileLists;
use host_core::{Host, HostFault};
use status_db::NotedDatabase;
use std::alloc::Global;
use texts::Text;

/// Does these parts of a unit of a package, the first first.
pub(crate) fn do_parts<H: Host>(
    alloc: Global,
    host: &mut H,
    database: &mut NotedDatabase,
    lists: &mut FileLists,
    name: &Text,
    parts: &[Part],
) -> Result<(), HostFault>
    requires noting { database.old.closed ≡ false }
    requires listing { lists.old.closed ≡ false }
    requires named { is_package_name name.now ≡ true }
    requires fit { AreFit name.now parts.now database.old.records lists.old.lists }
    requires order { Needs (H.state host.old) (IsInOrder database.old lists.old.lists) }
    requires settleable { Needs (H.state host.old) (AreSettleable parts.now) }
    ensures records { OnOk result
        (database.new.records ≡ parts_records name.now parts.now database.old.records) }
    ensures lists { OnOk result (lists.new.lists ≡ parts_lists name.now parts.now lists.old.lists) }
    ensures noting { OnOk result (database.new.closed ≡ false) }
    ensures listing { OnOk result (lists.new.closed ≡ false) }
    ensures done { IsTrue (H.state host.new).honest
        → OnOk result (HaveDone name.now (WasDenied (H.state host.old) (H.state host.new)) parts.now
        database.old.records (H.state host.old).world (H.state host.new).world) }
    ensures order { Leaves result (λ old new. IsInOrder database.new lists.new.lists new)
        (H.state host.old) (H.state host.new) }
    ensures any_moment { AtEachMomentOf (AreAmid name.now parts.now database.old.records)
        (H.state host.old) (H.state host.new) }
    ensures apart { WorksApart result is_record_place (H.state host.old) (H.state host.new) }
    ensures silent { Silent (H.state host.old) (H.state host.new) }
    ensures counts { Counts (H.state host.old) (H.state host.new) result }
{
    for part in parts {
        do_part(alloc, host, database, lists, name, part)?;
    }
    Ok(())
}
