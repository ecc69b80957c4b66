// Room for one more note.
ghost use Rattle.std.specs.Prelude.{◌≡◌, ◌≤◌, OnOk};
ghost use Rattle.host_core.specs.Host.{AtEachMoment, Counts, Leaves, Needs, Silent};
ghost use Rattle.scattered_losses.specs.Apart.{GoBehindBarrier};
ghost use Rattle.scattered_losses.specs.Turns.{GoByTurns};
ghost use Rattle.status_db.specs.Held.{AreKept, is_record_place};
ghost use Rattle.status_db.specs.Noting.{AreMerged, HasRoom, IsMerging, note_number};

use crate::merging::merge;
use crate::table::Table;
use host_core::{Host, HostFault};
use std::alloc::Global;

// So many notes stand at most; then they are merged before the next.
const MOST_NOTES: u16 = 250;

// Merges the notes, once all that was done is on the disk.
fn merge_behind<H: Host>(
    alloc: Global,
    host: &mut H,
    table: &Table,
    notes: u16,
) -> Result<(), HostFault>
    requires count { notes ≤ 10000 }
    requires kept { Needs (H.state host.old) (AreKept table.now notes) }
    ensures merged { Leaves result (AreMerged table.now) (H.state host.old) (H.state host.new) }
    ensures any_moment { AtEachMoment (IsMerging table.now) (H.state host.old) (H.state host.new) }
    ensures turns { GoByTurns is_record_place (H.state host.old) (H.state host.new) }
    ensures waits { GoBehindBarrier is_record_place (H.state host.old) (H.state host.new) }
    ensures silent { Silent (H.state host.old) (H.state host.new) }
    ensures counts { Counts (H.state host.old) (H.state host.new) result }
{
    host.barrier()?;
    merge(alloc, host, table, notes)
}

/// Merges the notes where as many as may be stand.
pub(crate) fn make_room<H: Host>(
    alloc: Global,
    host: &mut H,
    table: &Table,
    notes: &mut u16,
) -> Result<(), HostFault>
    requires count { notes.old ≤ 10000 }
    requires kept { Needs (H.state host.old) (AreKept table.now notes.old) }
    ensures number { OnOk result (notes.new ≡ note_number notes.old) }
    ensures within { notes.new ≤ 10000 }
    ensures room { Leaves result (HasRoom table.now notes.old notes.new) (H.state host.old)
        (H.state host.new) }
    ensures any_moment { AtEachMoment (IsMerging table.now) (H.state host.old) (H.state host.new) }
    ensures turns { GoByTurns is_record_place (H.state host.old) (H.state host.new) }
    ensures waits { GoBehindBarrier is_record_place (H.state host.old) (H.state host.new) }
    ensures silent { Silent (H.state host.old) (H.state host.new) }
    ensures counts { Counts (H.state host.old) (H.state host.new) result }
{
    if *notes < MOST_NOTES {
        return Ok(());
    }
    merge_behind(alloc, host, table, *notes)?;
    *notes = 0;
    Ok(())
}
