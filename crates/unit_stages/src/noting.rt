// The note of a part.
ghost use Rattle.std.specs.Prelude.{◌≡◌, OnOk, true, false};
ghost use Rattle.host_core.specs.Host.{AtEachMoment, Counts, Leaves, Needs, Silent};
ghost use Rattle.scattered_losses.specs.Apart.{WorksApart};
ghost use Rattle.status_db.specs.Held.{IsKept, is_record_place};
ghost use Rattle.status_db.specs.Noting.{IsNoted, IsNoting};
ghost use Rattle.status_records.specs.Records.{put_record};
ghost use Rattle.status_records.specs.Words.{is_not_installed};

use host_core::{Host, HostFault};
use status_db::{NotedDatabase, note_record};
use status_records::Record;
use std::alloc::Global;

/// Notes a record, which stays with the part.
pub(crate) fn note_copy<H: Host>(
    alloc: Global,
    host: &mut H,
    database: &mut NotedDatabase,
    entry: &Record,
) -> Result<(), HostFault>
    requires opened { database.old.closed ≡ false }
    requires stands { is_not_installed entry.now.state ≡ false }
    requires kept { Needs (H.state host.old) (IsKept database.old) }
    ensures records { OnOk result
        (database.new.records ≡ put_record entry.now database.old.records) }
    ensures opened { OnOk result (database.new.closed ≡ false) }
    ensures kept { Leaves result (IsNoted database.new) (H.state host.old) (H.state host.new) }
    ensures any_moment { AtEachMoment
        (IsNoting database.old.records (put_record entry.now database.old.records))
        (H.state host.old) (H.state host.new) }
    ensures apart { WorksApart result is_record_place (H.state host.old) (H.state host.new) }
    ensures silent { Silent (H.state host.old) (H.state host.new) }
    ensures counts { Counts (H.state host.old) (H.state host.new) result }
{
    let copy = entry.copy()?;
    note_record(alloc, host, database, copy)
}
