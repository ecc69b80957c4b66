// Notes in records that are open.
ghost use Rattle.std.specs.Prelude.{◌≡◌, OnOk, OnErr, true, false, is_some};
ghost use Rattle.host_core.specs.Host.{AtEachMoment, Counts, Leaves, Needs, Silent};
ghost use Rattle.host_core.specs.Loss.{IsOnDisk};
ghost use Rattle.status_db.specs.Noting.{IsNoted, IsNoting};
ghost use Rattle.scattered_losses.specs.Apart.{WorksApart};
ghost use Rattle.status_records.specs.Records.{drop_record, put_record, record_in};
ghost use Rattle.status_db.specs.Held.{IsKept, is_record_place};
ghost use Rattle.status_records.specs.Words.{is_not_installed};

use crate::noted_database::NotedDatabase;
use crate::record_fault::RecordFault;
use host_core::{Host, HostFault};
use status_records::Record;
use std::alloc::Global;
use texts::Text;

/// Notes the record of a package: since the records are open, no other fault than the host's comes.
pub fn note_record<H: Host>(
    alloc: Global,
    host: &mut H,
    database: &mut NotedDatabase,
    entry: Record,
) -> Result<(), HostFault>
    requires opened { database.old.closed ≡ false }
    requires stands { is_not_installed entry.state ≡ false }
    requires kept { Needs (H.state host.old) (IsKept database.old) }
    ensures records { OnOk result (database.new.records ≡ put_record entry database.old.records) }
    ensures opened { OnOk result (database.new.closed ≡ false) }
    ensures err { OnErr result (database.new.closed ≡ true) }
    ensures same { OnErr result (database.new.records ≡ database.old.records) }
    ensures kept { Leaves result (IsNoted database.new) (H.state host.old) (H.state host.new) }
    ensures any_moment { AtEachMoment (IsNoting database.old.records
        (put_record entry database.old.records)) (H.state host.old) (H.state host.new) }
    ensures on_disk { OnOk result (IsOnDisk (H.state host.new).events) }
    ensures apart { WorksApart result is_record_place (H.state host.old) (H.state host.new) }
    ensures silent { Silent (H.state host.old) (H.state host.new) }
    ensures counts { Counts (H.state host.old) (H.state host.new) result }
{
    match database.note(alloc, host, entry) {
        Ok(()) => Ok(()),
        Err(RecordFault::Device) => Err(HostFault::Device),
        Err(RecordFault::NoMemory) => Err(HostFault::NoMemory),
        Err(RecordFault::Declined) => Err(HostFault::Declined),
        Err(RecordFault::Closed) => unreachable!(),
    }
}

/// Notes that a package has no record.
pub fn note_no_record<H: Host>(
    alloc: Global,
    host: &mut H,
    database: &mut NotedDatabase,
    name: &Text,
) -> Result<(), HostFault>
    requires opened { database.old.closed ≡ false }
    requires kept { Needs (H.state host.old) (IsKept database.old) }
    ensures records { OnOk result (database.new.records ≡ drop_record name.now
        database.old.records) }
    ensures opened { OnOk result (database.new.closed ≡ false) }
    ensures err { OnErr result (database.new.closed ≡ true) }
    ensures same { OnErr result (database.new.records ≡ database.old.records) }
    ensures kept { Leaves result (IsNoted database.new) (H.state host.old) (H.state host.new) }
    ensures any_moment { AtEachMoment (IsNoting database.old.records
        (drop_record name.now database.old.records)) (H.state host.old) (H.state host.new) }
    ensures on_disk { is_some (record_in database.old.records name.now) ≡ true
        → OnOk result (IsOnDisk (H.state host.new).events) }
    ensures apart { WorksApart result is_record_place (H.state host.old) (H.state host.new) }
    ensures silent { Silent (H.state host.old) (H.state host.new) }
    ensures counts { Counts (H.state host.old) (H.state host.new) result }
{
    match database.forget(alloc, host, name) {
        Ok(()) => Ok(()),
        Err(RecordFault::Device) => Err(HostFault::Device),
        Err(RecordFault::NoMemory) => Err(HostFault::NoMemory),
        Err(RecordFault::Declined) => Err(HostFault::Declined),
        Err(RecordFault::Closed) => unreachable!(),
    }
}
