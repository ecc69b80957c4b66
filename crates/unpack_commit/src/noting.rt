// Records that are noted one after another.
ghost use Rattle.std.specs.Prelude.{◌≡◌, OnOk, OnErr, true, false};
ghost use Rattle.host_core.specs.Host.{AtEachMoment, Counts, Leaves, Needs, Silent};
ghost use Rattle.scattered_losses.specs.Apart.{WorksApart};
ghost use Rattle.status_db.specs.Held.{IsKept, is_record_place};
ghost use Rattle.status_db.specs.Noting.{IsNoted, IsNoting};
ghost use Rattle.status_records.specs.Records.{AreStanding, put_record};
ghost use Rattle.status_records.specs.Words.{is_not_installed};
ghost use Rattle.unpack_commit.specs.Commit.{AreNoting, HasSomeNoted, HaveNoted};
ghost use Rattle.unpack_commit.specs.Takeover.{put_records};

use host_core::{Host, HostFault};
use status_db::{NotedDatabase, note_record};
use status_records::Record;
use std::alloc::Global;

fn note_copy<H: Host>(
    alloc: Global,
    host: &mut H,
    database: &mut NotedDatabase,
    entry: &Record,
) -> Result<(), HostFault>
    requires opened { database.old.closed ≡ false }
    requires stands { is_not_installed entry.now.state ≡ false }
    requires kept { Needs (H.state host.old) (IsKept database.old) }
    ensures records { OnOk result (database.new.records ≡ put_record entry.now
        database.old.records) }
    ensures opened { OnOk result (database.new.closed ≡ false) }
    ensures same { OnErr result (database.new.records ≡ database.old.records) }
    ensures kept { Leaves result (IsNoted database.new) (H.state host.old) (H.state host.new) }
    ensures any_moment { AtEachMoment (IsNoting database.old.records
        (put_record entry.now database.old.records)) (H.state host.old) (H.state host.new) }
    ensures apart { WorksApart result is_record_place (H.state host.old) (H.state host.new) }
    ensures silent { Silent (H.state host.old) (H.state host.new) }
    ensures counts { Counts (H.state host.old) (H.state host.new) result }
{
    let copy = entry.copy()?;
    note_record(alloc, host, database, copy)
}

/// Notes these records, one after another.
pub(crate) fn note_records<H: Host>(
    alloc: Global,
    host: &mut H,
    database: &mut NotedDatabase,
    records: &[Record],
) -> Result<(), HostFault>
    requires opened { database.old.closed ≡ false }
    requires stands { AreStanding records.now }
    requires kept { Needs (H.state host.old) (IsKept database.old) }
    ensures records { OnOk result (database.new.records ≡ put_records records.now
        database.old.records) }
    ensures opened { OnOk result (database.new.closed ≡ false) }
    ensures err { OnErr result (HasSomeNoted records.now database.old.records
        database.new.records) }
    ensures noted { Leaves result (HaveNoted (put_records records.now database.old.records))
        (H.state host.old) (H.state host.new) }
    ensures kept { Leaves result (λ old new. IsKept database.new new) (H.state host.old)
        (H.state host.new) }
    ensures any_moment { AtEachMoment (AreNoting records.now database.old.records)
        (H.state host.old) (H.state host.new) }
    ensures apart { WorksApart result is_record_place (H.state host.old) (H.state host.new) }
    ensures silent { Silent (H.state host.old) (H.state host.new) }
    ensures counts { Counts (H.state host.old) (H.state host.new) result }
{
    for entry in records {
        note_copy(alloc, host, database, entry)?;
    }
    Ok(())
}
