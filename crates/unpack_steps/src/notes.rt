// A note beside a row of an unpack.
ghost use Rattle.std.specs.Prelude.{◌≡◌, Some, OnOk, false};
ghost use Rattle.host_core.specs.Host.{AtEachMoment, Counts, Leaves, Needs, Silent};
ghost use Rattle.scattered_losses.specs.Apart.{WorksApart};
ghost use Rattle.status_db.specs.Held.{IsKept, is_record_place};
ghost use Rattle.status_db.specs.Noting.{IsNoted, IsNoting};
ghost use Rattle.unpack_rows.specs.Notes.{listed, noted};
ghost use Rattle.unpack_steps.specs.Notable.{IsNotable};

use host_core::{Host, HostFault};
use status_db::{NotedDatabase, note_no_record, note_record};
use std::alloc::Global;
use unpack_rows::Note;

fn write_one<H: Host>(
    alloc: Global,
    host: &mut H,
    database: &mut NotedDatabase,
    entry: Note,
) -> Result<(), HostFault>
    requires opened { database.old.closed ≡ false }
    requires notable { IsNotable (Some entry) }
    requires kept { Needs (H.state host.old) (IsKept database.old) }
    ensures records { OnOk result (database.new.records ≡ noted database.old.records
        (listed (Some entry))) }
    ensures opened { OnOk result (database.new.closed ≡ false) }
    ensures kept { Leaves result (IsNoted database.new) (H.state host.old) (H.state host.new) }
    ensures any_moment { AtEachMoment (IsNoting database.old.records (noted database.old.records
        (listed (Some entry)))) (H.state host.old) (H.state host.new) }
    ensures apart { WorksApart result is_record_place (H.state host.old) (H.state host.new) }
    ensures silent { Silent (H.state host.old) (H.state host.new) }
    ensures counts { Counts (H.state host.old) (H.state host.new) result }
{
    match entry {
        Note::Put(record) => note_record(alloc, host, database, record),
        Note::Drop(name) => note_no_record(alloc, host, database, &name),
    }
}

/// Writes a note, or none.
pub(crate) fn write_note<H: Host>(
    alloc: Global,
    host: &mut H,
    database: &mut NotedDatabase,
    entry: Option<Note>,
) -> Result<(), HostFault>
    requires opened { database.old.closed ≡ false }
    requires notable { IsNotable entry }
    requires kept { Needs (H.state host.old) (IsKept database.old) }
    ensures records { OnOk result (database.new.records ≡ noted database.old.records
        (listed entry)) }
    ensures opened { OnOk result (database.new.closed ≡ false) }
    ensures kept { Leaves result (IsNoted database.new) (H.state host.old) (H.state host.new) }
    ensures any_moment { AtEachMoment (IsNoting database.old.records (noted database.old.records
        (listed entry))) (H.state host.old) (H.state host.new) }
    ensures apart { WorksApart result is_record_place (H.state host.old) (H.state host.new) }
    ensures silent { Silent (H.state host.old) (H.state host.new) }
    ensures counts { Counts (H.state host.old) (H.state host.new) result }
{
    match entry {
        None => Ok(()),
        Some(entry) => write_one(alloc, host, database, entry),
    }
}
