// The records that are taken up are noted.
ghost use Rattle.std.specs.Prelude.{◌≡◌, ◌∷◌, [], OnOk, false};
ghost use Rattle.host_core.specs.Host.{AtEachMoment, Counts, Leaves, Needs, Silent};
ghost use Rattle.status_db.specs.Held.{IsKept};
ghost use Rattle.status_db.specs.Noting.{IsNoted};
ghost use Rattle.status_records.specs.Records.{AreStanding, put_record};
ghost use Rattle.status_records.specs.Words.{is_not_installed};
ghost use Rattle.adopted_conffiles.specs.Adopted.{all_adopted, all_taken};
ghost use Rattle.adopted_conffiles.specs.Adopting.{IsAdopting, IsPutting, put_each};

use crate::finding::find_taken;
use diversions::Diversions;
use host_core::{Host, HostFault};
use status_db::{NotedDatabase, note_record};
use status_records::Record;
use std::alloc::Global;

// Notes a copy of a record.
fn note_copy<H: Host>(
    alloc: Global,
    host: &mut H,
    database: &mut NotedDatabase,
    entry: &Record,
) -> Result<(), HostFault>
    requires opened { database.old.closed ≡ false }
    requires stands { is_not_installed entry.now.state ≡ false }
    requires kept { Needs (H.state host.old) (IsKept database.old) }
    ensures records { OnOk result
        (database.new.records ≡ put_record entry.now database.old.records) }
    ensures opened { OnOk result (database.new.closed ≡ false) }
    ensures kept { Leaves result (IsNoted database.new) (H.state host.old) (H.state host.new) }
    ensures any_moment { AtEachMoment (IsPutting (entry.now ∷ []) database.old.records)
        (H.state host.old) (H.state host.new) }
    ensures silent { Silent (H.state host.old) (H.state host.new) }
    ensures counts { Counts (H.state host.old) (H.state host.new) result }
{
    match entry.copy() {
        Ok(entry) => note_record(alloc, host, database, entry),
        Err(fault) => Err(HostFault::from(fault)),
    }
}

// Notes each of some records.
fn note_each<H: Host>(
    alloc: Global,
    host: &mut H,
    database: &mut NotedDatabase,
    found: &[Record],
) -> Result<(), HostFault>
    requires opened { database.old.closed ≡ false }
    requires stand { AreStanding found.now }
    requires kept { Needs (H.state host.old) (IsKept database.old) }
    ensures records { OnOk result
        (database.new.records ≡ put_each found.now database.old.records) }
    ensures opened { OnOk result (database.new.closed ≡ false) }
    ensures kept { Leaves result (IsNoted database.new) (H.state host.old) (H.state host.new) }
    ensures any_moment { AtEachMoment (IsPutting found.now database.old.records)
        (H.state host.old) (H.state host.new) }
    ensures silent { Silent (H.state host.old) (H.state host.new) }
    ensures counts { Counts (H.state host.old) (H.state host.new) result }
{
    for entry in found {
        note_copy(alloc, host, database, entry)?;
    }
    Ok(())
}

/// Takes up the conffiles that another program unpacked and didn't settle: by the files beside their places, each in a note of its
/// package's record.
pub fn adopt<H: Host>(
    alloc: Global,
    host: &mut H,
    database: &mut NotedDatabase,
    diversions: &Diversions,
) -> Result<(), HostFault>
    requires opened { database.old.closed ≡ false }
    requires kept { Needs (H.state host.old) (IsKept database.old) }
    ensures records { Leaves result (λ old new. database.new.records
        ≡ all_adopted old diversions.now.ways database.old.records)
        (H.state host.old) (H.state host.new) }
    ensures opened { OnOk result (database.new.closed ≡ false) }
    ensures kept { Leaves result (IsNoted database.new) (H.state host.old) (H.state host.new) }
    ensures still { Leaves result
        (λ old new. all_taken old diversions.now.ways database.old.records ≡ [] → new ≡ old)
        (H.state host.old) (H.state host.new) }
    ensures no_note { Leaves result
        (λ old new. all_taken old diversions.now.ways database.old.records ≡ []
        → database.new.notes ≡ database.old.notes)
        (H.state host.old) (H.state host.new) }
    ensures any_moment { AtEachMoment (IsAdopting diversions.now.ways database.old.records)
        (H.state host.old) (H.state host.new) }
    ensures silent { Silent (H.state host.old) (H.state host.new) }
    ensures counts { Counts (H.state host.old) (H.state host.new) result }
{
    database.law();
    let mut found = Vec::new(alloc);
    match find_taken(alloc, host, diversions, database.records(), &mut found) {
        Ok(()) => {
            let found = found.as_slice();
            if found.is_empty() {
                return Ok(());
            }
            note_each(alloc, host, database, found)
        }
        Err(fault) => Err(fault),
    }
}
