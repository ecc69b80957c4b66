// The commit of an unpack.
ghost use Rattle.std.specs.Prelude.{◌≡◌, ◌⊎◌, ℕ, List, Contains, OnOk, OnErr, true, false};
ghost use Rattle.host_core.specs.Events.{IsDeniedIn};
ghost use Rattle.host_core.specs.Host.{AtEachMomentOf, Counts, Leaves, Needs, Silent, WasDenied};
ghost use Rattle.texts.specs.PackageNames.{is_package_name};
ghost use Rattle.control_members.specs.Stored.{IsMembersReady};
ghost use Rattle.file_lists.specs.Owners.{AreListPaths};
ghost use Rattle.file_lists.specs.Writing.{IsListReady};
ghost use Rattle.scattered_losses.specs.Apart.{WorksApart};
ghost use Rattle.status_db.specs.Held.{IsKept, is_record_place};
ghost use Rattle.status_records.specs.Records.{AreStanding};
ghost use Rattle.listed_files.specs.Closing.{BeganWithBarrier, SparesAdministration};
ghost use Rattle.listed_files.specs.Concluding.{AreElsewhere};
ghost use Rattle.unpack_commit.specs.Commit.{AreListsAmid, HasCommittedUnless, HasSomeNoted, MayCommitUnless, changes_of, committed_lists};
ghost use Rattle.unpack_commit.specs.Takeover.{put_records};

use crate::change::Change;
use crate::moving::{release_places, renew};
use crate::noting::note_records;
use crate::storing::store_members;
use diversions::Diversions;
use file_lists::{FileLists, Paths};
use host_core::{Host, HostFault};
use status_db::NotedDatabase;
use status_records::Record;
use std::alloc::Global;

/// Makes a package's list, control files and record the new ones; the records of packages that lose conffiles are noted
/// before it: the package's own is the last, so that until then it isn't unpacked.
pub fn commit<H: Host>(
    alloc: Global,
    host: &mut H,
    database: &mut NotedDatabase,
    lists: &mut FileLists,
    diversions: &Diversions,
    change: &Change,
    new_list: Paths,
    records: &[Record],
) -> Result<(), HostFault>
    requires noting { database.old.closed ≡ false }
    requires opened { lists.old.closed ≡ false }
    requires named { is_package_name change.now.name ≡ true }
    requires losers { (name : List ℕ) → Contains change.now.losers name → is_package_name name
        ≡ true }
    requires spared { SparesAdministration change.now.leaving.items }
    requires paths { AreListPaths new_list }
    requires elsewhere { AreElsewhere change.now.names.items }
    requires stands { AreStanding records.now }
    requires ready { Needs (H.state host.old) (IsListReady change.now.name) }
    requires losers_ready { Needs (H.state host.old) (λ w. (name : List ℕ)
        → Contains change.now.losers name → IsListReady name w) }
    requires members { Needs (H.state host.old) (IsMembersReady change.now.name) }
    requires kept { Needs (H.state host.old) (IsKept database.old) }
    ensures lists { OnOk result (lists.new ≡ record lists.old {
      lists = committed_lists (changes_of change.now new_list) diversions.now.ways
          lists.old.lists;
    }) }
    ensures lists_err { OnErr result ((lists.new.closed ≡ true)
        ⊎ AreListsAmid (changes_of change.now new_list) diversions.now.ways lists.old.lists
        lists.new.lists) }
    ensures records { OnOk result (database.new.records ≡ put_records records.now
        database.old.records) }
    ensures opened { OnOk result (database.new.closed ≡ false) }
    ensures err { OnErr result (HasSomeNoted records.now database.old.records
        database.new.records) }
    ensures committed { Leaves result (HasCommittedUnless (changes_of change.now new_list)
        diversions.now.ways lists.old.lists (WasDenied (H.state host.old) (H.state host.new))
        (put_records records.now database.old.records)) (H.state host.old) (H.state host.new) }
    ensures kept { Leaves result (λ old new. IsKept database.new new) (H.state host.old)
        (H.state host.new) }
    ensures any_moment { AtEachMomentOf (λ old so_far now. MayCommitUnless
        (changes_of change.now new_list) diversions.now.ways lists.old.lists (IsDeniedIn so_far)
        records.now database.old.records old now) (H.state host.old) (H.state host.new) }
    ensures first { OnOk result (BeganWithBarrier (H.state host.old) (H.state host.new)) }
    ensures apart { WorksApart result is_record_place (H.state host.old) (H.state host.new) }
    ensures silent { Silent (H.state host.old) (H.state host.new) }
    ensures counts { Counts (H.state host.old) (H.state host.new) result }
{
    renew(alloc, host, lists, change, new_list)?;
    store_members(alloc, host, &change.name, &change.members)?;
    release_places(alloc, host, lists, diversions, change)?;
    note_records(alloc, host, database, records)
}
