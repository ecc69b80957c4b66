// What follows rows that all succeeded.
ghost use Rattle.std.specs.Prelude.{◌≡◌, true, false, ℕ, List, IfOk, OnOk, Contains};
ghost use Rattle.texts.specs.PackageNames.{is_package_name};
ghost use Rattle.host_core.specs.Host.{AtEachMoment, Counts, Leaves, Needs, Silent, WasDenied};
ghost use Rattle.scattered_losses.specs.Apart.{WorksApart};
ghost use Rattle.control_members.specs.LaidOut.{AreLaidOut};
ghost use Rattle.control_members.specs.Stored.{IsMembersReady};
ghost use Rattle.file_lists.specs.Owners.{AreListPaths};
ghost use Rattle.file_lists.specs.Writing.{IsListReady};
ghost use Rattle.status_db.specs.Held.{IsKept, is_record_place};
ghost use Rattle.status_records.specs.Records.{AreStanding};
ghost use Rattle.unpack_commit.specs.Commit.{HasCommitted, HasCommittedUnless, MayCommit, changes_of, committed_lists};
ghost use Rattle.unpack_commit.specs.Takeover.{put_records};
ghost use Rattle.listed_files.specs.Closing.{SparesAdministration};
ghost use Rattle.listed_files.specs.Concluding.{AreElsewhere};
ghost use Rattle.unpack_engine.specs.Endings.{changes_from, records_from};
ghost use Rattle.unpack_engine.specs.Others.{is_other_package, yields_beside};
ghost use Rattle.unpack_engine.specs.Units.{HasLeftBy, MayLeaveBy};

use control_members::clear_away;
use diversions::Diversions;
use file_lists::{FileLists, Paths};
use host_core::{Host, HostFault};
use package_files::Work;
use status_db::NotedDatabase;
use status_records::Record;
use std::alloc::{AllocError, Global};
use texts::{Text, Texts, package_name};
use unpack_commit::{Change, commit, takeover_of};
use unpack_plan::PlannedCommit;

/// A commit that is ready to be made: what changes, the new list, and the records that are noted.
#[derive(Drop)]
pub(crate) struct Committing {
    pub(crate) change: Change,
    pub(crate) new_list: Paths,
    pub(crate) records: Vec<Record>,
}

// Whether a name is that of a package, and not this one.
fn is_other_package(own: &Text, name: &Text) -> bool
    ensures { result ≡ is_other_package own.now name.now }
{
    package_name(name.as_str().as_bytes()).is_some() && name.as_str() != own.as_str()
}

// Of these names those of other packages.
fn yields_beside(alloc: Global, own: &Text, names: &[Text]) -> Result<Texts, AllocError>
    ensures { IfOk result (λ others. others ≡ yields_beside own.now names.now) }
{
    let mut others = Texts::new(alloc);
    for other in names {
        if is_other_package(own, other) {
            others.push(other.copy()?)?;
        }
    }
    Ok(others)
}

/// What is committed, where these works were written: no list but those of other packages that
/// yield loses a place.
pub(crate) fn committing_of(
    alloc: Global,
    database: &NotedDatabase,
    lists: &FileLists,
    diversions: &Diversions,
    name: &Text,
    yields: &[Text],
    works: &[Work],
    commit: PlannedCommit,
) -> Result<Committing, AllocError>
    ensures change { IfOk result (λ c. changes_of c.change c.new_list
        ≡ changes_from name.now yields.now diversions.now.ways lists.now.lists works.now
        commit) }
    ensures members { IfOk result (λ c. c.change.members ≡ commit.members) }
    ensures records { IfOk result (λ c. c.records.items
        ≡ records_from name.now yields.now diversions.now.ways lists.now.lists works.now commit
        database.now.records) }
{
    let others = yields_beside(alloc, name, yields)?;
    let takeover = takeover_of(alloc, works, database, lists, diversions, others.as_slice())?;
    let mut records = takeover.records;
    records.push(commit.fresh)?;
    Ok(Committing {
        change: Change {
            name: name.copy()?,
            leaving: commit.leaving,
            members: commit.members,
            places: takeover.places,
            losers: takeover.losers,
            names: commit.names,
        },
        new_list: commit.new_list,
        records,
    })
}

/// Ends a unit whose rows succeeded: it is committed, and `tmp.ci` goes.
pub(crate) fn end_committed<H: Host>(
    alloc: Global,
    host: &mut H,
    database: &mut NotedDatabase,
    lists: &mut FileLists,
    diversions: &Diversions,
    change: &Change,
    new_list: Paths,
    records: &[Record],
) -> Result<(), HostFault>
    requires noting { database.old.closed ≡ false }
    requires opened { lists.old.closed ≡ false }
    requires named { is_package_name change.now.name ≡ true }
    requires losers { (name : List ℕ) → Contains change.now.losers name
        → is_package_name name ≡ true }
    requires spared { SparesAdministration change.now.leaving.items }
    requires paths { AreListPaths new_list }
    requires elsewhere { AreElsewhere change.now.names.items }
    requires stands { AreStanding records.now }
    requires ready { Needs (H.state host.old) (IsListReady change.now.name) }
    requires losers_ready { Needs (H.state host.old) (λ w. (name : List ℕ)
        → Contains change.now.losers name → IsListReady name w) }
    requires members { Needs (H.state host.old) (IsMembersReady change.now.name) }
    requires kept { Needs (H.state host.old) (IsKept database.old) }
    requires laid { Needs (H.state host.old) (AreLaidOut change.now.members) }
    ensures lists { OnOk result (lists.new
        ≡ record lists.old {
          lists = committed_lists
              (changes_of change.now new_list) diversions.now.ways lists.old.lists;
        }) }
    ensures records { OnOk result (database.new.records
        ≡ put_records records.now database.old.records) }
    ensures opened { OnOk result (database.new.closed ≡ false) }
    ensures left { Leaves result
        (HasLeftBy (HasCommitted
        (changes_of change.now new_list) diversions.now.ways lists.old.lists
        (put_records records.now database.old.records)))
        (H.state host.old) (H.state host.new) }
    ensures stays { Leaves result
        (HasLeftBy (HasCommittedUnless
        (changes_of change.now new_list) diversions.now.ways lists.old.lists
        (WasDenied (H.state host.old) (H.state host.new))
        (put_records records.now database.old.records)))
        (H.state host.old) (H.state host.new) }
    ensures kept { Leaves result
        (λ old new. IsKept database.new new) (H.state host.old) (H.state host.new) }
    ensures any_moment { AtEachMoment
        (MayLeaveBy
        (HasCommitted
        (changes_of change.now new_list) diversions.now.ways lists.old.lists
        (put_records records.now database.old.records))
        (MayCommit
        (changes_of change.now new_list) diversions.now.ways lists.old.lists records.now
        database.old.records))
        (H.state host.old) (H.state host.new) }
    ensures silent { Silent (H.state host.old) (H.state host.new) }
    ensures apart { WorksApart result is_record_place (H.state host.old) (H.state host.new) }
    ensures counts { Counts (H.state host.old) (H.state host.new) result }
{
    commit(
        alloc, host, database, lists, diversions, change, new_list, records,
    )?;
    clear_away(alloc, host, &change.members)
}
