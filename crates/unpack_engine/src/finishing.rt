// What follows the rows of a unit, however they ended.
ghost use Rattle.std.specs.Prelude.{◌≡◌, ◌↔◌, ◌++◌, true, false, ℕ, List, IfOk, OnOk, Contains, length, nat_eq};
ghost use Rattle.texts.specs.PackageNames.{is_package_name};
ghost use Rattle.host_core.specs.World.{IsDirectory};
ghost use Rattle.scattered_losses.specs.Apart.{WorksApart};
ghost use Rattle.host_core.specs.Host.{AtEachMoment, Counts, Leaves, Needs, Silent, WasDenied};
ghost use Rattle.administration.specs.Places.{info_path};
ghost use Rattle.undo_rows.specs.Transcripts.{Committed};
ghost use Rattle.control_members.specs.LaidOut.{AreLaidOut};
ghost use Rattle.control_members.specs.Stored.{IsMembersReady};
ghost use Rattle.file_lists.specs.Beside.{AreSameBeside};
ghost use Rattle.file_lists.specs.Info.{AreLoose};
ghost use Rattle.file_lists.specs.Owners.{AreListPaths};
ghost use Rattle.file_lists.specs.Writing.{IsListReady};
ghost use Rattle.undo_rows.specs.Ended.{ended_as};
ghost use Rattle.status_db.specs.Held.{IsKept, is_record_place};
ghost use Rattle.status_records.specs.Records.{AreStanding, record_in};
ghost use Rattle.unpack_commit.specs.Commit.{HasCommitted, HasCommittedUnless, MayCommit, changes_of, committed_lists};
ghost use Rattle.unpack_commit.specs.Takeover.{put_records};
ghost use Rattle.listed_files.specs.Closing.{SparesAdministration};
ghost use Rattle.listed_files.specs.Concluding.{AreElsewhere};
ghost use Rattle.unpack_rows.specs.EndStates.{own_name};
ghost use Rattle.unpack_engine.specs.Endings.{changes_from, ended_lists, ended_records, ended_table, records_from};
ghost use Rattle.unpack_engine.specs.Touched.{AreTold, deconfigured};
ghost use Rattle.unpack_engine.specs.Units.{HasDropped, HasLeft, HasLeftBy, HasLeftUnless, MayDrop, MayLeave, MayLeaveBy};

use crate::committed::{Committing, committing_of, end_committed};
use crate::touched::touched_of;
use crate::unwound::end_unwound;
use control_members::Members;
use diversions::Diversions;
use file_lists::FileLists;
use host_core::{Host, HostFault};
use package_files::Work;
use status_db::NotedDatabase;
use status_records::Record;
use std::alloc::Global;
use texts::{Text, Texts};
use undo_rows::Unwinding;
use unpack_plan::PlannedCommit;
use unpack_steps::Rows;

/// How a unit ended: how its rows were unwound, or none where it was committed; its packages, in
/// the order of names: the one that was named, and each whose record differs since; whether the
/// lists of all packages but the named one are those of before; and whether the table of diversions
/// is another than before, as scripts have left it.
#[derive(Drop)]
pub struct Unpacked {
    pub unwinding: Option<Unwinding>,
    pub touched: Texts,
    pub alone: bool,
    pub anew: bool,
}

// The same of a commit.
#[derive(Drop)]
struct Finished {
    touched: Texts,
    alone: bool,
}

// Ends a unit whose rows were unwound, and had gone on to the new preinst's or hadn't.
fn finish_unwound<H: Host>(
    alloc: Global,
    host: &mut H,
    database: &NotedDatabase,
    name: &Text,
    reached: bool,
    others: &[Record],
    members: &Members,
) -> Result<Texts, HostFault>
    requires named { is_package_name name.now ≡ true }
    requires ready { Needs (H.state host.old) (IsListReady name.now) }
    requires laid { Needs (H.state host.old) (AreLaidOut members.now) }
    requires kept { Needs (H.state host.old) (IsKept database.now) }
    ensures told { IfOk result (AreTold name.now (deconfigured database.now.records others.now)) }
    ensures left { Leaves result
        (HasLeftBy (HasDropped reached (record_in database.now.records name.now) name.now))
        (H.state host.old) (H.state host.new) }
    ensures any_moment { AtEachMoment
        (MayLeaveBy
        (HasDropped reached (record_in database.now.records name.now) name.now)
        (MayDrop reached (record_in database.now.records name.now) name.now))
        (H.state host.old) (H.state host.new) }
    ensures silent { Silent (H.state host.old) (H.state host.new) }
    ensures apart { WorksApart result is_record_place (H.state host.old) (H.state host.new) }
    ensures counts { Counts (H.state host.old) (H.state host.new) result }
{
    end_unwound(alloc, host, database, name, reached, members)?;
    Ok(touched_of(alloc, database, name, &[], others)?)
}

// Makes a commit that is ready.
fn finish_ready<H: Host>(
    alloc: Global,
    host: &mut H,
    database: &mut NotedDatabase,
    lists: &mut FileLists,
    diversions: &Diversions,
    committing: Committing,
    others: &[Record],
) -> Result<Finished, HostFault>
    requires noting { database.old.closed ≡ false }
    requires opened { lists.old.closed ≡ false }
    requires named { is_package_name committing.change.name ≡ true }
    requires losers { (name : List ℕ) → Contains committing.change.losers name
        → is_package_name name ≡ true }
    requires spared { SparesAdministration committing.change.leaving.items }
    requires paths { AreListPaths committing.new_list }
    requires elsewhere { AreElsewhere committing.change.names.items }
    requires stands { AreStanding committing.records.items }
    requires ready { Needs (H.state host.old) (IsListReady committing.change.name) }
    requires losers_ready { Needs (H.state host.old) (λ w. (name : List ℕ)
        → Contains committing.change.losers name → IsListReady name w) }
    requires members { Needs (H.state host.old) (IsMembersReady committing.change.name) }
    requires kept { Needs (H.state host.old) (IsKept database.old) }
    requires laid { Needs (H.state host.old) (AreLaidOut committing.change.members) }
    ensures told { IfOk result (λ f. AreTold committing.change.name (committing.records.items
        ++ deconfigured database.new.records others.now) f.touched) }
    ensures alone { IfOk result (λ f. f.alone ≡ nat_eq (length committing.change.losers) 0) }
    ensures lists { OnOk result (lists.new
        ≡ record lists.old {
          lists = committed_lists
              (changes_of committing.change committing.new_list) diversions.now.ways
              lists.old.lists;
        }) }
    ensures records { OnOk result (database.new.records
        ≡ put_records committing.records.items database.old.records) }
    ensures opened { OnOk result (database.new.closed ≡ false) }
    ensures left { Leaves result
        (HasLeftBy (HasCommitted
        (changes_of committing.change committing.new_list) diversions.now.ways
        lists.old.lists (put_records committing.records.items database.old.records)))
        (H.state host.old) (H.state host.new) }
    ensures stays { Leaves result
        (HasLeftBy (HasCommittedUnless
        (changes_of committing.change committing.new_list) diversions.now.ways
        lists.old.lists (WasDenied (H.state host.old) (H.state host.new))
        (put_records committing.records.items database.old.records)))
        (H.state host.old) (H.state host.new) }
    ensures kept { Leaves result
        (λ old new. IsKept database.new new) (H.state host.old) (H.state host.new) }
    ensures any_moment { AtEachMoment
        (MayLeaveBy
        (HasCommitted
        (changes_of committing.change committing.new_list) diversions.now.ways
        lists.old.lists (put_records committing.records.items database.old.records))
        (MayCommit
        (changes_of committing.change committing.new_list) diversions.now.ways
        lists.old.lists committing.records.items database.old.records))
        (H.state host.old) (H.state host.new) }
    ensures silent { Silent (H.state host.old) (H.state host.new) }
    ensures apart { WorksApart result is_record_place (H.state host.old) (H.state host.new) }
    ensures counts { Counts (H.state host.old) (H.state host.new) result }
{
    let Committing {
        change,
        new_list,
        records,
    } = committing;
    let noted = records.as_slice();
    let alone = change.losers.as_slice().is_empty();
    match end_committed(
        alloc, host, database, lists, diversions, &change, new_list, noted,
    ) {
        Ok(()) => Ok(Finished {
            touched: touched_of(alloc, database, &change.name, noted, others)?,
            alone,
        }),
        Err(fault) => Err(fault),
    }
}

// Ends a unit whose rows succeeded.
fn finish_committed<H: Host>(
    alloc: Global,
    host: &mut H,
    database: &mut NotedDatabase,
    lists: &mut FileLists,
    diversions: &Diversions,
    name: &Text,
    yields: &[Text],
    works: &[Work],
    commit: PlannedCommit,
    others: &[Record],
) -> Result<Finished, HostFault>
    requires noting { database.old.closed ≡ false }
    requires opened { lists.old.closed ≡ false }
    requires named { is_package_name name.now ≡ true }
    requires spared { SparesAdministration commit.leaving.items }
    requires paths { AreListPaths commit.new_list }
    requires elsewhere { AreElsewhere commit.names.items }
    requires stands { AreStanding (records_from name.now yields.now diversions.now.ways
        lists.old.lists works.now commit database.old.records) }
    requires info { Needs (H.state host.old) (λ w. IsDirectory (w info_path)) }
    requires loose { Needs (H.state host.old) AreLoose }
    requires kept { Needs (H.state host.old) (IsKept database.old) }
    requires laid { Needs (H.state host.old) (AreLaidOut commit.members) }
    ensures told { IfOk result (λ f. AreTold name.now (records_from name.now yields.now
        diversions.now.ways lists.old.lists works.now commit database.old.records
        ++ deconfigured database.new.records others.now) f.touched) }
    ensures alone { IfOk result (λ f. (f.alone ≡ true)
        ↔ AreSameBeside name.now lists.old.lists lists.new.lists) }
    ensures lists { OnOk result (lists.new ≡ record lists.old {
      lists = committed_lists (changes_from name.now yields.now diversions.now.ways
          lists.old.lists works.now commit) diversions.now.ways lists.old.lists;
    }) }
    ensures records { OnOk result (database.new.records
        ≡ put_records
        (records_from name.now yields.now diversions.now.ways lists.old.lists works.now commit
        database.old.records)
        database.old.records) }
    ensures opened { OnOk result (database.new.closed ≡ false) }
    ensures left { Leaves result
        (HasLeft
        (changes_from name.now yields.now diversions.now.ways lists.old.lists works.now commit)
        (records_from name.now yields.now diversions.now.ways lists.old.lists works.now commit
        database.old.records)
        diversions.now.ways lists.old.lists database.old.records (length others.now)
        Committed)
        (H.state host.old) (H.state host.new) }
    ensures stays { Leaves result
        (HasLeftUnless
        (changes_from name.now yields.now diversions.now.ways lists.old.lists works.now commit)
        (records_from name.now yields.now diversions.now.ways lists.old.lists works.now commit
        database.old.records)
        diversions.now.ways lists.old.lists database.old.records (length others.now)
        (WasDenied (H.state host.old) (H.state host.new)) Committed)
        (H.state host.old) (H.state host.new) }
    ensures kept { Leaves result
        (λ old new. IsKept database.new new) (H.state host.old) (H.state host.new) }
    ensures any_moment { AtEachMoment
        (MayLeave
        (changes_from name.now yields.now diversions.now.ways lists.old.lists works.now commit)
        (records_from name.now yields.now diversions.now.ways lists.old.lists works.now commit
        database.old.records)
        diversions.now.ways lists.old.lists database.old.records (length others.now)
        Committed)
        (H.state host.old) (H.state host.new) }
    ensures silent { Silent (H.state host.old) (H.state host.new) }
    ensures apart { WorksApart result is_record_place (H.state host.old) (H.state host.new) }
    ensures counts { Counts (H.state host.old) (H.state host.new) result }
{
    match committing_of(
        alloc, database, lists, diversions, name, yields, works, commit,
    ) {
        Ok(committing) => finish_ready(
            alloc, host, database, lists, diversions, committing, others,
        ),
        Err(_) => Err(HostFault::NoMemory),
    }
}

/// Ends a unit: it is committed, or nothing of what it brought stays; then `tmp.ci` goes.
pub(crate) fn finish<H: Host>(
    alloc: Global,
    host: &mut H,
    database: &mut NotedDatabase,
    lists: &mut FileLists,
    diversions: &Diversions,
    rows: &Rows,
    works: &[Work],
    commit: PlannedCommit,
    unwinding: Option<Unwinding>,
    anew: bool,
) -> Result<Unpacked, HostFault>
    requires noting { database.old.closed ≡ false }
    requires opened { lists.old.closed ≡ false }
    requires named { is_package_name (own_name rows.now.found rows.now.incoming) ≡ true }
    requires spared { SparesAdministration commit.leaving.items }
    requires paths { AreListPaths commit.new_list }
    requires elsewhere { AreElsewhere commit.names.items }
    requires stands { AreStanding (records_from
        (own_name rows.now.found rows.now.incoming) rows.now.yields diversions.now.ways
        lists.old.lists works.now commit database.old.records) }
    requires info { Needs (H.state host.old) (λ w. IsDirectory (w info_path)) }
    requires loose { Needs (H.state host.old) AreLoose }
    requires kept { Needs (H.state host.old) (IsKept database.old) }
    requires laid { Needs (H.state host.old) (AreLaidOut commit.members) }
    ensures unwinding { IfOk result (λ u. u.unwinding ≡ unwinding) }
    ensures anew { IfOk result (λ u. u.anew ≡ anew) }
    ensures told { IfOk result (λ u. AreTold
        (own_name rows.now.found rows.now.incoming)
        (ended_records
        (ended_as unwinding)
        (records_from
        (own_name rows.now.found rows.now.incoming) rows.now.yields diversions.now.ways
        lists.old.lists works.now commit database.old.records)
        ++ deconfigured database.new.records rows.now.others.items)
        u.touched) }
    ensures alone { IfOk result (λ u. (u.alone ≡ true) ↔ AreSameBeside
        (own_name rows.now.found rows.now.incoming) lists.old.lists lists.new.lists) }
    ensures lists { OnOk result (lists.new
        ≡ record lists.old {
          lists = ended_lists
              (ended_as unwinding)
              (changes_from
              (own_name rows.now.found rows.now.incoming) rows.now.yields diversions.now.ways
              lists.old.lists works.now commit)
              diversions.now.ways lists.old.lists;
        }) }
    ensures records { OnOk result (database.new.records
        ≡ ended_table
        (ended_as unwinding)
        (records_from
        (own_name rows.now.found rows.now.incoming) rows.now.yields diversions.now.ways
        lists.old.lists works.now commit database.old.records)
        database.old.records) }
    ensures opened { OnOk result (database.new.closed ≡ false) }
    ensures left { Leaves result
        (HasLeft
        (changes_from
        (own_name rows.now.found rows.now.incoming) rows.now.yields diversions.now.ways
        lists.old.lists works.now commit)
        (records_from
        (own_name rows.now.found rows.now.incoming) rows.now.yields diversions.now.ways
        lists.old.lists works.now commit database.old.records)
        diversions.now.ways lists.old.lists database.old.records
        (length rows.now.others.items) (ended_as unwinding))
        (H.state host.old) (H.state host.new) }
    ensures stays { Leaves result
        (HasLeftUnless
        (changes_from
        (own_name rows.now.found rows.now.incoming) rows.now.yields diversions.now.ways
        lists.old.lists works.now commit)
        (records_from
        (own_name rows.now.found rows.now.incoming) rows.now.yields diversions.now.ways
        lists.old.lists works.now commit database.old.records)
        diversions.now.ways lists.old.lists database.old.records
        (length rows.now.others.items) (WasDenied (H.state host.old) (H.state host.new))
        (ended_as unwinding))
        (H.state host.old) (H.state host.new) }
    ensures kept { Leaves result
        (λ old new. IsKept database.new new) (H.state host.old) (H.state host.new) }
    ensures any_moment { AtEachMoment
        (MayLeave
        (changes_from
        (own_name rows.now.found rows.now.incoming) rows.now.yields diversions.now.ways
        lists.old.lists works.now commit)
        (records_from
        (own_name rows.now.found rows.now.incoming) rows.now.yields diversions.now.ways
        lists.old.lists works.now commit database.old.records)
        diversions.now.ways lists.old.lists database.old.records
        (length rows.now.others.items) (ended_as unwinding))
        (H.state host.old) (H.state host.new) }
    ensures silent { Silent (H.state host.old) (H.state host.new) }
    ensures apart { WorksApart result is_record_place (H.state host.old) (H.state host.new) }
    ensures counts { Counts (H.state host.old) (H.state host.new) result }
{
    let name = rows.name();
    let others = rows.others.as_slice();
    match unwinding {
        None => {
            let yields = rows.yields.as_slice();
            match finish_committed(
                alloc, host, database, lists, diversions, name, yields, works, commit, others,
            ) {
                Ok(finished) => Ok(Unpacked {
                    unwinding: None,
                    touched: finished.touched,
                    alone: finished.alone,
                    anew,
                }),
                Err(fault) => Err(fault),
            }
        }
        Some(unwinding) => {
            let reached = others.len() <= unwinding.fall.row;
            let members = &commit.members;
            match finish_unwound(alloc, host, database, name, reached, others, members) {
                Ok(touched) => Ok(Unpacked {
                    unwinding: Some(unwinding),
                    touched,
                    alone: true,
                    anew,
                }),
                Err(fault) => Err(fault),
            }
        }
    }
}
