// The beginning of a unit, and its rows: those before the files, and behind a look at the table of diversions the others.
ghost use Rattle.std.specs.Prelude.{◌≡◌, ◌⊎◌, ◌++◌, IfNone, IfOk, IfSome, List, None, false, is_some, length, take, true};
ghost use Rattle.host_core.specs.Host.{AtEachMomentOf, Counts, Needs, State};
ghost use Rattle.scattered_losses.specs.Apart.{WorksApart};
ghost use Rattle.undo_rows.specs.Place.{Fit, Forward};
ghost use Rattle.undo_rows.specs.Stops.{AtEachStop};
ghost use Rattle.undo_rows.specs.Telling.{Begun, HasRun, HasSucceeded};
ghost use Rattle.undo_rows.specs.Transcripts.{MayRun};
ghost use Rattle.undo_rows.specs.declared.rows.Called.{Called as ACalled};
ghost use Rattle.control_members.specs.LaidOut.{IsLaying};
ghost use Rattle.held_administration.specs.Open.{CanWrite};
ghost use Rattle.undo_rows.specs.Ended.{IsCauseOf, end_place, ended_as};
ghost use Rattle.undo_rows.specs.Faults.{OnlyIfDeclined};
ghost use Rattle.status_db.specs.Held.{is_record_place};
ghost use Rattle.unpack_rows.specs.EndStates.{own_name};
ghost use Rattle.unpack_rows.specs.ForwardRows.{Fits};
ghost use Rattle.unpack_rows.specs.Kinds.{kinds_of};
ghost use Rattle.unpack_rows.specs.Stages.{has_files};
ghost use Rattle.unpack_steps.specs.At.{At, IsFileFault, holding_by};
ghost use Rattle.unpack_steps.specs.Task.{IsSound, task_by};
ghost use Rattle.unpack_steps.specs.Underway.{task_since};
ghost use Rattle.status_records.specs.Records.{AreStanding};
ghost use Rattle.held_administration.specs.Order.{IsInOrder};
ghost use Rattle.unpack_plan.specs.Planned.{IsPlanned, Job, planned_from};
ghost use Rattle.unpack_engine.specs.Tables.{IsJobOf, IsPlanOf, IsPlanWith, IsReadHere, IsRunningByEither, StopsByEither};
ghost use Rattle.unpack_engine.specs.Units.{HasBegun, HasCalledRows, HasRunRows, IsPlanBy, IsReadAgain, IsRunning, with_ways_of};

use crate::renewing::renew_files;
use control_members::{Members, lay_out};
use diversions::Diversions;
use held_administration::Administration;
use host_core::{Host, HostFault};
use package_files::Work;
use package_tree::Package;
use std::snapshot::Snapshot;
use undo_rows::{Called, Row, Unwinding};
use unpack_plan::PlannedCommit;
use unpack_steps::{
    Rows, Underway, part_rows, rows_before_the_files_go_by_any_table, rows_begin_before_the_first,
};

/// How the rows of a unit ended: how they were unwound, if they were; whether the table of diversions was found changed, and its files
/// planned again by it; and what was to be written then.
#[derive(Drop)]
pub(crate) struct Ran {
    pub(crate) unwinding: Option<Unwinding>,
    pub(crate) anew: bool,
    pub(crate) shipped: Snapshot<Vec<Work>>,
}

// The rows before the files, and how they were unwound, if they were.
#[derive(Drop)]
struct FirstRows<H: Host> {
    underway: Underway<H>,
    unwinding: Option<Unwinding>,
}

// Begins a unit, for which the tree's control files are laid out, and runs rows of it.
fn begin_rows<H: Host>(
    host: &mut H,
    administration: &mut Administration,
    diversions: &Diversions,
    rows: &Rows,
    works: &mut Vec<Work>,
    calls: Vec<Row>,
    members: &Members,
    told: &mut Vec<Called>,
) -> Result<FirstRows<H>, HostFault>
    requires open { CanWrite administration.old }
    requires sound { IsSound (task_by (H.state host.old) administration.old diversions.now.ways
        works.old.items rows.now) }
    requires kinds { rows.now.kinds.items ≡ (kinds_of rows.now.found rows.now.others.items) }
    requires rows { Fit
        (Fits
        (own_name rows.now.found rows.now.incoming)
        (kinds_of rows.now.found rows.now.others.items))
        calls.items }
    requires order { Needs (H.state host.old)
        (IsInOrder administration.old.database administration.old.lists.lists) }
    ensures ran { IfOk result (λ first. (ran : HasRunRows (HasBegun members.now)
        (λ s. task_by s administration.old diversions.now.ways works.old.items rows.now)
        calls.items (ended_as first.unwinding) (holding_by administration.new works.new.items)
        (H.state host.old) (H.state host.new) told.old.items told.new.items)
        × (H.state first.underway.start.host.value ≡ ran.begun)) }
    ensures start { IfOk result (λ first. first.underway.start.administration.value
        ≡ administration.old) }
    ensures stack { IfOk result (λ first. IfNone first.unwinding
        (first.underway.stack ≡ calls.items)) }
    ensures cause { IfOk result (λ first. IsCauseOf calls.items first.unwinding) }
    ensures denied { IfOk result (λ first. IfSome first.unwinding
        (λ one. OnlyIfDeclined one.fall.fault (H.state host.old) (H.state host.new))) }
    ensures told { HasCalledRows calls.items
        (H.state host.old) (H.state host.new) told.old.items told.new.items }
    ensures any_moment { AtEachMomentOf (IsRunning (HasBegun members.now) IsLaying
        (λ s. task_by s administration.old diversions.now.ways works.old.items rows.now))
        (H.state host.old) (H.state host.new) }
    ensures apart { WorksApart result is_record_place (H.state host.old) (H.state host.new) }
    ensures counts { Counts (H.state host.old) (H.state host.new) result }
{
    let alloc = administration.alloc;
    match lay_out(alloc, host, members) {
        Ok(()) => {
            rows_begin_before_the_first();
            let mut underway = Underway::begin(alloc, host, administration);
            match underway.run(host, administration, diversions, rows, works, calls, told) {
                Ok(unwinding) => Ok(FirstRows {
                    underway,
                    unwinding,
                }),
                Err(fault) => Err(fault),
            }
        }
        Err(fault) => Err(fault),
    }
}

// Reads the table of diversions again behind the rows before the files, where scripts may have changed it, and runs the others by it.
fn run_files<H: Host>(
    host: &mut H,
    begun: Underway<H>,
    administration: &mut Administration,
    diversions: &mut Diversions,
    rows: &Rows,
    works: &mut Vec<Work>,
    commit: &mut PlannedCommit,
    calls: Vec<Row>,
    spare: &mut Option<Package>,
    told: &mut Vec<Called>,
) -> Result<Ran, HostFault>
    requires there { At (task_since H.state begun diversions.old.ways works.old.items rows.now)
        (holding_by administration.old works.old.items) (H.state host.old)
        (Forward (length begun.stack)) }
    requires before { has_files (take (length begun.stack)
        (kinds_of rows.now.found rows.now.others.items)) ≡ false }
    requires kinds { rows.now.kinds.items ≡ (kinds_of rows.now.found rows.now.others.items) }
    requires rows { Fit
        (Fits
        (own_name rows.now.found rows.now.incoming)
        (kinds_of rows.now.found rows.now.others.items))
        (begun.stack ++ calls.items) }
    requires plan { IsPlanOf administration.old.lists.lists diversions.old.ways spare.old
        (planned_from rows.now works.old.items (begun.stack ++ calls.items) commit.old) }
    ensures ran { IfOk result (λ r. (start : State) (before : List ACalled)
        → HasSucceeded
        (IsFileFault (task_since H.state begun diversions.old.ways works.old.items rows.now))
        begun.stack start (H.state host.old) before told.old.items
        → HasRun
        (IsFileFault (task_since H.state begun diversions.new.ways r.shipped.value.items rows.now))
        (ended_as r.unwinding) (begun.stack ++ calls.items) start (H.state host.new) before
        told.new.items) }
    ensures there { IfOk result (λ r. At
        (task_since H.state begun diversions.new.ways r.shipped.value.items rows.now)
        (holding_by administration.new works.new.items) (H.state host.new)
        (end_place (length (begun.stack ++ calls.items)) r.unwinding)) }
    ensures planned { IfOk result (λ r. (j : Job) → IsJobOf j
        (planned_from rows.now works.old.items (begun.stack ++ calls.items) commit.old)
        administration.old.lists.lists diversions.old.ways spare.old
        → IsPlanned (record j { ways = diversions.new.ways })
        (planned_from rows.now r.shipped.value.items (begun.stack ++ calls.items)
        commit.new)) }
    ensures members { commit.new.members ≡ commit.old.members }
    ensures table { IfOk result (λ r. is_some spare.old ≡ true → IsReadHere
        administration.old.lists.lists rows.now.union diversions.old.ways
        diversions.new.ways (H.state host.old) (H.state host.new)) }
    ensures same { IfOk result (λ r. is_some spare.old ≡ false
        → diversions.new ≡ diversions.old) }
    ensures diversions { diversions.new ≡ with_ways_of diversions.new diversions.old }
    ensures anew { IfOk result (λ r. r.anew ≡ false → diversions.new ≡ diversions.old) }
    ensures cause { IfOk result (λ r. IsCauseOf (begun.stack ++ calls.items) r.unwinding) }
    ensures denied { IfOk result (λ r. IfSome r.unwinding
        (λ one. OnlyIfDeclined one.fall.fault (H.state host.old) (H.state host.new))) }
    ensures told { (start : State) (before : List ACalled)
        → HasSucceeded
        (IsFileFault (task_since H.state begun diversions.old.ways works.old.items rows.now))
        begun.stack start (H.state host.old) before told.old.items
        → Begun (MayRun (begun.stack ++ calls.items)) start (H.state host.new) before
        told.new.items }
    ensures any_moment { (j : Job) → IsJobOf j
        (planned_from rows.now works.old.items (begun.stack ++ calls.items) commit.old)
        administration.old.lists.lists diversions.old.ways spare.old
        → AtEachStop (StopsByEither j rows.now (begun.stack ++ calls.items) commit.old
        (λ ways works. task_since H.state begun ways works rows.now) works.old.items
        diversions.old.ways diversions.new.ways) (H.state host.old) (H.state host.new) }
    ensures apart { WorksApart result is_record_place (H.state host.old) (H.state host.new) }
    ensures counts { Counts (H.state host.old) (H.state host.new) result }
{
    let alloc = administration.alloc;
    let lists = &administration.lists;
    let mut underway = begun;
    match renew_files(alloc, host, lists, diversions, rows, works, commit, spare) {
        Ok(anew) => {
            rows_before_the_files_go_by_any_table();
            let shipped = Snapshot::of(works);
            match underway.run(host, administration, diversions, rows, works, calls, told) {
                Ok(unwinding) => Ok(Ran {
                    unwinding,
                    anew,
                    shipped,
                }),
                Err(fault) => Err(fault),
            }
        }
        Err(fault) => Err(fault),
    }
}

/// Begins a unit, for which the tree's control files are laid out, and runs its rows. Behind those before the files the table of
/// diversions is read again, where scripts may have changed it, and the files go by that.
pub(crate) fn begin_and_run<H: Host>(
    host: &mut H,
    administration: &mut Administration,
    diversions: &mut Diversions,
    rows: &Rows,
    works: &mut Vec<Work>,
    commit: &mut PlannedCommit,
    calls: Vec<Row>,
    spare: &mut Option<Package>,
    told: &mut Vec<Called>,
) -> Result<Ran, HostFault>
    requires open { CanWrite administration.old }
    requires plan { IsPlanWith administration.old.database.records
        administration.old.lists.lists diversions.old.ways spare.old
        (planned_from rows.now works.old.items calls.items commit.old) }
    requires standing { AreStanding administration.old.database.records }
    requires order { Needs (H.state host.old)
        (IsInOrder administration.old.database administration.old.lists.lists) }
    ensures ran { IfOk result (λ r. HasRunRows (HasBegun commit.new.members)
        (λ s. task_by s administration.old diversions.new.ways r.shipped.value.items rows.now)
        calls.items (ended_as r.unwinding) (holding_by administration.new works.new.items)
        (H.state host.old) (H.state host.new) told.old.items told.new.items) }
    ensures planned { IfOk result (λ r. (j : Job) → IsJobOf j
        (planned_from rows.now works.old.items calls.items commit.old)
        administration.old.lists.lists diversions.old.ways spare.old
        → IsPlanned (record j { ways = diversions.new.ways })
        (planned_from rows.now r.shipped.value.items calls.items commit.new)) }
    ensures plan { IfOk result (λ r. IsPlanBy administration.old.database.records
        (planned_from rows.now r.shipped.value.items calls.items commit.new)) }
    ensures either { IfOk result (λ r. (diversions.new.ways ≡ diversions.old.ways)
        ⊎ IsReadAgain administration.old.lists.lists
        (planned_from rows.now works.old.items calls.items commit.old)
        diversions.old.ways diversions.new.ways (H.state host.old) (H.state host.new)) }
    ensures again { IfOk result (λ r. r.unwinding ≡ None → is_some spare.old ≡ true
        → IsReadAgain administration.old.lists.lists
        (planned_from rows.now works.old.items calls.items commit.old)
        diversions.old.ways diversions.new.ways (H.state host.old) (H.state host.new)) }
    ensures diversions { diversions.new ≡ with_ways_of diversions.new diversions.old }
    ensures anew { IfOk result (λ r. r.anew ≡ false → diversions.new ≡ diversions.old) }
    ensures cause { IfOk result (λ r. IsCauseOf calls.items r.unwinding) }
    ensures denied { IfOk result (λ r. IfSome r.unwinding
        (λ one. OnlyIfDeclined one.fall.fault (H.state host.old) (H.state host.new))) }
    ensures told { HasCalledRows calls.items
        (H.state host.old) (H.state host.new) told.old.items told.new.items }
    ensures any_moment { (j : Job) → IsJobOf j
        (planned_from rows.now works.old.items calls.items commit.old)
        administration.old.lists.lists diversions.old.ways spare.old
        → AtEachMomentOf (IsRunningByEither j administration.old rows.now calls.items
        works.old.items diversions.old.ways diversions.new.ways commit.old)
        (H.state host.old) (H.state host.new) }
    ensures apart { WorksApart result is_record_place (H.state host.old) (H.state host.new) }
    ensures counts { Counts (H.state host.old) (H.state host.new) result }
{
    let alloc = administration.alloc;
    let shipped = Snapshot::of(works);
    let Ok(halves) = part_rows(alloc, rows, calls) else {
        return Err(HostFault::NoMemory);
    };
    let members = &commit.members;
    match begin_rows(
        host,
        administration,
        diversions,
        rows,
        works,
        halves.before,
        members,
        told,
    ) {
        Ok(first) => {
            let FirstRows {
                underway,
                unwinding,
            } = first;
            match unwinding {
                Some(unwinding) => Ok(Ran {
                    unwinding: Some(unwinding),
                    anew: false,
                    shipped,
                }),
                None => run_files(
                    host,
                    underway,
                    administration,
                    diversions,
                    rows,
                    works,
                    commit,
                    halves.files,
                    spare,
                    told,
                ),
            }
        }
        Err(fault) => Err(fault),
    }
}
