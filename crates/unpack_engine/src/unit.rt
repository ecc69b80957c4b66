// The unit of an unpack.
ghost use Rattle.std.specs.Prelude.{◌≡◌, ◌↔◌, ◌⊎◌, ◌++◌, IfOk, IfSome, None, OnOk, false, is_some, length, take, true};
ghost use Rattle.host_core.specs.Host.{AtEachMomentOf, Counts, Leaves, Needs, Reads, Silent};
ghost use Rattle.scattered_losses.specs.Apart.{WorksApart};
ghost use Rattle.file_lists.specs.Beside.{AreSameBeside};
ghost use Rattle.held_administration.specs.Open.{CanWrite};
ghost use Rattle.undo_rows.specs.Ended.{IsCauseOf, ended_as};
ghost use Rattle.undo_rows.specs.Faults.{OnlyIfDeclined};
ghost use Rattle.status_db.specs.Held.{IsKept, is_record_place};
ghost use Rattle.unpack_commit.specs.Takeover.{yields_of};
ghost use Rattle.unpack_plan.specs.Planned.{IsPlanned, Job, planned};
ghost use Rattle.unpack_rows.specs.EndStates.{own_name};
ghost use Rattle.held_administration.specs.Order.{IsInOrder};
ghost use Rattle.unpack_engine.specs.Others.{AreOthers};
ghost use Rattle.unpack_engine.specs.Tables.{HasCarriedOutPlan, IsJobOf, IsPlanWith, IsUnderWayByEither};
ghost use Rattle.unpack_engine.specs.Units.{GoesByTable, HasCalled, HasCalledRows, HasFailedFor, HasUnpacked, IsAmidEither, IsPlanFor, IsReadAgain, IsTouched, given_from, ground_by, job_of, with_ways_of};

use crate::finishing::{Unpacked, finish};
use crate::looks::stored_scripts;
use crate::path_texts::are_texts;
use crate::running::begin_and_run;
use diversions::Diversions;
use file_lists::FileLists;
use held_administration::Administration;
use host_core::{Host, HostFault};
use package_tree::Package;
use std::alloc::{AllocError, Global};
use undo_rows::Called;
use unpack_plan::{Others, Plan, plan_of};
use unpack_rows::Present;

// Carries out a plan: begins a unit, runs its rows, and does what follows them. Where scripts may change the table of diversions, the
// tree is there to be planned again.
fn carry_out<H: Host>(
    host: &mut H,
    administration: &mut Administration,
    diversions: &mut Diversions,
    plan: Plan,
    spare: &mut Option<Package>,
    told: &mut Vec<Called>,
) -> Result<Unpacked, HostFault>
    requires open { CanWrite administration.old }
    requires plan { IsPlanWith administration.old.database.records
        administration.old.lists.lists diversions.old.ways spare.old (planned plan) }
    requires order { Needs (H.state host.old)
        (IsInOrder administration.old.database administration.old.lists.lists) }
    ensures unit { IfOk result (λ u. (j : Job) → IsJobOf j
        (planned plan) administration.old.lists.lists diversions.old.ways spare.old
        → HasCarriedOutPlan (record j { ways = diversions.new.ways })
        (ground_by administration.old diversions.new.ways plan.rows.yields)
        plan.calls.items (ended_as u.unwinding)
        administration.new.database administration.new.lists.lists
        (H.state host.old) (H.state host.new) told.old.items told.new.items) }
    ensures cause { IfOk result (λ u. IsCauseOf plan.calls.items u.unwinding) }
    ensures either { IfOk result (λ u. (diversions.new.ways ≡ diversions.old.ways)
        ⊎ IsReadAgain administration.old.lists.lists (planned plan) diversions.old.ways diversions.new.ways
        (H.state host.old) (H.state host.new)) }
    ensures again { IfOk result (λ u. u.unwinding ≡ None → is_some spare.old ≡ true
        → IsReadAgain administration.old.lists.lists (planned plan) diversions.old.ways diversions.new.ways
        (H.state host.old) (H.state host.new)) }
    ensures diversions { diversions.new ≡ with_ways_of diversions.new diversions.old }
    ensures anew { IfOk result (λ u. u.anew ≡ false → diversions.new ≡ diversions.old) }
    ensures denied { IfOk result (λ u. IfSome u.unwinding
        (λ one. OnlyIfDeclined one.fall.fault (H.state host.old) (H.state host.new))) }
    ensures touched { IfOk result (λ u. IsTouched
        (own_name plan.rows.found plan.rows.incoming)
        administration.old.database.records administration.new.database.records u.touched) }
    ensures alone { IfOk result (λ u. (u.alone ≡ true) ↔ AreSameBeside
        (own_name plan.rows.found plan.rows.incoming)
        administration.old.lists.lists administration.new.lists.lists) }
    ensures places { OnOk result (take (length administration.old.places)
        administration.new.places ≡ administration.old.places) }
    ensures told { HasCalledRows plan.calls.items
        (H.state host.old) (H.state host.new) told.old.items told.new.items }
    ensures kept { Leaves result
        (λ old new. IsKept administration.new.database new) (H.state host.old) (H.state host.new) }
    ensures open { OnOk result (CanWrite administration.new) }
    ensures any_moment { (j : Job) → IsJobOf j
        (planned plan) administration.old.lists.lists diversions.old.ways spare.old
        → AtEachMomentOf (IsUnderWayByEither j (planned plan) diversions.new.ways
        (ground_by administration.old diversions.old.ways plan.rows.yields))
        (H.state host.old) (H.state host.new) }
    ensures apart { WorksApart result is_record_place (H.state host.old) (H.state host.new) }
    ensures counts { Counts (H.state host.old) (H.state host.new) result }
{
    let Plan {
        rows,
        mut works,
        calls,
        mut commit,
    } = plan;
    administration.database.law();
    match begin_and_run(
        host,
        administration,
        diversions,
        &rows,
        &mut works,
        &mut commit,
        calls,
        spare,
        told,
    ) {
        Ok(ran) => {
            administration.database.law();
            are_texts(commit.new_list.as_slice());
            let shipped = works.as_slice();
            finish(
                administration.alloc,
                host,
                &mut administration.database,
                &mut administration.lists,
                diversions,
                &rows,
                shipped,
                commit,
                ran.unwinding,
                ran.anew,
            )
        }
        Err(fault) => Err(fault),
    }
}

/// A plan; and the tree, where scripts are called before its files are checked, which may change the table of diversions.
#[derive(Drop)]
struct PlannedUnit {
    plan: Plan,
    spare: Option<Package>,
}

// Whether a script is called before the files.
fn calls_before(incoming: &Package, stored: Present, others: &Others) -> bool
    ensures { is_some incoming.now.scripts.preinst ≡ true → result ≡ true }
{
    incoming.scripts.preinst.is_some() || stored.prerm || !others.packages.is_empty()
}

// An equal tree, where it may be planned again.
fn spare_of(
    incoming: &Package,
    stored: Present,
    others: &Others,
) -> Result<Option<Package>, AllocError>
    ensures equal { IfOk result (λ spare. IfSome spare (λ tree. incoming.now ≡ tree)) }
    ensures there { IfOk result (λ spare. is_some incoming.now.scripts.preinst ≡ true
        → is_some spare ≡ true) }
{
    if calls_before(incoming, stored, others) {
        return Ok(Some(incoming.copy()?));
    }
    Ok(None)
}

// The tree isn't planned again.
fn done_with(spare: Option<Package>) {}

// Plans, by the scripts that are stored.
fn planned_unit(
    alloc: Global,
    administration: &Administration,
    diversions: &Diversions,
    incoming: Package,
    stored: Present,
    others: Others,
) -> Result<PlannedUnit, AllocError>
    ensures planned { IfOk result (λ unit. IsPlanned
        (job_of (given_from incoming administration.now diversions.now.ways diversions.now.ways
        others.packages.items others.yields) stored) (planned unit.plan)) }
    ensures yields { IfOk result (λ unit. unit.plan.rows.yields
        ≡ yields_of administration.now.database.records ++ others.yields) }
    ensures equal { IfOk result (λ unit. IfSome unit.spare (λ tree. incoming ≡ tree)) }
    ensures there { IfOk result (λ unit. is_some incoming.scripts.preinst ≡ true
        → is_some unit.spare ≡ true) }
{
    let spare = spare_of(&incoming, stored, &others)?;
    let database = &administration.database;
    let lists = &administration.lists;
    let plan = plan_of(alloc, incoming, database, lists, diversions, stored, others)?;
    Ok(PlannedUnit { plan, spare })
}

// Looks which scripts are stored, and plans.
fn plan_unit<H: Host>(
    host: &mut H,
    administration: &Administration,
    diversions: &Diversions,
    incoming: Package,
    others: Others,
) -> Result<PlannedUnit, HostFault>
    ensures planned { IfOk result (λ unit. IsPlanFor
        (given_from incoming administration.now diversions.now.ways diversions.now.ways
        others.packages.items others.yields)
        (H.state host.old).world (H.state host.new).honest (planned unit.plan)) }
    ensures yields { IfOk result (λ unit. unit.plan.rows.yields
        ≡ yields_of administration.now.database.records ++ others.yields) }
    ensures equal { IfOk result (λ unit. IfSome unit.spare (λ tree. incoming ≡ tree)) }
    ensures there { IfOk result (λ unit. is_some incoming.scripts.preinst ≡ true
        → is_some unit.spare ≡ true) }
    ensures reads { Reads (H.state host.old) (H.state host.new) }
    ensures silent { Silent (H.state host.old) (H.state host.new) }
    ensures counts { Counts (H.state host.old) (H.state host.new) result }
{
    let alloc = administration.alloc;
    let found = administration.database.get(&incoming.name);
    match stored_scripts(alloc, host, &incoming.name, found) {
        Ok(stored) => {
            match planned_unit(alloc, administration, diversions, incoming, stored, others) {
                Ok(unit) => Ok(unit),
                Err(_) => Err(HostFault::NoMemory),
            }
        }
        Err(fault) => Err(fault),
    }
}

// Plans, and carries the plan out.
fn plan_and_carry_out<H: Host>(
    host: &mut H,
    administration: &mut Administration,
    diversions: &mut Diversions,
    incoming: Package,
    others: Others,
    told: &mut Vec<Called>,
) -> Result<Unpacked, HostFault>
    requires open { CanWrite administration.old }
    requires order { Needs (H.state host.old)
        (IsInOrder administration.old.database administration.old.lists.lists) }
    requires others { AreOthers incoming.name administration.old.database.records
        others.packages.items }
    ensures unit { IfOk result (λ u. HasUnpacked
        (given_from incoming administration.old diversions.old.ways diversions.new.ways
        others.packages.items others.yields)
        administration.old.places (ended_as u.unwinding)
        administration.new.database administration.new.lists.lists
        (H.state host.old) (H.state host.new) told.old.items told.new.items) }
    ensures cause { IfOk result (λ u. HasFailedFor
        (given_from incoming administration.old diversions.old.ways diversions.new.ways
        others.packages.items others.yields)
        (H.state host.old) (H.state host.new) u.unwinding) }
    ensures table { IfOk result (λ u. GoesByTable
        (given_from incoming administration.old diversions.old.ways diversions.new.ways
        others.packages.items others.yields)
        u.unwinding (H.state host.old) (H.state host.new)) }
    ensures diversions { diversions.new ≡ with_ways_of diversions.new diversions.old }
    ensures anew { IfOk result (λ u. u.anew ≡ false → diversions.new ≡ diversions.old) }
    ensures denied { IfOk result (λ u. IfSome u.unwinding
        (λ one. OnlyIfDeclined one.fall.fault (H.state host.old) (H.state host.new))) }
    ensures touched { IfOk result (λ u. IsTouched incoming.name
        administration.old.database.records administration.new.database.records u.touched) }
    ensures alone { IfOk result (λ u. (u.alone ≡ true) ↔ AreSameBeside incoming.name
        administration.old.lists.lists administration.new.lists.lists) }
    ensures places { OnOk result (take (length administration.old.places)
        administration.new.places ≡ administration.old.places) }
    ensures told { HasCalled
        (given_from incoming administration.old diversions.old.ways diversions.old.ways
        others.packages.items others.yields)
        (H.state host.old) (H.state host.new) told.old.items told.new.items }
    ensures order { IfOk result (λ u. Needs
        (H.state host.new)
        (IsInOrder administration.new.database administration.new.lists.lists)) }
    ensures open { OnOk result (CanWrite administration.new) }
    ensures any_moment { AtEachMomentOf
        (IsAmidEither
        (given_from incoming administration.old diversions.old.ways diversions.old.ways
        others.packages.items others.yields)
        (given_from incoming administration.old diversions.old.ways diversions.new.ways
        others.packages.items others.yields)
        administration.old.places)
        (H.state host.old) (H.state host.new) }
    ensures apart { WorksApart result is_record_place (H.state host.old) (H.state host.new) }
    ensures counts { Counts (H.state host.old) (H.state host.new) result }
{
    match plan_unit(host, administration, diversions, incoming, others) {
        Ok(unit) => {
            let PlannedUnit { plan, mut spare } = unit;
            let result = carry_out(host, administration, diversions, plan, &mut spare, told);
            done_with(spare);
            result
        }
        Err(fault) => Err(fault),
    }
}

// To make the lists' index costs less than to look through all lists once for each of more paths than these: to look whether
// a listed path lies at a place takes as long as to find its key.
const FEW_PATHS: usize = 3;

// Makes the lists' index where the tree ships many paths, each of whose owners is asked for.
fn index_where_many(
    alloc: Global,
    lists: &mut FileLists,
    diversions: &Diversions,
    incoming: &Package,
) -> Result<(), AllocError>
    ensures { lists.new ≡ lists.old }
{
    if incoming.files.as_slice().len() > FEW_PATHS {
        lists.index(alloc, diversions)?;
    }
    Ok(())
}

/// Unpacks a package that was checked, with the rows of other packages. The places that scripts
/// leave alone are those of before, and then some that were shipped: the caller renews them.
pub fn unpack<H: Host>(
    host: &mut H,
    administration: &mut Administration,
    diversions: &mut Diversions,
    incoming: Package,
    others: Others,
    told: &mut Vec<Called>,
) -> Result<Unpacked, HostFault>
    requires open { CanWrite administration.old }
    requires order { Needs (H.state host.old)
        (IsInOrder administration.old.database administration.old.lists.lists) }
    requires others { AreOthers incoming.name administration.old.database.records
        others.packages.items }
    ensures unit { IfOk result (λ u. HasUnpacked
        (given_from incoming administration.old diversions.old.ways diversions.new.ways
        others.packages.items others.yields)
        administration.old.places (ended_as u.unwinding)
        administration.new.database administration.new.lists.lists
        (H.state host.old) (H.state host.new) told.old.items told.new.items) }
    ensures cause { IfOk result (λ u. HasFailedFor
        (given_from incoming administration.old diversions.old.ways diversions.new.ways
        others.packages.items others.yields)
        (H.state host.old) (H.state host.new) u.unwinding) }
    ensures table { IfOk result (λ u. GoesByTable
        (given_from incoming administration.old diversions.old.ways diversions.new.ways
        others.packages.items others.yields)
        u.unwinding (H.state host.old) (H.state host.new)) }
    ensures diversions { diversions.new ≡ with_ways_of diversions.new diversions.old }
    ensures anew { IfOk result (λ u. u.anew ≡ false → diversions.new ≡ diversions.old) }
    ensures denied { IfOk result (λ u. IfSome u.unwinding
        (λ one. OnlyIfDeclined one.fall.fault (H.state host.old) (H.state host.new))) }
    ensures touched { IfOk result (λ u. IsTouched incoming.name
        administration.old.database.records administration.new.database.records u.touched) }
    ensures alone { IfOk result (λ u. (u.alone ≡ true) ↔ AreSameBeside incoming.name
        administration.old.lists.lists administration.new.lists.lists) }
    ensures places { OnOk result (take (length administration.old.places)
        administration.new.places ≡ administration.old.places) }
    ensures told { HasCalled
        (given_from incoming administration.old diversions.old.ways diversions.old.ways
        others.packages.items others.yields)
        (H.state host.old) (H.state host.new) told.old.items told.new.items }
    ensures order { IfOk result (λ u. Needs
        (H.state host.new)
        (IsInOrder administration.new.database administration.new.lists.lists)) }
    ensures open { OnOk result (CanWrite administration.new) }
    ensures any_moment { AtEachMomentOf
        (IsAmidEither
        (given_from incoming administration.old diversions.old.ways diversions.old.ways
        others.packages.items others.yields)
        (given_from incoming administration.old diversions.old.ways diversions.new.ways
        others.packages.items others.yields)
        administration.old.places)
        (H.state host.old) (H.state host.new) }
    ensures apart { WorksApart result is_record_place (H.state host.old) (H.state host.new) }
    ensures counts { Counts (H.state host.old) (H.state host.new) result }
{
    let alloc = administration.alloc;
    index_where_many(alloc, &mut administration.lists, diversions, &incoming)?;
    plan_and_carry_out(host, administration, diversions, incoming, others, told)
}
