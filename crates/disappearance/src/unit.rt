// One package: it disappears, or it stays.
ghost use Rattle.std.specs.Prelude.{◌≡◌, ◌++◌, ◌∷◌, [], ℕ, List, true, IfOk, MatchOption, None, OnOk, map};
ghost use Rattle.host_core.specs.Host.{AtEachMomentOf, Counts, Needs, Reads, Silent, Since};
ghost use Rattle.texts.specs.PackageNames.{is_package_name};
ghost use Rattle.undo_rows.specs.Telling.{Begun};
ghost use Rattle.held_administration.specs.Open.{IsOpen};
ghost use Rattle.recorded_packages.specs.Packages.{ArePackagesOf};
ghost use Rattle.removal_engine.specs.Stages.{gone_stage, planned};
ghost use Rattle.status_records.specs.declared.record.Record.{Record as ARecord};
ghost use Rattle.held_administration.specs.Order.{IsInOrder};
ghost use Rattle.unit_stages.specs.Calls.{MayRunStages};
ghost use Rattle.unit_stages.specs.Fitting.{AreStagesFit};
ghost use Rattle.unit_stages.specs.Holding.{holding_of};
ghost use Rattle.unit_stages.specs.Running.{AreRunning};
ghost use Rattle.unit_stages.specs.Runs.{HaveRun};
ghost use Rattle.undo_rows.specs.declared.rows.Row.{Row as ARow};
ghost use Rattle.disappearance.specs.Stages.{ArePlanned, IsPlan};
ghost use Rattle.disappearance.specs.Units.{HasCalledOne, HaveRunBoth, IsAmidBoth, IsAmidUnit, IsDecided};
ghost use Rattle.disappearance.specs.Verdicts.{Goes, Stays};

use crate::looks::look;
use crate::losing::Losing;
use crate::stages::{Plan, plan_stages};
use diversions::Diversions;
use held_administration::Administration;
use host_core::{Call, Host, HostFault};
use recorded_packages::renew_one;
use relation_index::Packages;
use std::alloc::AllocError;
use texts::{Text, Texts};
use undo_rows::Called;
use unit_stages::{Stage, run_stages};
use version_order::Version;

// All goes that the administration has of a package, and it counts no more as one that needs others; nothing is called.
fn take_away<H: Host>(
    host: &mut H,
    administration: &mut Administration,
    packages: &mut Packages,
    diversions: &Diversions,
    name: &Text,
    gone: Vec<Stage>,
    told: &mut Vec<Called>,
) -> Result<(), HostFault>
    requires open { IsOpen diversions.now.ways administration.old }
    requires order { Needs (H.state host.old)
        (IsInOrder administration.old.database administration.old.lists.lists) }
    requires indexed { ArePackagesOf administration.old.database.records packages.old }
    requires named { is_package_name name.now ≡ true }
    requires fit { AreStagesFit name.now gone.items
        administration.old.database.records administration.old.lists.lists }
    requires quiet { (r : ARecord) × (map planned gone.items ≡ gone_stage r ∷ []) }
    ensures taken { OnOk result
        (HaveRun name.now diversions.now.ways gone.items None (holding_of administration.old)
        (holding_of administration.new) (H.state host.old) (H.state host.new) told.new.items
        told.new.items) }
    ensures order { OnOk result
        (Needs (H.state host.new)
        (IsInOrder administration.new.database administration.new.lists.lists)) }
    ensures open { OnOk result (IsOpen diversions.now.ways administration.new) }
    ensures indexed { OnOk result (ArePackagesOf administration.new.database.records packages.new) }
    ensures untold { told.new.items ≡ told.old.items }
    ensures silent { Silent (H.state host.old) (H.state host.new) }
    ensures any_moment { AtEachMomentOf
        (AreRunning name.now diversions.now.ways gone.items (holding_of administration.old))
        (H.state host.old) (H.state host.new) }
    ensures counts { Counts (H.state host.old) (H.state host.new) result }
{
    let alloc = administration.alloc;
    administration.database.law();
    run_stages(host, administration, diversions, name, gone, told)?;
    renew_one(alloc, packages, &administration.database, name)?;
    Ok(())
}

// The call is made, and behind it, whatever its outcome, all goes. The answer is the call, if it failed.
fn run_both<H: Host>(
    host: &mut H,
    administration: &mut Administration,
    packages: &mut Packages,
    diversions: &Diversions,
    name: &Text,
    plan: Plan,
    told: &mut Vec<Called>,
) -> Result<Option<Call>, HostFault>
    requires open { IsOpen diversions.now.ways administration.old }
    requires order { Needs (H.state host.old)
        (IsInOrder administration.old.database administration.old.lists.lists) }
    requires indexed { ArePackagesOf administration.old.database.records packages.old }
    requires planned { (row : ARow)
        × ArePlanned name.now (holding_of administration.old) row plan.call.items plan.gone.items }
    ensures ran { IfOk result
        (λ failed. HaveRunBoth name.now diversions.now.ways plan.call.items plan.gone.items
        failed (holding_of administration.old) (holding_of administration.new)
        (H.state host.old) (H.state host.new) told.old.items told.new.items) }
    ensures order { OnOk result
        (Needs (H.state host.new)
        (IsInOrder administration.new.database administration.new.lists.lists)) }
    ensures open { OnOk result (IsOpen diversions.now.ways administration.new) }
    ensures indexed { OnOk result (ArePackagesOf administration.new.database.records packages.new) }
    ensures told { Begun (MayRunStages plan.call.items) (H.state host.old) (H.state host.new)
        told.old.items told.new.items }
    ensures any_moment { Since
        (IsAmidBoth name.now diversions.now.ways plan.call.items plan.gone.items
        (holding_of administration.old) (H.state host.old))
        (H.state host.old) (H.state host.new) }
    ensures counts { Counts (H.state host.old) (H.state host.new) result }
{
    let Plan { call, gone } = plan;
    match run_stages(host, administration, diversions, name, call, told) {
        Ok(failed) => match take_away(
            host,
            administration,
            packages,
            diversions,
            name,
            gone,
            told,
        ) {
            Ok(()) => Ok(failed),
            Err(fault) => Err(fault),
        },
        Err(fault) => Err(fault),
    }
}

// Looks whether a package disappears, and plans what is run then.
#[tactic(auto, using(host_core::proofs::Moments::reads_then))]
fn decide<H: Host>(
    host: &mut H,
    administration: &Administration,
    packages: &Packages,
    diversions: &Diversions,
    incoming: &Text,
    version: &Version,
    losing: &Losing,
) -> Result<Option<Plan>, HostFault>
    requires indexed { ArePackagesOf administration.now.database.records packages.now }
    ensures decision { IfOk result
        (λ found. MatchOption found
        (Stays incoming.now diversions.now.ways losing.now (holding_of administration.now)
        (H.state host.old).world (H.state host.new).honest)
        (λ p. Goes incoming.now diversions.now.ways losing.now (holding_of administration.now)
        (H.state host.old).world (H.state host.new).honest
        × IsPlan incoming.now version.now losing.now.name (holding_of administration.now)
        (H.state host.old).world (H.state host.new).honest p.call.items p.gone.items)) }
    ensures reads { Reads (H.state host.old) (H.state host.new) }
    ensures silent { Silent (H.state host.old) (H.state host.new) }
    ensures counts { Counts (H.state host.old) (H.state host.new) result }
{
    let goes = look(host, administration, packages, diversions, incoming, losing)?;
    if !goes {
        return Ok(None);
    }
    let plan = plan_stages(
        administration.alloc,
        host,
        &administration.database,
        incoming,
        version,
        &losing.name,
    )?;
    Ok(Some(plan))
}

fn push_name(names: &mut Texts, name: &Text) -> Result<(), AllocError>
    ensures { OnOk result (names.new ≡ names.old ++ name.now ∷ []) }
{
    names.push(name.copy()?)?;
    Ok(())
}

/// Looks whether a package disappears. Where it does its name is added to those of others, its postrm is called, and whatever the
/// outcome all goes that the administration has of it; directories stay. The answer is the call, if it failed.
pub(crate) fn disappear<H: Host>(
    host: &mut H,
    administration: &mut Administration,
    packages: &mut Packages,
    diversions: &Diversions,
    incoming: &Text,
    version: &Version,
    losing: &Losing,
    names: &mut Texts,
    told: &mut Vec<Called>,
) -> Result<Option<Call>, HostFault>
    requires open { IsOpen diversions.now.ways administration.old }
    requires order { Needs (H.state host.old)
        (IsInOrder administration.old.database administration.old.lists.lists) }
    requires indexed { ArePackagesOf administration.old.database.records packages.old }
    ensures decided { IfOk result
        (λ failed. (own : List (List ℕ))
        × (names.new ≡ names.old ++ own)
        × IsDecided incoming.now version.now diversions.now.ways losing.now own failed
        (holding_of administration.old) (holding_of administration.new)
        (H.state host.old) (H.state host.new) told.old.items told.new.items) }
    ensures order { OnOk result
        (Needs (H.state host.new)
        (IsInOrder administration.new.database administration.new.lists.lists)) }
    ensures open { OnOk result (IsOpen diversions.now.ways administration.new) }
    ensures indexed { OnOk result (ArePackagesOf administration.new.database.records packages.new) }
    ensures told { HasCalledOne incoming.now version.now diversions.now.ways losing.now
        (holding_of administration.old) (H.state host.old) (H.state host.new)
        told.old.items told.new.items }
    ensures any_moment { Since
        (IsAmidUnit incoming.now version.now diversions.now.ways losing.now
        (holding_of administration.old) (H.state host.old))
        (H.state host.old) (H.state host.new) }
    ensures counts { Counts (H.state host.old) (H.state host.new) result }
{
    match decide(
        host,
        administration,
        packages,
        diversions,
        incoming,
        version,
        losing,
    ) {
        Ok(Some(plan)) => match push_name(names, &losing.name) {
            Ok(()) => run_both(
                host,
                administration,
                packages,
                diversions,
                &losing.name,
                plan,
                told,
            ),
            Err(_) => Err(HostFault::NoMemory),
        },
        Ok(None) => Ok(None),
        Err(fault) => Err(fault),
    }
}
