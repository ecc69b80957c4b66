// The unit that processes the triggers of a package.
ghost use Rattle.std.specs.Prelude.{◌≡◌, true, IfOk, OnOk, is_some};
ghost use Rattle.texts.specs.PackageNames.{is_package_name};
ghost use Rattle.host_core.specs.Host.{AtEachMomentOf, Counts, Needs, Reads, Silent};
ghost use Rattle.host_core.specs.Looks.{Looks};
ghost use Rattle.host_core.specs.declared.call.Script.TheVariants.{Postinst};
ghost use Rattle.administration.specs.Places.{script_path as stored_path};
ghost use Rattle.scattered_losses.specs.Apart.{WorksApart};
ghost use Rattle.status_db.specs.Held.{is_record_place};
ghost use Rattle.held_administration.specs.Open.{IsOpen};
ghost use Rattle.held_administration.specs.Order.{IsInOrder};
ghost use Rattle.unit_stages.specs.Holding.{holding_of};
ghost use Rattle.trigger_engine.specs.Units.{HasCalled, HasEnded, HasProcessed, IsAmidUnit, IsPending, IsPlanFor, given};

use crate::stages::stages_of;
use administration::script_path;
use diversions::Diversions;
use held_administration::Administration;
use host_core::{Call, Host, HostFault, Script};
use status_records::Record;
use std::alloc::Global;
use texts::Text;
use undo_rows::Called;
use unit_stages::{Stage, run_stages};

#[tactic(auto, using(host_core::proofs::Moments::reads_then))]
fn has_postinst<H: Host>(alloc: Global, host: &mut H, name: &Text) -> Result<bool, HostFault>
    requires named { is_package_name name.now ≡ true }
    ensures looks { Looks result (λ is w. is ≡ is_some (w (stored_path name.now Postinst)))
        (H.state host.old) (H.state host.new) }
{
    let path = script_path(alloc, name, Script::Postinst)?;
    Ok(host.kind(&path)?.is_some())
}

// Plans: nothing but looking.
fn plan<H: Host>(alloc: Global, host: &mut H, entry: &Record) -> Result<Vec<Stage>, HostFault>
    requires named { is_package_name entry.now.name ≡ true }
    ensures planned { IfOk result (λ stages. IsPlanFor entry.now (H.state host.old).world
        (H.state host.new).honest stages.items) }
    ensures reads { Reads (H.state host.old) (H.state host.new) }
    ensures silent { Silent (H.state host.old) (H.state host.new) }
    ensures counts { Counts (H.state host.old) (H.state host.new) result }
{
    let stored = has_postinst(alloc, host, &entry.name)?;
    Ok(stages_of(alloc, entry, stored)?)
}

/// Processes the triggers that are pending of a package: its postinst is called with their names. The answer is the call that
/// failed, if it did; then the package stays half-configured, and nothing is undone.
pub fn process<H: Host>(
    host: &mut H,
    administration: &mut Administration,
    diversions: &Diversions,
    name: &Text,
    told: &mut Vec<Called>,
) -> Result<Option<Call>, HostFault>
    requires open { IsOpen diversions.now.ways administration.old }
    requires pending { IsPending administration.old.database.records name.now }
    requires order { Needs (H.state host.old)
        (IsInOrder administration.old.database administration.old.lists.lists) }
    ensures unit { IfOk result
        (λ failed. HasProcessed (given name.now diversions.now.ways
        (holding_of administration.old)) failed (holding_of administration.new) (H.state host.old)
        (H.state host.new) told.old.items told.new.items) }
    ensures end { IfOk result (λ failed. HasEnded name.now failed
        administration.old.database.records administration.new.database.records) }
    ensures order { IfOk result (λ failed. Needs (H.state host.new)
        (IsInOrder administration.new.database administration.new.lists.lists)) }
    ensures open { OnOk result (IsOpen diversions.now.ways administration.new) }
    ensures told { HasCalled (given name.now diversions.now.ways (holding_of administration.old))
        (H.state host.old) (H.state host.new) told.old.items told.new.items }
    ensures any_moment { AtEachMomentOf (IsAmidUnit (given name.now diversions.now.ways
        (holding_of administration.old))) (H.state host.old) (H.state host.new) }
    ensures apart { WorksApart result is_record_place (H.state host.old) (H.state host.new) }
    ensures counts { Counts (H.state host.old) (H.state host.new) result }
{
    let alloc = administration.alloc;
    let entry = administration.database.get(name).unwrap();
    match plan(alloc, host, entry) {
        Ok(stages) => run_stages(host, administration, diversions, name, stages, told),
        Err(fault) => Err(fault),
    }
}
