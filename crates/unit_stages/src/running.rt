// Runs of stages.
ghost use Rattle.std.specs.Prelude.{◌≡◌, [], ◌∷◌, true, IfOk, OnOk};
ghost use Rattle.host_core.specs.Host.{AtEachMomentOf, Counts, Needs};
ghost use Rattle.texts.specs.PackageNames.{is_package_name};
ghost use Rattle.undo_rows.specs.Telling.{Begun};
ghost use Rattle.held_administration.specs.Open.{IsOpen};
ghost use Rattle.unit_stages.specs.PartFitting.{AreSettleable, HaveNoSettle};
ghost use Rattle.held_administration.specs.Order.{IsInOrder};
ghost use Rattle.unit_stages.specs.Calls.{MayRunStages};
ghost use Rattle.unit_stages.specs.Fitting.{AreStagesFit, AreStagesSettleable, IsStageFit};
ghost use Rattle.unit_stages.specs.Holding.{holding_of};
ghost use Rattle.unit_stages.specs.Running.{AreRunning, IsAmidStage};
ghost use Rattle.unit_stages.specs.Runs.{HaveRun};
ghost use Rattle.scattered_losses.specs.Apart.{WorksApart};
ghost use Rattle.status_db.specs.Held.{is_record_place};

use crate::calls::call_stage;
use crate::parts::do_and_keep;
use crate::stage::Stage;
use diversions::Diversions;
use held_administration::Administration;
use host_core::{Call, Host, HostFault};
use texts::Text;
use undo_rows::Called;

// Runs one stage. The answer is the call that failed.
fn run_stage<H: Host>(
    host: &mut H,
    administration: &mut Administration,
    diversions: &Diversions,
    name: &Text,
    stage: Stage,
    told: &mut Vec<Called>,
) -> Result<Option<Call>, HostFault>
    requires open { IsOpen diversions.now.ways administration.old }
    requires named { is_package_name name.now ≡ true }
    requires fit { IsStageFit name.now stage
        administration.old.database.records administration.old.lists.lists }
    requires order { Needs (H.state host.old)
        (IsInOrder administration.old.database administration.old.lists.lists) }
    requires settleable { Needs (H.state host.old) (AreSettleable stage.parts.items) }
    requires settled { Needs (H.state host.old) (λ w. HaveNoSettle stage.restore.items) }
    ensures ran { IfOk result
        (λ failed. HaveRun name.now diversions.now.ways (stage ∷ []) failed
        (holding_of administration.old) (holding_of administration.new)
        (H.state host.old) (H.state host.new) told.old.items told.new.items) }
    ensures order { OnOk result
        (Needs (H.state host.new)
        (IsInOrder administration.new.database administration.new.lists.lists)) }
    ensures open { OnOk result (IsOpen diversions.now.ways administration.new) }
    ensures told { Begun (MayRunStages (stage ∷ [])) (H.state host.old) (H.state host.new)
        told.old.items told.new.items }
    ensures any_moment { AtEachMomentOf
        (IsAmidStage name.now diversions.now.ways stage (holding_of administration.old))
        (H.state host.old) (H.state host.new) }
    ensures apart { WorksApart result is_record_place (H.state host.old) (H.state host.new) }
    ensures counts { Counts (H.state host.old) (H.state host.new) result }
{
    let Stage {
        parts,
        row,
        restore,
    } = stage;
    match do_and_keep(host, administration, diversions, name, parts) {
        Ok(()) => call_stage(host, administration, diversions, name, row, restore, told),
        Err(fault) => Err(fault),
    }
}

/// Runs the stages of a unit, one after another, up to one whose call fails: that call is the answer. Behind it the places that
/// scripts leave alone are those of the lists.
pub fn run_stages<H: Host>(
    host: &mut H,
    administration: &mut Administration,
    diversions: &Diversions,
    name: &Text,
    stages: Vec<Stage>,
    told: &mut Vec<Called>,
) -> Result<Option<Call>, HostFault>
    requires open { IsOpen diversions.now.ways administration.old }
    requires named { is_package_name name.now ≡ true }
    requires fit { AreStagesFit name.now stages.items
        administration.old.database.records administration.old.lists.lists }
    requires order { Needs (H.state host.old)
        (IsInOrder administration.old.database administration.old.lists.lists) }
    requires settleable { Needs (H.state host.old) (AreStagesSettleable stages.items) }
    ensures ran { IfOk result
        (λ failed. HaveRun name.now diversions.now.ways stages.items failed
        (holding_of administration.old) (holding_of administration.new)
        (H.state host.old) (H.state host.new) told.old.items told.new.items) }
    ensures order { IfOk result
        (λ failed. Needs (H.state host.new)
        (IsInOrder administration.new.database administration.new.lists.lists)) }
    ensures open { OnOk result (IsOpen diversions.now.ways administration.new) }
    ensures told { Begun (MayRunStages stages.items) (H.state host.old) (H.state host.new)
        told.old.items told.new.items }
    ensures any_moment { AtEachMomentOf
        (AreRunning name.now diversions.now.ways stages.items (holding_of administration.old))
        (H.state host.old) (H.state host.new) }
    ensures apart { WorksApart result is_record_place (H.state host.old) (H.state host.new) }
    ensures counts { Counts (H.state host.old) (H.state host.new) result }
{
    for stage in stages {
        if let Some(call) = run_stage(host, administration, diversions, name, stage, told)? {
            return Ok(Some(call));
        }
    }
    Ok(None)
}
