// The calls of a stage.
ghost use Rattle.std.specs.Prelude.{◌≡◌, ◌≢◌, [], false, true, List, IfOk, OnOk};
ghost use Rattle.host_core.specs.World.{is_kept};
ghost use Rattle.host_core.specs.Host.{AtEachMomentOf, Counts, Needs, OnlyScripts};
ghost use Rattle.texts.specs.PackageNames.{is_package_name};
ghost use Rattle.undo_rows.specs.declared.rows.Owner.{Owner as AnOwner};
ghost use Rattle.undo_rows.specs.Transcript.{Begins, Makes, Tries, TriesRow, UndoesAny, UndoesRow};
ghost use Rattle.undo_rows.specs.Telling.{Begun};
ghost use Rattle.held_administration.specs.Open.{IsOpen};
ghost use Rattle.unit_stages.specs.PartFitting.{AreFit, HaveNoSettle};
ghost use Rattle.held_administration.specs.Order.{IsInOrder};
ghost use Rattle.unit_stages.specs.Calls.{MayCallRow};
ghost use Rattle.unit_stages.specs.Holding.{holding_of};
ghost use Rattle.unit_stages.specs.Running.{AreCalled};
ghost use Rattle.unit_stages.specs.Runs.{HasCalled, HasUndone};
ghost use Rattle.scattered_losses.specs.Apart.{WorksApart};
ghost use Rattle.status_db.specs.Held.{is_record_place};

use crate::part::Part;
use crate::parts::do_and_keep;
use diversions::Diversions;
use held_administration::Administration;
use host_core::{Call, Host, HostFault, Keep, Places};
use std::alloc::Global;
use texts::Text;
use undo_rows::{Called, Row, try_row, undo_row};

// The call of a row. The answer is whether it succeeded, or the row has none.
fn try_call<H: Host>(
    host: &mut H,
    places: &Places,
    row: &Row,
    told: &mut Vec<Called>,
) -> Result<bool, HostFault>
    ensures calls { IfOk result
        (λ ok. Makes (is_kept places.now) (λ ts. Tries row.now ts ok)
        (H.state host.old) (H.state host.new) told.old.items told.new.items) }
    ensures told { Begins (is_kept places.now) (TriesRow row.now)
        (H.state host.old) (H.state host.new) told.old.items told.new.items }
    ensures any_moment { AtEachMomentOf (OnlyScripts (is_kept places.now))
        (H.state host.old) (H.state host.new) }
    ensures counts { Counts (H.state host.old) (H.state host.new) result }
{
    let keep = Keep { places };
    try_row(host, &keep, row, told)
}

// The call that undoes a row. The answer is whether it failed.
fn undo_call<H: Host>(
    alloc: Global,
    host: &mut H,
    places: &Places,
    row: &Row,
    told: &mut Vec<Called>,
) -> Result<bool, HostFault>
    ensures calls { IfOk result
        (λ fails. (owners : List AnOwner)
        × (fails ≡ false → owners ≡ [])
        × (fails ≡ true → owners ≢ [])
        × Makes (is_kept places.now) (λ ts. UndoesRow row.now [] ts owners)
        (H.state host.old) (H.state host.new) told.old.items told.new.items) }
    ensures told { Begins (is_kept places.now) (UndoesAny row.now [])
        (H.state host.old) (H.state host.new) told.old.items told.new.items }
    ensures any_moment { AtEachMomentOf (OnlyScripts (is_kept places.now))
        (H.state host.old) (H.state host.new) }
    ensures counts { Counts (H.state host.old) (H.state host.new) result }
{
    let keep = Keep { places };
    let mut owners = Vec::new(alloc);
    undo_row(host, &keep, row, &mut owners, told)?;
    Ok(!owners.is_empty())
}

// Undoes a row whose call failed; where that succeeds these parts are done.
fn undo_stage<H: Host>(
    host: &mut H,
    administration: &mut Administration,
    diversions: &Diversions,
    name: &Text,
    row: &Row,
    restore: Vec<Part>,
    told: &mut Vec<Called>,
) -> Result<(), HostFault>
    requires open { IsOpen diversions.now.ways administration.old }
    requires named { is_package_name name.now ≡ true }
    requires fit { AreFit name.now restore.items
        administration.old.database.records administration.old.lists.lists }
    requires settled { Needs (H.state host.old) (λ w. HaveNoSettle restore.items) }
    requires order { Needs (H.state host.old)
        (IsInOrder administration.old.database administration.old.lists.lists) }
    ensures undone { OnOk result
        (HasUndone name.now diversions.now.ways row.now restore.items
        (holding_of administration.old) (holding_of administration.new)
        (H.state host.old) (H.state host.new) told.old.items told.new.items) }
    ensures order { OnOk result
        (Needs (H.state host.new)
        (IsInOrder administration.new.database administration.new.lists.lists)) }
    ensures open { OnOk result (IsOpen diversions.now.ways administration.new) }
    ensures told { Begun (UndoesAny row.now []) (H.state host.old) (H.state host.new)
        told.old.items told.new.items }
    ensures any_moment { AtEachMomentOf
        (AreCalled name.now diversions.now.ways restore.items (holding_of administration.old))
        (H.state host.old) (H.state host.new) }
    ensures apart { WorksApart result is_record_place (H.state host.old) (H.state host.new) }
    ensures counts { Counts (H.state host.old) (H.state host.new) result }
{
    let alloc = administration.alloc;
    match undo_call(alloc, host, &administration.places, row, told) {
        Ok(false) => do_and_keep(host, administration, diversions, name, restore),
        Ok(true) => Ok(()),
        Err(fault) => Err(fault),
    }
}

/// Makes the call of a stage; where it fails its undo is called. The answer is the call that failed.
pub(crate) fn call_stage<H: Host>(
    host: &mut H,
    administration: &mut Administration,
    diversions: &Diversions,
    name: &Text,
    row: Row,
    restore: Vec<Part>,
    told: &mut Vec<Called>,
) -> Result<Option<Call>, HostFault>
    requires open { IsOpen diversions.now.ways administration.old }
    requires named { is_package_name name.now ≡ true }
    requires fit { AreFit name.now restore.items
        administration.old.database.records administration.old.lists.lists }
    requires settled { Needs (H.state host.old) (λ w. HaveNoSettle restore.items) }
    requires order { Needs (H.state host.old)
        (IsInOrder administration.old.database administration.old.lists.lists) }
    ensures called { IfOk result
        (λ failed. HasCalled name.now diversions.now.ways row restore.items failed
        (holding_of administration.old) (holding_of administration.new)
        (H.state host.old) (H.state host.new) told.old.items told.new.items) }
    ensures order { OnOk result
        (Needs (H.state host.new)
        (IsInOrder administration.new.database administration.new.lists.lists)) }
    ensures open { OnOk result (IsOpen diversions.now.ways administration.new) }
    ensures told { Begun (MayCallRow row) (H.state host.old) (H.state host.new)
        told.old.items told.new.items }
    ensures any_moment { AtEachMomentOf
        (AreCalled name.now diversions.now.ways restore.items (holding_of administration.old))
        (H.state host.old) (H.state host.new) }
    ensures apart { WorksApart result is_record_place (H.state host.old) (H.state host.new) }
    ensures counts { Counts (H.state host.old) (H.state host.new) result }
{
    match try_call(host, &administration.places, &row, told) {
        Ok(true) => Ok(None),
        Ok(false) => match undo_stage(host, administration, diversions, name, &row, restore, told) {
            Ok(()) => Ok(row.forward),
            Err(fault) => Err(fault),
        },
        Err(fault) => Err(fault),
    }
}
