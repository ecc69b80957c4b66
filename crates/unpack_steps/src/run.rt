// The rows of an unpack, with all that is done beside their calls.
ghost use Rattle.std.specs.Prelude.{◌≡◌, ◌++◌, IfNone, IfOk, IfSome, List, length};
ghost use Rattle.host_core.specs.Host.{Counts, State};
ghost use Rattle.scattered_losses.specs.Apart.{WorksApart};
ghost use Rattle.status_db.specs.Held.{is_record_place};
ghost use Rattle.undo_rows.specs.Faults.{OnlyIfDeclined};
ghost use Rattle.undo_rows.specs.Place.{Fit, Forward};
ghost use Rattle.undo_rows.specs.Stops.{AtEachStop};
ghost use Rattle.undo_rows.specs.Telling.{Begun, HasRun, HasSucceeded};
ghost use Rattle.undo_rows.specs.declared.rows.Called.{Called};
ghost use Rattle.undo_rows.specs.Transcripts.{MayRun};
ghost use Rattle.undo_rows.specs.Ended.{IsCauseOf, end_place, ended_as};
ghost use Rattle.unpack_rows.specs.ForwardRows.{Fits};
ghost use Rattle.unpack_steps.specs.At.{At, IsFileFault, Stops};
ghost use Rattle.unpack_steps.specs.Task.{kinds, name};
ghost use Rattle.unpack_steps.specs.Unpacking.{held_in, task_in};

use crate::unpacking::Unpacking;
use host_core::{Host, HostFault};
use undo_rows::{Called, Row, Stack, Unwinding, run_part};

/// Runs rows behind those of the stack, of an unpack that is there. Its caller learns here that what it lent is still the same.
pub(crate) fn run_all<H: Host>(
    host: &mut H,
    unpacking: &mut Unpacking<'_, '_, '_, H>,
    stack: &mut Stack,
    calls: Vec<Row>,
    told: &mut Vec<Called>,
) -> Result<Option<Unwinding>, HostFault>
    requires place { At (task_in unpacking.old) (held_in unpacking.old)
        (H.state host.old) (Forward (length stack.old)) }
    requires rows { Fit (Fits (name (task_in unpacking.old))
        (kinds (task_in unpacking.old))) (stack.old ++ calls.items) }
    ensures calls { IfOk result (λ u. (start : State) (before : List Called)
        → HasSucceeded (IsFileFault (task_in unpacking.old)) stack.old start (H.state host.old)
        before told.old.items
        → HasRun (IsFileFault (task_in unpacking.old)) (ended_as u) (stack.old ++ calls.items)
        start (H.state host.new) before told.new.items) }
    ensures stacked { IfOk result (λ u. IfNone u (stack.new ≡ stack.old ++ calls.items)) }
    ensures cause { IfOk result (IsCauseOf (stack.old ++ calls.items)) }
    ensures denied { IfOk result
        (λ u. IfSome u
        (λ one. OnlyIfDeclined one.fall.fault (H.state host.old) (H.state host.new))) }
    ensures told { (start : State) (before : List Called)
        → HasSucceeded (IsFileFault (task_in unpacking.old)) stack.old start (H.state host.old)
        before told.old.items
        → Begun (MayRun (stack.old ++ calls.items)) start (H.state host.new) before
        told.new.items }
    ensures there { IfOk result (λ u. At (task_in unpacking.old) (held_in unpacking.new)
        (H.state host.new) (end_place (length (stack.old ++ calls.items)) u)) }
    ensures any_moment { AtEachStop (Stops (task_in unpacking.old)) (H.state host.old)
        (H.state host.new) }
    ensures apart { WorksApart result is_record_place (H.state host.old) (H.state host.new) }
    ensures administration_stay { unpacking.new.administration.ghost_name
        ≡ unpacking.old.administration.ghost_name }
    ensures works_stay { unpacking.new.works.ghost_name ≡ unpacking.old.works.ghost_name }
    ensures counts { Counts (H.state host.old) (H.state host.new) result }
{
    let alloc = unpacking.administration.alloc;
    run_part(alloc, host, unpacking, stack, calls, told)
}
