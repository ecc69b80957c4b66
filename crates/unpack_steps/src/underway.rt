// The rows of an unpack that have run so far: they may run in parts, between which the caller looks where the shipped paths are.
ghost use Rattle.std.specs.Prelude.{◌≡◌, ◌++◌, [], IfNone, IfOk, IfSome, List, length};
ghost use Rattle.host_core.specs.Host.{Counts, Needs, State};
ghost use Rattle.held_administration.specs.Open.{CanWrite};
ghost use Rattle.scattered_losses.specs.Apart.{WorksApart};
ghost use Rattle.status_db.specs.Held.{is_record_place};
ghost use Rattle.undo_rows.specs.Ended.{IsCauseOf, end_place, ended_as};
ghost use Rattle.undo_rows.specs.Faults.{OnlyIfDeclined};
ghost use Rattle.undo_rows.specs.Place.{Fit, Forward};
ghost use Rattle.undo_rows.specs.Stops.{AtEachStop};
ghost use Rattle.undo_rows.specs.Telling.{Begun, HasRun, HasSucceeded};
ghost use Rattle.undo_rows.specs.Transcripts.{MayRun};
ghost use Rattle.undo_rows.specs.declared.rows.Called.{Called};
ghost use Rattle.unpack_rows.specs.ForwardRows.{Fits};
ghost use Rattle.unpack_steps.specs.At.{At, IsFileFault, Stops, holding_by};
ghost use Rattle.unpack_steps.specs.Task.{kinds, name};
ghost use Rattle.unpack_steps.specs.Underway.{task_since};

use crate::plan::Rows;
use crate::run::run_all;
use crate::unpacking::{Start, Unpacking};
use diversions::Diversions;
use held_administration::Administration;
use host_core::{Host, HostFault};
use package_files::Work;
use std::alloc::Global;
use std::snapshot::Snapshot;
use undo_rows::{Called, Row, Stack, Unwinding};

/// The rows that have succeeded so far, and what was there where they began.
#[derive(Drop)]
pub struct Underway<H: Host> {
    pub stack: Stack,
    pub start: Start<H>,
}

impl<H: Host> Underway<H> {
    /// None has run yet.
    pub fn begin(alloc: Global, host: &H, administration: &Administration) -> Self
        ensures stack { result.stack ≡ [] }
        ensures host { H.state result.start.host.value ≡ H.state host.now }
        ensures administration { result.start.administration.value ≡ administration.now }
    {
        Underway {
            stack: Stack::new(alloc),
            start: Start {
                host: Snapshot::of(host),
                administration: Snapshot::of(administration),
            },
        }
    }

    /// Runs more rows of an unpack with their notes, the list and the files. Where one fails, all are undone; the answer is how, or none
    /// where these succeeded. `works` are the shipped paths in path order, and the places of the administration what scripts leave
    /// alone: while the files are written, the shipped places too.
    pub fn run<'a>(
        &mut self,
        host: &mut H,
        administration: &'a mut Administration,
        diversions: &'a Diversions,
        rows: &'a Rows,
        works: &'a mut Vec<Work>,
        calls: Vec<Row>,
        told: &mut Vec<Called>,
    ) -> Result<Option<Unwinding>, HostFault>
        requires place { At (task_since H.state self.old diversions.now.ways works.old.items rows.now)
            (holding_by administration.old works.old.items) (H.state host.old)
            (Forward (length self.old.stack)) }
        requires kinds { rows.now.kinds.items
            ≡ kinds (task_since H.state self.old diversions.now.ways works.old.items rows.now) }
        requires rows { Fit (Fits
            (name (task_since H.state self.old diversions.now.ways works.old.items rows.now))
            (kinds (task_since H.state self.old diversions.now.ways works.old.items rows.now)))
            (self.old.stack ++ calls.items) }
        ensures calls { IfOk result (λ u. (start : State) (before : List Called)
            → HasSucceeded
            (IsFileFault (task_since H.state self.old diversions.now.ways works.old.items rows.now))
            self.old.stack start (H.state host.old) before told.old.items
            → HasRun
            (IsFileFault (task_since H.state self.old diversions.now.ways works.old.items rows.now))
            (ended_as u) (self.old.stack ++ calls.items) start (H.state host.new) before
            told.new.items) }
        ensures stacked { IfOk result
            (λ u. IfNone u (self.new.stack ≡ self.old.stack ++ calls.items)) }
        ensures start { self.new.start ≡ self.old.start }
        ensures cause { IfOk result (IsCauseOf (self.old.stack ++ calls.items)) }
        ensures denied { IfOk result (λ u. IfSome u
            (λ one. OnlyIfDeclined one.fall.fault (H.state host.old) (H.state host.new))) }
        ensures told { (start : State) (before : List Called)
            → HasSucceeded
            (IsFileFault (task_since H.state self.old diversions.now.ways works.old.items rows.now))
            self.old.stack start (H.state host.old) before told.old.items
            → Begun (MayRun (self.old.stack ++ calls.items)) start (H.state host.new) before
            told.new.items }
        ensures there { IfOk result (λ u. At
            (task_since H.state self.old diversions.now.ways works.old.items rows.now)
            (holding_by administration.new works.new.items) (H.state host.new)
            (end_place (length (self.old.stack ++ calls.items)) u)) }
        ensures any_moment { AtEachStop
            (Stops (task_since H.state self.old diversions.now.ways works.old.items rows.now))
            (H.state host.old) (H.state host.new) }
        ensures apart { WorksApart result is_record_place (H.state host.old) (H.state host.new) }
        ensures counts { Counts (H.state host.old) (H.state host.new) result }
    {
        let shipped = Snapshot::of(works);
        let mut unpacking = Unpacking {
            administration,
            works,
            diversions,
            rows,
            start: &self.start,
            shipped: &shipped,
        };
        run_all(host, &mut unpacking, &mut self.stack, calls, told)
    }
}
