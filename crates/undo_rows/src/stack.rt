// The cleanup stack.
ghost use Rattle.std.specs.Prelude.{◌≡◌, ◌++◌, ◌∷◌, List, [], IfOk, IfSome, OnOk, OnErr, length};
ghost use Rattle.host_core.specs.Host.{Counts};
ghost use Rattle.scattered_losses.specs.Apart.{WorksApart};
ghost use Rattle.undo_rows.specs.declared.rows.Row.{Row};
ghost use Rattle.undo_rows.specs.Faults.{OnlyIfDeclined};
ghost use Rattle.undo_rows.specs.Place.{Back, Fit, Forward, leads};
ghost use Rattle.undo_rows.specs.Stops.{AtEachStop};
ghost use Rattle.undo_rows.specs.Telling.{Begun, HasStepped, HasUnwound};
ghost use Rattle.undo_rows.specs.Transcripts.{MayStep, MayUnwind};

use crate::around::Around;
use crate::failed::Failed;
use crate::fall::Fall;
use crate::rows::{Called, Row};
use crate::steps::{step, unwind};
use host_core::{Host, HostFault};
use std::alloc::Global;
use std::marker::Model;

/// The rows that were tried, the last of them last.
#[derive(Drop)]
pub struct Stack {
    rows: Vec<Row>,
}

impl Model for Stack {
    ghost Value = { List Row };

    ghost view = { λ s. s.rows.items };
}

impl Stack {
    pub fn new(alloc: Global) -> Self
        ensures { result ≡ [] }
    {
        Stack {
            rows: Vec::new(alloc),
        }
    }

    /// Tries a row and pushes it, also where it fails. The answer is how it failed, if it did.
    pub fn step<H: Host, A: Around<H>>(
        &mut self,
        host: &mut H,
        around: &mut A,
        row: Row,
        told: &mut Vec<Called>,
    ) -> Result<Option<Fall>, HostFault>
        requires place { A.at around.old (H.state host.old) (Forward (length self.old)) }
        requires row { A.fits (A.task around.old) (length self.old) row }
        ensures rows { OnOk result (self.new ≡ self.old ++ row ∷ []) }
        ensures ended { OnErr result (self.new ≡ []) }
        ensures calls { IfOk result
            (λ fall. HasStepped (A.file_step_fault (A.task around.old)) row fall (H.state host.old)
            (H.state host.new) told.old.items told.new.items) }
        ensures row { IfOk result (λ fall. IfSome fall (λ one. one.row ≡ length self.old)) }
        ensures denied { IfOk result
            (λ fall. IfSome fall
            (λ one. OnlyIfDeclined one.fault (H.state host.old) (H.state host.new))) }
        ensures told { Begun (MayStep row) (H.state host.old) (H.state host.new) told.old.items
            told.new.items }
        ensures place { IfOk result
            (λ fall. A.at around.new (H.state host.new) (leads (length self.old) fall)) }
        ensures any_moment { AtEachStop (A.stops (A.task around.old)) (H.state host.old)
            (H.state host.new) }
        ensures apart { WorksApart result A.area (H.state host.old) (H.state host.new) }
        ensures task { A.task around.new ≡ A.task around.old }
        ensures reference { A.reference around.new ≡ A.reference around.old }
        ensures counts { Counts (H.state host.old) (H.state host.new) result }
    {
        let index = self.rows.len();
        if self.rows.push(row).is_err() {
            self.rows.clear();
            return Err(HostFault::NoMemory);
        }
        let result = step(host, around, &self.rows[index], index, told);
        if result.is_err() {
            self.rows.clear();
        }
        result
    }

    /// Undoes the rows, the last first, and drops them. The answer is the undo calls that failed.
    pub fn unwind<H: Host, A: Around<H>>(
        &mut self,
        alloc: Global,
        host: &mut H,
        around: &mut A,
        fall: &Fall,
        told: &mut Vec<Called>,
    ) -> Result<Vec<Failed>, HostFault>
        requires place { A.at around.old (H.state host.old) (Back (length self.old) fall.now []) }
        requires rows { Fit (A.fits (A.task around.old)) self.old }
        ensures rows { self.new ≡ [] }
        ensures calls { IfOk result
            (λ failed.
            HasUnwound self.old failed.items (H.state host.old) (H.state host.new) told.old.items
            told.new.items) }
        ensures told { Begun (MayUnwind self.old) (H.state host.old) (H.state host.new)
            told.old.items told.new.items }
        ensures place { IfOk result
            (λ failed. A.at around.new (H.state host.new) (Back 0 fall.now failed.items)) }
        ensures any_moment { AtEachStop (A.stops (A.task around.old)) (H.state host.old)
            (H.state host.new) }
        ensures apart { WorksApart result A.area (H.state host.old) (H.state host.new) }
        ensures task { A.task around.new ≡ A.task around.old }
        ensures reference { A.reference around.new ≡ A.reference around.old }
        ensures counts { Counts (H.state host.old) (H.state host.new) result }
    {
        let mut failed = Vec::new(alloc);
        let result = unwind(
            alloc,
            host,
            around,
            self.rows.as_slice(),
            fall,
            &mut failed,
            told,
        );
        self.rows.clear();
        match result {
            Ok(()) => Ok(failed),
            Err(fault) => Err(fault),
        }
    }
}
