// What is done beside the calls of an unpack's rows.
ghost use Rattle.std.specs.Prelude.{◌∷◌, []};
ghost use Rattle.status_db.specs.Held.{is_record_place};
ghost use Rattle.unpack_rows.specs.ForwardRows.{Fits};
ghost use Rattle.unpack_steps.specs.At.{At, IsFileFault, Stops};
ghost use Rattle.unpack_steps.specs.Follows.{own_record};
ghost use Rattle.unpack_steps.specs.Stays.{holds_at, stays_at};
ghost use Rattle.unpack_steps.specs.Task.{Task, kinds, name};
ghost use Rattle.unpack_steps.specs.Unpacking.{held_in, task_in};

use crate::clearing::clear_left;
use crate::file_moves::{check_and_write, put_back};
use crate::notes::write_note;
use crate::unpacking::Unpacking;
use host_core::{Host, HostFault, Places};
use undo_rows::{Around, Failed, Fall, Row, StepFault};
use unpack_rows::{is_spared, note_before, note_undone};

impl<'a, 's, 'w, H: Host> Around<H> for Unpacking<'a, 's, 'w, H> {
    ghost Task = { Task };

    ghost task = { λ a. task_in a };

    ghost reference = { λ a. a.administration.ghost_name ∷ a.works.ghost_name ∷ [] };

    ghost fits = { λ t. Fits (name t) (kinds t) };

    ghost kept = { λ a. a.administration.now.places };

    ghost file_step_fault = { IsFileFault };

    ghost stops = { Stops };

    ghost area = { is_record_place };

    ghost own = { own_record };

    ghost at = { λ a. At (task_in a) (held_in a) };

    ghost stays = { λ a. stays_at (task_in a) (held_in a) };

    ghost holds = { λ a. holds_at (task_in a) (held_in a) };

    fn places(&self) -> &Places {
        &self.administration.places
    }

    fn prepare(&mut self, host: &mut H, _row: &Row, index: usize) -> Result<(), HostFault> {
        let alloc = self.administration.alloc;
        let kind = self.rows.kind(index);
        clear_left(alloc, host, self.rows, kind)?;
        let entry = note_before(self.rows.found.as_ref(), &self.rows.incoming, kind)?;
        let administration = &mut *self.administration;
        write_note(alloc, host, &mut administration.database, entry)
    }

    fn conclude(
        &mut self,
        _host: &mut H,
        _row: &Row,
        _index: usize,
        _succeeded: bool,
    ) -> Result<(), HostFault> {
        Ok(())
    }

    fn work(
        &mut self,
        host: &mut H,
        _row: &Row,
        _index: usize,
    ) -> Result<Option<StepFault>, HostFault> {
        let administration = &mut *self.administration;
        check_and_write(
            administration.alloc,
            host,
            &mut administration.lists,
            &mut administration.places,
            self.diversions,
            self.rows,
            self.works,
        )
    }

    fn undone(
        &mut self,
        host: &mut H,
        row: &Row,
        index: usize,
        _fall: &Fall,
        failed: &[Failed],
        fails: bool,
    ) -> Result<(), HostFault> {
        if is_spared(fails, index, &row.owner, failed) {
            return Ok(());
        }
        let kind = self.rows.kind(index);
        let entry = note_undone(self.rows.found.as_ref(), &self.rows.incoming, kind)?;
        let administration = &mut *self.administration;
        write_note(
            administration.alloc,
            host,
            &mut administration.database,
            entry,
        )
    }

    // A file row that failed has written nothing, or put it back itself.
    fn put_back(
        &mut self,
        host: &mut H,
        _row: &Row,
        index: usize,
        fall: &Fall,
        _failed: &[Failed],
    ) -> Result<(), HostFault> {
        if fall.row <= index {
            return Ok(());
        }
        let administration = &mut *self.administration;
        put_back(
            administration.alloc,
            host,
            &mut administration.lists,
            &mut administration.places,
            self.rows,
            self.works.as_slice(),
        )
    }
}
