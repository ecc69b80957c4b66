// The changes of a command, one after another.
use crate::change::RecordChange;
use crate::units::change_one;
use diversions::Diversions;
use held_administration::Administration;
use host_core::Host;
use unit_reports::Unit;
use unit_runs::{Bar, Turns};

/// The changes of a command, and how many of them were taken. The diversions are those of the root.
#[derive(Drop)]
pub(crate) struct Changing<'d> {
    pub(crate) diversions: &'d Diversions,
    pub(crate) changes: Vec<RecordChange>,
    pub(crate) next: usize,
}

impl<'d, H: Host> Turns<H> for Changing<'d> {
    ghost use Rattle.std.specs.Prelude.{List, length};
    ghost use Rattle.diversions.specs.Diverted.{Diverted};
    ghost use Rattle.record_changes.specs.declared.change.RecordChange.{RecordChange as ARecordChange};
    ghost use Rattle.record_changes.specs.Taking.{IsBetween, IsOver, left_of};
    ghost use Rattle.record_changes.specs.Turns.{HasCalledNext, IsAmidTurn, IsTurn};

    ghost Task = { Diverted };

    ghost task = { λ r. r.diversions.now };

    ghost Left = { List ARecordChange };

    ghost left = { left_of };

    ghost size = { λ left. length left };

    ghost turn = { λ task. IsTurn };

    ghost amid = { λ task. IsAmidTurn };

    ghost called = { λ task. HasCalledNext };

    ghost goes = { λ task left later. Unit {0} };

    ghost diverted = { λ r. r.diversions.now };

    ghost between = { IsBetween };

    ghost over = { IsOver };

    fn take(
        &mut self,
        host: &mut H,
        administration: &mut Administration,
        barred: Option<Bar>,
    ) -> Result<Option<Unit>, Unit> {
        match self.changes.as_slice().get(self.next) {
            Some(asked) => match change_one(host, administration, asked, barred) {
                Ok(unit) => {
                    self.next += 1;
                    Ok(Some(unit))
                }
                Err(unit) => Err(unit),
            },
            None => Ok(None),
        }
    }
}
