// The lines of units, which are written as each is finished.
ghost use Rattle.std.specs.Prelude.{◌≡◌, IsTrue};
ghost use Rattle.report_lines.specs.Reports.{unit_lines};
ghost use Rattle.unit_reports.specs.Units.{IsRefusal};
ghost use Rattle.command_line.specs.Limits.{is_over, left_behind};
ghost use Rattle.command_line.specs.Printing.{IsPrinted, Prints};

use crate::limits::{is_over, left_behind};
use crate::writing::write_whole;
use dpkg_session::{Unit, Watcher};
use host_core::Host;
use report_lines::unit_text;
use std::alloc::Global;
use std::io::Write;

/// How the lines of units were written so far: whole, or the output takes no more, or memory was wanting for those of a unit.
#[derive(Clone, Copy)]
pub(crate) enum Flow {
    Whole,
    Cut,
    Wanting,
}

/// Writes the lines of each unit as it is told, and counts those that fail. Units go on where its lines can't be written.
#[derive(Drop)]
pub(crate) struct Printer<'a, O: Write> {
    pub(crate) alloc: Global,
    pub(crate) out: &'a mut O,
    pub(crate) flow: Flow,
    /// How many units may still fail.
    pub(crate) left: Option<u32>,
}

impl<'a, O: Write> Watcher for Printer<'a, O> {
    ghost tells = { λ old unit at new. (new.out.ghost_name ≡ old.out.ghost_name)
        × Prints (unit_lines unit) old.flow new.flow (O.contents old.out.now)
        (O.contents new.out.now) × (new.left ≡ left_behind old.left unit.reply)
        × (IsTrue (is_over old.left) → IsRefusal unit.reply) };

    ghost ends = { λ printer. is_over printer.left };

    fn finished<H: Host>(&mut self, host: &H, unit: &Unit) {
        let _ = host;
        if let Flow::Whole = self.flow {
            self.flow = print_unit(self.alloc, self.out, unit);
        }
        self.left = left_behind(self.left, &unit.reply);
    }

    fn is_over(&self) -> bool {
        is_over(self.left)
    }
}

fn print_unit<O: Write>(alloc: Global, out: &mut O, unit: &Unit) -> Flow
    ensures { IsPrinted (unit_lines unit.now) result (O.contents out.old) (O.contents out.new) }
{
    let Ok(text) = unit_text(alloc, unit) else {
        return Flow::Wanting;
    };
    if write_whole(out, text.as_str().as_bytes()) {
        return Flow::Whole;
    }
    Flow::Cut
}
