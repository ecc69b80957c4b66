// Units that aren't begun.
ghost use Rattle.std.specs.Prelude.{◌≡◌, []};
ghost use Rattle.unit_reports.specs.Units.{IsBrokenBy, TellsNoPackage};
ghost use Rattle.unit_runs.specs.Barring.{breakage_by};

use std::alloc::Global;
use unit_reports::{Breakage, Unit, broken};

/// Why the next unit isn't begun, where it isn't: there is no room for it, or as many have failed as were allowed to.
#[derive(Clone, Copy)]
pub enum Bar {
    NoRoom,
    Abandoned,
}

impl Bar {
    fn breakage(self) -> Breakage
        ensures { result ≡ breakage_by self }
    {
        match self {
            Bar::NoRoom => Breakage::NoMemory,
            Bar::Abandoned => Breakage::Abandoned,
        }
    }
}

/// The unit that isn't begun: it is broken off without a call.
pub fn barred_unit(alloc: Global, bar: Bar) -> Unit
    ensures reply { IsBrokenBy (breakage_by bar) result.reply }
    ensures told { result.calls.items ≡ [] }
    ensures touched { TellsNoPackage result }
{
    broken(alloc, Vec::new(alloc), bar.breakage())
}
