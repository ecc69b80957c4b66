// A refused unit more.
ghost use Rattle.std.specs.Prelude.{◌≡◌, ◌++◌, ◌∷◌, [], OnErr, OnOk};
ghost use Rattle.unit_reports.specs.Units.{IsRefusal};
ghost use Rattle.unit_reports.specs.Watching.{AddsTold};

use host_core::Host;
use std::alloc::AllocError;
use unit_reports::{Unit, Watcher};

/// A unit more that a rule refuses, which is told once there is room for it.
pub(crate) fn add_finished<H: Host, W: Watcher>(
    host: &H,
    unit: Unit,
    units: &mut Vec<Unit>,
    watcher: &mut W,
) -> Result<(), AllocError>
    requires quiet { unit.calls.items ≡ [] }
    requires refused { IsRefusal unit.reply }
    ensures ok { OnOk result (units.new.items ≡ units.old.items ++ unit ∷ []) }
    ensures err { OnErr result (units.new.items ≡ units.old.items) }
    ensures watched { AddsTold W.tells (H.state host.now) units.old.items units.new.items
        watcher.old watcher.new }
{
    units.reserve(1)?;
    watcher.finished(host, &unit);
    units.push(unit).unwrap();
    Ok(())
}
