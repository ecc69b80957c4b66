// Units that rules refuse are told in turn.
ghost use Rattle.std.specs.Prelude.{◌≡◌, []};
ghost use Rattle.std.specs.List.{AllByRecursion};
ghost use Rattle.unit_reports.specs.Units.{IsRefusal, calls_of};
ghost use Rattle.unit_reports.specs.Watching.{IsTold};

use host_core::Host;
use unit_reports::{Unit, Watcher};

/// Tells units that rules refuse, one after another.
pub(crate) fn tell_all<H: Host, W: Watcher>(host: &H, units: &[Unit], watcher: &mut W)
    requires quiet { calls_of units.now ≡ [] }
    requires refused { AllByRecursion (λ unit. IsRefusal unit.reply) units.now }
    ensures { IsTold W.tells (H.state host.now) watcher.old units.now watcher.new }
{
    for unit in units {
        watcher.finished(host, unit);
    }
}
