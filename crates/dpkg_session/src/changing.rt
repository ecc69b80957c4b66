// A session changes records.
ghost use Rattle.std.specs.Prelude.{◌≡◌, true, false, IsNone, IfSome, IsTrue, is_some};
ghost use Rattle.host_core.specs.Host.{Silent, Since};
ghost use Rattle.host_core.specs.Loss.{IsAnswered};
ghost use Rattle.dpkg_session.specs.PowerLoss.{LosesLikeAStop, StandsOnceAnswered};
ghost use Rattle.record_changes.specs.Run.{HasRun, IsAmidRun, IsChangeRun};
ghost use Rattle.unit_reports.specs.Held.{held_by};
ghost use Rattle.unit_reports.specs.Units.{CountsLast, IsBrokenBy, IsClosedReport, TellsCalls};
ghost use Rattle.unit_reports.specs.Watching.{IsTold};
ghost use Rattle.unit_reports.specs.declared.report.Breakage.TheVariants.{Abandoned, Closed};

use crate::session::{Session, closed_report};
use host_core::Host;
use record_changes::{RecordChange, change_records};
use unit_reports::{Report, Watcher};

impl<H: Host> Session<H> {
    /// Changes records, in the order given: what is wanted of a package, which triggers it is to process, or that what is pending of it
    /// is abandoned. Nothing else is done with it. Each unit is told as it is finished; one that is broken off closes the session.
    pub fn change<W: Watcher>(&mut self, changes: Vec<RecordChange>, watcher: &mut W) -> Report
        ensures whole { self.old.closed ≡ false → IsNone result.last
            → IsChangeRun changes.items result.units.items
            (held_by self.old.administration self.old.diversions)
            (held_by self.new.administration self.new.diversions) (H.state self.old.host)
            (H.state self.new.host) }
        ensures part { self.old.closed ≡ false → HasRun changes.items result.units.items
            result.last (held_by self.old.administration self.old.diversions)
            (H.state self.old.host) (H.state self.new.host) }
        ensures told { TellsCalls (H.state self.old.host) (H.state self.new.host) result }
        ensures any_moment { self.old.closed ≡ false
            → Since (IsAmidRun changes.items
            (held_by self.old.administration self.old.diversions) (H.state self.old.host))
            (H.state self.old.host) (H.state self.new.host) }
        ensures loss { self.old.closed ≡ false
            → LosesLikeAStop (IsAmidRun changes.items
            (held_by self.old.administration self.old.diversions) (H.state self.old.host))
            (H.state self.old.host) (H.state self.new.host) }
        ensures stands { self.old.closed ≡ false → IsNone result.last
            → StandsOnceAnswered (H.state self.old.host) (H.state self.new.host) }
        ensures closes { self.new.closed ≡ is_some result.last }
        ensures refused { self.old.closed ≡ true → IsClosedReport result }
        ensures same { self.old.closed ≡ true → H.state self.new.host ≡ H.state self.old.host }
        ensures same_held { self.old.closed ≡ true
            → held_by self.new.administration self.new.diversions
            ≡ held_by self.old.administration self.old.diversions }
        ensures answered { self.old.closed ≡ false → IsNone result.last
            → IsAnswered (H.state self.old.host) (H.state self.new.host) }
        ensures diversions { self.new.diversions ≡ self.old.diversions }
        ensures silent { Silent (H.state self.old.host) (H.state self.new.host) }
        ensures counts { self.old.closed ≡ false → CountsLast (H.state self.old.host)
            (H.state self.new.host) result.last }
        ensures not_closed { self.old.closed ≡ false
            → IfSome result.last (λ unit. IsBrokenBy Closed unit.reply → ⊥) }
        ensures abandoned { self.old.closed ≡ false
            → IfSome result.last (λ unit. IsBrokenBy Abandoned unit.reply
            → IsTrue (W.ends watcher.new)) }
        ensures watched { IsTold W.tells (H.state self.old.host) watcher.old result.units.items
            watcher.new }
    {
        if self.closed {
            return closed_report(self.administration.alloc);
        }
        let report = change_records(
            &mut self.host,
            &mut self.administration,
            &self.diversions,
            changes,
            watcher,
        );
        self.closed = report.last.is_some();
        report
    }
}
