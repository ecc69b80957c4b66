// A session processes the triggers that are pending.
ghost use Rattle.std.specs.Prelude.{◌≡◌, ◌⊎◌, true, false, IsNone, IfOk, IfSome, IsTrue, is_some};
ghost use Rattle.held_administration.specs.Open.{IsOpen};
ghost use Rattle.host_core.specs.Host.{Falls, Needs, Since};
ghost use Rattle.host_core.specs.Loss.{IsAnswered};
ghost use Rattle.dpkg_session.specs.Growth.{StaysWritable};
ghost use Rattle.dpkg_session.specs.PowerLoss.{LosesLikeAStop, StandsOnceAnswered};
ghost use Rattle.dpkg_session.specs.Rereading.{BehindReading, IsAmidReading, IsUnread};
ghost use Rattle.recorded_packages.specs.Packages.{ArePackagesOf};
ghost use Rattle.record_changes.specs.Awaits.{settled_awaits};
ghost use Rattle.record_changes.specs.Pending.{pending_triggers};
ghost use Rattle.trigger_run.specs.Run.{HasRun, IsAmidRun, IsTriggerRun};
ghost use Rattle.held_administration.specs.Order.{IsInOrder};
ghost use Rattle.unit_reports.specs.Held.{held_by};
ghost use Rattle.unit_reports.specs.Units.{CountsLast, IsBrokenBy, IsClosedReport, TellsCalls};
ghost use Rattle.unit_reports.specs.Watching.{IsTold};
ghost use Rattle.unit_reports.specs.declared.report.Breakage.TheVariants.{Abandoned, Closed};

use crate::recorded::take_packages;
use crate::session::{Session, closed_report};
use crate::table_units::no_memory;
use diversions::Diversions;
use held_administration::Administration;
use host_core::Host;
use record_changes::{PendingTrigger, RecordChange, pending_triggers, settled_awaits};
use std::alloc::AllocError;
use texts::Text;
use trigger_run::process_packages;
use unit_reports::{Report, Watcher};

// Processes the triggers of packages of these names, beside the packages of the records.
fn process_named<H: Host, W: Watcher>(
    host: &mut H,
    administration: &mut Administration,
    diversions: &Diversions,
    names: Vec<Text>,
    watcher: &mut W,
) -> Report
    requires order { Needs (H.state host.old)
        (IsInOrder administration.old.database administration.old.lists.lists) }
    requires open { IsOpen diversions.now.ways administration.old }
    requires indexed { IfSome administration.old.packages
        (ArePackagesOf administration.old.database.records) }
    ensures whole { IsNone result.last → IsTriggerRun names.items result.units.items
        (held_by administration.old diversions.now) (held_by administration.new diversions.now)
        (H.state host.old) (H.state host.new) }
    ensures part { HasRun names.items result.units.items result.last
        (held_by administration.old diversions.now) (H.state host.old) (H.state host.new) }
    ensures told { TellsCalls (H.state host.old) (H.state host.new) result }
    ensures any_moment { Since (IsAmidRun names.items
        (held_by administration.old diversions.now) (H.state host.old)) (H.state host.old)
        (H.state host.new) }
    ensures counts { CountsLast (H.state host.old) (H.state host.new) result.last }
    ensures not_closed { IfSome result.last (λ unit. IsBrokenBy Closed unit.reply → ⊥) }
    ensures abandoned { IfSome result.last (λ unit. IsBrokenBy Abandoned unit.reply
        → IsTrue (W.ends watcher.new)) }
    ensures order { IsNone result.last → Needs (H.state host.new)
        (IsInOrder administration.new.database administration.new.lists.lists) }
    ensures open { IsNone result.last → IsOpen diversions.now.ways administration.new }
    ensures indexed { IsNone result.last → IfSome administration.new.packages
        (ArePackagesOf administration.new.database.records) }
    ensures answered { IsNone result.last → IsAnswered (H.state host.old) (H.state host.new) }
    ensures watched { IsTold W.tells (H.state host.old) watcher.old result.units.items watcher.new }
{
    let alloc = administration.alloc;
    match take_packages(
        alloc,
        &mut administration.packages,
        &administration.database,
    ) {
        Ok(mut known) => {
            let report = process_packages(
                host,
                administration,
                &mut known,
                diversions,
                names,
                watcher,
            );
            administration.packages = Some(known);
            report
        }
        Err(_) => no_memory(alloc),
    }
}

impl<H: Host> Session<H> {
    /// Each trigger that is pending of a package: the packages in name order, and of each the triggers in the order of its record.
    pub fn pending_triggers(&self) -> Result<Vec<PendingTrigger>, AllocError>
        ensures { IfOk result (λ found. found.items
            ≡ pending_triggers self.now.administration.database.records) }
    {
        pending_triggers(self.administration.alloc, &self.administration.database)
    }

    /// Of packages that await what isn't pending any more the changes of their records by which they don't.
    pub fn settled_awaits(&self) -> Result<Vec<RecordChange>, AllocError>
        ensures { IfOk result (λ changes. changes.items
            ≡ settled_awaits self.now.administration.database.records) }
    {
        settled_awaits(self.administration.alloc, &self.administration.database)
    }

    // The same, once the table of diversions was read.
    fn process_read<W: Watcher>(&mut self, names: Vec<Text>, watcher: &mut W) -> Report
        requires { self.old.closed ≡ false }
        ensures whole { IsNone result.last
            → IsTriggerRun names.items
            result.units.items (held_by self.old.administration self.old.diversions)
            (held_by self.new.administration self.new.diversions) (H.state self.old.host)
            (H.state self.new.host) }
        ensures part { HasRun names.items
            result.units.items result.last (held_by self.old.administration self.old.diversions)
            (H.state self.old.host) (H.state self.new.host) }
        ensures told { TellsCalls (H.state self.old.host) (H.state self.new.host) result }
        ensures any_moment { Since (IsAmidRun names.items
            (held_by self.old.administration self.old.diversions) (H.state self.old.host))
            (H.state self.old.host) (H.state self.new.host) }
        ensures closes { self.new.closed ≡ is_some result.last }
        ensures answered { IsNone result.last
            → IsAnswered (H.state self.old.host) (H.state self.new.host) }
        ensures diversions { self.new.diversions ≡ self.old.diversions }
        ensures honest { Falls (H.state self.old.host) (H.state self.new.host) }
        ensures counts { CountsLast (H.state self.old.host)
            (H.state self.new.host) result.last }
        ensures not_closed { IfSome result.last (λ unit. IsBrokenBy Closed unit.reply → ⊥) }
        ensures abandoned { IfSome result.last (λ unit. IsBrokenBy Abandoned unit.reply
            → IsTrue (W.ends watcher.new)) }
        ensures watched { IsTold W.tells (H.state self.old.host) watcher.old result.units.items
            watcher.new }
    {
        let report = process_named(
            &mut self.host,
            &mut self.administration,
            &self.diversions,
            names,
            watcher,
        );
        self.closed = report.last.is_some();
        report
    }

    /// Processes the triggers that are pending of packages of these names, one package after another: of each the postinst is called
    /// with the names of all that is pending of it. Each unit is told as it is finished; one that is broken off closes the session. The
    /// table of diversions is read again first.
    pub fn process_triggers<W: Watcher>(&mut self, names: Vec<Text>, watcher: &mut W) -> Report
        ensures whole { self.old.closed ≡ false → IsNone result.last
            → BehindReading (λ h s. IsTriggerRun names.items result.units.items h
            (held_by self.new.administration self.new.diversions) s (H.state self.new.host))
            (held_by self.old.administration self.old.diversions) (H.state self.old.host) }
        ensures part { self.old.closed ≡ false
            → IsUnread result.units.items result.last (H.state self.old.host)
            (H.state self.new.host) ⊎ BehindReading (λ h s. HasRun names.items result.units.items
            result.last h s (H.state self.new.host))
            (held_by self.old.administration self.old.diversions) (H.state self.old.host) }
        ensures told { TellsCalls (H.state self.old.host) (H.state self.new.host) result }
        ensures any_moment { self.old.closed ≡ false
            → Since (IsAmidReading (λ h. IsAmidRun names.items h)
            (held_by self.old.administration self.old.diversions) (H.state self.old.host))
            (H.state self.old.host) (H.state self.new.host) }
        ensures loss { self.old.closed ≡ false
            → LosesLikeAStop (IsAmidReading (λ h. IsAmidRun names.items h)
            (held_by self.old.administration self.old.diversions) (H.state self.old.host))
            (H.state self.old.host) (H.state self.new.host) }
        ensures stands { self.old.closed ≡ false → IsNone result.last
            → StandsOnceAnswered (H.state self.old.host) (H.state self.new.host) }
        ensures closes { self.new.closed ≡ is_some result.last }
        ensures refused { self.old.closed ≡ true → IsClosedReport result }
        ensures same { self.old.closed ≡ true → H.state self.new.host ≡ H.state self.old.host }
        ensures same_held { self.old.closed ≡ true
            → held_by self.new.administration self.new.diversions
            ≡ held_by self.old.administration self.old.diversions }
        ensures answered { self.old.closed ≡ false → IsNone result.last
            → IsAnswered (H.state self.old.host) (H.state self.new.host) }
        ensures diversions { StaysWritable self.old.diversions self.new.diversions }
        ensures honest { Falls (H.state self.old.host) (H.state self.new.host) }
        ensures counts { self.old.closed ≡ false → CountsLast (H.state self.old.host)
            (H.state self.new.host) result.last }
        ensures not_closed { self.old.closed ≡ false
            → IfSome result.last (λ unit. IsBrokenBy Closed unit.reply → ⊥) }
        ensures abandoned { self.old.closed ≡ false
            → IfSome result.last (λ unit. IsBrokenBy Abandoned unit.reply
            → IsTrue (W.ends watcher.new)) }
        ensures watched { IsTold W.tells (H.state self.old.host) watcher.old result.units.items
            watcher.new }
    {
        if self.closed {
            return closed_report(self.administration.alloc);
        }
        match self.read_again() {
            Some(report) => report,
            None => self.process_read(names, watcher),
        }
    }
}
