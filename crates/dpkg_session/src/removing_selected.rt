// A session carries out what is recorded of packages that are to go.
ghost use Rattle.std.specs.Prelude.{◌≡◌, ◌⊎◌, true, false, IsNone, IfSome, IsTrue, is_some};
ghost use Rattle.held_administration.specs.Open.{IsOpen};
ghost use Rattle.host_core.specs.Host.{Falls, Needs, Since};
ghost use Rattle.host_core.specs.Loss.{IsAnswered};
ghost use Rattle.dpkg_session.specs.Growth.{StaysWritable};
ghost use Rattle.dpkg_session.specs.PowerLoss.{LosesLikeAStop, StandsOnceAnswered};
ghost use Rattle.dpkg_session.specs.Rereading.{BehindReading, IsAmidReading, IsUnread};
ghost use Rattle.recorded_packages.specs.Packages.{ArePackagesOf};
ghost use Rattle.removal_run.specs.Extents.{removing};
ghost use Rattle.removal_run.specs.Run.{HasRun, IsAmidRun, IsRemovalRun};
ghost use Rattle.removal_run.specs.Selected.{selected_names};
ghost use Rattle.removal_run.specs.declared.extents.Extents.TheVariants.{Selected};
ghost use Rattle.held_administration.specs.Order.{IsInOrder};
ghost use Rattle.unit_reports.specs.Held.{held_by};
ghost use Rattle.unit_reports.specs.Units.{CountsLast, IsBrokenBy, IsClosedReport, TellsCalls};
ghost use Rattle.unit_reports.specs.Watching.{IsTold};
ghost use Rattle.unit_reports.specs.declared.report.Breakage.TheVariants.{Abandoned, Closed};

use crate::removing::remove_named;
use crate::session::{Session, closed_report};
use crate::table_units::no_memory;
use diversions::Diversions;
use held_administration::Administration;
use host_core::Host;
use removal_run::{Extents, RemovalOptions, selected_names};
use unit_reports::{Report, Watcher};

// Removes or purges all packages that are to go.
fn remove_going<H: Host, W: Watcher>(
    host: &mut H,
    administration: &mut Administration,
    diversions: &Diversions,
    ignore_depends: bool,
    watcher: &mut W,
) -> Report
    requires order { Needs (H.state host.old)
        (IsInOrder administration.old.database administration.old.lists.lists) }
    requires open { IsOpen diversions.now.ways administration.old }
    requires indexed { IfSome administration.old.packages
        (ArePackagesOf administration.old.database.records) }
    ensures whole { IsNone result.last
        → IsRemovalRun (selected_names administration.old.database.records) (removing Selected ignore_depends)
        result.units.items (held_by administration.old diversions.now)
        (held_by administration.new diversions.now) (H.state host.old) (H.state host.new) }
    ensures part { HasRun (selected_names administration.old.database.records) (removing Selected ignore_depends)
        result.units.items result.last (held_by administration.old diversions.now)
        (H.state host.old) (H.state host.new) }
    ensures told { TellsCalls (H.state host.old) (H.state host.new) result }
    ensures any_moment { Since (IsAmidRun (selected_names administration.old.database.records)
        (removing Selected ignore_depends) (held_by administration.old diversions.now) (H.state host.old)) (H.state host.old)
        (H.state host.new) }
    ensures counts { CountsLast (H.state host.old) (H.state host.new) result.last }
    ensures not_closed { IfSome result.last (λ unit. IsBrokenBy Closed unit.reply → ⊥) }
    ensures abandoned { IfSome result.last (λ unit. IsBrokenBy Abandoned unit.reply
        → IsTrue (W.ends watcher.new)) }
    ensures order { IsNone result.last → Needs (H.state host.new)
        (IsInOrder administration.new.database administration.new.lists.lists) }
    ensures open { IsNone result.last → IsOpen diversions.now.ways administration.new }
    ensures indexed { IsNone result.last → IfSome administration.new.packages
        (ArePackagesOf administration.new.database.records) }
    ensures answered { IsNone result.last → IsAnswered (H.state host.old) (H.state host.new) }
    ensures watched { IsTold W.tells (H.state host.old) watcher.old result.units.items watcher.new }
{
    let alloc = administration.alloc;
    match selected_names(alloc, &administration.database) {
        Ok(names) => remove_named(
            host,
            administration,
            diversions,
            names,
            RemovalOptions {
                extents: Extents::Selected,
                ignore_depends,
            },
            watcher,
        ),
        Err(_) => no_memory(alloc),
    }
}

impl<H: Host> Session<H> {
    // The same, once the table of diversions was read.
    fn remove_read<W: Watcher>(&mut self, ignore_depends: bool, watcher: &mut W) -> Report
        requires { self.old.closed ≡ false }
        ensures whole { IsNone result.last
            → IsRemovalRun (selected_names self.old.administration.database.records) (removing Selected ignore_depends)
            result.units.items (held_by self.old.administration self.old.diversions)
            (held_by self.new.administration self.new.diversions) (H.state self.old.host)
            (H.state self.new.host) }
        ensures part { HasRun (selected_names self.old.administration.database.records) (removing Selected ignore_depends)
            result.units.items result.last (held_by self.old.administration self.old.diversions)
            (H.state self.old.host) (H.state self.new.host) }
        ensures told { TellsCalls (H.state self.old.host) (H.state self.new.host) result }
        ensures any_moment { Since (IsAmidRun (selected_names self.old.administration.database.records) (removing Selected ignore_depends)
            (held_by self.old.administration self.old.diversions) (H.state self.old.host))
            (H.state self.old.host) (H.state self.new.host) }
        ensures closes { self.new.closed ≡ is_some result.last }
        ensures answered { IsNone result.last
            → IsAnswered (H.state self.old.host) (H.state self.new.host) }
        ensures diversions { self.new.diversions ≡ self.old.diversions }
        ensures honest { Falls (H.state self.old.host) (H.state self.new.host) }
        ensures counts { CountsLast (H.state self.old.host)
            (H.state self.new.host) result.last }
        ensures not_closed { IfSome result.last (λ unit. IsBrokenBy Closed unit.reply → ⊥) }
        ensures abandoned { IfSome result.last (λ unit. IsBrokenBy Abandoned unit.reply
            → IsTrue (W.ends watcher.new)) }
        ensures watched { IsTold W.tells (H.state self.old.host) watcher.old result.units.items
            watcher.new }
    {
        let report = remove_going(
            &mut self.host,
            &mut self.administration,
            &self.diversions,
            ignore_depends,
            watcher,
        );
        self.closed = report.last.is_some();
        report
    }

    /// Removes each package of which that is wanted by its record, unless it is removed already, and purges each of which that is
    /// wanted. Its units are in the order that their relations ask for, and each is told as it is finished; one that is broken
    /// off closes the session. The table of diversions is read again first.
    pub fn remove_selected<W: Watcher>(&mut self, ignore_depends: bool, watcher: &mut W) -> Report
        ensures whole { self.old.closed ≡ false → IsNone result.last
            → BehindReading (λ h s. IsRemovalRun (selected_names h.records.records) (removing Selected ignore_depends) result.units.items h
            (held_by self.new.administration self.new.diversions) s (H.state self.new.host))
            (held_by self.old.administration self.old.diversions) (H.state self.old.host) }
        ensures part { self.old.closed ≡ false
            → IsUnread result.units.items result.last (H.state self.old.host)
            (H.state self.new.host) ⊎ BehindReading (λ h s. HasRun (selected_names h.records.records) (removing Selected ignore_depends) result.units.items
            result.last h s (H.state self.new.host))
            (held_by self.old.administration self.old.diversions) (H.state self.old.host) }
        ensures told { TellsCalls (H.state self.old.host) (H.state self.new.host) result }
        ensures any_moment { self.old.closed ≡ false
            → Since (IsAmidReading (λ h. IsAmidRun (selected_names h.records.records) (removing Selected ignore_depends) h)
            (held_by self.old.administration self.old.diversions) (H.state self.old.host))
            (H.state self.old.host) (H.state self.new.host) }
        ensures loss { self.old.closed ≡ false
            → LosesLikeAStop (IsAmidReading (λ h. IsAmidRun (selected_names h.records.records) (removing Selected ignore_depends) h)
            (held_by self.old.administration self.old.diversions) (H.state self.old.host))
            (H.state self.old.host) (H.state self.new.host) }
        ensures stands { self.old.closed ≡ false → IsNone result.last
            → StandsOnceAnswered (H.state self.old.host) (H.state self.new.host) }
        ensures closes { self.new.closed ≡ is_some result.last }
        ensures refused { self.old.closed ≡ true → IsClosedReport result }
        ensures same { self.old.closed ≡ true → H.state self.new.host ≡ H.state self.old.host }
        ensures same_held { self.old.closed ≡ true
            → held_by self.new.administration self.new.diversions
            ≡ held_by self.old.administration self.old.diversions }
        ensures answered { self.old.closed ≡ false → IsNone result.last
            → IsAnswered (H.state self.old.host) (H.state self.new.host) }
        ensures diversions { StaysWritable self.old.diversions self.new.diversions }
        ensures honest { Falls (H.state self.old.host) (H.state self.new.host) }
        ensures counts { self.old.closed ≡ false → CountsLast (H.state self.old.host)
            (H.state self.new.host) result.last }
        ensures not_closed { self.old.closed ≡ false
            → IfSome result.last (λ unit. IsBrokenBy Closed unit.reply → ⊥) }
        ensures abandoned { self.old.closed ≡ false
            → IfSome result.last (λ unit. IsBrokenBy Abandoned unit.reply
            → IsTrue (W.ends watcher.new)) }
        ensures watched { IsTold W.tells (H.state self.old.host) watcher.old result.units.items
            watcher.new }
    {
        if self.closed {
            return closed_report(self.administration.alloc);
        }
        match self.read_again() {
            Some(report) => report,
            None => self.remove_read(ignore_depends, watcher),
        }
    }
}
