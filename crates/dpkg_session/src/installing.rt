// A session unpacks trees, and then configures the packages that were unpacked, and those deconfigured for them.
ghost use Rattle.std.specs.Prelude.{◌≡◌, ◌⊎◌, ◌++◌, List, true, false, None, IfSome, IsNone, IsTrue, is_some};
ghost use Rattle.configure_run.specs.Run.{IsConfigureRun, HasRun as HasConfigured, IsAmidRun as IsAmidConfigure};
ghost use Rattle.held_administration.specs.Open.{IsOpen};
ghost use Rattle.host_core.specs.Host.{Falls, Needs, Since};
ghost use Rattle.host_core.specs.Loss.{IsAnswered};
ghost use Rattle.recorded_packages.specs.Packages.{ArePackagesOf};
ghost use Rattle.held_administration.specs.Order.{IsInOrder};
ghost use Rattle.unit_reports.specs.Held.{held_by};
ghost use Rattle.unit_reports.specs.Units.{CountsLast, IsBrokenBy, IsClosedReport, TellsCalls};
ghost use Rattle.unit_reports.specs.Watching.{IsTold};
ghost use Rattle.unit_reports.specs.declared.report.Breakage.TheVariants.{Abandoned, Closed};
ghost use Rattle.dpkg_session.specs.Growth.{StaysWritable};
ghost use Rattle.dpkg_session.specs.Installs.{HasInstalledThrough, IsEmptyReport, TellsBoth, last_of, names_done};
ghost use Rattle.dpkg_session.specs.PowerLoss.{StandsOnceAnswered};
ghost use Rattle.dpkg_session.specs.Rereading.{BehindReading, IsAmidReading, IsUnread};
ghost use Rattle.dpkg_session.specs.Trees.{AreRead};
ghost use Rattle.dpkg_session.specs.declared.report.Candidate.{Candidate as ACandidate};

use crate::configuring::configure_named;
use crate::done::names_done;
use crate::rereading::read_before;
use crate::session::{Session, closed_report};
use crate::table_units::no_memory;
use crate::trees::Trees;
use crate::unpacks::unpack_trees;
use configure_run::ConfigureOptions;
use diversions::Diversions;
use held_administration::Administration;
use host_core::Host;
use std::alloc::Global;
use texts::{Text, Texts};
use unit_reports::{Report, Unit, Watcher, what_is_told_in_turn};
use unpack_relations::UnpackOptions;

/// What an install answers: the report of its unpacks, and that of what was configured then; nothing, where an unpack was
/// broken off.
#[derive(Drop)]
pub struct Installed {
    pub unpacked: Report,
    pub configured: Report,
}

impl Installed {
    fn is_broken(&self) -> bool
        ensures { result ≡ is_some (last_of self.now.unpacked.last self.now.configured.last) }
    {
        self.unpacked.last.is_some() || self.configured.last.is_some()
    }
}

fn empty_report(alloc: Global) -> Report
    ensures { IsEmptyReport result }
{
    Report {
        units: Vec::new(alloc),
        last: None,
    }
}

// Configures the packages of these names whose units answered Done.
fn configure_done_read<H: Host, W: Watcher>(
    host: &mut H,
    administration: &mut Administration,
    diversions: &Diversions,
    labels: &[Text],
    units: &[Unit],
    options: ConfigureOptions,
    watcher: &mut W,
) -> Report
    requires order { Needs (H.state host.old)
        (IsInOrder administration.old.database administration.old.lists.lists) }
    requires open { IsOpen diversions.now.ways administration.old }
    requires indexed { IfSome administration.old.packages
        (ArePackagesOf administration.old.database.records) }
    ensures whole { IsNone result.last → IsConfigureRun (names_done labels.now units.now) options
        result.units.items (held_by administration.old diversions.now)
        (held_by administration.new diversions.now) (H.state host.old) (H.state host.new) }
    ensures part { HasConfigured (names_done labels.now units.now) options result.units.items
        result.last (held_by administration.old diversions.now) (H.state host.old)
        (H.state host.new) }
    ensures told { TellsCalls (H.state host.old) (H.state host.new) result }
    ensures any_moment { Since (IsAmidConfigure (names_done labels.now units.now) options
        (held_by administration.old diversions.now) (H.state host.old)) (H.state host.old)
        (H.state host.new) }
    ensures answered { IsNone result.last → IsAnswered (H.state host.old) (H.state host.new) }
    ensures counts { CountsLast (H.state host.old) (H.state host.new) result.last }
    ensures not_closed { IfSome result.last (λ unit. IsBrokenBy Closed unit.reply → ⊥) }
    ensures abandoned { IfSome result.last (λ unit. IsBrokenBy Abandoned unit.reply
        → IsTrue (W.ends watcher.new)) }
    ensures order { IsNone result.last → Needs (H.state host.new)
        (IsInOrder administration.new.database administration.new.lists.lists) }
    ensures open { IsNone result.last → IsOpen diversions.now.ways administration.new }
    ensures indexed { IsNone result.last → IfSome administration.new.packages
        (ArePackagesOf administration.new.database.records) }
    ensures watched { IsTold W.tells (H.state host.old) watcher.old result.units.items watcher.new }
{
    let alloc = administration.alloc;
    match names_done(alloc, labels, units) {
        Ok(names) => {
            return configure_named(host, administration, diversions, names, options, watcher);
        }
        Err(_) => {
            return no_memory(alloc);
        }
    }
}

// The same once the table of diversions was read again.
fn configure_done<H: Host, W: Watcher>(
    host: &mut H,
    administration: &mut Administration,
    diversions: &mut Diversions,
    labels: &[Text],
    units: &[Unit],
    options: ConfigureOptions,
    watcher: &mut W,
) -> Report
    requires order { Needs (H.state host.old)
        (IsInOrder administration.old.database administration.old.lists.lists) }
    requires open { IsOpen diversions.old.ways administration.old }
    requires indexed { IfSome administration.old.packages
        (ArePackagesOf administration.old.database.records) }
    ensures whole { IsNone result.last → BehindReading (λ h s. IsConfigureRun
        (names_done labels.now units.now) options result.units.items h
        (held_by administration.new diversions.new) s (H.state host.new))
        (held_by administration.old diversions.old) (H.state host.old) }
    ensures part { IsUnread result.units.items result.last (H.state host.old) (H.state host.new)
        ⊎ BehindReading (λ h s. HasConfigured (names_done labels.now units.now) options
        result.units.items result.last h s (H.state host.new))
        (held_by administration.old diversions.old) (H.state host.old) }
    ensures told { TellsCalls (H.state host.old) (H.state host.new) result }
    ensures any_moment { Since (IsAmidReading
        (λ h. IsAmidConfigure (names_done labels.now units.now) options h)
        (held_by administration.old diversions.old) (H.state host.old)) (H.state host.old)
        (H.state host.new) }
    ensures answered { IsNone result.last → IsAnswered (H.state host.old) (H.state host.new) }
    ensures counts { CountsLast (H.state host.old) (H.state host.new) result.last }
    ensures not_closed { IfSome result.last (λ unit. IsBrokenBy Closed unit.reply → ⊥) }
    ensures abandoned { IfSome result.last (λ unit. IsBrokenBy Abandoned unit.reply
        → IsTrue (W.ends watcher.new)) }
    ensures order { IsNone result.last → Needs (H.state host.new)
        (IsInOrder administration.new.database administration.new.lists.lists) }
    ensures open { IsNone result.last → IsOpen diversions.new.ways administration.new }
    ensures indexed { IsNone result.last → IfSome administration.new.packages
        (ArePackagesOf administration.new.database.records) }
    ensures writable { StaysWritable diversions.old diversions.new }
    ensures watched { IsTold W.tells (H.state host.old) watcher.old result.units.items watcher.new }
{
    match read_before(host, administration, diversions) {
        Some(report) => report,
        None => configure_done_read(
            host,
            administration,
            diversions,
            labels,
            units,
            options,
            watcher,
        ),
    }
}

// The unpacks, and then what is configured.
fn unpack_and_configure<H: Host, T: Trees, W: Watcher>(
    host: &mut H,
    administration: &mut Administration,
    diversions: &mut Diversions,
    trees: &mut T,
    allowed: UnpackOptions,
    options: ConfigureOptions,
    watcher: &mut W,
) -> Installed
    requires order { Needs (H.state host.old)
        (IsInOrder administration.old.database administration.old.lists.lists) }
    requires open { IsOpen diversions.old.ways administration.old }
    requires indexed { IfSome administration.old.packages
        (ArePackagesOf administration.old.database.records) }
    ensures run { (cs : List ACandidate) × AreRead T.reads trees.old cs trees.new
        × HasInstalledThrough allowed cs (T.words trees.new) options result.unpacked
        result.configured (held_by administration.old diversions.old)
        (held_by administration.new diversions.new) (H.state host.old) (H.state host.new) }
    ensures writable { StaysWritable diversions.old diversions.new }
    ensures told { TellsBoth (H.state host.old) (H.state host.new) result.unpacked
        result.configured }
    ensures answered { IsNone (last_of result.unpacked.last result.configured.last)
        → IsAnswered (H.state host.old) (H.state host.new) }
    ensures counts { CountsLast (H.state host.old) (H.state host.new) (last_of result.unpacked.last
        result.configured.last) }
    ensures not_closed { IfSome (last_of result.unpacked.last result.configured.last)
        (λ unit. IsBrokenBy Closed unit.reply → ⊥) }
    ensures abandoned { IfSome (last_of result.unpacked.last result.configured.last)
        (λ unit. IsBrokenBy Abandoned unit.reply → IsTrue (W.ends watcher.new)) }
    ensures order { IsNone (last_of result.unpacked.last result.configured.last)
        → Needs (H.state host.new)
        (IsInOrder administration.new.database administration.new.lists.lists) }
    ensures open { IsNone (last_of result.unpacked.last result.configured.last)
        → IsOpen diversions.new.ways administration.new }
    ensures indexed { IsNone (last_of result.unpacked.last result.configured.last)
        → IfSome administration.new.packages (ArePackagesOf administration.new.database.records) }
    ensures watched { IsTold W.tells (H.state host.old) watcher.old
        (result.unpacked.units.items ++ result.configured.units.items) watcher.new }
{
    what_is_told_in_turn::<W>();
    let alloc = administration.alloc;
    let mut labels = Texts::new(alloc);
    let unpacked = unpack_trees(
        host,
        administration,
        diversions,
        trees,
        allowed,
        &mut labels,
        watcher,
    );
    if unpacked.last.is_some() {
        return Installed {
            unpacked,
            configured: empty_report(alloc),
        };
    }
    let configured = configure_done(
        host,
        administration,
        diversions,
        labels.as_slice(),
        unpacked.units.as_slice(),
        options,
        watcher,
    );
    Installed {
        unpacked,
        configured,
    }
}

impl<H: Host> Session<H> {
    /// Unpacks trees, and then configures the packages that were unpacked, and those deconfigured for them, where no unpack was
    /// broken off. A unit that is broken off closes the session. Each tree is read once the unit of the one before it is told to
    /// the watcher; the unit that was broken off isn't told.
    pub fn install<T: Trees, W: Watcher>(
        &mut self,
        trees: &mut T,
        allowed: UnpackOptions,
        options: ConfigureOptions,
        watcher: &mut W,
    ) -> Installed
        ensures run { self.old.closed ≡ false → (cs : List ACandidate) × AreRead T.reads trees.old
            cs trees.new × HasInstalledThrough allowed cs (T.words trees.new) options
            result.unpacked result.configured (held_by self.old.administration self.old.diversions)
            (held_by self.new.administration self.new.diversions) (H.state self.old.host)
            (H.state self.new.host) }
        ensures told { TellsBoth (H.state self.old.host) (H.state self.new.host) result.unpacked
            result.configured }
        ensures watched { IsTold W.tells (H.state self.old.host) watcher.old
            (result.unpacked.units.items ++ result.configured.units.items) watcher.new }
        ensures stands { self.old.closed ≡ false
            → IsNone (last_of result.unpacked.last result.configured.last)
            → StandsOnceAnswered (H.state self.old.host) (H.state self.new.host) }
        ensures closes { self.new.closed ≡ is_some (last_of result.unpacked.last
            result.configured.last) }
        ensures refused { self.old.closed ≡ true → IsClosedReport result.unpacked
            × IsEmptyReport result.configured }
        ensures unread { self.old.closed ≡ true → trees.new ≡ trees.old }
        ensures same { self.old.closed ≡ true → H.state self.new.host ≡ H.state self.old.host }
        ensures same_held { self.old.closed ≡ true
            → held_by self.new.administration self.new.diversions
            ≡ held_by self.old.administration self.old.diversions }
        ensures answered { self.old.closed ≡ false
            → IsNone (last_of result.unpacked.last result.configured.last)
            → IsAnswered (H.state self.old.host) (H.state self.new.host) }
        ensures diversions { StaysWritable self.old.diversions self.new.diversions }
        ensures honest { Falls (H.state self.old.host) (H.state self.new.host) }
        ensures counts { self.old.closed ≡ false → CountsLast (H.state self.old.host)
            (H.state self.new.host) (last_of result.unpacked.last result.configured.last) }
        ensures not_closed { self.old.closed ≡ false
            → IfSome (last_of result.unpacked.last result.configured.last)
            (λ unit. IsBrokenBy Closed unit.reply → ⊥) }
        ensures abandoned { self.old.closed ≡ false
            → IfSome (last_of result.unpacked.last result.configured.last)
            (λ unit. IsBrokenBy Abandoned unit.reply → IsTrue (W.ends watcher.new)) }
    {
        if self.closed {
            return Installed {
                unpacked: closed_report(self.administration.alloc),
                configured: empty_report(self.administration.alloc),
            };
        }
        let installed = unpack_and_configure(
            &mut self.host,
            &mut self.administration,
            &mut self.diversions,
            trees,
            allowed,
            options,
            watcher,
        );
        self.closed = installed.is_broken();
        installed
    }
}
