// A session over one host.
ghost use Rattle.std.specs.Prelude.{◌≡◌, List, true, false, IsTrue, IsNone, OnOk, IfOk, IfErr, IfSome, is_some, Some, None};
ghost use Rattle.std.specs.Option.{ForSome};
ghost use Rattle.host_core.specs.Host.{AtEachMoment, Falls, Gives, Needs, Silent, NoFault};
ghost use Rattle.host_core.specs.Loss.{IsAnswered, IsOnDisk};
ghost use Rattle.administration.specs.Fault.{CountsAdministration};
ghost use Rattle.held_administration.specs.Open.{IsOpen};
ghost use Rattle.opening.specs.Opened.{IsOpened};
ghost use Rattle.opening.specs.Parts.{fault_in};
ghost use Rattle.opening.specs.Stopped.{AfterAStop, BeginsOnDisk, BeginsOnDiskIfAtAll, IsBrought};
ghost use Rattle.opening.specs.TakenUp.{IsOpeningOrAdopting, IsTakenUp, OpensAndAdopts};
ghost use Rattle.recorded_packages.specs.Packages.{ArePackagesOf};
ghost use Rattle.unit_reports.specs.Held.{held_by};
ghost use Rattle.unit_reports.specs.declared.report.Breakage.TheVariants.{Abandoned, Closed};
ghost use Rattle.dpkg_session.specs.Growth.{StaysWritable};
ghost use Rattle.dpkg_session.specs.PowerLoss.{LosesLikeAStop, StandsOnceAnswered};
ghost use Rattle.dpkg_session.specs.Run.{HasRunThrough};
ghost use Rattle.dpkg_session.specs.Standing.{CountsRefusal, IsStanding, OpensAll, TakesUpAll};
ghost use Rattle.dpkg_session.specs.Trees.{AreRead};
ghost use Rattle.dpkg_session.specs.declared.report.Candidate.{Candidate as ACandidate};
ghost use Rattle.unit_reports.specs.Units.{CountsLast, IsBrokenBy, IsClosedReport, TellsCalls};
ghost use Rattle.unit_reports.specs.Watching.{IsTold};

use crate::trees::Trees;
use crate::unpacks::unpack_trees;
use administration::AdministrationFault;
use diversions::Diversions;
use held_administration::Administration;
use host_core::Host;
use opening::{Opened, open_adopted};
use std::alloc::Global;
use texts::Texts;
use unit_reports::{Breakage, Report, Watcher, broken};
use unpack_relations::UnpackOptions;

/// A root whose administration is open. After a unit that was broken off it is closed. A running
/// script leaves alone the places of all listed paths, which are computed anew as lists or
/// diversions change. What the recorded packages state of others is read once, by the first
/// command that asks for it, and then brought up to date.
pub struct Session<H: Host> {
    pub(crate) host: H,
    pub(crate) administration: Administration,
    pub(crate) diversions: Diversions,
    pub(crate) closed: bool,
    pub ghost ready: { closed ≡ false → Needs (H.state host) (IsStanding (held_by administration diversions)) },
    pub ghost opened: { closed ≡ false → IsOpen diversions.ways administration },
    pub ghost indexed: { closed ≡ false → ForSome administration.packages (λ p. ∥ ArePackagesOf administration.database.records p ∥₁) },
    pub ghost writable: { closed ≡ false → diversions.closed ≡ false },
}

// Opens the administration with the aliases of its root and what another program left unsettled, and brings all that was done to the
// disk.
fn open_to_disk<H: Host>(alloc: Global, host: &mut H) -> Result<Opened, AdministrationFault>
    ensures opens { IsTrue (H.state host.new).honest → OpensAndAdopts (fault_in result)
        (H.state host.old).world (H.state host.new).world }
    ensures opened { Gives result (λ opened old new. IsOpened opened.database.records
        opened.lists.lists opened.diversions.ways.entries new) (H.state host.old)
        (H.state host.new) }
    ensures taken_up { Gives result (λ opened old new. IsTakenUp opened.database.records
        opened.lists.lists opened.diversions.ways old new) (H.state host.old) (H.state host.new) }
    ensures number { IfOk result (λ opened. opened.database.notes ≡ 0) }
    ensures noting { IfOk result (λ opened. opened.database.closed ≡ false) }
    ensures listing { IfOk result (λ opened. opened.lists.closed ≡ false) }
    ensures writable { IfOk result (λ opened. opened.diversions.closed ≡ false) }
    ensures on_disk { OnOk result (IsOnDisk (H.state host.new).events) }
    ensures any_moment { AtEachMoment IsOpeningOrAdopting (H.state host.old) (H.state host.new) }
    ensures silent { Silent (H.state host.old) (H.state host.new) }
    ensures counts { CountsAdministration (H.state host.old) (H.state host.new) result }
    ensures brought { AfterAStop (IsBrought result) (H.state host.old) (H.state host.new) }
{
    match open_adopted(alloc, host) {
        Ok(opened) => match host.barrier() {
            Ok(()) => Ok(opened),
            Err(fault) => Err(AdministrationFault::from(fault)),
        },
        Err(fault) => Err(fault),
    }
}

// The answer of a session that is closed.
pub(crate) fn closed_report(alloc: Global) -> Report
    ensures { IsClosedReport result }
{
    Report {
        units: Vec::new(alloc),
        last: Some(broken(alloc, Vec::new(alloc), Breakage::Closed)),
    }
}

impl<H: Host> Session<H> {
    /// Opens the administration of a host. The aliases of its root are read; units add to them. Conffiles
    /// that another program unpacked and didn't settle are taken up (`taken_up`). A
    /// refusal hands the host back; it and what was changed then are told by `refused`.
    pub fn open(alloc: Global, mut host: H) -> Result<Session<H>, (H, AdministrationFault)>
        ensures opened { IfOk result (λ s. Needs (H.state s.host)
            (IsOpened s.administration.database.records s.administration.lists.lists
            s.diversions.ways.entries)) }
        ensures taken_up { IfOk result (λ s. TakesUpAll s.administration.database.records
            s.administration.lists.lists s.diversions.ways (H.state host) (H.state s.host)) }
        ensures number { IfOk result (λ s. s.administration.database.notes ≡ 0) }
        ensures opens { IfOk result (λ s. OpensAll None (H.state host) (H.state s.host)) }
        ensures refused { IfErr result (λ e. OpensAll (Some e.1) (H.state host) (H.state e.0)) }
        ensures any_moment { IfOk result (λ s. AtEachMoment IsOpeningOrAdopting (H.state host)
            (H.state s.host)) }
        ensures any_moment_refused { IfErr result (λ e. AtEachMoment IsOpeningOrAdopting
            (H.state host) (H.state e.0)) }
        ensures loss { IfOk result
            (λ s. LosesLikeAStop (λ so_far. IsOpeningOrAdopting (H.state host).world) (H.state host)
            (H.state s.host)) }
        ensures loss_refused { IfErr result (λ e. LosesLikeAStop (λ so_far. IsOpeningOrAdopting
            (H.state host).world) (H.state host) (H.state e.0)) }
        ensures silent { IfOk result (λ s. Silent (H.state host) (H.state s.host)) }
        ensures silent_refused { IfErr result (λ e. Silent (H.state host) (H.state e.0)) }
        ensures no_fault { IfOk result (λ s. NoFault (H.state host) (H.state s.host)) }
        ensures counts { IfErr result (λ e. CountsRefusal e.1 (H.state host) (H.state e.0)) }
        ensures brought { IfOk result (λ s. AfterAStop BeginsOnDisk (H.state host)
            (H.state s.host)) }
        ensures brought_refused { IfErr result (λ e. AfterAStop BeginsOnDiskIfAtAll (H.state host)
            (H.state e.0)) }
        ensures closed { IfOk result (λ s. s.closed ≡ false) }
        ensures on_disk { IfOk result (λ s. IsOnDisk (H.state s.host).events) }
    {
        match open_to_disk(alloc, &mut host) {
            Ok(
                Opened {
                    database,
                    lists,
                    diversions,
                },
            ) => match lists.places(alloc, &diversions) {
                Ok(places) => Ok(Session {
                    host,
                    administration: Administration {
                        alloc,
                        database,
                        packages: None,
                        lists,
                        places,
                    },
                    diversions,
                    closed: false,
                }),
                Err(_) => Err((host, AdministrationFault::NoMemory)),
            },
            Err(fault) => Err((host, fault)),
        }
    }

    /// Unpacks trees: their units in order, up to one that is broken off, which closes the session. Each tree is read once the
    /// unit of the one before it is told to the watcher; the unit that was broken off isn't told.
    pub fn run<T: Trees, W: Watcher>(
        &mut self,
        trees: &mut T,
        allowed: UnpackOptions,
        watcher: &mut W,
    ) -> Report
        ensures run { self.old.closed ≡ false → (cs : List ACandidate) × AreRead T.reads trees.old
            cs trees.new × HasRunThrough allowed cs (T.words trees.new) result
            (held_by self.old.administration self.old.diversions)
            (held_by self.new.administration self.new.diversions) (H.state self.old.host)
            (H.state self.new.host) }
        ensures told { TellsCalls (H.state self.old.host) (H.state self.new.host) result }
        ensures watched { IsTold W.tells (H.state self.old.host) watcher.old result.units.items
            watcher.new }
        ensures stands { self.old.closed ≡ false → IsNone result.last
            → StandsOnceAnswered (H.state self.old.host) (H.state self.new.host) }
        ensures closes { self.new.closed ≡ is_some result.last }
        ensures refused { self.old.closed ≡ true → IsClosedReport result }
        ensures unread { self.old.closed ≡ true → trees.new ≡ trees.old }
        ensures same { self.old.closed ≡ true → H.state self.new.host ≡ H.state self.old.host }
        ensures same_held { self.old.closed ≡ true
            → held_by self.new.administration self.new.diversions
            ≡ held_by self.old.administration self.old.diversions }
        ensures answered { self.old.closed ≡ false → IsNone result.last
            → IsAnswered (H.state self.old.host) (H.state self.new.host) }
        ensures diversions { StaysWritable self.old.diversions self.new.diversions }
        ensures honest { Falls (H.state self.old.host) (H.state self.new.host) }
        ensures counts { self.old.closed ≡ false → CountsLast (H.state self.old.host)
            (H.state self.new.host) result.last }
        ensures not_closed { self.old.closed ≡ false
            → IfSome result.last (λ unit. IsBrokenBy Closed unit.reply → ⊥) }
        ensures abandoned { self.old.closed ≡ false
            → IfSome result.last (λ unit. IsBrokenBy Abandoned unit.reply
            → IsTrue (W.ends watcher.new)) }
    {
        if self.closed {
            return closed_report(self.administration.alloc);
        }
        let mut labels = Texts::new(self.administration.alloc);
        let report = unpack_trees(
            &mut self.host,
            &mut self.administration,
            &mut self.diversions,
            trees,
            allowed,
            &mut labels,
            watcher,
        );
        self.closed = report.last.is_some();
        report
    }

    /// The host, as the session left it.
    pub fn into_host(self) -> H
        ensures { result ≡ self.host }
    {
        let Session {
            host,
            administration: _administration,
            diversions: _diversions,
            closed: _,
        } = self;
        host
    }
}
