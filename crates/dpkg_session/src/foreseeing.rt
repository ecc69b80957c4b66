// A session keeps the journal of activations that aren't taken in yet, and the files of interests.
ghost use Rattle.std.specs.Prelude.{◌≡◌, [], false, true, map, IfOk, IsOkAnd, MatchBool, OnOk};
ghost use Rattle.dpkg_session.specs.Activated.{change_by};
ghost use Rattle.dpkg_session.specs.PowerLoss.{LosesLikeAStop, StandsOnceAnswered};
ghost use Rattle.host_core.specs.Host.{AtEachMoment, Counts, Gives, Silent};
ghost use Rattle.host_core.specs.Looks.{Looks};
ghost use Rattle.host_core.specs.Loss.{IsAnswered};
ghost use Rattle.trigger_files.specs.Registered.{HasRegistered, IsRegistering};
ghost use Rattle.trigger_journal.specs.Asked.{asked_of};
ghost use Rattle.trigger_journal.specs.Requests.{requests_of};
ghost use Rattle.trigger_journal.specs.Writing.{IsAhead, IsCleared, IsClearing, IsUnwritten, IsWritingAhead};

use crate::session::Session;
use crate::watching::changes_by;
use host_core::{Host, HostFault};
use record_changes::RecordChange;
use trigger_files::write_interests;
use trigger_journal::{Request, clear, read_asked, read_requests, write_ahead};

impl<H: Host> Session<H> {
    /// What the journal asks for: triggers that a command which was stopped may have activated, and those that scripts asked for by
    /// dpkg-trigger. The session only looks, and stays open whatever came of it; a closed one doesn't look, and finds nothing.
    pub fn requested_triggers(&mut self) -> Result<Vec<Request>, HostFault>
        ensures looks { self.old.closed ≡ false → Looks result
            (λ requests w. requests.items ≡ requests_of w) (H.state self.old.host)
            (H.state self.new.host) }
        ensures refused { self.old.closed ≡ true
            → IsOkAnd result (λ requests. requests.items ≡ []) }
        ensures same { self.old.closed ≡ true → H.state self.new.host ≡ H.state self.old.host }
        ensures held { self.new.administration ≡ self.old.administration }
        ensures diversions { self.new.diversions ≡ self.old.diversions }
        ensures closes { self.new.closed ≡ self.old.closed }
    {
        let alloc = self.administration.alloc;
        if self.closed {
            return Ok(Vec::new(alloc));
        }
        read_requests(alloc, &mut self.host)
    }

    /// Writes ahead of units: a line in the journal for each trigger in which a package with files is interested, so that a stop
    /// amid the units loses no activation. It stands on the disk then; or something is in the way, which is answered by false. The
    /// session stays open whatever came of it; a closed one does nothing.
    pub fn foresee_triggers(&mut self) -> Result<bool, HostFault>
        ensures ahead { self.old.closed ≡ false → Gives result (λ written old new. MatchBool written
            (IsAhead self.old.administration.database.records old new) (IsUnwritten old new))
            (H.state self.old.host) (H.state self.new.host) }
        ensures any_moment { self.old.closed ≡ false
            → AtEachMoment (IsWritingAhead self.old.administration.database.records)
            (H.state self.old.host) (H.state self.new.host) }
        ensures loss { self.old.closed ≡ false
            → LosesLikeAStop (λ so_far. IsWritingAhead self.old.administration.database.records
            (H.state self.old.host).world) (H.state self.old.host) (H.state self.new.host) }
        ensures on_disk { self.old.closed ≡ false → IfOk result (λ written. MatchBool written
            (IsAnswered (H.state self.old.host) (H.state self.new.host)) (Unit {0})) }
        ensures stands { self.old.closed ≡ false → IfOk result (λ written. MatchBool written
            (StandsOnceAnswered (H.state self.old.host) (H.state self.new.host)) (Unit {0})) }
        ensures refused { self.old.closed ≡ true → IsOkAnd result (λ written. written ≡ false) }
        ensures same { self.old.closed ≡ true → H.state self.new.host ≡ H.state self.old.host }
        ensures held { self.new.administration ≡ self.old.administration }
        ensures diversions { self.new.diversions ≡ self.old.diversions }
        ensures silent { self.old.closed ≡ false → Silent (H.state self.old.host)
            (H.state self.new.host) }
        ensures counts { self.old.closed ≡ false → Counts (H.state self.old.host)
            (H.state self.new.host) result }
        ensures closes { self.new.closed ≡ self.old.closed }
    {
        if self.closed {
            return Ok(false);
        }
        write_ahead(
            self.administration.alloc,
            &mut self.host,
            &self.administration.database,
        )
    }

    /// What is to be changed of records (`change`), so that each package that is installed now processes the triggers of its interests
    /// that are asked for: by requests that were found before the units, or by others in the journal now. The session only looks, and
    /// stays open whatever came of it; a closed one doesn't look, and nothing is to be changed then.
    pub fn asked_changes(&mut self, found: &[Request]) -> Result<Vec<RecordChange>, HostFault>
        ensures looks { self.old.closed ≡ false → Looks result
            (λ changes w. changes.items ≡ map change_by
            (asked_of w self.old.administration.database.records found.now))
            (H.state self.old.host) (H.state self.new.host) }
        ensures refused { self.old.closed ≡ true
            → IsOkAnd result (λ changes. changes.items ≡ []) }
        ensures same { self.old.closed ≡ true → H.state self.new.host ≡ H.state self.old.host }
        ensures held { self.new.administration ≡ self.old.administration }
        ensures diversions { self.new.diversions ≡ self.old.diversions }
        ensures closes { self.new.closed ≡ self.old.closed }
    {
        let alloc = self.administration.alloc;
        if self.closed {
            return Ok(Vec::new(alloc));
        }
        match read_asked(alloc, &mut self.host, &self.administration.database, found) {
            Ok(asked) => Ok(changes_by(alloc, asked)?),
            Err(fault) => Err(fault),
        }
    }

    /// Leaves an empty journal, once what it asked for is noted. That stands on the disk then; or something is in the way, which is
    /// answered by false. The session stays open whatever came of it; a closed one does nothing.
    pub fn clear_triggers(&mut self) -> Result<bool, HostFault>
        ensures cleared { self.old.closed ≡ false → Gives result (λ written old new.
            MatchBool written (IsCleared old new) (IsUnwritten old new)) (H.state self.old.host)
            (H.state self.new.host) }
        ensures any_moment { self.old.closed ≡ false → AtEachMoment IsClearing
            (H.state self.old.host) (H.state self.new.host) }
        ensures loss { self.old.closed ≡ false
            → LosesLikeAStop (λ so_far. IsClearing (H.state self.old.host).world)
            (H.state self.old.host) (H.state self.new.host) }
        ensures on_disk { self.old.closed ≡ false → IfOk result (λ written. MatchBool written
            (IsAnswered (H.state self.old.host) (H.state self.new.host)) (Unit {0})) }
        ensures stands { self.old.closed ≡ false → IfOk result (λ written. MatchBool written
            (StandsOnceAnswered (H.state self.old.host) (H.state self.new.host)) (Unit {0})) }
        ensures refused { self.old.closed ≡ true → IsOkAnd result (λ written. written ≡ false) }
        ensures same { self.old.closed ≡ true → H.state self.new.host ≡ H.state self.old.host }
        ensures held { self.new.administration ≡ self.old.administration }
        ensures diversions { self.new.diversions ≡ self.old.diversions }
        ensures silent { self.old.closed ≡ false → Silent (H.state self.old.host)
            (H.state self.new.host) }
        ensures counts { self.old.closed ≡ false → Counts (H.state self.old.host)
            (H.state self.new.host) result }
        ensures closes { self.new.closed ≡ self.old.closed }
    {
        if self.closed {
            return Ok(false);
        }
        clear(self.administration.alloc, &mut self.host)
    }

    /// Brings the files by which dpkg knows who is interested in which trigger to the interests of the packages with files. They stand
    /// on the disk then; what is in the way of one is left alone, which is answered by false. The session stays open whatever came of
    /// it; a closed one does nothing.
    pub fn register_triggers(&mut self) -> Result<bool, HostFault>
        ensures registered { self.old.closed ≡ false → Gives result
            (HasRegistered self.old.administration.database.records) (H.state self.old.host)
            (H.state self.new.host) }
        ensures any_moment { self.old.closed ≡ false
            → AtEachMoment (IsRegistering self.old.administration.database.records)
            (H.state self.old.host) (H.state self.new.host) }
        ensures loss { self.old.closed ≡ false
            → LosesLikeAStop (λ so_far. IsRegistering self.old.administration.database.records
            (H.state self.old.host).world) (H.state self.old.host) (H.state self.new.host) }
        ensures on_disk { self.old.closed ≡ false → OnOk result
            (IsAnswered (H.state self.old.host) (H.state self.new.host)) }
        ensures stands { self.old.closed ≡ false → OnOk result
            (StandsOnceAnswered (H.state self.old.host) (H.state self.new.host)) }
        ensures refused { self.old.closed ≡ true → IsOkAnd result (λ free. free ≡ false) }
        ensures same { self.old.closed ≡ true → H.state self.new.host ≡ H.state self.old.host }
        ensures held { self.new.administration ≡ self.old.administration }
        ensures diversions { self.new.diversions ≡ self.old.diversions }
        ensures silent { self.old.closed ≡ false → Silent (H.state self.old.host)
            (H.state self.new.host) }
        ensures counts { self.old.closed ≡ false → Counts (H.state self.old.host)
            (H.state self.new.host) result }
        ensures closes { self.new.closed ≡ self.old.closed }
    {
        if self.closed {
            return Ok(false);
        }
        write_interests(
            self.administration.alloc,
            &mut self.host,
            &self.administration.database,
        )
    }
}
