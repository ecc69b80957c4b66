// The end of a command: what was noted is merged into the status file.
ghost use Rattle.std.specs.Prelude.{◌≡◌, ◌<◌, false, IsOk, OnOk, is_err};
ghost use Rattle.host_core.specs.Host.{AtEachMoment, Counts, Leaves, Needs, Silent};
ghost use Rattle.host_core.specs.Loss.{IsAnswered};
ghost use Rattle.status_db.specs.Held.{IsKept};
ghost use Rattle.status_db.specs.Noting.{AreMerged, AreNoted, IsMerging};
ghost use Rattle.unit_reports.specs.Held.{held_by};
ghost use Rattle.dpkg_session.specs.Checkpoints.{host_fault, merged};
ghost use Rattle.dpkg_session.specs.PowerLoss.{LosesLikeAStop, StandsOnceAnswered};

use crate::session::Session;
use host_core::{Host, HostFault};
use status_db::{NotedDatabase, RecordFault};
use std::alloc::Global;

fn host_fault(fault: RecordFault) -> HostFault
    ensures { result ≡ host_fault fault }
{
    match fault {
        RecordFault::Device => HostFault::Device,
        RecordFault::NoMemory => HostFault::NoMemory,
        RecordFault::Declined => HostFault::Declined,
        RecordFault::Closed => HostFault::NoMemory,
    }
}

// Merges the notes into the status file, if there are any, and brings that to the disk.
fn merge_to_disk<H: Host>(
    alloc: Global,
    host: &mut H,
    database: &mut NotedDatabase,
) -> Result<(), HostFault>
    requires kept { Needs (H.state host.old) (IsKept database.old) }
    requires open { database.old.closed ≡ false }
    ensures merged { Leaves result (AreNoted database.old.records 0) (H.state host.old)
        (H.state host.new) }
    ensures written { 0 < database.old.notes → Leaves result (AreMerged database.old.records)
        (H.state host.old) (H.state host.new) }
    ensures none { database.old.notes ≡ 0 → H.state host.new ≡ H.state host.old }
    ensures fine { database.old.notes ≡ 0 → IsOk result }
    ensures records { database.new.records ≡ database.old.records }
    ensures number { OnOk result (database.new.notes ≡ 0) }
    ensures opened { OnOk result (database.new.closed ≡ false) }
    ensures answered { OnOk result (IsAnswered (H.state host.old) (H.state host.new)) }
    ensures any_moment { AtEachMoment (IsMerging database.old.records) (H.state host.old)
        (H.state host.new) }
    ensures silent { Silent (H.state host.old) (H.state host.new) }
    ensures counts { Counts (H.state host.old) (H.state host.new) result }
{
    if !database.has_notes() {
        return Ok(());
    }
    match database.checkpoint(alloc, host) {
        Ok(()) => {
            host.barrier()?;
            Ok(())
        }
        Err(fault) => Err(host_fault(fault)),
    }
}

impl<H: Host> Session<H> {
    /// Ends a command: merges the notes into the status file, and brings that to the disk; where there
    /// are none, nothing is done. A fault closes the session, and the next opening merges what is left.
    pub fn checkpoint(&mut self) -> Result<(), HostFault>
        requires { self.old.closed ≡ false }
        ensures merged { Leaves result (AreNoted self.old.administration.database.records 0)
            (H.state self.old.host) (H.state self.new.host) }
        ensures written { 0 < self.old.administration.database.notes → Leaves result
            (AreMerged self.old.administration.database.records) (H.state self.old.host)
            (H.state self.new.host) }
        ensures none { self.old.administration.database.notes ≡ 0
            → H.state self.new.host ≡ H.state self.old.host }
        ensures fine { self.old.administration.database.notes ≡ 0 → IsOk result }
        ensures held { OnOk result (held_by self.new.administration self.new.diversions
            ≡ merged (held_by self.old.administration self.old.diversions)) }
        ensures records { self.new.administration.database.records
            ≡ self.old.administration.database.records }
        ensures lists { self.new.administration.lists ≡ self.old.administration.lists }
        ensures diversions { self.new.diversions ≡ self.old.diversions }
        ensures any_moment { AtEachMoment (IsMerging self.old.administration.database.records)
            (H.state self.old.host) (H.state self.new.host) }
        ensures loss { LosesLikeAStop (λ so_far. IsMerging self.old.administration.database.records
            (H.state self.old.host).world) (H.state self.old.host) (H.state self.new.host) }
        ensures answered { OnOk result (IsAnswered (H.state self.old.host)
            (H.state self.new.host)) }
        ensures stands { OnOk result (StandsOnceAnswered (H.state self.old.host)
            (H.state self.new.host)) }
        ensures silent { Silent (H.state self.old.host) (H.state self.new.host) }
        ensures counts { Counts (H.state self.old.host) (H.state self.new.host) result }
        ensures closes { self.new.closed ≡ is_err result }
    {
        let result = merge_to_disk(
            self.administration.alloc,
            &mut self.host,
            &mut self.administration.database,
        );
        self.closed = result.is_err();
        result
    }
}
