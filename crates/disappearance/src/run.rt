// The packages that an unpack leaves nothing of, one after another.
ghost use Rattle.std.specs.Prelude.{◌≡◌, ℕ, List, IfOk, OnOk, Contains, map};
ghost use Rattle.host_core.specs.Host.{Counts, Needs, Since};
ghost use Rattle.held_administration.specs.Open.{IsOpen};
ghost use Rattle.recorded_packages.specs.Packages.{ArePackagesOf};
ghost use Rattle.status_records.specs.Records.{record_in};
ghost use Rattle.held_administration.specs.Order.{IsInOrder};
ghost use Rattle.unit_stages.specs.Holding.{holding_of};
ghost use Rattle.disappearance.specs.Runs.{AreLeft, HaveCalled, HaveDisappeared, IsAmidDisappearances, first_failed};

use crate::losing::{Disappeared, Losing};
use crate::unit::disappear;
use diversions::Diversions;
use held_administration::Administration;
use host_core::{Call, Host, HostFault};
use relation_index::Packages;
use texts::{Text, Texts};
use undo_rows::Called;
use version_order::Version;

// The first call that failed.
fn first_failed(failed: Option<Call>, next: Option<Call>) -> Option<Call>
    ensures { result ≡ first_failed failed next }
{
    match failed {
        None => next,
        Some(call) => Some(call),
    }
}

/// Those of these packages disappear of which an unpack left nothing and which no other package needs: of each its postrm is called
/// with the name and version of the unpacked one, and whatever the outcome all goes that the administration has of it. The packages
/// of the records are brought up to date.
pub fn disappear_packages<H: Host>(
    host: &mut H,
    administration: &mut Administration,
    packages: &mut Packages,
    diversions: &Diversions,
    incoming: &Text,
    version: &Version,
    losing: &[Losing],
    told: &mut Vec<Called>,
) -> Result<Disappeared, HostFault>
    requires open { IsOpen diversions.now.ways administration.old }
    requires order { Needs (H.state host.old)
        (IsInOrder administration.old.database administration.old.lists.lists) }
    requires indexed { ArePackagesOf administration.old.database.records packages.old }
    ensures disappeared { IfOk result
        (λ d. HaveDisappeared incoming.now version.now diversions.now.ways losing.now d.names
        d.failed (holding_of administration.old) (holding_of administration.new)
        (H.state host.old) (H.state host.new) told.old.items told.new.items) }
    ensures left { IfOk result
        (λ d. AreLeft d.names
        administration.old.database.records administration.new.database.records) }
    ensures others { OnOk result
        ((q : List ℕ)
        → (Contains (map (λ l. l.name) losing.now) q → ⊥)
        → record_in administration.new.database.records q
        ≡ record_in administration.old.database.records q) }
    ensures order { OnOk result
        (Needs (H.state host.new)
        (IsInOrder administration.new.database administration.new.lists.lists)) }
    ensures open { OnOk result (IsOpen diversions.now.ways administration.new) }
    ensures indexed { OnOk result (ArePackagesOf administration.new.database.records packages.new) }
    ensures told { HaveCalled incoming.now version.now diversions.now.ways losing.now
        (holding_of administration.old) (H.state host.old) (H.state host.new)
        told.old.items told.new.items }
    ensures any_moment { Since
        (IsAmidDisappearances incoming.now version.now diversions.now.ways losing.now
        (holding_of administration.old) (H.state host.old))
        (H.state host.old) (H.state host.new) }
    ensures counts { Counts (H.state host.old) (H.state host.new) result }
{
    let mut names = Texts::new(administration.alloc);
    let mut failed = None;
    for one in losing {
        match disappear(
            host,
            administration,
            packages,
            diversions,
            incoming,
            version,
            one,
            &mut names,
            told,
        ) {
            Ok(own) => {
                failed = first_failed(failed, own);
            }
            Err(fault) => {
                return Err(fault);
            }
        }
    }
    Ok(Disappeared { names, failed })
}
