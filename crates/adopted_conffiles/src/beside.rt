// The files beside the places of a record's conffiles.
ghost use Rattle.std.specs.Prelude.{◌≡◌, ◌++◌, [], List, Option, OnOk, true};
ghost use Rattle.host_core.specs.Looks.{Looks};
ghost use Rattle.host_core.specs.Paths.{Path};
ghost use Rattle.host_core.specs.declared.node.Node.{Node as ANode};
ghost use Rattle.conffiles.specs.Settling.{digest_at};
ghost use Rattle.status_records.specs.ConffilePaths.{is_before};
ghost use Rattle.adopted_conffiles.specs.Adopted.{AreBefore, beside, is_left, pending_at, pending_beside, pending_of};

use conffiles::{Digest, digest_of};
use diversions::Diversions;
use host_core::{Host, HostFault, ShipPath, Suffix};
use status_records::{ConffileEntry, PendingDigest, PendingDigests, Record};
use std::alloc::AllocError;

// The digest of the file beside the place of a path.
#[tactic(auto, using(host_core::proofs::Moments::reads_then))]
fn digest_beside<H: Host>(
    host: &mut H,
    diversions: &Diversions,
    path: &ShipPath,
) -> Result<Option<Digest>, HostFault>
    ensures looks { Looks result
        (λ digest w. digest ≡ digest_at (w (beside diversions.now.ways path.now)))
        (H.state host.old) (H.state host.new) }
{
    let name = diversions.resolve_ship(path)?.beside(Suffix::New)?;
    let node = host.node(&name)?;
    Ok(digest_of(&node))
}

// Adds the digest of an entry's path behind those of paths before it, where there is one.
fn add_digest(
    entry: &ConffileEntry,
    digest: Option<Digest>,
    pending: &mut PendingDigests,
) -> Result<(), AllocError>
    requires before { AreBefore entry.now.path pending.old }
    ensures added { OnOk result ((node : Option ANode) → digest ≡ digest_at node
        → pending.new ≡ pending.old ++ pending_at entry.now node) }
    ensures before { OnOk result ((q : Path) → is_before entry.now.path q ≡ true
        → AreBefore q pending.old → AreBefore q pending.new) }
{
    match digest {
        Some(digest) => {
            pending.put(PendingDigest::new(entry.path.copy()?, digest))?;
            Ok(())
        }
        None => Ok(()),
    }
}

fn is_left(entry: &ConffileEntry) -> bool
    ensures { result ≡ is_left entry.now }
{
    entry.obsolete || entry.remove_on_upgrade
}

// Adds what isn't settled yet of an entry.
fn add_beside<H: Host>(
    host: &mut H,
    diversions: &Diversions,
    entry: &ConffileEntry,
    pending: &mut PendingDigests,
) -> Result<(), HostFault>
    requires before { AreBefore entry.now.path pending.old }
    ensures before { OnOk result ((q : Path) → is_before entry.now.path q ≡ true
        → AreBefore q pending.old → AreBefore q pending.new) }
    ensures looks { Looks result
        (λ done w. pending.new ≡ pending.old ++ pending_of w diversions.now.ways entry.now)
        (H.state host.old) (H.state host.new) }
{
    if is_left(entry) {
        return Ok(());
    }
    let digest = digest_beside(host, diversions, &entry.path)?;
    match add_digest(entry, digest, pending) {
        Ok(()) => Ok(()),
        Err(fault) => Err(HostFault::from(fault)),
    }
}

/// The digests of a record's conffiles that another program left unsettled.
pub(crate) fn add_pending<H: Host>(
    host: &mut H,
    diversions: &Diversions,
    record: &Record,
    pending: &mut PendingDigests,
) -> Result<(), HostFault>
    requires { pending.old ≡ [] }
    ensures looks { Looks result
        (λ done w. pending.new ≡ pending_beside w diversions.now.ways record.now)
        (H.state host.old) (H.state host.new) }
{
    record.conffiles.law();
    for entry in record.conffiles.as_slice() {
        add_beside(host, diversions, entry, pending)?;
    }
    Ok(())
}
