// What becomes of the conffiles of a record.
ghost use Rattle.std.specs.Prelude.{◌≡◌, [], IfOk, OnOk, map};
ghost use Rattle.std.specs.List.{AllZip};
ghost use Rattle.host_core.specs.Looks.{Looks};
ghost use Rattle.conffiles.specs.Settling.{digest_at};
ghost use Rattle.status_records.specs.Conffiles.{recorded_digest};
ghost use Rattle.configure_engine.specs.Decided.{decided_paths, AreDecided, IsDecidedOf};
ghost use Rattle.configure_engine.specs.Waiting.{pending_digest, place_of, settling_places};

use crate::waiting::settling_paths;
use conffiles::{ConfPolicy, Digest, Settled, decide, digest_of};
use diversions::Diversions;
use host_core::{Host, HostFault, ShipPath};
use status_records::{ConffileEntry, PendingDigest, Record};
use std::alloc::Global;

fn recorded_digest(entries: &[ConffileEntry], path: &ShipPath) -> Option<Digest>
    ensures { result ≡ recorded_digest entries.now path.now }
{
    for entry in entries {
        if path.as_str() == entry.path.as_str() {
            return entry.digest;
        }
    }
    None
}

fn pending_digest(pending: &[PendingDigest], path: &ShipPath) -> Option<Digest>
    ensures { result ≡ pending_digest pending.now path.now }
{
    for shipped in pending {
        if path.as_str() == shipped.path.as_str() {
            return Some(shipped.digest);
        }
    }
    None
}

// The digest of the file that is there now.
#[tactic(auto, using(host_core::proofs::Moments::reads_then))]
fn digest_now<H: Host>(host: &mut H, path: &ShipPath) -> Result<Option<Digest>, HostFault>
    ensures looks { Looks result (λ digest w. digest ≡ digest_at (w path.now)) (H.state host.old)
        (H.state host.new) }
{
    let home = path.at()?;
    let node = host.node(&home)?;
    Ok(digest_of(&node))
}

// What becomes of one of them.
fn decide_one<H: Host>(
    host: &mut H,
    diversions: &Diversions,
    entry: &Record,
    policy: ConfPolicy,
    path: &ShipPath,
) -> Result<Settled, HostFault>
    ensures place { IfOk result (λ e. e.path ≡ place_of diversions.now.ways path.now) }
    ensures looks { Looks result
        (λ e w. IsDecidedOf entry.now policy diversions.now.ways w path.now e)
        (H.state host.old) (H.state host.new) }
{
    let place = diversions.resolve_ship(path)?;
    let current = digest_now(host, &place)?;
    let recorded = recorded_digest(entry.conffiles.as_slice(), path);
    let shipped = pending_digest(entry.pending.as_slice(), path);
    let decision = decide(recorded, current, shipped, policy);
    Ok(Settled::new(place, decision))
}

// What becomes of each.
fn decide_each<H: Host>(
    host: &mut H,
    diversions: &Diversions,
    entry: &Record,
    policy: ConfPolicy,
    paths: &[ShipPath],
    list: &mut Vec<Settled>,
) -> Result<(), HostFault>
    requires { list.old.items ≡ [] }
    ensures places { OnOk result
        (decided_paths list.new.items ≡ map (place_of diversions.now.ways) paths.now) }
    ensures looks { Looks result
        (λ done w. AllZip (IsDecidedOf entry.now policy diversions.now.ways w) paths.now
        list.new.items) (H.state host.old) (H.state host.new) }
{
    for path in paths {
        list.push(decide_one(host, diversions, entry, policy, path)?)?;
    }
    Ok(())
}

/// What becomes of the conffiles of a record that are to be settled, by the files that are at their places now.
pub(crate) fn decisions<H: Host>(
    alloc: Global,
    host: &mut H,
    diversions: &Diversions,
    entry: &Record,
    policy: ConfPolicy,
) -> Result<Vec<Settled>, HostFault>
    ensures places { IfOk result
        (λ list. decided_paths list.items ≡ settling_places diversions.now.ways entry.now) }
    ensures looks { Looks result
        (λ list w. AreDecided entry.now policy diversions.now.ways w list.items)
        (H.state host.old) (H.state host.new) }
{
    let paths = settling_paths(alloc, diversions, entry)?;
    let mut list = Vec::new(alloc);
    match decide_each(host, diversions, entry, policy, paths.as_slice(), &mut list) {
        Ok(()) => Ok(list),
        Err(fault) => Err(fault),
    }
}
