// Which records are taken up.
ghost use Rattle.std.specs.Prelude.{◌≡◌, ◌++◌, ◌∷◌, [], IfOk, OnOk, true};
ghost use Rattle.host_core.specs.Looks.{Looks};
ghost use Rattle.status_records.specs.Records.{AreStanding};
ghost use Rattle.adopted_conffiles.specs.Adopted.{all_taken, awaits, has_none, is_waiting, pending_beside, settled, taken, taken_with, tells_more};

use crate::beside::add_pending;
use diversions::Diversions;
use host_core::{Host, HostFault};
use status_records::{PendingDigests, Record, State};
use std::alloc::{AllocError, Global};

fn is_waiting(state: State) -> bool
    ensures { result ≡ is_waiting state }
{
    match state {
        State::Unpacked | State::HalfConfigured => true,
        State::NotInstalled | State::ConfigFiles | State::HalfInstalled | State::Installed => false,
    }
}

fn has_none(pending: &PendingDigests) -> bool
    ensures { result ≡ has_none pending.now }
{
    pending.as_slice().is_empty()
}

fn awaits(record: &Record) -> bool
    ensures { result ≡ awaits record.now }
{
    is_waiting(record.state) && has_none(&record.pending)
}

// Adds the record with these digests, where there is one.
fn add_with(
    record: &Record,
    pending: PendingDigests,
    found: &mut Vec<Record>,
) -> Result<(), AllocError>
    ensures { OnOk result
        (found.new.items ≡ found.old.items ++ taken_with record.now pending) }
{
    if has_none(&pending) {
        return Ok(());
    }
    let conffiles = record.conffiles.copy()?;
    found.push(record.with_conffiles(conffiles, pending)?)?;
    Ok(())
}

// Whether the record of an installed package still tells what held before it was configured.
fn tells_more(record: &Record) -> bool
    ensures { result ≡ tells_more record.now }
{
    record.state.is_installed() && (!has_none(&record.pending) || record.removed_since)
}

// The record without that.
fn settled(alloc: Global, record: &Record) -> Result<Record, AllocError>
    ensures { IfOk result (λ r. r ≡ settled record.now) }
{
    let conffiles = record.conffiles.copy()?;
    let mut plain = record.with_conffiles(conffiles, PendingDigests::new(alloc))?;
    plain.removed_since = false;
    Ok(plain)
}

// Adds the record without that.
fn add_settled(alloc: Global, record: &Record, found: &mut Vec<Record>) -> Result<(), AllocError>
    ensures { OnOk result (found.new.items ≡ found.old.items ++ settled record.now ∷ []) }
{
    found.push(settled(alloc, record)?)?;
    Ok(())
}

// Adds the record with the digests of its conffiles that aren't settled, where there are some.
fn add_waiting<H: Host>(
    alloc: Global,
    host: &mut H,
    diversions: &Diversions,
    record: &Record,
    found: &mut Vec<Record>,
) -> Result<(), HostFault>
    requires { awaits record.now ≡ true }
    ensures stand { OnOk result (AreStanding found.old.items → AreStanding found.new.items) }
    ensures looks { Looks result
        (λ done w. found.new.items ≡ found.old.items
        ++ taken_with record.now (pending_beside w diversions.now.ways record.now))
        (H.state host.old) (H.state host.new) }
{
    let mut pending = PendingDigests::new(alloc);
    match add_pending(host, diversions, record, &mut pending) {
        Ok(()) => match add_with(record, pending, found) {
            Ok(()) => Ok(()),
            Err(fault) => Err(HostFault::from(fault)),
        },
        Err(fault) => Err(fault),
    }
}

// Adds the record as it is taken up, if there is anything to take up.
fn add_taken<H: Host>(
    alloc: Global,
    host: &mut H,
    diversions: &Diversions,
    record: &Record,
    found: &mut Vec<Record>,
) -> Result<(), HostFault>
    ensures stand { OnOk result (AreStanding found.old.items → AreStanding found.new.items) }
    ensures looks { Looks result
        (λ done w. found.new.items
        ≡ found.old.items ++ taken w diversions.now.ways record.now)
        (H.state host.old) (H.state host.new) }
{
    if tells_more(record) {
        return Ok(add_settled(alloc, record, found)?);
    }
    if awaits(record) {
        return add_waiting(alloc, host, diversions, record, found);
    }
    Ok(())
}

/// Those of some records that are taken up.
pub(crate) fn find_taken<H: Host>(
    alloc: Global,
    host: &mut H,
    diversions: &Diversions,
    records: &[Record],
    found: &mut Vec<Record>,
) -> Result<(), HostFault>
    requires { found.old.items ≡ [] }
    ensures stand { OnOk result (AreStanding found.new.items) }
    ensures looks { Looks result
        (λ done w. found.new.items ≡ all_taken w diversions.now.ways records.now)
        (H.state host.old) (H.state host.new) }
{
    for record in records {
        add_taken(alloc, host, diversions, record, found)?;
    }
    Ok(())
}
