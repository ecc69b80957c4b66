// The record of a package whose conffiles are settled.
ghost use Rattle.std.specs.Prelude.{◌≡◌, filter, IfOk};
ghost use Rattle.configure_engine.specs.Settled.{settled, settled_entries, settled_entry, stays};

use status_records::{ConffileEntries, ConffileEntry, PendingDigest, PendingDigests, Record};
use std::alloc::{AllocError, Global};

fn stays(entry: &ConffileEntry, pending: &PendingDigests) -> bool
    ensures { result ≡ stays pending.now entry.now }
{
    !(pending.has(&entry.path) || entry.remove_on_upgrade)
}

// The entry of a shipped conffile.
fn settled_entry(digest: &PendingDigest) -> Result<ConffileEntry, AllocError>
    ensures { IfOk result (λ e. e ≡ settled_entry digest.now) }
{
    Ok(ConffileEntry {
        path: digest.path.copy()?,
        digest: Some(digest.digest),
        obsolete: false,
        remove_on_upgrade: false,
    })
}

fn staying_entries(alloc: Global, entry: &Record) -> Result<ConffileEntries, AllocError>
    ensures { IfOk result (λ es. es ≡ filter (stays entry.now.pending) entry.now.conffiles) }
{
    entry.conffiles.law();
    let mut staying = ConffileEntries::new(alloc);
    for conffile in entry.conffiles.as_slice() {
        if stays(conffile, &entry.pending) {
            staying.push(conffile.copy()?)?;
        }
    }
    Ok(staying)
}

fn settled_entries(alloc: Global, entry: &Record) -> Result<ConffileEntries, AllocError>
    ensures { IfOk result (λ es. es ≡ settled_entries entry.now) }
{
    entry.pending.law();
    let mut entries = staying_entries(alloc, entry)?;
    for digest in entry.pending.as_slice() {
        entries.put(settled_entry(digest)?)?;
    }
    Ok(entries)
}

/// The record once its conffiles are settled: each shipped digest is the recorded one, and flagged entries are gone.
pub(crate) fn settled(alloc: Global, entry: &Record) -> Result<Record, AllocError>
    ensures { IfOk result (λ r. r ≡ settled entry.now) }
{
    entry.with_conffiles(settled_entries(alloc, entry)?, PendingDigests::new(alloc))
}
