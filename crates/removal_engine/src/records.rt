// What a removal and a purge note of a package.
ghost use Rattle.std.specs.Prelude.{◌≡◌, IfOk};
ghost use Rattle.removal_engine.specs.Records.{config_files, goes_at_once, half_configured, has_settled, kept_entries, kept_entry, losing_files, purged, without_files};

use crate::scripts::Stored;
use status_records::{ConffileEntries, ConffileEntry, Flag, PendingDigests, Record, State, Want};
use std::alloc::{AllocError, Global};

/// While its prerm runs.
pub(crate) fn half_configured(entry: &Record) -> Result<Record, AllocError>
    ensures { IfOk result (λ r. r ≡ half_configured entry.now) }
{
    entry.standing_as(entry.flag, State::HalfConfigured)
}

/// While its files go.
pub(crate) fn losing_files(entry: &Record) -> Result<Record, AllocError>
    ensures { IfOk result (λ r. r ≡ losing_files entry.now) }
{
    let standing = entry.standing_as(Flag::Reinstreq, State::HalfInstalled)?;
    let removed = standing.removed()?;
    Ok(removed)
}

// One that an upgrade was to remove is now one that no version ships.
fn kept_entry(entry: &ConffileEntry) -> Result<ConffileEntry, AllocError>
    ensures { IfOk result (λ e. e ≡ kept_entry entry.now) }
{
    Ok(ConffileEntry {
        path: entry.path.copy()?,
        digest: entry.digest,
        obsolete: entry.obsolete || entry.remove_on_upgrade,
        remove_on_upgrade: false,
    })
}

/// The entries that a removal keeps.
pub(crate) fn kept_entries(
    alloc: Global,
    entries: &ConffileEntries,
) -> Result<ConffileEntries, AllocError>
    ensures { IfOk result (λ es. es ≡ kept_entries entries.now) }
{
    entries.law();
    let mut kept = ConffileEntries::new(alloc);
    for entry in entries.as_slice() {
        if entry.digest.is_some() {
            kept.push(kept_entry(entry)?)?;
        }
    }
    Ok(kept)
}

// Whether one of its conffiles was settled.
fn has_settled(entry: &Record) -> bool
    ensures { result ≡ has_settled entry.now }
{
    entry
        .conffiles
        .as_slice()
        .iter()
        .any(|conffile| conffile.digest.is_some())
}

/// Whether nothing is left of the package once its files are gone.
pub(crate) fn goes_at_once(entry: &Record, stored: Stored) -> bool
    ensures { result ≡ goes_at_once entry.now stored }
{
    !stored.postrm && !has_settled(entry)
}

/// Once its files are gone.
pub(crate) fn without_files(alloc: Global, entry: &Record) -> Result<Record, AllocError>
    ensures { IfOk result (λ r. r ≡ without_files entry.now) }
{
    let kept = kept_entries(alloc, &entry.conffiles)?;
    let settled = entry.with_conffiles(kept, PendingDigests::new(alloc))?;
    let standing = settled.standing_as(Flag::Ok, State::HalfInstalled)?;
    let removed = standing.removed()?;
    let unwanted = removed.wanting(Want::Deinstall)?;
    Ok(unwanted)
}

/// Removed, but for its conffiles and its postrm.
pub(crate) fn config_files(alloc: Global, entry: &Record) -> Result<Record, AllocError>
    ensures { IfOk result (λ r. r ≡ config_files entry.now) }
{
    let without = without_files(alloc, entry)?;
    let left = without.standing_as(Flag::Ok, State::ConfigFiles)?;
    Ok(left)
}

/// While it is purged.
pub(crate) fn purged(entry: &Record) -> Result<Record, AllocError>
    ensures { IfOk result (λ r. r ≡ purged entry.now) }
{
    entry.wanting(Want::Purge)
}
