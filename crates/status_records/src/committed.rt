// The conffiles of a record after its package is unpacked.
ghost use Rattle.std.specs.Prelude.{◌≡◌, ◌||◌, not, None, Bool, is_some, IfOk, option_copied};
ghost use Rattle.std.specs.List.{list_any, find};
ghost use Rattle.std.specs.Str.{bytes_eq};
ghost use Rattle.host_core.specs.Paths.{Path};
ghost use Rattle.status_records.specs.Conffiles.{renewed_entry, shipped_entry, marked_entry, left_entries, committed_entries};

use crate::conffile_lists::{ConffileEntries, PendingDigests};
use crate::entries::{ConffileEntry, PendingDigest};
use host_core::ShipPath;
use std::alloc::{AllocError, Global};

/// What a package ships, as far as the entries of its conffiles depend on it.
pub trait Ships {
    /// The paths that it ships.
    ghost shipped: { Self → Path → Bool };

    /// Whether it ships a path, as a conffile or as anything else.
    fn ships(&self, path: &ShipPath) -> bool
        ensures { result ≡ shipped self.now path.now };
}

// The entry of a path, if there is one.
fn entry_of<'a>(entries: &'a ConffileEntries, path: &ShipPath) -> Option<&'a ConffileEntry>
    ensures { option_copied result ≡ find (λ e. bytes_eq path.now e.path) entries.now }
{
    entries
        .as_slice()
        .iter()
        .find(|entry| path.as_str() == entry.path.as_str())
}

// The entry of a shipped conffile that has none.
fn new_entry(digest: &PendingDigest) -> Result<ConffileEntry, AllocError>
    ensures { IfOk result (λ e. e ≡ renewed_entry None digest.now) }
{
    Ok(ConffileEntry {
        path: digest.path.copy()?,
        digest: None,
        obsolete: false,
        remove_on_upgrade: false,
    })
}

fn shipped_entry(
    entries: &ConffileEntries,
    digest: &PendingDigest,
) -> Result<ConffileEntry, AllocError>
    ensures { IfOk result (λ e. e ≡ shipped_entry entries.now digest.now) }
{
    let Some(entry) = entry_of(entries, &digest.path) else {
        return new_entry(digest);
    };
    Ok(ConffileEntry {
        path: entry.path.copy()?,
        digest: entry.digest,
        obsolete: false,
        remove_on_upgrade: false,
    })
}

fn has_path(paths: &[ShipPath], path: &ShipPath) -> bool
    ensures { result ≡ list_any (bytes_eq path.now) paths.now }
{
    paths.iter().any(|other| path.as_str() == other.as_str())
}

fn marked_entry(flagged: bool, entry: &ConffileEntry) -> Result<ConffileEntry, AllocError>
    ensures { IfOk result (λ e. e ≡ marked_entry flagged entry.now) }
{
    Ok(ConffileEntry {
        path: entry.path.copy()?,
        digest: entry.digest,
        obsolete: !flagged,
        remove_on_upgrade: flagged,
    })
}

// Whether an entry of a path that isn't a shipped conffile stays.
fn stays<S: Ships>(entry: &ConffileEntry, ships: &S) -> bool
    ensures { result ≡ not (S.Ships.shipped ships.now entry.now.path
        || not (is_some entry.now.digest)) }
{
    !ships.ships(&entry.path) && entry.digest.is_some()
}

fn left_entries<S: Ships>(
    alloc: Global,
    entries: &ConffileEntries,
    shipped: &PendingDigests,
    flagged: &[ShipPath],
    ships: &S,
) -> Result<ConffileEntries, AllocError>
    ensures { IfOk result (λ es. es ≡ left_entries entries.now shipped.now flagged.now
        (S.Ships.shipped ships.now)) }
{
    entries.law();
    let mut left = ConffileEntries::new(alloc);
    for entry in entries.as_slice() {
        if !shipped.has(&entry.path) && stays(entry, ships) {
            left.push(marked_entry(has_path(flagged, &entry.path), entry)?)?;
        }
    }
    Ok(left)
}

/// The entries of the conffiles once a package is unpacked: by those before, the digests that it
/// ships (the pending ones from then on), the paths that it asks to be removed, and what it ships.
pub fn committed_entries<S: Ships>(
    alloc: Global,
    entries: &ConffileEntries,
    shipped: &PendingDigests,
    flagged: &[ShipPath],
    ships: &S,
) -> Result<ConffileEntries, AllocError>
    ensures { IfOk result (λ es. es ≡ committed_entries entries.now shipped.now flagged.now
        (S.Ships.shipped ships.now)) }
{
    shipped.law();
    let mut committed = left_entries(alloc, entries, shipped, flagged, ships)?;
    for digest in shipped.as_slice() {
        committed.put(shipped_entry(entries, digest)?)?;
    }
    Ok(committed)
}
