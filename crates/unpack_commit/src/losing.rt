// Records that lose conffiles.
ghost use Rattle.std.specs.Prelude.{◌≡◌, ◌&&◌, not, filter, IfOk};
ghost use Rattle.std.specs.List.{list_any};
ghost use Rattle.std.specs.Str.{bytes_eq};
ghost use Rattle.unpack_commit.specs.Takeover.{is_at, loses_conffile, losing_records, without_conffiles};

use crate::taken::Taken;
use diversions::Diversions;
use status_records::{ConffileEntries, ConffileEntry, PendingDigest, PendingDigests, Record};
use std::alloc::{AllocError, Global};
use texts::Text;

fn has_entry(
    diversions: &Diversions,
    taken: &Taken,
    name: &Text,
    entries: &[ConffileEntry],
) -> Result<bool, AllocError>
    ensures { IfOk result
        (λ has. has
        ≡ list_any (λ e. is_at diversions.now.ways taken.now name.now e.path) entries.now) }
{
    for entry in entries {
        if taken.has_ship_path(diversions, name, &entry.path)? {
            return Ok(true);
        }
    }
    Ok(false)
}

fn has_digest(
    diversions: &Diversions,
    taken: &Taken,
    name: &Text,
    pending: &[PendingDigest],
) -> Result<bool, AllocError>
    ensures { IfOk result
        (λ has. has
        ≡ list_any (λ p. is_at diversions.now.ways taken.now name.now p.path) pending.now) }
{
    for digest in pending {
        if taken.has_ship_path(diversions, name, &digest.path)? {
            return Ok(true);
        }
    }
    Ok(false)
}

fn loses_conffile(
    diversions: &Diversions,
    taken: &Taken,
    entry: &Record,
) -> Result<bool, AllocError>
    ensures { IfOk result
        (λ loses. loses ≡ loses_conffile diversions.now.ways taken.now entry.now) }
{
    let conffiles = entry.conffiles.as_slice();
    let pending = entry.pending.as_slice();
    let has = has_entry(diversions, taken, &entry.name, conffiles)?;
    if has {
        return Ok(true);
    }
    has_digest(diversions, taken, &entry.name, pending)
}

fn left_entries(
    alloc: Global,
    diversions: &Diversions,
    taken: &Taken,
    name: &Text,
    entries: &ConffileEntries,
) -> Result<ConffileEntries, AllocError>
    ensures { IfOk result
        (λ left. left ≡ filter (λ e. not (is_at diversions.now.ways taken.now name.now e.path))
        entries.now) }
{
    entries.law();
    let mut left = ConffileEntries::new(alloc);
    for entry in entries.as_slice() {
        let goes = taken.has_ship_path(diversions, name, &entry.path)?;
        if !goes {
            left.push(entry.copy()?)?;
        }
    }
    Ok(left)
}

fn left_pending(
    alloc: Global,
    diversions: &Diversions,
    taken: &Taken,
    name: &Text,
    pending: &PendingDigests,
) -> Result<PendingDigests, AllocError>
    ensures { IfOk result
        (λ left. left ≡ filter (λ p. not (is_at diversions.now.ways taken.now name.now p.path))
        pending.now) }
{
    pending.law();
    let mut left = PendingDigests::new(alloc);
    for digest in pending.as_slice() {
        let goes = taken.has_ship_path(diversions, name, &digest.path)?;
        if !goes {
            left.put(digest.copy()?)?;
        }
    }
    Ok(left)
}

fn without_conffiles(
    alloc: Global,
    diversions: &Diversions,
    taken: &Taken,
    entry: &Record,
) -> Result<Record, AllocError>
    ensures { IfOk result (λ r. r ≡ without_conffiles diversions.now.ways taken.now entry.now) }
{
    let conffiles = left_entries(alloc, diversions, taken, &entry.name, &entry.conffiles)?;
    let pending = left_pending(alloc, diversions, taken, &entry.name, &entry.pending)?;
    entry.with_conffiles(conffiles, pending)
}

fn is_among(names: &[Text], name: &Text) -> bool
    ensures { result ≡ list_any (bytes_eq name.now) names.now }
{
    names.iter().any(|other| name.as_str() == other.as_str())
}

fn loses(
    diversions: &Diversions,
    taken: &Taken,
    losers: &[Text],
    entry: &Record,
) -> Result<bool, AllocError>
    ensures { IfOk result
        (λ loses. loses ≡ (list_any (bytes_eq entry.now.name) losers.now && loses_conffile
        diversions.now.ways taken.now entry.now)) }
{
    if !is_among(losers, &entry.name) {
        return Ok(false);
    }
    loses_conffile(diversions, taken, entry)
}

/// The records of these packages that lose conffiles at these places, as they are then.
pub(crate) fn losing_records(
    alloc: Global,
    diversions: &Diversions,
    taken: &Taken,
    losers: &[Text],
    records: &[Record],
) -> Result<Vec<Record>, AllocError>
    ensures { IfOk result (λ losing. losing.items ≡ losing_records diversions.now.ways taken.now
        losers.now records.now) }
{
    let mut losing = Vec::new(alloc);
    for entry in records {
        let loses = loses(diversions, taken, losers, entry)?;
        if loses {
            losing.push(without_conffiles(alloc, diversions, taken, entry)?)?;
        }
    }
    Ok(losing)
}
