// The lines of a record's conffiles.
ghost use Rattle.std.specs.Prelude.{◌≡◌, ◌++◌, ◌∷◌, [], map, IfOk, OnOk};
ghost use Rattle.hex.specs.Hex.{encode_lower};
ghost use Rattle.status_records.specs.Digests.{digest_word};
ghost use Rattle.status_records.specs.ConffileFields.{flag_text, conffile_line, pending_line};

use crate::conffile_lists::{ConffileEntries, PendingDigests};
use crate::entries::{ConffileEntry, PendingDigest};
use conffiles::Digest;
use control_fields::Lines;
use std::alloc::{AllocError, Global};
use texts::Bytes;

fn add_digest(alloc: Global, digest: &Digest, line: &mut Vec<u8>) -> Result<(), AllocError>
    ensures { OnOk result (line.new.items ≡ line.old.items ++ encode_lower digest.now) }
{
    let text = digest.text(alloc)?;
    line.extend_from_slice(text.as_str().as_bytes())
}

fn add_recorded(
    alloc: Global,
    digest: &Option<Digest>,
    line: &mut Vec<u8>,
) -> Result<(), AllocError>
    ensures { OnOk result (line.new.items ≡ line.old.items ++ digest_word digest.now) }
{
    match digest {
        Some(digest) => add_digest(alloc, digest, line),
        None => line.extend_from_slice(b"newconffile"),
    }
}

// A blank and a word, where it holds.
fn add_flag(holds: bool, word: &[u8], line: &mut Vec<u8>) -> Result<(), AllocError>
    ensures { OnOk result (line.new.items ≡ line.old.items ++ flag_text holds word.now) }
{
    if !holds {
        return Ok(());
    }
    line.push(b' ')?;
    line.extend_from_slice(word)
}

fn conffile_line(alloc: Global, entry: &ConffileEntry) -> Result<Bytes, AllocError>
    ensures { IfOk result (λ line. line ≡ conffile_line entry.now) }
{
    let mut line = Vec::new(alloc);
    line.push(b' ')?;
    line.extend_from_slice(entry.path.as_str().as_bytes())?;
    line.push(b' ')?;
    add_recorded(alloc, &entry.digest, &mut line)?;
    add_flag(entry.obsolete, b"obsolete", &mut line)?;
    add_flag(entry.remove_on_upgrade, b"remove-on-upgrade", &mut line)?;
    Ok(Bytes::new(line))
}

fn pending_line(alloc: Global, digest: &PendingDigest) -> Result<Bytes, AllocError>
    ensures { IfOk result (λ line. line ≡ pending_line digest.now) }
{
    let mut line = Vec::new(alloc);
    line.push(b' ')?;
    line.extend_from_slice(digest.path.as_str().as_bytes())?;
    line.push(b' ')?;
    add_digest(alloc, &digest.digest, &mut line)?;
    Ok(Bytes::new(line))
}

/// The lines of a record's conffiles.
pub(crate) fn conffile_lines(alloc: Global, entries: &ConffileEntries) -> Result<Lines, AllocError>
    ensures { IfOk result (λ lines. lines ≡ map conffile_line entries.now) }
{
    let mut lines = Lines::new(alloc);
    for entry in entries.as_slice() {
        lines.push(conffile_line(alloc, entry)?)?;
    }
    Ok(lines)
}

/// The lines of the digests that aren't settled yet.
pub(crate) fn pending_lines(alloc: Global, pending: &PendingDigests) -> Result<Lines, AllocError>
    ensures { IfOk result (λ lines. lines ≡ map pending_line pending.now) }
{
    let mut lines = Lines::new(alloc);
    for digest in pending.as_slice() {
        lines.push(pending_line(alloc, digest)?)?;
    }
    Ok(lines)
}
