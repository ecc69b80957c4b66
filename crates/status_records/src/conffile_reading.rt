// The conffiles that the fields of a paragraph say.
ghost use Rattle.std.specs.Prelude.{◌≡◌, IfOk, true, false};
ghost use Rattle.std.specs.List.{list_all};
ghost use Rattle.status_records.specs.ConffileFields.{is_conffile_line, is_pending_line, are_apart, conffile_paths, pending_paths};
ghost use Rattle.status_records.specs.Paragraphs.{field_in, lines_of_field, AreConffilesOf, ArePendingOf};

use crate::conffile_fields::{conffile_of, pending_of};
use crate::conffile_lists::{ConffileEntries, PendingDigests};
use crate::reading::field_in;
use control_fields::Paragraph;
use std::alloc::{AllocError, Global};
use texts::Bytes;

/// The lines that go on with the field of a name, which is given in lower case.
pub(crate) fn lines_in<'a>(fields: &'a Paragraph, lower: &[u8]) -> &'a [Bytes]
    ensures { result.now ≡ lines_of_field (field_in lower.now fields.now) }
{
    match field_in(fields, lower) {
        Some(field) => field.more.as_slice(),
        None => &[],
    }
}

/// The conffiles that these lines say.
pub(crate) fn conffiles_of(alloc: Global, lines: &[Bytes]) -> Result<ConffileEntries, AllocError>
    requires lines { list_all is_conffile_line lines.now ≡ true }
    requires apart { are_apart (conffile_paths lines.now) ≡ true }
    ensures { IfOk result (AreConffilesOf lines.now) }
{
    let mut entries = ConffileEntries::new(alloc);
    for line in lines {
        if let Some(entry) = conffile_of(alloc, line.as_slice())? {
            entries.put(entry)?;
        }
    }
    Ok(entries)
}

/// The digests that these lines say.
pub(crate) fn pending_digests_of(
    alloc: Global,
    lines: &[Bytes],
) -> Result<PendingDigests, AllocError>
    requires lines { list_all is_pending_line lines.now ≡ true }
    requires apart { are_apart (pending_paths lines.now) ≡ true }
    ensures { IfOk result (ArePendingOf lines.now) }
{
    let mut pending = PendingDigests::new(alloc);
    for line in lines {
        if let Some(digest) = pending_of(alloc, line.as_slice())? {
            pending.put(digest)?;
        }
    }
    Ok(pending)
}
