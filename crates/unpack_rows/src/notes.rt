// What is noted beside the rows of an unpack.
ghost use Rattle.std.specs.Prelude.{◌≡◌, Some, IfOk};
ghost use Rattle.std.specs.Option.{option_copied};
ghost use Rattle.unpack_rows.specs.Kinds.{own_of, state_of};
ghost use Rattle.unpack_rows.specs.Notes.{as_before, half_configured, half_installed, note_before, note_undone, unpacked};
ghost use Rattle.unpack_rows.specs.declared.kinds.RowKind.TheVariants as kind;
ghost use Rattle.unpack_rows.specs.declared.notes.Note.TheVariants as note;

use crate::kinds::{RowKind, has_prerm, own_of, state_of};
use status_records::{Flag, Record, State};
use std::alloc::AllocError;
use texts::Text;

/// A note in the status database: a record, or that the package of a name has none.
#[derive(Drop)]
pub enum Note {
    Put(Record),
    Drop(Text),
}

fn half_configured(old: &Record) -> Result<Note, AllocError>
    ensures { IfOk result (λ n. n ≡ note.Put (half_configured old.now)) }
{
    Ok(Note::Put(old.standing_as(old.flag, State::HalfConfigured)?))
}

fn half_installed(old: &Record) -> Result<Note, AllocError>
    ensures { IfOk result (λ n. n ≡ note.Put (half_installed old.now)) }
{
    Ok(Note::Put(old.standing_as(Flag::Reinstreq, State::HalfInstalled)?))
}

fn unpacked(old: &Record) -> Result<Note, AllocError>
    ensures { IfOk result (λ n. n ≡ note.Put (unpacked old.now)) }
{
    Ok(Note::Put(old.standing_as(old.flag, State::Unpacked)?))
}

fn as_before(start: Option<&Record>, incoming: &Record) -> Result<Note, AllocError>
    ensures { IfOk result (λ n. n ≡ as_before (option_copied start.entry) incoming.now
        (option_copied start.entry)) }
{
    match start {
        None => Ok(Note::Drop(incoming.name.copy()?)),
        Some(record) => Ok(Note::Put(record.copy()?)),
    }
}

// A package whose prerm's row is still to be undone is unpacked meanwhile.
fn preinst_undone(start: Option<&Record>, incoming: &Record) -> Result<Note, AllocError>
    ensures { IfOk result (λ n. Some n ≡ note_undone (option_copied start.entry) incoming.now
        kind.Preinst) }
{
    if has_prerm(state_of(start)) {
        return unpacked(own_of(start, incoming));
    }
    as_before(start, incoming)
}

/// What is noted before the call of a row, whether or not the script is there.
pub fn note_before(
    start: Option<&Record>,
    incoming: &Record,
    kind: &RowKind,
) -> Result<Option<Note>, AllocError>
    ensures { IfOk result (λ note. note ≡ note_before (option_copied start.entry) incoming.now
        kind.now) }
{
    match kind {
        RowKind::Prerm => Ok(Some(half_configured(own_of(start, incoming))?)),
        RowKind::Other(other) => Ok(Some(half_configured(other)?)),
        RowKind::Preinst => Ok(Some(half_installed(own_of(start, incoming))?)),
        RowKind::Files => Ok(None),
        RowKind::Postrm => Ok(None),
    }
}

/// What is noted after its undo call, unless the owner has a failed one.
pub fn note_undone(
    start: Option<&Record>,
    incoming: &Record,
    kind: &RowKind,
) -> Result<Option<Note>, AllocError>
    ensures { IfOk result (λ note. note ≡ note_undone (option_copied start.entry) incoming.now
        kind.now) }
{
    match kind {
        RowKind::Prerm => Ok(Some(as_before(start, incoming)?)),
        RowKind::Other(other) => Ok(Some(Note::Put(other.copy()?))),
        RowKind::Preinst => Ok(Some(preinst_undone(start, incoming)?)),
        RowKind::Files => Ok(None),
        RowKind::Postrm => Ok(None),
    }
}
