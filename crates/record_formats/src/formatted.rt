// Records under a format.
ghost use Rattle.std.specs.Prelude.{◌≡◌, ◌++◌, IfOk, OnOk, map, option_copied};
ghost use Rattle.std.specs.List.{flat_map};
ghost use Rattle.status_records.specs.Paragraphs.{paragraph_of};
ghost use Rattle.record_formats.specs.Values.{formatted_text, piece_text, shown_record, shown_value, value};

use crate::pieces::{Piece, Pieces, Shown};
use crate::values::{fitted, value};
use control_fields::Paragraph;
use status_records::{Record, paragraph_of};
use std::alloc::{AllocError, Global};
use texts::Bytes;

fn shown_value(alloc: Global, shown: &Shown, text: Option<Bytes>) -> Result<Bytes, AllocError>
    ensures { IfOk result (λ all. all ≡ shown_value shown.now text) }
{
    match text {
        Some(text) => fitted(alloc, text, shown.width as usize, shown.left),
        None => Ok(Bytes::new(Vec::new(alloc))),
    }
}

fn add_field(
    alloc: Global,
    root: Option<&str>,
    entry: &Record,
    fields: &Paragraph,
    shown: &Shown,
    text: &mut Vec<u8>,
) -> Result<(), AllocError>
    ensures { OnOk result (text.new.items ≡ text.old.items ++ shown_value shown.now
        (value (option_copied root.entry) entry.now fields.now shown.now.name)) }
{
    let found = value(alloc, root, entry, fields, shown.name.as_slice())?;
    let all = shown_value(alloc, shown, found)?;
    text.extend_from_slice(all.as_slice())
}

fn add_piece(
    alloc: Global,
    root: Option<&str>,
    entry: &Record,
    fields: &Paragraph,
    piece: &Piece,
    text: &mut Vec<u8>,
) -> Result<(), AllocError>
    ensures { OnOk result (text.new.items ≡ text.old.items ++ piece_text (option_copied root.entry)
        entry.now fields.now piece.now) }
{
    match piece {
        Piece::Byte(byte) => text.extend_from_slice(&[*byte]),
        Piece::Field(shown) => add_field(alloc, root, entry, fields, shown, text),
    }
}

fn add_pieces(
    alloc: Global,
    root: Option<&str>,
    entry: &Record,
    fields: &Paragraph,
    pieces: &[Piece],
    text: &mut Vec<u8>,
) -> Result<(), AllocError>
    ensures { OnOk result (text.new.items ≡ text.old.items ++ flat_map
        (piece_text (option_copied root.entry) entry.now fields.now) pieces.now) }
{
    for piece in pieces {
        add_piece(alloc, root, entry, fields, piece, text)?;
    }
    Ok(())
}

fn add_record(
    alloc: Global,
    root: Option<&str>,
    pieces: &Pieces,
    entry: &Record,
    text: &mut Vec<u8>,
) -> Result<(), AllocError>
    ensures { OnOk result (text.new.items ≡ text.old.items ++ shown_record (option_copied root.entry)
        pieces.now entry.now) }
{
    let fields = paragraph_of(alloc, entry)?;
    add_pieces(alloc, root, entry, &fields, pieces.as_slice(), text)
}

/// What stands for records under a format, one after another, in a root of this architecture.
pub fn formatted_text(
    alloc: Global,
    root: Option<&str>,
    pieces: &Pieces,
    entries: &[&Record],
) -> Result<Bytes, AllocError>
    ensures { IfOk result (λ text. text ≡ formatted_text (option_copied root.entry) pieces.now
        (map (λ r. r.now) entries.now)) }
{
    let mut text = Vec::new(alloc);
    for entry in entries {
        add_record(alloc, root, pieces, entry, &mut text)?;
    }
    Ok(Bytes::new(text))
}
