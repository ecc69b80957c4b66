// A format is read, byte after byte.
ghost use Rattle.std.specs.Prelude.{◌≡◌, ◌++◌, ◌∷◌, ◌&&◌, [], IfOk, fold, nat_le, option_map};
ghost use Rattle.std.specs.Char.{is_ascii_digit, to_ascii_lowercase};
ghost use Rattle.record_formats.specs.Formats.{behind_at, behind_backslash, behind_both, behind_byte, behind_dollar, behind_semicolon, behind_sign, begun, finished, in_name, in_text, in_width, is_first_digit, moved, pieces_of, unquoted, with_byte, with_digit, with_field};
ghost use Rattle.record_formats.specs.declared.pieces.Piece.TheVariants.{Byte, Field};

use crate::pieces::{Letters, Piece, Pieces, Shown};
use std::alloc::{AllocError, Global};

/// Where in a format the reading is.
#[derive(Clone, Copy)]
pub(crate) enum Place {
    InText,
    BehindBackslash,
    /// A dollar stands before, of which isn't known yet whether it is one for itself.
    BehindDollar,
    /// A backslash and a dollar stand before.
    BehindBoth,
    InName,
    BehindSemicolon,
    BehindSign,
    InWidth,
    /// What was read of a width is none.
    Nowhere,
}

/// What was read of a format: its pieces, and what of the field that goes on.
#[derive(Drop)]
pub(crate) struct Reading {
    pub(crate) pieces: Pieces,
    pub(crate) place: Place,
    pub(crate) name: Letters,
    pub(crate) width: u32,
    pub(crate) left: bool,
}

fn begun(alloc: Global) -> Reading
    ensures { result ≡ begun }
{
    Reading {
        pieces: Pieces::new(alloc),
        place: Place::InText,
        name: Letters::new(alloc),
        width: 0,
        left: false,
    }
}

fn moved(place: Place, reading: Reading) -> Reading
    ensures { result ≡ moved place reading }
{
    Reading { place, ..reading }
}

// A byte that stands for itself.
fn with_byte(byte: u8, place: Place, reading: Reading) -> Result<Reading, AllocError>
    ensures { IfOk result (λ r. r ≡ with_byte byte place reading) }
{
    let mut pieces = reading.pieces;
    pieces.push(Piece::Byte(byte))?;
    Ok(Reading {
        pieces,
        place,
        ..reading
    })
}

// A field, which ends.
fn with_field(alloc: Global, reading: Reading) -> Result<Reading, AllocError>
    ensures { IfOk result (λ r. r ≡ with_field reading) }
{
    let mut pieces = reading.pieces;
    pieces.push(Piece::Field(Shown {
        name: reading.name.into_bytes(),
        width: reading.width,
        left: reading.left,
    }))?;
    Ok(Reading {
        pieces,
        place: Place::InText,
        name: Letters::new(alloc),
        width: 0,
        left: false,
    })
}

fn unquoted(byte: u8) -> u8
    ensures { result ≡ unquoted byte }
{
    match byte {
        b'n' => b'\n',
        b't' => b'\t',
        b'r' => b'\r',
        _ => byte,
    }
}

fn in_text(byte: u8, reading: Reading) -> Result<Reading, AllocError>
    ensures { IfOk result (λ r. r ≡ in_text byte reading) }
{
    match byte {
        b'$' => Ok(moved(Place::BehindDollar, reading)),
        b'\\' => Ok(moved(Place::BehindBackslash, reading)),
        _ => with_byte(byte, Place::InText, reading),
    }
}

fn behind_backslash(byte: u8, reading: Reading) -> Result<Reading, AllocError>
    ensures { IfOk result (λ r. r ≡ behind_backslash byte reading) }
{
    if byte == b'$' {
        return with_byte(b'$', Place::BehindBoth, reading);
    }
    with_byte(unquoted(byte), Place::InText, reading)
}

fn behind_dollar(byte: u8, reading: Reading) -> Result<Reading, AllocError>
    ensures { IfOk result (λ r. r ≡ behind_dollar byte reading) }
{
    if byte == b'{' {
        return Ok(moved(Place::InName, reading));
    }
    let told = with_byte(b'$', Place::InText, reading)?;
    in_text(byte, told)
}

fn behind_both(byte: u8, reading: Reading) -> Result<Reading, AllocError>
    ensures { IfOk result (λ r. r ≡ behind_both byte reading) }
{
    if byte == b'{' {
        return Ok(moved(Place::InName, reading));
    }
    in_text(byte, reading)
}

fn with_letter(byte: u8, reading: Reading) -> Result<Reading, AllocError>
    ensures { IfOk result (λ r. (r.pieces ≡ reading.pieces) × (r.place ≡ reading.place)
        × (r.name ≡ reading.name ++ to_ascii_lowercase byte ∷ []) × (r.width ≡ reading.width)
        × (r.left ≡ reading.left)) }
{
    let mut name = reading.name;
    name.push(byte.to_ascii_lowercase())?;
    Ok(Reading { name, ..reading })
}

fn in_name(alloc: Global, byte: u8, reading: Reading) -> Result<Reading, AllocError>
    ensures { IfOk result (λ r. r ≡ in_name byte reading) }
{
    match byte {
        b'}' => with_field(alloc, reading),
        b';' => Ok(moved(Place::BehindSemicolon, reading)),
        _ => with_letter(byte, reading),
    }
}

fn is_first_digit(byte: u8) -> bool
    ensures { result ≡ is_first_digit byte }
{
    b'1' <= byte && byte <= b'9'
}

fn behind_sign(byte: u8, reading: Reading) -> Reading
    ensures { result ≡ behind_sign byte reading }
{
    if !is_first_digit(byte) {
        return moved(Place::Nowhere, reading);
    }
    Reading {
        place: Place::InWidth,
        width: (byte - b'0') as u32,
        ..reading
    }
}

fn behind_semicolon(byte: u8, reading: Reading) -> Reading
    ensures { result ≡ behind_semicolon byte reading }
{
    if byte != b'-' {
        return behind_sign(byte, reading);
    }
    Reading {
        place: Place::BehindSign,
        left: true,
        ..reading
    }
}

fn with_digit(byte: u8, reading: Reading) -> Reading
    ensures { result ≡ with_digit byte reading }
{
    if !(byte.is_ascii_digit() && reading.width < 10000) {
        return moved(Place::Nowhere, reading);
    }
    Reading {
        width: 10 * reading.width + (byte - b'0') as u32,
        ..reading
    }
}

fn in_width(alloc: Global, byte: u8, reading: Reading) -> Result<Reading, AllocError>
    ensures { IfOk result (λ r. r ≡ in_width byte reading) }
{
    if byte == b'}' {
        return with_field(alloc, reading);
    }
    Ok(with_digit(byte, reading))
}

fn behind_byte(alloc: Global, reading: Reading, byte: u8) -> Result<Reading, AllocError>
    ensures { IfOk result (λ r. r ≡ behind_byte reading byte) }
{
    match reading.place {
        Place::InText => in_text(byte, reading),
        Place::BehindBackslash => behind_backslash(byte, reading),
        Place::BehindDollar => behind_dollar(byte, reading),
        Place::BehindBoth => behind_both(byte, reading),
        Place::InName => in_name(alloc, byte, reading),
        Place::BehindSemicolon => Ok(behind_semicolon(byte, reading)),
        Place::BehindSign => Ok(behind_sign(byte, reading)),
        Place::InWidth => in_width(alloc, byte, reading),
        Place::Nowhere => Ok(reading),
    }
}

fn read_bytes(alloc: Global, format: &[u8]) -> Result<Reading, AllocError>
    ensures { IfOk result (λ r. r ≡ fold behind_byte begun format.now) }
{
    let mut reading = begun(alloc);
    for byte in format {
        reading = behind_byte(alloc, reading, *byte)?;
    }
    Ok(reading)
}

fn finished(reading: Reading) -> Result<Option<Pieces>, AllocError>
    ensures { IfOk result (λ read. read ≡ finished reading) }
{
    match reading.place {
        Place::InText | Place::BehindBackslash | Place::BehindBoth => Ok(Some(reading.pieces)),
        Place::BehindDollar => {
            let told = with_byte(b'$', Place::InText, reading)?;
            Ok(Some(told.pieces))
        }
        _ => Ok(None),
    }
}

/// The pieces of a format, or nothing where it can't be read: an empty one, a field that doesn't end,
/// or a width that is no number of one to five digits without a zero before them.
pub fn read_format(alloc: Global, format: &[u8]) -> Result<Option<Pieces>, AllocError>
    ensures { IfOk result (λ read. read ≡ pieces_of format.now) }
{
    if format.is_empty() {
        return Ok(None);
    }
    finished(read_bytes(alloc, format)?)
}
