// Whether two files' bytes are the same. Those that are lent are read once more, in pieces of which none is kept.
ghost use Rattle.std.specs.Prelude.{◌≡◌, ◌≤◌, ◌^◌, IfOk, OnOk, length, true};
ghost use Rattle.std.specs.Io.KnownBytes.{Consumes};
ghost use Rattle.host_files.specs.Compared.{HaveGiven};

use host_core::{Content, Lent};
use std::io::{Error, ErrorKind, Read};
use std::{fs, io};

// how many bytes of each are compared at once
const PIECE: u64 = 1 << 16;

/// The error for a file that was lent and has changed since.
pub(crate) fn not_as_read() -> Error {
    Error::other("a file of the tree isn't as it was read")
}

// Fills a piece with a reader's next bytes.
fn read_piece<R: Read>(reader: &mut R, piece: &mut [u8]) -> io::Result<()>
    ensures { OnOk result (Consumes (R.remaining reader.old) (R.remaining reader.new) piece.new) }
{
    match reader.read_exact(piece) {
        Err(error) if error.kind() == ErrorKind::UnexpectedEof => Err(not_as_read()),
        answer => answer,
    }
}

// Fills two pieces of one length with the next bytes of two readers, and tells whether these are the same.
fn fill_alike<R: Read, S: Read>(
    one: &mut R,
    first: &mut [u8],
    other: &mut S,
    second: &mut [u8],
) -> io::Result<bool>
    requires { length first.old ≡ length second.old }
    ensures { IfOk result (λ same. HaveGiven same (length first.old) (R.remaining one.old)
        (R.remaining one.new) (S.remaining other.old) (S.remaining other.new)) }
{
    read_piece(one, first)?;
    read_piece(other, second)?;
    Ok(*first == *second)
}

// Whether the next bytes of two readers, so many, are the same.
fn is_same_piece<R: Read, S: Read>(one: &mut R, other: &mut S, size: usize) -> io::Result<bool>
    requires { size ≤ 2 ^ 16 }
    ensures { IfOk result (λ same. HaveGiven same size (R.remaining one.old) (R.remaining one.new)
        (S.remaining other.old) (S.remaining other.new)) }
{
    let mut first = [0u8; PIECE as usize];
    let mut second = [0u8; PIECE as usize];
    fill_alike(one, &mut first[..size], other, &mut second[..size])
}

// The same of any number.
fn go_on_alike<R: Read, S: Read>(one: &mut R, other: &mut S, count: u64) -> io::Result<bool>
    ensures { IfOk result (λ same. HaveGiven same count (R.remaining one.old) (R.remaining one.new)
        (S.remaining other.old) (S.remaining other.new)) }
{
    let mut left = count;
    while left > 0 {
        let size = left.min(PIECE);
        if !is_same_piece(one, other, size as usize)? {
            return Ok(false);
        }
        left -= size;
    }
    Ok(true)
}

// Whether a file that is lent has these bytes, which are as many as it has.
fn has_bytes(rt: &HostRuntime, lent: &Lent, bytes: &[u8]) -> io::Result<bool> {
    let mut file = fs::open(rt, lent.place())?;
    let mut rest = bytes;
    go_on_alike(&mut file, &mut rest, lent.length())
}

// The same of two files of one length.
fn are_same_files(rt: &HostRuntime, one: &Lent, other: &Lent) -> io::Result<bool> {
    let mut first = fs::open(rt, one.place())?;
    let mut second = fs::open(rt, other.place())?;
    go_on_alike(&mut first, &mut second, one.length())
}

/// Whether two files' bytes are the same.
pub(crate) fn are_same(rt: &HostRuntime, one: &Content, other: &Content) -> io::Result<bool>
    ensures { IfOk result (λ same. same ≡ true → length one.now ≡ length other.now) }
{
    if one.length() != other.length() {
        return Ok(false);
    }
    match (one.source(), other.source()) {
        (None, None) => Ok(one.held()? == other.held()?),
        (Some(lent), None) => has_bytes(rt, lent, other.held()?),
        (None, Some(lent)) => has_bytes(rt, lent, one.held()?),
        (Some(one), Some(other)) => are_same_files(rt, one, other),
    }
}
