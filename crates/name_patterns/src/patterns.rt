// Which texts a pattern matches.
ghost use Rattle.std.specs.Prelude.{◌≡◌, ◌&&◌, ◌<◌, ◌==◌, IfOk, false, get_or, length, not, suc};
ghost use Rattle.name_patterns.specs.Marks.{marked_behind};
ghost use Rattle.name_patterns.specs.Patterns as spec;

use crate::marks::{begun, moved, spread};
use std::alloc::{AllocError, Global};

// Whether a byte quotes the one behind it.
fn is_quoting(quoted: bool, sign: u8) -> bool
    ensures { result ≡ spec.is_quoting quoted sign }
{
    !quoted && sign == b'\\'
}

// The marks behind a byte of a pattern.
fn behind_sign(
    alloc: Global,
    quoted: bool,
    sign: u8,
    marks: Vec<bool>,
    text: &[u8],
) -> Result<Vec<bool>, AllocError>
    requires { length marks.items ≡ suc (length text.now) }
    ensures { IfOk result (λ behind. behind.items ≡ marked_behind quoted sign marks.items text.now) }
{
    if is_quoting(quoted, sign) {
        return Ok(marks);
    }
    if !quoted && sign == b'*' {
        return spread(alloc, marks.as_slice());
    }
    let wanted = if !quoted && sign == b'?' {
        None
    } else {
        Some(sign)
    };
    moved(alloc, wanted, marks.as_slice(), text)
}

// Whether the end of a text is marked, and nothing is still to be quoted.
fn is_whole(quoted: bool, marks: &[bool], end: usize) -> bool
    requires { end < length marks.now }
    ensures { result ≡ not quoted && get_or marks.now end false }
{
    !quoted && marks[end]
}

/// Whether a pattern matches the whole of a text.
pub fn matches(alloc: Global, pattern: &[u8], text: &[u8]) -> Result<bool, AllocError>
    ensures { IfOk result (λ is. is ≡ spec.matches pattern.now text.now) }
{
    let mut marks = begun(alloc, text)?;
    let mut quoted = false;
    for sign in pattern {
        marks = behind_sign(alloc, quoted, *sign, marks, text)?;
        quoted = is_quoting(quoted, *sign);
    }
    Ok(is_whole(quoted, marks.as_slice(), text.len()))
}

// Whether a byte is a bracket that isn't quoted.
fn is_bracket(quoted: bool, sign: u8) -> bool
    ensures { result ≡ not quoted && sign == 91 }
{
    !quoted && sign == b'['
}

/// Whether a pattern means here what it means to dpkg: it has no bracket that isn't quoted, and
/// doesn't end in a backslash that quotes nothing.
pub fn is_readable(pattern: &[u8]) -> bool
    ensures { result ≡ spec.is_readable pattern.now }
{
    let mut quoted = false;
    for sign in pattern {
        if is_bracket(quoted, *sign) {
            return false;
        }
        quoted = is_quoting(quoted, *sign);
    }
    !quoted
}

/// Whether a text has a star or a question mark, so that it is a pattern where a path could stand too.
pub fn is_wild(text: &[u8]) -> bool
    ensures { result ≡ spec.is_wild text.now }
{
    text.iter().any(|byte| *byte == b'*' || *byte == b'?')
}
