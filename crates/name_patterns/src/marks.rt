// Marks over a text: the places up to which a front of a pattern matches.
ghost use Rattle.std.specs.Prelude.{◌≡◌, ◌&&◌, ◌||◌, IfOk, false, length, suc};
ghost use Rattle.name_patterns.specs.Marks.{begun, moved, spread};
ghost use Rattle.name_patterns.specs.Patterns.{fits};

use std::alloc::{AllocError, Global};

/// The start alone is marked.
pub(crate) fn begun(alloc: Global, text: &[u8]) -> Result<Vec<bool>, AllocError>
    ensures { IfOk result (λ marks. marks.items ≡ begun text.now) }
{
    let mut marks = Vec::new(alloc);
    marks.push(true)?;
    for _byte in text {
        marks.push(false)?;
    }
    Ok(marks)
}

// Whether a place is behind a mark, or marked.
fn is_behind(seen: bool, mark: bool) -> bool
    ensures { result ≡ seen || mark }
{
    seen || mark
}

/// Behind any bytes, or none.
pub(crate) fn spread(alloc: Global, marks: &[bool]) -> Result<Vec<bool>, AllocError>
    ensures { IfOk result (λ behind. behind.items ≡ spread false marks.now) }
{
    let mut behind = Vec::new(alloc);
    let mut seen = false;
    for mark in marks {
        seen = is_behind(seen, *mark);
        behind.push(seen)?;
    }
    Ok(behind)
}

fn fits(wanted: Option<u8>, byte: u8) -> bool
    ensures { result ≡ fits wanted byte }
{
    match wanted {
        Some(wanted) => wanted == byte,
        None => true,
    }
}

// Whether the place behind a byte is behind a mark and a byte that fits.
fn is_next(mark: bool, wanted: Option<u8>, byte: u8) -> bool
    ensures { result ≡ mark && fits wanted byte }
{
    mark && fits(wanted, byte)
}

/// Behind one byte that fits.
pub(crate) fn moved(
    alloc: Global,
    wanted: Option<u8>,
    marks: &[bool],
    text: &[u8],
) -> Result<Vec<bool>, AllocError>
    requires { length marks.now ≡ suc (length text.now) }
    ensures { IfOk result (λ behind. behind.items ≡ moved wanted marks.now text.now) }
{
    let mut behind = Vec::new(alloc);
    behind.push(false)?;
    for (i, byte) in text.iter().enumerate() {
        behind.push(is_next(marks[i], wanted, *byte))?;
    }
    Ok(behind)
}
