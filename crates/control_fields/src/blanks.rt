// Blanks at the ends of lines.
ghost use Rattle.std.specs.Prelude.{◌≡◌, OnOk};
ghost use Rattle.control_fields.specs.Names.{is_blank, trim_end, trim_start};

use std::alloc::{AllocError, Global};
use texts::Bytes;

pub(crate) fn is_blank(b: u8) -> bool
    ensures { result ≡ is_blank b }
{
    b == b' ' || b == b'\t'
}

// Without the spaces and tabs at the end.
pub(crate) fn trim_end(line: &[u8]) -> &[u8]
    ensures { result.now ≡ trim_end line.now }
{
    let mut rest = line;
    while let [front @ .., last] = rest {
        if !is_blank(*last) {
            return rest;
        }
        rest = front;
    }
    rest
}

// Without the spaces and tabs at the start.
pub(crate) fn trim_start(line: &[u8]) -> &[u8]
    ensures { result.now ≡ trim_start line.now }
{
    let mut rest = line;
    while let [first, behind @ ..] = rest {
        if !is_blank(*first) {
            return rest;
        }
        rest = behind;
    }
    rest
}

// Drops the spaces and tabs at the end. Takes memory only where there are some.
pub(crate) fn drop_end(alloc: Global, line: &mut Bytes) -> Result<(), AllocError>
    ensures { OnOk result (line.new ≡ trim_end line.old) }
{
    let kept = trim_end(line.as_slice());
    if kept.len() == line.as_slice().len() {
        return Ok(());
    }
    *line = Bytes::from_slice(alloc, kept)?;
    Ok(())
}
