// Standard error for a program that reads it: the fixed lines alone.
ghost use Rattle.std.specs.Prelude.{◌≤◌, None, length};

use std::io::{self, Write};

// How the line begins that tells a person what was expected in a damaged file.
const FOR_A_PERSON: &[u8] = b"expected: ";

/// A stream that leaves out the lines for a person, where no person looks on.
#[derive(Drop)]
pub(crate) struct FixedLines<W: Write> {
    pub(crate) person: bool,
    pub(crate) writer: W,
}

// A text up to the line for a person, if it has one.
fn fixed(text: &[u8]) -> &[u8]
    ensures { length result.now ≤ length text.now }
{
    for (at, byte) in text.iter().enumerate() {
        if *byte == b'\n' && text[at + 1..].starts_with(FOR_A_PERSON) {
            return &text[..at + 1];
        }
    }
    text
}

impl<W: Write> Write for FixedLines<W> {
    // of what it writes nothing is claimed
    ghost contents = { λ _. None };

    fn write(&mut self, buf: &[u8]) -> io::Result<usize> {
        let text = if self.person { buf } else { fixed(buf) };
        let written = self.writer.write(text)?;
        if written == text.len() {
            return Ok(buf.len());
        }
        Ok(written)
    }

    fn flush(&mut self) -> io::Result<()> {
        self.writer.flush()
    }
}
