// Writing an answer: to standard output first, and only where that was written whole, to standard error.
ghost use Rattle.std.specs.Prelude.{◌≡◌, ◌++◌, ◌≤◌, MatchBool, MatchOption, [], Option, ℕ, List};
ghost use Rattle.std.specs.Io.KnownBytes.{Appends, Keeps};
ghost use Rattle.command_line.specs.Printing.{AppendsPart};
ghost use Rattle.command_line.specs.Reports.{IsCut, IsGiven, wanting_answer};

use crate::answer::{Answer, FAILED};
use std::io::{ErrorKind, Write};

// What is left of a text after one write, unless the writer takes nothing more.
fn write_some<'a, W: Write>(writer: &mut W, text: &'a [u8]) -> Option<&'a [u8]>
    ensures { MatchOption result (Keeps (W.contents writer.old) (W.contents writer.new))
        (λ rest. (front : List ℕ) × (text.now ≡ front ++ rest.now) × Appends (W.contents writer.old)
        (W.contents writer.new) front) }
{
    match writer.write(text) {
        Ok(0) => None,
        Ok(count) => Some(&text[count..]),
        Err(error) if error.kind() == ErrorKind::Interrupted => Some(text),
        Err(_) => None,
    }
}

/// Whether all of a text could be written. Each turn writes a byte or more, but for a write that was
/// interrupted: the bound on the turns is there for a writer that is interrupted for ever.
pub(crate) fn write_whole<W: Write>(writer: &mut W, text: &[u8]) -> bool
    ensures written { MatchBool result (Appends (W.contents writer.old) (W.contents writer.new)
        text.now) (AppendsPart (W.contents writer.old) (W.contents writer.new) text.now) }
    ensures idle { text.now ≡ [] → writer.new ≡ writer.old }
{
    let mut left = text;
    for _ in 0..u64::MAX {
        if left.is_empty() {
            return true;
        }
        match write_some(writer, left) {
            Some(rest) => left = rest,
            None => return false,
        }
    }
    left.is_empty()
}

// Whether all of an answer could be written.
fn write_answer<O: Write, E: Write>(answer: &Answer, out: &mut O, err: &mut E) -> bool
    ensures written { MatchBool result (Appends (O.contents out.old) (O.contents out.new)
        answer.now.output × Appends (E.contents err.old) (E.contents err.new) answer.now.error)
        (IsCut answer.now (O.contents out.old) (O.contents out.new) (E.contents err.old)
        (E.contents err.new)) }
    ensures quiet { answer.now.output ≡ [] → out.new ≡ out.old }
{
    if !write_whole(out, answer.output.as_slice()) {
        return false;
    }
    write_whole(err, answer.error.as_str().as_bytes())
}

/// Writes an answer and gives its status. A failed write ends with status 2.
pub(crate) fn give<O: Write, E: Write>(answer: &Answer, out: &mut O, err: &mut E) -> u8
    ensures given { IsGiven answer.now (O.contents out.old) (O.contents out.new)
        (E.contents err.old) (E.contents err.new) result }
    ensures quiet { answer.now.output ≡ [] → out.new ≡ out.old }
    ensures bound { answer.now.status ≤ 2 → result ≤ 2 }
{
    if write_answer(answer, out, err) {
        return answer.status;
    }
    FAILED
}

/// Writes to standard error that memory was wanting for the answer, of which the first lines may be written, and gives status 2.
pub(crate) fn give_want_of_memory<E: Write>(err: &mut E) -> u8
    ensures given { (front : List ℕ) (old new : Option (List ℕ)) → Appends old new front
        → IsGiven (wanting_answer front) old new (E.contents err.old) (E.contents err.new) result }
    ensures status { result ≡ 2 }
{
    let _ = write_whole(err, b"broken memory\n");
    FAILED
}
