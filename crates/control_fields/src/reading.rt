// Reading control text line by line.
ghost use Rattle.std.specs.Prelude.{◌≡◌, ◌≤◌, ◌<◌, ◌↔◌, IsTrue, IfSome, IfNone, IfOk, OnOk, IfErr, List, length, None, false, [], ◌++◌, ◌∷◌};
ghost use Rattle.control_fields.specs.Names.{Lacks, settled_last, IsName, stands, with_line, begin_line};
ghost use Rattle.control_fields.specs.Told.{told};
ghost use Rattle.control_fields.specs.declared.field.Field.{Field as AField};
ghost use Rattle.control_fields.specs.declared.reading.LineFault.TheVariants as line;
ghost use Rattle.control_fields.specs.Grammar.{lines_of, field_of, Reading, start, nothing, with_last, Takes, Run, Reads, ReadsOne, paragraphs_of};
ghost use Rattle.control_fields.specs.Faults.{IsFaultOf, IsFaultOfOne, IsReadTo, StopsAt, IsLineFault, IsFaultHere};

use crate::blanks::{is_blank, trim_end, trim_start};
use crate::fault::ControlFault;
use crate::field::Field;
use crate::located::{ControlText, Located};
use crate::paragraph::Paragraph;
use std::alloc::{AllocError, AllocFailed, Global};
use texts::Bytes;

// What is wrong with a line.
enum Kind {
    NotUtf8,
    OrphanContinuation,
    NoColon,
    BadName,
    Twice,
}

impl Kind {
    // The fault of a line, by its number.
    fn at(self, number: u64) -> ControlFault
        ensures { result ≡ told self number }
    {
        match self {
            Kind::NotUtf8 => ControlFault::NotUtf8(number),
            Kind::OrphanContinuation => ControlFault::OrphanContinuation(number),
            Kind::NoColon => ControlFault::NoColon(number),
            Kind::BadName => ControlFault::BadName(number),
            Kind::Twice => ControlFault::Twice(number),
        }
    }
}

// Why a line wasn't taken.
enum LineFault {
    Faulty(Kind),
    NoMemory,
}

impl From<AllocError> for LineFault {
    ghost from_gives = { λ _ e. e ≡ line.NoMemory };

    fn from(_: AllocError) -> Self {
        LineFault::NoMemory
    }
}

impl<T: Drop> From<AllocFailed<T>> for LineFault {
    ghost from_gives = { λ _ e. e ≡ line.NoMemory };

    fn from(_: AllocFailed<T>) -> Self {
        LineFault::NoMemory
    }
}

// What stands before and after the first such byte.
fn cut(bytes: &[u8], mark: u8) -> Option<(&[u8], &[u8])>
    ensures some { IfSome result (λ parts. (bytes.now ≡ parts.0.now ++ mark ∷ parts.1.now)
        × Lacks parts.0.now mark) }
    ensures none { IfNone result (Lacks bytes.now mark) }
{
    for (i, b) in bytes.iter().enumerate() {
        if *b == mark {
            let (front, rest) = bytes.split_at(i);
            return Some((front, &rest[1..]));
        }
    }
    None
}

// Whether a field may have this name.
fn is_name(name: &[u8]) -> bool
    ensures { IsTrue result ↔ IsName name.now }
{
    if name.is_empty() || name[0] == b'#' || name[0] == b'-' {
        return false;
    }
    name.iter().all(|b| *b > 32 && *b < 127)
}

// The paragraph ends, if it has fields.
fn close(alloc: Global, done: &mut Vec<Located>, begun: &mut Located) -> Result<(), AllocError>
    ensures done { OnOk result (done.new.items ≡ with_last done.old.items begun.old) }
    ensures begun { OnOk result (begun.new ≡ nothing) }
{
    if begun.paragraph.is_empty() {
        begun.line = 0;
        return Ok(());
    }
    begun.paragraph.settle()?;
    done.push(std::mem::replace(begun, Located::new(alloc)))?;
    Ok(())
}

// The last field goes on with the line, as it stands.
fn add_line(alloc: Global, line: &[u8], begun: &mut Located) -> Result<(), AllocError>
    ensures line { OnOk result (begun.new.line ≡ begun.old.line) }
    ensures paragraph { OnOk result ((front : List AField) (last : AField)
        → begun.old.paragraph ≡ front ++ last ∷ [] → begun.new.paragraph ≡ front ++ with_line last
        line.now ∷ []) }
{
    begun.paragraph.push_line(Bytes::from_slice(alloc, line)?)
}

// A field begins on the line of this number, and the one before it has ended.
fn add_field(
    alloc: Global,
    number: u64,
    name: &[u8],
    value: &[u8],
    begun: &mut Located,
) -> Result<(), AllocError>
    requires { stands name.now begun.old.paragraph ≡ false }
    ensures line { OnOk result (begun.new.line ≡ begin_line begun.old.paragraph begun.old.line
        number) }
    ensures paragraph { OnOk result (begun.new.paragraph ≡ settled_last begun.old.paragraph
        ++ field_of name.now value.now ∷ []) }
{
    begun.paragraph.settle()?;
    begun.push(number, Field::one_line(alloc, name, trim_start(value))?)
}

fn take_line(
    alloc: Global,
    line: &[u8],
    number: u64,
    done: &mut Vec<Located>,
    begun: &mut Located,
) -> Result<(), LineFault>
    ensures takes { OnOk result (Takes number line.now (record {
      done = done.old.items;
      begun = begun.old;
    }) (record { done = done.new.items; begun = begun.new })) }
    ensures fault { IfErr result (λ fault. IsLineFault fault line.now
        (record { done = done.old.items; begun = begun.old }) (record {
          done = done.new.items;
          begun = begun.new;
        })) }
{
    if std::str::from_utf8(line).is_err() {
        return Err(LineFault::Faulty(Kind::NotUtf8));
    }
    match trim_end(line) {
        [] => {
            close(alloc, done, begun)?;
            return Ok(());
        }
        [begin, ..] if is_blank(*begin) => {
            if begun.paragraph.is_empty() {
                return Err(LineFault::Faulty(Kind::OrphanContinuation));
            }
            add_line(alloc, line, begun)?;
            return Ok(());
        }
        _ => {
            let Some((name, value)) = cut(line, b':') else {
                return Err(LineFault::Faulty(Kind::NoColon));
            };
            if !is_name(name) {
                return Err(LineFault::Faulty(Kind::BadName));
            }
            if begun.paragraph.finds(name)? {
                return Err(LineFault::Faulty(Kind::Twice));
            }
            add_field(alloc, number, name, value, begun)?;
            return Ok(());
        }
    }
}

// Whether there are two paragraphs, the one that is being read with them.
fn is_second(done: &[Located], begun: &Located) -> bool
    ensures { IsTrue result ↔ (1 < length (with_last done.now begun.now)) }
{
    if begun.paragraph.is_empty() {
        done.len() > 1
    } else {
        !done.is_empty()
    }
}

fn take_at(
    alloc: Global,
    line: &[u8],
    number: u64,
    single: bool,
    done: &mut Vec<Located>,
    begun: &mut Located,
) -> Result<(), ControlFault>
    ensures takes { OnOk result (Takes number line.now (record {
      done = done.old.items;
      begun = begun.old;
    }) (record { done = done.new.items; begun = begun.new })) }
    ensures one { OnOk result (IsTrue single → length (with_last done.new.items begun.new) ≤ 1) }
    ensures fault { IfErr result (λ fault. IsFaultHere single fault number line.now
        (record { done = done.old.items; begun = begun.old }) (record {
          done = done.new.items;
          begun = begun.new;
        })) }
{
    match take_line(alloc, line, number, done, begun) {
        Ok(()) => {}
        Err(LineFault::Faulty(kind)) => return Err(kind.at(number)),
        Err(LineFault::NoMemory) => return Err(ControlFault::NoMemory),
    }
    if single && is_second(done, begun) {
        return Err(ControlFault::Second(number));
    }
    Ok(())
}

// Reads all lines, or those before the first that is faulty.
fn read_lines(
    alloc: Global,
    bytes: &[u8],
    single: bool,
    done: &mut Vec<Located>,
    begun: &mut Located,
) -> Result<(), ControlFault>
    requires done { done.old.items ≡ [] }
    requires begun { begun.old ≡ nothing }
    ensures run { OnOk result (Run 1 (lines_of bytes.now) start (record {
      done = done.new.items;
      begun = begun.new;
    })) }
    ensures one { OnOk result (IsTrue single → length (with_last done.new.items begun.new) ≤ 1) }
    ensures fault { IfErr result (λ fault. StopsAt single (lines_of bytes.now) fault
        (record { done = done.new.items; begun = begun.new })) }
{
    let mut rest = bytes;
    let mut number: u64 = 1;
    while let Some((line, after)) = cut(rest, b'\n') {
        take_at(alloc, line, number, single, done, begun)?;
        rest = after;
        number += 1;
    }
    take_at(alloc, rest, number, single, done, begun)?;
    Ok(())
}

// Reads the whole text, or its lines before the first that is faulty.
fn read_text(
    alloc: Global,
    bytes: &[u8],
    single: bool,
    done: &mut Vec<Located>,
    begun: &mut Located,
) -> Result<(), ControlFault>
    requires done { done.old.items ≡ [] }
    requires begun { begun.old ≡ nothing }
    ensures read { OnOk result (IsReadTo (lines_of bytes.now) done.new.items begun.new None) }
    ensures one { OnOk result (IsTrue single → length done.new.items ≤ 1) }
    ensures fault { IfErr result (λ fault. StopsAt single (lines_of bytes.now) fault
        (record { done = done.new.items; begun = begun.new })) }
{
    read_lines(alloc, bytes, single, done, begun)?;
    close(alloc, done, begun)?;
    Ok(())
}

/// The paragraphs of a control text, as far as it can be read.
pub fn read_located(alloc: Global, bytes: &[u8]) -> Result<ControlText, AllocError>
    ensures { IfOk result (λ text. IsReadTo (lines_of bytes.now) text.paragraphs.items text.begun
        text.fault) }
{
    let mut paragraphs = Vec::new(alloc);
    let mut begun = Located::new(alloc);
    match read_text(alloc, bytes, false, &mut paragraphs, &mut begun) {
        Ok(()) => Ok(ControlText {
            paragraphs,
            begun,
            fault: None,
        }),
        Err(ControlFault::NoMemory) => Err(AllocError),
        Err(fault) => {
            begun.paragraph.settle()?;
            Ok(ControlText {
                paragraphs,
                begun,
                fault: Some(fault),
            })
        }
    }
}

// The whole paragraphs, without what was begun.
fn read_all(
    alloc: Global,
    bytes: &[u8],
    single: bool,
    done: &mut Vec<Located>,
) -> Result<(), ControlFault>
    requires { done.old.items ≡ [] }
    ensures reads { OnOk result (Reads (lines_of bytes.now) (paragraphs_of done.new.items)) }
    ensures one { OnOk result (IsTrue single → length done.new.items ≤ 1) }
    ensures fault { IfErr result (λ fault. (state : Reading) × StopsAt single (lines_of bytes.now)
        fault state) }
{
    let mut begun = Located::new(alloc);
    read_text(alloc, bytes, single, done, &mut begun)
}

/// The paragraphs of a control text.
pub fn read_paragraphs(alloc: Global, bytes: &[u8]) -> Result<Vec<Paragraph>, ControlFault>
    ensures reads { IfOk result (λ paragraphs. Reads (lines_of bytes.now) paragraphs.items) }
    ensures fault { IfErr result (IsFaultOf (lines_of bytes.now)) }
{
    let mut done = Vec::new(alloc);
    read_all(alloc, bytes, false, &mut done)?;
    Ok(without_lines(alloc, done)?)
}

fn without_lines(alloc: Global, located: Vec<Located>) -> Result<Vec<Paragraph>, AllocError>
    ensures { IfOk result (λ paragraphs. paragraphs.items ≡ paragraphs_of located.items) }
{
    let mut paragraphs = Vec::new(alloc);
    for one in located {
        paragraphs.push(one.paragraph)?;
    }
    Ok(paragraphs)
}

/// The one paragraph of a control text; a text without paragraphs gives one without fields.
pub fn read_one(alloc: Global, bytes: &[u8]) -> Result<Paragraph, ControlFault>
    ensures reads { IfOk result (ReadsOne (lines_of bytes.now)) }
    ensures fault { IfErr result (IsFaultOfOne (lines_of bytes.now)) }
{
    let mut done = Vec::new(alloc);
    read_all(alloc, bytes, true, &mut done)?;
    match done.pop() {
        Some(one) => Ok(one.paragraph),
        None => Ok(Paragraph::new(alloc)),
    }
}
