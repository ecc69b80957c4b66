// Why dpkg's words aren't carried out.
ghost use Rattle.std.specs.Prelude.{◌≡◌, ◌++◌, IfOk, codes, string_bytes};
ghost use Rattle.std.specs.Fmt.{decimal};
ghost use Rattle.shown_lines.specs.Lines.{shown};
ghost use Rattle.dpkg_words.specs.Refusals.{fault_line, line_fault, why_text};

use shown_lines::shown;
use std::alloc::{AllocError, Global};
use texts::Text;

/// What is wrong with a word.
#[derive(Clone, Copy)]
pub(crate) enum Why {
    Unknown,
    NoValue,
    ValueTaken,
    Conflict,
    NoAction,
    Thing,
    Administration,
    RelativeRoot,
    NoWords,
    OneWord,
    ThreeWords,
    Words,
    Pattern,
    Filter,
    Number,
    Limit,
}

fn why_text(why: Why) -> &'static str
    ensures { result.now ≡ why_text why }
{
    match why {
        Why::Unknown => "unknown option ",
        Why::NoValue => "the last option takes a value",
        Why::ValueTaken => "no value is taken by ",
        Why::Conflict => "conflicting actions, the second one is ",
        Why::NoAction => "need an action option",
        Why::Thing => "unknown thing to force or refuse in ",
        Why::Administration => "the administration is var/lib/dpkg of the root, and not ",
        Why::RelativeRoot => "the root is no absolute directory: ",
        Why::NoWords => "a word is wanted behind ",
        Why::OneWord => "one word is taken behind ",
        Why::ThreeWords => "VERSION OPERATOR VERSION are wanted behind ",
        Why::Words => "no word is taken behind ",
        Why::Pattern => "only a path or a pattern of * and ? can be searched for, and not ",
        Why::Filter => "only a pattern of * and ? without quotes is taken for paths, and not ",
        Why::Number => "invalid integer for --status-fd: ",
        Why::Limit => "invalid integer for --abort-after: ",
    }
}

fn line_of(alloc: Global, why: &str, word: &str) -> Result<String, AllocError>
    ensures { IfOk result (λ text. string_bytes text
        ≡ codes "error: " ++ (why.now ++ (word.now ++ codes "\n"))) }
{
    format!(in alloc; "error: {why}{word}\n")
}

fn line_text(alloc: Global, number: usize) -> Result<String, AllocError>
    ensures { IfOk result (λ text. string_bytes text
        ≡ codes "error: PKG WANT is wanted in line " ++ (decimal number ++ codes "\n")) }
{
    format!(in alloc; "error: PKG WANT is wanted in line {number}\n")
}

/// The line that tells which line of standard input can't be read.
pub(crate) fn line_fault(alloc: Global, number: usize) -> Result<Text, AllocError>
    ensures { IfOk result (λ text. text ≡ line_fault number) }
{
    Ok(Text::new(line_text(alloc, number)?))
}

/// The line that tells it.
pub(crate) fn fault_line(alloc: Global, why: Why, word: &str) -> Result<Text, AllocError>
    ensures { IfOk result (λ text. text ≡ fault_line why word.now) }
{
    let word = shown(alloc, word)?;
    Ok(Text::new(line_of(alloc, why_text(why), word.as_str())?))
}
