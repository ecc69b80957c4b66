// The lines of a package's file `triggers`.
ghost use Rattle.std.specs.Prelude.{◌≡◌, Err, IfOk, MatchResult, Ok, map};
ghost use Rattle.trigger_interests.specs.Lines.{declarations_in, declares, line_by, line_of};

use crate::words::{Directive, directive_of, trigger_name, words_in};
use diversions::cut_line;
use std::alloc::{AllocError, Global};
use texts::Text;

/// What a line declares: that the package is interested in a trigger, or that it activates it.
#[derive(Drop)]
pub struct Declaration {
    pub directive: Directive,
    pub name: Text,
}

// What a line says.
#[derive(Drop)]
enum Line {
    Silent,
    Declares(Declaration),
    Faulty,
}

fn declares(alloc: Global, directive: Option<Directive>, name: &[u8]) -> Result<Line, AllocError>
    ensures { IfOk result (λ line. line ≡ declares directive name.now) }
{
    let Some(directive) = directive else {
        return Ok(Line::Faulty);
    };
    let Some(name) = trigger_name(name) else {
        return Ok(Line::Faulty);
    };
    let name = Text::from_str(alloc, name)?;
    Ok(Line::Declares(Declaration { directive, name }))
}

fn line_by(alloc: Global, words: &[&[u8]]) -> Result<Line, AllocError>
    ensures { IfOk result (λ line. line ≡ line_by (map (λ word. word.now) words.now)) }
{
    if words.is_empty() || words[0].starts_with(b"#") {
        return Ok(Line::Silent);
    }
    if words.len() != 2 {
        return Ok(Line::Faulty);
    }
    declares(alloc, directive_of(words[0]), words[1])
}

fn line_of(alloc: Global, line: &[u8]) -> Result<Line, AllocError>
    ensures { IfOk result (λ found. found ≡ line_of line.now) }
{
    let words = words_in(alloc, line)?;
    line_by(alloc, words.as_slice())
}

/// The declarations of a text, in the order of its lines, or the number of its first faulty line,
/// counted from 1.
pub fn read_declarations(
    alloc: Global,
    text: &[u8],
) -> Result<Result<Vec<Declaration>, usize>, AllocError>
    ensures { IfOk result
        (λ read. MatchResult read (λ found. declarations_in text.now ≡ Ok found.items)
        (λ line. declarations_in text.now ≡ Err line)) }
{
    let mut declarations = Vec::new(alloc);
    let mut rest = text;
    let mut number: usize = 1;
    while !rest.is_empty() {
        let (line, after) = cut_line(rest);
        match line_of(alloc, line)? {
            Line::Silent => {}
            Line::Declares(declaration) => declarations.push(declaration)?,
            Line::Faulty => return Ok(Err(number)),
        }
        rest = after;
        number += 1;
    }
    Ok(Ok(declarations))
}
