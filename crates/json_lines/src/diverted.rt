// A line of a diversion: who diverts, a path and its target.
ghost use Rattle.std.specs.Prelude.{◌≡◌, ◌++◌, IfOk, OnOk, string_bytes};
ghost use Rattle.json_lines.specs.Cutting.{cut_at};
ghost use Rattle.json_lines.specs.Diverted.{begins_path, diverted_parts, paths_in, up_to_path};

use crate::cutting::{cut_at_blank, words_of};
use crate::forms::Form;
use crate::members::{formed, push_copies};
use std::alloc::{AllocError, Global};
use texts::{Text, Texts};

/// Whether a word, or a line, begins with a path.
pub(crate) fn begins_path(word: &str) -> bool
    ensures { result ≡ begins_path word.now }
{
    word.starts_with("/")
}

fn add_up_to_path(path: &mut String, words: &[Text]) -> Result<(), AllocError>
    ensures { OnOk result (string_bytes path.new ≡ string_bytes path.old ++ up_to_path words.now) }
{
    for word in words {
        if begins_path(word.as_str()) {
            return Ok(());
        }
        path.push_str(" ")?;
        path.push_str(word.as_str())?;
    }
    Ok(())
}

fn path_from(alloc: Global, word: &str, words: &[Text]) -> Result<Text, AllocError>
    ensures { IfOk result (λ path. path ≡ word.now ++ up_to_path words.now) }
{
    let mut path = String::from_str(alloc, word)?;
    add_up_to_path(&mut path, words)?;
    Ok(Text::new(path))
}

// Each path with all its words.
fn paths_in(alloc: Global, words: &[Text]) -> Result<Texts, AllocError>
    ensures { IfOk result (λ paths. paths ≡ paths_in words.now) }
{
    let mut paths = Texts::new(alloc);
    let mut left = words;
    while let [word, rest @ ..] = left {
        if begins_path(word.as_str()) {
            paths.push(path_from(alloc, word.as_str(), rest)?)?;
        }
        left = rest;
    }
    Ok(paths)
}

/// The members of a line of a diversion.
pub(crate) fn diverted_members(alloc: Global, line: &str) -> Result<Texts, AllocError>
    ensures { IfOk result (λ members. members ≡ diverted_parts line.now (cut_at 32 line.now)) }
{
    let Some((diverter, rest)) = cut_at_blank(line) else {
        return formed(alloc, Form::Diverted, words_of(alloc, line)?.as_slice());
    };
    let paths = paths_in(alloc, words_of(alloc, rest)?.as_slice())?;
    let mut words = Texts::new(alloc);
    words.push(Text::from_str(alloc, diverter)?)?;
    push_copies(&mut words, paths.as_slice())?;
    formed(alloc, Form::Diverted, words.as_slice())
}
