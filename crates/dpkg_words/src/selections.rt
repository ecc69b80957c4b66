// What is selected on standard input.
ghost use Rattle.std.specs.Prelude.{◌≡◌, ◌++◌, IfOk, OnOk, codes, filter, flat_map, map, string_bytes};
ghost use Rattle.dpkg_words.specs.Arguments.{plain_name};
ghost use Rattle.dpkg_words.specs.Selections.{bad_line, between, chosen, is_readable_by, is_remark, is_selection, is_want, is_word, selected_by, selected_from, selecting_words, selections_in, words_of};

use crate::arguments::plain_name;
use crate::own_words::OwnWords;
use crate::refusals::line_fault;
use std::alloc::{AllocError, Global};
use texts::{Text, Texts};

/// What a text selects.
#[derive(Drop)]
pub enum Selected {
    /// The program's own words, by which it is recorded.
    Ours(OwnWords),
    /// No package is selected.
    Nothing,
    /// A line for standard error that tells which line can't be read; the status is 2.
    Refused(Text),
}

pub(crate) fn between_newlines(alloc: Global, text: &str) -> Result<Vec<&str>, AllocError>
    ensures { IfOk result (λ pieces. map (λ t. t.now) pieces.items ≡ between 10 text.now) }
{
    text.split('\n').collect(alloc)
}

fn between_spaces(alloc: Global, text: &str) -> Result<Vec<&str>, AllocError>
    ensures { IfOk result (λ pieces. map (λ t. t.now) pieces.items ≡ between 32 text.now) }
{
    text.split(' ').collect(alloc)
}

fn between_tabs(alloc: Global, text: &str) -> Result<Vec<&str>, AllocError>
    ensures { IfOk result (λ pieces. map (λ t. t.now) pieces.items ≡ between 9 text.now) }
{
    text.split('\t').collect(alloc)
}

fn push_words(alloc: Global, words: &mut Texts, pieces: &[&str]) -> Result<(), AllocError>
    ensures { OnOk result (words.new
        ≡ words.old ++ filter is_word (map (λ t. t.now) pieces.now)) }
{
    for piece in pieces {
        if !piece.is_empty() {
            words.push(Text::from_str(alloc, piece)?)?;
        }
    }
    Ok(())
}

fn push_between_tabs(alloc: Global, words: &mut Texts, piece: &str) -> Result<(), AllocError>
    ensures { OnOk result (words.new ≡ words.old ++ filter is_word (between 9 piece.now)) }
{
    let pieces = between_tabs(alloc, piece)?;
    push_words(alloc, words, pieces.as_slice())
}

fn words_between(alloc: Global, pieces: &[&str]) -> Result<Texts, AllocError>
    ensures { IfOk result (λ words. words
        ≡ flat_map (λ piece. filter is_word (between 9 piece)) (map (λ t. t.now) pieces.now)) }
{
    let mut words = Texts::new(alloc);
    for piece in pieces {
        push_between_tabs(alloc, &mut words, piece)?;
    }
    Ok(words)
}

pub(crate) fn words_of(alloc: Global, line: &str) -> Result<Texts, AllocError>
    ensures { IfOk result (λ words. words ≡ words_of line.now) }
{
    let pieces = between_spaces(alloc, line)?;
    words_between(alloc, pieces.as_slice())
}

fn is_want(word: &str) -> bool
    ensures { result ≡ is_want word.now }
{
    match word {
        "deinstall" => true,
        "hold" => true,
        "install" => true,
        "purge" => true,
        _ => false,
    }
}

pub(crate) fn is_remark(words: &[Text]) -> bool
    ensures { result ≡ is_remark words.now }
{
    match words.first() {
        Some(word) => word.as_str().starts_with("#"),
        None => true,
    }
}

fn is_selection(words: &[Text]) -> bool
    ensures { result ≡ is_selection words.now }
{
    match words {
        [_, want] => is_want(want.as_str()),
        _ => false,
    }
}

fn is_readable_by(words: &[Text]) -> bool
    ensures { result ≡ is_readable_by words.now }
{
    is_remark(words) || is_selection(words)
}

fn bad_line(alloc: Global, lines: &[&str]) -> Result<Option<usize>, AllocError>
    ensures { IfOk result (λ number. number ≡ bad_line (map (λ t. t.now) lines.now)) }
{
    let mut number = 0;
    for line in lines {
        number += 1;
        let words = words_of(alloc, line)?;
        if !is_readable_by(words.as_slice()) {
            return Ok(Some(number));
        }
    }
    Ok(None)
}

fn selection_text(alloc: Global, name: &str, want: &str) -> Result<String, AllocError>
    ensures { IfOk result (λ text. string_bytes text ≡ name.now ++ (codes "=" ++ want.now)) }
{
    format!(in alloc; "{name}={want}")
}

fn selection(alloc: Global, name: &Text, want: &Text) -> Result<Text, AllocError>
    ensures { IfOk result (λ text. text ≡ plain_name name.now ++ (codes "=" ++ want.now)) }
{
    let text = selection_text(alloc, plain_name(name.as_str()), want.as_str())?;
    Ok(Text::new(text))
}

// Adds what a line of these words selects.
fn push_selected(alloc: Global, selections: &mut Texts, words: &[Text]) -> Result<(), AllocError>
    ensures { OnOk result (selections.new ≡ selections.old ++ selected_by words.now) }
{
    if is_remark(words) {
        return Ok(());
    }
    match words {
        [name, want] => selections.push(selection(alloc, name, want)?),
        _ => Ok(()),
    }
}

fn selections_in(alloc: Global, lines: &[&str]) -> Result<Texts, AllocError>
    ensures { IfOk result (λ all. all ≡ selections_in (map (λ t. t.now) lines.now)) }
{
    let mut selections = Texts::new(alloc);
    for line in lines {
        let words = words_of(alloc, line)?;
        push_selected(alloc, &mut selections, words.as_slice())?;
    }
    Ok(selections)
}

fn chosen(front: &OwnWords, selections: &[Text]) -> Result<Selected, AllocError>
    ensures { IfOk result (λ come. come ≡ chosen front.now selections.now) }
{
    if selections.is_empty() {
        return Ok(Selected::Nothing);
    }
    Ok(Selected::Ours(front.copy_with(selections)?))
}

fn selected_from(alloc: Global, front: &OwnWords, lines: &[&str]) -> Result<Selected, AllocError>
    ensures { IfOk result (λ come. come
        ≡ selected_from front.now (map (λ t. t.now) lines.now)) }
{
    match bad_line(alloc, lines)? {
        Some(number) => Ok(Selected::Refused(line_fault(alloc, number)?)),
        None => {
            let selections = selections_in(alloc, lines)?;
            chosen(front, selections.as_slice())
        }
    }
}

/// What a text selects, whose lines are `PKG WANT`, with the program's own words before what is selected.
pub fn selecting_words(alloc: Global, front: &OwnWords, text: &str) -> Result<Selected, AllocError>
    ensures { IfOk result (λ come. come ≡ selecting_words front.now text.now) }
{
    let lines = between_newlines(alloc, text)?;
    selected_from(alloc, front, lines.as_slice())
}
