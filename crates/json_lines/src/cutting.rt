// Texts that are cut at a byte.
ghost use Rattle.std.specs.Prelude.{◌≡◌, IfOk, filter, map, option_map};
ghost use Rattle.json_lines.specs.Cutting.{before_colon, behind_blank, between, cut_at, cut_at_last_colon, is_piece, pieces};

use std::alloc::{AllocError, Global};
use texts::{Text, Texts};

fn between_newlines(alloc: Global, text: &str) -> Result<Vec<&str>, AllocError>
    ensures { IfOk result (λ pieces. map (λ t. t.now) pieces.items ≡ between 10 text.now) }
{
    text.split('\n').collect(alloc)
}

fn between_blanks(alloc: Global, text: &str) -> Result<Vec<&str>, AllocError>
    ensures { IfOk result (λ pieces. map (λ t. t.now) pieces.items ≡ between 32 text.now) }
{
    text.split(' ').collect(alloc)
}

fn between_tabs(alloc: Global, text: &str) -> Result<Vec<&str>, AllocError>
    ensures { IfOk result (λ pieces. map (λ t. t.now) pieces.items ≡ between 9 text.now) }
{
    text.split('\t').collect(alloc)
}

fn copies(alloc: Global, pieces: &[&str]) -> Result<Texts, AllocError>
    ensures { IfOk result (λ all. all ≡ map (λ t. t.now) pieces.now) }
{
    let mut all = Texts::new(alloc);
    for piece in pieces {
        all.push(Text::from_str(alloc, piece)?)?;
    }
    Ok(all)
}

// Copies of those that have a byte.
fn filled(alloc: Global, pieces: &[&str]) -> Result<Texts, AllocError>
    ensures { IfOk result (λ all. all ≡ filter is_piece (map (λ t. t.now) pieces.now)) }
{
    let mut all = Texts::new(alloc);
    for piece in pieces {
        if !piece.is_empty() {
            all.push(Text::from_str(alloc, piece)?)?;
        }
    }
    Ok(all)
}

/// The words of a line. Two blanks have an empty word between them.
pub(crate) fn words_of(alloc: Global, line: &str) -> Result<Texts, AllocError>
    ensures { IfOk result (λ words. words ≡ between 32 line.now) }
{
    let pieces = between_blanks(alloc, line)?;
    copies(alloc, pieces.as_slice())
}

/// The lines of a text, but for empty ones.
pub(crate) fn lines_of(alloc: Global, text: &str) -> Result<Texts, AllocError>
    ensures { IfOk result (λ lines. lines ≡ pieces 10 text.now) }
{
    let found = between_newlines(alloc, text)?;
    filled(alloc, found.as_slice())
}

/// What stands between the tabs of a line.
pub(crate) fn columns_of(alloc: Global, line: &str) -> Result<Texts, AllocError>
    ensures { IfOk result (λ columns. columns ≡ pieces 9 line.now) }
{
    let found = between_tabs(alloc, line)?;
    filled(alloc, found.as_slice())
}

/// What stands before the first colon, and what behind it.
pub(crate) fn cut_at_colon(text: &str) -> Option<(&str, &str)>
    ensures { option_map (λ parts. (parts.0.now, parts.1.now)) result ≡ cut_at 58 text.now }
{
    text.split_once(':')
}

/// What stands before the first blank, and what behind it.
pub(crate) fn cut_at_blank(text: &str) -> Option<(&str, &str)>
    ensures { option_map (λ parts. (parts.0.now, parts.1.now)) result ≡ cut_at 32 text.now }
{
    text.split_once(' ')
}

/// What stands before the last colon, and what behind it.
pub(crate) fn cut_at_last_colon(text: &str) -> Option<(&str, &str)>
    ensures { option_map (λ parts. (parts.0.now, parts.1.now)) result ≡ cut_at_last_colon text.now }
{
    text.rsplit_once(':')
}

/// What stands before the first colon, or the whole.
pub(crate) fn before_colon(text: &str) -> &str
    ensures { result.now ≡ before_colon text.now }
{
    match cut_at_colon(text) {
        Some((front, _)) => front,
        None => text,
    }
}

/// What stands behind the first blank, or the whole.
pub(crate) fn behind_blank(text: &str) -> &str
    ensures { result.now ≡ behind_blank text.now }
{
    match cut_at_blank(text) {
        Some((_, rest)) => rest,
        None => text,
    }
}
