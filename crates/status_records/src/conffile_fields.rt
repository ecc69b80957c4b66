// Reading the lines of the fields `Conffiles` and `New-Conffiles`.
ghost use Rattle.std.specs.Prelude.{◌≡◌, ◌≤◌, ◌↔◌, ◌&&◌, ◌++◌, ◌∷◌, [], ◌==◌, not, OnOk, IsTrue, true, false, length, is_some, IfOk, IfSome, MatchOption};
ghost use Rattle.std.specs.List.{list_any, list_all};
ghost use Rattle.std.specs.Str.{bytes_eq};
ghost use Rattle.hex.specs.Hex.{encode_lower};
ghost use Rattle.control_fields.specs.Names.{is_blank, trim_end};
ghost use Rattle.conffiles.specs.Digests.{is_digest_text};
ghost use Rattle.status_records.specs.ConffilePaths.{is_ship_path, is_trimmed};
ghost use Rattle.status_records.specs.Digests.{is_recorded_text, digest_word};
ghost use Rattle.status_records.specs.ConffileFields.{word_start, last_word, words_before, without_word, line_text, text_before_removal, text_before_flags, conffile_words, pending_words, is_conffile_line, is_pending_line, are_apart, conffile_paths, pending_paths, IsConffileField, IsPendingField, words_of_conffile, words_of_pending};

use crate::entries::{ConffileEntry, PendingDigest};
use crate::names::Names;
use conffiles::Digest;
use control_fields::Field;
use host_core::ShipPath;
use std::alloc::{AllocError, Global};
use std::str;
use texts::{Bytes, Text};

pub(crate) fn is_blank(b: u8) -> bool
    ensures { result ≡ is_blank b }
{
    b == b' ' || b == b'\t'
}

// Without the spaces and tabs at the end.
pub(crate) fn trim_end(text: &[u8]) -> &[u8]
    ensures { result.now ≡ trim_end text.now }
{
    let mut rest = text;
    while let [front @ .., last] = rest {
        if !is_blank(*last) {
            return rest;
        }
        rest = front;
    }
    rest
}

fn word_start(text: &[u8]) -> usize
    ensures value { result ≡ word_start text.now }
    ensures within { result ≤ length text.now }
{
    let mut start = 0;
    for (i, b) in text.iter().enumerate() {
        if is_blank(*b) {
            start = i + 1;
        }
    }
    start
}

fn last_word(text: &[u8]) -> &[u8]
    ensures { result.now ≡ last_word text.now }
{
    &text[word_start(text)..]
}

fn words_before(text: &[u8]) -> &[u8]
    ensures { result.now ≡ words_before text.now }
{
    trim_end(&text[..word_start(text)])
}

fn without_word<'a>(text: &'a [u8], word: &[u8]) -> &'a [u8]
    ensures { result.now ≡ without_word word.now text.now }
{
    if last_word(text) == word {
        return words_before(text);
    }
    text
}

fn line_text(line: &[u8]) -> &[u8]
    ensures { result.now ≡ line_text line.now }
{
    match line {
        [_, text @ ..] => trim_end(text),
        [] => line,
    }
}

fn text_before_removal(line: &[u8]) -> &[u8]
    ensures { result.now ≡ text_before_removal line.now }
{
    without_word(line_text(line), b"remove-on-upgrade")
}

fn text_before_flags(line: &[u8]) -> &[u8]
    ensures { result.now ≡ text_before_flags line.now }
{
    without_word(text_before_removal(line), b"obsolete")
}

fn conffile_path(line: &[u8]) -> &[u8]
    ensures { result.now ≡ (conffile_words line.now).path }
{
    words_before(text_before_flags(line))
}

fn pending_path(line: &[u8]) -> &[u8]
    ensures { result.now ≡ (pending_words line.now).path }
{
    words_before(line_text(line))
}

fn is_obsolete(line: &[u8]) -> bool
    ensures { result ≡ (conffile_words line.now).obsolete }
{
    last_word(text_before_removal(line)) == b"obsolete".as_slice()
}

fn is_removed_on_upgrade(line: &[u8]) -> bool
    ensures { result ≡ (conffile_words line.now).remove_on_upgrade }
{
    last_word(line_text(line)) == b"remove-on-upgrade".as_slice()
}

fn ship_path(alloc: Global, text: &[u8]) -> Result<Option<ShipPath>, AllocError>
    ensures { IfOk result (λ o. MatchOption o (is_ship_path text.now ≡ false)
        (λ path. (is_ship_path text.now ≡ true) × (path ≡ text.now))) }
{
    match str::from_utf8(text) {
        Ok(text) => ShipPath::parse(alloc, text),
        Err(_) => Ok(None),
    }
}

fn digest_of(text: &[u8]) -> Option<Digest>
    ensures exact { is_some result ≡ is_digest_text text.now }
    ensures value { IfSome result (λ digest. encode_lower digest ≡ text.now) }
{
    match str::from_utf8(text) {
        Ok(text) => Digest::parse(text),
        Err(_) => None,
    }
}

// A recorded digest, `None` within for a conffile of which no version is settled yet.
fn recorded_digest(text: &[u8]) -> Option<Option<Digest>>
    ensures exact { is_some result ≡ is_recorded_text text.now }
    ensures value { IfSome result (λ digest. digest_word digest ≡ text.now) }
{
    if text == b"newconffile".as_slice() {
        return Some(None);
    }
    match digest_of(text) {
        Some(digest) => Some(Some(digest)),
        None => None,
    }
}

/// The entry of a line of `Conffiles`, if it can be read.
pub(crate) fn conffile_of(alloc: Global, line: &[u8]) -> Result<Option<ConffileEntry>, AllocError>
    ensures { IfOk result (λ o. MatchOption o (is_conffile_line line.now ≡ false)
        (λ e. (is_conffile_line line.now ≡ true)
        × (words_of_conffile e ≡ conffile_words line.now))) }
{
    let Some(digest) = recorded_digest(last_word(text_before_flags(line))) else {
        return Ok(None);
    };
    let obsolete = is_obsolete(line);
    let remove_on_upgrade = is_removed_on_upgrade(line);
    match ship_path(alloc, conffile_path(line))? {
        Some(path) => Ok(Some(ConffileEntry::new(path, digest, obsolete, remove_on_upgrade))),
        None => Ok(None),
    }
}

/// The same of a line of `New-Conffiles`.
pub(crate) fn pending_of(alloc: Global, line: &[u8]) -> Result<Option<PendingDigest>, AllocError>
    ensures { IfOk result (λ o. MatchOption o (is_pending_line line.now ≡ false)
        (λ p. (is_pending_line line.now ≡ true) × (words_of_pending p ≡ pending_words line.now))) }
{
    let Some(digest) = digest_of(last_word(line_text(line))) else {
        return Ok(None);
    };
    match ship_path(alloc, pending_path(line))? {
        Some(path) => Ok(Some(PendingDigest::new(path, digest))),
        None => Ok(None),
    }
}

// Whether a path is new to those so far, which have it from now on.
fn is_new(alloc: Global, seen: &mut Names, path: &ShipPath) -> Result<bool, AllocError>
    ensures new { IfOk result (λ new. new ≡ not (list_any (bytes_eq path.now) seen.old)) }
    ensures seen { OnOk result (seen.new ≡ seen.old ++ path.now ∷ []) }
{
    let new = !seen.has(path.as_str());
    seen.push(Text::from_str(alloc, path.as_str())?)?;
    Ok(new)
}

// Whether each line can be read, and no path stands twice.
fn are_conffile_lines(alloc: Global, lines: &[Bytes]) -> Result<bool, AllocError>
    ensures { IfOk result (λ good. good ≡ (list_all is_conffile_line lines.now && are_apart
        (conffile_paths lines.now))) }
{
    let mut seen = Names::new(alloc);
    for line in lines {
        let Some(entry) = conffile_of(alloc, line.as_slice())? else {
            return Ok(false);
        };
        if !is_new(alloc, &mut seen, &entry.path)? {
            return Ok(false);
        }
    }
    Ok(true)
}

fn are_pending_lines(alloc: Global, lines: &[Bytes]) -> Result<bool, AllocError>
    ensures { IfOk result (λ good. good ≡ (list_all is_pending_line lines.now && are_apart
        (pending_paths lines.now))) }
{
    let mut seen = Names::new(alloc);
    for line in lines {
        let Some(pending) = pending_of(alloc, line.as_slice())? else {
            return Ok(false);
        };
        if !is_new(alloc, &mut seen, &pending.path)? {
            return Ok(false);
        }
    }
    Ok(true)
}

// Whether nothing stands on the field's own line.
fn begins_empty(field: &Field) -> bool
    ensures { result ≡ (length field.now.first == 0) }
{
    field.first.as_slice().is_empty()
}

/// Whether the value of a field `Conffiles` can be read.
pub(crate) fn is_conffile_field(alloc: Global, field: &Field) -> Result<bool, AllocError>
    ensures { IfOk result (λ good. IsTrue good ↔ IsConffileField field.now) }
{
    if !begins_empty(field) {
        return Ok(false);
    }
    are_conffile_lines(alloc, field.more.as_slice())
}

/// Whether the value of a field `New-Conffiles` can be read.
pub(crate) fn is_pending_field(alloc: Global, field: &Field) -> Result<bool, AllocError>
    ensures { IfOk result (λ good. IsTrue good ↔ IsPendingField field.now) }
{
    if !begins_empty(field) {
        return Ok(false);
    }
    are_pending_lines(alloc, field.more.as_slice())
}
