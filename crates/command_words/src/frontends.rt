// Who is told beside the lines: programs that read a descriptor, and a log.
ghost use Rattle.std.specs.Prelude.{◌≡◌, ◌++◌, ◌∷◌, [], false, IfOk, codes, fold, map, option_map, option_to_list, string_bytes};
ghost use Rattle.std.specs.Char.{is_ascii_digit};
ghost use Rattle.std.specs.List.{list_all};
ghost use Rattle.clap.specs.Words.{all_of, found_of, rows_of};
ghost use Rattle.command_words.specs.Frontends.{are_descriptors, begun, behind, has_descriptors, is_descriptor, is_plain_number, logs_of, scanned, status_fds_of, values_of};

use crate::found::all_texts_of;
use clap::ArgMatches;
use std::alloc::{AllocError, Global};
use texts::{Text, Texts};

/// What was found of an option among words so far.
#[derive(Drop)]
struct Scan {
    /// Whether the next word is its value.
    wants: bool,
    /// Whether the options are over.
    ended: bool,
    values: Texts,
}

fn are_digits(text: &str) -> bool
    ensures { result ≡ list_all is_ascii_digit text.now }
{
    text.as_bytes().iter().all(u8::is_ascii_digit)
}

fn is_plain_number(text: &str) -> bool
    ensures { result ≡ is_plain_number text.now }
{
    text == "0" || !text.starts_with("0")
}

/// Whether a text is the number of a descriptor.
pub(crate) fn is_descriptor(text: &str) -> bool
    ensures { result ≡ is_descriptor text.now }
{
    are_digits(text) && is_plain_number(text) && 0 < text.len() && text.len() <= 9
}

fn are_all(texts: &[&str]) -> bool
    ensures { result ≡ list_all is_descriptor (map (λ t. t.now) texts.now) }
{
    for text in texts {
        if !is_descriptor(text) {
            return false;
        }
    }
    true
}

fn are_descriptors(texts: Option<&[&str]>) -> bool
    ensures { result ≡ are_descriptors (option_map (λ s. map (λ t. t.now) s.now) texts.entry) }
{
    match texts {
        Some(texts) => are_all(texts),
        None => true,
    }
}

/// Whether each descriptor that is given is a number.
pub(crate) fn has_descriptors(found: &ArgMatches<'_>) -> bool
    ensures { result ≡ has_descriptors (rows_of (found_of found.now)) }
{
    are_descriptors(all_texts_of(found, "status-fd"))
}

/// What stands behind a front.
pub(crate) fn behind<'a>(front: &str, text: &'a str) -> Option<&'a str>
    ensures { option_map (λ s. s.now) result ≡ behind front.now text.entry.now }
{
    text.strip_prefix(front)
}

fn with_equals(alloc: Global, option: &str) -> Result<String, AllocError>
    ensures { IfOk result (λ text. string_bytes text ≡ option.now ++ codes "=") }
{
    format!(in alloc; "{option}=")
}

fn begun(alloc: Global) -> Scan
    ensures { result ≡ begun }
{
    Scan {
        wants: false,
        ended: false,
        values: Texts::new(alloc),
    }
}

fn with_value(alloc: Global, scan: Scan, value: &str) -> Result<Scan, AllocError>
    ensures { IfOk result (λ s. (s.wants ≡ false) × (s.ended ≡ scan.ended)
        × (s.values ≡ scan.values ++ value.now ∷ [])) }
{
    let mut values = scan.values;
    values.push(Text::from_str(alloc, value)?)?;
    Ok(Scan {
        wants: false,
        values,
        ..scan
    })
}

// A word that may be the option with its value.
fn with_attached(alloc: Global, option: &str, scan: Scan, word: &str) -> Result<Scan, AllocError>
    requires { scan.wants ≡ false }
    ensures { IfOk result (λ s. (s.wants ≡ false) × (s.ended ≡ scan.ended)
        × (s.values ≡ scan.values ++ option_to_list (behind (option.now ++ codes "=") word.now))) }
{
    let front = with_equals(alloc, option)?;
    match behind(front.as_str(), word) {
        Some(value) => with_value(alloc, scan, value),
        None => Ok(scan),
    }
}

fn scanned(alloc: Global, option: &str, scan: Scan, word: &str) -> Result<Scan, AllocError>
    ensures { IfOk result (λ s. s ≡ scanned option.now scan word.now) }
{
    if scan.ended {
        return Ok(scan);
    }
    if scan.wants {
        return with_value(alloc, scan, word);
    }
    if word == "--" {
        return Ok(Scan {
            ended: true,
            ..scan
        });
    }
    if word == option {
        return Ok(Scan {
            wants: true,
            ..scan
        });
    }
    with_attached(alloc, option, scan, word)
}

fn values_of(alloc: Global, option: &str, words: &[String]) -> Result<Texts, AllocError>
    ensures { IfOk result (λ values. values
        ≡ values_of option.now (map string_bytes words.now)) }
{
    let mut scan = begun(alloc);
    for word in words {
        scan = scanned(alloc, option, scan, word.as_str())?;
    }
    Ok(scan.values)
}

/// The descriptors on which the words let programs be told what is done.
pub fn status_fds_of(alloc: Global, words: &[String]) -> Result<Texts, AllocError>
    ensures { IfOk result (λ fds. fds ≡ status_fds_of (map string_bytes words.now)) }
{
    values_of(alloc, "--status-fd", words)
}

/// The files that the words let be written as a log.
pub fn logs_of(alloc: Global, words: &[String]) -> Result<Texts, AllocError>
    ensures { IfOk result (λ logs. logs ≡ logs_of (map string_bytes words.now)) }
{
    values_of(alloc, "--log", words)
}
