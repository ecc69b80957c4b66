// Whether a command is only rehearsed, which calls of scripts are assumed to fail then, and whether changed paths are told.
ghost use Rattle.std.specs.Prelude.{◌≡◌, IfOk, is_some, map, option_map};
ghost use Rattle.std.specs.List.{list_all};
ghost use Rattle.clap.specs.Words.{all_of, found_of, rows_of};
ghost use Rattle.command_words.specs.Rehearsals.{cut_at_colon, failing_from, failure_from, failure_in, failure_named, failure_of, failures_in, is_dry, is_rehearsable, is_rehearsable_by, is_tellable_by, rehearsal_in, rehearsed, script_of, tells_changes};

use crate::found::{all_texts_of, flag_of};
use clap::ArgMatches;
use host_core::Script;
use host_overlay::AssumedFailure;
use std::alloc::{AllocError, Global};
use texts::{Text, package_name};

/// A rehearsal: the calls that are assumed to fail, and whether the paths are told that would be changed.
#[derive(Drop)]
pub struct Rehearsal {
    pub failing: Vec<AssumedFailure>,
    pub changes: bool,
}

/// The parts of a text that names a call.
#[derive(Clone, Copy)]
struct Named<'a> {
    package: &'a str,
    script: Script,
    word: &'a str,
}

fn cut_at_colon(text: &str) -> Option<(&str, &str)>
    ensures { option_map (λ parts. (parts.0.now, parts.1.now)) result ≡ cut_at_colon text.now }
{
    text.split_once(':')
}

fn script_of(name: &str) -> Option<Script>
    ensures { result ≡ script_of name.now }
{
    match name {
        "postinst" => Some(Script::Postinst),
        "postrm" => Some(Script::Postrm),
        "preinst" => Some(Script::Preinst),
        "prerm" => Some(Script::Prerm),
        _ => None,
    }
}

fn named_from<'a>(package: &'a str, script: Option<Script>, word: &'a str) -> Option<Named<'a>>
    ensures { option_map failure_named result ≡ failure_from «package».now script word.now }
{
    let Some(script) = script else {
        return None;
    };
    if package_name(package.as_bytes()).is_none() || word.is_empty() {
        return None;
    }
    Some(Named {
        package,
        script,
        word,
    })
}

fn named_of<'a>(package: &'a str, parts: Option<(&'a str, &'a str)>) -> Option<Named<'a>>
    ensures { option_map failure_named result ≡ failure_of «package».now
        (option_map (λ cut. (cut.0.now, cut.1.now)) parts.entry) }
{
    match parts {
        Some((script, word)) => named_from(package, script_of(script), word),
        None => None,
    }
}

fn named_in(text: &str) -> Option<Named<'_>>
    ensures { option_map failure_named result ≡ failure_in text.now }
{
    match cut_at_colon(text) {
        Some((package, rest)) => named_of(package, cut_at_colon(rest)),
        None => None,
    }
}

fn failure_in(alloc: Global, text: &str) -> Result<Option<AssumedFailure>, AllocError>
    ensures { IfOk result (λ failure. failure ≡ failure_in text.now) }
{
    match named_in(text) {
        Some(named) => Ok(Some(AssumedFailure {
            package: Text::from_str(alloc, named.package)?,
            script: named.script,
            word: Text::from_str(alloc, named.word)?,
        })),
        None => Ok(None),
    }
}

fn failures_in(alloc: Global, texts: &[&str]) -> Result<Vec<AssumedFailure>, AllocError>
    ensures { IfOk result (λ failures. failures.items ≡ failures_in (map (λ t. t.now) texts.now)) }
{
    let mut failures = Vec::new(alloc);
    for text in texts {
        if let Some(failure) = failure_in(alloc, text)? {
            failures.push(failure)?;
        }
    }
    Ok(failures)
}

fn failing_from(alloc: Global, texts: Option<&[&str]>) -> Result<Vec<AssumedFailure>, AllocError>
    ensures { IfOk result (λ failures. failures.items
        ≡ failing_from (option_map (λ s. map (λ t. t.now) s.now) texts.entry)) }
{
    match texts {
        Some(texts) => failures_in(alloc, texts),
        None => Ok(Vec::new(alloc)),
    }
}

/// Whether a text names a call.
pub(crate) fn is_failure(text: &str) -> bool
    ensures { result ≡ is_some (failure_in text.now) }
{
    named_in(text).is_some()
}

fn are_failures(texts: &[&str]) -> bool
    ensures { result ≡ list_all (λ text. is_some (failure_in text)) (map (λ t. t.now) texts.now) }
{
    for text in texts {
        if !is_failure(text) {
            return false;
        }
    }
    true
}

fn is_rehearsable_by(dry: bool, texts: Option<&[&str]>) -> bool
    ensures { result
        ≡ is_rehearsable_by dry (option_map (λ s. map (λ t. t.now) s.now) texts.entry) }
{
    match texts {
        Some(texts) => dry && are_failures(texts),
        None => true,
    }
}

fn is_dry(found: &ArgMatches<'_>) -> bool
    ensures { result ≡ is_dry (rows_of (found_of found.now)) }
{
    flag_of(found, "dry-run")
}

fn tells_changes(found: &ArgMatches<'_>) -> bool
    ensures { result ≡ tells_changes (rows_of (found_of found.now)) }
{
    flag_of(found, "changes")
}

fn is_tellable_by(dry: bool, changes: bool) -> bool
    ensures { result ≡ is_tellable_by dry changes }
{
    dry || !changes
}

/// Whether each call that is assumed to fail is named, and nothing of a rehearsal is given without one.
pub(crate) fn is_rehearsable(found: &ArgMatches<'_>) -> bool
    ensures { result ≡ is_rehearsable (rows_of (found_of found.now)) }
{
    is_tellable_by(is_dry(found), tells_changes(found))
        && is_rehearsable_by(is_dry(found), all_texts_of(found, "assume-failure"))
}

/// The rehearsal, where the subcommand is only rehearsed.
pub(crate) fn rehearsal_in(
    alloc: Global,
    found: &ArgMatches<'_>,
) -> Result<Option<Rehearsal>, AllocError>
    ensures { IfOk result (λ told. option_map rehearsed told
        ≡ rehearsal_in (rows_of (found_of found.now))) }
{
    if !is_dry(found) {
        return Ok(None);
    }
    let failing = failing_from(alloc, all_texts_of(found, "assume-failure"))?;
    Ok(Some(Rehearsal {
        failing,
        changes: tells_changes(found),
    }))
}
