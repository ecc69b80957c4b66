// What is wrong with the words of a subcommand in which clap finds no fault: one thing, with its word.
use crate::filters::is_filter;
use crate::found::{all_texts_of, flag_of, is_absolute, is_package, text_of};
use crate::frontends::is_descriptor;
use crate::limits::limit_of;
use crate::rehearsal::is_failure;
use crate::selecting::is_selection;
use crate::triggers::{is_of_triggers_only, processes_triggers};
use crate::waits::wait_of;
use clap::ArgMatches;
use name_patterns::is_readable;
use record_formats::read_format;
use shown_lines::shown;
use std::alloc::{AllocError, Global};

const NO_WANT: &str = "has none of install hold deinstall purge behind its last =";

const NO_PATTERN: &str = "has a [ without a backslash before it, or a backslash at its end";

const NO_FORMAT: &str =
    "is empty, or has a field without } or with a WIDTH that isn't [-]N of one to five digits";

const TWO_LAYOUTS: &str = "error: --format, --table and --json exclude each other";

const BOTH_CONFFILES: &str = "error: --force-confold and --force-confnew exclude each other";

const NO_OPERATOR: &str = "is none of lt le eq ne ge gt lt-nl le-nl ge-nl gt-nl << <= = >= >>";

// A word that can't stand where it does.
fn wrong_word(
    alloc: Global,
    place: &str,
    word: Option<&str>,
    why: &str,
) -> Result<String, AllocError> {
    match word {
        Some(word) => {
            let word = shown(alloc, word)?;
            let word = word.as_str();
            format!(in alloc; "error: {place}: \"{word}\" {why}")
        }
        None => format!(in alloc; "error: {place} is wanted"),
    }
}

fn of_root(alloc: Global, found: &ArgMatches<'_>) -> Result<Option<String>, AllocError> {
    let root = text_of(found, "root");
    match root {
        Some(word) if !is_absolute(word) => {
            Ok(Some(wrong_word(alloc, "--root", root, "isn't absolute")?))
        }
        _ => Ok(None),
    }
}

fn of_wait(alloc: Global, found: &ArgMatches<'_>) -> Result<Option<String>, AllocError> {
    if wait_of(found).is_some() {
        return Ok(None);
    }
    let why = "is no number of seconds below 4294967296";
    Ok(Some(wrong_word(alloc, "--wait", text_of(found, "wait"), why)?))
}

fn of_limit(alloc: Global, found: &ArgMatches<'_>) -> Result<Option<String>, AllocError> {
    if limit_of(found).is_some() {
        return Ok(None);
    }
    let (text, why) = (
        text_of(found, "abort-after"),
        "is no number below 4294967296",
    );
    Ok(Some(wrong_word(alloc, "--abort-after", text, why)?))
}

fn of_frontends(alloc: Global, found: &ArgMatches<'_>) -> Result<Option<String>, AllocError> {
    for text in all_texts_of(found, "status-fd").unwrap_or(&[]) {
        if !is_descriptor(text) {
            let why = "isn't the number of a descriptor";
            return Ok(Some(wrong_word(alloc, "--status-fd", Some(text), why)?));
        }
    }
    Ok(None)
}

fn of_filters(
    alloc: Global,
    found: &ArgMatches<'_>,
    option: &str,
    id: &str,
) -> Result<Option<String>, AllocError> {
    for text in all_texts_of(found, id).unwrap_or(&[]) {
        if !is_filter(text) {
            return Ok(Some(wrong_word(alloc, option, Some(text), NO_PATTERN)?));
        }
    }
    Ok(None)
}

fn of_failures(alloc: Global, texts: &[&str]) -> Result<Option<String>, AllocError> {
    for text in texts {
        if !is_failure(text) {
            let why = "isn't PKG:SCRIPT:WORD";
            return Ok(Some(wrong_word(alloc, "--assume-failure", Some(text), why)?));
        }
    }
    Ok(None)
}

fn of_rehearsal(alloc: Global, found: &ArgMatches<'_>) -> Result<Option<String>, AllocError> {
    let texts = all_texts_of(found, "assume-failure");
    let asked = texts.is_some() || flag_of(found, "changes");
    if asked && !flag_of(found, "dry-run") {
        return Ok(Some(wrong_word(alloc, "--dry-run", None, "")?));
    }
    match texts {
        Some(texts) => of_failures(alloc, texts),
        None => Ok(None),
    }
}

fn of_package(alloc: Global, found: &ArgMatches<'_>) -> Result<String, AllocError> {
    let name = text_of(found, "package");
    wrong_word(alloc, "--package", name, "isn't the name of a package")
}

fn of_owner(alloc: Global, found: &ArgMatches<'_>) -> Result<String, AllocError> {
    let name = text_of(found, "package");
    match (name.is_some(), flag_of(found, "local")) {
        (true, true) => String::from_str(alloc, "error: --package and --local exclude each other"),
        (true, false) => of_package(alloc, found),
        (false, _) => String::from_str(alloc, "error: --package P or --local is wanted"),
    }
}

fn of_selections(alloc: Global, texts: &[&str]) -> Result<String, AllocError> {
    for text in texts {
        if !is_selection(text) {
            return wrong_word(alloc, "PKG=WANT", Some(text), NO_WANT);
        }
    }
    wrong_word(alloc, "PKG=WANT", None, "")
}

fn of_patterns(alloc: Global, found: &ArgMatches<'_>) -> Result<String, AllocError> {
    for pattern in all_texts_of(found, "PATTERN").unwrap_or(&[]) {
        if !is_readable(pattern.as_bytes()) {
            return wrong_word(alloc, "PATTERN", Some(pattern), NO_PATTERN);
        }
    }
    wrong_word(alloc, "PATTERN", None, "")
}

// One layout alone; a format that can't be read is what is left.
fn of_list(alloc: Global, found: &ArgMatches<'_>) -> Result<String, AllocError> {
    let format = text_of(found, "format");
    let (table, json) = (flag_of(found, "table"), flag_of(found, "json"));
    if (format.is_some() && (table || json)) || (table && json) {
        return String::from_str(alloc, TWO_LAYOUTS);
    }
    match format {
        Some(word) if read_format(alloc, word.as_bytes())?.is_none() => {
            wrong_word(alloc, "--format", format, NO_FORMAT)
        }
        _ => of_patterns(alloc, found),
    }
}

fn of_configure(alloc: Global, found: &ArgMatches<'_>) -> Result<String, AllocError> {
    if !is_of_triggers_only(found) {
        return String::from_str(alloc, BOTH_CONFFILES);
    }
    if all_texts_of(found, "PKG").is_some() {
        return String::from_str(alloc, "error: --triggers-only and PKG exclude each other");
    }
    if !processes_triggers(found) {
        let why = "error: --triggers-only and --no-triggers exclude each other";
        return String::from_str(alloc, why);
    }
    String::from_str(alloc, BOTH_CONFFILES)
}

/// What is wrong: first with the root, then with the wait, then with how many units may fail, then with a descriptor, then with a filter, then with a rehearsal, then with what else the subcommand takes.
pub(crate) fn mistake_text(
    alloc: Global,
    name: &str,
    found: &ArgMatches<'_>,
) -> Result<String, AllocError> {
    if let Some(text) = of_root(alloc, found)? {
        return Ok(text);
    }
    if let Some(text) = of_wait(alloc, found)? {
        return Ok(text);
    }
    if let Some(text) = of_limit(alloc, found)? {
        return Ok(text);
    }
    if let Some(text) = of_frontends(alloc, found)? {
        return Ok(text);
    }
    if let Some(text) = of_filters(alloc, found, "--path-exclude", "path-exclude")? {
        return Ok(text);
    }
    if let Some(text) = of_filters(alloc, found, "--path-include", "path-include")? {
        return Ok(text);
    }
    if let Some(text) = of_rehearsal(alloc, found)? {
        return Ok(text);
    }
    match name {
        "compare-versions" => {
            let word = text_of(found, "OP");
            wrong_word(alloc, "OP", word, NO_OPERATOR)
        }
        "configure" => of_configure(alloc, found),
        "help" => {
            let word = text_of(found, "COMMAND");
            wrong_word(alloc, "COMMAND", word, "isn't a subcommand")
        }
        "divert" | "undivert" => of_owner(alloc, found),
        "select" => {
            let texts = all_texts_of(found, "PKG=WANT");
            of_selections(alloc, texts.unwrap_or(&[]))
        }
        "list" => of_list(alloc, found),
        "selections" => of_patterns(alloc, found),
        "search" => wrong_word(alloc, "PATH", text_of(found, "PATH"), NO_PATTERN),
        "truename" => of_package(alloc, found),
        _ => String::from_str(alloc, BOTH_CONFFILES),
    }
}
