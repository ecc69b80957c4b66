// Which paths of archives are hidden.
ghost use Rattle.std.specs.Prelude.{◌≡◌, IfOk, None, Some, map, option_map, string_bytes};
ghost use Rattle.std.specs.List.{list_all};
ghost use Rattle.clap.specs.Words.{found_of, rows_of};
ghost use Rattle.name_patterns.specs.Patterns.{is_readable};
ghost use Rattle.command_words.specs.Filters.{are_readable, attached, begun, filtered, filtered_at, filters_of, has_filters, with_filter};

use crate::found::all_texts_of;
use crate::frontends::behind;
use clap::ArgMatches;
use name_patterns::is_readable;
use path_filters::{Filter, Filters};
use std::alloc::{AllocError, Global};
use texts::Text;

/// What was found of filters among words so far.
#[derive(Drop)]
struct Filtering {
    /// The next word is the pattern of an include, or of an exclude.
    wants: Option<bool>,
    /// Whether the options are over.
    ended: bool,
    filters: Filters,
}

/// Whether a pattern for paths can be read.
pub(crate) fn is_filter(text: &str) -> bool
    ensures { result ≡ is_readable text.now }
{
    is_readable(text.as_bytes())
}

fn are_all(texts: &[&str]) -> bool
    ensures { result ≡ list_all is_readable (map (λ t. t.now) texts.now) }
{
    for text in texts {
        if !is_filter(text) {
            return false;
        }
    }
    true
}

fn are_readable(texts: Option<&[&str]>) -> bool
    ensures { result ≡ are_readable (option_map (λ s. map (λ t. t.now) s.now) texts.entry) }
{
    match texts {
        Some(texts) => are_all(texts),
        None => true,
    }
}

/// Whether each pattern that is given can be read.
pub(crate) fn has_filters(found: &ArgMatches<'_>) -> bool
    ensures { result ≡ has_filters (rows_of (found_of found.now)) }
{
    are_readable(all_texts_of(found, "path-exclude"))
        && are_readable(all_texts_of(found, "path-include"))
}

fn begun(alloc: Global) -> Filtering
    ensures { result ≡ begun }
{
    Filtering {
        wants: None,
        ended: false,
        filters: Filters::new(alloc),
    }
}

fn with_filter(
    alloc: Global,
    found: Filtering,
    includes: bool,
    pattern: &str,
) -> Result<Filtering, AllocError>
    ensures { IfOk result (λ s. s ≡ with_filter found includes pattern.now) }
{
    let mut filters = found.filters;
    let pattern = Text::from_str(alloc, pattern)?;
    filters.push(Filter { includes, pattern })?;
    Ok(Filtering {
        wants: None,
        filters,
        ..found
    })
}

// One of the two with its pattern, or another word.
fn attached(
    alloc: Global,
    found: Filtering,
    exclude: Option<&str>,
    include: Option<&str>,
) -> Result<Filtering, AllocError>
    ensures { IfOk result (λ s. s ≡ attached found (option_map (λ t. t.now) exclude.entry)
        (option_map (λ t. t.now) include.entry)) }
{
    match (exclude, include) {
        (Some(pattern), _) => with_filter(alloc, found, false, pattern),
        (None, Some(pattern)) => with_filter(alloc, found, true, pattern),
        (None, None) => Ok(found),
    }
}

fn wanting(found: Filtering, includes: bool) -> Filtering
    ensures { result ≡ record found { wants = Some includes } }
{
    Filtering {
        wants: Some(includes),
        ..found
    }
}

// A word that is no pattern by itself.
fn at_word(alloc: Global, found: Filtering, word: &str) -> Result<Filtering, AllocError>
    ensures { IfOk result (λ s. s ≡ filtered_at None found word.now) }
{
    if word == "--" {
        return Ok(Filtering {
            ended: true,
            ..found
        });
    }
    if word == "--path-exclude" {
        return Ok(wanting(found, false));
    }
    if word == "--path-include" {
        return Ok(wanting(found, true));
    }
    let exclude = behind("--path-exclude=", word);
    attached(alloc, found, exclude, behind("--path-include=", word))
}

fn filtered(alloc: Global, found: Filtering, word: &str) -> Result<Filtering, AllocError>
    ensures { IfOk result (λ s. s ≡ filtered found word.now) }
{
    if found.ended {
        return Ok(found);
    }
    match found.wants {
        Some(includes) => with_filter(alloc, found, includes, word),
        None => at_word(alloc, found, word),
    }
}

/// The filters that the words have for the paths of archives, in their order.
pub fn filters_of(alloc: Global, words: &[String]) -> Result<Filters, AllocError>
    ensures { IfOk result (λ filters. filters ≡ filters_of (map string_bytes words.now)) }
{
    let mut found = begun(alloc);
    for word in words {
        found = filtered(alloc, found, word.as_str())?;
    }
    Ok(found.filters)
}
