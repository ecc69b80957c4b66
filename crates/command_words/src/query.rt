// What is asked of an administration without a change to it.
ghost use Rattle.std.specs.Prelude.{◌≡◌, ◌||◌, codes, IfOk, option_map};
ghost use Rattle.std.specs.List.{list_all};
ghost use Rattle.clap.specs.Words.{found_of, rows_of};
ghost use Rattle.name_patterns.specs.Patterns.{is_readable};
ghost use Rattle.record_formats.specs.Formats.{pieces_of};
ghost use Rattle.record_formats.specs.declared.layouts.Layout.TheVariants.{Format};
ghost use Rattle.command_words.specs.Queries.{layout_from, layout_of, list_from, patterns_of, query_from, query_of, question_of, search_from, truename_from};

use crate::found::{all_given, copy_of, flag_of, given, is_absolute, is_package, text_of};
use clap::ArgMatches;
use name_patterns::{is_readable, is_wild};
use record_formats::{Layout, read_format};
use std::alloc::{AllocError, Global};
use texts::{Text, Texts};

/// A question, with the texts that it was asked with.
#[derive(Drop)]
pub enum Question {
    /// The package that a command hasn't brought to an end.
    Audit,
    Diversions,
    /// The packages whose names match one of these patterns, or all without one, as they are told.
    List(Layout, Texts),
    /// The list of a package.
    ListFiles(Text),
    /// The packages that have a path.
    Search(Text),
    /// The packages that list paths which match a pattern.
    SearchMatching(Text),
    /// What is wanted of such packages.
    Selections(Texts),
    /// The record of a package.
    Status(Text),
    /// Where a path is: for the package, or for all without one.
    Truename { package: Option<Text>, path: Text },
}

/// A root directory, and a question about the administration under it.
#[derive(Drop)]
pub struct Query {
    pub root: Text,
    pub question: Question,
}

fn truename_from(
    alloc: Global,
    package: Option<&str>,
    path: Option<&str>,
) -> Result<Option<Question>, AllocError>
    ensures { IfOk result (λ question. question ≡ truename_from
        (option_map (λ s. s.now) «package».entry) (option_map (λ s. s.now) path.entry)) }
{
    let Some(path) = path else {
        return Ok(None);
    };
    if !is_package(package) {
        return Ok(None);
    }
    let package = copy_of(alloc, package)?;
    let path = Text::from_str(alloc, path)?;
    Ok(Some(Question::Truename { package, path }))
}

// Whether each pattern can be read.
fn are_readable(patterns: &[Text]) -> bool
    ensures { result ≡ list_all is_readable patterns.now }
{
    patterns
        .iter()
        .all(|pattern| is_readable(pattern.as_str().as_bytes()))
}

fn patterns_of(alloc: Global, found: &ArgMatches<'_>) -> Result<Option<Texts>, AllocError>
    ensures { IfOk result (λ patterns. patterns ≡ patterns_of (rows_of (found_of found.now))) }
{
    let patterns = all_given(alloc, found, "PATTERN")?;
    if !are_readable(patterns.as_slice()) {
        return Ok(None);
    }
    Ok(Some(patterns))
}

fn format_from(alloc: Global, format: &str) -> Result<Option<Layout>, AllocError>
    ensures { IfOk result (λ layout. layout ≡ option_map Format (pieces_of format.now)) }
{
    Ok(read_format(alloc, format.as_bytes())?.map(Layout::Format))
}

fn layout_from(
    alloc: Global,
    format: Option<&str>,
    table: bool,
    json: bool,
) -> Result<Option<Layout>, AllocError>
    ensures { IfOk result (λ layout. layout ≡ layout_from (option_map (λ s. s.now) format.entry)
        table json) }
{
    match format {
        Some(_) if table || json => Ok(None),
        Some(format) => format_from(alloc, format),
        None if table && json => Ok(None),
        None if table => Ok(Some(Layout::Table)),
        None => Ok(Some(Layout::Lines)),
    }
}

// How packages are told.
fn layout_of(alloc: Global, found: &ArgMatches<'_>) -> Result<Option<Layout>, AllocError>
    ensures { IfOk result (λ layout. layout ≡ layout_of (rows_of (found_of found.now))) }
{
    let format = text_of(found, "format");
    layout_from(
        alloc,
        format,
        flag_of(found, "table"),
        flag_of(found, "json"),
    )
}

fn list_from(layout: Option<Layout>, patterns: Option<Texts>) -> Option<Question>
    ensures { result ≡ list_from layout patterns }
{
    match (layout, patterns) {
        (Some(layout), Some(patterns)) => Some(Question::List(layout, patterns)),
        _ => None,
    }
}

fn list_of(alloc: Global, found: &ArgMatches<'_>) -> Result<Option<Question>, AllocError>
    ensures { IfOk result (λ question. question ≡ list_from (layout_of (rows_of (found_of found.now)))
        (patterns_of (rows_of (found_of found.now)))) }
{
    let layout = layout_of(alloc, found)?;
    let patterns = patterns_of(alloc, found)?;
    Ok(list_from(layout, patterns))
}

// A path with a star or a question mark is a pattern.
fn search_from(alloc: Global, path: Option<&str>) -> Result<Option<Question>, AllocError>
    ensures { IfOk result (λ question. question ≡ search_from
        (option_map (λ s. s.now) path.entry)) }
{
    let Some(path) = path else {
        return Ok(None);
    };
    if !is_wild(path.as_bytes()) {
        return Ok(Some(Question::Search(Text::from_str(alloc, path)?)));
    }
    if !is_readable(path.as_bytes()) {
        return Ok(None);
    }
    Ok(Some(Question::SearchMatching(Text::from_str(alloc, path)?)))
}

// What a subcommand asks; nothing for another name, a package that has no name's form or a pattern that can't be read.
fn question_of(
    alloc: Global,
    name: &str,
    found: &ArgMatches<'_>,
) -> Result<Option<Question>, AllocError>
    ensures { IfOk result (λ question. question ≡ question_of name.now
        (rows_of (found_of found.now))) }
{
    match name {
        "audit" => Ok(Some(Question::Audit)),
        "diversions" => Ok(Some(Question::Diversions)),
        "list" => list_of(alloc, found),
        "listfiles" => Ok(given(alloc, found, "PKG")?.map(Question::ListFiles)),
        "search" => search_from(alloc, text_of(found, "PATH")),
        "selections" => Ok(patterns_of(alloc, found)?.map(Question::Selections)),
        "status" => Ok(given(alloc, found, "PKG")?.map(Question::Status)),
        "truename" => truename_from(alloc, text_of(found, "package"), text_of(found, "PATH")),
        _ => Ok(None),
    }
}

fn query_from(
    alloc: Global,
    root: Option<&str>,
    question: Option<Question>,
) -> Result<Option<Query>, AllocError>
    ensures { IfOk result (λ query. query ≡ query_from (option_map (λ s. s.now) root.entry)
        question) }
{
    let (Some(root), Some(question)) = (root, question) else {
        return Ok(None);
    };
    if !is_absolute(root) {
        return Ok(None);
    }
    let root = Text::from_str(alloc, root)?;
    Ok(Some(Query { root, question }))
}

/// What a subcommand asks of an administration, unless its words have a fault.
pub(crate) fn query_of(
    alloc: Global,
    name: &str,
    found: &ArgMatches<'_>,
) -> Result<Option<Query>, AllocError>
    ensures { IfOk result (λ query. query ≡ query_of name.now (rows_of (found_of found.now))) }
{
    let question = question_of(alloc, name, found)?;
    query_from(alloc, text_of(found, "root"), question)
}
