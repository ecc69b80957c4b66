// What is asked of what is wanted of packages.
ghost use Rattle.std.specs.Prelude.{◌≡◌, IfOk, is_some, map, option_map};
ghost use Rattle.clap.specs.Words.{found_of, rows_of};
ghost use Rattle.command_words.specs.Selecting.{are_selections, cut_at_last_equals, removing_selected_from, removing_selected_of, selected_from, selected_in, selecting_from, selecting_of, selections_in, told_of, want_of};

use crate::forced::depends_forced;
use crate::found::{all_texts_of, is_absolute, text_of};
use crate::limits::limit_of;
use crate::selections::{Selected, Selections, Wanted};
use crate::streams::{ScriptStreams, streams_of};
use crate::triggers::processes_triggers;
use crate::waits::wait_of;
use clap::ArgMatches;
use std::alloc::{AllocError, Global};
use texts::Text;

/// Packages of which something is to be wanted under a root.
#[derive(Drop)]
pub struct Selecting {
    pub root: Text,
    pub selections: Selections,
    /// For how many seconds another program's lock is waited for.
    pub wait: u32,
}

/// The packages under a root that are to be removed or purged because that is wanted of them.
#[derive(Drop)]
pub struct RemovingSelected {
    pub root: Text,
    pub streams: ScriptStreams,
    /// The triggers that are pending then are processed.
    pub triggers: bool,
    /// How many units may fail; behind them no further one is begun.
    pub limit: Option<u32>,
    /// They go too where others depend on them.
    pub ignore_depends: bool,
    /// As above.
    pub wait: u32,
}

/// What a text tells.
#[derive(Clone, Copy)]
struct Told<'a> {
    name: &'a str,
    want: Wanted,
}

fn cut_at_last_equals(text: &str) -> Option<(&str, &str)>
    ensures { option_map (λ parts. (parts.0.now, parts.1.now)) result
        ≡ cut_at_last_equals text.now }
{
    text.rsplit_once('=')
}

fn want_of(word: &str) -> Option<Wanted>
    ensures { result ≡ want_of word.now }
{
    match word {
        "deinstall" => Some(Wanted::Deinstall),
        "hold" => Some(Wanted::Hold),
        "install" => Some(Wanted::Install),
        "purge" => Some(Wanted::Purge),
        _ => None,
    }
}

fn told_from<'a>(parts: Option<(&'a str, &'a str)>) -> Option<Told<'a>>
    ensures { option_map told_of result ≡ selected_from
        (option_map (λ cut. (cut.0.now, cut.1.now)) parts.entry) }
{
    let Some((name, word)) = parts else {
        return None;
    };
    match want_of(word) {
        Some(want) => Some(Told { name, want }),
        None => None,
    }
}

fn told_in(text: &str) -> Option<Told<'_>>
    ensures { option_map told_of result ≡ selected_in text.now }
{
    told_from(cut_at_last_equals(text))
}

/// Whether a text tells what is to be wanted of a package.
pub(crate) fn is_selection(text: &str) -> bool
    ensures { result ≡ is_some (selected_in text.now) }
{
    told_in(text).is_some()
}

fn are_selections(texts: &[&str]) -> bool
    ensures { result ≡ are_selections (map (λ t. t.now) texts.now) }
{
    for text in texts {
        if !is_selection(text) {
            return false;
        }
    }
    true
}

fn selected_in(alloc: Global, text: &str) -> Result<Option<Selected>, AllocError>
    ensures { IfOk result (λ selected. selected ≡ selected_in text.now) }
{
    match told_in(text) {
        Some(told) => Ok(Some(Selected {
            name: Text::from_str(alloc, told.name)?,
            want: told.want,
        })),
        None => Ok(None),
    }
}

fn selections_in(alloc: Global, texts: &[&str]) -> Result<Selections, AllocError>
    ensures { IfOk result (λ all. all ≡ selections_in (map (λ t. t.now) texts.now)) }
{
    let mut all = Selections::new(alloc);
    for text in texts {
        if let Some(selected) = selected_in(alloc, text)? {
            all.push(selected)?;
        }
    }
    Ok(all)
}

fn selecting_from(
    alloc: Global,
    root: Option<&str>,
    texts: Option<&[&str]>,
    wait: Option<u32>,
) -> Result<Option<Selecting>, AllocError>
    ensures { IfOk result (λ asked. asked ≡ selecting_from (option_map (λ s. s.now) root.entry)
        (option_map (λ s. map (λ t. t.now) s.now) texts.entry) wait) }
{
    let (Some(root), Some(texts), Some(wait)) = (root, texts, wait) else {
        return Ok(None);
    };
    if !is_absolute(root) || !are_selections(texts) {
        return Ok(None);
    }
    let root = Text::from_str(alloc, root)?;
    let selections = selections_in(alloc, texts)?;
    Ok(Some(Selecting {
        root,
        selections,
        wait,
    }))
}

/// The packages of which something is to be wanted, unless the words have a fault.
pub(crate) fn selecting_of(
    alloc: Global,
    found: &ArgMatches<'_>,
) -> Result<Option<Selecting>, AllocError>
    ensures { IfOk result (λ asked. asked ≡ selecting_of (rows_of (found_of found.now))) }
{
    let texts = all_texts_of(found, "PKG=WANT");
    selecting_from(alloc, text_of(found, "root"), texts, wait_of(found))
}

fn removing_selected_from(
    alloc: Global,
    root: Option<&str>,
    streams: ScriptStreams,
    triggers: bool,
    limit: Option<Option<u32>>,
    ignore_depends: bool,
    wait: Option<u32>,
) -> Result<Option<RemovingSelected>, AllocError>
    ensures { IfOk result (λ asked. asked
        ≡ removing_selected_from (option_map (λ s. s.now) root.entry) streams triggers limit ignore_depends wait) }
{
    let (Some(root), Some(limit), Some(wait)) = (root, limit, wait) else {
        return Ok(None);
    };
    if !is_absolute(root) {
        return Ok(None);
    }
    let root = Text::from_str(alloc, root)?;
    Ok(Some(RemovingSelected {
        root,
        streams,
        triggers,
        limit,
        ignore_depends,
        wait,
    }))
}

/// Under which root, unless the words have a fault.
pub(crate) fn removing_selected_of(
    alloc: Global,
    found: &ArgMatches<'_>,
) -> Result<Option<RemovingSelected>, AllocError>
    ensures { IfOk result (λ asked. asked ≡ removing_selected_of (rows_of (found_of found.now))) }
{
    let (root, wait) = (text_of(found, "root"), wait_of(found));
    let (streams, triggers) = (streams_of(found), processes_triggers(found));
    let (limit, ignored) = (limit_of(found), depends_forced(found));
    removing_selected_from(alloc, root, streams, triggers, limit, ignored, wait)
}
