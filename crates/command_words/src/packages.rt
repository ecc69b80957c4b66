// What is asked of packages by their names.
ghost use Rattle.std.specs.Prelude.{◌≡◌, IfOk, option_map};
ghost use Rattle.clap.specs.Words.{found_of, rows_of};
ghost use Rattle.command_words.specs.Packages.{configuring_from, configuring_of, names_of, removing_from, removing_of};

use crate::forced::{Forced, depends_forced, forced_of};
use crate::found::{all_texts_of, copies, is_absolute, text_of};
use crate::limits::limit_of;
use crate::streams::{ScriptStreams, streams_of};
use crate::triggers::processes_triggers;
use crate::waits::wait_of;
use clap::ArgMatches;
use std::alloc::{AllocError, Global};
use texts::{Text, Texts};

/// Packages that are to be configured under a root, all that wait for it where none is named, and
/// what is forced of their conffiles.
#[derive(Drop)]
pub struct Configuring {
    pub root: Text,
    pub names: Option<Texts>,
    pub streams: ScriptStreams,
    /// The triggers that are pending then are processed.
    pub triggers: bool,
    /// How many units may fail; behind them no further one is begun.
    pub limit: Option<u32>,
    pub forced: Forced,
    /// For how many seconds another program's lock is waited for.
    pub wait: u32,
}

/// Packages that are to be removed or purged under a root.
#[derive(Drop)]
pub struct Removing {
    pub root: Text,
    pub names: Texts,
    pub streams: ScriptStreams,
    /// As above.
    pub triggers: bool,
    /// As above.
    pub limit: Option<u32>,
    /// They go too where others depend on them.
    pub ignore_depends: bool,
    /// As above.
    pub wait: u32,
}

fn names_of(alloc: Global, found: &ArgMatches<'_>) -> Result<Option<Texts>, AllocError>
    ensures { IfOk result (λ names. names ≡ names_of (rows_of (found_of found.now))) }
{
    match all_texts_of(found, "PKG") {
        Some(names) => Ok(Some(copies(alloc, names)?)),
        None => Ok(None),
    }
}

fn configuring_from(
    alloc: Global,
    root: Option<&str>,
    names: Option<Texts>,
    streams: ScriptStreams,
    triggers: bool,
    limit: Option<Option<u32>>,
    forced: Option<Forced>,
    wait: Option<u32>,
) -> Result<Option<Configuring>, AllocError>
    ensures { IfOk result (λ asked. asked
        ≡ configuring_from (option_map (λ s. s.now) root.entry) names streams triggers limit forced wait) }
{
    let (Some(root), Some(limit)) = (root, limit) else {
        return Ok(None);
    };
    let (Some(forced), Some(wait)) = (forced, wait) else {
        return Ok(None);
    };
    if !is_absolute(root) {
        return Ok(None);
    }
    let root = Text::from_str(alloc, root)?;
    Ok(Some(Configuring {
        root,
        names,
        streams,
        triggers,
        limit,
        forced,
        wait,
    }))
}

/// The packages that are to be configured, unless the words have a fault.
pub(crate) fn configuring_of(
    alloc: Global,
    found: &ArgMatches<'_>,
) -> Result<Option<Configuring>, AllocError>
    ensures { IfOk result (λ asked. asked ≡ configuring_of (rows_of (found_of found.now))) }
{
    let names = names_of(alloc, found)?;
    configuring_from(
        alloc,
        text_of(found, "root"),
        names,
        streams_of(found),
        processes_triggers(found),
        limit_of(found),
        forced_of(found),
        wait_of(found),
    )
}

fn removing_from(
    alloc: Global,
    root: Option<&str>,
    names: Option<Texts>,
    streams: ScriptStreams,
    triggers: bool,
    limit: Option<Option<u32>>,
    ignore_depends: bool,
    wait: Option<u32>,
) -> Result<Option<Removing>, AllocError>
    ensures { IfOk result (λ asked. asked ≡ removing_from (option_map (λ s. s.now) root.entry) names
        streams triggers limit ignore_depends wait) }
{
    let (Some(root), Some(names), Some(limit)) = (root, names, limit) else {
        return Ok(None);
    };
    let Some(wait) = wait else {
        return Ok(None);
    };
    if !is_absolute(root) {
        return Ok(None);
    }
    let root = Text::from_str(alloc, root)?;
    Ok(Some(Removing {
        root,
        names,
        streams,
        triggers,
        limit,
        ignore_depends,
        wait,
    }))
}

/// The packages that are to be removed or purged, unless the words have a fault.
pub(crate) fn removing_of(
    alloc: Global,
    found: &ArgMatches<'_>,
) -> Result<Option<Removing>, AllocError>
    ensures { IfOk result (λ asked. asked ≡ removing_of (rows_of (found_of found.now))) }
{
    let names = names_of(alloc, found)?;
    let (root, wait) = (text_of(found, "root"), wait_of(found));
    let (streams, triggers) = (streams_of(found), processes_triggers(found));
    let (limit, ignored) = (limit_of(found), depends_forced(found));
    removing_from(alloc, root, names, streams, triggers, limit, ignored, wait)
}
