// What is asked of triggers.
ghost use Rattle.std.specs.Prelude.{◌≡◌, IfOk, map, option_map};
ghost use Rattle.clap.specs.Words.{found_of, rows_of};
ghost use Rattle.command_words.specs.Triggers.{is_of_triggers_only, processes_triggers, processing_from, processing_of};

use crate::forced::{Forced, forced_of};
use crate::found::{all_texts_of, flag_of, is_absolute, text_of};
use crate::limits::limit_of;
use crate::streams::{ScriptStreams, streams_of};
use crate::waits::wait_of;
use clap::ArgMatches;
use std::alloc::{AllocError, Global};
use texts::Text;

/// The triggers that are pending under a root, of all packages.
#[derive(Drop)]
pub struct ProcessingTriggers {
    pub root: Text,
    pub streams: ScriptStreams,
    /// How many units may fail; behind them no further one is begun.
    pub limit: Option<u32>,
    /// For how many seconds another program's lock is waited for.
    pub wait: u32,
}

/// Whether the triggers that are pending are processed, by the flag.
pub(crate) fn processes_triggers(found: &ArgMatches<'_>) -> bool
    ensures { result ≡ processes_triggers (rows_of (found_of found.now)) }
{
    !flag_of(found, "no-triggers")
}

/// Whether nothing else is asked for, by the flag.
pub(crate) fn is_of_triggers_only(found: &ArgMatches<'_>) -> bool
    ensures { result ≡ is_of_triggers_only (rows_of (found_of found.now)) }
{
    flag_of(found, "triggers-only")
}

fn processing_from(
    alloc: Global,
    root: Option<&str>,
    names: Option<&[&str]>,
    streams: ScriptStreams,
    triggers: bool,
    limit: Option<Option<u32>>,
    forced: Option<Forced>,
    wait: Option<u32>,
) -> Result<Option<ProcessingTriggers>, AllocError>
    ensures { IfOk result (λ asked. asked
        ≡ processing_from (option_map (λ s. s.now) root.entry)
        (option_map (λ s. map (λ t. t.now) s.now) names.entry) streams triggers limit forced wait) }
{
    let (Some(root), None, true, Some(limit)) = (root, names, triggers, limit) else {
        return Ok(None);
    };
    let (Some(_), Some(wait)) = (forced, wait) else {
        return Ok(None);
    };
    if !is_absolute(root) {
        return Ok(None);
    }
    let root = Text::from_str(alloc, root)?;
    Ok(Some(ProcessingTriggers {
        root,
        streams,
        limit,
        wait,
    }))
}

/// Under which root, unless the words have a fault.
pub(crate) fn processing_of(
    alloc: Global,
    found: &ArgMatches<'_>,
) -> Result<Option<ProcessingTriggers>, AllocError>
    ensures { IfOk result (λ asked. asked ≡ processing_of (rows_of (found_of found.now))) }
{
    processing_from(
        alloc,
        text_of(found, "root"),
        all_texts_of(found, "PKG"),
        streams_of(found),
        processes_triggers(found),
        limit_of(found),
        forced_of(found),
        wait_of(found),
    )
}
