// What is asked of trees.
ghost use Rattle.std.specs.Prelude.{◌≡◌, IfOk, map, option_map};
ghost use Rattle.clap.specs.Words.{found_of, rows_of};
ghost use Rattle.command_words.specs.Unpacks.{unpacking_from, unpacking_of};

use crate::forced::{Forced, forced_of};
use crate::found::{all_texts_of, copies, flag_of, is_absolute, text_of};
use crate::limits::limit_of;
use crate::owners::{TreeOwners, owners_of};
use crate::streams::{ScriptStreams, streams_of};
use crate::triggers::processes_triggers;
use crate::waits::wait_of;
use clap::ArgMatches;
use std::alloc::{AllocError, Global};
use texts::{Text, Texts};

/// A root directory, trees to be unpacked under it, and what is forced where their packages are
/// configured too.
#[derive(Drop)]
pub struct Unpacking {
    pub root: Text,
    pub trees: Texts,
    /// Installed packages may be deconfigured in favour of one that is unpacked.
    pub auto_deconfigure: bool,
    pub owners: TreeOwners,
    pub streams: ScriptStreams,
    /// The triggers that are pending then are processed.
    pub triggers: bool,
    /// How many units may fail; behind them no further one is begun.
    pub limit: Option<u32>,
    pub forced: Forced,
    /// An install takes the trees in the order given, all in one round.
    pub as_given: bool,
    /// For how many seconds another program's lock is waited for.
    pub wait: u32,
}

fn unpacking_from(
    alloc: Global,
    root: Option<&str>,
    trees: Option<&[&str]>,
    auto_deconfigure: bool,
    owners: TreeOwners,
    streams: ScriptStreams,
    triggers: bool,
    limit: Option<Option<u32>>,
    forced: Option<Forced>,
    as_given: bool,
    wait: Option<u32>,
) -> Result<Option<Unpacking>, AllocError>
    ensures { IfOk result (λ asked. asked
        ≡ unpacking_from (option_map (λ s. s.now) root.entry)
        (option_map (λ s. map (λ t. t.now) s.now) trees.entry)
        auto_deconfigure owners streams triggers limit forced as_given wait) }
{
    let (Some(root), Some(trees), Some(limit)) = (root, trees, limit) else {
        return Ok(None);
    };
    let (Some(forced), Some(wait)) = (forced, wait) else {
        return Ok(None);
    };
    if !is_absolute(root) {
        return Ok(None);
    }
    let root = Text::from_str(alloc, root)?;
    let trees = copies(alloc, trees)?;
    Ok(Some(Unpacking {
        root,
        trees,
        auto_deconfigure,
        owners,
        streams,
        triggers,
        limit,
        forced,
        as_given,
        wait,
    }))
}

/// The trees that are to be unpacked, unless the words have a fault.
pub(crate) fn unpacking_of(
    alloc: Global,
    found: &ArgMatches<'_>,
) -> Result<Option<Unpacking>, AllocError>
    ensures { IfOk result (λ asked. asked ≡ unpacking_of (rows_of (found_of found.now))) }
{
    unpacking_from(
        alloc,
        text_of(found, "root"),
        all_texts_of(found, "TREE"),
        flag_of(found, "auto-deconfigure"),
        owners_of(found),
        streams_of(found),
        processes_triggers(found),
        limit_of(found),
        forced_of(found),
        flag_of(found, "as-given"),
        wait_of(found),
    )
}
