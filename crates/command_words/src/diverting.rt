// What is asked of diversions.
ghost use Rattle.std.specs.Prelude.{◌≡◌, IfOk, option_map};
ghost use Rattle.clap.specs.Words.{found_of, rows_of};
ghost use Rattle.command_words.specs.Diversions.{diverting_of, owner_from, owner_of, undiverting_from, undiverting_of};

use crate::found::{flag_of, given, is_absolute, text_of};
use crate::waits::wait_of;
use clap::ArgMatches;
use std::alloc::{AllocError, Global};
use texts::{Text, package_name};

/// A diversion to be added under a root: the path, its target if one is given, whose it is (a
/// package's, or a local one without), and whether what stands at the path is renamed.
#[derive(Drop)]
pub struct Diverting {
    pub root: Text,
    pub owner: Option<Text>,
    pub target: Option<Text>,
    pub rename: bool,
    pub path: Text,
    /// For how many seconds another program's lock is waited for.
    pub wait: u32,
}

/// A diversion to be taken away likewise; renaming brings back what stands at its target.
#[derive(Drop)]
pub struct Undiverting {
    pub root: Text,
    pub owner: Option<Text>,
    pub rename: bool,
    pub path: Text,
    /// As above.
    pub wait: u32,
}

// Whose diversion is asked for, if that is said: a package's or a local one.
fn owner_from(
    alloc: Global,
    package: Option<&str>,
    local: bool,
) -> Result<Option<Option<Text>>, AllocError>
    ensures { IfOk result (λ owner. owner ≡ owner_from (option_map (λ s. s.now) «package».entry)
        local) }
{
    let Some(name) = package else {
        return Ok(if local { Some(None) } else { None });
    };
    if local || package_name(name.as_bytes()).is_none() {
        return Ok(None);
    }
    let name = Text::from_str(alloc, name)?;
    Ok(Some(Some(name)))
}

fn owner_of(alloc: Global, found: &ArgMatches<'_>) -> Result<Option<Option<Text>>, AllocError>
    ensures { IfOk result (λ owner. owner ≡ owner_of (rows_of (found_of found.now))) }
{
    owner_from(alloc, text_of(found, "package"), flag_of(found, "local"))
}

fn undiverting_from(
    alloc: Global,
    root: Option<&str>,
    owner: Option<Option<Text>>,
    rename: bool,
    path: Option<&str>,
    wait: Option<u32>,
) -> Result<Option<Undiverting>, AllocError>
    ensures { IfOk result (λ asked. asked ≡ undiverting_from (option_map (λ s. s.now) root.entry)
        owner rename (option_map (λ s. s.now) path.entry) wait) }
{
    let (Some(root), Some(owner), Some(path), Some(wait)) = (root, owner, path, wait) else {
        return Ok(None);
    };
    if !is_absolute(root) {
        return Ok(None);
    }
    let root = Text::from_str(alloc, root)?;
    let path = Text::from_str(alloc, path)?;
    Ok(Some(Undiverting {
        root,
        owner,
        rename,
        path,
        wait,
    }))
}

/// The diversion that is to be taken away, unless its words have a fault.
pub(crate) fn undiverting_of(
    alloc: Global,
    found: &ArgMatches<'_>,
) -> Result<Option<Undiverting>, AllocError>
    ensures { IfOk result (λ asked. asked ≡ undiverting_of (rows_of (found_of found.now))) }
{
    let owner = owner_of(alloc, found)?;
    undiverting_from(
        alloc,
        text_of(found, "root"),
        owner,
        flag_of(found, "rename"),
        text_of(found, "PATH"),
        wait_of(found),
    )
}

/// The diversion that is to be added, unless its words have a fault.
pub(crate) fn diverting_of(
    alloc: Global,
    found: &ArgMatches<'_>,
) -> Result<Option<Diverting>, AllocError>
    ensures { IfOk result (λ asked. asked ≡ diverting_of (rows_of (found_of found.now))) }
{
    let target = given(alloc, found, "divert")?;
    let Some(asked) = undiverting_of(alloc, found)? else {
        return Ok(None);
    };
    Ok(Some(Diverting {
        root: asked.root,
        owner: asked.owner,
        target,
        rename: asked.rename,
        path: asked.path,
        wait: asked.wait,
    }))
}
