// The stages of a removal and of a purge.
ghost use Rattle.std.specs.Prelude.{◌≡◌, true, false, List, IfOk, OnOk, map, cond, [], ◌∷◌, ◌++◌};
ghost use Rattle.host_core.specs.Paths.{Path};
ghost use Rattle.texts.specs.PackageNames.{is_package_name};
ghost use Rattle.file_lists.specs.Owners.{AreListPaths};
ghost use Rattle.removal_engine.specs.Lists.{IsToCome};
ghost use Rattle.removal_engine.specs.Stages.{end_stages, files_stage, files_stages, gone_stage, last_stage, left_stage, planned, prerm_stage, purge_stage, purge_stages, removal_stages, stage_of, stages_from, deed};

use crate::extent::Extent;
use crate::lists::{leaving_directories, leaving_files};
use crate::names::{cleared_names, waiting_names};
use crate::records::{
    config_files, goes_at_once, half_configured, losing_files, purged, without_files,
};
use crate::scripts::{Stored, postrm_row, prerm_row, purge_row, quiet_row};
use crate::side_names::purged_names;
use diversions::Diversions;
use file_lists::{FileLists, Paths};
use held_administration::Administration;
use host_core::RootPath;
use status_records::{Record, State};
use std::alloc::{AllocError, Global};
use undo_rows::Row;
use unit_stages::{Part, Stage};

// A stage behind which nothing is restored.
fn stage_of(alloc: Global, parts: Vec<Part>, row: Row) -> Stage
    ensures { planned result ≡ stage_of (map deed parts.items) row }
{
    Stage {
        parts,
        row,
        restore: Vec::new(alloc),
    }
}

// An empty list.
fn no_paths(alloc: Global) -> Paths
    ensures { result ≡ [] }
{
    Paths {
        items: Vec::new(alloc),
    }
}

// A copy of paths, as a list has them.
fn copied(alloc: Global, paths: &[RootPath]) -> Result<Paths, AllocError>
    ensures { IfOk result (λ copy. copy ≡ paths.now) }
{
    let mut items = Vec::new(alloc);
    for path in paths {
        items.push(path.copy()?)?;
    }
    Ok(Paths { items })
}

// The prerm is called.
fn prerm_stage(alloc: Global, entry: &Record, stored: Stored) -> Result<Stage, AllocError>
    requires named { is_package_name entry.now.name ≡ true }
    ensures { IfOk result (λ s. planned s ≡ prerm_stage entry.now stored) }
{
    let mut parts = Vec::new(alloc);
    parts.push(Part::Note(half_configured(entry)?))?;
    let mut restore = Vec::new(alloc);
    restore.push(Part::Note(entry.copy()?))?;
    let row = prerm_row(alloc, &entry.name, stored)?;
    Ok(Stage {
        parts,
        row,
        restore,
    })
}

// The files go, and the postrm is called.
fn files_stage(
    alloc: Global,
    lists: &FileLists,
    diversions: &Diversions,
    entry: &Record,
    stored: Stored,
    to_come: &[RootPath],
) -> Result<Stage, AllocError>
    requires named { is_package_name entry.now.name ≡ true }
    ensures { IfOk result
        (λ s. planned s
        ≡ files_stage diversions.now.ways lists.now.lists entry.now stored to_come.now) }
{
    let waiting = waiting_names(alloc, diversions, entry)?;
    let leaving = leaving_files(alloc, lists, diversions, entry, to_come)?;
    let names = cleared_names(alloc, lists, diversions, entry)?;
    let mut parts = Vec::new(alloc);
    parts.push(Part::Note(losing_files(entry)?))?;
    // One of them may be all that is left in a directory.
    parts.push(Part::Clear(waiting))?;
    parts.push(Part::Remove(leaving))?;
    parts.push(Part::Clear(names))?;
    parts.push(Part::List(copied(alloc, to_come)?))?;
    parts.push(Part::Note(without_files(alloc, entry)?))?;
    let row = postrm_row(alloc, &entry.name, stored)?;
    Ok(stage_of(alloc, parts, row))
}

// Nothing is left.
fn gone_stage(alloc: Global, entry: &Record) -> Result<Stage, AllocError>
    ensures { IfOk result (λ s. planned s ≡ gone_stage entry.now) }
{
    let mut parts = Vec::new(alloc);
    parts.push(Part::DropMembers { keep_postrm: false })?;
    parts.push(Part::List(no_paths(alloc)))?;
    parts.push(Part::DropList)?;
    parts.push(Part::Forget)?;
    let row = quiet_row(&entry.name)?;
    Ok(stage_of(alloc, parts, row))
}

// Conffiles and the postrm are left.
fn left_stage(alloc: Global, entry: &Record) -> Result<Stage, AllocError>
    ensures { IfOk result (λ s. planned s ≡ left_stage entry.now) }
{
    let mut parts = Vec::new(alloc);
    parts.push(Part::DropMembers { keep_postrm: true })?;
    parts.push(Part::Note(config_files(alloc, entry)?))?;
    let row = quiet_row(&entry.name)?;
    Ok(stage_of(alloc, parts, row))
}

// The conffiles go, and the postrm is called.
fn purge_stage(
    alloc: Global,
    lists: &FileLists,
    diversions: &Diversions,
    entry: &Record,
    stored: Stored,
) -> Result<Stage, AllocError>
    requires named { is_package_name entry.now.name ≡ true }
    ensures { IfOk result
        (λ s. planned s ≡ purge_stage diversions.now.ways lists.now.lists entry.now stored) }
{
    let names = purged_names(alloc, lists, diversions, entry)?;
    let mut parts = Vec::new(alloc);
    parts.push(Part::Note(purged(entry)?))?;
    parts.push(Part::Clear(names))?;
    let row = purge_row(alloc, &entry.name, stored)?;
    Ok(stage_of(alloc, parts, row))
}

// What the administration has of the package goes.
fn last_stage(
    alloc: Global,
    lists: &FileLists,
    diversions: &Diversions,
    entry: &Record,
    listed: &[RootPath],
) -> Result<Stage, AllocError>
    ensures { IfOk result
        (λ s. planned s ≡ last_stage diversions.now.ways lists.now.lists entry.now listed.now) }
{
    let leaving = leaving_directories(alloc, lists, diversions, entry, listed)?;
    let mut parts = Vec::new(alloc);
    parts.push(Part::RemoveDirectories(leaving))?;
    parts.push(Part::List(no_paths(alloc)))?;
    parts.push(Part::DropList)?;
    parts.push(Part::DropMembers { keep_postrm: false })?;
    parts.push(Part::Forget)?;
    let row = quiet_row(&entry.name)?;
    Ok(stage_of(alloc, parts, row))
}

// Adds the stages of a purge.
fn push_purge(
    administration: &Administration,
    diversions: &Diversions,
    entry: &Record,
    stored: Stored,
    listed: &[RootPath],
    stages: &mut Vec<Stage>,
) -> Result<(), AllocError>
    requires named { is_package_name entry.now.name ≡ true }
    ensures { OnOk result
        (map planned stages.new.items
        ≡ map planned stages.old.items
        ++ purge_stages diversions.now.ways administration.now.lists.lists entry.now stored
        listed.now) }
{
    let alloc = administration.alloc;
    let lists = &administration.lists;
    stages.push(purge_stage(alloc, lists, diversions, entry, stored)?)?;
    stages.push(last_stage(alloc, lists, diversions, entry, listed)?)?;
    Ok(())
}

// Adds the stages behind that of the files.
fn push_end(
    administration: &Administration,
    diversions: &Diversions,
    entry: &Record,
    stored: Stored,
    purge: bool,
    to_come: &[RootPath],
    stages: &mut Vec<Stage>,
) -> Result<(), AllocError>
    requires named { is_package_name entry.now.name ≡ true }
    ensures { OnOk result
        (map planned stages.new.items
        ≡ map planned stages.old.items
        ++ end_stages diversions.now.ways administration.now.lists.lists entry.now stored purge
        to_come.now) }
{
    let alloc = administration.alloc;
    if goes_at_once(entry, stored) {
        stages.push(gone_stage(alloc, entry)?)?;
        return Ok(());
    }
    stages.push(left_stage(alloc, entry)?)?;
    if !purge {
        return Ok(());
    }
    let left = config_files(alloc, entry)?;
    push_purge(administration, diversions, &left, stored, to_come, stages)?;
    Ok(())
}

// Adds the stages from that of the files on.
fn push_files(
    administration: &Administration,
    diversions: &Diversions,
    entry: &Record,
    stored: Stored,
    purge: bool,
    to_come: &[RootPath],
    stages: &mut Vec<Stage>,
) -> Result<(), AllocError>
    requires named { is_package_name entry.now.name ≡ true }
    ensures { OnOk result
        (map planned stages.new.items
        ≡ map planned stages.old.items
        ++ files_stages diversions.now.ways administration.now.lists.lists entry.now stored purge
        to_come.now) }
{
    let alloc = administration.alloc;
    let lists = &administration.lists;
    stages.push(files_stage(alloc, lists, diversions, entry, stored, to_come)?)?;
    push_end(
        administration,
        diversions,
        entry,
        stored,
        purge,
        to_come,
        stages,
    )?;
    Ok(())
}

// Adds the stages by the state in which the package is found.
fn push_from(
    administration: &Administration,
    diversions: &Diversions,
    entry: &Record,
    stored: Stored,
    purge: bool,
    to_come: &[RootPath],
    stages: &mut Vec<Stage>,
) -> Result<(), AllocError>
    requires named { is_package_name entry.now.name ≡ true }
    ensures { OnOk result
        (map planned stages.new.items
        ≡ map planned stages.old.items
        ++ stages_from diversions.now.ways administration.now.lists.lists entry.now.state
        entry.now stored purge to_come.now) }
{
    match entry.state {
        State::ConfigFiles => {
            let listed = administration.lists.list_of(&entry.name);
            push_purge(administration, diversions, entry, stored, listed, stages)
        }
        State::NotInstalled | State::HalfInstalled | State::Unpacked => push_files(
            administration,
            diversions,
            entry,
            stored,
            purge,
            to_come,
            stages,
        ),
        State::HalfConfigured | State::Installed => {
            stages.push(prerm_stage(administration.alloc, entry, stored)?)?;
            push_files(
                administration,
                diversions,
                entry,
                stored,
                purge,
                to_come,
                stages,
            )
        }
    }
}

/// The stages of a removal of this extent: of the package of this record, which lists that once its files are gone.
pub(crate) fn removal_stages(
    administration: &Administration,
    diversions: &Diversions,
    entry: &Record,
    stored: Stored,
    extent: Extent,
    to_come: &[RootPath],
) -> Result<Vec<Stage>, AllocError>
    requires named { is_package_name entry.now.name ≡ true }
    ensures { IfOk result
        (λ stages. map planned stages.items
        ≡ removal_stages diversions.now.ways administration.now.lists.lists extent entry.now
        stored to_come.now) }
{
    let purge = extent.is_purge();
    let mut stages = Vec::new(administration.alloc);
    match extent {
        Extent::Remove | Extent::Purge => push_from(
            administration,
            diversions,
            entry,
            stored,
            purge,
            to_come,
            &mut stages,
        )?,
        Extent::InFavour => push_files(
            administration,
            diversions,
            entry,
            stored,
            purge,
            to_come,
            &mut stages,
        )?,
    }
    Ok(stages)
}
