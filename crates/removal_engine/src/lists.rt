// What a package lists once its files are removed, and which of its paths go.
ghost use Rattle.std.specs.Prelude.{◌≡◌, IfOk};
ghost use Rattle.std.specs.List.{AllByRecursion};
ghost use Rattle.file_lists.specs.Owners.{IsListable};
ghost use Rattle.listed_files.specs.Closing.{SparesAdministration};
ghost use Rattle.removal_engine.specs.Lists.{IsToCome, housed, leaving_directories, leaving_files};

use crate::paths::{conffile_paths, listed_paths};
use crate::records::{goes_at_once, kept_entries};
use crate::scripts::Stored;
use diversions::Diversions;
use file_lists::{FileLists, Paths};
use file_removal::Leaving;
use host_core::RootPath;
use list_changes::{leaving_of, list_with_parents};
use status_records::Record;
use std::alloc::{AllocError, Global};

// The conffiles above which directories stay listed: postrm may take away what is left in them.
fn housed(alloc: Global, entry: &Record, stored: Stored) -> Result<Vec<RootPath>, AllocError>
    ensures paths { IfOk result (λ paths. paths.items ≡ housed entry.now stored) }
    ensures listable { IfOk result (λ paths. AllByRecursion IsListable paths.items) }
{
    if goes_at_once(entry, stored) {
        return Ok(Vec::new(alloc));
    }
    listed_paths(alloc, entry.conffiles.as_slice())
}

/// What the package lists once its files are gone.
pub(crate) fn list_to_come(
    alloc: Global,
    entry: &Record,
    stored: Stored,
) -> Result<Paths, AllocError>
    ensures { IfOk result (IsToCome entry.now stored) }
{
    let kept = kept_entries(alloc, &entry.conffiles)?;
    let staying = listed_paths(alloc, kept.as_slice())?;
    let housed = housed(alloc, entry, stored)?;
    let paths = list_with_parents(alloc, staying.as_slice(), housed.as_slice())?;
    Ok(paths)
}

/// Which of the listed paths go with the files.
pub(crate) fn leaving_files(
    alloc: Global,
    lists: &FileLists,
    diversions: &Diversions,
    entry: &Record,
    to_come: &[RootPath],
) -> Result<Vec<Leaving>, AllocError>
    ensures leaving { IfOk result
        (λ leaving. leaving.items
        ≡ leaving_files diversions.now.ways lists.now.lists entry.now to_come.now) }
    ensures spares { IfOk result (λ leaving. SparesAdministration leaving.items) }
{
    let conffiles = conffile_paths(alloc, entry.conffiles.as_slice())?;
    let listed = lists.list_of(&entry.name);
    let leaving = leaving_of(
        alloc,
        lists,
        diversions,
        &entry.name,
        to_come,
        conffiles.as_slice(),
        listed,
    )?;
    Ok(leaving)
}

/// Which of these paths go at the end of a purge, where directories stand there.
pub(crate) fn leaving_directories(
    alloc: Global,
    lists: &FileLists,
    diversions: &Diversions,
    entry: &Record,
    listed: &[RootPath],
) -> Result<Vec<Leaving>, AllocError>
    ensures leaving { IfOk result
        (λ leaving. leaving.items
        ≡ leaving_directories diversions.now.ways lists.now.lists entry.now listed.now) }
    ensures spares { IfOk result (λ leaving. SparesAdministration leaving.items) }
{
    let conffiles = conffile_paths(alloc, entry.conffiles.as_slice())?;
    let none = Vec::new(alloc);
    let leaving = leaving_of(
        alloc,
        lists,
        diversions,
        &entry.name,
        none.as_slice(),
        conffiles.as_slice(),
        listed,
    )?;
    Ok(leaving)
}
