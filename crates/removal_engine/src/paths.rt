// The paths of conffiles.
ghost use Rattle.std.specs.Prelude.{◌≡◌, IfOk};
ghost use Rattle.std.specs.List.{AllByRecursion};
ghost use Rattle.file_lists.specs.Owners.{IsListable};
ghost use Rattle.removal_engine.specs.Records.{entry_paths};

use host_core::{RootPath, ShipPath};
use status_records::ConffileEntry;
use std::alloc::{AllocError, Global};

/// The paths of entries, as a list has them.
pub(crate) fn listed_paths(
    alloc: Global,
    entries: &[ConffileEntry],
) -> Result<Vec<RootPath>, AllocError>
    ensures paths { IfOk result (λ paths. paths.items ≡ entry_paths entries.now) }
    ensures listable { IfOk result (λ paths. AllByRecursion IsListable paths.items) }
{
    let mut paths = Vec::new(alloc);
    for entry in entries {
        entry.path.law();
        paths.push(entry.path.at()?)?;
    }
    Ok(paths)
}

/// The paths of entries.
pub(crate) fn conffile_paths(
    alloc: Global,
    entries: &[ConffileEntry],
) -> Result<Vec<ShipPath>, AllocError>
    ensures { IfOk result (λ paths. paths.items ≡ entry_paths entries.now) }
{
    let mut paths = Vec::new(alloc);
    for entry in entries {
        paths.push(entry.path.copy()?)?;
    }
    Ok(paths)
}
