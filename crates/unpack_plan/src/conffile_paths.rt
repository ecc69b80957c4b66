// The conffiles that a record tells of.
ghost use Rattle.std.specs.Prelude.{◌≡◌, ◌++◌, map, IfOk, OnOk};
ghost use Rattle.std.specs.Option.{option_copied};
ghost use Rattle.status_records.specs.declared.entries.PendingDigest.{PendingDigest as APendingDigest};
ghost use Rattle.unpack_plan.specs.Lists.{entry_paths};
ghost use Rattle.unpack_plan.specs.Names.{known_conffiles};
ghost use Rattle.unpack_plan.specs.Records.{entries_of};

use host_core::ShipPath;
use status_records::{ConffileEntry, PendingDigest, Record};
use std::alloc::{AllocError, Global};

fn add_entries(entries: &[ConffileEntry], paths: &mut Vec<ShipPath>) -> Result<(), AllocError>
    ensures { OnOk result (paths.new.items ≡ paths.old.items ++ entry_paths entries.now) }
{
    for entry in entries {
        paths.push(entry.path.copy()?)?;
    }
    Ok(())
}

fn add_pending(pending: &[PendingDigest], paths: &mut Vec<ShipPath>) -> Result<(), AllocError>
    ensures { OnOk result
        (paths.new.items ≡ paths.old.items ++ map (λ (d : APendingDigest). d.path) pending.now) }
{
    for digest in pending {
        paths.push(digest.path.copy()?)?;
    }
    Ok(())
}

/// The paths of its entries.
pub(crate) fn entry_paths(
    alloc: Global,
    found: Option<&Record>,
) -> Result<Vec<ShipPath>, AllocError>
    ensures { IfOk result
        (λ paths. paths.items ≡ entry_paths (entries_of (option_copied found.entry))) }
{
    let mut paths = Vec::new(alloc);
    if let Some(found) = found {
        add_entries(found.conffiles.as_slice(), &mut paths)?;
    }
    Ok(paths)
}

/// The same, and behind them the paths of digests that aren't settled.
pub(crate) fn known_conffiles(
    alloc: Global,
    found: Option<&Record>,
) -> Result<Vec<ShipPath>, AllocError>
    ensures { IfOk result (λ paths. paths.items ≡ known_conffiles (option_copied found.entry)) }
{
    let mut paths = Vec::new(alloc);
    if let Some(found) = found {
        add_entries(found.conffiles.as_slice(), &mut paths)?;
        add_pending(found.pending.as_slice(), &mut paths)?;
    }
    Ok(paths)
}
