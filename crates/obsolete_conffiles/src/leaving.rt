// Obsolete conffiles of recorded packages, at whose places a package ships conffiles.
ghost use Rattle.std.specs.Prelude.{◌≡◌, IfOk};
ghost use Rattle.std.specs.Str.{bytes_eq};
ghost use Rattle.diversions.specs.Ways.{place};
ghost use Rattle.obsolete_conffiles.specs.Yields.{is_left, is_left_at, leaves_any, leaves_at, ships_conffile_at};

use diversions::Diversions;
use host_core::ShipPath;
use package_tree::Package;
use status_records::{ConffileEntry, Record};
use std::alloc::AllocError;
use texts::Text;

fn is_placed(
    diversions: &Diversions,
    name: &Text,
    path: &ShipPath,
    at: &ShipPath,
) -> Result<bool, AllocError>
    ensures { IfOk result (λ is. is
        ≡ bytes_eq (place diversions.now.ways name.now path.now) at.now) }
{
    let place = diversions.ship_place(name, path)?;
    Ok(place.as_str() == at.as_str())
}

fn ships_conffile_at(
    diversions: &Diversions,
    incoming: &Package,
    at: &ShipPath,
) -> Result<bool, AllocError>
    ensures { IfOk result (λ ships. ships
        ≡ ships_conffile_at diversions.now.ways incoming.now at.now) }
{
    for path in incoming.conffiles.as_slice() {
        if is_placed(diversions, &incoming.name, path, at)? {
            return Ok(true);
        }
    }
    Ok(false)
}

fn is_left(
    diversions: &Diversions,
    incoming: &Package,
    name: &Text,
    entry: &ConffileEntry,
) -> Result<bool, AllocError>
    ensures { IfOk result (λ left. left
        ≡ is_left diversions.now.ways incoming.now name.now entry.now) }
{
    if !entry.obsolete {
        return Ok(false);
    }
    let at = diversions.ship_place(name, &entry.path)?;
    ships_conffile_at(diversions, incoming, &at)
}

/// Whether a record has an obsolete conffile at a place at which the incoming package ships a conffile.
pub(crate) fn leaves_any(
    diversions: &Diversions,
    incoming: &Package,
    record: &Record,
) -> Result<bool, AllocError>
    ensures { IfOk result (λ leaves. leaves
        ≡ leaves_any diversions.now.ways incoming.now record.now) }
{
    for entry in record.conffiles.as_slice() {
        if is_left(diversions, incoming, &record.name, entry)? {
            return Ok(true);
        }
    }
    Ok(false)
}

fn is_left_at(
    diversions: &Diversions,
    incoming: &Package,
    name: &Text,
    at: &ShipPath,
    entry: &ConffileEntry,
) -> Result<bool, AllocError>
    ensures { IfOk result (λ left. left
        ≡ is_left_at diversions.now.ways incoming.now name.now at.now entry.now) }
{
    if !is_left(diversions, incoming, name, entry)? {
        return Ok(false);
    }
    is_placed(diversions, name, &entry.path, at)
}

/// Whether it has one at this place.
pub(crate) fn leaves_at(
    diversions: &Diversions,
    incoming: &Package,
    record: &Record,
    at: &ShipPath,
) -> Result<bool, AllocError>
    ensures { IfOk result (λ leaves. leaves
        ≡ leaves_at diversions.now.ways incoming.now record.now at.now) }
{
    for entry in record.conffiles.as_slice() {
        if is_left_at(diversions, incoming, &record.name, at, entry)? {
            return Ok(true);
        }
    }
    Ok(false)
}
