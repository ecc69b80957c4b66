// Whether the conffiles of a package can be settled.
ghost use Rattle.std.specs.Prelude.{◌≡◌, None};
ghost use Rattle.std.specs.List.{All};
ghost use Rattle.host_core.specs.Host.{Tells};
ghost use Rattle.host_core.specs.Looks.{Looks};
ghost use Rattle.conffiles.specs.Settling.{CanSettle};
ghost use Rattle.status_records.specs.ConffilePaths.{is_before};
ghost use Rattle.configure_engine.specs.Obstacles.{lesser_of, names_of_all, IsObstacle};
ghost use Rattle.configure_engine.specs.Waiting.{settling_places};

use crate::waiting::{places_of, settling_paths};
use conffiles::find_obstacle;
use diversions::Diversions;
use host_core::{Host, HostFault, RootPath, ShipPath};
use status_records::Record;
use std::alloc::Global;
use std::cmp::Ordering;

fn is_before(path: &RootPath, other: &RootPath) -> bool
    ensures { result ≡ is_before path.now other.now }
{
    path.as_str().as_bytes().cmp(other.as_str().as_bytes()) == Ordering::Less
}

// Keeps the smaller name.
fn keep_lesser(least: &mut Option<RootPath>, found: RootPath)
    ensures { least.new ≡ lesser_of least.old found }
{
    if let Some(old) = least {
        if !is_before(&found, old) {
            return;
        }
    }
    *least = Some(found);
}

fn look_at_each<H: Host>(
    host: &mut H,
    paths: &[ShipPath],
    least: &mut Option<RootPath>,
) -> Result<(), HostFault>
    requires { least.old ≡ None }
    ensures looks { Looks result (λ done w. IsObstacle w (names_of_all paths.now) least.new)
        (H.state host.old) (H.state host.new) }
    ensures clear { Tells result (λ done w. least.new ≡ None → All (λ x. CanSettle x w) paths.now)
        (H.state host.old) (H.state host.new) }
{
    for path in paths {
        if let Some(found) = find_obstacle(host, path)? {
            keep_lesser(least, found);
        }
    }
    Ok(())
}

/// Of the names of all conffiles of a package that are to be settled, as they stand at their places, the
/// smallest at which something else than a file stands: then they can't be settled.
pub fn obstacle<H: Host>(
    alloc: Global,
    host: &mut H,
    diversions: &Diversions,
    entry: &Record,
) -> Result<Option<RootPath>, HostFault>
    ensures looks { Looks result
        (λ found w. IsObstacle w (names_of_all (settling_places diversions.now.ways entry.now))
        found) (H.state host.old) (H.state host.new) }
    ensures clear { Tells result (λ found w. found ≡ None
        → All (λ x. CanSettle x w) (settling_places diversions.now.ways entry.now))
        (H.state host.old) (H.state host.new) }
{
    let paths = settling_paths(alloc, diversions, entry)?;
    let places = places_of(alloc, diversions, paths.as_slice())?;
    let mut least = None;
    match look_at_each(host, places.as_slice(), &mut least) {
        Ok(()) => Ok(least),
        Err(fault) => Err(fault),
    }
}
