// Whether a directory has entries.
ghost use Rattle.std.specs.Prelude.{◌↔◌, IsTrue};
ghost use Rattle.host_core.specs.World.{IsBare};
ghost use Rattle.host_core.specs.Looks.{Looks};

use host_core::{Host, HostFault, RootPath};

/// Whether nothing is below a path.
pub fn is_bare<H: Host>(host: &mut H, path: &RootPath) -> Result<bool, HostFault>
    ensures looks { Looks result (λ bare w. IsTrue bare ↔ IsBare w path.now) (H.state host.old)
        (H.state host.new) }
{
    let listing = host.list(path)?;
    if listing.bad {
        return Ok(false);
    }
    Ok(listing.names.as_slice().is_empty())
}
