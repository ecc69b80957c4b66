// Between which places a node is moved.
ghost use Rattle.std.specs.Prelude.{◌≡◌, IfOk};
ghost use Rattle.diversions.specs.Routes.{route_of};

use aliases::Aliases;
use host_core::ShipPath;
use std::alloc::AllocError;

/// The place of a node, and where it is moved.
#[derive(Drop)]
pub(crate) struct Route {
    pub from: ShipPath,
    pub to: ShipPath,
}

/// From the place of one name to that of another.
pub(crate) fn route_of(
    aliases: &Aliases,
    from: &ShipPath,
    to: &ShipPath,
) -> Result<Route, AllocError>
    ensures { IfOk result (λ route. route ≡ route_of aliases.now from.now to.now) }
{
    Ok(Route {
        from: aliases.resolve(from)?,
        to: aliases.resolve(to)?,
    })
}
