// Diversions that are asked for.
ghost use Rattle.std.specs.Prelude.{◌≡◌, true};
ghost use Rattle.diversions.specs.Entries.{is_owner};

use diversions::Owner;
use host_core::ShipPath;

/// A diversion to be added: where the file of a path goes for all packages but the owner, and
/// whether what stands at the path is moved there.
#[derive(Drop)]
pub struct Diverting {
    pub path: ShipPath,
    pub target: ShipPath,
    pub owner: Owner,
    pub rename: bool,
    pub ghost named: { is_owner owner ≡ true },
}

/// An owner's diversion to be taken away, and whether what stands at its target is moved back.
#[derive(Drop)]
pub struct Undiverting {
    pub path: ShipPath,
    pub owner: Owner,
    pub rename: bool,
}
