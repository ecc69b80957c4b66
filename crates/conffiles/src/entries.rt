// Conffiles that are to be settled.
ghost use Rattle.std.specs.Prelude.{◌≡◌, true};
ghost use Rattle.host_core.specs.Paths.{is_ship_text};

use crate::decisions::Decision;
use host_core::ShipPath;

/// A conffile, and what becomes of it.
#[derive(Drop)]
pub struct Settled {
    pub path: ShipPath,
    pub decision: Decision,
    pub ghost ships: { is_ship_text path ≡ true },
}

impl Settled {
    pub fn new(path: ShipPath, decision: Decision) -> Settled
        ensures path { result.path ≡ path }
        ensures decision { result.decision ≡ decision }
    {
        path.law();
        Settled { path, decision }
    }
}
