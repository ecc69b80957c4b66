// The packages that a session's records tell.
ghost use Rattle.std.specs.Prelude.{◌≡◌, false, IfOk};
ghost use Rattle.recorded_packages.specs.Packages.{ArePackagesOf};

use crate::session::Session;
use host_core::Host;
use recorded_packages::packages_of;
use relation_index::Packages;
use std::alloc::AllocError;

impl<H: Host> Session<H> {
    /// The packages of the records, as relations see them.
    pub fn packages(&self) -> Result<Packages, AllocError>
        requires { self.now.closed ≡ false }
        ensures { IfOk result (ArePackagesOf self.now.administration.database.records) }
    {
        let database = &self.administration.database;
        database.law();
        packages_of(self.administration.alloc, database.records())
    }
}
