// The packages of the records, as relations see them.
ghost use Rattle.std.specs.Prelude.{IfOk, IfSome};
ghost use Rattle.recorded_packages.specs.Packages.{ArePackagesOf};

use recorded_packages::packages_of;
use relation_index::Packages;
use status_db::NotedDatabase;
use std::alloc::{AllocError, Global};

/// The packages of the records with the relations that they state: those that are kept, or, where no command has asked for them
/// yet, as they are read now.
pub(crate) fn take_packages(
    alloc: Global,
    packages: &mut Option<Packages>,
    database: &NotedDatabase,
) -> Result<Packages, AllocError>
    requires { IfSome packages.old (ArePackagesOf database.now.records) }
    ensures { IfOk result (ArePackagesOf database.now.records) }
{
    match packages.take() {
        Some(packages) => Ok(packages),
        None => {
            database.law();
            packages_of(alloc, database.records())
        }
    }
}
