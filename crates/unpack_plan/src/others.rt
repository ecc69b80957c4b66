// What stands beside an unpack.
ghost use Rattle.std.specs.Prelude.{◌≡◌, ◌++◌, IfOk};
ghost use Rattle.unpack_commit.specs.Takeover.{yields_of as names_of_yields};

use status_db::NotedDatabase;
use std::alloc::{AllocError, Global};
use texts::{Text, Texts};
use unpack_commit::yields_of;
use unpack_rows::OtherPackage;

/// Other packages beside an unpack: those that have rows, and the names of those with whose files
/// no path clashes, beside the packages of which only conffiles are left.
#[derive(Drop)]
pub struct Others {
    /// Those that are deconfigured, or whose prerm is called since they conflict, in the order of
    /// their rows.
    pub packages: Vec<OtherPackage>,
    pub yields: Texts,
}

/// The packages of which only conffiles are left, and then these.
pub(crate) fn all_yields(
    alloc: Global,
    database: &NotedDatabase,
    others: &[Text],
) -> Result<Texts, AllocError>
    ensures { IfOk result (λ names. names ≡ names_of_yields database.now.records ++ others.now) }
{
    let mut names = yields_of(alloc, database.records())?;
    for other in others {
        names.push(other.copy()?)?;
    }
    Ok(names)
}
