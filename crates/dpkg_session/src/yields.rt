// The packages that let the incoming one take paths of theirs.
ghost use Rattle.std.specs.Prelude.{◌≡◌, ◌++◌, IfOk, OnOk};
ghost use Rattle.unit_reports.specs.Held.{held};
ghost use Rattle.dpkg_session.specs.Units.{all_yielding};

use diversions::Diversions;
use file_lists::FileLists;
use in_favour_rows::yields_beside;
use obsolete_conffiles::obsolete_yields;
use package_tree::Package;
use status_db::NotedDatabase;
use std::alloc::{AllocError, Global};
use texts::{Text, Texts};
use unpack_relations::Beside;

// To make the lists' index costs less than to look through all lists once for each of more paths than these.
const FEW_PATHS: usize = 3;

/// Makes the lists' index where the tree ships many paths: the unpack asks for the owners of each, and so does what is looked for
/// before, where a package has left an obsolete conffile.
pub(crate) fn index_where_many(
    alloc: Global,
    lists: &mut FileLists,
    diversions: &Diversions,
    incoming: &Package,
) -> Result<(), AllocError>
    ensures { lists.new ≡ lists.old }
{
    if incoming.files.as_slice().len() > FEW_PATHS {
        lists.index(alloc, diversions)?;
    }
    Ok(())
}

fn push_all(names: &mut Texts, more: &[Text]) -> Result<(), AllocError>
    ensures { OnOk result (names.new ≡ names.old ++ more.now) }
{
    for name in more {
        names.push(name.copy()?)?;
    }
    Ok(())
}

/// The packages with which no path clashes: those that conflict or are replaced, and those of which the incoming one takes obsolete
/// conffiles alone.
pub(crate) fn all_yields(
    alloc: Global,
    database: &NotedDatabase,
    lists: &FileLists,
    diversions: &Diversions,
    incoming: &Package,
    beside: &Beside,
) -> Result<Texts, AllocError>
    ensures { IfOk result (λ names. names ≡ all_yielding incoming.now beside.now
        (held database.now lists.now diversions.now)) }
{
    let mut names = yields_beside(alloc, beside)?;
    let more = obsolete_yields(
        alloc,
        diversions,
        incoming,
        lists,
        database.records(),
        names.as_slice(),
    )?;
    push_all(&mut names, more.as_slice())?;
    Ok(names)
}
