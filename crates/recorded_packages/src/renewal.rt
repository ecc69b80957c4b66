// Packages brought up to date where records changed.
ghost use Rattle.std.specs.Prelude.{◌≡◌, List, [], ◌∷◌, IsTrue, OnOk, OnErr, option_copied};
ghost use Rattle.status_db.specs.Order.{AreInOrder};
ghost use Rattle.status_records.specs.declared.record.Record.{Record as ARecord};
ghost use Rattle.recorded_packages.specs.Packages.{ArePackagesIn, ArePackagesOf, root_architecture};
ghost use Rattle.recorded_packages.specs.Renewal.{AreSameBut, AreUpToDate, IsRenewed};

use crate::packages::{package_of, packages_of, root_architecture, root_of};
use relation_index::Packages;
use status_db::NotedDatabase;
use std::alloc::{AllocError, Global};
use std::slice;
use texts::Text;

// Whether the packages are of a root of this architecture.
fn are_of(packages: &Packages, root: Option<&str>) -> bool
    ensures { IsTrue result → (records : List ARecord) → ArePackagesOf records packages.now
        → root_architecture records ≡ option_copied root.entry }
{
    match (root_architecture(packages), root) {
        (Some(one), Some(other)) => one == other,
        (None, None) => true,
        _ => false,
    }
}

// The package of a name as its record tells of it now; none where there is no record.
fn renew_package(
    alloc: Global,
    packages: &mut Packages,
    root: Option<&str>,
    database: &NotedDatabase,
    name: &Text,
) -> Result<(), AllocError>
    ensures { OnOk result (IsRenewed (option_copied root.entry) database.now.records name.now
        packages.old packages.new) }
{
    let Some(entry) = database.get(name) else {
        packages.remove(name);
        return Ok(());
    };
    let renewed = package_of(alloc, root, entry)?;
    packages.put(alloc, renewed)?;
    Ok(())
}

fn renew_each(
    alloc: Global,
    packages: &mut Packages,
    root: Option<&str>,
    database: &NotedDatabase,
    names: &[Text],
) -> Result<(), AllocError>
    ensures { OnOk result ((before : List ARecord) → AreInOrder before
        → ArePackagesIn (option_copied root.entry) before packages.old
        → AreUpToDate (option_copied root.entry) database.now.records before names.now
        packages.new) }
{
    for name in names {
        renew_package(alloc, packages, root, database, name)?;
    }
    Ok(())
}

// Where the architecture of the root is another one than before, all packages are made anew.
fn renew_in_root(
    alloc: Global,
    packages: &mut Packages,
    database: &NotedDatabase,
    names: &[Text],
) -> Result<(), AllocError>
    ensures { OnOk result ((before : List ARecord) → AreInOrder before
        → ArePackagesOf before packages.old → AreSameBut names.now before database.now.records
        → ArePackagesOf database.now.records packages.new) }
{
    database.law();
    let records = database.records();
    let root = root_of(records);
    if are_of(packages, root) {
        return renew_each(alloc, packages, root, database, names);
    }
    *packages = packages_of(alloc, records)?;
    Ok(())
}

/// Brings packages up to date where the records of these names may have changed. Where memory is wanting there are no
/// packages any more.
pub fn renew(
    alloc: Global,
    packages: &mut Packages,
    database: &NotedDatabase,
    names: &[Text],
) -> Result<(), AllocError>
    ensures ok { OnOk result ((before : List ARecord) → AreInOrder before
        → ArePackagesOf before packages.old → AreSameBut names.now before database.now.records
        → ArePackagesOf database.now.records packages.new) }
    ensures err { OnErr result (packages.new ≡ []) }
{
    match renew_in_root(alloc, packages, database, names) {
        Ok(()) => Ok(()),
        Err(fault) => {
            *packages = Packages::new(alloc);
            Err(fault)
        }
    }
}

/// The same for one name.
pub fn renew_one(
    alloc: Global,
    packages: &mut Packages,
    database: &NotedDatabase,
    name: &Text,
) -> Result<(), AllocError>
    ensures ok { OnOk result ((before : List ARecord) → AreInOrder before
        → ArePackagesOf before packages.old → AreSameBut (name.now ∷ []) before database.now.records
        → ArePackagesOf database.now.records packages.new) }
    ensures err { OnErr result (packages.new ≡ []) }
{
    renew(alloc, packages, database, slice::from_ref(name))
}
