// Whether what a package needs is there when its triggers would be processed.
ghost use Rattle.std.specs.Prelude.{◌≡◌, ◌↔◌, IfOk, IsTrue, MatchBool, map};
ghost use Rattle.dependency_sets.specs.Sets.{has};
ghost use Rattle.recorded_packages.specs.Packages.{ArePackagesOf};
ghost use Rattle.trigger_run.specs.Needs.{HasUnmet, IsLacking, IsLetBe, IsReady, IsSupplied, Lacks, LacksAt, satisfies};

use crate::pending::is_pending_in;
use dependency_check::first_unmet;
use relation_index::{Package, Packages};
use status_db::NotedDatabase;
use status_records::Record;
use std::alloc::{AllocError, Global};
use texts::Text;

// The packages that meet what others need.
fn supply_of(alloc: Global, records: &[Record]) -> Result<Vec<bool>, AllocError>
    ensures { IfOk result (λ set. set.items ≡ map satisfies records.now) }
{
    let mut set = Vec::new(alloc);
    for entry in records {
        set.push(entry.is_configured())?;
    }
    Ok(set)
}

// Whether the package has a clause that none of the set meets.
fn has_unmet(
    alloc: Global,
    packages: &Packages,
    of: &Package,
    set: &[bool],
) -> Result<bool, AllocError>
    ensures { IfOk result (λ found. IsTrue found ↔ HasUnmet packages.now (has set.now) of.now) }
{
    match first_unmet(alloc, packages, of, set)? {
        Some(_) => Ok(true),
        None => Ok(false),
    }
}

// Whether the package of this number is of this name, and has such a clause.
fn lacks_at(
    alloc: Global,
    packages: &Packages,
    set: &[bool],
    name: &Text,
    number: usize,
) -> Result<bool, AllocError>
    ensures { IfOk result (λ found. IsTrue found ↔ LacksAt packages.now (has set.now) name.now
        number) }
{
    let Some(of) = packages.as_slice().get(number) else {
        return Ok(false);
    };
    if of.name.as_str() != name.as_str() {
        return Ok(false);
    }
    let found = has_unmet(alloc, packages, of, set)?;
    Ok(found)
}

fn lacks(alloc: Global, packages: &Packages, set: &[bool], name: &Text) -> Result<bool, AllocError>
    ensures { IfOk result (λ found. IsTrue found ↔ Lacks packages.now (has set.now) name.now) }
{
    for number in 0..packages.as_slice().len() {
        let found = lacks_at(alloc, packages, set, name, number)?;
        if found {
            return Ok(true);
        }
    }
    Ok(false)
}

// Whether what the package of this name needs isn't there.
fn is_lacking(
    alloc: Global,
    database: &NotedDatabase,
    packages: &Packages,
    name: &Text,
) -> Result<bool, AllocError>
    requires { ArePackagesOf database.now.records packages.now }
    ensures { IfOk result (λ lacking. MatchBool lacking
        (IsLacking database.now.records name.now) (IsSupplied database.now.records name.now)) }
{
    let set = supply_of(alloc, database.records())?;
    let found = lacks(alloc, packages, set.as_slice(), name)?;
    Ok(found)
}

/// Whether the triggers of the package of this name are to be processed: some are pending, and what it needs is there.
pub(crate) fn is_ready(
    alloc: Global,
    database: &NotedDatabase,
    packages: &Packages,
    name: &Text,
) -> Result<bool, AllocError>
    requires { ArePackagesOf database.now.records packages.now }
    ensures { IfOk result (λ ready. MatchBool ready (IsReady database.now.records name.now)
        (IsLetBe database.now.records name.now)) }
{
    if !is_pending_in(database, name) {
        return Ok(false);
    }
    let lacking = is_lacking(alloc, database, packages, name)?;
    Ok(!lacking)
}
