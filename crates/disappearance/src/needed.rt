// Whether a package is needed by another one.
ghost use Rattle.std.specs.Prelude.{◌≡◌, ℕ, List, IfOk, MatchOption, map};
ghost use Rattle.recorded_packages.specs.Packages.{ArePackagesOf};
ghost use Rattle.status_records.specs.declared.record.Record.{Record as ARecord};
ghost use Rattle.disappearance.specs.Needed.{HasNumber, IsNeedOf, is_called, is_supplied};

use dependency_check::depended_on_by;
use relation_index::{Package, Packages};
use std::alloc::{AllocError, Global};
use texts::Text;

fn is_called(one: &Package, name: &Text) -> bool
    ensures { result ≡ is_called name.now one.now }
{
    one.name.as_str() == name.as_str()
}

// Which packages have this name.
fn called(alloc: Global, packages: &[Package], name: &Text) -> Result<Vec<bool>, AllocError>
    ensures { IfOk result (λ marks. marks.items ≡ map (is_called name.now) packages.now) }
{
    let mut marks = Vec::new(alloc);
    for package in packages {
        marks.push(is_called(package, name))?;
    }
    Ok(marks)
}

// Which packages are installed, or the unpacked one.
fn supplied(alloc: Global, packages: &[Package], incoming: &Text) -> Result<Vec<bool>, AllocError>
    ensures { IfOk result (λ marks. marks.items ≡ map (is_supplied incoming.now) packages.now) }
{
    let mut marks = Vec::new(alloc);
    for package in packages {
        marks.push(package.is_installed() || is_called(package, incoming))?;
    }
    Ok(marks)
}

// The number of the package of this name.
fn number_of(packages: &[Package], name: &Text) -> Option<usize>
    ensures { MatchOption result ((x : ℕ) → HasNumber packages.now name.now x → ⊥)
        (HasNumber packages.now name.now) }
{
    for number in 0..packages.len() {
        if is_called(&packages[number], name) {
            return Some(number);
        }
    }
    None
}

/// Whether another package that is installed, or the unpacked one, needs the package of this name: it has a clause of Depends or
/// Pre-Depends which that one meets and no other that is installed, nor the unpacked one. Asked of the packages of the records.
pub(crate) fn is_needed(
    alloc: Global,
    packages: &Packages,
    incoming: &Text,
    name: &Text,
) -> Result<bool, AllocError>
    requires known { (x : ℕ) × HasNumber packages.now name.now x }
    ensures { IfOk result
        (λ needed. (records : List ARecord)
        → ArePackagesOf records packages.now
        → IsNeedOf incoming.now records name.now needed) }
{
    let list = packages.as_slice();
    let installed = supplied(alloc, list, incoming)?;
    let own = called(alloc, list, name)?;
    match number_of(list, name) {
        Some(number) => {
            let supply = installed.as_slice();
            let mine = own.as_slice();
            let by = depended_on_by(alloc, packages, supply, mine, number)?;
            Ok(by.is_some())
        }
        None => unreachable!(),
    }
}
