// Names in the place of the numbers of packages.
ghost use Rattle.std.specs.Prelude.{◌≡◌, ◌<◌, IfOk, length, map};
ghost use Rattle.std.specs.List.{All};
ghost use Rattle.unpack_relations.specs.Beside.{IsNumbered, dependent_at, name_at};

use crate::beside::Dependent;
use relation_index::Package;
use std::alloc::{AllocError, Global};
use texts::{Text, Texts};

pub(crate) fn name_at(packages: &[Package], number: usize) -> Result<Text, AllocError>
    requires { number < length packages.now }
    ensures { IfOk result (λ name. name ≡ name_at packages.now number) }
{
    packages[number].name.copy()
}

/// The names of the packages of these numbers, in their order.
pub(crate) fn names_at(
    alloc: Global,
    packages: &[Package],
    numbers: &[usize],
) -> Result<Texts, AllocError>
    requires { All (λ x. x < length packages.now) numbers.now }
    ensures { IfOk result (λ names. names ≡ map (name_at packages.now) numbers.now) }
{
    let mut names = Texts::new(alloc);
    for number in numbers {
        names.push(name_at(packages, *number)?)?;
    }
    Ok(names)
}

fn dependent_at(
    packages: &[Package],
    dependent: &dependency_check::Dependent,
) -> Result<Dependent, AllocError>
    requires { IsNumbered packages.now dependent.now }
    ensures { IfOk result (λ named. named ≡ dependent_at packages.now dependent.now) }
{
    Ok(Dependent {
        name: name_at(packages, dependent.number)?,
        removing: name_at(packages, dependent.removing)?,
        version: packages[dependent.removing].version.copy()?,
    })
}

/// The same of packages that lose what they depend on.
pub(crate) fn dependents_at(
    alloc: Global,
    packages: &[Package],
    dependents: &[dependency_check::Dependent],
) -> Result<Vec<Dependent>, AllocError>
    requires { All (IsNumbered packages.now) dependents.now }
    ensures { IfOk result (λ list. list.items ≡ map (dependent_at packages.now) dependents.now) }
{
    let mut list = Vec::new(alloc);
    for dependent in dependents {
        list.push(dependent_at(packages, dependent)?)?;
    }
    Ok(list)
}
