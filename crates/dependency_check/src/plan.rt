// What an unpack does to other packages.
ghost use Rattle.std.specs.Prelude.{IfOk};
ghost use Rattle.dependency_check.specs.Deconfigured.{IsPlan};

use crate::dependents::dependents;
use crate::roles::{Role, list_of_role};
use dependency_sets::Numbers;
use relation_index::{Package, Packages};
use std::alloc::{AllocError, Global};

/// A package that loses what it depends on, and the one named as being removed.
#[derive(Clone, Copy, Debug)]
pub struct Dependent {
    pub number: usize,
    pub removing: usize,
}

/// The packages that an unpack deconfigures or removes, each list in name order.
#[derive(Drop)]
pub struct Plan {
    pub broken: Numbers,
    pub dependents: Vec<Dependent>,
    pub conflicting: Numbers,
}

pub(crate) fn plan_of(
    alloc: Global,
    packages: &Packages,
    incoming: &Package,
) -> Result<Plan, AllocError>
    ensures { IfOk result (IsPlan packages.now incoming.now) }
{
    let list = packages.as_slice();
    let broken = list_of_role(alloc, list, incoming, Role::Broken)?;
    let conflicting = list_of_role(alloc, list, incoming, Role::Conflicting)?;
    let dependents = dependents(alloc, packages, incoming, conflicting.as_slice())?;
    Ok(Plan {
        broken,
        dependents,
        conflicting,
    })
}
