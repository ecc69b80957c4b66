// What an unpack does to other packages, by their names.
ghost use Rattle.std.specs.Prelude.{◌<◌, IfOk, length};
ghost use Rattle.unpack_relations.specs.Beside.{IsBeside, IsNumbered};
ghost use Rattle.std.specs.List.{All};

use crate::names::{dependents_at, names_at};
use crate::replaced::replaced_names;
use dependency_check::Plan;
use relation_index::Package;
use std::alloc::{AllocError, Global};
use texts::{Text, Texts};
use version_order::Version;

/// A package that loses what it depends on, and the one named as being removed, with its version.
#[derive(Drop)]
pub struct Dependent {
    pub name: Text,
    pub removing: Text,
    pub version: Version,
}

/// What an unpack does to other packages, each list in name order: those that it breaks and those that lose what they depend
/// on are deconfigured, the conflicting ones are removed, and of the replaced ones files may be taken over.
#[derive(Drop)]
pub struct Beside {
    pub broken: Texts,
    pub dependents: Vec<Dependent>,
    pub conflicting: Texts,
    pub replaced: Texts,
}

/// A plan with names in the place of numbers, and the replaced packages.
pub(crate) fn beside_of(
    alloc: Global,
    packages: &[Package],
    incoming: &Package,
    plan: &Plan,
) -> Result<Beside, AllocError>
    requires broken { All (λ x. x < length packages.now) plan.now.broken }
    requires dependents { All (IsNumbered packages.now) plan.now.dependents.items }
    requires conflicting { All (λ x. x < length packages.now) plan.now.conflicting }
    ensures { IfOk result (IsBeside packages.now incoming.now plan.now) }
{
    Ok(Beside {
        broken: names_at(alloc, packages, plan.broken.as_slice())?,
        dependents: dependents_at(alloc, packages, plan.dependents.as_slice())?,
        conflicting: names_at(alloc, packages, plan.conflicting.as_slice())?,
        replaced: replaced_names(alloc, packages, incoming)?,
    })
}
