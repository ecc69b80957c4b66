// The clauses that packages state, with the packages that meet them.
ghost use Rattle.std.specs.Prelude.{◌≡◌, IfOk, OnOk};
ghost use Rattle.std.specs.BTreeMap.{get_by_text};
ghost use Rattle.relation_index.specs.Bearing.{IsIndex, HasStated};
ghost use Rattle.relation_index.specs.Packages.{AreClauses, AreMeeters, needs};

use crate::index::Index;
use crate::package::Package;
use dependency_sets::Clause;
use std::alloc::{AllocError, Global};

fn clause_of(
    alloc: Global,
    index: &Index,
    packages: &[Package],
    owner: usize,
    stated: &relation_fields::Clause,
) -> Result<Clause, AllocError>
    requires { IsIndex packages.now (get_by_text index.now.slots) index.now.rows.items }
    ensures owner { IfOk result (λ c. c.owner ≡ owner) }
    ensures meeters { IfOk result (λ c. AreMeeters packages.now stated.now c.meeters) }
{
    let meeters = index.meeters(alloc, stated.alternatives(), packages)?;
    Ok(Clause { owner, meeters })
}

fn push_clauses(
    alloc: Global,
    list: &mut Vec<Clause>,
    index: &Index,
    packages: &[Package],
    owner: usize,
    stated: &[relation_fields::Clause],
) -> Result<(), AllocError>
    requires { IsIndex packages.now (get_by_text index.now.slots) index.now.rows.items }
    ensures { OnOk result (HasStated packages.now owner stated.now list.old.items list.new.items) }
{
    for one in stated {
        list.push(clause_of(alloc, index, packages, owner, one)?)?;
    }
    Ok(())
}

fn push_needs(
    alloc: Global,
    list: &mut Vec<Clause>,
    index: &Index,
    packages: &[Package],
    owner: usize,
    of: &Package,
) -> Result<(), AllocError>
    requires { IsIndex packages.now (get_by_text index.now.slots) index.now.rows.items }
    ensures { OnOk result (HasStated packages.now owner (needs of.now) list.old.items
        list.new.items) }
{
    let first = of.pre_depends.clauses();
    push_clauses(alloc, list, index, packages, owner, first)?;
    let second = of.depends.clauses();
    push_clauses(alloc, list, index, packages, owner, second)?;
    Ok(())
}

/// The clauses of Depends and Pre-Depends of all packages, each with its owner and those that meet it.
pub(crate) fn clauses_of(
    alloc: Global,
    index: &Index,
    packages: &[Package],
) -> Result<Vec<Clause>, AllocError>
    requires { IsIndex packages.now (get_by_text index.now.slots) index.now.rows.items }
    ensures { IfOk result (λ list. AreClauses packages.now list.items) }
{
    let mut list = Vec::new(alloc);
    for (owner, of) in packages.iter().enumerate() {
        push_needs(alloc, &mut list, index, packages, owner, of)?;
    }
    Ok(list)
}
