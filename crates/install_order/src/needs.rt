// What trees need of each other.
ghost use Rattle.std.specs.Prelude.{IfOk, OnOk};
ghost use Rattle.std.specs.BTreeMap.{get_by_text};
ghost use Rattle.recorded_packages.specs.Packages.{first_architecture};
ghost use Rattle.install_order.specs.Bearers.{AreBearers};
ghost use Rattle.install_order.specs.Clauses.{HasTaken, HasStated, AreNeeds, stated_by};

use crate::bearers::Bearers;
use crate::met_already::is_met_already;
use crate::stage::{Stage, stated_for};
use dependency_sets::Clause;
use package_tree::ControlFile;
use relation_index::Packages;
use std::alloc::{AllocError, Global};

fn push_need(
    alloc: Global,
    list: &mut Vec<Clause>,
    stage: Stage,
    recorded: &Packages,
    trees: &[Option<ControlFile>],
    bearers: &Bearers,
    owner: usize,
    stated: &relation_fields::Clause,
) -> Result<(), AllocError>
    requires { AreBearers (first_architecture recorded.now) trees.now
        bearers.now.architectures.items (get_by_text bearers.now.index.slots)
        bearers.now.index.rows.items }
    ensures { OnOk result (HasTaken stage recorded.now trees.now owner stated.now list.old.items
        list.new.items) }
{
    if is_met_already(alloc, stage, recorded, stated)? {
        return Ok(());
    }
    let meeters = bearers.meeters(alloc, stated, trees)?;
    if meeters.as_slice().is_empty() {
        return Ok(());
    }
    list.push(Clause { owner, meeters })?;
    Ok(())
}

fn push_needs(
    alloc: Global,
    list: &mut Vec<Clause>,
    stage: Stage,
    recorded: &Packages,
    trees: &[Option<ControlFile>],
    bearers: &Bearers,
    owner: usize,
    stated: &[relation_fields::Clause],
) -> Result<(), AllocError>
    requires { AreBearers (first_architecture recorded.now) trees.now
        bearers.now.architectures.items (get_by_text bearers.now.index.slots)
        bearers.now.index.rows.items }
    ensures { OnOk result (HasStated stage recorded.now trees.now owner stated.now list.old.items
        list.new.items) }
{
    for one in stated {
        push_need(alloc, list, stage, recorded, trees, bearers, owner, one)?;
    }
    Ok(())
}

fn push_needs_of(
    alloc: Global,
    list: &mut Vec<Clause>,
    stage: Stage,
    recorded: &Packages,
    trees: &[Option<ControlFile>],
    bearers: &Bearers,
    owner: usize,
    tree: &Option<ControlFile>,
) -> Result<(), AllocError>
    requires { AreBearers (first_architecture recorded.now) trees.now
        bearers.now.architectures.items (get_by_text bearers.now.index.slots)
        bearers.now.index.rows.items }
    ensures { OnOk result (HasStated stage recorded.now trees.now owner (stated_by stage tree.now)
        list.old.items list.new.items) }
{
    match tree {
        Some(tree) => {
            let stated = stated_for(stage, tree);
            push_needs(alloc, list, stage, recorded, trees, bearers, owner, stated)
        }
        None => Ok(()),
    }
}

/// The needs of all trees, each with the trees that meet it.
pub(crate) fn needs_of(
    alloc: Global,
    stage: Stage,
    recorded: &Packages,
    trees: &[Option<ControlFile>],
    bearers: &Bearers,
) -> Result<Vec<Clause>, AllocError>
    requires { AreBearers (first_architecture recorded.now) trees.now
        bearers.now.architectures.items (get_by_text bearers.now.index.slots)
        bearers.now.index.rows.items }
    ensures { IfOk result (λ list. AreNeeds stage recorded.now trees.now list.items) }
{
    let mut list = Vec::new(alloc);
    for owner in 0..trees.len() {
        let tree = &trees[owner];
        push_needs_of(
            alloc, &mut list, stage, recorded, trees, bearers, owner, tree,
        )?;
    }
    Ok(list)
}
