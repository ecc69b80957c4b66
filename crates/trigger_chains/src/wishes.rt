// What is to be processed, and what led to it.
ghost use Rattle.std.specs.Prelude.{◌≡◌, ◌++◌, IfOk, MatchOption, OnOk, None, Some, map};
ghost use Rattle.std.specs.List.{flat_map};
ghost use Rattle.trigger_chains.specs.Wishes.{chain_behind, first_looped, first_package, is_looped, is_of, is_wished, mine, step_of, with_wish, with_wishes, without};

use crate::steps::{Chain, Step, has_step};
use std::alloc::{AllocError, Global};
use texts::Text;

/// A trigger that a package is to process, and the processings that led to it.
#[derive(Drop)]
pub struct Wish {
    pub package: Text,
    pub trigger: Text,
    pub chain: Chain,
}

/// The wishes of a package, and those of the others.
#[derive(Drop)]
pub struct Divided {
    pub mine: Vec<Wish>,
    pub others: Vec<Wish>,
}

/// The package whose turn it is: that of the first wish.
pub fn package_of(wishes: &[Wish]) -> Option<&Text>
    ensures { MatchOption result (first_package wishes.now ≡ None)
        (λ name. first_package wishes.now ≡ Some name.now) }
{
    match wishes {
        [first, ..] => Some(&first.package),
        [] => None,
    }
}

fn is_of(wish: &Wish, name: &Text) -> bool
    ensures { result ≡ is_of name.now wish.now }
{
    wish.package.as_str() == name.as_str()
}

/// The wishes of the package of this name, and the others, each in their order.
pub fn divide(alloc: Global, name: &Text, wishes: Vec<Wish>) -> Result<Divided, AllocError>
    ensures mine { IfOk result (λ both. both.mine.items ≡ mine name.now wishes.items) }
    ensures others { IfOk result (λ both. both.others.items ≡ without name.now wishes.items) }
{
    let mut mine = Vec::new(alloc);
    let mut others = Vec::new(alloc);
    for wish in wishes {
        if is_of(&wish, name) {
            mine.push(wish)?;
        } else {
            others.push(wish)?;
        }
    }
    Ok(Divided { mine, others })
}

fn step_of(wish: &Wish) -> Result<Step, AllocError>
    ensures { IfOk result (λ step. step ≡ step_of wish.now) }
{
    Ok(Step {
        package: wish.package.copy()?,
        trigger: wish.trigger.copy()?,
    })
}

fn is_looped(wish: &Wish) -> Result<bool, AllocError>
    ensures { IfOk result (λ looped. looped ≡ is_looped wish.now) }
{
    let step = step_of(wish)?;
    Ok(has_step(wish.chain.as_slice(), &step))
}

/// The trigger of the first of these that stands in its own chain.
pub fn first_looped(wishes: &[Wish]) -> Result<Option<Text>, AllocError>
    ensures { IfOk result (λ found. found ≡ first_looped wishes.now) }
{
    for wish in wishes {
        if is_looped(wish)? {
            return Ok(Some(wish.trigger.copy()?));
        }
    }
    Ok(None)
}

fn push_steps(steps: &mut Vec<Step>, more: &[Step]) -> Result<(), AllocError>
    ensures { OnOk result (steps.new.items ≡ steps.old.items ++ more.now) }
{
    for one in more {
        steps.push(one.copy()?)?;
    }
    Ok(())
}

fn push_chains(steps: &mut Vec<Step>, wishes: &[Wish]) -> Result<(), AllocError>
    ensures { OnOk result (steps.new.items ≡ steps.old.items ++ flat_map (λ wish. wish.chain)
        wishes.now) }
{
    for wish in wishes {
        push_steps(steps, wish.chain.as_slice())?;
    }
    Ok(())
}

fn push_themselves(steps: &mut Vec<Step>, wishes: &[Wish]) -> Result<(), AllocError>
    ensures { OnOk result (steps.new.items ≡ steps.old.items ++ map step_of wishes.now) }
{
    for wish in wishes {
        steps.push(step_of(wish)?)?;
    }
    Ok(())
}

/// The chain of what is wished behind a turn of these: their chains and they themselves, each step once.
pub fn chain_behind(alloc: Global, wishes: &[Wish]) -> Result<Chain, AllocError>
    ensures { IfOk result (λ chain. chain ≡ chain_behind wishes.now) }
{
    let mut steps = Vec::new(alloc);
    push_chains(&mut steps, wishes)?;
    push_themselves(&mut steps, wishes)?;
    Chain::of(alloc, steps)
}

fn is_wished(wishes: &[Wish], one: &Step) -> bool
    ensures { result ≡ is_wished wishes.now one.now }
{
    wishes.iter().any(|wish| {
        one.package.as_str() == wish.package.as_str()
            && one.trigger.as_str() == wish.trigger.as_str()
    })
}

fn add_wish(chain: &Chain, wishes: &mut Vec<Wish>, one: Step) -> Result<(), AllocError>
    ensures { OnOk result (wishes.new.items ≡ with_wish chain.now wishes.old.items one) }
{
    if is_wished(wishes.as_slice(), &one) {
        return Ok(());
    }
    wishes.push(Wish {
        package: one.package,
        trigger: one.trigger,
        chain: chain.copy()?,
    })?;
    Ok(())
}

/// Puts a wish with this chain behind the others for each of these steps that isn't wished for yet.
pub fn add_wishes(chain: &Chain, wishes: &mut Vec<Wish>, steps: Vec<Step>) -> Result<(), AllocError>
    ensures { OnOk result (wishes.new.items ≡ with_wishes chain.now wishes.old.items
        steps.items) }
{
    for one in steps {
        add_wish(chain, wishes, one)?;
    }
    Ok(())
}
