// Processings of triggers, and chains of them.
ghost use Rattle.std.specs.Prelude.{◌≡◌, [], List, IfOk, OnOk};
ghost use Rattle.trigger_chains.specs.Steps.{has_step, is_step, with_step, with_steps};
ghost use Rattle.trigger_chains.specs.declared.steps.Step.{Step as AStep};

use std::alloc::{AllocError, Global};
use std::marker::Model;
use texts::Text;

/// A trigger that a package processes.
#[derive(Drop)]
pub struct Step {
    pub package: Text,
    pub trigger: Text,
}

impl Step {
    /// The same, or want of memory.
    pub fn copy(&self) -> Result<Step, AllocError>
        ensures { IfOk result (λ copy. copy ≡ self.now) }
    {
        Ok(Step {
            package: self.package.copy()?,
            trigger: self.trigger.copy()?,
        })
    }
}

fn is_step(one: &Step, other: &Step) -> bool
    ensures { result ≡ is_step one.now other.now }
{
    one.package.as_str() == other.package.as_str() && one.trigger.as_str() == other.trigger.as_str()
}

/// Whether it stands among these.
pub(crate) fn has_step(steps: &[Step], one: &Step) -> bool
    ensures { result ≡ has_step steps.now one.now }
{
    steps.iter().any(|other| is_step(one, other))
}

// Puts it behind the others, where it isn't there.
fn add_step(steps: &mut Vec<Step>, one: Step) -> Result<(), AllocError>
    ensures { OnOk result (steps.new.items ≡ with_step steps.old.items one) }
{
    if !has_step(steps.as_slice(), &one) {
        steps.push(one)?;
    }
    Ok(())
}

fn add_steps(steps: &mut Vec<Step>, more: Vec<Step>) -> Result<(), AllocError>
    ensures { OnOk result (steps.new.items ≡ with_steps steps.old.items more.items) }
{
    for one in more {
        add_step(steps, one)?;
    }
    Ok(())
}

/// The processings that led to a wish, each begun by what one before it asked for.
#[derive(Drop)]
pub struct Chain {
    alloc: Global,
    steps: Vec<Step>,
}

impl Model for Chain {
    ghost Value = { List AStep };

    ghost view = { λ c. c.steps.items };
}

impl Chain {
    /// Nothing led to it but what a command found, or activated by its units.
    pub fn new(alloc: Global) -> Chain
        ensures { result ≡ [] }
    {
        Chain {
            alloc,
            steps: Vec::new(alloc),
        }
    }

    /// The steps, in their order.
    pub fn as_slice(&self) -> &[Step]
        ensures { result.now ≡ self.now }
    {
        self.steps.as_slice()
    }

    /// These steps, each once.
    pub(crate) fn of(alloc: Global, all: Vec<Step>) -> Result<Chain, AllocError>
        ensures { IfOk result (λ chain. chain ≡ with_steps [] all.items) }
    {
        let mut steps = Vec::new(alloc);
        add_steps(&mut steps, all)?;
        Ok(Chain { alloc, steps })
    }

    /// The same, or want of memory.
    pub fn copy(&self) -> Result<Chain, AllocError>
        ensures { IfOk result (λ copy. copy ≡ self.now) }
    {
        let mut steps = Vec::new(self.alloc);
        for one in &self.steps {
            steps.push(one.copy()?)?;
        }
        Ok(Chain {
            alloc: self.alloc,
            steps,
        })
    }
}
