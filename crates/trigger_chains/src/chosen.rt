// Which steps are taken, and in which order.
ghost use Rattle.std.specs.Prelude.{◌≡◌, ◌++◌, IfOk, OnOk};
ghost use Rattle.trigger_chains.specs.Steps.{new_steps, of_package, steps_by};

use crate::steps::{Step, has_step};
use std::alloc::{AllocError, Global};
use texts::Text;

/// Those that weren't there before.
pub fn new_steps(alloc: Global, before: &[Step], now: &[Step]) -> Result<Vec<Step>, AllocError>
    ensures { IfOk result (λ found. found.items ≡ new_steps before.now now.now) }
{
    let mut found = Vec::new(alloc);
    for one in now {
        if !has_step(before, one) {
            found.push(one.copy()?)?;
        }
    }
    Ok(found)
}

// Adds those of a package.
fn push_of(name: &Text, steps: &[Step], found: &mut Vec<Step>) -> Result<(), AllocError>
    ensures { OnOk result (found.new.items ≡ found.old.items ++ of_package steps.now name.now) }
{
    for one in steps {
        if one.package.as_str() == name.as_str() {
            found.push(one.copy()?)?;
        }
    }
    Ok(())
}

/// Those of each of these packages, package after package.
pub fn steps_by(alloc: Global, names: &[Text], steps: &[Step]) -> Result<Vec<Step>, AllocError>
    ensures { IfOk result (λ found. found.items ≡ steps_by names.now steps.now) }
{
    let mut found = Vec::new(alloc);
    for name in names {
        push_of(name, steps, &mut found)?;
    }
    Ok(found)
}
