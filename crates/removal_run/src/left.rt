// Those that are left over, since other packages depend on them.
ghost use Rattle.std.specs.Prelude.{◌≡◌, ◌<◌, ℕ, IfOk, IsTrue, length, map};
ghost use Rattle.dependency_check.specs.Waiting.{IsRemovableNow};
ghost use Rattle.dependency_sets.specs.Sets.{has};
ghost use Rattle.removal_run.specs.LeftOver.{AreAllTold, IsDependedOn};
ghost use Rattle.removal_run.specs.Waiting.{is_named};

use crate::waiting::{marks_of, name_of};
use dependency_check::{RemoveQueue, depended_on_by};
use dependency_sets::listed;
use std::alloc::{AllocError, Global};
use texts::Text;
use unit_reports::{Rule, Unit, refused};

// The unit of one that is left over.
fn left_unit(
    alloc: Global,
    queue: &RemoveQueue,
    left: &[bool],
    number: usize,
) -> Result<Unit, AllocError>
    requires left { left.now ≡ queue.now.waiting }
    requires waits { IsTrue (has left.now number) }
    requires within { number < length queue.now.packages }
    requires none { IsRemovableNow queue.now number → ⊥ }
    ensures { IfOk result (IsDependedOn queue.now.packages (has queue.now.installed) (has left.now)
        number) }
{
    let packages = queue.packages();
    match depended_on_by(alloc, packages, queue.supply(), left, number)? {
        Some(other) => Ok(refused(
            alloc,
            Rule::DependedOn(name_of(packages, other)?),
            name_of(packages, number)?,
        )),
        None => unreachable!(),
    }
}

/// A refused unit for each that is left over, in the order of names.
pub(crate) fn left_over(
    alloc: Global,
    queue: &RemoveQueue,
    waiting: &[Text],
) -> Result<Vec<Unit>, AllocError>
    requires queue { queue.now.waiting ≡ map (is_named waiting.now) queue.now.packages }
    requires none { (x : ℕ) → IsRemovableNow queue.now x → ⊥ }
    ensures { IfOk result (λ units. AreAllTold queue.now units.items) }
{
    let left = marks_of(alloc, waiting, queue.packages().as_slice())?;
    let numbers = listed(alloc, left.as_slice())?;
    let mut units = Vec::new(alloc);
    for number in numbers.as_slice() {
        units.push(left_unit(alloc, queue, left.as_slice(), *number)?)?;
    }
    Ok(units)
}
