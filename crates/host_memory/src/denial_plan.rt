// Which steps to come are declined. Of each it is planned how many are made before it, counted from the one before.
ghost use Rattle.std.specs.Prelude.{◌≡◌};
ghost use Rattle.host_memory.specs.DenialPlans.{is_denied, behind_step};

use std::collections::VecDeque;

// Whether the next step is declined.
pub(crate) fn is_denied(planned: &VecDeque<usize>) -> bool
    ensures { result ≡ is_denied planned.now.items }
{
    match planned.front() {
        Some(before) => *before == 0,
        None => false,
    }
}

// One step fewer is made before the next that is declined; where that is the one, the next is as planned behind it.
pub(crate) fn pass_step(planned: &mut VecDeque<usize>)
    ensures { planned.new.items ≡ behind_step planned.old.items }
{
    match planned.pop_front() {
        Some(0) | None => {}
        Some(before) => planned.push_front_reserved(before - 1),
    }
}
