// How a row is broken off, and what is left of the root when it is started again.
ghost use Rattle.std.specs.Prelude.{◌≡◌};
ghost use Rattle.host_memory.specs.Memory.{memory_state};

use host_core::RootPath;
use host_memory::{Done, Effect, MemoryHost};
use std::alloc::AllocError;

// How the device fails: behind so many steps, for good or once, or behind so many reads. Or what is declined: the step behind so
// many, or that and another, behind so many more.
#[derive(Clone, Copy, Debug)]
pub(crate) enum Break {
    Stop(usize, Effect),
    Fault(usize, Effect),
    Read(usize),
    Decline(usize),
    DeclineTwice(usize, usize),
}

// What a loss of power leaves: so many of the steps on names since the last barrier, and this byte in unsynced files.
#[derive(Clone, Copy, Debug)]
pub(crate) struct Loss {
    pub(crate) keep: usize,
    pub(crate) fill: u8,
}

// How a run went: whether the fault came, or all that was to be declined was, and how many steps on names a loss might undo.
#[derive(Clone, Copy)]
pub(crate) struct Ran {
    pub(crate) met: bool,
    pub(crate) names: usize,
}

pub(crate) const EFFECTS: &[Effect] = &[
    Effect::None,
    Effect::Whole,
    Effect::Prefix(1),
    Effect::Prefix(2),
];

pub(crate) const FILLS: &[u8] = &[0, 255];

// More steps than any row makes.
pub(crate) const LIMIT: usize = 1000;

pub(crate) fn plan(host: &mut MemoryHost, how: Break) -> Result<(), AllocError>
    ensures { memory_state host.new ≡ memory_state host.old }
{
    match how {
        Break::Stop(before, effect) => host.stop_step(before, effect),
        Break::Fault(before, effect) => host.fail_step(before, effect),
        Break::Read(before) => host.fail_read(before),
        Break::Decline(before) => host.decline_step(before)?,
        Break::DeclineTwice(before, between) => {
            host.decline_step(before)?;
            host.decline_step(between)?;
        }
    }
    Ok(())
}

pub(crate) fn how_it_ran(host: &MemoryHost) -> Ran {
    Ran {
        met: !host.awaits_fault() && !host.awaits_denial(),
        names: host.names_since_barrier(),
    }
}

pub(crate) fn recovered(host: MemoryHost, loss: Option<Loss>) -> Result<MemoryHost, AllocError> {
    let Some(loss) = loss else {
        return Ok(host.restart());
    };
    match host.lose(loss.keep, loss.fill) {
        Ok(host) => Ok(host),
        Err(_) => Err(AllocError),
    }
}

fn is_failed(done: &Done) -> bool {
    match done {
        Done::Failed => true,
        Done::Did(_) | Done::Finished(_) | Done::Cut(_, _) | Done::Denied(_) => false,
    }
}

// Where the last step was declined, if nothing was done after that.
pub(crate) fn denied_last(host: &MemoryHost) -> Option<&RootPath> {
    match host.events().last() {
        Some(Done::Denied(path)) => Some(path),
        _ => None,
    }
}

// Where the first step was declined, if one was.
pub(crate) fn denied_first(host: &MemoryHost) -> Result<Option<RootPath>, AllocError> {
    for done in host.events() {
        if let Done::Denied(path) = done {
            return Ok(Some(path.copy()?));
        }
    }
    Ok(None)
}

// Whether the device has failed once, and nothing was done after that.
pub(crate) fn ends_with_fault(host: &MemoryHost) -> bool {
    match host.events().split_last() {
        Some((last, before)) => is_failed(last) && !before.iter().any(is_failed),
        None => false,
    }
}

// Whether nothing but looking was done.
pub(crate) fn is_untouched(host: &MemoryHost) -> bool {
    host.events().is_empty()
}
