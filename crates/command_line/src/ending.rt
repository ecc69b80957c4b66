// The end of a command, behind its units.
ghost use Rattle.std.specs.Prelude.{◌≡◌, false, IsNone};
ghost use Rattle.command_line.specs.Endings.{HasEnded};

use crate::triggering::Triggered;
use dpkg_session::{Session, Unit};
use host_core::{Host, HostFault};

/// What came of the units of a command, and of triggers around them, and why notes are left behind all, if any are told.
#[derive(Drop)]
pub(crate) struct Ended<T: Drop> {
    pub(crate) done: T,
    pub(crate) triggered: Triggered,
    pub(crate) left: Option<HostFault>,
}

/// Merges the notes where no unit was broken off, and answers why any are left.
pub(crate) fn end<H: Host>(session: &mut Session<H>, last: &Option<Unit>) -> Option<HostFault>
    requires { IsNone last.now → session.old.closed ≡ false }
    ensures { HasEnded last.now session.old.administration.database result
        (H.state session.old.host) (H.state session.new.host) }
{
    if last.is_some() {
        return None;
    }
    match session.checkpoint() {
        Ok(()) => None,
        Err(fault) => Some(fault),
    }
}
