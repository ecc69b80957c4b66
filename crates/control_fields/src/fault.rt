// Why control text can't be read.
ghost use Rattle.std.specs.Prelude.{◌≡◌};
ghost use Rattle.control_fields.specs.declared.fault.ControlFault.TheVariants.{NoMemory};

use std::alloc::{AllocError, AllocFailed};
use thiserror::Error;

/// What is wrong with control text. Lines are counted from 1.
#[derive(Clone, Copy, Debug, Error)]
pub enum ControlFault {
    /// A line that is neither blank nor a continuation has no colon.
    #[error("NoColon {0}")]
    NoColon(u64),
    /// The text before the colon isn't the name of a field.
    #[error("BadName {0}")]
    BadName(u64),
    /// A field of this name, in any case, already stands in the paragraph.
    #[error("Twice {0}")]
    Twice(u64),
    /// A line that begins with a space or tab stands before any field of its paragraph.
    #[error("OrphanContinuation {0}")]
    OrphanContinuation(u64),
    #[error("NotUtf8 {0}")]
    NotUtf8(u64),
    #[error("NoMemory")]
    NoMemory,
    /// A second paragraph begins where one alone is wanted.
    #[error("Second {0}")]
    Second(u64),
}

impl From<AllocError> for ControlFault {
    ghost from_gives = { λ _ e. e ≡ NoMemory };

    fn from(_: AllocError) -> Self {
        ControlFault::NoMemory
    }
}

impl<T: Drop> From<AllocFailed<T>> for ControlFault {
    ghost from_gives = { λ _ e. e ≡ NoMemory };

    fn from(_: AllocFailed<T>) -> Self {
        ControlFault::NoMemory
    }
}
