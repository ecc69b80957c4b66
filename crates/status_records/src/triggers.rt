// Triggers that a package is to process, or that others are to process for it.
ghost use Rattle.std.specs.Prelude.{◌≡◌, IfOk};
ghost use Rattle.status_records.specs.Triggers.{no_triggers, has_triggers, triggers_beside};

use crate::trigger_names::TriggerNames;
use crate::words::State;
use std::alloc::AllocError;

fn copied_names(names: &Option<TriggerNames>) -> Result<Option<TriggerNames>, AllocError>
    ensures { IfOk result (λ copy. copy ≡ names.now) }
{
    match names {
        Some(names) => Ok(Some(names.copy()?)),
        None => Ok(None),
    }
}

/// The triggers that a package is to process, and the packages that are to process some for it.
#[derive(Drop)]
pub struct Triggers {
    pub pending: Option<TriggerNames>,
    pub awaited: Option<TriggerNames>,
}

impl Triggers {
    pub fn none() -> Triggers
        ensures { result ≡ no_triggers }
    {
        Triggers {
            pending: None,
            awaited: None,
        }
    }

    /// Whether some are pending or awaited.
    pub fn are_some(&self) -> bool
        ensures { result ≡ has_triggers self.now }
    {
        self.pending.is_some() || self.awaited.is_some()
    }

    /// The same, or want of memory.
    pub fn copy(&self) -> Result<Triggers, AllocError>
        ensures { IfOk result (λ copy. copy ≡ self.now) }
    {
        Ok(Triggers {
            pending: copied_names(&self.pending)?,
            awaited: copied_names(&self.awaited)?,
        })
    }

    /// What is left of them in another state.
    pub(crate) fn beside(&self, state: State) -> Result<Triggers, AllocError>
        ensures { IfOk result (λ left. left ≡ triggers_beside state self.now) }
    {
        match state {
            State::NotInstalled | State::ConfigFiles => Ok(Triggers::none()),
            State::HalfInstalled | State::Unpacked | State::HalfConfigured => Ok(Triggers {
                pending: None,
                awaited: copied_names(&self.awaited)?,
            }),
            State::Installed => self.copy(),
        }
    }
}
