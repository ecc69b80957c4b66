// What is planned of faults of the device.
ghost use Rattle.std.specs.Prelude.{◌≡◌};
ghost use Rattle.host_memory.specs.FaultPlans.{fate_of, behind_step, read_fails, behind_read, behind_fault, due, no_faults};

/// What is done of a step at which the device fails: nothing, all of it, or of a file that is written its first bytes and
/// of another step nothing.
#[derive(Clone, Copy, Debug)]
pub enum Effect {
    None,
    Whole,
    Prefix(usize),
}

// A step at which the device fails, and perhaps stops: so many are made before it.
#[derive(Clone, Copy)]
pub(crate) struct StepFault {
    pub before: usize,
    pub effect: Effect,
    pub stops: bool,
}

// What comes of a step.
#[derive(Clone, Copy)]
pub(crate) enum Fate {
    Made,
    Failed(Effect),
    Declined,
}

#[derive(Clone, Copy)]
pub(crate) struct FaultPlan {
    pub step: Option<StepFault>,
    // so many reads are answered before one fails
    pub read: Option<usize>,
    pub is_stopped: bool,
}

fn due(fault: StepFault) -> Fate
    ensures { result ≡ due fault }
{
    if fault.before == 0 {
        return Fate::Failed(fault.effect);
    }
    Fate::Made
}

impl FaultPlan {
    pub(crate) fn none() -> FaultPlan
        ensures { result ≡ no_faults }
    {
        FaultPlan {
            step: None,
            read: None,
            is_stopped: false,
        }
    }

    // What comes of the next step.
    pub(crate) fn fate(&self) -> Fate
        ensures { result ≡ fate_of self.now }
    {
        if self.is_stopped {
            return Fate::Failed(Effect::None);
        }
        match self.step {
            Some(fault) => due(fault),
            None => Fate::Made,
        }
    }

    // What is planned behind the next step.
    pub(crate) fn behind_step(self) -> FaultPlan
        ensures { result ≡ behind_step self }
    {
        match self.step {
            Some(fault) if !self.is_stopped => self.behind_fault(fault),
            _ => self,
        }
    }

    fn behind_fault(self, fault: StepFault) -> FaultPlan
        ensures { result ≡ behind_fault self fault }
    {
        if fault.before == 0 {
            return FaultPlan {
                step: None,
                read: self.read,
                is_stopped: fault.stops,
            };
        }
        FaultPlan {
            step: Some(StepFault {
                before: fault.before - 1,
                effect: fault.effect,
                stops: fault.stops,
            }),
            read: self.read,
            is_stopped: self.is_stopped,
        }
    }

    // Whether the next read fails.
    pub(crate) fn read_fails(&self) -> bool
        ensures { result ≡ read_fails self.now }
    {
        self.is_stopped || self.read == Some(0)
    }

    // What is planned behind the next read.
    pub(crate) fn behind_read(self) -> FaultPlan
        ensures { result ≡ behind_read self }
    {
        match self.read {
            Some(before) if !self.is_stopped => FaultPlan {
                step: self.step,
                read: before.checked_sub(1),
                is_stopped: self.is_stopped,
            },
            _ => self,
        }
    }
}
