// Why a diversion has no answer.
ghost use Rattle.std.specs.Prelude.{◌≡◌};
ghost use Rattle.host_core.specs.declared.fault.HostFault.{HostFault};
ghost use Rattle.diversions.specs.Fault.{fault_of};

use host_core::HostFault;
use thiserror::Error;

/// After `Device` or `NoMemory` each further change is answered `Closed`.
#[derive(Clone, Copy, Debug, Error)]
pub enum DiversionFault {
    #[error("Device")]
    Device,
    #[error("NoMemory")]
    NoMemory,
    #[error("Declined")]
    Declined,
    #[error("Closed")]
    Closed,
}

impl From<HostFault> for DiversionFault {
    ghost from_gives = { λ h e. e ≡ fault_of h };

    fn from(fault: HostFault) -> Self {
        match fault {
            HostFault::Device => DiversionFault::Device,
            HostFault::NoMemory => DiversionFault::NoMemory,
            HostFault::Declined => DiversionFault::Declined,
        }
    }
}
