// Why a list can't be written.
ghost use Rattle.std.specs.Prelude.{◌≡◌};
ghost use Rattle.host_core.specs.declared.fault.HostFault.{HostFault};
ghost use Rattle.file_lists.specs.Fault.{fault_of};

use host_core::HostFault;
use thiserror::Error;

/// After `Device` or `NoMemory` each further change is answered `Closed`.
#[derive(Clone, Copy, Debug, Error)]
pub enum ListFault {
    #[error("Device")]
    Device,
    #[error("NoMemory")]
    NoMemory,
    #[error("Declined")]
    Declined,
    #[error("Closed")]
    Closed,
}

impl From<HostFault> for ListFault {
    ghost from_gives = { λ h e. e ≡ fault_of h };

    fn from(fault: HostFault) -> Self {
        match fault {
            HostFault::Device => ListFault::Device,
            HostFault::NoMemory => ListFault::NoMemory,
            HostFault::Declined => ListFault::Declined,
        }
    }
}
