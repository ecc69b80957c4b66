// Why a record can't be noted.
ghost use Rattle.std.specs.Prelude.{◌≡◌};
ghost use Rattle.host_core.specs.declared.fault.HostFault.{HostFault};
ghost use Rattle.status_db.specs.Fault.{fault_of};

use host_core::HostFault;
use thiserror::Error;

/// After `Device` or `NoMemory` each further change is answered `Closed`.
#[derive(Clone, Copy, Debug, Error)]
pub enum RecordFault {
    #[error("Device")]
    Device,
    #[error("NoMemory")]
    NoMemory,
    #[error("Declined")]
    Declined,
    #[error("Closed")]
    Closed,
}

impl From<HostFault> for RecordFault {
    ghost from_gives = { λ h e. e ≡ fault_of h };

    fn from(fault: HostFault) -> Self {
        match fault {
            HostFault::Device => RecordFault::Device,
            HostFault::NoMemory => RecordFault::NoMemory,
            HostFault::Declined => RecordFault::Declined,
        }
    }
}
