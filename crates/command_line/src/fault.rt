// Why a root or a tree isn't opened.
ghost use Rattle.std.specs.Prelude.{◌≡◌};
ghost use Rattle.host_core.specs.declared.fault.HostFault.TheVariants.{NoMemory};
ghost use Rattle.command_line.specs.Roots.{lock_path};
ghost use Rattle.command_line.specs.declared.fault.RootFault.TheVariants.{Host as OfHost};
ghost use Rattle.command_line.specs.declared.fault.TreeOpening.TheVariants.{Host as OfTreeHost};

use administration::AdministrationFault;
use host_core::{HostFault, RootPath};
use std::alloc::AllocError;

/// A lock that a program holds while it changes packages. The first two are dpkg's.
#[derive(Clone, Copy)]
pub enum Lock {
    /// That of the program that a person gave the command to, as apt, which may start others.
    Frontend,
    /// That of the program that changes the administration.
    Administration,
    /// That of a script that changes the diversions beside this one.
    Table,
}

impl Lock {
    /// The path of its file under the root.
    pub fn path(self) -> &'static str
        ensures { result.now ≡ lock_path self }
    {
        match self {
            Lock::Frontend => "/var/lib/dpkg/lock-frontend",
            Lock::Administration => "/var/lib/dpkg/lock",
            Lock::Table => "/var/lib/dpkg/diversions.lock",
        }
    }
}

/// Why there is no host for a root: another program holds a lock of it, or the host's fault.
#[derive(Clone, Copy)]
pub enum RootFault {
    Locked(Lock),
    Host(HostFault),
}

impl From<HostFault> for RootFault {
    ghost from_gives = { λ fault e. e ≡ OfHost fault };

    fn from(fault: HostFault) -> Self {
        RootFault::Host(fault)
    }
}

/// Why there is no host for a tree.
#[derive(Drop)]
pub enum TreeOpening {
    /// An archive can't be unpacked at this path for want of room. It lies under the root, or is one of the machine.
    NoRoom(RootPath),
    Host(HostFault),
}

impl From<HostFault> for TreeOpening {
    ghost from_gives = { λ fault e. e ≡ OfTreeHost fault };

    fn from(fault: HostFault) -> Self {
        TreeOpening::Host(fault)
    }
}

impl From<AllocError> for TreeOpening {
    ghost from_gives = { λ _ e. e ≡ OfTreeHost NoMemory };

    fn from(_: AllocError) -> Self {
        TreeOpening::Host(HostFault::NoMemory)
    }
}

/// Why nothing was asked of the administration under a root: another program holds a lock of it, or the administration can't be
/// opened.
#[derive(Drop)]
pub(crate) enum NotOpened {
    Locked(Lock),
    Opening(AdministrationFault),
}
