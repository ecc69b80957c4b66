// Why a tree can't be read.
ghost use Rattle.std.specs.Prelude.{◌≡◌};
ghost use Rattle.package_tree.specs.declared.fault.TreeFault.TheVariants.{NoMemory};
ghost use Rattle.package_tree.specs.Fault.{fault_of};

use crate::line_text::LineText;
use control_fields::ControlFault;
use host_core::{HostFault, RootPath};
use relation_fields::RelationField;
use std::alloc::{AllocError, AllocFailed};
use thiserror::Error;

/// The fields of a control file that a tree's reading looks at.
#[derive(Clone, Copy, Debug)]
pub enum FieldName {
    Package,
    Version,
    Essential,
    Relation(RelationField),
}

/// What a line of `DEBIAN/conffiles` names, as its fault gives it: a line that isn't text is told by
/// its number, counted from 1.
#[derive(Debug, Drop)]
pub enum LineName {
    Text(LineText),
    Number(u64),
}

impl LineName {
    ghost use Rattle.std.specs.Prelude.{IfOk};

    fn copy(&self) -> Result<LineName, AllocError>
        ensures { IfOk result (λ copy. copy ≡ self.now) }
    {
        match self {
            LineName::Text(text) => Ok(LineName::Text(text.copy()?)),
            LineName::Number(number) => Ok(LineName::Number(*number)),
        }
    }
}

/// The faults of a tree, in the order in which they are looked for; Device and NoMemory stand where
/// they happen.
#[derive(Debug, Drop, Error)]
pub enum TreeFault {
    /// The same tree was named before in the command. Who reads the trees of a command tells it; the
    /// reading of a tree never does.
    #[error("Twice")]
    Twice,
    /// An archive can't be unpacked at this path for want of room. Who opens the trees of a command
    /// tells it; the reading of a tree never does.
    #[error("Declined {0}")]
    NoRoom(RootPath),
    /// No file stands at `DEBIAN/control`.
    #[error("NoControl")]
    NoControl,
    /// The control file isn't one paragraph of control text.
    #[error("Control {0}")]
    Control(ControlFault),
    #[error("FieldMissing {0:?}")]
    FieldMissing(FieldName),
    #[error("FieldBad {0:?}")]
    FieldBad(FieldName),
    /// A script or `DEBIAN/conffiles` isn't a file; a path has no room for our endings; a name in a
    /// directory isn't text or makes no path.
    #[error("PathBad {0}")]
    PathBad(RootPath),
    /// A shipped path has a reserved suffix, or lies below the administration's directory.
    #[error("Reserved {0}")]
    Reserved(RootPath),
    /// A line of `DEBIAN/conffiles` isn't the path of a shipped file, or its flagged path isn't one
    /// that a package may ship.
    #[error("ConffileNotShipped {0:?}")]
    ConffileNotShipped(LineName),
    /// A path flagged `remove-on-upgrade` is shipped.
    #[error("ConffileShipped {0}")]
    ConffileShipped(RootPath),
    /// A line of `DEBIAN/conffiles` is neither a path nor a flagged one.
    #[error("ConffileFlag {0}")]
    ConffileFlag(u64),
    /// A shipped file has more than 16 GiB, or one of `DEBIAN` that is read more than 16 MiB. The
    /// latter is told where its length is looked at first: of the control file before its text, of
    /// `conffiles` and the scripts before the paths, and of another kept file behind all.
    #[error("TooLarge {0}")]
    TooLarge(RootPath),
    /// More than 65,536 paths are shipped.
    #[error("TooMany 65536")]
    TooMany,
    #[error("Device")]
    Device,
    #[error("NoMemory")]
    NoMemory,
    #[error("Declined")]
    Declined,
}

impl TreeFault {
    ghost use Rattle.std.specs.Prelude.{IfOk};

    /// An equal fault, or want of memory.
    pub fn copy(&self) -> Result<TreeFault, AllocError>
        ensures { IfOk result (λ copy. copy ≡ self.now) }
    {
        match self {
            TreeFault::Twice => Ok(TreeFault::Twice),
            TreeFault::NoRoom(path) => Ok(TreeFault::NoRoom(path.copy()?)),
            TreeFault::NoControl => Ok(TreeFault::NoControl),
            TreeFault::Control(fault) => Ok(TreeFault::Control(*fault)),
            TreeFault::FieldMissing(name) => Ok(TreeFault::FieldMissing(*name)),
            TreeFault::FieldBad(name) => Ok(TreeFault::FieldBad(*name)),
            TreeFault::PathBad(path) => Ok(TreeFault::PathBad(path.copy()?)),
            TreeFault::Reserved(path) => Ok(TreeFault::Reserved(path.copy()?)),
            TreeFault::ConffileNotShipped(name) => Ok(TreeFault::ConffileNotShipped(name.copy()?)),
            TreeFault::ConffileShipped(path) => Ok(TreeFault::ConffileShipped(path.copy()?)),
            TreeFault::ConffileFlag(line) => Ok(TreeFault::ConffileFlag(*line)),
            TreeFault::TooLarge(path) => Ok(TreeFault::TooLarge(path.copy()?)),
            TreeFault::TooMany => Ok(TreeFault::TooMany),
            TreeFault::Device => Ok(TreeFault::Device),
            TreeFault::NoMemory => Ok(TreeFault::NoMemory),
            TreeFault::Declined => Ok(TreeFault::Declined),
        }
    }
}

impl From<HostFault> for TreeFault {
    ghost from_gives = { λ h e. e ≡ fault_of h };

    fn from(fault: HostFault) -> Self {
        match fault {
            HostFault::Device => TreeFault::Device,
            HostFault::NoMemory => TreeFault::NoMemory,
            HostFault::Declined => TreeFault::Declined,
        }
    }
}

impl From<AllocError> for TreeFault {
    ghost from_gives = { λ _ e. e ≡ NoMemory };

    fn from(_: AllocError) -> Self {
        TreeFault::NoMemory
    }
}

impl<T: Drop> From<AllocFailed<T>> for TreeFault {
    ghost from_gives = { λ _ e. e ≡ NoMemory };

    fn from(_: AllocFailed<T>) -> Self {
        TreeFault::NoMemory
    }
}
