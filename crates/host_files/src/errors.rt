// The system's numbers for errors, and what they say of a step and of a start.
ghost use Rattle.std.specs.Prelude.{◌≡◌};
ghost use Rattle.std.specs.IoError.{raw_os_error};
ghost use Rattle.host_files.specs.Commands.{is_start_error};
ghost use Rattle.host_files.specs.Faults.{is_declined};

use std::io::Error;

const EPERM: i32 = 1;

const ENOENT: i32 = 2;

const ENOEXEC: i32 = 8;

const EACCES: i32 = 13;

const EBUSY: i32 = 16;

const EXDEV: i32 = 18;

const ENOTDIR: i32 = 20;

const ETXTBSY: i32 = 26;

const EFBIG: i32 = 27;

const ENOSPC: i32 = 28;

const EROFS: i32 = 30;

const EMLINK: i32 = 31;

pub(crate) const ENAMETOOLONG: i32 = 36;

const ENOTEMPTY: i32 = 39;

const ELOOP: i32 = 40;

const EOPNOTSUPP: i32 = 95;

const EDQUOT: i32 = 122;

/// Whether the system answered that a step can't be done there.
pub(crate) fn is_declined(error: &Error) -> bool
    ensures { result ≡ is_declined (raw_os_error error.now) }
{
    matches!(
        error.raw_os_error(),
        Some(
            EPERM
                | EACCES
                | EBUSY
                | EXDEV
                | ETXTBSY
                | EFBIG
                | ENOSPC
                | EROFS
                | EMLINK
                | ENAMETOOLONG
                | ENOTEMPTY
                | EOPNOTSUPP
                | EDQUOT
        )
    )
}

/// Whether the script is one that can't be started, or is missing.
pub(crate) fn is_start_error(error: &Error) -> bool
    ensures { result ≡ is_start_error (raw_os_error error.now) }
{
    matches!(
        error.raw_os_error(),
        Some(ENOENT | ENOEXEC | EACCES | ENOTDIR | ETXTBSY | ELOOP)
    )
}
