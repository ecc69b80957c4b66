// The three standard streams. The system gives the next file that is opened the lowest free number: where one of these is
// missing, what is meant for it would be written into a file of the administration.
use std::fs::OpenOptions;
use std::os::fd::{AsFd, AsRawFd, IntoRawFd, RawFd};

// the system's number for a descriptor that isn't open
const EBADF: i32 = 9;

fn is_missing<S: AsFd>(stream: &S) -> bool {
    match stream.as_fd().try_clone_to_owned() {
        Ok(_) => false,
        Err(error) => error.raw_os_error() == Some(EBADF),
    }
}

// Opens `/dev/null`, which stays open, and tells whether it has the number.
fn fill(rt: &HostRuntime, number: RawFd) -> bool {
    match OpenOptions::new()
        .read(true)
        .write(true)
        .open(rt, "/dev/null")
    {
        Ok(null) => null.into_raw_fd() == number,
        Err(_) => false,
    }
}

fn fill_if_missing<S: AsFd + AsRawFd>(rt: &HostRuntime, stream: &S) -> bool {
    !is_missing(stream) || fill(rt, stream.as_raw_fd())
}

/// Gives each that is missing `/dev/null`, before any other file is opened, and tells whether all are open.
pub(crate) fn fill_missing(rt: &HostRuntime) -> bool {
    fill_if_missing(rt, &rt.stdin())
        && fill_if_missing(rt, &rt.stdout())
        && fill_if_missing(rt, &rt.stderr())
}
