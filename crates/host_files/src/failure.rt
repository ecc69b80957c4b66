// What a person is told of a fault of the device, or of a step that was declined: the path, and the system's words.
use crate::disk::stat;
use crate::root::Root;
use std::alloc::AllocError;
use std::fmt::{self, Display, Formatter, Write};
use std::io::{Error, ErrorKind};

/// The last step or call that failed or was declined. It is told as `PATH: ERROR`, the path as the system was told it.
#[derive(Drop)]
pub struct Failure {
    // none where memory was wanting for it
    place: Option<String>,
    error: Error,
}

// Why nothing can be done at a path where no call of the system has failed.
fn reason_at(rt: &HostRuntime, root: &Root, path: &str) -> Error {
    match root.reaches(rt, path) {
        Ok(true) => reason_of(rt, root.place(path)),
        Ok(false) => Error::new(
            ErrorKind::NotADirectory,
            "what stands above it is no directory, or a link",
        ),
        Err(error) => error,
    }
}

fn reason_of(rt: &HostRuntime, place: Result<String, AllocError>) -> Error {
    let Ok(place) = place else {
        return Error::from(ErrorKind::OutOfMemory);
    };
    match stat(rt, place.as_str()) {
        Ok(Some(_)) => Error::other("its owner or mode can't be set"),
        Ok(None) => Error::from(ErrorKind::NotFound),
        Err(error) => error,
    }
}

impl Failure {
    /// Of a call at a path under the root, with the error and the place that it left, if it left them.
    pub(crate) fn new(
        rt: &HostRuntime,
        root: &Root,
        path: &str,
        place: Option<String>,
        error: Option<Error>,
    ) -> Failure {
        let error = match error {
            Some(error) => error,
            None => reason_at(rt, root, path),
        };
        let place = match place {
            Some(place) => Some(place),
            None => root.place(path).ok(),
        };
        Failure { place, error }
    }
}

impl Display for Failure {
    fn fmt<W: Write>(&self, f: &mut Formatter<W>) -> fmt::Result {
        if let Some(place) = &self.place {
            write!(f, "{place}: ")?;
        }
        write!(f, "{}", self.error)
    }
}
