// The directory that is open, out of which entries are taken. The root's is opened by its place, to which links may lead, and
// each other from the one above it, where the system follows no link.
ghost use Rattle.std.specs.Prelude.{◌≡◌, ◌∷◌, ◌++◌, IfOk, string_bytes, Contains};

use crate::root::Root;
use std::io::{self, Error};

/// It is made by `root` and `enter` alone.
pub(crate) struct Opened {
    descriptor: i32,
    /// of the system; of the root without a slash at its end
    pub(crate) place: String,
}

impl Drop for Opened {
    fn drop(self) {
        let Opened { descriptor, place } = self;
        libc::close(descriptor);
    }
}

// How a call of the system ended.
fn answer_of(status: i32) -> io::Result<()> {
    if status < 0 {
        return Err(Error::from_raw_os_error(os::errno()));
    }
    Ok(())
}

fn open_at(directory: i32, name: &str) -> io::Result<i32> {
    let descriptor = os::open_dir_at(directory, name.as_bytes());
    answer_of(descriptor)?;
    Ok(descriptor)
}

impl Opened {
    /// To the root's directory links may lead.
    pub(crate) fn root(root: &Root) -> io::Result<Opened>
        ensures { IfOk result (λ o. string_bytes o.place ≡ string_bytes root.now.front) }
    {
        let place = root.front.clone()?;
        let descriptor = open_at(libc::AT_FDCWD, root.place("")?.as_str())?;
        Ok(Opened { descriptor, place })
    }

    /// Goes on to the directory of this name in it, which is no link.
    pub(crate) fn enter(mut self, name: &str) -> io::Result<Opened>
        requires plain { Contains name.now 47 → ⊥ }
        ensures { IfOk result (λ o. string_bytes o.place ≡ string_bytes self.place ++ 47 ∷ name.now) }
    {
        self.place.push('/')?;
        self.place.push_str(name)?;
        let below = open_at(self.descriptor, name)?;
        libc::close(self.descriptor);
        self.descriptor = below;
        Ok(self)
    }

    /// Takes the file or link of this name away from it.
    pub(crate) fn unlink(&self, name: &str) -> io::Result<()> {
        answer_of(os::unlink_at(self.descriptor, name.as_bytes()))
    }

    /// Takes the directory of this name away from it, which has no entries.
    pub(crate) fn remove_directory(&self, name: &str) -> io::Result<()> {
        answer_of(os::rmdir_at(self.descriptor, name.as_bytes()))
    }
}
