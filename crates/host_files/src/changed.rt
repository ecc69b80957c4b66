// The directories in which a name changed since all was on the disk.
ghost use Rattle.std.specs.Prelude.{◌≡◌, ℕ, List, true, false, OnErr, OnOk};
ghost use Rattle.std.specs.BTreeSet.{contains_text};
ghost use Rattle.host_files.specs.Directories.{IsDirectoryOf, HasDirectoryOf};

use host_core::{HostFault, RootPath};
use std::alloc::{AllocError, Global};
use std::collections::BTreeSet;

/// Each is kept by its path under the root.
#[derive(Drop)]
pub(crate) struct Changed {
    alloc: Global,
    pub(crate) directories: BTreeSet<String>,
}

// The directory that a path stands in; of the root itself that.
pub(crate) fn directory_of(path: &RootPath) -> &str
    ensures { IsDirectoryOf path.now result.now }
{
    match path.as_str().rsplit_once('/') {
        Some((above, _)) => above,
        None => "",
    }
}

impl Changed {
    pub(crate) fn new(alloc: Global) -> Changed
        ensures { (directory : List ℕ) → contains_text result.directories directory ≡ false }
    {
        Changed {
            alloc,
            directories: BTreeSet::new(alloc),
        }
    }

    // Adds a directory.
    fn insert(&mut self, directory: &str) -> Result<(), AllocError>
        ensures added { OnOk result (contains_text self.new.directories directory.now ≡ true) }
        ensures kept { OnOk result ((other : List ℕ) → contains_text self.old.directories other
            ≡ true → contains_text self.new.directories other ≡ true) }
    {
        let directory = String::from_str(self.alloc, directory)?;
        self.directories.insert(directory)?;
        Ok(())
    }

    /// Adds the directory that the path stands in.
    pub(crate) fn add(&mut self, path: &RootPath) -> Result<(), AllocError>
        ensures added { OnOk result (HasDirectoryOf self.new.directories path.now) }
        ensures kept { OnOk result ((other : List ℕ) → contains_text self.old.directories other
            ≡ true → contains_text self.new.directories other ≡ true) }
    {
        let directory = directory_of(path);
        if self.directories.contains(directory) {
            return Ok(());
        }
        self.insert(directory)
    }

    /// After a barrier that was done all is on the disk.
    pub(crate) fn clear_after(&mut self, barrier: &Result<(), HostFault>)
        ensures done { OnOk barrier.now ((directory : List ℕ) → contains_text self.new.directories
            directory ≡ false) }
        ensures failed { OnErr barrier.now (self.new.directories ≡ self.old.directories) }
    {
        if barrier.is_ok() {
            self.directories.clear();
        }
    }
}
