// The files of `DEBIAN` that are stored as they are.
ghost use Rattle.std.specs.Prelude.{◌≡◌, List, IfOk};
ghost use Rattle.package_tree.specs.Shipped.{AreInOrder};
ghost use Rattle.package_tree.specs.OtherFiles.{names_of};
ghost use Rattle.package_tree.specs.declared.other_file.OtherFile.{OtherFile as AnOtherFile};

use crate::other_file::OtherFile;
use std::alloc::{AllocError, Global};
use std::marker::Model;

/// Such files in the order of their names, each name once.
#[derive(Drop)]
pub struct OtherFiles {
    alloc: Global,
    items: Vec<OtherFile>,
}

impl Model for OtherFiles {
    ghost Value = { List AnOtherFile };

    ghost view = { λ o. o.items.items };

    ghost invariant = { λ o. AreInOrder (names_of o.items.items) };
}

impl OtherFiles {
    /// Of files in the order of their names.
    pub fn new(alloc: Global, items: Vec<OtherFile>) -> Self
        requires { AreInOrder (names_of items.items) }
        ensures { result ≡ items.items }
    {
        OtherFiles { alloc, items }
    }

    pub fn as_slice(&self) -> &[OtherFile]
        ensures { result.now ≡ self.now }
    {
        self.items.as_slice()
    }

    /// Gives the files on, without copying any.
    pub fn into_vec(self) -> Vec<OtherFile>
        ensures { result.items ≡ self }
    {
        self.items
    }

    /// What holds of each.
    pub fn law(&self)
        ensures { AreInOrder (names_of self.now) }
    {
        let _ = &self.items;
    }

    /// An equal one, or want of memory.
    pub fn copy(&self) -> Result<OtherFiles, AllocError>
        ensures { IfOk result (λ copy. copy ≡ self.now) }
    {
        let mut items = Vec::new(self.alloc);
        for other in &self.items {
            items.push(other.copy()?)?;
        }
        Ok(OtherFiles {
            alloc: self.alloc,
            items,
        })
    }
}
