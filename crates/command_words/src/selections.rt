// What is to be wanted of packages.
ghost use Rattle.std.specs.Prelude.{◌≡◌, ◌++◌, ◌∷◌, [], List, OnErr, OnOk};
ghost use Rattle.command_words.specs.declared.selections.Selected.{Selected};

use std::alloc::{AllocError, Global};
use std::marker::Model;
use texts::Text;

/// What can be wanted of a package.
#[derive(Clone, Copy)]
pub enum Wanted {
    Install,
    /// It stays as it is.
    Hold,
    Deinstall,
    Purge,
}

/// A package's name, and what is to be wanted of it.
#[derive(Drop)]
pub struct Selected {
    pub name: Text,
    pub want: Wanted,
}

/// A list of these.
#[derive(Drop)]
pub struct Selections {
    items: Vec<Selected>,
}

impl Model for Selections {
    ghost Value = { List Selected };

    ghost view = { λ s. s.items.items };
}

impl Selections {
    pub(crate) fn new(alloc: Global) -> Selections
        ensures { result ≡ [] }
    {
        Selections {
            items: Vec::new(alloc),
        }
    }

    pub(crate) fn push(&mut self, selected: Selected) -> Result<(), AllocError>
        ensures ok { OnOk result (self.new ≡ self.old ++ selected ∷ []) }
        ensures err { OnErr result (self.new ≡ self.old) }
    {
        self.items.push(selected)?;
        Ok(())
    }

    pub fn as_slice(&self) -> &[Selected]
        ensures { result.now ≡ self.now }
    {
        self.items.as_slice()
    }
}
