// Paths of a list, and listed paths with the packages that list them.
ghost use Rattle.std.specs.Prelude.{◌≡◌, ℕ, List};

use host_core::RootPath;
use name_tables::Named;
use std::marker::Model;
use texts::Text;

/// Paths that a package lists.
#[derive(Drop)]
pub struct Paths {
    pub items: Vec<RootPath>,
}

impl Model for Paths {
    ghost Value = { List (List ℕ) };

    ghost view = { λ p. p.items.items };
}

impl Paths {
    pub fn as_slice(&self) -> &[RootPath]
        ensures { result.now ≡ self.now }
    {
        self.items.as_slice()
    }
}

/// What one package lists besides the root.
#[derive(Drop)]
pub struct PackageList {
    pub name: Text,
    pub paths: Paths,
}

impl Named for PackageList {
    ghost called = { λ l. l.name };

    fn name(&self) -> &Text {
        &self.name
    }
}

/// A path, and the name of a package that lists it.
#[derive(Drop)]
pub struct Listed {
    pub name: Text,
    pub path: RootPath,
}
