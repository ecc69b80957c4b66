// Paths that a package names, in their order.
ghost use Rattle.std.specs.Prelude.{◌≡◌, ℕ, List, IfOk};
ghost use Rattle.package_tree.specs.Shipped.{AreInOrder};

use host_core::ShipPath;
use std::alloc::{AllocError, Global};
use std::marker::Model;

/// Paths in their order, each once.
#[derive(Drop)]
pub struct ShipPaths {
    alloc: Global,
    items: Vec<ShipPath>,
}

impl Model for ShipPaths {
    ghost Value = { List (List ℕ) };

    ghost view = { λ p. p.items.items };

    ghost invariant = { λ p. AreInOrder p.items.items };
}

impl ShipPaths {
    /// Of paths in their order.
    pub fn new(alloc: Global, items: Vec<ShipPath>) -> Self
        requires { AreInOrder items.items }
        ensures { result ≡ items.items }
    {
        ShipPaths { alloc, items }
    }

    pub fn as_slice(&self) -> &[ShipPath]
        ensures { result.now ≡ self.now }
    {
        self.items.as_slice()
    }

    /// Gives the paths on, without copying any.
    pub fn into_vec(self) -> Vec<ShipPath>
        ensures { result.items ≡ self }
    {
        self.items
    }

    /// What holds of each.
    pub fn law(&self)
        ensures { AreInOrder self.now }
    {
        let _ = &self.items;
    }

    /// An equal one, or want of memory.
    pub fn copy(&self) -> Result<ShipPaths, AllocError>
        ensures { IfOk result (λ copy. copy ≡ self.now) }
    {
        let mut items = Vec::new(self.alloc);
        for path in &self.items {
            items.push(path.copy()?)?;
        }
        Ok(ShipPaths {
            alloc: self.alloc,
            items,
        })
    }
}
