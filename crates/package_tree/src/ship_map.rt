// What a package ships: paths in their order, each with what stands there.
ghost use Rattle.std.specs.Prelude.{◌≡◌, List, IfOk};
ghost use Rattle.package_tree.specs.Shipped.{AreInOrder};
ghost use Rattle.package_tree.specs.Owners.{root_files};
ghost use Rattle.package_tree.specs.ShipMap.{paths_of};
ghost use Rattle.package_tree.specs.declared.shipped.Shipped.{Shipped as AShipped};

use crate::shipped::Shipped;
use std::alloc::{AllocError, Global};
use std::marker::Model;

/// What a package ships, in path order, each path once.
#[derive(Drop)]
pub struct ShipMap {
    alloc: Global,
    items: Vec<Shipped>,
}

impl Model for ShipMap {
    ghost Value = { List AShipped };

    ghost view = { λ m. m.items.items };

    ghost invariant = { λ m. AreInOrder (paths_of m.items.items) };
}

fn give_to_root(files: &mut Vec<Shipped>)
    ensures { files.new.items ≡ root_files files.old.items }
{
    for file in files.iter_mut() {
        file.give_to_root();
    }
}

impl ShipMap {
    /// Of what is in path order.
    pub fn new(alloc: Global, items: Vec<Shipped>) -> Self
        requires { AreInOrder (paths_of items.items) }
        ensures { result ≡ items.items }
    {
        ShipMap { alloc, items }
    }

    pub fn as_slice(&self) -> &[Shipped]
        ensures { result.now ≡ self.now }
    {
        self.items.as_slice()
    }

    /// Gives its entries on, without copying any.
    pub fn into_vec(self) -> Vec<Shipped>
        ensures { result.items ≡ self }
    {
        self.items
    }

    /// What holds of each.
    pub fn law(&self)
        ensures { AreInOrder (paths_of self.now) }
    {
        let _ = &self.items;
    }

    /// An equal one, or want of memory.
    pub fn copy(&self) -> Result<ShipMap, AllocError>
        ensures { IfOk result (λ copy. copy ≡ self.now) }
    {
        let mut items = Vec::new(self.alloc);
        for file in &self.items {
            items.push(file.copy()?)?;
        }
        Ok(ShipMap {
            alloc: self.alloc,
            items,
        })
    }

    /// Gives each file and directory to root.
    pub(crate) fn give_to_root(&mut self)
        ensures { self.new ≡ root_files self.old }
    {
        give_to_root(&mut self.items);
    }
}
