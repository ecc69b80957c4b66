// A node that is kept.
ghost use Rattle.std.specs.Prelude.{◌≡◌, IfOk};
ghost use Rattle.host_core.specs.declared.node.Node.{Node};

use host_core::Node;
use std::alloc::{AllocError, Global};
use std::marker::Model;
use std::rc::Rc;

/// A node that is kept once, however often it is told.
#[derive(Drop)]
pub struct Stored {
    node: Rc<Node>,
}

impl Model for Stored {
    ghost Value = { Node };

    ghost view = { λ s. s.node.value };
}

impl Stored {
    pub(crate) fn new(alloc: Global, node: Node) -> Result<Stored, AllocError>
        ensures { IfOk result (λ stored. stored ≡ node) }
    {
        Ok(Stored {
            node: Rc::new(alloc, node)?,
        })
    }

    pub fn node(&self) -> &Node
        ensures { result.now ≡ self.now }
    {
        &self.node
    }

    // The same node once more.
    pub(crate) fn share(&self) -> Result<Stored, AllocError>
        ensures { IfOk result (λ stored. stored ≡ self.now) }
    {
        Ok(Stored {
            node: self.node.clone()?,
        })
    }
}
