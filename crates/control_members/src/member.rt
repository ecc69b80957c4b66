// One control file of a package.
ghost use Rattle.std.specs.Prelude.{◌≡◌, true};
ghost use Rattle.host_core.specs.World.{is_file};
ghost use Rattle.control_members.specs.Names.{is_member_name};

use crate::names::is_member_name;
use host_core::Node;
use name_tables::Named;
use std::alloc::AllocError;
use texts::Text;

/// A file of `DEBIAN/` that is kept with the package.
#[derive(Drop)]
pub struct Member {
    pub name: Text,
    pub node: Node,
    pub ghost named: { is_member_name name ≡ true },
    pub ghost file: { is_file node ≡ true },
}

impl Named for Member {
    ghost called = { λ m. m.name };

    fn name(&self) -> &Text {
        &self.name
    }
}

impl Member {
    ghost use Rattle.std.specs.Prelude.{◌≡◌, ◌&&◌, false, IfOk, IfSome, IfNone};
    ghost use Rattle.host_core.specs.World.{is_file};
    ghost use Rattle.control_members.specs.Names.{is_member_name};

    /// What stands in `DEBIAN/` under a name, if it is a file with the name of one that is kept.
    pub fn of(name: Text, node: Node) -> Option<Member>
        ensures some { IfSome result (λ m. (m.name ≡ name) × (m.node ≡ node)) }
        ensures none { IfNone result ((is_member_name name && is_file node) ≡ false) }
    {
        if !is_member_name(name.as_str()) {
            return None;
        }
        match node {
            Node::File { bytes, access } => Some(Member {
                name,
                node: Node::File { bytes, access },
            }),
            Node::Dir { .. } => None,
            Node::Link { .. } => None,
        }
    }

    pub fn copy(&self) -> Result<Member, AllocError>
        ensures { IfOk result (λ m. m ≡ self.now) }
    {
        let name = self.name.copy()?;
        let node = self.node.copy()?;
        Ok(Member { name, node })
    }
}
