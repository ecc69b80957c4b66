// A shipped path with the names at which it is written.
ghost use Rattle.std.specs.Prelude.{◌≡◌, IfOk};
ghost use Rattle.package_files.specs.Laid;
ghost use Rattle.package_files.specs.Works.{work_of};

use host_core::{Kind, Node, RootPath, ShipPath, Suffix};
use std::alloc::AllocError;

/// A path that a package ships, the place where the package has it, and the names beside that place
/// at which it is written: its target, which for a conffile is the place with `.dpkg-new`; the name
/// of what stood at the target; and the name under which the new node is made.
#[derive(Drop)]
pub struct Work {
    pub path: RootPath,
    pub place: RootPath,
    pub target: RootPath,
    pub backup: RootPath,
    pub fresh: RootPath,
    pub node: Node,
    /// What stood at the target when it was looked at.
    pub had: Option<Kind>,
}

fn target_of(place: &ShipPath, is_conffile: bool) -> Result<RootPath, AllocError>
    ensures { IfOk result (λ path. path ≡ Rattle.package_files.specs.Works.target_of place.now
        is_conffile) }
{
    if is_conffile {
        return place.beside(Suffix::New);
    }
    place.at()
}

/// Whether a file or link takes the place of what stands there: of all but a directory.
fn is_replaced(had: Option<Kind>) -> bool
    ensures { result ≡ Rattle.package_files.specs.Laid.is_replaced had }
{
    match had {
        None => true,
        Some(Kind::File) => true,
        Some(Kind::Directory) => false,
        Some(Kind::SymbolicLink) => true,
    }
}

impl Work {
    /// The work of a path with this place; nothing was looked at.
    pub fn new(
        path: &ShipPath,
        place: &ShipPath,
        node: Node,
        is_conffile: bool,
    ) -> Result<Work, AllocError>
        ensures { IfOk result (λ work. work ≡ work_of path.now place.now node is_conffile) }
    {
        Ok(Work {
            path: path.at()?,
            place: place.at()?,
            target: target_of(place, is_conffile)?,
            backup: place.beside(Suffix::Tmp)?,
            fresh: place.beside(Suffix::Inst)?,
            node,
            had: None,
        })
    }

    /// Whether it is a file or link that takes the place of what was seen at the target.
    pub(crate) fn is_exchanged(&self) -> bool
        ensures { result ≡ Rattle.package_files.specs.Laid.is_exchanged self.now.node self.now.had }
    {
        match &self.node {
            Node::File { .. } => is_replaced(self.had),
            Node::Dir { .. } => false,
            Node::Link { .. } => is_replaced(self.had),
        }
    }
}
