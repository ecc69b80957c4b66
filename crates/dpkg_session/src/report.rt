// What a command is given.
use package_tree::{Package, TreeFault};
use texts::Text;

/// A tree to be unpacked: the word that named it, and what was read of it.
#[derive(Drop)]
pub struct Candidate {
    pub label: Text,
    pub tree: Result<Package, TreeFault>,
}
