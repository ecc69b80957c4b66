// A package with the accesses that an administrator set.
ghost use Rattle.std.specs.Prelude.{◌≡◌};
ghost use Rattle.stat_overrides.specs.Fitting.{given_access, overridden_files};
ghost use Rattle.stat_overrides.specs.Packages.{has_access, overridden};

use crate::table::Overrides;
use host_core::{Access, Node, ShipPath};
use package_tree::{Package, ShipMap, Shipped};
use std::alloc::Global;

fn has_access(node: &Node) -> bool
    ensures { result ≡ has_access node.now }
{
    match node {
        Node::File { .. } => true,
        Node::Dir { .. } => true,
        Node::Link { .. } => false,
    }
}

// Gives a file or directory another access, where there is one.
fn give_access(access: Option<Access>, node: &mut Node)
    ensures { node.new ≡ given_access access node.old }
{
    let Some(other) = access else {
        return;
    };
    match node {
        Node::File { access, .. } => *access = other,
        Node::Dir { access } => *access = other,
        Node::Link { .. } => {}
    }
}

fn override_files(overrides: &Overrides, files: &mut Vec<Shipped>)
    ensures { files.new.items ≡ overridden_files overrides.now files.old.items }
{
    for file in files.iter_mut() {
        overrides.give(file);
    }
}

impl Overrides {
    ghost use Rattle.std.specs.Prelude.{◌≡◌, option_copied};
    ghost use Rattle.stat_overrides.specs.Fitting.{overridden_file};
    ghost use Rattle.stat_overrides.specs.Overrides.{access_at};
    ghost use Rattle.stat_overrides.specs.Packages.{first_unknown, is_unknown};

    /// The access of a path as it is listed, where an override names it.
    pub fn access_at(&self, path: &str) -> Option<Access>
        ensures { result ≡ access_at self.now path.now }
    {
        match self.entry_at(path) {
            Some(entry) => self.access_by(entry),
            None => None,
        }
    }

    // Gives what is shipped the access of its override.
    fn give(&self, file: &mut Shipped)
        ensures { file.new ≡ overridden_file self.now file.old }
    {
        let access = self.access_at(file.path.as_str());
        give_access(access, &mut file.node);
    }

    fn is_unknown(&self, file: &Shipped) -> bool
        ensures { result ≡ is_unknown self.now file.now }
    {
        if !has_access(&file.node) {
            return false;
        }
        match self.entry_at(file.path.as_str()) {
            Some(entry) => self.access_by(entry).is_none(),
            None => false,
        }
    }

    /// The first shipped path whose override names an owner that has no number.
    pub fn first_unknown<'a>(&self, files: &'a [Shipped]) -> Option<&'a ShipPath>
        ensures { option_copied result ≡ first_unknown self.now files.now }
    {
        for file in files {
            if self.is_unknown(file) {
                return Some(&file.path);
            }
        }
        None
    }
}

/// A package with the access of its override for each shipped file and directory that has one.
pub fn override_accesses(alloc: Global, overrides: &Overrides, package: Package) -> Package
    ensures { result ≡ overridden overrides.now «package» }
{
    let Package {
        name,
        version,
        control,
        relations,
        scripts,
        others,
        files,
        conffiles,
        flagged,
        ships,
        has_conffiles,
    } = package;
    files.law();
    let mut items = files.into_vec();
    override_files(overrides, &mut items);
    Package {
        name,
        version,
        control,
        relations,
        scripts,
        others,
        files: ShipMap::new(alloc, items),
        conffiles,
        flagged,
        ships,
        has_conffiles,
    }
}
