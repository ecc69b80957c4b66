// Why a unit is refused.
use host_core::{RootPath, ShipPath};
use package_tree::TreeFault;
use relation_fields::Clause;
use texts::Text;

/// The rule that refuses a unit. Of an unpack: a fault of its tree; the first faulty line of `statoverride`, 0 where no file stands
/// there; a path whose override names an owner that has no number in the root; a
/// conffile whose place for the package is another path; its architecture, where it isn't the root's; a clause of Pre-Depends that
/// isn't met; a conflicting package that doesn't yield, or
/// that is essential; a package that would lose what it depends on, or that would be broken, where none may be deconfigured. Of a
/// diversion: a rule of diversions. Of a package that is to be configured, removed or purged: it has no record; its state is another
/// one; it has to be unpacked again first; nothing of it is left to remove; it is essential. Of one to be configured: the
/// clause that isn't met; the package that breaks it; the path of a conffile at which something else stands. Of one to be
/// removed: the package that depends on it.
#[derive(Drop)]
pub enum Rule {
    Tree(TreeFault),
    OverrideLine(u64),
    OwnerUnknown(ShipPath),
    ConffileDiverted(ShipPath),
    Architecture(Text),
    PreDepends(Clause),
    Conflicts(Text),
    ConflictEssential(Text),
    Dependents(Text),
    Breaks(Text),
    Divert(diversions::Refusal),
    Unknown,
    WrongState,
    Reinstreq,
    NothingToRemove,
    Essential,
    Depends(Clause),
    BrokenBy(Text),
    ConffileKind(RootPath),
    DependedOn(Text),
}

/// A refused unit: the rule, and the package; for a tree's fault the word that named the tree, and for a diversion its path.
#[derive(Drop)]
pub struct Refusal {
    pub rule: Rule,
    pub package: Text,
}
