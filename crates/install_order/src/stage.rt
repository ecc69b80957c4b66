// What a tree states of others, for the steps of its install.
ghost use Rattle.std.specs.Prelude.{◌≡◌};
ghost use Rattle.install_order.specs.Clauses.{stated_for};

use package_tree::ControlFile;
use relation_fields::Clause;

/// The step before which a need has to be met.
#[derive(Clone, Copy)]
pub(crate) enum Stage {
    Unpack,
    Configure,
}

pub(crate) fn stated_for(stage: Stage, tree: &ControlFile) -> &[Clause]
    ensures { result.now ≡ stated_for stage tree.now }
{
    match stage {
        Stage::Unpack => tree.relations.pre_depends.clauses(),
        Stage::Configure => tree.relations.depends.clauses(),
    }
}
