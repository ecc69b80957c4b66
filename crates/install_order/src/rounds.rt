// The rounds of an install.
ghost use Rattle.std.specs.Prelude.{IfOk, ℕ, ◌<◌, length};
ghost use Rattle.std.specs.List.{All};
ghost use Rattle.install_order.specs.Rounds.{AreRounds};

use crate::bearers::Bearers;
use crate::needs::needs_of;
use crate::stage::Stage;
use crate::taking::{Taking, has_one};
use dependency_sets::Numbers;
use package_tree::ControlFile;
use relation_index::Packages;
use std::alloc::{AllocError, Global};

/// The rounds of these trees, by their numbers as they are given, in a root of these packages. One
/// that couldn't be read is none.
pub fn rounds_of(
    alloc: Global,
    recorded: &Packages,
    trees: &[Option<ControlFile>],
) -> Result<Vec<Numbers>, AllocError>
    ensures rounds { IfOk result (λ rounds. AreRounds recorded.now trees.now rounds.items) }
    ensures within { IfOk result (λ rounds. All (All (λ x. x < length trees.now)) rounds.items) }
{
    let bearers = Bearers::of(alloc, recorded, trees)?;
    let before = needs_of(alloc, Stage::Unpack, recorded, trees, &bearers)?;
    let beside = needs_of(alloc, Stage::Configure, recorded, trees, &bearers)?;
    let mut taking = Taking::new(alloc, trees.len())?;
    while has_one(taking.left.as_slice()) {
        taking.take(alloc, before.as_slice(), beside.as_slice())?;
    }
    Ok(taking.rounds)
}
