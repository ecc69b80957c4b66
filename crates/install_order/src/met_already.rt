// Whether recorded packages are enough for a clause.
ghost use Rattle.std.specs.Prelude.{◌≡◌, IfOk, IsTrue, ◌↔◌};
ghost use Rattle.std.specs.List.{list_any};
ghost use Rattle.dependency_check.specs.Unpack.{met_when_configured, meets_beforehand};
ghost use Rattle.relation_index.specs.Packages.{those};
ghost use Rattle.install_order.specs.Clauses.{is_enough, IsMetAlready};

use crate::stage::Stage;
use relation_fields::{Clause, Offer};
use relation_index::{Package, Packages};
use std::alloc::{AllocError, Global};

fn met_when_configured(clause: &Clause, recorded: &Package) -> bool
    ensures { result ≡ met_when_configured clause.now recorded.now recorded.now.configured }
{
    match &recorded.configured {
        Some(version) => clause.admits(&Offer {
            name: recorded.name.as_str(),
            architecture: &recorded.architecture,
            version,
            provides: &recorded.provides,
        }),
        None => false,
    }
}

fn meets_beforehand(clause: &Clause, recorded: &Package) -> bool
    ensures { result ≡ meets_beforehand clause.now recorded.now }
{
    recorded.meets(clause)
        && ((recorded.is_installed() && !recorded.awaits)
            || (recorded.is_unpacked()
                && (!recorded.removed_since && met_when_configured(clause, recorded))))
}

fn is_enough(stage: Stage, clause: &Clause, recorded: &Package) -> bool
    ensures { result ≡ is_enough stage clause.now recorded.now }
{
    match stage {
        Stage::Unpack => meets_beforehand(clause, recorded),
        Stage::Configure => recorded.meets(clause) && recorded.is_installed(),
    }
}

fn is_enough_at(stage: Stage, clause: &Clause, recorded: &[Package], number: usize) -> bool
    ensures { result ≡ those (is_enough stage clause.now) recorded.now number }
{
    match recorded.get(number) {
        Some(package) => is_enough(stage, clause, package),
        None => false,
    }
}

fn one_is_enough(stage: Stage, clause: &Clause, recorded: &[Package], numbers: &[usize]) -> bool
    ensures { result ≡ list_any (those (is_enough stage clause.now) recorded.now) numbers.now }
{
    numbers
        .iter()
        .any(|number| is_enough_at(stage, clause, recorded, *number))
}

/// Whether the clause is met without the trees.
pub(crate) fn is_met_already(
    alloc: Global,
    stage: Stage,
    recorded: &Packages,
    clause: &Clause,
) -> Result<bool, AllocError>
    ensures { IfOk result (λ met. IsTrue met ↔ IsMetAlready stage recorded.now clause.now) }
{
    let meeters = recorded.meeters(alloc, clause)?;
    let met = one_is_enough(stage, clause, recorded.as_slice(), meeters.as_slice());
    Ok(met)
}
