// The rule that refuses an unpack, with names in the place of numbers.
ghost use Rattle.std.specs.Prelude.{◌≡◌, IfOk};
ghost use Rattle.unpack_relations.specs.Checks.{IsWithin, rule_of};

use crate::names::name_at;
use dependency_check::UnpackRefusal;
use relation_index::Package;
use std::alloc::AllocError;
use unit_reports::Rule;

pub(crate) fn rule_of(
    packages: &[Package],
    incoming: &Package,
    refusal: UnpackRefusal,
) -> Result<Rule, AllocError>
    requires { IsWithin packages.now incoming.now refusal }
    ensures { IfOk result (λ rule. rule ≡ rule_of packages.now incoming.now refusal) }
{
    match refusal {
        UnpackRefusal::PreDepends(place) => {
            let clause = incoming.pre_depends.clauses()[place].copy()?;
            Ok(Rule::PreDepends(clause))
        }
        UnpackRefusal::Conflicts(number) => Ok(Rule::Conflicts(name_at(packages, number)?)),
        UnpackRefusal::ConflictEssential(number) => {
            Ok(Rule::ConflictEssential(name_at(packages, number)?))
        }
        UnpackRefusal::Dependents(number) => Ok(Rule::Dependents(name_at(packages, number)?)),
        UnpackRefusal::Breaks(number) => Ok(Rule::Breaks(name_at(packages, number)?)),
    }
}
