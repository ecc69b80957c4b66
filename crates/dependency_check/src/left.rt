// Why packages that are left over can't be configured or removed.
ghost use Rattle.std.specs.Prelude.{◌≡◌, ℕ, IfOk, IsTrue, ◌↔◌, MatchOption};
ghost use Rattle.dependency_sets.specs.Choices.{IsFirst};
ghost use Rattle.dependency_sets.specs.Sets.{has, stays};
ghost use Rattle.dependency_check.specs.Left.{AreAllMet, IsUnmetAt, IsFirstUnmet, HasOneLeft, DependsBeside, DependsOnLeft};
ghost use Rattle.dependency_check.specs.Queues.{IsMetBy};
ghost use Rattle.relation_index.specs.Packages.{Meets, needs};

use crate::meeting::{is_met_by, is_met_by_number};
use dependency_sets::has;
use relation_fields::Clause;
use relation_index::{Package, Packages};
use std::alloc::{AllocError, Global};

/// A clause that isn't met, by its place in its field.
#[derive(Clone, Copy, Debug)]
pub enum UnmetClause {
    PreDepends(usize),
    Depends(usize),
}

fn first_unmet_of(
    alloc: Global,
    packages: &Packages,
    clauses: &[Clause],
    set: &[bool],
) -> Result<Option<usize>, AllocError>
    ensures { IfOk result (λ found. MatchOption found (AreAllMet packages.now clauses.now
        (has set.now)) (IsFirst (IsUnmetAt packages.now clauses.now (has set.now)))) }
{
    for place in 0..clauses.len() {
        let met = is_met_by(alloc, packages, &clauses[place], set)?;
        if !met {
            return Ok(Some(place));
        }
    }
    Ok(None)
}

/// The first clause of a package, Pre-Depends before Depends, that nothing installed meets: why the package can't be
/// configured when no other can.
pub fn first_unmet(
    alloc: Global,
    packages: &Packages,
    of: &Package,
    installed: &[bool],
) -> Result<Option<UnmetClause>, AllocError>
    ensures { IfOk result (λ found. MatchOption found (AreAllMet packages.now of.now.pre_depends
        (has installed.now) × AreAllMet packages.now of.now.depends (has installed.now))
        (IsFirstUnmet packages.now of.now (has installed.now))) }
{
    let before = of.pre_depends.clauses();
    let found_before = first_unmet_of(alloc, packages, before, installed)?;
    if let Some(place) = found_before {
        return Ok(Some(UnmetClause::PreDepends(place)));
    }
    let after = of.depends.clauses();
    let found_after = first_unmet_of(alloc, packages, after, installed)?;
    match found_after {
        Some(place) => Ok(Some(UnmetClause::Depends(place))),
        None => Ok(None),
    }
}

fn stays(installed: &[bool], left: &[bool], number: usize) -> bool
    ensures { result ≡ stays (has installed.now) (has left.now) number }
{
    has(installed, number) && !has(left, number)
}

// The installed packages that aren't left over.
fn staying(alloc: Global, installed: &[bool], left: &[bool]) -> Result<Vec<bool>, AllocError>
    ensures { IfOk result (λ set. (x : ℕ) → has set.items x ≡ stays (has installed.now)
        (has left.now) x) }
{
    let mut set = Vec::new(alloc);
    for number in 0..installed.len() {
        set.push(stays(installed, left, number))?;
    }
    Ok(set)
}

// Whether the package of this number meets the clause, and none of those that stay does.
fn is_met_alone(
    alloc: Global,
    packages: &Packages,
    clause: &Clause,
    staying: &[bool],
    number: usize,
) -> Result<bool, AllocError>
    ensures { IfOk result (λ alone. IsTrue alone ↔ (Meets clause.now packages.now number
        × (IsMetBy packages.now clause.now (has staying.now) → ⊥))) }
{
    if !is_met_by_number(packages.as_slice(), clause, number) {
        return Ok(false);
    }
    let met = is_met_by(alloc, packages, clause, staying)?;
    Ok(!met)
}

fn has_one_left(
    alloc: Global,
    packages: &Packages,
    clauses: &[Clause],
    staying: &[bool],
    number: usize,
) -> Result<bool, AllocError>
    ensures { IfOk result (λ found. IsTrue found ↔ HasOneLeft packages.now clauses.now
        (has staying.now) number) }
{
    for clause in clauses {
        let alone = is_met_alone(alloc, packages, clause, staying, number)?;
        if alone {
            return Ok(true);
        }
    }
    Ok(false)
}

fn has_need_left(
    alloc: Global,
    packages: &Packages,
    of: &Package,
    staying: &[bool],
    number: usize,
) -> Result<bool, AllocError>
    ensures { IfOk result (λ found. IsTrue found ↔ HasOneLeft packages.now (needs of.now)
        (has staying.now) number) }
{
    let first = of.pre_depends.clauses();
    let before = has_one_left(alloc, packages, first, staying, number)?;
    if before {
        return Ok(true);
    }
    let second = of.depends.clauses();
    let after = has_one_left(alloc, packages, second, staying, number)?;
    Ok(after)
}

fn depends_beside(
    alloc: Global,
    packages: &Packages,
    installed: &[bool],
    staying: &[bool],
    number: usize,
    other: usize,
) -> Result<bool, AllocError>
    ensures { IfOk result (λ found. IsTrue found ↔ DependsBeside packages.now (has installed.now)
        (has staying.now) number other) }
{
    if other == number {
        return Ok(false);
    }
    if !has(installed, other) {
        return Ok(false);
    }
    let Some(of) = packages.as_slice().get(other) else {
        return Ok(false);
    };
    let found = has_need_left(alloc, packages, of, staying, number)?;
    Ok(found)
}

fn first_beside(
    alloc: Global,
    packages: &Packages,
    installed: &[bool],
    staying: &[bool],
    number: usize,
) -> Result<Option<usize>, AllocError>
    ensures { IfOk result (λ found. MatchOption found ((y : ℕ)
        → DependsBeside packages.now (has installed.now) (has staying.now) number y
        → ⊥) (IsFirst (DependsBeside packages.now (has installed.now) (has staying.now) number))) }
{
    for other in 0..installed.len() {
        let depends = depends_beside(alloc, packages, installed, staying, number, other)?;
        if depends {
            return Ok(Some(other));
        }
    }
    Ok(None)
}

/// The first other installed package that has a clause of Depends or Pre-Depends which this one meets and which no
/// installed package but those left over meets: why the package can't be removed.
pub fn depended_on_by(
    alloc: Global,
    packages: &Packages,
    installed: &[bool],
    left: &[bool],
    number: usize,
) -> Result<Option<usize>, AllocError>
    ensures { IfOk result (λ found. MatchOption found ((y : ℕ)
        → DependsOnLeft packages.now (has installed.now) (has left.now) number y
        → ⊥) (IsFirst (DependsOnLeft packages.now (has installed.now) (has left.now) number))) }
{
    let kept = staying(alloc, installed, left)?;
    let first = first_beside(alloc, packages, installed, kept.as_slice(), number)?;
    Ok(first)
}
