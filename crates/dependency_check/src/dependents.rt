// Packages that lose what they depend on.
ghost use Rattle.std.specs.Prelude.{◌≡◌, ◌∷◌, [], ◌++◌, ◌&&◌, ◌<◌, not, length, slice_index_or, List, Some, None, IfOk, OnOk, IsTrue, ◌↔◌, MatchOption};
ghost use Rattle.std.specs.List.{Contains, list_any};
ghost use Rattle.dependency_sets.specs.Choices.{IsListing};
ghost use Rattle.dependency_check.specs.Deconfigured.{of_role, IsLost, LosesBy, IsDependent, IsRemovedFor, IsNamedFor, AreDependents};
ghost use Rattle.dependency_check.specs.Departing.{IsDeparture};
ghost use Rattle.dependency_check.specs.declared.plan.Dependent.{Dependent as ADependent};
ghost use Rattle.dependency_check.specs.declared.roles.Role.TheVariants.{Conflicting};
ghost use Rattle.relation_fields.specs.declared.alternative.Alternative.{Alternative};
ghost use Rattle.relation_index.specs.Packages.{Meets, meets, those, needs};

use crate::meeting::{is_met_by, is_met_by_number, is_met_by_one};
use crate::plan::Dependent;
use crate::roles::{Role, list_of_role, marks_of_role, plays};
use dependency_sets::Numbers;
use relation_fields::Clause;
use relation_index::{Package, Packages};
use std::alloc::{AllocError, Global};

/// The installed packages that go, and those that remain.
#[derive(Drop)]
pub(crate) struct Departure {
    pub(crate) going: Numbers,
    pub(crate) remaining: Vec<bool>,
}

fn departure_of(
    alloc: Global,
    packages: &[Package],
    incoming: &Package,
) -> Result<Departure, AllocError>
    ensures { IfOk result (IsDeparture packages.now incoming.now) }
{
    Ok(Departure {
        going: list_of_role(alloc, packages, incoming, Role::Going)?,
        remaining: marks_of_role(alloc, packages, incoming, Role::Remaining)?,
    })
}

// Whether one that goes meets the clause and the incoming package doesn't. That is quickly told for most clauses.
fn may_be_lost(packages: &[Package], incoming: &Package, clause: &Clause, going: &[usize]) -> bool
    ensures { result ≡ (not (meets clause.now incoming.now) && list_any
        (those (meets clause.now) packages.now) going.now) }
{
    !incoming.meets(clause) && is_met_by_one(packages, clause, going)
}

fn is_lost(
    alloc: Global,
    packages: &Packages,
    incoming: &Package,
    departure: &Departure,
    clause: &Clause,
) -> Result<bool, AllocError>
    requires { IsDeparture packages.now incoming.now departure.now }
    ensures { IfOk result (λ lost. IsTrue lost ↔ IsLost packages.now incoming.now clause.now) }
{
    let may = may_be_lost(
        packages.as_slice(),
        incoming,
        clause,
        departure.going.as_slice(),
    );
    if !may {
        return Ok(false);
    }
    let met = is_met_by(alloc, packages, clause, departure.remaining.as_slice())?;
    Ok(!met)
}

fn loses_this_by(
    alloc: Global,
    packages: &Packages,
    incoming: &Package,
    departure: &Departure,
    clause: &Clause,
    number: usize,
) -> Result<bool, AllocError>
    requires { IsDeparture packages.now incoming.now departure.now }
    ensures { IfOk result (λ lost. IsTrue lost ↔ (Meets clause.now packages.now number
        × IsLost packages.now incoming.now clause.now)) }
{
    if !is_met_by_number(packages.as_slice(), clause, number) {
        return Ok(false);
    }
    let lost = is_lost(alloc, packages, incoming, departure, clause)?;
    Ok(lost)
}

fn loses_one_by(
    alloc: Global,
    packages: &Packages,
    incoming: &Package,
    departure: &Departure,
    clauses: &[Clause],
    number: usize,
) -> Result<bool, AllocError>
    requires { IsDeparture packages.now incoming.now departure.now }
    ensures { IfOk result (λ lost. IsTrue lost ↔ LosesBy packages.now incoming.now clauses.now
        number) }
{
    for clause in clauses {
        let lost = loses_this_by(alloc, packages, incoming, departure, clause, number)?;
        if lost {
            return Ok(true);
        }
    }
    Ok(false)
}

fn loses_need_by(
    alloc: Global,
    packages: &Packages,
    incoming: &Package,
    departure: &Departure,
    of: &Package,
    number: usize,
) -> Result<bool, AllocError>
    requires { IsDeparture packages.now incoming.now departure.now }
    ensures { IfOk result (λ lost. IsTrue lost ↔ LosesBy packages.now incoming.now (needs of.now)
        number) }
{
    let first = of.pre_depends.clauses();
    let before = loses_one_by(alloc, packages, incoming, departure, first, number)?;
    if before {
        return Ok(true);
    }
    let second = of.depends.clauses();
    let after = loses_one_by(alloc, packages, incoming, departure, second, number)?;
    Ok(after)
}

// The first conflicting package that meets a clause which the package loses.
fn removed_for(
    alloc: Global,
    packages: &Packages,
    incoming: &Package,
    departure: &Departure,
    conflicting: &[usize],
    of: &Package,
) -> Result<Option<usize>, AllocError>
    requires departure { IsDeparture packages.now incoming.now departure.now }
    requires conflicting { IsListing (λ x. IsTrue (of_role Conflicting incoming.now packages.now x))
        conflicting.now }
    ensures { IfOk result (λ found. MatchOption found ((clause : List Alternative)
        → Contains (needs of.now) clause → IsLost packages.now incoming.now clause
        → ⊥) (IsRemovedFor packages.now incoming.now (needs of.now))) }
{
    for number in conflicting {
        let loses = loses_need_by(alloc, packages, incoming, departure, of, *number)?;
        if loses {
            return Ok(Some(*number));
        }
    }
    Ok(None)
}

fn named_for(number: usize, removing: Option<usize>) -> Option<Dependent>
    ensures { MatchOption removing (result ≡ None) (λ r. result ≡ Some (record {
      number = number;
      removing = r;
    })) }
{
    match removing {
        Some(removing) => Some(Dependent { number, removing }),
        None => None,
    }
}

fn dependent_at(
    alloc: Global,
    packages: &Packages,
    incoming: &Package,
    departure: &Departure,
    conflicting: &[usize],
    of: &Package,
    number: usize,
) -> Result<Option<Dependent>, AllocError>
    requires within { number < length packages.now }
    requires at { slice_index_or packages.now number of.now ≡ of.now }
    requires departure { IsDeparture packages.now incoming.now departure.now }
    requires conflicting { IsListing (λ x. IsTrue (of_role Conflicting incoming.now packages.now x))
        conflicting.now }
    ensures { IfOk result (λ found. MatchOption found (IsDependent packages.now incoming.now number
        → ⊥) (λ d. (d.number ≡ number) × IsDependent packages.now incoming.now number
        × IsNamedFor packages.now incoming.now d)) }
{
    if !plays(Role::Dependable, incoming, of) {
        return Ok(None);
    }
    let removing = removed_for(alloc, packages, incoming, departure, conflicting, of)?;
    Ok(named_for(number, removing))
}

fn push_found(list: &mut Vec<Dependent>, found: Option<Dependent>) -> Result<(), AllocError>
    ensures none { OnOk result (found ≡ None → list.new.items ≡ list.old.items) }
    ensures some { OnOk result ((d : ADependent) → found ≡ Some d → list.new.items ≡ list.old.items
        ++ d ∷ []) }
{
    if let Some(dependent) = found {
        list.push(dependent)?;
    }
    Ok(())
}

/// The packages that lose what they depend on, each with the package named as being removed.
pub(crate) fn dependents(
    alloc: Global,
    packages: &Packages,
    incoming: &Package,
    conflicting: &[usize],
) -> Result<Vec<Dependent>, AllocError>
    requires { IsListing (λ x. IsTrue (of_role Conflicting incoming.now packages.now x))
        conflicting.now }
    ensures { IfOk result (λ list. AreDependents packages.now incoming.now list.items) }
{
    let slice = packages.as_slice();
    let departure = departure_of(alloc, slice, incoming)?;
    let mut list = Vec::new(alloc);
    for number in 0..slice.len() {
        let found = dependent_at(
            alloc,
            packages,
            incoming,
            &departure,
            conflicting,
            &slice[number],
            number,
        )?;
        push_found(&mut list, found)?;
    }
    Ok(list)
}
