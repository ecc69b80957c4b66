// Round after round, what is taken and what is left.
ghost use Rattle.std.specs.Prelude.{◌≡◌, ◌↔◌, [], ℕ, true, false, IfOk, OnOk, IsTrue, replicate, slice_set, if◌then◌else◌};
ghost use Rattle.std.specs.List.{list_any};
ghost use Rattle.dependency_sets.specs.Sets.{has, IsSupplied};
ghost use Rattle.install_order.specs.Taking.{IsNextBy, IsRoundOf, AreMarked, HasTakenRound};

use dependency_sets::{Clause, Numbers, configurable, has, listed};
use std::alloc::{AllocError, Global};

fn has_meeter(meeters: &[usize], set: &[bool]) -> bool
    ensures { result ≡ list_any (has set.now) meeters.now }
{
    meeters.iter().any(|meeter| has(set, *meeter))
}

pub(crate) fn has_one(set: &[bool]) -> bool
    ensures { result ≡ list_any (λ mark. mark) set.now }
{
    set.iter().any(|mark| *mark)
}

fn mark(set: &mut Vec<bool>, number: usize, value: bool)
    ensures { set.new.items ≡ slice_set set.old.items number value }
{
    if number < set.len() {
        set[number] = value;
    }
}

fn mark_all(set: &mut Vec<bool>, numbers: &[usize], value: bool)
    ensures { AreMarked value numbers.now set.old.items set.new.items }
{
    for number in numbers {
        mark(set, *number, value);
    }
}

fn take_out_unmet(waiting: &mut Vec<bool>, clause: &Clause, earlier: &[bool])
    ensures { waiting.new.items ≡ (if list_any (has earlier.now) clause.now.meeters then
        waiting.old.items else slice_set waiting.old.items clause.now.owner false) }
{
    if !has_meeter(clause.meeters.as_slice(), earlier) {
        mark(waiting, clause.owner, false);
    }
}

// Those left whose clauses are met by earlier ones.
fn supplied(
    alloc: Global,
    clauses: &[Clause],
    earlier: &[bool],
    left: &[bool],
) -> Result<Vec<bool>, AllocError>
    ensures { IfOk result (λ waiting. (x : ℕ) → IsTrue (has waiting.items x) ↔ (IsTrue (has left.now
        x) × IsSupplied clauses.now (has earlier.now) x)) }
{
    let mut waiting = Vec::from_slice(alloc, left)?;
    for clause in clauses {
        take_out_unmet(&mut waiting, clause, earlier);
    }
    Ok(waiting)
}

/// The next round: all that can be in it, or where none can be all that are left.
fn next_round(
    alloc: Global,
    before: &[Clause],
    beside: &[Clause],
    earlier: &[bool],
    left: &[bool],
) -> Result<Numbers, AllocError>
    requires { list_any (λ mark. mark) left.now ≡ true }
    ensures { IfOk result (λ round. IsRoundOf (IsNextBy before.now beside.now (has earlier.now)
        (has left.now)) (has left.now) round) }
{
    let waiting = supplied(alloc, before, earlier, left)?;
    let members = configurable(alloc, beside, earlier, waiting.as_slice())?;
    let set = members.as_slice();
    if has_one(set) {
        let round = listed(alloc, set)?;
        return Ok(round);
    }
    let round = listed(alloc, left)?;
    Ok(round)
}

/// The rounds so far, what is in them, and what is left.
#[derive(Drop)]
pub(crate) struct Taking {
    pub(crate) rounds: Vec<Numbers>,
    pub(crate) earlier: Vec<bool>,
    pub(crate) left: Vec<bool>,
}

impl Taking {
    pub(crate) fn new(alloc: Global, count: usize) -> Result<Taking, AllocError>
        ensures rounds { IfOk result (λ t. t.rounds.items ≡ []) }
        ensures earlier { IfOk result (λ t. t.earlier.items ≡ replicate count false) }
        ensures left { IfOk result (λ t. t.left.items ≡ replicate count true) }
    {
        Ok(Taking {
            rounds: Vec::new(alloc),
            earlier: vec![in alloc; false; count]?,
            left: vec![in alloc; true; count]?,
        })
    }

    /// Takes the next round.
    pub(crate) fn take(
        &mut self,
        alloc: Global,
        before: &[Clause],
        beside: &[Clause],
    ) -> Result<(), AllocError>
        requires { list_any (λ mark. mark) self.old.left.items ≡ true }
        ensures { OnOk result (HasTakenRound (IsNextBy before.now beside.now
            (has self.old.earlier.items) (has self.old.left.items)) self.old.rounds.items
            self.old.earlier.items self.old.left.items self.new.rounds.items self.new.earlier.items
            self.new.left.items) }
    {
        let earlier = self.earlier.as_slice();
        let left = self.left.as_slice();
        let round = next_round(alloc, before, beside, earlier, left)?;
        mark_all(&mut self.earlier, round.as_slice(), true);
        mark_all(&mut self.left, round.as_slice(), false);
        self.rounds.push(round)?;
        Ok(())
    }
}
