// The removable set of a run, kept while packages go.
ghost use Rattle.std.specs.Prelude.{◌≡◌, ℕ, ◌<◌, length, IfOk, IsTrue, ◌↔◌};
ghost use Rattle.dependency_sets.specs.Kept.{has_removed};
ghost use Rattle.dependency_sets.specs.Removal.{IsRemovable};
ghost use Rattle.dependency_sets.specs.Sets.{has};

use crate::clause::Clause;
use crate::configuring::{Configuring, take_out};
use crate::removing::reliances;
use std::alloc::{AllocError, Global};
use std::marker::Model;

/// What is installed, what waits to be removed, and which of these can go. `kept` has who goes only together with
/// whom, as clauses, and for what is installed those that are gone.
#[derive(Drop)]
pub struct Leaving {
    clauses: Vec<Clause>,
    installed: Vec<bool>,
    kept: Configuring,
}

impl Model for Leaving {
    ghost use Rattle.dependency_sets.specs.Kept.{Queue, IsLeavingNow};

    ghost Value = { Queue };

    ghost view = { λ l. record { clauses = l.clauses.items; installed = l.installed.items; waiting = l.kept.waiting } };

    ghost invariant = { λ l. IsLeavingNow l.clauses.items l.installed.items l.kept };
}

impl Leaving {
    pub fn of(
        alloc: Global,
        clauses: Vec<Clause>,
        installed: &[bool],
        waiting: &[bool],
    ) -> Result<Leaving, AllocError>
        ensures { IfOk result (λ l. l ≡ record {
          clauses = clauses.items;
          installed = installed.now;
          waiting = waiting.now;
        }) }
    {
        let list = reliances(alloc, clauses.as_slice(), installed, waiting)?;
        let none = vec![in alloc; false; installed.len()]?;
        let installed = Vec::from_slice(alloc, installed)?;
        let kept = Configuring::of(alloc, list, none.as_slice(), waiting)?;
        Ok(Leaving {
            clauses,
            installed,
            kept,
        })
    }

    pub fn clauses(&self) -> &[Clause]
        ensures { result.now ≡ self.now.clauses }
    {
        self.clauses.as_slice()
    }

    /// What is installed now.
    pub fn supply(&self) -> &[bool]
        ensures { result.now ≡ self.now.installed }
    {
        self.installed.as_slice()
    }

    /// The removable set, as if computed afresh from what is installed and waits now.
    pub fn members(&self) -> &[bool]
        ensures { (x : ℕ) → IsTrue (has result.now x) ↔ IsRemovable self.now.clauses
            (has self.now.installed) (has self.now.waiting) x }
    {
        self.kept.members()
    }

    /// A member was removed. After a removal that failed the set is made anew: what is installed still may meet
    /// clauses, for it waits no longer.
    pub fn removed(&mut self, number: usize)
        requires room { number < length self.old.installed }
        requires member { IsRemovable self.old.clauses (has self.old.installed)
            (has self.old.waiting) number }
        ensures { self.new ≡ has_removed number self.old }
    {
        self.kept.installed(number);
        take_out(&mut self.installed, number);
    }
}
