// Packages that wait to be removed, while results come in.
ghost use Rattle.std.specs.Prelude.{◌≡◌, ℕ, ◌<◌, length, IfOk, IsTrue, ◌↔◌};
ghost use Rattle.dependency_sets.specs.Sets.{has};
ghost use Rattle.dependency_check.specs.Waiting.{IsRemovableNow, IsNextOfRemovable, with_removed};

use dependency_sets::{Leaving, next_to_remove};
use relation_index::Packages;
use std::alloc::{AllocError, Global};
use std::marker::Model;

/// Packages that wait to be removed. The set of those that can be is kept while removals succeed; after one that
/// failed the queue is made anew.
#[derive(Drop)]
pub struct RemoveQueue {
    packages: Packages,
    leaving: Leaving,
}

impl Model for RemoveQueue {
    ghost use Rattle.relation_index.specs.Packages.{AreClauses};
    ghost use Rattle.dependency_check.specs.Waiting.{Waiting};

    ghost Value = { Waiting };

    ghost view = { λ q. record { packages = q.packages; installed = q.leaving.installed; waiting = q.leaving.waiting } };

    ghost invariant = { λ q. AreClauses q.packages q.leaving.clauses };
}

impl RemoveQueue {
    pub fn of(
        alloc: Global,
        packages: Packages,
        installed: &[bool],
        waiting: &[bool],
    ) -> Result<RemoveQueue, AllocError>
        ensures { IfOk result (λ q. q ≡ record {
          packages = packages;
          installed = installed.now;
          waiting = waiting.now;
        }) }
    {
        let clauses = packages.clauses(alloc)?;
        let leaving = Leaving::of(alloc, clauses, installed, waiting)?;
        Ok(RemoveQueue { packages, leaving })
    }

    pub fn packages(&self) -> &Packages
        ensures { result.now ≡ self.now.packages }
    {
        &self.packages
    }

    /// The packages alone, for what comes after the queue.
    pub fn into_packages(self) -> Packages
        ensures { result ≡ self.packages }
    {
        self.packages
    }

    /// What is installed now.
    pub fn supply(&self) -> &[bool]
        ensures { result.now ≡ self.now.installed }
    {
        self.leaving.supply()
    }

    /// The removable set.
    pub fn members(&self) -> &[bool]
        ensures { (x : ℕ) → IsTrue (has result.now x) ↔ IsRemovableNow self.now x }
    {
        self.leaving.members()
    }

    /// The member that is removed next. None where there is no member.
    pub fn next(&self, alloc: Global) -> Result<Option<usize>, AllocError>
        ensures { IfOk result (IsNextOfRemovable self.now) }
    {
        let clauses = self.leaving.clauses();
        let supply = self.leaving.supply();
        let members = self.leaving.members();
        let next = next_to_remove(alloc, clauses, supply, members)?;
        Ok(next)
    }

    /// A member was removed.
    pub fn removed(&mut self, number: usize)
        requires room { number < length self.old.installed }
        requires member { IsRemovableNow self.old number }
        ensures { self.new ≡ with_removed number self.old }
    {
        self.leaving.removed(number);
    }
}
