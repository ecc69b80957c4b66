// The configurable set of a run, kept while its results come in.
ghost use Rattle.std.specs.Prelude.{◌≡◌, ℕ, ◌<◌, length, slice_set, true, false, IfOk, IsTrue, ◌↔◌};
ghost use Rattle.dependency_sets.specs.Kept.{has_configured, waits_no_longer};
ghost use Rattle.dependency_sets.specs.Sets.{has, IsConfigurable};

use crate::clause::Clause;
use crate::meets::clauses_met;
use crate::numbers::Numbers;
use crate::striking::{Striking, settle};
use std::alloc::{AllocError, Global};
use std::marker::Model;

/// What is installed, what waits, and which of these can be configured.
#[derive(Drop)]
pub struct Configuring {
    clauses: Vec<Clause>,
    supply: Vec<bool>,
    waiting: Vec<bool>,
    striking: Striking,
    rows: Vec<Numbers>,
}

impl Model for Configuring {
    ghost use Rattle.dependency_sets.specs.Kept.{Queue, IsKept};
    ghost use Rattle.dependency_sets.specs.Sets.{has};

    ghost Value = { Queue };

    ghost view = { λ c. record { clauses = c.clauses.items; installed = c.supply.items; waiting = c.waiting.items } };

    ghost invariant = { λ c. IsKept c.clauses.items (has c.supply.items) (has c.waiting.items) c.striking.members.items c.striking.pending.items c.striking.gone.items c.rows.items };
}

pub(crate) fn take_out(set: &mut Vec<bool>, number: usize)
    ensures { set.new.items ≡ slice_set set.old.items number false }
{
    if number < set.len() {
        set[number] = false;
    }
}

impl Configuring {
    pub fn of(
        alloc: Global,
        clauses: Vec<Clause>,
        supply: &[bool],
        waiting: &[bool],
    ) -> Result<Configuring, AllocError>
        ensures { IfOk result (λ c. c ≡ record {
          clauses = clauses.items;
          installed = supply.now;
          waiting = waiting.now;
        }) }
    {
        let list = clauses.as_slice();
        let rows = clauses_met(alloc, list, waiting.len())?;
        let supply_kept = Vec::from_slice(alloc, supply)?;
        let waiting_kept = Vec::from_slice(alloc, waiting)?;
        let mut striking = Striking::new(alloc, list, waiting)?;
        striking.look_at_all(list, supply)?;
        settle(&mut striking, list, supply, rows.as_slice())?;
        Ok(Configuring {
            clauses,
            supply: supply_kept,
            waiting: waiting_kept,
            striking,
            rows,
        })
    }

    pub fn clauses(&self) -> &[Clause]
        ensures { result.now ≡ self.now.clauses }
    {
        self.clauses.as_slice()
    }

    /// What is installed now.
    pub fn supply(&self) -> &[bool]
        ensures { result.now ≡ self.now.installed }
    {
        self.supply.as_slice()
    }

    /// The configurable set, as if computed afresh from what is installed and waits now.
    pub fn members(&self) -> &[bool]
        ensures { (x : ℕ) → IsTrue (has result.now x) ↔ IsConfigurable self.now.clauses
            (has self.now.installed) (has self.now.waiting) x }
    {
        self.striking.members.as_slice()
    }

    /// A member was configured: it is installed and waits no longer.
    pub fn installed(&mut self, number: usize)
        requires room { number < length self.old.installed }
        requires member { IsConfigurable self.old.clauses (has self.old.installed)
            (has self.old.waiting) number }
        ensures { self.new ≡ has_configured number self.old }
    {
        self.supply[number] = true;
        take_out(&mut self.waiting, number);
        take_out(&mut self.striking.members, number);
    }

    /// One that waited was refused or failed: it waits no longer. Where memory is wanting the queue is gone.
    pub fn failed(self, number: usize) -> Result<Configuring, AllocError>
        ensures { IfOk result (λ c. c ≡ waits_no_longer number self) }
    {
        let Configuring {
            clauses,
            supply,
            mut waiting,
            mut striking,
            rows,
        } = self;
        take_out(&mut waiting, number);
        striking.strike(number)?;
        let list = clauses.as_slice();
        settle(&mut striking, list, supply.as_slice(), rows.as_slice())?;
        Ok(Configuring {
            clauses,
            supply,
            waiting,
            striking,
            rows,
        })
    }
}
