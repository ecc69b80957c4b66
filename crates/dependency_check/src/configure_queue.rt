// Packages that wait to be configured, while results come in.
ghost use Rattle.std.specs.Prelude.{◌≡◌, ℕ, ◌<◌, length, IfOk, IsTrue, ◌↔◌};
ghost use Rattle.dependency_sets.specs.Sets.{has};
ghost use Rattle.dependency_check.specs.Waiting.{IsConfigurableNow, IsNextOfConfigurable, with_configured, without_failed};

use configure_order::next_to_configure;
use dependency_sets::Configuring;
use relation_index::Packages;
use std::alloc::{AllocError, Global};
use std::marker::Model;

/// Packages that wait to be configured. The set of those that can be is kept from one result to the next.
#[derive(Drop)]
pub struct ConfigureQueue {
    packages: Packages,
    configuring: Configuring,
}

impl Model for ConfigureQueue {
    ghost use Rattle.relation_index.specs.Packages.{AreClauses};
    ghost use Rattle.dependency_check.specs.Waiting.{Waiting};

    ghost Value = { Waiting };

    ghost view = { λ q. record { packages = q.packages; installed = q.configuring.installed; waiting = q.configuring.waiting } };

    ghost invariant = { λ q. AreClauses q.packages q.configuring.clauses };
}

impl ConfigureQueue {
    pub fn of(
        alloc: Global,
        packages: Packages,
        installed: &[bool],
        waiting: &[bool],
    ) -> Result<ConfigureQueue, AllocError>
        ensures { IfOk result (λ q. q ≡ record {
          packages = packages;
          installed = installed.now;
          waiting = waiting.now;
        }) }
    {
        let clauses = packages.clauses(alloc)?;
        let configuring = Configuring::of(alloc, clauses, installed, waiting)?;
        Ok(ConfigureQueue {
            packages,
            configuring,
        })
    }

    pub fn packages(&self) -> &Packages
        ensures { result.now ≡ self.now.packages }
    {
        &self.packages
    }

    /// The packages alone, for what comes after the queue.
    pub fn into_packages(self) -> Packages
        ensures { result ≡ self.packages }
    {
        self.packages
    }

    /// What is installed now.
    pub fn supply(&self) -> &[bool]
        ensures { result.now ≡ self.now.installed }
    {
        self.configuring.supply()
    }

    /// The configurable set.
    pub fn members(&self) -> &[bool]
        ensures { (x : ℕ) → IsTrue (has result.now x) ↔ IsConfigurableNow self.now x }
    {
        self.configuring.members()
    }

    /// The member that is configured next; `silent` are the packages without postinst. None where there is no member.
    pub fn next(&self, alloc: Global, silent: &[bool]) -> Result<Option<usize>, AllocError>
        ensures { IfOk result (IsNextOfConfigurable self.now (has silent.now)) }
    {
        let clauses = self.configuring.clauses();
        let supply = self.configuring.supply();
        let members = self.configuring.members();
        let next = next_to_configure(alloc, clauses, supply, members, silent)?;
        Ok(next)
    }

    /// A member was configured: it is installed and waits no longer.
    pub fn installed(&mut self, number: usize)
        requires room { number < length self.old.installed }
        requires member { IsConfigurableNow self.old number }
        ensures { self.new ≡ with_configured number self.old }
    {
        self.configuring.installed(number);
    }

    /// One that waited was refused or failed: it waits no longer. Where memory is wanting the queue is gone.
    pub fn failed(self, number: usize) -> Result<ConfigureQueue, AllocError>
        ensures { IfOk result (λ q. q ≡ without_failed number self) }
    {
        let ConfigureQueue {
            packages,
            configuring,
        } = self;
        let left = configuring.failed(number)?;
        Ok(ConfigureQueue {
            packages,
            configuring: left,
        })
    }
}
