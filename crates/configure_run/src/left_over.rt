// Packages that still wait when none can be configured.
ghost use Rattle.std.specs.Prelude.{◌≡◌, ℕ, Contains, IfOk, IsTrue, OnErr, OnOk};
ghost use Rattle.dependency_check.specs.Waiting.{IsConfigurableNow};
ghost use Rattle.dependency_sets.specs.Sets.{has};
ghost use Rattle.unit_reports.specs.Watching.{AddsTold};
ghost use Rattle.configure_run.specs.LeftOver.{AddLeftOver, AddSomeLeftOver, AddsLeftOver, HaveRefusedLeft, HaveRefusedSomeLeft, IsWithin, clause_at};

use crate::queue::Queue;
use crate::telling::add_finished;
use dependency_check::{UnmetClause, first_unmet};
use host_core::Host;
use relation_fields::Clause;
use relation_index::Package;
use std::alloc::{AllocError, Global};
use unit_reports::{Rule, Unit, Watcher, refused};

fn clause_at(of: &Package, unmet: UnmetClause) -> Result<Clause, AllocError>
    requires { IsWithin of.now unmet }
    ensures { IfOk result (λ clause. clause ≡ clause_at of.now unmet) }
{
    match unmet {
        UnmetClause::PreDepends(place) => of.pre_depends.clauses()[place].copy(),
        UnmetClause::Depends(place) => of.depends.clauses()[place].copy(),
    }
}

// Refuses one that is left over.
fn refuse_one<H: Host, W: Watcher>(
    alloc: Global,
    host: &H,
    queue: &Queue,
    number: usize,
    units: &mut Vec<Unit>,
    watcher: &mut W,
) -> Result<(), AllocError>
    requires waits { IsTrue (has queue.now.waiting number) }
    requires none_left { (x : ℕ) → IsConfigurableNow queue.now x → ⊥ }
    ensures ok { OnOk result (AddsLeftOver queue.now number units.old.items units.new.items) }
    ensures err { OnErr result (units.new.items ≡ units.old.items) }
    ensures watched { AddsTold W.tells (H.state host.now) units.old.items units.new.items
        watcher.old watcher.new }
{
    queue.law();
    let of = &queue.packages().as_slice()[number];
    let unmet = first_unmet(alloc, queue.packages(), of, queue.supply())?;
    match unmet {
        Some(unmet) => {
            let clause = clause_at(of, unmet)?;
            let package = of.name.copy()?;
            let unit = refused(alloc, Rule::Depends(clause), package);
            add_finished(host, unit, units, watcher)?;
            Ok(())
        }
        None => unreachable!(),
    }
}

fn refuse_numbers<H: Host, W: Watcher>(
    alloc: Global,
    host: &H,
    queue: &Queue,
    numbers: &[usize],
    units: &mut Vec<Unit>,
    watcher: &mut W,
) -> Result<(), AllocError>
    requires wait { (x : ℕ) → Contains numbers.now x → IsTrue (has queue.now.waiting x) }
    requires none_left { (x : ℕ) → IsConfigurableNow queue.now x → ⊥ }
    ensures ok { OnOk result (AddLeftOver queue.now numbers.now units.old.items units.new.items) }
    ensures err { OnErr result (AddSomeLeftOver queue.now numbers.now units.old.items
        units.new.items) }
    ensures watched { AddsTold W.tells (H.state host.now) units.old.items units.new.items
        watcher.old watcher.new }
{
    for number in numbers {
        refuse_one(alloc, host, queue, *number, units, watcher)?;
    }
    Ok(())
}

/// Refuses those that are left over, in name order; where memory is wanting the first of them are.
pub(crate) fn refuse_left<H: Host, W: Watcher>(
    alloc: Global,
    host: &H,
    queue: &Queue,
    units: &mut Vec<Unit>,
    watcher: &mut W,
) -> Result<(), AllocError>
    requires none_left { (x : ℕ) → IsConfigurableNow queue.now x → ⊥ }
    ensures ok { OnOk result (HaveRefusedLeft queue.now units.old.items units.new.items) }
    ensures err { OnErr result (HaveRefusedSomeLeft queue.now units.old.items units.new.items) }
    ensures watched { AddsTold W.tells (H.state host.now) units.old.items units.new.items
        watcher.old watcher.new }
{
    let numbers = queue.left(alloc)?;
    match refuse_numbers(alloc, host, queue, numbers.as_slice(), units, watcher) {
        Ok(()) => Ok(()),
        Err(fault) => Err(fault),
    }
}
