// The queue of packages that wait for their turn.
ghost use Rattle.std.specs.Prelude.{◌≡◌, ◌&&◌, ◌<◌, ℕ, None, IfOk, IfSome, IsTrue, MatchOption, true, false, length, slice_set};
ghost use Rattle.dependency_check.specs.Waiting.{IsConfigurableNow, IsNextOfConfigurable, with_configured};
ghost use Rattle.dependency_sets.specs.Choices.{IsFirst, IsListing};
ghost use Rattle.dependency_sets.specs.Sets.{has};
ghost use Rattle.recorded_packages.specs.Packages.{ArePackagesOf};
ghost use Rattle.dependency_check.specs.Breaking.{AreBreakers};
ghost use Rattle.configure_run.specs.Starting.{AreNamedApart, IsBegun, IsEven};
ghost use Rattle.configure_run.specs.Taking.{left_behind};
ghost use Rattle.configure_run.specs.Turns.{after_turn};
ghost use Rattle.configure_run.specs.Whose.{IsNobodysTurn, IsWhoseTurn};

use crate::starting::{installed_of, waiting_of};
use dependency_check::{ConfigureQueue, breakers_of};
use dependency_sets::{Numbers, first_of_both, has, listed};
use relation_index::Packages;
use status_db::NotedDatabase;
use std::alloc::{AllocError, Global};
use std::marker::Model;
use texts::Text;

/// The queue of the packages, which of them wait, and which state Breaks.
#[derive(Drop)]
pub(crate) struct Queue {
    queue: ConfigureQueue,
    waiting: Vec<bool>,
    breakers: Numbers,
}

impl Model for Queue {
    ghost use Rattle.std.specs.Prelude.{◌≡◌};
    ghost use Rattle.dependency_check.specs.Waiting.{Waiting};
    ghost use Rattle.dependency_check.specs.Breaking.{AreBreakers};
    ghost use Rattle.configure_run.specs.Starting.{AreNamedApart, IsEven};

    ghost Value = { Waiting };

    ghost view = { λ t. t.queue };

    ghost invariant = { λ t. (t.waiting.items ≡ t.queue.waiting) × IsEven t.queue × AreNamedApart t.queue.packages × AreBreakers t.queue.packages t.breakers };
}

// The queue behind a package that was configured out of order: others may be configurable now, so it is made anew.
fn queue_anew(
    alloc: Global,
    queue: ConfigureQueue,
    number: usize,
    waiting: &[bool],
) -> Result<ConfigureQueue, AllocError>
    requires within { number < length queue.installed }
    requires waiting { waiting.now ≡ slice_set queue.waiting number false }
    ensures { IfOk result (λ q. q ≡ with_configured number queue) }
{
    let mut installed = Vec::from_slice(alloc, queue.supply())?;
    installed[number] = true;
    let packages = queue.into_packages();
    let anew = ConfigureQueue::of(alloc, packages, installed.as_slice(), waiting)?;
    Ok(anew)
}

// What is left of the queue; the marks are those of the packages that still wait.
fn queue_after(
    alloc: Global,
    queue: ConfigureQueue,
    number: usize,
    done: bool,
    waiting: &[bool],
) -> Result<ConfigureQueue, AllocError>
    requires within { number < length queue.installed }
    requires waiting { waiting.now ≡ slice_set queue.waiting number false }
    ensures { IfOk result (λ q. q ≡ after_turn done number queue) }
{
    if !done {
        return queue.failed(number);
    }
    if !has(queue.members(), number) {
        return queue_anew(alloc, queue, number, waiting);
    }
    let mut queue = queue;
    queue.installed(number);
    Ok(queue)
}

impl Queue {
    /// The queue of the named packages that can wait.
    pub(crate) fn of(
        alloc: Global,
        database: &NotedDatabase,
        packages: Packages,
        names: &[Text],
    ) -> Result<Queue, AllocError>
        requires { ArePackagesOf database.now.records packages }
        ensures { IfOk result (IsBegun names.now database.now.records) }
    {
        database.law();
        let breakers = breakers_of(alloc, packages.as_slice())?;
        let installed = installed_of(alloc, database.records())?;
        let waiting = waiting_of(alloc, names, database.records())?;
        let queue = ConfigureQueue::of(alloc, packages, installed.as_slice(), waiting.as_slice())?;
        Ok(Queue {
            queue,
            waiting,
            breakers,
        })
    }

    /// What holds of each queue.
    pub(crate) fn law(&self)
        ensures even { IsEven self.now }
        ensures apart { AreNamedApart self.now.packages }
    {
        let _ = &self.queue;
    }

    pub(crate) fn packages(&self) -> &Packages
        ensures { result.now ≡ self.now.packages }
    {
        self.queue.packages()
    }

    /// The packages that state Breaks.
    pub(crate) fn breakers(&self) -> &[usize]
        ensures { AreBreakers self.now.packages result.now }
    {
        let _ = &self.queue;
        self.breakers.as_slice()
    }

    /// The packages again, once no turn is left.
    pub(crate) fn into_packages(self) -> Packages
        ensures { result ≡ self.packages }
    {
        self.queue.into_packages()
    }

    pub(crate) fn supply(&self) -> &[bool]
        ensures { result.now ≡ self.now.installed }
    {
        self.queue.supply()
    }

    // The next in the order that relations ask for.
    fn next_in_order(&self, alloc: Global, silent: &[bool]) -> Result<Option<usize>, AllocError>
        ensures next { IfOk result (IsNextOfConfigurable self.now (has silent.now)) }
        ensures member { IfOk result (λ next. IfSome next (IsConfigurableNow self.now)) }
        ensures none_left { IfOk result (λ next. next ≡ None → (x : ℕ)
            → IsConfigurableNow self.now x → ⊥) }
    {
        let _ = self.queue.members();
        let next = self.queue.next(alloc, silent)?;
        Ok(next)
    }

    // The first that waits.
    fn first_waiting(&self) -> Option<usize>
        ensures { MatchOption result ((x : ℕ) → IsTrue (has self.now.waiting x)
            → ⊥) (IsFirst (λ x. IsTrue (has self.now.waiting x))) }
    {
        let waiting = self.waiting.as_slice();
        first_of_both(waiting, waiting)
    }

    /// Whose turn it is; `silent` are the packages without postinst. Where Depends and Pre-Depends are ignored none is left over.
    pub(crate) fn next(
        &self,
        alloc: Global,
        silent: &[bool],
        ignore_depends: bool,
    ) -> Result<Option<usize>, AllocError>
        ensures next { IfOk result (λ next. MatchOption next (IsNobodysTurn ignore_depends
            (has silent.now) self.now) (IsWhoseTurn ignore_depends (has silent.now) self.now)) }
        ensures waits { IfOk result (λ next. IfSome next (λ x. IsTrue (has self.now.waiting x))) }
        ensures none_left { IfOk result (λ next. next ≡ None → (x : ℕ)
            → IsConfigurableNow self.now x → ⊥) }
    {
        match self.next_in_order(alloc, silent)? {
            Some(number) => Ok(Some(number)),
            None => {
                if ignore_depends {
                    return Ok(self.first_waiting());
                }
                Ok(None)
            }
        }
    }

    /// The packages that still wait.
    pub(crate) fn left(&self, alloc: Global) -> Result<Numbers, AllocError>
        ensures { IfOk result (IsListing (λ x. IsTrue (has self.now.waiting x))) }
    {
        let left = listed(alloc, self.waiting.as_slice())?;
        Ok(left)
    }

    /// The queue behind the turn of a package, which was configured or wasn't. Where memory is wanting it is gone.
    fn after(self, alloc: Global, number: usize, done: bool) -> Result<Queue, AllocError>
        requires waits { IsTrue (has self.waiting number) }
        ensures { IfOk result (λ t. t ≡ after_turn done number self) }
    {
        let Queue {
            queue,
            mut waiting,
            breakers,
        } = self;
        waiting[number] = false;
        let left = queue_after(alloc, queue, number, done, waiting.as_slice())?;
        Ok(Queue {
            queue: left,
            waiting,
            breakers,
        })
    }

    /// The same, where a turn was taken.
    pub(crate) fn behind(
        self,
        alloc: Global,
        taken: Option<(usize, bool)>,
    ) -> Result<Queue, AllocError>
        requires waits { IfSome taken (λ n. IsTrue (has self.waiting n.0)) }
        ensures { IfOk result (λ q. q ≡ left_behind self taken) }
    {
        match taken {
            Some(turn) => self.after(alloc, turn.0, turn.1),
            None => Ok(self),
        }
    }
}
