// The packages that wait to be removed, and the next of them.
ghost use Rattle.std.specs.Prelude.{◌≡◌, ◌<◌, ℕ, List, false, true, IfOk, IsTrue, MatchOption, length, map};
ghost use Rattle.std.specs.BTreeSet.{contains_text};
ghost use Rattle.dependency_check.specs.Waiting.{IsRemovableNow};
ghost use Rattle.dependency_sets.specs.Choices.{IsFirst};
ghost use Rattle.dependency_sets.specs.Sets.{has};
ghost use Rattle.relation_index.specs.Packages.{AreInNameOrder};
ghost use Rattle.name_sets.specs.Names.{without};
ghost use Rattle.removal_run.specs.Next.{IsNext};
ghost use Rattle.removal_run.specs.Taking.{IsQueueTo};
ghost use Rattle.removal_run.specs.Units.{AreOthersKept};
ghost use Rattle.removal_run.specs.Waiting.{IsEven, IsQueueNow, is_installed_in, is_installed_now, is_named, name_at};
ghost use Rattle.removal_run.specs.Whose.{IsNobodysTurn, IsWhoseTurn};
ghost use Rattle.status_records.specs.declared.record.Record.{Record as ARecord};

use dependency_check::RemoveQueue;
use dependency_sets::{first_of_both, has};
use name_sets::set_of;
use relation_index::{Package, Packages};
use status_db::NotedDatabase;
use std::alloc::{AllocError, Global};
use std::collections::BTreeSet;
use texts::Text;

fn is_in(names: &BTreeSet<String>, of: &Package) -> bool
    ensures { result ≡ contains_text names.now of.now.name }
{
    names.contains(of.name.as_str())
}

/// Which packages have one of these names.
pub(crate) fn marks_of(
    alloc: Global,
    waiting: &[Text],
    packages: &[Package],
) -> Result<Vec<bool>, AllocError>
    ensures { IfOk result (λ marks. marks.items ≡ map (is_named waiting.now) packages.now) }
{
    let names = set_of(alloc, waiting)?;
    let mut marks = Vec::new(alloc);
    for package in packages {
        marks.push(is_in(&names, package))?;
    }
    Ok(marks)
}

fn is_installed_in(database: &NotedDatabase, name: &Text) -> bool
    ensures { result ≡ is_installed_in database.now.records name.now }
{
    match database.get(name) {
        Some(entry) => entry.state.is_installed(),
        None => false,
    }
}

fn installed_of(
    alloc: Global,
    database: &NotedDatabase,
    packages: &[Package],
) -> Result<Vec<bool>, AllocError>
    ensures { IfOk result (λ marks. marks.items ≡ map (is_installed_now database.now.records)
        packages.now) }
{
    let mut marks = Vec::new(alloc);
    for package in packages {
        marks.push(is_installed_in(database, &package.name))?;
    }
    Ok(marks)
}

/// The queue of these packages at this moment, with what they stated when the command began.
pub(crate) fn queue_of(
    alloc: Global,
    packages: Packages,
    database: &NotedDatabase,
    waiting: &[Text],
) -> Result<RemoveQueue, AllocError>
    ensures { IfOk result (IsQueueNow packages database.now.records waiting.now) }
{
    let installed = installed_of(alloc, database, packages.as_slice())?;
    let marks = marks_of(alloc, waiting, packages.as_slice())?;
    let queue = RemoveQueue::of(alloc, packages, installed.as_slice(), marks.as_slice())?;
    Ok(queue)
}

// Whether the queue goes on behind the removal of a package: it isn't installed any more, and could be removed. A package that stays
// installed meets clauses as it did before it waited, and behind one that was removed out of order others can be.
fn goes_on(queue: &RemoveQueue, number: usize, database: &NotedDatabase) -> bool
    requires even { IsEven queue.now }
    requires waits { IsTrue (has queue.now.waiting number) }
    ensures gone { result ≡ true → is_installed_in database.now.records
        (name_at queue.now.packages number) ≡ false }
    ensures member { result ≡ true → IsRemovableNow queue.now number }
    ensures ordered { AreInNameOrder queue.now.packages }
{
    let package = &queue.packages().as_slice()[number];
    !is_installed_in(database, &package.name) && has(queue.members(), number)
}

// The queue behind the removal of a package, whatever its end: it goes on or is made anew.
fn queue_behind(
    alloc: Global,
    queue: RemoveQueue,
    number: usize,
    database: &NotedDatabase,
    waiting: &[Text],
) -> Result<RemoveQueue, AllocError>
    requires even { IsEven queue }
    requires waits { IsTrue (has queue.waiting number) }
    ensures { IfOk result (λ later. (before : List ARecord) (names : List (List ℕ))
        → IsQueueNow queue.packages before names queue
        → AreOthersKept (name_at queue.packages number) before database.now.records
        → waiting.now ≡ without (name_at queue.packages number) names
        → IsQueueNow queue.packages database.now.records waiting.now later) }
{
    let mut queue = queue;
    if goes_on(&queue, number, database) {
        queue.removed(number);
        return Ok(queue);
    }
    let again = queue_of(alloc, queue.into_packages(), database, waiting)?;
    Ok(again)
}

/// The queue of this moment: that of before, where no package was removed since.
pub(crate) fn queue_now(
    alloc: Global,
    queue: RemoveQueue,
    removed: Option<usize>,
    database: &NotedDatabase,
    waiting: &[Text],
) -> Result<RemoveQueue, AllocError>
    requires { IsQueueTo queue.packages database.now.records waiting.now queue removed }
    ensures { IfOk result (IsQueueNow queue.packages database.now.records waiting.now) }
{
    match removed {
        Some(number) => queue_behind(alloc, queue, number, database, waiting),
        None => Ok(queue),
    }
}

/// The package that is removed next.
#[derive(Drop)]
pub(crate) struct Next {
    pub(crate) number: usize,
    pub(crate) name: Text,
}

/// The name of the package of this number.
pub(crate) fn name_of(packages: &Packages, number: usize) -> Result<Text, AllocError>
    requires { number < length packages.now }
    ensures { IfOk result (λ name. name ≡ name_at packages.now number) }
{
    packages.as_slice()[number].name.copy()
}

// The first of those that wait.
fn first_waiting(
    alloc: Global,
    queue: &RemoveQueue,
    waiting: &[Text],
) -> Result<Option<usize>, AllocError>
    requires { queue.now.waiting ≡ map (is_named waiting.now) queue.now.packages }
    ensures { IfOk result (λ first. MatchOption first ((x : ℕ) → IsTrue (has queue.now.waiting x)
        → ⊥) (IsFirst (λ x. IsTrue (has queue.now.waiting x)))) }
{
    let marks = marks_of(alloc, waiting, queue.packages().as_slice())?;
    Ok(first_of_both(marks.as_slice(), marks.as_slice()))
}

// Whose turn it is. Where it is ignored that others depend on them none is left over.
fn number_of_next(
    alloc: Global,
    queue: &RemoveQueue,
    waiting: &[Text],
    ignore_depends: bool,
) -> Result<Option<usize>, AllocError>
    requires { queue.now.waiting ≡ map (is_named waiting.now) queue.now.packages }
    ensures { IfOk result (λ next. MatchOption next (IsNobodysTurn ignore_depends queue.now)
        (IsWhoseTurn ignore_depends queue.now)) }
{
    let _members = queue.members();
    match queue.next(alloc)? {
        Some(number) => Ok(Some(number)),
        None => {
            if ignore_depends {
                let first = first_waiting(alloc, queue, waiting)?;
                return Ok(first);
            }
            Ok(None)
        }
    }
}

/// What is next. None where none of those that wait can be removed.
pub(crate) fn next_of(
    alloc: Global,
    queue: &RemoveQueue,
    waiting: &[Text],
    ignore_depends: bool,
) -> Result<Option<Next>, AllocError>
    requires even { IsEven queue.now }
    requires waiting { queue.now.waiting ≡ map (is_named waiting.now) queue.now.packages }
    ensures { IfOk result (IsNext ignore_depends queue.now) }
{
    match number_of_next(alloc, queue, waiting, ignore_depends)? {
        Some(number) => {
            let name = name_of(queue.packages(), number)?;
            Ok(Some(Next { number, name }))
        }
        None => Ok(None),
    }
}
