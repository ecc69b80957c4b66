// What a command activates.
ghost use Rattle.std.specs.Prelude.{◌≡◌, ◌++◌, IfOk, OnOk};
ghost use Rattle.host_core.specs.Looks.{Looks};
ghost use Rattle.trigger_watch.specs.Activations.{activated, activations_by, activation, activations_of, is_activated, names_for, packages_of};
ghost use Rattle.trigger_watch.specs.Touches.{touching_hits};

use crate::hits::Hits;
use crate::names::{each_once, is_among, spaced};
use crate::touching::{Touch, read_touching_hits};
use crate::watching::{TriggerWatch, read_installed};
use file_lists::FileLists;
use host_core::{Host, HostFault};
use status_db::NotedDatabase;
use status_records::TriggerNames;
use std::alloc::{AllocError, Global};
use texts::Text;
use trigger_interests::Interest;

/// The triggers of a package that a command has activated.
#[derive(Drop)]
pub struct Activation {
    pub package: Text,
    pub names: TriggerNames,
}

// Whether one was hit since its package was last touched itself.
fn is_activated(hits: &[Hits], interest: &Interest) -> bool
    ensures { result ≡ is_activated hits.now interest.now }
{
    hits.iter()
        .rev()
        .take_while(|h| h.package.as_str() != interest.package.as_str())
        .any(|h| is_among(h.names.as_slice(), &interest.name))
}

// The interests that are activated.
fn activated(
    alloc: Global,
    hits: &[Hits],
    interests: &[Interest],
) -> Result<Vec<Interest>, AllocError>
    ensures { IfOk result (λ found. found.items ≡ activated hits.now interests.now) }
{
    let mut found = Vec::new(alloc);
    for interest in interests {
        if is_activated(hits, interest) {
            found.push(interest.copy()?)?;
        }
    }
    Ok(found)
}

// The packages of interests.
fn packages_of(alloc: Global, interests: &[Interest]) -> Result<Vec<Text>, AllocError>
    ensures { IfOk result (λ packages. packages.items ≡ packages_of interests.now) }
{
    let mut packages = Vec::new(alloc);
    for interest in interests {
        packages.push(interest.package.copy()?)?;
    }
    each_once(alloc, packages)
}

// The names among interests that are of a package.
fn names_for(alloc: Global, interests: &[Interest], package: &Text) -> Result<Vec<Text>, AllocError>
    ensures { IfOk result (λ names. names.items ≡ names_for interests.now «package».now) }
{
    let mut names = Vec::new(alloc);
    for interest in interests {
        if interest.package.as_str() == package.as_str() {
            names.push(interest.name.copy()?)?;
        }
    }
    each_once(alloc, names)
}

// Adds that of a package.
fn add_activation(
    alloc: Global,
    interests: &[Interest],
    package: &Text,
    found: &mut Vec<Activation>,
) -> Result<(), AllocError>
    ensures { OnOk result (found.new.items ≡ found.old.items ++ activation interests.now
        «package».now) }
{
    let names = names_for(alloc, interests, package)?;
    let text = spaced(alloc, names.as_slice())?;
    let Some(names) = TriggerNames::read(alloc, text.as_bytes())? else {
        return Ok(());
    };
    found.push(Activation {
        package: package.copy()?,
        names,
    })?;
    Ok(())
}

/// Those of interests, package after package.
pub fn activations_by(alloc: Global, interests: &[Interest]) -> Result<Vec<Activation>, AllocError>
    ensures { IfOk result (λ found. found.items ≡ activations_by interests.now) }
{
    let packages = packages_of(alloc, interests)?;
    let mut found = Vec::new(alloc);
    for package in &packages {
        add_activation(alloc, interests, package, &mut found)?;
    }
    Ok(found)
}

// The same of the interests that are activated.
fn activations_between(
    alloc: Global,
    hits: &[Hits],
    interests: &[Interest],
) -> Result<Vec<Activation>, AllocError>
    ensures { IfOk result (λ found. found.items
        ≡ activations_by (activated hits.now interests.now)) }
{
    let interests = activated(alloc, hits, interests)?;
    activations_by(alloc, interests.as_slice())
}

// What is activated of these interests.
fn activations_among<H: Host>(
    alloc: Global,
    host: &mut H,
    lists: &FileLists,
    by_files: bool,
    watch: &TriggerWatch,
    interests: &[Interest],
    touches: &[Touch],
) -> Result<Vec<Activation>, HostFault>
    ensures looks { Looks result
        (λ found w. found.items ≡ activations_by (activated
        (touching_hits w lists.now.lists by_files watch.now.before.items interests.now touches.now)
        interests.now)) (H.state host.old) (H.state host.new) }
{
    let hits = read_touching_hits(
        alloc,
        host,
        lists,
        by_files,
        watch.before.as_slice(),
        interests,
        touches,
    )?;
    Ok(activations_between(alloc, hits.as_slice(), interests)?)
}

/// What was activated by units since a watch was taken, of the packages that are installed now: the
/// triggers that a package hit, then or now, which a unit touched behind the last one that touched
/// the interested package itself. No script is called.
pub fn activations<H: Host>(
    alloc: Global,
    host: &mut H,
    database: &NotedDatabase,
    lists: &FileLists,
    by_files: bool,
    watch: &TriggerWatch,
    touches: &[Touch],
) -> Result<Vec<Activation>, HostFault>
    ensures looks { Looks result
        (λ found w. found.items ≡ activations_of w database.now.records lists.now.lists by_files
        watch.now touches.now) (H.state host.old) (H.state host.new) }
{
    let interests = read_installed(alloc, host, database.records())?;
    match activations_among(
        alloc,
        host,
        lists,
        by_files,
        watch,
        interests.as_slice(),
        touches,
    ) {
        Ok(found) => Ok(found),
        Err(fault) => Err(fault),
    }
}
