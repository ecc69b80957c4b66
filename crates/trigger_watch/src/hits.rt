// What packages hit.
ghost use Rattle.std.specs.Prelude.{◌≡◌, ◌++◌, IfOk};
ghost use Rattle.host_core.specs.Host.{Counts, Leaves, Reads, Silent};
ghost use Rattle.host_core.specs.Looks.{Looks};
ghost use Rattle.trigger_watch.specs.Hits.{counted_paths, hits_by, hits_of, names_hit};

use crate::names::is_among;
use file_lists::FileLists;
use host_core::{Host, HostFault, RootPath};
use std::alloc::{AllocError, Global};
use texts::{Text, Texts};
use trigger_interests::{Interest, hits_of as marks_of, read_activations};

/// The triggers that a package hits: of those in which one is interested, in the order of the
/// interests.
#[derive(Drop)]
pub struct Hits {
    pub package: Text,
    pub names: Texts,
}

/// The paths of a package that count.
pub(crate) fn counted_paths<'a>(
    lists: &'a FileLists,
    by_files: bool,
    package: &Text,
) -> &'a [RootPath]
    ensures { result.now ≡ counted_paths lists.now.lists by_files «package».now }
{
    if by_files {
        return lists.list_of(package);
    }
    &[]
}

/// The names that paths hit, or that are activated beside them.
pub(crate) fn names_hit(
    alloc: Global,
    interests: &[Interest],
    paths: &[RootPath],
    activated: &[Text],
) -> Result<Texts, AllocError>
    ensures { IfOk result (λ names. names ≡ names_hit paths.now activated.now interests.now) }
{
    let marks = marks_of(alloc, interests, paths)?;
    let mut names = Texts::new(alloc);
    for i in 0..interests.len() {
        if marks[i] || is_among(activated, &interests[i].name) {
            names.push(interests[i].name.copy()?)?;
        }
    }
    Ok(names)
}

// What a package hits.
fn hits_by<H: Host>(
    alloc: Global,
    host: &mut H,
    lists: &FileLists,
    by_files: bool,
    interests: &[Interest],
    package: &Text,
) -> Result<Hits, HostFault>
    ensures looks { Looks result (λ hits w. hits
        ≡ hits_by w lists.now.lists by_files interests.now «package».now) (H.state host.old)
        (H.state host.new) }
{
    let activated = read_activations(alloc, host, package)?;
    let paths = counted_paths(lists, by_files, package);
    Ok(Hits {
        package: package.copy()?,
        names: names_hit(alloc, interests, paths, activated.as_slice())?,
    })
}

// Adds what each package hits.
fn add_hits<H: Host>(
    alloc: Global,
    host: &mut H,
    lists: &FileLists,
    by_files: bool,
    interests: &[Interest],
    packages: &[Text],
    found: &mut Vec<Hits>,
) -> Result<(), HostFault>
    ensures added { Leaves result (λ w _. found.new.items ≡ found.old.items
        ++ hits_of w lists.now.lists by_files interests.now packages.now) (H.state host.old)
        (H.state host.new) }
    ensures reads { Reads (H.state host.old) (H.state host.new) }
    ensures silent { Silent (H.state host.old) (H.state host.new) }
    ensures counts { Counts (H.state host.old) (H.state host.new) result }
{
    for package in packages {
        let hits = hits_by(alloc, host, lists, by_files, interests, package)?;
        found.push(hits)?;
    }
    Ok(())
}

/// What packages hit, in their order.
pub(crate) fn read_hits<H: Host>(
    alloc: Global,
    host: &mut H,
    lists: &FileLists,
    by_files: bool,
    interests: &[Interest],
    packages: &[Text],
) -> Result<Vec<Hits>, HostFault>
    ensures looks { Looks result (λ hits w. hits.items
        ≡ hits_of w lists.now.lists by_files interests.now packages.now) (H.state host.old)
        (H.state host.new) }
{
    let mut hits = Vec::new(alloc);
    match add_hits(alloc, host, lists, by_files, interests, packages, &mut hits) {
        Ok(()) => Ok(hits),
        Err(fault) => Err(fault),
    }
}
