// What the packages that a command touched hit.
ghost use Rattle.std.specs.Prelude.{◌≡◌, ◌++◌, IfOk, OnOk, find, option_copied};
ghost use Rattle.std.specs.Str.{bytes_eq};
ghost use Rattle.host_core.specs.Host.{Counts, Leaves, Reads, Silent};
ghost use Rattle.host_core.specs.Looks.{Looks};
ghost use Rattle.trigger_watch.specs.Touches.{hits_at, names_at, names_before, touching_hits};

use crate::hits::{Hits, counted_paths, names_hit};
use file_lists::FileLists;
use host_core::{Host, HostFault};
use std::alloc::{AllocError, Global};
use texts::Text;
use trigger_interests::{Interest, read_activations};

/// A package that a unit of a command told, and whether its files changed in it: where they were
/// unpacked or taken away, and not where the package was configured.
#[derive(Drop)]
pub struct Touch {
    pub package: Text,
    pub files: bool,
}

// The hits of a package, if there are some.
fn hits_before<'a>(before: &'a [Hits], package: &Text) -> Option<&'a Hits>
    ensures { option_copied result ≡ find (λ hits. bytes_eq hits.«package» «package».now)
        before.now }
{
    before
        .iter()
        .find(|hits| hits.package.as_str() == package.as_str())
}

fn names_before<'a>(before: &'a [Hits], package: &Text) -> &'a [Text]
    ensures { result.now ≡ names_before before.now «package».now }
{
    match hits_before(before, package) {
        Some(hits) => hits.names.as_slice(),
        None => &[],
    }
}

fn add_names(more: &[Text], names: &mut Vec<Text>) -> Result<(), AllocError>
    ensures { OnOk result (names.new.items ≡ names.old.items ++ more.now) }
{
    for name in more {
        names.push(name.copy()?)?;
    }
    Ok(())
}

// What a touched package activates without its paths.
fn names_at<H: Host>(
    alloc: Global,
    host: &mut H,
    before: &[Hits],
    touch: &Touch,
) -> Result<Vec<Text>, HostFault>
    ensures looks { Looks result (λ names w. names.items ≡ names_at w before.now touch.now)
        (H.state host.old) (H.state host.new) }
{
    let mut names = read_activations(alloc, host, &touch.package)?;
    if touch.files {
        add_names(names_before(before, &touch.package), &mut names)?;
    }
    Ok(names)
}

// What a touched package hits.
fn hits_at<H: Host>(
    alloc: Global,
    host: &mut H,
    lists: &FileLists,
    by_files: bool,
    before: &[Hits],
    interests: &[Interest],
    touch: &Touch,
) -> Result<Hits, HostFault>
    ensures looks { Looks result
        (λ hits w. hits ≡ hits_at w lists.now.lists by_files before.now interests.now touch.now)
        (H.state host.old) (H.state host.new) }
{
    let names = names_at(alloc, host, before, touch)?;
    let paths = counted_paths(lists, by_files && touch.files, &touch.package);
    Ok(Hits {
        package: touch.package.copy()?,
        names: names_hit(alloc, interests, paths, names.as_slice())?,
    })
}

// Adds what each hits.
fn add_touching_hits<H: Host>(
    alloc: Global,
    host: &mut H,
    lists: &FileLists,
    by_files: bool,
    before: &[Hits],
    interests: &[Interest],
    touches: &[Touch],
    found: &mut Vec<Hits>,
) -> Result<(), HostFault>
    ensures added { Leaves result (λ w _. found.new.items ≡ found.old.items
        ++ touching_hits w lists.now.lists by_files before.now interests.now touches.now)
        (H.state host.old) (H.state host.new) }
    ensures reads { Reads (H.state host.old) (H.state host.new) }
    ensures silent { Silent (H.state host.old) (H.state host.new) }
    ensures counts { Counts (H.state host.old) (H.state host.new) result }
{
    for touch in touches {
        let hits = hits_at(alloc, host, lists, by_files, before, interests, touch)?;
        found.push(hits)?;
    }
    Ok(())
}

/// What touched packages hit, in the order of the units.
pub(crate) fn read_touching_hits<H: Host>(
    alloc: Global,
    host: &mut H,
    lists: &FileLists,
    by_files: bool,
    before: &[Hits],
    interests: &[Interest],
    touches: &[Touch],
) -> Result<Vec<Hits>, HostFault>
    ensures looks { Looks result
        (λ hits w. hits.items
        ≡ touching_hits w lists.now.lists by_files before.now interests.now touches.now)
        (H.state host.old) (H.state host.new) }
{
    let mut hits = Vec::new(alloc);
    match add_touching_hits(
        alloc, host, lists, by_files, before, interests, touches, &mut hits,
    ) {
        Ok(()) => Ok(hits),
        Err(fault) => Err(fault),
    }
}
