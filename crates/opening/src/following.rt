// The aliases of a root whose administration was read: links to directories, above all paths that are listed, that are diverted,
// or that lie where roots have links.
ghost use Rattle.std.specs.Prelude.{◌≡◌, ◌++◌, [], IfOk, IsTrue, OnOk, false, map, true};
ghost use Rattle.std.specs.List.{AllByRecursion};
ghost use Rattle.administration.specs.Fault.{CountsAdministration};
ghost use Rattle.aliases.specs.Reading.{AreAliasesIn};
ghost use Rattle.file_lists.specs.Followed.{AreWhole, HasMoreAliases, diverted_paths};
ghost use Rattle.host_core.specs.Host.{AtEachMoment, Counts, Gives, Leaves, Needs, Reads, Silent};
ghost use Rattle.host_core.specs.Paths.{is_path};
ghost use Rattle.opening.specs.Followed.{IsFollowed, named_paths, usual_paths};
ghost use Rattle.opening.specs.Leaving.{IsOpeningOrMerging};
ghost use Rattle.opening.specs.Opened.{IsOpened};
ghost use Rattle.opening.specs.Parts.{IsDamaged, OpensAndMerges, fault_in};
ghost use Rattle.opening.specs.Stopped.{AfterAStop, IsBrought};

use crate::open::{Opened, open_administration};
use administration::AdministrationFault;
use diversions::Diversions;
use file_lists::{FileLists, add_diverted, read_above_each};
use host_core::{Host, HostFault, RootPath};
use std::alloc::{AllocError, Global};

// A path in each of the directories that roots have as links.
const USUAL: [&str; 9] = [
    "/bin/x",
    "/sbin/x",
    "/lib/x",
    "/lib32/x",
    "/lib64/x",
    "/libx32/x",
    "/usr/bin/x",
    "/usr/sbin/x",
    "/usr/lib/x",
];

fn paths_of(alloc: Global, texts: &[&str]) -> Result<Vec<RootPath>, AllocError>
    requires { AllByRecursion (λ text. is_path text.now ≡ true) texts.now }
    ensures { IfOk result (λ paths. paths.items ≡ map (λ text. text.now) texts.now) }
{
    let mut paths = Vec::new(alloc);
    for text in texts {
        paths.push(RootPath::from_str(alloc, text)?)?;
    }
    Ok(paths)
}

fn usual_paths(alloc: Global) -> Result<Vec<RootPath>, AllocError>
    ensures { IfOk result (λ paths. paths.items ≡ usual_paths) }
{
    paths_of(alloc, &USUAL)
}

fn named_paths(alloc: Global, diversions: &Diversions) -> Result<Vec<RootPath>, AllocError>
    ensures { IfOk result (λ paths. paths.items ≡ named_paths diversions.now.ways.entries) }
{
    let mut paths = usual_paths(alloc)?;
    add_diverted(&mut paths, diversions)?;
    Ok(paths)
}

// Reads those above the usual paths, and above the paths of diversions.
fn read_named<H: Host>(
    alloc: Global,
    host: &mut H,
    diversions: &mut Diversions,
) -> Result<(), HostFault>
    ensures grows { HasMoreAliases (H.state host.new).honest (H.state host.old).world diversions.old
        diversions.new }
    ensures whole { Leaves result
        (λ w _. AreAliasesIn w diversions.old.ways.aliases
        → AreWhole w (named_paths diversions.new.ways.entries) diversions.new.ways.aliases)
        (H.state host.old) (H.state host.new) }
    ensures reads { Reads (H.state host.old) (H.state host.new) }
    ensures silent { Silent (H.state host.old) (H.state host.new) }
    ensures counts { Counts (H.state host.old) (H.state host.new) result }
{
    let paths = named_paths(alloc, diversions)?;
    read_above_each(alloc, host, paths.as_slice(), diversions)
}

// Reads the aliases of the root, above the usual paths and those of diversions, and then above all
// listed paths.
fn read_aliases<H: Host>(
    alloc: Global,
    host: &mut H,
    lists: &FileLists,
    diversions: &mut Diversions,
) -> Result<(), HostFault>
    ensures grows { HasMoreAliases (H.state host.new).honest (H.state host.old).world diversions.old
        diversions.new }
    ensures followed { Leaves result
        (λ w _. AreAliasesIn w diversions.old.ways.aliases
        → IsFollowed lists.now.lists diversions.new.ways w)
        (H.state host.old) (H.state host.new) }
    ensures reads { Reads (H.state host.old) (H.state host.new) }
    ensures silent { Silent (H.state host.old) (H.state host.new) }
    ensures counts { Counts (H.state host.old) (H.state host.new) result }
{
    match read_named(alloc, host, diversions) {
        Ok(()) => lists.read_aliases(host, diversions),
        Err(fault) => Err(fault),
    }
}

/// Reads the aliases of the root of an administration that was read.
pub fn follow<H: Host>(
    alloc: Global,
    host: &mut H,
    opened: Opened,
) -> Result<Opened, AdministrationFault>
    requires bare { opened.diversions.ways.aliases ≡ [] }
    ensures database { IfOk result (λ kept. kept.database ≡ opened.database) }
    ensures lists { IfOk result (λ kept. kept.lists ≡ opened.lists) }
    ensures entries { IfOk result
        (λ kept. kept.diversions.ways.entries ≡ opened.diversions.ways.entries) }
    ensures writable { IfOk result (λ kept. kept.diversions.closed ≡ opened.diversions.closed) }
    ensures followed { IfOk result
        (λ kept. Needs (H.state host.new) (IsFollowed kept.lists.lists kept.diversions.ways)) }
    ensures sound { IsDamaged (fault_in result) → ⊥ }
    ensures reads { Reads (H.state host.old) (H.state host.new) }
    ensures silent { Silent (H.state host.old) (H.state host.new) }
    ensures counts { CountsAdministration (H.state host.old) (H.state host.new) result }
{
    let Opened {
        database,
        lists,
        mut diversions,
    } = opened;
    match read_aliases(alloc, host, &lists, &mut diversions) {
        Ok(()) => Ok(Opened {
            database,
            lists,
            diversions,
        }),
        Err(fault) => Err(AdministrationFault::from(fault)),
    }
}

/// Opens the administration, as `open_administration` does, and then reads the aliases of its root.
pub fn open_followed<H: Host>(alloc: Global, host: &mut H) -> Result<Opened, AdministrationFault>
    ensures opens { IsTrue (H.state host.new).honest
        → OpensAndMerges (fault_in result) (H.state host.old).world (H.state host.new).world }
    ensures opened { Gives result
        (λ opened old new. IsOpened opened.database.records opened.lists.lists
        opened.diversions.ways.entries new)
        (H.state host.old) (H.state host.new) }
    ensures followed { IfOk result
        (λ opened. Needs (H.state host.new)
        (IsFollowed opened.lists.lists opened.diversions.ways)) }
    ensures number { IfOk result (λ opened. opened.database.notes ≡ 0) }
    ensures open { IfOk result (λ opened. opened.database.closed ≡ false) }
    ensures listing { IfOk result (λ opened. opened.lists.closed ≡ false) }
    ensures writable { IfOk result (λ opened. opened.diversions.closed ≡ false) }
    ensures any_moment { AtEachMoment IsOpeningOrMerging (H.state host.old) (H.state host.new) }
    ensures silent { Silent (H.state host.old) (H.state host.new) }
    ensures counts { CountsAdministration (H.state host.old) (H.state host.new) result }
    ensures brought { AfterAStop (IsBrought result) (H.state host.old) (H.state host.new) }
{
    match open_administration(alloc, host) {
        Ok(opened) => follow(alloc, host, opened),
        Err(fault) => Err(fault),
    }
}
