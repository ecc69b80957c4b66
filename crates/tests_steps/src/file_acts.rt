// What is done with the files of a package: they are written, put back, or taken away.
ghost use Rattle.std.specs.Prelude.{◌≡◌, IfNone, IfOk, true};
ghost use Rattle.host_core.specs.Host.{Gives};
ghost use Rattle.host_core.specs.World.{is_file};
ghost use Rattle.file_check.specs.Ready.{IsFitting};
ghost use Rattle.file_check.specs.Rearranged.{IsRearranged};
ghost use Rattle.package_files.specs.Files.{Each};
ghost use Rattle.package_files.specs.Free.{IsWrittenFrom};
ghost use Rattle.package_files.specs.Names.{AllInOrder, IsNamed};
ghost use Rattle.host_memory.specs.Memory.{memory_state};

use crate::breaking::{Break, plan};
use crate::root::{directory, file, link, path_of, ship_path};
use crate::unpacking::unpack_files;
use diversions::Diversions;
use file_check::{check, shipped_work};
use file_lists::FileLists;
use file_removal::{Leaving, clear_names, remove_directories, remove_owned, retire_names};
use host_core::{HostFault, Node, RootPath, ShipPath};
use host_memory::MemoryHost;
use package_files::{Work, put_back_files};
use std::alloc::{AllocError, Global};
use texts::Text;
use undo_rows::StepFault;

// What a package ships at a path.
#[derive(Clone, Copy)]
pub(crate) enum Ships {
    Directory,
    File(&'static str),
    Conffile(&'static str),
    Link(&'static str),
}

// A package with what it ships in path order, the packages that have lists, and those with which no path clashes.
pub(crate) struct Package {
    pub(crate) name: &'static str,
    pub(crate) ships: &'static [(&'static str, Ships)],
    pub(crate) listing: &'static [&'static str],
    pub(crate) yields: &'static [&'static str],
}

// Listed paths in path order, each with whether it may go, and names that are cleared.
pub(crate) struct Removal {
    pub(crate) paths: &'static [(&'static str, bool)],
    pub(crate) names: &'static [&'static str],
}

// What is done: files are written, or written whole and then put back; paths go, and then names; names, and then
// directories; or old paths, and then backups.
pub(crate) enum Act {
    Write(&'static Package),
    PutBack(&'static Package),
    Remove(&'static Removal),
    Purge(&'static Removal),
    Commit(&'static Removal),
}

#[derive(Drop)]
pub(crate) struct Administration {
    pub(crate) lists: FileLists,
    pub(crate) diversions: Diversions,
}

fn names_of(alloc: Global, names: &[&'static str]) -> Result<Vec<Text>, AllocError> {
    let mut texts = Vec::new(alloc);
    for name in names {
        texts.push(Text::from_str(alloc, name)?)?;
    }
    Ok(texts)
}

fn open_lists(
    alloc: Global,
    host: &mut MemoryHost,
    names: &[&'static str],
) -> Result<FileLists, AllocError> {
    let names = names_of(alloc, names)?;
    match FileLists::open(alloc, host, names.as_slice()) {
        Ok(lists) => Ok(lists),
        Err(_) => Err(AllocError),
    }
}

fn open_diversions(alloc: Global, host: &mut MemoryHost) -> Result<Diversions, AllocError> {
    match Diversions::open(alloc, host) {
        Ok(diversions) => Ok(diversions),
        Err(_) => Err(AllocError),
    }
}

pub(crate) fn open(
    alloc: Global,
    host: &mut MemoryHost,
    package: &Package,
) -> Result<Administration, AllocError> {
    Ok(Administration {
        lists: open_lists(alloc, host, package.listing)?,
        diversions: open_diversions(alloc, host)?,
    })
}

fn plain_work(
    name: &Text,
    diversions: &Diversions,
    path: &ShipPath,
    node: Node,
) -> Result<Work, AllocError>
    ensures named { IfOk result IsNamed }
    ensures fitting { IfOk result IsFitting }
{
    shipped_work(name, diversions, path, node, false)
}

fn conffile_work(
    name: &Text,
    diversions: &Diversions,
    path: &ShipPath,
    node: Node,
) -> Result<Work, AllocError>
    requires { is_file node ≡ true }
    ensures named { IfOk result IsNamed }
    ensures fitting { IfOk result IsFitting }
{
    shipped_work(name, diversions, path, node, true)
}

fn work_of(
    alloc: Global,
    name: &Text,
    diversions: &Diversions,
    path: &ShipPath,
    ships: Ships,
) -> Result<Work, AllocError>
    ensures named { IfOk result IsNamed }
    ensures fitting { IfOk result IsFitting }
{
    match ships {
        Ships::Directory => plain_work(name, diversions, path, directory()),
        Ships::File(text) => plain_work(name, diversions, path, file(alloc, text)?),
        Ships::Conffile(text) => conffile_work(name, diversions, path, file(alloc, text)?),
        Ships::Link(target) => plain_work(name, diversions, path, link(alloc, target)?),
    }
}

// The works of what a package ships.
pub(crate) fn works_of(
    alloc: Global,
    diversions: &Diversions,
    package: &Package,
) -> Result<Vec<Work>, AllocError>
    ensures named { IfOk result (λ works. Each IsNamed works.items) }
    ensures fitting { IfOk result (λ works. Each IsFitting works.items) }
{
    let name = Text::from_str(alloc, package.name)?;
    let mut works = Vec::new(alloc);
    for (path, ships) in package.ships {
        let path = ship_path(alloc, path)?;
        works.push(work_of(alloc, &name, diversions, &path, *ships)?)?;
    }
    Ok(works)
}

// The first step fault of a package's files, which are only looked at.
pub(crate) fn look(
    alloc: Global,
    host: &mut MemoryHost,
    package: &Package,
) -> Result<Option<StepFault>, HostFault> {
    let administration = open(alloc, host, package)?;
    let mut works = works_of(alloc, &administration.diversions, package)?;
    let yields = names_of(alloc, package.yields)?;
    let incoming = Text::from_str(alloc, package.name)?;
    check(
        alloc,
        host,
        &administration.lists,
        &administration.diversions,
        yields.as_slice(),
        &incoming,
        works.as_mut_slice(),
    )
}

// What stands at a path that is shipped so.
pub(crate) fn node_of(alloc: Global, ships: Ships) -> Result<Node, AllocError> {
    match ships {
        Ships::Directory => Ok(directory()),
        Ships::File(text) => file(alloc, text),
        Ships::Conffile(text) => file(alloc, text),
        Ships::Link(target) => link(alloc, target),
    }
}

// Checks and writes the works of a package.
pub(crate) fn unpack(
    alloc: Global,
    host: &mut MemoryHost,
    administration: &Administration,
    package: &Package,
    works: &mut Vec<Work>,
) -> Result<Option<StepFault>, HostFault>
    requires named { Each IsNamed works.old.items }
    requires fitting { Each IsFitting works.old.items }
    ensures works { IsRearranged works.old.items works.new.items }
    ensures order { IfOk result (λ found. IfNone found (AllInOrder works.new.items)) }
    ensures ready { Gives result (λ found old new. IfNone found (IsWrittenFrom works.new.items old
        new)) (memory_state host.old) (memory_state host.new) }
{
    let yields = names_of(alloc, package.yields)?;
    let incoming = Text::from_str(alloc, package.name)?;
    unpack_files(
        alloc,
        host,
        &administration.lists,
        &administration.diversions,
        yields.as_slice(),
        &incoming,
        works,
    )
}

// Checks and writes the files of a package, which is broken off so.
pub(crate) fn write(
    alloc: Global,
    host: &mut MemoryHost,
    package: &Package,
    how: Break,
) -> Result<Option<StepFault>, HostFault> {
    let administration = open(alloc, host, package)?;
    let mut works = works_of(alloc, &administration.diversions, package)?;
    plan(host, how)?;
    unpack(alloc, host, &administration, package, &mut works)
}

// Writes the files of a package, and puts them back, which is broken off so.
fn write_and_put_back(
    alloc: Global,
    host: &mut MemoryHost,
    package: &Package,
    how: Break,
) -> Result<Option<StepFault>, HostFault> {
    let administration = open(alloc, host, package)?;
    let mut works = works_of(alloc, &administration.diversions, package)?;
    if let Some(fault) = unpack(alloc, host, &administration, package, &mut works)? {
        return Ok(Some(fault));
    }
    plan(host, how)?;
    put_back_files(host, works.as_slice())?;
    Ok(None)
}

fn leaving_of(alloc: Global, paths: &[(&'static str, bool)]) -> Result<Vec<Leaving>, AllocError> {
    let mut leaving = Vec::new(alloc);
    for (path, goes) in paths {
        let place = path_of(alloc, path)?;
        leaving.push(Leaving { place, goes: *goes })?;
    }
    Ok(leaving)
}

fn paths_of(alloc: Global, names: &[&'static str]) -> Result<Vec<RootPath>, AllocError> {
    let mut paths = Vec::new(alloc);
    for name in names {
        paths.push(path_of(alloc, name)?)?;
    }
    Ok(paths)
}

// The paths that may go, and then what stands at these names.
fn remove(alloc: Global, host: &mut MemoryHost, removal: &Removal) -> Result<(), HostFault> {
    let leaving = leaving_of(alloc, removal.paths)?;
    let names = paths_of(alloc, removal.names)?;
    remove_owned(host, leaving.as_slice())?;
    clear_names(host, names.as_slice())
}

// What stands at these names, and then the directories that may go.
fn purge(alloc: Global, host: &mut MemoryHost, removal: &Removal) -> Result<(), HostFault> {
    let leaving = leaving_of(alloc, removal.paths)?;
    let names = paths_of(alloc, removal.names)?;
    clear_names(host, names.as_slice())?;
    remove_directories(host, leaving.as_slice())
}

// The paths that may go, and then what stands at the names of backups.
fn commit(alloc: Global, host: &mut MemoryHost, removal: &Removal) -> Result<(), HostFault> {
    let leaving = leaving_of(alloc, removal.paths)?;
    let names = paths_of(alloc, removal.names)?;
    remove_owned(host, leaving.as_slice())?;
    retire_names(host, names.as_slice())
}

// Does it, broken off so. The answer is the step fault, if the files have one.
pub(crate) fn perform(
    alloc: Global,
    host: &mut MemoryHost,
    what: &Act,
    how: Break,
) -> Result<Option<StepFault>, HostFault> {
    match what {
        Act::Write(package) => write(alloc, host, package, how),
        Act::PutBack(package) => write_and_put_back(alloc, host, package, how),
        Act::Remove(removal) => {
            plan(host, how)?;
            remove(alloc, host, removal)?;
            Ok(None)
        }
        Act::Purge(removal) => {
            plan(host, how)?;
            purge(alloc, host, removal)?;
            Ok(None)
        }
        Act::Commit(removal) => {
            plan(host, how)?;
            commit(alloc, host, removal)?;
            Ok(None)
        }
    }
}

// A step fault by its name, its path and the other package; the empty text where there is none.
pub(crate) fn fault_text(alloc: Global, fault: Option<&StepFault>) -> Result<String, AllocError> {
    match fault {
        None => Ok(String::new(alloc)),
        Some(StepFault::LinkParent(path)) => { format!(in alloc; "LinkParent {}", path.as_str()) }
        Some(StepFault::NoParent(path)) => format!(in alloc; "NoParent {}", path.as_str()),
        Some(StepFault::DirInWay(path)) => format!(in alloc; "DirInWay {}", path.as_str()),
        Some(StepFault::Declined(path)) => format!(in alloc; "Declined {}", path.as_str()),
        Some(StepFault::Clash(path, owner)) => {
            format!(in alloc; "Clash {} {}", path.as_str(), owner.as_str())
        }
        Some(StepFault::DiversionTarget(path, None)) => {
            format!(in alloc; "DiversionTarget {}", path.as_str())
        }
        Some(StepFault::DiversionTarget(path, Some(diverter))) => {
            format!(in alloc; "DiversionTarget {} {}", path.as_str(), diverter.as_str())
        }
    }
}
