// The works of what a package ships.
ghost use Rattle.std.specs.Prelude.{◌≡◌, ◌||◌, ◌&&◌, ℕ, List, Some, IfOk, OnOk};
ghost use Rattle.std.specs.BTreeSet.{contains_text};
ghost use Rattle.std.specs.Str.{bytes_eq};
ghost use Rattle.host_core.specs.World.{is_directory};
ghost use Rattle.host_core.specs.declared.node.Node.{Node as ANode};
ghost use Rattle.diversions.specs.Ways.{place};
ghost use Rattle.file_lists.specs.Increasing.{AreIncreasing};
ghost use Rattle.package_files.specs.Files.{Each};
ghost use Rattle.package_files.specs.Names.{IsNamed};
ghost use Rattle.package_files.specs.Works.{work_of};
ghost use Rattle.file_check.specs.Ready.{IsFitting};
ghost use Rattle.aliases.specs.Reading.{is_link};
ghost use Rattle.file_check.specs.Ships.{is_alike, is_astray, is_at_alias, is_conffile, is_there, shipped_works, FitsConffiles};

use crate::index::add;
use diversions::Diversions;
use host_core::{Node, ShipPath};
use package_files::Work;
use std::alloc::{AllocError, Global};
use std::cmp::Ordering;
use std::collections::BTreeSet;
use texts::Text;

// Whether a path is one of these, in a search that halves what is left.
fn is_conffile(conffiles: &[ShipPath], path: &ShipPath) -> bool
    requires order { AreIncreasing conffiles.now }
    ensures { result ≡ is_conffile conffiles.now path.now }
{
    let mut low = 0;
    let mut high = conffiles.len();
    while low < high {
        let middle = low + (high - low) / 2;
        match conffiles[middle].as_str().cmp(path.as_str()) {
            Ordering::Equal => return true,
            Ordering::Less => low = middle + 1,
            Ordering::Greater => high = middle,
        }
    }
    false
}

/// The work of a path that a package ships, at the place where the package has it.
pub fn shipped_work(
    name: &Text,
    diversions: &Diversions,
    path: &ShipPath,
    node: Node,
    is_conffile: bool,
) -> Result<Work, AllocError>
    ensures work { IfOk result
        (λ work.
        work ≡ work_of path.now (place diversions.now.ways name.now path.now) node is_conffile) }
    ensures named { IfOk result IsNamed }
{
    let place = diversions.ship_place(name, path)?;
    place.law();
    Work::new(path, &place, node, is_conffile)
}

/// Whether a node is a directory.
pub(crate) fn is_directory_node(node: &Node) -> bool
    ensures { result ≡ is_directory (Some node.now) }
{
    match node {
        Node::File { .. } => false,
        Node::Dir { .. } => true,
        Node::Link { .. } => false,
    }
}

fn is_link_node(node: &Node) -> bool
    ensures { result ≡ is_link (Some node.now) }
{
    match node {
        Node::File { .. } => false,
        Node::Dir { .. } => false,
        Node::Link { .. } => true,
    }
}

// Whether a work is a link where an alias stands.
fn is_at_alias(diversions: &Diversions, work: &Work) -> Result<bool, AllocError>
    ensures { IfOk result (λ at. at ≡ is_at_alias diversions.now.ways work.now) }
{
    if !is_link_node(&work.node) || !diversions.stands_at(&work.path)? {
        return Ok(false);
    }
    let diverted = diversions.is_diverted(&work.path, &work.place)?;
    Ok(!diverted)
}

// Whether a work is a link that leads to where the alias at its path leads.
fn is_alike(diversions: &Diversions, work: &Work) -> Result<bool, AllocError>
    ensures { IfOk result
        (λ alike. alike ≡ is_alike diversions.now.ways.aliases work.now.path work.now.node) }
{
    match &work.node {
        Node::File { .. } => Ok(false),
        Node::Dir { .. } => Ok(false),
        Node::Link { target } => diversions
            .aliases()
            .leads_alike(&work.path, target.as_str()),
    }
}

// Whether a work is a link that is there as an alias.
fn is_there(diversions: &Diversions, work: &Work) -> Result<bool, AllocError>
    ensures { IfOk result (λ there. there ≡ is_there diversions.now.ways work.now) }
{
    if !is_at_alias(diversions, work)? {
        return Ok(false);
    }
    is_alike(diversions, work)
}

/// Whether a work is a link that would lead elsewhere than the alias at its path.
pub(crate) fn is_astray(diversions: &Diversions, work: &Work) -> Result<bool, AllocError>
    ensures { IfOk result (λ astray. astray ≡ is_astray diversions.now.ways work.now) }
{
    if !is_at_alias(diversions, work)? {
        return Ok(false);
    }
    let alike = is_alike(diversions, work)?;
    Ok(!alike)
}

// Whether a work is a directory whose place is among these. The place of a directory is added.
fn is_again(
    alloc: Global,
    directories: &mut BTreeSet<String>,
    work: &Work,
) -> Result<bool, AllocError>
    ensures again { IfOk result
        (λ again. again
        ≡ (is_directory (Some work.now.node) && contains_text directories.old work.now.place)) }
    ensures added { OnOk result
        ((q : List ℕ)
        → contains_text directories.new q
        ≡ (contains_text directories.old q
        || (is_directory (Some work.now.node) && bytes_eq q work.now.place))) }
{
    if !is_directory_node(&work.node) {
        return Ok(false);
    }
    let again = directories.contains(work.place.as_str());
    add(alloc, directories, &work.place)?;
    Ok(again)
}

// Whether nothing is written for a work: it is there, or comes again.
fn is_left_out(
    alloc: Global,
    diversions: &Diversions,
    directories: &mut BTreeSet<String>,
    work: &Work,
) -> Result<bool, AllocError>
    ensures left { IfOk result
        (λ left. left
        ≡ (is_there diversions.now.ways work.now
        || (is_directory (Some work.now.node) && contains_text directories.old work.now.place))) }
    ensures added { OnOk result
        ((q : List ℕ)
        → contains_text directories.new q
        ≡ (contains_text directories.old q
        || (is_directory (Some work.now.node) && bytes_eq q work.now.place))) }
{
    let there = is_there(diversions, work)?;
    if there {
        return Ok(true);
    }
    is_again(alloc, directories, work)
}

fn shipped_works(
    alloc: Global,
    name: &Text,
    diversions: &Diversions,
    files: Vec<(ShipPath, Node)>,
    conffiles: &[ShipPath],
) -> Result<Vec<Work>, AllocError>
    requires order { AreIncreasing conffiles.now }
    ensures works { IfOk result
        (λ works.
        works.items ≡ shipped_works diversions.now.ways name.now conffiles.now files.items) }
    ensures named { IfOk result (λ works. Each IsNamed works.items) }
{
    let mut works = Vec::with_capacity(alloc, files.len())?;
    let mut directories = BTreeSet::new(alloc);
    for (path, node) in files {
        let is_conffile = is_conffile(conffiles, &path);
        let work = shipped_work(name, diversions, &path, node, is_conffile)?;
        if !is_left_out(alloc, diversions, &mut directories, &work)? {
            works.push(work)?;
        }
    }
    Ok(works)
}

/// The works of what a package ships, in the order given, with its conffiles in path order: none of a link that is there
/// as an alias, and one of a directory that is shipped under two names.
pub fn works_of(
    alloc: Global,
    name: &Text,
    diversions: &Diversions,
    files: Vec<(ShipPath, Node)>,
    conffiles: &[ShipPath],
) -> Result<Vec<Work>, AllocError>
    requires order { AreIncreasing conffiles.now }
    requires conffiles { FitsConffiles conffiles.now files.items }
    ensures works { IfOk result
        (λ works.
        works.items ≡ shipped_works diversions.now.ways name.now conffiles.now files.items) }
    ensures named { IfOk result (λ works. Each IsNamed works.items) }
    ensures fitting { IfOk result (λ works. Each IsFitting works.items) }
{
    shipped_works(alloc, name, diversions, files, conffiles)
}
