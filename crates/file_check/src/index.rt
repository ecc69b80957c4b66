// Which directories a package makes, and which places it ships twice.
ghost use Rattle.std.specs.Prelude.{◌≡◌, ◌||◌, ◌&&◌, false, ℕ, List, IfOk, OnOk};
ghost use Rattle.std.specs.Str.{bytes_eq};
ghost use Rattle.std.specs.BTreeSet.{contains_text};
ghost use Rattle.file_check.specs.Index.{is_made_by, is_twice, makes_directory, IsIndex};

use host_core::{Kind, Node, RootPath};
use package_files::Work;
use std::alloc::{AllocError, Global};
use std::collections::BTreeSet;

/// The directories that are made, and the places that are shipped twice.
#[derive(Drop)]
pub(crate) struct Index {
    pub made: BTreeSet<String>,
    pub twice: BTreeSet<String>,
}

fn makes_directory(node: &Node, had: Option<Kind>) -> bool
    ensures { result ≡ makes_directory node.now had }
{
    match (node, had) {
        (Node::Dir { .. }, None) => true,
        (Node::Dir { .. }, Some(Kind::File)) => true,
        (Node::Dir { .. }, Some(_)) => false,
        (Node::File { .. }, _) => false,
        (Node::Link { .. }, _) => false,
    }
}

/// Adds the text of a path.
pub(crate) fn add(
    alloc: Global,
    set: &mut BTreeSet<String>,
    path: &RootPath,
) -> Result<(), AllocError>
    ensures { OnOk result
        ((q : List ℕ)
        → contains_text set.new q ≡ (contains_text set.old q || bytes_eq q path.now)) }
{
    set.insert(String::from_str(alloc, path.as_str())?)?;
    Ok(())
}

fn add_place(
    alloc: Global,
    once: &mut BTreeSet<String>,
    twice: &mut BTreeSet<String>,
    place: &RootPath,
) -> Result<(), AllocError>
    ensures once { OnOk result
        ((q : List ℕ)
        → contains_text once.new q ≡ (contains_text once.old q || bytes_eq q place.now)) }
    ensures twice { OnOk result
        ((q : List ℕ)
        → contains_text twice.new q
        ≡ (contains_text twice.old q || (contains_text once.old q && bytes_eq q place.now))) }
{
    if once.contains(place.as_str()) {
        return add(alloc, twice, place);
    }
    add(alloc, once, place)
}

fn add_maker(alloc: Global, made: &mut BTreeSet<String>, work: &Work) -> Result<(), AllocError>
    ensures { OnOk result
        ((q : List ℕ)
        → contains_text made.new q
        ≡ (contains_text made.old q
        || (bytes_eq q work.now.target && makes_directory work.now.node work.now.had))) }
{
    if !makes_directory(&work.node, work.had) {
        return Ok(());
    }
    add(alloc, made, &work.target)
}

fn add_all(
    alloc: Global,
    works: &[Work],
    made: &mut BTreeSet<String>,
    once: &mut BTreeSet<String>,
    twice: &mut BTreeSet<String>,
) -> Result<(), AllocError>
    requires made { (q : List ℕ) → contains_text made.old q ≡ false }
    requires once { (q : List ℕ) → contains_text once.old q ≡ false }
    requires twice { (q : List ℕ) → contains_text twice.old q ≡ false }
    ensures made { OnOk result ((q : List ℕ) → contains_text made.new q ≡ is_made_by works.now q) }
    ensures twice { OnOk result ((q : List ℕ) → contains_text twice.new q ≡ is_twice works.now q) }
{
    for one in works {
        add_place(alloc, once, twice, &one.place)?;
        add_maker(alloc, made, one)?;
    }
    Ok(())
}

impl Index {
    /// The index of works at whose targets it was looked.
    pub(crate) fn of_works(alloc: Global, works: &[Work]) -> Result<Index, AllocError>
        ensures { IfOk result (IsIndex works.now) }
    {
        let mut made = BTreeSet::new(alloc);
        let mut once = BTreeSet::new(alloc);
        let mut twice = BTreeSet::new(alloc);
        add_all(alloc, works, &mut made, &mut once, &mut twice)?;
        Ok(Index { made, twice })
    }
}
