// Which trees meet a clause.
ghost use Rattle.std.specs.Prelude.{◌≡◌, ◌↔◌, ◌++◌, ◌∷◌, [], ℕ, IfOk, OnOk, IsTrue, length, map, option_copied, if◌then◌else◌};
ghost use Rattle.std.specs.BTreeMap.{get_by_text};
ghost use Rattle.std.specs.List.{Contains};
ghost use Rattle.install_order.specs.Bearers.{admits_as, admits_at, HasPushed, IsIndex, AreBearers};
ghost use Rattle.install_order.specs.Clauses.{architecture_in, meets_at};
ghost use Rattle.recorded_packages.specs.Packages.{first_architecture};

use crate::index::Index;
use dependency_sets::Numbers;
use package_tree::ControlFile;
use relation_fields::{Alternative, Clause, Offer};
use relation_index::{Package, Packages};
use stated_relations::counted_as;
use std::alloc::{AllocError, Global};
use texts::Text;

/// As of which architecture each tree counts, and the trees by the names that they bear.
#[derive(Drop)]
pub(crate) struct Bearers {
    pub(crate) architectures: Vec<Option<Text>>,
    pub(crate) index: Index,
}

fn word_of(word: &Option<Text>) -> Option<&str>
    ensures { option_copied result ≡ word.now }
{
    match word {
        Some(word) => Some(word.as_str()),
        None => None,
    }
}

// The architecture of the root of these packages.
fn first_architecture(recorded: &[Package]) -> Option<&str>
    ensures { option_copied result ≡ first_architecture recorded.now }
{
    match recorded {
        [] => None,
        [first, ..] => word_of(&first.architecture),
    }
}

fn architecture_in(
    alloc: Global,
    root: Option<&str>,
    tree: &Option<ControlFile>,
) -> Result<Option<Text>, AllocError>
    ensures { IfOk result (λ found. found ≡ architecture_in (option_copied root.entry) tree.now) }
{
    match tree {
        Some(tree) => counted_as(alloc, root, &tree.paragraph),
        None => Ok(None),
    }
}

fn architectures_in(
    alloc: Global,
    root: Option<&str>,
    trees: &[Option<ControlFile>],
) -> Result<Vec<Option<Text>>, AllocError>
    ensures { IfOk result (λ list. list.items ≡ map (architecture_in (option_copied root.entry))
        trees.now) }
{
    let mut list = Vec::new(alloc);
    for tree in trees {
        list.push(architecture_in(alloc, root, tree)?)?;
    }
    Ok(list)
}

fn admits_as(
    alternative: &Alternative,
    tree: &Option<ControlFile>,
    architecture: &Option<Text>,
) -> bool
    ensures { result ≡ admits_as alternative.now tree.now architecture.now }
{
    match tree {
        Some(tree) => alternative.admits(&Offer {
            name: tree.name.as_str(),
            architecture,
            version: &tree.version,
            provides: &tree.relations.provides,
        }),
        None => false,
    }
}

fn admits_at(
    trees: &[Option<ControlFile>],
    architectures: &[Option<Text>],
    alternative: &Alternative,
    number: usize,
) -> bool
    requires { length architectures.now ≡ length trees.now }
    ensures { result ≡ admits_at trees.now architectures.now alternative.now number }
{
    if trees.len() <= number {
        return false;
    }
    admits_as(alternative, &trees[number], &architectures[number])
}

fn push_if_admitted(
    list: &mut Numbers,
    trees: &[Option<ControlFile>],
    architectures: &[Option<Text>],
    alternative: &Alternative,
    number: usize,
) -> Result<(), AllocError>
    requires { length architectures.now ≡ length trees.now }
    ensures { OnOk result (list.new ≡ (if admits_at trees.now architectures.now alternative.now
        number then list.old ++ number ∷ [] else list.old)) }
{
    if admits_at(trees, architectures, alternative, number) {
        list.push(number)?;
    }
    Ok(())
}

fn push_admitted(
    list: &mut Numbers,
    trees: &[Option<ControlFile>],
    architectures: &[Option<Text>],
    alternative: &Alternative,
    numbers: &[usize],
) -> Result<(), AllocError>
    requires { length architectures.now ≡ length trees.now }
    ensures { OnOk result (HasPushed (admits_at trees.now architectures.now alternative.now)
        numbers.now list.old list.new) }
{
    for number in numbers {
        push_if_admitted(list, trees, architectures, alternative, *number)?;
    }
    Ok(())
}

impl Bearers {
    /// The trees in the root of these packages.
    pub(crate) fn of(
        alloc: Global,
        recorded: &Packages,
        trees: &[Option<ControlFile>],
    ) -> Result<Bearers, AllocError>
        ensures { IfOk result (λ b. AreBearers (first_architecture recorded.now) trees.now
            b.architectures.items (get_by_text b.index.slots) b.index.rows.items) }
    {
        let root = first_architecture(recorded.as_slice());
        let architectures = architectures_in(alloc, root, trees)?;
        let index = Index::of(alloc, trees)?;
        Ok(Bearers {
            architectures,
            index,
        })
    }

    /// The trees that meet a clause: the same as a look through all of them finds.
    pub(crate) fn meeters(
        &self,
        alloc: Global,
        clause: &Clause,
        trees: &[Option<ControlFile>],
    ) -> Result<Numbers, AllocError>
        requires counted { length self.now.architectures.items ≡ length trees.now }
        requires index { IsIndex trees.now (get_by_text self.now.index.slots)
            self.now.index.rows.items }
        ensures { IfOk result (λ list. (x : ℕ) → Contains list x ↔ IsTrue (meets_at trees.now
            self.now.architectures.items clause.now x)) }
    {
        let mut list = Numbers::new(alloc);
        let architectures = self.architectures.as_slice();
        let alternatives = clause.alternatives();
        for alternative in alternatives {
            let row = self.index.row(alternative.name.as_str());
            push_admitted(&mut list, trees, architectures, alternative, row)?;
        }
        Ok(list)
    }
}
