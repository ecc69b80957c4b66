// Names in the order of their first mention.
ghost use Rattle.std.specs.Prelude.{◌≡◌, ℕ, List, IfOk, OnOk};
ghost use Rattle.std.specs.BTreeSet.{contains_text};
ghost use Rattle.name_sets.specs.Names.{each_once, is_among, with_name};

use std::alloc::{AllocError, Global};
use std::collections::BTreeSet;
use texts::Text;

// The set has the names so far.
fn push_once(
    alloc: Global,
    set: &mut BTreeSet<String>,
    names: &mut Vec<Text>,
    name: &Text,
) -> Result<(), AllocError>
    requires { (q : List ℕ) → contains_text set.old q ≡ is_among names.old.items q }
    ensures names { OnOk result (names.new.items ≡ with_name names.old.items name.now) }
    ensures set { OnOk result ((q : List ℕ) → contains_text set.new q ≡ is_among names.new.items
        q) }
{
    if set.contains(name.as_str()) {
        return Ok(());
    }
    set.insert(String::from_str(alloc, name.as_str())?)?;
    names.push(name.copy()?)?;
    Ok(())
}

/// Each name once, in the order of its first mention.
pub fn each_once(alloc: Global, names: &[Text]) -> Result<Vec<Text>, AllocError>
    ensures { IfOk result (λ list. list.items ≡ each_once names.now) }
{
    let mut set = BTreeSet::new(alloc);
    let mut list = Vec::new(alloc);
    for name in names {
        push_once(alloc, &mut set, &mut list, name)?;
    }
    Ok(list)
}
