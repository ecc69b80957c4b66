// A set of names, to look one up.
ghost use Rattle.std.specs.Prelude.{◌≡◌, ◌||◌, ℕ, List, IfOk, OnOk};
ghost use Rattle.std.specs.BTreeSet.{contains_text};
ghost use Rattle.name_sets.specs.Names.{is_among};

use std::alloc::{AllocError, Global};
use std::collections::BTreeSet;
use texts::Text;

/// The names go into the set.
pub fn add_all(alloc: Global, set: &mut BTreeSet<String>, names: &[Text]) -> Result<(), AllocError>
    ensures { OnOk result ((q : List ℕ) → contains_text set.new q ≡ contains_text set.old q
        || is_among names.now q) }
{
    for name in names {
        set.insert(String::from_str(alloc, name.as_str())?)?;
    }
    Ok(())
}

/// The names, to look one up among them.
pub fn set_of(alloc: Global, names: &[Text]) -> Result<BTreeSet<String>, AllocError>
    ensures { IfOk result (λ set. (q : List ℕ) → contains_text set q ≡ is_among names.now q) }
{
    let mut set = BTreeSet::new(alloc);
    add_all(alloc, &mut set, names)?;
    Ok(set)
}
