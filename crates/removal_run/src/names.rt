// The names that a command gives.
ghost use Rattle.std.specs.Prelude.{◌≡◌, IfOk};
ghost use Rattle.name_sets.specs.Names.{without};

use std::alloc::{AllocError, Global};
use texts::Text;

/// The same names again.
pub(crate) fn copied(alloc: Global, names: &[Text]) -> Result<Vec<Text>, AllocError>
    ensures { IfOk result (λ list. list.items ≡ names.now) }
{
    let mut list = Vec::new(alloc);
    for name in names {
        list.push(name.copy()?)?;
    }
    Ok(list)
}

/// Takes a name away.
pub(crate) fn strike(names: &mut Vec<Text>, name: &Text)
    ensures { names.new.items ≡ without name.now names.old.items }
{
    names.retain(|other| !(other.as_str() == name.as_str()));
}
