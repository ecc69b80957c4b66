// The names that a command gives.
ghost use Rattle.std.specs.Prelude.{◌≡◌, IfOk};
ghost use Rattle.trigger_run.specs.Names.{is_among, once};

use std::alloc::{AllocError, Global};
use texts::Text;

fn is_among(names: &[Text], name: &Text) -> bool
    ensures { result ≡ is_among names.now name.now }
{
    names.iter().any(|other| name.as_str() == other.as_str())
}

/// Each name once: a second mention is dropped.
pub(crate) fn once(alloc: Global, names: Vec<Text>) -> Result<Vec<Text>, AllocError>
    ensures { IfOk result (λ list. list.items ≡ once names.items) }
{
    let mut list: Vec<Text> = Vec::new(alloc);
    for name in names {
        if !is_among(list.as_slice(), &name) {
            list.push(name)?;
        }
    }
    Ok(list)
}
