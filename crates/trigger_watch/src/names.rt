// Names of packages and of triggers.
ghost use Rattle.std.specs.Prelude.{◌≡◌, ◌++◌, IfOk, OnOk, string_bytes};
ghost use Rattle.trigger_watch.specs.Names.{behind_spaces, each_once, is_among, spaced};

use std::alloc::{AllocError, Global};
use texts::Text;

pub(crate) fn is_among(names: &[Text], name: &Text) -> bool
    ensures { result ≡ is_among names.now name.now }
{
    names.iter().any(|other| name.as_str() == other.as_str())
}

/// Each name once: a second mention is dropped.
pub fn each_once(alloc: Global, names: Vec<Text>) -> Result<Vec<Text>, AllocError>
    ensures { IfOk result (λ list. list.items ≡ each_once names.items) }
{
    let mut list: Vec<Text> = Vec::new(alloc);
    for name in names {
        if !is_among(list.as_slice(), &name) {
            list.push(name)?;
        }
    }
    Ok(list)
}

fn add_behind_spaces(text: &mut String, names: &[Text]) -> Result<(), AllocError>
    ensures { OnOk result (string_bytes text.new ≡ string_bytes text.old ++ behind_spaces
        names.now) }
{
    for name in names {
        text.push_str(" ")?;
        text.push_str(name.as_str())?;
    }
    Ok(())
}

/// The names with a space between two.
pub(crate) fn spaced(alloc: Global, names: &[Text]) -> Result<String, AllocError>
    ensures { IfOk result (λ text. string_bytes text ≡ spaced names.now) }
{
    let mut text = String::new(alloc);
    if let [first, rest @ ..] = names {
        text.push_str(first.as_str())?;
        add_behind_spaces(&mut text, rest)?;
    }
    Ok(text)
}
