// The architecture of a package.
ghost use Rattle.std.specs.Prelude.{◌≡◌, option_copied, IfOk};
ghost use Rattle.stated_relations.specs.Relations.{one_architecture, architecture_of, counted_as};

use control_fields::Paragraph;
use relation_fields::architecture_name;
use std::alloc::{AllocError, Global};
use texts::Text;

fn one_architecture(word: &[u8]) -> Option<&str>
    ensures { option_copied result ≡ one_architecture word.now }
{
    match architecture_name(word) {
        Some("all") => None,
        Some(name) => Some(name),
        None => None,
    }
}

/// The architecture that the fields name, where they name one (Policy 5.6.8); a package of `all` fits each. Takes no memory.
pub fn architecture_of(fields: &Paragraph) -> Option<&str>
    ensures { option_copied result ≡ architecture_of fields.now }
{
    match fields.get(b"architecture") {
        Some(field) => one_architecture(field.own_line()),
        None => None,
    }
}

/// The architecture as which a package of these fields counts in a root of this one.
pub fn counted_as(
    alloc: Global,
    root: Option<&str>,
    fields: &Paragraph,
) -> Result<Option<Text>, AllocError>
    ensures { IfOk result (λ found. found ≡ counted_as (option_copied root.entry) (architecture_of
        fields.now)) }
{
    match (architecture_of(fields), root) {
        (Some(own), _) => Ok(Some(Text::from_str(alloc, own)?)),
        (None, Some(root)) => Ok(Some(Text::from_str(alloc, root)?)),
        (None, None) => Ok(None),
    }
}
