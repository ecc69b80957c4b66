// Architectures that relations name.
ghost use Rattle.std.specs.Prelude.{◌≡◌, true, false, IfOk, IfSome, IfNone};
ghost use Rattle.std.specs.List.{list_all};
ghost use Rattle.relation_fields.specs.Architectures.{is_letter_or_digit, is_architecture_sign, is_architecture, is_same, is_as, is_to, is_to_entry};

use std::alloc::AllocError;
use std::str;
use texts::Text;

fn is_letter_or_digit(byte: u8) -> bool
    ensures { result ≡ is_letter_or_digit byte }
{
    byte.is_ascii_lowercase() || (byte.is_ascii_uppercase() || byte.is_ascii_digit())
}

fn is_architecture_sign(byte: u8) -> bool
    ensures { result ≡ is_architecture_sign byte }
{
    is_letter_or_digit(byte) || byte == b'-'
}

fn are_architecture_signs(bytes: &[u8]) -> bool
    ensures { result ≡ list_all is_architecture_sign bytes.now }
{
    bytes.iter().all(|byte| is_architecture_sign(*byte))
}

fn is_architecture(word: &[u8]) -> bool
    ensures { result ≡ is_architecture word.now }
{
    match word.split_first() {
        Some((first, rest)) => is_letter_or_digit(*first) && are_architecture_signs(rest),
        None => false,
    }
}

/// The bytes as text, where they are an architecture.
pub fn architecture_name(word: &[u8]) -> Option<&str>
    ensures some { IfSome result (λ name. (name.now ≡ word.now) × (is_architecture word.now
        ≡ true)) }
    ensures none { IfNone result (is_architecture word.now ≡ false) }
{
    if !is_architecture(word) {
        return None;
    }
    Some(str::from_utf8(word).unwrap())
}

fn is_same(word: &str, architecture: &Option<Text>) -> bool
    ensures { result ≡ is_same word.now architecture.now }
{
    match architecture {
        Some(architecture) => word == architecture.as_str(),
        None => false,
    }
}

fn is_as(word: &str, architecture: &Option<Text>) -> bool
    ensures { result ≡ is_as word.now architecture.now }
{
    match architecture {
        Some(architecture) => word == "all" || word == architecture.as_str(),
        None => true,
    }
}

/// Whether a relation with this suffix is to a package that counts as of this architecture.
pub(crate) fn is_to(wanted: &Option<Text>, architecture: &Option<Text>) -> bool
    ensures { result ≡ is_to wanted.now architecture.now }
{
    match wanted {
        Some(wanted) => {
            let word = wanted.as_str();
            (word == "any" || word == "native") || is_as(word, architecture)
        }
        None => true,
    }
}

/// The same of an entry of its Provides, which may have a suffix of its own.
pub(crate) fn is_to_entry(
    wanted: &Option<Text>,
    of: &Option<Text>,
    architecture: &Option<Text>,
) -> bool
    ensures { result ≡ is_to_entry wanted.now of.now architecture.now }
{
    match of {
        Some(of) => {
            let word = of.as_str();
            (is_as(word, architecture) && is_to(wanted, architecture)) || is_same(word, wanted)
        }
        None => is_to(wanted, architecture),
    }
}

pub(crate) fn copy_word(word: &Option<Text>) -> Result<Option<Text>, AllocError>
    ensures { IfOk result (λ copy. copy ≡ word.now) }
{
    match word {
        Some(word) => Ok(Some(word.copy()?)),
        None => Ok(None),
    }
}
