// The words of a line.
ghost use Rattle.std.specs.Prelude.{◌≡◌, IfNone, IfOk, IfSome, false, map, true};
ghost use Rattle.std.specs.List.{list_any};
ghost use Rattle.std.specs.Str.{bytes_eq};
ghost use Rattle.control_fields.specs.Names.{is_blank};
ghost use Rattle.trigger_interests.specs.Words.{activate_words, directive_of, interest_words, is_trigger_name, is_trigger_sign, noawait_word, words_in};

use std::alloc::{AllocError, Global};
use std::str;

/// What a package declares of a trigger: that it is interested, and whether nobody waits for it then; or
/// that it activates the trigger, of which isn't kept whether it waits.
#[derive(Clone, Copy)]
pub enum Directive {
    Interest { noawait: bool },
    Activate,
}

fn is_blank(b: u8) -> bool
    ensures { result ≡ is_blank b }
{
    b == b' ' || b == b'\t'
}

/// What stands between the blanks of a line.
pub(crate) fn words_in(alloc: Global, line: &[u8]) -> Result<Vec<&[u8]>, AllocError>
    ensures { IfOk result (λ words. map (λ word. word.now) words.items ≡ words_in line.now) }
{
    line.split(|b| is_blank(*b))
        .filter(|word| !word.is_empty())
        .collect(alloc)
}

fn is_interest_word(word: &[u8]) -> bool
    ensures { result ≡ list_any (bytes_eq word.now) interest_words }
{
    word == b"interest".as_slice() || word == b"interest-await".as_slice()
}

fn is_noawait_word(word: &[u8]) -> bool
    ensures { result ≡ bytes_eq word.now noawait_word }
{
    word == b"interest-noawait".as_slice()
}

fn is_activate_word(word: &[u8]) -> bool
    ensures { result ≡ list_any (bytes_eq word.now) activate_words }
{
    word == b"activate".as_slice()
        || word == b"activate-await".as_slice()
        || word == b"activate-noawait".as_slice()
}

/// The directive that a word is.
pub(crate) fn directive_of(word: &[u8]) -> Option<Directive>
    ensures { result ≡ directive_of word.now }
{
    if is_interest_word(word) {
        return Some(Directive::Interest { noawait: false });
    }
    if is_noawait_word(word) {
        return Some(Directive::Interest { noawait: true });
    }
    if is_activate_word(word) {
        return Some(Directive::Activate);
    }
    None
}

fn is_trigger_sign(byte: u8) -> bool
    ensures { result ≡ is_trigger_sign byte }
{
    32 < byte && byte < 127
}

fn is_trigger_name(word: &[u8]) -> bool
    ensures { result ≡ is_trigger_name word.now }
{
    word.iter().all(|byte| is_trigger_sign(*byte))
}

/// A word as text, where it may name a trigger.
pub(crate) fn trigger_name(word: &[u8]) -> Option<&str>
    ensures some { IfSome result (λ name. (name.now ≡ word.now)
        × (is_trigger_name word.now ≡ true)) }
    ensures none { IfNone result (is_trigger_name word.now ≡ false) }
{
    if !is_trigger_name(word) {
        return None;
    }
    Some(str::from_utf8(word).unwrap())
}
