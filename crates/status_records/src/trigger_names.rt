// Names of triggers, or of packages, in the value of a field.
ghost use Rattle.std.specs.Prelude.{◌≡◌, ℕ, List, IfOk, MatchOption, true, false};
ghost use Rattle.std.specs.List.{list_all};
ghost use Rattle.status_records.specs.TriggerNames.{is_printed_sign, starts_with_sign, are_trigger_names};

use crate::conffile_fields::{is_blank, trim_end};
use std::alloc::{AllocError, Global};
use std::marker::Model;
use texts::Bytes;

fn is_printed_sign(b: u8) -> bool
    ensures { result ≡ is_printed_sign b }
{
    31 < b && b < 127
}

fn are_printed_signs(text: &[u8]) -> bool
    ensures { result ≡ list_all is_printed_sign text.now }
{
    text.iter().all(|b| is_printed_sign(*b))
}

fn starts_with_sign(text: &[u8]) -> bool
    ensures { result ≡ starts_with_sign text.now }
{
    match text {
        [first, ..] => !is_blank(*first),
        [] => false,
    }
}

/// Whether a text is names with blanks between them.
pub(crate) fn are_trigger_names(text: &[u8]) -> bool
    ensures { result ≡ are_trigger_names text.now }
{
    are_printed_signs(text) && starts_with_sign(text) && trim_end(text) == text
}

/// Names of triggers, or of packages, as they stand in the value of a field.
#[derive(Drop)]
pub struct TriggerNames {
    text: Bytes,
}

impl Model for TriggerNames {
    ghost Value = { List ℕ };

    ghost view = { λ n. n.text };

    ghost invariant = { λ n. are_trigger_names n.text ≡ true };
}

impl TriggerNames {
    /// The names of a text, where it has some.
    pub fn read(alloc: Global, text: &[u8]) -> Result<Option<TriggerNames>, AllocError>
        ensures { IfOk result (λ o. MatchOption o (are_trigger_names text.now ≡ false)
            (λ names. (names ≡ text.now) × (are_trigger_names text.now ≡ true))) }
    {
        if !are_trigger_names(text) {
            return Ok(None);
        }
        Ok(Some(TriggerNames {
            text: Bytes::from_slice(alloc, text)?,
        }))
    }

    /// The text that was read.
    pub fn text(&self) -> &[u8]
        ensures text { result.now ≡ self.now }
        ensures names { are_trigger_names self.now ≡ true }
    {
        self.text.as_slice()
    }

    /// The same names, or want of memory.
    pub fn copy(&self) -> Result<TriggerNames, AllocError>
        ensures { IfOk result (λ copy. copy ≡ self.now) }
    {
        Ok(TriggerNames {
            text: self.text.copy()?,
        })
    }
}
