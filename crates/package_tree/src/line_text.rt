// Texts of lines, for faults.
ghost use Rattle.std.specs.Prelude.{◌≡◌, ℕ, List, IfOk, string_bytes};

use std::alloc::{AllocError, Global};
use std::fmt;
use std::marker::Model;

/// What a line of `DEBIAN/conffiles` names.
#[derive(Debug, Drop)]
pub struct LineText {
    text: String,
}

impl Model for LineText {
    ghost Value = { List ℕ };

    ghost view = { λ t. string_bytes t.text };
}

impl LineText {
    pub(crate) fn from_str(alloc: Global, text: &str) -> Result<Self, AllocError>
        ensures { IfOk result (λ t. t ≡ text.now) }
    {
        Ok(LineText {
            text: String::from_str(alloc, text)?,
        })
    }

    pub fn as_str(&self) -> &str
        ensures { result.now ≡ self.now }
    {
        self.text.as_str()
    }

    pub(crate) fn copy(&self) -> Result<LineText, AllocError>
        ensures { IfOk result (λ t. t ≡ self.now) }
    {
        Ok(LineText {
            text: self.text.clone()?,
        })
    }
}

impl fmt::Display for LineText {
    fn fmt<W: fmt::Write>(&self, f: &mut fmt::Formatter<W>) -> fmt::Result {
        f.write_str(self.as_str())
    }
}
