// Lists of lines.
ghost use Rattle.std.specs.Prelude.{◌≡◌, ℕ, List, IfOk, OnOk, OnErr, ◌++◌, ◌∷◌, []};

use crate::blanks::drop_end;
use std::alloc::{AllocError, Global};
use std::marker::Model;
use texts::Bytes;

/// Lines that go on with a field.
#[derive(Drop)]
pub struct Lines {
    alloc: Global,
    items: Vec<Bytes>,
}

impl Model for Lines {
    ghost Value = { List (List ℕ) };

    ghost view = { λ t. t.items.items };
}

impl Lines {
    ghost use Rattle.control_fields.specs.Names.{ended};

    pub fn new(alloc: Global) -> Self
        ensures { result ≡ [] }
    {
        Lines {
            alloc,
            items: Vec::new(alloc),
        }
    }

    pub fn push(&mut self, line: Bytes) -> Result<(), AllocError>
        ensures ok { OnOk result (self.new ≡ self.old ++ line ∷ []) }
        ensures err { OnErr result (self.new ≡ self.old) }
    {
        self.items.push(line)?;
        Ok(())
    }

    pub fn as_slice(&self) -> &[Bytes]
        ensures { result.now ≡ self.now }
    {
        self.items.as_slice()
    }

    // Drops the blanks at the end of the last line.
    pub(crate) fn settle(&mut self) -> Result<(), AllocError>
        ensures { OnOk result (self.new ≡ ended self.old) }
    {
        let Some(mut last) = self.items.pop() else {
            return Ok(());
        };
        drop_end(self.alloc, &mut last)?;
        self.items.push(last)?;
        Ok(())
    }

    pub(crate) fn copy(&self) -> Result<Lines, AllocError>
        ensures { IfOk result (λ lines. lines ≡ self.now) }
    {
        let mut items = Vec::new(self.alloc);
        for line in &self.items {
            items.push(line.copy()?)?;
        }
        Ok(Lines {
            alloc: self.alloc,
            items,
        })
    }
}
