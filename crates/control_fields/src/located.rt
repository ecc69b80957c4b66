// Paragraphs with the lines where they stand.
ghost use Rattle.std.specs.Prelude.{◌≡◌, OnOk, OnErr, [], ◌++◌, ◌∷◌, false, ◌<◌, ◌^◌};
ghost use Rattle.control_fields.specs.Names.{stands, begin_line, line_of_field};

use crate::fault::ControlFault;
use crate::field::Field;
use crate::paragraph::Paragraph;
use std::alloc::{AllocError, Global};

/// A paragraph and the line of its first field, counted from 1; the line is 0 where no field was read.
#[derive(Drop)]
pub struct Located {
    pub line: u64,
    pub paragraph: Paragraph,
}

impl Located {
    pub(crate) fn new(alloc: Global) -> Self
        ensures line { result.line ≡ 0 }
        ensures paragraph { result.paragraph ≡ [] }
    {
        Located {
            line: 0,
            paragraph: Paragraph::new(alloc),
        }
    }

    /// The line of the field at this index; past the last field, the line after it.
    pub fn line_of(&self, index: usize) -> u64
        requires { line_of_field self.now.line self.now.paragraph index < 2 ^ 64 }
        ensures { result ≡ line_of_field self.now.line self.now.paragraph index }
    {
        let mut line = self.line;
        let mut left = index;
        for field in self.paragraph.fields() {
            if left == 0 {
                return line;
            }
            line += 1;
            line += field.more.as_slice().len() as u64;
            left -= 1;
        }
        line
    }

    // Adds the field that stands on this line.
    pub(crate) fn push(&mut self, number: u64, field: Field) -> Result<(), AllocError>
        requires { stands field.name self.old.paragraph ≡ false }
        ensures line { OnOk result (self.new.line ≡ begin_line self.old.paragraph self.old.line
            number) }
        ensures paragraph { OnOk result (self.new.paragraph ≡ self.old.paragraph ++ field ∷ []) }
        ensures err { OnErr result (self.new ≡ self.old) }
    {
        let line = if self.paragraph.is_empty() {
            number
        } else {
            self.line
        };
        self.paragraph.push(field)?;
        self.line = line;
        Ok(())
    }
}

/// A text as far as it can be read.
#[derive(Drop)]
pub struct ControlText {
    /// The whole paragraphs in order.
    pub paragraphs: Vec<Located>,
    /// The paragraph that the fault broke off.
    pub begun: Located,
    /// The fault of the first line that can't be read.
    pub fault: Option<ControlFault>,
}
