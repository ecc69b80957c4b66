// Fields.
ghost use Rattle.std.specs.Prelude.{◌≡◌, ◌↔◌, OnOk, IfOk, IsTrue, []};
ghost use Rattle.control_fields.specs.Names.{is_yes_or_no};

use crate::blanks::{drop_end, trim_end};
use crate::line_list::Lines;
use std::alloc::{AllocError, Global};
use texts::Bytes;

/// A field: its name, the value on the name's line, and the lines that go on with it, each with the blank that it
/// begins with.
#[derive(Drop)]
pub struct Field {
    pub name: Bytes,
    pub first: Bytes,
    pub more: Lines,
}

fn is_yes_or_no(value: &[u8]) -> bool
    ensures { result ≡ is_yes_or_no value.now }
{
    value == b"yes".as_slice() || value == b"no".as_slice()
}

impl Field {
    ghost use Rattle.control_fields.specs.Names.{trim_end, settled, value_of, IsYesOrNo};

    /// A field of one line.
    pub fn one_line(alloc: Global, name: &[u8], value: &[u8]) -> Result<Field, AllocError>
        ensures { IfOk result (λ f. (f.name ≡ name.now) × (f.first ≡ value.now) × (f.more ≡ [])) }
    {
        Ok(Field {
            name: Bytes::from_slice(alloc, name)?,
            first: Bytes::from_slice(alloc, value)?,
            more: Lines::new(alloc),
        })
    }

    /// The value on all its lines, with a newline between two.
    pub fn value(&self, alloc: Global) -> Result<Vec<u8>, AllocError>
        ensures { IfOk result (λ value. value.items ≡ value_of self.now) }
    {
        let mut value = Vec::new(alloc);
        value.extend_from_slice(self.first.as_slice())?;
        for line in self.more.as_slice() {
            value.push(b'\n')?;
            value.extend_from_slice(line.as_slice())?;
        }
        Ok(value)
    }

    /// What stands of the value on the name's line, without the blanks at its end.
    pub fn own_line(&self) -> &[u8]
        ensures { result.now ≡ trim_end self.now.first }
    {
        trim_end(self.first.as_slice())
    }

    /// Whether the value is `yes` or `no` (Policy 5.6.9).
    pub fn is_yes_or_no(&self) -> bool
        ensures { IsTrue result ↔ IsYesOrNo self.now }
    {
        if !self.more.as_slice().is_empty() {
            return false;
        }
        is_yes_or_no(self.first.as_slice())
    }

    // Drops the blanks at the end of the value.
    pub(crate) fn settle(&mut self, alloc: Global) -> Result<(), AllocError>
        ensures name { self.new.name ≡ self.old.name }
        ensures ok { OnOk result (self.new ≡ settled self.old) }
    {
        if self.more.as_slice().is_empty() {
            return drop_end(alloc, &mut self.first);
        }
        self.more.settle()
    }

    pub fn copy(&self) -> Result<Field, AllocError>
        ensures { IfOk result (λ f. f ≡ self.now) }
    {
        Ok(Field {
            name: self.name.copy()?,
            first: self.first.copy()?,
            more: self.more.copy()?,
        })
    }
}
