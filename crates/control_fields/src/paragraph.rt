// Paragraphs.
ghost use Rattle.std.specs.Prelude.{◌≡◌, List, IfOk, OnOk, OnErr, IfSome, IfNone, ◌++◌, ◌∷◌, [], ◌==◌, false, length, ◌<◌, ◌^◌};
ghost use Rattle.std.specs.Map.Iter.{ShowsInOrder, deref};
ghost use Rattle.control_fields.specs.declared.field.Field.{Field as AField};
ghost use Rattle.control_fields.specs.Names.{lower, is_called, stands, with_line, settled_last, fields_of, IsKeyed, IsFieldCalled};

use crate::field::Field;
use indexmap::IndexMap;
use indexmap::map::Values;
use std::alloc::{AllocError, Global};
use std::marker::Model;
use texts::Bytes;

/// Fields in order, each with a name of its own, and found by name in lower case.
#[derive(Drop)]
pub struct Paragraph {
    alloc: Global,
    fields: IndexMap<Vec<u8>, Field>,
}

impl Model for Paragraph {
    ghost Value = { List AField };

    ghost view = { λ p. fields_of p.fields.entries };

    ghost invariant = { λ p. IsKeyed (λ k. k.items) p.fields.entries };
}

// The name in lower case.
fn key_of(alloc: Global, name: &[u8]) -> Result<Vec<u8>, AllocError>
    ensures { IfOk result (λ key. key.items ≡ lower name.now) }
{
    name.iter().map(u8::to_ascii_lowercase).collect(alloc)
}

// A new field goes last.
fn add(fields: &mut IndexMap<Vec<u8>, Field>, key: Vec<u8>, field: Field) -> Result<(), AllocError>
    requires keyed { IsKeyed (λ k. k.items) fields.old.entries }
    requires key { key.items ≡ lower field.name }
    requires new { stands field.name (fields_of fields.old.entries) ≡ false }
    ensures keyed { IsKeyed (λ k. k.items) fields.new.entries }
    ensures ok { OnOk result (fields_of fields.new.entries ≡ fields_of fields.old.entries ++ field
        ∷ []) }
    ensures err { OnErr result (fields_of fields.new.entries ≡ fields_of fields.old.entries) }
{
    fields.insert(key, field)?;
    Ok(())
}

impl Paragraph {
    pub fn new(alloc: Global) -> Self
        ensures { result ≡ [] }
    {
        Paragraph {
            alloc,
            fields: IndexMap::new(alloc),
        }
    }

    pub(crate) fn is_empty(&self) -> bool
        ensures { result ≡ (length self.now == 0) }
    {
        self.fields.is_empty()
    }

    /// The fields in order.
    pub fn fields(&self) -> Values<'_, Vec<u8>, Field>
        ensures rest { result ≡ self.now }
        ensures runs { ShowsInOrder (deref {X = AField}) }
        ensures fits { length self.now < 2 ^ 63 }
    {
        self.fields.values()
    }

    /// The field whose name in lower case is the given one. Takes no memory.
    pub fn get(&self, lower: &[u8]) -> Option<&Field>
        ensures some { IfSome result (λ f. IsFieldCalled lower.now self.now f.now) }
        ensures none { IfNone result (is_called lower.now self.now ≡ false) }
    {
        self.fields.get(lower)
    }

    /// Whether a field has this name, in any case. Takes no memory.
    pub fn has(&self, name: &[u8]) -> bool
        ensures { result ≡ stands name.now self.now }
    {
        for field in self.fields() {
            if field.name.as_slice().eq_ignore_ascii_case(name) {
                return true;
            }
        }
        false
    }

    /// The same, but many fields are not gone through one by one.
    pub(crate) fn finds(&self, name: &[u8]) -> Result<bool, AllocError>
        ensures { IfOk result (λ found. found ≡ stands name.now self.now) }
    {
        if self.fields.len() < 32 {
            return Ok(self.has(name));
        }
        let key = key_of(self.alloc, name)?;
        match self.get(key.as_slice()) {
            Some(_) => Ok(true),
            None => Ok(false),
        }
    }

    /// Adds a field at the end; `has` tells whether its name already stands.
    pub fn push(&mut self, field: Field) -> Result<(), AllocError>
        requires { stands field.name self.old ≡ false }
        ensures ok { OnOk result (self.new ≡ self.old ++ field ∷ []) }
        ensures err { OnErr result (self.new ≡ self.old) }
    {
        let key = key_of(self.alloc, field.name.as_slice())?;
        add(&mut self.fields, key, field)
    }

    /// Goes on with the last field.
    pub(crate) fn push_line(&mut self, text: Bytes) -> Result<(), AllocError>
        ensures ok { OnOk result ((front : List AField) (last : AField)
            → self.old ≡ front ++ last ∷ [] → self.new ≡ front ++ with_line last text ∷ []) }
        ensures err { OnErr result (self.new ≡ self.old) }
    {
        let Some(last) = self.fields.last_mut() else {
            return Ok(());
        };
        last.more.push(text)
    }

    // Drops the blanks at the end of the last field's value.
    pub(crate) fn settle(&mut self) -> Result<(), AllocError>
        ensures { OnOk result (self.new ≡ settled_last self.old) }
    {
        let alloc = self.alloc;
        let Some(last) = self.fields.last_mut() else {
            return Ok(());
        };
        last.settle(alloc)
    }

    pub fn copy(&self) -> Result<Paragraph, AllocError>
        ensures { IfOk result (λ p. p ≡ self.now) }
    {
        let mut copied = Paragraph::new(self.alloc);
        for field in self.fields() {
            copied.push(field.copy()?)?;
        }
        Ok(copied)
    }
}
