// A table of values by their names.
ghost use Rattle.std.specs.Prelude.{◌≡◌, [], IfOk, IfErr, OnOk, OnErr};
ghost use Rattle.std.specs.Option.{option_copied};
ghost use Rattle.name_tables.specs.Order.{AreInOrder};
ghost use Rattle.name_tables.specs.Tables.{value_in, drop_value, put_value};

use crate::named::Named;
use crate::places::{are_in_order, is_there, place_of};
use std::alloc::{AllocError, Global};
use std::marker::Model;
use texts::Text;

/// Values in the order of their names' bytes, each name once.
#[derive(Drop)]
pub struct NameTable<T: Named> {
    values: Vec<T>,
}

impl<T: Named> Model for NameTable<T> {
    ghost use Rattle.std.specs.Prelude.{List};
    ghost use Rattle.name_tables.specs.Order.{AreInOrder};

    ghost Value = { List T };

    ghost view = { λ t. t.values.items };

    ghost invariant = { λ t. AreInOrder T.called t.values.items };
}

impl<T: Named> NameTable<T> {
    pub fn new(alloc: Global) -> NameTable<T>
        ensures { result ≡ [] }
    {
        NameTable {
            values: Vec::new(alloc),
        }
    }

    /// These values as they stand.
    pub fn of(values: Vec<T>) -> NameTable<T>
        requires { AreInOrder T.called values.items }
        ensures { result ≡ values.items }
    {
        NameTable { values }
    }

    /// These values as they stand, or they come back where they aren't in name order.
    pub fn in_order(values: Vec<T>) -> Result<NameTable<T>, Vec<T>>
        ensures ok { IfOk result (λ t. t ≡ values.items) }
        ensures order { IfOk result (λ t. AreInOrder T.called values.items) }
        ensures back { IfErr result (λ left. left ≡ values) }
        ensures no_order { IfErr result (λ left. AreInOrder T.called values.items → ⊥) }
    {
        if are_in_order(values.as_slice()) {
            return Ok(NameTable { values });
        }
        Err(values)
    }

    /// What holds of all tables.
    pub fn law(&self)
        ensures { AreInOrder T.called self.now }
    {
        let _ = &self.values;
    }

    pub fn as_slice(&self) -> &[T]
        ensures { result.now ≡ self.now }
    {
        self.values.as_slice()
    }

    pub fn get(&self, name: &Text) -> Option<&T>
        ensures { option_copied result ≡ value_in T.called self.now name.now }
    {
        let values = self.values.as_slice();
        let at = place_of(values, name);
        if is_there(values, name, at) {
            return Some(&values[at]);
        }
        None
    }

    /// Puts a value in the place of that of its name, or in among the others.
    pub fn put(&mut self, value: T) -> Result<(), AllocError>
        ensures ok { OnOk result (self.new ≡ put_value T.called value self.old) }
        ensures err { OnErr result (self.new ≡ self.old) }
    {
        let at = place_of(self.values.as_slice(), value.name());
        if is_there(self.values.as_slice(), value.name(), at) {
            self.values[at] = value;
            return Ok(());
        }
        self.values.insert(at, value)?;
        Ok(())
    }

    /// Takes the value of a name out, where there is one.
    pub fn remove(&mut self, name: &Text)
        ensures { self.new ≡ drop_value T.called name.now self.old }
    {
        let at = place_of(self.values.as_slice(), name);
        if is_there(self.values.as_slice(), name, at) {
            let _ = self.values.remove(at);
        }
    }
}
