// The table of the records.
ghost use Rattle.std.specs.Prelude.{◌≡◌, List, [], false, IfOk, OnOk, OnErr, ℕ, is_some};
ghost use Rattle.std.specs.Option.{option_copied};
ghost use Rattle.status_records.specs.declared.record.Record.{Record as ARecord};
ghost use Rattle.status_db.specs.Order.{AreInOrder};
ghost use Rattle.status_records.specs.Records.{AreStanding, record_in, put_record, drop_record, standing};
ghost use Rattle.status_records.specs.Words.{is_not_installed};

use name_tables::NameTable;
use status_records::Record;
use std::alloc::{AllocError, Global};
use std::marker::Model;
use texts::Text;

/// The records by themselves, in the order of names; none of them is of state not-installed.
#[derive(Drop)]
pub(crate) struct Table {
    records: NameTable<Record>,
}

impl Model for Table {
    ghost Value = { List ARecord };

    ghost view = { λ t. t.records };

    ghost invariant = { λ t. AreStanding t.records };
}

// Puts records into a table, the last of them first.
fn put_all(alloc: Global, mut records: Vec<Record>) -> Result<Table, AllocError>
    requires { standing records.items ≡ records.items }
    ensures { IfOk result (λ t. (name : List ℕ) → record_in t name ≡ record_in records.items name) }
{
    let mut table = Table::new(alloc);
    while let Some(record) = records.pop() {
        table.put(record)?;
    }
    Ok(table)
}

impl Table {
    pub(crate) fn new(alloc: Global) -> Table
        ensures { result ≡ [] }
    {
        Table {
            records: NameTable::new(alloc),
        }
    }

    /// The records of a file, of which the first of a name counts.
    pub(crate) fn of_records(alloc: Global, records: Vec<Record>) -> Result<Table, AllocError>
        requires { standing records.items ≡ records.items }
        ensures { IfOk result (λ t. (name : List ℕ) → record_in t name ≡ record_in records.items
            name) }
    {
        match NameTable::in_order(records) {
            Ok(records) => Ok(Table { records }),
            Err(records) => put_all(alloc, records),
        }
    }

    /// What holds of all tables.
    pub(crate) fn law(&self)
        ensures order { AreInOrder self.now }
        ensures standing { standing self.now ≡ self.now }
    {
        self.records.law();
    }

    pub(crate) fn as_slice(&self) -> &[Record]
        ensures { result.now ≡ self.now }
    {
        self.records.as_slice()
    }

    pub(crate) fn get(&self, name: &Text) -> Option<&Record>
        ensures { option_copied result ≡ record_in self.now name.now }
    {
        self.records.get(name)
    }

    pub(crate) fn has(&self, name: &Text) -> bool
        ensures { result ≡ is_some (record_in self.now name.now) }
    {
        self.get(name).is_some()
    }

    /// Puts a record in the place of that of its name, or in among the others.
    pub(crate) fn put(&mut self, entry: Record) -> Result<(), AllocError>
        requires { is_not_installed entry.state ≡ false }
        ensures ok { OnOk result (self.new ≡ put_record entry self.old) }
        ensures err { OnErr result (self.new ≡ self.old) }
    {
        self.records.put(entry)?;
        Ok(())
    }

    /// Takes the record of a name out, where there is one.
    pub(crate) fn remove(&mut self, name: &Text)
        ensures { self.new ≡ drop_record name.now self.old }
    {
        self.records.remove(name);
    }
}
