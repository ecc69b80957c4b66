// The index of names.
ghost use Rattle.std.specs.Prelude.{◌≡◌, ℕ, ◌<◌, ◌++◌, ◌∷◌, [], List, Some, None, length, if◌then◌else◌, IfOk, OnOk, IfSome, IsTrue, ◌↔◌, ◌⊎◌};
ghost use Rattle.std.specs.BTreeMap.{get_by_text};
ghost use Rattle.std.specs.List.{Contains};
ghost use Rattle.std.specs.Map.{update};
ghost use Rattle.std.specs.Str.{bytes_eq};
ghost use Rattle.dependency_sets.specs.Sets.{row_at};
ghost use Rattle.relation_fields.specs.Admission.{admits};
ghost use Rattle.relation_index.specs.Bearing.{bears, IsAdmitted, HasPushed, IsEntered, Grows, IsIndex};
ghost use Rattle.relation_index.specs.Moves.{moved_up, moved_down, Moves};
ghost use Rattle.relation_index.specs.Packages.{Meets};
ghost use Rattle.relation_fields.specs.declared.provides.Provided.{Provided as AProvided};

use crate::package::Package;
use crate::row::{Row, close_gap, make_room};
use dependency_sets::Numbers;
use relation_fields::{Alternative, Provided};
use std::alloc::{AllocError, Global};
use std::collections::BTreeMap;

/// For each name the packages that bear it, by their numbers.
#[derive(Drop)]
pub(crate) struct Index {
    pub(crate) slots: BTreeMap<String, usize>,
    pub(crate) rows: Vec<Row>,
}

impl Index {
    /// The index of no packages.
    pub(crate) fn new(alloc: Global) -> Index
        ensures slots { (name : List ℕ) → get_by_text result.slots name ≡ None }
        ensures rows { result.rows.items ≡ [] }
    {
        Index {
            slots: BTreeMap::new(alloc),
            rows: Vec::new(alloc),
        }
    }

    fn slot_of(&self, name: &str) -> Option<usize>
        ensures { result ≡ get_by_text self.now.slots name.now }
    {
        self.slots.get(name).copied()
    }

    // A row for a name that has none.
    fn make_slot(&mut self, alloc: Global, name: &str) -> Result<usize, AllocError>
        requires { get_by_text self.old.slots name.now ≡ None }
        ensures slot { IfOk result (λ s. s ≡ length self.old.rows.items) }
        ensures slots { OnOk result (get_by_text self.new.slots ≡ update bytes_eq
            (get_by_text self.old.slots) name.now (Some (length self.old.rows.items))) }
        ensures rows { OnOk result (self.new.rows.items ≡ self.old.rows.items ++ [] ∷ []) }
    {
        let slot = self.rows.len();
        self.rows.push(Row::new(alloc))?;
        let key = String::from_str(alloc, name)?;
        self.slots.insert(key, slot)?;
        Ok(slot)
    }
}

fn enter(rows: &mut Vec<Row>, slot: usize, number: usize) -> Result<(), AllocError>
    requires { slot < length rows.old.items }
    ensures kept { OnOk result ((s x : ℕ) → Contains (row_at rows.old.items s) x
        → Contains (row_at rows.new.items s) x) }
    ensures entered { OnOk result (Contains (row_at rows.new.items slot) number) }
    ensures len { OnOk result (length rows.new.items ≡ length rows.old.items) }
{
    rows[slot].enter(number)?;
    Ok(())
}

impl Index {
    // The row of a name, which is made where there is none.
    fn slot(&mut self, alloc: Global, name: &str) -> Result<usize, AllocError>
        ensures grows { OnOk result (Grows (get_by_text self.old.slots) self.old.rows.items
            (get_by_text self.new.slots) self.new.rows.items) }
        ensures slot { IfOk result (λ s. get_by_text self.new.slots name.now ≡ Some s) }
    {
        if let Some(slot) = self.slot_of(name) {
            return Ok(slot);
        }
        let slot = self.make_slot(alloc, name)?;
        Ok(slot)
    }

    fn enter(&mut self, alloc: Global, name: &str, number: usize) -> Result<(), AllocError>
        requires within { (n : List ℕ) (s : ℕ) → get_by_text self.old.slots n ≡ Some s
            → s < length self.old.rows.items }
        ensures grows { OnOk result (Grows (get_by_text self.old.slots) self.old.rows.items
            (get_by_text self.new.slots) self.new.rows.items) }
        ensures entered { OnOk result (IsEntered (get_by_text self.new.slots) self.new.rows.items
            name.now number) }
    {
        let slot = self.slot(alloc, name)?;
        enter(&mut self.rows, slot, number)?;
        Ok(())
    }

    fn enter_provided(
        &mut self,
        alloc: Global,
        entries: &[Provided],
        number: usize,
    ) -> Result<(), AllocError>
        requires within { (n : List ℕ) (s : ℕ) → get_by_text self.old.slots n ≡ Some s
            → s < length self.old.rows.items }
        ensures grows { OnOk result (Grows (get_by_text self.old.slots) self.old.rows.items
            (get_by_text self.new.slots) self.new.rows.items) }
        ensures entered { OnOk result ((e : AProvided) → Contains entries.now e
            → IsEntered (get_by_text self.new.slots) self.new.rows.items e.name number) }
    {
        for entry in entries {
            self.enter(alloc, entry.name.as_str(), number)?;
        }
        Ok(())
    }

    /// Enters a package at each name that it bears.
    pub(crate) fn enter_package(
        &mut self,
        alloc: Global,
        of: &Package,
        number: usize,
    ) -> Result<(), AllocError>
        requires within { (n : List ℕ) (s : ℕ) → get_by_text self.old.slots n ≡ Some s
            → s < length self.old.rows.items }
        ensures grows { OnOk result (Grows (get_by_text self.old.slots) self.old.rows.items
            (get_by_text self.new.slots) self.new.rows.items) }
        ensures entered { OnOk result ((name : List ℕ) → IsTrue (bears name of.now)
            → IsEntered (get_by_text self.new.slots) self.new.rows.items name number) }
    {
        self.enter(alloc, of.name.as_str(), number)?;
        self.enter_provided(alloc, of.provides.entries(), number)?;
        Ok(())
    }

    /// The index of the packages.
    pub(crate) fn of(alloc: Global, packages: &[Package]) -> Result<Index, AllocError>
        ensures { IfOk result (λ i. IsIndex packages.now (get_by_text i.slots) i.rows.items) }
    {
        let mut index = Index::new(alloc);
        for (number, of) in packages.iter().enumerate() {
            index.enter_package(alloc, of, number)?;
        }
        Ok(index)
    }

    /// The packages from this number on stand one higher; there were so many packages.
    pub(crate) fn make_room(&mut self, at: usize, count: usize)
        ensures { Moves (moved_up at count) (get_by_text self.old.slots) self.old.rows.items
            (get_by_text self.new.slots) self.new.rows.items }
    {
        make_room(&mut self.rows, at, count);
    }

    /// The packages behind this number stand one lower.
    pub(crate) fn close_gap(&mut self, at: usize)
        ensures { Moves (moved_down at) (get_by_text self.old.slots) self.old.rows.items
            (get_by_text self.new.slots) self.new.rows.items }
    {
        close_gap(&mut self.rows, at);
    }

    fn row(&self, name: &str) -> &[usize]
        requires within { (n : List ℕ) (s : ℕ) → get_by_text self.now.slots n ≡ Some s
            → s < length self.now.rows.items }
        ensures { (s : ℕ) → get_by_text self.now.slots name.now ≡ Some s
            → result.now ≡ row_at self.now.rows.items s }
    {
        match self.slot_of(name) {
            Some(slot) => self.rows[slot].as_slice(),
            None => &[],
        }
    }

    /// The packages that meet a clause: the same as a look through all of them finds.
    pub(crate) fn meeters(
        &self,
        alloc: Global,
        clause: &[Alternative],
        packages: &[Package],
    ) -> Result<Numbers, AllocError>
        requires index { IsIndex packages.now (get_by_text self.now.slots) self.now.rows.items }
        ensures { IfOk result (λ list. (x : ℕ) → Contains list x ↔ Meets clause.now packages.now
            x) }
    {
        let mut list = Numbers::new(alloc);
        for alternative in clause {
            push_admitted(
                &mut list,
                alternative,
                self.row(alternative.name.as_str()),
                packages,
            )?;
        }
        Ok(list)
    }
}

fn push_if_admitted(
    list: &mut Numbers,
    alternative: &Alternative,
    number: usize,
    packages: &[Package],
) -> Result<(), AllocError>
    ensures kept { OnOk result ((x : ℕ) → Contains list.old x → Contains list.new x) }
    ensures pushed { OnOk result (IsAdmitted alternative.now packages.now number
        → Contains list.new number) }
    ensures no_more { OnOk result ((x : ℕ) → Contains list.new x → Contains list.old x
        ⊎ IsAdmitted alternative.now packages.now x) }
{
    let Some(of) = packages.get(number) else {
        return Ok(());
    };
    if of.is_admitted(alternative) {
        list.push(number)?;
    }
    Ok(())
}

fn push_admitted(
    list: &mut Numbers,
    alternative: &Alternative,
    numbers: &[usize],
    packages: &[Package],
) -> Result<(), AllocError>
    ensures { OnOk result (HasPushed alternative.now packages.now numbers.now list.old list.new) }
{
    for number in numbers {
        push_if_admitted(list, alternative, *number, packages)?;
    }
    Ok(())
}
