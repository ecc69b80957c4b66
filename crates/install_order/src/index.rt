// The index of the names that trees bear.
ghost use Rattle.std.specs.Prelude.{◌≡◌, ◌<◌, ◌++◌, ◌∷◌, [], ℕ, List, Some, None, length, IfOk, OnOk, IsTrue};
ghost use Rattle.std.specs.BTreeMap.{get_by_text};
ghost use Rattle.std.specs.List.{Contains};
ghost use Rattle.std.specs.Map.{update};
ghost use Rattle.std.specs.Str.{bytes_eq};
ghost use Rattle.dependency_sets.specs.Sets.{row_at};
ghost use Rattle.install_order.specs.Bearers.{bears, IsIndex};
ghost use Rattle.relation_fields.specs.declared.provides.Provided.{Provided as AProvided};
ghost use Rattle.relation_index.specs.Bearing.{IsEntered, Grows};

use dependency_sets::{Numbers, enter};
use package_tree::ControlFile;
use relation_fields::Provided;
use std::alloc::{AllocError, Global};
use std::collections::BTreeMap;

/// For each name the trees that bear it, by their numbers.
#[derive(Drop)]
pub(crate) struct Index {
    pub(crate) slots: BTreeMap<String, usize>,
    pub(crate) rows: Vec<Numbers>,
}

impl Index {
    // The index of no trees.
    fn new(alloc: Global) -> Index
        ensures slots { (name : List ℕ) → get_by_text result.slots name ≡ None }
        ensures rows { result.rows.items ≡ [] }
    {
        Index {
            slots: BTreeMap::new(alloc),
            rows: Vec::new(alloc),
        }
    }

    fn slot_of(&self, name: &str) -> Option<usize>
        ensures { result ≡ get_by_text self.now.slots name.now }
    {
        self.slots.get(name).copied()
    }

    // A row for a name that has none.
    fn make_slot(&mut self, alloc: Global, name: &str) -> Result<usize, AllocError>
        requires { get_by_text self.old.slots name.now ≡ None }
        ensures slot { IfOk result (λ s. s ≡ length self.old.rows.items) }
        ensures slots { OnOk result (get_by_text self.new.slots ≡ update bytes_eq
            (get_by_text self.old.slots) name.now (Some (length self.old.rows.items))) }
        ensures rows { OnOk result (self.new.rows.items ≡ self.old.rows.items ++ [] ∷ []) }
    {
        let slot = self.rows.len();
        self.rows.push(Numbers::new(alloc))?;
        let key = String::from_str(alloc, name)?;
        self.slots.insert(key, slot)?;
        Ok(slot)
    }

    // The row of a name, which is made where there is none.
    fn slot(&mut self, alloc: Global, name: &str) -> Result<usize, AllocError>
        ensures grows { OnOk result (Grows (get_by_text self.old.slots) self.old.rows.items
            (get_by_text self.new.slots) self.new.rows.items) }
        ensures slot { IfOk result (λ s. get_by_text self.new.slots name.now ≡ Some s) }
    {
        if let Some(slot) = self.slot_of(name) {
            return Ok(slot);
        }
        let slot = self.make_slot(alloc, name)?;
        Ok(slot)
    }

    fn enter(&mut self, alloc: Global, name: &str, number: usize) -> Result<(), AllocError>
        requires within { (n : List ℕ) (s : ℕ) → get_by_text self.old.slots n ≡ Some s
            → s < length self.old.rows.items }
        ensures grows { OnOk result (Grows (get_by_text self.old.slots) self.old.rows.items
            (get_by_text self.new.slots) self.new.rows.items) }
        ensures entered { OnOk result (IsEntered (get_by_text self.new.slots) self.new.rows.items
            name.now number) }
    {
        let slot = self.slot(alloc, name)?;
        enter(&mut self.rows, number, slot)?;
        Ok(())
    }

    fn enter_provided(
        &mut self,
        alloc: Global,
        entries: &[Provided],
        number: usize,
    ) -> Result<(), AllocError>
        requires within { (n : List ℕ) (s : ℕ) → get_by_text self.old.slots n ≡ Some s
            → s < length self.old.rows.items }
        ensures grows { OnOk result (Grows (get_by_text self.old.slots) self.old.rows.items
            (get_by_text self.new.slots) self.new.rows.items) }
        ensures entered { OnOk result ((e : AProvided) → Contains entries.now e
            → IsEntered (get_by_text self.new.slots) self.new.rows.items e.name number) }
    {
        for entry in entries {
            self.enter(alloc, entry.name.as_str(), number)?;
        }
        Ok(())
    }

    // Enters a tree at each name that it bears.
    fn enter_tree(
        &mut self,
        alloc: Global,
        tree: &ControlFile,
        number: usize,
    ) -> Result<(), AllocError>
        requires within { (n : List ℕ) (s : ℕ) → get_by_text self.old.slots n ≡ Some s
            → s < length self.old.rows.items }
        ensures grows { OnOk result (Grows (get_by_text self.old.slots) self.old.rows.items
            (get_by_text self.new.slots) self.new.rows.items) }
        ensures entered { OnOk result ((name : List ℕ) → IsTrue (bears name (Some tree.now))
            → IsEntered (get_by_text self.new.slots) self.new.rows.items name number) }
    {
        self.enter(alloc, tree.name.as_str(), number)?;
        self.enter_provided(alloc, tree.relations.provides.entries(), number)?;
        Ok(())
    }

    fn enter_one(
        &mut self,
        alloc: Global,
        tree: &Option<ControlFile>,
        number: usize,
    ) -> Result<(), AllocError>
        requires within { (n : List ℕ) (s : ℕ) → get_by_text self.old.slots n ≡ Some s
            → s < length self.old.rows.items }
        ensures grows { OnOk result (Grows (get_by_text self.old.slots) self.old.rows.items
            (get_by_text self.new.slots) self.new.rows.items) }
        ensures entered { OnOk result ((name : List ℕ) → IsTrue (bears name tree.now)
            → IsEntered (get_by_text self.new.slots) self.new.rows.items name number) }
    {
        match tree {
            Some(tree) => {
                self.enter_tree(alloc, tree, number)?;
                Ok(())
            }
            None => Ok(()),
        }
    }

    /// The index of the trees.
    pub(crate) fn of(alloc: Global, trees: &[Option<ControlFile>]) -> Result<Index, AllocError>
        ensures { IfOk result (λ i. IsIndex trees.now (get_by_text i.slots) i.rows.items) }
    {
        let mut index = Index::new(alloc);
        for number in 0..trees.len() {
            index.enter_one(alloc, &trees[number], number)?;
        }
        Ok(index)
    }

    /// Numbers among which are those of the trees that bear the name.
    pub(crate) fn row(&self, name: &str) -> &[usize]
        requires within { (n : List ℕ) (s : ℕ) → get_by_text self.now.slots n ≡ Some s
            → s < length self.now.rows.items }
        ensures { (s : ℕ) → get_by_text self.now.slots name.now ≡ Some s
            → result.now ≡ row_at self.now.rows.items s }
    {
        match self.slot_of(name) {
            Some(slot) => self.rows[slot].as_slice(),
            None => &[],
        }
    }
}
