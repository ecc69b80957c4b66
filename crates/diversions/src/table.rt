// The table by itself: its entries in the order of adding, found by path and by target.
ghost use Rattle.std.specs.Prelude.{◌≡◌, List, [], ◌∷◌, ◌++◌, length, ◌<◌, ◌^◌, OnOk, OnErr, MatchBool, option_copied};
ghost use Rattle.std.specs.HashSet.{contains_text};
ghost use Rattle.std.specs.Map.Iter.{ShowsInOrder, deref};
ghost use Rattle.std.specs.String.{string_bytes};
ghost use Rattle.diversions.specs.declared.entry.Diversion.{Diversion as ADiversion};
ghost use Rattle.diversions.specs.Entries.{is_diverted, is_target, entry_of, without, IsFree, IsTable};
ghost use Rattle.diversions.specs.Index.{entries_of, IsIndex};
ghost use Rattle.diversions.specs.Targets.{entry_named};

use crate::entry::Diversion;
use indexmap::map::Values;
use indexmap::{IndexMap, IndexSet};
use std::alloc::{AllocError, Global};
use std::marker::Model;

/// The entries in order. No look-up goes over all of them.
#[derive(Drop)]
pub(crate) struct Table {
    alloc: Global,
    entries: IndexMap<String, Diversion>,
    targets: IndexSet<String>,
}

impl Model for Table {
    ghost use Rattle.std.specs.Prelude.{List};
    ghost use Rattle.std.specs.HashSet.{contains_text};
    ghost use Rattle.std.specs.String.{string_bytes};
    ghost use Rattle.diversions.specs.declared.entry.Diversion.{Diversion as ADiversion};
    ghost use Rattle.diversions.specs.Index.{entries_of, IsIndex};

    ghost Value = { List ADiversion };

    ghost view = { λ t. entries_of t.entries.entries };

    ghost invariant = { λ t. IsIndex string_bytes t.entries.entries (contains_text t.targets) };
}

// Enters one more under its path and its target.
fn enter(
    entries: &mut IndexMap<String, Diversion>,
    targets: &mut IndexSet<String>,
    path: String,
    target: String,
    entry: Diversion,
) -> Result<(), AllocError>
    requires indexed { IsIndex string_bytes entries.old.entries (contains_text targets.old) }
    requires path { string_bytes path ≡ entry.path }
    requires target { string_bytes target ≡ entry.target }
    requires table { IsTable (entries_of entries.old.entries ++ entry ∷ []) }
    ensures indexed { IsIndex string_bytes entries.new.entries (contains_text targets.new) }
    ensures ok { OnOk result
        (entries_of entries.new.entries ≡ entries_of entries.old.entries ++ entry ∷ []) }
    ensures err { OnErr result (entries_of entries.new.entries ≡ entries_of entries.old.entries) }
{
    targets.reserve(1)?;
    entries.insert(path, entry)?;
    targets.insert(target)?;
    Ok(())
}

impl Table {
    pub(crate) fn new(alloc: Global) -> Self
        ensures { result ≡ [] }
    {
        Table {
            alloc,
            entries: IndexMap::new(alloc),
            targets: IndexSet::new(alloc),
        }
    }

    pub(crate) fn alloc(&self) -> Global {
        self.alloc
    }

    /// What holds of each table.
    pub(crate) fn law(&self)
        ensures { IsTable self.now }
    {
        let _ = &self.entries;
    }

    /// The entries in the order of adding.
    pub(crate) fn entries(&self) -> Values<'_, String, Diversion>
        ensures rest { result ≡ self.now }
        ensures runs { ShowsInOrder (deref {X = ADiversion}) }
        ensures fits { length self.now < 2 ^ 63 }
    {
        self.entries.values()
    }

    pub(crate) fn get(&self, path: &str) -> Option<&Diversion>
        ensures { option_copied result ≡ entry_of self.now path.now }
    {
        self.entries.get(path)
    }

    pub(crate) fn is_diverted(&self, path: &str) -> bool
        ensures { result ≡ is_diverted self.now path.now }
    {
        self.get(path).is_some()
    }

    pub(crate) fn is_target(&self, path: &str) -> bool
        ensures { result ≡ is_target self.now path.now }
    {
        self.targets.contains(path)
    }

    /// The entry whose target is this name. Only where there is one the entries are gone over.
    pub(crate) fn entry_named(&self, target: &str) -> Option<&Diversion>
        ensures { option_copied result ≡ entry_named self.now target.now }
    {
        if !self.is_target(target) {
            return None;
        }
        let mut entries = self.entries();
        while let Some(entry) = entries.next() {
            if entry.target.as_str() == target {
                return Some(entry);
            }
        }
        None
    }

    /// Whether a path stands in no entry, neither as diverted nor as target.
    pub(crate) fn is_free(&self, path: &str) -> bool
        ensures { MatchBool result (IsFree self.now path.now) (IsFree self.now path.now → ⊥) }
    {
        !self.is_diverted(path) && !self.is_target(path)
    }

    pub(crate) fn push(&mut self, entry: Diversion) -> Result<(), AllocError>
        requires { IsTable (self.old ++ entry ∷ []) }
        ensures ok { OnOk result (self.new ≡ self.old ++ entry ∷ []) }
        ensures err { OnErr result (self.new ≡ self.old) }
    {
        let path = String::from_str(self.alloc, entry.path.as_str())?;
        let target = String::from_str(self.alloc, entry.target.as_str())?;
        enter(&mut self.entries, &mut self.targets, path, target, entry)
    }

    /// Takes the entry of a path away.
    pub(crate) fn remove(&mut self, path: &str)
        ensures { self.new ≡ without path.now self.old }
    {
        if let Some(entry) = self.entries.shift_remove(path) {
            self.targets.swap_remove(entry.target.as_str());
        }
    }
}
