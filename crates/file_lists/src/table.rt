// The table of the lists.
ghost use Rattle.std.specs.Prelude.{◌≡◌, ◌++◌, [], List, ℕ, IfOk, OnOk, OnErr, IfSome, IfNone, ◌<◌, ◌≤◌, length, Contains, ◌↔◌, map};
ghost use Rattle.std.specs.List.{insert};
ghost use Rattle.file_lists.specs.declared.paths.PackageList.{PackageList as AList};
ghost use Rattle.file_lists.specs.Owners.{AreLists, AreListPaths, names_of, paths_of, places_in};
ghost use Rattle.diversions.specs.Ways.{place};
ghost use Rattle.file_lists.specs.Table.{IsAt, IsSet};
ghost use Rattle.file_lists.specs.Writing.{package_list, with_list, with_paths_at};

use crate::ordering::sorted;
use crate::paths::{PackageList, Paths};
use diversions::Diversions;
use host_core::{Places, RootPath};
use name_tables::{find, place_of};
use std::alloc::{AllocError, Global};
use std::marker::Model;
use texts::Text;

/// The lists by themselves, in the order of names.
#[derive(Drop)]
pub(crate) struct Table {
    lists: Vec<PackageList>,
}

impl Model for Table {
    ghost Value = { List AList };

    ghost view = { λ t. t.lists.items };

    ghost invariant = { λ t. AreLists t.lists.items };
}

/// Adds the places of a package's paths.
pub(crate) fn take_places(
    diversions: &Diversions,
    name: &Text,
    paths: &[RootPath],
    places: &mut Places,
) -> Result<(), AllocError>
    ensures { OnOk result
        (places.new ≡ places.old ++ map (place diversions.now.ways name.now) paths.now) }
{
    for path in paths {
        places.items.push(diversions.place(name, path)?)?;
    }
    Ok(())
}

impl Table {
    /// One list without paths for each of these names.
    pub(crate) fn of_names(alloc: Global, names: &[Text]) -> Result<Table, AllocError>
        ensures names { IfOk result
            (λ t. (n : List ℕ) → Contains (names_of t) n ↔ Contains names.now n) }
        ensures empty { IfOk result (λ t. (n : List ℕ) → paths_of t n ≡ []) }
    {
        let mut set = sorted(alloc, names)?;
        let mut lists = Vec::new(alloc);
        while let Some(name) = set.pop_first() {
            lists.push(PackageList {
                name: Text::new(name),
                paths: Paths {
                    items: Vec::new(alloc),
                },
            })?;
        }
        Ok(Table { lists })
    }

    /// What holds of each table.
    pub(crate) fn law(&self)
        ensures { AreLists self.now }
    {
        let _ = &self.lists;
    }

    /// Where the list of a name stands.
    pub(crate) fn find(&self, name: &[u8]) -> Option<usize>
        ensures some { IfSome result (λ at. IsAt self.now name.now at) }
        ensures none { IfNone result (Contains (names_of self.now) name.now → ⊥) }
    {
        find(self.lists.as_slice(), name)
    }

    /// Gives the list that stands there other paths.
    pub(crate) fn set(&mut self, at: usize, paths: Paths)
        requires at { at < length self.old }
        requires paths { AreListPaths paths }
        ensures value { self.new ≡ with_paths_at at paths self.old }
        ensures set { IsSet at paths self.old self.new }
    {
        self.lists[at].paths = paths;
    }

    /// Takes a list of a package that had none, and tells where it stands.
    pub(crate) fn insert(&mut self, name: Text, paths: Paths) -> Result<usize, AllocError>
        requires other { Contains (names_of self.old) name → ⊥ }
        requires paths { AreListPaths paths }
        ensures ok { OnOk result (self.new ≡ with_list name paths self.old) }
        ensures place { IfOk result (λ at. at ≤ length self.old) }
        ensures there { IfOk result
            (λ at. self.new ≡ insert self.old at (package_list name paths)) }
        ensures err { OnErr result (self.new ≡ self.old) }
    {
        let at = place_of(self.lists.as_slice(), &name);
        self.lists.insert(at, PackageList { name, paths })?;
        Ok(at)
    }

    pub(crate) fn list_of(&self, name: &Text) -> &[RootPath]
        ensures { result.now ≡ paths_of self.now name.now }
    {
        match self.find(name.as_str().as_bytes()) {
            Some(at) => self.lists[at].paths.as_slice(),
            None => &[],
        }
    }

    pub(crate) fn alloc(&self) -> Global {
        *self.lists.allocator()
    }

    pub(crate) fn as_slice(&self) -> &[PackageList]
        ensures { result.now ≡ self.now }
    {
        self.lists.as_slice()
    }

    pub(crate) fn places(
        &self,
        alloc: Global,
        diversions: &Diversions,
    ) -> Result<Places, AllocError>
        ensures { IfOk result (λ ps. ps ≡ places_in diversions.now.ways self.now) }
    {
        let mut places = Places {
            items: Vec::new(alloc),
        };
        for list in &self.lists {
            take_places(diversions, &list.name, list.paths.as_slice(), &mut places)?;
        }
        Ok(places)
    }
}
