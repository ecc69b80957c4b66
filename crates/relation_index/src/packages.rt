// Packages in name order.
ghost use Rattle.std.specs.Prelude.{◌≡◌, [], IfOk, OnOk, OnErr, IsTrue, ◌↔◌, MatchOption};
ghost use Rattle.std.specs.BTreeMap.{get_by_text};
ghost use Rattle.name_tables.specs.Order.{IsPlaceOf, IsThere};
ghost use Rattle.relation_index.specs.Bearing.{AreIndexed};
ghost use Rattle.relation_index.specs.Order.{name_of};
ghost use Rattle.relation_index.specs.Packages.{AreInNameOrder, AreMeeters, AreClauses, drop_package, put_package};

use crate::clauses::clauses_of;
use crate::index::Index;
use crate::package::Package;
use dependency_sets::Numbers;
use name_tables::{are_in_order, is_there, place_of};
use relation_fields::Clause;
use std::alloc::{AllocError, Global};
use std::marker::Model;
use texts::Text;

/// Packages in name order, found by the names that they bear.
#[derive(Drop)]
pub struct Packages {
    packages: Vec<Package>,
    index: Index,
}

impl Model for Packages {
    ghost use Rattle.std.specs.Prelude.{List};
    ghost use Rattle.std.specs.BTreeMap.{get_by_text};
    ghost use Rattle.relation_index.specs.declared.package.Package.{Package as APackage};
    ghost use Rattle.relation_index.specs.Bearing.{AreIndexed};

    ghost Value = { List APackage };

    ghost view = { λ p. p.packages.items };

    ghost invariant = { λ p. AreIndexed p.packages.items (get_by_text p.index.slots) p.index.rows.items };
}

fn are_in_name_order(packages: &[Package]) -> bool
    ensures { IsTrue result ↔ AreInNameOrder packages.now }
{
    are_in_order(packages)
}

// A package in the place of the one of its name.
fn replace(
    alloc: Global,
    packages: &mut Vec<Package>,
    index: &mut Index,
    at: usize,
    entry: Package,
) -> Result<(), AllocError>
    requires place { IsPlaceOf name_of packages.old.items entry.name at }
    requires there { IsThere name_of packages.old.items entry.name at }
    requires indexed { AreIndexed packages.old.items (get_by_text index.old.slots)
        index.old.rows.items }
    ensures packages { OnOk result (packages.new.items ≡ put_package entry packages.old.items) }
    ensures indexed { OnOk result (AreIndexed packages.new.items (get_by_text index.new.slots)
        index.new.rows.items) }
{
    index.enter_package(alloc, &entry, at)?;
    packages[at] = entry;
    Ok(())
}

// A package in among the others.
fn insert(
    alloc: Global,
    packages: &mut Vec<Package>,
    index: &mut Index,
    at: usize,
    entry: Package,
) -> Result<(), AllocError>
    requires place { IsPlaceOf name_of packages.old.items entry.name at }
    requires absent { IsThere name_of packages.old.items entry.name at → ⊥ }
    requires indexed { AreIndexed packages.old.items (get_by_text index.old.slots)
        index.old.rows.items }
    ensures packages { OnOk result (packages.new.items ≡ put_package entry packages.old.items) }
    ensures indexed { OnOk result (AreIndexed packages.new.items (get_by_text index.new.slots)
        index.new.rows.items) }
{
    index.make_room(at, packages.len());
    index.enter_package(alloc, &entry, at)?;
    packages.insert(at, entry)?;
    Ok(())
}

fn put(
    alloc: Global,
    packages: &mut Vec<Package>,
    index: &mut Index,
    entry: Package,
) -> Result<(), AllocError>
    requires { AreIndexed packages.old.items (get_by_text index.old.slots) index.old.rows.items }
    ensures packages { OnOk result (packages.new.items ≡ put_package entry packages.old.items) }
    ensures indexed { OnOk result (AreIndexed packages.new.items (get_by_text index.new.slots)
        index.new.rows.items) }
{
    let at = place_of(packages.as_slice(), &entry.name);
    if is_there(packages.as_slice(), &entry.name, at) {
        return replace(alloc, packages, index, at, entry);
    }
    insert(alloc, packages, index, at, entry)
}

fn remove(packages: &mut Vec<Package>, index: &mut Index, name: &Text)
    requires { AreIndexed packages.old.items (get_by_text index.old.slots) index.old.rows.items }
    ensures packages { packages.new.items ≡ drop_package name.now packages.old.items }
    ensures indexed { AreIndexed packages.new.items (get_by_text index.new.slots)
        index.new.rows.items }
{
    let at = place_of(packages.as_slice(), name);
    if is_there(packages.as_slice(), name, at) {
        let _ = packages.remove(at);
        index.close_gap(at);
    }
}

impl Packages {
    pub fn new(alloc: Global) -> Packages
        ensures { result ≡ [] }
    {
        Packages {
            packages: Vec::new(alloc),
            index: Index::new(alloc),
        }
    }

    /// The packages with their index; none where they aren't in name order.
    pub fn of(alloc: Global, packages: Vec<Package>) -> Result<Option<Packages>, AllocError>
        ensures { IfOk result (λ found. MatchOption found (AreInNameOrder packages.items
            → ⊥) (λ p. (p ≡ packages.items) × AreInNameOrder packages.items)) }
    {
        if !are_in_name_order(packages.as_slice()) {
            return Ok(None);
        }
        let index = Index::of(alloc, packages.as_slice())?;
        Ok(Some(Packages { packages, index }))
    }

    pub fn as_slice(&self) -> &[Package]
        ensures list { result.now ≡ self.now }
        ensures ordered { AreInNameOrder self.now }
    {
        self.packages.as_slice()
    }

    /// The packages that meet a clause: the same as a look through all of them finds.
    pub fn meeters(&self, alloc: Global, clause: &Clause) -> Result<Numbers, AllocError>
        ensures { IfOk result (AreMeeters self.now clause.now) }
    {
        let packages = self.packages.as_slice();
        let numbers = self.index.meeters(alloc, clause.alternatives(), packages)?;
        Ok(numbers)
    }

    /// The clauses of Depends and Pre-Depends of all packages, each with those that meet it.
    pub fn clauses(&self, alloc: Global) -> Result<Vec<dependency_sets::Clause>, AllocError>
        ensures { IfOk result (λ list. AreClauses self.now list.items) }
    {
        clauses_of(alloc, &self.index, self.packages.as_slice())
    }

    /// Puts a package in the place of the one of its name, or among the others by its name. Where memory is wanting
    /// there are no packages any more.
    pub fn put(&mut self, alloc: Global, entry: Package) -> Result<(), AllocError>
        ensures ok { OnOk result (self.new ≡ put_package entry self.old) }
        ensures err { OnErr result (self.new ≡ []) }
    {
        match put(alloc, &mut self.packages, &mut self.index, entry) {
            Ok(()) => Ok(()),
            Err(fault) => {
                self.packages = Vec::new(alloc);
                self.index = Index::new(alloc);
                Err(fault)
            }
        }
    }

    /// Takes the package of a name away, where there is one.
    pub fn remove(&mut self, name: &Text)
        ensures { self.new ≡ drop_package name.now self.old }
    {
        remove(&mut self.packages, &mut self.index, name);
    }
}
