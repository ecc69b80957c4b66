// The conffiles of a record, in path order.
ghost use Rattle.std.specs.Prelude.{◌≡◌, ◌++◌, ◌∷◌, [], ◌≤◌, ℕ, List, map, true, false, length, IfOk, OnOk, OnErr};
ghost use Rattle.std.specs.List.{list_all, insert, AllByRecursion};
ghost use Rattle.status_records.specs.declared.entries.ConffileEntry.{ConffileEntry as AConffileEntry};
ghost use Rattle.status_records.specs.declared.entries.PendingDigest.{PendingDigest as APendingDigest};
ghost use Rattle.status_records.specs.ConffilePaths.{is_before, AreInOrder, placed_by};

use crate::entries::{ConffileEntry, PendingDigest};
use host_core::ShipPath;
use std::alloc::{AllocError, Global};
use std::cmp::Ordering;
use std::marker::Model;

/// The conffiles of a record, in path order, each path once.
#[derive(Drop)]
pub struct ConffileEntries {
    alloc: Global,
    items: Vec<ConffileEntry>,
}

impl Model for ConffileEntries {
    ghost Value = { List AConffileEntry };

    ghost view = { λ e. e.items.items };

    ghost invariant = { λ e. AreInOrder (map (λ x. x.path) e.items.items) };
}

/// The digests that aren't settled yet, in path order, each path once.
#[derive(Drop)]
pub struct PendingDigests {
    alloc: Global,
    items: Vec<PendingDigest>,
}

impl Model for PendingDigests {
    ghost Value = { List APendingDigest };

    ghost view = { λ p. p.items.items };

    ghost invariant = { λ p. AreInOrder (map (λ x. x.path) p.items.items) };
}

fn is_before(path: &ShipPath, other: &ShipPath) -> bool
    ensures { result ≡ is_before path.now other.now }
{
    path.as_str().as_bytes().cmp(other.as_str().as_bytes()) == Ordering::Less
}

// The index of the first entry whose path isn't before this one.
fn place_of(entries: &[ConffileEntry], path: &ShipPath) -> usize
    ensures within { result ≤ length entries.now }
    ensures place { (e : AConffileEntry) → e.path ≡ path.now → placed_by (λ x. x.path) e entries.now
        ≡ insert entries.now result e }
{
    for (i, entry) in entries.iter().enumerate() {
        if !is_before(&entry.path, path) {
            return i;
        }
    }
    entries.len()
}

fn place_of_pending(pending: &[PendingDigest], path: &ShipPath) -> usize
    ensures within { result ≤ length pending.now }
    ensures place { (p : APendingDigest) → p.path ≡ path.now → placed_by (λ x. x.path) p pending.now
        ≡ insert pending.now result p }
{
    for (i, digest) in pending.iter().enumerate() {
        if !is_before(&digest.path, path) {
            return i;
        }
    }
    pending.len()
}

impl ConffileEntries {
    ghost use Rattle.status_records.specs.Conffiles.{has_entry};

    pub fn new(alloc: Global) -> ConffileEntries
        ensures { result ≡ [] }
    {
        ConffileEntries {
            alloc,
            items: Vec::new(alloc),
        }
    }

    pub fn as_slice(&self) -> &[ConffileEntry]
        ensures { result.now ≡ self.now }
    {
        self.items.as_slice()
    }

    /// Whether one of them has this path.
    pub fn has(&self, path: &ShipPath) -> bool
        ensures { result ≡ has_entry self.now path.now }
    {
        self.items
            .iter()
            .any(|entry| path.as_str() == entry.path.as_str())
    }

    /// Puts an entry in its place; `has` tells whether its path stands already.
    pub fn put(&mut self, entry: ConffileEntry) -> Result<(), AllocError>
        requires { has_entry self.old entry.path ≡ false }
        ensures ok { OnOk result (self.new ≡ placed_by (λ e. e.path) entry self.old) }
        ensures err { OnErr result (self.new ≡ self.old) }
    {
        let place = place_of(self.items.as_slice(), &entry.path);
        self.items.insert(place, entry)?;
        Ok(())
    }

    /// Adds an entry behind all others.
    pub fn push(&mut self, entry: ConffileEntry) -> Result<(), AllocError>
        requires { AllByRecursion (λ e. is_before e.path entry.path ≡ true) self.old }
        ensures ok { OnOk result (self.new ≡ self.old ++ entry ∷ []) }
        ensures err { OnErr result (self.new ≡ self.old) }
    {
        self.items.push(entry)?;
        Ok(())
    }

    /// What holds of all such entries.
    pub fn law(&self)
        ensures { AreInOrder (map (λ e. e.path) self.now) }
    {
        let _ = &self.items;
    }

    /// Equal entries, or want of memory.
    pub fn copy(&self) -> Result<ConffileEntries, AllocError>
        ensures { IfOk result (λ copy. copy ≡ self.now) }
    {
        let mut items = Vec::new(self.alloc);
        for entry in &self.items {
            items.push(entry.copy()?)?;
        }
        Ok(ConffileEntries {
            alloc: self.alloc,
            items,
        })
    }
}

impl PendingDigests {
    ghost use Rattle.status_records.specs.Conffiles.{has_pending};

    pub fn new(alloc: Global) -> PendingDigests
        ensures { result ≡ [] }
    {
        PendingDigests {
            alloc,
            items: Vec::new(alloc),
        }
    }

    pub fn as_slice(&self) -> &[PendingDigest]
        ensures { result.now ≡ self.now }
    {
        self.items.as_slice()
    }

    /// Whether one of them has this path.
    pub fn has(&self, path: &ShipPath) -> bool
        ensures { result ≡ has_pending self.now path.now }
    {
        self.items
            .iter()
            .any(|digest| path.as_str() == digest.path.as_str())
    }

    /// Puts a digest in its place; `has` tells whether its path stands already.
    pub fn put(&mut self, digest: PendingDigest) -> Result<(), AllocError>
        requires { has_pending self.old digest.path ≡ false }
        ensures ok { OnOk result (self.new ≡ placed_by (λ p. p.path) digest self.old) }
        ensures err { OnErr result (self.new ≡ self.old) }
    {
        let place = place_of_pending(self.items.as_slice(), &digest.path);
        self.items.insert(place, digest)?;
        Ok(())
    }

    /// What holds of all such digests.
    pub fn law(&self)
        ensures { AreInOrder (map (λ p. p.path) self.now) }
    {
        let _ = &self.items;
    }

    /// Equal ones, or want of memory.
    pub fn copy(&self) -> Result<PendingDigests, AllocError>
        ensures { IfOk result (λ copy. copy ≡ self.now) }
    {
        let mut items = Vec::new(self.alloc);
        for digest in &self.items {
            items.push(digest.copy()?)?;
        }
        Ok(PendingDigests {
            alloc: self.alloc,
            items,
        })
    }
}
