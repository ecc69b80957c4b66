// The conffiles that would be recorded of packages that a command touched.
ghost use Rattle.std.specs.Prelude.{◌≡◌, ◌++◌, ℕ, List, IfOk, OnOk, flat_map};
ghost use Rattle.std.specs.Option.{option_copied};
ghost use Rattle.foretold_changes.specs.Staying.{conffile_at, conffiles_in, conffiles_of, is_other, is_told};

use crate::looking::{LookedOver, LookedPath};
use conffiles::Digest;
use diversions::Diversions;
use host_core::RootPath;
use inquiries::SeenAll;
use status_db::NotedDatabase;
use status_records::{ConffileEntry, Record, record_text};
use std::alloc::{AllocError, Global};
use texts::Text;

/// A conffile: its package, where it is, and the digest that would be recorded.
#[derive(Drop)]
pub struct Conffile {
    pub name: Text,
    pub at: RootPath,
    pub digest: Option<Digest>,
}

impl Conffile {
    /// An equal value, or want of memory.
    pub(crate) fn copy(&self) -> Result<Conffile, AllocError>
        ensures { IfOk result (λ copy. copy ≡ self.now) }
    {
        Ok(Conffile {
            name: self.name.copy()?,
            at: self.at.copy()?,
            digest: self.digest,
        })
    }
}

fn is_other(alloc: Global, before: Option<&Record>, entry: &Record) -> Result<bool, AllocError>
    ensures { IfOk result (λ other. other ≡ is_other (option_copied before.entry) entry.now) }
{
    let Some(before) = before else {
        return Ok(true);
    };
    let first = record_text(alloc, before)?;
    let second = record_text(alloc, entry)?;
    Ok(first.as_slice() != second.as_slice())
}

fn is_told(looked: &[LookedPath], path: &RootPath) -> bool
    ensures { result ≡ is_told looked.now path.now }
{
    looked.iter().any(|it| it.path.as_str() == path.as_str() && it.found.is_some())
}

fn add_conffile(
    looked: &[LookedPath],
    diversions: &Diversions,
    name: &Text,
    entry: &ConffileEntry,
    conffiles: &mut Vec<Conffile>,
) -> Result<(), AllocError>
    ensures { OnOk result (conffiles.new.items ≡ conffiles.old.items
        ++ conffile_at looked.now diversions.now.ways name.now entry.now) }
{
    let at = diversions.ship_place(name, &entry.path)?.at()?;
    if is_told(looked, &at) {
        return Ok(());
    }
    conffiles.push(Conffile {
        name: name.copy()?,
        at,
        digest: entry.digest,
    })?;
    Ok(())
}

fn add_entries(
    looked: &[LookedPath],
    diversions: &Diversions,
    name: &Text,
    entries: &[ConffileEntry],
    conffiles: &mut Vec<Conffile>,
) -> Result<(), AllocError>
    ensures { OnOk result (conffiles.new.items ≡ conffiles.old.items
        ++ flat_map (conffile_at looked.now diversions.now.ways name.now) entries.now) }
{
    for entry in entries {
        add_conffile(looked, diversions, name, entry, conffiles)?;
    }
    Ok(())
}

fn add_conffiles(
    alloc: Global,
    looked: &[LookedPath],
    database: &NotedDatabase,
    diversions: &Diversions,
    entry: &Record,
    conffiles: &mut Vec<Conffile>,
) -> Result<(), AllocError>
    ensures { OnOk result (conffiles.new.items ≡ conffiles.old.items
        ++ conffiles_of looked.now database.now.records diversions.now.ways entry.now) }
{
    if !is_other(alloc, database.get(&entry.name), entry)? {
        return Ok(());
    }
    add_entries(
        looked,
        diversions,
        &entry.name,
        entry.conffiles.as_slice(),
        conffiles,
    )
}

fn add_each(
    alloc: Global,
    looked: &[LookedPath],
    database: &NotedDatabase,
    diversions: &Diversions,
    entries: &[Record],
    conffiles: &mut Vec<Conffile>,
) -> Result<(), AllocError>
    ensures { OnOk result (conffiles.new.items ≡ conffiles.old.items ++ flat_map
        (conffiles_of looked.now database.now.records diversions.now.ways) entries.now) }
{
    for entry in entries {
        add_conffiles(alloc, looked, database, diversions, entry, conffiles)?;
    }
    Ok(())
}

/// Those at whose places nothing would be changed.
pub(crate) fn conffiles_in(
    alloc: Global,
    before: &SeenAll,
    over: &LookedOver,
) -> Result<Vec<Conffile>, AllocError>
    ensures { IfOk result (λ conffiles. conffiles.items
        ≡ conffiles_in over.now.looked.items before.now over.now.to_come) }
{
    let mut conffiles = Vec::new(alloc);
    let now = &over.to_come.opened;
    add_each(
        alloc,
        over.looked.as_slice(),
        &before.opened.database,
        &now.diversions,
        now.database.records(),
        &mut conffiles,
    )?;
    Ok(conffiles)
}
