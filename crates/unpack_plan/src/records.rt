// The records of the package beside an unpack.
ghost use Rattle.std.specs.Prelude.{◌≡◌, IfOk};
ghost use Rattle.std.specs.BTreeSet.{contains_text};
ghost use Rattle.std.specs.Option.{option_copied};
ghost use Rattle.status_records.specs.Conffiles.{committed_entries as committed};
ghost use Rattle.unpack_plan.specs.Records.{entries_of, IsFresh, IsIncoming};
ghost use Rattle.unpack_plan.specs.Yielded.{counted_entries};

use crate::digests::digests_of;
use crate::texts_of::shipped_texts;
use crate::yielded::{Yielding, counted_entries};
use host_core::ShipPath;
use package_tree::Package;
use status_records::{
    ConffileEntries, Flag, PendingDigests, Record, Ships, State, committed_entries,
};
use std::alloc::{AllocError, Global};
use std::collections::BTreeSet;

// The texts of the paths that a package ships.
#[derive(Drop)]
struct ShippedPaths {
    texts: BTreeSet<String>,
}

impl Ships for ShippedPaths {
    ghost shipped = { λ s. contains_text s.texts };

    fn ships(&self, path: &ShipPath) -> bool {
        self.texts.contains(path.as_str())
    }
}

// The record of a package as its tree tells of it: unpacked, wanted installed, without conffiles.
fn incoming_record(alloc: Global, tree: &Package) -> Result<Record, AllocError>
    ensures { IfOk result (IsIncoming tree.now) }
{
    let record = Record::of_package(
        alloc,
        &tree.name,
        &tree.version,
        &tree.control,
        Flag::Ok,
        State::Unpacked,
    )?;
    Ok(record)
}

// The entries that a record has; none where there is no record.
fn entries_of(alloc: Global, found: Option<&Record>) -> Result<ConffileEntries, AllocError>
    ensures { IfOk result (λ entries. entries ≡ entries_of (option_copied found.entry)) }
{
    match found {
        Some(found) => found.conffiles.copy(),
        None => Ok(ConffileEntries::new(alloc)),
    }
}

// The conffiles of the record to come.
fn entries_after(
    alloc: Global,
    found: Option<&Record>,
    giving: &Yielding,
    digests: &PendingDigests,
    flagged: &[ShipPath],
    ships: &ShippedPaths,
) -> Result<ConffileEntries, AllocError>
    ensures { IfOk result (λ entries. entries
        ≡ committed
        (counted_entries giving.now (entries_of (option_copied found.entry)) digests.now)
        digests.now flagged.now (contains_text ships.now.texts)) }
{
    let recorded = entries_of(alloc, found)?;
    let counted = counted_entries(giving, recorded, digests)?;
    let entries = committed_entries(alloc, &counted, digests, flagged, ships)?;
    Ok(entries)
}

// The record of the unpacked package.
fn fresh_record(
    alloc: Global,
    tree: &Package,
    found: Option<&Record>,
    giving: &Yielding,
) -> Result<Record, AllocError>
    ensures { IfOk result (IsFresh giving.now tree.now (option_copied found.entry)) }
{
    tree.files.law();
    let files = tree.files.as_slice();
    let ships = ShippedPaths {
        texts: shipped_texts(alloc, files)?,
    };
    let digests = digests_of(alloc, files, tree.conffiles.as_slice())?;
    let entries = entries_after(
        alloc,
        found,
        giving,
        &digests,
        tree.flagged.as_slice(),
        &ships,
    )?;
    let record = Record::unpacked(
        alloc,
        &tree.name,
        &tree.version,
        &tree.control,
        found,
        entries,
        digests,
    )?;
    Ok(record)
}

// An equal record, where there is one.
fn copied(found: Option<&Record>) -> Result<Option<Record>, AllocError>
    ensures { IfOk result (λ copy. copy ≡ option_copied found.entry) }
{
    match found {
        Some(found) => Ok(Some(found.copy()?)),
        None => Ok(None),
    }
}

/// The record found, the one noted where none was, and the one noted last.
#[derive(Drop)]
pub(crate) struct OwnRecords {
    pub(crate) found: Option<Record>,
    pub(crate) incoming: Record,
    pub(crate) fresh: Record,
}

/// Those of an unpack of this tree, to which these packages yield.
pub(crate) fn own_records(
    alloc: Global,
    tree: &Package,
    found: Option<&Record>,
    giving: &Yielding,
) -> Result<OwnRecords, AllocError>
    ensures found { IfOk result (λ r. r.found ≡ option_copied found.entry) }
    ensures incoming { IfOk result (λ r. IsIncoming tree.now r.incoming) }
    ensures fresh { IfOk result (λ r. IsFresh giving.now tree.now (option_copied found.entry)
        r.fresh) }
{
    let incoming = incoming_record(alloc, tree)?;
    let fresh = fresh_record(alloc, tree, found, giving)?;
    let found = copied(found)?;
    Ok(OwnRecords {
        found,
        incoming,
        fresh,
    })
}
