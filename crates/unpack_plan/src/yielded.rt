// Conffiles that change their package.
ghost use Rattle.std.specs.Prelude.{◌≡◌, IfOk, OnOk, option_copied, false};
ghost use Rattle.status_records.specs.Conffiles.{has_entry};
ghost use Rattle.std.specs.List.{list_any};
ghost use Rattle.std.specs.Str.{bytes_eq};
ghost use Rattle.unpack_commit.specs.Takeover.{is_config_files};
ghost use Rattle.unpack_plan.specs.Yielded.{counted_entries, counted_with, does_yield, entry_at, first_yielded, moved_entry, put_moved, records_digest_of, yielded, yielded_by};

use diversions::Diversions;
use host_core::ShipPath;
use status_records::{
    ConffileEntries, ConffileEntry, PendingDigest, PendingDigests, Record, State,
};
use std::alloc::AllocError;
use std::marker::Model;
use texts::Text;

/// Where paths are, the incoming package, the packages that let it take paths of theirs, and all
/// records, in the order of names.
#[derive(Drop)]
pub(crate) struct Yielding<'a> {
    pub(crate) diversions: &'a Diversions,
    pub(crate) incoming: &'a Text,
    pub(crate) names: &'a [Text],
    pub(crate) records: &'a [Record],
}

impl<'a> Model for Yielding<'a> {
    ghost use Rattle.unpack_plan.specs.Yielded.{Yielding, yielding};

    ghost Value = { Yielding };

    ghost view = { λ y.
        yielding y.diversions.now.ways y.incoming.now y.names.now y.records.now };
}

fn is_config_files(state: State) -> bool
    ensures { result ≡ is_config_files state }
{
    match state {
        State::ConfigFiles => true,
        State::NotInstalled
        | State::HalfInstalled
        | State::Unpacked
        | State::HalfConfigured
        | State::Installed => false,
    }
}

fn is_one_of(names: &[Text], name: &Text) -> bool
    ensures { result ≡ list_any (bytes_eq name.now) names.now }
{
    names.iter().any(|one| name.as_str() == one.as_str())
}

fn is_same(name: &Text, other: &Text) -> bool
    ensures { result ≡ bytes_eq name.now other.now }
{
    name.as_str() == other.as_str()
}

// Whether an entry of a package records a digest of a place.
fn records_digest_of(
    diversions: &Diversions,
    name: &Text,
    at: &ShipPath,
    entry: &ConffileEntry,
) -> Result<bool, AllocError>
    ensures { IfOk result (λ is. is
        ≡ records_digest_of diversions.now.ways name.now at.now entry.now) }
{
    let place = diversions.ship_place(name, &entry.path)?;
    Ok(place.as_str() == at.as_str() && entry.digest.is_some())
}

// The first of them.
fn entry_at<'a>(
    diversions: &Diversions,
    name: &Text,
    at: &ShipPath,
    entries: &'a [ConffileEntry],
) -> Result<Option<&'a ConffileEntry>, AllocError>
    ensures { IfOk result (λ found. option_copied found
        ≡ entry_at diversions.now.ways name.now at.now entries.now) }
{
    for entry in entries {
        if records_digest_of(diversions, name, at, entry)? {
            return Ok(Some(entry));
        }
    }
    Ok(None)
}

impl<'a> Yielding<'a> {
    fn does_yield(&self, record: &Record) -> bool
        ensures { result ≡ does_yield self.now record.now }
    {
        let own = is_same(&record.name, self.incoming);
        let given = is_one_of(self.names, &record.name);
        !own && (is_config_files(record.state) || given)
    }

    fn yielded_by(
        &self,
        at: &ShipPath,
        record: &'a Record,
    ) -> Result<Option<&'a ConffileEntry>, AllocError>
        ensures { IfOk result (λ found. option_copied found
            ≡ yielded_by self.now at.now record.now) }
    {
        if self.does_yield(record) {
            return entry_at(
                self.diversions,
                &record.name,
                at,
                record.conffiles.as_slice(),
            );
        }
        Ok(None)
    }

    fn first_yielded(&self, at: &ShipPath) -> Result<Option<&'a ConffileEntry>, AllocError>
        ensures { IfOk result (λ found. option_copied found
            ≡ first_yielded self.now at.now self.now.records) }
    {
        for record in self.records {
            let found = self.yielded_by(at, record)?;
            if found.is_some() {
                return Ok(found);
            }
        }
        Ok(None)
    }

    /// The first entry, in the order of the packages' names, that one of them records with a digest of
    /// the place of a path of the incoming package.
    fn yielded(&self, path: &ShipPath) -> Result<Option<&'a ConffileEntry>, AllocError>
        ensures { IfOk result (λ found. option_copied found ≡ yielded self.now path.now) }
    {
        let at = self.diversions.ship_place(self.incoming, path)?;
        self.first_yielded(&at)
    }
}

// The entry of a shipped conffile with the digest of another's.
fn moved_entry(digest: &PendingDigest, other: &ConffileEntry) -> Result<ConffileEntry, AllocError>
    ensures { IfOk result (λ e. e ≡ moved_entry digest.now other.now) }
{
    Ok(ConffileEntry {
        path: digest.path.copy()?,
        digest: other.digest,
        obsolete: false,
        remove_on_upgrade: false,
    })
}

// Puts it in its place, where there is another's.
fn put_moved(
    digest: &PendingDigest,
    entries: &mut ConffileEntries,
    other: Option<&ConffileEntry>,
) -> Result<(), AllocError>
    requires { has_entry entries.old digest.now.path ≡ false }
    ensures { OnOk result
        (entries.new ≡ put_moved digest.now entries.old (option_copied other.entry)) }
{
    let Some(other) = other else {
        return Ok(());
    };
    entries.put(moved_entry(digest, other)?)?;
    Ok(())
}

fn count_with(
    giving: &Yielding,
    entries: &mut ConffileEntries,
    digest: &PendingDigest,
) -> Result<(), AllocError>
    ensures { OnOk result (entries.new ≡ counted_with giving.now entries.old digest.now) }
{
    if entries.has(&digest.path) {
        return Ok(());
    }
    let other = giving.yielded(&digest.path)?;
    put_moved(digest, entries, other)
}

/// What counts as recorded when conffiles are shipped: the entries of a record, and of each conffile of
/// which there is none the digest that another package yields.
pub(crate) fn counted_entries(
    giving: &Yielding,
    recorded: ConffileEntries,
    shipped: &PendingDigests,
) -> Result<ConffileEntries, AllocError>
    ensures { IfOk result (λ entries. entries
        ≡ counted_entries giving.now recorded shipped.now) }
{
    let mut entries = recorded;
    for digest in shipped.as_slice() {
        count_with(giving, &mut entries, digest)?;
    }
    Ok(entries)
}
