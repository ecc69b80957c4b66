// How much goes of each package.
ghost use Rattle.std.specs.Prelude.{◌≡◌};
ghost use Rattle.status_records.specs.Records.{record_in};
ghost use Rattle.removal_run.specs.Extents.{is_purge, purges, wants_purge};

use status_db::NotedDatabase;
use status_records::Want;
use texts::Text;

/// How much goes of each package.
#[derive(Clone, Copy)]
pub enum Extents {
    /// All but configuration files and postrm.
    Removed,
    /// All of it.
    Purged,
    /// All of it where its record says at its turn that its purge is wanted, else as for `Removed`.
    Selected,
}

fn is_purge(want: Want) -> bool
    ensures { result ≡ is_purge want }
{
    match want {
        Want::Purge => true,
        Want::Unknown | Want::Install | Want::Hold | Want::Deinstall => false,
    }
}

fn wants_purge(database: &NotedDatabase, name: &Text) -> bool
    ensures { result ≡ wants_purge (record_in database.now.records name.now) }
{
    match database.get(name) {
        Some(entry) => is_purge(entry.want),
        None => false,
    }
}

/// Whether all goes of the package of this name.
pub(crate) fn purges(extents: Extents, database: &NotedDatabase, name: &Text) -> bool
    ensures { result ≡ purges extents database.now.records name.now }
{
    match extents {
        Extents::Removed => false,
        Extents::Purged => true,
        Extents::Selected => wants_purge(database, name),
    }
}
