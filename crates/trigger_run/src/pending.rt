// The packages that have triggers to process.
ghost use Rattle.std.specs.Prelude.{◌≡◌};
ghost use Rattle.trigger_run.specs.Pending.{is_pending, is_pending_in};

use status_db::NotedDatabase;
use status_records::Record;
use texts::Text;

fn is_pending(entry: &Record) -> bool
    ensures { result ≡ is_pending entry.now }
{
    entry.triggers.pending.is_some()
}

/// Whether a package of this name has triggers to process.
pub(crate) fn is_pending_in(database: &NotedDatabase, name: &Text) -> bool
    ensures { result ≡ is_pending_in database.now.records name.now }
{
    match database.get(name) {
        Some(entry) => is_pending(entry),
        None => false,
    }
}
