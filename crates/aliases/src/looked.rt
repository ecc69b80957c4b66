// Directories that were looked at.
ghost use Rattle.std.specs.Prelude.{◌≡◌, ◌++◌, ◌∷◌, ◌<◌, [], false, string_bytes};
ghost use Rattle.std.specs.List.{list_any};
ghost use Rattle.std.specs.Str.{bytes_eq};
ghost use Rattle.indexmap.specs.IndexSet.{spare};
ghost use Rattle.aliases.specs.Entries.{texts_of};

use indexmap::IndexSet;
use std::alloc::Global;
use std::marker::Model;

/// Directories of one root that were looked at: each is settled by the aliases that were read then, and isn't looked at again.
#[derive(Drop)]
pub struct Looked {
    pub(crate) ways: IndexSet<String>,
}

impl Model for Looked {
    ghost use Rattle.std.specs.Prelude.{List, string_bytes};
    ghost use Rattle.host_core.specs.Paths.{Path};
    ghost use Rattle.aliases.specs.Entries.{texts_of};

    ghost Value = { List Path };

    ghost view = { λ l. texts_of string_bytes l.ways.keys };
}

impl Looked {
    pub fn none(alloc: Global) -> Self
        ensures { result ≡ [] }
    {
        Looked {
            ways: IndexSet::new(alloc),
        }
    }

    pub(crate) fn has(&self, way: &str) -> bool
        ensures { result ≡ list_any (bytes_eq way.now) self.now }
    {
        self.ways.contains(way)
    }
}

/// Enters a directory for which there is room.
pub(crate) fn enter(ways: &mut IndexSet<String>, way: String)
    requires new { list_any (bytes_eq (string_bytes way)) (texts_of string_bytes ways.old.keys)
        ≡ false }
    requires room { 0 < spare ways.old }
    ensures { texts_of string_bytes ways.new.keys
        ≡ texts_of string_bytes ways.old.keys ++ string_bytes way ∷ [] }
{
    let _ = ways.insert(way);
}
