// The way to a directory: the root's is opened, and then each name from the directory above it.
ghost use Rattle.std.specs.Prelude.{◌≡◌, IfOk, IfSome, string_bytes};
ghost use Rattle.host_files.specs.Places.{IsEntry};

use crate::opened::Opened;
use crate::root::Root;
use std::io::{self, Error};

/// The directory of a place, and the name that stands in it.
pub(crate) fn split_place(place: &str) -> Option<(&str, &str)>
    ensures { IfSome result (λ entry. IsEntry place.now entry.0.now entry.1.now) }
{
    place.rsplit_once('/')
}

/// The directory at a place, which is the root's or below it.
pub(crate) fn open_by_way(root: &Root, place: &str) -> io::Result<Opened>
    ensures { IfOk result (λ o. string_bytes o.place ≡ place.now) }
{
    if place == root.front.as_str() {
        return Opened::root(root);
    }
    match split_place(place) {
        Some((above, name)) => open_by_way(root, above)?.enter(name),
        None => Err(Error::other("it isn't below the root")),
    }
}
