// Paths that a tree may not ship.
ghost use Rattle.std.specs.Prelude.{◌≡◌, IfOk, MatchOption, Some};
ghost use Rattle.host_core.specs.Paths.{has_reserved_suffix};
ghost use Rattle.package_tree.specs.PathFaults.{HasNoneReserved, IsFirstReserved, IsLesser};
ghost use Rattle.package_tree.specs.Shipped.{is_reserved};

use crate::walk::is_below_administration;
use host_core::RootPath;
use std::alloc::AllocError;

fn has_reserved_suffix(text: &[u8]) -> bool
    ensures { result ≡ has_reserved_suffix text.now }
{
    text.ends_with(b".dpkg-new")
        || text.ends_with(b".dpkg-old")
        || text.ends_with(b".dpkg-dist")
        || text.ends_with(b".dpkg-tmp")
        || text.ends_with(b".dpkg-inst")
}

fn is_reserved(path: &str) -> bool
    ensures { result ≡ is_reserved path.now }
{
    has_reserved_suffix(path.as_bytes()) || is_below_administration(path)
}

/// The first of some paths that is reserved.
pub(crate) fn first_reserved(paths: &[RootPath]) -> Result<Option<RootPath>, AllocError>
    ensures { IfOk result
        (λ found. MatchOption found (HasNoneReserved paths.now) (IsFirstReserved paths.now)) }
{
    for path in paths {
        if is_reserved(path.as_str()) {
            return Ok(Some(path.copy()?));
        }
    }
    Ok(None)
}

// Of two paths the one that comes first.
fn lesser_of(a: RootPath, b: RootPath) -> RootPath
    ensures { IsLesser (Some a) (Some b) (Some result) }
{
    if b.as_str() < a.as_str() { b } else { a }
}

/// Of two paths, where there are two, the one that comes first.
pub(crate) fn lesser(a: Option<RootPath>, b: Option<RootPath>) -> Option<RootPath>
    ensures { IsLesser a b result }
{
    match a {
        Some(a) => match b {
            Some(b) => Some(lesser_of(a, b)),
            None => Some(a),
        },
        None => b,
    }
}
