// What of a recorded package has the places of shipped paths.
ghost use Rattle.std.specs.Prelude.{◌≡◌, ◌∷◌, ◌++◌, [], Some, IfOk, nat_eq};
ghost use Rattle.std.specs.List.{list_all, starts_with};
ghost use Rattle.std.specs.Str.{bytes_eq};
ghost use Rattle.diversions.specs.Ways.{place};
ghost use Rattle.host_core.specs.World.{is_directory};
ghost use Rattle.obsolete_conffiles.specs.Yields.{has_below, is_below, may_meet, yields_at};

use crate::leaving::leaves_at;
use diversions::Diversions;
use file_lists::{FileLists, Listed};
use host_core::{Node, RootPath, ShipPath};
use package_tree::{Package, Shipped};
use status_records::Record;
use std::alloc::{AllocError, Global};
use texts::Text;

fn is_same(name: &Text, other: &Text) -> bool
    ensures { result ≡ bytes_eq name.now other.now }
{
    name.as_str() == other.as_str()
}

fn is_directory(node: &Node) -> bool
    ensures { result ≡ is_directory (Some node.now) }
{
    match node {
        Node::File { .. } => false,
        Node::Dir { .. } => true,
        Node::Link { .. } => false,
    }
}

fn is_below_bytes(path: &[u8], top: &[u8]) -> bool
    ensures { result ≡ is_below path.now top.now }
{
    match path.strip_prefix(top) {
        Some(rest) => rest.starts_with(b"/"),
        None => false,
    }
}

fn is_below(path: &RootPath, top: &RootPath) -> bool
    ensures { result ≡ is_below path.now top.now }
{
    is_below_bytes(path.as_str().as_bytes(), top.as_str().as_bytes())
}

fn has_below(lists: &FileLists, listed: &Listed) -> bool
    ensures { result ≡ has_below lists.now.lists listed.now }
{
    lists
        .list_of(&listed.name)
        .iter()
        .any(|path| is_below(path, &listed.path))
}

fn may_meet(
    diversions: &Diversions,
    incoming: &Package,
    lists: &FileLists,
    record: &Record,
    at: &ShipPath,
    file: &Shipped,
    listed: &Listed,
) -> Result<bool, AllocError>
    requires placed { at.now ≡ place diversions.now.ways incoming.now.name file.now.path }
    ensures { IfOk result (λ may. may ≡ may_meet diversions.now.ways incoming.now lists.now.lists
        record.now file.now listed.now) }
{
    if !is_same(&listed.name, &record.name) {
        return Ok(true);
    }
    if leaves_at(diversions, incoming, record, at)? {
        return Ok(true);
    }
    Ok(is_directory(&file.node) && has_below(lists, listed))
}

fn all_may_meet(
    diversions: &Diversions,
    incoming: &Package,
    lists: &FileLists,
    record: &Record,
    at: &ShipPath,
    file: &Shipped,
    owners: &[Listed],
) -> Result<bool, AllocError>
    requires placed { at.now ≡ place diversions.now.ways incoming.now.name file.now.path }
    ensures { IfOk result (λ may. may ≡ list_all (may_meet diversions.now.ways incoming.now
        lists.now.lists record.now file.now) owners.now) }
{
    for listed in owners {
        if !may_meet(diversions, incoming, lists, record, at, file, listed)? {
            return Ok(false);
        }
    }
    Ok(true)
}

fn yields_at(
    alloc: Global,
    diversions: &Diversions,
    incoming: &Package,
    lists: &FileLists,
    record: &Record,
    file: &Shipped,
) -> Result<bool, AllocError>
    ensures { IfOk result (λ yields. yields ≡ yields_at diversions.now.ways incoming.now
        lists.now.lists record.now file.now) }
{
    let at = diversions.ship_place(&incoming.name, &file.path)?;
    let owners = lists.owners(alloc, diversions, &at.at()?)?;
    all_may_meet(
        diversions,
        incoming,
        lists,
        record,
        &at,
        file,
        owners.items.as_slice(),
    )
}

/// Whether a recorded package has nothing at the places of what the incoming one ships but such conffiles and directories of both.
pub(crate) fn yields_everywhere(
    alloc: Global,
    diversions: &Diversions,
    incoming: &Package,
    lists: &FileLists,
    record: &Record,
) -> Result<bool, AllocError>
    ensures { IfOk result (λ yields. yields ≡ list_all (yields_at diversions.now.ways incoming.now
        lists.now.lists record.now) incoming.now.files) }
{
    for file in incoming.files.as_slice() {
        if !yields_at(alloc, diversions, incoming, lists, record, file)? {
            return Ok(false);
        }
    }
    Ok(true)
}
