// Writing the file.
ghost use Rattle.std.specs.Prelude.{◌≡◌, ◌++◌, ◌∷◌, [], IfOk, OnOk, IsTrue};
ghost use Rattle.host_core.specs.World.{IsFile};
ghost use Rattle.host_core.specs.Nodes.{own_access};
ghost use Rattle.host_core.specs.declared.node.Node.TheVariants.{File};
ghost use Rattle.host_core.specs.Host.{AtEachMoment, Counts, Leaves, Needs, Silent};
ghost use Rattle.administration.specs.Files.{IsReplaced, IsReplacing};
ghost use Rattle.administration.specs.Places.{diversions_path};
ghost use Rattle.diversions.specs.Changes.{BeginsOnDisk, CanMove, IsCarrying, IsRecorded, IsTableReady, IsUnderWay, doubled_if, moved_if};
ghost use Rattle.diversions.specs.Turns.{GoesByTurns};
ghost use Rattle.diversions.specs.Entries.{IsTable, without};
ghost use Rattle.diversions.specs.Lines.{owner_line};
ghost use Rattle.diversions.specs.Writing.{entry_text, table_text};

use crate::entry::{Diversion, Owner};
use crate::moves::{bring, move_node};
use crate::route::Route;
use crate::sight::Way;
use crate::table::Table;
use administration::{DIVERSIONS, replace};
use host_core::{Access, Content, Host, HostFault, Node, RootPath, ShipPath};
use std::alloc::{AllocError, Global};

fn owner_line(owner: &Owner) -> &str
    ensures { result.now ≡ owner_line owner.now }
{
    match owner {
        Owner::Local => ":",
        Owner::Package(name) => name.as_str(),
    }
}

fn write_line(text: &mut Vec<u8>, line: &str) -> Result<(), AllocError>
    ensures { OnOk result (text.new.items ≡ text.old.items ++ line.now ++ 10 ∷ []) }
{
    text.extend_from_slice(line.as_bytes())?;
    text.push(b'\n')?;
    Ok(())
}

fn write_entry(text: &mut Vec<u8>, entry: &Diversion) -> Result<(), AllocError>
    ensures { OnOk result (text.new.items ≡ text.old.items ++ entry_text entry.now) }
{
    write_line(text, entry.path.as_str())?;
    write_line(text, entry.target.as_str())?;
    write_line(text, owner_line(&entry.owner))
}

// Writes an entry, unless it is that of a path.
fn write_other(text: &mut Vec<u8>, entry: &Diversion, path: &str) -> Result<(), AllocError>
    ensures { OnOk result
        (text.new.items ≡ text.old.items ++ table_text (without path.now (entry.now ∷ []))) }
{
    if path == entry.path.as_str() {
        return Ok(());
    }
    write_entry(text, entry)
}

// The text of all entries but that of a path.
fn text_without(alloc: Global, table: &Table, path: &str) -> Result<Vec<u8>, AllocError>
    ensures { IfOk result (λ text. text.items ≡ table_text (without path.now table.now)) }
{
    let mut text = Vec::new(alloc);
    for entry in table.entries() {
        write_other(&mut text, entry, path)?;
    }
    Ok(text)
}

// The text of all entries and one more.
fn text_with(alloc: Global, table: &Table, entry: &Diversion) -> Result<Vec<u8>, AllocError>
    requires { IsTable (table.now ++ entry.now ∷ []) }
    ensures { IfOk result (λ text. text.items ≡ table_text (table.now ++ entry.now ∷ [])) }
{
    let mut text = text_without(alloc, table, entry.path.as_str())?;
    write_entry(&mut text, entry)?;
    Ok(text)
}

fn file_of(text: Vec<u8>) -> Node
    ensures { result ≡ File text.items (own_access 0o644) }
{
    Node::File {
        bytes: Content::new(text),
        access: Access {
            mode: 0o644,
            user: 0,
            group: 0,
        },
    }
}

// Writes the file: at each moment the old one stands there or the whole new one.
fn save<H: Host>(alloc: Global, host: &mut H, node: &Node) -> Result<(), HostFault>
    requires file { IsFile node.now }
    requires ready { Needs (H.state host.old) IsTableReady }
    ensures saved { Leaves result (IsReplaced diversions_path node.now) (H.state host.old)
        (H.state host.new) }
    ensures any_moment { AtEachMoment (IsReplacing diversions_path node.now) (H.state host.old)
        (H.state host.new) }
    ensures silent { Silent (H.state host.old) (H.state host.new) }
    ensures counts { Counts (H.state host.old) (H.state host.new) result }
{
    let path = RootPath::from_str(alloc, DIVERSIONS)?;
    replace(host, &path, node)
}

// Brings to the disk what a stopped command may have left, moves the node, where one is to be moved, and then writes the file.
fn carry_out<H: Host>(
    alloc: Global,
    host: &mut H,
    route: &Route,
    way: Way,
    node: &Node,
) -> Result<(), HostFault>
    requires file { IsFile node.now }
    requires ready { Needs (H.state host.old) IsTableReady }
    requires can { Needs (H.state host.old)
        (λ w. IsTrue way.moves → CanMove way.brings route.now.from route.now.to w) }
    ensures done { Leaves result
        (λ old new.
        IsReplaced diversions_path node.now
        (moved_if way.moves route.now.from route.now.to old) new)
        (H.state host.old) (H.state host.new) }
    ensures any_moment { AtEachMoment
        (IsCarrying node.now way.moves route.now.from route.now.to)
        (H.state host.old) (H.state host.new) }
    ensures brought { IsTrue way.brings
        → OnOk result (BeginsOnDisk (H.state host.old) (H.state host.new)) }
    ensures turns { GoesByTurns (H.state host.old) (H.state host.new) }
    ensures silent { Silent (H.state host.old) (H.state host.new) }
    ensures counts { Counts (H.state host.old) (H.state host.new) result }
{
    route.from.law();
    route.to.law();
    bring(host, way.brings)?;
    move_node(host, &route.from, &route.to, way.moves, way.brings)?;
    save(alloc, host, node)
}

/// Moves the node of a new entry, where it is to be moved, and writes the table with it.
pub(crate) fn record_new<H: Host>(
    alloc: Global,
    host: &mut H,
    table: &Table,
    entry: &Diversion,
    route: &Route,
    way: Way,
) -> Result<(), HostFault>
    requires may { IsTable (table.now ++ entry.now ∷ []) }
    requires ready { Needs (H.state host.old) IsTableReady }
    requires can { Needs (H.state host.old)
        (λ w. IsTrue way.moves → CanMove way.brings route.now.from route.now.to w) }
    ensures done { Leaves result
        (λ old new. IsRecorded (table.now ++ entry.now ∷ [])
        (moved_if way.moves route.now.from route.now.to old) new)
        (H.state host.old) (H.state host.new) }
    ensures any_moment { AtEachMoment
        (IsUnderWay (doubled_if way.moves route.now.from route.now.to)
        (moved_if way.moves route.now.from route.now.to) (table.now ++ entry.now ∷ []))
        (H.state host.old) (H.state host.new) }
    ensures brought { IsTrue way.brings
        → OnOk result (BeginsOnDisk (H.state host.old) (H.state host.new)) }
    ensures turns { GoesByTurns (H.state host.old) (H.state host.new) }
    ensures silent { Silent (H.state host.old) (H.state host.new) }
    ensures counts { Counts (H.state host.old) (H.state host.new) result }
{
    route.from.law();
    route.to.law();
    let node = file_of(text_with(alloc, table, entry)?);
    carry_out(alloc, host, route, way, &node)
}

/// Moves a node back, where it is to be moved, and writes the table without the entry of a path.
pub(crate) fn record_without<H: Host>(
    alloc: Global,
    host: &mut H,
    table: &Table,
    path: &ShipPath,
    route: &Route,
    way: Way,
) -> Result<(), HostFault>
    requires ready { Needs (H.state host.old) IsTableReady }
    requires can { Needs (H.state host.old)
        (λ w. IsTrue way.moves → CanMove way.brings route.now.from route.now.to w) }
    ensures done { Leaves result
        (λ old new.
        IsRecorded (without path.now table.now)
        (moved_if way.moves route.now.from route.now.to old) new)
        (H.state host.old) (H.state host.new) }
    ensures any_moment { AtEachMoment
        (IsUnderWay (doubled_if way.moves route.now.from route.now.to)
        (moved_if way.moves route.now.from route.now.to) (without path.now table.now))
        (H.state host.old) (H.state host.new) }
    ensures brought { IsTrue way.brings
        → OnOk result (BeginsOnDisk (H.state host.old) (H.state host.new)) }
    ensures turns { GoesByTurns (H.state host.old) (H.state host.new) }
    ensures silent { Silent (H.state host.old) (H.state host.new) }
    ensures counts { Counts (H.state host.old) (H.state host.new) result }
{
    table.law();
    route.from.law();
    route.to.law();
    let node = file_of(text_without(alloc, table, path.as_str())?);
    carry_out(alloc, host, route, way, &node)
}
