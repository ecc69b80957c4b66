// Reading the status file into a table.
ghost use Rattle.std.specs.Prelude.{◌≡◌, List, IfOk, IfErr, IsErrOf, IsTrue};
ghost use Rattle.host_core.specs.Host.{Reads, Silent, Tells};
ghost use Rattle.administration.specs.Fault.{CountsAdministration};
ghost use Rattle.administration.specs.Places.{status_path};
ghost use Rattle.administration.specs.declared.fault.AdministrationFault.TheVariants.{Device, Declined};
ghost use Rattle.status_records.specs.Status.{IsFileDamage, IsNodeDamage, IsStatusDamage};
ghost use Rattle.status_db.specs.Held.{IsTableOf, IsTableOfText};

use crate::table::Table;
use administration::{AdministrationFault, STATUS};
use host_core::{Content, Host, Node, RootPath};
use status_records::{StatusFault, read_text};
use std::alloc::Global;

fn read_file(alloc: Global, path: RootPath, bytes: &[u8]) -> Result<Table, AdministrationFault>
    requires { path ≡ status_path }
    ensures table { IfOk result (IsTableOfText bytes.now) }
    ensures damage { IfErr result (IsFileDamage bytes.now) }
    ensures device { IsErrOf result Device → ⊥ }
    ensures declined { IsErrOf result Declined → ⊥ }
{
    match read_text(alloc, bytes) {
        Ok(records) => Ok(Table::of_records(alloc, records)?),
        Err(StatusFault::Line(line)) => Err(AdministrationFault::Damaged { file: path, line }),
        Err(StatusFault::NoMemory) => Err(AdministrationFault::NoMemory),
    }
}

// The same, of what the file holds.
fn read_content(
    alloc: Global,
    path: RootPath,
    content: &Content,
) -> Result<Table, AdministrationFault>
    requires { path ≡ status_path }
    ensures table { IfOk result (IsTableOfText content.now) }
    ensures damage { IfErr result (IsFileDamage content.now) }
    ensures device { IsErrOf result Device → ⊥ }
    ensures declined { IsErrOf result Declined → ⊥ }
{
    read_file(alloc, path, content.held()?)
}

// The table of the node at the status file's place.
fn read_node(
    alloc: Global,
    path: RootPath,
    node: Option<Node>,
) -> Result<Table, AdministrationFault>
    requires { path ≡ status_path }
    ensures table { IfOk result (IsTableOf node) }
    ensures damage { IfErr result (IsNodeDamage node) }
    ensures device { IsErrOf result Device → ⊥ }
    ensures declined { IsErrOf result Declined → ⊥ }
{
    match node {
        None => read_file(alloc, path, &[]),
        Some(Node::File { bytes, .. }) => read_content(alloc, path, &bytes),
        Some(_) => Err(AdministrationFault::Damaged {
            file: path,
            line: 0,
        }),
    }
}

fn read_at<H: Host>(
    alloc: Global,
    host: &mut H,
    path: RootPath,
) -> Result<Table, AdministrationFault>
    requires { path ≡ status_path }
    ensures table { Tells result (λ t w. IsTableOf (w status_path) t) (H.state host.old)
        (H.state host.new) }
    ensures damage { IsTrue (H.state host.new).honest
        → IfErr result (IsStatusDamage (H.state host.old).world) }
    ensures reads { Reads (H.state host.old) (H.state host.new) }
    ensures silent { Silent (H.state host.old) (H.state host.new) }
    ensures counts { CountsAdministration (H.state host.old) (H.state host.new) result }
{
    let node = host.node(&path)?;
    read_node(alloc, path, node)
}

/// The records of the status file, in the order of names; a missing one has none.
pub(crate) fn read_status<H: Host>(
    alloc: Global,
    host: &mut H,
) -> Result<Table, AdministrationFault>
    ensures table { Tells result (λ t w. IsTableOf (w status_path) t) (H.state host.old)
        (H.state host.new) }
    ensures damage { IsTrue (H.state host.new).honest
        → IfErr result (IsStatusDamage (H.state host.old).world) }
    ensures reads { Reads (H.state host.old) (H.state host.new) }
    ensures silent { Silent (H.state host.old) (H.state host.new) }
    ensures counts { CountsAdministration (H.state host.old) (H.state host.new) result }
{
    let path = RootPath::from_str(alloc, STATUS)?;
    read_at(alloc, host, path)
}
