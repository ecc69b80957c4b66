// Reading the overrides of a root.
ghost use Rattle.std.specs.Prelude.{◌≡◌, true, IfOk};
ghost use Rattle.host_core.specs.Looks.{Looks};
ghost use Rattle.host_core.specs.Paths.{is_path};
ghost use Rattle.stat_overrides.specs.Overrides.{overrides_of, overrides_path, table_at, text_at, text_if, groups_path, users_path};

use crate::lines::Override;
use crate::table::{Overrides, names_group, names_user, table_in};
use host_core::{Host, HostFault, Node, RootPath};
use name_tables::NameTable;
use std::alloc::{AllocError, Global};
use texts::Bytes;

/// The overrides.
const OVERRIDES: &str = "/var/lib/dpkg/statoverride";

/// The numbers of users.
const USERS: &str = "/etc/passwd";

/// The numbers of groups.
const GROUPS: &str = "/etc/group";

// The text of what stands at a path.
fn text_at(alloc: Global, node: &Option<Node>) -> Result<Bytes, AllocError>
    ensures { IfOk result (λ text. text ≡ text_at node.now) }
{
    match node {
        Some(Node::File { bytes, .. }) => Bytes::from_slice(alloc, bytes.held()?),
        Some(Node::Dir { .. }) => Ok(Bytes::new(Vec::new(alloc))),
        Some(Node::Link { .. }) => Ok(Bytes::new(Vec::new(alloc))),
        None => Ok(Bytes::new(Vec::new(alloc))),
    }
}

// The text at a path, where it is wanted.
fn read_text<H: Host>(
    alloc: Global,
    host: &mut H,
    path: &str,
    wanted: bool,
) -> Result<Bytes, HostFault>
    requires path { is_path path.now ≡ true }
    ensures looks { Looks result (λ text w. text ≡ text_if wanted (w path.now)) (H.state host.old)
        (H.state host.new) }
{
    if !wanted {
        return Ok(Bytes::new(Vec::new(alloc)));
    }
    let path = RootPath::from_str(alloc, path)?;
    let node = host.node(&path)?;
    Ok(text_at(alloc, &node)?)
}

// What the node at the file's place says.
fn table_at(
    alloc: Global,
    node: &Option<Node>,
) -> Result<Result<NameTable<Override>, u64>, AllocError>
    ensures { IfOk result (λ read. read ≡ table_at node.now) }
{
    match node {
        None => Ok(Ok(NameTable::new(alloc))),
        Some(Node::File { bytes, .. }) => table_in(alloc, bytes.held()?),
        Some(Node::Dir { .. }) => Ok(Err(0)),
        Some(Node::Link { .. }) => Ok(Err(0)),
    }
}

fn read_table<H: Host>(
    alloc: Global,
    host: &mut H,
) -> Result<Result<NameTable<Override>, u64>, HostFault>
    ensures looks { Looks result (λ read w. read ≡ table_at (w overrides_path)) (H.state host.old)
        (H.state host.new) }
{
    let path = RootPath::from_str(alloc, OVERRIDES)?;
    let node = host.node(&path)?;
    Ok(table_at(alloc, &node)?)
}

// The texts that give users and groups their numbers, where they are wanted.
#[tactic(auto, using(host_core::proofs::Moments::reads_then))]
fn read_owners<H: Host>(
    alloc: Global,
    host: &mut H,
    users: bool,
    groups: bool,
) -> Result<(Bytes, Bytes), HostFault>
    ensures looks { Looks result (λ texts w. (texts.0 ≡ text_if users (w users_path))
        × (texts.1 ≡ text_if groups (w groups_path))) (H.state host.old) (H.state host.new) }
{
    let users = read_text(alloc, host, USERS, users)?;
    match read_text(alloc, host, GROUPS, groups) {
        Ok(groups) => Ok((users, groups)),
        Err(fault) => Err(fault),
    }
}

/// The overrides of a root, or the number of their first faulty line, 0 where no file stands at their
/// place. No script is called.
#[tactic(auto, using(host_core::proofs::Moments::reads_then))]
pub fn read_overrides<H: Host>(
    alloc: Global,
    host: &mut H,
) -> Result<Result<Overrides, u64>, HostFault>
    ensures looks { Looks result (λ read w. read ≡ overrides_of w) (H.state host.old)
        (H.state host.new) }
{
    match read_table(alloc, host) {
        Ok(Ok(table)) => {
            match read_owners(alloc, host, names_user(&table), names_group(&table)) {
                Ok((users, groups)) => Ok(Ok(Overrides {
                    table,
                    users,
                    groups,
                })),
                Err(fault) => Err(fault),
            }
        }
        Ok(Err(line)) => Ok(Err(line)),
        Err(fault) => Err(fault),
    }
}
