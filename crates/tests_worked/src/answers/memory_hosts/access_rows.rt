// A tree that belongs to a user: what it ships keeps its owners, or is root's by --owner-root; what is kept of its control
// files is root's.
use super::{TreeFile, hosts, path_of};
use crate::answers::expect;
use host_core::{Access, Host, Node};
use host_memory::MemoryHost;
use std::alloc::{AllocError, Global};
use std::test::Fail;

const TREES: &[TreeFile] = &[
    ("user", "/DEBIAN/control", "Package: alpha\nVersion: 1.0\n"),
    ("user", "/DEBIAN/conffiles", "/etc/a.conf\n"),
    ("user", "/DEBIAN/preinst", "#!/bin/sh\n"),
    ("user", "/DEBIAN/md5sums", "sums\n"),
    ("user", "/etc/a.conf", "red\n"),
    ("user", "/usr/bin/a", "a\n"),
];

// What is looked at behind the command.
const PATHS: &[&str] = &[
    "/etc/a.conf",
    "/usr/bin/a",
    "/var/lib/dpkg/info/alpha.list",
    "/var/lib/dpkg/info/alpha.md5sums",
    "/var/lib/dpkg/info/alpha.preinst",
];

// Adds whose a file is, and its mode.
fn push_access(
    alloc: Global,
    path: &str,
    access: Access,
    text: &mut String,
) -> Result<(), AllocError> {
    let mode = access.mode;
    let user = access.user;
    let group = access.group;
    text.push_str(format!(in alloc; "{user} {group} {mode:o} {path}\n")?.as_str())
}

fn push_owner(
    alloc: Global,
    host: &mut MemoryHost,
    path: &str,
    text: &mut String,
) -> Result<(), AllocError> {
    match host.node(&path_of(alloc, path)?) {
        Ok(Some(Node::File { access, .. })) => push_access(alloc, path, access, text),
        _ => text.push_str("no file\n"),
    }
}

// Adds whose the files are.
fn push_owners(
    alloc: Global,
    root: &mut Option<MemoryHost>,
    text: &mut String,
) -> Result<(), AllocError> {
    if let Some(host) = root {
        for path in PATHS {
            push_owner(alloc, host, path, text)?;
        }
    }
    Ok(())
}

// The answer to a line of words, and whose files are left.
fn owned(alloc: Global, line: &str) -> Result<String, AllocError> {
    let mut text = String::new(alloc);
    let mut hosts = hosts(alloc, TREES, &[])?;
    hosts.steps(&[line], &mut text)?;
    push_owners(alloc, &mut hosts.root, &mut text)?;
    Ok(text)
}

#[test]
fn a_users_tree_keeps_its_owners(rt: HostRuntime) -> Result<(), Fail> {
    let row = "call new alpha preinst install: exit 0
state alpha 1.0 install ok unpacked
done
state alpha 1.0 install ok installed
done
||0
1000 1001 755 /etc/a.conf
1000 1001 755 /usr/bin/a
0 0 644 /var/lib/dpkg/info/alpha.list
0 0 755 /var/lib/dpkg/info/alpha.md5sums
0 0 755 /var/lib/dpkg/info/alpha.preinst
";
    expect(&rt, owned(rt.alloc(), "dpkg_cli install user"), row)
}

#[test]
fn a_users_tree_is_given_to_root(rt: HostRuntime) -> Result<(), Fail> {
    let row = "call new alpha preinst install: exit 0
state alpha 1.0 install ok unpacked
done
state alpha 1.0 install ok installed
done
||0
0 0 755 /etc/a.conf
0 0 755 /usr/bin/a
0 0 644 /var/lib/dpkg/info/alpha.list
0 0 755 /var/lib/dpkg/info/alpha.md5sums
0 0 755 /var/lib/dpkg/info/alpha.preinst
";
    expect(
        &rt,
        owned(rt.alloc(), "dpkg_cli install --owner-root user"),
        row,
    )
}
