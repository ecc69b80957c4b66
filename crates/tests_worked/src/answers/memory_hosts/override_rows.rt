// Accesses that an administrator set: they are those of what is unpacked, by its path as it is listed; where they can't be read
// nothing changes.
use super::{TreeFile, hosts, path_of};
use crate::answers::expect;
use host_core::{Access, Host, Node};
use host_memory::MemoryHost;
use std::alloc::{AllocError, Global};
use std::test::Fail;

// The files of the tree `setuid` and `newer` lend the rights of root.
const TREES: &[TreeFile] = &[
    (
        "setuid",
        "/DEBIAN/control",
        "Package: alpha\nVersion: 1.0\n",
    ),
    ("setuid", "/bin/low", "one\n"),
    ("setuid", "/usr/bin/a", "one\n"),
    ("newer", "/DEBIAN/control", "Package: alpha\nVersion: 2.0\n"),
    ("newer", "/bin/low", "two\n"),
    ("newer", "/usr/bin/a", "two\n"),
    ("other", "/DEBIAN/control", "Package: beta\nVersion: 1.0\n"),
    ("other", "/opt/b", "b\n"),
];

// What is looked at behind the commands.
const PATHS: &[&str] = &[
    "/bin/low",
    "/opt",
    "/opt/b",
    "/usr/bin",
    "/usr/bin/a",
    "/usr/bin/low",
];

const USERS: &str = "write /etc/passwd root:x:0:0:root:/root:/bin/sh\nann:x:11:12::/:/bin/sh\n";

// The group of this name isn't the first one of the user.
const GROUPS: &str = "write /etc/group root:x:0:\nann:x:21:\nstaff:x:none:\nstaff:x:50:ann\n";

fn push_access(
    alloc: Global,
    path: &str,
    access: Access,
    text: &mut String,
) -> Result<(), AllocError> {
    let mode = access.mode;
    let user = access.user;
    let group = access.group;
    text.push_str(format!(in alloc; "{user} {group} {mode:o} {path}\n")?.as_str())
}

fn push_node(
    alloc: Global,
    host: &mut MemoryHost,
    path: &str,
    text: &mut String,
) -> Result<(), AllocError> {
    match host.node(&path_of(alloc, path)?) {
        Ok(Some(Node::File { access, .. })) => push_access(alloc, path, access, text),
        Ok(Some(Node::Dir { access })) => push_access(alloc, path, access, text),
        Ok(_) => Ok(()),
        Err(_) => Err(AllocError),
    }
}

// The answers to lines of words, and the accesses that are left.
fn overridden(alloc: Global, lines: &[&str]) -> Result<String, AllocError> {
    let mut text = String::new(alloc);
    let mut hosts = hosts(alloc, TREES, &[])?;
    hosts.steps(lines, &mut text)?;
    if let Some(host) = &mut hosts.root {
        for path in PATHS {
            push_node(alloc, host, path, &mut text)?;
        }
    }
    Ok(text)
}

const A_IS_CLOSED: &str =
    "write /var/lib/dpkg/statoverride root root 0700 /usr/bin/a\nann staff 0750 /usr/bin\n";

#[test]
fn an_override_holds_through_each_unpack(rt: HostRuntime) -> Result<(), Fail> {
    let row = "state alpha 1.0 install ok unpacked
done
||0
state alpha 1.0 install ok unpacked
done
||0
state alpha 2.0 install ok unpacked
done
||0
0 0 4755 /bin/low
11 50 750 /usr/bin
0 0 700 /usr/bin/a
";
    let lines = [
        USERS,
        GROUPS,
        A_IS_CLOSED,
        "dpkg_cli unpack setuid",
        "dpkg_cli unpack setuid",
        "dpkg_cli unpack newer",
    ];
    expect(&rt, overridden(rt.alloc(), &lines), row)
}

#[test]
fn numbers_need_no_names(rt: HostRuntime) -> Result<(), Fail> {
    let row = "state alpha 1.0 install ok unpacked
done
||0
0 0 4755 /bin/low
0 0 755 /usr/bin
7 4294967294 6711 /usr/bin/a
";
    let lines = [
        "write /var/lib/dpkg/statoverride #7 #4294967294 6711 /usr/bin/a\n",
        "dpkg_cli unpack setuid",
    ];
    expect(&rt, overridden(rt.alloc(), &lines), row)
}

// A group's number isn't taken from the users.
#[test]
fn names_are_those_of_the_root(rt: HostRuntime) -> Result<(), Fail> {
    let row = "state alpha 1.0 install ok unpacked
done
||0
0 0 4755 /bin/low
0 0 755 /usr/bin
11 21 4755 /usr/bin/a
";
    let lines = [
        USERS,
        GROUPS,
        "write /var/lib/dpkg/statoverride ann ann 4755 /usr/bin/a\n",
        "dpkg_cli unpack setuid",
    ];
    expect(&rt, overridden(rt.alloc(), &lines), row)
}

// What isn't shipped may belong to somebody who isn't known; the other trees of the command are unpacked.
#[test]
fn an_unknown_owner_is_refused(rt: HostRuntime) -> Result<(), Fail> {
    let row = "refused alpha OwnerUnknown /usr/bin/a
state beta 1.0 install ok unpacked
done
||1
0 0 755 /opt
0 0 755 /opt/b
";
    let lines = [
        USERS,
        GROUPS,
        "write /var/lib/dpkg/statoverride eve root 0700 /srv\nann bob 0700 /usr/bin/a\n",
        "dpkg_cli unpack setuid other",
    ];
    expect(&rt, overridden(rt.alloc(), &lines), row)
}

#[test]
fn a_faulty_line_is_refused(rt: HostRuntime) -> Result<(), Fail> {
    let row = "refused beta OverrideLine 2
||1
refused beta OverrideLine 1
||1
refused beta OverrideLine 2
||1
refused beta OverrideLine 1
||1
refused beta OverrideLine 0
||1
state beta 1.0 install ok unpacked
done
||0
0 0 755 /opt
0 0 755 /opt/b
";
    let lines = [
        "write /var/lib/dpkg/statoverride root root 0700 /a\nroot root 0800 /b\n",
        "dpkg_cli unpack other",
        "write /var/lib/dpkg/statoverride \n",
        "dpkg_cli unpack other",
        "write /var/lib/dpkg/statoverride root root 0700 /a b\nroot root 0755 /a b\n",
        "dpkg_cli unpack other",
        "write /var/lib/dpkg/statoverride root root 0700 /a",
        "dpkg_cli unpack other",
        "link /var/lib/dpkg/statoverride /dev/null",
        "dpkg_cli unpack other",
        "write /var/lib/dpkg/statoverride ",
        "dpkg_cli unpack other",
    ];
    expect(&rt, overridden(rt.alloc(), &lines), row)
}

// By a path as it is listed: what stands at the place of another path keeps its access.
#[test]
fn an_override_of_the_place_isnt_heeded(rt: HostRuntime) -> Result<(), Fail> {
    let row = "state alpha 1.0 install ok unpacked
done
||0
0 0 755 /usr/bin
0 0 4755 /usr/bin/a
0 0 4755 /usr/bin/low
";
    let lines = [
        "write /usr/bin/z z",
        "link /bin usr/bin",
        "write /var/lib/dpkg/statoverride #1 #1 0700 /usr/bin/low\n",
        "dpkg_cli unpack setuid",
    ];
    expect(&rt, overridden(rt.alloc(), &lines), row)
}
