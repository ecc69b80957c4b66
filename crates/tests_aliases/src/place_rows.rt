// Rows of roots and paths: where a path is, once the aliases above it were read.
mod fault_rows;

use crate::root::{Thing, path_of, root_of};
use aliases::Aliases;
use host_core::ShipPath;
use std::alloc::{AllocError, Global};
use std::process::Abort;
use std::test::Fail;

// What stands in the root, a path, and its place.
type Row = (&'static [Thing], &'static str, &'static str);

const MERGED: &[Thing] = &[
    ("/usr/bin", "/"),
    ("/usr/lib", "/"),
    ("/bin", "@usr/bin"),
    ("/lib", "@/usr/lib"),
];

const ROWS: &[Row] = &[
    (MERGED, "/usr/bin/sh", "/usr/bin/sh"),
    (MERGED, "/bin/sh", "/usr/bin/sh"),
    (MERGED, "/lib/systemd/system", "/usr/lib/systemd/system"),
    (MERGED, "/bin", "/bin"),
    (MERGED, "/binary/sh", "/binary/sh"),
    (
        &[("/srv/data", "/"), ("/a/b/l", "@../../srv/./data//")],
        "/a/b/l/x",
        "/srv/data/x",
    ),
    (
        &[("/usr", "/"), ("/a/l", "@../../../usr")],
        "/a/l/x",
        "/usr/x",
    ),
    (&[("/d", "/"), ("/l", "@m"), ("/m", "@d")], "/l/x", "/d/x"),
    (&[("/p", "@q"), ("/q", "@p")], "/p/x", "/p/x"),
    (&[("/p", "@nowhere")], "/p/x", "/p/x"),
    (&[("/file", "text"), ("/p", "@file")], "/p/x", "/p/x"),
    (&[("/file", "text"), ("/p", "@file/..")], "/p/x", "/p/x"),
    (&[("/x", "@/")], "/x/y", "/y"),
    (
        &[
            ("/usr/lib/z", "/"),
            ("/lib", "@usr/lib"),
            ("/usr/lib/y", "@z"),
        ],
        "/lib/y/f",
        "/usr/lib/z/f",
    ),
    (
        &[("/opt/l-1", "/"), ("/opt/cur", "@l-1")],
        "/opt/cur",
        "/opt/cur",
    ),
    (
        &[("/opt/l-1", "/"), ("/opt/cur", "@l-1")],
        "/opt/cur/x",
        "/opt/l-1/x",
    ),
    (
        &[("/var/lib/dpkg", "/"), ("/adm", "@var/lib/dpkg")],
        "/adm/status",
        "/adm/status",
    ),
    (
        &[("/etc/x.dpkg-tmp", "/"), ("/cfg", "@etc/x.dpkg-tmp")],
        "/cfg/a",
        "/etc/x.dpkg-tmp/a",
    ),
];

// Nine links in a row, and the directory that the last leads to.
const CHAIN: &[Thing] = &[
    ("/d", "/"),
    ("/l1", "@l2"),
    ("/l2", "@l3"),
    ("/l3", "@l4"),
    ("/l4", "@l5"),
    ("/l5", "@l6"),
    ("/l6", "@l7"),
    ("/l7", "@l8"),
    ("/l8", "@l9"),
    ("/l9", "@d"),
];

const CHAINED: &[Row] = &[(CHAIN, "/l1/x", "/l1/x"), (CHAIN, "/l2/x", "/d/x")];

fn place_of(alloc: Global, row: &Row) -> Result<String, AllocError> {
    let mut host = root_of(alloc, row.0)?;
    let path = path_of(alloc, row.1)?;
    let mut aliases = Aliases::none(alloc);
    if aliases.read_above(&mut host, &path).is_err() {
        return Err(AllocError);
    }
    String::from_str(alloc, aliases.resolve_path(&path)?.as_str())
}

fn judge(rt: &impl Abort, alloc: Global, rows: &[Row]) -> Result<(), AllocError> {
    for row in rows {
        let found = place_of(alloc, row)?;
        assert_eq!(rt; found.as_str(), row.2);
    }
    Ok(())
}

#[test]
fn paths_are_where_links_lead(rt: HostRuntime) -> Result<(), Fail> {
    judge(&rt, rt.alloc(), ROWS)?;
    Ok(())
}

#[test]
fn at_most_eight_links_are_followed(rt: HostRuntime) -> Result<(), Fail> {
    judge(&rt, rt.alloc(), CHAINED)?;
    Ok(())
}

// Both names of one place have one place, and what was read isn't read again.
#[test]
fn names_of_one_place_have_one_place(rt: HostRuntime) -> Result<(), Fail> {
    let alloc = rt.alloc();
    let mut host = root_of(alloc, MERGED)?;
    let mut aliases = Aliases::none(alloc);
    assert!(&rt; aliases.is_empty());
    for text in ["/bin/sh", "/usr/bin/sh", "/bin/ls"] {
        let read = aliases.read_above(&mut host, &path_of(alloc, text)?);
        assert!(&rt; read.is_ok());
    }
    assert!(&rt; aliases.has("/bin") && !aliases.has("/lib"));
    assert_eq!(&rt; aliases.led("/bin"), "/usr/bin");
    let path = ShipPath::parse(alloc, "/bin/sh")?.ok_or(AllocError)?;
    assert_eq!(&rt; aliases.resolve(&path)?.as_str(), "/usr/bin/sh");
    let other = ShipPath::parse(alloc, "/lib/x")?.ok_or(AllocError)?;
    assert_eq!(&rt; aliases.resolve(&other)?.as_str(), "/lib/x");
    Ok(())
}
