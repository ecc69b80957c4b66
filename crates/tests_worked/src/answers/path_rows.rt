// Texts as paths under the root, and as paths that a package may ship.
use super::expect;
use host_core::{RootPath, ShipPath};
use std::alloc::{AllocError, Global};
use std::test::Fail;

const ROOT_ROWS: &[(&str, &str)] = &[
    ("/", ""),
    ("/usr/bin/x", "/usr/bin/x"),
    ("usr", "none"),
    ("/usr/../x", "none"),
    ("/usr/", "none"),
    ("/var/lib/dpkg/x", "/var/lib/dpkg/x"),
];

const SHIP_ROWS: &[(&str, &str)] = &[
    ("/", "none"),
    ("/usr/bin/x", "/usr/bin/x"),
    ("/usr/../x", "none"),
    ("/var/lib/dpkg", "/var/lib/dpkg"),
    ("/var/lib/dpkg/x", "none"),
    ("/etc/q.dpkg-old", "none"),
];

fn root_path_of(alloc: Global, text: &str) -> Result<String, AllocError> {
    match RootPath::parse(alloc, text)? {
        Some(path) => String::from_str(alloc, path.copy()?.as_str()),
        None => String::from_str(alloc, "none"),
    }
}

fn ship_path_of(alloc: Global, text: &str) -> Result<String, AllocError> {
    match ShipPath::parse(alloc, text)? {
        Some(path) => String::from_str(alloc, path.copy()?.as_str()),
        None => String::from_str(alloc, "none"),
    }
}

#[test]
fn root_paths_are_parsed(rt: HostRuntime) -> Result<(), Fail> {
    for (text, row) in ROOT_ROWS {
        expect(&rt, root_path_of(rt.alloc(), text), row)?;
    }
    Ok(())
}

#[test]
fn ship_paths_are_parsed(rt: HostRuntime) -> Result<(), Fail> {
    for (text, row) in SHIP_ROWS {
        expect(&rt, ship_path_of(rt.alloc(), text), row)?;
    }
    Ok(())
}
