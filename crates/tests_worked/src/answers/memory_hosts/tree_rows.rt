// A tree in memory: what is read of it, and what stands in it.
use super::script_rows::WITH_POSTRM;
use super::{TreeFile, expect, file, path_of, text_of, tree_of};
use control_fields::write_paragraph;
use host_core::Script;
use host_memory::MemoryHost;
use package_tree::{OtherFiles, Package, ShipMap, ShipPaths, read_tree};
use std::alloc::{AllocError, Global};
use std::test::Fail;

// Adds the name of a script that the package has.
fn push_script(package: &Package, script: Script, text: &mut String) -> Result<(), AllocError> {
    if package.scripts.get(script).is_some() {
        text.push(' ')?;
        text.push_str(script.name())?;
    }
    Ok(())
}

// The name, version and scripts of a package, and its control file.
fn package_text(alloc: Global, package: &Package) -> Result<String, AllocError> {
    let name = package.name.as_str();
    let version = package.version.text();
    let mut text = format!(in alloc; "{name} {version}")?;
    push_script(package, Script::Preinst, &mut text)?;
    push_script(package, Script::Postinst, &mut text)?;
    push_script(package, Script::Prerm, &mut text)?;
    push_script(package, Script::Postrm, &mut text)?;
    text.push('\n')?;
    match write_paragraph(alloc, &package.control) {
        Ok(control) => text.push_str(text_of(control.as_slice()))?,
        Err(_) => return Err(AllocError),
    }
    Ok(text)
}

fn copy_text(alloc: Global, package: &Package) -> Result<String, AllocError> {
    let copy = package.copy()?;
    package_text(alloc, &copy)
}

// A copy of what is read.
fn copied(alloc: Global, host: &mut MemoryHost) -> Result<String, AllocError> {
    match read_tree(alloc, host) {
        Ok(package) => copy_text(alloc, &package),
        Err(_) => String::from_str(alloc, "no package"),
    }
}

#[test]
fn a_package_is_copied(rt: HostRuntime) -> Result<(), Fail> {
    let mut host = tree_of(rt.alloc(), WITH_POSTRM, "t")?;
    let row = "alpha 1.0 preinst postrm\nPackage: alpha\nVersion: 1.0\n";
    expect(&rt, copied(rt.alloc(), &mut host), row)
}

fn place(alloc: Global, host: &mut MemoryHost, path: &str) -> Result<bool, AllocError> {
    host.place(&path_of(alloc, path)?, file(alloc, "x")?)
}

#[test]
fn nothing_is_placed_below_a_file(rt: HostRuntime) -> Result<(), Fail> {
    let mut host = MemoryHost::new(rt.alloc())?;
    assert!(rt; place(rt.alloc(), &mut host, "/usr/x")?);
    assert!(rt; !place(rt.alloc(), &mut host, "/usr/x/y")?);
    Ok(())
}

// A tree with all kinds of files.
const WHOLE: &[TreeFile] = &[
    ("t", "/DEBIAN/control", "Package: alpha\nVersion: 1.0\n"),
    (
        "t",
        "/DEBIAN/conffiles",
        "/etc/b\nremove-on-upgrade /etc/d\n/etc/a\n/etc/b\n",
    ),
    ("t", "/DEBIAN/list", "no list"),
    ("t", "/DEBIAN/md5sums", "sums"),
    ("t", "/DEBIAN/templates.old", "no name"),
    ("t", "/DEBIAN/config", "config"),
    ("t", "/etc/a", "a"),
    ("t", "/etc/b", "b"),
];

// Adds what a package ships, each path behind a blank.
fn push_files(files: &ShipMap, text: &mut String) -> Result<(), AllocError> {
    for file in files.as_slice() {
        text.push(' ')?;
        text.push_str(file.path.as_str())?;
    }
    Ok(())
}

fn push_paths(paths: &ShipPaths, text: &mut String) -> Result<(), AllocError> {
    for path in paths.as_slice() {
        text.push(' ')?;
        text.push_str(path.as_str())?;
    }
    Ok(())
}

fn push_others(others: &OtherFiles, text: &mut String) -> Result<(), AllocError> {
    for other in others.as_slice() {
        text.push(' ')?;
        text.push_str(other.name.as_str())?;
    }
    Ok(())
}

// What a package ships, its conffiles, the paths that go, and the other files of DEBIAN.
fn parts_text(alloc: Global, package: &Package) -> Result<String, AllocError> {
    let mut text = String::new(alloc);
    push_files(&package.files, &mut text)?;
    text.push('|')?;
    push_paths(&package.conffiles, &mut text)?;
    text.push('|')?;
    push_paths(&package.flagged, &mut text)?;
    text.push('|')?;
    push_others(&package.others, &mut text)?;
    Ok(text)
}

fn parts(alloc: Global, host: &mut MemoryHost) -> Result<String, AllocError> {
    match read_tree(alloc, host) {
        Ok(package) => parts_text(alloc, &package.copy()?),
        Err(_) => String::from_str(alloc, "no package"),
    }
}

#[test]
fn a_tree_is_read_whole(rt: HostRuntime) -> Result<(), Fail> {
    let mut host = tree_of(rt.alloc(), WHOLE, "t")?;
    let row = " /etc /etc/a /etc/b| /etc/a /etc/b| /etc/d| config md5sums";
    expect(&rt, parts(rt.alloc(), &mut host), row)
}
