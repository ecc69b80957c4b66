// Trees on real files, with what no tree in memory has.
use host_core::Host;
use host_files::{FilesHost, Unknown};
use package_tree::{ShipMap, read_tree};
use std::alloc::{AllocError, Global};
use std::process::{Command, Stdio};
use std::test::Fail;
use std::{fs, io, str};

type RealHost = FilesHost<Unknown>;

// What lines of shell print, in the directory.
fn shell(rt: &HostRuntime, lines: &str, directory: &str) -> io::Result<String> {
    let mut command = Command::new(rt.alloc(), "/bin/sh")?;
    command.args([
        "-euc",
        "umask 022; cd \"$1\"; eval \"$0\"",
        lines,
        directory,
    ])?;
    command.stderr(Stdio::inherit());
    let output = command.output(rt)?;
    let text = str::from_utf8(output.stdout.as_slice()).unwrap_or("bytes that are no text");
    match output.status.success() {
        true => Ok(String::from_str(rt.alloc(), text)?),
        false => Err(io::Error::other("the shell's lines failed")),
    }
}

const NEW_TREE: &str = "made=$(mktemp -d)
mkdir -p \"$made/t/DEBIAN\" \"$made/t/usr\" \"$made/outside\"
printf 'Package: tree\\nVersion: 1\\n' >\"$made/t/DEBIAN/control\"
echo kept >\"$made/outside/file\"
printf %s \"$made\"";

// What is made of the tree, which has the directory /usr alone, and what is read then.
const ROWS: &[(&str, &str)] = &[
    (":", " /usr"),
    ("mkfifo t/usr/pipe", "Device"),
    ("mkfifo t/DEBIAN/preinst", "Device"),
    ("mkdir t/DEBIAN/preinst", "PathBad /DEBIAN/preinst"),
    (
        "ln -s control t/DEBIAN/conffiles",
        "PathBad /DEBIAN/conffiles",
    ),
    (
        "ln -s control t/DEBIAN/postrm; mkdir t/DEBIAN/prerm",
        "PathBad /DEBIAN/postrm",
    ),
    ("ln -s ../../outside t/usr/lib", " /usr /usr/lib"),
    ("mv t/DEBIAN debian; ln -s ../debian t/DEBIAN", "NoControl"),
    ("rm t/DEBIAN/control; mkdir t/DEBIAN/control", "NoControl"),
    (
        "mv t/DEBIAN/control control; ln -s ../../control t/DEBIAN/control",
        "NoControl",
    ),
    (">\"t/usr/$(printf 'a\\377')\"", "PathBad /usr"),
    (">\"t/usr/$(printf 'a\\nb')\"", "PathBad /usr"),
    (">\"t/$(printf '\\377')\"", "PathBad /"),
    // a name without room for our endings is told itself
    (
        ">\"t/usr/$(printf '%0246d' 0)\"",
        "PathBad /usr/00000000000000000000000000000000000000000000000000000000000000000000000000000000\
00000000000000000000000000000000000000000000000000000000000000000000000000000000000000\
00000000000000000000000000000000000000000000000000000000000000000000000000000000",
    ),
];

// No directory is closed to the superuser.
const CLOSED: &str = ">t/usr/file
chmod 0 t/usr";

// What a package ships, each path behind a blank.
fn paths(alloc: Global, files: &ShipMap) -> Result<String, AllocError> {
    let mut text = String::new(alloc);
    for shipped in files.as_slice() {
        text.push(' ')?;
        text.push_str(shipped.path.as_str())?;
    }
    Ok(text)
}

// What is read of a tree: its paths, or its fault.
fn read(alloc: Global, host: &mut RealHost) -> Result<String, AllocError> {
    match read_tree(alloc, host) {
        Ok(package) => paths(alloc, &package.files),
        Err(fault) => format!(in alloc; "{fault}"),
    }
}

// Reads a new tree behind lines of shell. A Device is counted, and nothing else is.
fn check(rt: &HostRuntime, lines: &str, row: &str) -> Result<(), Fail> {
    let made = shell(rt, NEW_TREE, "/")?;
    let directory = made.as_str();
    shell(rt, lines, directory)?;
    let tree = format!(in rt.alloc(); "{directory}/t")?;
    let mut host = FilesHost::open(*rt, tree.as_str())?;
    host.set_tree();
    let answer = read(rt.alloc(), &mut host)?;
    let failed = host.faults() > 0;
    shell(rt, "chmod -R u+rwx .", directory)?;
    fs::remove_dir_all(rt, directory)?;
    match answer.as_str() == row && failed == (row == "Device") {
        true => Ok(()),
        false => Err(Fail::new(format_args!("{lines}: {answer}"))),
    }
}

#[test]
fn each_tree_is_read(rt: HostRuntime) -> Result<(), Fail> {
    for (lines, row) in ROWS {
        check(&rt, lines, row)?;
    }
    Ok(())
}

#[test]
fn a_closed_directory_is_not_read(rt: HostRuntime) -> Result<(), Fail> {
    let user = shell(&rt, "id -u", "/")?;
    let row = match user.as_str() {
        "0\n" => " /usr /usr/file",
        _ => "Device",
    };
    check(&rt, CLOSED, row)
}
