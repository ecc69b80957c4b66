// Single calls of the host over a real directory. Shell makes what they meet, and looks at what they leave. What differs
// for the superuser and a plain user stands in owner_rows, which scripts/owners runs as both.
mod owner_rows;
mod remembered_rows;
mod removal_rows;

use host_core::{Access, Content, Host, HostFault, Kind, Node, RootPath};
use host_files::{FilesHost, Unknown};
use std::alloc::{AllocError, Global};
use std::process::{Command, Stdio};
use std::test::Fail;
use std::{fs, io, str};
use texts::Text;

type RealHost = FilesHost<Unknown>;

// What lines of shell print, in the directory.
fn shell(rt: &HostRuntime, lines: &str, directory: &str) -> io::Result<String> {
    let mut command = Command::new(rt.alloc(), "/bin/sh")?;
    command.args([
        "-euc",
        "umask 022; cd \"$1\"; eval \"$0\"",
        lines,
        directory,
    ])?;
    command.stderr(Stdio::inherit());
    let output = command.output(rt)?;
    let text = str::from_utf8(output.stdout.as_slice()).unwrap_or("bytes that are no text");
    match output.status.success() {
        true => Ok(String::from_str(rt.alloc(), text)?),
        false => Err(io::Error::other("the shell's lines failed")),
    }
}

const NEW_DIRECTORY: &str = "made=$(mktemp -d)
mkdir \"$made/root\"
printf %s \"$made\"";

fn path_of(alloc: Global, text: &str) -> Result<RootPath, HostFault> {
    match RootPath::parse(alloc, text)? {
        Some(path) => Ok(path),
        None => Err(HostFault::Device),
    }
}

fn kind_text(kind: Option<Kind>) -> &'static str {
    match kind {
        Some(Kind::File) => "file",
        Some(Kind::Directory) => "directory",
        Some(Kind::SymbolicLink) => "link",
        None => "nothing",
    }
}

// Makes the step that a word names, at one path or from one to the other.
fn step(
    host: &mut RealHost,
    word: &str,
    one: &RootPath,
    other: &RootPath,
) -> Result<(), HostFault> {
    match word {
        "link" => host.link(one, other),
        "move" => host.rename(one, other),
        "remove" => host.remove(one),
        "remove_dir" => host.remove_dir(one),
        "sync" => host.sync(one),
        "lower" => host.lower(one),
        _ => host.barrier(),
    }
}

// Makes a directory, or a link to it.
fn make(host: &mut RealHost, word: &str, path: &RootPath, target: &Text) -> Result<(), HostFault> {
    let access = Access {
        mode: 0o755,
        user: 0,
        group: 0,
    };
    match word {
        "make" => host.make_dir(path, access),
        _ => host.make_link(path, target),
    }
}

// Writes a script; at a temporary name alone.
fn write(alloc: Global, host: &mut RealHost, path: &RootPath) -> Result<(), HostFault> {
    if !path.as_str().ends_with(".dpkg-inst") {
        return Err(HostFault::NoMemory);
    }
    let bytes = Content::from_slice(alloc, b"#!/bin/sh\nexit 7\n")?;
    let access = Access::own(0o755);
    host.write_new(path, &Node::File { bytes, access })
}

// What the host answers to a call.
fn told(
    alloc: Global,
    host: &mut RealHost,
    call: (&str, &str, &str),
) -> Result<&'static str, HostFault> {
    let (word, one, other) = call;
    let path = path_of(alloc, one)?;
    match word {
        "kind" => Ok(kind_text(host.kind(&path)?)),
        "make" | "make_link" => {
            make(host, word, &path, &Text::from_str(alloc, other)?)?;
            Ok("done")
        }
        "write" => {
            write(alloc, host, &path)?;
            Ok("done")
        }
        _ => {
            step(host, word, &path, &path_of(alloc, other)?)?;
            Ok("done")
        }
    }
}

fn fault_text(fault: HostFault) -> &'static str {
    match fault {
        HostFault::Device => "Device",
        HostFault::NoMemory => "NoMemory",
        HostFault::Declined => "Declined",
    }
}

// Lines of shell that come before, a call, and its answer. A Device is counted, and nothing else is.
type Row = (
    &'static str,
    (&'static str, &'static str, &'static str),
    &'static str,
);

fn check(rt: &HostRuntime, host: &mut RealHost, directory: &str, row: &Row) -> Result<(), Fail> {
    let (before, call, answer) = *row;
    shell(rt, before, directory)?;
    let counted = host.faults();
    let told = match told(rt.alloc(), host, call) {
        Ok(told) => told,
        Err(fault) => fault_text(fault),
    };
    let (word, one, other) = call;
    let failed = host.faults() > counted;
    match told == answer && failed == (told == "Device") {
        true => Ok(()),
        false => Err(Fail::new(format_args!("{word} {one} {other}: {told}"))),
    }
}

// Makes the calls in a new root, and tells what the lines print that look at it.
fn run(rt: &HostRuntime, rows: &[Row], look: &str) -> Result<String, Fail> {
    let directory = shell(rt, NEW_DIRECTORY, "/")?;
    let directory = directory.as_str();
    let root = format!(in rt.alloc(); "{directory}/root")?;
    let mut host = FilesHost::open(*rt, root.as_str())?;
    for row in rows {
        check(rt, &mut host, directory, row)?;
    }
    let left = shell(rt, look, directory)?;
    fs::remove_dir_all(rt, directory)?;
    Ok(left)
}

const SECOND_NAMES: &[Row] = &[
    (
        "mkdir outside root/bare
echo kept >outside/file
echo one >root/file
echo two >root/other
ln -s nowhere root/link
ln -s ../outside root/way",
        ("link", "/file", "/second"),
        "done",
    ),
    (
        "[ root/file -ef root/second ]",
        ("link", "/link", "/second_link"),
        "done",
    ),
    (
        "[ \"$(stat -c %i root/link)\" = \"$(stat -c %i root/second_link)\" ]",
        ("link", "/file", "/other"),
        "Device",
    ),
    ("", ("link", "/file", "/file"), "Device"),
    ("", ("link", "/file", "/way"), "Device"),
    ("", ("link", "/file", "/way/new"), "Device"),
    ("", ("link", "/way/file", "/new"), "Device"),
    ("", ("link", "/bare", "/new"), "Device"),
    ("", ("link", "/missing", "/new"), "Device"),
    ("", ("make_link", "/made", "no/where"), "done"),
    ("", ("make_link", "/made", "other"), "Device"),
    ("", ("make_link", "/way/made", "other"), "Device"),
    ("", ("sync", "/second", "/"), "done"),
    ("", ("sync", "/way", "/"), "done"),
    ("", ("sync", "/way/file", "/"), "Device"),
    ("", ("sync", "/bare", "/"), "Device"),
    ("", ("sync", "/missing", "/"), "Device"),
];

const NAMES: &str =
    "find outside root -type l -printf '%p -> %l\\n' -o -printf '%p %y %n\\n' | LC_ALL=C sort
cat root/file root/other outside/file";

#[test]
fn second_names(rt: HostRuntime) -> Result<(), Fail> {
    let left = run(&rt, SECOND_NAMES, NAMES)?;
    let row = "outside d 2
outside/file f 1
root d 3
root/bare d 2
root/file f 2
root/link -> nowhere
root/made -> no/where
root/other f 1
root/second f 2
root/second_link -> nowhere
root/way -> ../outside
one
two
kept
";
    assert_eq!(&rt; left.as_str(), row);
    Ok(())
}

// The system's own rename does nothing where both are names of one file.
const ONE_FILE: &[Row] = &[
    (
        "echo one >root/file
ln root/file root/second
ln root/file root/third
ln -s nowhere root/link
ln -P root/link root/second_link
echo two >root/other",
        ("move", "/file", "/second"),
        "done",
    ),
    ("", ("kind", "/file", ""), "nothing"),
    ("", ("kind", "/second", ""), "file"),
    ("", ("move", "/second", "/second"), "done"),
    ("", ("kind", "/second", ""), "file"),
    ("", ("move", "/link", "/second_link"), "done"),
    ("", ("kind", "/link", ""), "nothing"),
    ("", ("kind", "/second_link", ""), "link"),
    ("", ("move", "/other", "/other"), "done"),
    ("", ("move", "/third", "/other"), "done"),
    ("", ("move", "/missing", "/other"), "Device"),
];

#[test]
fn renames_of_one_file(rt: HostRuntime) -> Result<(), Fail> {
    let left = run(
        &rt,
        ONE_FILE,
        "cd root; for name in *; do stat -c '%n %F %h' \"$name\"; done; cat second other",
    )?;
    let row = "other regular file 2
second regular file 2
second_link symbolic link 1
one
one
";
    assert_eq!(&rt; left.as_str(), row);
    Ok(())
}

// A directory that has entries can't be removed, whoever asks.
const NOT_EMPTY: &[Row] = &[
    (
        "mkdir -p root/kept/below
echo one >root/kept/file",
        ("remove_dir", "/kept", "/"),
        "Declined",
    ),
    ("", ("remove_dir", "/kept/below", "/"), "done"),
    ("", ("remove_dir", "/kept", "/"), "Declined"),
    ("", ("remove", "/kept/file", "/"), "done"),
    ("", ("remove_dir", "/kept", "/"), "done"),
    ("", ("remove_dir", "/kept", "/"), "Device"),
];

#[test]
fn directories_with_entries(rt: HostRuntime) -> Result<(), Fail> {
    let left = run(&rt, NOT_EMPTY, "find root")?;
    assert_eq!(&rt; left.as_str(), "root\n");
    Ok(())
}

// A pipe or socket is a file without bytes, which is never opened: that would wait without end.
const PIPES: &[Row] = &[
    (
        "mkfifo -m 640 root/pipe
mkdir root/bare
echo one >root/file
ln -s pipe root/link",
        ("kind", "/pipe", ""),
        "file",
    ),
    ("", ("sync", "/pipe", "/"), "done"),
    ("", ("link", "/pipe", "/second"), "done"),
    (
        "[ root/pipe -ef root/second ]",
        ("move", "/file", "/pipe"),
        "done",
    ),
    ("", ("move", "/second", "/link"), "done"),
    ("", ("make", "/link/below", ""), "Device"),
    ("", ("kind", "/link/below", ""), "nothing"),
    ("mkfifo root/gone", ("remove", "/gone", "/"), "done"),
    ("mkfifo root/made", ("make", "/made", ""), "Device"),
    ("", ("remove_dir", "/made", "/"), "Device"),
    ("", ("barrier", "/", "/"), "done"),
];

#[test]
fn pipes(rt: HostRuntime) -> Result<(), Fail> {
    let left = run(&rt, PIPES, "find root -printf '%p %y %m\n' | LC_ALL=C sort")?;
    let row = "root d 755
root/bare d 755
root/link p 640
root/made p 644
root/pipe f 644
";
    assert_eq!(&rt; left.as_str(), row);
    Ok(())
}

// What was there when a name changed may be gone, or something else, when all is brought to the disk.
const BARRIERS: &[Row] = &[
    (
        "mkdir outside root/taken root/linked",
        ("barrier", "/", "/"),
        "done",
    ),
    ("", ("make", "/made", ""), "done"),
    ("", ("make", "/made/below", ""), "done"),
    ("", ("remove_dir", "/made/below", "/"), "done"),
    ("", ("remove_dir", "/made", "/"), "done"),
    ("", ("barrier", "/", "/"), "done"),
    ("", ("make", "/taken/below", ""), "done"),
    ("", ("make", "/linked/below", ""), "done"),
    (
        "rm -r root/taken root/linked
ln -s ../outside root/linked
mkfifo root/taken",
        ("barrier", "/", "/"),
        "done",
    ),
    ("", ("kind", "/taken", ""), "file"),
    ("", ("kind", "/linked", ""), "link"),
    ("", ("kind", "/linked/below", ""), "nothing"),
    ("", ("kind", "/", ""), "directory"),
    ("", ("barrier", "/", "/"), "done"),
];

#[test]
fn barriers(rt: HostRuntime) -> Result<(), Fail> {
    let left = run(
        &rt,
        BARRIERS,
        "find outside root -printf '%p %y\\n' | LC_ALL=C sort",
    )?;
    let row = "outside d
root d
root/linked l
root/taken p
";
    assert_eq!(&rt; left.as_str(), row);
    Ok(())
}
