// No call of a host goes through a link, in the middle of a path or at its end.
use super::{NEW_DIRECTORY, RealHost, shell};
use crate::answers::{path_of, text_of};
use host_core::{
    Access, Call, Content, Host, HostFault, Keep, Node, Outcome, Places, RootPath, Script, Side,
};
use host_files::FilesHost;
use std::alloc::{AllocError, Global};
use std::fs;
use std::process::Abort;
use std::test::Fail;
use texts::{Text, Texts};

// Links under the root lead to what stands outside.
const LINKS: &str = "mkdir root outside outside/bare outside/full
echo kept >outside/file
echo kept >outside/full/file
printf '#!/bin/sh\\necho ran >>../outside/file\\n' >outside/script
chmod 755 outside/script
echo moved >root/file
ln -s ../outside root/link
ln -s ../outside/new root/dangling
ln -s ../outside/new root/dangling.dpkg-inst
ln -s ../outside/script root/script";

fn node_text(alloc: Global, node: Option<Node>) -> Result<String, AllocError> {
    match node {
        Some(Node::File { bytes, access }) => {
            let mode = access.mode;
            let text = text_of(bytes.held()?);
            format!(in alloc; "file {mode:o} {text}")
        }
        Some(Node::Dir { access }) => {
            let mode = access.mode;
            format!(in alloc; "directory {mode:o}")
        }
        Some(Node::Link { target }) => {
            let target = target.as_str();
            format!(in alloc; "link {target}")
        }
        None => String::from_str(alloc, "nothing"),
    }
}

// Runs a preinst.
fn run(alloc: Global, host: &mut RealHost, path: &RootPath) -> Result<Outcome, HostFault> {
    let call = Call {
        side: Side::New,
        package: Text::new(String::from_str(alloc, "alpha")?),
        script: Script::Preinst,
        at: path.copy()?,
        args: Texts::new(alloc),
    };
    let places = Places {
        items: Vec::new(alloc),
    };
    host.run(&call, &Keep { places: &places })
}

// Writes a file; at a temporary name alone.
fn write(alloc: Global, host: &mut RealHost, path: &RootPath) -> Result<(), HostFault> {
    if !path.as_str().ends_with(".dpkg-inst") {
        return Err(HostFault::NoMemory);
    }
    let bytes = Content::from_slice(alloc, b"written\n")?;
    let access = Access::own(0o1775);
    host.write_new(path, &Node::File { bytes, access })
}

// Makes a step at the path.
fn step(alloc: Global, host: &mut RealHost, word: &str, path: &RootPath) -> Result<(), HostFault> {
    match word {
        "write" => write(alloc, host, path),
        "sync" => host.sync(path),
        "make" => host.make_dir(path, Access::own(0o1775)),
        "move" => host.rename(path, &RootPath::from_str(alloc, "/moved")?),
        "settle" => host.rename(path, &RootPath::from_str(alloc, "/written")?),
        "cover" => host.rename(&RootPath::from_str(alloc, "/file")?, path),
        "remove" => host.remove(path),
        _ => host.remove_dir(path),
    }
}

// What the host answers to the call that a word names.
fn told(
    alloc: Global,
    host: &mut RealHost,
    word: &str,
    path: &RootPath,
) -> Result<String, HostFault> {
    match word {
        "node" => Ok(node_text(alloc, host.node(path)?)?),
        "list" => {
            let count = host.list(path)?.names.as_slice().len();
            Ok(format!(in alloc; "{count} names")?)
        }
        "run" => match run(alloc, host, path)? {
            Outcome::NotStarted => Ok(String::from_str(alloc, "not started")?),
            _ => Ok(String::from_str(alloc, "started")?),
        },
        _ => {
            step(alloc, host, word, path)?;
            Ok(String::from_str(alloc, "done")?)
        }
    }
}

// Calls, and what the host answers.
const CALLS: &[(&str, &str, &str)] = &[
    ("node", "/link", "link ../outside"),
    ("node", "/link/file", "nothing"),
    ("node", "/link/full/file", "nothing"),
    ("list", "/link", "0 names"),
    ("list", "/link/full", "0 names"),
    ("run", "/script", "not started"),
    ("run", "/link/script", "not started"),
    ("write", "/dangling.dpkg-inst", "Device"),
    ("write", "/link/new.dpkg-inst", "Device"),
    ("make", "/dangling", "Device"),
    ("make", "/link/new", "Device"),
    ("move", "/link/file", "Device"),
    ("cover", "/link/file", "Device"),
    ("remove", "/link/file", "Device"),
    ("remove_dir", "/link", "Device"),
    ("remove_dir", "/link/bare", "Device"),
    ("cover", "/dangling", "done"),
    ("move", "/script", "done"),
    ("remove", "/link", "done"),
    ("write", "/written.dpkg-inst", "done"),
    ("sync", "/written.dpkg-inst", "done"),
    ("settle", "/written.dpkg-inst", "done"),
    ("make", "/made", "done"),
    ("node", "/written", "file 1775 written\n"),
    ("node", "/made", "directory 1775"),
];

fn check(
    rt: &HostRuntime,
    host: &mut RealHost,
    asked: (&str, &str),
    row: &str,
) -> Result<(), Fail> {
    let alloc = rt.alloc();
    let (word, path) = asked;
    let answer = match told(alloc, host, word, &path_of(alloc, path)?) {
        Ok(answer) => answer,
        Err(fault) => format!(in alloc; "{fault:?}")?,
    };
    match answer.as_str() == row {
        true => Ok(()),
        false => Err(Fail::new(format_args!("{word} {path}: {answer}"))),
    }
}

const LEFT: &str =
    "find outside root \\( -type l -printf '%p -> %l\\n' \\) -o -printf '%p %y %m\\n' | LC_ALL=C sort
cat outside/file outside/full/file root/dangling root/written";

#[test]
fn no_call_follows_a_link(rt: HostRuntime) -> Result<(), Fail> {
    let directory = shell(&rt, NEW_DIRECTORY, &["/"])?;
    let directory = directory.as_str();
    shell(&rt, LINKS, &[directory])?;
    let root = format!(in rt.alloc(); "{directory}/root")?;
    let mut host = FilesHost::open(rt, root.as_str())?;
    for (word, path, row) in CALLS {
        check(&rt, &mut host, (word, path), row)?;
    }
    let left = shell(&rt, LEFT, &[directory])?;
    let row = "outside d 755
outside/bare d 755
outside/file f 644
outside/full d 755
outside/full/file f 644
outside/script f 755
root d 755
root/dangling f 644
root/dangling.dpkg-inst -> ../outside/new
root/made d 1775
root/moved -> ../outside/script
root/written f 1775
kept
kept
moved
written
";
    assert_eq!(&rt; left.as_str(), row);
    fs::remove_dir_all(&rt, directory)?;
    Ok(())
}
