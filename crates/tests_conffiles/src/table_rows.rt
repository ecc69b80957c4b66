// The twelve rows of the table: what is decided, and what stands at the conffile and beside it afterwards.
ghost use Rattle.std.specs.Prelude.{◌≡◌, None};
ghost use Rattle.host_memory.specs.Memory.{memory_state};
ghost use Rattle.conffiles.specs.Settling.{CanSettle};

mod stop_rows;

use conffiles::{Changed, ConfPolicy, Decision, Digest, Settled, apply, decide, find_obstacle};
use host_core::{Access, Content, Host, HostFault, Node, RootPath, ShipPath};
use host_memory::MemoryHost;
use std::alloc::{AllocError, Global};
use std::process::Abort;
use std::str;
use std::test::Fail;

// Contents, and none for a file that isn't there: recorded, there, shipped.
type Found = (&'static str, &'static str, &'static str);

// What stands afterwards: there, at `.dpkg-old` and at `.dpkg-dist`.
type Left = (&'static str, &'static str, &'static str);

type Row = (Found, ConfPolicy, Decision, Left);

const DEFAULT: ConfPolicy = ConfPolicy {
    changed: Changed::Keep,
    missing: false,
};

const CONFNEW: ConfPolicy = ConfPolicy {
    changed: Changed::Install,
    missing: false,
};

const CONFMISS: ConfPolicy = ConfPolicy {
    changed: Changed::Keep,
    missing: true,
};

const ROWS: &[Row] = &[
    (("", "", "c"), DEFAULT, Decision::TakeNew, ("c", "", "")),
    (("", "c", "c"), DEFAULT, Decision::DropNew, ("c", "", "")),
    (("", "b", "c"), DEFAULT, Decision::NewToDist, ("b", "", "c")),
    (("", "b", "c"), CONFNEW, Decision::BackupOld, ("c", "b", "")),
    (("a", "", "a"), CONFNEW, Decision::DropNew, ("", "", "")),
    (("a", "", "a"), CONFMISS, Decision::TakeNew, ("a", "", "")),
    (("a", "", "c"), DEFAULT, Decision::DropNew, ("", "", "")),
    (("a", "", "c"), CONFMISS, Decision::TakeNew, ("c", "", "")),
    (("a", "", "c"), CONFNEW, Decision::TakeNew, ("c", "", "")),
    (("a", "c", "c"), CONFNEW, Decision::DropNew, ("c", "", "")),
    (("a", "a", "c"), DEFAULT, Decision::TakeNew, ("c", "", "")),
    (("a", "b", "a"), CONFNEW, Decision::DropNew, ("b", "", "")),
    (
        ("a", "b", "c"),
        DEFAULT,
        Decision::NewToDist,
        ("b", "", "c"),
    ),
    (
        ("a", "b", "c"),
        CONFNEW,
        Decision::BackupOld,
        ("c", "b", ""),
    ),
    (("a", "", ""), DEFAULT, Decision::Nothing, ("", "", "")),
    (("a", "a", ""), DEFAULT, Decision::Delete, ("", "", "")),
    (("a", "b", ""), DEFAULT, Decision::Rename, ("", "b", "")),
];

fn digest_of(text: &str) -> Option<Digest> {
    if text.is_empty() {
        None
    } else {
        Some(Digest::of(text.as_bytes()))
    }
}

fn root_path(alloc: Global, text: &str) -> Result<RootPath, AllocError> {
    match RootPath::parse(alloc, text)? {
        Some(path) => Ok(path),
        None => Err(AllocError),
    }
}

fn ship_path(alloc: Global, text: &str) -> Result<ShipPath, AllocError> {
    match ShipPath::parse(alloc, text)? {
        Some(path) => Ok(path),
        None => Err(AllocError),
    }
}

// Places a file, where it has contents.
fn put(
    alloc: Global,
    host: &mut MemoryHost,
    path: &str,
    text: &str,
    access: Access,
) -> Result<(), AllocError> {
    if text.is_empty() {
        return Ok(());
    }
    let bytes = Content::from_slice(alloc, text.as_bytes())?;
    host.place(&root_path(alloc, path)?, Node::File { bytes, access })?;
    Ok(())
}

// What a file holds, with its mode where that isn't the administrator's, and nothing where none is there.
fn look(alloc: Global, host: &mut MemoryHost, path: &str) -> Result<String, HostFault> {
    let node = host.node(&root_path(alloc, path)?)?;
    match &node {
        Some(Node::File { bytes, .. }) => {
            let text = str::from_utf8(bytes.held()?).unwrap_or("no text");
            return Ok(String::from_str(alloc, text)?);
        }
        Some(Node::Dir { .. }) => Ok(String::from_str(alloc, "directory")?),
        Some(Node::Link { .. }) => Ok(String::from_str(alloc, "link")?),
        None => Ok(String::new(alloc)),
    }
}

// Settles one conffile, where it can be.
fn settle(
    alloc: Global,
    host: &mut MemoryHost,
    path: ShipPath,
    decision: Decision,
) -> Result<bool, HostFault> {
    let obstacle = find_obstacle(host, &path)?;
    if obstacle.is_some() {
        return Ok(false);
    }
    let mut list = Vec::new(alloc);
    list.push(Settled::new(path, decision))?;
    apply(host, list.as_slice())?;
    Ok(true)
}

// A root with the conffile and what is to become it. The administrator set the conffile's mode.
fn root_of(alloc: Global, found: &Found) -> Result<MemoryHost, AllocError> {
    let (_, now, shipped) = found;
    let mut host = MemoryHost::new(alloc)?;
    put(alloc, &mut host, "/etc/x", now, Access::own(0o600))?;
    let access = Access::own(0o644);
    put(alloc, &mut host, "/etc/x.dpkg-new", shipped, access)?;
    Ok(host)
}

fn check_at(
    rt: &(impl Abort + AllocGlobal),
    host: &mut MemoryHost,
    path: &str,
    row: &str,
) -> Result<(), Fail> {
    let text = look(rt.alloc(), host, path)?;
    assert_eq!(rt; text.as_str(), row);
    Ok(())
}

fn check_left(
    rt: &(impl Abort + AllocGlobal),
    host: &mut MemoryHost,
    left: &Left,
) -> Result<(), Fail> {
    let (home, old, dist) = left;
    check_at(rt, host, "/etc/x", home)?;
    check_at(rt, host, "/etc/x.dpkg-old", old)?;
    check_at(rt, host, "/etc/x.dpkg-dist", dist)?;
    check_at(rt, host, "/etc/x.dpkg-new", "")
}

#[test]
fn each_row_is_settled(rt: HostRuntime) -> Result<(), Fail> {
    let alloc = rt.alloc();
    for (found, policy, row, left) in ROWS {
        let (recorded, now, shipped) = found;
        let decision = decide(
            digest_of(recorded),
            digest_of(now),
            digest_of(shipped),
            *policy,
        );
        assert_eq!(rt; decision, *row);
        let mut host = root_of(alloc, found)?;
        assert!(rt; settle(alloc, &mut host, ship_path(alloc, "/etc/x")?, decision)?);
        check_left(&rt, &mut host, left)?;
    }
    Ok(())
}
