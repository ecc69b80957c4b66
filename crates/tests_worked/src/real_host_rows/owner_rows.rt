// What is told and set of owners, as the superuser and as a plain user: the gate has one of them, scripts/owners has both
// and then also names a root whose file /owned, of mode 2755, belongs to user 1 and group 42.
use super::{NEW_DIRECTORY, RealHost, Row, check, shell};
use host_core::{Access, Content, Host, HostFault, Node, RootPath};
use host_files::FilesHost;
use std::alloc::{AllocError, Global};
use std::rt::Env;
use std::test::Fail;
use std::{env, fs};
use texts::Text;

fn node_text(alloc: Global, node: Option<Node>) -> Result<String, AllocError> {
    match node {
        Some(Node::File { access, .. }) => {
            let mode = access.mode;
            let user = access.user;
            let group = access.group;
            format!(in alloc; "{mode:o} {user} {group}")
        }
        _ => String::from_str(alloc, "no file"),
    }
}

// What is told of a file's access.
fn look(alloc: Global, host: &mut RealHost, path: &RootPath) -> Result<String, HostFault> {
    let node = host.node(path)?;
    Ok(node_text(alloc, node)?)
}

// Writes a file with that access, brings it to the disk and renames it.
fn write(alloc: Global, host: &mut RealHost, access: Access) -> Result<(), HostFault> {
    let new = RootPath::from_str(alloc, "/written.dpkg-inst")?;
    let node = Node::File {
        bytes: Content::from_slice(alloc, b"written\n")?,
        access,
    };
    host.write_new(&new, &node)?;
    host.sync(&new)?;
    host.rename(&new, &RootPath::from_str(alloc, "/written")?)
}

// An access that a file is written with, whether it is written, and what the host and the system then tell of it.
type Case = (u16, u32, u32, &'static str, &'static str);

const AS_SUPERUSER: &[Case] = &[
    (0o2755, 1, 42, "2755 1 42", "2755 1 42\n"),
    (0o6511, 0, 0, "6511 0 0", "6511 0 0\n"),
    (0o644, 0, 0, "644 0 0", "644 0 0\n"),
];

const AS_PLAIN_USER: &[Case] = &[
    (0o755, 0, 0, "755 0 0", "755\n"),
    (0o1755, 0, 0, "1755 0 0", "1755\n"),
    (0o2755, 0, 0, "Device", "nothing\n"),
    (0o755, 1, 42, "Device", "nothing\n"),
];

fn answer(alloc: Global, host: &mut RealHost, access: Access) -> Result<String, HostFault> {
    write(alloc, host, access)?;
    look(alloc, host, &RootPath::from_str(alloc, "/written")?)
}

fn try_case(
    rt: &HostRuntime,
    host: &mut RealHost,
    directory: &str,
    format: &str,
    case: &Case,
) -> Result<(), Fail> {
    let (mode, user, group, told, seen) = *case;
    let access = Access { mode, user, group };
    let answer = match answer(rt.alloc(), host, access) {
        Ok(answer) => answer,
        Err(fault) => format!(in rt.alloc(); "{fault:?}")?,
    };
    let look = format!(in rt.alloc();
        "[ ! -e root/written.dpkg-inst ] || echo left
[ -e root/written ] || echo nothing
[ ! -e root/written ] || stat -c '{format}' root/written
rm -f root/written"
    )?;
    let left = shell(rt, look.as_str(), directory)?;
    match answer.as_str() == told && left.as_str() == seen {
        true => Ok(()),
        false => Err(Fail::new(format_args!("{mode:o} {user} {group}: {answer}, {left}"))),
    }
}

fn try_cases(rt: &HostRuntime, format: &str, cases: &[Case]) -> Result<(), Fail> {
    let directory = shell(rt, NEW_DIRECTORY, "/")?;
    let directory = directory.as_str();
    let root = format!(in rt.alloc(); "{directory}/root")?;
    let mut host = FilesHost::open(*rt, root.as_str())?;
    for case in cases {
        try_case(rt, &mut host, directory, format, case)?;
    }
    fs::remove_dir_all(rt, directory)?;
    Ok(())
}

fn is_superuser(rt: &HostRuntime) -> Result<bool, Fail> {
    Ok(shell(rt, "id -u", "/")?.as_str() == "0\n")
}

#[test]
fn written_access(rt: HostRuntime) -> Result<(), Fail> {
    match is_superuser(&rt)? {
        true => try_cases(&rt, "%a %u %g", AS_SUPERUSER),
        false => try_cases(&rt, "%a", AS_PLAIN_USER),
    }
}

// An access that a directory is made with; one above it may hand down its group.
const DIRECTORIES: &[(&str, u16, u32, u32)] = &[
    ("/plain", 0o755, 0, 0),
    ("/closed", 0o500, 0, 0),
    ("/unread", 0o311, 0, 0),
    ("/wide", 0o1777, 0, 0),
    ("/grouped/plain", 0o775, 0, 0),
    ("/grouped/handed", 0o2775, 0, 42),
    ("/lent", 0o2755, 1, 42),
    ("/owned", 0o755, 1, 42),
];

// Makes a directory with that access.
fn make_with(
    alloc: Global,
    host: &mut RealHost,
    path: &str,
    access: Access,
) -> Result<(), HostFault> {
    match RootPath::parse(alloc, path)? {
        Some(path) => host.make_dir(&path, access),
        None => Err(HostFault::NoMemory),
    }
}

fn make_each(rt: &HostRuntime, root: &str) -> Result<String, Fail> {
    let alloc = rt.alloc();
    let mut host: RealHost = FilesHost::open(*rt, root)?;
    let mut text = String::new(alloc);
    for (path, mode, user, group) in DIRECTORIES {
        let access = Access {
            mode: *mode,
            user: *user,
            group: *group,
        };
        match make_with(alloc, &mut host, path, access) {
            Ok(()) => {}
            Err(fault) => {
                text.push_str(format!(in alloc; "{path}: {fault:?}\n")?.as_str())?;
            }
        }
    }
    Ok(text)
}

#[test]
fn made_access(rt: HostRuntime) -> Result<(), Fail> {
    let directory = shell(&rt, NEW_DIRECTORY, "/")?;
    let superuser = is_superuser(&rt)?;
    let format = match superuser {
        true => "%p %m %U %G\n",
        false => "%p %m\n",
    };
    let lines = match superuser {
        true => "mkdir root/grouped; chgrp 42 root/grouped; chmod 2755 root/grouped",
        false => "mkdir root/grouped",
    };
    shell(&rt, lines, directory.as_str())?;
    let root = format!(in rt.alloc(); "{directory}/root")?;
    let mut text = make_each(&rt, root.as_str())?;
    let look = format!(in rt.alloc();
        "cd root
find . -type d ! -name . -printf '{format}' 2>/dev/null | LC_ALL=C sort
chmod -R u+rwx ."
    )?;
    text.push_str(shell(&rt, look.as_str(), directory.as_str())?.as_str())?;
    fs::remove_dir_all(&rt, directory.as_str())?;
    let row = match superuser {
        true => MADE_BY_SUPERUSER,
        false => MADE_BY_PLAIN_USER,
    };
    assert_eq!(&rt; text.as_str(), row);
    Ok(())
}

const MADE_BY_SUPERUSER: &str = "./closed 500 0 0
./grouped 2755 0 42
./grouped/handed 2775 0 42
./grouped/plain 775 0 0
./lent 2755 1 42
./owned 755 1 42
./plain 755 0 0
./unread 311 0 0
./wide 1777 0 0
";

const MADE_BY_PLAIN_USER: &str = "/grouped/handed: Device
/lent: Device
/owned: Device
./closed 500
./grouped 755
./grouped/plain 775
./plain 755
./unread 311
./wide 1777
";

// Steps in a directory that only others may change are declined, and leave what was there; so is a removal in one that only
// others may read. The superuser may change it.
const CLOSED: &[Row] = &[
    (
        "mkdir root/closed root/closed/bare
echo one >root/file
echo two >root/closed/old
chmod 555 root/closed",
        ("move", "/file", "/closed/file"),
        "Declined",
    ),
    ("", ("move", "/file", "/closed/old"), "Declined"),
    ("", ("move", "/closed/old", "/file"), "Declined"),
    ("", ("write", "/closed/new.dpkg-inst", ""), "Declined"),
    ("", ("make", "/closed/made", ""), "Declined"),
    ("", ("make_link", "/closed/made", "file"), "Declined"),
    ("", ("link", "/file", "/closed/second"), "Declined"),
    ("", ("remove", "/closed/old", "/"), "Declined"),
    ("", ("remove_dir", "/closed/bare", "/"), "Declined"),
    ("", ("kind", "/file", ""), "file"),
    ("", ("sync", "/closed/old", "/"), "done"),
    ("", ("barrier", "/", "/"), "done"),
    (
        "chmod 333 root/closed",
        ("remove", "/closed/old", "/"),
        "Declined",
    ),
];

const CLOSED_LEFT: &str = "chmod 755 root/closed
find root -type f -exec cat {} + -printf '%p\n' -o -printf '%p\n' | LC_ALL=C sort";

#[test]
fn closed_directory(rt: HostRuntime) -> Result<(), Fail> {
    if is_superuser(&rt)? {
        return Ok(());
    }
    let left = super::run(&rt, CLOSED, CLOSED_LEFT)?;
    let row = "one
root
root/closed
root/closed/bare
root/closed/old
root/file
two
";
    assert_eq!(&rt; left.as_str(), row);
    Ok(())
}

// A file with a set-id bit, which has a second name, and one for its group; one without such a bit, a link and a pipe.
const LENT: &[Row] = &[
    (
        "echo one >root/lent
chmod 4755 root/lent
ln root/lent root/second
echo two >root/grouped
chmod 2750 root/grouped
echo three >root/plain
chmod 755 root/plain
ln -s lent root/link
mkfifo root/pipe
chmod 4644 root/pipe",
        ("lower", "/lent", "/"),
        "done",
    ),
    ("", ("lower", "/grouped", "/"), "done"),
    ("", ("lower", "/plain", "/"), "done"),
    ("", ("lower", "/link", "/"), "done"),
    ("", ("lower", "/pipe", "/"), "done"),
];

// The superuser takes the rights that a file lends from all its names; another user is told of none, and leaves them.
#[test]
fn lent_rights(rt: HostRuntime) -> Result<(), Fail> {
    let left = super::run(&rt, LENT, "cd root; stat -c '%n %F %a' *")?;
    let row = match is_superuser(&rt)? {
        true => LOWERED,
        false => LENT_STILL,
    };
    assert_eq!(&rt; left.as_str(), row);
    Ok(())
}

const LOWERED: &str = "grouped regular file 600
lent regular file 600
link symbolic link 777
pipe fifo 4644
plain regular file 755
second regular file 600
";

const LENT_STILL: &str = "grouped regular file 2750
lent regular file 4755
link symbolic link 777
pipe fifo 4644
plain regular file 755
second regular file 4755
";

#[test]
fn owned_file(rt: HostRuntime) -> Result<(), Fail> {
    let Ok(root) = env::var(&rt, "OWNED") else {
        return Ok(());
    };
    let told = match is_superuser(&rt)? {
        true => "2755 1 42",
        false => "755 0 0",
    };
    let mut host = FilesHost::open(rt, root.as_str())?;
    let found = look(
        rt.alloc(),
        &mut host,
        &RootPath::from_str(rt.alloc(), "/owned")?,
    )?;
    match found.as_str() == told {
        true => Ok(()),
        false => Err(Fail::new(format_args!("/owned: {found}"))),
    }
}
