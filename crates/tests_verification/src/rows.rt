// The rows: what stands under the root, which packages are verified, and what is told.
use host_core::{Access, Content, Node, RootPath};
use host_memory::MemoryHost;
use std::alloc::{AllocError, Global};
use std::process::Abort;
use std::str;
use std::test::Fail;
use texts::{Text, Texts};
use verification::verify;

// A path, and what stands there: a file by what it holds, a directory as `/`, a link as `@` with its target.
type Thing = (&'static str, &'static str);

struct Row {
    there: &'static [Thing],
    names: &'static [&'static str],
    told: &'static str,
}

const OF_EACH_KIND: &[Thing] = &[
    (
        "/var/lib/dpkg/status",
        "Package: aa
Status: install ok installed
Version: 1
Conffiles:
 /etc/edited.conf 0cc175b9c0f1b6a831c399e269772661
 /etc/gone.conf 0cc175b9c0f1b6a831c399e269772661
 /etc/kept.conf 0cc175b9c0f1b6a831c399e269772661
 /etc/left.conf 0cc175b9c0f1b6a831c399e269772661 obsolete
 /etc/unsettled.conf newconffile
",
    ),
    (
        "/var/lib/dpkg/info/aa.list",
        "/.
/etc
/etc/edited.conf
/etc/gone.conf
/etc/kept.conf
/etc/left.conf
/etc/unsettled.conf
/usr
/usr/bin
/usr/bin/diverted
/usr/bin/edited
/usr/bin/gone
/usr/bin/good
/usr/bin/kind
/usr/bin/link
/usr/bin/twice
/usr/bin/unknown
/usr/share
",
    ),
    // That of a conffile isn't taken from here, and of two lines for a path the second.
    (
        "/var/lib/dpkg/info/aa.md5sums",
        "0cc175b9c0f1b6a831c399e269772661  usr/bin/diverted
0cc175b9c0f1b6a831c399e269772661  usr/bin/edited
0cc175b9c0f1b6a831c399e269772661  usr/bin/gone
0cc175b9c0f1b6a831c399e269772661  usr/bin/good
0cc175b9c0f1b6a831c399e269772661  usr/bin/kind
0cc175b9c0f1b6a831c399e269772661  usr/bin/link
0cc175b9c0f1b6a831c399e269772661  usr/bin/twice
92eb5ffee6ae2fec3ad71c777531578f  usr/bin/twice
0cc175b9c0f1b6a831c399e269772661 usr/bin/unknown
0CC175B9C0F1B6A831C399E269772661  usr/bin/unknown
0cc175b9c0f1b6a831c399e269772661
92eb5ffee6ae2fec3ad71c777531578f  etc/kept.conf
92eb5ffee6ae2fec3ad71c777531578f  etc/left.conf",
    ),
    (
        "/var/lib/dpkg/diversions",
        "/usr/bin/diverted\n/usr/bin/diverted.real\n:\n",
    ),
    ("/etc/edited.conf", "b"),
    ("/etc/kept.conf", "a"),
    ("/etc/left.conf", "a"),
    ("/etc/unsettled.conf", "b"),
    ("/usr/bin/diverted", "a"),
    ("/usr/bin/diverted.real", "b"),
    ("/usr/bin/edited", "b"),
    ("/usr/bin/good", "a"),
    ("/usr/bin/kind", "/"),
    ("/usr/bin/link", "@good"),
    ("/usr/bin/twice", "a"),
    ("/usr/bin/unknown", "b"),
];

const EACH_KIND: Row = Row {
    there: OF_EACH_KIND,
    names: &[],
    told: "bytes /etc/edited.conf aa
missing /etc/gone.conf aa
bytes /etc/left.conf aa
bytes /usr/bin/diverted aa
bytes /usr/bin/edited aa
missing /usr/bin/gone aa
kind /usr/bin/kind aa
kind /usr/bin/link aa
missing /usr/share aa
",
};

const OF_CUT_PACKAGES: &[Thing] = &[
    (
        "/var/lib/dpkg/status",
        "Package: cc
Status: install reinstreq half-installed
Version: 1

Package: bb
Status: install ok unpacked
Version: 2
Conffiles:
 /etc/edited.conf 0cc175b9c0f1b6a831c399e269772661
 /etc/new.conf newconffile
New-Conffiles:
 /etc/edited.conf 92eb5ffee6ae2fec3ad71c777531578f
 /etc/new.conf 92eb5ffee6ae2fec3ad71c777531578f

Package: dd
Status: deinstall ok config-files
Version: 1
Conffiles:
 /etc/dd.conf 0cc175b9c0f1b6a831c399e269772661

Package: ee
Status: install ok installed
Version: 1
",
    ),
    (
        "/var/lib/dpkg/info/bb.list",
        "/.\n/etc\n/etc/edited.conf\n/etc/new.conf\n",
    ),
    ("/var/lib/dpkg/info/cc.list", "/.\n/usr\n/usr/cc\n"),
    ("/var/lib/dpkg/info/dd.list", "/etc/dd.conf\n"),
    ("/var/lib/dpkg/info/ee.list", "/.\n/usr\n"),
    ("/etc/edited.conf", "c"),
    ("/etc/edited.conf.dpkg-new", "b"),
    ("/etc/new.conf.dpkg-new", "b"),
];

const CUT_PACKAGES: Row = Row {
    there: OF_CUT_PACKAGES,
    names: &[],
    told: "cut bb unpacked ok
cut cc half-installed reinstreq
bytes /etc/edited.conf bb
missing /etc/new.conf bb
missing /usr ee
",
};

const SOME_PACKAGES: Row = Row {
    there: OF_CUT_PACKAGES,
    names: &["zz", "ee", "cc", "yy", "cc"],
    told: "refused zz Unknown
refused yy Unknown
cut cc half-installed reinstreq
missing /usr ee
",
};

const NOTHING: Row = Row {
    there: OF_CUT_PACKAGES,
    names: &["dd"],
    told: "",
};

const OF_ONE_PACKAGE: &[Thing] = &[
    (
        "/var/lib/dpkg/status",
        "Package: aa\nStatus: install ok installed\nVersion: 1\n",
    ),
    ("/var/lib/dpkg/info/aa.list", "/.\n/a\n/b\n"),
    (
        "/var/lib/dpkg/info/aa.md5sums",
        "0cc175b9c0f1b6a831c399e269772661  a\n",
    ),
    ("/a", "b"),
];

// What is told where the device fails at the look whether a file is at /a, at its bytes, and at that at /b, and where it doesn't
// fail.
const UNREAD: &[&str] = &[
    "unread /a aa\nmissing /b aa\n",
    "unread /a aa\nmissing /b aa\n",
    "bytes /a aa\nunread /b aa\n",
    "bytes /a aa\nmissing /b aa\n",
];

// More looks than are taken.
const LIMIT: usize = 100;

fn path_of(alloc: Global, text: &str) -> Result<RootPath, AllocError> {
    match RootPath::parse(alloc, text)? {
        Some(path) => Ok(path),
        None => Err(AllocError),
    }
}

fn file(alloc: Global, text: &str) -> Result<Node, AllocError> {
    let bytes = Content::from_slice(alloc, text.as_bytes())?;
    let access = Access::own(0o644);
    Ok(Node::File { bytes, access })
}

fn node_of(alloc: Global, text: &str) -> Result<Node, AllocError> {
    if text == "/" {
        let access = Access::own(0o755);
        return Ok(Node::Dir { access });
    }
    match text.strip_prefix("@") {
        Some(target) => Ok(Node::Link {
            target: Text::from_str(alloc, target)?,
        }),
        None => file(alloc, text),
    }
}

fn root_of(alloc: Global, things: &[Thing]) -> Result<MemoryHost, AllocError> {
    let mut host = MemoryHost::new(alloc)?;
    for (path, text) in things {
        host.place(&path_of(alloc, path)?, node_of(alloc, text)?)?;
    }
    Ok(host)
}

fn names_of(alloc: Global, names: &[&str]) -> Result<Texts, AllocError> {
    let mut texts = Texts::new(alloc);
    for name in names {
        texts.push(Text::from_str(alloc, name)?)?;
    }
    Ok(texts)
}

// What is told, and whether anything differs: two answers that have to agree.
fn told(alloc: Global, host: &mut MemoryHost, names: &[&str]) -> Result<String, AllocError> {
    let names = names_of(alloc, names)?;
    let Ok(verified) = verify(alloc, host, names.as_slice()) else {
        return String::from_str(alloc, "no answer");
    };
    if verified.differs == verified.text.as_slice().is_empty() {
        return String::from_str(alloc, "a wrong answer");
    }
    String::from_str(
        alloc,
        str::from_utf8(verified.text.as_slice()).unwrap_or("no text"),
    )
}

fn judge(rt: &(impl Abort + AllocGlobal), row: &Row) -> Result<(), Fail> {
    let mut host = root_of(rt.alloc(), row.there)?;
    let told = told(rt.alloc(), &mut host, row.names)?;
    assert_eq!(rt; told.as_str(), row.told);
    Ok(())
}

#[test]
fn differences_are_told(rt: HostRuntime) -> Result<(), Fail> {
    judge(&rt, &EACH_KIND)?;
    judge(&rt, &CUT_PACKAGES)?;
    judge(&rt, &SOME_PACKAGES)?;
    judge(&rt, &NOTHING)
}

// What is told where the device fails once, behind so many looks.
fn told_behind(alloc: Global, before: usize) -> Result<String, AllocError> {
    let mut host = root_of(alloc, OF_ONE_PACKAGE)?;
    host.fail_read(before);
    told(alloc, &mut host, &[])
}

// The looks that read the administration come first, and are followed by one at `md5sums`; none of them has an answer.
#[test]
fn a_look_that_fails_is_told(rt: HostRuntime) -> Result<(), Fail> {
    let mut rows = UNREAD.iter();
    for before in 0..LIMIT {
        let told = told_behind(rt.alloc(), before)?;
        if told.as_str() == "no answer" {
            continue;
        }
        match rows.next() {
            Some(row) => assert_eq!(rt; told.as_str(), *row),
            None => return Ok(()),
        }
    }
    panic!(rt; "it looks too often")
}
