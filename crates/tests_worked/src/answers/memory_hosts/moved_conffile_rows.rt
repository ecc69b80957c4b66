// Conffiles that change their package (Policy 10.7.4): what another package records of the place counts, if that one lets the
// incoming package take its paths.
use super::{TreeFile, answers, expect};
use std::test::Fail;

// What a root holds first, the lines of words, and the row: their answers and what is read.
type MovedRow = (
    &'static [&'static str],
    &'static [&'static str],
    &'static str,
);

const CONTROL: &str = "/DEBIAN/control";

const CONFFILES: &str = "/DEBIAN/conffiles";

const TREES: &[TreeFile] = &[
    (
        "renamed",
        CONTROL,
        "Package: aa\nVersion: 1\nConflicts: bb\nReplaces: bb\n",
    ),
    ("renamed", CONFFILES, "/etc/z.conf\n"),
    ("renamed", "/etc/z.conf", "b"),
    (
        "replaces",
        CONTROL,
        "Package: aa\nVersion: 1\nReplaces: bb\n",
    ),
    ("replaces", CONFFILES, "/etc/z.conf\n"),
    ("replaces", "/etc/z.conf", "b"),
    ("plain", CONTROL, "Package: aa\nVersion: 1\n"),
    ("plain", CONFFILES, "/etc/z.conf\n"),
    ("plain", "/etc/z.conf", "b"),
    ("below", CONTROL, "Package: aa\nVersion: 1\n"),
    ("below", CONFFILES, "/usr/lib/z.conf\n"),
    ("below", "/usr/lib/z.conf", "b"),
    ("file", CONTROL, "Package: aa\nVersion: 1\n"),
    ("file", "/etc/z.conf", "b"),
    ("more", CONTROL, "Package: aa\nVersion: 1\n"),
    ("more", CONFFILES, "/etc/z.conf\n"),
    ("more", "/etc/z.conf", "b"),
    ("more", "/usr/bin/bb", "aa"),
];

const INSTALLED: &str =
    "write /var/lib/dpkg/status Package: bb\nStatus: install ok installed\nVersion: 1\nConffiles:\n /etc/z.conf 0cc175b9c0f1b6a831c399e269772661\n";

const LIST: &str =
    "write /var/lib/dpkg/info/bb.list /.\n/etc\n/etc/z.conf\n/usr\n/usr/bin\n/usr/bin/bb\n";

const BINARY: &str = "write /usr/bin/bb bb";

const RENAMED: &[&str] = &[
    "dpkg_cli install renamed",
    "read /etc",
    "read /etc/z.conf",
    "dpkg_cli status aa",
    "dpkg_cli list",
];

const UPDATED: MovedRow = (
    &[INSTALLED, LIST, BINARY, "write /etc/z.conf a"],
    RENAMED,
    "state aa 1 install ok unpacked
state bb none
done
state aa 1 install ok installed
done
||0
directory: z.conf
b
Package: aa
Status: install ok installed
Version: 1
Replaces: bb
Conflicts: bb
Conffiles:
 /etc/z.conf 92eb5ffee6ae2fec3ad71c777531578f
||0
aa 1 installed
||0
",
);

const EDITED: MovedRow = (
    &[INSTALLED, LIST, BINARY, "write /etc/z.conf e"],
    RENAMED,
    "state aa 1 install ok unpacked
state bb none
done
state aa 1 install ok installed
done
||0
directory: z.conf z.conf.dpkg-dist
e
Package: aa
Status: install ok installed
Version: 1
Replaces: bb
Conflicts: bb
Conffiles:
 /etc/z.conf 92eb5ffee6ae2fec3ad71c777531578f
||0
aa 1 installed
||0
",
);

// The administrator deleted it, and it stays so.
const DELETED: MovedRow = (
    &[INSTALLED, LIST, BINARY, "write /etc/motd m"],
    &["dpkg_cli install renamed", "read /etc"],
    "state aa 1 install ok unpacked
state bb none
done
state aa 1 install ok installed
done
||0
directory: motd
",
);

// The other package stays, without the conffile; until it is configured the digest is the other's.
const REPLACED: MovedRow = (
    &[INSTALLED, LIST, BINARY, "write /etc/z.conf a"],
    &[
        "dpkg_cli unpack replaces",
        "dpkg_cli status aa",
        "dpkg_cli status bb",
        "dpkg_cli configure aa",
        "read /etc",
        "read /etc/z.conf",
    ],
    "state aa 1 install ok unpacked
state bb 1 install ok installed
done
||0
Package: aa
Status: install ok unpacked
Version: 1
Replaces: bb
Conffiles:
 /etc/z.conf 0cc175b9c0f1b6a831c399e269772661
New-Conffiles:
 /etc/z.conf 92eb5ffee6ae2fec3ad71c777531578f
||0
Package: bb
Status: install ok installed
Version: 1
||0
state aa 1 install ok installed
done
||0
directory: z.conf
b
",
);

const LEFT_LIST: &str = "write /var/lib/dpkg/info/bb.list /.\n/etc\n/etc/z.conf\n";

const PLAIN: &[&str] = &["dpkg_cli install plain", "read /etc", "read /etc/z.conf"];

const CONFFILES_LEFT: MovedRow = (
    &[
        "write /var/lib/dpkg/status Package: bb\nStatus: deinstall ok config-files\nVersion: 1\nConffiles:\n /etc/z.conf 0cc175b9c0f1b6a831c399e269772661\n",
        LEFT_LIST,
        "write /etc/z.conf a",
    ],
    PLAIN,
    "state aa 1 install ok unpacked
state bb 1 deinstall ok config-files
done
state aa 1 install ok installed
done
||0
directory: z.conf
b
",
);

// The first in the order of names that records a digest: not that of which no version was settled.
const FIRST_BY_NAME: MovedRow = (
    &[
        "write /var/lib/dpkg/status Package: bb\nStatus: deinstall ok config-files\nVersion: 1\nConffiles:\n /etc/z.conf newconffile\n\nPackage: cc\nStatus: deinstall ok config-files\nVersion: 1\nConffiles:\n /etc/z.conf 0cc175b9c0f1b6a831c399e269772661\n\nPackage: dd\nStatus: deinstall ok config-files\nVersion: 1\nConffiles:\n /etc/z.conf 4a8a08f09d37b73795649038408b5f33\n",
        "write /etc/z.conf a",
    ],
    PLAIN,
    "state aa 1 install ok unpacked
done
state aa 1 install ok installed
done
||0
directory: z.conf
b
",
);

// It doesn't yield: nobody lists the path, and its digest doesn't count.
const UNYIELDING: MovedRow = (
    &[
        INSTALLED,
        "write /var/lib/dpkg/info/bb.list /.\n/usr\n/usr/bin\n/usr/bin/bb\n",
        BINARY,
        "write /etc/z.conf a",
    ],
    PLAIN,
    "state aa 1 install ok unpacked
done
state aa 1 install ok installed
done
||0
directory: z.conf z.conf.dpkg-dist
a
",
);

// The package has an entry of its own, and its digest counts.
const OWN: MovedRow = (
    &[
        "write /var/lib/dpkg/status Package: aa\nStatus: deinstall ok config-files\nVersion: 0\nConffiles:\n /etc/z.conf 4a8a08f09d37b73795649038408b5f33\n\nPackage: bb\nStatus: deinstall ok config-files\nVersion: 1\nConffiles:\n /etc/z.conf 0cc175b9c0f1b6a831c399e269772661\n",
        "write /etc/z.conf a",
    ],
    PLAIN,
    "state aa 1 install ok unpacked
done
state aa 1 install ok installed
done
||0
directory: z.conf z.conf.dpkg-dist
a
",
);

// With `/lib -> usr/lib`: two names of one place.
const BY_PLACE: MovedRow = (
    &[
        "write /usr/lib/z.conf a",
        "link /lib usr/lib",
        "write /var/lib/dpkg/status Package: bb\nStatus: deinstall ok config-files\nVersion: 1\nConffiles:\n /lib/z.conf 0cc175b9c0f1b6a831c399e269772661\n",
        "write /var/lib/dpkg/info/bb.list /.\n/lib\n/lib/z.conf\n",
    ],
    &[
        "dpkg_cli install below",
        "read /usr/lib",
        "read /usr/lib/z.conf",
    ],
    "state aa 1 install ok unpacked
state bb 1 deinstall ok config-files
done
state aa 1 install ok installed
done
||0
directory: z.conf
b
",
);

const OBSOLETE: &str =
    "write /var/lib/dpkg/status Package: bb\nStatus: install ok installed\nVersion: 2\nConffiles:\n /etc/z.conf 0cc175b9c0f1b6a831c399e269772661 obsolete\n";

const OBSOLETE_LIST: &str =
    "write /var/lib/dpkg/info/bb.list /.\n/usr\n/usr/bin\n/usr/bin/bb\n/etc/z.conf\n";

// Nothing says that it is replaced: the other package doesn't ship the conffile any more.
const LEFT_BEHIND: MovedRow = (
    &[OBSOLETE, OBSOLETE_LIST, BINARY, "write /etc/z.conf a"],
    &[
        "dpkg_cli install plain",
        "read /etc",
        "read /etc/z.conf",
        "read /var/lib/dpkg/info/bb.list",
        "dpkg_cli list",
    ],
    "state aa 1 install ok unpacked
state bb 2 install ok installed
done
state aa 1 install ok installed
done
||0
directory: z.conf
b
/.
/usr
/usr/bin
/usr/bin/bb

aa 1 installed
bb 2 installed
||0
",
);

// By another name of the place, with `/lib -> usr/lib`.
const LEFT_BEHIND_BY_PLACE: MovedRow = (
    &[
        "write /usr/lib/z.conf a",
        "link /lib usr/lib",
        "write /var/lib/dpkg/status Package: bb\nStatus: install ok installed\nVersion: 2\nConffiles:\n /lib/z.conf 0cc175b9c0f1b6a831c399e269772661 obsolete\n",
        "write /var/lib/dpkg/info/bb.list /.\n/lib\n/lib/z.conf\n/usr\n/usr/bin\n/usr/bin/bb\n",
        BINARY,
    ],
    &[
        "dpkg_cli install below",
        "read /usr/lib",
        "read /usr/lib/z.conf",
    ],
    "state aa 1 install ok unpacked
state bb 2 install ok installed
done
state aa 1 install ok installed
done
||0
directory: z.conf
b
",
);

const CLASHES: &str = "state aa none
failed aa Clash /etc/z.conf bb
||1
a
";

// It ships the path as a file that is no conffile.
const NO_CONFFILE: MovedRow = (
    &[OBSOLETE, OBSOLETE_LIST, BINARY, "write /etc/z.conf a"],
    &["dpkg_cli unpack file", "read /etc/z.conf"],
    CLASHES,
);

// It ships a file of the other package's too.
const MORE_THAN_CONFFILES: MovedRow = (
    &[OBSOLETE, OBSOLETE_LIST, BINARY, "write /etc/z.conf a"],
    &["dpkg_cli unpack more", "read /etc/z.conf"],
    CLASHES,
);

const STILL_SHIPPED: MovedRow = (
    &[INSTALLED, LIST, BINARY, "write /etc/z.conf a"],
    &["dpkg_cli unpack plain", "read /etc/z.conf"],
    CLASHES,
);

const ROWS: &[MovedRow] = &[
    UPDATED,
    EDITED,
    DELETED,
    REPLACED,
    CONFFILES_LEFT,
    FIRST_BY_NAME,
    UNYIELDING,
    OWN,
    BY_PLACE,
    LEFT_BEHIND,
    LEFT_BEHIND_BY_PLACE,
    NO_CONFFILE,
    MORE_THAN_CONFFILES,
    STILL_SHIPPED,
];

#[test]
fn conffiles_that_change_their_package(rt: HostRuntime) -> Result<(), Fail> {
    for (files, lines, row) in ROWS {
        expect(&rt, answers(rt.alloc(), TREES, &[], files, lines), row)?;
    }
    Ok(())
}
