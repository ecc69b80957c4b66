// An install over what dpkg left, broken off: a package of which several may be installed, unpacked, with a conffile that waits and
// of which no digest is recorded; an obsolete conffile of another package, which the new version ships; and an access that an
// administrator set. The conffile is settled and the access kept wherever that was, and the file is never missing.
use super::{
    Again, Found, Moment, Row, SCRIPT, STATUS, decline_each_step, fail_at_each_read,
    fail_at_each_step, lose_at_steps, stop_at_each_step,
};
use crate::machine::{RootFile, TreeFile};
use host_core::Outcome;
use host_memory::Ending;
use std::test::Fail;

const TREES: &[TreeFile] = &[
    (
        "t",
        "/DEBIAN/control",
        "Package: alpha\nVersion: 2\nArchitecture: amd64\nMulti-Arch: same\nDepends: delta:amd64\n",
    ),
    ("t", "/DEBIAN/conffiles", "/etc/a.conf\n/etc/d.conf\n"),
    ("t", "/DEBIAN/postrm", SCRIPT),
    ("t", "/etc/a.conf", "two"),
    ("t", "/etc/d.conf", "two"),
    ("t", "/usr/bin/a", "two"),
];

const USED: &str = "Package: alpha
Status: install ok unpacked
Architecture: amd64
Multi-Arch: same
Version: 1
Conffiles:
 /etc/a.conf newconffile

Package: delta
Status: install ok installed
Architecture: amd64
Version: 1
Conffiles:
 /etc/d.conf 149603e6c03516362a8da23f624db945 obsolete
";

// The digest of the file that waits is taken up by the opening.
const TAKEN_UP: &str = "Package: alpha
Status: install ok unpacked
Architecture: amd64
Multi-Arch: same
Version: 1
Conffiles:
 /etc/a.conf newconffile
New-Conffiles:
 /etc/a.conf f97c5d29941bfb1b2fdab0874906ab82

Package: delta
Status: install ok installed
Architecture: amd64
Version: 1
Conffiles:
 /etc/d.conf 149603e6c03516362a8da23f624db945 obsolete
";

const HALF_INSTALLED: &str = "Package: alpha
Status: install reinstreq half-installed
Architecture: amd64
Multi-Arch: same
Version: 1
Conffiles:
 /etc/a.conf newconffile
New-Conffiles:
 /etc/a.conf f97c5d29941bfb1b2fdab0874906ab82

Package: delta
Status: install ok installed
Architecture: amd64
Version: 1
Conffiles:
 /etc/d.conf 149603e6c03516362a8da23f624db945 obsolete
";

// Delta's conffile is alpha's.
const TAKEN: &str = "Package: alpha
Status: install reinstreq half-installed
Architecture: amd64
Multi-Arch: same
Version: 1
Conffiles:
 /etc/a.conf newconffile
New-Conffiles:
 /etc/a.conf f97c5d29941bfb1b2fdab0874906ab82

Package: delta
Status: install ok installed
Architecture: amd64
Version: 1
";

const UNPACKED: &str = "Package: alpha
Status: install ok unpacked
Architecture: amd64
Multi-Arch: same
Version: 2
Depends: delta:amd64
Conffiles:
 /etc/a.conf newconffile
 /etc/d.conf 149603e6c03516362a8da23f624db945
New-Conffiles:
 /etc/a.conf b8a9f715dbb64fd5c56e7783c6820a61
 /etc/d.conf b8a9f715dbb64fd5c56e7783c6820a61

Package: delta
Status: install ok installed
Architecture: amd64
Version: 1
";

// While the conffiles are settled.
const SETTLING: &str = "Package: alpha
Status: install ok half-configured
Architecture: amd64
Multi-Arch: same
Version: 2
Depends: delta:amd64
Conffiles:
 /etc/a.conf newconffile
 /etc/d.conf 149603e6c03516362a8da23f624db945
New-Conffiles:
 /etc/a.conf b8a9f715dbb64fd5c56e7783c6820a61
 /etc/d.conf b8a9f715dbb64fd5c56e7783c6820a61

Package: delta
Status: install ok installed
Architecture: amd64
Version: 1
";

const SETTLED: &str = "Package: alpha
Status: install ok half-configured
Architecture: amd64
Multi-Arch: same
Version: 2
Depends: delta:amd64
Conffiles:
 /etc/a.conf b8a9f715dbb64fd5c56e7783c6820a61
 /etc/d.conf b8a9f715dbb64fd5c56e7783c6820a61

Package: delta
Status: install ok installed
Architecture: amd64
Version: 1
";

const CONFIGURED: &str = "Package: alpha
Status: install ok installed
Architecture: amd64
Multi-Arch: same
Version: 2
Depends: delta:amd64
Conffiles:
 /etc/a.conf b8a9f715dbb64fd5c56e7783c6820a61
 /etc/d.conf b8a9f715dbb64fd5c56e7783c6820a61

Package: delta
Status: install ok installed
Architecture: amd64
Version: 1
";

// Where the install was broken off between delta's list and its record.
const LEFT_OBSOLETE: &str = "Package: alpha
Status: install ok installed
Architecture: amd64
Multi-Arch: same
Version: 2
Depends: delta:amd64
Conffiles:
 /etc/a.conf b8a9f715dbb64fd5c56e7783c6820a61
 /etc/d.conf b8a9f715dbb64fd5c56e7783c6820a61

Package: delta
Status: install ok installed
Architecture: amd64
Version: 1
Conffiles:
 /etc/d.conf 149603e6c03516362a8da23f624db945 obsolete
";

const LIST: &str = "/var/lib/dpkg/info/alpha.list";

const OLD_LIST: &str = "/.\n/etc\n/etc/a.conf\n/usr\n/usr/bin\n/usr/bin/a\n";

const NEW_LIST: &str = "/.\n/etc\n/etc/a.conf\n/etc/d.conf\n/usr\n/usr/bin\n/usr/bin/a\n";

const POSTRM: &str = "/var/lib/dpkg/info/alpha.postrm";

const DELTA_LIST: &str = "/var/lib/dpkg/info/delta.list";

const DELTA_LISTED: &str = "/.\n/etc\n/etc/d\n/etc/d.conf\n";

const DELTA_LISTED_THEN: &str = "/.\n/etc\n/etc/d\n";

const OVERRIDES: &str = "/var/lib/dpkg/statoverride";

const OVERRIDE: &str = "#0 #0 700 /usr/bin/a\n";

const CONFFILE: &str = "/etc/a.conf";

const INCOMING: &str = "/etc/a.conf.dpkg-new";

const OTHERS: &str = "/etc/d.conf";

const FILE: &str = "/usr/bin/a";

const FILES: &[RootFile] = &[
    (STATUS, USED),
    ("/var/lib/dpkg/info/format", "1\n"),
    ("/var/lib/dpkg/info/alpha:amd64.list", OLD_LIST),
    ("/var/lib/dpkg/info/alpha:amd64.postrm", SCRIPT),
    (DELTA_LIST, DELTA_LISTED),
    (OVERRIDES, OVERRIDE),
    (INCOMING, "one"),
    (OTHERS, "old"),
    ("/etc/d", "d"),
    (FILE, "700 one"),
];

const FOUND: &[Found] = &[
    (
        STATUS,
        &[
            TAKEN_UP,
            HALF_INSTALLED,
            TAKEN,
            UNPACKED,
            SETTLING,
            SETTLED,
            CONFIGURED,
        ],
    ),
    (LIST, &[OLD_LIST, NEW_LIST]),
    (POSTRM, &[SCRIPT]),
    (DELTA_LIST, &[DELTA_LISTED, DELTA_LISTED_THEN]),
    (OVERRIDES, &[OVERRIDE]),
    (CONFFILE, &["", "two"]),
    (INCOMING, &["one", "two", ""]),
    (OTHERS, &["old", "two"]),
    ("/etc/d.conf.dpkg-new", &["", "two"]),
    ("/etc/d", &["d"]),
    (FILE, &["700 one", "700 two"]),
    ("/var/lib/dpkg/tmp.ci", &[""]),
];

const BY_INSTALL: &str = "call old alpha postrm upgrade 2: exit 0
state alpha 2 install ok unpacked
state delta 1 install ok installed
done
state alpha 2 install ok installed
done
||0
";

const BY_UNWINDING: &str = "call old alpha postrm upgrade 2: exit 1
call new alpha postrm failed-upgrade 1 2: exit 1
call new alpha postrm abort-upgrade 1 2: exit 0
state alpha 1 install ok unpacked
failed alpha postrm upgrade 2
||1
";

// How the rows answer where they aren't broken off.
pub(super) const ANSWERS: &[&str] = &[BY_INSTALL, BY_UNWINDING];

const ALPHA_ALONE: &str = "call old alpha postrm upgrade 2: exit 0
state alpha 2 install ok unpacked
done
state alpha 2 install ok installed
done
||0
";

const MOMENTS: &[Moment] = &[
    Moment {
        stands: &[
            (STATUS, TAKEN_UP),
            (LIST, OLD_LIST),
            (DELTA_LIST, DELTA_LISTED),
            (CONFFILE, ""),
            (INCOMING, "one"),
            (OTHERS, "old"),
            (FILE, "700 one"),
        ],
        again: BY_INSTALL,
    },
    Moment {
        stands: &[
            (STATUS, HALF_INSTALLED),
            (DELTA_LIST, DELTA_LISTED),
            (CONFFILE, ""),
            (OTHERS, "old"),
        ],
        again: BY_INSTALL,
    },
    Moment {
        stands: &[
            (STATUS, HALF_INSTALLED),
            (LIST, NEW_LIST),
            (DELTA_LIST, DELTA_LISTED_THEN),
            (CONFFILE, ""),
            (INCOMING, "two"),
            (OTHERS, "old"),
            (FILE, "700 two"),
        ],
        again: ALPHA_ALONE,
    },
    Moment {
        stands: &[
            (STATUS, TAKEN),
            (LIST, NEW_LIST),
            (DELTA_LIST, DELTA_LISTED_THEN),
            (CONFFILE, ""),
            (INCOMING, "two"),
            (OTHERS, "old"),
            (FILE, "700 two"),
        ],
        again: ALPHA_ALONE,
    },
    Moment {
        stands: &[
            (STATUS, UNPACKED),
            (LIST, NEW_LIST),
            (DELTA_LIST, DELTA_LISTED_THEN),
            (CONFFILE, ""),
            (INCOMING, "two"),
            (OTHERS, "old"),
            (FILE, "700 two"),
        ],
        again: ALPHA_ALONE,
    },
    Moment {
        stands: &[(STATUS, SETTLING), (FILE, "700 two")],
        again: ALPHA_ALONE,
    },
    Moment {
        stands: &[
            (STATUS, SETTLED),
            (CONFFILE, "two"),
            (INCOMING, ""),
            (OTHERS, "two"),
            (FILE, "700 two"),
        ],
        again: ALPHA_ALONE,
    },
    Moment {
        stands: &[
            (STATUS, CONFIGURED),
            (CONFFILE, "two"),
            (INCOMING, ""),
            (OTHERS, "two"),
            (FILE, "700 two"),
        ],
        again: ALPHA_ALONE,
    },
];

const INFO: Found = (
    "/var/lib/dpkg/info",
    &["directory: alpha.list alpha.postrm delta.list"],
);

const LEFT: &[Found] = &[
    (STATUS, &[CONFIGURED]),
    INFO,
    (LIST, &[NEW_LIST]),
    (DELTA_LIST, &[DELTA_LISTED_THEN]),
    ("/etc", &["directory: a.conf d d.conf"]),
    (CONFFILE, &["two"]),
    (OTHERS, &["two"]),
    ("/usr/bin", &["directory: a"]),
    (FILE, &["700 two"]),
];

// What the command leaves that is given again. Where it was broken off between delta's list and its record, that keeps the entry;
// and between delta's record and alpha's, nothing tells any more that the conffile wasn't edited, and it stays.
const LEFT_THEN: &[Found] = &[
    (STATUS, &[CONFIGURED, LEFT_OBSOLETE]),
    INFO,
    (LIST, &[NEW_LIST]),
    (DELTA_LIST, &[DELTA_LISTED_THEN]),
    (
        "/etc",
        &[
            "directory: a.conf d d.conf",
            "directory: a.conf d d.conf d.conf.dpkg-dist",
        ],
    ),
    (CONFFILE, &["two"]),
    (OTHERS, &["two", "old"]),
    ("/usr/bin", &["directory: a"]),
    (FILE, &["700 two"]),
];

const GOES_ON: Row = Row {
    files: FILES,
    trees: TREES,
    endings: &[],
    line: "dpkg_cli install t",
    found: FOUND,
    moments: MOMENTS,
    left: LEFT,
    again: Again {
        refused: "",
        lines: &[],
        left: Some(LEFT_THEN),
    },
};

const FAILS: Ending = Ending::Ended(Outcome::Exit(1));

// The old postrm fails in both ways: what waited and the record's entries are as before.
const UNWOUND: Row = Row {
    files: FILES,
    trees: TREES,
    endings: &[FAILS, FAILS],
    line: "dpkg_cli install t",
    found: FOUND,
    moments: MOMENTS,
    left: &[
        (STATUS, &[TAKEN_UP]),
        INFO,
        (LIST, &[OLD_LIST]),
        (DELTA_LIST, &[DELTA_LISTED]),
        ("/etc", &["directory: a.conf.dpkg-new d d.conf"]),
        (INCOMING, &["one"]),
        (OTHERS, &["old"]),
        ("/usr/bin", &["directory: a"]),
        (FILE, &["700 one"]),
    ],
    again: Again {
        refused: "",
        lines: &[],
        left: Some(LEFT_THEN),
    },
};

#[test]
fn stops_where_dpkg_began(rt: HostRuntime) -> Result<(), Fail> {
    stop_at_each_step(&rt, &GOES_ON)
}

#[test]
fn stops_within_its_unwinding(rt: HostRuntime) -> Result<(), Fail> {
    stop_at_each_step(&rt, &UNWOUND)
}

#[test]
fn faults_where_dpkg_began(rt: HostRuntime) -> Result<(), Fail> {
    fail_at_each_step(&rt, &GOES_ON)?;
    fail_at_each_read(&rt, &GOES_ON)
}

#[test]
fn faults_within_its_unwinding(rt: HostRuntime) -> Result<(), Fail> {
    fail_at_each_step(&rt, &UNWOUND)?;
    fail_at_each_read(&rt, &UNWOUND)
}

#[test]
fn losses_where_dpkg_began(rt: HostRuntime) -> Result<(), Fail> {
    lose_at_steps(&rt, &GOES_ON, 0, 3)
}

#[test]
fn losses_where_dpkg_began_one_step_on(rt: HostRuntime) -> Result<(), Fail> {
    lose_at_steps(&rt, &GOES_ON, 1, 3)
}

#[test]
fn losses_where_dpkg_began_two_steps_on(rt: HostRuntime) -> Result<(), Fail> {
    lose_at_steps(&rt, &GOES_ON, 2, 3)
}

#[test]
fn declines_where_dpkg_began(rt: HostRuntime) -> Result<(), Fail> {
    assert!(rt; decline_each_step(&rt, &GOES_ON)? > 0);
    Ok(())
}

#[test]
fn declines_within_its_unwinding(rt: HostRuntime) -> Result<(), Fail> {
    assert!(rt; decline_each_step(&rt, &UNWOUND)? > 0);
    Ok(())
}
