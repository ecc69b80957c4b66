// The opening of a root whose directories are missing, that has notes to merge, names with an architecture, or conffiles that dpkg
// left unsettled, broken off: the records stay, and the next opening makes what is missing, merges what is noted, brings the names to
// those without, and takes up the conffiles.
use super::{
    ALONE, Found, Moment, OPENED, OPENING, Row, SCRIPT, STATUS, check_copies, decline_each_step,
    fail_at_each_read, fail_at_each_step, lose_at_each_step, stop_at_each_step,
};
use std::test::Fail;

const VICTOR: &str = "Package: victor\nStatus: install ok installed\nVersion: 1\n";

const INFO: Found = ("/var/lib/dpkg/info", &["directory:"]);

const UPDATES: Found = ("/var/lib/dpkg/updates", &["directory:"]);

const RECORDS_ALONE: Row = Row {
    files: &[(STATUS, VICTOR)],
    trees: &[],
    endings: &[],
    line: OPENING,
    found: &[],
    moments: &[Moment {
        stands: &[(STATUS, VICTOR)],
        again: OPENED,
    }],
    left: &[INFO, UPDATES],
    again: ALONE,
};

const EMPTY: Row = Row {
    files: &[],
    trees: &[],
    endings: &[],
    line: OPENING,
    found: &[],
    moments: &[Moment {
        stands: &[(STATUS, "")],
        again: OPENED,
    }],
    left: &[INFO, UPDATES],
    again: ALONE,
};

const UNPACKED: &str = "Package: alpha\nStatus: install ok unpacked\nVersion: 1.0\n";

const HALF_CONFIGURED: &str = "Package: alpha\nStatus: install ok half-configured\nVersion: 1.0\n";

const INSTALLED: &str = "Package: alpha\nStatus: install ok installed\nVersion: 1.0\n";

// What two units left that were broken off: notes that aren't merged, and a tree's script. The later note wins.
const NOTED: Row = Row {
    files: &[
        (STATUS, UNPACKED),
        ("/var/lib/dpkg/updates/0001", HALF_CONFIGURED),
        ("/var/lib/dpkg/updates/0003", INSTALLED),
        ("/var/lib/dpkg/tmp.ci/preinst", SCRIPT),
    ],
    trees: &[],
    endings: &[],
    line: OPENING,
    found: &[(STATUS, &[INSTALLED]), UPDATES],
    moments: &[Moment {
        stands: &[(STATUS, INSTALLED)],
        again: OPENED,
    }],
    left: &[
        (STATUS, &[INSTALLED]),
        INFO,
        UPDATES,
        ("/var/lib/dpkg", &["directory: info status updates"]),
    ],
    again: ALONE,
};

const SAME: &str =
    "Package: alpha\nStatus: install ok installed\nArchitecture: amd64\nMulti-Arch: same\nVersion: 1.0\n";

const LIST: &str = "/.\n/opt\n/opt/a\n";

const BROUGHT: &[Found] = &[
    (
        "/var/lib/dpkg/info",
        &["directory: alpha.list alpha.postrm"],
    ),
    ("/var/lib/dpkg/info/alpha.list", &[LIST]),
    ("/var/lib/dpkg/info/alpha.postrm", &[SCRIPT]),
];

const NAMED: Row = Row {
    files: &[
        (STATUS, SAME),
        ("/var/lib/dpkg/info/alpha:amd64.list", LIST),
        ("/var/lib/dpkg/info/alpha:amd64.postrm", SCRIPT),
        ("/var/lib/dpkg/info/format", "1\n"),
    ],
    trees: &[],
    endings: &[],
    line: OPENING,
    found: BROUGHT,
    moments: &[Moment {
        stands: &[(STATUS, SAME)],
        again: OPENED,
    }],
    left: BROUGHT,
    again: ALONE,
};

// Where no second name can be had: what was written of a copy may be left at its temporary name.
const COPIED: &[Found] = &[
    (
        "/var/lib/dpkg/info",
        &[
            "directory: alpha.list alpha.postrm",
            "directory: alpha.list alpha.list.dpkg-inst alpha.postrm",
            "directory: alpha.list alpha.postrm alpha.postrm.dpkg-inst",
        ],
    ),
    ("/var/lib/dpkg/info/alpha.list", &[LIST]),
    ("/var/lib/dpkg/info/alpha.postrm", &[SCRIPT]),
];

const NAMED_BY_COPIES: Row = Row {
    files: &[
        (STATUS, SAME),
        ("/var/lib/dpkg/info/alpha:amd64.list", LIST),
        ("/var/lib/dpkg/info/alpha:amd64.postrm", SCRIPT),
        ("/var/lib/dpkg/info/format", "1\n"),
    ],
    trees: &[],
    endings: &[],
    line: OPENING,
    found: COPIED,
    moments: &[Moment {
        stands: &[(STATUS, SAME)],
        again: OPENED,
    }],
    left: COPIED,
    again: ALONE,
};

// What was stopped behind the going of `format`: one of two names went.
const CLEARED: Row = Row {
    files: &[
        (STATUS, SAME),
        ("/var/lib/dpkg/info/alpha.list", LIST),
        ("/var/lib/dpkg/info/alpha:amd64.postrm", SCRIPT),
        ("/var/lib/dpkg/info/alpha.postrm", SCRIPT),
    ],
    trees: &[],
    endings: &[],
    line: OPENING,
    found: BROUGHT,
    moments: &[Moment {
        stands: &[(STATUS, SAME)],
        again: OPENED,
    }],
    left: BROUGHT,
    again: ALONE,
};

const BY_DPKG: &str =
    "Package: alpha\nStatus: install ok unpacked\nVersion: 1.0\nConffiles:\n /etc/a.conf newconffile\n\nPackage: bravo\nStatus: install ok half-configured\nVersion: 1.0\nConffiles:\n /etc/b.conf 814fa5ca98406a903e22b43d9b610105\n";

const TAKEN_UP: &str =
    "Package: alpha\nStatus: install ok unpacked\nVersion: 1.0\nConffiles:\n /etc/a.conf newconffile\nNew-Conffiles:\n /etc/a.conf 9cd599a3523898e6a12e13ec787da50a\n\nPackage: bravo\nStatus: install ok half-configured\nVersion: 1.0\nConffiles:\n /etc/b.conf 814fa5ca98406a903e22b43d9b610105\nNew-Conffiles:\n /etc/b.conf 9cd599a3523898e6a12e13ec787da50a\n";

// A note that was begun and not finished stays at its temporary name until one of its number is written; it isn't read.
const BEGUN: Found = (
    "/var/lib/dpkg/updates",
    &["directory:", "directory: 0001.dpkg-inst"],
);

// Two packages that dpkg unpacked, with a file beside a conffile of each.
const ADOPTED: Row = Row {
    files: &[
        (STATUS, BY_DPKG),
        ("/var/lib/dpkg/info/alpha.list", "/.\n/etc\n/etc/a.conf\n"),
        ("/var/lib/dpkg/info/bravo.list", "/.\n/etc\n/etc/b.conf\n"),
        ("/etc/a.conf.dpkg-new", "new\n"),
        ("/etc/b.conf", "old\n"),
        ("/etc/b.conf.dpkg-new", "new\n"),
    ],
    trees: &[],
    endings: &[],
    line: OPENING,
    found: &[(STATUS, &[TAKEN_UP]), BEGUN],
    moments: &[Moment {
        stands: &[(STATUS, TAKEN_UP)],
        again: OPENED,
    }],
    left: &[
        (STATUS, &[TAKEN_UP]),
        BEGUN,
        (
            "/etc",
            &["directory: a.conf.dpkg-new b.conf b.conf.dpkg-new"],
        ),
    ],
    again: ALONE,
};

const CONFIGURED: &str =
    "Package: alpha\nStatus: install ok installed\nVersion: 1.0\nConffiles:\n /etc/a.conf 814fa5ca98406a903e22b43d9b610105\nNew-Conffiles:\n /etc/a.conf 9cd599a3523898e6a12e13ec787da50a\n\nPackage: bravo\nStatus: install ok installed\nVersion: 1.0\nRemoved-Since: yes\n";

const SETTLED: &str =
    "Package: alpha\nStatus: install ok installed\nVersion: 1.0\nConffiles:\n /etc/a.conf 814fa5ca98406a903e22b43d9b610105\n\nPackage: bravo\nStatus: install ok installed\nVersion: 1.0\n";

// Two packages that dpkg configured, whose records still tell what held before.
const KEPT_BY_DPKG: Row = Row {
    files: &[
        (STATUS, CONFIGURED),
        ("/var/lib/dpkg/info/alpha.list", "/.\n/etc\n/etc/a.conf\n"),
        ("/var/lib/dpkg/info/bravo.list", "/.\n"),
        ("/etc/a.conf", "old\n"),
    ],
    trees: &[],
    endings: &[],
    line: OPENING,
    found: &[(STATUS, &[SETTLED]), BEGUN],
    moments: &[Moment {
        stands: &[(STATUS, SETTLED)],
        again: OPENED,
    }],
    left: &[
        (STATUS, &[SETTLED]),
        BEGUN,
        ("/etc", &["directory: a.conf"]),
    ],
    again: ALONE,
};

const ROWS: &[Row] = &[
    RECORDS_ALONE,
    EMPTY,
    NOTED,
    NAMED,
    CLEARED,
    ADOPTED,
    KEPT_BY_DPKG,
];

#[test]
fn stops(rt: HostRuntime) -> Result<(), Fail> {
    for row in ROWS {
        stop_at_each_step(&rt, row)?;
    }
    Ok(())
}

#[test]
fn faults(rt: HostRuntime) -> Result<(), Fail> {
    for row in ROWS {
        fail_at_each_step(&rt, row)?;
        fail_at_each_read(&rt, row)?;
    }
    Ok(())
}

#[test]
fn losses(rt: HostRuntime) -> Result<(), Fail> {
    for row in ROWS {
        lose_at_each_step(&rt, row)?;
    }
    Ok(())
}

#[test]
fn declines(rt: HostRuntime) -> Result<(), Fail> {
    for row in ROWS {
        assert_eq!(rt; decline_each_step(&rt, row)?, 0);
    }
    Ok(())
}

// More steps than a conversion makes of which both second names are declined.
const COPIES: usize = 16;

#[test]
fn copies(rt: HostRuntime) -> Result<(), Fail> {
    for before in 0..COPIES {
        check_copies(&rt, &NAMED_BY_COPIES, before)?;
    }
    Ok(())
}
