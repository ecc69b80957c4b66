// An unpack that takes over all files of a package, which disappears, broken off: where its postrm succeeds, and where it
// fails. A path that both ship is never missing. Once the list has lost its files the package stays, as a list of directories.
use super::{
    Again, Found, Moment, Row, SCRIPT, STATUS, decline_each_step, fail_at_each_read, fail_at_each_step,
    lose_at_each_step, stop_at_each_step,
};
use crate::machine::{RootFile, TreeFile};
use host_core::Outcome;
use host_memory::Ending;
use std::test::Fail;

const TREES: &[TreeFile] = &[
    (
        "t",
        "/DEBIAN/control",
        "Package: alpha\nVersion: 2.0\nReplaces: gamma\n",
    ),
    ("t", "/usr/bin/x", "new"),
];

const INSTALLED: &str = "Package: gamma
Status: install ok installed
Version: 1

Package: victor
Status: install ok installed
Version: 1
";

// Alpha's files are being written.
const HALF_INSTALLED: &str = "Package: alpha
Status: install reinstreq half-installed
Version: 2.0
Replaces: gamma

Package: gamma
Status: install ok installed
Version: 1

Package: victor
Status: install ok installed
Version: 1
";

// Gamma's postrm is to be called, and then its scripts and its list go.
const UNPACKED: &str = "Package: alpha
Status: install ok unpacked
Version: 2.0
Replaces: gamma

Package: gamma
Status: install ok installed
Version: 1

Package: victor
Status: install ok installed
Version: 1
";

const DISAPPEARED: &str = "Package: alpha
Status: install ok unpacked
Version: 2.0
Replaces: gamma

Package: victor
Status: install ok installed
Version: 1
";

const LIST: &str = "/var/lib/dpkg/info/alpha.list";

const LISTED: &str = "/.\n/usr\n/usr/bin\n/usr/bin/x\n";

const GAMMA_LIST: &str = "/var/lib/dpkg/info/gamma.list";

const DIRECTORIES: &str = "/.\n/usr\n/usr/bin\n";

const GAMMA_POSTRM: &str = "/var/lib/dpkg/info/gamma.postrm";

const VICTOR_LIST: &str = "/var/lib/dpkg/info/victor.list";

const VICTOR_LISTED: &str = "/.\n/usr\n/usr/bin\n/usr/bin/v\n";

const FILE: &str = "/usr/bin/x";

const FILES: &[RootFile] = &[
    (STATUS, INSTALLED),
    (GAMMA_LIST, LISTED),
    (GAMMA_POSTRM, SCRIPT),
    (VICTOR_LIST, VICTOR_LISTED),
    (FILE, "old"),
    ("/usr/bin/v", "v"),
];

const FOUND: &[Found] = &[
    (STATUS, &[INSTALLED, HALF_INSTALLED, UNPACKED, DISAPPEARED]),
    (LIST, &["", LISTED]),
    (GAMMA_LIST, &[LISTED, DIRECTORIES, "/.\n", ""]),
    (GAMMA_POSTRM, &[SCRIPT, ""]),
    (VICTOR_LIST, &[VICTOR_LISTED]),
    (FILE, &["old", "new"]),
    ("/usr/bin/v", &["v"]),
    ("/var/lib/dpkg/tmp.ci", &[""]),
];

const DISAPPEARS: &str = "call old gamma postrm disappear alpha 2.0: exit 0
state alpha 2.0 install ok unpacked
state gamma none
done
||0
";

const STAYS: &str = "state alpha 2.0 install ok unpacked
done
||0
";

const MOMENTS: &[Moment] = &[
    Moment {
        stands: &[
            (STATUS, INSTALLED),
            (GAMMA_LIST, LISTED),
            (GAMMA_POSTRM, SCRIPT),
            (LIST, ""),
            (FILE, "old"),
        ],
        again: DISAPPEARS,
    },
    Moment {
        stands: &[
            (STATUS, HALF_INSTALLED),
            (GAMMA_LIST, LISTED),
            (GAMMA_POSTRM, SCRIPT),
        ],
        again: DISAPPEARS,
    },
    Moment {
        stands: &[
            (STATUS, HALF_INSTALLED),
            (GAMMA_LIST, DIRECTORIES),
            (GAMMA_POSTRM, SCRIPT),
            (FILE, "new"),
        ],
        again: STAYS,
    },
    Moment {
        stands: &[
            (STATUS, UNPACKED),
            (GAMMA_LIST, DIRECTORIES),
            (LIST, LISTED),
            (FILE, "new"),
        ],
        again: STAYS,
    },
    Moment {
        stands: &[
            (STATUS, UNPACKED),
            (GAMMA_LIST, "/.\n"),
            (GAMMA_POSTRM, ""),
            (LIST, LISTED),
            (FILE, "new"),
        ],
        again: STAYS,
    },
    Moment {
        stands: &[
            (STATUS, UNPACKED),
            (GAMMA_LIST, ""),
            (GAMMA_POSTRM, ""),
            (LIST, LISTED),
            (FILE, "new"),
        ],
        again: STAYS,
    },
    Moment {
        stands: &[
            (STATUS, DISAPPEARED),
            (GAMMA_LIST, ""),
            (GAMMA_POSTRM, ""),
            (LIST, LISTED),
            (FILE, "new"),
        ],
        again: STAYS,
    },
];

const LEFT: &[Found] = &[
    (STATUS, &[DISAPPEARED]),
    (LIST, &[LISTED]),
    ("/usr/bin", &["directory: v x"]),
    (FILE, &["new"]),
    ("/var/lib/dpkg/info", &["directory: alpha.list victor.list"]),
];

const IS_UNPACKED: Again = Again {
    refused: "",
    lines: &[],
    left: Some(&[
        (STATUS, &[DISAPPEARED, UNPACKED]),
        (LIST, &[LISTED]),
        ("/usr/bin", &["directory: v x"]),
        (FILE, &["new"]),
    ]),
};

const SUCCEEDS: Row = Row {
    files: FILES,
    trees: TREES,
    endings: &[],
    line: "dpkg_cli unpack t",
    found: FOUND,
    moments: MOMENTS,
    left: LEFT,
    again: IS_UNPACKED,
};

// It goes all the same.
const FAILS: Row = Row {
    files: FILES,
    trees: TREES,
    endings: &[Ending::Ended(Outcome::Exit(1))],
    line: "dpkg_cli unpack t",
    found: FOUND,
    moments: MOMENTS,
    left: LEFT,
    again: IS_UNPACKED,
};

#[test]
fn stops_where_a_package_disappears(rt: HostRuntime) -> Result<(), Fail> {
    stop_at_each_step(&rt, &SUCCEEDS)
}

#[test]
fn faults_where_a_package_disappears(rt: HostRuntime) -> Result<(), Fail> {
    fail_at_each_step(&rt, &SUCCEEDS)?;
    fail_at_each_read(&rt, &SUCCEEDS)
}

#[test]
fn losses_where_a_package_disappears(rt: HostRuntime) -> Result<(), Fail> {
    lose_at_each_step(&rt, &SUCCEEDS)
}

#[test]
fn stops_where_its_postrm_fails(rt: HostRuntime) -> Result<(), Fail> {
    stop_at_each_step(&rt, &FAILS)
}

#[test]
fn faults_where_its_postrm_fails(rt: HostRuntime) -> Result<(), Fail> {
    fail_at_each_step(&rt, &FAILS)?;
    fail_at_each_read(&rt, &FAILS)
}

#[test]
fn declines_where_a_package_disappears(rt: HostRuntime) -> Result<(), Fail> {
    assert!(rt; decline_each_step(&rt, &SUCCEEDS)? > 0);
    Ok(())
}
