// An upgrade whose paths lie behind a link above which nothing is listed, broken off: the old version lists the places themselves.
use super::{
    ALONE, Found, Moment, Row, STATUS, decline_each_step, fail_at_each_read, fail_at_each_step,
    lose_at_each_step, stop_at_each_step,
};
use crate::machine::{RootFile, TreeFile};
use std::process::Abort;
use std::test::Fail;

const TREES: &[TreeFile] = &[
    ("t", "/DEBIAN/control", "Package: alpha\nVersion: 2.0\n"),
    ("t", "/opt/own/a", "new"),
    ("t", "/opt/own/b", "new"),
];

const LIST: &str = "/var/lib/dpkg/info/alpha.list";

const INSTALLED: &str = "Package: alpha\nStatus: install ok installed\nVersion: 1.0\n";

const HALF_CONFIGURED: &str =
    "Package: alpha\nStatus: install ok half-configured\nVersion: 1.0\nConfig-Version: 1.0\n";

const HALF_INSTALLED: &str =
    "Package: alpha\nStatus: install reinstreq half-installed\nVersion: 1.0\nConfig-Version: 1.0\n";

const UNPACKED: &str =
    "Package: alpha\nStatus: install ok unpacked\nVersion: 2.0\nConfig-Version: 1.0\n";

const OLD_LIST: &str = "/.\n/srv\n/srv/own\n/srv/own/a\n/srv/own/c\n";

const BOTH_LISTS: &str =
    "/.\n/opt\n/opt/own\n/opt/own/a\n/opt/own/b\n/srv\n/srv/own\n/srv/own/a\n/srv/own/c\n";

const NEW_LIST: &str = "/.\n/opt\n/opt/own\n/opt/own/a\n/opt/own/b\n";

const OWN: &str = "/srv/own";

const OLD_NAMES: &str = "directory: a c";

const NEW_NAMES: &str = "directory: a b";

const FILES: &[RootFile] = &[
    (STATUS, INSTALLED),
    (LIST, OLD_LIST),
    ("/opt/own", "-> ../srv/own"),
    ("/srv/own/a", "old"),
    ("/srv/own/c", "old"),
];

// The link stays, and the file that both versions have is never missing, by whichever name.
const FOUND: &[Found] = &[
    (
        STATUS,
        &[INSTALLED, HALF_CONFIGURED, HALF_INSTALLED, UNPACKED],
    ),
    (LIST, &[OLD_LIST, BOTH_LISTS, NEW_LIST]),
    ("/opt/own", &["link"]),
    ("/srv/own/a", &["old", "new"]),
    ("/srv/own/b", &["", "new"]),
    ("/srv/own/c", &["old", ""]),
    ("/var/lib/dpkg/tmp.ci", &[""]),
];

const DONE: &str = "state alpha 2.0 install ok unpacked
done
||0
";

// Until the package is marked no file of it has changed, and once it isn't marked any more its files are all of one version.
const MOMENTS: &[Moment] = &[
    Moment {
        stands: &[(STATUS, INSTALLED), (OWN, OLD_NAMES), ("/srv/own/a", "old")],
        again: DONE,
    },
    Moment {
        stands: &[
            (STATUS, HALF_CONFIGURED),
            (OWN, OLD_NAMES),
            ("/srv/own/a", "old"),
        ],
        again: DONE,
    },
    Moment {
        stands: &[(STATUS, HALF_INSTALLED)],
        again: DONE,
    },
    Moment {
        stands: &[(STATUS, UNPACKED), (OWN, NEW_NAMES), ("/srv/own/a", "new")],
        again: DONE,
    },
];

const UPGRADED: Row = Row {
    files: FILES,
    trees: TREES,
    endings: &[],
    line: "dpkg_cli unpack t",
    found: FOUND,
    moments: MOMENTS,
    left: &[
        (STATUS, &[UNPACKED]),
        (LIST, &[NEW_LIST]),
        (OWN, &[NEW_NAMES]),
        ("/srv/own/a", &["new"]),
        ("/opt/own", &["link"]),
    ],
    again: ALONE,
};

#[test]
fn stops_behind_a_link(rt: HostRuntime) -> Result<(), Fail> {
    stop_at_each_step(&rt, &UPGRADED)
}

#[test]
fn faults_behind_a_link(rt: HostRuntime) -> Result<(), Fail> {
    fail_at_each_step(&rt, &UPGRADED)?;
    fail_at_each_read(&rt, &UPGRADED)
}

#[test]
fn losses_behind_a_link(rt: HostRuntime) -> Result<(), Fail> {
    lose_at_each_step(&rt, &UPGRADED)
}

#[test]
fn declines_behind_a_link(rt: HostRuntime) -> Result<(), Fail> {
    assert!(rt; decline_each_step(&rt, &UPGRADED)? > 0);
    Ok(())
}
