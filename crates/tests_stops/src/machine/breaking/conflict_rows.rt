// An install that removes a conflicting package, broken off: where it succeeds, and where the postrm of the removed package
// fails. A path that both ship is never missing, and what was removed is done once the new package is unpacked.
use super::{
    Again, Found, Moment, Row, SCRIPT, STATUS, decline_each_step, fail_at_each_read,
    fail_at_each_step, lose_at_steps, stop_at_each_step,
};
use crate::machine::{RootFile, TreeFile};
use host_core::Outcome;
use host_memory::Ending;
use std::test::Fail;

const TREES: &[TreeFile] = &[
    (
        "t",
        "/DEBIAN/control",
        "Package: alpha\nVersion: 2.0\nConflicts: delta\nReplaces: delta\n",
    ),
    ("t", "/opt/both", "new"),
    ("d", "/DEBIAN/control", "Package: delta\nVersion: 1\n"),
    ("d", "/DEBIAN/prerm", SCRIPT),
    ("d", "/DEBIAN/postrm", SCRIPT),
    ("d", "/opt/both", "old"),
    ("d", "/opt/delta", "old"),
];

const INSTALLED: &str = "Package: delta
Status: install ok installed
Version: 1

Package: victor
Status: install ok installed
Version: 1
";

// The call of delta's prerm is near.
const LEAVING: &str = "Package: delta
Status: install ok half-configured
Version: 1
Config-Version: 1

Package: victor
Status: install ok installed
Version: 1
";

// Alpha's files are being written.
const HALF_INSTALLED: &str = "Package: alpha
Status: install reinstreq half-installed
Version: 2.0
Replaces: delta
Conflicts: delta

Package: delta
Status: install ok half-configured
Version: 1
Config-Version: 1

Package: victor
Status: install ok installed
Version: 1
";

const UNPACKED: &str = "Package: alpha
Status: install ok unpacked
Version: 2.0
Replaces: delta
Conflicts: delta

Package: delta
Status: install ok half-configured
Version: 1
Config-Version: 1

Package: victor
Status: install ok installed
Version: 1
";

// Delta's files go.
const LOSING: &str = "Package: alpha
Status: install ok unpacked
Version: 2.0
Replaces: delta
Conflicts: delta

Package: delta
Status: install reinstreq half-installed
Version: 1
Config-Version: 1
Removed-Since: yes

Package: victor
Status: install ok installed
Version: 1
";

// They are gone, and its postrm hasn't succeeded.
const WITHOUT_FILES: &str = "Package: alpha
Status: install ok unpacked
Version: 2.0
Replaces: delta
Conflicts: delta

Package: delta
Status: deinstall ok half-installed
Version: 1
Config-Version: 1
Removed-Since: yes

Package: victor
Status: install ok installed
Version: 1
";

const REMOVED: &str = "Package: alpha
Status: install ok unpacked
Version: 2.0
Replaces: delta
Conflicts: delta

Package: delta
Status: deinstall ok config-files
Version: 1
Config-Version: 1
Removed-Since: yes

Package: victor
Status: install ok installed
Version: 1
";

const CONFIGURING: &str = "Package: alpha
Status: install ok half-configured
Version: 2.0
Replaces: delta
Conflicts: delta

Package: delta
Status: deinstall ok config-files
Version: 1
Config-Version: 1
Removed-Since: yes

Package: victor
Status: install ok installed
Version: 1
";

const CONFIGURED: &str = "Package: alpha
Status: install ok installed
Version: 2.0
Replaces: delta
Conflicts: delta

Package: delta
Status: deinstall ok config-files
Version: 1
Config-Version: 1
Removed-Since: yes

Package: victor
Status: install ok installed
Version: 1
";

const LIST: &str = "/var/lib/dpkg/info/alpha.list";

const LISTED: &str = "/.\n/opt\n/opt/both\n";

const DELTA_LIST: &str = "/var/lib/dpkg/info/delta.list";

const DELTA_LISTED: &str = "/.\n/opt\n/opt/both\n/opt/delta\n";

// Once alpha has the file of both.
const DELTA_LISTED_THEN: &str = "/.\n/opt\n/opt/delta\n";

const NOTHING_LISTED: &str = "/.\n";

const DELTA_PRERM: &str = "/var/lib/dpkg/info/delta.prerm";

const DELTA_POSTRM: &str = "/var/lib/dpkg/info/delta.postrm";

const VICTOR_LIST: &str = "/var/lib/dpkg/info/victor.list";

const VICTOR_LISTED: &str = "/.\n/opt\n/opt/victor\n";

const BOTH: &str = "/opt/both";

const DELTA: &str = "/opt/delta";

const FILES: &[RootFile] = &[
    (STATUS, INSTALLED),
    (DELTA_LIST, DELTA_LISTED),
    (DELTA_PRERM, SCRIPT),
    (DELTA_POSTRM, SCRIPT),
    (VICTOR_LIST, VICTOR_LISTED),
    (BOTH, "old"),
    (DELTA, "old"),
    ("/opt/victor", "v"),
];

const FOUND: &[Found] = &[
    (
        STATUS,
        &[
            INSTALLED,
            LEAVING,
            HALF_INSTALLED,
            UNPACKED,
            LOSING,
            WITHOUT_FILES,
            REMOVED,
            CONFIGURING,
            CONFIGURED,
        ],
    ),
    (LIST, &["", LISTED]),
    (
        DELTA_LIST,
        &[DELTA_LISTED, DELTA_LISTED_THEN, NOTHING_LISTED],
    ),
    (DELTA_PRERM, &[SCRIPT, ""]),
    (DELTA_POSTRM, &[SCRIPT]),
    (VICTOR_LIST, &[VICTOR_LISTED]),
    (BOTH, &["old", "new"]),
    (DELTA, &["old", ""]),
    ("/opt/victor", &["v"]),
    ("/var/lib/dpkg/tmp.ci", &[""]),
];

const BY_PRERM: &str = "call old delta prerm remove in-favour alpha 2.0: exit 0
call old delta postrm remove: exit 0
state alpha 2.0 install ok unpacked
state delta 1 deinstall ok config-files
done
state alpha 2.0 install ok installed
done
||0
";

const BY_POSTRM: &str = "call old delta postrm remove: exit 0
state alpha 2.0 install ok unpacked
state delta 1 deinstall ok config-files
done
state alpha 2.0 install ok installed
done
||0
";

const INSTALLED_ALONE: &str = "state alpha 2.0 install ok unpacked
done
state alpha 2.0 install ok installed
done
||0
";

// Delta can be neither removed nor unpacked while it is marked and alpha conflicts with it.
const REFUSED: &str = "refused alpha Conflicts delta
||1
";

const MENDED: &str = "refused alpha Conflicts delta
||1
state alpha none
done
||0
call old delta postrm upgrade 1: exit 0
state delta 1 install ok unpacked
done
||0
call old delta postrm remove: exit 0
state alpha 2.0 install ok unpacked
state delta 1 deinstall ok config-files
done
state alpha 2.0 install ok installed
done
||0
";

// Alpha's files change while it is marked alone, and delta's own go while delta is.
const MOMENTS: &[Moment] = &[
    Moment {
        stands: &[
            (STATUS, INSTALLED),
            (LIST, ""),
            (DELTA_LIST, DELTA_LISTED),
            (BOTH, "old"),
            (DELTA, "old"),
        ],
        again: BY_PRERM,
    },
    Moment {
        stands: &[
            (STATUS, LEAVING),
            (LIST, ""),
            (DELTA_LIST, DELTA_LISTED),
            (BOTH, "old"),
            (DELTA, "old"),
        ],
        again: BY_PRERM,
    },
    Moment {
        stands: &[
            (STATUS, HALF_INSTALLED),
            (DELTA_PRERM, SCRIPT),
            (DELTA, "old"),
        ],
        again: BY_PRERM,
    },
    Moment {
        stands: &[
            (STATUS, UNPACKED),
            (LIST, LISTED),
            (DELTA_LIST, DELTA_LISTED_THEN),
            (BOTH, "new"),
            (DELTA, "old"),
        ],
        again: BY_PRERM,
    },
    Moment {
        stands: &[(STATUS, LOSING), (LIST, LISTED), (BOTH, "new")],
        again: MENDED,
    },
    Moment {
        stands: &[
            (STATUS, WITHOUT_FILES),
            (LIST, LISTED),
            (DELTA_LIST, NOTHING_LISTED),
            (BOTH, "new"),
            (DELTA, ""),
        ],
        again: BY_POSTRM,
    },
    Moment {
        stands: &[
            (STATUS, REMOVED),
            (LIST, LISTED),
            (DELTA_LIST, NOTHING_LISTED),
            (DELTA_PRERM, ""),
            (BOTH, "new"),
            (DELTA, ""),
        ],
        again: INSTALLED_ALONE,
    },
    Moment {
        stands: &[
            (STATUS, CONFIGURING),
            (LIST, LISTED),
            (DELTA_LIST, NOTHING_LISTED),
            (DELTA_PRERM, ""),
            (BOTH, "new"),
            (DELTA, ""),
        ],
        again: INSTALLED_ALONE,
    },
    Moment {
        stands: &[
            (STATUS, CONFIGURED),
            (LIST, LISTED),
            (DELTA_LIST, NOTHING_LISTED),
            (DELTA_PRERM, ""),
            (BOTH, "new"),
            (DELTA, ""),
        ],
        again: INSTALLED_ALONE,
    },
];

const LEFT: &[Found] = &[
    (STATUS, &[CONFIGURED]),
    (LIST, &[LISTED]),
    (DELTA_LIST, &[NOTHING_LISTED]),
    ("/opt", &["directory: both victor"]),
    (BOTH, &["new"]),
    (
        "/var/lib/dpkg/info",
        &["directory: alpha.list delta.list delta.postrm victor.list"],
    ),
];

// Where delta's files were going, alpha is removed, delta unpacked, and the command given once more.
const BY_UNPACK: Again = Again {
    refused: REFUSED,
    lines: &["dpkg_cli remove alpha", "dpkg_cli unpack d"],
    left: Some(LEFT),
};

const SUCCEEDS: Row = Row {
    files: FILES,
    trees: TREES,
    endings: &[],
    line: "dpkg_cli install t",
    found: FOUND,
    moments: MOMENTS,
    left: LEFT,
    again: BY_UNPACK,
};

// Delta's postrm fails: it is left half-installed, and nothing is configured.
const FAILS: Row = Row {
    files: FILES,
    trees: TREES,
    endings: &[
        Ending::Ended(Outcome::Exit(0)),
        Ending::Ended(Outcome::Exit(1)),
    ],
    line: "dpkg_cli install t",
    found: FOUND,
    moments: MOMENTS,
    left: &[
        (STATUS, &[WITHOUT_FILES]),
        (DELTA_LIST, &[NOTHING_LISTED]),
        ("/opt", &["directory: both victor"]),
        (BOTH, &["new"]),
        (
            "/var/lib/dpkg/info",
            &["directory: alpha.list delta.list delta.postrm delta.prerm victor.list"],
        ),
    ],
    again: BY_UNPACK,
};

#[test]
fn stops_within_the_removal_of_a_conflicting_package(rt: HostRuntime) -> Result<(), Fail> {
    stop_at_each_step(&rt, &SUCCEEDS)
}

#[test]
fn faults_within_the_removal_of_a_conflicting_package(rt: HostRuntime) -> Result<(), Fail> {
    fail_at_each_step(&rt, &SUCCEEDS)?;
    fail_at_each_read(&rt, &SUCCEEDS)
}

#[test]
fn stops_where_its_postrm_fails(rt: HostRuntime) -> Result<(), Fail> {
    stop_at_each_step(&rt, &FAILS)
}

#[test]
fn faults_where_its_postrm_fails(rt: HostRuntime) -> Result<(), Fail> {
    fail_at_each_step(&rt, &FAILS)?;
    fail_at_each_read(&rt, &FAILS)
}

#[test]
fn losses_where_its_postrm_fails(rt: HostRuntime) -> Result<(), Fail> {
    lose_at_steps(&rt, &FAILS, 0, 3)
}

#[test]
fn losses_where_its_postrm_fails_one_step_on(rt: HostRuntime) -> Result<(), Fail> {
    lose_at_steps(&rt, &FAILS, 1, 3)
}

#[test]
fn losses_where_its_postrm_fails_two_steps_on(rt: HostRuntime) -> Result<(), Fail> {
    lose_at_steps(&rt, &FAILS, 2, 3)
}

#[test]
fn declines_within_the_removal_of_a_conflicting_package(rt: HostRuntime) -> Result<(), Fail> {
    assert!(rt; decline_each_step(&rt, &SUCCEEDS)? > 0);
    Ok(())
}
