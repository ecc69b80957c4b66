// Removals and purges of a package with a conffile, broken off. The conffile stays whole until a purge takes it, what the
// administrator put beside the package's file stays, and the same command, behind an unpack where the package is marked,
// finishes the work.
use super::{
    ALONE, Again, Found, Moment, Row, SCRIPT, STATUS, decline_each_step, fail_at_each_read,
    fail_at_each_step, lose_at_each_step, stop_at_each_step,
};
use crate::machine::{RootFile, TreeFile};
use host_core::Outcome;
use host_memory::Ending;
use std::test::Fail;

// The tree from which the package was installed.
const TREES: &[TreeFile] = &[
    ("t", "/DEBIAN/control", "Package: zulu\nVersion: 1\n"),
    ("t", "/DEBIAN/conffiles", "/etc/z.conf\n"),
    ("t", "/DEBIAN/postrm", SCRIPT),
    ("t", "/etc/z.conf", "a"),
    ("t", "/opt/z/bin", "z"),
];

const INSTALLED: &str =
    "Package: zulu\nStatus: install ok installed\nVersion: 1\nConffiles:\n /etc/z.conf 0cc175b9c0f1b6a831c399e269772661\n";

const HALF_CONFIGURED: &str =
    "Package: zulu\nStatus: install ok half-configured\nVersion: 1\nConfig-Version: 1\nConffiles:\n /etc/z.conf 0cc175b9c0f1b6a831c399e269772661\n";

// While its files go.
const LOSING: &str =
    "Package: zulu\nStatus: install reinstreq half-installed\nVersion: 1\nConfig-Version: 1\nConffiles:\n /etc/z.conf 0cc175b9c0f1b6a831c399e269772661\nRemoved-Since: yes\n";

// Once they are gone, until its postrm has succeeded.
const WITHOUT_FILES: &str =
    "Package: zulu\nStatus: deinstall ok half-installed\nVersion: 1\nConfig-Version: 1\nConffiles:\n /etc/z.conf 0cc175b9c0f1b6a831c399e269772661\nRemoved-Since: yes\n";

const CONFIG_FILES: &str =
    "Package: zulu\nStatus: deinstall ok config-files\nVersion: 1\nConfig-Version: 1\nConffiles:\n /etc/z.conf 0cc175b9c0f1b6a831c399e269772661\nRemoved-Since: yes\n";

const PURGING: &str =
    "Package: zulu\nStatus: purge ok config-files\nVersion: 1\nConfig-Version: 1\nConffiles:\n /etc/z.conf 0cc175b9c0f1b6a831c399e269772661\nRemoved-Since: yes\n";

const LIST: &str = "/var/lib/dpkg/info/zulu.list";

const LISTED: &str = "/.\n/etc\n/etc/z.conf\n/opt\n/opt/z\n/opt/z/bin\n";

const LISTED_THEN: &str = "/.\n/etc\n/etc/z.conf\n";

const POSTRM: &str = "/var/lib/dpkg/info/zulu.postrm";

const CONFFILE: &str = "/etc/z.conf";

const FILE: &str = "/opt/z/bin";

const NOTE: &str = "/opt/z/note";

// Where the package is marked it has to be unpacked again first.
const BY_UNPACK: Again = Again {
    refused: "refused zulu Reinstreq\n||1\n",
    lines: &["dpkg_cli unpack t"],
    left: None,
};

const FILES: &[RootFile] = &[
    (STATUS, INSTALLED),
    (LIST, LISTED),
    (POSTRM, SCRIPT),
    (CONFFILE, "a"),
    (FILE, "z"),
    (NOTE, "mine"),
];

// Behind a removal, with what editors and earlier versions left beside the conffile.
const FILES_THEN: &[RootFile] = &[
    (STATUS, CONFIG_FILES),
    (LIST, LISTED_THEN),
    (POSTRM, SCRIPT),
    (CONFFILE, "a"),
    ("/etc/z.conf~", "1"),
    ("/etc/#z.conf#", "2"),
    ("/etc/z.conf.dpkg-old", "3"),
    (NOTE, "mine"),
];

const REMOVING: &[Found] = &[
    (
        STATUS,
        &[
            INSTALLED,
            HALF_CONFIGURED,
            LOSING,
            WITHOUT_FILES,
            CONFIG_FILES,
        ],
    ),
    (LIST, &[LISTED, LISTED_THEN]),
    (POSTRM, &[SCRIPT]),
    (CONFFILE, &["a"]),
    (FILE, &["z", ""]),
    (NOTE, &["mine"]),
];

const REMOVED: &str = "call old zulu postrm remove: exit 0
state zulu 1 deinstall ok config-files
done
||0
";

const UNPACKED_AND_REMOVED: &str = "refused zulu Reinstreq
||1
call old zulu postrm upgrade 1: exit 0
state zulu 1 install ok unpacked
done
||0
call old zulu postrm remove: exit 0
state zulu 1 deinstall ok config-files
done
||0
";

const LEFT_BY_REMOVAL: &[Found] = &[
    (STATUS, &[CONFIG_FILES]),
    (LIST, &[LISTED_THEN]),
    ("/etc", &["directory: z.conf"]),
    ("/opt/z", &["directory: note"]),
    ("/var/lib/dpkg/info", &["directory: zulu.list zulu.postrm"]),
];

const REMOVES_MOMENTS: &[Moment] = &[
    Moment {
        stands: &[(STATUS, INSTALLED)],
        again: REMOVED,
    },
    Moment {
        stands: &[(STATUS, HALF_CONFIGURED)],
        again: REMOVED,
    },
    Moment {
        stands: &[(STATUS, LOSING)],
        again: UNPACKED_AND_REMOVED,
    },
    Moment {
        stands: &[(STATUS, WITHOUT_FILES), (FILE, "")],
        again: REMOVED,
    },
    Moment {
        stands: &[(STATUS, CONFIG_FILES), (FILE, "")],
        again: "refused zulu NothingToRemove\n||1\n",
    },
];

const REMOVES: Row = Row {
    files: FILES,
    trees: TREES,
    endings: &[],
    line: "dpkg_cli remove zulu",
    found: REMOVING,
    moments: REMOVES_MOMENTS,
    left: LEFT_BY_REMOVAL,
    again: BY_UNPACK,
};

const REMOVES_IN_VAIN: Row = Row {
    files: FILES,
    trees: TREES,
    endings: &[Ending::Ended(Outcome::Exit(1))],
    line: "dpkg_cli remove zulu",
    found: REMOVING,
    moments: REMOVES_MOMENTS,
    left: &[
        (STATUS, &[WITHOUT_FILES]),
        (LIST, &[LISTED_THEN]),
        ("/etc", &["directory: z.conf"]),
        ("/opt/z", &["directory: note"]),
    ],
    again: Again {
        refused: "refused zulu Reinstreq\n||1\n",
        lines: &["dpkg_cli unpack t"],
        left: Some(LEFT_BY_REMOVAL),
    },
};

const PURGED: &str = "call old zulu postrm purge: exit 0
state zulu none
done
||0
";

const REMOVED_AND_PURGED: &str = "call old zulu postrm remove: exit 0
call old zulu postrm purge: exit 0
state zulu none
done
||0
";

const UNPACKED_AND_PURGED: &str = "refused zulu Reinstreq
||1
call old zulu postrm upgrade 1: exit 0
state zulu 1 install ok unpacked
done
||0
call old zulu postrm remove: exit 0
call old zulu postrm purge: exit 0
state zulu none
done
||0
";

const PURGES_MOMENTS: &[Moment] = &[
    Moment {
        stands: &[(STATUS, INSTALLED), (CONFFILE, "a")],
        again: REMOVED_AND_PURGED,
    },
    Moment {
        stands: &[(STATUS, HALF_CONFIGURED), (CONFFILE, "a")],
        again: REMOVED_AND_PURGED,
    },
    Moment {
        stands: &[(STATUS, LOSING), (CONFFILE, "a")],
        again: UNPACKED_AND_PURGED,
    },
    Moment {
        stands: &[(STATUS, WITHOUT_FILES), (CONFFILE, "a"), (FILE, "")],
        again: REMOVED_AND_PURGED,
    },
    Moment {
        stands: &[(STATUS, CONFIG_FILES), (CONFFILE, "a"), (FILE, "")],
        again: PURGED,
    },
    Moment {
        stands: &[(STATUS, PURGING), (POSTRM, SCRIPT), (FILE, "")],
        again: PURGED,
    },
    Moment {
        stands: &[(STATUS, PURGING), (POSTRM, ""), (CONFFILE, "")],
        again: "state zulu none\ndone\n||0\n",
    },
    Moment {
        stands: &[(STATUS, ""), (LIST, ""), (POSTRM, ""), (CONFFILE, "")],
        again: "refused zulu Unknown\n||1\n",
    },
];

const LEFT_BY_PURGE: &[Found] = &[
    (STATUS, &[""]),
    ("/etc", &[""]),
    ("/opt/z", &["directory: note"]),
    ("/var/lib/dpkg/info", &["directory:"]),
];

const PURGING_ALONE: &[Found] = &[
    (STATUS, &[CONFIG_FILES, PURGING, ""]),
    (LIST, &[LISTED_THEN, "/.\n", ""]),
    (POSTRM, &[SCRIPT, ""]),
    (CONFFILE, &["a", ""]),
    (NOTE, &["mine"]),
];

const REMOVING_AND_PURGING: &[Found] = &[
    (LIST, &[LISTED, LISTED_THEN, "/.\n", ""]),
    (POSTRM, &[SCRIPT, ""]),
    (CONFFILE, &["a", ""]),
    (FILE, &["z", ""]),
    (NOTE, &["mine"]),
];

const PURGES: Row = Row {
    files: FILES_THEN,
    trees: TREES,
    endings: &[],
    line: "dpkg_cli purge zulu",
    found: PURGING_ALONE,
    moments: PURGES_MOMENTS,
    left: LEFT_BY_PURGE,
    again: ALONE,
};

// A purge that begins with the removal.
const REMOVES_AND_PURGES: Row = Row {
    files: FILES,
    trees: TREES,
    endings: &[],
    line: "dpkg_cli purge zulu",
    found: REMOVING_AND_PURGING,
    moments: PURGES_MOMENTS,
    left: LEFT_BY_PURGE,
    again: BY_UNPACK,
};

// Where a step was declined: a directory whose removal was stays, and the purge goes on.
const LEFT_OR_STAYING: &[Found] = &[
    (STATUS, &[""]),
    ("/etc", &["", "directory:"]),
    ("/opt/z", &["directory: note"]),
    ("/var/lib/dpkg/info", &["directory:"]),
];

const PURGES_DECLINED: Row = Row {
    files: FILES_THEN,
    trees: TREES,
    endings: &[],
    line: "dpkg_cli purge zulu",
    found: PURGING_ALONE,
    moments: PURGES_MOMENTS,
    left: LEFT_OR_STAYING,
    again: ALONE,
};

const REMOVES_AND_PURGES_DECLINED: Row = Row {
    files: FILES,
    trees: TREES,
    endings: &[],
    line: "dpkg_cli purge zulu",
    found: REMOVING_AND_PURGING,
    moments: PURGES_MOMENTS,
    left: LEFT_OR_STAYING,
    again: BY_UNPACK,
};

#[test]
fn stops_within_a_removal(rt: HostRuntime) -> Result<(), Fail> {
    stop_at_each_step(&rt, &REMOVES)
}

#[test]
fn stops_where_postrm_fails(rt: HostRuntime) -> Result<(), Fail> {
    stop_at_each_step(&rt, &REMOVES_IN_VAIN)
}

#[test]
fn stops_within_a_purge(rt: HostRuntime) -> Result<(), Fail> {
    stop_at_each_step(&rt, &PURGES)
}

#[test]
fn stops_within_a_removal_and_purge(rt: HostRuntime) -> Result<(), Fail> {
    stop_at_each_step(&rt, &REMOVES_AND_PURGES)
}

#[test]
fn faults_within_a_removal(rt: HostRuntime) -> Result<(), Fail> {
    fail_at_each_step(&rt, &REMOVES)?;
    fail_at_each_read(&rt, &REMOVES)
}

#[test]
fn faults_where_postrm_fails(rt: HostRuntime) -> Result<(), Fail> {
    fail_at_each_step(&rt, &REMOVES_IN_VAIN)?;
    fail_at_each_read(&rt, &REMOVES_IN_VAIN)
}

#[test]
fn faults_within_a_purge(rt: HostRuntime) -> Result<(), Fail> {
    fail_at_each_step(&rt, &PURGES)?;
    fail_at_each_read(&rt, &PURGES)
}

#[test]
fn faults_within_a_removal_and_purge(rt: HostRuntime) -> Result<(), Fail> {
    fail_at_each_step(&rt, &REMOVES_AND_PURGES)?;
    fail_at_each_read(&rt, &REMOVES_AND_PURGES)
}

#[test]
fn losses_within_a_removal(rt: HostRuntime) -> Result<(), Fail> {
    lose_at_each_step(&rt, &REMOVES)
}

#[test]
fn losses_within_a_removal_and_purge(rt: HostRuntime) -> Result<(), Fail> {
    lose_at_each_step(&rt, &REMOVES_AND_PURGES)
}

#[test]
fn losses_within_a_purge(rt: HostRuntime) -> Result<(), Fail> {
    lose_at_each_step(&rt, &PURGES)
}

// A removal has no file row: it is broken off, but where the removal of a directory is declined.
#[test]
fn declines(rt: HostRuntime) -> Result<(), Fail> {
    let rows = &[
        REMOVES,
        REMOVES_IN_VAIN,
        PURGES_DECLINED,
        REMOVES_AND_PURGES_DECLINED,
    ];
    for row in rows {
        assert_eq!(rt; decline_each_step(&rt, row)?, 0);
    }
    Ok(())
}
