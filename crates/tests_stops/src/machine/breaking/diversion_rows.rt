// Diversions of an installed package's file, added and taken away, broken off. At each step the table is that before or
// after, and the file stands whole at its path, at the target or at both; the same command then finishes the work.
use super::{
    ALONE, Found, Moment, Row, STATUS, decline_each_step, fail_at_each_read, fail_at_each_step,
    lose_at_each_step, stop_at_each_step,
};
use crate::machine::RootFile;
use std::test::Fail;

const DIVERT_AND_MOVE: &str =
    "dpkg_cli divert --local --divert /usr/bin/v.real --rename /usr/bin/v";

const DIVERT_ALONE: &str = "dpkg_cli divert --local --divert /usr/bin/v.real /usr/bin/v";

const UNDIVERT_AND_MOVE: &str = "dpkg_cli undivert --local --rename /usr/bin/v";

const UNDIVERT_ALONE: &str = "dpkg_cli undivert --local /usr/bin/v";

const VICTOR: &str = "Package: victor\nStatus: install ok installed\nVersion: 1\n";

const LIST: &str = "/var/lib/dpkg/info/victor.list";

const LISTED: &str = "/.\n/usr\n/usr/bin\n/usr/bin/v\n";

const TABLE: &str = "/var/lib/dpkg/diversions";

const ENTRY: &str = "/usr/bin/v\n/usr/bin/v.real\n:\n";

const PATH: &str = "/usr/bin/v";

const TARGET: &str = "/usr/bin/v.real";

const FILE: &str = "v\n";

// The directory of both shows that the file has no further name.
const DIRECTORY: &str = "/usr/bin";

const PATH_ALONE: &str = "directory: v";

const TARGET_ALONE: &str = "directory: v.real";

const BOTH: &str = "directory: v v.real";

const DONE: &str = "done\n||0\n";

const NOT_DIVERTED: &str = "refused /usr/bin/v NotDiverted\n||1\n";

const UNDIVERTED: &[RootFile] = &[(STATUS, VICTOR), (LIST, LISTED), (PATH, FILE)];

const DIVERTED: &[RootFile] = &[
    (STATUS, VICTOR),
    (LIST, LISTED),
    (TABLE, ENTRY),
    (TARGET, FILE),
];

// As a command leaves them that was stopped before it took the old name away, or right behind that.
const UNDIVERTED_TWICE: &[RootFile] = &[
    (STATUS, VICTOR),
    (LIST, LISTED),
    (PATH, FILE),
    (TARGET, FILE),
];

const DIVERTED_TWICE: &[RootFile] = &[
    (STATUS, VICTOR),
    (LIST, LISTED),
    (TABLE, ENTRY),
    (PATH, FILE),
    (TARGET, FILE),
];

const UNDIVERTED_MOVED: &[RootFile] = &[(STATUS, VICTOR), (LIST, LISTED), (TARGET, FILE)];

// Records and lists stay whatever is diverted.
const FOUND: &[Found] = &[(STATUS, &[VICTOR]), (LIST, &[LISTED])];

const UNDIVERTED_AT_PATH: &[RootFile] = &[(TABLE, ""), (PATH, FILE), (DIRECTORY, PATH_ALONE)];

const UNDIVERTED_AT_TARGET: &[RootFile] = &[(TABLE, ""), (TARGET, FILE), (DIRECTORY, TARGET_ALONE)];

const UNDIVERTED_AT_BOTH: &[RootFile] = &[
    (TABLE, ""),
    (PATH, FILE),
    (TARGET, FILE),
    (DIRECTORY, BOTH),
];

const DIVERTED_AT_BOTH: &[RootFile] = &[
    (TABLE, ENTRY),
    (PATH, FILE),
    (TARGET, FILE),
    (DIRECTORY, BOTH),
];

const DIVERTED_AT_PATH: &[RootFile] = &[(TABLE, ENTRY), (PATH, FILE), (DIRECTORY, PATH_ALONE)];

const DIVERTED_AT_TARGET: &[RootFile] = &[
    (TABLE, ENTRY),
    (TARGET, FILE),
    (DIRECTORY, TARGET_ALONE),
];

const LEFT_DIVERTED: Found = (TABLE, &[ENTRY]);

const LEFT_UNDIVERTED: Found = (TABLE, &[""]);

const LEFT_AT_PATH: Found = (PATH, &[FILE]);

const LEFT_PATH_ALONE: Found = (DIRECTORY, &[PATH_ALONE]);

const LEFT_AT_TARGET: Found = (TARGET, &[FILE]);

const LEFT_TARGET_ALONE: Found = (DIRECTORY, &[TARGET_ALONE]);

// No temporary name is left.
const ADMINISTRATION: Found = (
    "/var/lib/dpkg",
    &["directory: diversions info status updates"],
);

const INFO: Found = ("/var/lib/dpkg/info", &["directory: victor.list"]);

const DIVERTING_MOMENTS: &[Moment] = &[
    Moment {
        stands: UNDIVERTED_AT_PATH,
        again: DONE,
    },
    Moment {
        stands: UNDIVERTED_AT_BOTH,
        again: DONE,
    },
    Moment {
        stands: UNDIVERTED_AT_TARGET,
        again: DONE,
    },
    Moment {
        stands: DIVERTED_AT_TARGET,
        again: DONE,
    },
];

const LEFT_DIVERTED_AND_MOVED: &[Found] = &[
    LEFT_DIVERTED,
    LEFT_AT_TARGET,
    LEFT_TARGET_ALONE,
    ADMINISTRATION,
    INFO,
];

const DIVERTS_AND_MOVES: Row = Row {
    files: UNDIVERTED,
    trees: &[],
    endings: &[],
    line: DIVERT_AND_MOVE,
    found: FOUND,
    moments: DIVERTING_MOMENTS,
    left: LEFT_DIVERTED_AND_MOVED,
    again: ALONE,
};

const DIVERTS_WHERE_BOTH_STAND: Row = Row {
    files: UNDIVERTED_TWICE,
    trees: &[],
    endings: &[],
    line: DIVERT_AND_MOVE,
    found: FOUND,
    moments: DIVERTING_MOMENTS,
    left: LEFT_DIVERTED_AND_MOVED,
    again: ALONE,
};

const DIVERTS_WHERE_IT_IS_MOVED: Row = Row {
    files: UNDIVERTED_MOVED,
    trees: &[],
    endings: &[],
    line: DIVERT_AND_MOVE,
    found: FOUND,
    moments: DIVERTING_MOMENTS,
    left: LEFT_DIVERTED_AND_MOVED,
    again: ALONE,
};

const DIVERTS_ALONE: Row = Row {
    files: UNDIVERTED,
    trees: &[],
    endings: &[],
    line: DIVERT_ALONE,
    found: FOUND,
    moments: &[
        Moment {
            stands: UNDIVERTED_AT_PATH,
            again: DONE,
        },
        Moment {
            stands: DIVERTED_AT_PATH,
            again: DONE,
        },
    ],
    left: &[
        LEFT_DIVERTED,
        LEFT_AT_PATH,
        LEFT_PATH_ALONE,
        ADMINISTRATION,
        INFO,
    ],
    again: ALONE,
};

// Where the entry is gone already, nothing is left to be taken away.
const UNDIVERTING_MOMENTS: &[Moment] = &[
    Moment {
        stands: DIVERTED_AT_TARGET,
        again: DONE,
    },
    Moment {
        stands: DIVERTED_AT_BOTH,
        again: DONE,
    },
    Moment {
        stands: DIVERTED_AT_PATH,
        again: DONE,
    },
    Moment {
        stands: UNDIVERTED_AT_PATH,
        again: NOT_DIVERTED,
    },
];

const LEFT_UNDIVERTED_AND_MOVED: &[Found] = &[
    LEFT_UNDIVERTED,
    LEFT_AT_PATH,
    LEFT_PATH_ALONE,
    ADMINISTRATION,
    INFO,
];

const UNDIVERTS_AND_MOVES: Row = Row {
    files: DIVERTED,
    trees: &[],
    endings: &[],
    line: UNDIVERT_AND_MOVE,
    found: FOUND,
    moments: UNDIVERTING_MOMENTS,
    left: LEFT_UNDIVERTED_AND_MOVED,
    again: ALONE,
};

const UNDIVERTS_WHERE_BOTH_STAND: Row = Row {
    files: DIVERTED_TWICE,
    trees: &[],
    endings: &[],
    line: UNDIVERT_AND_MOVE,
    found: FOUND,
    moments: UNDIVERTING_MOMENTS,
    left: LEFT_UNDIVERTED_AND_MOVED,
    again: ALONE,
};

const UNDIVERTS_ALONE: Row = Row {
    files: DIVERTED,
    trees: &[],
    endings: &[],
    line: UNDIVERT_ALONE,
    found: FOUND,
    moments: &[
        Moment {
            stands: DIVERTED_AT_TARGET,
            again: DONE,
        },
        Moment {
            stands: UNDIVERTED_AT_TARGET,
            again: NOT_DIVERTED,
        },
    ],
    left: &[
        LEFT_UNDIVERTED,
        LEFT_AT_TARGET,
        LEFT_TARGET_ALONE,
        ADMINISTRATION,
        INFO,
    ],
    again: ALONE,
};

const ROWS: &[Row] = &[
    DIVERTS_AND_MOVES,
    DIVERTS_WHERE_BOTH_STAND,
    DIVERTS_WHERE_IT_IS_MOVED,
    DIVERTS_ALONE,
    UNDIVERTS_AND_MOVES,
    UNDIVERTS_WHERE_BOTH_STAND,
    UNDIVERTS_ALONE,
];

#[test]
fn stops(rt: HostRuntime) -> Result<(), Fail> {
    for row in ROWS {
        stop_at_each_step(&rt, row)?;
    }
    Ok(())
}

#[test]
fn faults(rt: HostRuntime) -> Result<(), Fail> {
    for row in ROWS {
        fail_at_each_step(&rt, row)?;
        fail_at_each_read(&rt, row)?;
    }
    Ok(())
}

#[test]
fn losses(rt: HostRuntime) -> Result<(), Fail> {
    for row in ROWS {
        lose_at_each_step(&rt, row)?;
    }
    Ok(())
}

#[test]
fn declines(rt: HostRuntime) -> Result<(), Fail> {
    for row in ROWS {
        assert_eq!(rt; decline_each_step(&rt, row)?, 0);
    }
    Ok(())
}
