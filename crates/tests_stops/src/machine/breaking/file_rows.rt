// An upgrade of a package with files and scripts, broken off: where it succeeds, and where its old postrm fails in both ways.
use super::{
    ALONE, Again, Break, Found, LIMIT, Moment, Row, STATUS, decline_each_step, fail_at_each_read,
    fail_at_each_step, lose_at_steps, stop_at_each_step, told_declined,
};
use crate::machine::{RootFile, TreeFile, make_machine};
use host_core::Outcome;
use host_memory::Ending;
use std::alloc::{AllocError, Global};
use std::process::Abort;
use std::test::Fail;

const OLD_SCRIPT: &str = "#!/bin/sh\nold\n";

const NEW_SCRIPT: &str = "#!/bin/sh\nnew\n";

const TREES: &[TreeFile] = &[
    ("t", "/DEBIAN/control", "Package: alpha\nVersion: 2.0\n"),
    ("t", "/DEBIAN/preinst", NEW_SCRIPT),
    ("t", "/DEBIAN/postinst", NEW_SCRIPT),
    ("t", "/DEBIAN/prerm", NEW_SCRIPT),
    ("t", "/DEBIAN/postrm", NEW_SCRIPT),
    ("t", "/usr/bin/a", "new"),
    ("t", "/usr/bin/b", "new"),
];

const LIST: &str = "/var/lib/dpkg/info/alpha.list";

const PRERM: &str = "/var/lib/dpkg/info/alpha.prerm";

const POSTRM: &str = "/var/lib/dpkg/info/alpha.postrm";

const INSTALLED: &str = "Package: alpha\nStatus: install ok installed\nVersion: 1.0\n";

const HALF_CONFIGURED: &str =
    "Package: alpha\nStatus: install ok half-configured\nVersion: 1.0\nConfig-Version: 1.0\n";

const HALF_INSTALLED: &str =
    "Package: alpha\nStatus: install reinstreq half-installed\nVersion: 1.0\nConfig-Version: 1.0\n";

const UNDONE: &str =
    "Package: alpha\nStatus: install ok unpacked\nVersion: 1.0\nConfig-Version: 1.0\n";

const UNPACKED: &str =
    "Package: alpha\nStatus: install ok unpacked\nVersion: 2.0\nConfig-Version: 1.0\n";

const OLD_LIST: &str = "/.\n/usr\n/usr/bin\n/usr/bin/a\n/usr/bin/c\n";

const BOTH_LISTS: &str = "/.\n/usr\n/usr/bin\n/usr/bin/a\n/usr/bin/b\n/usr/bin/c\n";

const NEW_LIST: &str = "/.\n/usr\n/usr/bin\n/usr/bin/a\n/usr/bin/b\n";

const FILE: &str = "/usr/bin/a";

const BIN: &str = "/usr/bin";

const OLD_NAMES: &str = "directory: a c";

const NEW_NAMES: &str = "directory: a b";

const FILES: &[RootFile] = &[
    (STATUS, INSTALLED),
    (LIST, OLD_LIST),
    ("/var/lib/dpkg/info/alpha.preinst", OLD_SCRIPT),
    ("/var/lib/dpkg/info/alpha.postinst", OLD_SCRIPT),
    (PRERM, OLD_SCRIPT),
    (POSTRM, OLD_SCRIPT),
    (FILE, "old"),
    ("/usr/bin/c", "old"),
];

// A path is never missing while a file takes the place of a file.
const FOUND: &[Found] = &[
    (
        STATUS,
        &[INSTALLED, HALF_CONFIGURED, HALF_INSTALLED, UNPACKED, UNDONE],
    ),
    (LIST, &[OLD_LIST, BOTH_LISTS, NEW_LIST]),
    (PRERM, &[OLD_SCRIPT, NEW_SCRIPT]),
    (POSTRM, &[OLD_SCRIPT, NEW_SCRIPT]),
    (FILE, &["old", "new"]),
    ("/usr/bin/b", &["", "new"]),
    ("/usr/bin/c", &["old", ""]),
    ("/var/lib/dpkg/tmp.ci", &[""]),
];

const BY_PRERM: &str = "call old alpha prerm upgrade 2.0: exit 0
call new alpha preinst upgrade 1.0 2.0: exit 0
call old alpha postrm upgrade 2.0: exit 0
state alpha 2.0 install ok unpacked
done
||0
";

const BY_PREINST: &str = "call new alpha preinst upgrade 1.0 2.0: exit 0
call old alpha postrm upgrade 2.0: exit 0
state alpha 2.0 install ok unpacked
done
||0
";

const ONCE_MORE: &str = "call new alpha preinst upgrade 2.0 2.0: exit 0
call old alpha postrm upgrade 2.0: exit 0
state alpha 2.0 install ok unpacked
done
||0
";

// Until the package is marked no file of it has changed, and once it isn't marked any more its files are all of one version.
// Wherever it was broken off, the upgrade given again is done, and leaves no reserved name and no unlisted file.
const MOMENTS: &[Moment] = &[
    Moment {
        stands: &[(STATUS, INSTALLED), (BIN, OLD_NAMES), (FILE, "old")],
        again: BY_PRERM,
    },
    Moment {
        stands: &[(STATUS, HALF_CONFIGURED), (BIN, OLD_NAMES), (FILE, "old")],
        again: BY_PRERM,
    },
    Moment {
        stands: &[(STATUS, HALF_INSTALLED)],
        again: BY_PREINST,
    },
    Moment {
        stands: &[(STATUS, UNDONE), (BIN, OLD_NAMES), (FILE, "old")],
        again: BY_PREINST,
    },
    Moment {
        stands: &[(STATUS, UNPACKED), (BIN, NEW_NAMES), (FILE, "new")],
        again: ONCE_MORE,
    },
];

const UPGRADED_FILES: &[Found] = &[
    (STATUS, &[UNPACKED]),
    (LIST, &[NEW_LIST]),
    (PRERM, &[NEW_SCRIPT]),
    (BIN, &[NEW_NAMES]),
    (FILE, &["new"]),
];

// The record, its list and scripts, and the files are those of before.
const AS_BEFORE: &[Found] = &[
    (STATUS, &[INSTALLED]),
    (LIST, &[OLD_LIST]),
    (PRERM, &[OLD_SCRIPT]),
    (BIN, &[OLD_NAMES]),
    (FILE, &["old"]),
];

const UPGRADE: &str = "dpkg_cli unpack t";

const UPGRADED: Row = Row {
    files: FILES,
    trees: TREES,
    endings: &[],
    line: UPGRADE,
    found: FOUND,
    moments: MOMENTS,
    left: UPGRADED_FILES,
    again: ALONE,
};

const SUCCEEDS: Ending = Ending::Ended(Outcome::Exit(0));

const FAILS: Ending = Ending::Ended(Outcome::Exit(1));

const UNWOUND: Row = Row {
    files: FILES,
    trees: TREES,
    endings: &[SUCCEEDS, SUCCEEDS, FAILS, FAILS],
    line: UPGRADE,
    found: FOUND,
    moments: MOMENTS,
    left: AS_BEFORE,
    again: Again {
        refused: "",
        lines: &[],
        left: Some(UPGRADED_FILES),
    },
};

// The device fails while the old postrm runs.
const CUT_OFF: Row = Row {
    files: FILES,
    trees: TREES,
    endings: &[SUCCEEDS, SUCCEEDS, Ending::CutOff],
    line: UPGRADE,
    found: FOUND,
    moments: MOMENTS,
    left: &[
        (STATUS, &[HALF_INSTALLED]),
        (LIST, &[BOTH_LISTS]),
        (PRERM, &[OLD_SCRIPT]),
        (FILE, &["new"]),
    ],
    again: Again {
        refused: "",
        lines: &[],
        left: Some(UPGRADED_FILES),
    },
};

#[test]
fn stops_within_an_upgrade(rt: HostRuntime) -> Result<(), Fail> {
    stop_at_each_step(&rt, &UPGRADED)
}

#[test]
fn stops_within_an_unwinding(rt: HostRuntime) -> Result<(), Fail> {
    stop_at_each_step(&rt, &UNWOUND)
}

#[test]
fn stops_where_a_script_is_cut_off(rt: HostRuntime) -> Result<(), Fail> {
    stop_at_each_step(&rt, &CUT_OFF)
}

#[test]
fn faults_within_an_upgrade(rt: HostRuntime) -> Result<(), Fail> {
    fail_at_each_step(&rt, &UPGRADED)?;
    fail_at_each_read(&rt, &UPGRADED)
}

#[test]
fn faults_within_an_unwinding(rt: HostRuntime) -> Result<(), Fail> {
    fail_at_each_step(&rt, &UNWOUND)?;
    fail_at_each_read(&rt, &UNWOUND)
}

#[test]
fn losses_within_an_upgrade(rt: HostRuntime) -> Result<(), Fail> {
    lose_at_steps(&rt, &UPGRADED, 0, 3)
}

#[test]
fn losses_within_an_upgrade_one_step_on(rt: HostRuntime) -> Result<(), Fail> {
    lose_at_steps(&rt, &UPGRADED, 1, 3)
}

#[test]
fn losses_within_an_upgrade_two_steps_on(rt: HostRuntime) -> Result<(), Fail> {
    lose_at_steps(&rt, &UPGRADED, 2, 3)
}

#[test]
fn declines_within_an_upgrade(rt: HostRuntime) -> Result<(), Fail> {
    assert!(rt; decline_each_step(&rt, &UPGRADED)? > 0);
    Ok(())
}

#[test]
fn declines_within_an_unwinding(rt: HostRuntime) -> Result<(), Fail> {
    assert!(rt; decline_each_step(&rt, &UNWOUND)? > 0);
    Ok(())
}

// What the upgrade answers where a step of a file is declined: the calls that undo those before it, and the path.
const FAILED: &[(&str, &str)] = &[
    (
        FILE,
        "call old alpha prerm upgrade 2.0: exit 0
call new alpha preinst upgrade 1.0 2.0: exit 0
call new alpha postrm abort-upgrade 1.0 2.0: exit 0
call old alpha postinst abort-upgrade 2.0: exit 0
state alpha 1.0 install ok installed
failed alpha Declined /usr/bin/a
||1
",
    ),
    (
        "/usr/bin/b",
        "call old alpha prerm upgrade 2.0: exit 0
call new alpha preinst upgrade 1.0 2.0: exit 0
call new alpha postrm abort-upgrade 1.0 2.0: exit 0
call old alpha postinst abort-upgrade 2.0: exit 0
state alpha 1.0 install ok installed
failed alpha Declined /usr/bin/b
||1
",
    ),
    (
        "/usr",
        "call old alpha prerm upgrade 2.0: exit 0
call new alpha preinst upgrade 1.0 2.0: exit 0
call new alpha postrm abort-upgrade 1.0 2.0: exit 0
call old alpha postinst abort-upgrade 2.0: exit 0
state alpha 1.0 install ok installed
failed alpha Declined /usr
||1
",
    ),
];

// The answer to the upgrade, one step of which is declined, if there are so many; and what is left that isn't as before.
fn upgraded_but(
    alloc: Global,
    before: usize,
    path: &str,
) -> Result<Option<(String, String)>, AllocError> {
    let mut machine = make_machine(alloc, FILES, TREES, &[])?;
    machine.plan(Break::Decline(before))?;
    let answer = machine.answer(UPGRADE)?;
    let mut text = String::new(alloc);
    if told_declined(answer.as_str()) == Some(path) {
        machine.judge_files(AS_BEFORE, &mut text)?;
    }
    if machine.ran(answer.as_str()).met {
        return Ok(Some((answer, text)));
    }
    Ok(None)
}

// How often the upgrade fails for a path. It answers so each time, and leaves the old files and the record.
fn count_failed(rt: &(impl Abort + AllocGlobal), path: &str, wanted: &str) -> Result<usize, Fail> {
    let mut failed: usize = 0;
    for before in 0..LIMIT {
        let Some((answer, text)) = upgraded_but(rt.alloc(), before, path)? else {
            return Ok(failed);
        };
        if told_declined(answer.as_str()) == Some(path) {
            assert_eq!(rt; answer.as_str(), wanted);
            assert!(rt; text.is_empty(), "{before}: {text}");
            failed = failed.saturating_add(1);
        }
    }
    panic!(rt; "the upgrade makes too many steps")
}

// Each file is written and moved to its place; for the second name of one that it takes the place of a copy stands in. That all
// of them go to the disk is one step, of which the package's first path is told.
#[test]
fn an_upgrade_fails_for_the_file_that_is_declined(rt: HostRuntime) -> Result<(), Fail> {
    for ((path, wanted), steps) in FAILED.iter().zip([2, 2, 1]) {
        assert_eq!(rt; count_failed(&rt, path, wanted)?, steps);
    }
    Ok(())
}
