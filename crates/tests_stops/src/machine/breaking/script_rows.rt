// Unpacks of a package that isn't installed and has scripts alone, broken off.
use super::{
    ALONE, Found, Row, STATUS, fail_at_each_read, fail_at_each_step, lose_at_each_step,
    stop_at_each_step,
};
use crate::machine::TreeFile;
use host_core::Outcome;
use host_memory::Ending;
use std::test::Fail;

const TREES: &[TreeFile] = &[
    ("t", "/DEBIAN/control", "Package: alpha\nVersion: 1.0\n"),
    ("t", "/DEBIAN/preinst", "#!/bin/sh\n"),
    ("t", "/DEBIAN/postrm", "#!/bin/sh\n"),
];

const LINE: &str = "dpkg_cli unpack t";

const HALF: &str = "Package: alpha\nStatus: install reinstreq half-installed\nVersion: 1.0\n";

const UNPACKED: &str = "Package: alpha\nStatus: install ok unpacked\nVersion: 1.0\n";

const LIST: Found = ("/var/lib/dpkg/info/alpha.list", &["", "/.\n"]);

const PREINST: Found = ("/var/lib/dpkg/info/alpha.preinst", &["", "#!/bin/sh\n"]);

const CI: Found = ("/var/lib/dpkg/tmp.ci", &[""]);

// The package was never there, or is half-installed.
const ABORTED: &[Found] = &[(STATUS, &["", HALF]), LIST, PREINST, CI];

const DONE: &[Found] = &[(STATUS, &["", HALF, UNPACKED]), LIST, PREINST, CI];

const HALF_INSTALLED: &[Found] = &[(STATUS, &[HALF]), LIST, PREINST, CI];

const FAILED: Ending = Ending::Ended(Outcome::Exit(1));

const SUCCEEDS: Row = Row {
    files: &[],
    trees: TREES,
    endings: &[],
    line: LINE,
    found: DONE,
    moments: &[],
    left: &[(STATUS, &[UNPACKED]), LIST, PREINST, CI],
    again: ALONE,
};

const FAILS: Row = Row {
    files: &[],
    trees: TREES,
    endings: &[FAILED],
    line: LINE,
    found: ABORTED,
    moments: &[],
    left: &[(STATUS, &[""]), LIST, PREINST, CI],
    again: ALONE,
};

// The device fails while the script runs.
const CUT_OFF: Row = Row {
    files: &[],
    trees: TREES,
    endings: &[Ending::CutOff],
    line: LINE,
    found: ABORTED,
    moments: &[],
    left: HALF_INSTALLED,
    again: ALONE,
};

const UNDO_FAILS: Row = Row {
    files: &[],
    trees: TREES,
    endings: &[FAILED, Ending::Ended(Outcome::Killed)],
    line: LINE,
    found: ABORTED,
    moments: &[],
    left: HALF_INSTALLED,
    again: ALONE,
};

const ROWS: &[Row] = &[SUCCEEDS, FAILS, CUT_OFF, UNDO_FAILS];

#[test]
fn stops(rt: HostRuntime) -> Result<(), Fail> {
    for row in ROWS {
        stop_at_each_step(&rt, row)?;
    }
    Ok(())
}

#[test]
fn faults(rt: HostRuntime) -> Result<(), Fail> {
    for row in ROWS {
        fail_at_each_step(&rt, row)?;
        fail_at_each_read(&rt, row)?;
    }
    Ok(())
}

#[test]
fn losses_within_a_success(rt: HostRuntime) -> Result<(), Fail> {
    lose_at_each_step(&rt, &SUCCEEDS)
}

#[test]
fn losses_within_an_undoing(rt: HostRuntime) -> Result<(), Fail> {
    lose_at_each_step(&rt, &FAILS)
}

#[test]
fn losses_where_the_undoing_fails(rt: HostRuntime) -> Result<(), Fail> {
    lose_at_each_step(&rt, &UNDO_FAILS)
}

#[test]
fn losses_where_a_script_is_cut_off(rt: HostRuntime) -> Result<(), Fail> {
    lose_at_each_step(&rt, &CUT_OFF)
}
