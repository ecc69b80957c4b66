// Alpha alone, from each state and with some of its scripts.
use super::{CONFIGURE, Command, INSTALL, MANY, PURGE, REMOVE, UNPACK, check_starts};
use crate::packages::machine::{Case, Tree};
use crate::packages::{ALL_PATHS, ALPHA};
use host_core::Outcome;
use std::process::Abort;
use std::test::Fail;

const TREE: &Tree = &Tree {
    files: &[
        ("/DEBIAN/control", "Package: alpha\nVersion: 2.0\n"),
        ("/DEBIAN/conffiles", "/etc/a.conf\n"),
        ("/etc/a.conf", "c"),
        ("/usr/bin/a", "new"),
    ],
    fields: "",
    list: ALL_PATHS,
    taken: "",
};

const CASE: Case = Case {
    alpha: ALPHA,
    others: &[],
    scripts: 255,
    tree: TREE,
    failure: (Outcome::Exit(1), "exit 1"),
    most: MANY,
};

const FAILURES: &[(Outcome, &str)] = &[
    (Outcome::Exit(1), "exit 1"),
    (Outcome::Killed, "killed"),
    (Outcome::NotStarted, "not started"),
];

const COMMANDS: &[&[Command]] = &[&[UNPACK], &[INSTALL], &[CONFIGURE], &[REMOVE], &[PURGE]];

fn check_commands(
    rt: &(impl Abort + AllocGlobal),
    failure: (Outcome, &'static str),
) -> Result<(), Fail> {
    for commands in COMMANDS {
        check_starts(rt, &Case { failure, ..CASE }, commands)?;
    }
    Ok(())
}

#[test]
fn each_command(rt: HostRuntime) -> Result<(), Fail> {
    for failure in FAILURES {
        check_commands(&rt, *failure)?;
    }
    Ok(())
}

#[test]
fn an_unpack_without_some_scripts(rt: HostRuntime) -> Result<(), Fail> {
    for scripts in 0..16 {
        let case = Case {
            scripts: 240 + scripts,
            ..CASE
        };
        check_starts(&rt, &case, &[UNPACK])?;
        let case = Case {
            scripts: 16 * scripts + 15,
            ..CASE
        };
        check_starts(&rt, &case, &[UNPACK])?;
    }
    Ok(())
}

#[test]
fn other_commands_without_some_scripts(rt: HostRuntime) -> Result<(), Fail> {
    for scripts in 0..16 {
        let case = Case { scripts, ..CASE };
        check_starts(&rt, &case, &[CONFIGURE])?;
        check_starts(&rt, &case, &[REMOVE])?;
        check_starts(&rt, &case, &[PURGE])?;
    }
    Ok(())
}

// What a command leaves is what the next one begins with.
#[test]
fn command_behind_command(rt: HostRuntime) -> Result<(), Fail> {
    check_starts(&rt, &CASE, &[INSTALL, PURGE])?;
    check_starts(&rt, &CASE, &[REMOVE, INSTALL])?;
    check_starts(&rt, &CASE, &[UNPACK, UNPACK])?;
    check_starts(&rt, &CASE, &[UNPACK, REMOVE, PURGE])
}
