// Alpha among packages that its version 2.0 breaks, is in conflict with, or takes over.
use super::{INSTALL, MANY, PURGE, check_starts};
use crate::packages::machine::{Case, Tree};
use crate::packages::{ALL_PATHS, ALPHA, BRAVO, Package};
use host_core::Outcome;
use std::test::Fail;

const BREAKING: &Tree = &Tree {
    files: &[
        (
            "/DEBIAN/control",
            "Package: alpha\nVersion: 2.0\nBreaks: bravo\n",
        ),
        ("/DEBIAN/conffiles", "/etc/a.conf\n"),
        ("/etc/a.conf", "c"),
        ("/usr/bin/a", "new"),
    ],
    fields: "Breaks: bravo\n",
    list: ALL_PATHS,
    taken: "",
};

const WITH_BRAVO: Case = Case {
    alpha: ALPHA,
    others: &[BRAVO],
    scripts: 255,
    tree: BREAKING,
    failure: (Outcome::Exit(1), "exit 1"),
    most: MANY,
};

#[test]
fn a_package_is_broken(rt: HostRuntime) -> Result<(), Fail> {
    check_starts(&rt, &WITH_BRAVO, &[INSTALL, PURGE])
}

const DELTA: Package = Package {
    name: "delta",
    ..BRAVO
};

const ECHO: Package = Package {
    name: "echo",
    fields: "Depends: delta\n",
    ..BRAVO
};

const GAMMA: Package = Package {
    name: "gamma",
    list: "/.\n/opt\n/opt/g\n",
    place: "/opt/g",
    file: "g",
    ..BRAVO
};

const TAKING: &Tree = &Tree {
    files: &[
        (
            "/DEBIAN/control",
            "Package: alpha\nVersion: 2.0\nBreaks: bravo\nConflicts: delta\nReplaces: delta, gamma\n",
        ),
        ("/DEBIAN/conffiles", "/etc/a.conf\n"),
        ("/etc/a.conf", "c"),
        ("/opt/g", "taken"),
        ("/usr/bin/a", "new"),
    ],
    fields: "Replaces: delta, gamma\nBreaks: bravo\nConflicts: delta\n",
    list: "/.\n/etc\n/etc/a.conf\n/opt\n/opt/g\n/usr\n/usr/bin\n/usr/bin/a\n",
    taken: "taken",
};

const WITH_ALL: Case = Case {
    others: &[BRAVO, DELTA, ECHO, GAMMA],
    tree: TAKING,
    ..WITH_BRAVO
};

#[test]
fn packages_are_broken_removed_and_taken_over(rt: HostRuntime) -> Result<(), Fail> {
    check_starts(&rt, &WITH_ALL, &[INSTALL, PURGE])
}
