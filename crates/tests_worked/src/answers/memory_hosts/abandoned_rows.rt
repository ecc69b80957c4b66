// How many units may fail (`--abort-after N`): the answers, and what is left.
use super::{TreeFile, answers, expect};
use host_core::Outcome;
use std::test::Fail;

// What a root holds first, how calls end, the lines of words, and the row: their answers.
type AbandonedRow = (
    &'static [&'static str],
    &'static [Outcome],
    &'static [&'static str],
    &'static str,
);

const SCRIPT: &str = "#!/bin/sh\n";

const CONTROL: &str = "/DEBIAN/control";

const FAILS: Outcome = Outcome::Exit(1);

const SUCCEEDS: Outcome = Outcome::Exit(0);

const TREES: &[TreeFile] = &[
    ("aa", CONTROL, "Package: aa\nVersion: 1\n"),
    ("aa", "/DEBIAN/preinst", SCRIPT),
    ("bb", CONTROL, "Package: bb\nVersion: 1\n"),
    ("bb", "/DEBIAN/preinst", SCRIPT),
    ("cc", CONTROL, "Package: cc\nVersion: 1\n"),
    (
        "lacks",
        CONTROL,
        "Package: lacks\nVersion: 1\nPre-Depends: nobody\n",
    ),
];

// The first that fails is the last that is begun, of 0 as of 1.
const FIRST_FAILS: AbandonedRow = (
    &[],
    &[FAILS, FAILS],
    &[
        "dpkg_cli unpack --abort-after 1 aa bb cc",
        "dpkg_cli unpack --abort-after 0 bb cc",
        "dpkg_cli configure",
        "dpkg_cli list",
    ],
    "call new aa preinst install: exit 1
state aa none
failed aa preinst install
broken abandoned
||1
call new bb preinst install: exit 1
state bb none
failed bb preinst install
broken abandoned
||1
||0
||0
",
);

// A package that a rule refuses counts; one that is done doesn't.
const REFUSED: AbandonedRow = (
    &[],
    &[SUCCEEDS, FAILS],
    &[
        "dpkg_cli unpack --abort-after 2 lacks aa bb cc",
        "dpkg_cli configure",
        "dpkg_cli list",
    ],
    "refused lacks PreDepends nobody
call new aa preinst install: exit 0
state aa 1 install ok unpacked
done
call new bb preinst install: exit 1
state bb none
failed bb preinst install
broken abandoned
||1
state aa 1 install ok installed
done
||0
aa 1 installed
||0
",
);

// Where fewer fail, or nothing is left to begin, nothing is abandoned.
const ENOUGH: AbandonedRow = (
    &[],
    &[FAILS, FAILS],
    &[
        "dpkg_cli unpack --abort-after 2 aa cc",
        "dpkg_cli unpack --abort-after 1 bb",
        "dpkg_cli list",
    ],
    "call new aa preinst install: exit 1
state aa none
failed aa preinst install
state cc 1 install ok unpacked
done
||1
call new bb preinst install: exit 1
state bb none
failed bb preinst install
||1
cc 1 unpacked
||0
",
);

// Behind abandoned unpacks of an install nothing is configured, and the next command takes that up.
const INSTALL: AbandonedRow = (
    &[],
    &[FAILS],
    &[
        "dpkg_cli install --abort-after 1 --as-given cc aa bb",
        "dpkg_cli configure",
        "dpkg_cli list",
    ],
    "state cc 1 install ok unpacked
done
call new aa preinst install: exit 1
state aa none
failed aa preinst install
broken abandoned
||1
state cc 1 install ok installed
done
||0
cc 1 installed
||0
",
);

// What a rule refuses before anything is done is told all the same.
const REFUSED_FIRST: AbandonedRow = (
    &["write /var/lib/dpkg/status Package: cc\nStatus: install ok unpacked\nVersion: 1\n"],
    &[],
    &[
        "dpkg_cli configure --abort-after 1 nobody noone cc",
        "dpkg_cli configure",
        "dpkg_cli list",
    ],
    "refused nobody Unknown
refused noone Unknown
broken abandoned
||1
state cc 1 install ok installed
done
||0
cc 1 installed
||0
",
);

const ROWS: &[AbandonedRow] = &[FIRST_FAILS, REFUSED, ENOUGH, INSTALL, REFUSED_FIRST];

#[test]
fn units_are_abandoned(rt: HostRuntime) -> Result<(), Fail> {
    for (files, outcomes, lines, row) in ROWS {
        expect(&rt, answers(rt.alloc(), TREES, outcomes, files, lines), row)?;
    }
    Ok(())
}
