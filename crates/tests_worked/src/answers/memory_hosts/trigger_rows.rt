// Packages with triggers, as dpkg records them: what is told of them, what they meet, and what is done with them.
use super::{TreeFile, answers, expect};
use std::test::Fail;

// What a root holds first, the lines of words, and the row: their answers and what is read.
type TriggerRow = (
    &'static [&'static str],
    &'static [&'static str],
    &'static str,
);

const CONTROL: &str = "/DEBIAN/control";

const TREES: &[TreeFile] = &[
    (
        "met",
        CONTROL,
        "Package: met\nVersion: 1\nPre-Depends: pend\n",
    ),
    (
        "unmet",
        CONTROL,
        "Package: unmet\nVersion: 1\nDepends: aw\n",
    ),
    (
        "before",
        CONTROL,
        "Package: before\nVersion: 1\nPre-Depends: aw\n",
    ),
    ("aw", CONTROL, "Package: aw\nVersion: 3\n"),
    ("pend", CONTROL, "Package: pend\nVersion: 3\n"),
    (
        "instead",
        CONTROL,
        "Package: instead\nVersion: 1\nProvides: aw\nConflicts: aw\nReplaces: aw\n",
    ),
    (
        "breaks",
        CONTROL,
        "Package: breaks\nVersion: 1\nBreaks: both (<< 9)\n",
    ),
];

// Aw was upgraded and awaits triggers, as both does, which has some too; pend has them. Up isn't configured yet.
const RECORDED: &str =
    "write /var/lib/dpkg/status Package: aw\nStatus: install ok triggers-awaited\nVersion: 2\nConfig-Version: 1\nTriggers-Awaited: pend both:amd64\nDescription: a\n\nPackage: both\nStatus: install ok triggers-awaited\nVersion: 1\nTriggers-Pending: x\nTriggers-Awaited: pend\n\nPackage: pend\nStatus: install ok triggers-pending\nVersion: 1\nTriggers-Pending: /usr/share/t  other\n\nPackage: up\nStatus: install ok unpacked\nVersion: 1\nTriggers-Awaited: pend\n";

const TOLD: TriggerRow = (
    &[RECORDED],
    &[
        "dpkg_cli list",
        "dpkg_cli audit",
        "dpkg_cli status aw",
        "dpkg_cli verify",
    ],
    "aw 2 triggers-awaited
both 1 triggers-awaited
pend 1 triggers-pending
up 1 unpacked
||0
aw triggers-awaited ok
both triggers-awaited ok
pend triggers-pending ok
up unpacked ok
||0
Package: aw
Status: install ok triggers-awaited
Version: 2
Config-Version: 1
Description: a
Triggers-Awaited: pend both:amd64
||0
cut up unpacked ok
||1
",
);

// What is pending goes with an upgrade and with a package, and is processed behind the units of others; then who awaits it ceases to.
const UNITS: TriggerRow = (
    &[RECORDED],
    &[
        "dpkg_cli configure missing aw pend up",
        "dpkg_cli list",
        "dpkg_cli unpack aw pend",
        "dpkg_cli purge both missing",
        "dpkg_cli list",
    ],
    "refused missing Unknown
refused aw WrongState
refused pend WrongState
state up 1 install ok triggers-awaited
done
state both 1 install ok triggers-awaited
done
state pend 1 install ok installed
done
state aw 2 install ok installed
done
state both 1 install ok installed
done
state up 1 install ok installed
done
||1
aw 2 installed
both 1 installed
pend 1 installed
up 1 installed
||0
state aw 3 install ok unpacked
done
state pend 3 install ok unpacked
done
||0
refused missing Unknown
state both none
done
||1
aw 3 unpacked
pend 3 unpacked
up 1 installed
||0
",
);

const TAKEN_AWAY: TriggerRow = (
    &[RECORDED],
    &[
        "dpkg_cli purge pend",
        "dpkg_cli remove --no-triggers both aw",
        "dpkg_cli list",
    ],
    "state pend none
done
state both 1 install ok triggers-awaited
done
state aw 2 install ok installed
done
state both 1 install ok installed
done
state up 1 install ok unpacked
done
||0
state aw none
done
state both none
done
||0
up 1 unpacked
||0
",
);

// Pending triggers are no hindrance to others, awaited ones are one; and the records of the others stay as they were.
const NEEDED: TriggerRow = (
    &[RECORDED],
    &[
        "dpkg_cli install --no-triggers met",
        "dpkg_cli install --no-triggers unmet",
        "dpkg_cli unpack --no-triggers before",
        "read /var/lib/dpkg/status",
    ],
    "state met 1 install ok unpacked
done
state met 1 install ok installed
done
||0
state unmet 1 install ok unpacked
done
refused unmet Depends aw
||1
refused before PreDepends aw
||1
Package: aw
Status: install ok triggers-awaited
Version: 2
Config-Version: 1
Description: a
Triggers-Awaited: pend both:amd64

Package: both
Status: install ok triggers-awaited
Version: 1
Triggers-Pending: x
Triggers-Awaited: pend

Package: met
Status: install ok installed
Version: 1
Pre-Depends: pend

Package: pend
Status: install ok triggers-pending
Version: 1
Triggers-Pending: /usr/share/t  other

Package: unmet
Status: install ok unpacked
Version: 1
Depends: aw

Package: up
Status: install ok unpacked
Version: 1
Triggers-Awaited: pend

",
);

// In favour of another it goes as an installed package does: what it had to process goes, what it awaits goes with its files.
const DISPLACED: TriggerRow = (
    &[RECORDED],
    &[
        "dpkg_cli install --no-triggers instead",
        "dpkg_cli unpack --no-triggers --auto-deconfigure breaks",
        "dpkg_cli status both",
    ],
    "state aw none
state instead 1 install ok unpacked
done
state instead 1 install ok installed
done
||0
state both 1 install ok half-configured
state breaks 1 install ok unpacked
done
||0
Package: both
Status: install ok half-configured
Version: 1
Config-Version: 1
Triggers-Awaited: pend
||0
",
);

const ROWS: &[TriggerRow] = &[TOLD, UNITS, TAKEN_AWAY, NEEDED, DISPLACED];

#[test]
fn packages_with_triggers_are_told_of(rt: HostRuntime) -> Result<(), Fail> {
    for (files, lines, row) in ROWS {
        expect(&rt, answers(rt.alloc(), TREES, &[], files, lines), row)?;
    }
    Ok(())
}

// A status file, and the line at which it is damaged: the word of a state and the triggers beside it don't agree.
const DAMAGED: &[(&str, &str)] = &[
    (
        "Package: aa\nStatus: install ok triggers-pending\nVersion: 1\n",
        "1",
    ),
    (
        "Package: aa\nStatus: install ok triggers-awaited\nVersion: 1\nTriggers-Pending: x\n",
        "1",
    ),
    (
        "Package: aa\nStatus: install ok triggers-pending\nVersion: 1\nTriggers-Pending: x\nTriggers-Awaited: b\n",
        "1",
    ),
    (
        "Package: bb\nStatus: install ok installed\nVersion: 1\n\nPackage: aa\nStatus: install ok installed\nVersion: 1\nTriggers-Pending: x\n",
        "5",
    ),
    (
        "Package: aa\nStatus: install ok installed\nVersion: 1\nTriggers-Awaited: b\n",
        "1",
    ),
    (
        "Package: aa\nStatus: install ok unpacked\nVersion: 1\nTriggers-Pending: x\n",
        "1",
    ),
    (
        "Package: aa\nStatus: deinstall ok config-files\nVersion: 1\nTriggers-Awaited: b\n",
        "1",
    ),
    (
        "Package: aa\nStatus: install ok triggers-pending\nVersion: 1\nTriggers-Pending:\n x\n",
        "4",
    ),
];

// What is told of a damaged status file behind its line.
const EXPECTED: &str =
    "expected: a field of a package's record, \"Name: value\", once and with a value that can be read; packages of one architecture";

#[test]
fn triggers_that_a_state_has_not_are_damage(rt: HostRuntime) -> Result<(), Fail> {
    let alloc = rt.alloc();
    for (status, line) in DAMAGED {
        let file = format!(in alloc; "write /var/lib/dpkg/status {status}")?;
        let row = format!(in alloc; "|damaged /var/lib/dpkg/status {line}\n{EXPECTED}\n|2\n")?;
        let told = answers(alloc, TREES, &[], &[file.as_str()], &["dpkg_cli list"]);
        expect(&rt, told, row.as_str())?;
    }
    Ok(())
}
