// Triggers that commands activate: how they are noted and processed behind the units, and what is left.
use super::{TreeFile, answers, expect};
use host_core::Outcome;
use std::test::Fail;

// How calls end, the lines of words, and the row: their answers and what is read.
type ActivationRow = (&'static [Outcome], &'static [&'static str], &'static str);

const SCRIPT: &str = "#!/bin/sh\n";

const CONTROL: &str = "/DEBIAN/control";

const TRIGGERS: &str = "/DEBIAN/triggers";

const FAILS: Outcome = Outcome::Exit(1);

const SUCCEEDS: Outcome = Outcome::Exit(0);

// Ti is interested in a place and in a name, te in the name alone; ship has a file there, beside one beside it, and acts and wake the name.
// Leans is interested in another place, where hits has a file, and depends on wanted, of which next is the next version.
const TREES: &[TreeFile] = &[
    ("ti", CONTROL, "Package: ti\nVersion: 1\n"),
    (
        "ti",
        TRIGGERS,
        "# what it is for\ninterest-noawait /usr/share/x\n\n interest own\n",
    ),
    ("ti", "/DEBIAN/postinst", SCRIPT),
    ("newer", CONTROL, "Package: ti\nVersion: 2\n"),
    ("te", CONTROL, "Package: te\nVersion: 1\n"),
    ("te", TRIGGERS, "interest-noawait own\n"),
    ("ship", CONTROL, "Package: ship\nVersion: 1\n"),
    ("ship", "/usr/share/x/f", "f"),
    ("beside", CONTROL, "Package: beside\nVersion: 1\n"),
    ("beside", "/usr/share/xy/f", "f"),
    ("acts", CONTROL, "Package: acts\nVersion: 1\n"),
    ("acts", TRIGGERS, "activate-noawait own\n"),
    ("wake", CONTROL, "Package: wake\nVersion: 1\n"),
    ("wake", TRIGGERS, "activate-noawait own\n"),
    ("both", CONTROL, "Package: both\nVersion: 1\n"),
    ("both", TRIGGERS, "activate own\n"),
    ("both", "/usr/share/x/g", "g"),
    (
        "leans",
        CONTROL,
        "Package: leans\nVersion: 1\nDepends: wanted\n",
    ),
    ("leans", TRIGGERS, "interest-noawait /usr/share/y\n"),
    ("leans", "/DEBIAN/postinst", SCRIPT),
    ("wanted", CONTROL, "Package: wanted\nVersion: 1\n"),
    ("next", CONTROL, "Package: wanted\nVersion: 2\n"),
    ("hits", CONTROL, "Package: hits\nVersion: 1\n"),
    ("hits", "/usr/share/y/f", "f"),
];

// A package by itself activates nothing of its own.
const BY_FILES: ActivationRow = (
    &[],
    &[
        "dpkg_cli install ti",
        "dpkg_cli unpack ship",
        "dpkg_cli configure ship",
        "dpkg_cli install beside",
        "dpkg_cli remove ship",
        "dpkg_cli purge beside",
        "dpkg_cli status ti",
    ],
    "state ti 1 install ok unpacked
done
call old ti postinst configure \"\": exit 0
state ti 1 install ok installed
done
||0
state ship 1 install ok unpacked
done
state ti 1 install ok triggers-pending
done
call old ti postinst triggered /usr/share/x: exit 0
state ti 1 install ok installed
done
||0
state ship 1 install ok installed
done
||0
state beside 1 install ok unpacked
done
state beside 1 install ok installed
done
||0
state ship none
done
state ti 1 install ok triggers-pending
done
call old ti postinst triggered /usr/share/x: exit 0
state ti 1 install ok installed
done
||0
state beside none
done
||0
Package: ti
Status: install ok installed
Version: 1
||0
",
);

// Whoever has no postinst is done at once; where files don't count names still do.
const BY_NAME: ActivationRow = (
    &[],
    &[
        "dpkg_cli install ti te",
        "dpkg_cli unpack acts",
        "dpkg_cli configure",
        "dpkg_cli install both",
    ],
    "state ti 1 install ok unpacked
done
state te 1 install ok unpacked
done
state te 1 install ok installed
done
call old ti postinst configure \"\": exit 0
state ti 1 install ok installed
done
||0
state acts 1 install ok unpacked
done
state te 1 install ok triggers-pending
done
state ti 1 install ok triggers-pending
done
state te 1 install ok installed
done
call old ti postinst triggered own: exit 0
state ti 1 install ok installed
done
||0
state acts 1 install ok installed
done
state te 1 install ok triggers-pending
done
state ti 1 install ok triggers-pending
done
state te 1 install ok installed
done
call old ti postinst triggered own: exit 0
state ti 1 install ok installed
done
||0
state both 1 install ok unpacked
done
state both 1 install ok installed
done
state te 1 install ok triggers-pending
done
state ti 1 install ok triggers-pending
done
state te 1 install ok installed
done
call old ti postinst triggered /usr/share/x own: exit 0
state ti 1 install ok installed
done
||0
",
);

// They stay pending, grow, and are taken up later; what is asked of the package meanwhile isn't refused for them.
const LATER: ActivationRow = (
    &[],
    &[
        "dpkg_cli install ti",
        "dpkg_cli unpack --no-triggers ship",
        "dpkg_cli status ti",
        "dpkg_cli install --no-triggers both",
        "dpkg_cli status ti",
        "dpkg_cli remove --no-triggers ship",
        "dpkg_cli configure --triggers-only",
        "dpkg_cli configure --triggers-only",
        "dpkg_cli purge --no-triggers both",
        "dpkg_cli unpack newer",
        "dpkg_cli status ti",
    ],
    "state ti 1 install ok unpacked
done
call old ti postinst configure \"\": exit 0
state ti 1 install ok installed
done
||0
state ship 1 install ok unpacked
done
state ti 1 install ok triggers-pending
done
||0
Package: ti
Status: install ok triggers-pending
Version: 1
Triggers-Pending: /usr/share/x
||0
state both 1 install ok unpacked
done
state both 1 install ok installed
done
state ti 1 install ok triggers-pending
done
||0
Package: ti
Status: install ok triggers-pending
Version: 1
Triggers-Pending: /usr/share/x own
||0
state ship none
done
state ti 1 install ok triggers-pending
done
||0
call old ti postinst triggered /usr/share/x own: exit 0
state ti 1 install ok installed
done
||0
||0
state both none
done
state ti 1 install ok triggers-pending
done
||0
state ti 2 install ok unpacked
done
||0
Package: ti
Status: install ok unpacked
Version: 2
Config-Version: 1
||0
",
);

// What a unit activates counts for a package that was installed or upgraded by the same command, where its own last unit was an earlier
// one; before that it isn't interested yet.
const IN_ONE_COMMAND: ActivationRow = (
    &[],
    &[
        "dpkg_cli install ti wake",
        "dpkg_cli install acts ti",
        "dpkg_cli install ship ti",
    ],
    "state ti 1 install ok unpacked
done
state wake 1 install ok unpacked
done
call old ti postinst configure \"\": exit 0
state ti 1 install ok installed
done
state wake 1 install ok installed
done
state ti 1 install ok triggers-pending
done
call old ti postinst triggered own: exit 0
state ti 1 install ok installed
done
||0
state acts 1 install ok unpacked
done
state ti 1 install ok unpacked
done
state acts 1 install ok installed
done
call old ti postinst configure 1: exit 0
state ti 1 install ok installed
done
||0
state ship 1 install ok unpacked
done
state ti 1 install ok unpacked
done
state ship 1 install ok installed
done
call old ti postinst configure 1: exit 0
state ti 1 install ok installed
done
||0
",
);

// The package is half-configured then, and is configured as any that is.
const FAILED: ActivationRow = (
    &[SUCCEEDS, FAILS],
    &[
        "dpkg_cli install ti",
        "dpkg_cli unpack ship",
        "dpkg_cli configure ti",
    ],
    "state ti 1 install ok unpacked
done
call old ti postinst configure \"\": exit 0
state ti 1 install ok installed
done
||0
state ship 1 install ok unpacked
done
state ti 1 install ok triggers-pending
done
call old ti postinst triggered /usr/share/x: exit 1
state ti 1 install ok half-configured
failed ti postinst triggered /usr/share/x
||1
call old ti postinst configure 1: exit 0
state ti 1 install ok installed
done
||0
",
);

// What is pending is processed behind units that were refused too.
const REFUSED: ActivationRow = (
    &[],
    &[
        "dpkg_cli install ti ship",
        "dpkg_cli unpack --no-triggers both",
        "dpkg_cli configure ti",
        "dpkg_cli select both=purge",
        "dpkg_cli remove-selected --no-triggers",
        "dpkg_cli remove-selected",
    ],
    "state ti 1 install ok unpacked
done
state ship 1 install ok unpacked
done
state ship 1 install ok installed
done
call old ti postinst configure \"\": exit 0
state ti 1 install ok installed
done
||0
state both 1 install ok unpacked
done
state ti 1 install ok triggers-pending
done
||0
refused ti WrongState
call old ti postinst triggered /usr/share/x own: exit 0
state ti 1 install ok installed
done
||1
state both 1 purge ok unpacked
done
||0
state both none
done
state ti 1 install ok triggers-pending
done
||0
call old ti postinst triggered /usr/share/x own: exit 0
state ti 1 install ok installed
done
||0
",
);

// A rehearsal calls nobody, and leaves nothing pending.
const REHEARSED: ActivationRow = (
    &[],
    &[
        "dpkg_cli install ti",
        "dpkg_cli unpack --dry-run ship",
        "dpkg_cli unpack --dry-run --assume-failure ti:postinst:triggered ship",
        "dpkg_cli list",
    ],
    "state ti 1 install ok unpacked
done
call old ti postinst configure \"\": exit 0
state ti 1 install ok installed
done
||0
dry run
state ship 1 install ok unpacked
done
state ti 1 install ok triggers-pending
done
call old ti postinst triggered /usr/share/x: exit 0
state ti 1 install ok installed
done
||0
dry run
state ship 1 install ok unpacked
done
state ti 1 install ok triggers-pending
done
call old ti postinst triggered /usr/share/x: exit 1
state ti 1 install ok half-configured
failed ti postinst triggered /usr/share/x
||1
ti 1 installed
||0
",
);

// Who is interested stands in dpkg's files, once their directory is there: by the first command in which somebody is interested before it.
const INTERESTED: ActivationRow = (
    &[],
    &[
        "dpkg_cli install ti te",
        "read /var/lib/dpkg/triggers",
        "dpkg_cli unpack --no-triggers beside",
        "read /var/lib/dpkg/triggers/File",
        "read /var/lib/dpkg/triggers/own",
        "write /var/lib/dpkg/triggers/own ti\nte/noawait\n",
        "write /var/lib/dpkg/triggers/other ti\n",
        "write /var/lib/dpkg/triggers/Other ti\n",
        "dpkg_cli configure beside",
        "read /var/lib/dpkg/triggers/own",
        "read /var/lib/dpkg/triggers/other",
        "read /var/lib/dpkg/triggers/Other",
        "dpkg_cli purge te",
        "read /var/lib/dpkg/triggers/own",
        "dpkg_cli unpack newer",
        "read /var/lib/dpkg/triggers/File",
        "read /var/lib/dpkg/triggers/own",
    ],
    "state ti 1 install ok unpacked
done
state te 1 install ok unpacked
done
state te 1 install ok installed
done
call old ti postinst configure \"\": exit 0
state ti 1 install ok installed
done
||0

state beside 1 install ok unpacked
done
||0
/usr/share/x ti/noawait

te/noawait
ti

state beside 1 install ok installed
done
||0
ti
te/noawait


ti

state te none
done
||0
ti

state ti 2 install ok unpacked
done
||0


",
);

// A package whose Depends aren't met isn't called, and its triggers stay pending until they are.
const WAITING: ActivationRow = (
    &[],
    &[
        "dpkg_cli install wanted leans",
        "dpkg_cli unpack next",
        "dpkg_cli unpack hits",
        "dpkg_cli status leans",
        "dpkg_cli configure --triggers-only",
        "dpkg_cli configure wanted",
    ],
    "state wanted 1 install ok unpacked
done
state leans 1 install ok unpacked
done
state wanted 1 install ok installed
done
call old leans postinst configure \"\": exit 0
state leans 1 install ok installed
done
||0
state wanted 2 install ok unpacked
done
||0
state hits 1 install ok unpacked
done
state leans 1 install ok triggers-pending
done
state leans 1 install ok triggers-pending
done
||0
Package: leans
Status: install ok triggers-pending
Version: 1
Depends: wanted
Triggers-Pending: /usr/share/y
||0
state leans 1 install ok triggers-pending
done
||0
state wanted 2 install ok installed
done
call old leans postinst triggered /usr/share/y: exit 0
state leans 1 install ok installed
done
||0
",
);

const ROWS: &[ActivationRow] = &[
    BY_FILES,
    BY_NAME,
    LATER,
    IN_ONE_COMMAND,
    FAILED,
    REFUSED,
    REHEARSED,
    INTERESTED,
    WAITING,
];

#[test]
fn triggers_are_noted_and_processed(rt: HostRuntime) -> Result<(), Fail> {
    for (outcomes, lines, row) in ROWS {
        expect(&rt, answers(rt.alloc(), TREES, outcomes, &[], lines), row)?;
    }
    Ok(())
}
