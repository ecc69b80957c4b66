// What is wanted of packages is recorded, told and carried out: the answers, and what is left.
use super::{TreeFile, answers, expect};
use std::test::Fail;

// What a root holds first, the lines of words, and the row: their answers and what is read.
type SelectionRow = (
    &'static [&'static str],
    &'static [&'static str],
    &'static str,
);

const TREES: &[TreeFile] = &[("newer", "/DEBIAN/control", "Package: alpha\nVersion: 2\n")];

// Nothing is known to be wanted of charlie.
const INSTALLED: &str =
    "write /var/lib/dpkg/status Package: bravo\nStatus: install ok installed\nVersion: 1\n\nPackage: charlie\nStatus: unknown ok installed\nVersion: 1\n\nPackage: alpha\nStatus: install ok installed\nVersion: 1\n";

const SELECTED: SelectionRow = (
    &[INSTALLED],
    &[
        "dpkg_cli selections",
        "dpkg_cli select bravo=purge nobody=install alpha=hold",
        "dpkg_cli selections",
        "dpkg_cli status alpha",
        "dpkg_cli select alpha=hold charlie=deinstall",
        "dpkg_cli unpack newer",
        "dpkg_cli selections",
    ],
    "alpha\t\t\t\t\t\tinstall
bravo\t\t\t\t\t\tinstall
||0
state bravo 1 purge ok installed
done
refused nobody Unknown
state alpha 1 hold ok installed
done
||1
alpha\t\t\t\t\t\thold
bravo\t\t\t\t\t\tpurge
||0
Package: alpha
Status: hold ok installed
Version: 1
||0
state alpha 1 hold ok installed
done
state charlie 1 deinstall ok installed
done
||0
state alpha 2 install ok unpacked
done
||0
alpha\t\t\t\t\t\tinstall
bravo\t\t\t\t\t\tpurge
charlie\t\t\t\t\t\tdeinstall
||0
",
);

// Packages are told once and in the order of their names, whatever the patterns; one that matches none is told first.
const MATCHED: SelectionRow = (
    &[INSTALLED],
    &[
        "dpkg_cli selections bravo *a* ?lpha",
        "dpkg_cli list x* ravo brav? \\alpha *",
        "dpkg_cli list c*e",
        "dpkg_cli selections c*e",
    ],
    "alpha\t\t\t\t\t\tinstall
bravo\t\t\t\t\t\tinstall
||0
refused x* Unknown
refused ravo Unknown
alpha 1 installed
bravo 1 installed
charlie 1 installed
||1
charlie 1 installed
||0
||0
",
);

// Names of 7, 8, 39, 40 and 48 bytes, as dpkg prints them.
const COLUMNS: SelectionRow = (
    &[
        "write /var/lib/dpkg/status Package: nnnnnnn\nStatus: hold ok installed\nVersion: 1\n\nPackage: nnnnnnnn\nStatus: hold ok installed\nVersion: 1\n\nPackage: nnnnnnnnnnnnnnnnnnnnnnnnnnnnnnnnnnnnnnn\nStatus: hold ok installed\nVersion: 1\n\nPackage: nnnnnnnnnnnnnnnnnnnnnnnnnnnnnnnnnnnnnnnn\nStatus: hold ok installed\nVersion: 1\n\nPackage: nnnnnnnnnnnnnnnnnnnnnnnnnnnnnnnnnnnnnnnnnnnnnnnn\nStatus: hold ok installed\nVersion: 1\n",
    ],
    &["dpkg_cli selections"],
    "nnnnnnn\t\t\t\t\t\thold
nnnnnnnn\t\t\t\t\thold
nnnnnnnnnnnnnnnnnnnnnnnnnnnnnnnnnnnnnnn\t\thold
nnnnnnnnnnnnnnnnnnnnnnnnnnnnnnnnnnnnnnnn\thold
nnnnnnnnnnnnnnnnnnnnnnnnnnnnnnnnnnnnnnnnnnnnnnnn\thold
||0
",
);

const WITH_TRIGGERS: SelectionRow = (
    &[
        "write /var/lib/dpkg/status Package: pend\nStatus: install ok triggers-pending\nVersion: 1\nTriggers-Pending: x\n",
    ],
    &["dpkg_cli select pend=hold", "dpkg_cli status pend"],
    "state pend 1 hold ok triggers-pending
done
||0
Package: pend
Status: hold ok triggers-pending
Version: 1
Triggers-Pending: x
||0
",
);

// A rehearsal records nothing.
const REHEARSED: SelectionRow = (
    &[INSTALLED],
    &[
        "dpkg_cli select --dry-run alpha=purge",
        "dpkg_cli selections",
    ],
    "dry run
state alpha 1 purge ok installed
done
||0
alpha\t\t\t\t\t\tinstall
bravo\t\t\t\t\t\tinstall
||0
",
);

// Zulu, which depends on mike, is to go but for its conffile, and mike with all; only juliett's conffile is left.
const GOING: &[&str] = &[
    "write /var/lib/dpkg/status Package: juliett\nStatus: deinstall ok config-files\nVersion: 1\nConfig-Version: 1\nConffiles:\n /etc/j.conf 0cc175b9c0f1b6a831c399e269772661\n\nPackage: mike\nStatus: purge ok installed\nVersion: 1\n\nPackage: november\nStatus: hold ok installed\nVersion: 1\n\nPackage: zulu\nStatus: deinstall ok installed\nVersion: 1\nDepends: mike\nConffiles:\n /etc/z.conf 0cc175b9c0f1b6a831c399e269772661\n",
    "write /var/lib/dpkg/info/juliett.list /.\n/etc\n/etc/j.conf\n",
    "write /var/lib/dpkg/info/mike.list /.\n/opt\n/opt/m\n",
    "write /var/lib/dpkg/info/mike.prerm #!/bin/sh\n",
    "write /var/lib/dpkg/info/mike.postrm #!/bin/sh\n",
    "write /var/lib/dpkg/info/zulu.list /.\n/etc\n/etc/z.conf\n/opt\n/opt/z\n",
    "write /var/lib/dpkg/info/zulu.postrm #!/bin/sh\n",
    "write /etc/j.conf a",
    "write /etc/z.conf a",
    "write /opt/m m",
    "write /opt/z z",
];

const CARRIED_OUT: SelectionRow = (
    GOING,
    &[
        "dpkg_cli remove-selected",
        "read /etc",
        "read /",
        "dpkg_cli selections",
        "dpkg_cli remove-selected",
        "dpkg_cli select juliett=purge",
        "dpkg_cli remove-selected",
        "read /etc",
        "dpkg_cli selections",
    ],
    "call old zulu postrm remove: exit 0
state zulu 1 deinstall ok config-files
done
call old mike prerm remove: exit 0
call old mike postrm remove: exit 0
call old mike postrm purge: exit 0
state mike none
done
||0
directory: j.conf z.conf
directory: etc var
juliett\t\t\t\t\t\tdeinstall
november\t\t\t\t\thold
zulu\t\t\t\t\t\tdeinstall
||0
||0
state juliett 1 purge ok config-files
done
||0
state juliett none
done
||0
directory: z.conf
november\t\t\t\t\thold
zulu\t\t\t\t\t\tdeinstall
||0
",
);

// What another package needs stays, and is still wanted away.
const NEEDED: SelectionRow = (
    &[
        "write /var/lib/dpkg/status Package: echo\nStatus: install ok installed\nVersion: 1\nDepends: gamma\n\nPackage: gamma\nStatus: install ok installed\nVersion: 1\n",
    ],
    &[
        "dpkg_cli select gamma=purge",
        "dpkg_cli remove-selected",
        "dpkg_cli selections",
    ],
    "state gamma 1 purge ok installed
done
||0
refused gamma DependedOn echo
||1
echo\t\t\t\t\t\tinstall
gamma\t\t\t\t\t\tpurge
||0
",
);

const ROWS: &[SelectionRow] = &[
    SELECTED,
    MATCHED,
    COLUMNS,
    WITH_TRIGGERS,
    REHEARSED,
    CARRIED_OUT,
    NEEDED,
];

#[test]
fn packages_are_selected(rt: HostRuntime) -> Result<(), Fail> {
    for (files, lines, row) in ROWS {
        expect(&rt, answers(rt.alloc(), TREES, &[], files, lines), row)?;
    }
    Ok(())
}
