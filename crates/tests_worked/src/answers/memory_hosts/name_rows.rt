// Names with an architecture in `info/`, as dpkg has them for packages of which several may be installed: the answers, and what is
// left in the directory.
use super::{TreeFile, answers, expect};
use std::test::Fail;

// What a root holds first, the lines of words, and the row: their answers and what is read.
type NameRow = (
    &'static [&'static str],
    &'static [&'static str],
    &'static str,
);

const TREES: &[TreeFile] = &[(
    "next",
    "/DEBIAN/control",
    "Package: alpha\nVersion: 2\nArchitecture: amd64\nMulti-Arch: same\n",
)];

const RECORDS: &str =
    "write /var/lib/dpkg/status Package: alpha\nStatus: install ok installed\nVersion: 1\nArchitecture: amd64\nMulti-Arch: same\n\nPackage: bravo\nStatus: install ok installed\nVersion: 1\nArchitecture: amd64\n";

const FORMAT: &str = "write /var/lib/dpkg/info/format 1\n";

const LONG: &str = "write /var/lib/dpkg/info/alpha:amd64.list /.\n/opt\n/opt/a\n";

const SHORT: &str = "write /var/lib/dpkg/info/alpha.list /.\n/opt\n/opt/a\n";

const OTHER: &str = "write /var/lib/dpkg/info/alpha.list /.\n/opt\n";

const SCRIPT: &str = "write /var/lib/dpkg/info/alpha:amd64.postrm #!/bin/sh\n";

const SUMS: &str =
    "write /var/lib/dpkg/info/alpha:amd64.md5sums 00000000000000000000000000000000  opt/a\n";

const OF_BRAVO: &str = "write /var/lib/dpkg/info/bravo.list /.\n/opt\n/opt/b\n";

const FILE: &str = "write /opt/a a";

const READ: &str = "read /var/lib/dpkg/info";

const CONFIGURE: &str = "dpkg_cli configure";

// A question reads either name. A command brings each to that without the architecture.
const BROUGHT: NameRow = (
    &[RECORDS, FORMAT, LONG, SCRIPT, OF_BRAVO, FILE],
    &[
        "dpkg_cli search /opt/a",
        CONFIGURE,
        READ,
        "dpkg_cli search /opt/a",
        "dpkg_cli purge alpha",
        READ,
        "read /opt",
    ],
    "alpha: /opt/a
||0
||0
directory: alpha.list alpha.postrm bravo.list
alpha: /opt/a
||0
call old alpha postrm remove: exit 0
call old alpha postrm purge: exit 0
state alpha none
done
||0
directory: bravo.list
directory:
",
);

// Questions see what a command would make of the names, and change nothing.
const ASKED: NameRow = (
    &[RECORDS, FORMAT, LONG, SUMS, SCRIPT, OF_BRAVO, FILE],
    &[
        "dpkg_cli listfiles alpha",
        "dpkg_cli listfiles bravo",
        "dpkg_cli search /opt/a",
        "dpkg_cli audit",
        "dpkg_cli verify",
        READ,
    ],
    "/.
/opt
/opt/a
||0
/.
/opt
/opt/b
||0
alpha: /opt/a
||0
||0
bytes /opt/a alpha
missing /opt/b bravo
||1
directory: alpha:amd64.list alpha:amd64.md5sums alpha:amd64.postrm bravo.list format
",
);

// Where both names stand, and without the format.
const ASKED_BESIDE: NameRow = (
    &[RECORDS, FORMAT, LONG, SHORT, OF_BRAVO],
    &["dpkg_cli search /opt/a", READ],
    "alpha: /opt/a
||0
directory: alpha.list alpha:amd64.list bravo.list format
",
);

const ASKED_LEFT: NameRow = (
    &[RECORDS, LONG, SHORT],
    &["dpkg_cli listfiles alpha", READ],
    "/.
/opt
/opt/a
||0
directory: alpha.list alpha:amd64.list
",
);

// What a command is refused for.
const ASKED_CLASH: NameRow = (
    &[RECORDS, FORMAT, LONG, OTHER],
    &[
        "dpkg_cli search /opt/a",
        "dpkg_cli verify",
        "dpkg_cli list",
        READ,
    ],
    "|damaged /var/lib/dpkg/info/alpha:amd64.list 0
expected: a file of a package whose name has no architecture
|2
|damaged /var/lib/dpkg/info/alpha:amd64.list 0
expected: a file of a package whose name has no architecture
|2
alpha 1 installed
bravo 1 installed
||0
directory: alpha.list alpha:amd64.list format
",
);

const ASKED_OTHER: NameRow = (
    &[RECORDS, LONG, OTHER],
    &["dpkg_cli listfiles alpha", "dpkg_cli audit", READ],
    "|damaged /var/lib/dpkg/info/alpha:amd64.list 0
expected: a file of a package whose name has no architecture
|2
|damaged /var/lib/dpkg/info/alpha:amd64.list 0
expected: a file of a package whose name has no architecture
|2
directory: alpha.list alpha:amd64.list
",
);

const ASKED_UNKNOWN: NameRow = (
    &[RECORDS, "write /var/lib/dpkg/info/format 2\n", LONG],
    &["dpkg_cli audit", READ],
    "|damaged /var/lib/dpkg/info/format 0
expected: a file of a package whose name has no architecture
|2
directory: alpha:amd64.list format
",
);

// What an opening left that was stopped, before `format` went and behind that.
const GIVEN: NameRow = (
    &[RECORDS, FORMAT, LONG, SHORT, SCRIPT],
    &[CONFIGURE, READ],
    "||0
directory: alpha.list alpha.postrm
",
);

const LEFT_BESIDE: NameRow = (
    &[RECORDS, LONG, SHORT],
    &[
        "dpkg_cli unpack next",
        READ,
        "read /var/lib/dpkg/info/alpha.list",
    ],
    "state alpha 2 install ok unpacked
done
||0
directory: alpha.list
/.

",
);

// Another file there, as where somebody wrote it behind that.
const OTHER_LEFT: NameRow = (
    &[RECORDS, LONG, OTHER, SCRIPT],
    &["dpkg_cli unpack next", READ],
    "|damaged /var/lib/dpkg/info/alpha:amd64.list 0
expected: a file of a package whose name has no architecture
|2
directory: alpha.list alpha:amd64.list alpha:amd64.postrm
",
);

// Another file at the name without the architecture, and formats that aren't known.
const CLASH: NameRow = (
    &[RECORDS, FORMAT, LONG, OTHER, SCRIPT],
    &[CONFIGURE, READ],
    "|damaged /var/lib/dpkg/info/alpha:amd64.list 0
expected: a file of a package whose name has no architecture
|2
directory: alpha.list alpha:amd64.list alpha:amd64.postrm format
",
);

const UNKNOWN: NameRow = (
    &[RECORDS, "write /var/lib/dpkg/info/format 2\n", LONG],
    &[CONFIGURE, READ],
    "|damaged /var/lib/dpkg/info/format 0
expected: a file of a package whose name has no architecture
|2
directory: alpha:amd64.list format
",
);

const UNKNOWN_WITHOUT: NameRow = (
    &[RECORDS, "write /var/lib/dpkg/info/format 2\n", SHORT],
    &[CONFIGURE, READ],
    "||0
directory: alpha.list format
",
);

// Names that are nobody's list are left alone: of a package without a record, and of another architecture than the record's.
const OF_NOBODY: NameRow = (
    &[
        RECORDS,
        FORMAT,
        "write /var/lib/dpkg/info/gone:amd64.list no list\n",
    ],
    &[CONFIGURE, "dpkg_cli search /opt/a", READ],
    "||0
||1
directory: gone:amd64.list
",
);

const OF_ANOTHER: NameRow = (
    &[
        RECORDS,
        FORMAT,
        "write /var/lib/dpkg/info/alpha:arm64.list /.\n",
    ],
    &[CONFIGURE, "dpkg_cli unpack next", READ],
    "||0
state alpha 2 install ok unpacked
done
||0
directory: alpha.list alpha:arm64.list
",
);

// In format 0 dpkg doesn't read one that stands alone, and it stays: beside what its package gets later it is damage.
const ALONE: NameRow = (
    &[RECORDS, LONG],
    &[
        "dpkg_cli search /opt/a",
        CONFIGURE,
        READ,
        "dpkg_cli unpack next",
        CONFIGURE,
    ],
    "||1
||0
directory: alpha:amd64.list
state alpha 2 install ok unpacked
done
||0
|damaged /var/lib/dpkg/info/alpha:amd64.list 0
expected: a file of a package whose name has no architecture
|2
",
);

// A directory is damage at any name.
const DIRECTORY: NameRow = (
    &[RECORDS, "write /var/lib/dpkg/info/gone:amd64.list/a a"],
    &[CONFIGURE],
    "|damaged /var/lib/dpkg/info/gone:amd64.list 0
expected: a file of a package whose name has no architecture
|2
",
);

const ROWS: &[NameRow] = &[
    BROUGHT,
    ASKED,
    ASKED_BESIDE,
    ASKED_LEFT,
    ASKED_CLASH,
    ASKED_OTHER,
    ASKED_UNKNOWN,
    GIVEN,
    LEFT_BESIDE,
    OTHER_LEFT,
    CLASH,
    UNKNOWN,
    UNKNOWN_WITHOUT,
    OF_NOBODY,
    OF_ANOTHER,
    ALONE,
    DIRECTORY,
];

#[test]
fn names_with_an_architecture_are_brought_to_those_without(rt: HostRuntime) -> Result<(), Fail> {
    for (files, lines, row) in ROWS {
        expect(&rt, answers(rt.alloc(), TREES, &[], files, lines), row)?;
    }
    Ok(())
}
