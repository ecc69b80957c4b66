// Packages of a root have one architecture (Policy 5.6.8), and relations may name one (7.1): the answers, and what is left.
use super::{TreeFile, answers, expect};
use std::test::Fail;

// What a root holds first, the lines of words, and the row: their answers.
type ArchitectureRow = (
    &'static [&'static str],
    &'static [&'static str],
    &'static str,
);

const CONTROL: &str = "/DEBIAN/control";

// Trees that are named by what they state.
const TREES: &[TreeFile] = &[
    (
        "amd64",
        CONTROL,
        "Package: alpha\nVersion: 2.0\nArchitecture: amd64\n",
    ),
    (
        "arm64",
        CONTROL,
        "Package: alpha\nVersion: 2.0\nArchitecture: arm64\n",
    ),
    (
        "all",
        CONTROL,
        "Package: alpha\nVersion: 2.0\nArchitecture: all\n",
    ),
    ("none", CONTROL, "Package: alpha\nVersion: 2.0\n"),
    (
        "conflicts-here",
        CONTROL,
        "Package: alpha\nVersion: 2.0\nArchitecture: amd64\nConflicts: delta:amd64\n",
    ),
    (
        "conflicts-there",
        CONTROL,
        "Package: alpha\nVersion: 2.0\nArchitecture: amd64\nConflicts: delta:i386, libc6-i386:x32\n",
    ),
    (
        "depends-here",
        CONTROL,
        "Package: alpha\nVersion: 2.0\nArchitecture: all\nDepends: delta:amd64, delta:any, common:amd64 (>= 1)\n",
    ),
    (
        "depends-there",
        CONTROL,
        "Package: alpha\nVersion: 2.0\nArchitecture: all\nDepends: delta, common:i386 (>= 1)\n",
    ),
];

// As dpkg writes it, with a relation to another architecture.
const STATUS: &str =
    "write /var/lib/dpkg/status Package: common\nStatus: install ok installed\nArchitecture: all\nVersion: 1\n\nPackage: delta\nStatus: install ok installed\nArchitecture: amd64\nMulti-Arch: same\nVersion: 1\nConflicts: libc6-i386:x32\n";

const OLD: &str =
    "write /var/lib/dpkg/status Package: alpha\nStatus: install ok installed\nArchitecture: amd64\nVersion: 1\n";

const COMMON: &str =
    "write /var/lib/dpkg/status Package: common\nStatus: install ok installed\nArchitecture: all\nVersion: 1\n";

const DONE: &str = "state alpha 2.0 install ok unpacked
done
||0
";

// A tree of another architecture than the root's is refused, also where the package is recorded.
const FOREIGN: &str = "refused alpha Architecture arm64
||1
";

const FIRST_SETS_IT: &str = "state alpha 2.0 install ok unpacked
done
||0
refused alpha Architecture arm64
||1
";

const CONFLICTS: &str = "refused alpha Conflicts delta
||1
";

const CONFIGURED: &str = "state alpha 2.0 install ok unpacked
done
||0
state alpha 2.0 install ok installed
done
||0
";

const UNMET: &str = "state alpha 2.0 install ok unpacked
done
||0
refused alpha Depends common:i386 (>= 1)
||1
";

// A root of packages of two architectures, as it stands and by a note.
const OF_TWO: &str =
    "write /var/lib/dpkg/status Package: common\nStatus: install ok installed\nArchitecture: all\nVersion: 1\n\nPackage: delta\nStatus: install ok installed\nArchitecture: amd64\nVersion: 1\n\nPackage: echo\nStatus: deinstall ok config-files\nArchitecture: i386\nVersion: 1\n\nPackage: foxtrot\nStatus: install ok unpacked\nArchitecture: amd64\nVersion: 1\n";

const NOTED: &str =
    "write /var/lib/dpkg/updates/0000 Package: echo\nStatus: install ok installed\nArchitecture: i386\nVersion: 2\n";

const COMMON_LIST: &str = "write /var/lib/dpkg/info/common.list /.\n";

const DELTA_LIST: &str = "write /var/lib/dpkg/info/delta.list /.\n";

const FOXTROT_LIST: &str = "write /var/lib/dpkg/info/foxtrot.list /.\n";

const IS_OF_TWO: &str = "|damaged /var/lib/dpkg/status 11
expected: a field of a package's record, \"Name: value\", once and with a value that can be read; packages of one architecture
|2
echo config-files ok
foxtrot unpacked ok
||0
common 1 installed
delta 1 installed
echo 1 config-files
foxtrot 1 unpacked
||0
";

const IS_OF_TWO_BY_A_NOTE: &str = "echo installed ok
||0
directory: 0000
|damaged /var/lib/dpkg/status 13
expected: a field of a package's record, \"Name: value\", once and with a value that can be read; packages of one architecture
|2
directory:
";

const ROWS: &[ArchitectureRow] = &[
    (
        &[OF_TWO, COMMON_LIST, DELTA_LIST, FOXTROT_LIST],
        &[
            "dpkg_cli configure foxtrot",
            "dpkg_cli audit",
            "dpkg_cli list",
        ],
        IS_OF_TWO,
    ),
    (
        &[
            STATUS,
            NOTED,
            COMMON_LIST,
            DELTA_LIST,
            "write /var/lib/dpkg/info/echo.list /.\n",
        ],
        &[
            "dpkg_cli audit",
            "dpkg_cli remove delta",
            "read /var/lib/dpkg/updates",
        ],
        IS_OF_TWO_BY_A_NOTE,
    ),
    (&[STATUS], &["dpkg_cli unpack amd64"], DONE),
    (&[STATUS], &["dpkg_cli unpack all"], DONE),
    (&[STATUS], &["dpkg_cli unpack none"], DONE),
    (&[STATUS], &["dpkg_cli unpack arm64"], FOREIGN),
    (&[OLD], &["dpkg_cli unpack arm64"], FOREIGN),
    (
        &[COMMON],
        &["dpkg_cli unpack amd64", "dpkg_cli unpack arm64"],
        FIRST_SETS_IT,
    ),
    (&[STATUS], &["dpkg_cli unpack conflicts-here"], CONFLICTS),
    (&[STATUS], &["dpkg_cli unpack conflicts-there"], DONE),
    (
        &[STATUS],
        &["dpkg_cli unpack depends-here", "dpkg_cli configure alpha"],
        CONFIGURED,
    ),
    (
        &[STATUS],
        &["dpkg_cli unpack depends-there", "dpkg_cli configure alpha"],
        UNMET,
    ),
];

#[test]
fn architectures_are_heeded(rt: HostRuntime) -> Result<(), Fail> {
    for (files, lines, row) in ROWS {
        expect(&rt, answers(rt.alloc(), TREES, &[], files, lines), row)?;
    }
    Ok(())
}
