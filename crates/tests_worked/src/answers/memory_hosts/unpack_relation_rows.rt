// What relations say of an unpack (Policy 7.2 to 7.6): the answers, and what is left.
use super::{TreeFile, answers, expect};
use std::test::Fail;

// What a root holds first, the lines of words, and the row: their answers and what is read.
type RelationRow = (
    &'static [&'static str],
    &'static [&'static str],
    &'static str,
);

const CONTROL: &str = "/DEBIAN/control";

// Trees that are named by what they state.
const TREES: &[TreeFile] = &[
    (
        "needs",
        CONTROL,
        "Package: alpha\nVersion: 2.0\nPre-Depends: bravo (>= 2)\n",
    ),
    (
        "conflicts",
        CONTROL,
        "Package: alpha\nVersion: 2.0\nConflicts: delta\n",
    ),
    (
        "displaces",
        CONTROL,
        "Package: alpha\nVersion: 2.0\nConflicts: delta\nReplaces: delta\n",
    ),
    (
        "breaks",
        CONTROL,
        "Package: alpha\nVersion: 2.0\nBreaks: bravo (<< 3)\n",
    ),
    (
        "all",
        CONTROL,
        "Package: alpha\nVersion: 2.0\nBreaks: bravo\nConflicts: delta\nPre-Depends: bravo (>= 2)\nDepends: nobody\n",
    ),
    ("plain", CONTROL, "Package: alpha\nVersion: 2.0\n"),
    (
        "depends",
        CONTROL,
        "Package: alpha\nVersion: 2.0\nDepends: bravo (>= 2)\n",
    ),
    (
        "itself",
        CONTROL,
        "Package: alpha\nVersion: 2.0\nProvides: mta\nConflicts: alpha (<< 2), mta\nBreaks: alpha (<< 2)\n",
    ),
    (
        "clashes",
        CONTROL,
        "Package: alpha\nVersion: 2.0\nReplaces: gamma (<< 1)\n",
    ),
    ("clashes", "/DEBIAN/preinst", "#!/bin/sh\n"),
    ("clashes", "/DEBIAN/postrm", "#!/bin/sh\n"),
    ("clashes", "/usr/bin/x", "new"),
];

const BRAVO: &str =
    "write /var/lib/dpkg/status Package: bravo\nStatus: install ok installed\nVersion: 1\n";

const NEEDS: RelationRow = (
    &[BRAVO],
    &["dpkg_cli unpack needs", "dpkg_cli list"],
    "refused alpha PreDepends bravo (>= 2)
||1
bravo 1 installed
||0
",
);

// A package that isn't installed will do where it was configured in a version that will do too.
const NEEDS_CONFIGURED: RelationRow = (
    &[
        "write /var/lib/dpkg/status Package: bravo\nStatus: install ok unpacked\nVersion: 3\nConfig-Version: 2\n",
    ],
    &["dpkg_cli unpack needs"],
    "state alpha 2.0 install ok unpacked
done
||0
",
);

const NEEDS_A_LATER_ONE: RelationRow = (
    &[
        "write /var/lib/dpkg/status Package: bravo\nStatus: install ok unpacked\nVersion: 3\nConfig-Version: 1\n",
    ],
    &["dpkg_cli unpack needs"],
    "refused alpha PreDepends bravo (>= 2)
||1
",
);

const NEEDS_ONE_THAT_STAYED: RelationRow = (
    &[
        "write /var/lib/dpkg/status Package: bravo\nStatus: install ok unpacked\nVersion: 3\nConfig-Version: 2\nRemoved-Since: yes\n",
    ],
    &["dpkg_cli unpack needs"],
    "refused alpha PreDepends bravo (>= 2)
||1
",
);

const DELTA: &str =
    "write /var/lib/dpkg/status Package: delta\nStatus: install ok installed\nVersion: 1\n";

const CONFLICTS: RelationRow = (
    &[DELTA],
    &["dpkg_cli unpack conflicts", "dpkg_cli list"],
    "refused alpha Conflicts delta
||1
delta 1 installed
||0
",
);

const CONFLICTS_BACK: RelationRow = (
    &[
        "write /var/lib/dpkg/status Package: delta\nStatus: install ok unpacked\nVersion: 1\nConflicts: alpha (>= 2)\n",
    ],
    &["dpkg_cli unpack plain"],
    "refused alpha Conflicts delta
||1
",
);

const CONFLICTS_NO_MORE: RelationRow = (
    &["write /var/lib/dpkg/status Package: delta\nStatus: deinstall ok config-files\nVersion: 1\n"],
    &["dpkg_cli unpack conflicts", "dpkg_cli list"],
    "state alpha 2.0 install ok unpacked
done
||0
alpha 2.0 unpacked
delta 1 config-files
||0
",
);

// One that has to be unpacked again isn't removed.
const CONFLICTS_WITH_A_MARKED_ONE: RelationRow = (
    &[
        "write /var/lib/dpkg/status Package: delta\nStatus: install reinstreq half-installed\nVersion: 1\n",
    ],
    &["dpkg_cli unpack displaces"],
    "refused alpha Conflicts delta
||1
",
);

const ESSENTIAL: RelationRow = (
    &[
        "write /var/lib/dpkg/status Package: delta\nStatus: install ok installed\nVersion: 1\nEssential: yes\n",
    ],
    &["dpkg_cli unpack displaces"],
    "refused alpha ConflictEssential delta
||1
",
);

const DEPENDENTS: RelationRow = (
    &[
        "write /var/lib/dpkg/status Package: delta\nStatus: install ok installed\nVersion: 1\n\nPackage: echo\nStatus: install ok installed\nVersion: 1\nDepends: delta\n",
    ],
    &["dpkg_cli unpack displaces", "dpkg_cli list"],
    "refused alpha Dependents echo
||1
delta 1 installed
echo 1 installed
||0
",
);

// As dpkg does: Pre-Depends are ignored, what depends on a package that has to go stays as it is, and Breaks is heeded.
const IGNORED: RelationRow = (
    &[
        "write /var/lib/dpkg/status Package: bravo\nStatus: install ok installed\nVersion: 1\n\nPackage: delta\nStatus: install ok installed\nVersion: 1\n\nPackage: echo\nStatus: install ok installed\nVersion: 1\nDepends: delta\n",
        "write /var/lib/dpkg/info/echo.prerm #!/bin/sh\n",
    ],
    &[
        "dpkg_cli unpack --force-depends breaks",
        "dpkg_cli unpack --force-depends conflicts",
        "dpkg_cli unpack --force-depends needs",
        "dpkg_cli unpack --force-depends --auto-deconfigure displaces",
        "dpkg_cli list",
    ],
    "refused alpha Breaks bravo
||1
refused alpha Conflicts delta
||1
state alpha 2.0 install ok unpacked
done
||0
state alpha 2.0 install ok unpacked
state delta none
done
||0
alpha 2.0 unpacked
bravo 1 installed
echo 1 installed
||0
",
);

const BREAKS: RelationRow = (
    &[BRAVO, "write /var/lib/dpkg/info/bravo.prerm #!/bin/sh\n"],
    &["dpkg_cli unpack breaks", "dpkg_cli list"],
    "refused alpha Breaks bravo
||1
bravo 1 installed
||0
",
);

const BREAKS_A_LATER_ONE: RelationRow = (
    &["write /var/lib/dpkg/status Package: bravo\nStatus: install ok installed\nVersion: 3\n"],
    &["dpkg_cli unpack breaks"],
    "state alpha 2.0 install ok unpacked
done
||0
",
);

// Each reason comes once those before it are gone.
const ONE_BY_ONE: RelationRow = (
    &[],
    &[
        "write /var/lib/dpkg/status Package: bravo\nStatus: install ok installed\nVersion: 1\n\nPackage: delta\nStatus: install ok installed\nVersion: 1\n",
        "dpkg_cli unpack all",
        "write /var/lib/dpkg/status Package: bravo\nStatus: install ok installed\nVersion: 2\n\nPackage: delta\nStatus: install ok installed\nVersion: 1\n",
        "dpkg_cli unpack all",
        "write /var/lib/dpkg/status Package: bravo\nStatus: install ok installed\nVersion: 2\n",
        "dpkg_cli unpack all",
    ],
    "refused alpha PreDepends bravo (>= 2)
||1
refused alpha Conflicts delta
||1
refused alpha Breaks bravo
||1
",
);

// What a package depends on is asked for where it is configured.
const DEPENDS: RelationRow = (
    &[BRAVO],
    &["dpkg_cli install depends", "dpkg_cli list"],
    "state alpha 2.0 install ok unpacked
done
refused alpha Depends bravo (>= 2)
||1
alpha 2.0 unpacked
bravo 1 installed
||0
",
);

// No package is its own match, in the version that is installed or in the one that comes.
const OF_ITSELF: RelationRow = (
    &["write /var/lib/dpkg/status Package: alpha\nStatus: install ok unpacked\nVersion: 1\n"],
    &["dpkg_cli unpack itself"],
    "state alpha 2.0 install ok unpacked
done
||0
",
);

const GAMMA: &str =
    "write /var/lib/dpkg/status Package: gamma\nStatus: install ok installed\nVersion: 1\n";

const GAMMA_LIST: &str =
    "write /var/lib/dpkg/info/gamma.list /.\n/usr\n/usr/bin\n/usr/bin/x\n/usr/bin/y\n";

// A package of another version doesn't yield.
const CLASHES: RelationRow = (
    &[GAMMA, GAMMA_LIST, "write /usr/bin/x old"],
    &[
        "dpkg_cli unpack clashes",
        "read /usr/bin/x",
        "dpkg_cli list",
    ],
    "call new alpha preinst install: exit 0
call new alpha postrm abort-install: exit 0
state alpha none
failed alpha Clash /usr/bin/x gamma
||1
old
gamma 1 installed
||0
",
);

const ROWS: &[RelationRow] = &[
    NEEDS,
    NEEDS_CONFIGURED,
    NEEDS_A_LATER_ONE,
    NEEDS_ONE_THAT_STAYED,
    CONFLICTS,
    CONFLICTS_BACK,
    CONFLICTS_NO_MORE,
    CONFLICTS_WITH_A_MARKED_ONE,
    ESSENTIAL,
    DEPENDENTS,
    IGNORED,
    BREAKS,
    BREAKS_A_LATER_ONE,
    ONE_BY_ONE,
    DEPENDS,
    OF_ITSELF,
    CLASHES,
];

#[test]
fn relations_of_an_unpack(rt: HostRuntime) -> Result<(), Fail> {
    for (files, lines, row) in ROWS {
        expect(&rt, answers(rt.alloc(), TREES, &[], files, lines), row)?;
    }
    Ok(())
}
