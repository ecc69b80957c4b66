// What an unpack displaces (Policy 6.6, 7.4, 7.6.1): conflicting packages are removed, files are taken over, and packages of which
// nothing is left disappear; the answers, and what is left.
use super::{TreeFile, answers, expect};
use host_core::Outcome;
use std::test::Fail;

// What a root holds first, how calls end, the lines of words, and the row: their answers.
type DisplacingRow = (
    &'static [&'static str],
    &'static [Outcome],
    &'static [&'static str],
    &'static str,
);

const SCRIPT: &str = "#!/bin/sh\n";

const CONTROL: &str = "/DEBIAN/control";

const FAILS: Outcome = Outcome::Exit(1);

const SUCCEEDS: Outcome = Outcome::Exit(0);

const TREES: &[TreeFile] = &[
    (
        "displaces",
        CONTROL,
        "Package: alpha\nVersion: 2.0\nConflicts: delta\nReplaces: delta\n",
    ),
    (
        "provides",
        CONTROL,
        "Package: alpha\nVersion: 2.0\nConflicts: delta\nReplaces: delta\nProvides: delta\n",
    ),
    (
        "fails",
        CONTROL,
        "Package: alpha\nVersion: 2.0\nConflicts: delta\nReplaces: delta\n",
    ),
    ("fails", "/DEBIAN/preinst", SCRIPT),
    (
        "takes",
        CONTROL,
        "Package: alpha\nVersion: 2.0\nReplaces: gamma (<< 2)\n",
    ),
    ("takes", "/DEBIAN/preinst", SCRIPT),
    ("takes", "/DEBIAN/postrm", SCRIPT),
    ("takes", "/usr/bin/x", "new"),
    (
        "replaces",
        CONTROL,
        "Package: alpha\nVersion: 2.0\nReplaces: gamma\n",
    ),
    ("replaces", "/usr/bin/x", "new"),
];

const DELTA: &str =
    "write /var/lib/dpkg/status Package: delta\nStatus: install ok installed\nVersion: 1\n";

const DELTA_PRERM: &str = "write /var/lib/dpkg/info/delta.prerm #!/bin/sh\n";

const DELTA_POSTINST: &str = "write /var/lib/dpkg/info/delta.postinst #!/bin/sh\n";

const DELTA_POSTRM: &str = "write /var/lib/dpkg/info/delta.postrm #!/bin/sh\n";

const DELTA_LIST: &str = "write /var/lib/dpkg/info/delta.list /.\n/opt\n/opt/delta\n";

// The postrm of the conflicting package fails: it is left half-installed, and nothing is configured.
const REMOVAL_FAILS: DisplacingRow = (
    &[DELTA, DELTA_PRERM, DELTA_POSTRM],
    &[SUCCEEDS, FAILS],
    &["dpkg_cli install displaces", "dpkg_cli list"],
    "call old delta prerm remove in-favour alpha 2.0: exit 0
call old delta postrm remove: exit 1
state alpha 2.0 install ok unpacked
state delta 1 deinstall ok half-installed
failed delta postrm remove
||1
alpha 2.0 unpacked
delta 1 half-installed
||0
",
);

const REMOVED: DisplacingRow = (
    &[
        DELTA,
        DELTA_PRERM,
        DELTA_POSTRM,
        DELTA_LIST,
        "write /opt/delta old",
    ],
    &[],
    &[
        "dpkg_cli install displaces",
        "read /opt/delta",
        "dpkg_cli list",
    ],
    "call old delta prerm remove in-favour alpha 2.0: exit 0
call old delta postrm remove: exit 0
state alpha 2.0 install ok unpacked
state delta 1 deinstall ok config-files
done
state alpha 2.0 install ok installed
done
||0

alpha 2.0 installed
delta 1 config-files
||0
",
);

// The new package's preinst fails: the conflicting package isn't removed, and is told so.
const REMOVAL_UNDONE: DisplacingRow = (
    &[
        DELTA,
        DELTA_PRERM,
        DELTA_POSTINST,
        DELTA_LIST,
        "write /opt/delta old",
    ],
    &[SUCCEEDS, FAILS],
    &["dpkg_cli unpack fails", "read /opt/delta", "dpkg_cli list"],
    "call old delta prerm remove in-favour alpha 2.0: exit 0
call new alpha preinst install: exit 1
call old delta postinst abort-remove in-favour alpha 2.0: exit 0
state alpha none
failed alpha preinst install
||1
old
delta 1 installed
||0
",
);

const DEPENDENT: &[&str] = &[
    "write /var/lib/dpkg/status Package: delta\nStatus: install ok installed\nVersion: 1\n\nPackage: echo\nStatus: install ok installed\nVersion: 1\nDepends: delta\n",
    "write /var/lib/dpkg/info/echo.prerm #!/bin/sh\n",
];

const DEPENDENT_DECONFIGURED: DisplacingRow = (
    DEPENDENT,
    &[],
    &["dpkg_cli unpack --auto-deconfigure displaces"],
    "call old echo prerm deconfigure in-favour alpha 2.0 removing delta 1: exit 0
state alpha 2.0 install ok unpacked
state delta none
state echo 1 install ok half-configured
done
||0
",
);

// What it needs is provided by the new package.
const DEPENDENT_SERVED: DisplacingRow = (
    DEPENDENT,
    &[],
    &["dpkg_cli unpack --auto-deconfigure provides"],
    "state alpha 2.0 install ok unpacked
state delta none
done
||0
",
);

const GAMMA: &str =
    "write /var/lib/dpkg/status Package: gamma\nStatus: install ok installed\nVersion: 1\n";

const GAMMA_POSTRM: &str = "write /var/lib/dpkg/info/gamma.postrm #!/bin/sh\n";

const GAMMA_LIST: &str = "write /var/lib/dpkg/info/gamma.list /.\n/usr\n/usr/bin\n/usr/bin/x\n";

const TAKEN_OVER: DisplacingRow = (
    &[
        GAMMA,
        "write /var/lib/dpkg/info/gamma.list /.\n/usr\n/usr/bin\n/usr/bin/x\n/usr/bin/y\n",
        "write /usr/bin/x old",
        "write /usr/bin/y old",
    ],
    &[],
    &[
        "dpkg_cli unpack takes",
        "read /usr/bin/x",
        "dpkg_cli listfiles gamma",
    ],
    "call new alpha preinst install: exit 0
state alpha 2.0 install ok unpacked
done
||0
new
/.
/usr
/usr/bin
/usr/bin/y
||0
",
);

const DISAPPEARED: DisplacingRow = (
    &[GAMMA, GAMMA_POSTRM, GAMMA_LIST, "write /usr/bin/x old"],
    &[],
    &[
        "dpkg_cli unpack replaces",
        "dpkg_cli search /usr/bin/x",
        "dpkg_cli listfiles alpha",
        "dpkg_cli status gamma",
    ],
    "call old gamma postrm disappear alpha 2.0: exit 0
state alpha 2.0 install ok unpacked
state gamma none
done
||0
alpha: /usr/bin/x
||0
/.
/usr
/usr/bin
/usr/bin/x
||0
refused gamma Unknown
||1
",
);

// Where its postrm fails it goes all the same.
const DISAPPEARED_AND_FAILED: DisplacingRow = (
    &[GAMMA, GAMMA_POSTRM, GAMMA_LIST, "write /usr/bin/x old"],
    &[FAILS],
    &["dpkg_cli unpack replaces", "dpkg_cli list"],
    "call old gamma postrm disappear alpha 2.0: exit 1
state alpha 2.0 install ok unpacked
state gamma none
failed gamma postrm disappear alpha 2.0
||1
alpha 2.0 unpacked
||0
",
);

// A package on which an installed one depends stays, with what is left of its list.
const NEEDED: DisplacingRow = (
    &[
        "write /var/lib/dpkg/status Package: echo\nStatus: install ok installed\nVersion: 1\nDepends: gamma\n\nPackage: gamma\nStatus: install ok installed\nVersion: 1\n",
        GAMMA_POSTRM,
        GAMMA_LIST,
        "write /usr/bin/x old",
    ],
    &[],
    &[
        "dpkg_cli unpack replaces",
        "dpkg_cli listfiles gamma",
        "dpkg_cli list",
    ],
    "state alpha 2.0 install ok unpacked
done
||0
/.
/usr
/usr/bin
||0
alpha 2.0 unpacked
echo 1 installed
gamma 1 installed
||0
",
);

const ROWS: &[DisplacingRow] = &[
    REMOVAL_FAILS,
    REMOVED,
    REMOVAL_UNDONE,
    DEPENDENT_DECONFIGURED,
    DEPENDENT_SERVED,
    TAKEN_OVER,
    DISAPPEARED,
    DISAPPEARED_AND_FAILED,
    NEEDED,
];

#[test]
fn packages_that_an_unpack_displaces(rt: HostRuntime) -> Result<(), Fail> {
    for (files, outcomes, lines, row) in ROWS {
        expect(&rt, answers(rt.alloc(), TREES, outcomes, files, lines), row)?;
    }
    Ok(())
}
