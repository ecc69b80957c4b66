// Which packages an install configures (Policy 6.6, 7.3, 7.4), and which a unit tells: the answers, and what is left.
use super::{TreeFile, answers, expect};
use host_core::Outcome;
use std::test::Fail;

// What a root holds first, how calls end, the lines of words, and the row: their answers.
type InstallRow = (
    &'static [&'static str],
    &'static [Outcome],
    &'static [&'static str],
    &'static str,
);

const SCRIPT: &str = "#!/bin/sh\n";

const CONTROL: &str = "/DEBIAN/control";

const FAILS: Outcome = Outcome::Exit(1);

const SUCCEEDS: Outcome = Outcome::Exit(0);

const TREES: &[TreeFile] = &[
    (
        "takes_conffile",
        CONTROL,
        "Package: aa\nVersion: 1\nReplaces: bb\n",
    ),
    ("takes_conffile", "/DEBIAN/conffiles", "/etc/bb.conf\n"),
    ("takes_conffile", "/etc/bb.conf", "red\n"),
    ("first", CONTROL, "Package: aa\nVersion: 1\n"),
    ("first", "/DEBIAN/postinst", SCRIPT),
    ("first", "/usr/bin/x", "first"),
    (
        "replaces",
        CONTROL,
        "Package: bb\nVersion: 1\nReplaces: aa\n",
    ),
    ("replaces", "/usr/bin/x", "second"),
    (
        "conflicts",
        CONTROL,
        "Package: bb\nVersion: 1\nConflicts: aa\nReplaces: aa\n",
    ),
    (
        "displaces",
        CONTROL,
        "Package: alpha\nVersion: 2.0\nConflicts: delta\nReplaces: delta\n",
    ),
];

// A package that was half-configured before, and only loses a conffile, isn't configured.
const HALF_CONFIGURED_BEFORE: InstallRow = (
    &[
        "write /var/lib/dpkg/status Package: bb\nStatus: install ok half-configured\nVersion: 1\nConffiles:\n /etc/bb.conf 9e107d9d372bb6826bd81d3542a419d6\n",
        "write /var/lib/dpkg/info/bb.list /.\n/etc\n/etc/bb.conf\n/usr\n/usr/bin\n/usr/bin/bb\n",
        "write /var/lib/dpkg/info/bb.postinst #!/bin/sh\n",
        "write /etc/bb.conf red\n",
        "write /usr/bin/bb bb",
    ],
    &[],
    &["dpkg_cli install takes_conffile", "dpkg_cli list"],
    "state aa 1 install ok unpacked
state bb 1 install ok half-configured
done
state aa 1 install ok installed
done
||0
aa 1 installed
bb 1 half-configured
||0
",
);

// The second candidate leaves nothing of the first, which isn't configured then.
const DISAPPEARED: InstallRow = (
    &[],
    &[],
    &["dpkg_cli install first replaces", "dpkg_cli list"],
    "state aa 1 install ok unpacked
done
state aa none
state bb 1 install ok unpacked
done
state bb 1 install ok installed
done
||0
bb 1 installed
||0
",
);

// The first candidate is removed in favour of the second.
const REMOVED: InstallRow = (
    &[],
    &[],
    &["dpkg_cli install first conflicts", "dpkg_cli list"],
    "state aa 1 install ok unpacked
done
state aa none
state bb 1 install ok unpacked
done
state bb 1 install ok installed
done
||0
bb 1 installed
||0
",
);

// The removal of a conflicting package fails once more: its record is the same, and isn't told.
const REMOVAL_FAILS_AGAIN: InstallRow = (
    &[
        "write /var/lib/dpkg/status Package: delta\nStatus: install ok installed\nVersion: 1\n",
        "write /var/lib/dpkg/info/delta.prerm #!/bin/sh\n",
        "write /var/lib/dpkg/info/delta.postrm #!/bin/sh\n",
    ],
    &[SUCCEEDS, FAILS, FAILS],
    &[
        "dpkg_cli install displaces",
        "dpkg_cli install displaces",
        "dpkg_cli list",
    ],
    "call old delta prerm remove in-favour alpha 2.0: exit 0
call old delta postrm remove: exit 1
state alpha 2.0 install ok unpacked
state delta 1 deinstall ok half-installed
failed delta postrm remove
||1
call old delta postrm remove: exit 1
state alpha 2.0 install ok unpacked
failed delta postrm remove
||1
alpha 2.0 unpacked
delta 1 half-installed
||0
",
);

const ROWS: &[InstallRow] = &[
    HALF_CONFIGURED_BEFORE,
    DISAPPEARED,
    REMOVED,
    REMOVAL_FAILS_AGAIN,
];

#[test]
fn packages_that_an_install_configures(rt: HostRuntime) -> Result<(), Fail> {
    for (files, outcomes, lines, row) in ROWS {
        expect(&rt, answers(rt.alloc(), TREES, outcomes, files, lines), row)?;
    }
    Ok(())
}
