// Installed packages are deconfigured in favour of one that breaks them (Policy 7.3): the answers, and what is left.
use super::{TreeFile, answers, expect};
use host_core::Outcome;
use std::test::Fail;

// What a root holds first, how calls end, the lines of words, and the row: their answers.
type DeconfiguringRow = (
    &'static [&'static str],
    &'static [Outcome],
    &'static [&'static str],
    &'static str,
);

const SCRIPT: &str = "#!/bin/sh\n";

const CONTROL: &str = "/DEBIAN/control";

const FAILS: Outcome = Outcome::Exit(1);

const SUCCEEDS: Outcome = Outcome::Exit(0);

const TREES: &[TreeFile] = &[
    (
        "one",
        CONTROL,
        "Package: alpha\nVersion: 2.0\nBreaks: bravo (<< 3)\n",
    ),
    (
        "both",
        CONTROL,
        "Package: alpha\nVersion: 2.0\nBreaks: bravo, charlie\n",
    ),
    ("both", "/DEBIAN/preinst", SCRIPT),
    ("both", "/DEBIAN/postinst", SCRIPT),
    ("both", "/DEBIAN/prerm", SCRIPT),
    ("both", "/DEBIAN/postrm", SCRIPT),
    ("both", "/usr/bin/a", "new"),
];

const BRAVO: &str =
    "write /var/lib/dpkg/status Package: bravo\nStatus: install ok installed\nVersion: 1\n";

const BRAVO_PRERM: &str = "write /var/lib/dpkg/info/bravo.prerm #!/bin/sh\n";

const DECONFIGURED: DeconfiguringRow = (
    &[BRAVO, BRAVO_PRERM],
    &[],
    &[
        "dpkg_cli unpack one",
        "dpkg_cli unpack --auto-deconfigure one",
        "dpkg_cli status bravo",
    ],
    "refused alpha Breaks bravo
||1
call old bravo prerm deconfigure in-favour alpha 2.0: exit 0
state alpha 2.0 install ok unpacked
state bravo 1 install ok half-configured
done
||0
Package: bravo
Status: install ok half-configured
Version: 1
Config-Version: 1
||0
",
);

// Behind the unpacked package the deconfigured one is configured, or refused.
const INSTALLED: DeconfiguringRow = (
    &[BRAVO, BRAVO_PRERM],
    &[],
    &["dpkg_cli install --auto-deconfigure one", "dpkg_cli list"],
    "call old bravo prerm deconfigure in-favour alpha 2.0: exit 0
state alpha 2.0 install ok unpacked
state bravo 1 install ok half-configured
done
state alpha 2.0 install ok installed
done
refused bravo BrokenBy alpha
||1
alpha 2.0 installed
bravo 1 half-configured
||0
",
);

const LEFT_POSTRM: &str = "write /var/lib/dpkg/info/alpha.postrm #!/bin/sh\n";

const LEFT_LIST: &str = "write /var/lib/dpkg/info/alpha.list /.\n/old\n";

// What a name without a record left behind stays where bravo's call fails, and goes before the new preinst's.
const LEFT_BEHIND: DeconfiguringRow = (
    &[BRAVO, BRAVO_PRERM, LEFT_POSTRM, LEFT_LIST],
    &[FAILS, SUCCEEDS],
    &[
        "dpkg_cli unpack --auto-deconfigure one",
        "read /var/lib/dpkg/info",
        "read /var/lib/dpkg/info/alpha.list",
        "dpkg_cli unpack --auto-deconfigure one",
        "read /var/lib/dpkg/info",
        "read /var/lib/dpkg/info/alpha.list",
    ],
    "call old bravo prerm deconfigure in-favour alpha 2.0: exit 1
state alpha none
failed bravo prerm deconfigure in-favour alpha 2.0
||1
directory: alpha.list alpha.postrm bravo.prerm
/.
/old

call old bravo prerm deconfigure in-favour alpha 2.0: exit 0
state alpha 2.0 install ok unpacked
state bravo 1 install ok half-configured
done
||0
directory: alpha.list bravo.prerm
/.

",
);

const WHOLE: &[&str] = &[
    "write /var/lib/dpkg/status Package: alpha\nStatus: install ok installed\nVersion: 1.0\n\nPackage: bravo\nStatus: install ok installed\nVersion: 1\n\nPackage: charlie\nStatus: install ok installed\nVersion: 1\n",
    "write /var/lib/dpkg/info/alpha.list /.\n/usr\n/usr/bin\n/usr/bin/a\n",
    "write /var/lib/dpkg/info/alpha.preinst #!/bin/sh\n",
    "write /var/lib/dpkg/info/alpha.postinst #!/bin/sh\n",
    "write /var/lib/dpkg/info/alpha.prerm #!/bin/sh\n",
    "write /var/lib/dpkg/info/alpha.postrm #!/bin/sh\n",
    BRAVO_PRERM,
    "write /var/lib/dpkg/info/bravo.postinst #!/bin/sh\n",
    "write /var/lib/dpkg/info/charlie.prerm #!/bin/sh\n",
    "write /var/lib/dpkg/info/charlie.postinst #!/bin/sh\n",
    "write /usr/bin/a old",
];

// The undo of alpha's preinst fails: nothing more of alpha is undone, and the others are.
const OWN_UNDO_FAILS: DeconfiguringRow = (
    WHOLE,
    &[
        SUCCEEDS, SUCCEEDS, SUCCEEDS, SUCCEEDS, FAILS, FAILS, SUCCEEDS, FAILS,
    ],
    &[
        "dpkg_cli unpack --auto-deconfigure both",
        "read /usr/bin",
        "read /usr/bin/a",
        "dpkg_cli list",
    ],
    "call old alpha prerm upgrade 2.0: exit 0
call old bravo prerm deconfigure in-favour alpha 2.0: exit 0
call old charlie prerm deconfigure in-favour alpha 2.0: exit 0
call new alpha preinst upgrade 1.0 2.0: exit 0
call old alpha postrm upgrade 2.0: exit 1
call new alpha postrm failed-upgrade 1.0 2.0: exit 1
call old alpha preinst abort-upgrade 2.0: exit 0
call new alpha postrm abort-upgrade 1.0 2.0: exit 1
call old charlie postinst abort-deconfigure in-favour alpha 2.0: exit 0
call old bravo postinst abort-deconfigure in-favour alpha 2.0: exit 0
state alpha 1.0 install reinstreq half-installed
failed alpha postrm upgrade 2.0
||1
directory: a
old
alpha 1.0 half-installed reinstreq
bravo 1 installed
charlie 1 installed
||0
",
);

// The undo of charlie's prerm fails: that of bravo's and of alpha's go on.
const OTHER_UNDO_FAILS: DeconfiguringRow = (
    WHOLE,
    &[
        SUCCEEDS, SUCCEEDS, SUCCEEDS, SUCCEEDS, FAILS, FAILS, SUCCEEDS, SUCCEEDS, FAILS,
    ],
    &["dpkg_cli unpack --auto-deconfigure both", "dpkg_cli list"],
    "call old alpha prerm upgrade 2.0: exit 0
call old bravo prerm deconfigure in-favour alpha 2.0: exit 0
call old charlie prerm deconfigure in-favour alpha 2.0: exit 0
call new alpha preinst upgrade 1.0 2.0: exit 0
call old alpha postrm upgrade 2.0: exit 1
call new alpha postrm failed-upgrade 1.0 2.0: exit 1
call old alpha preinst abort-upgrade 2.0: exit 0
call new alpha postrm abort-upgrade 1.0 2.0: exit 0
call old charlie postinst abort-deconfigure in-favour alpha 2.0: exit 1
call old bravo postinst abort-deconfigure in-favour alpha 2.0: exit 0
call old alpha postinst abort-upgrade 2.0: exit 0
state alpha 1.0 install ok installed
state charlie 1 install ok half-configured
failed alpha postrm upgrade 2.0
||1
alpha 1.0 installed
bravo 1 installed
charlie 1 half-configured
||0
",
);

const ROWS: &[DeconfiguringRow] = &[
    DECONFIGURED,
    INSTALLED,
    LEFT_BEHIND,
    OWN_UNDO_FAILS,
    OTHER_UNDO_FAILS,
];

#[test]
fn packages_are_deconfigured(rt: HostRuntime) -> Result<(), Fail> {
    for (files, outcomes, lines, row) in ROWS {
        expect(&rt, answers(rt.alloc(), TREES, outcomes, files, lines), row)?;
    }
    Ok(())
}
