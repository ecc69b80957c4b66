// Rehearsals of commands: their lines behind the first one, and a root on which nothing was done.
use super::{MemoryHosts, TreeFile, check_usage, expect, hosts};
use std::alloc::{AllocError, Global};
use std::test::Fail;

// What a root holds first, and lines of words with their answers.
type DryRow = (
    &'static [&'static str],
    &'static [&'static str],
    &'static str,
);

const SCRIPT: &str = "#!/bin/sh\n";

const CONTROL: &str = "/DEBIAN/control";

const TREES: &[TreeFile] = &[
    ("first", CONTROL, "Package: alpha\nVersion: 1.0\n"),
    ("first", "/DEBIAN/preinst", SCRIPT),
    ("alpha", CONTROL, "Package: alpha\nVersion: 2.0\n"),
    ("alpha", "/DEBIAN/preinst", SCRIPT),
    ("alpha", "/DEBIAN/postinst", SCRIPT),
    ("alpha", "/DEBIAN/prerm", SCRIPT),
    ("alpha", "/DEBIAN/postrm", SCRIPT),
    ("alpha", "/usr/bin/a", "new"),
    (
        "breaking",
        CONTROL,
        "Package: alpha\nVersion: 2.0\nBreaks: bravo, charlie\n",
    ),
    ("breaking", "/DEBIAN/preinst", SCRIPT),
    ("breaking", "/DEBIAN/postinst", SCRIPT),
    ("breaking", "/DEBIAN/prerm", SCRIPT),
    ("breaking", "/DEBIAN/postrm", SCRIPT),
    ("breaking", "/usr/bin/a", "new"),
    (
        "conflicting",
        CONTROL,
        "Package: alpha\nVersion: 2.0\nConflicts: delta\nReplaces: delta\n",
    ),
    (
        "replacing",
        CONTROL,
        "Package: alpha\nVersion: 2.0\nReplaces: gamma\n",
    ),
    ("replacing", "/usr/bin/x", "new"),
    ("victor", CONTROL, "Package: victor\nVersion: 2\n"),
    ("victor", "/usr/bin/v", "two"),
];

const ALPHA: &[&str] = &[
    "write /var/lib/dpkg/status Package: alpha\nStatus: install ok installed\nVersion: 1.0\n\nPackage: bravo\nStatus: install ok installed\nVersion: 1\n\nPackage: charlie\nStatus: install ok installed\nVersion: 1\n",
    "write /var/lib/dpkg/info/alpha.list /.\n/usr\n/usr/bin\n/usr/bin/a\n",
    "write /var/lib/dpkg/info/alpha.preinst #!/bin/sh\nold",
    "write /var/lib/dpkg/info/alpha.postinst #!/bin/sh\nold",
    "write /var/lib/dpkg/info/alpha.prerm #!/bin/sh\nold",
    "write /var/lib/dpkg/info/alpha.postrm #!/bin/sh\nold",
    "write /var/lib/dpkg/info/bravo.prerm #!/bin/sh\n",
    "write /var/lib/dpkg/info/bravo.postinst #!/bin/sh\n",
    "write /var/lib/dpkg/info/charlie.prerm #!/bin/sh\n",
    "write /var/lib/dpkg/info/charlie.postinst #!/bin/sh\n",
    "write /usr/bin/a old",
];

const NEW: DryRow = (
    &[],
    &["dpkg_cli unpack --dry-run --assume-failure alpha:preinst:install first"],
    "dry run
call new alpha preinst install: exit 1
state alpha none
failed alpha preinst install
||1
",
);

const UPGRADE: DryRow = (
    ALPHA,
    &[
        "dpkg_cli unpack --dry-run --assume-failure alpha:postrm:upgrade --assume-failure alpha:postrm:failed-upgrade alpha",
        "read /usr/bin/a",
        "dpkg_cli unpack --dry-run alpha",
    ],
    "dry run
call old alpha prerm upgrade 2.0: exit 0
call new alpha preinst upgrade 1.0 2.0: exit 0
call old alpha postrm upgrade 2.0: exit 1
call new alpha postrm failed-upgrade 1.0 2.0: exit 1
call old alpha preinst abort-upgrade 2.0: exit 0
call new alpha postrm abort-upgrade 1.0 2.0: exit 0
call old alpha postinst abort-upgrade 2.0: exit 0
state alpha 1.0 install ok installed
failed alpha postrm upgrade 2.0
||1
old
dry run
call old alpha prerm upgrade 2.0: exit 0
call new alpha preinst upgrade 1.0 2.0: exit 0
call old alpha postrm upgrade 2.0: exit 0
state alpha 2.0 install ok unpacked
done
||0
",
);

const BREAKING: DryRow = (
    ALPHA,
    &[
        "dpkg_cli unpack --dry-run --assume-failure alpha:postrm:upgrade --assume-failure alpha:postrm:failed-upgrade --assume-failure alpha:postrm:abort-upgrade --auto-deconfigure breaking",
    ],
    "dry run
call old alpha prerm upgrade 2.0: exit 0
call old bravo prerm deconfigure in-favour alpha 2.0: exit 0
call old charlie prerm deconfigure in-favour alpha 2.0: exit 0
call new alpha preinst upgrade 1.0 2.0: exit 0
call old alpha postrm upgrade 2.0: exit 1
call new alpha postrm failed-upgrade 1.0 2.0: exit 1
call old alpha preinst abort-upgrade 2.0: exit 0
call new alpha postrm abort-upgrade 1.0 2.0: exit 1
call old charlie postinst abort-deconfigure in-favour alpha 2.0: exit 0
call old bravo postinst abort-deconfigure in-favour alpha 2.0: exit 0
state alpha 1.0 install reinstreq half-installed
failed alpha postrm upgrade 2.0
||1
",
);

const CONFLICTING: DryRow = (
    &[
        "write /var/lib/dpkg/status Package: delta\nStatus: install ok installed\nVersion: 1\n",
        "write /var/lib/dpkg/info/delta.list /.\n",
        "write /var/lib/dpkg/info/delta.prerm #!/bin/sh\n",
        "write /var/lib/dpkg/info/delta.postrm #!/bin/sh\n",
    ],
    &["dpkg_cli install --dry-run --assume-failure delta:postrm:remove conflicting"],
    "dry run
call old delta prerm remove in-favour alpha 2.0: exit 0
call old delta postrm remove: exit 1
state alpha 2.0 install ok unpacked
state delta 1 deinstall ok half-installed
failed delta postrm remove
||1
",
);

const DISAPPEARING: DryRow = (
    &[
        "write /var/lib/dpkg/status Package: gamma\nStatus: install ok installed\nVersion: 1\n",
        "write /var/lib/dpkg/info/gamma.list /.\n/usr\n/usr/bin\n/usr/bin/x\n",
        "write /var/lib/dpkg/info/gamma.postrm #!/bin/sh\n",
        "write /usr/bin/x old",
    ],
    &["dpkg_cli unpack --dry-run replacing"],
    "dry run
call old gamma postrm disappear alpha 2.0: exit 0
state alpha 2.0 install ok unpacked
state gamma none
done
||0
",
);

const REMOVED: DryRow = (
    &[
        "write /var/lib/dpkg/status Package: zulu\nStatus: install ok installed\nVersion: 1\nConffiles:\n /etc/z.conf 0cc175b9c0f1b6a831c399e269772661\n",
        "write /var/lib/dpkg/info/zulu.list /.\n/etc\n/etc/z.conf\n/opt\n/opt/z\n/opt/z/bin\n",
        "write /var/lib/dpkg/info/zulu.postrm #!/bin/sh\n",
        "write /etc/z.conf a",
        "write /etc/z.conf~ 1",
        "write /opt/z/bin z",
        "write /opt/z/note mine",
    ],
    &[
        "dpkg_cli remove --dry-run zulu",
        "dpkg_cli purge --dry-run zulu",
        "read /etc",
        "read /opt/z",
    ],
    "dry run
call old zulu postrm remove: exit 0
state zulu 1 deinstall ok config-files
done
||0
dry run
call old zulu postrm remove: exit 0
call old zulu postrm purge: exit 0
state zulu none
done
||0
directory: z.conf z.conf~
directory: bin note
",
);

const DIVERTED: DryRow = (
    &[
        "write /var/lib/dpkg/status Package: victor\nStatus: install ok installed\nVersion: 1\n",
        "write /var/lib/dpkg/info/victor.list /.\n/usr\n/usr/bin\n/usr/bin/v\n",
        "write /usr/bin/v one",
        "write /var/lib/dpkg/diversions /usr/bin/w\n/usr/bin/w.real\n:\n",
        "write /usr/bin/w.real w",
    ],
    &[
        "dpkg_cli divert --dry-run --local --divert /usr/bin/v.real --rename /usr/bin/v",
        "dpkg_cli unpack --dry-run victor",
        "dpkg_cli undivert --dry-run --local --rename /usr/bin/w",
        "dpkg_cli undivert --dry-run --local --rename /usr/bin/v",
        "dpkg_cli divert --dry-run --local usr",
        "read /usr/bin",
    ],
    "dry run
done
||0
dry run
state victor 2 install ok unpacked
done
||0
dry run
done
||0
dry run
refused /usr/bin/v NotDiverted
||1
dry run
|bad path usr
|2
directory: v w.real
",
);

// A file that another package takes over, one that goes, and a conffile that was edited and stays.
const CHANGED: DryRow = (
    &[
        "write /var/lib/dpkg/status Package: gamma\nStatus: install ok installed\nVersion: 1\n\nPackage: zulu\nStatus: install ok installed\nVersion: 1\nConffiles:\n /etc/z.conf 0cc175b9c0f1b6a831c399e269772661\n",
        "write /var/lib/dpkg/info/gamma.list /.\n/usr\n/usr/bin\n/usr/bin/w\n/usr/bin/x\n",
        "write /var/lib/dpkg/info/zulu.list /.\n/etc\n/etc/z.conf\n/opt\n/opt/z\n/opt/z/bin\n",
        "write /usr/bin/w old",
        "write /usr/bin/x old",
        "write /etc/z.conf mine",
        "write /opt/z/bin z",
        "write /opt/z/note mine",
    ],
    &[
        "dpkg_cli unpack --dry-run --changes replacing",
        "dpkg_cli remove --dry-run --changes zulu",
        "read /opt/z",
    ],
    "dry run
state alpha 2.0 install ok unpacked
done
replace /usr/bin/x alpha
||0
dry run
state zulu 1 deinstall ok config-files
done
remove /opt/z/bin zulu
keep /etc/z.conf edited
||0
directory: bin note
",
);

const ROWS: &[DryRow] = &[
    NEW,
    UPGRADE,
    BREAKING,
    CONFLICTING,
    DISAPPEARING,
    REMOVED,
    DIVERTED,
    CHANGED,
];

// Adds that a root isn't as it was: so many steps were made on it and calls of its scripts.
fn add_changes(hosts: &MemoryHosts, text: &mut String) -> Result<(), AllocError> {
    match &hosts.root {
        Some(host) if host.events().is_empty() => Ok(()),
        Some(_) => text.push_str("changed\n"),
        None => text.push_str("the root wasn't given back\n"),
    }
}

fn rehearsed(alloc: Global, files: &[&str], lines: &[&str]) -> Result<String, AllocError> {
    let mut text = String::new(alloc);
    let mut hosts = hosts(alloc, TREES, &[])?;
    hosts.steps(files, &mut text)?;
    hosts.steps(lines, &mut text)?;
    add_changes(&hosts, &mut text)?;
    Ok(text)
}

#[test]
fn commands_are_rehearsed(rt: HostRuntime) -> Result<(), Fail> {
    for (files, lines, row) in ROWS {
        expect(&rt, rehearsed(rt.alloc(), files, lines), row)?;
    }
    Ok(())
}

const FAULTS: &[&str] = &[
    "dpkg_cli unpack --assume-failure alpha:preinst:install t",
    "dpkg_cli unpack --dry-run --assume-failure alpha:preinst t",
    "dpkg_cli unpack --dry-run --assume-failure alpha:config:install t",
    "dpkg_cli unpack --dry-run --assume-failure alpha:preinst: t",
    "dpkg_cli unpack --dry-run --assume-failure A:preinst:install t",
    "dpkg_cli list --dry-run",
];

#[test]
fn rehearsals_are_asked_for(rt: HostRuntime) -> Result<(), Fail> {
    for line in FAULTS {
        check_usage(&rt, line)?;
    }
    Ok(())
}
