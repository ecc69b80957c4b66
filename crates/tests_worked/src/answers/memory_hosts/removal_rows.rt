// Packages are removed and purged: the answers, and what is left.
use super::{answers, expect};
use host_core::Outcome;
use std::test::Fail;

// What a root holds first, how calls end, the lines of words, and the row: their answers and what is read.
type RemovalRow = (
    &'static [&'static str],
    &'static [Outcome],
    &'static [&'static str],
    &'static str,
);

const FAILS: Outcome = Outcome::Exit(1);

const SUCCEEDS: Outcome = Outcome::Exit(0);

const PRERM: &str = "write /var/lib/dpkg/info/zulu.prerm #!/bin/sh\n";

const POSTRM: &str = "write /var/lib/dpkg/info/zulu.postrm #!/bin/sh\n";

const POSTINST: &str = "write /var/lib/dpkg/info/zulu.postinst #!/bin/sh\n";

const CONFIGURED: &str =
    "write /var/lib/dpkg/status Package: zulu\nStatus: install ok installed\nVersion: 1\nConffiles:\n /etc/z.conf 0cc175b9c0f1b6a831c399e269772661\n";

const LISTED: &str =
    "write /var/lib/dpkg/info/zulu.list /.\n/etc\n/etc/z.conf\n/opt\n/opt/z\n/opt/z/bin\n";

const WITH_CONFFILE: &[&str] = &[
    CONFIGURED,
    LISTED,
    POSTRM,
    "write /etc/z.conf a",
    "write /opt/z/bin z",
    "write /opt/z/note mine",
];

const PLAIN: &str =
    "write /var/lib/dpkg/status Package: zulu\nStatus: install ok installed\nVersion: 1\n";

const PLAIN_LIST: &str = "write /var/lib/dpkg/info/zulu.list /.\n/opt\n/opt/z\n/opt/z/bin\n";

const REMOVED: RemovalRow = (
    WITH_CONFFILE,
    &[],
    &[
        "dpkg_cli remove zulu",
        "read /opt/z",
        "read /etc/z.conf",
        "dpkg_cli listfiles zulu",
        "dpkg_cli status zulu",
        "dpkg_cli remove zulu",
        "write /etc/z.conf~ 1",
        "write /etc/#z.conf# 2",
        "write /etc/z.conf.dpkg-old 3",
        "dpkg_cli purge zulu",
        "read /",
        "read /opt/z",
        "read /var/lib/dpkg/info",
        "dpkg_cli status zulu",
        "dpkg_cli purge zulu",
    ],
    "call old zulu postrm remove: exit 0
state zulu 1 deinstall ok config-files
done
||0
directory: note
a
/.
/etc
/etc/z.conf
||0
Package: zulu
Status: deinstall ok config-files
Version: 1
Config-Version: 1
Conffiles:
 /etc/z.conf 0cc175b9c0f1b6a831c399e269772661
Removed-Since: yes
||0
refused zulu NothingToRemove
||1
call old zulu postrm purge: exit 0
state zulu none
done
||0
directory: opt var
directory: note
directory:
refused zulu Unknown
||1
refused zulu Unknown
||1
",
);

const PRERM_FAILS: RemovalRow = (
    &[PLAIN, PRERM, POSTINST],
    &[FAILS, FAILS, FAILS],
    &[
        "dpkg_cli remove zulu",
        "dpkg_cli configure",
        "dpkg_cli remove zulu",
    ],
    "call old zulu prerm remove: exit 1
call old zulu postinst abort-remove: exit 1
state zulu 1 install ok half-configured
failed zulu prerm remove
||1
call old zulu postinst configure 1: exit 1
state zulu 1 install ok half-configured
failed zulu postinst configure 1
||1
call old zulu prerm remove: exit 0
state zulu none
done
||0
",
);

const PRERM_UNDONE: RemovalRow = (
    &[PLAIN, PLAIN_LIST, PRERM, POSTINST, "write /opt/z/bin z"],
    &[FAILS],
    &["dpkg_cli remove zulu", "read /opt/z/bin", "dpkg_cli list"],
    "call old zulu prerm remove: exit 1
call old zulu postinst abort-remove: exit 0
state zulu 1 install ok installed
failed zulu prerm remove
||1
z
zulu 1 installed
||0
",
);

const PRERM_ALONE: RemovalRow = (
    &[PLAIN, PRERM],
    &[FAILS],
    &["dpkg_cli purge zulu"],
    "call old zulu prerm remove: exit 1
state zulu 1 install ok installed
failed zulu prerm remove
||1
",
);

const POSTRM_FAILS: RemovalRow = (
    &[PLAIN, PLAIN_LIST, PRERM, POSTRM, "write /opt/z/bin z"],
    &[SUCCEEDS, FAILS],
    &[
        "dpkg_cli remove zulu",
        "read /",
        "dpkg_cli remove zulu",
        "dpkg_cli listfiles zulu",
    ],
    "call old zulu prerm remove: exit 0
call old zulu postrm remove: exit 1
state zulu 1 deinstall ok half-installed
failed zulu postrm remove
||1
directory: made var
call old zulu postrm remove: exit 0
state zulu 1 deinstall ok config-files
done
||0
/.
||0
",
);

const PURGED: RemovalRow = (
    &[PLAIN, PLAIN_LIST, PRERM, POSTRM, "write /opt/z/bin z"],
    &[],
    &[
        "dpkg_cli purge zulu",
        "read /",
        "read /var/lib/dpkg/info",
        "dpkg_cli list",
    ],
    "call old zulu prerm remove: exit 0
call old zulu postrm remove: exit 0
call old zulu postrm purge: exit 0
state zulu none
done
||0
directory: var
directory:
||0
",
);

const PURGE_FAILS: RemovalRow = (
    &[PLAIN, PLAIN_LIST, PRERM, POSTRM, "write /opt/z/bin z"],
    &[SUCCEEDS, SUCCEEDS, FAILS],
    &[
        "dpkg_cli purge zulu",
        "dpkg_cli remove zulu",
        "dpkg_cli purge zulu",
    ],
    "call old zulu prerm remove: exit 0
call old zulu postrm remove: exit 0
call old zulu postrm purge: exit 1
state zulu 1 purge ok config-files
failed zulu postrm purge
||1
refused zulu NothingToRemove
||1
call old zulu postrm purge: exit 0
state zulu none
done
||0
",
);

const REFUSED: RemovalRow = (
    &[
        "write /var/lib/dpkg/status Package: alpha\nStatus: install reinstreq half-installed\nVersion: 1.0\n\nPackage: base\nStatus: install ok installed\nVersion: 1\nEssential: yes\n",
    ],
    &[],
    &[
        "dpkg_cli remove base nobody alpha base",
        "dpkg_cli purge alpha base",
        "dpkg_cli audit",
    ],
    "refused base Essential
refused nobody Unknown
refused alpha Reinstreq
||1
refused alpha Reinstreq
refused base Essential
||1
alpha half-installed reinstreq
||0
",
);

const ECHO_AND_GAMMA: &str =
    "write /var/lib/dpkg/status Package: echo\nStatus: install ok installed\nVersion: 1\nDepends: gamma\n\nPackage: gamma\nStatus: install ok installed\nVersion: 1\n";

const DEPENDED_ON: RemovalRow = (
    &[ECHO_AND_GAMMA],
    &[],
    &["dpkg_cli remove gamma", "dpkg_cli remove gamma echo"],
    "refused gamma DependedOn echo
||1
state echo none
done
state gamma none
done
||0
",
);

const ECHO_WITH_SCRIPTS: &[&str] = &[
    "write /var/lib/dpkg/status Package: echo\nStatus: install ok installed\nVersion: 1\nDepends: gamma\n\nPackage: foxtrot\nStatus: install ok installed\nVersion: 1\n\nPackage: gamma\nStatus: install ok installed\nVersion: 1\n",
    "write /var/lib/dpkg/info/echo.prerm #!/bin/sh\n",
    "write /var/lib/dpkg/info/echo.postinst #!/bin/sh\n",
];

// One that stays installed keeps what it depends on, and the others go.
const STAYS_INSTALLED: RemovalRow = (
    ECHO_WITH_SCRIPTS,
    &[FAILS],
    &["dpkg_cli remove gamma echo foxtrot"],
    "call old echo prerm remove: exit 1
call old echo postinst abort-remove: exit 0
state echo 1 install ok installed
failed echo prerm remove
state foxtrot none
done
refused gamma DependedOn echo
||1
",
);

// Where it is ignored that others depend on them all go, in order as far as that goes.
const DEPENDED_ON_IGNORED: RemovalRow = (
    ECHO_WITH_SCRIPTS,
    &[FAILS],
    &[
        "dpkg_cli remove --force-depends gamma echo foxtrot",
        "dpkg_cli list",
    ],
    "call old echo prerm remove: exit 1
call old echo postinst abort-remove: exit 0
state echo 1 install ok installed
failed echo prerm remove
state foxtrot none
done
state gamma none
done
||1
echo 1 installed
||0
",
);

// One that is only half-configured then needs nothing any more.
const HALF_CONFIGURED: RemovalRow = (
    ECHO_WITH_SCRIPTS,
    &[FAILS, FAILS],
    &["dpkg_cli remove gamma echo foxtrot"],
    "call old echo prerm remove: exit 1
call old echo postinst abort-remove: exit 1
state echo 1 install ok half-configured
failed echo prerm remove
state foxtrot none
done
state gamma none
done
||1
",
);

const CHAIN: RemovalRow = (
    &[
        "write /var/lib/dpkg/status Package: aa\nStatus: install ok installed\nVersion: 1\nDepends: bb\n\nPackage: bb\nStatus: install ok installed\nVersion: 1\nPre-Depends: mail\n\nPackage: cc\nStatus: install ok installed\nVersion: 1\nProvides: mail\n",
    ],
    &[],
    &["dpkg_cli purge cc bb aa"],
    "state aa none
done
state bb none
done
state cc none
done
||0
",
);

// What another package lists stays, and all names beside it.
const SHARED: RemovalRow = (
    &[
        "write /var/lib/dpkg/status Package: gamma\nStatus: install ok installed\nVersion: 1\n\nPackage: zulu\nStatus: install ok installed\nVersion: 1\nConffiles:\n /etc/y.conf 0cc175b9c0f1b6a831c399e269772661\n /etc/z.conf 0cc175b9c0f1b6a831c399e269772661\n",
        "write /var/lib/dpkg/info/gamma.list /.\n/etc\n/etc/z.conf\n/opt\n/opt/both\n",
        "write /var/lib/dpkg/info/zulu.list /.\n/etc\n/etc/y.conf\n/etc/z.conf\n/opt\n/opt/both\n/opt/own\n",
        "write /etc/y.conf a",
        "write /etc/y.conf.dpkg-old a",
        "write /etc/z.conf a",
        "write /etc/z.conf.dpkg-old a",
        "write /opt/both b",
        "write /opt/own o",
    ],
    &[],
    &["dpkg_cli purge zulu", "read /etc", "read /opt"],
    "state zulu none
done
||0
directory: z.conf z.conf.dpkg-old
directory: both
",
);

// A diverted file is removed at its target.
const DIVERTED: RemovalRow = (
    &[PLAIN, PLAIN_LIST, "write /opt/z/bin z"],
    &[],
    &[
        "dpkg_cli divert --local --divert /opt/z/real --rename /opt/z/bin",
        "write /opt/z/bin mine",
        "dpkg_cli remove zulu",
        "read /opt/z",
        "read /opt/z/bin",
    ],
    "done
||0
state zulu none
done
||0
directory: bin
mine
",
);

const NEVER_SETTLED: &str =
    "write /var/lib/dpkg/status Package: zulu\nStatus: install ok unpacked\nVersion: 1\nConffiles:\n /etc/d/x.conf newconffile\nNew-Conffiles:\n /etc/d/x.conf 0cc175b9c0f1b6a831c399e269772661\n";

const NEVER_SETTLED_LIST: &str =
    "write /var/lib/dpkg/info/zulu.list /.\n/etc\n/etc/d\n/etc/d/x.conf\n";

const WAITING: &str = "write /etc/d/x.conf.dpkg-new a";

// Of a package that was never configured no directory above its conffile is left.
const PURGED_UNSETTLED: RemovalRow = (
    &[NEVER_SETTLED, NEVER_SETTLED_LIST, WAITING],
    &[],
    &["dpkg_cli purge zulu", "read /"],
    "state zulu none
done
||0
directory: var
",
);

// A removal keeps that directory in the list, for the postrm may take away what is left there.
const REMOVED_UNSETTLED: RemovalRow = (
    &[NEVER_SETTLED, NEVER_SETTLED_LIST, WAITING, POSTRM],
    &[],
    &[
        "dpkg_cli remove zulu",
        "read /etc/d",
        "dpkg_cli listfiles zulu",
        "dpkg_cli purge zulu",
        "read /",
    ],
    "call old zulu postrm remove: exit 0
state zulu 1 deinstall ok config-files
done
||0
directory:
/.
/etc
/etc/d
||0
call old zulu postrm purge: exit 0
state zulu none
done
||0
directory: var
",
);

// Where another package lists it, it stays.
const SHARED_UNSETTLED: RemovalRow = (
    &[
        "write /var/lib/dpkg/status Package: gamma\nStatus: install ok installed\nVersion: 1\n\nPackage: zulu\nStatus: install ok unpacked\nVersion: 1\nConffiles:\n /etc/d/x.conf newconffile\nNew-Conffiles:\n /etc/d/x.conf 0cc175b9c0f1b6a831c399e269772661\n",
        "write /var/lib/dpkg/info/gamma.list /.\n/etc\n/etc/d\n",
        NEVER_SETTLED_LIST,
        WAITING,
    ],
    &[],
    &["dpkg_cli purge zulu", "read /etc/d"],
    "state zulu none
done
||0
directory:
",
);

const ROWS: &[RemovalRow] = &[
    REMOVED,
    PRERM_FAILS,
    PRERM_UNDONE,
    PRERM_ALONE,
    POSTRM_FAILS,
    PURGED,
    PURGE_FAILS,
    REFUSED,
    DEPENDED_ON,
    STAYS_INSTALLED,
    DEPENDED_ON_IGNORED,
    HALF_CONFIGURED,
    CHAIN,
    SHARED,
    DIVERTED,
    PURGED_UNSETTLED,
    REMOVED_UNSETTLED,
    SHARED_UNSETTLED,
];

#[test]
fn packages_are_removed(rt: HostRuntime) -> Result<(), Fail> {
    for (files, outcomes, lines, row) in ROWS {
        expect(&rt, answers(rt.alloc(), &[], outcomes, files, lines), row)?;
    }
    Ok(())
}
