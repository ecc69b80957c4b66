// Unpacks of packages with files from each state: the answers, and what is left.
use super::{TreeFile, answers, expect};
use host_core::Outcome;
use std::test::Fail;

// What a root holds first, trees, how calls end, the lines of words, and the row: their answers and what is read.
type FileRow = (
    &'static [&'static str],
    &'static [Outcome],
    &'static [&'static str],
    &'static str,
);

const SCRIPT: &str = "#!/bin/sh\n";

const CONTROL: &str = "/DEBIAN/control";

const FAILS: Outcome = Outcome::Exit(1);

const SUCCEEDS: Outcome = Outcome::Exit(0);

const TREES: &[TreeFile] = &[
    ("alpha", CONTROL, "Package: alpha\nVersion: 2.0\n"),
    ("alpha", "/DEBIAN/preinst", SCRIPT),
    ("alpha", "/DEBIAN/postinst", SCRIPT),
    ("alpha", "/DEBIAN/prerm", SCRIPT),
    ("alpha", "/DEBIAN/postrm", SCRIPT),
    ("alpha", "/usr/bin/a", "new"),
    ("bare", CONTROL, "Package: alpha\nVersion: 2.0\n"),
    ("back", CONTROL, "Package: alpha\nVersion: 2.0\n"),
    ("back", "/DEBIAN/preinst", SCRIPT),
    ("back", "/DEBIAN/postrm", SCRIPT),
    ("clash", CONTROL, "Package: alpha\nVersion: 2.0\n"),
    ("clash", "/DEBIAN/preinst", SCRIPT),
    ("clash", "/DEBIAN/postrm", SCRIPT),
    ("clash", "/usr/bin/x", "new"),
    ("twice", CONTROL, "Package: alpha\nVersion: 2.0\n"),
    ("twice", "/usr/bin/x", "new"),
    ("twice", "/usr/bin/y", "new"),
    ("target", CONTROL, "Package: alpha\nVersion: 2.0\n"),
    ("target", "/DEBIAN/preinst", SCRIPT),
    ("target", "/DEBIAN/postrm", SCRIPT),
    ("target", "/usr/bin/x.real", "new"),
    ("under", CONTROL, "Package: alpha\nVersion: 2.0\n"),
    ("under", "/usr/bin/x.real/f", "new"),
    ("victor", CONTROL, "Package: victor\nVersion: 2\n"),
    ("victor", "/usr/bin/v", "two"),
    ("zulu", CONTROL, "Package: zulu\nVersion: 2\n"),
    (
        "zulu",
        "/DEBIAN/conffiles",
        "/etc/new\n/etc/same\nremove-on-upgrade /etc/gone\n",
    ),
    ("zulu", "/etc/new", "a"),
    ("zulu", "/etc/same", "b"),
    ("zulu", "/etc/plain", "c"),
    ("new", CONTROL, "Package: new\nVersion: 1\n"),
    ("new", "/DEBIAN/conffiles", "/etc/q\n"),
    ("new", "/etc/q", "q"),
    ("sigma", CONTROL, "Package: sigma\nVersion: 1\n"),
    ("sigma", "/a", "s"),
    ("sigma", "/z/b", "s"),
];

const INSTALLED: &str =
    "write /var/lib/dpkg/status Package: alpha\nStatus: install ok installed\nVersion: 1.0\n";

const CONFIG_FILES: &str =
    "write /var/lib/dpkg/status Package: alpha\nStatus: deinstall ok config-files\nVersion: 1.0\n";

const OLD_LIST: &str = "write /var/lib/dpkg/info/alpha.list /.\n/usr\n/usr/bin\n/usr/bin/a\n";

const OLD_PREINST: &str = "write /var/lib/dpkg/info/alpha.preinst #!/bin/sh\nold";

const OLD_POSTINST: &str = "write /var/lib/dpkg/info/alpha.postinst #!/bin/sh\nold";

const OLD_PRERM: &str = "write /var/lib/dpkg/info/alpha.prerm #!/bin/sh\nold";

const OLD_POSTRM: &str = "write /var/lib/dpkg/info/alpha.postrm #!/bin/sh\nold";

const WHOLE: &[&str] = &[
    INSTALLED,
    OLD_LIST,
    OLD_PREINST,
    OLD_POSTINST,
    OLD_PRERM,
    OLD_POSTRM,
    "write /usr/bin/a old",
];

const FROM_CONFIG_FILES: FileRow = (
    &[CONFIG_FILES],
    &[FAILS],
    &["dpkg_cli unpack back", "dpkg_cli list"],
    "call new alpha preinst install 1.0 2.0: exit 1
call new alpha postrm abort-install 1.0 2.0: exit 0
state alpha 1.0 deinstall ok config-files
failed alpha preinst install 1.0 2.0
||1
alpha 1.0 config-files
||0
",
);

const PRERM_FAILS: FileRow = (
    &[INSTALLED, OLD_PRERM, OLD_POSTINST],
    &[Outcome::Exit(2)],
    &["dpkg_cli unpack bare"],
    "call old alpha prerm upgrade 2.0: exit 2
call old alpha postinst abort-upgrade 2.0: exit 0
state alpha 1.0 install ok installed
failed alpha prerm upgrade 2.0
||1
",
);

const POSTRM_FAILS: FileRow = (
    WHOLE,
    &[SUCCEEDS, SUCCEEDS, FAILS, FAILS],
    &[
        "dpkg_cli unpack alpha",
        "read /usr/bin/a",
        "read /usr/bin",
        "dpkg_cli listfiles alpha",
    ],
    "call old alpha prerm upgrade 2.0: exit 0
call new alpha preinst upgrade 1.0 2.0: exit 0
call old alpha postrm upgrade 2.0: exit 1
call new alpha postrm failed-upgrade 1.0 2.0: exit 1
call old alpha preinst abort-upgrade 2.0: exit 0
call new alpha postrm abort-upgrade 1.0 2.0: exit 0
call old alpha postinst abort-upgrade 2.0: exit 0
state alpha 1.0 install ok installed
failed alpha postrm upgrade 2.0
||1
old
directory: a
/.
/usr
/usr/bin
/usr/bin/a
||0
",
);

const UPGRADED: FileRow = (
    WHOLE,
    &[],
    &[
        "dpkg_cli unpack alpha",
        "read /usr/bin/a",
        "read /usr/bin",
        "read /var/lib/dpkg/info/alpha.prerm",
        "dpkg_cli status alpha",
    ],
    "call old alpha prerm upgrade 2.0: exit 0
call new alpha preinst upgrade 1.0 2.0: exit 0
call old alpha postrm upgrade 2.0: exit 0
state alpha 2.0 install ok unpacked
done
||0
new
directory: a
#!/bin/sh

Package: alpha
Status: install ok unpacked
Version: 2.0
Config-Version: 1.0
||0
",
);

const FILES_GO: FileRow = (
    &[
        INSTALLED,
        OLD_LIST,
        "write /usr/bin/a old",
        "write /usr/bin/b other",
    ],
    &[],
    &[
        "dpkg_cli unpack bare",
        "read /usr/bin",
        "dpkg_cli listfiles alpha",
    ],
    "state alpha 2.0 install ok unpacked
done
||0
directory: b
/.
||0
",
);

const CLASHES: FileRow = (
    &[
        "write /var/lib/dpkg/status Package: gamma\nStatus: install ok installed\nVersion: 1\n",
        "write /var/lib/dpkg/info/gamma.list /.\n/usr\n/usr/bin\n/usr/bin/x\n/usr/bin/y\n",
        "write /usr/bin/x old",
    ],
    &[],
    &[
        "dpkg_cli unpack clash",
        "read /usr/bin/x",
        "dpkg_cli unpack twice",
        "read /usr/bin",
    ],
    "call new alpha preinst install: exit 0
call new alpha postrm abort-install: exit 0
state alpha none
failed alpha Clash /usr/bin/x gamma
||1
old
state alpha none
failed alpha Clash /usr/bin/x gamma
||1
directory: x
",
);

const YIELDS: FileRow = (
    &[
        "write /var/lib/dpkg/status Package: gamma\nStatus: deinstall ok config-files\nVersion: 1\nConffiles:\n /usr/bin/x 0cc175b9c0f1b6a831c399e269772661\n /usr/bin/z 0cc175b9c0f1b6a831c399e269772661\n",
        "write /var/lib/dpkg/info/gamma.list /.\n/usr\n/usr/bin\n/usr/bin/x\n/usr/bin/z\n",
        "write /usr/bin/x old",
    ],
    &[],
    &[
        "dpkg_cli unpack twice",
        "read /usr/bin/x",
        "dpkg_cli listfiles gamma",
        "dpkg_cli status gamma",
        "dpkg_cli search /usr/bin/x",
    ],
    "state alpha 2.0 install ok unpacked
state gamma 1 deinstall ok config-files
done
||0
new
/.
/usr
/usr/bin
/usr/bin/z
||0
Package: gamma
Status: deinstall ok config-files
Version: 1
Conffiles:
 /usr/bin/z 0cc175b9c0f1b6a831c399e269772661
||0
alpha: /usr/bin/x
||0
",
);

const IN_WAY: FileRow = (
    &["write /usr/bin/x/y z"],
    &[],
    &["dpkg_cli unpack twice"],
    "state alpha none
failed alpha DirInWay /usr/bin/x
||1
",
);

const DIRECTORY_FOR_FILE: FileRow = (
    &["write /usr file"],
    &[],
    &["dpkg_cli unpack twice", "read /", "read /usr/bin/y"],
    "state alpha 2.0 install ok unpacked
done
||0
directory: usr var
new
",
);

const DIVERTED: FileRow = (
    &[
        "write /var/lib/dpkg/status Package: victor\nStatus: install ok installed\nVersion: 1\n",
        "write /var/lib/dpkg/info/victor.list /.\n/usr\n/usr/bin\n/usr/bin/v\n",
        "write /usr/bin/v one",
    ],
    &[],
    &[
        "dpkg_cli divert --local --divert /usr/bin/v.real --rename /usr/bin/v",
        "dpkg_cli unpack victor",
        "read /usr/bin",
        "read /usr/bin/v.real",
    ],
    "done
||0
state victor 2 install ok unpacked
done
||0
directory: v.real
two
",
);

// What is shipped as the target of a diversion is refused, whoever's it is; what one moves there isn't.
const TARGETS: FileRow = (
    &[],
    &[],
    &[
        "dpkg_cli divert --package victor --divert /usr/bin/x.real /usr/bin/x",
        "dpkg_cli unpack target",
        "dpkg_cli unpack under",
        "read /",
        "dpkg_cli undivert --package victor /usr/bin/x",
        "dpkg_cli divert --package alpha --divert /usr/bin/x.real /usr/bin/x",
        "dpkg_cli unpack target",
        "dpkg_cli undivert --package alpha /usr/bin/x",
        "dpkg_cli divert --local --divert /usr/bin/x.real /usr/bin/x",
        "dpkg_cli unpack target",
        "dpkg_cli unpack twice",
        "read /usr/bin",
    ],
    "done
||0
call new alpha preinst install: exit 0
call new alpha postrm abort-install: exit 0
state alpha none
failed alpha DiversionTarget /usr/bin/x.real victor
||1
state alpha none
failed alpha DiversionTarget /usr/bin/x.real victor
||1
directory: var
done
||0
done
||0
call new alpha preinst install: exit 0
call new alpha postrm abort-install: exit 0
state alpha none
failed alpha DiversionTarget /usr/bin/x.real alpha
||1
done
||0
done
||0
call new alpha preinst install: exit 0
call new alpha postrm abort-install: exit 0
state alpha none
failed alpha DiversionTarget /usr/bin/x.real
||1
state alpha 2.0 install ok unpacked
done
||0
directory: x.real y
",
);

const DIVERTED_CONFFILE: FileRow = (
    &[],
    &[],
    &["dpkg_cli divert --local /etc/q", "dpkg_cli unpack new"],
    "done
||0
refused new ConffileDiverted /etc/q
||1
",
);

const DIVERTED_HOME: FileRow = (
    &[],
    &[],
    &[
        "dpkg_cli divert --local --divert /z/t /a",
        "dpkg_cli unpack sigma",
        "read /z",
        "read /",
    ],
    "done
||0
state sigma 1 install ok unpacked
done
||0
directory: b t
directory: var z
",
);

// Of each kind an entry: shipped and new, shipped as before, flagged, shipped as a plain file, not shipped any more, and
// one that was never settled.
const CONFFILES: FileRow = (
    &[
        "write /var/lib/dpkg/status Package: zulu\nStatus: install ok installed\nVersion: 1\nConffiles:\n /etc/fresh newconffile\n /etc/gone 0cc175b9c0f1b6a831c399e269772661\n /etc/left 0cc175b9c0f1b6a831c399e269772661\n /etc/plain 0cc175b9c0f1b6a831c399e269772661\n /etc/same 0cc175b9c0f1b6a831c399e269772661\n",
        "write /var/lib/dpkg/info/zulu.list /.\n/etc\n/etc/fresh\n/etc/gone\n/etc/left\n/etc/plain\n/etc/same\n",
        "write /etc/fresh.dpkg-new x",
        "write /etc/gone a",
        "write /etc/left a",
        "write /etc/plain a",
        "write /etc/same edited",
    ],
    &[],
    &[
        "dpkg_cli unpack zulu",
        "dpkg_cli status zulu",
        "dpkg_cli listfiles zulu",
        "read /etc",
        "read /etc/same",
        "read /etc/same.dpkg-new",
        "read /etc/plain",
    ],
    "state zulu 2 install ok unpacked
done
||0
Package: zulu
Status: install ok unpacked
Version: 2
Config-Version: 1
Conffiles:
 /etc/gone 0cc175b9c0f1b6a831c399e269772661 remove-on-upgrade
 /etc/left 0cc175b9c0f1b6a831c399e269772661 obsolete
 /etc/new newconffile
 /etc/same 0cc175b9c0f1b6a831c399e269772661
New-Conffiles:
 /etc/new 0cc175b9c0f1b6a831c399e269772661
 /etc/same 92eb5ffee6ae2fec3ad71c777531578f
||0
/.
/etc
/etc/gone
/etc/left
/etc/new
/etc/plain
/etc/same
||0
directory: gone left new.dpkg-new plain same same.dpkg-new
edited
b
c
",
);

// A unit was cut whose tree ships the conffiles /etc/cut and /etc/kept: what waits beside them goes, unless a directory stands there.
const CUT: FileRow = (
    &[
        "write /var/lib/dpkg/status Package: sigma\nStatus: install reinstreq half-installed\nVersion: 1\n",
        "write /var/lib/dpkg/info/sigma.list /.\n/a\n/etc\n/etc/cut\n/etc/kept\n/z\n/z/b\n",
        "write /etc/cut.dpkg-new x",
        "write /etc/kept.dpkg-new/note x",
        "write /etc/other.dpkg-new x",
        "write /z.dpkg-new x",
    ],
    &[],
    &["dpkg_cli unpack sigma", "read /etc", "read /"],
    "state sigma 1 install ok unpacked
done
||0
directory: kept.dpkg-new other.dpkg-new
directory: a etc var z z.dpkg-new
",
);

const ROWS: &[FileRow] = &[
    FROM_CONFIG_FILES,
    PRERM_FAILS,
    POSTRM_FAILS,
    UPGRADED,
    FILES_GO,
    CLASHES,
    YIELDS,
    IN_WAY,
    DIRECTORY_FOR_FILE,
    DIVERTED,
    TARGETS,
    DIVERTED_CONFFILE,
    DIVERTED_HOME,
    CONFFILES,
    CUT,
];

#[test]
fn packages_are_unpacked(rt: HostRuntime) -> Result<(), Fail> {
    for (files, outcomes, lines, row) in ROWS {
        expect(&rt, answers(rt.alloc(), TREES, outcomes, files, lines), row)?;
    }
    Ok(())
}
