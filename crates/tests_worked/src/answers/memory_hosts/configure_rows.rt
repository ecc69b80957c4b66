// Packages are configured and installed: the answers, and what is left.
use super::{TreeFile, answers, expect};
use host_core::Outcome;
use std::alloc::{AllocError, Global};
use std::process::Abort;
use std::test::Fail;

// What a root holds first, how calls end, the lines of words, and the row: their answers and what is read.
type PackageRow = (
    &'static [&'static str],
    &'static [Outcome],
    &'static [&'static str],
    &'static str,
);

const SCRIPT: &str = "#!/bin/sh\n";

const CONTROL: &str = "/DEBIAN/control";

const FAILS: Outcome = Outcome::Exit(1);

const SUCCEEDS: Outcome = Outcome::Exit(0);

const TREES: &[TreeFile] = &[
    ("alpha", CONTROL, "Package: alpha\nVersion: 1.0\n"),
    ("alpha", "/DEBIAN/preinst", SCRIPT),
    ("alpha", "/DEBIAN/postinst", SCRIPT),
    ("bravo", CONTROL, "Package: bravo\nVersion: 2\n"),
    ("bravo", "/DEBIAN/preinst", SCRIPT),
    ("zulu", CONTROL, "Package: zulu\nVersion: 2\n"),
    ("zulu", "/DEBIAN/conffiles", "/etc/z.conf\n"),
    ("zulu", "/etc/z.conf", "c"),
    ("flag", CONTROL, "Package: zulu\nVersion: 2\n"),
    (
        "flag",
        "/DEBIAN/conffiles",
        "remove-on-upgrade /etc/z.conf\n",
    ),
    ("flag", "/etc/other", "o"),
];

const CONFIGURED: PackageRow = (
    &[],
    &[],
    &[
        "dpkg_cli unpack alpha",
        "dpkg_cli configure alpha alpha",
        "dpkg_cli configure alpha",
        "dpkg_cli configure",
        "dpkg_cli status alpha",
    ],
    "call new alpha preinst install: exit 0
state alpha 1.0 install ok unpacked
done
||0
call old alpha postinst configure \"\": exit 0
state alpha 1.0 install ok installed
done
||0
refused alpha WrongState
||1
||0
Package: alpha
Status: install ok installed
Version: 1.0
||0
",
);

const POSTINST_FAILS: PackageRow = (
    &[],
    &[SUCCEEDS, FAILS],
    &[
        "dpkg_cli unpack alpha",
        "dpkg_cli configure alpha",
        "dpkg_cli configure",
    ],
    "call new alpha preinst install: exit 0
state alpha 1.0 install ok unpacked
done
||0
call old alpha postinst configure \"\": exit 1
state alpha 1.0 install ok half-configured
failed alpha postinst configure \"\"
||1
call old alpha postinst configure \"\": exit 0
state alpha 1.0 install ok installed
done
||0
",
);

const REFUSED: PackageRow = (
    &[
        "write /var/lib/dpkg/status Package: alpha\nStatus: install reinstreq half-configured\nVersion: 1\n\nPackage: bravo\nStatus: install ok unpacked\nVersion: 1\n\nPackage: delta\nStatus: install ok installed\nVersion: 1\nBreaks: bravo (<< 2)\n",
    ],
    &[],
    &["dpkg_cli configure no-such.name A alpha delta bravo alpha"],
    "refused no-such.name Unknown
refused A Unknown
refused alpha Reinstreq
refused delta WrongState
refused bravo BrokenBy delta
||1
",
);

const LOOP: &str =
    "write /var/lib/dpkg/status Package: aa\nStatus: install ok unpacked\nVersion: 1\nDepends: bb\n\nPackage: bb\nStatus: install ok unpacked\nVersion: 1\nDepends: cc\n\nPackage: cc\nStatus: install ok unpacked\nVersion: 1\nDepends: aa\n";

const NO_LOOP: &str =
    "write /var/lib/dpkg/status Package: aa\nStatus: install ok unpacked\nVersion: 1\nDepends: bb\n\nPackage: bb\nStatus: install ok unpacked\nVersion: 1\nDepends: cc\n\nPackage: cc\nStatus: install ok unpacked\nVersion: 1\nDepends: aa, mm\n";

const AA_POSTINST: &str = "write /var/lib/dpkg/info/aa.postinst #!/bin/sh\n";

const BB_POSTINST: &str = "write /var/lib/dpkg/info/bb.postinst #!/bin/sh\n";

// The one without a postinst is first.
const ROUND: PackageRow = (
    &[LOOP, AA_POSTINST, BB_POSTINST],
    &[],
    &["dpkg_cli configure aa bb cc"],
    "state cc 1 install ok installed
done
call old bb postinst configure \"\": exit 0
state bb 1 install ok installed
done
call old aa postinst configure \"\": exit 0
state aa 1 install ok installed
done
||0
",
);

const UNMET: PackageRow = (
    &[NO_LOOP, AA_POSTINST, BB_POSTINST],
    &[],
    &["dpkg_cli configure aa bb cc", "dpkg_cli list"],
    "refused aa Depends bb
refused bb Depends cc
refused cc Depends aa
||1
aa 1 unpacked
bb 1 unpacked
cc 1 unpacked
||0
",
);

// Where Depends are ignored the first of those left over goes, and what it lets go in order is behind it.
const UNMET_IGNORED: PackageRow = (
    &[NO_LOOP, AA_POSTINST, BB_POSTINST],
    &[SUCCEEDS, FAILS],
    &["dpkg_cli configure --force-depends cc bb aa"],
    "call old aa postinst configure \"\": exit 0
state aa 1 install ok installed
done
call old bb postinst configure \"\": exit 1
state bb 1 install ok half-configured
failed bb postinst configure \"\"
state cc 1 install ok installed
done
||1
",
);

const IN_ORDER_FIRST: &str =
    "write /var/lib/dpkg/status Package: aa\nStatus: install ok unpacked\nVersion: 1\nDepends: bb\n\nPackage: bb\nStatus: install ok unpacked\nVersion: 1\nPre-Depends: mm\n\nPackage: cc\nStatus: install ok unpacked\nVersion: 1\n\nPackage: dd\nStatus: install ok unpacked\nVersion: 1\nDepends: mm\n\nPackage: ee\nStatus: install ok unpacked\nVersion: 1\nDepends: dd\n\nPackage: ff\nStatus: install ok installed\nVersion: 1\nBreaks: dd\n";

const IGNORED: PackageRow = (
    &[IN_ORDER_FIRST],
    &[],
    &[
        "dpkg_cli configure bb cc",
        "dpkg_cli configure --force-depends",
    ],
    "state cc 1 install ok installed
done
refused bb Depends mm
||1
state aa 1 install ok installed
done
state bb 1 install ok installed
done
refused dd BrokenBy ff
state ee 1 install ok installed
done
||1
",
);

const ZULU: &str =
    "write /var/lib/dpkg/status Package: zulu\nStatus: install ok installed\nVersion: 1\nConffiles:\n /etc/z.conf 0cc175b9c0f1b6a831c399e269772661\n";

const ZULU_LIST: &str = "write /var/lib/dpkg/info/zulu.list /.\n/etc\n/etc/z.conf\n";

const INSTALLED: PackageRow = (
    &[ZULU, ZULU_LIST, "write /etc/z.conf b"],
    &[],
    &[
        "dpkg_cli install --force-confnew zulu",
        "read /etc",
        "read /etc/z.conf",
        "read /etc/z.conf.dpkg-old",
        "dpkg_cli status zulu",
    ],
    "state zulu 2 install ok unpacked
done
state zulu 2 install ok installed
done
||0
directory: z.conf z.conf.dpkg-old
c
b
Package: zulu
Status: install ok installed
Version: 2
Conffiles:
 /etc/z.conf 4a8a08f09d37b73795649038408b5f33
||0
",
);

const NO_FILE: PackageRow = (
    &[
        ZULU,
        ZULU_LIST,
        "write /etc/z.conf b",
        "write /etc/z.conf.dpkg-old/below b",
    ],
    &[],
    &["dpkg_cli install --force-confnew zulu", "dpkg_cli list"],
    "state zulu 2 install ok unpacked
done
refused zulu ConffileKind /etc/z.conf.dpkg-old
||1
zulu 2 unpacked
||0
",
);

// Only what is unpacked is configured, and each of several.
const SOME_INSTALLED: PackageRow = (
    &[],
    &[FAILS],
    &["dpkg_cli install bravo alpha missing", "dpkg_cli list"],
    "call new bravo preinst install: exit 1
state bravo none
failed bravo preinst install
call new alpha preinst install: exit 0
state alpha 1.0 install ok unpacked
done
refused missing NoControl
call old alpha postinst configure \"\": exit 0
state alpha 1.0 install ok installed
done
||1
alpha 1.0 installed
||0
",
);

const UNCHANGED_GOES: PackageRow = (
    &[ZULU, ZULU_LIST, "write /etc/z.conf a"],
    &[],
    &[
        "dpkg_cli install flag",
        "read /etc",
        "dpkg_cli listfiles zulu",
        "dpkg_cli status zulu",
    ],
    "state zulu 2 install ok unpacked
done
state zulu 2 install ok installed
done
||0
directory: other
/.
/etc
/etc/other
||0
Package: zulu
Status: install ok installed
Version: 2
||0
",
);

const EDITED_IS_KEPT: PackageRow = (
    &[ZULU, ZULU_LIST, "write /etc/z.conf b"],
    &[],
    &[
        "dpkg_cli install flag",
        "read /etc",
        "read /etc/z.conf.dpkg-old",
    ],
    "state zulu 2 install ok unpacked
done
state zulu 2 install ok installed
done
||0
directory: other z.conf.dpkg-old
b
",
);

const MISSING_STAYS_SO: PackageRow = (
    &[ZULU, ZULU_LIST],
    &[],
    &["dpkg_cli install flag", "read /etc"],
    "state zulu 2 install ok unpacked
done
state zulu 2 install ok installed
done
||0
directory: other
",
);

const OF_THE_ADMINISTRATOR: PackageRow = (
    &["write /etc/z.conf mine"],
    &[],
    &["dpkg_cli install flag", "read /etc", "read /etc/z.conf"],
    "state zulu 2 install ok unpacked
done
state zulu 2 install ok installed
done
||0
directory: other z.conf
mine
",
);

const ROWS: &[PackageRow] = &[
    CONFIGURED,
    POSTINST_FAILS,
    REFUSED,
    ROUND,
    UNMET,
    UNMET_IGNORED,
    IGNORED,
    INSTALLED,
    NO_FILE,
    SOME_INSTALLED,
    UNCHANGED_GOES,
    EDITED_IS_KEPT,
    MISSING_STAYS_SO,
    OF_THE_ADMINISTRATOR,
];

#[test]
fn packages_are_configured(rt: HostRuntime) -> Result<(), Fail> {
    for (files, outcomes, lines, row) in ROWS {
        expect(&rt, answers(rt.alloc(), TREES, outcomes, files, lines), row)?;
    }
    Ok(())
}

// How a conffile is settled: the digest of the last version settled, what the file holds (nothing where it is missing)
// and what is shipped with its digest; the flag that is given; and the names in the directory and what the file holds
// then.
type SettledRow = (
    (&'static str, &'static str, (&'static str, &'static str)),
    &'static str,
    (&'static str, &'static str),
);

const NONE: &str = "newconffile";

const A: &str = "0cc175b9c0f1b6a831c399e269772661";

const SHIPPED_A: (&str, &str) = ("a", A);

const SHIPPED_B: (&str, &str) = ("b", "92eb5ffee6ae2fec3ad71c777531578f");

const SHIPPED_C: (&str, &str) = ("c", "4a8a08f09d37b73795649038408b5f33");

const SETTLED: &[SettledRow] = &[
    ((NONE, "", SHIPPED_B), "", (" z.conf", "b")),
    ((NONE, "b", SHIPPED_B), "", (" z.conf", "b")),
    (
        (NONE, "a", SHIPPED_B),
        "",
        (" z.conf z.conf.dpkg-dist", "a"),
    ),
    (
        (NONE, "a", SHIPPED_B),
        "--force-confnew ",
        (" z.conf z.conf.dpkg-old", "b"),
    ),
    ((A, "", SHIPPED_A), "", ("", "")),
    ((A, "", SHIPPED_A), "--force-confnew ", ("", "")),
    ((A, "", SHIPPED_A), "--force-confmiss ", (" z.conf", "a")),
    ((A, "", SHIPPED_B), "", ("", "")),
    ((A, "", SHIPPED_B), "--force-confold ", ("", "")),
    ((A, "", SHIPPED_B), "--force-confnew ", (" z.conf", "b")),
    ((A, "", SHIPPED_B), "--force-confmiss ", (" z.conf", "b")),
    ((A, "b", SHIPPED_B), "", (" z.conf", "b")),
    ((A, "a", SHIPPED_B), "", (" z.conf", "b")),
    ((A, "b", SHIPPED_A), "--force-confnew ", (" z.conf", "b")),
    ((A, "b", SHIPPED_C), "", (" z.conf z.conf.dpkg-dist", "b")),
    (
        (A, "b", SHIPPED_C),
        "--force-confold ",
        (" z.conf z.conf.dpkg-dist", "b"),
    ),
    (
        (A, "b", SHIPPED_C),
        "--force-confnew ",
        (" z.conf z.conf.dpkg-old", "c"),
    ),
];

// What the status file says of the package that is to be configured.
fn unsettled(alloc: Global, recorded: &str, digest: &str) -> Result<String, AllocError> {
    format!(in alloc;
        "write /var/lib/dpkg/status Package: zulu\nStatus: install ok unpacked\nVersion: 2\nConfig-Version: 1\nConffiles:\n /etc/z.conf {recorded}\nNew-Conffiles:\n /etc/z.conf {digest}\n"
    )
}

// The same as dpkg says it.
fn unsettled_by_dpkg(alloc: Global, recorded: &str) -> Result<String, AllocError> {
    format!(in alloc;
        "write /var/lib/dpkg/status Package: zulu\nStatus: install ok unpacked\nVersion: 2\nConfig-Version: 1\nConffiles:\n /etc/z.conf {recorded}\n"
    )
}

// The answers, and what they are to be.
fn settle(alloc: Global, row: &SettledRow, by_dpkg: bool) -> Result<(String, String), AllocError> {
    let ((recorded, current, (shipped, digest)), flag, (names, holds)) = *row;
    let status = match by_dpkg {
        true => unsettled_by_dpkg(alloc, recorded)?,
        false => unsettled(alloc, recorded, digest)?,
    };
    let file = match current {
        "" => String::from_str(alloc, "write /etc/motd")?,
        text => format!(in alloc; "write /etc/z.conf {text}")?,
    };
    let new = format!(in alloc; "write /etc/z.conf.dpkg-new {shipped}")?;
    let files = [status.as_str(), ZULU_LIST, file.as_str(), new.as_str()];
    let line = format!(in alloc; "dpkg_cli configure {flag}zulu")?;
    let lines = [
        line.as_str(),
        "read /etc",
        "read /etc/z.conf",
        "dpkg_cli status zulu",
    ];
    let told = answers(alloc, TREES, &[], &files, &lines)?;
    let wanted = format!(in alloc;
        "state zulu 2 install ok installed\ndone\n||0\ndirectory:{names}\n{holds}\nPackage: zulu\nStatus: install ok installed\nVersion: 2\nConffiles:\n /etc/z.conf {digest}\n||0\n"
    )?;
    Ok((told, wanted))
}

// Stops the test where a conffile isn't settled as the row says, be it unpacked by the program or by dpkg.
fn check_settled(rt: &(impl Abort + AllocGlobal), row: &SettledRow) -> Result<(), Fail> {
    for by_dpkg in [false, true] {
        let (told, wanted) = settle(rt.alloc(), row, by_dpkg)?;
        assert_eq!(rt; told.as_str(), wanted.as_str());
    }
    Ok(())
}

// A root with `/lib -> usr/lib`, and a package whose conffiles are listed below the link. The one at `/lib/a.conf` is shipped at
// `/usr/lib/a.conf` now, and flagged under its old name.
const BEHIND_A_LINK: &[&str] = &[
    "write /usr/lib/a.conf a",
    "write /usr/lib/a.conf.dpkg-new b",
    "write /usr/lib/z.conf edited",
    "write /usr/lib/z.conf.dpkg-new c",
    "link /lib usr/lib",
    "write /var/lib/dpkg/info/zulu.list /.\n/lib\n/lib/a.conf\n/lib/z.conf\n/usr\n/usr/lib\n/usr/lib/a.conf\n",
    "write /var/lib/dpkg/status Package: zulu\nStatus: install ok unpacked\nVersion: 2\nConfig-Version: 1\nConffiles:\n /lib/a.conf 0cc175b9c0f1b6a831c399e269772661 remove-on-upgrade\n /lib/z.conf 92eb5ffee6ae2fec3ad71c777531578f\n /usr/lib/a.conf newconffile\nNew-Conffiles:\n /lib/z.conf 4a8a08f09d37b73795649038408b5f33\n /usr/lib/a.conf 92eb5ffee6ae2fec3ad71c777531578f\n",
];

const SETTLED_BEHIND_A_LINK: &str = "state zulu 2 install ok installed
done
||0
directory: a.conf a.conf.dpkg-dist z.conf z.conf.dpkg-dist
a
edited
Package: zulu
Status: install ok installed
Version: 2
Conffiles:
 /lib/z.conf 4a8a08f09d37b73795649038408b5f33
 /usr/lib/a.conf 92eb5ffee6ae2fec3ad71c777531578f
||0
";

#[test]
fn conffiles_are_settled_where_links_lead(rt: HostRuntime) -> Result<(), Fail> {
    let lines = [
        "dpkg_cli configure zulu",
        "read /usr/lib",
        "read /usr/lib/a.conf",
        "read /usr/lib/z.conf",
        "dpkg_cli status zulu",
    ];
    let told = answers(rt.alloc(), TREES, &[], BEHIND_A_LINK, &lines);
    expect(&rt, told, SETTLED_BEHIND_A_LINK)
}

#[test]
fn conffiles_are_settled(rt: HostRuntime) -> Result<(), Fail> {
    for row in SETTLED {
        check_settled(&rt, row)?;
    }
    Ok(())
}
