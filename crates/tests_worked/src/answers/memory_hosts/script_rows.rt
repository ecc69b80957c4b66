// Unpacks over a root in memory: the answers, and what is left.
use super::{TreeFile, check, told};
use host_core::Outcome;
use std::process::Abort;
use std::test::Fail;

const CONTROL: &str = "/DEBIAN/control";

const ALPHA: &str = "Package: alpha\nVersion: 1.0\n";

pub(crate) const WITH_PREINST: &[TreeFile] = &[
    ("t", CONTROL, ALPHA),
    ("t", "/DEBIAN/preinst", "#!/bin/sh\n"),
];

pub(crate) const WITH_POSTRM: &[TreeFile] = &[
    ("t", CONTROL, ALPHA),
    ("t", "/DEBIAN/preinst", "#!/bin/sh\n"),
    ("t", "/DEBIAN/postrm", "#!/bin/sh\n"),
];

// Its name has 201 letters.
const LONG_NAME: &str =
    "Package: aaaaaaaaaaaaaaaaaaaaaaaaaaaaaaaaaaaaaaaaaaaaaaaaaaaaaaaaaaaaaaaaaaaaaaaaa\
aaaaaaaaaaaaaaaaaaaaaaaaaaaaaaaaaaaaaaaaaaaaaaaaaaaaaaaaaaaaaaaaaaaaaaaaaaaaaaaaaaaaaaaaaaaaa\
aaaaaaaaaaaaaaaaaaaaaaaaaaaaaaaaaaa
Version: 1.0
";

// Trees that are named by what is refused of them, and two that are not.
pub(crate) const TREES: &[TreeFile] = &[
    ("empty", "/DEBIAN/preinst", "#!/bin/sh\n"),
    ("bare", CONTROL, "Package: alpha\n"),
    ("colon", CONTROL, "Package\n"),
    ("name", CONTROL, "Package: A\nVersion: 1.0\n"),
    ("long", CONTROL, LONG_NAME),
    ("version", CONTROL, "Package: alpha\nVersion: 1_0\n"),
    (
        "essential",
        CONTROL,
        "Package: alpha\nVersion: 1.0\nEssential: maybe\n",
    ),
    (
        "bar",
        CONTROL,
        "Package: alpha\nVersion: 1.0\nBreaks: bravo\nDepends: |\n",
    ),
    (
        "folded",
        CONTROL,
        "Package: alpha\nVersion: 1.0\nBreaks: bravo,\n charlie (>= )\n",
    ),
    (
        "needs",
        CONTROL,
        "Package: alpha\nVersion: 1.0\nPre-Depends: bravo | charlie\n",
    ),
    ("conffile", CONTROL, ALPHA),
    ("conffile", "/DEBIAN/conffiles", "/etc/x\n"),
    (
        "both",
        CONTROL,
        "Package: alpha\nVersion: 1.0\nPre-Depends: bravo\n",
    ),
    ("both", "/DEBIAN/conffiles", "/etc/x\n"),
    ("both", "/etc/x", "x"),
    ("inside", CONTROL, ALPHA),
    ("inside", "/DEBIAN/conffiles", "/etc/q\n"),
    ("inside", "/etc/q/x", "x"),
    ("lines", CONTROL, ALPHA),
    ("lines", "/DEBIAN/conffiles", "/etc/z \n\n/etc/x\n/etc/a\n"),
    ("lines", "/etc/x", "x"),
    ("shipped", CONTROL, ALPHA),
    (
        "shipped",
        "/DEBIAN/conffiles",
        "keep /etc/q\nremove-on-upgrade /etc/q\n",
    ),
    ("shipped", "/etc/q", "x"),
    ("keep", CONTROL, ALPHA),
    ("keep", "/DEBIAN/conffiles", "keep /etc/q\n"),
    ("flag", CONTROL, ALPHA),
    ("flag", "/DEBIAN/conffiles", "remove-on-upgrade\n"),
    ("ended", CONTROL, ALPHA),
    (
        "ended",
        "/DEBIAN/conffiles",
        "remove-on-upgrade /etc/q.dpkg-old \n",
    ),
    ("unrooted", CONTROL, ALPHA),
    (
        "unrooted",
        "/DEBIAN/conffiles",
        "remove-on-upgrade etc/q\t\n",
    ),
    ("relative", CONTROL, ALPHA),
    ("relative", "/DEBIAN/conffiles", "\netc/q\n"),
    ("old", CONTROL, ALPHA),
    ("old", "/etc/q.dpkg-old", "x"),
    ("a", CONTROL, ALPHA),
    ("a", "/DEBIAN/preinst", "#!/bin/sh\n"),
    ("b", CONTROL, "Package: bravo\nVersion: 1\n"),
    ("b", "/DEBIAN/preinst", "#!/bin/sh\n"),
];

const ONCE: &[&str] = &["dpkg_cli unpack t"];

const TWICE: &[&str] = &["dpkg_cli unpack t", "dpkg_cli unpack t"];

#[test]
fn preinst_fails(rt: HostRuntime) -> Result<(), Fail> {
    let row = "call new alpha preinst install: exit 1
state alpha none
failed alpha preinst install
||1
|||||directory|";
    check(&rt, WITH_PREINST, &[Outcome::Exit(1)], ONCE, row)
}

#[test]
fn preinst_is_killed(rt: HostRuntime) -> Result<(), Fail> {
    let row = "call new alpha preinst install: killed
state alpha none
failed alpha preinst install
||1
|||||directory|";
    check(&rt, WITH_PREINST, &[Outcome::Killed], ONCE, row)
}

#[test]
fn preinst_fails_and_is_undone(rt: HostRuntime) -> Result<(), Fail> {
    let row = "call new alpha preinst install: exit 1
call new alpha postrm abort-install: exit 0
state alpha none
failed alpha preinst install
||1
|||||directory|";
    check(&rt, WITH_POSTRM, &[Outcome::Exit(1)], ONCE, row)
}

#[test]
fn undo_fails(rt: HostRuntime) -> Result<(), Fail> {
    let row = "call new alpha preinst install: exit 1
call new alpha postrm abort-install: exit 1
state alpha 1.0 install reinstreq half-installed
failed alpha preinst install
||1
call new alpha preinst upgrade 1.0 1.0: exit 0
state alpha 1.0 install ok unpacked
done
||0
 alpha.list alpha.postrm alpha.preinst|Package: alpha
Status: install ok unpacked
Version: 1.0
|/.
|#!/bin/sh
||directory|";
    check(
        &rt,
        WITH_POSTRM,
        &[Outcome::Exit(1), Outcome::Exit(1)],
        TWICE,
        row,
    )
}

#[test]
fn preinst_succeeds(rt: HostRuntime) -> Result<(), Fail> {
    let row = "call new alpha preinst install: exit 0
state alpha 1.0 install ok unpacked
done
||0
call new alpha preinst upgrade 1.0 1.0: exit 0
state alpha 1.0 install ok unpacked
done
||0
 alpha.list alpha.preinst|Package: alpha
Status: install ok unpacked
Version: 1.0
|/.
|#!/bin/sh
|||";
    check(&rt, WITH_PREINST, &[], TWICE, row)
}

/// Lines of words, and how the program refuses what they name.
pub(crate) const REFUSALS: &[(&str, &str)] = &[
    ("dpkg_cli unpack empty", "refused empty NoControl\n||1\n"),
    (
        "dpkg_cli unpack bare",
        "refused bare FieldMissing Version\n||1\n",
    ),
    (
        "dpkg_cli unpack colon",
        "refused colon Control NoColon 1\n||1\n",
    ),
    (
        "dpkg_cli unpack name",
        "refused name FieldBad Package\n||1\n",
    ),
    (
        "dpkg_cli unpack long",
        "refused long FieldBad Package\n||1\n",
    ),
    (
        "dpkg_cli unpack version",
        "refused version FieldBad Version\n||1\n",
    ),
    (
        "dpkg_cli unpack essential",
        "refused essential FieldBad Essential\n||1\n",
    ),
    ("dpkg_cli unpack bar", "refused bar FieldBad Depends\n||1\n"),
    (
        "dpkg_cli unpack folded",
        "refused folded FieldBad Breaks\n||1\n",
    ),
    (
        "dpkg_cli unpack needs",
        "refused alpha PreDepends bravo | charlie\n||1\n",
    ),
    (
        "dpkg_cli unpack conffile",
        "refused conffile ConffileNotShipped /etc/x\n||1\n",
    ),
    (
        "dpkg_cli unpack both",
        "refused alpha PreDepends bravo\n||1\n",
    ),
    (
        "dpkg_cli unpack inside",
        "refused inside ConffileNotShipped /etc/q\n||1\n",
    ),
    (
        "dpkg_cli unpack lines",
        "refused lines ConffileNotShipped /etc/z\n||1\n",
    ),
    (
        "dpkg_cli unpack shipped",
        "refused shipped ConffileShipped /etc/q\n||1\n",
    ),
    ("dpkg_cli unpack keep", "refused keep ConffileFlag 1\n||1\n"),
    (
        "dpkg_cli unpack flag",
        "refused flag ConffileNotShipped \n||1\n",
    ),
    (
        "dpkg_cli unpack ended",
        "refused ended ConffileNotShipped /etc/q.dpkg-old\n||1\n",
    ),
    (
        "dpkg_cli unpack unrooted",
        "refused unrooted ConffileNotShipped etc/q\n||1\n",
    ),
    (
        "dpkg_cli unpack relative",
        "refused relative ConffileFlag 2\n||1\n",
    ),
    (
        "dpkg_cli unpack old",
        "refused old Reserved /etc/q.dpkg-old\n||1\n",
    ),
];

// Stops the test where a line of words isn't answered by the row, or something is left.
fn check_refused(rt: &(impl Abort + AllocGlobal), line: &str, row: &str) -> Result<(), Fail> {
    let text = told(rt.alloc(), TREES, &[], &[line])?;
    assert!(rt; text.as_str().strip_suffix("||||||") == Some(row), "{text}");
    Ok(())
}

#[test]
fn trees_are_refused(rt: HostRuntime) -> Result<(), Fail> {
    for (line, row) in REFUSALS {
        check_refused(&rt, line, row)?;
    }
    Ok(())
}

#[test]
fn second_tree_is_unpacked(rt: HostRuntime) -> Result<(), Fail> {
    let row = "refused empty NoControl
call new alpha preinst install: exit 0
state alpha 1.0 install ok unpacked
done
||1
 alpha.list alpha.preinst|Package: alpha
Status: install ok unpacked
Version: 1.0
|/.
|#!/bin/sh
|||";
    check(&rt, TREES, &[], &["dpkg_cli unpack empty a"], row)
}

#[test]
fn administrator_writes_between_two_unpacks(rt: HostRuntime) -> Result<(), Fail> {
    let lines = [
        "dpkg_cli unpack b",
        "write /etc/motd hello",
        "dpkg_cli unpack a",
    ];
    let row = "call new bravo preinst install: exit 0
state bravo 1 install ok unpacked
done
||0
call new alpha preinst install: exit 0
state alpha 1.0 install ok unpacked
done
||0
 alpha.list alpha.preinst bravo.list bravo.preinst|Package: alpha
Status: install ok unpacked
Version: 1.0

Package: bravo
Status: install ok unpacked
Version: 1
|/.
|#!/bin/sh
|||hello";
    check(&rt, TREES, &[], &lines, row)
}

/// What the administrator does to a status file whose second line has no colon.
pub(crate) const DAMAGING: &str = "write /var/lib/dpkg/status Package: alpha\nStatus\n";

/// What is told of it.
pub(crate) const DAMAGED: &str = "|damaged /var/lib/dpkg/status 2\n\
expected: a field of a package's record, \"Name: value\", once and with a value that can be read; packages of one architecture\n|2\n";

#[test]
fn line_without_colon_is_damage(rt: HostRuntime) -> Result<(), Fail> {
    let lines = [DAMAGING, "dpkg_cli unpack a"];
    let row = format!(in rt.alloc(); "{DAMAGED}|Package: alpha\nStatus\n|||||")?;
    check(&rt, TREES, &[], &lines, row.as_str())
}

// Status files of one record, and the line of the first value that can't be read.
const DAMAGES: &[(&str, u64)] = &[
    (
        "Package: alpha\nStatus: install ok triggered\nVersion: 1\n",
        2,
    ),
    (
        "Package: alpha\nStatus: install ok unpacked\nVersion: 1\nEssential: maybe\n",
        4,
    ),
    (
        "Package: alpha\nStatus: install ok unpacked\nVersion: 1\nProvides: mta | web\n",
        4,
    ),
    (
        "Package: alpha\nStatus: install ok unpacked\nVersion: 1\nConfig-Version: 1_0\n",
        4,
    ),
    (
        "Package: alpha\nStatus: install ok unpacked\nVersion: 1\nRemoved-Since: no\n",
        4,
    ),
];

const FIELD: &str =
    "expected: a field of a package's record, \"Name: value\", once and with a value that can be read; packages of one architecture";

// Stops the test where a status file isn't told as damaged at this line, or is another then.
fn check_damage(rt: &(impl Abort + AllocGlobal), status: &str, line: u64) -> Result<(), Fail> {
    let alloc = rt.alloc();
    let write = format!(in alloc; "write /var/lib/dpkg/status {status}")?;
    let row = format!(in alloc;
        "|damaged /var/lib/dpkg/status {line}\n{FIELD}\n|2\n|{status}|||||"
    )?;
    let lines = [write.as_str(), "dpkg_cli unpack a"];
    check(rt, TREES, &[], &lines, row.as_str())
}

#[test]
fn values_that_cannot_be_read_are_damage(rt: HostRuntime) -> Result<(), Fail> {
    for (status, line) in DAMAGES {
        check_damage(&rt, status, *line)?;
    }
    Ok(())
}

#[test]
fn relations_among_records_are_no_obstacle(rt: HostRuntime) -> Result<(), Fail> {
    let lines = [
        "write /var/lib/dpkg/status Package: charlie\nStatus: install ok unpacked\nVersion: 1\nDepends: bravo,\n delta (>= 1)\nEssential: no\n",
        "dpkg_cli unpack a",
    ];
    let row = "call new alpha preinst install: exit 0
state alpha 1.0 install ok unpacked
done
||0
 alpha.list alpha.preinst|Package: alpha
Status: install ok unpacked
Version: 1.0

Package: charlie
Status: install ok unpacked
Version: 1
Depends: bravo,
 delta (>= 1)
Essential: no
|/.
|#!/bin/sh
|||";
    check(&rt, TREES, &[], &lines, row)
}
