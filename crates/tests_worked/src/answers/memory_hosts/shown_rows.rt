// Names with bytes that end lines or control terminals: each line shows them by their digits.
use super::{TreeFile, answers};
use crate::answers::expect;
use std::test::Fail;

const TREES: &[TreeFile] = &[
    ("a", "/DEBIAN/control", "Package: alpha\nVersion: 1.0\n"),
    ("a", "/usr/bin/x\x1b[2J", "x"),
    ("b\n", "/DEBIAN/control", "Package: bravo\nVersion: 1.0\n"),
    ("b\n", "/usr/bin/x\x1b[2J", "x"),
];

const LINES: &[&str] = &[
    "dpkg_cli unpack c\n\x1b[2J",
    "dpkg_cli install a",
    "dpkg_cli listfiles alpha",
    "dpkg_cli search /usr/bin/x\x1b[2J",
    "dpkg_cli truename /usr/bin/x\x1b[2J",
    "dpkg_cli divert --local /usr/bin/\x7f",
    "dpkg_cli diversions",
    "dpkg_cli unpack b\n",
    "dpkg_cli configure a\nb",
    "dpkg_cli status a\tb",
    "dpkg_cli truename a\nb",
    "dpkg_cli compare-versions 1\n eq 1",
];

const ROW: &str = "refused c\\x0a\\x1b[2J NoControl
||1
state alpha 1.0 install ok unpacked
done
state alpha 1.0 install ok installed
done
||0
/.
/usr
/usr/bin
/usr/bin/x\\x1b[2J
||0
alpha: /usr/bin/x\\x1b[2J
||0
/usr/bin/x\\x1b[2J
||0
done
||0
local /usr/bin/\\x7f /usr/bin/\\x7f.distrib
||0
state bravo none
failed bravo Clash /usr/bin/x\\x1b[2J alpha
||1
refused a\\x0ab Unknown
||1
refused a\\x09b Unknown
||1
|bad path a\\x0ab
|2
|bad version 1\\x0a: Char 1
|2
";

#[test]
fn names_end_no_lines(rt: HostRuntime) -> Result<(), Fail> {
    expect(&rt, answers(rt.alloc(), TREES, &[], &[], LINES), ROW)
}
