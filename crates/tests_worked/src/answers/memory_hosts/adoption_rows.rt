// Conffiles that dpkg unpacked and didn't settle: its records tell no digest of a file beside a conffile's place. Questions show them
// so; a command takes them up.
use super::{answers, expect};
use std::test::Fail;

// What a root holds first, the lines of words, and the row: their answers and what is read.
type AdoptionRow = (
    &'static [&'static str],
    &'static [&'static str],
    &'static str,
);

const LIST: &str = "write /var/lib/dpkg/info/zulu.list /.\n/etc\n/etc/z.conf\n";

const NEW: &str = "write /etc/z.conf.dpkg-new b";

const STATUS: &str = "read /var/lib/dpkg/status";

// No package is named so: the root is opened, and nothing else is done.
const COMMAND: &str = "dpkg_cli remove absent";

const UNPACKED: &str =
    "write /var/lib/dpkg/status Package: zulu\nStatus: install ok unpacked\nVersion: 1\nConffiles:\n /etc/z.conf newconffile\n";

const TAKEN_UP: AdoptionRow = (
    &[UNPACKED, LIST, NEW],
    &[
        "dpkg_cli status zulu",
        COMMAND,
        STATUS,
        "read /etc",
        "dpkg_cli purge zulu",
        "read /",
    ],
    "Package: zulu
Status: install ok unpacked
Version: 1
Conffiles:
 /etc/z.conf newconffile
||0
refused absent Unknown
||1
Package: zulu
Status: install ok unpacked
Version: 1
Conffiles:
 /etc/z.conf newconffile
New-Conffiles:
 /etc/z.conf 92eb5ffee6ae2fec3ad71c777531578f

directory: z.conf.dpkg-new
state zulu none
done
||0
directory: var
",
);

// One entry is obsolete, one is to be removed, beside one stands a directory, and beside one nothing.
const PARTLY: AdoptionRow = (
    &[
        "write /var/lib/dpkg/status Package: zulu\nStatus: install ok half-configured\nVersion: 2\nConfig-Version: 1\nConffiles:\n /etc/a.conf 0cc175b9c0f1b6a831c399e269772661 obsolete\n /etc/d.conf newconffile\n /etc/n.conf newconffile\n /etc/r.conf 0cc175b9c0f1b6a831c399e269772661 remove-on-upgrade\n /etc/z.conf 0cc175b9c0f1b6a831c399e269772661\n",
        "write /var/lib/dpkg/info/zulu.list /.\n/etc\n/etc/d.conf\n/etc/n.conf\n/etc/z.conf\n",
        "write /etc/a.conf.dpkg-new b",
        "write /etc/d.conf.dpkg-new/file b",
        "write /etc/r.conf.dpkg-new b",
        NEW,
    ],
    &[COMMAND, STATUS],
    "refused absent Unknown
||1
Package: zulu
Status: install ok half-configured
Version: 2
Config-Version: 1
Conffiles:
 /etc/a.conf 0cc175b9c0f1b6a831c399e269772661 obsolete
 /etc/d.conf newconffile
 /etc/n.conf newconffile
 /etc/r.conf 0cc175b9c0f1b6a831c399e269772661 remove-on-upgrade
 /etc/z.conf 0cc175b9c0f1b6a831c399e269772661
New-Conffiles:
 /etc/z.conf 92eb5ffee6ae2fec3ad71c777531578f

",
);

// A package that is installed, one that a removal left, and one of which a digest is recorded.
const LEFT_ALONE: AdoptionRow = (
    &[
        "write /var/lib/dpkg/status Package: alpha\nStatus: install ok installed\nVersion: 1\nConffiles:\n /etc/a.conf 0cc175b9c0f1b6a831c399e269772661\n\nPackage: bravo\nStatus: deinstall ok config-files\nVersion: 1\nConffiles:\n /etc/b.conf 0cc175b9c0f1b6a831c399e269772661\n\nPackage: zulu\nStatus: install ok unpacked\nVersion: 1\nConffiles:\n /etc/y.conf newconffile\n /etc/z.conf newconffile\nNew-Conffiles:\n /etc/y.conf 0cc175b9c0f1b6a831c399e269772661\n",
        LIST,
        "write /etc/a.conf.dpkg-new b",
        "write /etc/b.conf.dpkg-new b",
        NEW,
    ],
    &[COMMAND, STATUS],
    "refused absent Unknown
||1
Package: alpha
Status: install ok installed
Version: 1
Conffiles:
 /etc/a.conf 0cc175b9c0f1b6a831c399e269772661

Package: bravo
Status: deinstall ok config-files
Version: 1
Conffiles:
 /etc/b.conf 0cc175b9c0f1b6a831c399e269772661

Package: zulu
Status: install ok unpacked
Version: 1
Conffiles:
 /etc/y.conf newconffile
 /etc/z.conf newconffile
New-Conffiles:
 /etc/y.conf 0cc175b9c0f1b6a831c399e269772661

",
);

// The place is behind a link.
const BEHIND_A_LINK: AdoptionRow = (
    &[
        "write /usr/lib/z.conf a",
        "write /usr/lib/z.conf.dpkg-new b",
        "link /lib usr/lib",
        "write /var/lib/dpkg/info/zulu.list /.\n/lib\n/lib/z.conf\n",
        "write /var/lib/dpkg/status Package: zulu\nStatus: install ok unpacked\nVersion: 1\nConffiles:\n /lib/z.conf 0cc175b9c0f1b6a831c399e269772661\n",
    ],
    &[
        "dpkg_cli configure zulu",
        "read /usr/lib",
        "read /usr/lib/z.conf",
    ],
    "state zulu 1 install ok installed
done
||0
directory: z.conf
b
",
);

// dpkg configured packages that this program unpacked, or of which it removed files, and kept its fields. Of what one of them awaits
// nothing is pending, so it ceases to behind the command.
const CONFIGURED_BY_DPKG: AdoptionRow = (
    &[
        "write /var/lib/dpkg/status Package: alpha\nStatus: install ok triggers-awaited\nVersion: 1\nTriggers-Awaited: menu\nRemoved-Since: yes\n\nPackage: bravo\nStatus: install ok half-configured\nVersion: 2\nConfig-Version: 1\nRemoved-Since: yes\n\nPackage: zulu\nStatus: hold reinstreq installed\nVersion: 1\nConffiles:\n /etc/z.conf 92eb5ffee6ae2fec3ad71c777531578f\nNew-Conffiles:\n /etc/z.conf 92eb5ffee6ae2fec3ad71c777531578f\nRemoved-Since: yes\n",
        "write /var/lib/dpkg/info/alpha.list /.\n",
        "write /var/lib/dpkg/info/bravo.list /.\n",
        LIST,
        NEW,
    ],
    &[COMMAND, STATUS],
    "refused absent Unknown
state alpha 1 install ok installed
done
||1
Package: alpha
Status: install ok installed
Version: 1

Package: bravo
Status: install ok half-configured
Version: 2
Config-Version: 1
Removed-Since: yes

Package: zulu
Status: hold reinstreq installed
Version: 1
Conffiles:
 /etc/z.conf 92eb5ffee6ae2fec3ad71c777531578f

",
);

const ROWS: &[AdoptionRow] = &[
    TAKEN_UP,
    PARTLY,
    LEFT_ALONE,
    BEHIND_A_LINK,
    CONFIGURED_BY_DPKG,
];

#[test]
fn what_dpkg_left_unsettled_is_taken_up(rt: HostRuntime) -> Result<(), Fail> {
    for (files, lines, row) in ROWS {
        expect(&rt, answers(rt.alloc(), &[], &[], files, lines), row)?;
    }
    Ok(())
}
