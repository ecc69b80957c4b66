// Faults that the operating system tells, and steps that it declines. Once the root can be written again the next command opens it and goes on.
use super::{Step, check};
use std::test::Fail;

// Nobody makes a directory in /proc, root neither.
const ROOT_IN_PROC: &[Step] = &[
    Step {
        before: "ln -s /proc root
tree b bravo 1",
        tree: "b",
        calls: "",
        rest: "|broken device\n|2\n",
        left: "calls 0 faults 1\n",
    },
    Step {
        before: "rm root
mkdir root",
        tree: "b",
        calls: "",
        rest: "state bravo 1 install ok unpacked\ndone\n||0\n",
        left: "calls 0 faults 0
644 info/bravo.list
/.
644 status
Package: bravo
Status: install ok unpacked
Version: 1
",
    },
];

#[test]
fn root_cannot_be_written_at_first(rt: HostRuntime) -> Result<(), Fail> {
    check(&rt, ROOT_IN_PROC)
}

// Its mode doesn't bind root, which is held off by the directory's attribute. No control file can be laid out then: the system
// declines that, and it is no fault of the device. No note stands, so the opening has nothing to write.
const CLOSED: &[Step] = &[
    Step {
        before: "mkdir root
tree a alpha 1.0
tree b bravo 1
script b preinst 755 'exit 0'",
        tree: "a",
        calls: "",
        rest: "state alpha 1.0 install ok unpacked\ndone\n||0\n",
        left: "calls 0 faults 0
644 info/alpha.list
/.
644 status
Package: alpha
Status: install ok unpacked
Version: 1.0
",
    },
    Step {
        before: "chmod 555 root/var/lib/dpkg
[ \"$(id -u)\" -ne 0 ] || chattr +i root/var/lib/dpkg",
        tree: "b",
        calls: "",
        rest: "broken declined\n||2\n",
        left: "calls 0 faults 0
555 root/var/lib/dpkg
644 info/alpha.list
/.
644 status
Package: alpha
Status: install ok unpacked
Version: 1.0
",
    },
    Step {
        before: "[ \"$(id -u)\" -ne 0 ] || chattr -i root/var/lib/dpkg
chmod 755 root/var/lib/dpkg",
        tree: "b",
        calls: "call new bravo preinst install: exit 0\n",
        rest: "state bravo 1 install ok unpacked\ndone\n||0\n",
        left: "calls 1 faults 0
preinst install
644 info/alpha.list
/.
644 info/bravo.list
/.
755 info/bravo.preinst
#!/bin/sh
echo \"preinst $*\" >>../started
exit 0
644 status
Package: alpha
Status: install ok unpacked
Version: 1.0

Package: bravo
Status: install ok unpacked
Version: 1
",
    },
];

#[test]
fn administration_cannot_be_written(rt: HostRuntime) -> Result<(), Fail> {
    check(&rt, CLOSED)
}

// The preinst takes the directory of stored scripts away, so that none can be stored.
const INFO_GOES_AWAY: &[Step] = &[
    Step {
        before: "mkdir root
tree a alpha 1.0
script a preinst 755 'mv var/lib/dpkg/info away'
tree b bravo 1",
        tree: "a",
        calls: "call new alpha preinst install: exit 0\n",
        rest: "broken device\n||2\n",
        left: "calls 1 faults 1
preinst install
755 root/away
755 tmp.ci
755 tmp.ci/preinst
#!/bin/sh
echo \"preinst $*\" >>../started
mv var/lib/dpkg/info away
644 updates/0000
Package: alpha
Status: install reinstreq half-installed
Version: 1.0
",
    },
    Step {
        before: "mv root/away root/var/lib/dpkg/info",
        tree: "b",
        calls: "",
        rest: "state bravo 1 install ok unpacked\ndone\n||0\n",
        left: "calls 0 faults 0
644 info/bravo.list
/.
644 status
Package: alpha
Status: install reinstreq half-installed
Version: 1.0

Package: bravo
Status: install ok unpacked
Version: 1
",
    },
];

#[test]
fn directory_goes_away_in_a_unit(rt: HostRuntime) -> Result<(), Fail> {
    check(&rt, INFO_GOES_AWAY)
}
