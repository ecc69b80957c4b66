// Diversions that are added and taken away: the answers, and what is left.
use super::{answers, check};
use crate::answers::expect;
use std::test::Fail;

const CHANGES: &[&str] = &[
    "write /var/lib/dpkg/status Package: victor\nStatus: install ok installed\nVersion: 1\n",
    "write /var/lib/dpkg/info/victor.list /.\n/usr\n/usr/bin\n/usr/bin/v\n",
    "write /usr/bin/v v\n",
    "dpkg_cli divert --local --rename --divert /usr/bin/v.real /usr/bin/v",
    "dpkg_cli divert --local --rename --divert /usr/bin/v.real /usr/bin/v",
    "dpkg_cli diversions",
    "dpkg_cli search /usr/bin/v.real",
    "dpkg_cli divert --package bravo /usr/bin/w",
    "dpkg_cli diversions",
    "dpkg_cli undivert --package bravo /usr/bin/w",
    "write /usr/bin/v other\n",
    "dpkg_cli undivert --local --rename /usr/bin/v",
    "dpkg_cli undivert --local /usr/bin/v",
    "dpkg_cli diversions",
];

#[test]
fn diversions_are_added_and_taken_away(rt: HostRuntime) -> Result<(), Fail> {
    let row = "done
||0
done
||0
local /usr/bin/v /usr/bin/v.real
||0
victor: /usr/bin/v
||0
done
||0
local /usr/bin/v /usr/bin/v.real
bravo /usr/bin/w /usr/bin/w.distrib
||0
done
||0
refused /usr/bin/v TargetExists
||1
done
||0
||0
 victor.list|Package: victor
Status: install ok installed
Version: 1
|||||";
    check(&rt, &[], &[], CHANGES, row)
}

const TWICE: &[&str] = &[
    "write /usr/bin/v v\n",
    "write /usr/bin/v.real v\n",
    "dpkg_cli divert --local --rename --divert /usr/bin/v.real /usr/bin/v",
    "write /usr/bin/v v\n",
    "dpkg_cli undivert --local --rename /usr/bin/v",
    "write /usr/bin/v.real other\n",
    "dpkg_cli divert --local --rename --divert /usr/bin/v.real /usr/bin/v",
    "dpkg_cli diversions",
];

// The same file at the target isn't in the way, and another one is.
#[test]
fn a_file_may_stand_at_its_target(rt: HostRuntime) -> Result<(), Fail> {
    let row = "done
||0
done
||0
refused /usr/bin/v TargetExists
||1
||0
||||||";
    check(&rt, &[], &[], TWICE, row)
}

const REFUSALS: &[&str] = &[
    "write /usr/bin/v v\n",
    "write /var/lib/dpkg/diversions /usr/bin/w\n/usr/bin/w.real\n:\n",
    "dpkg_cli divert --local /usr",
    "dpkg_cli divert --package bravo /usr/bin/w",
    "dpkg_cli divert --local --divert /usr/bin/w.real /usr/bin/v",
    "dpkg_cli divert --local --divert /usr /usr",
    "dpkg_cli divert --local --divert /usr/bin/w /usr/bin/w",
    "dpkg_cli divert --local --rename --divert /none/v /usr/bin/v",
    "dpkg_cli undivert --package bravo /usr/bin/w",
    "dpkg_cli undivert --local /usr/bin/v",
    "dpkg_cli divert --local usr/bin/v",
    "dpkg_cli divert --local --divert /var/lib/dpkg/v /usr/bin/v",
    "dpkg_cli undivert --local /",
];

#[test]
fn diversions_are_refused(rt: HostRuntime) -> Result<(), Fail> {
    let row = "refused /usr Directory
||1
refused /usr/bin/w AlreadyDiverted
||1
refused /usr/bin/v TargetDiverted
||1
refused /usr SamePath
||1
refused /usr/bin/w SamePath
||1
refused /usr/bin/v NoParent
||1
refused /usr/bin/w OtherOwner
||1
refused /usr/bin/v NotDiverted
||1
|bad path usr/bin/v
|2
|bad path /var/lib/dpkg/v
|2
|bad path /
|2
||||||";
    check(&rt, &[], &[], REFUSALS, row)
}

const BESIDE: &[&str] = &[
    "write /var/lib/dpkg/status Package: victor\nStatus: install ok installed\nVersion: 1\n",
    "write /var/lib/dpkg/updates/0000 Package: whisky\nStatus: install ok half-installed\nVersion: 1\n",
    "write /var/lib/dpkg/tmp.ci/control Package: whisky\nVersion: 1\n",
    "write /var/lib/dpkg/info/victor.list /.\n/usr\n/usr/bin\n/usr/bin/v\n",
    "write /usr/bin/v a\n",
    "script dpkg_cli divert --package whisky --rename --divert /usr/bin/v.victor /usr/bin/v",
    "read /usr/bin/v",
    "read /usr/bin/v.victor",
    "read /var/lib/dpkg/diversions",
    "script dpkg_cli divert --package whisky --rename --divert /usr/bin/v.victor /usr/bin/v",
    "script dpkg_cli divert --local /usr",
    "script dpkg_cli undivert --package whisky --rename /usr/bin/v",
    "read /usr/bin/v",
    "read /var/lib/dpkg/diversions",
    "read /var/lib/dpkg/updates",
    "read /var/lib/dpkg/tmp.ci",
];

// A script's changes merge no note, and take nothing of the command away that runs it.
#[test]
fn scripts_divert_beside_a_command(rt: HostRuntime) -> Result<(), Fail> {
    let row = "done
||0

a

/usr/bin/v
/usr/bin/v.victor
whisky

done
||0
refused /usr Directory
||1
done
||0
a


directory: 0000
directory: control
";
    expect(&rt, answers(rt.alloc(), &[], &[], BESIDE, &[]), row)
}

const DAMAGED: &[&str] = &[
    "script dpkg_cli divert --local /usr/bin/v",
    "write /var/lib/dpkg/status Package: victor\n",
    "script dpkg_cli divert --local /usr/bin/v",
    "write /var/lib/dpkg/status \n",
    "write /var/lib/dpkg/diversions.dpkg-inst/x x\n",
    "script dpkg_cli undivert --local /usr/bin/v",
];

// What a script's change can't read, or can't write, is told, and nothing is made.
#[test]
fn damage_is_told_beside_a_command(rt: HostRuntime) -> Result<(), Fail> {
    let row = "|damaged /var/lib/dpkg 0
expected: a file or directory as dpkg has it there
|2
|damaged /var/lib/dpkg/status 1
expected: a field of a package's record, \"Name: value\", once and with a value that can be read; packages of one architecture
|2
|damaged /var/lib/dpkg/diversions.dpkg-inst 0
expected: a file or directory as dpkg has it there
|2
";
    expect(&rt, answers(rt.alloc(), &[], &[], DAMAGED, &[]), row)
}
