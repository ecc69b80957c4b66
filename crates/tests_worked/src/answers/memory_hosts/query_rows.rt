// Questions about an administration in memory: the answers, and what is left.
use super::super::expect;
use super::script_rows::{DAMAGING, WITH_POSTRM};
use super::{answers, check};
use host_core::Outcome;
use std::test::Fail;

// Each question after an unpack whose undo failed.
const AFTER_FAILED_UNDO: &[&str] = &[
    "dpkg_cli unpack t",
    "dpkg_cli list",
    "dpkg_cli audit",
    "dpkg_cli listfiles alpha",
    "dpkg_cli search /usr/bin/x",
    "dpkg_cli status alpha",
    "dpkg_cli status gamma",
    "dpkg_cli listfiles gamma",
];

#[test]
fn failed_undo_is_asked_about(rt: HostRuntime) -> Result<(), Fail> {
    let row = "call new alpha preinst install: exit 1
call new alpha postrm abort-install: exit 1
state alpha 1.0 install reinstreq half-installed
failed alpha preinst install
||1
alpha 1.0 half-installed reinstreq
||0
alpha half-installed reinstreq
||0
/.
||0
||1
Package: alpha
Status: install reinstreq half-installed
Version: 1.0
||0
refused gamma Unknown
||1
refused gamma Unknown
||1
|Package: alpha
Status: install reinstreq half-installed
Version: 1.0
||||directory|";
    check(
        &rt,
        WITH_POSTRM,
        &[Outcome::Exit(1), Outcome::Exit(1)],
        AFTER_FAILED_UNDO,
        row,
    )
}

// Victor's file lies where a local diversion has put it, and bravo's own diversion lies beside it.
const DIVERTED: &[&str] = &[
    "write /var/lib/dpkg/status Package: victor\nStatus: install ok installed\nVersion: 1\n",
    "write /var/lib/dpkg/info/victor.list /.\n/usr\n/usr/bin\n/usr/bin/v\n/usr/bin/w\n",
    "write /var/lib/dpkg/diversions /usr/bin/v\n/usr/bin/v.real\n:\n/usr/bin/w\n/usr/bin/w.real\nbravo\n",
    "dpkg_cli diversions",
    "dpkg_cli search /usr/bin/v",
    "dpkg_cli search /usr/bin/v.real",
    "dpkg_cli search /usr/bin",
    "dpkg_cli search */v",
    "dpkg_cli search /usr?bin/*",
    "dpkg_cli search */v.real*",
    "dpkg_cli truename /usr/bin/v",
    "dpkg_cli truename --package bravo /usr/bin/w",
    "dpkg_cli truename --package victor /usr/bin/w",
    "dpkg_cli truename /",
];

#[test]
fn places_of_diverted_paths_are_told(rt: HostRuntime) -> Result<(), Fail> {
    let row = "local /usr/bin/v /usr/bin/v.real
bravo /usr/bin/w /usr/bin/w.real
||0
||1
victor: /usr/bin/v
||0
victor: /usr/bin
||0
victor: /usr/bin/v
||0
victor: /usr/bin/v
victor: /usr/bin/w
||0
||1
/usr/bin/v.real
||0
/usr/bin/w
||0
/usr/bin/w.real
||0
/
||0
 victor.list|Package: victor
Status: install ok installed
Version: 1
|||||";
    check(&rt, &[], &[], DIVERTED, row)
}

// A list that was cut short is damaged at its last line, unless an earlier line is; an empty one is that of the root.
#[test]
fn cut_list_is_damage(rt: HostRuntime) -> Result<(), Fail> {
    let lines = [
        "write /var/lib/dpkg/status Package: victor\nStatus: install ok installed\nVersion: 1\n",
        "write /var/lib/dpkg/info/victor.list /.\n/usr\n/usr/bi",
        "dpkg_cli audit",
        "write /var/lib/dpkg/info/victor.list /.\nusr\n/usr/bi",
        "dpkg_cli audit",
        "write /var/lib/dpkg/info/victor.list /.",
        "dpkg_cli audit",
        "write /var/lib/dpkg/info/victor.list ",
        "dpkg_cli listfiles victor",
    ];
    let row = "|damaged /var/lib/dpkg/info/victor.list 3
expected: an absolute path, or /. for the root
|2
|damaged /var/lib/dpkg/info/victor.list 2
expected: an absolute path, or /. for the root
|2
|damaged /var/lib/dpkg/info/victor.list 1
expected: an absolute path, or /. for the root
|2
/.
||0
 victor.list|Package: victor
Status: install ok installed
Version: 1
|||||";
    check(&rt, &[], &[], &lines, row)
}

#[test]
fn damage_is_told_in_place_of_an_answer(rt: HostRuntime) -> Result<(), Fail> {
    let lines = [
        "write /var/lib/dpkg/diversions /a\n/b\n:\nno path\n/c\n:\n",
        "dpkg_cli diversions",
        DAMAGING,
        "dpkg_cli status alpha",
        "dpkg_cli search a",
    ];
    let row = "|damaged /var/lib/dpkg/diversions 4
expected: three lines for each diversion: a path, its target, and a package or :
|2
|damaged /var/lib/dpkg/status 2
expected: a field of a package's record, \"Name: value\", once and with a value that can be read; packages of one architecture
|2
|bad path a
|2
|Package: alpha
Status
|||||";
    check(&rt, &[], &[], &lines, row)
}

// Nothing stands under the root, and nothing stands there behind the questions.
#[test]
fn nothing_is_made_for_questions(rt: HostRuntime) -> Result<(), Fail> {
    let lines = [
        "dpkg_cli list",
        "dpkg_cli audit",
        "dpkg_cli status alpha",
        "dpkg_cli listfiles alpha",
        "dpkg_cli search /usr/bin/x",
        "dpkg_cli truename /usr/bin/x",
        "dpkg_cli diversions",
        "read /",
    ];
    let row = "||0
||0
refused alpha Unknown
||1
refused alpha Unknown
||1
||1
/usr/bin/x
||0
||0
directory:
";
    expect(&rt, answers(rt.alloc(), &[], &[], &[], &lines), row)
}

// A note and a script that a unit left which was broken off: the noted record is told, and all of it stays.
const NOTED: &[&str] = &[
    "write /var/lib/dpkg/status Package: alpha\nStatus: install ok unpacked\nVersion: 1\n",
    "write /var/lib/dpkg/updates/0001 Package: alpha\nStatus: install ok half-configured\nVersion: 1\n",
    "write /var/lib/dpkg/tmp.ci/preinst #!/bin/sh\n",
];

#[test]
fn notes_stay_behind_questions(rt: HostRuntime) -> Result<(), Fail> {
    let lines = [
        "dpkg_cli list",
        "dpkg_cli audit",
        "read /var/lib/dpkg/status",
        "read /var/lib/dpkg",
        "read /var/lib/dpkg/tmp.ci",
    ];
    let row = "alpha 1 half-configured
||0
directory: 0001
alpha half-configured ok
||0
directory: 0001
Package: alpha
Status: install ok unpacked
Version: 1

directory: status tmp.ci updates
directory: preinst
";
    expect(&rt, answers(rt.alloc(), &[], &[], NOTED, &lines), row)
}

// Bravo's list and the diversions are damaged.
const DAMAGED: &[&str] = &[
    "write /var/lib/dpkg/status Package: alpha\nStatus: install ok installed\nVersion: 1\n\nPackage: bravo\nStatus: install ok installed\nVersion: 2\n",
    "write /var/lib/dpkg/info/alpha.list /.\n/usr\n",
    "write /var/lib/dpkg/info/bravo.list usr\n",
    "write /var/lib/dpkg/diversions /a\n",
];

#[test]
fn what_a_question_does_not_read_is_not_damaged(rt: HostRuntime) -> Result<(), Fail> {
    let lines = [
        "dpkg_cli list",
        "dpkg_cli listfiles alpha",
        "dpkg_cli listfiles gamma",
        "dpkg_cli listfiles bravo",
        "dpkg_cli audit",
        "dpkg_cli search /usr",
        "dpkg_cli truename /usr",
        "write /var/lib/dpkg/status no field\n",
        "dpkg_cli truename /usr",
        "dpkg_cli listfiles alpha",
        "write /var/lib/dpkg/diversions ",
        "dpkg_cli diversions",
    ];
    let row = "alpha 1 installed
bravo 2 installed
||0
/.
/usr
||0
refused gamma Unknown
||1
|damaged /var/lib/dpkg/info/bravo.list 1
expected: an absolute path, or /. for the root
|2
|damaged /var/lib/dpkg/info/bravo.list 1
expected: an absolute path, or /. for the root
|2
|damaged /var/lib/dpkg/info/bravo.list 1
expected: an absolute path, or /. for the root
|2
|damaged /var/lib/dpkg/diversions 1
expected: three lines for each diversion: a path, its target, and a package or :
|2
|damaged /var/lib/dpkg/diversions 1
expected: three lines for each diversion: a path, its target, and a package or :
|2
|damaged /var/lib/dpkg/status 1
expected: a field of a package's record, \"Name: value\", once and with a value that can be read; packages of one architecture
|2
||0
";
    expect(&rt, answers(rt.alloc(), &[], &[], DAMAGED, &lines), row)
}
