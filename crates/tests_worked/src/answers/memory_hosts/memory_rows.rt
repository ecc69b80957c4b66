// The same answers where an allocation is refused, which scripts/refused_memory does at each one in turn: in place of
// the row only a want of memory may come. Where the test's own memory is refused, there is no answer.
use super::script_rows::{DAMAGED, DAMAGING, REFUSALS, TREES, WITH_POSTRM, WITH_PREINST};
use super::word_rows::{FAULTS, NAMES};
use super::{MemoryHosts, TreeFile, hosts, is_usage, worded};
use crate::answers::control_rows::{ONE_PARAGRAPH_ROWS, ROWS};
use crate::answers::relation_rows::{FIELD_ROWS, PROVIDES_ROWS};
use crate::answers::{is_refusing, is_want, package_of, read_control, read_field, read_provides};
use host_core::Outcome;
use relation_fields::Form;
use std::alloc::{AllocError, Global};
use std::process::Abort;
use std::rt::Env;

// A line of words, the lines of its calls, and what follows them in its answer.
type Answered = (&'static str, &'static str, &'static str);

// The answer to a line of words after another line, where that is answered as told. Its want of memory leaves no answer,
// and another answer stands in place of this line's. The root has to come back whatever the answer.
fn told_after(
    alloc: Global,
    trees: &'static [TreeFile],
    outcomes: &[Outcome],
    before: &Answered,
    line: &str,
) -> Result<String, AllocError> {
    let mut text = String::new(alloc);
    let mut hosts = hosts(alloc, trees, outcomes)?;
    hosts.step_after(before, line, &mut text)?;
    Ok(text)
}

impl MemoryHosts {
    fn step_after(
        &mut self,
        before: &Answered,
        line: &str,
        text: &mut String,
    ) -> Result<(), AllocError> {
        let (first, calls, rest) = before;
        self.step(first, text)?;
        if is_want(text.as_str(), calls) {
            return Err(AllocError);
        }
        if text.as_str().strip_prefix(*calls) != Some(*rest) {
            return text.push_str("this is answered to the line before");
        }
        text.clear();
        self.step(line, text)?;
        match self.has_root() {
            true => Ok(()),
            false => text.push_str("the root wasn't given back"),
        }
    }
}

// A line that does nothing, and what comes of it.
const NOTHING: &Answered = &("write /etc/motd", "", "");

fn told(
    alloc: Global,
    trees: &'static [TreeFile],
    outcomes: &[Outcome],
    line: &str,
) -> Result<String, AllocError> {
    told_after(alloc, trees, outcomes, NOTHING, line)
}

// The row is the lines of calls and what follows them.
fn check_text(rt: &(impl Abort + Env + AllocGlobal), text: &str, calls: &str, rest: &str) {
    assert!(rt;
        text.strip_prefix(calls) == Some(rest) || is_want(text, calls) && is_refusing(rt),
        "{text}"
    );
}

fn check_no_answer(rt: &(impl Abort + Env + AllocGlobal)) {
    assert!(rt; is_refusing(rt), "there is no answer");
}

fn check(
    rt: &(impl Abort + Env + AllocGlobal),
    told: Result<String, AllocError>,
    calls: &str,
    rest: &str,
) {
    match told {
        Ok(text) => check_text(rt, text.as_str(), calls, rest),
        Err(_) => check_no_answer(rt),
    }
}

#[test]
fn preinst_fails(rt: HostRuntime) {
    let told = told(
        rt.alloc(),
        WITH_PREINST,
        &[Outcome::Exit(1)],
        "dpkg_cli unpack t",
    );
    let calls = "call new alpha preinst install: exit 1\n";
    let rest = "state alpha none\nfailed alpha preinst install\n||1\n";
    check(&rt, told, calls, rest);
}

#[test]
fn preinst_fails_and_is_undone(rt: HostRuntime) {
    let told = told(
        rt.alloc(),
        WITH_POSTRM,
        &[Outcome::Exit(1)],
        "dpkg_cli unpack t",
    );
    let calls =
        "call new alpha preinst install: exit 1\ncall new alpha postrm abort-install: exit 0\n";
    let rest = "state alpha none\nfailed alpha preinst install\n||1\n";
    check(&rt, told, calls, rest);
}

#[test]
fn undo_fails(rt: HostRuntime) {
    let outcomes = [Outcome::Exit(1), Outcome::Exit(1)];
    let told = told(rt.alloc(), WITH_POSTRM, &outcomes, "dpkg_cli unpack t");
    let calls =
        "call new alpha preinst install: exit 1\ncall new alpha postrm abort-install: exit 1\n";
    let rest =
        "state alpha 1.0 install reinstreq half-installed\nfailed alpha preinst install\n||1\n";
    check(&rt, told, calls, rest);
}

const UNPACKED: (&str, &str) = (
    "call new alpha preinst install: exit 0\n",
    "state alpha 1.0 install ok unpacked\ndone\n||0\n",
);

#[test]
fn preinst_succeeds(rt: HostRuntime) {
    let told = told(rt.alloc(), WITH_PREINST, &[], "dpkg_cli unpack t");
    check(&rt, told, UNPACKED.0, UNPACKED.1);
}

#[test]
fn unpacked_package_is_unpacked_again(rt: HostRuntime) {
    let line = "dpkg_cli unpack t";
    let before = (line, UNPACKED.0, UNPACKED.1);
    let told = told_after(rt.alloc(), WITH_PREINST, &[], &before, line);
    let calls = "call new alpha preinst upgrade 1.0 1.0: exit 0\n";
    check(&rt, told, calls, UNPACKED.1);
}

#[test]
fn unpacked_package_is_asked_about(rt: HostRuntime) {
    let before = ("dpkg_cli unpack t", UNPACKED.0, UNPACKED.1);
    let rows = [
        ("dpkg_cli list", "alpha 1.0 unpacked\n||0\n"),
        ("dpkg_cli search /usr/bin/x", "||1\n"),
        ("dpkg_cli status gamma", "refused gamma Unknown\n||1\n"),
        ("dpkg_cli truename usr", "|bad path usr\n|2\n"),
    ];
    for (line, row) in rows {
        let told = told_after(rt.alloc(), WITH_PREINST, &[], &before, line);
        check(&rt, told, "", row);
    }
}

#[test]
fn trees_are_refused(rt: HostRuntime) {
    for (line, row) in REFUSALS {
        check(&rt, told(rt.alloc(), TREES, &[], line), "", row);
    }
}

// What follows the first tree's line, which may be a want of memory itself.
fn behind_first<'a>(rt: &(impl Env + AllocGlobal), text: &'a str) -> Option<&'a str> {
    match text.strip_prefix("refused empty NoControl\n") {
        Some(rest) => Some(rest),
        None if is_refusing(rt) => text.strip_prefix("refused empty NoMemory\n"),
        None => None,
    }
}

#[test]
fn second_tree_is_unpacked(rt: HostRuntime) {
    let told = told(rt.alloc(), TREES, &[], "dpkg_cli unpack empty a");
    let Ok(text) = told else {
        return check_no_answer(&rt);
    };
    let text = text.as_str();
    let done = "state alpha 1.0 install ok unpacked\ndone\n||1\n";
    let behind = behind_first(&rt, text).unwrap_or(text);
    check_text(&rt, behind, UNPACKED.0, done);
}

#[test]
fn line_without_colon_is_damage(rt: HostRuntime) {
    let line = "dpkg_cli unpack a";
    let told = told_after(rt.alloc(), TREES, &[], &(DAMAGING, "", ""), line);
    check(&rt, told, "", DAMAGED);
}

#[test]
fn no_words_name_the_subcommands(rt: HostRuntime) {
    let told = worded(rt.alloc(), "dpkg_cli");
    check(&rt, told, "", NAMES);
}

#[test]
fn versions_are_compared(rt: HostRuntime) {
    let told = worded(rt.alloc(), "dpkg_cli compare-versions 1.0~rc1 lt 1.0");
    check(&rt, told, "", "||0\n");
}

#[test]
fn bad_version_is_told(rt: HostRuntime) {
    let told = worded(rt.alloc(), "dpkg_cli compare-versions 1- eq 1");
    check(&rt, told, "", "|bad version 1-: EmptyPart\n|2\n");
}

fn check_usage(rt: &(impl Abort + Env + AllocGlobal), told: Result<String, AllocError>) {
    let Ok(text) = told else {
        return check_no_answer(rt);
    };
    let text = text.as_str();
    assert!(rt;
        is_usage(text) || is_want(text, "") && is_refusing(rt),
        "{text}"
    );
}

#[test]
fn faults_of_usage_are_told(rt: HostRuntime) {
    for line in FAULTS {
        check_usage(&rt, worded(rt.alloc(), line));
    }
}

// A reading, or what stands in its place.
fn check_reading(
    rt: &(impl Abort + Env + AllocGlobal),
    told: Result<String, AllocError>,
    row: &str,
) {
    let Ok(text) = told else {
        return check_no_answer(rt);
    };
    let text = text.as_str();
    let is_want = text == "NoMemory";
    assert!(rt; text == row || is_want && is_refusing(rt), "{text}");
}

#[test]
fn control_text_is_read_and_written(rt: HostRuntime) {
    for (bytes, row) in ROWS {
        check_reading(&rt, read_control(rt.alloc(), bytes), row);
    }
}

#[test]
fn one_paragraph_is_read(rt: HostRuntime) {
    for (bytes, row) in ONE_PARAGRAPH_ROWS {
        check_reading(&rt, package_of(rt.alloc(), bytes), row);
    }
}

#[test]
fn relation_fields_are_read_and_printed(rt: HostRuntime) {
    for (field, row) in FIELD_ROWS {
        let told = read_field(rt.alloc(), field, Form::Alternatives);
        check_reading(&rt, told, row);
    }
}

#[test]
fn provides_is_read(rt: HostRuntime) {
    for (field, row) in PROVIDES_ROWS {
        check_reading(&rt, read_provides(rt.alloc(), field), row);
    }
}
