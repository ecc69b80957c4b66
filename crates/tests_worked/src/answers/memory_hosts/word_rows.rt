// What words ask for: the names of the subcommands, comparisons of versions, and faults of usage.
use super::{check, check_usage, expect, worded};
use std::test::Fail;

const COMPARISONS: &[&str] = &[
    "dpkg_cli compare-versions 1.0~rc1 lt 1.0",
    "dpkg_cli compare-versions 1.0 eq 1.0-0",
    "dpkg_cli compare-versions 1.10 gt 1.9",
    "dpkg_cli compare-versions 1.001 eq 1.1",
    "dpkg_cli compare-versions 1.0+ gt 1.0a",
    "dpkg_cli compare-versions 1.0a ge 1.0+",
    "dpkg_cli compare-versions 1- eq 1",
];

pub(crate) const FAULTS: &[&str] = &[
    "dpkg_cli fetch",
    "dpkg_cli unpack",
    "dpkg_cli unpack --root rel t",
    "dpkg_cli unpack --force-confold --force-confnew t",
    "dpkg_cli install",
    "dpkg_cli install --root rel t",
    "dpkg_cli install --force-confnew --force-confold t",
    "dpkg_cli install --abort-after many t",
    "dpkg_cli configure --abort-after",
    "dpkg_cli select --abort-after 3 alpha=hold",
    "dpkg_cli configure --root rel alpha",
    "dpkg_cli configure --force-confold --force-confnew alpha",
    "dpkg_cli configure --force-confnew=yes alpha",
    "dpkg_cli configure --triggers-only alpha",
    "dpkg_cli configure --triggers-only --no-triggers",
    "dpkg_cli configure --triggers-only --force-confold --force-confnew",
    "dpkg_cli remove",
    "dpkg_cli remove --force-confnew alpha",
    "dpkg_cli purge",
    "dpkg_cli purge --root rel alpha",
    "dpkg_cli select",
    "dpkg_cli select --root rel alpha=hold",
    "dpkg_cli select --no-triggers alpha=hold",
    "dpkg_cli select alpha",
    "dpkg_cli select alpha=hold bravo=held",
    "dpkg_cli remove-selected alpha",
    "dpkg_cli remove-selected --triggers-only",
    "dpkg_cli remove-selected --root rel",
    "dpkg_cli selections a[",
    "dpkg_cli search /usr/*\\",
    "dpkg_cli compare-versions 1 is 1",
    "dpkg_cli list --root rel",
    "dpkg_cli status",
    "dpkg_cli truename --package A /usr/bin/v",
    "dpkg_cli divert /usr/bin/v",
    "dpkg_cli undivert --local --package a /usr/bin/v",
    "dpkg_cli fetch --help",
    "dpkg_cli list --version",
    "dpkg_cli help fetch",
    "dpkg_cli help install unpack",
    "dpkg_cli list --wait 3",
];

/// The names of the subcommands, and nothing on standard error.
pub(crate) const NAMES: &str = "audit
compare-versions
configure
diversions
divert
help
install
list
listfiles
purge
remove
remove-selected
search
select
selections
status
truename
undivert
unpack
verify
||0
";

#[test]
fn no_words_name_the_subcommands(rt: HostRuntime) -> Result<(), Fail> {
    let alloc = rt.alloc();
    let row = format!(in alloc; "{NAMES}||||||")?;
    check(&rt, &[], &[], &["dpkg_cli"], row.as_str())
}

#[test]
fn versions_are_compared(rt: HostRuntime) -> Result<(), Fail> {
    let row = "||0\n||0\n||0\n||0\n||0\n||1\n|bad version 1-: EmptyPart\n|2\n||||||";
    check(&rt, &[], &[], COMPARISONS, row)
}

// An empty version is one for the operators with `-nl` alone, behind all others, as dpkg has it; and the signs of control files.
const COMPARISONS_LIKE_DPKG: &[(&str, &str)] = &[
    (
        "dpkg_cli compare-versions  lt 1",
        "|bad version : Empty\n|2\n",
    ),
    (
        "dpkg_cli compare-versions 1 lt ",
        "|bad version : Empty\n|2\n",
    ),
    (
        "dpkg_cli compare-versions  eq ",
        "|bad version : Empty\n|2\n",
    ),
    (
        "dpkg_cli compare-versions  ne 1",
        "|bad version : Empty\n|2\n",
    ),
    ("dpkg_cli compare-versions  lt-nl 1", "||1\n"),
    ("dpkg_cli compare-versions 1 lt-nl ", "||0\n"),
    ("dpkg_cli compare-versions  le-nl 1", "||1\n"),
    ("dpkg_cli compare-versions  ge-nl 1", "||0\n"),
    ("dpkg_cli compare-versions  gt-nl 1", "||0\n"),
    ("dpkg_cli compare-versions 1 gt-nl ", "||1\n"),
    ("dpkg_cli compare-versions 1 < 1", "||0\n"),
    ("dpkg_cli compare-versions 1 > 1", "||0\n"),
    ("dpkg_cli compare-versions 1 << 1", "||1\n"),
    ("dpkg_cli compare-versions 1 <= 1", "||0\n"),
    ("dpkg_cli compare-versions 1 = 1", "||0\n"),
    (
        "dpkg_cli compare-versions 1 >= ",
        "|bad version : Empty\n|2\n",
    ),
    ("dpkg_cli compare-versions 1 >> 1", "||1\n"),
    (
        "dpkg_cli compare-versions  lt-nl 1-",
        "|bad version 1-: EmptyPart\n|2\n",
    ),
];

#[test]
fn versions_are_compared_as_dpkg_does(rt: HostRuntime) -> Result<(), Fail> {
    for (line, row) in COMPARISONS_LIKE_DPKG {
        expect(&rt, worded(rt.alloc(), line), row)?;
    }
    Ok(())
}

#[test]
fn version_is_told(rt: HostRuntime) -> Result<(), Fail> {
    let row = "coizkerra 0.2.0\n||0\n";
    expect(&rt, worded(rt.alloc(), "dpkg_cli --version"), row)
}

// The one thing that is wrong, with its word.
const FAULTS_BY_WORD: &[(&str, &str)] = &[
    (
        "dpkg_cli list --root srv/root",
        "--root: \"srv/root\" isn't absolute",
    ),
    (
        "dpkg_cli unpack --root rel --force-confold --force-confnew t",
        "--root: \"rel\" isn't absolute",
    ),
    (
        "dpkg_cli install --force-confnew --force-confold t",
        "--force-confold and --force-confnew exclude each other",
    ),
    (
        "dpkg_cli configure --no-triggers --triggers-only alpha",
        "--triggers-only and PKG exclude each other",
    ),
    (
        "dpkg_cli configure --no-triggers --triggers-only",
        "--triggers-only and --no-triggers exclude each other",
    ),
    (
        "dpkg_cli configure --triggers-only --force-confold --force-confnew",
        "--force-confold and --force-confnew exclude each other",
    ),
    (
        "dpkg_cli truename --package A /usr/bin/v",
        "--package: \"A\" isn't the name of a package",
    ),
    (
        "dpkg_cli divert --package A /usr/bin/v",
        "--package: \"A\" isn't the name of a package",
    ),
    (
        "dpkg_cli divert /usr/bin/v",
        "--package P or --local is wanted",
    ),
    (
        "dpkg_cli undivert --local --package aa /usr/bin/v",
        "--package and --local exclude each other",
    ),
    (
        "dpkg_cli remove --wait 1.5 alpha",
        "--wait: \"1.5\" is no number of seconds below 4294967296",
    ),
    (
        "dpkg_cli divert --wait +3 --local /usr/bin/v",
        "--wait: \"+3\" is no number of seconds below 4294967296",
    ),
    (
        "dpkg_cli unpack --wait 4294967296 t",
        "--wait: \"4294967296\" is no number of seconds below 4294967296",
    ),
    (
        "dpkg_cli configure --wait=",
        "--wait: \"\" is no number of seconds below 4294967296",
    ),
    (
        "dpkg_cli compare-versions 1 is 1",
        "OP: \"is\" is none of lt le eq ne ge gt lt-nl le-nl ge-nl gt-nl << <= = >= >>",
    ),
    (
        "dpkg_cli select alpha=hold =purge bravo=held",
        "PKG=WANT: \"bravo=held\" has none of install hold deinstall purge behind its last =",
    ),
    (
        "dpkg_cli select bravo",
        "PKG=WANT: \"bravo\" has none of install hold deinstall purge behind its last =",
    ),
    (
        "dpkg_cli list alpha b[c]",
        "PATTERN: \"b[c]\" has a [ without a backslash before it, or a backslash at its end",
    ),
    (
        "dpkg_cli search */b[c]",
        "PATH: \"*/b[c]\" has a [ without a backslash before it, or a backslash at its end",
    ),
    (
        "dpkg_cli help fetch",
        "COMMAND: \"fetch\" isn't a subcommand",
    ),
    (
        "dpkg_cli list --root a\n\x1bb",
        "--root: \"a\\x0a\\x1bb\" isn't absolute",
    ),
];

// What stands behind the bar up to the line's end.
fn first_of(text: &str) -> &str {
    let behind = text.strip_prefix("|error: ").unwrap_or(text);
    match behind.split_once('\n') {
        Some((first, _)) => first,
        None => behind,
    }
}

#[test]
fn a_fault_of_usage_names_its_word(rt: HostRuntime) -> Result<(), Fail> {
    for (line, row) in FAULTS_BY_WORD {
        let answer = worded(rt.alloc(), line)?;
        assert_eq!(rt; first_of(answer.as_str()), *row);
    }
    Ok(())
}

// What clap says quotes the word, as it is shown in a line.
#[test]
fn an_unknown_word_is_shown_in_one_line(rt: HostRuntime) -> Result<(), Fail> {
    let answer = worded(rt.alloc(), "dpkg_cli fe\ntch\x1b[2J")?;
    let first = first_of(answer.as_str());
    assert!(rt; first.contains("fe\\x0atch\\x1b[2J"), "{first}");
    Ok(())
}

#[test]
fn faults_of_usage_are_told(rt: HostRuntime) -> Result<(), Fail> {
    for line in FAULTS {
        check_usage(&rt, line)?;
    }
    Ok(())
}

// Each answer to these is a screen on standard output.
const ASKED_FOR_HELP: &[&str] = &[
    "dpkg_cli help",
    "dpkg_cli help install",
    "dpkg_cli help help",
    "dpkg_cli -h",
    "dpkg_cli --help",
    "dpkg_cli --help unpack",
    "dpkg_cli select --help",
    "dpkg_cli help remove-selected",
    "dpkg_cli help selections",
    "dpkg_cli install --help",
    "dpkg_cli remove --root rel -h alpha",
];

#[test]
fn help_is_told(rt: HostRuntime) -> Result<(), Fail> {
    for line in ASKED_FOR_HELP {
        let answer = worded(rt.alloc(), line)?;
        let answer = answer.as_str();
        assert!(rt;
            answer.starts_with("Usage: coizkerra ") && answer.ends_with("\n||0\n"),
            "{line}"
        );
    }
    Ok(())
}
