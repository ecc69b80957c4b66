// Every choice of one or two failing calls in an upgrade (Policy 6.6): the calls that are made, and how each package ends.
use crate::root::root_of;
use crate::stack_calls::{BEGUN, BESIDE, Rows, UPGRADE, line_of, noted, plan_exit, run};
use host_core::{Call, Outcome};
use host_memory::MemoryHost;
use std::alloc::{AllocError, Global};
use std::process::Abort;
use std::test::Fail;
use undo_rows::Called;

// Rows whose calls of these numbers fail, and of those from a number on none, one or two besides; at most so many calls are
// made. Each line has the calls that are made, those that fail with a mark, and what is noted then.
struct Choices {
    rows: &'static Rows,
    failing: &'static [usize],
    from: usize,
    most: usize,
    lines: &'static [(&'static str, &'static str)],
}

// A small letter is a call on the way forward, a capital the one that undoes it: of alpha's prerm, its preinst and its postrm,
// of bravo and of charlie. The calls q and s are those that follow where p and r fail.
const LETTERS: &[(&str, &str)] = &[
    ("old alpha prerm upgrade 2.0", "p"),
    ("new alpha prerm failed-upgrade 1.0 2.0", "q"),
    ("old bravo prerm deconfigure in-favour alpha 2.0", "b"),
    ("old charlie prerm deconfigure in-favour alpha 2.0", "c"),
    ("new alpha preinst upgrade 1.0 2.0", "i"),
    ("old alpha postrm upgrade 2.0", "r"),
    ("new alpha postrm failed-upgrade 1.0 2.0", "s"),
    ("old alpha preinst abort-upgrade 2.0", "R"),
    ("new alpha postrm abort-upgrade 1.0 2.0", "I"),
    (
        "old charlie postinst abort-deconfigure in-favour alpha 2.0",
        "C",
    ),
    (
        "old bravo postinst abort-deconfigure in-favour alpha 2.0",
        "B",
    ),
    ("old alpha postinst abort-upgrade 2.0", "P"),
];

const CHOICES: &[Choices] = &[
    Choices {
        rows: &UPGRADE,
        failing: &[],
        from: 0,
        most: 8,
        lines: &[
            ("p i r", "hiin"),
            ("p! q i r", "hiin"),
            ("p! q! P", "iiio"),
            ("p! q i! I P", "iiio"),
            ("p! q i r! s", "hiin"),
            ("p i! I P", "iiio"),
            ("p i! I!", "hiio"),
            ("p i! I P!", "uiio"),
            ("p i r! s", "hiin"),
            ("p i r! s! R I P", "iiio"),
        ],
    },
    Choices {
        rows: &UPGRADE,
        failing: &[2, 3],
        from: 4,
        most: 8,
        lines: &[
            ("p i r! s! R I P", "iiio"),
            ("p i r! s! R!", "hiio"),
            ("p i r! s! R I!", "hiio"),
            ("p i r! s! R I P!", "uiio"),
        ],
    },
    Choices {
        rows: &BESIDE,
        failing: &[],
        from: 0,
        most: 12,
        lines: &[
            ("p b c i r", "hccn"),
            ("p! q b c i r", "hccn"),
            ("p! q! P", "iiio"),
            ("p! q b! B P", "iiio"),
            ("p! q b c! C B P", "iiio"),
            ("p! q b c i! I C B P", "iiio"),
            ("p! q b c i r! s", "hccn"),
            ("p b! B P", "iiio"),
            ("p b! B! P", "icio"),
            ("p b! B P!", "ciio"),
            ("p b c! C B P", "iiio"),
            ("p b c! C! B P", "iico"),
            ("p b c! C B! P", "icio"),
            ("p b c! C B P!", "ciio"),
            ("p b c i! I C B P", "iiio"),
            ("p b c i! I! C B", "hiio"),
            ("p b c i! I C! B P", "iico"),
            ("p b c i! I C B! P", "icio"),
            ("p b c i! I C B P!", "uiio"),
            ("p b c i r! s", "hccn"),
            ("p b c i r! s! R I C B P", "iiio"),
        ],
    },
    Choices {
        rows: &BESIDE,
        failing: &[4, 5],
        from: 6,
        most: 12,
        lines: &[
            ("p b c i r! s! R I C B P", "iiio"),
            ("p b c i r! s! R! C B", "hiio"),
            ("p b c i r! s! R I! C B", "hiio"),
            ("p b c i r! s! R I C! B P", "iico"),
            ("p b c i r! s! R I C B! P", "icio"),
            ("p b c i r! s! R I C B P!", "uiio"),
            ("p b c i r! s! R! C! B", "hico"),
            ("p b c i r! s! R! C B!", "hcio"),
            ("p b c i r! s! R I! C! B", "hico"),
            ("p b c i r! s! R I! C B!", "hcio"),
            ("p b c i r! s! R I C! B! P", "icco"),
            ("p b c i r! s! R I C! B P!", "uico"),
            ("p b c i r! s! R I C B! P!", "ucio"),
        ],
    },
];

fn letter_of(alloc: Global, call: &Call) -> Result<&'static str, AllocError> {
    let line = line_of(alloc, call)?;
    for (of, letter) in LETTERS {
        if *of == line.as_str() {
            return Ok(*letter);
        }
    }
    Ok("?")
}

fn is_success(outcome: Outcome) -> bool {
    outcome.is_success()
}

// The calls by their letters.
pub(crate) fn letters_of(alloc: Global, told: &[Called]) -> Result<String, AllocError> {
    let mut text = String::new(alloc);
    for called in told {
        if !text.is_empty() {
            text.push_str(" ")?;
        }
        text.push_str(letter_of(alloc, &called.call)?)?;
        if !is_success(called.outcome) {
            text.push_str("!")?;
        }
    }
    Ok(text)
}

// A root whose calls of these numbers fail.
fn planned(
    alloc: Global,
    choices: &Choices,
    first: usize,
    second: usize,
) -> Result<MemoryHost, AllocError> {
    let mut host = root_of(alloc, BEGUN)?;
    for number in 0..choices.most {
        let fails = number == first || number == second || choices.failing.contains(&number);
        plan_exit(alloc, &mut host, i32::from(fails))?;
    }
    Ok(host)
}

// Whether this is one of the lines.
fn is_line(lines: &[(&'static str, &'static str)], calls: &str, noted: &str) -> bool {
    lines.iter().any(|line| line.0 == calls && line.1 == noted)
}

fn check(
    rt: &(impl Abort + AllocGlobal),
    choices: &Choices,
    first: usize,
    second: usize,
) -> Result<(), Fail> {
    let alloc = rt.alloc();
    let mut host = planned(alloc, choices, first, second)?;
    let mut told = Vec::new(alloc);
    let answer = run(alloc, &mut host, choices.rows, &mut told);
    assert!(rt; answer.is_ok());
    let calls = letters_of(alloc, told.as_slice())?;
    let noted = noted(alloc, &mut host)?;
    assert!(rt;
        is_line(choices.lines, calls.as_str(), noted.as_str()),
        "{calls}: {noted}"
    );
    Ok(())
}

// A number that no call has is a choice of fewer.
fn check_from(
    rt: &(impl Abort + AllocGlobal),
    choices: &Choices,
    first: usize,
) -> Result<(), Fail> {
    for second in first..=choices.most {
        check(rt, choices, first, second)?;
    }
    Ok(())
}

#[test]
fn each_choice_of_failing_calls_is_unwound(rt: HostRuntime) -> Result<(), Fail> {
    for choices in CHOICES {
        for first in choices.from..=choices.most {
            check_from(&rt, choices, first)?;
        }
    }
    Ok(())
}
