// Files that are written over old ones, where each step is declined in turn, and also one of those that put back what was
// written before.
use crate::breaking::{Break, LIMIT, denied_last, plan, recovered};
use crate::file_acts::{Act, Package, Ships, fault_text, perform};
use crate::file_breaking::{Found, NEVER, Row, judge_again, judge_pairs};
use crate::root::{judge_things, root_of};
use host_core::{HostFault, RootPath};
use host_memory::{Done, MemoryHost};
use std::alloc::{AllocError, Global};
use std::process::Abort;
use std::test::Fail;
use undo_rows::StepFault;

// A package, the path of its that comes first, what stands before its files are written, and what is found where one of its
// steps was declined.
struct Case {
    first: &'static str,
    row: Row,
    undone: &'static [Found],
}

// A file over a file and over a link, a link over a file, and new ones; a conffile.
const OVER: Package = Package {
    name: "alpha",
    ships: &[
        ("/etc", Ships::Directory),
        ("/etc/z.conf", Ships::Conffile("shipped")),
        ("/usr", Ships::Directory),
        ("/usr/bin", Ships::Directory),
        ("/usr/bin/a", Ships::File("new")),
        ("/usr/bin/l", Ships::File("new")),
        ("/usr/bin/m", Ships::Link("a")),
        ("/usr/bin/n", Ships::File("new")),
        ("/usr/lib", Ships::Directory),
        ("/usr/lib/x", Ships::Link("y")),
    ],
    listing: &[],
    yields: &[],
};

const OVER_CASE: Case = Case {
    first: "/etc",
    row: Row {
        there: &[
            ("/etc/z.conf", "mine"),
            ("/usr/bin/a", "old"),
            ("/usr/bin/l", "@old"),
            ("/usr/bin/m", "old"),
            ("/usr/bin/m.dpkg-tmp", "left"),
            ("/usr/bin/other", "other"),
        ],
        act: Act::Write(&OVER),
        left: &[
            ("/etc/z.conf", "mine"),
            ("/etc/z.conf.dpkg-new", "shipped"),
            ("/usr/bin/a", "new"),
            ("/usr/bin/a.dpkg-tmp", "old"),
            ("/usr/bin/l", "new"),
            ("/usr/bin/l.dpkg-tmp", "@old"),
            ("/usr/bin/m", "@a"),
            ("/usr/bin/m.dpkg-tmp", "old"),
            ("/usr/bin/n", "new"),
            ("/usr/lib/x", "@y"),
        ],
        found: &[
            (("/etc/z.conf", "/etc/z.conf.dpkg-tmp"), &[("mine", "")]),
            (
                ("/usr/bin/a", "/usr/bin/a.dpkg-tmp"),
                &[("old", ""), ("old", "old"), ("new", "old")],
            ),
            (
                ("/usr/bin/l", "/usr/bin/l.dpkg-tmp"),
                &[("@old", ""), ("@old", "@old"), ("new", "@old")],
            ),
            (
                ("/usr/bin/m", "/usr/bin/m.dpkg-tmp"),
                &[("old", "left"), ("old", ""), ("old", "old"), ("@a", "old")],
            ),
            (
                ("/usr/bin/n", "/usr/bin/n.dpkg-tmp"),
                &[("", ""), ("new", "")],
            ),
            (
                ("/usr/lib", "/usr/lib/x"),
                &[("", ""), ("/", ""), ("/", "@y")],
            ),
            (
                ("/usr/bin/other", "/usr/bin/other.dpkg-tmp"),
                &[("other", "")],
            ),
        ],
        again: Act::Write(&OVER),
        left_again: &[
            ("/etc/z.conf", "mine"),
            ("/etc/z.conf.dpkg-new", "shipped"),
            ("/etc/z.conf.dpkg-inst", ""),
            ("/usr/bin/a", "new"),
            ("/usr/bin/a.dpkg-inst", ""),
            ("/usr/bin/l", "new"),
            ("/usr/bin/l.dpkg-inst", ""),
            ("/usr/bin/m", "@a"),
            ("/usr/bin/m.dpkg-inst", ""),
            ("/usr/bin/n", "new"),
            ("/usr/bin/n.dpkg-inst", ""),
            ("/usr/lib/x", "@y"),
            ("/usr/lib/x.dpkg-inst", ""),
        ],
    },
    undone: &[
        (("/etc/z.conf", "/etc/z.conf.dpkg-tmp"), &[("mine", "")]),
        (
            ("/etc/z.conf.dpkg-new", "/etc/z.conf.dpkg-inst"),
            &[("", "")],
        ),
        (("/usr/bin/a", "/usr/bin/a.dpkg-tmp"), &[("old", "")]),
        (("/usr/bin/a.dpkg-inst", "/usr/bin/a.dpkg-new"), &[("", "")]),
        (("/usr/bin/l", "/usr/bin/l.dpkg-tmp"), &[("@old", "")]),
        (("/usr/bin/l.dpkg-inst", "/usr/bin/l.dpkg-new"), &[("", "")]),
        (
            ("/usr/bin/m", "/usr/bin/m.dpkg-tmp"),
            &[("old", "left"), ("old", "")],
        ),
        (("/usr/bin/m.dpkg-inst", "/usr/bin/m.dpkg-new"), &[("", "")]),
        (("/usr/bin/n", "/usr/bin/n.dpkg-inst"), &[("", "")]),
        (("/usr/lib", "/usr/lib/x"), &[("", "")]),
        (("/usr/lib/x.dpkg-inst", "/usr/lib/x.dpkg-tmp"), &[("", "")]),
        (
            ("/usr/bin/other", "/usr/bin/other.dpkg-tmp"),
            &[("other", "")],
        ),
    ],
};

// A directory in the place of a file, and a file below it.
const IN_PLACE: Package = Package {
    name: "alpha",
    ships: &[("/opt", Ships::Directory), ("/opt/b", Ships::File("new"))],
    listing: &[],
    yields: &[],
};

const IN_PLACE_CASE: Case = Case {
    first: "/opt",
    row: Row {
        there: &[("/opt", "a file")],
        act: Act::Write(&IN_PLACE),
        left: &[
            ("/opt", "/"),
            ("/opt.dpkg-tmp", "a file"),
            ("/opt/b", "new"),
        ],
        found: &[
            (
                ("/opt", "/opt.dpkg-tmp"),
                &[("a file", ""), ("", "a file"), ("/", "a file")],
            ),
            (("/opt/b", "/opt/b.dpkg-tmp"), &[("", ""), ("new", "")]),
        ],
        again: Act::Write(&IN_PLACE),
        left_again: &[("/opt", "/"), ("/opt/b", "new"), ("/opt/b.dpkg-inst", "")],
    },
    undone: &[
        (("/opt", "/opt.dpkg-tmp"), &[("a file", "")]),
        (("/opt.dpkg-inst", "/opt.dpkg-new"), &[("", "")]),
        (("/opt/b", "/opt/b.dpkg-inst"), &[("", "")]),
    ],
};

const CASES: &[Case] = &[OVER_CASE, IN_PLACE_CASE];

// The path of a declined step without a suffix, and that which comes first where the step was for all files.
fn place_of<'a>(path: &'a RootPath, first: &'a str) -> &'a str {
    match path.as_str().split(".dpkg-").next() {
        None | Some("") => first,
        Some(place) => place,
    }
}

// What is to be told of the last step that was declined: what was declined before it was a second name, for which a copy stands
// in.
fn last_denied(alloc: Global, host: &MemoryHost, first: &str) -> Result<String, AllocError> {
    let mut told = String::new(alloc);
    for done in host.events() {
        if let Done::Denied(path) = done {
            let place = place_of(path, first);
            told = format!(in alloc; "Declined {place}")?;
        }
    }
    Ok(told)
}

// Adds a line where another path is told than that whose step was declined, or where what was written isn't put back.
fn judge_undone(
    alloc: Global,
    host: &mut MemoryHost,
    case: &Case,
    fault: Option<&StepFault>,
    text: &mut String,
) -> Result<(), AllocError> {
    let told = fault_text(alloc, fault)?;
    if told.as_str() != last_denied(alloc, host, case.first)?.as_str() {
        text.push_str(format!(in alloc; "told: {told}\n")?.as_str())?;
    }
    judge_pairs(alloc, host, case.undone, text)
}

// Where only second names were declined, all is written. Where a step is told, all is put back; where one that puts something
// back was declined too, what stood there and what was shipped are found as where the device fails.
fn judge(
    alloc: Global,
    host: &mut MemoryHost,
    case: &Case,
    answer: &Result<Option<StepFault>, HostFault>,
    text: &mut String,
) -> Result<(), AllocError> {
    match (host.denials(), answer) {
        (_, Ok(None)) => judge_things(alloc, host, case.row.left, text),
        (1 | 2, Ok(Some(fault))) => judge_undone(alloc, host, case, Some(fault), text),
        (2, Err(HostFault::Declined)) if denied_last(host).is_some() => {
            judge_pairs(alloc, host, case.row.found, text)
        }
        _ => text.push_str("another answer\n"),
    }
}

// Writes the files while steps are declined, and writes them again.
fn run(alloc: Global, case: &Case, how: Break, text: &mut String) -> Result<usize, AllocError> {
    let mut host = root_of(alloc, case.row.there)?;
    let answer = perform(alloc, &mut host, &case.row.act, how);
    let denials = host.denials();
    judge(alloc, &mut host, case, &answer, text)?;
    let mut host = recovered(host, None)?;
    judge_again(alloc, &mut host, &case.row, text)?;
    Ok(denials)
}

fn check(rt: &(impl Abort + AllocGlobal), case: &Case, how: Break) -> Result<usize, Fail> {
    let alloc = rt.alloc();
    let mut text = String::new(alloc);
    let denials = run(alloc, case, how, &mut text)?;
    assert!(rt; text.is_empty(), "{how:?}: {text}");
    Ok(denials)
}

// So many steps are made, one is declined, and each behind it in turn, until none is.
fn decline_twice(rt: &(impl Abort + AllocGlobal), case: &Case, before: usize) -> Result<(), Fail> {
    for between in 0..LIMIT {
        if check(rt, case, Break::DeclineTwice(before, between))? < 2 {
            return Ok(());
        }
    }
    panic!(rt; "putting back makes too many steps")
}

fn decline_each_step(rt: &(impl Abort + AllocGlobal), case: &Case) -> Result<(), Fail> {
    for before in 0..LIMIT {
        if check(rt, case, Break::Decline(before))? == 0 {
            return Ok(());
        }
        decline_twice(rt, case, before)?;
    }
    panic!(rt; "it makes too many steps")
}

#[test]
fn a_declined_step_leaves_nothing_written(rt: HostRuntime) -> Result<(), Fail> {
    for case in CASES {
        decline_each_step(&rt, case)?;
    }
    Ok(())
}

const OVER_AND_BACK: Act = Act::PutBack(&OVER);

// Writes files and puts them back, while a step of either is declined. Nothing is left of them, unless a step that puts one back
// was declined. The answer is whether a step was.
fn put_back(
    alloc: Global,
    case: &Case,
    back: &Act,
    before: usize,
    text: &mut String,
) -> Result<bool, AllocError> {
    let mut host = root_of(alloc, case.row.there)?;
    plan(&mut host, Break::Decline(before))?;
    match perform(alloc, &mut host, back, NEVER) {
        Ok(_) => judge_pairs(alloc, &mut host, case.undone, text)?,
        Err(HostFault::Declined) if denied_last(&host).is_some() => {}
        Err(_) => text.push_str("another answer\n")?,
    }
    Ok(host.denials() > 0)
}

// A copy that stands in for a second name is put back like one.
#[test]
fn a_copy_is_put_back(rt: HostRuntime) -> Result<(), Fail> {
    let alloc = rt.alloc();
    for before in 0..LIMIT {
        let mut text = String::new(alloc);
        let declined = put_back(alloc, &OVER_CASE, &OVER_AND_BACK, before, &mut text)?;
        assert!(rt; text.is_empty(), "{before}: {text}");
        if !declined {
            return Ok(());
        }
    }
    panic!(rt; "it makes too many steps")
}
