// Worked rows of the cleanup stack: the calls that are made, for what a run failed, and what is noted then.
use crate::file_acts::fault_text;
use crate::root::root_of;
use crate::stack_calls::{
    BEGUN, BESIDE, CLASHING, Rows, UPGRADE, WITHOUT_SCRIPTS, line_of, lines_of, noted, plan_exit,
    run,
};
use host_core::HostFault;
use host_memory::MemoryHost;
use std::alloc::{AllocError, Global};
use std::process::Abort;
use std::test::Fail;
use undo_rows::{Failure, Unwinding};

// How calls end, which calls are made, for what it failed, and what is noted.
struct Worked {
    rows: &'static Rows,
    statuses: &'static [i32],
    calls: &'static str,
    failure: &'static str,
    noted: &'static str,
}

const WORKED: &[Worked] = &[
    Worked {
        rows: &UPGRADE,
        statuses: &[],
        calls: "old alpha prerm upgrade 2.0: exit 0
new alpha preinst upgrade 1.0 2.0: exit 0
old alpha postrm upgrade 2.0: exit 0
",
        failure: "",
        noted: "hiin",
    },
    Worked {
        rows: &UPGRADE,
        statuses: &[0, 0, 1, 1],
        calls: "old alpha prerm upgrade 2.0: exit 0
new alpha preinst upgrade 1.0 2.0: exit 0
old alpha postrm upgrade 2.0: exit 1
new alpha postrm failed-upgrade 1.0 2.0: exit 1
old alpha preinst abort-upgrade 2.0: exit 0
new alpha postrm abort-upgrade 1.0 2.0: exit 0
old alpha postinst abort-upgrade 2.0: exit 0
",
        failure: "old alpha postrm upgrade 2.0",
        noted: "iiio",
    },
    Worked {
        rows: &BESIDE,
        statuses: &[0, 0, 0, 0, 1, 1, 0, 1],
        calls: "old alpha prerm upgrade 2.0: exit 0
old bravo prerm deconfigure in-favour alpha 2.0: exit 0
old charlie prerm deconfigure in-favour alpha 2.0: exit 0
new alpha preinst upgrade 1.0 2.0: exit 0
old alpha postrm upgrade 2.0: exit 1
new alpha postrm failed-upgrade 1.0 2.0: exit 1
old alpha preinst abort-upgrade 2.0: exit 0
new alpha postrm abort-upgrade 1.0 2.0: exit 1
old charlie postinst abort-deconfigure in-favour alpha 2.0: exit 0
old bravo postinst abort-deconfigure in-favour alpha 2.0: exit 0
",
        failure: "old alpha postrm upgrade 2.0",
        noted: "hiio",
    },
    Worked {
        rows: &BESIDE,
        statuses: &[0, 0, 0, 0, 1, 1, 0, 0, 1],
        calls: "old alpha prerm upgrade 2.0: exit 0
old bravo prerm deconfigure in-favour alpha 2.0: exit 0
old charlie prerm deconfigure in-favour alpha 2.0: exit 0
new alpha preinst upgrade 1.0 2.0: exit 0
old alpha postrm upgrade 2.0: exit 1
new alpha postrm failed-upgrade 1.0 2.0: exit 1
old alpha preinst abort-upgrade 2.0: exit 0
new alpha postrm abort-upgrade 1.0 2.0: exit 0
old charlie postinst abort-deconfigure in-favour alpha 2.0: exit 1
old bravo postinst abort-deconfigure in-favour alpha 2.0: exit 0
old alpha postinst abort-upgrade 2.0: exit 0
",
        failure: "old alpha postrm upgrade 2.0",
        noted: "iico",
    },
    Worked {
        rows: &WITHOUT_SCRIPTS,
        statuses: &[2],
        calls: "old alpha prerm upgrade 2.0: exit 2
old alpha postinst abort-upgrade 2.0: exit 0
",
        failure: "old alpha prerm upgrade 2.0",
        noted: "iiio",
    },
    Worked {
        rows: &CLASHING,
        statuses: &[],
        calls: "new alpha preinst install: exit 0
new alpha postrm abort-install: exit 0
",
        failure: "Clash /usr/bin/x gamma",
        noted: "iiio",
    },
];

fn failure_text(alloc: Global, failure: &Failure) -> Result<String, AllocError> {
    match failure {
        Failure::OfCall(call) => line_of(alloc, call),
        Failure::OfFiles(fault) => fault_text(alloc, Some(fault)),
    }
}

fn told(
    alloc: Global,
    answer: &Result<Option<Unwinding>, HostFault>,
) -> Result<String, AllocError> {
    match answer {
        Ok(None) => Ok(String::new(alloc)),
        Ok(Some(unwinding)) => failure_text(alloc, &unwinding.failure),
        Err(_) => String::from_str(alloc, "broken off"),
    }
}

fn planned(alloc: Global, statuses: &[i32]) -> Result<MemoryHost, AllocError> {
    let mut host = root_of(alloc, BEGUN)?;
    for status in statuses {
        plan_exit(alloc, &mut host, *status)?;
    }
    Ok(host)
}

fn check(rt: &(impl Abort + AllocGlobal), row: &Worked) -> Result<(), Fail> {
    let alloc = rt.alloc();
    let mut host = planned(alloc, row.statuses)?;
    let mut calls = Vec::new(alloc);
    let answer = run(alloc, &mut host, row.rows, &mut calls);
    assert_eq!(rt; lines_of(alloc, calls.as_slice())?.as_str(), row.calls);
    assert_eq!(rt; told(alloc, &answer)?.as_str(), row.failure);
    assert_eq!(rt; noted(alloc, &mut host)?.as_str(), row.noted);
    Ok(())
}

#[test]
fn worked_rows_make_their_calls(rt: HostRuntime) -> Result<(), Fail> {
    for row in WORKED {
        check(&rt, row)?;
    }
    Ok(())
}
