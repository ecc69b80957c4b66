// An upgrade's rows broken off at each step of what is noted beside them, and within each call: the calls so far, and what is
// found then.
use crate::breaking::{
    Break, EFFECTS, FILLS, LIMIT, Loss, Ran, denied_last, ends_with_fault, how_it_ran, plan,
    recovered,
};
use crate::root::root_of;
use crate::stack_calls::{BEGUN, BESIDE, Rows, UPGRADE, noted, noting, plan_exit, row_of, run};
use crate::stack_choices::letters_of;
use host_core::{HostFault, Outcome};
use host_memory::{Done, Effect, Ending, MemoryHost, Planned};
use std::alloc::{AllocError, Global};
use std::process::Abort;
use std::test::Fail;
use undo_rows::{Called, Stack, Unwinding};

// Rows, how their calls end, and all that is noted and called, one after another: a word of four letters is what is noted from
// then on, another one a call.
struct Trace {
    rows: &'static Rows,
    statuses: &'static [i32],
    words: &'static str,
}

const UPGRADED: Trace = Trace {
    rows: &BESIDE,
    statuses: &[],
    words: "iiio ciio p ccio b ccco c hcco i hccn r",
};

const UNWOUND: Trace = Trace {
    rows: &UPGRADE,
    statuses: &[0, 0, 1, 1],
    words: "iiio ciio p hiio i hiin r! s! R hiio I uiio P iiio",
};

const TRACES: &[Trace] = &[
    UPGRADED,
    UNWOUND,
    Trace {
        rows: &BESIDE,
        statuses: &[0, 0, 0, 0, 1, 1, 0, 1],
        words: "iiio ciio p ccio b ccco c hcco i hccn r! s! R hcco I! C hcio B hiio",
    },
    Trace {
        rows: &BESIDE,
        statuses: &[0, 0, 0, 0, 1, 1, 0, 0, 1],
        words: "iiio ciio p ccio b ccco c hcco i hccn r! s! R hcco I ucco C! B uico P iico",
    },
];

fn is_state(word: &str) -> bool {
    word.len() == 4
}

// Whether this may be noted once so many calls are made: all that was noted until then, or behind a loss the first of it.
fn stands(words: &str, calls: usize, is_lost: bool, found: &str) -> bool {
    let mut left = calls;
    let mut is_found = false;
    for word in words.split(' ') {
        if is_state(word) {
            is_found = word == found;
        } else if left == 0 {
            return false;
        } else {
            left -= 1;
        }
        if is_found && (is_lost || left == 0) {
            return true;
        }
    }
    false
}

// The first calls of a trace, by their letters.
fn first_calls(alloc: Global, words: &str, calls: usize) -> Result<String, AllocError> {
    let mut text = String::new(alloc);
    for word in words.split(' ').filter(|word| !is_state(word)).take(calls) {
        if !text.is_empty() {
            text.push_str(" ")?;
        }
        text.push_str(word)?;
    }
    Ok(text)
}

fn is_finished(done: &Done) -> bool {
    match done {
        Done::Finished(_) => true,
        Done::Did(_) | Done::Cut(_, _) | Done::Failed | Done::Denied(_) => false,
    }
}

// How many calls the host has made that ended.
fn count_calls(host: &MemoryHost) -> usize {
    host.events()
        .iter()
        .filter(|done| is_finished(done))
        .count()
}

// Adds a line where other calls were told than those that the host has made, or than the first of the trace.
fn judge_calls(
    alloc: Global,
    host: &MemoryHost,
    trace: &Trace,
    told: &[Called],
    text: &mut String,
) -> Result<(), AllocError> {
    let calls = letters_of(alloc, told)?;
    let wanted = first_calls(alloc, trace.words, told.len())?;
    if calls.as_str() != wanted.as_str() || count_calls(host) != told.len() {
        text.push_str(format!(in alloc; "{calls}\n")?.as_str())?;
    }
    Ok(())
}

// Adds a line where a fault or a denial isn't told, or one is that didn't come, or something was done after it.
fn judge_answer(
    host: &MemoryHost,
    answer: &Result<Option<Unwinding>, HostFault>,
    met: bool,
    text: &mut String,
) -> Result<(), AllocError> {
    let as_it_is = match answer {
        Ok(_) => !met,
        Err(HostFault::Device) => met && ends_with_fault(host),
        Err(HostFault::Declined) => met && denied_last(host).is_some(),
        Err(HostFault::NoMemory) => false,
    };
    if !as_it_is {
        text.push_str("another answer\n")?;
    }
    Ok(())
}

// Adds a line where something else is noted.
fn judge_noted(
    alloc: Global,
    host: &mut MemoryHost,
    trace: &Trace,
    calls: usize,
    is_lost: bool,
    text: &mut String,
) -> Result<(), AllocError> {
    let found = noted(alloc, host)?;
    if !stands(trace.words, calls, is_lost, found.as_str()) {
        text.push_str(format!(in alloc; "{calls}: {found}\n")?.as_str())?;
    }
    Ok(())
}

fn planned(alloc: Global, statuses: &[i32]) -> Result<MemoryHost, AllocError> {
    let mut host = root_of(alloc, BEGUN)?;
    for status in statuses {
        plan_exit(alloc, &mut host, *status)?;
    }
    Ok(host)
}

// Runs the rows of a trace, and recovers the root.
fn run_trace(
    alloc: Global,
    host: MemoryHost,
    trace: &Trace,
    loss: Option<Loss>,
    text: &mut String,
) -> Result<Ran, AllocError> {
    let mut host = host;
    let mut told = Vec::new(alloc);
    let answer = run(alloc, &mut host, trace.rows, &mut told);
    let ran = how_it_ran(&host);
    judge_answer(&host, &answer, ran.met, text)?;
    judge_calls(alloc, &host, trace, told.as_slice(), text)?;
    let mut host = recovered(host, loss)?;
    judge_noted(alloc, &mut host, trace, told.len(), loss.is_some(), text)?;
    Ok(ran)
}

fn check(
    rt: &(impl Abort + AllocGlobal),
    trace: &Trace,
    how: Break,
    loss: Option<Loss>,
) -> Result<Ran, Fail> {
    let alloc = rt.alloc();
    let mut text = String::new(alloc);
    let mut host = planned(alloc, trace.statuses)?;
    plan(&mut host, how)?;
    let ran = run_trace(alloc, host, trace, loss, &mut text)?;
    assert!(rt; text.is_empty(), "{how:?} {loss:?}: {text}");
    Ok(ran)
}

fn check_loss(
    rt: &(impl Abort + AllocGlobal),
    trace: &Trace,
    before: usize,
    keep: usize,
) -> Result<(), Fail> {
    for fill in FILLS {
        let loss = Some(Loss { keep, fill: *fill });
        check(rt, trace, Break::Stop(before, Effect::Whole), loss)?;
    }
    Ok(())
}

// A stop and a fault behind so many steps, with each effect, and a step that is declined.
fn check_steps(
    rt: &(impl Abort + AllocGlobal),
    trace: &Trace,
    before: usize,
) -> Result<bool, Fail> {
    let mut met = false;
    for effect in EFFECTS {
        check(rt, trace, Break::Stop(before, *effect), None)?;
        met = check(rt, trace, Break::Fault(before, *effect), None)?.met;
    }
    let declined = check(rt, trace, Break::Decline(before), None)?.met;
    assert_eq!(rt; declined, met);
    Ok(met)
}

// Each loss behind so many steps.
fn check_losses(
    rt: &(impl Abort + AllocGlobal),
    trace: &Trace,
    before: usize,
) -> Result<bool, Fail> {
    let ran = check(rt, trace, Break::Stop(before, Effect::Whole), None)?;
    for keep in 0..=ran.names {
        check_loss(rt, trace, before, keep)?;
    }
    Ok(ran.met)
}

fn break_at_each_step(rt: &(impl Abort + AllocGlobal), trace: &Trace) -> Result<(), Fail> {
    for before in 0..LIMIT {
        if !check_steps(rt, trace, before)? {
            return Ok(());
        }
    }
    panic!(rt; "the rows make too many steps")
}

fn lose_at_each_step(rt: &(impl Abort + AllocGlobal), trace: &Trace) -> Result<(), Fail> {
    for before in 0..LIMIT {
        if !check_losses(rt, trace, before)? {
            return Ok(());
        }
    }
    panic!(rt; "the rows make too many steps")
}

fn fail_at_each_read(rt: &(impl Abort + AllocGlobal), trace: &Trace) -> Result<(), Fail> {
    for before in 0..LIMIT {
        if !check(rt, trace, Break::Read(before), None)?.met {
            return Ok(());
        }
    }
    panic!(rt; "the rows look too often")
}

#[test]
fn breaks_within_rows(rt: HostRuntime) -> Result<(), Fail> {
    for trace in TRACES {
        break_at_each_step(&rt, trace)?;
        fail_at_each_read(&rt, trace)?;
    }
    Ok(())
}

#[test]
fn loses_power_within_an_upgrade(rt: HostRuntime) -> Result<(), Fail> {
    lose_at_each_step(&rt, &UPGRADED)
}

#[test]
fn loses_power_within_an_unwinding(rt: HostRuntime) -> Result<(), Fail> {
    lose_at_each_step(&rt, &UNWOUND)
}

// A root whose device fails while the script of one call runs.
fn cut_off(alloc: Global, trace: &Trace, before: usize) -> Result<MemoryHost, AllocError> {
    let mut host = root_of(alloc, BEGUN)?;
    for number in 0..before {
        let status = trace.statuses.get(number).copied().unwrap_or(0);
        plan_exit(alloc, &mut host, status)?;
    }
    host.plan(Planned {
        ending: Ending::CutOff,
        change: Vec::new(alloc),
    })?;
    Ok(host)
}

// The call that is cut off isn't told, and none follows.
fn check_cut(rt: &(impl Abort + AllocGlobal), trace: &Trace, before: usize) -> Result<(), Fail> {
    let alloc = rt.alloc();
    let mut host = cut_off(alloc, trace, before)?;
    let mut told = Vec::new(alloc);
    let answer = run(alloc, &mut host, trace.rows, &mut told);
    let mut text = String::new(alloc);
    judge_answer(&host, &answer, true, &mut text)?;
    judge_calls(alloc, &host, trace, told.as_slice(), &mut text)?;
    judge_noted(alloc, &mut host, trace, before, false, &mut text)?;
    assert_eq!(rt; told.len(), before);
    assert!(rt; text.is_empty(), "{before}: {text}");
    Ok(())
}

fn count_words(words: &str) -> usize {
    words.split(' ').filter(|word| !is_state(word)).count()
}

#[test]
fn calls_are_cut_off(rt: HostRuntime) -> Result<(), Fail> {
    for trace in TRACES {
        for before in 0..count_words(trace.words) {
            check_cut(&rt, trace, before)?;
        }
    }
    Ok(())
}

// The next row is then the first, and fails as that.
#[test]
fn a_stack_that_was_broken_off_has_no_rows(rt: HostRuntime) -> Result<(), Fail> {
    let alloc = rt.alloc();
    let mut host = planned(alloc, &[1, 1])?;
    host.fail_step(0, Effect::None);
    let mut noting = noting(alloc, &UPGRADE)?;
    let mut stack = Stack::new(alloc);
    let mut told = Vec::new(alloc);
    for wanted in [None, Some(0)] {
        let row = row_of(alloc, &UPGRADE.rows[0])?;
        let answer = stack.step(&mut host, &mut noting, row, &mut told);
        let found = match answer {
            Ok(Some(fall)) => Some(fall.row),
            _ => None,
        };
        assert_eq!(rt; found, wanted);
    }
    Ok(())
}
