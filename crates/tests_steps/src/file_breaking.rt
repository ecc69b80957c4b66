// The files of a package are written, put back or taken away, which is broken off at each step in turn, and what is found then
// is judged.
use crate::breaking::{
    Break, EFFECTS, FILLS, LIMIT, Loss, Ran, denied_first, denied_last, ends_with_fault,
    how_it_ran, recovered,
};
use crate::file_acts::{Act, perform};
use crate::root::{Thing, judge_things, root_of, text_at};
use host_core::HostFault;
use host_memory::{Effect, MemoryHost};
use std::alloc::{AllocError, Global};
use std::process::Abort;
use std::test::Fail;
use undo_rows::StepFault;

// Two paths, as a target and its second name, and what may stand at them together.
pub(crate) type Found = (
    (&'static str, &'static str),
    &'static [(&'static str, &'static str)],
);

// What stands there, what is done with it, and what that leaves where it isn't broken off. Wherever it is broken off, what is
// found is one of these, and what is done then leaves this.
pub(crate) struct Row {
    pub(crate) there: &'static [Thing],
    pub(crate) act: Act,
    pub(crate) left: &'static [Thing],
    pub(crate) found: &'static [Found],
    pub(crate) again: Act,
    pub(crate) left_again: &'static [Thing],
}

pub(crate) const NEVER: Break = Break::Read(LIMIT);

// Adds a line where two paths have neither of what they may have together.
fn judge_pair(
    alloc: Global,
    host: &mut MemoryHost,
    found: &Found,
    text: &mut String,
) -> Result<(), AllocError> {
    let ((first, second), pairs) = found;
    let one = text_at(alloc, host, first)?;
    let other = text_at(alloc, host, second)?;
    if !pairs
        .iter()
        .any(|pair| pair.0 == one.as_str() && pair.1 == other.as_str())
    {
        text.push_str(format!(in alloc; "{first}: {one}, {second}: {other}\n")?.as_str())?;
    }
    Ok(())
}

pub(crate) fn judge_pairs(
    alloc: Global,
    host: &mut MemoryHost,
    found: &[Found],
    text: &mut String,
) -> Result<(), AllocError> {
    for pair in found {
        judge_pair(alloc, host, pair, text)?;
    }
    Ok(())
}

// Whether the step that was declined is the removal of a directory, which stays: all else is done.
fn is_directory_kept(alloc: Global, host: &mut MemoryHost) -> Result<bool, AllocError> {
    match denied_first(host)? {
        Some(path) => Ok(text_at(alloc, host, path.as_str())?.as_str() == "/"),
        None => Ok(false),
    }
}

// Adds a line where a fault or a denial isn't told, but that of a directory's removal, or one is that didn't come, or something
// was done after it.
fn judge_answer(
    alloc: Global,
    host: &mut MemoryHost,
    answer: &Result<Option<StepFault>, HostFault>,
    met: bool,
    text: &mut String,
) -> Result<(), AllocError> {
    let as_it_is = match answer {
        Ok(None) => !met || is_directory_kept(alloc, host)?,
        Ok(Some(_)) => false,
        Err(HostFault::Device) => met && ends_with_fault(host),
        Err(HostFault::Declined) => met && denied_last(host).is_some(),
        Err(HostFault::NoMemory) => false,
    };
    if !as_it_is {
        text.push_str("another answer\n")?;
    }
    Ok(())
}

// Does it again, as it is done where nothing breaks it off.
pub(crate) fn judge_again(
    alloc: Global,
    host: &mut MemoryHost,
    row: &Row,
    text: &mut String,
) -> Result<(), AllocError> {
    match perform(alloc, host, &row.again, NEVER) {
        Ok(None) => judge_things(alloc, host, row.left_again, text),
        _ => text.push_str("not done again\n"),
    }
}

fn judge(
    alloc: Global,
    host: &mut MemoryHost,
    row: &Row,
    met: bool,
    text: &mut String,
) -> Result<(), AllocError> {
    judge_pairs(alloc, host, row.found, text)?;
    if !met {
        judge_things(alloc, host, row.left, text)?;
    }
    judge_again(alloc, host, row, text)
}

fn run(
    alloc: Global,
    row: &Row,
    how: Break,
    loss: Option<Loss>,
    text: &mut String,
) -> Result<Ran, AllocError> {
    let mut host = root_of(alloc, row.there)?;
    let answer = perform(alloc, &mut host, &row.act, how);
    let ran = how_it_ran(&host);
    judge_answer(alloc, &mut host, &answer, ran.met, text)?;
    let mut host = recovered(host, loss)?;
    judge(alloc, &mut host, row, ran.met || loss.is_some(), text)?;
    Ok(ran)
}

fn check(
    rt: &(impl Abort + AllocGlobal),
    row: &Row,
    how: Break,
    loss: Option<Loss>,
) -> Result<Ran, Fail> {
    let alloc = rt.alloc();
    let mut text = String::new(alloc);
    let ran = run(alloc, row, how, loss, &mut text)?;
    assert!(rt; text.is_empty(), "{how:?} {loss:?}: {text}");
    Ok(ran)
}

// A stop and a fault behind so many steps, with each effect.
fn check_steps(rt: &(impl Abort + AllocGlobal), row: &Row, before: usize) -> Result<bool, Fail> {
    let mut met = false;
    for effect in EFFECTS {
        check(rt, row, Break::Stop(before, *effect), None)?;
        met = check(rt, row, Break::Fault(before, *effect), None)?.met;
    }
    Ok(met)
}

fn check_loss(
    rt: &(impl Abort + AllocGlobal),
    row: &Row,
    before: usize,
    keep: usize,
) -> Result<(), Fail> {
    for fill in FILLS {
        let loss = Some(Loss { keep, fill: *fill });
        check(rt, row, Break::Stop(before, Effect::Whole), loss)?;
    }
    Ok(())
}

// Each loss behind so many steps.
fn check_losses(rt: &(impl Abort + AllocGlobal), row: &Row, before: usize) -> Result<bool, Fail> {
    let ran = check(rt, row, Break::Stop(before, Effect::Whole), None)?;
    for keep in 0..=ran.names {
        check_loss(rt, row, before, keep)?;
    }
    Ok(ran.met)
}

// Stops and fails at each step, until none is met any more.
pub(crate) fn break_at_each_step(rt: &(impl Abort + AllocGlobal), row: &Row) -> Result<(), Fail> {
    for before in 0..LIMIT {
        if !check_steps(rt, row, before)? {
            return Ok(());
        }
    }
    panic!(rt; "it makes too many steps")
}

// Fails at each read.
pub(crate) fn fail_at_each_read(rt: &(impl Abort + AllocGlobal), row: &Row) -> Result<(), Fail> {
    for before in 0..LIMIT {
        if !check(rt, row, Break::Read(before), None)?.met {
            return Ok(());
        }
    }
    panic!(rt; "it looks too often")
}

// Each step is declined in turn, where that breaks it off.
pub(crate) fn decline_each_step(rt: &(impl Abort + AllocGlobal), row: &Row) -> Result<(), Fail> {
    for before in 0..LIMIT {
        if !check(rt, row, Break::Decline(before), None)?.met {
            return Ok(());
        }
    }
    panic!(rt; "it makes too many steps")
}

// Loses power at each step, and behind all.
pub(crate) fn lose_at_each_step(rt: &(impl Abort + AllocGlobal), row: &Row) -> Result<(), Fail> {
    for before in 0..LIMIT {
        if !check_losses(rt, row, before)? {
            return Ok(());
        }
    }
    panic!(rt; "it makes too many steps")
}
