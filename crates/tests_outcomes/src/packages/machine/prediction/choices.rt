// A case is run for each choice of how its calls end, and compared with the prediction.
mod group_rows;
mod single_rows;

use super::{Prediction, predict};
use crate::packages::STARTS;
use crate::packages::machine::{Case, make_machine};
use std::alloc::{AllocError, Global};
use std::process::Abort;
use std::test::Fail;

// A command, and the line of words that gives it.
type Command = (&'static str, &'static str);

const UNPACK: Command = ("unpack", "dpkg_cli unpack t");

const INSTALL: Command = ("install", "dpkg_cli install --auto-deconfigure t");

const CONFIGURE: Command = ("configure", "dpkg_cli configure alpha");

const REMOVE: Command = ("remove", "dpkg_cli remove alpha");

const PURGE: Command = ("purge", "dpkg_cli purge alpha");

// More calls than a case makes.
const MANY: usize = 1_000;

// More choices than a case has.
const LIMIT: usize = 100_000;

// More text of differences than is read.
const ENOUGH: usize = 4_000;

// How many calls fail.
fn failed_of(failing: &[bool]) -> usize {
    let mut failed: usize = 0;
    for fails in failing {
        failed = failed.saturating_add(if *fails { 1 } else { 0 });
    }
    failed
}

// Goes on to the next choice: behind the calls that stay as they were one fails that succeeded.
fn advance(failing: &mut Vec<bool>, most: usize) -> Result<bool, AllocError> {
    let mut failed = failed_of(failing.as_slice());
    for _ in 0..failing.len() {
        match failing.pop() {
            Some(true) => failed = failed.saturating_sub(1),
            Some(false) if failed < most => {
                failing.push(true)?;
                return Ok(true);
            }
            _ => {}
        }
    }
    Ok(false)
}

// Runs the commands with the calls that are chosen failing; adds both texts where they differ. Gives how each call ended.
fn compare(
    alloc: Global,
    case: &Case,
    commands: &[Command],
    chosen: Vec<bool>,
    differences: &mut String,
) -> Result<Vec<bool>, AllocError> {
    let mut machine = make_machine(alloc, case, chosen.as_slice())?;
    let mut prediction = predict(alloc, case, chosen)?;
    let mut told = String::new(alloc);
    for (command, line) in commands {
        machine.answer(line, &mut told)?;
        prediction.run(command)?;
    }
    machine.view(&mut told)?;
    prediction.view()?;
    let Prediction {
        told: wanted,
        failing,
        ..
    } = prediction;
    if told.as_str() != wanted.as_str() && differences.len() < ENOUGH {
        differences.push_str(format!(in alloc; "\nTOLD\n{told}WANTED\n{wanted}")?.as_str())?;
    }
    Ok(failing)
}

// Runs the commands for each choice.
fn check(rt: &(impl Abort + AllocGlobal), case: &Case, commands: &[Command]) -> Result<(), Fail> {
    let alloc = rt.alloc();
    let mut differences = String::new(alloc);
    let mut failing = Vec::new(alloc);
    for _ in 0..LIMIT {
        failing = compare(alloc, case, commands, failing, &mut differences)?;
        if !advance(&mut failing, case.most)? {
            assert!(rt; differences.is_empty(), "{differences}");
            return Ok(());
        }
    }
    panic!(rt; "too many choices")
}

// Runs the commands with alpha in each state.
fn check_starts(
    rt: &(impl Abort + AllocGlobal),
    case: &Case,
    commands: &[Command],
) -> Result<(), Fail> {
    for alpha in STARTS {
        let mut case = *case;
        case.alpha = *alpha;
        check(rt, &case, commands)?;
    }
    Ok(())
}
