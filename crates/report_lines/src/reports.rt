// The lines of a report, and its status.
ghost use Rattle.std.specs.Prelude.{◌≡◌, ◌≤◌, ◌++◌, IfOk, OnOk, string_bytes};
ghost use Rattle.std.specs.List.{flat_map};
ghost use Rattle.report_lines.specs.Calls.{arg_text, arg_word, call_line, call_text, outcome_text, side_word};
ghost use Rattle.report_lines.specs.Replies.{breakage_status, breakage_word, cause_text, cycle_text, reply_line, reply_status, tells_states};
ghost use Rattle.report_lines.specs.Reports.{report_lines, report_status, states_lines, unit_lines, units_status};
ghost use Rattle.report_lines.specs.States.{state_line, state_text};

use crate::faults::{of_package, rule_text, step_text};
use host_core::{Call, Outcome, Side};
use shown_lines::line;
use status_records::Record;
use std::alloc::{AllocError, Global};
use texts::Text;
use undo_rows::{Called, Failure as Cause, StepFault};
use unit_reports::{Breakage, Cycle, Failure, Refusal, Reply, Report, Touched, Unit};

fn side_word(side: Side) -> &'static str
    ensures { result.now ≡ side_word side }
{
    match side {
        Side::Old => "old",
        Side::New => "new",
    }
}

fn arg_word(arg: &str) -> &str
    ensures { result.now ≡ arg_word arg.now }
{
    match arg {
        "" => "\"\"",
        arg => arg,
    }
}

fn add_args(text: &mut String, args: &[Text]) -> Result<(), AllocError>
    ensures { OnOk result (string_bytes text.new ≡ string_bytes text.old ++ flat_map arg_text
        args.now) }
{
    for arg in args {
        text.push_str(" ")?;
        text.push_str(arg_word(arg.as_str()))?;
    }
    Ok(())
}

// A package, its script and the arguments.
fn call_text(alloc: Global, package: &Text, call: &Call) -> Result<String, AllocError>
    ensures { IfOk result (λ text. string_bytes text ≡ call_text «package».now call.now) }
{
    let package = package.as_str();
    let script = call.script.name();
    let mut text = format!(in alloc; "{package} {script}")?;
    add_args(&mut text, call.args.as_slice())?;
    Ok(text)
}

fn outcome_text(alloc: Global, outcome: Outcome) -> Result<String, AllocError>
    ensures { IfOk result (λ text. string_bytes text ≡ outcome_text outcome) }
{
    match outcome {
        Outcome::Exit(code) => format!(in alloc; "exit {code}"),
        Outcome::Killed => String::from_str(alloc, "killed"),
        Outcome::NotStarted => String::from_str(alloc, "not started"),
    }
}

fn call_line(alloc: Global, called: &Called) -> Result<String, AllocError>
    ensures { IfOk result (λ printed. string_bytes printed ≡ call_line called.now) }
{
    let side = side_word(called.call.side);
    let call = call_text(alloc, &called.call.package, &called.call)?;
    let outcome = outcome_text(alloc, called.outcome)?;
    let content = format!(in alloc; "call {side} {call}: {outcome}")?;
    line(alloc, content.as_str())
}

fn state_text(alloc: Global, entry: &Option<Record>) -> Result<String, AllocError>
    ensures { IfOk result (λ text. string_bytes text ≡ state_text entry.now) }
{
    match entry {
        Some(entry) => {
            let version = entry.version.text();
            let want = entry.want.name();
            let flag = entry.flag.name();
            let state = entry.word().name();
            format!(in alloc; "{version} {want} {flag} {state}")
        }
        None => String::from_str(alloc, "none"),
    }
}

fn state_line(alloc: Global, touched: &Touched) -> Result<String, AllocError>
    ensures { IfOk result (λ printed. string_bytes printed ≡ state_line touched.now) }
{
    let package = touched.package.as_str();
    let state = state_text(alloc, &touched.entry)?;
    let content = format!(in alloc; "state {package} {state}")?;
    line(alloc, content.as_str())
}

fn breakage_word(breakage: Breakage) -> &'static str
    ensures { result.now ≡ breakage_word breakage }
{
    match breakage {
        Breakage::Device => "device",
        Breakage::NoMemory => "memory",
        Breakage::Declined => "declined",
        Breakage::Damaged => "damaged",
        Breakage::Closed => "closed",
        Breakage::Abandoned => "abandoned",
    }
}

fn refused_line(alloc: Global, refusal: &Refusal) -> Result<String, AllocError>
    ensures { IfOk result (λ printed. string_bytes printed ≡ reply_line
        (Reply.Refused refusal.now)) }
{
    let package = refusal.package.as_str();
    let rule = rule_text(alloc, &refusal.rule)?;
    let content = format!(in alloc; "refused {package} {rule}")?;
    line(alloc, content.as_str())
}

fn files_text(alloc: Global, package: &Text, fault: &StepFault) -> Result<String, AllocError>
    ensures { IfOk result (λ text. string_bytes text ≡ cause_text «package».now
        (Cause.OfFiles fault.now)) }
{
    let package = package.as_str();
    let fault = step_text(alloc, fault)?;
    format!(in alloc; "{package} {fault}")
}

// For what a package's unit failed: a call of this package or another one, or a fault of its files.
fn cause_text(alloc: Global, package: &Text, cause: &Cause) -> Result<String, AllocError>
    ensures { IfOk result (λ text. string_bytes text ≡ cause_text «package».now cause.now) }
{
    match cause {
        Cause::OfCall(call) => call_text(alloc, &call.package, call),
        Cause::OfFiles(fault) => files_text(alloc, package, fault),
    }
}

fn failed_line(alloc: Global, failure: &Failure) -> Result<String, AllocError>
    ensures { IfOk result (λ printed. string_bytes printed ≡ reply_line
        (Reply.Failed failure.now)) }
{
    let cause = cause_text(alloc, &failure.package, &failure.cause)?;
    let content = format!(in alloc; "failed {cause}")?;
    line(alloc, content.as_str())
}

// The trigger for which a package's triggers were abandoned.
fn cycle_text(alloc: Global, cycle: &Cycle) -> Result<String, AllocError>
    ensures { IfOk result (λ text. string_bytes text ≡ cycle_text cycle.now) }
{
    let package = cycle.package.as_str();
    let trigger = of_package(alloc, "TriggerCycle", &cycle.trigger)?;
    format!(in alloc; "{package} {trigger}")
}

fn looped_line(alloc: Global, cycle: &Cycle) -> Result<String, AllocError>
    ensures { IfOk result (λ printed. string_bytes printed ≡ reply_line (Reply.Looped cycle.now)) }
{
    let cycle = cycle_text(alloc, cycle)?;
    let content = format!(in alloc; "failed {cycle}")?;
    line(alloc, content.as_str())
}

fn reply_line(alloc: Global, reply: &Reply) -> Result<String, AllocError>
    ensures { IfOk result (λ printed. string_bytes printed ≡ reply_line reply.now) }
{
    match reply {
        Reply::Done => String::from_str(alloc, "done\n"),
        Reply::Refused(refusal) => refused_line(alloc, refusal),
        Reply::Failed(failure) => failed_line(alloc, failure),
        Reply::Looped(cycle) => looped_line(alloc, cycle),
        Reply::Broken(breakage) => {
            let breakage = breakage_word(*breakage);
            format!(in alloc; "broken {breakage}\n")
        }
    }
}

// Whether the touched packages are told.
fn tells_states(reply: &Reply) -> bool
    ensures { result ≡ tells_states reply.now }
{
    match reply {
        Reply::Done => true,
        Reply::Refused(_) => false,
        Reply::Failed(_) => true,
        Reply::Looped(_) => true,
        Reply::Broken(_) => false,
    }
}

// dpkg's status where it gave up; 2 where a unit was broken off.
fn breakage_status(breakage: Breakage) -> u8
    ensures { result ≡ breakage_status breakage }
{
    match breakage {
        Breakage::Device => 2,
        Breakage::NoMemory => 2,
        Breakage::Declined => 2,
        Breakage::Damaged => 2,
        Breakage::Closed => 2,
        Breakage::Abandoned => 1,
    }
}

fn reply_status(reply: &Reply) -> u8
    ensures { result ≡ reply_status reply.now }
{
    match reply {
        Reply::Done => 0,
        Reply::Refused(_) => 1,
        Reply::Failed(_) => 1,
        Reply::Looped(_) => 1,
        Reply::Broken(breakage) => breakage_status(*breakage),
    }
}

fn add_calls(alloc: Global, lines: &mut String, calls: &[Called]) -> Result<(), AllocError>
    ensures { OnOk result (string_bytes lines.new ≡ string_bytes lines.old ++ flat_map call_line
        calls.now) }
{
    for called in calls {
        let line = call_line(alloc, called)?;
        lines.push_str(line.as_str())?;
    }
    Ok(())
}

fn add_touched(alloc: Global, lines: &mut String, packages: &[Touched]) -> Result<(), AllocError>
    ensures { OnOk result (string_bytes lines.new ≡ string_bytes lines.old ++ flat_map state_line
        packages.now) }
{
    for touched in packages {
        let line = state_line(alloc, touched)?;
        lines.push_str(line.as_str())?;
    }
    Ok(())
}

fn add_states(alloc: Global, lines: &mut String, unit: &Unit) -> Result<(), AllocError>
    ensures { OnOk result (string_bytes lines.new ≡ string_bytes lines.old ++ states_lines
        unit.now) }
{
    if !tells_states(&unit.reply) {
        return Ok(());
    }
    add_touched(alloc, lines, unit.touched.as_slice())
}

fn add_unit(alloc: Global, lines: &mut String, unit: &Unit) -> Result<(), AllocError>
    ensures { OnOk result (string_bytes lines.new ≡ string_bytes lines.old ++ unit_lines unit.now) }
{
    add_calls(alloc, lines, unit.calls.as_slice())?;
    add_states(alloc, lines, unit)?;
    let reply = reply_line(alloc, &unit.reply)?;
    lines.push_str(reply.as_str())
}

fn add_units(alloc: Global, lines: &mut String, units: &[Unit]) -> Result<(), AllocError>
    ensures { OnOk result (string_bytes lines.new ≡ string_bytes lines.old ++ flat_map unit_lines
        units.now) }
{
    for unit in units {
        add_unit(alloc, lines, unit)?;
    }
    Ok(())
}

/// The lines of a unit.
pub fn unit_text(alloc: Global, unit: &Unit) -> Result<String, AllocError>
    ensures { IfOk result (λ text. string_bytes text ≡ unit_lines unit.now) }
{
    let mut lines = String::new(alloc);
    add_unit(alloc, &mut lines, unit)?;
    Ok(lines)
}

/// The lines of all units, the one that was broken off last.
pub fn report_text(alloc: Global, report: &Report) -> Result<String, AllocError>
    ensures { IfOk result (λ text. string_bytes text ≡ report_lines report.now) }
{
    let mut lines = String::new(alloc);
    add_units(alloc, &mut lines, report.units.as_slice())?;
    if let Some(unit) = &report.last {
        add_unit(alloc, &mut lines, unit)?;
    }
    Ok(lines)
}

fn units_status(units: &[Unit]) -> u8
    ensures value { result ≡ units_status units.now }
    ensures bound { result ≤ 2 }
{
    let mut status = 0;
    for unit in units {
        status = reply_status(&unit.reply).max(status);
    }
    status
}

/// The status of the program that ends with this report.
pub fn report_status(report: &Report) -> u8
    ensures value { result ≡ report_status report.now }
    ensures bound { result ≤ 2 }
{
    let status = units_status(report.units.as_slice());
    match &report.last {
        Some(unit) => reply_status(&unit.reply).max(status),
        None => status,
    }
}
