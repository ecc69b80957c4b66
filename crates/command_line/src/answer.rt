// What the words ask for, carried out, and what is to be written for it.
ghost use Rattle.std.specs.Prelude.{◌≡◌, ◌≤◌, ◌⊎◌, ◌++◌, ℕ, List, Option, Some, IfErr, IfOk, Ok, OnErr, Result, is_ok, map, option_to_list, string_bytes, false, true, []};
ghost use Rattle.std.specs.List.{flat_map};
ghost use Rattle.diversions.specs.Entries.{is_owner};
ghost use Rattle.unit_reports.specs.declared.report.Report.{Report as AReport};
ghost use Rattle.report_lines.specs.Reports.{unit_lines};
ghost use Rattle.command_words.specs.Commands.{asked_of};
ghost use Rattle.command_words.specs.Topics.{named_in};
ghost use Rattle.command_line.specs.Changes.{HasEndedChange, IsDivertOf, IsUndivertOf, bad_of_divert, bad_of_undivert, is_good, owner_in};
ghost use Rattle.command_line.specs.Packages.{HasEndedWork, HasWorkedUnder, triggering_of, work_of};
ghost use Rattle.command_line.specs.Endings.{with_notes};
ghost use Rattle.command_line.specs.Limits.{KeepsLimit};
ghost use Rattle.command_line.specs.Printing.{HasPrinted, IsLeft, output_left, status_left, units_answer, units_of};
ghost use Rattle.command_line.specs.Queries.{IsInquired, IsQueryAnswer, bad_path_answer, inquiry_of, unanswered_answer};
ghost use Rattle.command_line.specs.Reports.{HasEndedAs, IsAnswerOf, IsHelpAnswer, IsReadChange, comparison_answer, done_answer, ended_answer, has_units, memory_answer, names_answer, opens_root, prints, report_answer, round_status, rounds_status, trees_answer, version_answer, work_answer};
ghost use Rattle.command_line.specs.Roots.{IsUnitsFault, around, locked_line, opening_answer};
ghost use Rattle.command_line.specs.Triggering.{units_behind};
ghost use Rattle.command_line.specs.Unpacks.{HasUnpacked, triggering_for};
ghost use Rattle.command_line.specs.Verifying.{IsVerifyAnswer};
ghost use Rattle.command_line.specs.declared.answer.Answer.{Answer as AnAnswer};
ghost use Rattle.command_line.specs.declared.ending.Ended.{Ended as AnEnded};
ghost use Rattle.command_line.specs.declared.fault.NotOpened.{NotOpened as ANotOpened};
ghost use Rattle.command_line.specs.declared.printing.Flow.TheVariants.{Whole};
ghost use Rattle.command_line.specs.declared.unpacking.Done.{Done as ADone};

use crate::changing::{Change, change_under, diverting_in, undiverting_in};
use crate::ending::Ended;
use crate::fault::{Lock, NotOpened};
use crate::hosts::Hosts;
use crate::packages::{Work, options_of, work_under};
use crate::printing::{Flow, Printer};
use crate::questions::{Inquiry, bad_path, inquire_under, inquiry_of};
use crate::steady::Unanswered;
use crate::triggering::{last_behind, triggered_status};
use crate::unpacking::{Done, unpack};
use crate::verifying::check_under;
use command_words::{
    Asked, Comparison, Configuring, Diverting, ProcessingTriggers, Query, Removing,
    RemovingSelected, ScriptStreams, Selecting, Topic, Undiverting, Unpacking, Verdict, Verifying,
    WordsFault, bad_version_line, command_of, help_text, subcommand_names, version_text,
};
use dpkg_session::{ConfigureOptions, Installed, Report, Unit};
use host_core::HostFault;
use report_lines::{notes_line, opening_line, report_status, report_text, unit_text};
use shown_lines::line;
use std::alloc::{AllocError, Global};
use std::io::Write;
use texts::{Bytes, Text};

/// The status of usage faults, bad texts, roots that can't be opened, want of memory and writes that fail.
pub const FAILED: u8 = 2;

/// What is to be written to standard output and to standard error, and the status.
#[derive(Drop)]
pub(crate) struct Answer {
    pub(crate) output: Bytes,
    pub(crate) error: Text,
    pub(crate) status: u8,
}

/// What is left of an answer of which a front may be written already.
#[derive(Drop)]
pub(crate) enum Left {
    Rest(Answer),
    /// A part of what it has for standard output is written, and the output takes no more.
    Cut,
}

/// Bytes for standard output alone.
pub(crate) fn told(alloc: Global, output: Bytes, status: u8) -> Answer
    ensures { result ≡ record { output = output; error = []; status = status } }
{
    Answer {
        output,
        error: Text::new(String::new(alloc)),
        status,
    }
}

/// A text for standard output alone.
pub(crate) fn printed(alloc: Global, output: String, status: u8) -> Answer
    ensures { result ≡ record { output = string_bytes output; error = []; status = status } }
{
    told(alloc, Bytes::new(output.into_bytes()), status)
}

/// A text for standard error alone.
pub(crate) fn complained(alloc: Global, error: String) -> Answer
    ensures { result ≡ record { output = []; error = string_bytes error; status = 2 } }
{
    Answer {
        output: Bytes::new(Vec::new(alloc)),
        error: Text::new(error),
        status: FAILED,
    }
}

/// Nothing.
pub(crate) fn quiet(alloc: Global, status: u8) -> Answer
    ensures { result ≡ record { output = []; error = []; status = status } }
{
    printed(alloc, String::new(alloc), status)
}

fn names(alloc: Global) -> Result<Answer, AllocError>
    ensures { IfOk result (λ answer. answer ≡ names_answer) }
{
    Ok(printed(alloc, subcommand_names(alloc)?, 0))
}

fn versioned(alloc: Global) -> Result<Answer, AllocError>
    ensures { IfOk result (λ answer. answer ≡ version_answer) }
{
    Ok(printed(alloc, version_text(alloc)?, 0))
}

fn helped(alloc: Global, topic: Topic) -> Result<Answer, AllocError>
    ensures { IfOk result (IsHelpAnswer topic) }
{
    Ok(printed(alloc, help_text(alloc, topic)?, 0))
}

fn compared(alloc: Global, comparison: &Comparison) -> Result<Answer, AllocError>
    ensures answer { IfOk result (λ answer. answer ≡ comparison_answer comparison.now) }
    ensures bound { IfOk result (λ answer. answer.status ≤ 2) }
{
    match comparison.verdict(alloc) {
        Verdict::Holds => Ok(quiet(alloc, 0)),
        Verdict::Fails => Ok(quiet(alloc, 1)),
        Verdict::Bad(text, fault) => {
            let line = bad_version_line(alloc, text, fault)?;
            Ok(complained(alloc, line))
        }
        Verdict::OutOfMemory => Err(AllocError),
    }
}

fn reported(alloc: Global, done: &Report) -> Result<Answer, AllocError>
    ensures answer { IfOk result (λ answer. answer ≡ report_answer done.now) }
    ensures bound { IfOk result (λ answer. answer.status ≤ 2) }
{
    let text = report_text(alloc, done)?;
    Ok(printed(alloc, text, report_status(done)))
}

fn round_status(came: &Installed) -> u8
    ensures value { result ≡ round_status came.now }
    ensures bound { result ≤ 2 }
{
    report_status(&came.unpacked).max(report_status(&came.configured))
}

// The worst status of rounds.
fn rounds_status(rounds: &[Installed]) -> u8
    ensures value { result ≡ rounds_status rounds.now }
    ensures bound { result ≤ 2 }
{
    match rounds.split_first() {
        Some((came, more)) => round_status(came).max(rounds_status(more)),
        None => 0,
    }
}

fn done_status(done: &Done) -> u8
    ensures value { result ≡ (done_answer done.now).status }
    ensures bound { result ≤ 2 }
{
    match done {
        Done::Unpacked(report) => report_status(report),
        Done::Installed(rounds) => rounds_status(rounds.as_slice()),
    }
}

// The lines of the unit that was broken off.
fn last_text(alloc: Global, last: &Option<Unit>) -> Result<String, AllocError>
    ensures { IfOk result (λ text. string_bytes text ≡ flat_map unit_lines
        (option_to_list last.now)) }
{
    match last {
        Some(unit) => unit_text(alloc, unit),
        None => Ok(String::new(alloc)),
    }
}

// The answer, with the notes that are left.
fn with_notes(alloc: Global, answer: Answer, notes: Option<HostFault>) -> Result<Answer, AllocError>
    ensures { IfOk result (λ told. told ≡ with_notes notes answer) }
{
    match notes {
        None => Ok(answer),
        Some(fault) => Ok(Answer {
            output: answer.output,
            error: Text::from_str(alloc, notes_line(fault))?,
            status: FAILED,
        }),
    }
}

// What is left of the answer on units whose lines were written as they were finished.
fn units_left(
    alloc: Global,
    flow: Flow,
    last: &Option<Unit>,
    status: u8,
    notes: Option<HostFault>,
) -> Result<Left, AllocError>
    ensures left { (lines : List ℕ) (old new : Option (List ℕ)) → HasPrinted lines flow old new
        → IsLeft (with_notes notes (units_answer lines last.now status)) old new result }
    ensures bound { status ≤ 2 → IfOk result (λ left. status_left left ≤ 2) }
{
    match flow {
        Flow::Whole => {
            let text = last_text(alloc, last)?;
            let answer = printed(alloc, text, status);
            Ok(Left::Rest(with_notes(alloc, answer, notes)?))
        }
        Flow::Cut => Ok(Left::Cut),
        Flow::Wanting => Err(AllocError),
    }
}

// An answer of which nothing is written.
fn whole(answer: Result<Answer, AllocError>) -> Result<Left, AllocError>
    ensures left { (wanted : AnAnswer) (held : Option (List ℕ)) → IfOk
        answer (λ told. told ≡ wanted) → IsLeft wanted held held result }
    ensures bound { IfOk answer (λ told. told.status ≤ 2) → IfOk
        result (λ left. status_left left ≤ 2) }
    ensures output { IfOk result (λ left. (told : AnAnswer) × (answer ≡ Ok told)
        × (output_left left ≡ told.output)) }
{
    match answer {
        Ok(answer) => Ok(Left::Rest(answer)),
        Err(fault) => Err(fault),
    }
}

// The line that tells that another program holds a lock.
fn locked_line(alloc: Global, lock: Lock) -> Result<String, AllocError>
    ensures { IfOk result (λ printed. string_bytes printed ≡ locked_line lock) }
{
    let path = lock.path();
    let content = format!(in alloc; "locked {path}")?;
    line(alloc, content.as_str())
}

/// Tells on standard error why a root isn't opened.
pub(crate) fn not_opened(alloc: Global, fault: &NotOpened) -> Result<Answer, AllocError>
    ensures { IfOk result (λ answer. answer ≡ opening_answer fault.now) }
{
    match fault {
        NotOpened::Locked(lock) => {
            let line = locked_line(alloc, *lock)?;
            Ok(complained(alloc, line))
        }
        NotOpened::Opening(fault) => {
            let line = opening_line(alloc, fault)?;
            Ok(complained(alloc, line))
        }
    }
}

// The units of trees are told as they are finished. Its caller learns here that the output is still the same.
fn unpack_telling<S: Hosts, O: Write>(
    alloc: Global,
    hosts: &mut S,
    unpacking: &Unpacking,
    options: Option<ConfigureOptions>,
    printer: &mut Printer<'_, O>,
) -> Result<Ended<Done>, NotOpened>
    ensures same_output { printer.new.out.ghost_name ≡ printer.old.out.ghost_name }
    ensures done { IfOk result (HasUnpacked (around S.Hosts hosts.old hosts.new) options
        unpacking.now) }
    ensures refused { IfErr result (IsUnitsFault (Some (triggering_for unpacking.now))
        (around S.Hosts hosts.old hosts.new) unpacking.now.root) }
    ensures told { printer.old.flow ≡ Whole → IfOk
        result (λ ended. HasPrinted (flat_map unit_lines (units_of ended.done ++ units_behind
        ended.triggered)) printer.new.flow
        (O.contents printer.old.out.now) (O.contents printer.new.out.now)) }
    ensures kept { IfOk result (λ ended. KeepsLimit printer.old.left (units_of ended.done
        ++ units_behind ended.triggered)) }
    ensures untold { OnErr result (printer.new ≡ printer.old) }
    ensures below { S.below hosts.new ≡ S.below hosts.old }
{
    unpack(alloc, hosts, unpacking, options, printer)
}

fn unpacked<S: Hosts, O: Write>(
    alloc: Global,
    hosts: &mut S,
    unpacking: &Unpacking,
    options: Option<ConfigureOptions>,
    out: &mut O,
) -> Result<Left, AllocError>
    ensures ended { (ended : Result (AnEnded ADone) ANotOpened)
        × HasEndedAs (around S.Hosts hosts.old hosts.new) options unpacking.now ended
        × IsLeft (trees_answer ended) (O.contents out.old) (O.contents out.new)
        result }
    ensures bound { IfOk result (λ left. status_left left ≤ 2) }
    ensures below { S.below hosts.new ≡ S.below hosts.old }
{
    let mut printer = Printer {
        alloc,
        out,
        flow: Flow::Whole,
        left: unpacking.limit,
    };
    let ended = unpack_telling(alloc, hosts, unpacking, options, &mut printer);
    let flow = printer.flow;
    match ended {
        Ok(came) => {
            let none = None;
            let last = last_behind(came.done.last(&none), &came.triggered);
            let status = done_status(&came.done).max(triggered_status(&came.triggered));
            units_left(alloc, flow, last, status, came.left)
        }
        Err(fault) => whole(not_opened(alloc, &fault)),
    }
}

fn changed<S: Hosts>(
    alloc: Global,
    hosts: &mut S,
    root: &Text,
    wait: u32,
    asked: &Change,
) -> Result<Answer, AllocError>
    ensures ended { (ended : Result AReport ANotOpened)
        × HasEndedChange (around S.Hosts hosts.old hosts.new) root.now asked.now ended
        × IfOk result (λ answer. answer ≡ ended_answer ended) }
    ensures bound { IfOk result (λ answer. answer.status ≤ 2) }
    ensures below { S.below hosts.new ≡ S.below hosts.old }
{
    match change_under(alloc, hosts, root, wait, asked) {
        Ok(done) => reported(alloc, &done),
        Err(fault) => not_opened(alloc, &fault),
    }
}

// The units of packages are told as they are finished. Its caller learns here that the output is still the same.
fn work_telling<S: Hosts, O: Write>(
    alloc: Global,
    hosts: &mut S,
    root: &Text,
    streams: ScriptStreams,
    wait: u32,
    asked: &Work,
    process: bool,
    printer: &mut Printer<'_, O>,
) -> Result<Ended<Report>, NotOpened>
    ensures same_output { printer.new.out.ghost_name ≡ printer.old.out.ghost_name }
    ensures done { IfOk result (HasWorkedUnder (around S.Hosts hosts.old hosts.new) root.now
        asked.now process) }
    ensures refused { IfErr result (IsUnitsFault (triggering_of asked.now process)
        (around S.Hosts hosts.old hosts.new) root.now) }
    ensures told { printer.old.flow ≡ Whole → IfOk
        result (λ ended. HasPrinted (flat_map unit_lines (ended.done.units.items ++ units_behind
        ended.triggered)) printer.new.flow
        (O.contents printer.old.out.now) (O.contents printer.new.out.now)) }
    ensures kept { IfOk result (λ ended. KeepsLimit printer.old.left (ended.done.units.items
        ++ units_behind ended.triggered)) }
    ensures untold { OnErr result (printer.new ≡ printer.old) }
    ensures below { S.below hosts.new ≡ S.below hosts.old }
{
    work_under(alloc, hosts, root, streams, wait, asked, process, printer)
}

fn worked<S: Hosts, O: Write>(
    alloc: Global,
    hosts: &mut S,
    root: &Text,
    streams: ScriptStreams,
    wait: u32,
    asked: &Work,
    process: bool,
    limit: Option<u32>,
    out: &mut O,
) -> Result<Left, AllocError>
    ensures ended { (ended : Result (AnEnded AReport) ANotOpened)
        × HasEndedWork (around S.Hosts hosts.old hosts.new) root.now asked.now process
        limit ended
        × IsLeft (work_answer ended) (O.contents out.old) (O.contents out.new) result }
    ensures bound { IfOk result (λ left. status_left left ≤ 2) }
    ensures below { S.below hosts.new ≡ S.below hosts.old }
{
    let mut printer = Printer {
        alloc,
        out,
        flow: Flow::Whole,
        left: limit,
    };
    let ended = work_telling(
        alloc,
        hosts,
        root,
        streams,
        wait,
        asked,
        process,
        &mut printer,
    );
    let flow = printer.flow;
    match ended {
        Ok(came) => {
            let last = last_behind(&came.done.last, &came.triggered);
            let status = report_status(&came.done).max(triggered_status(&came.triggered));
            units_left(alloc, flow, last, status, came.left)
        }
        Err(fault) => whole(not_opened(alloc, &fault)),
    }
}

fn configured<S: Hosts, O: Write>(
    alloc: Global,
    hosts: &mut S,
    asked: Configuring,
    out: &mut O,
) -> Result<Left, AllocError>
    ensures ended { (ended : Result (AnEnded AReport) ANotOpened)
        × HasEndedWork (around S.Hosts hosts.old hosts.new) asked.root (work_of asked)
        asked.triggers asked.limit ended
        × IsLeft (work_answer ended) (O.contents out.old) (O.contents out.new) result }
    ensures bound { IfOk result (λ left. status_left left ≤ 2) }
    ensures below { S.below hosts.new ≡ S.below hosts.old }
{
    let Configuring {
        root,
        names,
        streams,
        triggers,
        limit,
        forced,
        wait,
    } = asked;
    let work = Work::Configure(names, options_of(forced));
    worked(
        alloc, hosts, &root, streams, wait, &work, triggers, limit, out,
    )
}

fn removed<S: Hosts, O: Write>(
    alloc: Global,
    hosts: &mut S,
    asked: Removing,
    out: &mut O,
) -> Result<Left, AllocError>
    ensures ended { (ended : Result (AnEnded AReport) ANotOpened)
        × HasEndedWork (around S.Hosts hosts.old hosts.new) asked.root (Work.Remove asked.names asked.ignore_depends)
        asked.triggers asked.limit ended × IsLeft (work_answer ended) (O.contents out.old) (O.contents out.new)
        result }
    ensures bound { IfOk result (λ left. status_left left ≤ 2) }
    ensures below { S.below hosts.new ≡ S.below hosts.old }
{
    let Removing {
        root,
        names,
        streams,
        triggers,
        limit,
        ignore_depends,
        wait,
    } = asked;
    let work = Work::Remove(names, ignore_depends);
    worked(
        alloc, hosts, &root, streams, wait, &work, triggers, limit, out,
    )
}

fn purged<S: Hosts, O: Write>(
    alloc: Global,
    hosts: &mut S,
    asked: Removing,
    out: &mut O,
) -> Result<Left, AllocError>
    ensures ended { (ended : Result (AnEnded AReport) ANotOpened)
        × HasEndedWork (around S.Hosts hosts.old hosts.new) asked.root (Work.Purge asked.names asked.ignore_depends)
        asked.triggers asked.limit ended × IsLeft (work_answer ended) (O.contents out.old) (O.contents out.new)
        result }
    ensures bound { IfOk result (λ left. status_left left ≤ 2) }
    ensures below { S.below hosts.new ≡ S.below hosts.old }
{
    let Removing {
        root,
        names,
        streams,
        triggers,
        limit,
        ignore_depends,
        wait,
    } = asked;
    let work = Work::Purge(names, ignore_depends);
    worked(
        alloc, hosts, &root, streams, wait, &work, triggers, limit, out,
    )
}

fn selected<S: Hosts, O: Write>(
    alloc: Global,
    hosts: &mut S,
    asked: Selecting,
    out: &mut O,
) -> Result<Left, AllocError>
    ensures ended { (ended : Result (AnEnded AReport) ANotOpened)
        × HasEndedWork (around S.Hosts hosts.old hosts.new) asked.root
        (Work.Select asked.selections) false None ended
        × IsLeft (work_answer ended) (O.contents out.old) (O.contents out.new) result }
    ensures bound { IfOk result (λ left. status_left left ≤ 2) }
    ensures below { S.below hosts.new ≡ S.below hosts.old }
{
    let Selecting {
        root,
        selections,
        wait,
    } = asked;
    let work = Work::Select(selections);
    worked(
        alloc,
        hosts,
        &root,
        ScriptStreams::Own,
        wait,
        &work,
        false,
        None,
        out,
    )
}

fn removed_selected<S: Hosts, O: Write>(
    alloc: Global,
    hosts: &mut S,
    asked: &RemovingSelected,
    out: &mut O,
) -> Result<Left, AllocError>
    ensures ended { (ended : Result (AnEnded AReport) ANotOpened)
        × HasEndedWork (around S.Hosts hosts.old hosts.new) asked.now.root
        (Work.RemoveSelected asked.now.ignore_depends) asked.now.triggers asked.now.limit ended × IsLeft (work_answer ended) (O.contents out.old) (O.contents out.new)
        result }
    ensures bound { IfOk result (λ left. status_left left ≤ 2) }
    ensures below { S.below hosts.new ≡ S.below hosts.old }
{
    let work = Work::RemoveSelected(asked.ignore_depends);
    worked(
        alloc,
        hosts,
        &asked.root,
        asked.streams,
        asked.wait,
        &work,
        asked.triggers,
        asked.limit,
        out,
    )
}

fn processed<S: Hosts, O: Write>(
    alloc: Global,
    hosts: &mut S,
    asked: &ProcessingTriggers,
    out: &mut O,
) -> Result<Left, AllocError>
    ensures ended { (ended : Result (AnEnded AReport) ANotOpened)
        × HasEndedWork (around S.Hosts hosts.old hosts.new) asked.now.root Work.ProcessTriggers
        true asked.now.limit ended × IsLeft (work_answer ended) (O.contents out.old) (O.contents out.new)
        result }
    ensures bound { IfOk result (λ left. status_left left ≤ 2) }
    ensures below { S.below hosts.new ≡ S.below hosts.old }
{
    let work = Work::ProcessTriggers;
    worked(
        alloc,
        hosts,
        &asked.root,
        asked.streams,
        asked.wait,
        &work,
        true,
        asked.limit,
        out,
    )
}

fn diverted<S: Hosts>(alloc: Global, hosts: &mut S, asked: &Diverting) -> Result<Answer, AllocError>
    requires { is_owner (owner_in asked.now.owner) ≡ true }
    ensures answered { (answer : AnAnswer)
        × (IsReadChange (around S.Hosts hosts.old hosts.new) asked.now.root
        (bad_of_divert asked.now) (IsDivertOf asked.now) answer
        ⊎ ((answer ≡ memory_answer) × (hosts.new ≡ hosts.old)))
        × IfOk result (λ told. told ≡ answer) }
    ensures bound { IfOk result (λ answer. answer.status ≤ 2) }
    ensures quiet { IfOk result (λ answer. (answer.output ≡ [])
        ⊎ (is_good (bad_of_divert asked.now) ≡ true)) }
    ensures unopened { (hosts.new ≡ hosts.old) ⊎ (is_good (bad_of_divert asked.now) ≡ true) }
    ensures below { S.below hosts.new ≡ S.below hosts.old }
{
    match diverting_in(alloc, asked) {
        Ok(Ok(change)) => changed(alloc, hosts, &asked.root, asked.wait, &change),
        Ok(Err(bad)) => bad_path(alloc, &bad),
        Err(_) => Err(AllocError),
    }
}

fn undiverted<S: Hosts>(
    alloc: Global,
    hosts: &mut S,
    asked: &Undiverting,
) -> Result<Answer, AllocError>
    ensures answered { (answer : AnAnswer)
        × (IsReadChange (around S.Hosts hosts.old hosts.new) asked.now.root
        (bad_of_undivert asked.now) (IsUndivertOf asked.now) answer
        ⊎ ((answer ≡ memory_answer) × (hosts.new ≡ hosts.old)))
        × IfOk result (λ told. told ≡ answer) }
    ensures bound { IfOk result (λ answer. answer.status ≤ 2) }
    ensures quiet { IfOk result (λ answer. (answer.output ≡ [])
        ⊎ (is_good (bad_of_undivert asked.now) ≡ true)) }
    ensures unopened { (hosts.new ≡ hosts.old) ⊎ (is_good (bad_of_undivert asked.now) ≡ true) }
    ensures below { S.below hosts.new ≡ S.below hosts.old }
{
    match undiverting_in(alloc, asked) {
        Ok(Ok(change)) => changed(alloc, hosts, &asked.root, asked.wait, &change),
        Ok(Err(bad)) => bad_path(alloc, &bad),
        Err(_) => Err(AllocError),
    }
}

// A root that changes again and again is told as one whose lock another program holds.
fn unanswered(alloc: Global, why: Unanswered) -> Result<Answer, AllocError>
    ensures answer { IfOk result (λ answer. answer ≡ unanswered_answer why) }
    ensures bound { IfOk result (λ answer. answer.status ≤ 2) }
{
    match why {
        Unanswered::Unsteady => not_opened(alloc, &NotOpened::Locked(Lock::Administration)),
        Unanswered::Fault(fault) => not_opened(alloc, &NotOpened::Opening(fault)),
    }
}

fn inquired<S: Hosts>(
    alloc: Global,
    hosts: &mut S,
    root: &Text,
    asked: &Inquiry,
) -> Result<Answer, AllocError>
    ensures answered { (answer : AnAnswer)
        × IsInquired (around S.Hosts hosts.old hosts.new) root.now asked.now answer
        × IfOk result (λ told. told ≡ answer) }
    ensures bound { IfOk result (λ answer. answer.status ≤ 2) }
    ensures below { S.below hosts.new ≡ S.below hosts.old }
{
    match inquire_under(alloc, hosts, root, asked) {
        Ok(answer) => Ok(answer),
        Err(why) => unanswered(alloc, why),
    }
}

fn queried<S: Hosts>(alloc: Global, hosts: &mut S, query: Query) -> Result<Answer, AllocError>
    ensures answered { (answer : AnAnswer)
        × (IsQueryAnswer (around S.Hosts hosts.old hosts.new) query answer
        ⊎ ((answer ≡ memory_answer) × (hosts.new ≡ hosts.old)))
        × IfOk result (λ told. told ≡ answer) }
    ensures bound { IfOk result (λ answer. answer.status ≤ 2) }
    ensures quiet { IfOk result (λ answer. (answer.output ≡ [])
        ⊎ (is_ok (inquiry_of query.question) ≡ true)) }
    ensures unopened { (hosts.new ≡ hosts.old) ⊎ (is_ok (inquiry_of query.question) ≡ true) }
    ensures below { S.below hosts.new ≡ S.below hosts.old }
{
    let Query { root, question } = query;
    match inquiry_of(alloc, question) {
        Ok(Ok(asked)) => inquired(alloc, hosts, &root, &asked),
        Ok(Err(text)) => bad_path(alloc, &text),
        Err(_) => Err(AllocError),
    }
}

fn verified<S: Hosts>(alloc: Global, hosts: &mut S, asked: Verifying) -> Result<Answer, AllocError>
    ensures answered { (answer : AnAnswer)
        × IsVerifyAnswer (around S.Hosts hosts.old hosts.new) asked answer
        × IfOk result (λ told. told ≡ answer) }
    ensures bound { IfOk result (λ answer. answer.status ≤ 2) }
    ensures below { S.below hosts.new ≡ S.below hosts.old }
{
    let Verifying {
        root,
        names,
        tree,
        owners,
    } = asked;
    match check_under(alloc, hosts, &root, names, tree, owners) {
        Ok(answer) => Ok(answer),
        Err(why) => unanswered(alloc, why),
    }
}

/// What is left of the answer to the words, the first of which is the program's name. The lines of units are written as these
/// are finished.
pub(crate) fn answer_to<S: Hosts, O: Write>(
    alloc: Global,
    hosts: &mut S,
    words: &[String],
    out: &mut O,
) -> Result<Left, AllocError>
    ensures answered { (answer : AnAnswer)
        × (IsAnswerOf (around S.Hosts hosts.old hosts.new) (named_in (map string_bytes words.now))
        (asked_of (map string_bytes words.now)) answer
        ⊎ ((answer ≡ memory_answer) × (hosts.new ≡ hosts.old)))
        × IsLeft answer (O.contents out.old) (O.contents out.new) result }
    ensures bound { IfOk result (λ left. status_left left ≤ 2) }
    ensures quiet { IfOk result (λ left. (output_left left ≡ [])
        ⊎ (prints (asked_of (map string_bytes words.now)) ≡ true)) }
    ensures unprinted { (out.new ≡ out.old) ⊎ (has_units (asked_of (map string_bytes words.now))
        ≡ true) }
    ensures unopened { (hosts.new ≡ hosts.old) ⊎ (opens_root (asked_of (map string_bytes words.now))
        ≡ true) }
    ensures below { S.below hosts.new ≡ S.below hosts.old }
{
    match command_of(alloc, words) {
        Ok(Asked::Names) => whole(names(alloc)),
        Ok(Asked::Version) => whole(versioned(alloc)),
        Ok(Asked::Help(topic)) => whole(helped(alloc, topic)),
        Ok(Asked::CompareVersions(comparison)) => whole(compared(alloc, &comparison)),
        Ok(Asked::Divert(asked)) => whole(diverted(alloc, hosts, &asked)),
        Ok(Asked::Undivert(asked)) => whole(undiverted(alloc, hosts, &asked)),
        Ok(Asked::Query(query)) => whole(queried(alloc, hosts, query)),
        Ok(Asked::Verify(asked)) => whole(verified(alloc, hosts, asked)),
        Ok(Asked::Unpack(unpacking)) => unpacked(alloc, hosts, &unpacking, None, out),
        Ok(Asked::Install(unpacking)) => {
            let options = options_of(unpacking.forced);
            unpacked(alloc, hosts, &unpacking, Some(options), out)
        }
        Ok(Asked::Configure(asked)) => configured(alloc, hosts, asked, out),
        Ok(Asked::ProcessTriggers(asked)) => processed(alloc, hosts, &asked, out),
        Ok(Asked::Remove(asked)) => removed(alloc, hosts, asked, out),
        Ok(Asked::Purge(asked)) => purged(alloc, hosts, asked, out),
        Ok(Asked::Select(asked)) => selected(alloc, hosts, asked, out),
        Ok(Asked::RemoveSelected(asked)) => removed_selected(alloc, hosts, &asked, out),
        Err(WordsFault::Usage(text)) => Ok(Left::Rest(complained(alloc, text))),
        Err(WordsFault::NoMemory) => Err(AllocError),
    }
}
