//! The program: it reads the words of its command line, carries out what they ask for, and ends
//! with a status.
//!
//! # What is proved
//!
//! The program's hosts are generic in the account of the disk (`Directories`); `run` ends, for
//! every account, with the status of the answer to its words, or of want of memory, or with 2 where
//! not all of that could be written (`answered`: `IsAnswered`). Where the program has one of dpkg's
//! names its words are dpkg's: `run_named` ends with the status of the answer to what they are
//! translated to by the definition of dpkg_words (`IsNamedAnswer`). `code_of` says that the program
//! ends with that status; that `main` calls these is read. What a unit begins with (`begun_stage`), the
//! lines of `--status-fd` and `--log`, and which archives are passed over (`pick_of`) are their
//! definitions in specs/; that they are told of what is noted is read, and so is that the lines of
//! `idle_warnings` are written, and that the options of dpkg's files stand before its words.
#![tactic(auto)]

ghost use Rattle.std.specs.Prelude.{◌≡◌, ◌≤◌, ◌⊎◌, [], IfSome, map, string_bytes, true};
ghost use Rattle.std.specs.Process.{exit_status};
ghost use Rattle.dpkg_words.specs.Picking.{picks};
ghost use Rattle.dpkg_words.specs.Translated.{translated};
ghost use Rattle.dpkg_cli.specs.Runs.{IsAnswered, IsClearingAnswer, IsDpkgAnswer, IsGatheredAnswer, IsNamedAnswer, IsSelectedAnswer, IsSelectingAnswer, IsTextAnswer, are_dpkgs};

mod archives;
mod configured;
mod directories;
mod fixed_lines;
mod frontends;
mod gathering;
mod hidden;
mod locks;
mod log;
mod mask;
mod objects;
mod picking;
mod progress;
mod recorded;
mod records;
mod stages;
mod standard_streams;
mod terminal;
mod watched;

use command_line::{FAILED, run_words};
use command_words::{filters_of, rehearsal_of};
use configured::configured;
use directories::Directories;
use dpkg_words::{
    Clearing, Gathered, OwnWords, Printed, Selected, Translated, idle_warnings, selecting_words,
    speaks_dpkg, translate,
};
use fixed_lines::FixedLines;
use frontends::Frontends;
use gathering::{archives_below, copies_of};
use host_files::{Disk, Unknown};
use mask::{Masked, under_mask};
use objects::{Objects, kind_for};
use path_filters::Filters;
use picking::picked;
use progress::{Beside, Going, Line, going_through};
use recorded::cleared;
use standard_streams::fill_missing;
use std::alloc::Global;
use std::cell::Cell;
use std::io::{ErrorKind, Input, IsTerminal, Read, Write};
use std::process::ExitCode;
use std::rt::Env;
use std::{env, io};
use terminal::{columns_of, renews_lines};
use texts::{Text, Texts};

fn words_of<R: Env + AllocGlobal>(rt: &R) -> io::Result<Vec<String>> {
    Ok(env::args(rt)?.collect(rt.alloc())?)
}

// Why the words can't be had: they are not text, or memory was wanting.
fn complaint(error: &io::Error) -> &'static str {
    match error.kind() {
        ErrorKind::OutOfMemory => "broken memory\n",
        _ => "error: the words of the command line are not text\n",
    }
}

// The line of progress, where something goes on and the terminal can renew it.
fn line_of<'a>(
    rt: HostRuntime,
    going: Option<Going>,
    told: &'a Cell<usize>,
    frontend: &'a Frontends,
) -> Line<'a> {
    let is_shown = going.is_some() && renews_lines(&rt);
    Line {
        rt,
        going_on: going,
        going: if is_shown { going } else { None },
        columns: if is_shown { columns_of(&rt) } else { 0 },
        told,
        frontend,
    }
}

// Whether the words are dpkg's, by the name of the program.
fn are_dpkgs(words: &[String]) -> bool
    ensures { result ≡ are_dpkgs (map string_bytes words.now) }
{
    match words.first() {
        Some(name) => speaks_dpkg(name.as_str()),
        None => false,
    }
}

// Opens what the words name that is told beside the lines, and begins a log.
fn frontends_of(
    rt: &HostRuntime,
    going: Option<Going>,
    words: &[String],
) -> Result<Frontends, String> {
    let installs = match going {
        Some(going) => going.installs(),
        None => false,
    };
    let frontends = Frontends::open(rt, words, installs)?;
    if let Some(going) = going {
        frontends.log(going.startup());
    }
    Ok(frontends)
}

// Whether nothing is to be changed, where there is memory to read the words.
fn is_rehearsed(alloc: Global, words: &[String]) -> bool {
    matches!(rehearsal_of(alloc, words), Ok(Some(_)))
}

// What the words ask for, over real directories. Where a person looks on there is the line of progress beside it, and the line
// behind `damaged` that tells what was expected; a program that reads standard error gets the fixed lines alone.
fn run_telling<D: Disk>(
    rt: HostRuntime,
    going: Option<Going>,
    words: &[String],
    frontends: &Frontends,
    filters: Filters,
) -> u8
    ensures bound { result ≤ 2 }
    ensures answered { IsAnswered D.Disk.model (map string_bytes words.now) result }
{
    let stderr = rt.stderr();
    let person = stderr.is_terminal();
    let told = Cell::new(0);
    let line = line_of(rt, going, &told, frontends);
    let rehearses = going.is_none() && is_rehearsed(rt.alloc(), words);
    let mut hosts = Directories::<D>::new(rt, line, rehearses, filters);
    let mut out = Beside {
        line,
        writer: Objects {
            alloc: rt.alloc(),
            kind: kind_for(rt.alloc(), words),
            writer: io::writer(&rt),
        },
        tells: true,
    };
    let mut err = Beside {
        line,
        writer: FixedLines {
            person,
            writer: io::writer(&stderr),
        },
        tells: false,
    };
    let status = run_words(rt.alloc(), &mut hosts, words, &mut out, &mut err);
    line.clear();
    hosts.tell_failure();
    hosts.drop_archives();
    status
}

// The same with the filters for the paths of archives that the words have.
fn run_filtering<D: Disk>(
    rt: HostRuntime,
    going: Option<Going>,
    words: &[String],
    frontends: &Frontends,
) -> u8
    ensures bound { result ≤ 2 }
    ensures answered { IsAnswered D.Disk.model (map string_bytes words.now) result }
{
    match filters_of(rt.alloc(), words) {
        Ok(filters) => run_telling::<D>(rt, going, words, frontends, filters),
        Err(_) => refuse(rt, "broken memory\n"),
    }
}

// The same, unless a descriptor that the words name isn't open.
fn run<D: Disk>(rt: HostRuntime, going: Option<Going>, words: &[String]) -> u8
    ensures bound { result ≤ 2 }
    ensures answered { IsAnswered D.Disk.model (map string_bytes words.now) result }
{
    match frontends_of(&rt, going, words) {
        Ok(frontends) => run_filtering::<D>(rt, going, words, &frontends),
        Err(line) => refuse(rt, line.as_str()),
    }
}

// A status, as a program ends with it.
fn code_of(status: u8) -> ExitCode
    ensures { exit_status result ≡ status }
{
    ExitCode::from(status)
}

// The status of another program, which is one of this one's where it has one.
fn status_of(code: Option<i32>) -> u8 {
    match code {
        Some(code) => u8::try_from(code).unwrap_or(FAILED),
        None => FAILED,
    }
}

// Writes a text, for want of which the status is another.
fn give<W: Write + Drop>(mut out: W, text: &str, status: u8) -> u8
    ensures { (result ≡ status) ⊎ (result ≡ 2) }
{
    if out.write_all(text.as_bytes()).is_ok() && out.flush().is_ok() {
        return status;
    }
    FAILED
}

fn print(rt: HostRuntime, printed: &Printed) -> u8
    ensures { (result ≡ printed.now.status) ⊎ (result ≡ 2) }
{
    give(io::writer(&rt), printed.text.as_str(), printed.status)
}

fn refuse(rt: HostRuntime, line: &str) -> u8
    ensures { result ≡ 2 }
{
    let stderr = rt.stderr();
    give(io::writer(&stderr), line, FAILED)
}

fn run_selected<D: Disk>(rt: HostRuntime, going: Option<Going>, come: &Selected) -> u8
    ensures { IsSelectedAnswer D.Disk.model come.now result }
{
    match come {
        Selected::Ours(words) => run::<D>(rt, going, words.as_slice()),
        Selected::Nothing => 0,
        Selected::Refused(line) => refuse(rt, line.as_str()),
    }
}

// What a text selects, by the words that stand before it.
fn run_text<D: Disk>(rt: HostRuntime, going: Option<Going>, front: &OwnWords, text: &str) -> u8
    ensures { IsTextAnswer D.Disk.model front.now text.now result }
{
    match selecting_words(rt.alloc(), front, text) {
        Ok(come) => run_selected::<D>(rt, going, &come),
        Err(_) => refuse(rt, "broken memory\n"),
    }
}

// The same of what is read, to its end, before anything is done.
fn run_selecting<D: Disk, R: Read + Drop>(
    rt: HostRuntime,
    going: Option<Going>,
    front: &OwnWords,
    reader: R,
) -> u8
    ensures answered { IsSelectingAnswer D.Disk.model front.now result }
    ensures read { IfSome (R.remaining reader) (λ text.
        IsTextAnswer D.Disk.model front.now text result) }
{
    match io::read_to_string(rt.alloc(), reader) {
        Ok(text) => run_text::<D>(rt, going, front, text.as_str()),
        Err(_) => refuse(rt, "error: standard input can't be read\n"),
    }
}

// The files that are given, or the archives below them, or why there are none.
fn files_of(rt: &HostRuntime, gathered: &Gathered) -> Result<Texts, &'static str> {
    let given = gathered.files.as_slice();
    let found = if gathered.recursive {
        archives_below(rt, given)
    } else {
        copies_of(rt, given)
    };
    match found {
        Ok(found) if found.as_slice().is_empty() => {
            Err("error: no archive (*.deb) stands below the directories\n")
        }
        Ok(found) => Ok(found),
        Err(_) => Err("error: a directory behind --recursive can't be read\n"),
    }
}

// The words with these files behind them, of which there are some unless all were passed over.
fn run_files<D: Disk>(
    rt: HostRuntime,
    going: Option<Going>,
    gathered: &Gathered,
    files: &[Text],
) -> u8
    requires { files.now ≡ [] → picks gathered.now.picking ≡ true }
    ensures { IsGatheredAnswer D.Disk.model gathered.now result }
{
    if files.is_empty() {
        return 0;
    }
    match gathered.front.copy_with(files) {
        Ok(words) => run::<D>(rt, going, words.as_slice()),
        Err(_) => refuse(rt, "broken memory\n"),
    }
}

// Those of the files that aren't passed over.
fn run_picked<D: Disk>(
    rt: HostRuntime,
    going: Option<Going>,
    gathered: &Gathered,
    files: &[Text],
) -> u8
    ensures { IsGatheredAnswer D.Disk.model gathered.now result }
{
    if !gathered.picking.picks() {
        if files.is_empty() {
            return refuse(rt, "error: there are no files\n");
        }
        return run_files::<D>(rt, going, gathered, files);
    }
    match picked(&rt, gathered, files) {
        Ok(taken) => run_files::<D>(rt, going, gathered, taken.as_slice()),
        Err(_) => refuse(rt, "error: the records can't be read\n"),
    }
}

// The words with the files behind them that are found.
fn run_gathered<D: Disk>(rt: HostRuntime, going: Option<Going>, gathered: &Gathered) -> u8
    ensures { IsGatheredAnswer D.Disk.model gathered.now result }
{
    match files_of(&rt, gathered) {
        Ok(files) => run_picked::<D>(rt, going, gathered, files.as_slice()),
        Err(line) => refuse(rt, line),
    }
}

// The words by which all packages are to go that aren't essential.
fn run_clearing<D: Disk>(rt: HostRuntime, going: Option<Going>, clearing: &Clearing) -> u8
    ensures { IsClearingAnswer D.Disk.model clearing.now result }
{
    let Ok(names) = cleared(&rt, clearing.root.as_str()) else {
        return refuse(rt, "error: the records can't be read\n");
    };
    if names.as_slice().is_empty() {
        return 0;
    }
    match clearing.front.copy_with(names.as_slice()) {
        Ok(words) => run::<D>(rt, going, words.as_slice()),
        Err(_) => refuse(rt, "broken memory\n"),
    }
}

// What dpkg's words come to, over real directories.
fn run_translated<D: Disk>(rt: HostRuntime, going: Option<Going>, translated: &Translated) -> u8
    ensures { IsDpkgAnswer D.Disk.model translated.now result }
{
    match translated {
        Translated::Ours(words) => run::<D>(rt, going, words.as_slice()),
        Translated::Gathers(gathered) => run_gathered::<D>(rt, going, gathered),
        Translated::Prints(printed) => print(rt, printed),
        Translated::Selects(front) => run_selecting::<D, _>(rt, going, front, rt.reader()),
        Translated::Clears(clearing) => run_clearing::<D>(rt, going, clearing),
        Translated::Refused(line) => refuse(rt, line.as_str()),
    }
}

// Tells the things that dpkg's words force and that change nothing. Where that can't be done the
// words are carried out all the same.
fn warn(rt: &HostRuntime, words: &[String]) {
    if let Ok(lines) = idle_warnings(rt.alloc(), words) {
        let stderr = rt.stderr();
        let _ = io::writer(&stderr).write_all(lines.as_str().as_bytes());
    }
}

// What a person forces is told, and not what files do.
fn run_dpkg<D: Disk>(
    rt: HostRuntime,
    going: Option<Going>,
    given: &[String],
    words: &[String],
) -> u8
    ensures { IsDpkgAnswer D.Disk.model (translated (map string_bytes words.now)) result }
{
    warn(&rt, given);
    match translate(rt.alloc(), words) {
        Ok(translated) => run_translated::<D>(rt, going, &translated),
        Err(_) => refuse(rt, "broken memory\n"),
    }
}

// What the words come to by the program's name: dpkg's are translated.
fn run_named<D: Disk>(
    rt: HostRuntime,
    going: Option<Going>,
    given: &[String],
    words: &[String],
) -> u8
    ensures { IsNamedAnswer D.Disk.model (map string_bytes words.now) result }
{
    if are_dpkgs(words) {
        run_dpkg::<D>(rt, going, given, words)
    } else {
        run::<D>(rt, going, words)
    }
}

// What the words go through, and the mask that scripts are to have.
fn begin(rt: &HostRuntime, given: &[String], words: &[String]) -> (Option<Going>, Masked) {
    let going = going_through(rt.alloc(), words);
    let masked = match going {
        Some(_) => under_mask(rt, given, words),
        None => Masked::Here,
    };
    (going, masked)
}

// The same of words that lack their files.
fn begin_gathered(
    rt: &HostRuntime,
    given: &[String],
    gathered: &Gathered,
) -> (Option<Going>, Masked) {
    match gathered.front.copy_with(gathered.files.as_slice()) {
        Ok(own) => begin(rt, given, own.as_slice()),
        Err(_) => (None, Masked::Here),
    }
}

fn begin_named(rt: &HostRuntime, given: &[String], words: &[String]) -> (Option<Going>, Masked) {
    if !are_dpkgs(words) {
        return begin(rt, given, words);
    }
    match translate(rt.alloc(), words) {
        Ok(Translated::Ours(own)) => begin(rt, given, own.as_slice()),
        Ok(Translated::Gathers(gathered)) => begin_gathered(rt, given, &gathered),
        _ => (None, Masked::Here),
    }
}

// Carries out the words, with the mask that scripts are to have where they may be run.
fn carry_out_read(rt: HostRuntime, given: &[String], words: &[String]) -> u8 {
    match begin_named(&rt, given, words) {
        (_, Masked::There(code)) => status_of(code),
        (going, Masked::Here) => run_named::<Unknown>(rt, going, given, words),
    }
}

// Carries out what was given; before dpkg's words stand the options of its files.
fn carry_out(rt: HostRuntime, given: &[String]) -> u8 {
    if !are_dpkgs(given) {
        return carry_out_read(rt, given, given);
    }
    match configured(&rt, given) {
        Ok(words) => carry_out_read(rt, given, words.as_slice()),
        Err(_) => refuse(rt, "broken memory\n"),
    }
}

// What a program can say that has no open streams.
fn complain(rt: &HostRuntime, text: &str) -> ExitCode {
    let stderr = rt.stderr();
    let mut err = io::writer(&stderr);
    let _ = err.write_all(text.as_bytes());
    code_of(FAILED)
}

/// Words that are not text are a usage fault.
fn main(rt: HostRuntime) -> ExitCode {
    if !fill_missing(&rt) {
        return complain(
            &rt,
            "error: a standard stream is closed, and /dev/null can't be opened\n",
        );
    }
    match words_of(&rt) {
        Ok(words) => code_of(carry_out(rt, words.as_slice())),
        Err(error) => complain(&rt, complaint(&error)),
    }
}
