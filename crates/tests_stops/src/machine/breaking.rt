// A command is broken off at each of its steps in turn, and what is found when the root is opened again is judged.
use super::{Machine, RootFile, TreeFile, make_machine};
use host_core::{Host, Node, RootPath};
use host_memory::{DeviceStep, Done, Effect, Ending, MemoryHost};
use std::alloc::AllocError;
use std::process::Abort;
use std::test::Fail;

mod configure_rows;
mod conflict_rows;
mod deconfigured_rows;
mod disappearing_rows;
mod diversion_rows;
mod dpkg_rows;
mod file_rows;
mod first_rows;
mod merged_rows;
mod opening_rows;
mod removal_rows;
mod script_rows;

// A file, and the texts of which it may have one; an empty text where none may stand.
type Found = (&'static str, &'static [&'static str]);

// What stands at some paths together, and what the command of the row, given then, answers.
struct Moment {
    stands: &'static [RootFile],
    again: &'static str,
}

// How a command is given again, with calls that end with status 0: where it is refused so, these lines are given and then the
// command once more. What is left behind it, where that isn't what the row leaves.
struct Again {
    refused: &'static str,
    lines: &'static [&'static str],
    left: Option<&'static [Found]>,
}

// A command over a root that holds these files, how its calls end, and what it leaves where it isn't broken off. Wherever it
// is broken off, each file of `found` is one of its texts, and one of the moments is there, if the row has any.
struct Row {
    files: &'static [RootFile],
    trees: &'static [TreeFile],
    endings: &'static [Ending],
    line: &'static str,
    found: &'static [Found],
    moments: &'static [Moment],
    left: &'static [Found],
    again: Again,
}

// How the device fails: behind so many steps, for good or once, or behind so many reads. Or the step behind so many is declined. Or
// two second names are, for each of which a copy stands in that takes three steps, and the device fails for good behind so many.
#[derive(Clone, Copy, Debug)]
enum Break {
    Stop(usize, Effect),
    Fault(usize, Effect),
    Read(usize),
    Decline(usize),
    Copy(usize, Effect),
}

// What a loss of power leaves: so many of the steps on names since the last barrier, and this byte in unsynced files.
#[derive(Clone, Copy, Debug)]
struct Loss {
    keep: usize,
    fill: u8,
}

// How a run went: whether the fault or the denial came, whether the command ended all the same, whether the last step wrote a
// file, how many steps on names a loss might undo, and whether a unit failed for one of its files.
#[derive(Clone, Copy)]
struct Ran {
    met: bool,
    ended: bool,
    wrote: bool,
    names: usize,
    failed: bool,
}

// What a step that writes a file may leave beside nothing and all.
const FRONTS: &[Effect] = &[Effect::Prefix(1), Effect::Prefix(20)];

// More steps than any command of the rows makes.
const LIMIT: usize = 1000;

// No tree is named so: the root is opened, and nothing else is done.
const OPENING: &str = "dpkg_cli unpack absent";

const OPENED: &str = "refused absent NoControl\n||1\n";

// So ends the answer of a command that was broken off.
const BROKEN_OFF: &str = "|2\n";

const STATUS: &str = "/var/lib/dpkg/status";

const SCRIPT: &str = "#!/bin/sh\n";

// The command alone is given again, and leaves what the row leaves.
const ALONE: Again = Again {
    refused: "",
    lines: &[],
    left: None,
};

fn has_written_last(host: &MemoryHost) -> bool {
    let mut written = false;
    for done in host.events() {
        if let Done::Did(step) = done {
            written = matches!(step, DeviceStep::Write(..));
        }
    }
    written
}

fn plan(host: &mut MemoryHost, how: Break) -> Result<(), AllocError> {
    match how {
        Break::Stop(before, effect) => host.stop_step(before, effect),
        Break::Fault(before, effect) => host.fail_step(before, effect),
        Break::Read(before) => host.fail_read(before),
        Break::Decline(before) => host.decline_step(before)?,
        Break::Copy(before, effect) => {
            host.decline_step(0)?;
            host.decline_step(3)?;
            host.stop_step(before, effect);
        }
    }
    Ok(())
}

// Where a step was declined.
fn denied_at(host: &MemoryHost) -> Option<&RootPath> {
    for done in host.events() {
        if let Done::Denied(path) = done {
            return Some(path);
        }
    }
    None
}

// The path of which an answer tells that a step was declined, where it tells that a unit failed.
fn told_declined(answer: &str) -> Option<&str> {
    let rest = answer.split(" Declined ").nth(1)?;
    rest.split('\n').next()
}

// Whether a name is that of a path, or one beside it. A step for all files of a package has no name; told is then the first path
// that it ships, a directory of the root.
fn is_beside(name: &str, path: &str) -> bool {
    if name.is_empty() {
        return match path.strip_prefix("/") {
            Some(rest) => !rest.contains("/"),
            None => false,
        };
    }
    match name.strip_prefix(path) {
        Some(rest) => rest.is_empty() || rest.starts_with("."),
        None => false,
    }
}

// The same of a path below the link of the rows over a merged root, whose place is behind it.
fn is_behind(name: &str, path: &str) -> bool {
    match (name.strip_prefix("/srv/own"), path.strip_prefix("/opt/own")) {
        (Some(name), Some(path)) => is_beside(name, path) && !name.is_empty(),
        _ => false,
    }
}

// What tells behind the units that a step was declined while their notes were merged.
const LEFT_NOTES: &str = "|notes left: /var/lib/dpkg/updates: declined\n|2\n";

// Whether something stands in where this second name is declined: a backup's, that of a node that a diversion moves, or that of a
// control file whose name has an architecture.
fn is_second_name(answer: &str, name: &str) -> bool {
    name.ends_with(".dpkg-tmp")
        || (answer == "done\n||0\n" && ["/usr/bin/v", "/usr/bin/v.real"].contains(&name))
        || (is_opened(answer) && is_short_name(name))
}

// Whether a row that begins with such control files answers so where it isn't broken off.
fn is_opened(answer: &str) -> bool {
    answer == OPENED || dpkg_rows::ANSWERS.contains(&answer)
}

fn is_short_name(name: &str) -> bool {
    name == "/var/lib/dpkg/info/alpha.list" || name == "/var/lib/dpkg/info/alpha.postrm"
}

// Whether an answer tells that a step at this name was declined: the unit failed for the path, or it or the merging of notes
// behind it was broken off. For a second name that is declined a copy stands in, or the node of a diversion is moved in one step,
// and nothing is told.
fn tells_denial(answer: &str, name: &str) -> bool {
    if answer.ends_with(LEFT_NOTES) {
        return name.is_empty() || name.starts_with("/var/lib/dpkg/");
    }
    match told_declined(answer) {
        Some(path) => {
            (is_beside(name, path) || is_behind(name, path)) && answer.ends_with("|1\n")
        }
        None if answer.contains("broken declined\n") => answer.ends_with(BROKEN_OFF),
        None => is_second_name(answer, name) && !answer.ends_with(BROKEN_OFF),
    }
}

fn copy_of_denied(host: &MemoryHost) -> Result<Option<RootPath>, AllocError> {
    match denied_at(host) {
        Some(path) => Ok(Some(path.copy()?)),
        None => Ok(None),
    }
}

// Whether the removal of a directory was declined: it stands, the command went on, and its answer
// tells nothing of it.
fn leaves(host: &mut MemoryHost, path: &RootPath, answer: &str) -> bool {
    if answer.contains("eclined") || answer.ends_with(BROKEN_OFF) {
        return false;
    }
    matches!(host.node(path), Ok(Some(Node::Dir { .. })))
}

fn recovered(host: MemoryHost, loss: Option<Loss>) -> Result<MemoryHost, AllocError> {
    let Some(loss) = loss else {
        return Ok(host.restart());
    };
    match host.lose(loss.keep, loss.fill) {
        Ok(host) => Ok(host),
        Err(_) => Err(AllocError),
    }
}

impl Machine {
    fn plan(&mut self, how: Break) -> Result<(), AllocError> {
        match &mut self.root {
            Some(host) => plan(host, how),
            None => Ok(()),
        }
    }

    // Adds an answer that doesn't tell of a step that was declined, or tells of one where none was.
    fn judge_denial(&mut self, answer: &str, text: &mut String) -> Result<(), AllocError> {
        let Some(host) = &mut self.root else {
            return Ok(());
        };
        let as_it_is = match copy_of_denied(host)? {
            Some(path) => tells_denial(answer, path.as_str()) || leaves(host, &path, answer),
            None => !answer.contains("eclined"),
        };
        if !as_it_is {
            text.push_str(answer)?;
        }
        Ok(())
    }

    fn ran(&self, answer: &str) -> Ran {
        let failed = told_declined(answer).is_some();
        let ended = !failed && !answer.ends_with(BROKEN_OFF);
        match &self.root {
            Some(host) => Ran {
                met: !host.awaits_fault() && !host.awaits_denial(),
                ended,
                wrote: has_written_last(host),
                names: host.names_since_barrier(),
                failed,
            },
            None => Ran {
                met: false,
                ended,
                wrote: false,
                names: 0,
                failed,
            },
        }
    }

    fn recover(&mut self, loss: Option<Loss>) -> Result<(), AllocError> {
        if let Some(host) = self.root.take() {
            self.root = Some(recovered(host, loss)?);
        }
        Ok(())
    }

    // Adds a line where opening the root isn't answered as for one that isn't damaged.
    fn judge_opening(&mut self, text: &mut String) -> Result<(), AllocError> {
        let answer = self.answer(OPENING)?;
        if answer.as_str() != OPENED {
            text.push_str(answer.as_str())?;
        }
        Ok(())
    }

    // Adds a line where a file has none of the texts that it may have.
    fn judge_file(&mut self, found: &Found, text: &mut String) -> Result<(), AllocError> {
        let (path, texts) = found;
        let file = self.text_at(path)?;
        if !texts.contains(&file.as_str()) {
            text.push_str(path)?;
            text.push_str(": ")?;
            text.push_str(file.as_str())?;
            text.push('\n')?;
        }
        Ok(())
    }

    fn judge_files(&mut self, found: &[Found], text: &mut String) -> Result<(), AllocError> {
        for file in found {
            self.judge_file(file, text)?;
        }
        Ok(())
    }

    // Whether all this stands.
    fn has(&mut self, files: &[RootFile]) -> Result<bool, AllocError> {
        for (path, text) in files {
            if self.text_at(path)?.as_str() != *text {
                return Ok(false);
            }
        }
        Ok(true)
    }

    // What the command is to answer now, if this is one of the moments.
    fn again(&mut self, moments: &'static [Moment]) -> Result<Option<&'static str>, AllocError> {
        for moment in moments {
            if self.has(moment.stands)? {
                return Ok(Some(moment.again));
            }
        }
        Ok(None)
    }

    // What the row's command answers when it is given again.
    fn answer_again(&mut self, row: &Row) -> Result<String, AllocError> {
        let mut answer = self.answer(row.line)?;
        if answer.as_str() == row.again.refused {
            for line in row.again.lines {
                answer.push_str(self.answer(line)?.as_str())?;
            }
            answer.push_str(self.answer(row.line)?.as_str())?;
        }
        Ok(answer)
    }

    // Gives the command again: it is to answer so, and to leave all that it should.
    fn finish(&mut self, row: &Row, again: &str, text: &mut String) -> Result<(), AllocError> {
        if !row.endings.is_empty() {
            self.forget_plans()?;
        }
        let answer = self.answer_again(row)?;
        if answer.as_str() != again {
            text.push_str("again: ")?;
            text.push_str(answer.as_str())?;
        }
        self.judge_opening(text)?;
        self.judge_files(row.again.left.unwrap_or(row.left), text)
    }

    // Adds a line that no moment is there, and what stands in place of one.
    fn tell_moment(&mut self, found: &[Found], text: &mut String) -> Result<(), AllocError> {
        text.push_str("none of the moments:\n")?;
        for (path, _) in found {
            text.push_str(path)?;
            text.push_str(": ")?;
            text.push_str(self.text_at(path)?.as_str())?;
            text.push('\n')?;
        }
        Ok(())
    }

    // Looks which moment is there, and gives the command again if it is to be.
    fn judge_moment(
        &mut self,
        row: &Row,
        finishes: bool,
        text: &mut String,
    ) -> Result<(), AllocError> {
        if row.moments.is_empty() {
            return Ok(());
        }
        match self.again(row.moments)? {
            Some(again) if finishes => self.finish(row, again, text),
            Some(_) => Ok(()),
            None => self.tell_moment(row.found, text),
        }
    }

    // Opens the root again, and adds what is found that may not be. A command that wasn't broken off stands whole; one whose
    // script was cut off stands where it ended, unless power was lost behind it. The command is given again behind a stop or a
    // fault, and behind a loss that keeps all names: the others leave what a stop does.
    fn judge(
        &mut self,
        row: &Row,
        ran: Ran,
        loss: Option<Loss>,
        text: &mut String,
    ) -> Result<(), AllocError> {
        self.judge_opening(text)?;
        self.judge_files(row.found, text)?;
        if ran.ended || !(ran.met || loss.is_some()) {
            self.judge_files(row.left, text)?;
        }
        let finishes = match loss {
            Some(loss) => loss.keep >= ran.names,
            None => true,
        };
        self.judge_moment(row, finishes, text)
    }

    // Adds the notes that stand behind a command which ended, also where power was lost then: there are none.
    fn judge_notes(&mut self, text: &mut String) -> Result<(), AllocError> {
        let shown = self.text_at("/var/lib/dpkg/updates")?;
        if !["", "directory:"].contains(&shown.as_str()) {
            text.push_str("notes: ")?;
            text.push_str(shown.as_str())?;
            text.push('\n')?;
        }
        Ok(())
    }

    // Runs a command, which is broken off so, and recovers the root.
    fn run(
        &mut self,
        line: &str,
        how: Break,
        loss: Option<Loss>,
        text: &mut String,
    ) -> Result<Ran, AllocError> {
        self.plan(how)?;
        let answer = self.answer(line)?;
        let ran = self.ran(answer.as_str());
        if !matches!(how, Break::Copy(..)) {
            self.judge_denial(answer.as_str(), text)?;
        }
        self.recover(loss)?;
        if ran.ended {
            self.judge_notes(text)?;
        }
        Ok(ran)
    }

    fn try_row(
        &mut self,
        row: &Row,
        how: Break,
        loss: Option<Loss>,
        text: &mut String,
    ) -> Result<Ran, AllocError> {
        let ran = self.run(row.line, how, loss, text)?;
        self.judge(row, ran, loss, text)?;
        Ok(ran)
    }
}

fn check(
    rt: &(impl Abort + AllocGlobal),
    row: &Row,
    how: Break,
    loss: Option<Loss>,
) -> Result<Ran, Fail> {
    let alloc = rt.alloc();
    let mut text = String::new(alloc);
    let ran = make_machine(alloc, row.files, row.trees, row.endings)?.try_row(
        row, how, loss, &mut text,
    )?;
    assert!(rt; text.is_empty(), "{how:?} {loss:?}: {text}");
    Ok(ran)
}

fn check_stop(
    rt: &(impl Abort + AllocGlobal),
    row: &Row,
    before: usize,
    effect: Effect,
) -> Result<Ran, Fail> {
    check(rt, row, Break::Stop(before, effect), None)
}

// A stop behind so many steps, with each effect.
fn check_stops(rt: &(impl Abort + AllocGlobal), row: &Row, before: usize) -> Result<bool, Fail> {
    check_stop(rt, row, before, Effect::None)?;
    let ran = check_stop(rt, row, before, Effect::Whole)?;
    if ran.wrote {
        for effect in FRONTS {
            check_stop(rt, row, before, *effect)?;
        }
    }
    Ok(ran.met)
}

// A loss behind such a stop that keeps so many names.
fn check_loss(
    rt: &(impl Abort + AllocGlobal),
    row: &Row,
    how: Break,
    keep: usize,
) -> Result<Ran, Fail> {
    check(rt, row, how, Some(Loss { keep, fill: 0 }))?;
    check(rt, row, how, Some(Loss { keep, fill: 255 }))
}

// Each loss behind such a stop.
fn check_losses(rt: &(impl Abort + AllocGlobal), row: &Row, how: Break) -> Result<bool, Fail> {
    let ran = check_loss(rt, row, how, 0)?;
    for keep in 0..ran.names {
        check_loss(rt, row, how, keep.saturating_add(1))?;
    }
    Ok(ran.met)
}

fn check_fault(
    rt: &(impl Abort + AllocGlobal),
    row: &Row,
    before: usize,
    effect: Effect,
) -> Result<Ran, Fail> {
    check(rt, row, Break::Fault(before, effect), None)
}

// The same for faults.
fn check_faults(rt: &(impl Abort + AllocGlobal), row: &Row, before: usize) -> Result<bool, Fail> {
    check_fault(rt, row, before, Effect::None)?;
    let ran = check_fault(rt, row, before, Effect::Whole)?;
    if ran.wrote {
        for effect in FRONTS {
            check_fault(rt, row, before, *effect)?;
        }
    }
    Ok(ran.met)
}

fn check_read(rt: &(impl Abort + AllocGlobal), row: &Row, before: usize) -> Result<bool, Fail> {
    Ok(check(rt, row, Break::Read(before), None)?.met)
}

// Stops and losses behind so many steps of a command of which two second names are declined.
fn check_copies(rt: &(impl Abort + AllocGlobal), row: &Row, before: usize) -> Result<(), Fail> {
    check(rt, row, Break::Copy(before, Effect::None), None)?;
    let ran = check(rt, row, Break::Copy(before, Effect::Whole), None)?;
    if ran.wrote {
        for effect in FRONTS {
            check(rt, row, Break::Copy(before, *effect), None)?;
        }
    }
    check_losses(rt, row, Break::Copy(before, Effect::Whole))?;
    Ok(())
}

// Each step of the row's command is declined in turn, until one is met no more: how often a unit failed for one of its files.
fn decline_each_step(rt: &(impl Abort + AllocGlobal), row: &Row) -> Result<usize, Fail> {
    let mut failed: usize = 0;
    for before in 0..LIMIT {
        let ran = check(rt, row, Break::Decline(before), None)?;
        if !ran.met {
            return Ok(failed);
        }
        if ran.failed {
            failed = failed.saturating_add(1);
        }
    }
    panic!(rt; "the command makes too many steps")
}

// Power is lost at the first of so many steps of the row's command, of the next so many, and so on, and behind it.
fn lose_at_steps(
    rt: &(impl Abort + AllocGlobal),
    row: &Row,
    first: usize,
    many: usize,
) -> Result<(), Fail> {
    for turn in 0..LIMIT {
        let before = turn.saturating_mul(many).saturating_add(first);
        if !check_losses(rt, row, Break::Stop(before, Effect::Whole))? {
            return Ok(());
        }
    }
    panic!(rt; "the command makes too many steps")
}

// Power is lost at each step of the row's command, and behind it.
fn lose_at_each_step(rt: &(impl Abort + AllocGlobal), row: &Row) -> Result<(), Fail> {
    lose_at_steps(rt, row, 0, 1)
}

// Stops at each step of the row's command, until one is met no more.
fn stop_at_each_step(rt: &(impl Abort + AllocGlobal), row: &Row) -> Result<(), Fail> {
    for before in 0..LIMIT {
        if !check_stops(rt, row, before)? {
            return Ok(());
        }
    }
    panic!(rt; "the command makes too many steps")
}

// Faults at each step of the row's command, and at each read.
fn fail_at_each_step(rt: &(impl Abort + AllocGlobal), row: &Row) -> Result<(), Fail> {
    for before in 0..LIMIT {
        if !check_faults(rt, row, before)? {
            return Ok(());
        }
    }
    panic!(rt; "the command makes too many steps")
}

fn fail_at_each_read(rt: &(impl Abort + AllocGlobal), row: &Row) -> Result<(), Fail> {
    for before in 0..LIMIT {
        if !check_read(rt, row, before)? {
            return Ok(());
        }
    }
    panic!(rt; "the command makes too many reads")
}
