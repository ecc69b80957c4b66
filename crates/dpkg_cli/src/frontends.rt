// What is told beside the lines: to programs that read the descriptors of `--status-fd`, what is begun with a package, the state of
// each as it is noted, and why a unit failed or was refused; and all but the last, with the time, to the file of `--log`.
ghost use Rattle.std.specs.Prelude.{◌≡◌, ◌++◌, IfOk, codes, string_bytes};
ghost use Rattle.dpkg_cli.specs.StatusFd.{error_line, processing_line, status_line, status_lines, why_of};

use crate::log::{Log, qualified, stage_text, status_text};
use crate::mask::parent_of;
use crate::records::{Noted, Records, noted_in};
use crate::stages::{Phase, Stage, begun_stage, disappears, is_left_told};
use command_words::{logs_of, status_fds_of};
use std::alloc::{AllocError, Global};
use std::cell::{Cell, RefCell};
use std::fs::OpenOptions;
use std::os::fd::IntoRawFd;
use std::str::from_utf8;
use texts::{Text, Texts};

/// Who is told, and how far the unit is that goes on.
#[derive(Drop)]
pub(crate) struct Frontends {
    alloc: Global,
    descriptors: Vec<i32>,
    log: Option<Log>,
    /// What is configured came by the same command.
    installs: bool,
    /// A tree was opened for the unit.
    in_tree: Cell<bool>,
    /// The package of that tree.
    tree: RefCell<Option<Coming>>,
    /// What is done with the unit's package, once it has begun.
    stage: Cell<Option<Stage>>,
}

/// A package that comes.
#[derive(Drop)]
struct Coming {
    package: String,
    architecture: String,
    version: String,
}

/// What is to be told of a note, once it has its name.
#[derive(Drop)]
pub(crate) struct Told {
    lines: String,
    logged: Texts,
}

fn status_line(alloc: Global, package: &str, state: &str) -> Result<String, AllocError>
    ensures { IfOk result (λ line. string_bytes line ≡ status_line «package».now state.now) }
{
    format!(in alloc; "status: {package}: {state}\n")
}

fn status_lines(alloc: Global, told: bool, package: &str, state: &str) -> Result<String, AllocError>
    ensures { IfOk result (λ lines. string_bytes lines
        ≡ status_lines told «package».now state.now) }
{
    let line = status_line(alloc, package, state)?;
    if !(state == "not-installed" && !told) {
        return Ok(line);
    }
    let mut lines = status_line(alloc, package, "config-files")?;
    lines.push_str(line.as_str())?;
    Ok(lines)
}

fn error_line(alloc: Global, package: &str, why: &str) -> Result<String, AllocError>
    ensures { IfOk result (λ line. string_bytes line ≡ error_line «package».now why.now) }
{
    format!(in alloc; "status: {package} : error : {why}\n")
}

fn begun_line(alloc: Global, stage: &str, package: &str) -> Result<String, AllocError>
    ensures { IfOk result (λ line. string_bytes line ≡ codes "processing: " ++ (stage.now
        ++ (codes ": " ++ («package».now ++ codes "\n")))) }
{
    format!(in alloc; "processing: {stage}: {package}\n")
}

fn processing_line(alloc: Global, stage: Stage, package: &str) -> Result<String, AllocError>
    ensures { IfOk result (λ line. string_bytes line ≡ processing_line stage «package».now) }
{
    begun_line(alloc, stage.name(), package)
}

fn why_of(rest: &str) -> &str
    ensures { result.now ≡ why_of rest.now }
{
    if rest.as_bytes().starts_with(b"TriggerCycle ") {
        "triggers looping, abandoned"
    } else {
        rest
    }
}

// The line of a unit's reply, if it tells why nothing came of it.
fn line_of_reply(alloc: Global, reply: &str) -> Option<String> {
    let rest = match reply.strip_prefix("failed ") {
        Some(rest) => rest,
        None => reply.strip_prefix("refused ")?,
    };
    let (package, why) = rest.split_once(' ')?;
    error_line(alloc, package, why_of(why)).ok()
}

fn unopened_line(alloc: Global, number: &str) -> Result<String, AllocError> {
    format!(in alloc; "error: descriptor {number} of --status-fd isn't open\n")
}

// As the system's call: how many bytes were written, or -1.
fn write_to(descriptor: i32, text: &str) -> isize {
    libc::write(descriptor, text.as_bytes())
}

// A number's descriptor, if it is open: nothing can be written to it then.
fn own_descriptor(number: &str) -> Option<i32> {
    let descriptor = number.parse::<i32>().ok()?;
    (write_to(descriptor, "") == 0).then_some(descriptor)
}

// Another one of what a number stands for in the program that started this one anew.
fn parents_descriptor(rt: &HostRuntime, parent: &str, number: &str) -> Option<i32> {
    let place = format!(in rt.alloc(); "/proc/{parent}/fd/{number}").ok()?;
    let opened = OpenOptions::new().append(true).open(rt, place.as_str());
    Some(opened.ok()?.into_raw_fd())
}

fn descriptor_of(rt: &HostRuntime, number: &str) -> Option<i32> {
    match parent_of(rt) {
        Some(parent) => parents_descriptor(rt, parent.as_str(), number),
        None => own_descriptor(number),
    }
}

fn coming_in(alloc: Global, control: &[u8]) -> Option<Coming> {
    let noted = noted_in(control)?;
    Some(Coming {
        package: String::from_str(alloc, noted.package).ok()?,
        architecture: String::from_str(alloc, noted.architecture).ok()?,
        version: String::from_str(alloc, noted.version).ok()?,
    })
}

// The version that comes: of one that is unpacked that of its tree, and by an install also of one that is configured.
fn version_coming<'a>(stage: Stage, installs: bool, noted: &Noted<'a>) -> &'a str {
    match stage {
        Stage::Install | Stage::Upgrade => noted.version,
        Stage::Configure if installs => noted.version,
        _ => "",
    }
}

// The architecture of a package, by what is noted or by its record before.
fn architecture_of<'a>(records: &'a Records, noted: &Noted<'a>) -> &'a str {
    if noted.architecture.is_empty() {
        return records.architecture_of(noted.package).unwrap_or("");
    }
    noted.architecture
}

fn version_noted<'a>(noted: &Noted<'a>) -> &'a str {
    if noted.state == "not-installed" {
        return "";
    }
    noted.version
}

impl Told {
    fn new(alloc: Global) -> Told {
        Told {
            lines: String::new(alloc),
            logged: Texts::new(alloc),
        }
    }

    // A stage begins.
    fn add_stage(
        &mut self,
        alloc: Global,
        stage: Stage,
        installs: bool,
        records: &Records,
        noted: &Noted<'_>,
    ) -> Result<(), AllocError> {
        let line = processing_line(alloc, stage, noted.package)?;
        self.lines.push_str(line.as_str())?;
        let named = qualified(alloc, noted.package, architecture_of(records, noted))?;
        let old = records.version_of(noted.package);
        let coming = version_coming(stage, installs, noted);
        let text = stage_text(alloc, stage, named.as_str(), old, coming)?;
        self.logged.push(Text::new(text))
    }

    // A state is noted.
    fn add_state(
        &mut self,
        alloc: Global,
        told: bool,
        records: &Records,
        noted: &Noted<'_>,
    ) -> Result<(), AllocError> {
        let lines = status_lines(alloc, told, noted.package, noted.state)?;
        self.lines.push_str(lines.as_str())?;
        let named = qualified(alloc, noted.package, architecture_of(records, noted))?;
        let text = status_text(alloc, noted.state, named.as_str(), version_noted(noted))?;
        self.logged.push(Text::new(text))
    }
}

impl Frontends {
    /// Opens what the program's own words name; a line for standard error where a descriptor isn't open.
    pub(crate) fn open(
        rt: &HostRuntime,
        words: &[String],
        installs: bool,
    ) -> Result<Frontends, String> {
        let alloc = rt.alloc();
        let mut frontends = Frontends::none(alloc, installs);
        match frontends.open_all(rt, words) {
            Ok(None) => Ok(frontends),
            Ok(Some(line)) => Err(line),
            Err(_) => Err(String::new(alloc)),
        }
    }

    fn none(alloc: Global, installs: bool) -> Frontends {
        Frontends {
            alloc,
            descriptors: Vec::new(alloc),
            log: None,
            installs,
            in_tree: Cell::new(false),
            tree: RefCell::new(None),
            stage: Cell::new(None),
        }
    }

    fn open_all(
        &mut self,
        rt: &HostRuntime,
        words: &[String],
    ) -> Result<Option<String>, AllocError> {
        let numbers = status_fds_of(self.alloc, words)?;
        for number in numbers.as_slice() {
            match descriptor_of(rt, number.as_str()) {
                Some(descriptor) => self.descriptors.push(descriptor)?,
                None => return Ok(Some(unopened_line(self.alloc, number.as_str())?)),
            }
        }
        let logs = logs_of(self.alloc, words)?;
        if let Some(log) = logs.as_slice().first() {
            self.log = Log::open(rt, log.as_str());
        }
        Ok(None)
    }

    pub(crate) fn is_open(&self) -> bool {
        !self.descriptors.as_slice().is_empty() || self.log.is_some()
    }

    // Writes to each descriptor. A frontend that reads no more is no fault.
    fn tell(&self, lines: &str) {
        for descriptor in self.descriptors.as_slice() {
            let _ = write_to(*descriptor, lines);
        }
    }

    /// Adds a line to the log.
    pub(crate) fn log(&self, text: &str) {
        if let Some(log) = &self.log {
            log.add(text);
        }
    }

    /// Tells what was kept of a note.
    pub(crate) fn tell_note(&self, told: &Told) {
        self.tell(told.lines.as_str());
        for text in told.logged.as_slice() {
            self.log(text.as_str());
        }
    }

    /// A tree is opened, with which the next unit begins.
    pub(crate) fn begin_tree(&self) {
        self.in_tree.set(true);
        let _ = self.tree.try_replace(None);
    }

    /// The control file of that tree is read.
    pub(crate) fn learn_tree(&self, control: &[u8]) {
        if self.is_open() {
            let _ = self.tree.try_replace(coming_in(self.alloc, control));
        }
    }

    pub(crate) fn in_tree(&self) -> bool {
        self.in_tree.get()
    }

    // What a note begins: with the package of the tree, if one is unpacked, else with its own.
    fn add_begun(
        &self,
        told: &mut Told,
        phase: Phase,
        records: &Records,
        noted: &Noted<'_>,
    ) -> Result<(), AllocError> {
        let before = records.state_of(noted.package);
        if let Some(stage) = begun_stage(self.stage.get(), phase, noted.want, before, noted.state) {
            self.stage.set(Some(stage));
            told.add_stage(self.alloc, stage, self.installs, records, noted)?;
        }
        Ok(())
    }

    fn add_coming(
        &self,
        told: &mut Told,
        records: &Records,
        noted: &Noted<'_>,
    ) -> Result<(), AllocError> {
        let Ok(tree) = self.tree.try_borrow() else {
            return Ok(());
        };
        let Some(coming) = &*tree else {
            return self.add_begun(told, Phase::Unpacking, records, noted);
        };
        let own = Noted {
            package: coming.package.as_str(),
            architecture: coming.architecture.as_str(),
            version: coming.version.as_str(),
            want: noted.want,
            state: noted.state,
        };
        self.add_begun(told, Phase::Unpacking, records, &own)?;
        let before = records.state_of(noted.package);
        if own.package != noted.package && disappears(before, noted.state) {
            told.add_stage(self.alloc, Stage::Disappear, self.installs, records, noted)?;
        }
        Ok(())
    }

    fn told_by(
        &self,
        phase: Phase,
        records: &Records,
        noted: &Noted<'_>,
    ) -> Result<Told, AllocError> {
        let mut told = Told::new(self.alloc);
        let left = is_left_told(self.stage.get(), records.state_of(noted.package));
        match phase {
            Phase::Unpacking => self.add_coming(&mut told, records, noted)?,
            _ => self.add_begun(&mut told, phase, records, noted)?,
        }
        told.add_state(self.alloc, left, records, noted)?;
        Ok(told)
    }

    /// What is to be told of a note, by what is known of records before it.
    pub(crate) fn told_of(&self, phase: Phase, records: &Records, record: &[u8]) -> Option<Told> {
        let noted = noted_in(record)?;
        self.told_by(phase, records, &noted).ok()
    }

    /// The unit whose lines these are is over. Tells why it failed or was refused, if it did.
    pub(crate) fn end_unit(&self, lines: &[u8]) {
        self.in_tree.set(false);
        self.stage.set(None);
        if self.descriptors.as_slice().is_empty() {
            return;
        }
        for line in lines.split(|b| *b == b'\n') {
            let Ok(text) = from_utf8(line) else {
                continue;
            };
            if let Some(told) = line_of_reply(self.alloc, text) {
                self.tell(told.as_str());
            }
        }
    }
}
