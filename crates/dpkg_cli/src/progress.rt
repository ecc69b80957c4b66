// What is being done and how far it is: one line on standard error that is renewed, where that stream is a terminal.
ghost use Rattle.std.specs.Prelude.{◌≡◌};

use crate::frontends::Frontends;
use crate::stages::Phase;
use command_words::{Asked, command_of, rehearsal_of};
use shown_lines::shown;
use std::alloc::{AllocError, Global};
use std::cell::Cell;
use std::io::{self, Write};
use texts::Texts;

/// What a command goes through.
#[derive(Clone, Copy)]
pub(crate) struct Going {
    verb: &'static str,
    /// How a log names it.
    startup: &'static str,
    /// What its units do, but for those of trees.
    phase: Phase,
    /// How many trees or names it has; 0 where it finds the packages itself.
    all: usize,
    /// Trees are shown as they are opened.
    trees: bool,
    /// What comes behind the trees.
    then: Option<&'static str>,
}

/// The line of progress; none where standard error is no terminal, or nothing goes on.
#[derive(Clone, Copy)]
pub(crate) struct Line<'a> {
    pub(crate) rt: HostRuntime,
    /// What the command goes through, also where no line shows it.
    pub(crate) going_on: Option<Going>,
    pub(crate) going: Option<Going>,
    /// How many columns the terminal has for it.
    pub(crate) columns: usize,
    /// How many units are told.
    pub(crate) told: &'a Cell<usize>,
    /// Where a frontend is told what is noted.
    pub(crate) frontend: &'a Frontends,
}

/// A stream beside which the line stands: what is written takes the line's place.
#[derive(Drop)]
pub(crate) struct Beside<'a, W: Write> {
    pub(crate) line: Line<'a>,
    pub(crate) writer: W,
    /// Whether each write tells a unit.
    pub(crate) tells: bool,
}

fn trees(startup: &'static str, words: &Texts, then: Option<&'static str>) -> Option<Going> {
    let phase = match then {
        Some(_) => Phase::Configuring,
        None => Phase::Processing,
    };
    Some(Going {
        verb: "unpacking",
        startup,
        phase,
        all: words.as_slice().len(),
        trees: true,
        then,
    })
}

fn names(verb: &'static str, startup: &'static str, phase: Phase, all: usize) -> Option<Going> {
    Some(Going {
        verb,
        startup,
        phase,
        all,
        trees: false,
        then: None,
    })
}

fn configuring(all: usize) -> Option<Going> {
    names(
        "configuring",
        "startup packages configure",
        Phase::Configuring,
        all,
    )
}

fn removing(all: usize) -> Option<Going> {
    names("removing", "startup packages remove", Phase::Removing, all)
}

fn removing_selected() -> Option<Going> {
    names(
        "removing",
        "startup packages remove",
        Phase::RemovingSelected,
        0,
    )
}

fn purging(all: usize) -> Option<Going> {
    names("purging", "startup packages purge", Phase::Removing, all)
}

fn processing() -> Option<Going> {
    names(
        "processing triggers of",
        "startup packages triggers-only",
        Phase::Processing,
        0,
    )
}

/// What the words of a command go through, if it has units and there is memory to read them. A rehearsal goes through nothing.
pub(crate) fn going_through(alloc: Global, words: &[String]) -> Option<Going> {
    match rehearsal_of(alloc, words) {
        Ok(None) => going_of(alloc, words),
        _ => None,
    }
}

fn going_of(alloc: Global, words: &[String]) -> Option<Going> {
    match command_of(alloc, words) {
        Ok(Asked::Unpack(asked)) => trees("startup archives unpack", &asked.trees, None),
        Ok(Asked::Install(asked)) => trees(
            "startup archives install",
            &asked.trees,
            Some("configuring"),
        ),
        Ok(Asked::Configure(asked)) => match &asked.names {
            Some(given) => configuring(given.as_slice().len()),
            None => configuring(0),
        },
        Ok(Asked::Remove(asked)) => removing(asked.names.as_slice().len()),
        Ok(Asked::Purge(asked)) => purging(asked.names.as_slice().len()),
        Ok(Asked::RemoveSelected(_)) => removing_selected(),
        Ok(Asked::ProcessTriggers(_)) => processing(),
        _ => None,
    }
}

// The front of a text that so many columns have room for. What isn't ASCII may take two.
fn fitted(alloc: Global, text: &str, columns: usize) -> Result<String, AllocError> {
    let mut front = String::new(alloc);
    let mut left = columns;
    for character in text.chars() {
        let width = if character.is_ascii() { 1 } else { 2 };
        if left < width {
            break;
        }
        left -= width;
        front.push(character)?;
    }
    Ok(front)
}

// What is done with a tree or a package, and how far that is; where it isn't known how many there are, how many are done.
fn step_text(
    alloc: Global,
    verb: &str,
    name: &str,
    done: usize,
    all: usize,
) -> Result<String, AllocError> {
    if all == 0 {
        return format!(in alloc; "{verb} {name} ({done} done)");
    }
    let at = done.saturating_add(1).min(all);
    format!(in alloc; "{verb} {name} ({at} of {all})")
}

impl Going {
    /// How a log begins.
    pub(crate) fn startup(self) -> &'static str {
        self.startup
    }

    // What the next unit does, behind so many: behind the removal of those that were named triggers are processed.
    fn phase_at(self, told: usize) -> Phase {
        match self.phase {
            Phase::Removing if told >= self.all => Phase::Processing,
            phase => phase,
        }
    }

    /// Whether what is configured came by the same command.
    pub(crate) fn installs(self) -> bool {
        self.then.is_some()
    }
}

impl<'a> Line<'a> {
    /// What the unit that goes on does.
    pub(crate) fn phase(self) -> Phase {
        if self.frontend.in_tree() {
            return Phase::Unpacking;
        }
        match self.going_on {
            Some(going) => going.phase_at(self.told.get()),
            None => Phase::Other,
        }
    }

    /// Takes the line away.
    pub(crate) fn clear(self) {
        if self.going.is_some() {
            let _ = eprint!(self.rt; "\r\x1b[K");
        }
    }

    // In place of the line so far. Without memory for it there is none.
    fn put(self, text: Result<String, AllocError>) {
        self.clear();
        if let Ok(front) = self.front_of(text) {
            let _ = eprint!(self.rt; "{front}");
        }
    }

    fn front_of(self, text: Result<String, AllocError>) -> Result<String, AllocError> {
        let alloc = self.rt.alloc();
        fitted(alloc, shown(alloc, text?.as_str())?.as_str(), self.columns)
    }

    /// Shows a tree as it is opened, of which so many were before.
    pub(crate) fn show_tree(self, tree: &str, before: usize) {
        let Some(going) = self.going else {
            return;
        };
        if before < going.all {
            self.put(step_text(self.rt.alloc(), going.verb, tree, before, going.all));
        }
    }

    /// Shows a package whose record is being changed, unless that is part of what is done with a tree.
    pub(crate) fn show_package(self, name: &str) {
        let Some(going) = self.going else {
            return;
        };
        let told = self.told.get();
        if !going.trees {
            self.put(step_text(self.rt.alloc(), going.verb, name, told, going.all));
        } else if told >= going.all {
            if let Some(then) = going.then {
                self.put(step_text(self.rt.alloc(), then, name, told - going.all, 0));
            }
        }
    }

    // One more unit is told.
    fn count(self) {
        self.told.set(self.told.get().saturating_add(1));
    }
}

impl<'a, W: Write> Write for Beside<'a, W> {
    ghost contents = { λ b. W.contents b.writer };

    fn write(&mut self, buf: &[u8]) -> io::Result<usize> {
        self.line.clear();
        if self.tells {
            self.line.count();
            self.line.frontend.end_unit(buf);
        }
        self.writer.write(buf)
    }

    fn flush(&mut self) -> io::Result<()> {
        self.writer.flush()
    }
}
