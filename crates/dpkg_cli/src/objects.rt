// Standard output with `--json`: each line as an object of JSON.
ghost use Rattle.std.specs.Prelude.{◌≡◌, None};
ghost use Rattle.dpkg_cli.specs.Objects.{kind_of, layout_kind, question_kind};

use command_words::{Asked, Question, command_of, wants_json};
use json_lines::{Kind, json_text};
use record_formats::Layout;
use std::alloc::{AllocError, Global};
use std::io::{self, Write};
use std::str::from_utf8;

/// A stream whose lines are made objects, if they have a kind.
#[derive(Drop)]
pub(crate) struct Objects<W: Write> {
    pub(crate) alloc: Global,
    pub(crate) kind: Option<Kind>,
    pub(crate) writer: W,
}

// A table, and what a format makes, are texts of no such lines.
fn layout_kind(layout: &Layout) -> Option<Kind>
    ensures { result ≡ layout_kind layout.now }
{
    match layout {
        Layout::Lines => Some(Kind::Listing),
        Layout::Table => None,
        Layout::Format(_) => None,
    }
}

fn question_kind(question: &Question) -> Option<Kind>
    ensures { result ≡ question_kind question.now }
{
    match question {
        Question::Audit => Some(Kind::Audit),
        Question::Diversions => Some(Kind::Diversions),
        Question::List(layout, _) => layout_kind(layout),
        Question::ListFiles(_) => Some(Kind::Paths),
        Question::Search(_) => Some(Kind::Search),
        Question::SearchMatching(_) => Some(Kind::Search),
        Question::Selections(_) => Some(Kind::Selections),
        Question::Status(_) => Some(Kind::Paragraph),
        Question::Truename { .. } => Some(Kind::Paths),
    }
}

// What the lines are of that answer what is asked; a text that isn't of such lines has none.
fn kind_of(asked: &Asked) -> Option<Kind>
    ensures { result ≡ kind_of asked.now }
{
    match asked {
        Asked::Names => None,
        Asked::Version => None,
        Asked::Help(_) => None,
        Asked::CompareVersions(_) => None,
        Asked::Divert(_) => Some(Kind::Diverting),
        Asked::Undivert(_) => Some(Kind::Diverting),
        Asked::Unpack(_) => Some(Kind::Units),
        Asked::Install(_) => Some(Kind::Units),
        Asked::Configure(_) => Some(Kind::Units),
        Asked::ProcessTriggers(_) => Some(Kind::Units),
        Asked::Remove(_) => Some(Kind::Units),
        Asked::Purge(_) => Some(Kind::Units),
        Asked::Select(_) => Some(Kind::Units),
        Asked::RemoveSelected(_) => Some(Kind::Units),
        Asked::Query(query) => question_kind(&query.question),
        Asked::Verify(_) => Some(Kind::Verification),
    }
}

/// What the lines are of that answer the words, where they are to be objects.
pub(crate) fn kind_for(alloc: Global, words: &[String]) -> Option<Kind> {
    if !wants_json(words) {
        return None;
    }
    match command_of(alloc, words) {
        Ok(asked) => kind_of(&asked),
        Err(_) => None,
    }
}

// The objects of lines. Bytes that are no text stand in them as U+FFFD.
fn objects_of(alloc: Global, kind: Kind, lines: &[u8]) -> Result<String, AllocError> {
    match from_utf8(lines) {
        Ok(text) => json_text(alloc, kind, text),
        Err(_) => {
            let text = String::from_utf8_lossy(alloc, lines)?;
            json_text(alloc, kind, text.as_str())
        }
    }
}

impl<W: Write> Write for Objects<W> {
    // of what it writes nothing is claimed
    ghost contents = { λ _. None };

    fn write(&mut self, buf: &[u8]) -> io::Result<usize> {
        let Some(kind) = self.kind else {
            return self.writer.write(buf);
        };
        let objects = objects_of(self.alloc, kind, buf)?;
        self.writer.write_all(objects.as_str().as_bytes())?;
        Ok(buf.len())
    }

    fn flush(&mut self) -> io::Result<()> {
        self.writer.flush()
    }
}
