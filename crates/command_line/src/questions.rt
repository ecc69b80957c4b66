// Questions about an administration: their paths are read, and the root is looked at to answer them.
ghost use Rattle.std.specs.Prelude.{◌≡◌, ◌≤◌, IfErr, IfOk, IsTrue, Result};
ghost use Rattle.host_core.specs.Host.{Reads, Silent};
ghost use Rattle.host_core.specs.Paths.{Path as APath};
ghost use Rattle.administration.specs.Fault.{CountsAdministration};
ghost use Rattle.command_line.specs.Queries.{HasInquired, IsAnsweredFrom, IsInquiredOn, IsLeftOpenOn, IsUnanswered, IsUnread, asked_answer, bad_path_answer, inquiry_of, on_path, package_answer, reads_info, search_answer, text_answer};
ghost use Rattle.command_line.specs.Roots.{around};
ghost use Rattle.command_line.specs.declared.questions.Inquiry.TheVariants.{Search, Truename};

use crate::answer::{Answer, complained, printed, told};
use crate::hosts::Hosts;
use crate::shown::Shown;
use crate::steady::{Unanswered, settle};
use administration::AdministrationFault;
use command_words::Question;
use host_core::{Host, HostFault, RootPath};
use inquiries::{
    Glance, audit, list, list_diversions, list_files, search, search_matching, selections, status,
    truename,
};
use queries::Told;
use record_formats::Layout;
use shown_lines::line;
use std::alloc::{AllocError, Global};
use texts::{Bytes, Text, Texts};

/// A question with the path that it is about.
#[derive(Drop)]
pub(crate) enum Inquiry {
    Audit,
    Diversions,
    List(Layout, Texts),
    ListFiles(Text),
    Search(RootPath),
    SearchMatching(Text),
    Selections(Texts),
    Status(Text),
    Truename {
        package: Option<Text>,
        path: RootPath,
    },
}

fn search_of(alloc: Global, path: Text) -> Result<Result<Inquiry, Text>, AllocError>
    ensures { IfOk result (λ read. read ≡ on_path Search path) }
{
    match RootPath::parse(alloc, path.as_str())? {
        Some(path) => Ok(Ok(Inquiry::Search(path))),
        None => Ok(Err(path)),
    }
}

fn truename_of(
    alloc: Global,
    package: Option<Text>,
    path: Text,
) -> Result<Result<Inquiry, Text>, AllocError>
    ensures { IfOk result (λ read. read ≡ on_path (Truename «package») path) }
{
    match RootPath::parse(alloc, path.as_str())? {
        Some(path) => Ok(Ok(Inquiry::Truename { package, path })),
        None => Ok(Err(path)),
    }
}

/// A question with the path that it names, or the text that names none.
pub(crate) fn inquiry_of(
    alloc: Global,
    question: Question,
) -> Result<Result<Inquiry, Text>, AllocError>
    ensures { IfOk result (λ read. read ≡ inquiry_of question) }
{
    match question {
        Question::Audit => Ok(Ok(Inquiry::Audit)),
        Question::Diversions => Ok(Ok(Inquiry::Diversions)),
        Question::List(layout, patterns) => Ok(Ok(Inquiry::List(layout, patterns))),
        Question::ListFiles(name) => Ok(Ok(Inquiry::ListFiles(name))),
        Question::Search(path) => search_of(alloc, path),
        Question::SearchMatching(pattern) => Ok(Ok(Inquiry::SearchMatching(pattern))),
        Question::Selections(patterns) => Ok(Ok(Inquiry::Selections(patterns))),
        Question::Status(name) => Ok(Ok(Inquiry::Status(name))),
        Question::Truename { package, path } => truename_of(alloc, package, path),
    }
}

/// Tells a text that names no path.
pub(crate) fn bad_path(alloc: Global, text: &Text) -> Result<Answer, AllocError>
    ensures { IfOk result (λ answer. answer ≡ bad_path_answer text.now) }
{
    let text = text.as_str();
    let content = format!(in alloc; "bad path {text}")?;
    Ok(complained(alloc, line(alloc, content.as_str())?))
}

fn text_answer(alloc: Global, text: Bytes) -> Answer
    ensures { result ≡ text_answer text }
{
    told(alloc, text, 0)
}

fn asked_answer(alloc: Global, of_packages: Told) -> Answer
    ensures answer { result ≡ asked_answer of_packages }
    ensures bound { result.status ≤ 2 }
{
    let status = if of_packages.complete { 0 } else { 1 };
    told(alloc, of_packages.text, status)
}

fn package_answer(alloc: Global, name: &Text, text: Option<Bytes>) -> Result<Answer, AllocError>
    ensures answer { IfOk result (λ answer. answer ≡ package_answer name.now text) }
    ensures bound { IfOk result (λ answer. answer.status ≤ 2) }
{
    match text {
        Some(text) => Ok(told(alloc, text, 0)),
        None => {
            let name = name.as_str();
            let content = format!(in alloc; "refused {name} Unknown")?;
            Ok(printed(alloc, line(alloc, content.as_str())?, 1))
        }
    }
}

fn search_answer(alloc: Global, text: Bytes) -> Answer
    ensures answer { result ≡ search_answer text }
    ensures bound { result.status ≤ 2 }
{
    let status = if text.as_slice().is_empty() { 1 } else { 0 };
    told(alloc, text, status)
}

// The answer from what stands on a host.
fn inquire<H: Host>(
    alloc: Global,
    host: &mut H,
    asked: &Inquiry,
) -> Result<Answer, AdministrationFault>
    ensures answer { IfOk result (IsAnsweredFrom (H.state host.new) asked.now) }
    ensures bound { IfOk result (λ answer. answer.status ≤ 2) }
    ensures damage { IsTrue (H.state host.new).honest
        → IfErr result (IsUnread asked.now (H.state host.old).world) }
    ensures reads { Reads (H.state host.old) (H.state host.new) }
    ensures silent { Silent (H.state host.old) (H.state host.new) }
    ensures counts { CountsAdministration (H.state host.old) (H.state host.new) result }
{
    match asked {
        Inquiry::Audit => Ok(text_answer(alloc, audit(alloc, host)?)),
        Inquiry::Diversions => Ok(text_answer(alloc, list_diversions(alloc, host)?)),
        Inquiry::List(layout, patterns) => {
            let packages = list(alloc, host, layout, patterns.as_slice())?;
            Ok(asked_answer(alloc, packages))
        }
        Inquiry::ListFiles(name) => {
            let listing = list_files(alloc, host, name)?;
            Ok(package_answer(alloc, name, listing)?)
        }
        Inquiry::Search(path) => Ok(search_answer(alloc, search(alloc, host, path)?)),
        Inquiry::SearchMatching(pattern) => {
            let paths = search_matching(alloc, host, pattern)?;
            Ok(search_answer(alloc, paths))
        }
        Inquiry::Selections(patterns) => {
            let wanted = selections(alloc, host, patterns.as_slice())?;
            Ok(asked_answer(alloc, wanted))
        }
        Inquiry::Status(name) => {
            let entry = status(alloc, host, name)?;
            Ok(package_answer(alloc, name, entry)?)
        }
        Inquiry::Truename { package, path } => {
            let place = truename(alloc, host, package.as_ref(), path)?;
            Ok(text_answer(alloc, place))
        }
    }
}

// Whether the names in `info/` are looked at too, where what stands there is read.
fn reads_info(asked: &Inquiry) -> bool
    ensures { result ≡ reads_info asked.now }
{
    match asked {
        Inquiry::Audit => true,
        Inquiry::Diversions => false,
        Inquiry::List(_, _) => false,
        Inquiry::ListFiles(_) => true,
        Inquiry::Search(_) => true,
        Inquiry::SearchMatching(_) => true,
        Inquiry::Selections(_) => false,
        Inquiry::Status(_) => false,
        Inquiry::Truename { .. } => false,
    }
}

/// The host of a root that is only looked at.
struct Looked<H: Host> {
    host: H,
}

impl<H: Host> Shown for Looked<H> {
    type Asked = Inquiry;

    ghost use Rattle.command_line.specs.Queries.{HasAnswered, HasMissed, HasShown, reads_info};

    ghost glanced = { λ asked old new glance. HasShown (reads_info asked) (H.state old.host) (H.state new.host) glance };

    ghost missed = { λ asked old new fault. HasMissed (H.state old.host) (H.state new.host) fault };

    ghost answered = { λ asked old new result. HasAnswered asked (H.state old.host) (H.state new.host) result };

    fn glance(&mut self, alloc: Global, asked: &Inquiry) -> Result<Glance, HostFault> {
        Glance::take(alloc, &mut self.host, reads_info(asked))
    }

    fn answer(&mut self, alloc: Global, asked: &Inquiry) -> Result<Answer, AdministrationFault> {
        inquire(alloc, &mut self.host, asked)
    }
}

// The answer from the host of the root, which is given back.
fn inquire_on<S: Hosts>(
    alloc: Global,
    hosts: &mut S,
    host: S::Opened,
    asked: &Inquiry,
) -> Result<Answer, Unanswered>
    ensures answer { IfOk result (IsInquiredOn (S.left hosts.new) (S.Opened.state host) asked.now) }
    ensures bound { IfOk result (λ answer. answer.status ≤ 2) }
    ensures refused { IfErr result (IsLeftOpenOn (S.left hosts.new) (S.Opened.state host)
        asked.now) }
    ensures faults { S.faults hosts.old ≤ S.faults hosts.new }
    ensures below { S.below hosts.new ≡ S.below hosts.old }
{
    let mut looked = Looked { host };
    let answer = settle(alloc, &mut looked, asked);
    let Looked { host } = looked;
    hosts.close_root(host);
    answer
}

/// The answer under the root, or why there is none. Want of memory for the answer is told likewise.
pub(crate) fn inquire_under<S: Hosts>(
    alloc: Global,
    hosts: &mut S,
    root: &Text,
    asked: &Inquiry,
) -> Result<Answer, Unanswered>
    ensures answer { IfOk result (HasInquired (around S.Hosts hosts.old hosts.new) root.now
        asked.now) }
    ensures bound { IfOk result (λ answer. answer.status ≤ 2) }
    ensures refused { IfErr result (IsUnanswered (around S.Hosts hosts.old hosts.new) root.now
        asked.now) }
    ensures below { S.below hosts.new ≡ S.below hosts.old }
{
    match hosts.look_at_root(root.as_str()) {
        Ok(host) => inquire_on(alloc, hosts, host, asked),
        Err(fault) => Err(Unanswered::Fault(AdministrationFault::from(fault))),
    }
}
