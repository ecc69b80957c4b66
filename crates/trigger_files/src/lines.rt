// What belongs into the files.
ghost use Rattle.std.specs.Prelude.{◌≡◌, ◌++◌, IfOk, OnOk};
ghost use Rattle.std.specs.List.{flat_map};
ghost use Rattle.diversions.specs.Lines.{lines_in};
ghost use Rattle.trigger_files.specs.Lines.{are_among, belongs, ended, have_same, is_noawait, is_path_name, is_same, is_settled, line_in, lines_file, lines_for, who};
ghost use Rattle.trigger_watch.specs.Names.{is_among};

use crate::places::is_paths_name;
use diversions::cut_line;
use host_core::{Access, Content, Node, RootPath};
use std::alloc::{AllocError, Global};
use texts::{Bytes, Text};
use trigger_interests::Interest;
use trigger_watch::each_once;

fn is_same(interest: &Interest, other: &Interest) -> bool
    ensures { result ≡ is_same interest.now other.now }
{
    other.name.as_str() == interest.name.as_str()
        && other.package.as_str() == interest.package.as_str()
}

fn is_noawait(entries: &[Interest], interest: &Interest) -> bool
    ensures { result ≡ is_noawait entries.now interest.now }
{
    entries
        .iter()
        .all(|other| !is_same(interest, other) || other.noawait)
}

fn who(alloc: Global, entries: &[Interest], interest: &Interest) -> Result<Text, AllocError>
    ensures { IfOk result (λ text. text ≡ who entries.now interest.now) }
{
    if !is_noawait(entries, interest) {
        return interest.package.copy();
    }
    let mut text = String::from_str(alloc, interest.package.as_str())?;
    text.push_str("/noawait")?;
    Ok(Text::new(text))
}

fn is_path_name(alloc: Global, name: &Text) -> Result<bool, AllocError>
    ensures { IfOk result (λ is. is ≡ is_path_name name.now) }
{
    match RootPath::parse(alloc, name.as_str())? {
        Some(_) => Ok(name.as_str().as_bytes() != b"/".as_slice()),
        None => Ok(false),
    }
}

fn belongs(alloc: Global, name: &Text, interest: &Interest) -> Result<bool, AllocError>
    ensures { IfOk result (λ is. is ≡ belongs name.now interest.now) }
{
    let name = name.as_str().as_bytes();
    if is_paths_name(name) {
        return is_path_name(alloc, &interest.name);
    }
    Ok(name == interest.name.as_str().as_bytes())
}

fn line_in(
    alloc: Global,
    entries: &[Interest],
    name: &Text,
    interest: &Interest,
) -> Result<Text, AllocError>
    ensures { IfOk result (λ line. line ≡ line_in entries.now name.now interest.now) }
{
    let who = who(alloc, entries, interest)?;
    if !is_paths_name(name.as_str().as_bytes()) {
        return Ok(who);
    }
    let mut line = String::from_str(alloc, interest.name.as_str())?;
    line.push_str(" ")?;
    line.push_str(who.as_str())?;
    Ok(Text::new(line))
}

/// The lines that belong into the file of a name, each once.
pub(crate) fn lines_for(
    alloc: Global,
    entries: &[Interest],
    name: &Text,
) -> Result<Vec<Text>, AllocError>
    ensures { IfOk result (λ lines. lines.items ≡ lines_for entries.now name.now) }
{
    let mut lines = Vec::new(alloc);
    for interest in entries {
        if belongs(alloc, name, interest)? {
            lines.push(line_in(alloc, entries, name, interest)?)?;
        }
    }
    each_once(alloc, lines)
}

fn add_ended(line: &Text, text: &mut Vec<u8>) -> Result<(), AllocError>
    ensures { OnOk result (text.new.items ≡ text.old.items ++ ended line.now) }
{
    text.extend_from_slice(line.as_str().as_bytes())?;
    text.extend_from_slice(b"\n")?;
    Ok(())
}

fn text_of(alloc: Global, lines: &[Text]) -> Result<Vec<u8>, AllocError>
    ensures { IfOk result (λ text. text.items ≡ flat_map ended lines.now) }
{
    let mut text = Vec::new(alloc);
    for line in lines {
        add_ended(line, &mut text)?;
    }
    Ok(text)
}

/// A file of these lines.
pub(crate) fn lines_file(alloc: Global, lines: &[Text]) -> Result<Node, AllocError>
    ensures { IfOk result (λ node. node ≡ lines_file lines.now) }
{
    let text = text_of(alloc, lines)?;
    Ok(Node::File {
        bytes: Content::new(text),
        access: Access::own(0o644),
    })
}

// Whether a line stands among those of a text.
fn stands(others: &[Bytes], line: &Text) -> bool
    ensures { result ≡ is_among others.now line.now }
{
    others
        .iter()
        .any(|other| line.as_str().as_bytes() == other.as_slice())
}

fn all_stand(others: &[Bytes], lines: &[Text]) -> bool
    ensures { result ≡ are_among others.now lines.now }
{
    lines.iter().all(|line| stands(others, line))
}

// Whether a line of a text belongs there.
fn is_wanted(lines: &[Text], other: &Bytes) -> bool
    ensures { result ≡ is_among lines.now other.now }
{
    lines
        .iter()
        .any(|line| other.as_slice() == line.as_str().as_bytes())
}

fn all_wanted(lines: &[Text], others: &[Bytes]) -> bool
    ensures { result ≡ are_among lines.now others.now }
{
    others.iter().all(|other| is_wanted(lines, other))
}

fn have_same(lines: &[Text], others: &[Bytes]) -> bool
    ensures { result ≡ have_same lines.now others.now }
{
    all_stand(others, lines) && all_wanted(lines, others)
}

fn lines_in(alloc: Global, text: &[u8]) -> Result<Vec<Bytes>, AllocError>
    ensures { IfOk result (λ lines. lines.items ≡ lines_in text.now) }
{
    let mut lines = Vec::new(alloc);
    let mut rest = text;
    while !rest.is_empty() {
        let (line, after) = cut_line(rest);
        lines.push(Bytes::from_slice(alloc, line)?)?;
        rest = after;
    }
    Ok(lines)
}

fn has_lines(alloc: Global, lines: &[Text], text: &[u8]) -> Result<bool, AllocError>
    ensures { IfOk result (λ has. has ≡ have_same lines.now (lines_in text.now)) }
{
    let others = lines_in(alloc, text)?;
    Ok(have_same(lines, others.as_slice()))
}

/// Whether what stands somewhere has these lines already.
pub(crate) fn is_settled(
    alloc: Global,
    lines: &[Text],
    node: &Option<Node>,
) -> Result<bool, AllocError>
    ensures { IfOk result (λ is. is ≡ is_settled lines.now node.now) }
{
    match node {
        Some(Node::File { bytes, .. }) => has_lines(alloc, lines, bytes.held()?),
        Some(Node::Dir { .. }) | Some(Node::Link { .. }) => Ok(false),
        None => has_lines(alloc, lines, b""),
    }
}
