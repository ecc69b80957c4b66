// The lines of `DEBIAN/conffiles`.
ghost use Rattle.std.specs.Prelude.{◌≡◌, ◌∷◌, ◌++◌, IfOk, IfSome, IfNone, IsTrue, ◌↔◌, MatchOption};
ghost use Rattle.control_fields.specs.Names.{Lacks};
ghost use Rattle.package_tree.specs.Conffiles.{is_white, trimmed, said, entry_of, entries_of, entries_at, HasNoEntry, IsFirstOdd};
ghost use Rattle.package_tree.specs.Conffiles.{IsOdd};

use host_core::Node;
use std::alloc::{AllocError, Global};
use texts::Bytes;

/// What a line says, without the white space at its end.
#[derive(Drop)]
pub(crate) enum Entry {
    Blank,
    /// The path of a conffile.
    Plain(Bytes),
    /// A path that goes with the upgrade to this package.
    Flagged(Bytes),
    /// Neither, nor blank.
    Odd,
}

/// A byte that doesn't count at the end of a line.
pub(crate) fn is_white(b: u8) -> bool
    ensures { result ≡ is_white b }
{
    b == b' ' || b == b'\t' || b == 12 || b == 11 || b == b'\r'
}

fn trimmed(line: &[u8]) -> &[u8]
    ensures { result.now ≡ trimmed line.now }
{
    let mut rest = line;
    while let [front @ .., last] = rest {
        if !is_white(*last) {
            return rest;
        }
        rest = front;
    }
    rest
}

fn said(alloc: Global, text: &[u8]) -> Result<Entry, AllocError>
    ensures { IfOk result (λ entry. entry ≡ said text.now) }
{
    if text.starts_with(b"/") {
        return Ok(Entry::Plain(Bytes::from_slice(alloc, text)?));
    }
    if text == b"remove-on-upgrade".as_slice() {
        return Ok(Entry::Flagged(Bytes::from_slice(alloc, b"")?));
    }
    if text.starts_with(b"remove-on-upgrade ") {
        return Ok(Entry::Flagged(Bytes::from_slice(alloc, &text[18..])?));
    }
    Ok(if text.is_empty() {
        Entry::Blank
    } else {
        Entry::Odd
    })
}

fn entry_of(alloc: Global, line: &[u8]) -> Result<Entry, AllocError>
    ensures { IfOk result (λ entry. entry ≡ entry_of line.now) }
{
    said(alloc, trimmed(line))
}

// What stands before and after the first newline.
fn cut(bytes: &[u8]) -> Option<(&[u8], &[u8])>
    ensures some { IfSome result
        (λ parts. (bytes.now ≡ parts.0.now ++ 10 ∷ parts.1.now) × Lacks parts.0.now 10) }
    ensures none { IfNone result (Lacks bytes.now 10) }
{
    for (i, b) in bytes.iter().enumerate() {
        if *b == b'\n' {
            let (front, rest) = bytes.split_at(i);
            return Some((front, &rest[1..]));
        }
    }
    None
}

fn entries_of(alloc: Global, text: &[u8]) -> Result<Vec<Entry>, AllocError>
    ensures { IfOk result (λ entries. entries.items ≡ entries_of text.now) }
{
    let mut entries = Vec::new(alloc);
    let mut rest = text;
    while let Some((line, after)) = cut(rest) {
        entries.push(entry_of(alloc, line)?)?;
        rest = after;
    }
    entries.push(entry_of(alloc, rest)?)?;
    Ok(entries)
}

/// All lines of the file, where one stands.
pub(crate) fn entries_at(alloc: Global, node: &Option<Node>) -> Result<Vec<Entry>, AllocError>
    ensures { IfOk result (λ entries. entries.items ≡ entries_at node.now) }
{
    match node {
        Some(Node::File { bytes, .. }) => entries_of(alloc, bytes.held()?),
        Some(Node::Dir { .. }) => Ok(Vec::new(alloc)),
        Some(Node::Link { .. }) => Ok(Vec::new(alloc)),
        None => Ok(Vec::new(alloc)),
    }
}

fn is_odd(entry: &Entry) -> bool
    ensures { IsTrue result ↔ IsOdd entry.now }
{
    match entry {
        Entry::Blank => false,
        Entry::Plain(_) => false,
        Entry::Flagged(_) => false,
        Entry::Odd => true,
    }
}

/// The line of the first entry that is neither a path nor a flagged one.
pub(crate) fn first_odd(entries: &[Entry]) -> Option<u64>
    ensures { MatchOption result (HasNoEntry IsOdd entries.now) (IsFirstOdd entries.now) }
{
    for (index, entry) in entries.iter().enumerate() {
        if is_odd(entry) {
            return Some(index as u64 + 1);
        }
    }
    None
}
