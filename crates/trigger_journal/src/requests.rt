// What the journal asks for.
ghost use Rattle.std.specs.Prelude.{◌≡◌, ◌++◌, IfOk, OnOk, map, not};
ghost use Rattle.std.specs.List.{list_any};
ghost use Rattle.control_fields.specs.Names.{is_blank};
ghost use Rattle.host_core.specs.Looks.{Looks};
ghost use Rattle.trigger_interests.specs.Words.{words_in};
ghost use Rattle.trigger_journal.specs.Places.{journal_path};
ghost use Rattle.trigger_journal.specs.Requests.{is_own, request_of, requests_by, requests_in, requests_of, text_at};

use diversions::cut_line;
use host_core::{Host, HostFault, Node, RootPath};
use std::alloc::{AllocError, Global};
use texts::Bytes;

/// That a trigger is to be activated, as it stands on a line: it may be named as no package can name one. Whether we stand there, and
/// whether others do.
#[derive(Drop)]
pub struct Request {
    pub name: Bytes,
    pub ours: bool,
    pub others: bool,
}

fn is_blank(b: u8) -> bool
    ensures { result ≡ is_blank b }
{
    b == b' ' || b == b'\t'
}

// What stands between the blanks of a line.
fn words_in(alloc: Global, line: &[u8]) -> Result<Vec<&[u8]>, AllocError>
    ensures { IfOk result (λ words. map (λ word. word.now) words.items ≡ words_in line.now) }
{
    line.split(|b| is_blank(*b))
        .filter(|word| !word.is_empty())
        .collect(alloc)
}

fn is_own(awaiter: &[u8]) -> bool
    ensures { result ≡ is_own awaiter.now }
{
    awaiter == b"coizkerra".as_slice()
}

fn has_own(awaiters: &[Bytes]) -> bool
    ensures { result ≡ list_any is_own awaiters.now }
{
    awaiters.iter().any(|awaiter| is_own(awaiter.as_slice()))
}

fn has_other(awaiters: &[Bytes]) -> bool
    ensures { result ≡ list_any (λ awaiter. not (is_own awaiter)) awaiters.now }
{
    awaiters.iter().any(|awaiter| !is_own(awaiter.as_slice()))
}

fn request_of(name: &Bytes, awaiters: &[Bytes]) -> Result<Request, AllocError>
    ensures { IfOk result (λ request. request ≡ request_of name.now awaiters.now) }
{
    Ok(Request {
        name: name.copy()?,
        ours: has_own(awaiters),
        others: has_other(awaiters),
    })
}

// Adds what the words of a line ask for.
fn add_words(words: &[Bytes], requests: &mut Vec<Request>) -> Result<(), AllocError>
    ensures { OnOk result (requests.new.items ≡ requests.old.items ++ requests_by words.now) }
{
    if words.len() < 2 {
        return Ok(());
    }
    let request = request_of(&words[0], &words[1..])?;
    requests.push(request)?;
    Ok(())
}

// Copies of words.
fn copies(alloc: Global, words: &[&[u8]]) -> Result<Vec<Bytes>, AllocError>
    ensures { IfOk result (λ copies. copies.items ≡ map (λ word. word.now) words.now) }
{
    let mut copies = Vec::new(alloc);
    for word in words {
        copies.push(Bytes::from_slice(alloc, word)?)?;
    }
    Ok(copies)
}

fn add_line(alloc: Global, line: &[u8], requests: &mut Vec<Request>) -> Result<(), AllocError>
    ensures { OnOk result (requests.new.items
        ≡ requests.old.items ++ requests_by (words_in line.now)) }
{
    let words = words_in(alloc, line)?;
    let copies = copies(alloc, words.as_slice())?;
    add_words(copies.as_slice(), requests)
}

/// What a text asks for, in the order of its lines.
pub(crate) fn requests_in(alloc: Global, text: &[u8]) -> Result<Vec<Request>, AllocError>
    ensures { IfOk result (λ requests. requests.items ≡ requests_in text.now) }
{
    let mut requests = Vec::new(alloc);
    let mut rest = text;
    while !rest.is_empty() {
        let (line, after) = cut_line(rest);
        add_line(alloc, line, &mut requests)?;
        rest = after;
    }
    Ok(requests)
}

// The text of a node.
fn text_at(alloc: Global, node: &Option<Node>) -> Result<Vec<u8>, AllocError>
    ensures { IfOk result (λ text. text.items ≡ text_at node.now) }
{
    match node {
        Some(Node::File { bytes, .. }) => Vec::from_slice(alloc, bytes.held()?),
        Some(Node::Dir { .. }) | Some(Node::Link { .. }) | None => Ok(Vec::new(alloc)),
    }
}

/// The place of the journal.
pub(crate) fn journal_path(alloc: Global) -> Result<RootPath, AllocError>
    ensures { IfOk result (λ path. path ≡ journal_path) }
{
    RootPath::from_str(alloc, "/var/lib/dpkg/triggers/Unincorp")
}

/// The text that stands there.
pub(crate) fn read_text<H: Host>(alloc: Global, host: &mut H) -> Result<Vec<u8>, HostFault>
    ensures looks { Looks result (λ text w. text.items ≡ text_at (w journal_path))
        (H.state host.old) (H.state host.new) }
{
    let path = journal_path(alloc)?;
    let node = host.node(&path)?;
    Ok(text_at(alloc, &node)?)
}

/// What the journal asks for. No script is called.
pub fn read_requests<H: Host>(alloc: Global, host: &mut H) -> Result<Vec<Request>, HostFault>
    ensures looks { Looks result (λ requests w. requests.items ≡ requests_of w)
        (H.state host.old) (H.state host.new) }
{
    let text = read_text(alloc, host)?;
    Ok(requests_in(alloc, text.as_slice())?)
}
