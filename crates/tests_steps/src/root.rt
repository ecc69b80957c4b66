// A root in memory: what stands at its paths before a row, and what is found there.
ghost use Rattle.std.specs.Prelude.{◌≡◌, IfOk, true};
ghost use Rattle.host_core.specs.World.{is_file};

use host_core::{Access, Content, Host, Node, RootPath, ShipPath};
use host_memory::MemoryHost;
use std::alloc::{AllocError, Global};
use std::str;
use texts::Text;

// A path, and what stands there: a file by what it holds, behind a `!` if it lends its owner's rights, a directory as `/`, a
// link as `@` with its target, and the empty text where nothing stands.
pub(crate) type Thing = (&'static str, &'static str);

pub(crate) fn path_of(alloc: Global, text: &str) -> Result<RootPath, AllocError> {
    match RootPath::parse(alloc, text)? {
        Some(path) => Ok(path),
        None => Err(AllocError),
    }
}

pub(crate) fn ship_path(alloc: Global, text: &str) -> Result<ShipPath, AllocError> {
    match ShipPath::parse(alloc, text)? {
        Some(path) => Ok(path),
        None => Err(AllocError),
    }
}

pub(crate) fn file(alloc: Global, text: &str) -> Result<Node, AllocError>
    ensures { IfOk result (λ node. is_file node ≡ true) }
{
    let bytes = Content::from_slice(alloc, text.as_bytes())?;
    let access = Access::own(0o644);
    Ok(Node::File { bytes, access })
}

// A file that lends its owner's rights.
fn lending(alloc: Global, text: &str) -> Result<Node, AllocError> {
    let bytes = Content::from_slice(alloc, text.as_bytes())?;
    let access = Access::own(0o4755);
    Ok(Node::File { bytes, access })
}

pub(crate) fn directory() -> Node {
    let access = Access::own(0o755);
    Node::Dir { access }
}

pub(crate) fn link(alloc: Global, target: &str) -> Result<Node, AllocError> {
    let target = Text::from_str(alloc, target)?;
    Ok(Node::Link { target })
}

fn node_of(alloc: Global, text: &str) -> Result<Node, AllocError> {
    if text == "/" {
        return Ok(directory());
    }
    if let Some(target) = text.strip_prefix("@") {
        return link(alloc, target);
    }
    match text.strip_prefix("!") {
        Some(text) => lending(alloc, text),
        None => file(alloc, text),
    }
}

// A root at which this stands, and nothing else.
pub(crate) fn root_of(alloc: Global, things: &[Thing]) -> Result<MemoryHost, AllocError> {
    let mut host = MemoryHost::new(alloc)?;
    for (path, text) in things {
        host.place(&path_of(alloc, path)?, node_of(alloc, text)?)?;
    }
    Ok(host)
}

fn text_of(bytes: &[u8]) -> &str {
    str::from_utf8(bytes).unwrap_or("bytes that are no text")
}

fn filed(alloc: Global, text: &str, access: Access) -> Result<String, AllocError> {
    let mut filed = String::new(alloc);
    if access.mode & 0o6000 != 0 {
        filed.push_str("!")?;
    }
    filed.push_str(text)?;
    Ok(filed)
}

fn linked(alloc: Global, target: &str) -> Result<String, AllocError> {
    let mut text = String::from_str(alloc, "@")?;
    text.push_str(target)?;
    Ok(text)
}

// What stands at a path.
pub(crate) fn text_at(
    alloc: Global,
    host: &mut MemoryHost,
    path: &str,
) -> Result<String, AllocError> {
    match host.node(&path_of(alloc, path)?) {
        Ok(Some(Node::File { bytes, access })) => { filed(alloc, text_of(bytes.held()?), access) }
        Ok(Some(Node::Dir { .. })) => String::from_str(alloc, "/"),
        Ok(Some(Node::Link { target })) => linked(alloc, target.as_str()),
        Ok(None) => Ok(String::new(alloc)),
        Err(_) => Err(AllocError),
    }
}

// Adds a line for each path at which something else stands.
pub(crate) fn judge_things(
    alloc: Global,
    host: &mut MemoryHost,
    things: &[Thing],
    text: &mut String,
) -> Result<(), AllocError> {
    for (path, wanted) in things {
        let found = text_at(alloc, host, path)?;
        if found.as_str() != *wanted {
            text.push_str(format!(in alloc; "{path}: {found}\n")?.as_str())?;
        }
    }
    Ok(())
}
