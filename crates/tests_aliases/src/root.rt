// A root in memory, by what stands at its paths.
use host_core::{Access, Content, Node, RootPath};
use host_memory::MemoryHost;
use std::alloc::{AllocError, Global};
use texts::Text;

// A path, and what stands there: a directory as `/`, a link as `@` with its text, a file by what it holds.
pub(crate) type Thing = (&'static str, &'static str);

pub(crate) fn path_of(alloc: Global, text: &str) -> Result<RootPath, AllocError> {
    match RootPath::parse(alloc, text)? {
        Some(path) => Ok(path),
        None => Err(AllocError),
    }
}

fn node_of(alloc: Global, text: &str) -> Result<Node, AllocError> {
    if text == "/" {
        return Ok(Node::Dir {
            access: Access::own(0o755),
        });
    }
    if let Some(target) = text.strip_prefix("@") {
        return Ok(Node::Link {
            target: Text::from_str(alloc, target)?,
        });
    }
    Ok(Node::File {
        bytes: Content::from_slice(alloc, text.as_bytes())?,
        access: Access::own(0o644),
    })
}

// A root at which this stands, with the directories above it.
pub(crate) fn root_of(alloc: Global, things: &[Thing]) -> Result<MemoryHost, AllocError> {
    let mut host = MemoryHost::new(alloc)?;
    for (path, text) in things {
        if !host.place(&path_of(alloc, path)?, node_of(alloc, text)?)? {
            return Err(AllocError);
        }
    }
    Ok(host)
}
