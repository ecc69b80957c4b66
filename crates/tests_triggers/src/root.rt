// A root in memory, by the files that stand in it.
use host_core::{Access, Content, Node, RootPath};
use host_memory::MemoryHost;
use std::alloc::{AllocError, Global};

// A path, and the lines of the file that stands there.
pub(crate) type Thing = (&'static str, &'static [&'static str]);

pub(crate) fn path_of(alloc: Global, text: &str) -> Result<RootPath, AllocError> {
    match RootPath::parse(alloc, text)? {
        Some(path) => Ok(path),
        None => Err(AllocError),
    }
}

fn file_of(alloc: Global, lines: &[&str]) -> Result<Node, AllocError> {
    let mut text = String::new(alloc);
    for line in lines {
        text.push_str(line)?;
        text.push('\n')?;
    }
    Ok(Node::File {
        bytes: Content::from_slice(alloc, text.as_str().as_bytes())?,
        access: Access::own(0o644),
    })
}

// A root in which these stand, with the directories above them.
pub(crate) fn root_of(alloc: Global, things: &[Thing]) -> Result<MemoryHost, AllocError> {
    let mut host = MemoryHost::new(alloc)?;
    for (path, lines) in things {
        if !host.place(&path_of(alloc, path)?, file_of(alloc, lines)?)? {
            return Err(AllocError);
        }
    }
    Ok(host)
}
