// A root in memory, and what is found at its paths.
use host_core::{Access, Content, Host, Node, RootPath};
use host_memory::MemoryHost;
use std::alloc::{AllocError, Global};
use std::str;

pub(crate) fn path_of(alloc: Global, text: &str) -> Result<RootPath, AllocError> {
    match RootPath::parse(alloc, text)? {
        Some(path) => Ok(path),
        None => Err(AllocError),
    }
}

fn node_of(alloc: Global, text: &str) -> Result<Node, AllocError> {
    if text == "/" {
        let access = Access::own(0o755);
        return Ok(Node::Dir { access });
    }
    let bytes = Content::from_slice(alloc, text.as_bytes())?;
    let access = Access::own(0o4755);
    Ok(Node::File { bytes, access })
}

// A root at which this stands: files by what they hold, and directories as `/`.
pub(crate) fn root_of(alloc: Global, held: &[(&str, &str)]) -> Result<MemoryHost, AllocError> {
    let mut host = MemoryHost::new(alloc)?;
    for (path, text) in held {
        host.place(&path_of(alloc, path)?, node_of(alloc, text)?)?;
    }
    Ok(host)
}

// What stands at a path: a file by what it holds, a directory as `/`, and nothing as the empty text.
pub(crate) fn text_at<H: Host>(
    alloc: Global,
    host: &mut H,
    path: &str,
) -> Result<String, AllocError> {
    match host.node(&path_of(alloc, path)?) {
        Ok(Some(Node::File { bytes, .. })) => {
            String::from_str(alloc, str::from_utf8(bytes.held()?).unwrap_or("no text"))
        }
        Ok(Some(Node::Dir { .. })) => String::from_str(alloc, "/"),
        Ok(Some(Node::Link { .. })) => String::from_str(alloc, "a link"),
        Ok(None) => Ok(String::new(alloc)),
        Err(_) => Err(AllocError),
    }
}

// The names in a directory, in order, each behind a space.
pub(crate) fn names_in<H: Host>(
    alloc: Global,
    host: &mut H,
    path: &str,
) -> Result<String, AllocError> {
    let Ok(listing) = host.list(&path_of(alloc, path)?) else {
        return Err(AllocError);
    };
    let mut names = Vec::new(alloc);
    for name in listing.names.as_slice() {
        names.push(String::from_str(alloc, name.as_str())?)?;
    }
    names.sort()?;
    let mut text = String::new(alloc);
    for name in &names {
        text.push_str(" ")?;
        text.push_str(name.as_str())?;
    }
    Ok(text)
}
