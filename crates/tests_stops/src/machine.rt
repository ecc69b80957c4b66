// A root in memory that goes from one command to the next, and trees that are made each time they are opened.
ghost use Rattle.std.specs.Prelude.{◌≡◌, ⊤, false, IsTrue, Some, option_map};
ghost use Rattle.host_memory.specs.Memory.{memory_state};

use command_line::{Hosts, RootFault, ScriptStreams, TreeOpening, TreeOwners, run_words};
use host_core::{Access, Content, Host, HostFault, Node, RootPath};
use host_memory::{Ending, Entry, MemoryHost, Planned};
use std::alloc::{AllocError, Global};
use std::str;
use texts::Text;

mod breaking;

// A file under the root: its path, and what it holds; or a link, or a file that is closed to others, where the text begins so.
type RootFile = (&'static str, &'static str);

// A file of a tree: the word that names the tree, the path under it, and what stands there.
type TreeFile = (&'static str, &'static str, &'static str);

#[derive(Drop)]
struct Machine {
    alloc: Global,
    root: Option<MemoryHost>,
    trees: &'static [TreeFile],
    faults: u64,
}

fn path_of(alloc: Global, text: &str) -> Result<RootPath, AllocError> {
    match RootPath::parse(alloc, text)? {
        Some(path) => Ok(path),
        None => Err(AllocError),
    }
}

fn file(alloc: Global, text: &str, mode: u16) -> Result<Node, AllocError> {
    let bytes = Content::from_slice(alloc, text.as_bytes())?;
    let access = Access::own(mode);
    Ok(Node::File { bytes, access })
}

const LINK: &str = "-> ";

// So begins the text of a file that its owner alone may use.
const CLOSED: &str = "700 ";

const CLOSED_MODE: u16 = 0o700;

fn file_of(alloc: Global, text: &str) -> Result<Node, AllocError> {
    match text.strip_prefix(CLOSED) {
        Some(text) => file(alloc, text, CLOSED_MODE),
        None => file(alloc, text, 0o755),
    }
}

fn node_of(alloc: Global, text: &str) -> Result<Node, AllocError> {
    match text.strip_prefix(LINK) {
        Some(target) => Ok(Node::Link {
            target: Text::from_str(alloc, target)?,
        }),
        None => file_of(alloc, text),
    }
}

fn put(alloc: Global, host: &mut MemoryHost, path: &str, text: &str) -> Result<(), AllocError> {
    host.place(&path_of(alloc, path)?, node_of(alloc, text)?)?;
    Ok(())
}

// The host of the tree that a word names.
fn tree_of(alloc: Global, files: &[TreeFile], tree: &str) -> Result<MemoryHost, AllocError> {
    let mut host = MemoryHost::new(alloc)?;
    for (name, path, text) in files {
        if *name == tree {
            put(alloc, &mut host, path, text)?;
        }
    }
    Ok(host)
}

// A call that makes the directory /made, tries to remove the status file and ends so.
fn planned(alloc: Global, ending: Ending) -> Result<Planned, AllocError> {
    let mut change = Vec::new(alloc);
    let path = RootPath::from_str(alloc, "/made")?;
    let access = Access::own(0o755);
    let node = Some(Node::Dir { access });
    change.push(Entry { path, node })?;
    let path = RootPath::from_str(alloc, "/var/lib/dpkg/status")?;
    change.push(Entry { path, node: None })?;
    Ok(Planned { ending, change })
}

// A root that holds these files, and nothing else.
fn root_with(alloc: Global, files: &[RootFile]) -> Result<MemoryHost, AllocError> {
    let mut host = MemoryHost::new(alloc)?;
    for (path, text) in files {
        put(alloc, &mut host, path, text)?;
    }
    Ok(host)
}

fn root_of(
    alloc: Global,
    files: &[RootFile],
    endings: &[Ending],
) -> Result<MemoryHost, AllocError> {
    let mut host = root_with(alloc, files)?;
    for ending in endings {
        host.plan(planned(alloc, *ending)?)?;
    }
    Ok(host)
}

// A root with these files whose calls end as told, and then with status 0.
fn make_machine(
    alloc: Global,
    files: &[RootFile],
    trees: &'static [TreeFile],
    endings: &[Ending],
) -> Result<Machine, AllocError> {
    Ok(Machine {
        alloc,
        root: Some(root_of(alloc, files, endings)?),
        trees,
        faults: 0,
    })
}

fn words_of(alloc: Global, line: &str) -> Result<Vec<String>, AllocError> {
    let mut words = Vec::new(alloc);
    for word in line.split(' ') {
        words.push(String::from_str(alloc, word)?)?;
    }
    Ok(words)
}

fn text_of(bytes: &[u8]) -> &str {
    str::from_utf8(bytes).unwrap_or("bytes that are no text")
}

// Tells a directory by its names, each with a space before it.
fn told_of(alloc: Global, names: &[Text]) -> Result<String, AllocError> {
    let mut text = String::from_str(alloc, "directory:")?;
    for name in names {
        text.push(' ')?;
        text.push_str(name.as_str())?;
    }
    Ok(text)
}

fn names_at(alloc: Global, host: &mut MemoryHost, path: &str) -> Result<String, AllocError> {
    match host.list(&path_of(alloc, path)?) {
        Ok(listing) => told_of(alloc, listing.names.as_slice()),
        Err(_) => Err(AllocError),
    }
}

fn text_of_file(alloc: Global, bytes: &[u8], mode: u16) -> Result<String, AllocError> {
    let text = text_of(bytes);
    if mode == CLOSED_MODE {
        return format!(in alloc; "{CLOSED}{text}");
    }
    String::from_str(alloc, text)
}

// What a file holds, or the names in a directory; nothing where none stands.
fn text_at(alloc: Global, host: &mut MemoryHost, path: &str) -> Result<String, AllocError> {
    match host.node(&path_of(alloc, path)?) {
        Ok(Some(Node::File { bytes, access })) => {
            text_of_file(alloc, bytes.held()?, access.mode)
        }
        Ok(Some(Node::Dir { .. })) => names_at(alloc, host, path),
        Ok(Some(Node::Link { .. })) => String::from_str(alloc, "link"),
        Ok(None) => Ok(String::new(alloc)),
        Err(_) => Err(AllocError),
    }
}

// More nodes than stand under the root of any row.
const NODES: usize = 1000;

fn child_of(alloc: Global, path: &RootPath, name: &str) -> Result<RootPath, AllocError> {
    let above = match path.as_str() {
        "/" => "",
        above => above,
    };
    path_of(alloc, format!(in alloc; "{above}/{name}")?.as_str())
}

// Adds the paths of what is in a directory.
fn push_children(
    alloc: Global,
    host: &mut MemoryHost,
    path: &RootPath,
    rest: &mut Vec<RootPath>,
) -> Result<(), AllocError> {
    let listing = match host.list(path) {
        Ok(listing) => listing,
        Err(_) => return Err(AllocError),
    };
    for name in listing.names.as_slice() {
        rest.push(child_of(alloc, path, name.as_str())?)?;
    }
    Ok(())
}

fn copy_at(from: &mut MemoryHost, to: &mut MemoryHost, path: &RootPath) -> Result<(), AllocError> {
    match from.node(path) {
        Ok(Some(node)) => {
            to.place(path, node)?;
            Ok(())
        }
        _ => Err(AllocError),
    }
}

// A host that holds the same nodes, and of which nothing else is planned or told.
fn copied(alloc: Global, from: &mut MemoryHost) -> Result<MemoryHost, AllocError> {
    let mut to = MemoryHost::new(alloc)?;
    let mut rest = Vec::new(alloc);
    push_children(alloc, from, &path_of(alloc, "/")?, &mut rest)?;
    for _ in 0..NODES {
        let Some(path) = rest.pop() else {
            return Ok(to);
        };
        copy_at(from, &mut to, &path)?;
        push_children(alloc, from, &path, &mut rest)?;
    }
    Err(AllocError)
}

impl Machine {
    // What the program answers to a line of words, the first of which is its name: its output, behind the first bar what
    // it writes to standard error, and behind the second its status.
    fn answer(&mut self, line: &str) -> Result<String, AllocError> {
        let alloc = self.alloc;
        let words = words_of(alloc, line)?;
        let mut out = Vec::new(alloc);
        let mut err = Vec::new(alloc);
        let status = run_words(alloc, self, words.as_slice(), &mut out, &mut err);
        let out = text_of(out.as_slice());
        let err = text_of(err.as_slice());
        format!(in alloc; "{out}|{err}|{status}\n")
    }

    // What a file under the root holds, or the names in a directory.
    fn text_at(&mut self, path: &str) -> Result<String, AllocError> {
        match &mut self.root {
            Some(host) => text_at(self.alloc, host, path),
            None => String::from_str(self.alloc, "the root wasn't given back"),
        }
    }

    // Calls end with status 0 from now on, whatever was planned of them.
    fn forget_plans(&mut self) -> Result<(), AllocError> {
        if let Some(mut host) = self.root.take() {
            self.root = Some(copied(self.alloc, &mut host)?);
        }
        Ok(())
    }
}

impl Hosts for Machine {
    type Opened = MemoryHost;

    ghost faults = { λ h. h.faults };

    // one root stands behind every word
    ghost root = { λ h _ state. option_map memory_state h.root ≡ Some state };

    // whatever stands in it, a tree holds what it tells
    ghost tree = { λ _ _ state. IsTrue state.honest };

    // the root is kept as it was given back
    ghost left = { λ h state. option_map memory_state h.root ≡ Some state };

    ghost seen = { λ _ _. ⊤ };

    ghost unopened = { λ old new. option_map memory_state new.root ≡ option_map memory_state old.root };

    // no other program has the root
    ghost locked = { λ _ _ _. ⊥ };

    // no word is one of an archive
    ghost full = { λ _ _ _. ⊥ };

    // no script gives a command
    ghost beside = { λ _. false };

    ghost below = { λ _. 0 };

    fn is_beside(&self) -> bool {
        false
    }

    fn open_root(
        &mut self,
        _directory: &str,
        _streams: ScriptStreams,
        _wait: u32,
    ) -> Result<MemoryHost, RootFault> {
        match self.root.take() {
            Some(host) => Ok(host),
            None => Err(RootFault::Host(HostFault::NoMemory)),
        }
    }

    fn open_beside(&mut self, directory: &str, wait: u32) -> Result<MemoryHost, RootFault> {
        self.open_root(directory, ScriptStreams::Own, wait)
    }

    fn look_at_root(&mut self, _directory: &str) -> Result<MemoryHost, HostFault> {
        match self.root.take() {
            Some(host) => Ok(host),
            None => Err(HostFault::NoMemory),
        }
    }

    fn open_tree(&mut self, tree: &str, _owners: TreeOwners) -> Result<MemoryHost, TreeOpening> {
        Ok(tree_of(self.alloc, self.trees, tree)?)
    }

    fn close_root(&mut self, host: MemoryHost) {
        self.root = Some(host);
    }

    fn close_tree(&mut self, host: MemoryHost) {
        let _ = host;
    }
}
