// A root and trees in memory, and in the modules below what is answered over them.
ghost use Rattle.std.specs.Prelude.{◌≡◌, ⊤, IsTrue, Some, codes, option_map};
ghost use Rattle.host_memory.specs.Memory.{memory_state};

mod abandoned_rows;
mod access_rows;
mod activation_rows;
mod adoption_rows;
mod architecture_rows;
mod configure_rows;
mod deconfiguring_rows;
mod displacing_rows;
mod diversion_rows;
mod install_rows;
mod memory_rows;
mod moved_conffile_rows;
mod name_rows;
mod override_rows;
mod query_rows;
mod rehearsal_rows;
mod removal_rows;
mod room_rows;
mod round_rows;
mod script_rows;
mod selection_rows;
mod shown_rows;
mod spelling_rows;
mod tree_rows;
mod trigger_cycle_rows;
mod trigger_rows;
mod twice_rows;
mod unpack_relation_rows;
mod upgrade_rows;
mod word_rows;

use super::{answer, expect, path_of, text_of};
use command_line::{Hosts, RootFault, ScriptStreams, TreeOpening, TreeOwners};
use host_core::{Access, Content, Host, HostFault, Node, Outcome, RootPath};
use host_memory::{Ending, Entry, MemoryHost, Planned};
use std::alloc::{AllocError, Global};
use std::process::Abort;
use std::test::Fail;
use texts::Text;

// A file of a tree: the word that names the tree, the path under it, and what stands there.
type TreeFile = (&'static str, &'static str, &'static str);

// A root that goes from one command to the next, and trees that are made each time they are opened.
#[derive(Drop)]
struct MemoryHosts {
    alloc: Global,
    root: Option<MemoryHost>,
    trees: &'static [TreeFile],
    faults: u64,
    // a script gives the words
    beside: bool,
}

fn file_with(alloc: Global, text: &str, access: Access) -> Result<Node, AllocError> {
    let bytes = Content::from_slice(alloc, text.as_bytes())?;
    Ok(Node::File { bytes, access })
}

fn file(alloc: Global, text: &str) -> Result<Node, AllocError> {
    file_with(alloc, text, Access::own(0o755))
}

// Sets what a file holds.
fn put(alloc: Global, host: &mut MemoryHost, path: &str, text: &str) -> Result<(), AllocError> {
    host.place(&path_of(alloc, path)?, file(alloc, text)?)?;
    Ok(())
}

// The files of the tree `user` belong to a user, those of any other to root; those of two trees lend its rights.
fn access_in(tree: &str) -> Access {
    match tree {
        "user" => Access {
            mode: 0o755,
            user: 1000,
            group: 1001,
        },
        "setuid" | "newer" => Access::own(0o4755),
        _ => Access::own(0o755),
    }
}

// The host of the tree that a word names.
fn tree_of(alloc: Global, files: &[TreeFile], tree: &str) -> Result<MemoryHost, AllocError> {
    let mut host = MemoryHost::new(alloc)?;
    for (name, path, text) in files {
        if *name == tree {
            let file = file_with(alloc, text, access_in(tree))?;
            host.place(&path_of(alloc, path)?, file)?;
        }
    }
    Ok(host)
}

// A call that makes the directory /made, tries to remove the status file and ends so.
fn planned(alloc: Global, outcome: Outcome) -> Result<Planned, AllocError> {
    let mut change = Vec::new(alloc);
    let path = RootPath::from_str(alloc, "/made")?;
    let access = Access::own(0o755);
    let node = Some(Node::Dir { access });
    change.push(Entry { path, node })?;
    let path = RootPath::from_str(alloc, "/var/lib/dpkg/status")?;
    change.push(Entry { path, node: None })?;
    let ending = Ending::Ended(outcome);
    Ok(Planned { ending, change })
}

// An empty root whose calls end as told, and then with status 0.
fn hosts(
    alloc: Global,
    trees: &'static [TreeFile],
    outcomes: &[Outcome],
) -> Result<MemoryHosts, AllocError> {
    let mut host = MemoryHost::new(alloc)?;
    for outcome in outcomes {
        host.plan(planned(alloc, *outcome)?)?;
    }
    Ok(MemoryHosts {
        alloc,
        root: Some(host),
        trees,
        faults: 0,
        beside: false,
    })
}

// What a file holds; nothing where none stands.
fn text_at(alloc: Global, host: &mut MemoryHost, path: &str) -> Result<String, AllocError> {
    match host.node(&path_of(alloc, path)?) {
        Ok(Some(Node::File { bytes, .. })) => String::from_str(alloc, text_of(bytes.held()?)),
        Ok(Some(_)) => String::from_str(alloc, "directory"),
        Ok(None) => Ok(String::new(alloc)),
        Err(_) => Err(AllocError),
    }
}

// Tells a directory by its names, each with a space before it.
fn told_of(alloc: Global, names: &[Text]) -> Result<String, AllocError> {
    let mut text = String::from_str(alloc, "directory:")?;
    add_names(names, &mut text)?;
    Ok(text)
}

fn names_at(alloc: Global, host: &mut MemoryHost, path: &str) -> Result<String, AllocError> {
    match host.list(&path_of(alloc, path)?) {
        Ok(listing) => told_of(alloc, listing.names.as_slice()),
        Err(_) => Err(AllocError),
    }
}

// What stands at a path: what a file holds, or the names in a directory.
fn shown_at(alloc: Global, host: &mut MemoryHost, path: &str) -> Result<String, AllocError> {
    match host.node(&path_of(alloc, path)?) {
        Ok(Some(Node::Dir { .. })) => names_at(alloc, host, path),
        Ok(_) => text_at(alloc, host, path),
        Err(_) => Err(AllocError),
    }
}

// Adds what a file holds, behind a bar.
fn add_text(
    alloc: Global,
    host: &mut MemoryHost,
    path: &str,
    text: &mut String,
) -> Result<(), AllocError> {
    text.push('|')?;
    text.push_str(text_at(alloc, host, path)?.as_str())
}

// The names in `info`, each with a space before it.
fn add_names(names: &[Text], text: &mut String) -> Result<(), AllocError> {
    for name in names {
        text.push(' ')?;
        text.push_str(name.as_str())?;
    }
    Ok(())
}

fn add_info(alloc: Global, host: &mut MemoryHost, text: &mut String) -> Result<(), AllocError> {
    let path = RootPath::from_str(alloc, "/var/lib/dpkg/info")?;
    match host.node(&path) {
        Ok(None) => return Ok(()),
        Ok(Some(_)) => {}
        Err(_) => return Err(AllocError),
    }
    match host.list(&path) {
        Ok(listing) => add_names(listing.names.as_slice(), text),
        Err(_) => Err(AllocError),
    }
}

// The names in `info`, and behind bars the status file, the list and the stored preinst of alpha, what stands where
// incoming scripts lie, what scripts wrote, and what the administrator did.
fn left_in(alloc: Global, host: &mut MemoryHost) -> Result<String, AllocError> {
    let mut text = String::new(alloc);
    add_info(alloc, host, &mut text)?;
    for path in LEFT {
        add_text(alloc, host, path, &mut text)?;
    }
    Ok(text)
}

const LEFT: &[&str] = &[
    "/var/lib/dpkg/status",
    "/var/lib/dpkg/info/alpha.list",
    "/var/lib/dpkg/info/alpha.preinst",
    "/var/lib/dpkg/tmp.ci",
    "/made",
    "/etc/motd",
];

impl MemoryHosts {
    fn has_root(&self) -> bool {
        self.root.is_some()
    }

    // What is left under the root. A list that is missing is that of the root alone.
    fn left(&mut self) -> Result<String, AllocError> {
        match &mut self.root {
            Some(host) => left_in(self.alloc, host),
            None => String::from_str(self.alloc, "the root wasn't given back"),
        }
    }

    // Writes a file as the administrator does: a path, a space and the text.
    fn write(&mut self, words: &str) -> Result<(), AllocError> {
        if let (Some(host), Some((path, text))) = (&mut self.root, words.split_once(' ')) {
            put(self.alloc, host, path, text)?;
        }
        Ok(())
    }

    // Makes a link as the administrator does: a path, a space and where it leads.
    fn link(&mut self, words: &str) -> Result<(), AllocError> {
        if let (Some(host), Some((path, target))) = (&mut self.root, words.split_once(' ')) {
            let target = Text::from_str(self.alloc, target)?;
            host.place(&path_of(self.alloc, path)?, Node::Link { target })?;
        }
        Ok(())
    }

    // Adds what stands at a path: what a file holds, or the names in a directory.
    fn read(&mut self, path: &str, text: &mut String) -> Result<(), AllocError> {
        if let Some(host) = &mut self.root {
            text.push_str(shown_at(self.alloc, host, path)?.as_str())?;
        }
        text.push('\n')
    }

    // Adds the answer to a line of words that a script gives, beside a command that has noted what it notes.
    fn script(&mut self, line: &str, text: &mut String) -> Result<(), AllocError> {
        self.beside = true;
        let answer = answer(self.alloc, self, line)?;
        self.beside = false;
        text.push_str(answer.as_str())
    }

    // Adds the answer to a line of words; one that begins with `write`, `link` or `read` is the administrator's, one with `script` a
    // script's.
    fn step(&mut self, line: &str, text: &mut String) -> Result<(), AllocError> {
        if let Some(words) = line.strip_prefix("write ") {
            return self.write(words);
        }
        if let Some(words) = line.strip_prefix("link ") {
            return self.link(words);
        }
        if let Some(path) = line.strip_prefix("read ") {
            return self.read(path, text);
        }
        if let Some(words) = line.strip_prefix("script ") {
            return self.script(words, text);
        }
        let answer = answer(self.alloc, self, line)?;
        text.push_str(answer.as_str())?;
        self.judge_notes(answer.as_str(), text)
    }

    // Adds the answers to lines of words.
    fn steps(&mut self, lines: &[&str], text: &mut String) -> Result<(), AllocError> {
        for line in lines {
            self.step(line, text)?;
        }
        Ok(())
    }

    // Adds the notes that stand behind a command which wasn't broken off: there are none.
    fn judge_notes(&mut self, answer: &str, text: &mut String) -> Result<(), AllocError> {
        let Some(host) = &mut self.root else {
            return Ok(());
        };
        let shown = shown_at(self.alloc, host, "/var/lib/dpkg/updates")?;
        let broken = answer.ends_with("|2\n") || answer.contains("broken abandoned\n");
        if !broken && !["", "directory:"].contains(&shown.as_str()) {
            text.push_str(shown.as_str())?;
            text.push('\n')?;
        }
        Ok(())
    }
}

// The answers to lines of words.
fn answers(
    alloc: Global,
    trees: &'static [TreeFile],
    outcomes: &[Outcome],
    files: &[&str],
    lines: &[&str],
) -> Result<String, AllocError> {
    let mut text = String::new(alloc);
    let mut hosts = hosts(alloc, trees, outcomes)?;
    hosts.steps(files, &mut text)?;
    hosts.steps(lines, &mut text)?;
    Ok(text)
}

// The answers to lines of words, and what is left.
fn told(
    alloc: Global,
    trees: &'static [TreeFile],
    outcomes: &[Outcome],
    lines: &[&str],
) -> Result<String, AllocError> {
    let mut text = String::new(alloc);
    let mut hosts = hosts(alloc, trees, outcomes)?;
    hosts.steps(lines, &mut text)?;
    text.push_str(hosts.left()?.as_str())?;
    Ok(text)
}

// Stops the test where the answers to lines of words, and what is left then, aren't the row's.
fn check(
    rt: &(impl Abort + AllocGlobal),
    trees: &'static [TreeFile],
    outcomes: &[Outcome],
    lines: &[&str],
    row: &str,
) -> Result<(), Fail> {
    expect(rt, told(rt.alloc(), trees, outcomes, lines), row)
}

// The answer over an empty root.
fn worded(alloc: Global, line: &str) -> Result<String, AllocError> {
    answer(alloc, &mut hosts(alloc, &[], &[])?, line)
}

// Nothing on standard output, the usage on standard error, and status 2.
fn is_usage(text: &str) -> bool {
    text.starts_with("|error: ") && text.contains("Usage: coizkerra") && text.ends_with("\n|2\n")
}

// Stops the test where a line of words isn't answered as a fault of usage.
fn check_usage(rt: &(impl Abort + AllocGlobal), line: &str) -> Result<(), Fail> {
    let answer = worded(rt.alloc(), line)?;
    assert!(rt; is_usage(answer.as_str()), "{line}");
    Ok(())
}

impl Hosts for MemoryHosts {
    type Opened = MemoryHost;

    ghost faults = { λ h. h.faults };

    // one root stands behind every word
    ghost root = { λ h _ state. option_map memory_state h.root ≡ Some state };

    // whatever stands in it, a tree holds what it tells
    ghost tree = { λ _ _ state. IsTrue state.honest };

    // the root is kept as it was given back
    ghost left = { λ h state. option_map memory_state h.root ≡ Some state };

    ghost seen = { λ _ _. ⊤ };

    ghost unopened = { λ old new. option_map memory_state new.root ≡ option_map memory_state old.root };

    // no other program has the root
    ghost locked = { λ _ _ _. ⊥ };

    ghost full = { λ _ word _. word ≡ codes "full.deb" };

    ghost beside = { λ h. h.beside };

    ghost below = { λ _. 0 };

    fn is_beside(&self) -> bool {
        self.beside
    }

    fn open_root(
        &mut self,
        _directory: &str,
        _streams: ScriptStreams,
        _wait: u32,
    ) -> Result<MemoryHost, RootFault> {
        match self.root.take() {
            Some(host) => Ok(host),
            None => Err(RootFault::Host(HostFault::NoMemory)),
        }
    }

    fn open_beside(&mut self, directory: &str, wait: u32) -> Result<MemoryHost, RootFault> {
        self.open_root(directory, ScriptStreams::Own, wait)
    }

    fn look_at_root(&mut self, _directory: &str) -> Result<MemoryHost, HostFault> {
        match self.root.take() {
            Some(host) => Ok(host),
            None => Err(HostFault::NoMemory),
        }
    }

    fn open_tree(&mut self, tree: &str, _owners: TreeOwners) -> Result<MemoryHost, TreeOpening> {
        if tree == "full.deb" {
            return Err(TreeOpening::NoRoom(path_of(self.alloc, "/var/lib/dpkg/tmp.trees")?));
        }
        Ok(tree_of(self.alloc, self.trees, tree)?)
    }

    fn close_root(&mut self, host: MemoryHost) {
        self.root = Some(host);
    }

    fn close_tree(&mut self, host: MemoryHost) {
        let _ = host;
    }
}
