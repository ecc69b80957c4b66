// A root in memory that begins as told, and the tree of alpha's version 2.0.
ghost use Rattle.std.specs.Prelude.{◌≡◌, ⊤, false, IsTrue, Some, option_map};
ghost use Rattle.host_memory.specs.Memory.{memory_state};

mod prediction;

use super::Package;
use crate::tables::SCRIPTS;
use command_line::{Hosts, RootFault, ScriptStreams, TreeOpening, TreeOwners, run_words};
use host_core::{Access, Content, Host, HostFault, Node, Outcome, RootPath};
use host_memory::{Ending, Entry, MemoryHost, Planned};
use std::alloc::{AllocError, Global};
use std::str;
use texts::Text;

// A file: its path, and what it holds.
type HeldFile = (&'static str, &'static str);

// What is in the tree of alpha's version 2.0 beside its scripts, the other fields of its record, its paths, and what it has at
// another package's path.
struct Tree {
    files: &'static [HeldFile],
    fields: &'static str,
    list: &'static str,
    taken: &'static str,
}

// Alpha and the other packages that are there, the scripts of alpha and of its tree, the tree, how a call fails with the words that tell it,
// and how many calls fail at most.
#[derive(Clone, Copy)]
struct Case {
    alpha: Package,
    others: &'static [Package],
    scripts: u8,
    tree: &'static Tree,
    failure: (Outcome, &'static str),
    most: usize,
}

// What is looked at in the end.
const PATHS: &[&str] = &[
    "/opt/g",
    "/usr",
    "/usr/bin",
    "/usr/bin/a",
    "/etc",
    "/etc/a.conf",
    "/etc/a.conf.dpkg-new",
    "/var/lib/dpkg/tmp.ci",
    "/var/lib/dpkg/info/alpha.preinst",
    "/var/lib/dpkg/info/alpha.postinst",
    "/var/lib/dpkg/info/alpha.prerm",
    "/var/lib/dpkg/info/alpha.postrm",
];

#[derive(Drop)]
struct Machine {
    alloc: Global,
    root: Option<MemoryHost>,
    case: Case,
    faults: u64,
}

fn path_of(alloc: Global, text: &str) -> Result<RootPath, AllocError> {
    match RootPath::parse(alloc, text)? {
        Some(path) => Ok(path),
        None => Err(AllocError),
    }
}

// Puts a file there that holds something.
fn put(alloc: Global, host: &mut MemoryHost, path: &str, text: &str) -> Result<(), AllocError> {
    if !text.is_empty() {
        let bytes = Content::from_slice(alloc, text.as_bytes())?;
        let access = Access::own(0o755);
        host.place(&path_of(alloc, path)?, Node::File { bytes, access })?;
    }
    Ok(())
}

// Puts the scripts there that a number stands for.
fn put_scripts(
    alloc: Global,
    host: &mut MemoryHost,
    before: &str,
    scripts: u8,
    text: &str,
) -> Result<(), AllocError> {
    for (script, name) in SCRIPTS {
        if scripts & *script != 0 {
            let path = format!(in alloc; "{before}{name}")?;
            put(alloc, host, path.as_str(), text)?;
        }
    }
    Ok(())
}

// Of alpha the scripts are told; another package has all.
fn stored(package: &Package, scripts: u8) -> u8 {
    match (package.state, package.name) {
        ("not-installed", _) => 0,
        ("config-files", "alpha") => scripts & 8,
        (_, "alpha") => scripts & 15,
        _ => 15,
    }
}

// Puts there what a package has, and adds its record.
fn put_package(
    alloc: Global,
    host: &mut MemoryHost,
    package: &Package,
    scripts: u8,
    status: &mut String,
) -> Result<(), AllocError> {
    if package.is_none() {
        return Ok(());
    }
    let name = package.name;
    let info = format!(in alloc; "/var/lib/dpkg/info/{name}.")?;
    put_scripts(alloc, host, info.as_str(), stored(package, scripts), "old")?;
    let list = format!(in alloc; "{info}list")?;
    put(alloc, host, list.as_str(), package.list)?;
    put(alloc, host, package.place, package.file)?;
    put(alloc, host, "/etc/a.conf", package.conffile)?;
    put(alloc, host, "/etc/a.conf.dpkg-new", package.fresh)?;
    status.push_str(package.paragraph(alloc)?.as_str())?;
    status.push('\n')
}

fn put_packages(alloc: Global, host: &mut MemoryHost, case: &Case) -> Result<(), AllocError> {
    let mut status = String::new(alloc);
    put_package(alloc, host, &case.alpha, case.scripts, &mut status)?;
    for package in case.others {
        put_package(alloc, host, package, case.scripts, &mut status)?;
    }
    put(alloc, host, "/var/lib/dpkg/status", status.as_str())?;
    put(alloc, host, "/etc/motd", "mine")
}

// A call that makes the directory /made, tries to remove the status file and ends so.
fn planned(alloc: Global, outcome: Outcome) -> Result<Planned, AllocError> {
    let mut change = Vec::new(alloc);
    let path = RootPath::from_str(alloc, "/made")?;
    let access = Access::own(0o755);
    let node = Some(Node::Dir { access });
    change.push(Entry { path, node })?;
    let path = RootPath::from_str(alloc, "/var/lib/dpkg/status")?;
    change.push(Entry { path, node: None })?;
    let ending = Ending::Ended(outcome);
    Ok(Planned { ending, change })
}

// The root of a case, whose calls end as told, and then with status 0.
fn make_machine(alloc: Global, case: &Case, failing: &[bool]) -> Result<Machine, AllocError> {
    let mut host = MemoryHost::new(alloc)?;
    put_packages(alloc, &mut host, case)?;
    let (failure, _) = case.failure;
    for fails in failing {
        let outcome = if *fails { failure } else { Outcome::Exit(0) };
        host.plan(planned(alloc, outcome)?)?;
    }
    Ok(Machine {
        alloc,
        root: Some(host),
        case: *case,
        faults: 0,
    })
}

fn text_of(bytes: &[u8]) -> &str {
    str::from_utf8(bytes).unwrap_or("bytes that are no text")
}

// Tells a directory by its names, each with a space before it.
fn told_of(alloc: Global, names: &[Text]) -> Result<String, AllocError> {
    let mut text = String::from_str(alloc, "directory:")?;
    for name in names {
        text.push(' ')?;
        text.push_str(name.as_str())?;
    }
    Ok(text)
}

// What a file holds, or the names in a directory; nothing where none stands.
fn text_at(alloc: Global, host: &mut MemoryHost, path: &str) -> Result<String, AllocError> {
    let path = path_of(alloc, path)?;
    match host.node(&path) {
        Ok(Some(Node::File { bytes, .. })) => String::from_str(alloc, text_of(bytes.held()?)),
        Ok(Some(_)) => match host.list(&path) {
            Ok(listing) => told_of(alloc, listing.names.as_slice()),
            Err(_) => Err(AllocError),
        },
        Ok(None) => Ok(String::new(alloc)),
        Err(_) => Err(AllocError),
    }
}

impl Machine {
    // Adds what the program answers to a line of words, the first of which is its name: its output, behind the first bar what
    // it writes to standard error, and behind the second its status.
    fn answer(&mut self, line: &str, text: &mut String) -> Result<(), AllocError> {
        let alloc = self.alloc;
        let mut words = Vec::new(alloc);
        for word in line.split(' ') {
            words.push(String::from_str(alloc, word)?)?;
        }
        let mut out = Vec::new(alloc);
        let mut err = Vec::new(alloc);
        let status = run_words(alloc, self, words.as_slice(), &mut out, &mut err);
        let out = text_of(out.as_slice());
        let err = text_of(err.as_slice());
        text.push_str(format!(in alloc; "{out}|{err}|{status}\n")?.as_str())
    }

    // Adds what is told of each package, and the list of alpha.
    fn view_packages(&mut self, text: &mut String) -> Result<(), AllocError> {
        self.answer("dpkg_cli status alpha", text)?;
        for package in self.case.others {
            let name = package.name;
            let line = format!(in self.alloc; "dpkg_cli status {name}")?;
            self.answer(line.as_str(), text)?;
        }
        self.answer("dpkg_cli listfiles alpha", text)
    }

    // Adds what is left: what is told of packages, and what stands at the paths, a line for each.
    fn view(&mut self, text: &mut String) -> Result<(), AllocError> {
        self.view_packages(text)?;
        for path in PATHS {
            if let Some(host) = &mut self.root {
                text.push_str(text_at(self.alloc, host, path)?.as_str())?;
            }
            text.push('\n')?;
        }
        Ok(())
    }
}

impl Hosts for Machine {
    type Opened = MemoryHost;

    ghost faults = { λ h. h.faults };

    // one root stands behind every word
    ghost root = { λ h _ state. option_map memory_state h.root ≡ Some state };

    // whatever stands in it, a tree holds what it tells
    ghost tree = { λ _ _ state. IsTrue state.honest };

    // the root is kept as it was given back
    ghost left = { λ h state. option_map memory_state h.root ≡ Some state };

    ghost seen = { λ _ _. ⊤ };

    ghost unopened = { λ old new. option_map memory_state new.root ≡ option_map memory_state old.root };

    // no other program has the root
    ghost locked = { λ _ _ _. ⊥ };

    // no word is one of an archive
    ghost full = { λ _ _ _. ⊥ };

    // no script gives a command
    ghost beside = { λ _. false };

    ghost below = { λ _. 0 };

    fn is_beside(&self) -> bool {
        false
    }

    fn open_root(
        &mut self,
        _directory: &str,
        _streams: ScriptStreams,
        _wait: u32,
    ) -> Result<MemoryHost, RootFault> {
        match self.root.take() {
            Some(host) => Ok(host),
            None => Err(RootFault::Host(HostFault::NoMemory)),
        }
    }

    fn open_beside(&mut self, directory: &str, wait: u32) -> Result<MemoryHost, RootFault> {
        self.open_root(directory, ScriptStreams::Own, wait)
    }

    fn look_at_root(&mut self, _directory: &str) -> Result<MemoryHost, HostFault> {
        match self.root.take() {
            Some(host) => Ok(host),
            None => Err(HostFault::NoMemory),
        }
    }

    fn open_tree(&mut self, _tree: &str, _owners: TreeOwners) -> Result<MemoryHost, TreeOpening> {
        let mut host = MemoryHost::new(self.alloc)?;
        for (path, text) in self.case.tree.files {
            put(self.alloc, &mut host, path, text)?;
        }
        put_scripts(
            self.alloc,
            &mut host,
            "/DEBIAN/",
            self.case.scripts / 16,
            "new",
        )?;
        Ok(host)
    }

    fn close_root(&mut self, host: MemoryHost) {
        self.root = Some(host);
    }

    fn close_tree(&mut self, host: MemoryHost) {
        let _ = host;
    }
}
