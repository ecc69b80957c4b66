// What is known of recorded packages: the architecture, as scripts are told it, the version and the state. It is taken from what
// the program reads and writes of records anyway, so that no file is read for it.
use std::alloc::{AllocError, Global};
use std::collections::BTreeMap;
use std::collections::btree_map::Keys;
use std::str::from_utf8;

/// Where memory is wanting for it of a package nothing is known.
#[derive(Drop)]
pub(crate) struct Records {
    alloc: Global,
    architectures: BTreeMap<String, String>,
    versions: BTreeMap<String, String>,
    /// Want, flag and state, with blanks between them.
    statuses: BTreeMap<String, String>,
    /// Whose record has `Essential`, with its value.
    essentials: BTreeMap<String, String>,
}

/// A record that is noted, or the control file of a tree.
#[derive(Clone, Copy)]
pub(crate) struct Noted<'a> {
    pub(crate) package: &'a str,
    pub(crate) architecture: &'a str,
    pub(crate) version: &'a str,
    pub(crate) want: &'a str,
    pub(crate) state: &'a str,
}

// The value of a field that begins a line.
fn value_in<'a>(line: &'a [u8], field: &[u8]) -> Option<&'a str> {
    Some(from_utf8(line.strip_prefix(field)?).ok()?.trim())
}

// The value of the first line of a paragraph that begins with this field.
fn value_of<'a>(paragraph: &'a [u8], field: &[u8]) -> Option<&'a str> {
    for line in paragraph.split(|b| *b == b'\n') {
        if let Some(value) = value_in(line, field) {
            return Some(value);
        }
    }
    None
}

// The state that stands at the end of a status.
fn state_of(status: &str) -> &str {
    match status.rsplit_once(' ') {
        Some((_, state)) => state,
        None => status,
    }
}

// What is wanted of a package, which stands at the beginning of its status.
fn want_of(status: &str) -> &str {
    match status.split_once(' ') {
        Some((want, _)) => want,
        None => "",
    }
}

/// A paragraph that has a package. What it doesn't say is empty.
pub(crate) fn noted_in(paragraph: &[u8]) -> Option<Noted<'_>> {
    let package = value_of(paragraph, b"Package:")?;
    let status = value_of(paragraph, b"Status:").unwrap_or("");
    Some(Noted {
        package,
        architecture: value_of(paragraph, b"Architecture:").unwrap_or(""),
        version: value_of(paragraph, b"Version:").unwrap_or(""),
        want: want_of(status),
        state: state_of(status),
    })
}

fn keep(
    alloc: Global,
    kept: &mut BTreeMap<String, String>,
    package: &str,
    value: &str,
) -> Result<(), AllocError> {
    let package = String::from_str(alloc, package)?;
    kept.insert(package, String::from_str(alloc, value)?)?;
    Ok(())
}

fn kept_of<'a>(kept: &'a BTreeMap<String, String>, package: &str) -> Option<&'a str> {
    match kept.get(package) {
        Some(value) => Some(value.as_str()),
        None => None,
    }
}

impl Records {
    pub(crate) fn new(alloc: Global) -> Records {
        Records {
            alloc,
            architectures: BTreeMap::new(alloc),
            versions: BTreeMap::new(alloc),
            statuses: BTreeMap::new(alloc),
            essentials: BTreeMap::new(alloc),
        }
    }

    /// Takes them from records, of which each begins with its name and is newer than those before it.
    pub(crate) fn learn(&mut self, records: &[u8]) {
        let mut package = "";
        for line in records.split(|b| *b == b'\n') {
            if let Some(name) = value_in(line, b"Package:") {
                package = name;
                self.forget(name);
            } else {
                let _ = self.learn_field(package, line);
            }
        }
    }

    fn forget(&mut self, package: &str) {
        self.architectures.remove(package);
        self.versions.remove(package);
        self.statuses.remove(package);
        self.essentials.remove(package);
    }

    fn learn_field(&mut self, package: &str, line: &[u8]) -> Result<(), AllocError> {
        let alloc = self.alloc;
        if let Some(name) = value_in(line, b"Architecture:") {
            return keep(alloc, &mut self.architectures, package, name);
        }
        if let Some(version) = value_in(line, b"Version:") {
            return keep(alloc, &mut self.versions, package, version);
        }
        if let Some(status) = value_in(line, b"Status:") {
            return keep(alloc, &mut self.statuses, package, status);
        }
        if let Some(value) = value_in(line, b"Essential:") {
            return keep(alloc, &mut self.essentials, package, value);
        }
        Ok(())
    }

    /// The architecture of a package, if its record has one.
    pub(crate) fn architecture_of(&self, package: &str) -> Option<&str> {
        kept_of(&self.architectures, package)
    }

    /// The version of a package, which is empty where none is known.
    pub(crate) fn version_of(&self, package: &str) -> &str {
        kept_of(&self.versions, package).unwrap_or("")
    }

    fn status_of(&self, package: &str) -> &str {
        kept_of(&self.statuses, package).unwrap_or("unknown ok not-installed")
    }

    /// The state of a package.
    pub(crate) fn state_of(&self, package: &str) -> &str {
        state_of(self.status_of(package))
    }

    /// What is wanted of it.
    pub(crate) fn want_of(&self, package: &str) -> &str {
        want_of(self.status_of(package))
    }

    /// Whether it has to be installed again.
    pub(crate) fn flag_of(&self, package: &str) -> &str {
        match self.status_of(package).split_once(' ') {
            Some((_, rest)) => want_of(rest),
            None => "",
        }
    }

    pub(crate) fn is_essential(&self, package: &str) -> bool {
        kept_of(&self.essentials, package) == Some("yes")
    }

    /// The packages that are known, in the order of their names.
    pub(crate) fn names(&self) -> Keys<'_, String, String> {
        self.statuses.keys()
    }
}
