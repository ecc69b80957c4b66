// What is recorded under a root, before a command opens it: for dpkg's words that choose by it what the command is to do.
use crate::records::Records;
use std::fs::{self, DirEntry};
use std::io::{self, ErrorKind};
use texts::{Text, Texts};

fn is_note(name: &str) -> bool {
    !name.is_empty() && name.as_bytes().iter().all(u8::is_ascii_digit)
}

// Learns what a file has, which may be missing.
fn learn_file(rt: &HostRuntime, records: &mut Records, place: &str) -> io::Result<()> {
    match fs::read(rt, place) {
        Ok(bytes) => {
            records.learn(bytes.as_slice());
            Ok(())
        }
        Err(error) if error.kind() == ErrorKind::NotFound => Ok(()),
        Err(error) => Err(error),
    }
}

// The names of the notes, in their order.
fn notes_in(rt: &HostRuntime, directory: &str) -> io::Result<Vec<String>> {
    let mut names = Vec::new(rt.alloc());
    let entries = match fs::read_dir(rt, directory) {
        Ok(entries) => entries,
        Err(error) if error.kind() == ErrorKind::NotFound => return Ok(names),
        Err(error) => return Err(error),
    };
    for entry in entries {
        let entry: DirEntry = entry?;
        if is_note(entry.file_name()) {
            names.push(String::from_str(rt.alloc(), entry.file_name())?)?;
        }
    }
    names.sort_unstable();
    Ok(names)
}

/// The records of the status file, and behind them the notes.
pub(crate) fn recorded(rt: &HostRuntime, root: &str) -> io::Result<Records> {
    let front = root.trim_end_matches('/');
    let mut records = Records::new(rt.alloc());
    let status = format!(in rt.alloc(); "{front}/var/lib/dpkg/status")?;
    learn_file(rt, &mut records, status.as_str())?;
    let updates = format!(in rt.alloc(); "{front}/var/lib/dpkg/updates")?;
    let names = notes_in(rt, updates.as_str())?;
    for name in names.as_slice() {
        let (directory, name) = (updates.as_str(), name.as_str());
        let place = format!(in rt.alloc(); "{directory}/{name}")?;
        learn_file(rt, &mut records, place.as_str())?;
    }
    Ok(records)
}

// Something is wanted of a package that is there, and may go.
fn is_cleared(records: &Records, name: &str) -> bool {
    records.want_of(name) != "unknown"
        && records.state_of(name) != "not-installed"
        && !records.is_essential(name)
}

/// For each package that isn't essential, and of which something is wanted, that it is to go: as `select` takes it.
pub(crate) fn cleared(rt: &HostRuntime, root: &str) -> io::Result<Texts> {
    let records = recorded(rt, root)?;
    let mut selections = Texts::new(rt.alloc());
    for name in records.names() {
        let name = name.as_str();
        if is_cleared(&records, name) {
            let selection = format!(in rt.alloc(); "{name}=deinstall")?;
            selections.push(Text::new(selection))?;
        }
    }
    Ok(selections)
}
