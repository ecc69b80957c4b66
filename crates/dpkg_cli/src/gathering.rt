// Archives below directories, for dpkg's `--recursive`.
use std::alloc::Global;
use std::fs;
use std::fs::DirEntry;
use std::io::{self, Error, ErrorKind};
use texts::{Text, Texts};

// How many nodes are looked at.
const MOST: usize = 1_048_576;

/// The names in a directory, in their order.
pub(crate) fn names_in(rt: &HostRuntime, directory: &str) -> io::Result<Vec<String>> {
    let mut names = Vec::new(rt.alloc());
    for entry in fs::read_dir(rt, directory)? {
        let entry: DirEntry = entry?;
        names.push(String::from_str(rt.alloc(), entry.file_name())?)?;
    }
    names.sort_unstable();
    Ok(names)
}

// Adds what stands in a directory to the places that are to be looked at, the first of its names last.
fn push_entries(rt: &HostRuntime, directory: &str, places: &mut Vec<String>) -> io::Result<()> {
    let names = names_in(rt, directory)?;
    for name in names.as_slice().iter().rev() {
        let name = name.as_str();
        places.push(format!(in rt.alloc(); "{directory}/{name}")?)?;
    }
    Ok(())
}

fn is_archive(place: &str) -> bool {
    place.ends_with(".deb")
}

// Adds a place that is an archive to those that were found, and what stands in it, if it is a directory, to the others.
fn look_at(
    rt: &HostRuntime,
    place: &str,
    places: &mut Vec<String>,
    found: &mut Texts,
) -> io::Result<()> {
    let node = fs::metadata(rt, place)?;
    if node.is_dir() {
        return push_entries(rt, place, places);
    }
    if node.is_file() && is_archive(place) {
        found.push(Text::from_str(rt.alloc(), place)?)?;
    }
    Ok(())
}

// The archives below a directory, in the order of names, behind those found before.
fn gather(rt: &HostRuntime, directory: &str, found: &mut Texts) -> io::Result<()> {
    let mut places = Vec::new(rt.alloc());
    places.push(String::from_str(rt.alloc(), directory)?)?;
    for _ in 0..MOST {
        match places.pop() {
            Some(place) => look_at(rt, place.as_str(), &mut places, found)?,
            None => return Ok(()),
        }
    }
    Err(Error::new(ErrorKind::FileTooLarge, "more than 1,048,576 files"))
}

/// These files themselves.
pub(crate) fn copies_of(rt: &HostRuntime, files: &[Text]) -> io::Result<Texts> {
    let mut copies = Texts::new(rt.alloc());
    for file in files {
        copies.push(file.copy()?)?;
    }
    Ok(copies)
}

/// The archives (`*.deb`, as dpkg has it) below these directories, each directory's in the order of names. Links are followed.
pub(crate) fn archives_below(rt: &HostRuntime, directories: &[Text]) -> io::Result<Texts> {
    let mut found = Texts::new(rt.alloc());
    for directory in directories {
        gather(rt, directory.as_str(), &mut found)?;
    }
    Ok(found)
}
