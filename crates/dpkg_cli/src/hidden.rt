// What filters hide goes out of the tree that an archive was unpacked into, before that tree is read: so it is neither written nor
// listed. A directory goes where nothing is left in it.
use crate::gathering::names_in;
use path_filters::{Filter, excludes_any, hides};
use std::alloc::{AllocError, Global};
use std::fs;
use std::io::{self, Error, ErrorKind};
use texts::{Text, Texts};

// How many directories are gone through.
const MOST: usize = 1_048_576;

// What the tree of an archive has beside the package's own files.
const CONTROL: &str = "/DEBIAN";

/// A tree that is gone through.
#[derive(Drop)]
struct Sifting<'a> {
    rt: HostRuntime,
    filters: &'a [Filter],
    tree: String,
    /// The directories whose names are still to be looked at.
    left: Vec<String>,
    /// The directories that are hidden, each behind those above it.
    hidden: Texts,
    /// The paths of the other nodes, which went.
    gone: Texts,
}

impl<'a> Sifting<'a> {
    fn place_of(&self, path: &str) -> io::Result<String> {
        Ok(format!(in self.rt.alloc(); "{}{path}", self.tree.as_str())?)
    }

    fn look_at_directory(&mut self, path: String, is_hidden: bool) -> io::Result<()> {
        if is_hidden {
            let hidden = Text::from_str(self.rt.alloc(), path.as_str())?;
            self.hidden.push(hidden)?;
        }
        Ok(self.left.push(path)?)
    }

    // A link isn't followed.
    fn look_at(&mut self, path: String) -> io::Result<()> {
        let place = self.place_of(path.as_str())?;
        let node = fs::symlink_metadata(&self.rt, place.as_str())?;
        let passes = node.is_dir() || node.is_symlink();
        let bytes = path.as_str().as_bytes();
        let is_hidden = hides(self.rt.alloc(), self.filters, bytes, passes)?;
        if node.is_dir() {
            return self.look_at_directory(path, is_hidden);
        }
        if is_hidden {
            fs::remove_file(&self.rt, place.as_str())?;
            self.gone.push(Text::new(path))?;
        }
        Ok(())
    }

    fn look_into(&mut self, directory: &str) -> io::Result<()> {
        let place = self.place_of(directory)?;
        let names = names_in(&self.rt, place.as_str())?;
        for name in names.as_slice() {
            let path = format!(in self.rt.alloc(); "{directory}/{}", name.as_str())?;
            if path.as_str() != CONTROL {
                self.look_at(path)?;
            }
        }
        Ok(())
    }

    fn go_through(&mut self) -> io::Result<()> {
        for _ in 0..MOST {
            match self.left.pop() {
                Some(directory) => self.look_into(directory.as_str())?,
                None => return Ok(()),
            }
        }
        Err(Error::new(ErrorKind::FileTooLarge, "more than 1,048,576 directories"))
    }

    // Takes the hidden directories away in which nothing is left, those below others first.
    fn drop_empty(&self) -> io::Result<()> {
        for path in self.hidden.as_slice().iter().rev() {
            let place = self.place_of(path.as_str())?;
            let names = names_in(&self.rt, place.as_str())?;
            if names.as_slice().is_empty() {
                fs::remove_dir(&self.rt, place.as_str())?;
            }
        }
        Ok(())
    }
}

// Whether a line is of a path. White space at its end doesn't count.
fn is_of(line: &[u8], path: &[u8]) -> bool {
    match line.strip_prefix(path) {
        Some(rest) => rest.iter().all(u8::is_ascii_whitespace),
        None => false,
    }
}

fn is_gone(line: &[u8], gone: &[Text]) -> bool {
    gone.iter()
        .any(|text| is_of(line, text.as_str().as_bytes()))
}

// The lines of a list of conffiles whose paths are still there.
fn lines_left(alloc: Global, text: &[u8], gone: &[Text]) -> Result<Vec<u8>, AllocError> {
    let mut left = Vec::new(alloc);
    for line in text.split_inclusive(|b| *b == b'\n') {
        if !is_gone(line, gone) {
            left.extend_from_slice(line)?;
        }
    }
    Ok(left)
}

fn is_plain_file(rt: &HostRuntime, place: &str) -> bool {
    match fs::symlink_metadata(rt, place) {
        Ok(found) => found.is_file(),
        Err(_) => false,
    }
}

// Brings the list of conffiles to what is left.
fn list_conffiles(rt: &HostRuntime, tree: &str, gone: &[Text]) -> io::Result<()> {
    let place = format!(in rt.alloc(); "{tree}{CONTROL}/conffiles")?;
    if !is_plain_file(rt, place.as_str()) {
        return Ok(());
    }
    let text = fs::read(rt, place.as_str())?;
    let left = lines_left(rt.alloc(), text.as_slice(), gone)?;
    if left.len() == text.len() {
        return Ok(());
    }
    if left.as_slice().is_empty() {
        return fs::remove_file(rt, place.as_str());
    }
    fs::write(rt, place.as_str(), left.as_slice())
}

/// Takes out of an unpacked tree what the filters hide, and of its conffiles those that went.
pub(crate) fn take_out_hidden(rt: &HostRuntime, filters: &[Filter], tree: &str) -> io::Result<()> {
    if !excludes_any(filters) {
        return Ok(());
    }
    let mut sifting = Sifting {
        rt: *rt,
        filters,
        tree: String::from_str(rt.alloc(), tree)?,
        left: Vec::new(rt.alloc()),
        hidden: Texts::new(rt.alloc()),
        gone: Texts::new(rt.alloc()),
    };
    sifting.left.push(String::new(rt.alloc()))?;
    sifting.go_through()?;
    sifting.drop_empty()?;
    list_conffiles(rt, tree, sifting.gone.as_slice())
}
