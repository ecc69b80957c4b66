// The files of dpkg's options (dpkg.cfg(5)), which stand before those of the command line.
use crate::gathering::names_in;
use dpkg_words::{OwnWords, options_in, with_options};
use std::alloc::AllocError;
use std::io::{Error, ErrorKind};
use std::{env, fs, io};
use texts::{Text, Texts};

const DIRECTORY: &str = "/etc/dpkg/dpkg.cfg.d";

const FILE: &str = "/etc/dpkg/dpkg.cfg";

// Tells a person of a file or directory that can't be read; where nothing stands there is nothing to tell.
fn tell(rt: &HostRuntime, place: &str, error: &Error) {
    if error.kind() != ErrorKind::NotFound {
        let _ = eprintln!(rt; "warning: {place}: {error}");
    }
}

// A name of a file that is read: letters, digits, `_` and `-`.
fn is_read(name: &str) -> bool {
    name.bytes()
        .all(|b| b.is_ascii_alphanumeric() || b == b'_' || b == b'-')
}

fn push_all(options: &mut Texts, more: &[Text]) -> Result<(), AllocError> {
    for option in more {
        options.push(option.copy()?)?;
    }
    Ok(())
}

// Adds the options of a file, if it can be read.
fn push_options(rt: &HostRuntime, place: &str, options: &mut Texts) -> Result<(), AllocError> {
    match fs::read_to_string(rt, place) {
        Ok(text) => {
            let more = options_in(rt.alloc(), text.as_str())?;
            push_all(options, more.as_slice())
        }
        Err(error) => {
            tell(rt, place, &error);
            Ok(())
        }
    }
}

// The names of the files in the directory of options.
fn names_of(rt: &HostRuntime) -> Vec<String> {
    match names_in(rt, DIRECTORY) {
        Ok(names) => names,
        Err(error) => {
            tell(rt, DIRECTORY, &error);
            Vec::new(rt.alloc())
        }
    }
}

fn push_from_directory(rt: &HostRuntime, options: &mut Texts) -> Result<(), AllocError> {
    let names = names_of(rt);
    for name in names.as_slice() {
        let name = name.as_str();
        if is_read(name) {
            let place = format!(in rt.alloc(); "{DIRECTORY}/{name}")?;
            push_options(rt, place.as_str(), options)?;
        }
    }
    Ok(())
}

fn push_from_home(rt: &HostRuntime, options: &mut Texts) -> Result<(), AllocError> {
    let Ok(home) = env::var(rt, "HOME") else {
        return Ok(());
    };
    let home = home.as_str();
    let place = format!(in rt.alloc(); "{home}/.dpkg.cfg")?;
    push_options(rt, place.as_str(), options)
}

/// dpkg's words with the options of its files before them, behind the program's name: the machine's, then the user's.
pub(crate) fn configured(rt: &HostRuntime, words: &[String]) -> Result<OwnWords, AllocError> {
    let mut options = Texts::new(rt.alloc());
    push_from_directory(rt, &mut options)?;
    push_options(rt, FILE, &mut options)?;
    push_from_home(rt, &mut options)?;
    with_options(rt.alloc(), words, options.as_slice())
}
