// The mask under which scripts make files. The program has no call that sets it, so it starts itself once more below a shell
// that does.
use dpkg_words::speaks_dpkg;
use std::os::fd::AsFd;
use std::process::{Child, Command, Stdio};
use std::{env, fs, io};

const MISNAMED: &str = "the file of the program has one of dpkg's names";

// what scripts are to have, as the system tells it
const WANTED: &str = "0022";

const SHELL: &str = "/bin/sh";

// That the mask was set, so that the program starts itself no more than once.
const MARK: &str = "COIZKERRA_UMASK_SET";

/// How the words are carried out so that scripts have the mask.
#[derive(Drop)]
pub(crate) enum Masked {
    /// by this program
    Here,
    /// by another one, which ended with this status; a signal gives none
    There(Option<i32>),
}

// The value behind a word at the beginning of a line.
fn value_in<'a>(status: &'a str, word: &str) -> Option<&'a str> {
    for line in status.lines() {
        if let Some(value) = line.strip_prefix(word) {
            return Some(value.trim());
        }
    }
    None
}

// What the system tells of this program behind a word.
fn told(rt: &HostRuntime, word: &str) -> Option<String> {
    let status = fs::read_to_string(rt, "/proc/self/status").ok()?;
    String::from_str(rt.alloc(), value_in(status.as_str(), word)?).ok()
}

// The mask, in octal digits, where the system tells it.
fn mask_of(rt: &HostRuntime) -> Option<String> {
    told(rt, "Umask:")
}

fn is_marked(rt: &HostRuntime) -> bool {
    env::var(rt, MARK).is_ok()
}

/// The number of the program that started this one anew for the mask, if one did: it has the descriptors that this one lacks.
pub(crate) fn parent_of(rt: &HostRuntime) -> Option<String> {
    if !is_marked(rt) {
        return None;
    }
    told(rt, "PPid:")
}

fn copy_of<S: AsFd>(stream: &S) -> io::Result<Stdio> {
    Ok(Stdio::from(stream.as_fd().try_clone_to_owned()?))
}

// Whether the words are to be dpkg's for the program that is started by this path, as they are for this one.
fn is_dpkg_still(program: &str, given: &[String]) -> io::Result<bool> {
    let is_dpkg = speaks_dpkg(program);
    match given.first() {
        Some(name) if is_dpkg && !speaks_dpkg(name.as_str()) => Err(io::Error::other(MISNAMED)),
        _ => Ok(is_dpkg),
    }
}

// The shell that sets the mask and becomes this program, which is given the same words but for its name: by its path it has
// another, so that dpkg's words are given as they were or in the program's own.
fn masking(rt: &HostRuntime, given: &[String], own: &[String]) -> io::Result<Command> {
    let program = env::current_exe(rt)?;
    let words = if is_dpkg_still(program.as_str(), given)? {
        given
    } else {
        own
    };
    let mut command = Command::new(rt.alloc(), SHELL)?;
    command.arg("-c")?;
    command.arg("umask 022; exec \"$@\"")?;
    command.arg("coizkerra")?;
    command.arg(program.as_str())?;
    for word in words.iter().skip(1) {
        command.arg(word.as_str())?;
    }
    command.env(MARK, "1")?;
    Ok(command)
}

// The other program has this one's streams, copied, so that it has also those that were missing.
fn start(rt: &HostRuntime, given: &[String], own: &[String]) -> io::Result<Child> {
    let mut command = masking(rt, given, own)?;
    command.stdin(copy_of(&rt.stdin())?);
    command.stdout(copy_of(&rt.stdout())?);
    command.stderr(copy_of(&rt.stderr())?);
    command.spawn(rt)
}

// With which status it ended, if it has one.
fn status_of(mut child: Child) -> Option<i32> {
    match child.wait() {
        Ok(status) => status.code(),
        Err(_) => None,
    }
}

// Tells a person which mask scripts will have.
fn tell(rt: &HostRuntime, mask: &Option<String>) {
    let mask = match mask {
        Some(mask) => mask.as_str(),
        None => "that isn't known",
    };
    let _ = eprintln!(rt; "scripts will have a umask of {mask}, not {WANTED}");
}

fn is_wanted(mask: &Option<String>) -> bool {
    match mask {
        Some(mask) => mask.as_str() == WANTED,
        None => false,
    }
}

/// Carries out words under the mask, which are given as dpkg's or the program's own: here if this program has it already, or
/// can't get it, which a person is told.
pub(crate) fn under_mask(rt: &HostRuntime, given: &[String], own: &[String]) -> Masked {
    let mask = mask_of(rt);
    if is_wanted(&mask) {
        return Masked::Here;
    }
    if !is_marked(rt) && fs::metadata(rt, SHELL).is_ok() {
        if let Ok(child) = start(rt, given, own) {
            return Masked::There(status_of(child));
        }
    }
    if mask.is_some() || !is_marked(rt) {
        tell(rt, &mask);
    }
    Masked::Here
}
