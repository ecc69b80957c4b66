// The terminal of standard error.
use std::env;
use std::io::IsTerminal;
use std::os::fd::AsFd;
use std::process::{Command, Stdio};

// as many as a terminal of 80 columns has for a line that it doesn't break
const COLUMNS: usize = 79;

/// Whether a person looks on whose terminal can take a line away.
pub(crate) fn renews_lines(rt: &HostRuntime) -> bool {
    if !rt.stderr().is_terminal() {
        return false;
    }
    match env::var(rt, "TERM") {
        Ok(name) => name.as_str() != "dumb",
        Err(_) => true,
    }
}

// What `stty size` prints: how many rows and columns the terminal has.
fn size_of(rt: &HostRuntime) -> Option<String> {
    let input = rt.stderr().as_fd().try_clone_to_owned().ok()?;
    let mut command = Command::new(rt.alloc(), "stty").ok()?;
    command.arg("size").ok()?;
    command.stdin(Stdio::from(input));
    let printed = command.output(rt).ok()?;
    String::from_utf8(printed.stdout).ok()
}

// How many columns a terminal of so many has for a line, where that is known.
fn room_in(columns: &str) -> Option<usize> {
    match columns.trim().parse::<usize>() {
        Ok(columns) if columns > 0 => Some(columns - 1),
        _ => None,
    }
}

fn told_by_terminal(rt: &HostRuntime) -> Option<usize> {
    let size = size_of(rt)?;
    let (_, columns) = size.as_str().split_once(' ')?;
    room_in(columns)
}

fn told_by_environment(rt: &HostRuntime) -> Option<usize> {
    room_in(env::var(rt, "COLUMNS").ok()?.as_str())
}

/// How many columns the terminal has for a line that is never broken.
pub(crate) fn columns_of(rt: &HostRuntime) -> usize {
    match told_by_terminal(rt) {
        Some(columns) => columns,
        None => told_by_environment(rt).unwrap_or(COLUMNS),
    }
}
