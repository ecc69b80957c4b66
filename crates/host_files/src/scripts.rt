// Starting maintainer scripts.
ghost use Rattle.std.specs.Prelude.{◌≡◌, [], string_bytes};
ghost use Rattle.std.specs.Process.{exit_code, SameProgramAndArgs, SameEnv, SameDir};
ghost use Rattle.host_files.specs.Commands.{outcome_of};
ghost use Rattle.host_files.specs.Shown.{IsRunBy, Starts};

use crate::command::command_of;
use crate::disk::stat;
use crate::root::Root;
use crate::system::{ScriptStreams, System};
use host_core::{Call, HostFault, Outcome, RootPath};
use std::fs::File;
use std::io::{Error, ErrorKind};
use std::os::fd::AsFd;
use std::process::{Command, ExitStatus, Stdio};
use std::{fs, io};

// Links may lead to the directory.
fn check_directory(rt: &HostRuntime, directory: &str) -> io::Result<()> {
    if fs::metadata(rt, directory)?.is_dir() {
        Ok(())
    } else {
        Err(Error::from(ErrorKind::NotADirectory))
    }
}

// Whether a file stands at the place.
fn is_file(rt: &HostRuntime, place: &str) -> io::Result<bool> {
    match stat(rt, place)? {
        Some(found) => Ok(found.is_file()),
        None => Ok(false),
    }
}

// The directory can be worked in: a start that fails for want of it would read as one for want of the script.
fn check_working_directory(rt: &HostRuntime, root: &Root) -> io::Result<()> {
    let mut place = root.front.clone()?;
    place.push_str("/.")?;
    check_directory(rt, place.as_str())
}

// Whether a file stands at the path, and the directory can be worked in.
fn can_start(rt: &HostRuntime, root: &Root, at: &RootPath) -> io::Result<bool> {
    check_working_directory(rt, root)?;
    if !root.reaches(rt, at.as_str())? {
        return Ok(false);
    }
    is_file(rt, root.place(at.as_str())?.as_str())
}

// An input that has nothing: where there is no `/dev/null`, a pipe that nobody writes to.
fn empty_input(rt: &HostRuntime) -> io::Result<Stdio> {
    if let Ok(null) = fs::open(rt, "/dev/null") {
        return Ok(Stdio::from(null));
    }
    let (reader, writer) = io::pipe(rt)?;
    drop(writer);
    Ok(Stdio::from(reader))
}

// A copy of a file or of one of the program's streams, so that the script has it open also where the program itself had to open it,
// which a start would close.
fn copy_of<S: AsFd>(stream: &S) -> io::Result<Stdio> {
    Ok(Stdio::from(stream.as_fd().try_clone_to_owned()?))
}

// What the script reads.
fn input_of(rt: &HostRuntime, input: &Option<File>) -> io::Result<Stdio> {
    match input {
        Some(file) => copy_of(file),
        None => empty_input(rt),
    }
}

// Where the script's standard output goes.
fn output_of(rt: &HostRuntime, streams: ScriptStreams) -> io::Result<Stdio> {
    match streams {
        ScriptStreams::Own => copy_of(&rt.stdout()),
        ScriptStreams::Error => copy_of(&rt.stderr()),
    }
}

// The script reads nothing, or what is given, and writes where the program does. All are opened here: that one is missing
// would read as a missing script.
fn set_streams(system: &System, command: &mut Command) -> io::Result<()>
    ensures call { SameProgramAndArgs command.old command.new }
    ensures env { SameEnv command.old command.new }
    ensures dir { SameDir command.old command.new }
{
    let rt = &system.rt;
    command.stdin(input_of(rt, &system.input)?);
    command.stdout(output_of(rt, system.streams)?);
    command.stderr(copy_of(&rt.stderr())?);
    Ok(())
}

// Whether the command is to be started. All memory that its start takes is taken before.
fn prepare(system: &System, root: &Root, at: &RootPath, command: &mut Command) -> io::Result<bool>
    ensures call { SameProgramAndArgs command.old command.new }
    ensures env { SameEnv command.old command.new }
    ensures dir { SameDir command.old command.new }
{
    if !can_start(&system.rt, root, at)? {
        return Ok(false);
    }
    set_streams(system, command)?;
    Ok(true)
}

// How a script ended that was started.
fn outcome_of(status: &ExitStatus) -> Outcome
    ensures { result ≡ outcome_of (exit_code status.now) }
{
    match status.code() {
        Some(code) => Outcome::Exit(code),
        None => Outcome::Killed,
    }
}

// Starts a command and waits for its end.
fn spawn(system: &mut System, command: &mut Command) -> Result<Outcome, HostFault>
    ensures { Starts command.old system.old.trace.calls system.new.trace.calls result }
{
    match system.start(command)? {
        Some(child) => Ok(outcome_of(&system.wait(child)?)),
        None => Ok(Outcome::NotStarted),
    }
}

/// Starts the script of a call and waits for its end.
pub(crate) fn run_script(
    system: &mut System,
    root: &Root,
    call: &Call,
) -> Result<Outcome, HostFault>
    requires begun { system.old.trace.calls ≡ [] }
    ensures { IsRunBy (string_bytes root.now.directory) (string_bytes root.now.front) call.now
        system.new.trace.calls result }
{
    let mut command = command_of(system.rt.alloc(), root, &system.architecture, call)?;
    match prepare(system, root, &call.at, &mut command) {
        Ok(true) => spawn(system, &mut command),
        Ok(false) => Ok(Outcome::NotStarted),
        Err(error) => Err(system.fault(error)),
    }
}
