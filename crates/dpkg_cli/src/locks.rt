// The locks of an administration: two files of it, which dpkg and the programs that start dpkg lock too, so that all exclude each
// other, and one that scripts take, each as long as it changes the diversions. A lock is that of the open file: the system frees it when the programs that have it open have ended, however they end.
ghost use Rattle.std.specs.Prelude.{◌≡◌, IfOk, IsErrOf, false, not, true};
ghost use Rattle.command_line.specs.declared.fault.Lock.{Lock};
ghost use Rattle.command_line.specs.declared.fault.Lock.TheVariants.{Table};
ghost use Rattle.command_line.specs.declared.fault.RootFault.TheVariants.{Locked};
ghost use Rattle.dpkg_cli.specs.Locks.{has_administration, has_frontend};

use crate::directories::fault_of;
use command_line::{Lock, RootFault};
use host_core::HostFault;
use os::RangeLock;
use std::env::VarError;
use std::fs::{DirBuilder, File, OpenOptions, Permissions};
use std::io::{Error, ErrorKind};
use std::os::fd::AsRawFd;
use std::os::unix::fs::{DirBuilderExt, OpenOptionsExt, PermissionsExt};
use std::thread::sleep;
use std::time::Duration;
use std::{env, fs, io};

// The program that starts this one sets it, where it holds the frontend's lock.
const CLAIM: &str = "DPKG_FRONTEND_LOCKED";

// The program that calls a script sets it, and holds the locks meanwhile.
const SCRIPT: &str = "DPKG_MAINTSCRIPT_PACKAGE";

const HOME: &str = "/var/lib/dpkg";

const DIRECTORIES: [&str; 3] = ["/var", "/var/lib", "/var/lib/dpkg"];

// all bytes that a file can have
const LENGTH: u64 = i64::MAX as u64;

const TRIES_A_SECOND: u64 = 10;

// milliseconds
const BETWEEN_TRIES: u64 = 100;

/// What is held of a root.
#[derive(Drop)]
pub(crate) enum Held {
    Both {
        frontend: File,
        administration: File,
    },
    /// The frontend's is held by the program that started this one.
    Administration(File),
    /// The diversions are changed beside the program that holds the others.
    Table(File),
    /// Something else stands in the place of a directory, which the opening finds.
    Nothing,
}

impl Held {
    /// Another descriptor of the administration's lock, which holds it too.
    pub(crate) fn copied(&self) -> io::Result<Option<File>> {
        match self {
            Held::Both { administration, .. } => Ok(Some(administration.try_clone()?)),
            Held::Administration(administration) => Ok(Some(administration.try_clone()?)),
            Held::Table(_) | Held::Nothing => Ok(None),
        }
    }
}

// Makes a directory, which another program may have made meanwhile.
fn make_directory(rt: &HostRuntime, place: &str) -> io::Result<()> {
    match DirBuilder::new().mode(0o755).create(rt, place) {
        Ok(()) => fs::open(rt, place)?.set_permissions(Permissions::from_mode(0o755)),
        Err(error) if error.kind() == ErrorKind::AlreadyExists => Ok(()),
        Err(error) => Err(error),
    }
}

// Whether a directory stands at the place, which is made where nothing does.
fn is_directory(rt: &HostRuntime, place: &str) -> io::Result<bool> {
    match fs::symlink_metadata(rt, place) {
        Ok(found) => Ok(found.is_dir()),
        Err(error) if error.kind() == ErrorKind::NotFound => {
            make_directory(rt, place)?;
            Ok(true)
        }
        Err(error) => Err(error),
    }
}

// Whether the directories of the administration stand.
fn have_directories(rt: &HostRuntime, front: &str) -> Result<bool, HostFault> {
    for directory in DIRECTORIES {
        let place = format!(in rt.alloc(); "{front}{directory}")?;
        match is_directory(rt, place.as_str()) {
            Ok(true) => (),
            Ok(false) => return Ok(false),
            Err(error) => return Err(fault_of(rt, place.as_str(), &error)),
        }
    }
    Ok(true)
}

// Opens the file of a lock, which is empty. No link is followed.
fn open_file(rt: &HostRuntime, place: &str) -> io::Result<File> {
    match fs::symlink_metadata(rt, place) {
        Ok(found) if !found.is_file() => return Err(Error::other("no file")),
        Err(error) if error.kind() != ErrorKind::NotFound => return Err(error),
        _ => (),
    }
    OpenOptions::new()
        .read(true)
        .write(true)
        .create(true)
        .truncate(true)
        .mode(0o640)
        .open(rt, place)
}

// Locks a file, unless another program has.
fn is_taken(file: &File) -> io::Result<bool> {
    if os::try_lock_range(file.as_raw_fd(), RangeLock::Exclusive, 0, LENGTH) == 0 {
        return Ok(true);
    }
    let error = Error::from_raw_os_error(os::errno());
    if error.kind() == ErrorKind::WouldBlock {
        return Ok(false);
    }
    Err(error)
}

// The same, as long as tries are left.
fn is_taken_within(rt: &HostRuntime, file: &File, left: &mut u64) -> io::Result<bool> {
    while !is_taken(file)? {
        if *left == 0 {
            return Ok(false);
        }
        *left -= 1;
        sleep(rt, Duration::from_millis(BETWEEN_TRIES));
    }
    Ok(true)
}

fn file_if_taken(rt: &HostRuntime, place: &str, left: &mut u64) -> io::Result<Option<File>> {
    let file = open_file(rt, place)?;
    Ok(is_taken_within(rt, &file, left)?.then_some(file))
}

// The file of a lock, unless another program holds it. The system's error is told with the place.
fn lock_file(
    rt: &HostRuntime,
    front: &str,
    lock: Lock,
    left: &mut u64,
) -> Result<Option<File>, HostFault> {
    let path = lock.path();
    let place = format!(in rt.alloc(); "{front}{path}")?;
    match file_if_taken(rt, place.as_str(), left) {
        Ok(file) => Ok(file),
        Err(error) => Err(fault_of(rt, place.as_str(), &error)),
    }
}

fn take(rt: &HostRuntime, front: &str, lock: Lock, left: &mut u64) -> Result<File, RootFault>
    ensures locked { (told : Lock) → IsErrOf result (Locked told) → told ≡ lock }
{
    match lock_file(rt, front, lock, left)? {
        Some(file) => Ok(file),
        None => Err(RootFault::Locked(lock)),
    }
}

// The frontend's lock comes first, unless the program that started this one claims it.
fn take_all(rt: &HostRuntime, front: &str, is_claimed: bool, wait: u32) -> Result<Held, RootFault>
    ensures frontend { IfOk result (λ held. has_frontend held ≡ not is_claimed) }
    ensures administration { IfOk result (λ held. has_administration held ≡ true) }
{
    let mut left = u64::from(wait) * TRIES_A_SECOND;
    if is_claimed {
        let administration = take(rt, front, Lock::Administration, &mut left)?;
        return Ok(Held::Administration(administration));
    }
    let frontend = take(rt, front, Lock::Frontend, &mut left)?;
    let administration = take(rt, front, Lock::Administration, &mut left)?;
    Ok(Held::Both {
        frontend,
        administration,
    })
}

fn is_set(rt: &HostRuntime, name: &str) -> bool {
    !matches!(env::var(rt, name), Err(VarError::NotPresent))
}

/// Whether a script started this program.
pub(crate) fn is_in_script(rt: &HostRuntime) -> bool {
    is_set(rt, SCRIPT)
}

// Whether the directory of the administration stands. Nothing is made.
fn has_home(rt: &HostRuntime, front: &str) -> Result<bool, HostFault> {
    let home = format!(in rt.alloc(); "{front}{HOME}")?;
    match fs::symlink_metadata(rt, home.as_str()) {
        Ok(found) => Ok(found.is_dir()),
        Err(error) if error.kind() == ErrorKind::NotFound => Ok(false),
        Err(error) => Err(fault_of(rt, home.as_str(), &error)),
    }
}

/// Takes the lock under which scripts change the diversions. One that another script holds is waited for so many seconds.
pub(crate) fn table_lock_of(rt: &HostRuntime, directory: &str, wait: u32) -> Result<Held, RootFault>
    ensures frontend { IfOk result (λ held. has_frontend held ≡ false) }
    ensures administration { IfOk result (λ held. has_administration held ≡ false) }
    ensures locked { (told : Lock) → IsErrOf result (Locked told) → told ≡ Table }
{
    let front = directory.trim_end_matches('/');
    if !has_home(rt, front)? {
        return Ok(Held::Nothing);
    }
    let mut left = u64::from(wait) * TRIES_A_SECOND;
    let table = take(rt, front, Lock::Table, &mut left)?;
    Ok(Held::Table(table))
}

/// Takes the locks of the administration under a directory. Those that another program holds are waited for so many seconds.
pub(crate) fn locks_of(rt: &HostRuntime, directory: &str, wait: u32) -> Result<Held, RootFault> {
    let front = directory.trim_end_matches('/');
    if !have_directories(rt, front)? {
        return Ok(Held::Nothing);
    }
    take_all(rt, front, is_set(rt, CLAIM), wait)
}
