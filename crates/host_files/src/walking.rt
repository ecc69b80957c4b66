// All that stands below the root on its own file system, brought to the disk one by one: the files as they are met, and then the
// directories, those that were met last first.
ghost use Rattle.std.specs.Prelude.{◌≡◌, ◌<◌, ◌++◌, ◌∷◌, [], ℕ, List, Contains, IfErr, IfOk, OnOk, length, map, slice_index_or, string_bytes, vec_len};
ghost use Rattle.host_files.specs.Faults.{IsUndeclined};
ghost use Rattle.host_files.specs.Places.{place_of};
ghost use Rattle.host_files.specs.SystemCalls.{changes_in};
ghost use Rattle.host_files.specs.Walked.{GoesOn, HasListed, HasMet, Includes, IsWalked};
ghost use Rattle.host_files.specs.declared.trace.SystemCall.TheVariants.{SyncDirectory};

use crate::root::Root;
use crate::system::System;
use host_core::HostFault;
use std::alloc::{AllocError, Global};
use std::os::unix::fs::MetadataExt;

// the most directories that are walked through
const MAX_DIRECTORIES: usize = 1 << 24;

// what a person is told where there are more
const TOO_MANY: &str = "more than 16,777,216 directories stand below it";

// what a person is told where the root is gone
const NO_ROOT: &str = "no directory stands there";

// The path of a name in a directory.
fn path_below(alloc: Global, directory: &str, name: &str) -> Result<String, AllocError>
    ensures { IfOk result (λ path. string_bytes path ≡ directory.now ++ 47 ∷ name.now) }
{
    let mut path = String::from_str(alloc, directory)?;
    path.push('/')?;
    path.push_str(name)?;
    Ok(path)
}

// The number of the file system that the root lies on.
fn device_of(system: &mut System, root: &Root) -> Result<u64, HostFault>
    ensures calls { OnOk result (Includes system.old.trace.calls system.new.trace.calls) }
    ensures same { changes_in system.new.trace.calls ≡ changes_in system.old.trace.calls }
    ensures fault { IfErr result IsUndeclined }
{
    let place = root.place("")?;
    match system.look(place.as_str())? {
        Some(seen) => Ok(seen.dev()),
        None => Err(system.refuse(NO_ROOT)),
    }
}

// What stands at a path: a file is synced, and a directory is walked through later.
fn meet(
    system: &mut System,
    root: &Root,
    device: u64,
    path: String,
    walked: &mut Vec<String>,
) -> Result<(), HostFault>
    ensures met { OnOk result (HasMet (string_bytes root.now.front) system.new.trace.calls
        (map string_bytes walked.new.items) (string_bytes path)) }
    ensures calls { OnOk result (Includes system.old.trace.calls system.new.trace.calls) }
    ensures more { OnOk result (GoesOn (map string_bytes walked.old.items)
        (map string_bytes walked.new.items)) }
    ensures same { changes_in system.new.trace.calls ≡ changes_in system.old.trace.calls }
    ensures fault { IfErr result IsUndeclined }
{
    let place = root.place(path.as_str())?;
    let Some(seen) = system.look(place.as_str())? else {
        return Ok(());
    };
    if seen.is_file() {
        return system.sync_seen(place);
    }
    if !seen.is_dir() {
        return Ok(());
    }
    if seen.dev() != device {
        system.pass_over(place.as_str());
        return Ok(());
    }
    walked.push(path)?;
    Ok(())
}

// What stands at these names in a directory.
fn meet_all(
    system: &mut System,
    root: &Root,
    device: u64,
    directory: &str,
    names: &[String],
    walked: &mut Vec<String>,
) -> Result<(), HostFault>
    ensures met { OnOk result ((name : List ℕ) → Contains (map string_bytes names.now) name
        → HasMet (string_bytes root.now.front) system.new.trace.calls
        (map string_bytes walked.new.items) (directory.now ++ 47 ∷ name)) }
    ensures calls { OnOk result (Includes system.old.trace.calls system.new.trace.calls) }
    ensures more { OnOk result (GoesOn (map string_bytes walked.old.items)
        (map string_bytes walked.new.items)) }
    ensures same { changes_in system.new.trace.calls ≡ changes_in system.old.trace.calls }
    ensures fault { IfErr result IsUndeclined }
{
    for name in names {
        let path = path_below(system.rt.alloc(), directory, name.as_str())?;
        meet(system, root, device, path, walked)?;
    }
    Ok(())
}

// The names in a directory, and what stands there.
fn walk_through(
    system: &mut System,
    root: &Root,
    device: u64,
    directory: &str,
    walked: &mut Vec<String>,
) -> Result<(), HostFault>
    ensures listed { OnOk result (HasListed (string_bytes root.now.front) system.new.trace.calls
        (map string_bytes walked.new.items) directory.now) }
    ensures calls { OnOk result (Includes system.old.trace.calls system.new.trace.calls) }
    ensures more { OnOk result (GoesOn (map string_bytes walked.old.items)
        (map string_bytes walked.new.items)) }
    ensures same { changes_in system.new.trace.calls ≡ changes_in system.old.trace.calls }
    ensures fault { IfErr result IsUndeclined }
{
    let names = system.names_in(root, directory)?;
    meet_all(system, root, device, directory, names.as_slice(), walked)
}

// The directory at a place in the list.
fn directory_at(walked: &[String], at: usize) -> Result<String, AllocError>
    requires { at < length walked.now }
    ensures { IfOk result (λ path. string_bytes path ≡ slice_index_or
        (map string_bytes walked.now) at []) }
{
    let path = walked[at].clone()?;
    Ok(path)
}

// Walks through the directory at a place in the list, to whose end those are added that are met there.
fn walk_at(
    system: &mut System,
    root: &Root,
    device: u64,
    at: usize,
    walked: &mut Vec<String>,
) -> Result<(), HostFault>
    requires { at < vec_len walked.old }
    ensures listed { OnOk result (HasListed (string_bytes root.now.front) system.new.trace.calls
        (map string_bytes walked.new.items)
        (slice_index_or (map string_bytes walked.old.items) at [])) }
    ensures calls { OnOk result (Includes system.old.trace.calls system.new.trace.calls) }
    ensures more { OnOk result (GoesOn (map string_bytes walked.old.items)
        (map string_bytes walked.new.items)) }
    ensures same { changes_in system.new.trace.calls ≡ changes_in system.old.trace.calls }
    ensures fault { IfErr result IsUndeclined }
{
    let directory = directory_at(walked.as_slice(), at)?;
    walk_through(system, root, device, directory.as_str(), walked)
}

// Walks through all directories, beginning with those in the list.
fn walk_all(
    system: &mut System,
    root: &Root,
    device: u64,
    walked: &mut Vec<String>,
) -> Result<(), HostFault>
    ensures listed { OnOk result ((path : List ℕ) → Contains (map string_bytes walked.new.items)
        path → HasListed (string_bytes root.now.front) system.new.trace.calls
        (map string_bytes walked.new.items) path) }
    ensures calls { OnOk result (Includes system.old.trace.calls system.new.trace.calls) }
    ensures more { OnOk result (GoesOn (map string_bytes walked.old.items)
        (map string_bytes walked.new.items)) }
    ensures same { changes_in system.new.trace.calls ≡ changes_in system.old.trace.calls }
    ensures fault { IfErr result IsUndeclined }
{
    for at in 0..MAX_DIRECTORIES {
        if at >= walked.len() {
            return Ok(());
        }
        walk_at(system, root, device, at, walked)?;
    }
    Err(system.refuse(TOO_MANY))
}

// Syncs these directories, the last one first.
fn sync_backwards(system: &mut System, root: &Root, walked: &[String]) -> Result<(), HostFault>
    ensures synced { OnOk result ((path : List ℕ) → Contains (map string_bytes walked.now) path
        → Contains system.new.trace.calls (SyncDirectory
        (place_of (string_bytes root.now.front) path))) }
    ensures calls { OnOk result (Includes system.old.trace.calls system.new.trace.calls) }
    ensures same { changes_in system.new.trace.calls ≡ changes_in system.old.trace.calls }
    ensures fault { IfErr result IsUndeclined }
{
    for at in (0..walked.len()).rev() {
        system.sync_directory(root, walked[at].as_str())?;
    }
    Ok(())
}

/// Syncs each file and directory below the root that lies on its file system.
pub(crate) fn walk(system: &mut System, root: &Root) -> Result<(), HostFault>
    ensures walked { OnOk result (IsWalked (string_bytes root.now.front) system.new.trace.calls) }
    ensures calls { OnOk result (Includes system.old.trace.calls system.new.trace.calls) }
    ensures same { changes_in system.new.trace.calls ≡ changes_in system.old.trace.calls }
    ensures fault { IfErr result IsUndeclined }
{
    let device = device_of(system, root)?;
    let alloc = system.rt.alloc();
    let mut walked = Vec::new(alloc);
    walked.push(String::new(alloc))?;
    walk_all(system, root, device, &mut walked)?;
    sync_backwards(system, root, walked.as_slice())
}
