// What is brought to the disk: one file, all that were written, the names that changed, or all of the root.
ghost use Rattle.std.specs.Prelude.{◌≡◌, ◌⊎◌, ◌++◌, [], true, IfErr, IfOk, OnErr, OnOk, Some, string_bytes};
ghost use Rattle.host_files.specs.Entries.{HasNoBytes};
ghost use Rattle.host_files.specs.Faults.{IsUndeclined};
ghost use Rattle.host_files.specs.Places.{place_of};
ghost use Rattle.host_files.specs.Shown.{AreOnDisk, administration_calls, IsLookedAt, IsRootBrought, IsStepBy, IsSyncedBy, sync_calls};
ghost use Rattle.host_files.specs.SystemCalls.{changes_in};
ghost use Rattle.host_files.specs.declared.record.Asked.TheVariants.{Barrier, Sync, SyncAll, SyncRoot};

use crate::changed::Changed;
use crate::root::Root;
use crate::steps::place_of_step;
use crate::system::System;
use crate::walking::walk;
use crate::written::{Unsynced, Written};
use host_core::{HostFault, RootPath};
use std::fs::Metadata;

// what a person is told where a step needs a file or a link
pub(crate) const NO_FILE: &str = "no file or link stands there";

// from so many files on all of their file systems are brought to the disk
const MANY: usize = 64;

fn has_no_bytes(found: &Metadata) -> bool
    ensures { result ≡ true → HasNoBytes found.now }
{
    !found.is_dir() && !found.is_file()
}

// Looks what stands at a place, and brings it to the disk.
fn flush_at(system: &mut System, place: &str) -> Result<(), HostFault>
    requires begun { system.old.trace.calls ≡ [] }
    ensures step { IsSyncedBy place.now system.new.trace.calls result }
    ensures sure { OnOk result (IsLookedAt place.now system.new.trace.calls) }
{
    match system.look(place)? {
        Some(found) if has_no_bytes(&found) => Ok(()),
        Some(found) if found.is_file() => system.sync_file(place),
        _ => Err(system.refuse(NO_FILE)),
    }
}

/// Brings the bytes of a file to the disk; of what has none nothing has to be brought there.
pub(crate) fn flush(system: &mut System, root: &Root, path: &RootPath) -> Result<(), HostFault>
    requires begun { system.old.trace.calls ≡ [] }
    ensures step { IsStepBy (string_bytes root.now.front) root.now.owners (Sync path.now)
        system.new.trace.calls result }
    ensures sure { OnOk result (IsLookedAt (place_of (string_bytes root.now.front) path.now)
        system.new.trace.calls ⊎ (root.now.remembered.file ≡ Some path.now)) }
{
    if root.remembered.is_new(path) && system.has_made() {
        return system.sync_made();
    }
    let place = place_of_step(system, root, path)?;
    flush_at(system, place.as_str())
}

// Brings the names in these directories to the disk.
fn flush_directories(system: &mut System, root: &Root, changed: &Changed) -> Result<(), HostFault>
    requires begun { system.old.trace.calls ≡ [] }
    ensures same { changes_in system.new.trace.calls ≡ [] }
    ensures brought { OnOk result (system.new.trace.calls ≡ sync_calls
        (string_bytes root.now.front) changed.now.directories.keys) }
    ensures fault { IfErr result IsUndeclined }
{
    for directory in changed.directories.iter() {
        system.sync_directory(root, directory.as_str())?;
    }
    Ok(())
}

/// Brings the names in these directories to the disk.
pub(crate) fn flush_all(
    system: &mut System,
    root: &Root,
    changed: &Changed,
) -> Result<(), HostFault>
    requires begun { system.old.trace.calls ≡ [] }
    ensures step { IsStepBy (string_bytes root.now.front) root.now.owners Barrier
        system.new.trace.calls result }
    ensures brought { OnOk result (system.new.trace.calls ≡ sync_calls
        (string_bytes root.now.front) changed.now.directories.keys) }
{
    flush_directories(system, root, changed)
}

// Brings each of these files to the disk.
fn flush_each(system: &mut System, root: &Root, files: &[Unsynced]) -> Result<(), HostFault>
    requires begun { changes_in system.old.trace.calls ≡ [] }
    ensures same { changes_in system.new.trace.calls ≡ [] }
    ensures synced { OnOk result (AreOnDisk (string_bytes root.now.front) files.now
        system.new.trace.calls) }
{
    for file in files {
        system.sync_written(root, file)?;
    }
    Ok(())
}

// Whether a file system is the one that was brought to the disk last.
fn is_last(last: Option<u64>, device: u64) -> bool
    ensures { result ≡ true → last ≡ Some device }
{
    match last {
        Some(last) => last == device,
        None => false,
    }
}

// Brings all of the file systems to the disk that these files lie on, and tells whether that can be had. Files of one
// file system stand side by side, since they were written in the order of their paths.
fn flush_devices(system: &mut System, root: &Root, files: &[Unsynced]) -> Result<bool, HostFault>
    requires begun { changes_in system.old.trace.calls ≡ [] }
    ensures same { changes_in system.new.trace.calls ≡ [] }
    ensures synced { IfOk result (λ all. all ≡ true → AreOnDisk (string_bytes root.now.front)
        files.now system.new.trace.calls) }
    ensures fault { IfErr result IsUndeclined }
{
    let mut last = None;
    for file in files {
        if is_last(last, file.identity.device) {
            continue;
        }
        if !system.sync_device(root, file)? {
            return Ok(false);
        }
        last = Some(file.identity.device);
    }
    Ok(true)
}

// Brings the bytes of these files to the disk.
fn flush_files(system: &mut System, root: &Root, files: &[Unsynced]) -> Result<(), HostFault>
    requires begun { changes_in system.old.trace.calls ≡ [] }
    ensures same { changes_in system.new.trace.calls ≡ [] }
    ensures synced { OnOk result (AreOnDisk (string_bytes root.now.front) files.now
        system.new.trace.calls) }
{
    if files.len() >= MANY && flush_devices(system, root, files)? {
        return Ok(());
    }
    flush_each(system, root, files)
}

/// Brings the bytes of all files that were written to the disk.
pub(crate) fn flush_written(
    system: &mut System,
    root: &Root,
    written: &Written,
) -> Result<(), HostFault>
    requires begun { system.old.trace.calls ≡ [] }
    ensures step { IsStepBy (string_bytes root.now.front) root.now.owners SyncAll
        system.new.trace.calls result }
    ensures synced { OnOk result (AreOnDisk (string_bytes root.now.front) written.now.files.items
        system.new.trace.calls) }
{
    flush_files(system, root, written.files.as_slice())
}

// Brings the names in the directories of the administration to the disk.
fn flush_administration(system: &mut System, root: &Root) -> Result<(), HostFault>
    ensures synced { OnOk result (system.new.trace.calls ≡ administration_calls
        (string_bytes root.now.front) ++ system.old.trace.calls) }
    ensures same { changes_in system.new.trace.calls ≡ changes_in system.old.trace.calls }
    ensures fault { IfErr result IsUndeclined }
{
    system.sync_directory(root, "/var/lib/dpkg")?;
    system.sync_directory(root, "/var/lib/dpkg/info")?;
    system.sync_directory(root, "/var/lib/dpkg/updates")
}

// Brings all of every file system to the disk; where the program `sync` can't be had, these directories, those of the
// administration, and all that is met below the root.
fn flush_any(system: &mut System, root: &Root, changed: &Changed) -> Result<(), HostFault>
    requires begun { system.old.trace.calls ≡ [] }
    ensures same { changes_in system.new.trace.calls ≡ [] }
    ensures brought { OnOk result (IsRootBrought (string_bytes root.now.front)
        changed.now.directories.keys system.new.trace.calls) }
    ensures fault { IfErr result IsUndeclined }
{
    if system.sync_system()? {
        return Ok(());
    }
    flush_directories(system, root, changed)?;
    flush_administration(system, root)?;
    walk(system, root)
}

/// Brings all that stands under the root to the disk.
pub(crate) fn flush_root(
    system: &mut System,
    root: &Root,
    changed: &Changed,
) -> Result<(), HostFault>
    requires begun { system.old.trace.calls ≡ [] }
    ensures step { IsStepBy (string_bytes root.now.front) root.now.owners SyncRoot
        system.new.trace.calls result }
    ensures brought { OnOk result (IsRootBrought (string_bytes root.now.front)
        changed.now.directories.keys system.new.trace.calls) }
{
    flush_any(system, root, changed)
}
