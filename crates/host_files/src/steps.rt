// The steps of the device. Each makes its calls of the system once it has seen that the names above its paths are those
// of directories, and of no link; all memory that it takes is taken before. What was begun of a step that is declined is taken away.
ghost use Rattle.std.specs.Prelude.{◌≡◌, ◌⊎◌, ◌∷◌, ◌++◌, [], true, IfErr, IfOk, IsSome, IsTrue, OnErr, OnOk, Some, string_bytes};
ghost use Rattle.host_core.specs.World.{IsFile};
ghost use Rattle.host_core.specs.declared.fault.HostFault.TheVariants.{Device};
ghost use Rattle.host_core.specs.declared.node.Access.{Access as AnAccess};
ghost use Rattle.host_files.specs.Entries.{IsAccessOf, IsSettable, is_access, is_plain};
ghost use Rattle.host_files.specs.Faults.{IsOfStep, IsUndeclined};
ghost use Rattle.host_files.specs.Places.{place_of, IsEntry};
ghost use Rattle.host_files.specs.Shown.{Adds, IsLookedAt, IsLoweredBy, IsMakingBy, IsRenamedBy, IsStepBy, IsSyncedUnread, IsSyncedWhole, access_calls, amending_calls, directory_calls, fill_calls, first_call, first_mode, opened_calls, time_calls, write_calls};
ghost use Rattle.host_files.specs.SystemCalls.{changes_in, Looks};
ghost use Rattle.host_files.specs.declared.record.Asked.TheVariants.{HardLink, Lower, MakeDir, MakeLink, Move, RemoveDir, Take, Write};
ghost use Rattle.host_files.specs.declared.trace.SystemCall.TheVariants.{Append, Create, RemoveDirectory, Unlink};

use crate::disk::{access_of, lends};
use crate::opened::Opened;
use crate::root::Root;
use crate::syncing::NO_FILE;
use crate::system::System;
use crate::way::split_place;
use crate::written::is_readable;
use host_core::{Access, Content, HostFault, Modified, Node, RootPath};
use std::fs::{File, Metadata};
use std::os::unix::fs::MetadataExt;
use texts::Text;

// the mode of a file whose rights were taken
const LOWERED: u16 = 0o600;

/// The place of a step.
pub(crate) fn place_of_step(
    system: &System,
    root: &Root,
    path: &RootPath,
) -> Result<String, HostFault>
    ensures place { IfOk result (λ place. string_bytes place ≡ place_of (string_bytes root.now.front)
        path.now) }
    ensures fault { IfErr result IsUndeclined }
{
    match root.place_at(&system.rt, path)? {
        Some(place) => Ok(place),
        None => Err(HostFault::Device),
    }
}

// Whether it is root's, and lends no rights of an owner or group.
fn is_plain(access: Access) -> bool
    ensures { result ≡ is_plain access }
{
    access.user == 0 && access.group == 0 && access.mode & 0o6000 == 0
}

fn is_access(seen: Access, wanted: Access) -> bool
    ensures { result ≡ is_access seen wanted }
{
    seen.mode == wanted.mode && seen.user == wanted.user && seen.group == wanted.group
}

// Where owners can't be set none but 0 is, and no bit that lends an owner's rights.
fn check_settable(owners: bool, access: Access) -> Result<(), HostFault>
    ensures ok { OnOk result (IsSettable owners access) }
    ensures err { IfErr result (λ fault. fault ≡ Device) }
{
    if owners || is_plain(access) {
        Ok(())
    } else {
        Err(HostFault::Device)
    }
}

// The system leaves out the bit for the group where the user isn't of that group.
fn check_access(
    system: &mut System,
    owners: bool,
    made: &File,
    access: Access,
) -> Result<Metadata, HostFault>
    ensures same { system.new.trace ≡ system.old.trace }
    ensures ok { IfOk result (λ found. IsAccessOf owners found access) }
    ensures err { IfErr result (λ fault. fault ≡ Device) }
{
    match made.metadata() {
        Ok(found) if access_of(owners, &found) == access => Ok(found),
        Ok(_) => Err(system.refuse("the system leaves out a part of its owner or mode")),
        Err(error) => Err(system.fail(error)),
    }
}

// Gives what was made last its owner, and then its mode, by what is open of it.
fn set_access(
    system: &mut System,
    owners: bool,
    made: &File,
    access: Access,
) -> Result<Metadata, HostFault>
    ensures made { Adds (access_calls owners access) system.old.trace.calls system.new.trace.calls
        result }
    ensures set { IfOk result (λ found. IsAccessOf owners found access) }
    ensures err { IfErr result IsOfStep }
{
    if owners {
        system.set_owner(made, access.user, access.group)?;
    }
    system.set_mode(made, access.mode)?;
    check_access(system, owners, made, access)
}

// Sets when a file was last modified, where that is to be kept.
fn set_time(system: &mut System, made: &File, modified: Option<Modified>) -> Result<(), HostFault>
    ensures made { Adds (time_calls modified) system.old.trace.calls system.new.trace.calls result }
    ensures err { IfErr result IsOfStep }
{
    match modified {
        Some(time) => system.set_time(made, time),
        None => Ok(()),
    }
}

// Brings a file that can't be opened again to the disk.
fn sync_unreadable(
    system: &mut System,
    owners: bool,
    made: &File,
    access: Access,
) -> Result<(), HostFault>
    ensures same { changes_in system.new.trace.calls ≡ changes_in system.old.trace.calls }
    ensures synced { OnOk result (IsSyncedUnread owners access system.new.trace.calls) }
    ensures err { IfErr result IsOfStep }
{
    if is_readable(owners, access) {
        return Ok(());
    }
    system.sync_open(made)
}

// Gives a file that was created its bytes, and then its access.
fn fill_file(
    system: &mut System,
    owners: bool,
    made: &mut File,
    bytes: &Content,
    access: Access,
) -> Result<Metadata, HostFault>
    ensures made { Adds (access_calls owners access ++ Append bytes.now ∷ [])
        system.old.trace.calls system.new.trace.calls result }
    ensures set { IfOk result (λ found. IsAccessOf owners found access) }
    ensures err { IfErr result IsOfStep }
{
    system.append(made, bytes)?;
    set_access(system, owners, made, access)
}

// The same, and then its time.
fn finish_file(
    system: &mut System,
    owners: bool,
    made: &mut File,
    bytes: &Content,
    modified: Option<Modified>,
    access: Access,
) -> Result<Metadata, HostFault>
    ensures made { Adds (fill_calls owners bytes.now access modified) system.old.trace.calls
        system.new.trace.calls result }
    ensures set { IfOk result (λ found. IsAccessOf owners found access) }
    ensures synced { OnOk result (IsSyncedUnread owners access system.new.trace.calls) }
    ensures err { IfErr result IsOfStep }
{
    let found = fill_file(system, owners, made, bytes, access)?;
    set_time(system, made, modified)?;
    sync_unreadable(system, owners, made, access)?;
    Ok(found)
}

// Writes a file; what was begun of one that is declined is taken away.
fn write_bytes(
    system: &mut System,
    owners: bool,
    place: &str,
    bytes: &Content,
    modified: Option<Modified>,
    access: Access,
) -> Result<(), HostFault>
    requires begun { system.old.trace.calls ≡ [] }
    ensures making { IsMakingBy (Create place.now) (Unlink place.now) (write_calls owners place.now
        bytes.now access modified) system.new.trace.calls result }
    ensures synced { OnOk result (IsSyncedUnread owners access system.new.trace.calls) }
{
    check_settable(owners, access)?;
    let mut made = system.create(place)?;
    match finish_file(system, owners, &mut made, bytes, modified, access) {
        Ok(found) => {
            system.keep(made, &found);
            Ok(())
        }
        Err(HostFault::Declined) => Err(system.take_away_file(place)),
        Err(fault) => Err(fault),
    }
}

// The mode with which a directory is made.
fn first_mode(owners: bool, access: Access) -> u16
    ensures { result ≡ first_mode owners access }
{
    if is_plain(access) && is_readable(owners, access) {
        access.mode & 0o1777
    } else {
        0o700
    }
}

// Gives the directory that was made last its access, where it was seen with another.
fn amend_access(
    system: &mut System,
    owners: bool,
    made: &File,
    seen: Access,
    access: Access,
) -> Result<(), HostFault>
    ensures made { Adds (amending_calls owners access seen) system.old.trace.calls
        system.new.trace.calls result }
    ensures err { IfErr result IsOfStep }
{
    if is_access(seen, access) {
        return Ok(());
    }
    set_access(system, owners, made, access)?;
    Ok(())
}

// Opens the directory that was made last, and gives it its access.
fn open_directory(
    system: &mut System,
    owners: bool,
    place: &str,
    access: Access,
) -> Result<(), HostFault>
    ensures made { (seen : AnAccess) × Adds (opened_calls owners place.now access seen)
        system.old.trace.calls system.new.trace.calls result }
    ensures err { IfErr result IsOfStep }
{
    let (made, seen) = system.open_made(owners, place)?;
    amend_access(system, owners, &made, seen, access)
}

fn create_directory(
    system: &mut System,
    owners: bool,
    place: &str,
    access: Access,
) -> Result<(), HostFault>
    requires begun { system.old.trace.calls ≡ [] }
    ensures { (seen : AnAccess) × IsMakingBy (first_call owners place.now access)
        (RemoveDirectory place.now) (directory_calls owners place.now access seen)
        system.new.trace.calls result }
{
    check_settable(owners, access)?;
    system.make_directory(place, first_mode(owners, access))?;
    match open_directory(system, owners, place, access) {
        Ok(()) => Ok(()),
        Err(HostFault::Declined) => Err(system.take_away_directory(place)),
        Err(fault) => Err(fault),
    }
}

/// Writes a file where nothing stands.
pub(crate) fn write_file(
    system: &mut System,
    root: &Root,
    path: &RootPath,
    node: &Node,
) -> Result<(), HostFault>
    requires file { IsFile node.now }
    requires begun { system.old.trace.calls ≡ [] }
    ensures step { IsStepBy (string_bytes root.now.front) root.now.owners (Write path.now node.now)
        system.new.trace.calls result }
    ensures synced { OnOk result (IsSyncedWhole root.now.owners node.now system.new.trace.calls) }
{
    let Node::File { bytes, access } = node else {
        return Err(HostFault::Device);
    };
    let place = place_of_step(system, root, path)?;
    write_bytes(
        system,
        root.owners,
        place.as_str(),
        bytes,
        bytes.modified(),
        *access,
    )
}

/// Makes a directory where nothing stands.
pub(crate) fn make_directory(
    system: &mut System,
    root: &Root,
    path: &RootPath,
    access: Access,
) -> Result<(), HostFault>
    requires begun { system.old.trace.calls ≡ [] }
    ensures { IsStepBy (string_bytes root.now.front) root.now.owners (MakeDir path.now access)
        system.new.trace.calls result }
{
    let place = place_of_step(system, root, path)?;
    create_directory(system, root.owners, place.as_str(), access)
}

// Whether one file has both names. Where two places are one name of it, it has one.
fn is_same_file(one: &Metadata, other: &Option<Metadata>) -> bool
    ensures { result ≡ true → IsSome other.now }
{
    match other {
        Some(other) => one.nlink() > 1 && one.dev() == other.dev() && one.ino() == other.ino(),
        None => false,
    }
}

// Looks what stands at a place, which is to be a file or link.
fn look_at_loose(system: &mut System, place: &str) -> Result<Metadata, HostFault>
    ensures ok { IfOk result (λ found. Looks place.now (Some found) system.old.trace.calls
        system.new.trace.calls) }
    ensures err { OnErr result (changes_in system.new.trace.calls ≡ changes_in
        system.old.trace.calls) }
    ensures fault { IfErr result IsUndeclined }
{
    match system.look(place)? {
        Some(found) if !found.is_dir() => Ok(found),
        _ => Err(system.refuse(NO_FILE)),
    }
}

// The system does nothing where both are names of one file. A file that has one name isn't looked at by another.
fn rename_file(system: &mut System, from: &str, to: &str) -> Result<(), HostFault>
    requires begun { system.old.trace.calls ≡ [] }
    ensures step { IsRenamedBy from.now to.now system.new.trace.calls result }
    ensures sure { OnOk result (IsLookedAt from.now system.new.trace.calls) }
{
    let moved = look_at_loose(system, from)?;
    if from == to || moved.nlink() < 2 {
        return system.rename(from, to);
    }
    let over = system.look(to)?;
    if is_same_file(&moved, &over) {
        system.unlink(from)
    } else {
        system.rename(from, to)
    }
}

// The file that was written last has no other name, so that nothing has to be looked at.
fn rename_at(system: &mut System, is_new: bool, from: &str, to: &str) -> Result<(), HostFault>
    requires begun { system.old.trace.calls ≡ [] }
    ensures step { IsRenamedBy from.now to.now system.new.trace.calls result }
    ensures sure { OnOk result (IsLookedAt from.now system.new.trace.calls ⊎ IsTrue is_new) }
{
    if is_new {
        return system.rename(from, to);
    }
    rename_file(system, from, to)
}

/// Moves a file or link over a file, a link or nothing.
pub(crate) fn move_over(
    system: &mut System,
    root: &Root,
    from: &RootPath,
    to: &RootPath,
) -> Result<(), HostFault>
    requires begun { system.old.trace.calls ≡ [] }
    ensures step { IsStepBy (string_bytes root.now.front) root.now.owners (Move from.now to.now)
        system.new.trace.calls result }
    ensures sure { OnOk result (IsLookedAt (place_of (string_bytes root.now.front) from.now)
        system.new.trace.calls ⊎ (root.now.remembered.file ≡ Some from.now)) }
{
    let is_new = root.remembered.is_new(from);
    let from = place_of_step(system, root, from)?;
    let to = place_of_step(system, root, to)?;
    rename_at(system, is_new, from.as_str(), to.as_str())
}

/// Makes a symbolic link where nothing stands.
pub(crate) fn symlink(
    system: &mut System,
    root: &Root,
    path: &RootPath,
    target: &Text,
) -> Result<(), HostFault>
    requires begun { system.old.trace.calls ≡ [] }
    ensures { IsStepBy (string_bytes root.now.front) root.now.owners (MakeLink path.now target.now)
        system.new.trace.calls result }
{
    let place = place_of_step(system, root, path)?;
    system.make_link(target.as_str(), place.as_str())
}

/// Gives a file or link a second name, where nothing stands.
pub(crate) fn hard_link(
    system: &mut System,
    root: &Root,
    from: &RootPath,
    to: &RootPath,
) -> Result<(), HostFault>
    requires begun { system.old.trace.calls ≡ [] }
    ensures { IsStepBy (string_bytes root.now.front) root.now.owners (HardLink from.now to.now)
        system.new.trace.calls result }
{
    let from = place_of_step(system, root, from)?;
    let to = place_of_step(system, root, to)?;
    look_at_loose(system, from.as_str())?;
    system.link(from.as_str(), to.as_str())
}

// Takes the rights from what stands at a place, if it is a file that lends them.
fn lower_at(system: &mut System, owners: bool, place: &str) -> Result<(), HostFault>
    requires begun { system.old.trace.calls ≡ [] }
    ensures { IsLoweredBy owners place.now system.new.trace.calls result }
{
    match system.look(place)? {
        Some(found) if lends(&found) => system.set_mode_seen(place, &found, LOWERED),
        Some(found) if !found.is_dir() => Ok(()),
        _ => Err(system.refuse(NO_FILE)),
    }
}

/// Takes the rights from a file that lends them. Where owners aren't told, no file does.
pub(crate) fn lower_file(system: &mut System, root: &Root, path: &RootPath) -> Result<(), HostFault>
    requires begun { system.old.trace.calls ≡ [] }
    ensures { IsStepBy (string_bytes root.now.front) root.now.owners (Lower path.now)
        system.new.trace.calls result }
{
    if !root.owners {
        return Ok(());
    }
    let place = place_of_step(system, root, path)?;
    lower_at(system, root.owners, place.as_str())
}

// The directory in which the name of a place stands, and that name.
fn entry_of<'a>(
    system: &mut System,
    root: &Root,
    place: &'a str,
) -> Result<(Opened, &'a str), HostFault>
    ensures entry { IfOk result (λ entry. IsEntry place.now (string_bytes entry.0.place)
        entry.1.now) }
    ensures same { system.new.trace ≡ system.old.trace }
{
    let Some((above, name)) = split_place(place) else {
        return Err(system.refuse("it isn't below the root"));
    };
    Ok((system.open_directory(root, above)?, name))
}

/// Removes a file or link.
pub(crate) fn unlink(system: &mut System, root: &Root, path: &RootPath) -> Result<(), HostFault>
    requires begun { system.old.trace.calls ≡ [] }
    ensures { IsStepBy (string_bytes root.now.front) root.now.owners (Take path.now)
        system.new.trace.calls result }
{
    let place = place_of_step(system, root, path)?;
    let (opened, name) = entry_of(system, root, place.as_str())?;
    system.unlink_at(opened, name)
}

/// Removes a directory that has no entries.
pub(crate) fn unlink_directory(
    system: &mut System,
    root: &Root,
    path: &RootPath,
) -> Result<(), HostFault>
    requires begun { system.old.trace.calls ≡ [] }
    ensures { IsStepBy (string_bytes root.now.front) root.now.owners (RemoveDir path.now)
        system.new.trace.calls result }
{
    let place = place_of_step(system, root, path)?;
    let (opened, name) = entry_of(system, root, place.as_str())?;
    system.remove_directory_at(opened, name)
}
