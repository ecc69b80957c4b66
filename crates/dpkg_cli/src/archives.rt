// Archives of packages: `dpkg-deb -R` unpacks each into a directory of its own, which is there while its tree is read. Where there
// is no such program `ar` and `tar` do it.
ghost use Rattle.std.specs.Prelude.{◌≡◌};
ghost use Rattle.dpkg_cli.specs.declared.archives.Missing.TheVariants.{Other};

use crate::hidden::take_out_hidden;
use host_core::RootPath;
use path_filters::{Filters, excludes_any};
use std::fs::{DirBuilder, File};
use std::io::{Error, ErrorKind, Write};
use std::os::unix::fs::DirBuilderExt;
use std::process::{Command, ExitStatus, Stdio};
use std::{env, fs, io, path, process};

// Below a root that is held. A killed program leaves it, and the next one that holds the root takes it away.
const ROOM: &str = "/var/lib/dpkg/tmp.trees";

const UNPACKER: &str = "dpkg-deb";

// What `dpkg-deb -R` does, of an archive and a directory that isn't there yet. A member lies beside that while it is read, so that tar
// sees by itself how it is compressed.
const BY_TAR: &str = "set -e
member=$2.member
mkdir \"$2\" \"$2/DEBIAN\"
for name in $(ar t \"$1\")
do
  case $name in
    control.tar*) place=$2/DEBIAN ;;
    data.tar*) place=$2 ;;
    *) continue ;;
  esac
  ar p \"$1\" \"$name\" >\"$member\"
  tar --extract --preserve-permissions --numeric-owner --file \"$member\" --directory \"$place\"
  rm \"$member\"
done
[ -f \"$2/DEBIAN/control\" ]";

// So much is written where a tool failed, to see whether it was for want of room.
const PROBE: usize = 65536;

/// Why the tree of an archive isn't there.
#[derive(Drop)]
pub(crate) enum Missing {
    /// For want of room at a path under the root that is held, or at one of the machine; with the place, and the system's error.
    NoRoom(RootPath, String, Error),
    Other(Error),
}

impl From<Error> for Missing {
    ghost from_gives = { λ error e. e ≡ Other error };

    fn from(error: Error) -> Self {
        Missing::Other(error)
    }
}

/// Where archives are unpacked.
#[derive(Drop)]
pub(crate) struct Archives {
    /// The room of the root that is held, if one is.
    held: Option<String>,
    /// The room that was made, with the tree of the last archive in it.
    room: Option<String>,
    /// What they hide goes out of each tree. A tree that is no archive isn't changed, and not taken where something is excluded.
    filters: Filters,
}

fn is_file(rt: &HostRuntime, word: &str) -> bool {
    match fs::metadata(rt, word) {
        Ok(found) => found.is_file(),
        Err(_) => false,
    }
}

// Takes away what stands at the place of a room. What is no directory isn't touched.
fn clear(rt: &HostRuntime, room: &str) -> io::Result<()> {
    match fs::symlink_metadata(rt, room) {
        Ok(found) if found.is_dir() => fs::remove_dir_all(rt, room),
        Ok(_) => Err(Error::other("no directory")),
        Err(error) if error.kind() == ErrorKind::NotFound => Ok(()),
        Err(error) => Err(error),
    }
}

// A room elsewhere, for a root that is only looked at.
fn room_elsewhere(rt: &HostRuntime) -> io::Result<String> {
    let directory = env::temp_dir(rt)?;
    let number = process::id(rt.process());
    Ok(format!(in rt.alloc(); "{}/coizkerra-{number}", directory.as_str())?)
}

// Gives a command the archive and the directory. The tool tells a person itself why it fails.
fn run(
    rt: &HostRuntime,
    mut command: Command,
    archive: &str,
    tree: &str,
) -> io::Result<ExitStatus> {
    command.arg(archive)?;
    command.arg(tree)?;
    command.stdin(Stdio::null());
    command.stdout(Stdio::null());
    command.status(rt)
}

fn unpack_by_tar(rt: &HostRuntime, archive: &str, tree: &str) -> io::Result<ExitStatus> {
    let mut command = Command::new(rt.alloc(), "/bin/sh")?;
    command.arg("-c")?;
    command.arg(BY_TAR)?;
    command.arg("sh")?;
    run(rt, command, archive, tree)
}

fn unpack(rt: &HostRuntime, archive: &str, tree: &str) -> io::Result<ExitStatus> {
    let mut command = Command::new(rt.alloc(), UNPACKER)?;
    command.arg("--raw-extract")?;
    match run(rt, command, archive, tree) {
        Err(error) if error.kind() == ErrorKind::NotFound => unpack_by_tar(rt, archive, tree),
        ended => ended,
    }
}

fn is_full(error: &Error) -> bool {
    error.kind() == ErrorKind::StorageFull || error.kind() == ErrorKind::QuotaExceeded
}

fn write_probe(rt: &HostRuntime, place: &str) -> io::Result<()> {
    let bytes = vec![in rt.alloc(); 0u8; PROBE]?;
    let mut file = File::create_new(rt, place)?;
    file.write_all(bytes.as_slice())?;
    file.sync_all()
}

// Whether there is room in a room; nothing is left of what is written for that.
fn try_room(rt: &HostRuntime, room: &str) -> io::Result<()> {
    let place = format!(in rt.alloc(); "{room}/probe")?;
    let written = write_probe(rt, place.as_str());
    let _ = fs::remove_file(rt, place.as_str());
    written
}

// Why a tool failed in a room: for want of room, or it knows itself.
fn why_failed(rt: &HostRuntime, room: &str) -> Error {
    match try_room(rt, room) {
        Err(error) if is_full(&error) => error,
        _ => Error::other("the archive can't be unpacked"),
    }
}

impl Archives {
    pub(crate) fn none(filters: Filters) -> Archives {
        Archives {
            held: None,
            room: None,
            filters,
        }
    }

    /// From now on archives are unpacked below this root, whose locks are held. What a program left there that was killed goes.
    pub(crate) fn hold(&mut self, rt: &HostRuntime, root: &str) -> io::Result<()> {
        let front = root.trim_end_matches('/');
        let room = format!(in rt.alloc(); "{front}{ROOM}")?;
        clear(rt, room.as_str())?;
        self.held = Some(room);
        Ok(())
    }

    /// Whether they are: then the tree of each stands until the next one is read, when it was dealt with.
    pub(crate) fn is_held(&self) -> bool {
        self.held.is_some()
    }

    // The place of the next room. A path that begins with a dash isn't taken for a flag.
    fn place(&self, rt: &HostRuntime) -> io::Result<String> {
        match &self.held {
            Some(room) => Ok(String::from_str(rt.alloc(), room.as_str())?),
            None => room_elsewhere(rt),
        }
    }

    // Makes a room that its own user alone can enter, and unpacks the archive there.
    fn fill(&mut self, rt: &HostRuntime, archive: &str, room: &str) -> io::Result<String> {
        let made = String::from_str(rt.alloc(), room)?;
        let tree = format!(in rt.alloc(); "{room}/tree")?;
        DirBuilder::new().mode(0o700).create(rt, room)?;
        self.room = Some(made);
        if !unpack(rt, archive, tree.as_str())?.success() {
            return Err(why_failed(rt, room));
        }
        take_out_hidden(rt, self.filters.as_slice(), tree.as_str())?;
        Ok(tree)
    }

    // The tree of an archive in a room, where nothing is left of an earlier one.
    fn unpacked(&mut self, rt: &HostRuntime, word: &str, room: &str) -> io::Result<String> {
        clear(rt, room)?;
        let archive = format!(in rt.alloc(); "./{word}")?;
        let place = if word.starts_with('-') {
            archive.as_str()
        } else {
            word
        };
        self.fill(rt, place, room)
    }

    // The path of a room under the root that is held, or on the machine. Some places have none, as where they are too long.
    fn path_of(&self, rt: &HostRuntime, room: &str) -> io::Result<Option<RootPath>> {
        if self.held.is_some() {
            return Ok(RootPath::parse(rt.alloc(), ROOM)?);
        }
        let whole = path::absolute(rt, room)?;
        Ok(RootPath::parse(rt.alloc(), whole.as_str())?)
    }

    // Why there is no tree in a room. What was unpacked goes, so that the disk isn't left full.
    fn missing(&mut self, rt: &HostRuntime, room: String, error: Error) -> Missing {
        self.drop_last(rt);
        if !is_full(&error) {
            return Missing::Other(error);
        }
        match self.path_of(rt, room.as_str()) {
            Ok(Some(path)) => Missing::NoRoom(path, room, error),
            Ok(None) => Missing::Other(error),
            Err(unknown) => Missing::Other(unknown),
        }
    }

    // No tree of an archive, as far as others are taken.
    fn no_archive(&self) -> Result<Option<String>, Missing> {
        if excludes_any(self.filters.as_slice()) {
            let why = "no archive, which --path-exclude asks for";
            return Err(Missing::Other(Error::other(why)));
        }
        Ok(None)
    }

    /// The tree of a word that names a file: an archive, which is unpacked. The one before it goes; of no other word is there one.
    pub(crate) fn tree_of(
        &mut self,
        rt: &HostRuntime,
        word: &str,
    ) -> Result<Option<String>, Missing> {
        self.drop_last(rt);
        if !is_file(rt, word) {
            return self.no_archive();
        }
        let room = self.place(rt)?;
        match self.unpacked(rt, word, room.as_str()) {
            Ok(tree) => Ok(Some(tree)),
            Err(error) => Err(self.missing(rt, room, error)),
        }
    }

    /// Takes the tree of the last archive away, as far as that can be done.
    pub(crate) fn drop_last(&mut self, rt: &HostRuntime) {
        if let Some(room) = self.room.take() {
            let _ = fs::remove_dir_all(rt, room.as_str());
        }
    }
}
