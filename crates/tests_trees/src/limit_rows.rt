// Trees in memory that ship as many paths as a tree may, and one more; a file of more than 64 MiB, as a compiler's library may be;
// and files of `DEBIAN` that have as many bytes as they may, and one more.
use host_core::{
    Access, Call, Content, Host, HostFault, Keep, Node, Outcome, Places, RootPath, Script, Side,
};
use host_memory::{Ending, Entry, MemoryHost, Planned};
use package_tree::{ShipMap, read_tree};
use std::alloc::{AllocError, Global};
use std::test::Fail;
use texts::{Text, Texts};

// Numbers from here on have so many digits, so that their order is that of their texts.
const FIRST: usize = 100_000;

const MOST_PATHS: usize = 65_536;

const MANY_BYTES: usize = 64 * 1024 * 1024 + 1;

const MOST_CONTROL_BYTES: usize = 16 * 1024 * 1024;

fn path_of(alloc: Global, text: &str) -> Result<RootPath, AllocError> {
    match RootPath::parse(alloc, text)? {
        Some(path) => Ok(path),
        None => Err(AllocError),
    }
}

fn file(bytes: Content) -> Node {
    let access = Access::own(0o644);
    Node::File { bytes, access }
}

// A tree that ships nothing.
fn bare_tree(alloc: Global) -> Result<MemoryHost, AllocError> {
    let mut host = MemoryHost::new(alloc)?;
    let control = Content::from_slice(alloc, b"Package: big\nVersion: 1\n")?;
    host.place(&path_of(alloc, "/DEBIAN/control")?, file(control))?;
    Ok(host)
}

// Empty files, as many as told.
fn empty_files(alloc: Global, count: usize) -> Result<Vec<Entry>, AllocError> {
    let mut files = Vec::new(alloc);
    for number in 0..count {
        let number = FIRST.saturating_add(number);
        let path = path_of(alloc, format!(in alloc; "/{number}")?.as_str())?;
        let node = Some(file(Content::from_slice(alloc, b"")?));
        files.push(Entry { path, node })?;
    }
    Ok(files)
}

// Puts all of them there at once, as a script does; each on its own would take long.
fn fill(alloc: Global, host: &mut MemoryHost, change: Vec<Entry>) -> Result<(), HostFault> {
    let ending = Ending::Ended(Outcome::Exit(0));
    host.plan(Planned { ending, change })?;
    let call = Call {
        side: Side::New,
        package: Text::from_str(alloc, "big")?,
        script: Script::Preinst,
        at: path_of(alloc, "/DEBIAN/preinst")?,
        args: Texts::new(alloc),
    };
    let places = Places {
        items: Vec::new(alloc),
    };
    host.run(&call, &Keep { places: &places })?;
    Ok(())
}

// How many paths and how many bytes.
fn sums(alloc: Global, files: &ShipMap) -> Result<String, AllocError> {
    let mut bytes: usize = 0;
    for shipped in files.as_slice() {
        if let Node::File { bytes: held, .. } = &shipped.node {
            bytes = bytes.saturating_add(held.held()?.len());
        }
    }
    let paths = files.as_slice().len();
    format!(in alloc; "{paths} paths, {bytes} bytes")
}

// What is read of a tree: its sums, or its fault.
fn read(alloc: Global, host: &mut MemoryHost) -> Result<String, AllocError> {
    match read_tree(alloc, host) {
        Ok(package) => sums(alloc, &package.files),
        Err(fault) => format!(in alloc; "{fault}"),
    }
}

fn read_many(alloc: Global, count: usize) -> Result<String, HostFault> {
    let mut host = bare_tree(alloc)?;
    fill(alloc, &mut host, empty_files(alloc, count)?)?;
    Ok(read(alloc, &mut host)?)
}

#[test]
fn a_tree_has_at_most_so_many_paths(rt: HostRuntime) -> Result<(), Fail> {
    let alloc = rt.alloc();
    let most = read_many(alloc, MOST_PATHS)?;
    assert_eq!(rt; most.as_str(), "65536 paths, 0 bytes");
    let more = read_many(alloc, MOST_PATHS + 1)?;
    assert_eq!(rt; more.as_str(), "TooMany 65536");
    Ok(())
}

fn read_large(alloc: Global, length: usize) -> Result<String, AllocError> {
    let mut host = bare_tree(alloc)?;
    let bytes = Content::new(vec![in alloc; 7; length]?);
    host.place(&path_of(alloc, "/big")?, file(bytes))?;
    read(alloc, &mut host)
}

#[test]
fn a_file_may_have_many_bytes(rt: HostRuntime) -> Result<(), Fail> {
    let read = read_large(rt.alloc(), MANY_BYTES)?;
    assert_eq!(rt; read.as_str(), "1 paths, 67108865 bytes");
    Ok(())
}

// The tree with a file of `DEBIAN` of so many bytes, all of them newlines.
fn read_member(alloc: Global, path: &str, length: usize) -> Result<String, AllocError> {
    let mut host = bare_tree(alloc)?;
    let bytes = Content::new(vec![in alloc; b'\n'; length]?);
    host.place(&path_of(alloc, path)?, file(bytes))?;
    read(alloc, &mut host)
}

#[test]
fn a_control_file_has_at_most_so_many_bytes(rt: HostRuntime) -> Result<(), Fail> {
    let alloc = rt.alloc();
    let more = read_member(alloc, "/DEBIAN/control", MOST_CONTROL_BYTES + 1)?;
    assert_eq!(rt; more.as_str(), "TooLarge /DEBIAN/control");
    Ok(())
}

#[test]
fn a_script_has_at_most_so_many_bytes(rt: HostRuntime) -> Result<(), Fail> {
    let alloc = rt.alloc();
    let most = read_member(alloc, "/DEBIAN/prerm", MOST_CONTROL_BYTES)?;
    assert_eq!(rt; most.as_str(), "0 paths, 0 bytes");
    let more = read_member(alloc, "/DEBIAN/prerm", MOST_CONTROL_BYTES + 1)?;
    assert_eq!(rt; more.as_str(), "TooLarge /DEBIAN/prerm");
    Ok(())
}

#[test]
fn conffiles_has_at_most_so_many_bytes(rt: HostRuntime) -> Result<(), Fail> {
    let more = read_member(rt.alloc(), "/DEBIAN/conffiles", MOST_CONTROL_BYTES + 1)?;
    assert_eq!(rt; more.as_str(), "TooLarge /DEBIAN/conffiles");
    Ok(())
}

#[test]
fn another_kept_file_has_at_most_so_many_bytes(rt: HostRuntime) -> Result<(), Fail> {
    let alloc = rt.alloc();
    let most = read_member(alloc, "/DEBIAN/md5sums", MOST_CONTROL_BYTES)?;
    assert_eq!(rt; most.as_str(), "0 paths, 0 bytes");
    let more = read_member(alloc, "/DEBIAN/md5sums", MOST_CONTROL_BYTES + 1)?;
    assert_eq!(rt; more.as_str(), "TooLarge /DEBIAN/md5sums");
    let left_out = read_member(alloc, "/DEBIAN/a.b", MOST_CONTROL_BYTES + 1)?;
    assert_eq!(rt; left_out.as_str(), "0 paths, 0 bytes");
    Ok(())
}
