// What goes, goes from the directory that was opened for it, and no link that is put in the place of one leads elsewhere.
use super::{Row, run};
use std::test::Fail;

const BELOW: &[Row] = &[
    (
        "mkdir -p root/one/two/three/bare
echo first >root/one/two/three/file
ln -s nowhere root/one/two/three/link
echo second >root/one/two/file
echo third >root/file",
        ("remove", "/one/two/three/file", "/"),
        "done",
    ),
    ("", ("kind", "/one/two/three/link", ""), "link"),
    ("", ("remove", "/one/two/three/link", "/"), "done"),
    ("", ("remove", "/one/two/three/link", "/"), "Device"),
    ("", ("remove", "/one/two/three/bare", "/"), "Device"),
    ("", ("remove_dir", "/one/two/three", "/"), "Declined"),
    ("", ("remove_dir", "/one/two/three/bare", "/"), "done"),
    ("", ("remove_dir", "/one/two/three", "/"), "done"),
    ("", ("make", "/one/two/three", ""), "done"),
    (
        "echo fourth >root/one/two/three/file",
        ("remove", "/one/two/three/file", "/"),
        "done",
    ),
    ("", ("remove_dir", "/one/two/file", "/"), "Device"),
    ("", ("remove", "/one/two/file", "/"), "done"),
    ("", ("remove", "/file", "/"), "done"),
    ("", ("remove_dir", "/", "/"), "Device"),
];

#[test]
fn removals_below_directories(rt: HostRuntime) -> Result<(), Fail> {
    let left = run(&rt, BELOW, "find root | LC_ALL=C sort")?;
    assert_eq!(&rt;
        left.as_str(),
        "root\nroot/one\nroot/one/two\nroot/one/two/three\n"
    );
    Ok(())
}

// Somebody else puts a link in the place of a directory, behind the look at what stands in it. The directory from which something
// was taken away stays open until another step.
const EXCHANGED: &[Row] = &[
    (
        "mkdir -p outside/in root/way/in
for at in outside outside/in root/way root/way/in; do
  echo kept >$at/file; echo kept >$at/second; echo kept >$at/third; mkdir $at/bare
done",
        ("kind", "/way/in/file", ""),
        "file",
    ),
    (
        "mv root/way/in root/moved; ln -s ../../outside root/way/in",
        ("remove", "/way/in/file", "/"),
        "Device",
    ),
    (
        "rm root/way/in; mv root/moved root/way/in",
        ("kind", "/way/in/bare", ""),
        "directory",
    ),
    (
        "mv root/way root/moved; ln -s ../outside root/way",
        ("remove_dir", "/way/in/bare", "/"),
        "Device",
    ),
    (
        "rm root/way; mv root/moved root/way",
        ("remove", "/way/in/file", "/"),
        "done",
    ),
    ("", ("kind", "/way/in/second", ""), "file"),
    (
        "mv root/way/in root/moved; ln -s ../../outside root/way/in",
        ("remove", "/way/in/second", "/"),
        "done",
    ),
    ("", ("sync", "/way/file", "/"), "done"),
    ("", ("remove", "/way/in/third", "/"), "Device"),
];

#[test]
fn directories_exchanged_for_links(rt: HostRuntime) -> Result<(), Fail> {
    let left = run(&rt, EXCHANGED, "find outside root | LC_ALL=C sort")?;
    let row = "outside
outside/bare
outside/file
outside/in
outside/in/bare
outside/in/file
outside/in/second
outside/in/third
outside/second
outside/third
root
root/moved
root/moved/bare
root/moved/third
root/way
root/way/bare
root/way/file
root/way/in
root/way/second
root/way/third
";
    assert_eq!(&rt; left.as_str(), row);
    Ok(())
}
