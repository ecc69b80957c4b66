// Control text: what is read of it, and how it is written.
use super::{expect, package_of, read_control};
use std::test::Fail;

// A text without its last newline, as it is read and written.
const PARAGRAPH: &str = "paragraph\nPackage: aa\nVersion: 1\n";

pub(crate) const ROWS: &[(&[u8], &str)] = &[
    (b" x: 1\nPackage: aa\n", "OrphanContinuation(1)"),
    (b"Package: aa\npackage: bb\n", "Twice(2)"),
    (b"Package: aa\nVersion: 1", PARAGRAPH),
    (b"Package\n", "NoColon(1)"),
    (b"-x: 1\n", "BadName(1)"),
    (b"\xff", "NotUtf8(1)"),
    (
        b"Package: aa\nDescription: x\n more\n",
        "paragraph\nPackage: aa\nDescription: x\n more\n",
    ),
    (
        b"Package: aa\nVersion: 1  \nDescription: short \n long \t\n .  \n last\t \nTag:  x, \n b \t\n",
        "paragraph\nPackage: aa\nVersion: 1\nDescription: short \n long \t\n .  \n last\nTag: x, \n b\n",
    ),
    (
        b"Package: aa\nDescription: x \t\n \t\nPackage: bb",
        "paragraph\nPackage: aa\nDescription: x\nparagraph\nPackage: bb\n",
    ),
];

pub(crate) const ONE_PARAGRAPH_ROWS: &[(&[u8], &str)] = &[
    (b"Package: aa\n\nPackage: bb\n", "Second(3)"),
    (b"Version: 1\nPACKAGE: aa\n", "aa"),
];

#[test]
fn texts_are_read(rt: HostRuntime) -> Result<(), Fail> {
    for (bytes, row) in ROWS {
        expect(&rt, read_control(rt.alloc(), bytes), row)?;
    }
    Ok(())
}

#[test]
fn one_paragraph_is_read(rt: HostRuntime) -> Result<(), Fail> {
    for (bytes, row) in ONE_PARAGRAPH_ROWS {
        expect(&rt, package_of(rt.alloc(), bytes), row)?;
    }
    Ok(())
}
