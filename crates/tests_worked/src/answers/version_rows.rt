// Versions: which texts are read, and the order of long ones.
use super::expect;
use std::alloc::{AllocError, Global};
use std::test::Fail;
use version_order::Version;

const ROWS: &[(&str, &str)] = &[
    ("", "Empty"),
    ("a:1", "Epoch"),
    (":1", "Epoch"),
    ("2147483648:1", "Epoch"),
    ("2147483647:1", "2147483647:1"),
    ("1:", "EmptyPart"),
    ("-1", "EmptyPart"),
    ("1_0", "Char(1)"),
];

fn parsed(alloc: Global, text: &str) -> Result<String, AllocError> {
    match Version::parse(alloc, text.as_bytes()) {
        Ok(version) => String::from_str(alloc, version.copy()?.text()),
        Err(fault) => format!(in alloc; "{fault:?}"),
    }
}

#[test]
fn texts_are_read(rt: HostRuntime) -> Result<(), Fail> {
    for (text, row) in ROWS {
        expect(&rt, parsed(rt.alloc(), text), row)?;
    }
    Ok(())
}

fn nines(alloc: Global, count: usize) -> Result<Version, Fail> {
    let digits = Vec::from_elem(alloc, b'9', count)?;
    Ok(Version::parse(alloc, digits.as_slice())?)
}

#[test]
fn long_runs_of_digits_compare(rt: HostRuntime) -> Result<(), Fail> {
    let shorter = nines(rt.alloc(), 100_000)?;
    let longer = nines(rt.alloc(), 100_001)?;
    assert!(rt; shorter.compare(&longer).is_lt());
    Ok(())
}
