// The device fails at each look in turn: that is told, and what was read before stays.
use super::MERGED;
use crate::root::{path_of, root_of};
use aliases::Aliases;
use host_core::HostFault;
use std::alloc::{AllocError, Global};
use std::test::Fail;

// Whether the fault at this look was told, and whether `/bin` was known then.
fn broken_at(alloc: Global, look: usize) -> Result<(bool, bool), AllocError> {
    let mut host = root_of(alloc, MERGED)?;
    host.fail_read(look);
    let mut aliases = Aliases::none(alloc);
    let path = path_of(alloc, "/bin/deep/sh")?;
    let told = matches!(aliases.read_above(&mut host, &path), Err(HostFault::Device));
    Ok((told, aliases.has("/bin")))
}

#[test]
fn faults_are_told(rt: HostRuntime) -> Result<(), Fail> {
    let alloc = rt.alloc();
    for look in 0..5usize {
        assert_eq!(&rt; broken_at(alloc, look)?, (true, false));
    }
    assert_eq!(&rt; broken_at(alloc, 5)?, (true, true));
    assert_eq!(&rt; broken_at(alloc, 6)?, (false, true));
    Ok(())
}
