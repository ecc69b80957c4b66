// Settling is stopped at each of its steps in turn. Each file is then as before or as the row says, and settling once more
// leaves what the row says.
use super::{ROWS, Row, check_left, digest_of, look, root_of, settle, ship_path};
use conffiles::decide;
use host_core::HostFault;
use host_memory::{Effect, MemoryHost};
use std::alloc::Global;
use std::process::Abort;
use std::test::Fail;

// The files of the rows hold one byte.
const EFFECTS: &[Effect] = &[Effect::None, Effect::Whole, Effect::Prefix(0)];

// More steps than one conffile takes.
const LIMIT: usize = 100;

// Settles the row's conffile as one that finds it so does. One whose shipped file is gone is settled already.
fn settle_row(alloc: Global, host: &mut MemoryHost, row: &Row) -> Result<(), HostFault> {
    let ((recorded, _, shipped), policy, _, _) = row;
    let now = look(alloc, host, "/etc/x")?;
    let fresh = look(alloc, host, "/etc/x.dpkg-new")?;
    if fresh.as_str() == *shipped {
        let recorded = digest_of(recorded);
        let now = digest_of(now.as_str());
        let decision = decide(recorded, now, digest_of(shipped), *policy);
        settle(alloc, host, ship_path(alloc, "/etc/x")?, decision)?;
    }
    Ok(())
}

// Each file is whole: as before, or as it is afterwards.
fn check_amid(
    rt: &(impl Abort + AllocGlobal),
    host: &mut MemoryHost,
    row: &Row,
) -> Result<(), Fail> {
    let alloc = rt.alloc();
    let ((_, now, shipped), _, _, (home, old, dist)) = row;
    let found = look(alloc, host, "/etc/x")?;
    assert!(rt; [*now, *home].contains(&found.as_str()), "{found}");
    let found = look(alloc, host, "/etc/x.dpkg-old")?;
    assert!(rt; ["", *old].contains(&found.as_str()), "{found}");
    let found = look(alloc, host, "/etc/x.dpkg-dist")?;
    assert!(rt; ["", *dist].contains(&found.as_str()), "{found}");
    let found = look(alloc, host, "/etc/x.dpkg-new")?;
    assert!(rt; ["", *shipped].contains(&found.as_str()), "{found}");
    Ok(())
}

// Whether a stop was met at the step.
fn check_stop(
    rt: &(impl Abort + AllocGlobal),
    row: &Row,
    before: usize,
    effect: Effect,
) -> Result<bool, Fail> {
    let alloc = rt.alloc();
    let (found, _, _, left) = row;
    let mut host = root_of(alloc, found)?;
    host.stop_step(before, effect);
    let ended = settle_row(alloc, &mut host, row).is_ok();
    let met = host.is_stopped();
    assert!(rt; met != ended);
    let mut host = host.restart();
    check_amid(rt, &mut host, row)?;
    settle_row(alloc, &mut host, row)?;
    check_left(rt, &mut host, left)?;
    Ok(met)
}

fn check_effect(rt: &(impl Abort + AllocGlobal), row: &Row, effect: Effect) -> Result<(), Fail> {
    for before in 0..LIMIT {
        if !check_stop(rt, row, before, effect)? {
            return Ok(());
        }
    }
    panic!(rt; "too many steps")
}

fn check_stops(rt: &(impl Abort + AllocGlobal), row: &Row) -> Result<(), Fail> {
    for effect in EFFECTS {
        check_effect(rt, row, *effect)?;
    }
    Ok(())
}

#[test]
fn each_row_is_settled_behind_a_stop(rt: HostRuntime) -> Result<(), Fail> {
    for row in ROWS {
        check_stops(&rt, row)?;
    }
    Ok(())
}
