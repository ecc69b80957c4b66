// What is read of an administration to tell whose paths are.
ghost use Rattle.std.specs.Prelude.{◌≡◌, IfOk};
ghost use Rattle.host_core.specs.Host.{Needs, Reads, Silent};
ghost use Rattle.foretold_changes.specs.Told.{IsReadFrom};

use administration::AdministrationFault;
use host_core::Host;
use inquiries::{SeenAll, read_followed};
use opening::Opened;
use std::alloc::{AllocError, Global};

// The same, so that owners are found fast.
fn indexed(alloc: Global, all: SeenAll) -> Result<SeenAll, AllocError>
    ensures { IfOk result (λ same. same ≡ all) }
{
    let SeenAll { opened, shown } = all;
    let Opened {
        database,
        mut lists,
        diversions,
    } = opened;
    lists.index(alloc, &diversions)?;
    Ok(SeenAll {
        opened: Opened {
            database,
            lists,
            diversions,
        },
        shown,
    })
}

/// The records, all lists and the diversions, with the aliases of the root.
pub(crate) fn read_indexed<H: Host>(
    alloc: Global,
    host: &mut H,
) -> Result<SeenAll, AdministrationFault>
    ensures read { IfOk result (λ all. Needs (H.state host.new) (λ w. IsReadFrom w all)) }
    ensures reads { Reads (H.state host.old) (H.state host.new) }
    ensures silent { Silent (H.state host.old) (H.state host.new) }
{
    let all = read_followed(alloc, host)?;
    Ok(indexed(alloc, all)?)
}
