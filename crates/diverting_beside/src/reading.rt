// What is read of an administration of which another program is changing packages.
ghost use Rattle.std.specs.Prelude.{◌≡◌, false, IfErr, IfOk, IsTrue, OnOk};
ghost use Rattle.administration.specs.Fault.{CountsAdministration};
ghost use Rattle.administration.specs.Files.{NoDirectory};
ghost use Rattle.administration.specs.Places.{diversions_path, home_path, temporary};
ghost use Rattle.administration.specs.declared.fault.AdministrationFault.TheVariants.{Damaged};
ghost use Rattle.diversions.specs.Changes.{IsTableReady};
ghost use Rattle.host_core.specs.Host.{Needs, Reads, Silent};
ghost use Rattle.host_core.specs.World.{IsDirectory};
ghost use Rattle.diverting_beside.specs.Beside.{IsHeldBeside, IsTableDamage, IsUnreadBeside};

use administration::{AdministrationFault, is_directory};
use host_core::{Host, RootPath};
use inquiries::{SeenAll, read_followed};
use opening::Opened;
use std::alloc::Global;

const HOME: &str = "/var/lib/dpkg";

// Where the table is written before it is renamed to its place.
const SPARE: &str = "/var/lib/dpkg/diversions.dpkg-inst";

fn damaged(file: RootPath) -> AdministrationFault
    ensures { result ≡ Damaged file 0 }
{
    AdministrationFault::Damaged { file, line: 0 }
}

// The administration has to be there.
fn check_home<H: Host>(alloc: Global, host: &mut H) -> Result<(), AdministrationFault>
    ensures home { OnOk result (Needs (H.state host.new) (λ w. IsDirectory (w home_path))) }
    ensures damage { IsTrue (H.state host.new).honest
        → IfErr result (IsTableDamage (H.state host.old).world) }
    ensures reads { Reads (H.state host.old) (H.state host.new) }
    ensures silent { Silent (H.state host.old) (H.state host.new) }
    ensures counts { CountsAdministration (H.state host.old) (H.state host.new) result }
{
    let home = RootPath::from_str(alloc, HOME)?;
    if is_directory(host, &home)? {
        return Ok(());
    }
    Err(damaged(home))
}

// Nothing may be in the way of the table.
fn check_spare<H: Host>(alloc: Global, host: &mut H) -> Result<(), AdministrationFault>
    ensures spare { OnOk result
        (Needs (H.state host.new) (λ w. NoDirectory (w (temporary diversions_path)))) }
    ensures damage { IsTrue (H.state host.new).honest
        → IfErr result (IsTableDamage (H.state host.old).world) }
    ensures reads { Reads (H.state host.old) (H.state host.new) }
    ensures silent { Silent (H.state host.old) (H.state host.new) }
    ensures counts { CountsAdministration (H.state host.old) (H.state host.new) result }
{
    let spare = RootPath::from_str(alloc, SPARE)?;
    if is_directory(host, &spare)? {
        return Err(damaged(spare));
    }
    Ok(())
}

// The table can be written.
fn check_table<H: Host>(alloc: Global, host: &mut H) -> Result<(), AdministrationFault>
    requires loose { Needs (H.state host.old) (λ w. NoDirectory (w diversions_path)) }
    ensures ready { OnOk result (Needs (H.state host.new) IsTableReady) }
    ensures damage { IsTrue (H.state host.new).honest
        → IfErr result (IsTableDamage (H.state host.old).world) }
    ensures reads { Reads (H.state host.old) (H.state host.new) }
    ensures silent { Silent (H.state host.old) (H.state host.new) }
    ensures counts { CountsAdministration (H.state host.old) (H.state host.new) result }
{
    match check_home(alloc, host) {
        Ok(()) => check_spare(alloc, host),
        Err(fault) => Err(fault),
    }
}

fn opened_of(all: SeenAll) -> Opened
    ensures { result ≡ all.opened }
{
    let SeenAll {
        opened,
        shown: _shown,
    } = all;
    opened
}

/// The records, with the notes, all lists, the diversions and the aliases of the root, where the table can be written.
pub(crate) fn read_beside<H: Host>(
    alloc: Global,
    host: &mut H,
) -> Result<Opened, AdministrationFault>
    ensures held { IfOk result
        (λ opened. IsHeldBeside opened.database.records opened.lists.lists opened.diversions.ways
        (H.state host.new)) }
    ensures ready { OnOk result (Needs (H.state host.new) IsTableReady) }
    ensures writable { IfOk result (λ opened. opened.diversions.closed ≡ false) }
    ensures finds { IsTrue (H.state host.new).honest
        → IfErr result (IsUnreadBeside (H.state host.old).world) }
    ensures reads { Reads (H.state host.old) (H.state host.new) }
    ensures silent { Silent (H.state host.old) (H.state host.new) }
    ensures counts { CountsAdministration (H.state host.old) (H.state host.new) result }
{
    match read_followed(alloc, host) {
        Ok(all) => match check_table(alloc, host) {
            Ok(()) => Ok(opened_of(all)),
            Err(fault) => Err(fault),
        },
        Err(fault) => Err(fault),
    }
}
