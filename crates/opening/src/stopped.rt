// What a command that was stopped has left is brought to the disk before anything else is done: what it did since its last
// barrier a loss of power may still undo.
ghost use Rattle.std.specs.Prelude.{◌≡◌, ◌↔◌, IsTrue};
ghost use Rattle.host_core.specs.Host.{AtEachMoment, Silent};
ghost use Rattle.host_core.specs.Looks.{Looks};
ghost use Rattle.administration.specs.Fault.{CountsAdministration};
ghost use Rattle.administration.specs.Places.{tmp_path, updates_path};
ghost use Rattle.opening.specs.Parts.{IsDamaged, fault_in};
ghost use Rattle.opening.specs.Stopped.{AfterAStop, IsBrought, WasStopped};

use administration::{AdministrationFault, INCOMING, Standing, UPDATES, is_bare, look};
use host_core::{Host, HostFault, RootPath};
use std::alloc::Global;

// Whether what a unit lays out is there, or a note.
fn was_stopped<H: Host>(
    host: &mut H,
    incoming: &RootPath,
    updates: &RootPath,
) -> Result<bool, HostFault>
    requires incoming { incoming.now ≡ tmp_path }
    requires updates { updates.now ≡ updates_path }
    ensures looks { Looks result (λ stopped w. IsTrue stopped ↔ WasStopped w) (H.state host.old)
        (H.state host.new) }
{
    match look(host, incoming)? {
        Standing::Nothing => Ok(!is_bare(host, updates)?),
        Standing::Loose => Ok(true),
        Standing::Directory => Ok(true),
    }
}

/// Brings the root to the disk where a command was stopped.
pub(crate) fn bring_to_disk<H: Host>(alloc: Global, host: &mut H) -> Result<(), AdministrationFault>
    ensures same { IsTrue (H.state host.new).honest → (H.state host.new).world
        ≡ (H.state host.old).world }
    ensures brought { AfterAStop (IsBrought result) (H.state host.old) (H.state host.new) }
    ensures sound { IsDamaged (fault_in result) → ⊥ }
    ensures any_moment { AtEachMoment (λ old now. now ≡ old) (H.state host.old)
        (H.state host.new) }
    ensures silent { Silent (H.state host.old) (H.state host.new) }
    ensures counts { CountsAdministration (H.state host.old) (H.state host.new) result }
{
    let incoming = RootPath::from_str(alloc, INCOMING)?;
    let updates = RootPath::from_str(alloc, UPDATES)?;
    if !was_stopped(host, &incoming, &updates)? {
        return Ok(());
    }
    match host.sync_root() {
        Ok(()) => Ok(()),
        Err(fault) => Err(AdministrationFault::from(fault)),
    }
}
