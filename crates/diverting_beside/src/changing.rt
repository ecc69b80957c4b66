// A diversion is added or taken away for a script, beside the command that runs it.
ghost use Rattle.std.specs.Prelude.{◌≡◌, [], false, IfErr, IfOk, IsErrOf, IsNone, IsTrue, OnErr};
ghost use Rattle.administration.specs.Fault.{CountsAdministration};
ghost use Rattle.administration.specs.declared.fault.AdministrationFault.TheVariants.{NoMemory};
ghost use Rattle.diversions.specs.Changes.{IsTableReady};
ghost use Rattle.diversions.specs.Turns.{GoesByTurns};
ghost use Rattle.diversions.specs.Ways.{Ways as AnyWays};
ghost use Rattle.dpkg_session.specs.Diversions.{HasBroken, HasDiverted, HasUndiverted, IsDiverting, IsOneUnit, IsUndiverting};
ghost use Rattle.host_core.specs.Host.{AtEachMoment, Needs, Reads, Silent};
ghost use Rattle.unit_reports.specs.Units.{CountsLast, calls_told};
ghost use Rattle.diverting_beside.specs.Beside.{IsChangedBeside, IsUnreadBeside};

use crate::reading::read_beside;
use administration::AdministrationFault;
use dpkg_session::{Diverting, Report, Undiverting, divert_followed, undivert_followed};
use host_core::Host;
use opening::Opened;
use std::alloc::{AllocError, Global};

// Adds a diversion to what was read.
fn divert_opened<H: Host>(
    alloc: Global,
    host: &mut H,
    opened: Opened,
    asked: &Diverting,
) -> Result<Report, AllocError>
    requires ready { Needs (H.state host.old) IsTableReady }
    requires writable { opened.diversions.closed ≡ false }
    ensures whole { IfOk result
        (λ done. IsNone done.last
        → (after : AnyWays) × IsOneUnit (λ u. HasDiverted asked.now opened.database.records
        opened.lists.lists opened.diversions.ways after u (H.state host.old) (H.state host.new))
        done.units.items) }
    ensures broken { IfOk result HasBroken }
    ensures calls { IfOk result (λ done. calls_told done ≡ []) }
    ensures any_moment { AtEachMoment (IsDiverting asked.now opened.database.records
        opened.lists.lists opened.diversions.ways) (H.state host.old) (H.state host.new) }
    ensures turns { GoesByTurns (H.state host.old) (H.state host.new) }
    ensures silent { Silent (H.state host.old) (H.state host.new) }
    ensures counts { IfOk result
        (λ done. CountsLast (H.state host.old) (H.state host.new) done.last) }
    ensures undone { OnErr result (H.state host.new ≡ H.state host.old) }
{
    let Opened {
        database,
        lists,
        mut diversions,
    } = opened;
    let mut places = lists.places(alloc, &diversions)?;
    Ok(divert_followed(
        alloc,
        host,
        &database,
        &lists,
        &mut diversions,
        &mut places,
        asked,
    ))
}

// Takes a diversion away from what was read.
fn undivert_opened<H: Host>(
    alloc: Global,
    host: &mut H,
    opened: Opened,
    asked: &Undiverting,
) -> Result<Report, AllocError>
    requires ready { Needs (H.state host.old) IsTableReady }
    requires writable { opened.diversions.closed ≡ false }
    ensures whole { IfOk result
        (λ done. IsNone done.last
        → (after : AnyWays) × IsOneUnit (λ u. HasUndiverted asked.now opened.diversions.ways after u
        (H.state host.old) (H.state host.new)) done.units.items) }
    ensures broken { IfOk result HasBroken }
    ensures calls { IfOk result (λ done. calls_told done ≡ []) }
    ensures any_moment { AtEachMoment (IsUndiverting asked.now opened.diversions.ways)
        (H.state host.old) (H.state host.new) }
    ensures turns { GoesByTurns (H.state host.old) (H.state host.new) }
    ensures silent { Silent (H.state host.old) (H.state host.new) }
    ensures counts { IfOk result
        (λ done. CountsLast (H.state host.old) (H.state host.new) done.last) }
    ensures undone { OnErr result (H.state host.new ≡ H.state host.old) }
{
    let Opened {
        database: _database,
        lists,
        mut diversions,
    } = opened;
    let mut places = lists.places(alloc, &diversions)?;
    Ok(undivert_followed(alloc, host, &lists, &mut diversions, &mut places, asked))
}

/// Adds a diversion: one unit, by what stands in the administration.
pub fn divert_beside<H: Host>(
    alloc: Global,
    host: &mut H,
    asked: &Diverting,
) -> Result<Report, AdministrationFault>
    ensures done { IfOk result
        (λ done. IsChangedBeside (HasDiverted asked.now) (IsDiverting asked.now) done
        (H.state host.old) (H.state host.new)) }
    ensures broken { IfOk result HasBroken }
    ensures calls { IfOk result (λ done. calls_told done ≡ []) }
    ensures finds { IsTrue (H.state host.new).honest
        → IfErr result (IsUnreadBeside (H.state host.old).world) }
    ensures refused { OnErr result (Reads (H.state host.old) (H.state host.new)) }
    ensures silent { Silent (H.state host.old) (H.state host.new) }
    ensures counts { OnErr result (CountsAdministration (H.state host.old) (H.state host.new) result) }
{
    match read_beside(alloc, host) {
        Ok(opened) => match divert_opened(alloc, host, opened, asked) {
            Ok(done) => Ok(done),
            Err(_) => Err(AdministrationFault::NoMemory),
        },
        Err(fault) => Err(fault),
    }
}

/// Takes a diversion away: one unit, by what stands in the administration.
pub fn undivert_beside<H: Host>(
    alloc: Global,
    host: &mut H,
    asked: &Undiverting,
) -> Result<Report, AdministrationFault>
    ensures done { IfOk result
        (λ done. IsChangedBeside (λ table lists. HasUndiverted asked.now)
        (λ table lists. IsUndiverting asked.now) done (H.state host.old) (H.state host.new)) }
    ensures broken { IfOk result HasBroken }
    ensures calls { IfOk result (λ done. calls_told done ≡ []) }
    ensures finds { IsTrue (H.state host.new).honest
        → IfErr result (IsUnreadBeside (H.state host.old).world) }
    ensures refused { OnErr result (Reads (H.state host.old) (H.state host.new)) }
    ensures silent { Silent (H.state host.old) (H.state host.new) }
    ensures counts { OnErr result (CountsAdministration (H.state host.old) (H.state host.new) result) }
{
    match read_beside(alloc, host) {
        Ok(opened) => match undivert_opened(alloc, host, opened, asked) {
            Ok(done) => Ok(done),
            Err(_) => Err(AdministrationFault::NoMemory),
        },
        Err(fault) => Err(fault),
    }
}
