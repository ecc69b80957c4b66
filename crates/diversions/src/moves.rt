// Moving a node so that no loss of power takes it: a disk may keep no order between two directories.
ghost use Rattle.std.specs.Prelude.{◌≡◌, ◌≢◌, ◌⊎◌, Bool, IsTrue, None, OnOk, false, true};
ghost use Rattle.host_core.specs.Host.{AtEachMoment, Counts, Leaves, Needs, Silent, State};
ghost use Rattle.host_core.specs.Loss.{IsLater, IsOnDisk};
ghost use Rattle.host_core.specs.Paths.{Path};
ghost use Rattle.host_core.specs.Unsynced.{is_temporary};
ghost use Rattle.host_core.specs.World.{HasParent, IsLoose, moved, put};
ghost use Rattle.diversions.specs.Changes.{BeginsOnDisk, CanMove, IsMoving, IsSame, moved_if};
ghost use Rattle.diversions.specs.Turns.{GoesByTurns};
ghost use Rattle.scattered_losses.specs.Turns.{GoByTurns, TakeTurns};

use host_core::{Host, HostFault, RootPath, ShipPath};

/// Brings to the disk what a command that was stopped may have done.
pub(crate) fn bring<H: Host>(host: &mut H, brings: bool) -> Result<(), HostFault>
    ensures any_moment { AtEachMoment (λ old now. now ≡ old) (H.state host.old)
        (H.state host.new) }
    ensures brought { IsTrue brings
        → OnOk result (BeginsOnDisk (H.state host.old) (H.state host.new)) }
    ensures silent { Silent (H.state host.old) (H.state host.new) }
    ensures counts { Counts (H.state host.old) (H.state host.new) result }
{
    if !brings {
        return Ok(());
    }
    host.sync_root()
}

// Takes a name of a node away, and brings that to the disk.
fn take_name<H: Host>(host: &mut H, from: &RootPath) -> Result<(), HostFault>
    requires there { Needs (H.state host.old) (λ w. IsLoose (w from.now)) }
    ensures taken { Leaves result (λ old new. new ≡ put old from.now None) (H.state host.old)
        (H.state host.new) }
    ensures any_moment { AtEachMoment (λ old now. (now ≡ old) ⊎ (now ≡ put old from.now None))
        (H.state host.old) (H.state host.new) }
    ensures disk { OnOk result (IsOnDisk (H.state host.new).events) }
    ensures silent { Silent (H.state host.old) (H.state host.new) }
    ensures counts { Counts (H.state host.old) (H.state host.new) result }
{
    host.remove(from)?;
    host.barrier()
}

// Takes the old name away, once the new one is on the disk.
fn leave_name<H: Host>(host: &mut H, from: &RootPath) -> Result<(), HostFault>
    requires there { Needs (H.state host.old) (λ w. IsLoose (w from.now)) }
    ensures taken { Leaves result (λ old new. new ≡ put old from.now None) (H.state host.old)
        (H.state host.new) }
    ensures any_moment { AtEachMoment (λ old now. (now ≡ old) ⊎ (now ≡ put old from.now None))
        (H.state host.old) (H.state host.new) }
    ensures disk { OnOk result (IsOnDisk (H.state host.new).events) }
    ensures turns { (area : Path → Bool) (begun : State) → IsLater begun (H.state host.old)
        → TakeTurns area begun (H.state host.old) → GoByTurns area begun (H.state host.new) }
    ensures silent { Silent (H.state host.old) (H.state host.new) }
    ensures counts { Counts (H.state host.old) (H.state host.new) result }
{
    host.barrier()?;
    take_name(host, from)
}

// Moves a node in one step, where it can have no second name.
fn move_over<H: Host>(host: &mut H, from: &RootPath, to: &RootPath) -> Result<(), HostFault>
    requires there { Needs (H.state host.old) (λ w. IsLoose (w from.now)) }
    requires proper { is_temporary from.now ≡ false }
    requires absent { Needs (H.state host.old) (λ w. w to.now ≡ None) }
    requires parent { Needs (H.state host.old) (λ w. HasParent w to.now) }
    ensures moved { Leaves result (λ old new. new ≡ moved old from.now to.now) (H.state host.old)
        (H.state host.new) }
    ensures any_moment { AtEachMoment (λ old now. (now ≡ old) ⊎ (now ≡ moved old from.now to.now))
        (H.state host.old) (H.state host.new) }
    ensures disk { OnOk result (IsOnDisk (H.state host.new).events) }
    ensures silent { Silent (H.state host.old) (H.state host.new) }
    ensures counts { Counts (H.state host.old) (H.state host.new) result }
{
    host.rename(from, to)?;
    host.barrier()
}

// Moves a node to where nothing stands.
fn move_free<H: Host>(host: &mut H, from: &RootPath, to: &RootPath) -> Result<(), HostFault>
    requires other { IsTrue (H.state host.old).honest → from.now ≢ to.now }
    requires there { Needs (H.state host.old) (λ w. IsLoose (w from.now)) }
    requires proper { is_temporary from.now ≡ false }
    requires absent { Needs (H.state host.old) (λ w. w to.now ≡ None) }
    requires parent { Needs (H.state host.old) (λ w. HasParent w to.now) }
    ensures moved { Leaves result (λ old new. IsSame (moved old from.now to.now) new)
        (H.state host.old) (H.state host.new) }
    ensures any_moment { AtEachMoment (IsMoving true from.now to.now) (H.state host.old)
        (H.state host.new) }
    ensures disk { OnOk result (IsOnDisk (H.state host.new).events) }
    ensures turns { GoesByTurns (H.state host.old) (H.state host.new) }
    ensures silent { Silent (H.state host.old) (H.state host.new) }
    ensures counts { Counts (H.state host.old) (H.state host.new) result }
{
    match host.link(from, to) {
        Ok(()) => leave_name(host, from),
        Err(HostFault::Declined) => move_over(host, from, to),
        Err(HostFault::Device) => Err(HostFault::Device),
        Err(HostFault::NoMemory) => Err(HostFault::NoMemory),
    }
}

/// Moves a node, where one is to be moved; it may stand at its target already.
pub(crate) fn move_node<H: Host>(
    host: &mut H,
    from: &ShipPath,
    to: &ShipPath,
    moves: bool,
    twice: bool,
) -> Result<(), HostFault>
    requires can { Needs (H.state host.old)
        (λ w. IsTrue moves → CanMove twice from.now to.now w) }
    ensures moved { Leaves result (λ old new. IsSame (moved_if moves from.now to.now old) new)
        (H.state host.old) (H.state host.new) }
    ensures any_moment { AtEachMoment (IsMoving moves from.now to.now) (H.state host.old)
        (H.state host.new) }
    ensures rests { OnOk result
        (IsOnDisk (H.state host.new).events ⊎ (H.state host.new ≡ H.state host.old)) }
    ensures turns { GoesByTurns (H.state host.old) (H.state host.new) }
    ensures silent { Silent (H.state host.old) (H.state host.new) }
    ensures counts { Counts (H.state host.old) (H.state host.new) result }
{
    if !moves {
        return Ok(());
    }
    from.law();
    let there = from.at()?;
    if twice {
        return take_name(host, &there);
    }
    let free = to.at()?;
    move_free(host, &there, &free)
}
