// The listed paths of a package are taken away, the last first.
ghost use Rattle.std.specs.Prelude.{◌≡◌, ◌⊎◌, true, false, Err, IsTrue, None, OnOk};
ghost use Rattle.host_core.specs.declared.fault.HostFault.TheVariants.{Declined};
ghost use Rattle.host_core.specs.Host.{AtEachMoment, Counts, Needs, Silent, WasDenied};
ghost use Rattle.host_core.specs.World.{IsBare, IsDirectory, put};
ghost use Rattle.file_removal.specs.Lowering.{TookLowered};
ghost use Rattle.file_removal.specs.Removal.{LooseDenied, IsRemoving, IsRemovingBy, IsRemovingDirectories, LeavesRemoved};
ghost use Rattle.file_removal.specs.Visits.{IsVisited, IsVisiting};

use crate::Leaving;
use crate::clearing::retire;
use administration::{Standing, is_bare, look};
use host_core::{Host, HostFault, RootPath};

// Takes an empty directory away. Where the system declines that (a mount point, say) it stays.
fn remove_directory<H: Host>(host: &mut H, path: &RootPath) -> Result<(), HostFault>
    requires there { Needs (H.state host.old) (λ w. IsDirectory (w path.now)) }
    requires bare { Needs (H.state host.old) (λ w. IsBare w path.now) }
    ensures gone { IsTrue (H.state host.new).honest
        → OnOk result (((H.state host.new).world ≡ put (H.state host.old).world path.now None)
        ⊎ (((H.state host.new).world ≡ (H.state host.old).world)
        × WasDenied (H.state host.old) (H.state host.new) path.now)) }
    ensures any_moment { AtEachMoment
        (λ old now. (now ≡ old) ⊎ (now ≡ put old path.now None)) (H.state host.old)
        (H.state host.new) }
    ensures declined { result ≡ Err Declined → ⊥ }
    ensures lowered { TookLowered (H.state host.old) (H.state host.new) }
    ensures silent { Silent (H.state host.old) (H.state host.new) }
    ensures counts { Counts (H.state host.old) (H.state host.new) result }
{
    match host.remove_dir(path) {
        Ok(()) => Ok(()),
        Err(HostFault::Declined) => Ok(()),
        Err(HostFault::Device) => Err(HostFault::Device),
        Err(HostFault::NoMemory) => Err(HostFault::NoMemory),
    }
}

// Takes away what stands at one listed path: a directory that has entries stays.
fn remove_one<H: Host>(
    host: &mut H,
    leaving: &Leaving,
    directories_only: bool,
) -> Result<(), HostFault>
    ensures visited { IsTrue (H.state host.new).honest
        → OnOk result (IsVisited (WasDenied (H.state host.old) (H.state host.new)) directories_only
        leaving.now (H.state host.old).world (H.state host.new).world) }
    ensures any_moment { AtEachMoment (IsVisiting directories_only leaving.now) (H.state host.old)
        (H.state host.new) }
    ensures declined { result ≡ Err Declined → LooseDenied directories_only (H.state host.old)
        (H.state host.new) }
    ensures lowered { TookLowered (H.state host.old) (H.state host.new) }
    ensures silent { Silent (H.state host.old) (H.state host.new) }
    ensures counts { Counts (H.state host.old) (H.state host.new) result }
{
    if !leaving.goes {
        return Ok(());
    }
    match look(host, &leaving.place)? {
        Standing::Nothing => Ok(()),
        Standing::Loose => {
            if directories_only {
                return Ok(());
            }
            retire(host, &leaving.place)
        }
        Standing::Directory => {
            if !is_bare(host, &leaving.place)? {
                return Ok(());
            }
            remove_directory(host, &leaving.place)
        }
    }
}

// In path order a directory stands before what is below it, so the last path is visited first.
fn remove_each<H: Host>(
    host: &mut H,
    leaving: &[Leaving],
    directories_only: bool,
) -> Result<(), HostFault>
    ensures removed { LeavesRemoved result directories_only leaving.now (H.state host.old)
        (H.state host.new) }
    ensures any_moment { AtEachMoment (IsRemovingBy directories_only leaving.now) (H.state host.old)
        (H.state host.new) }
    ensures declined { result ≡ Err Declined → LooseDenied directories_only (H.state host.old)
        (H.state host.new) }
    ensures lowered { TookLowered (H.state host.old) (H.state host.new) }
    ensures silent { Silent (H.state host.old) (H.state host.new) }
    ensures counts { Counts (H.state host.old) (H.state host.new) result }
{
    let mut count = leaving.len();
    while count > 0 {
        let last = count - 1;
        remove_one(host, &leaving[last], directories_only)?;
        count = last;
    }
    Ok(())
}

/// Removes what stands at the places that may go, given in path order. A directory goes if nothing is
/// left below it; where its removal is declined it stays, as does what is above it.
pub fn remove_owned<H: Host>(host: &mut H, leaving: &[Leaving]) -> Result<(), HostFault>
    ensures removed { LeavesRemoved result false leaving.now (H.state host.old)
        (H.state host.new) }
    ensures any_moment { AtEachMoment (IsRemoving leaving.now) (H.state host.old)
        (H.state host.new) }
    ensures declined { result ≡ Err Declined → LooseDenied false (H.state host.old)
        (H.state host.new) }
    ensures lowered { TookLowered (H.state host.old) (H.state host.new) }
    ensures silent { Silent (H.state host.old) (H.state host.new) }
    ensures counts { Counts (H.state host.old) (H.state host.new) result }
{
    remove_each(host, leaving, false)
}

/// The same for directories alone, at the end of a purge: a file or link at a place stays.
pub fn remove_directories<H: Host>(host: &mut H, leaving: &[Leaving]) -> Result<(), HostFault>
    ensures removed { LeavesRemoved result true leaving.now (H.state host.old)
        (H.state host.new) }
    ensures any_moment { AtEachMoment (IsRemovingDirectories leaving.now) (H.state host.old)
        (H.state host.new) }
    ensures declined { result ≡ Err Declined → ⊥ }
    ensures lowered { TookLowered (H.state host.old) (H.state host.new) }
    ensures silent { Silent (H.state host.old) (H.state host.new) }
    ensures counts { Counts (H.state host.old) (H.state host.new) result }
{
    remove_each(host, leaving, true)
}
