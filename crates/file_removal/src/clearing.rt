// Names that only the installer writes are cleared.
ghost use Rattle.std.specs.Prelude.{◌≡◌, [], ◌∷◌, Err};
ghost use Rattle.host_core.specs.Host.{AtEachMoment, Counts, Leaves, Needs, Silent, WasDenied};
ghost use Rattle.host_core.specs.World.{IsLoose};
ghost use Rattle.host_core.specs.declared.fault.HostFault.TheVariants.{Declined};
ghost use Rattle.file_removal.specs.Lowering.{TookLowered};
ghost use Rattle.file_removal.specs.Clearing.{Cleared, IsClearing, IsRetiring};

use administration::{Standing, look};
use host_core::{Host, HostFault, RootPath};

/// Removes the file or link at a name; a directory stays.
pub fn clear_name<H: Host>(host: &mut H, path: &RootPath) -> Result<(), HostFault>
    ensures cleared { Leaves result (Cleared (path.now ∷ [])) (H.state host.old)
        (H.state host.new) }
    ensures any_moment { AtEachMoment (IsClearing (path.now ∷ [])) (H.state host.old)
        (H.state host.new) }
    ensures silent { Silent (H.state host.old) (H.state host.new) }
    ensures counts { Counts (H.state host.old) (H.state host.new) result }
{
    match look(host, path)? {
        Standing::Nothing => Ok(()),
        Standing::Loose => host.remove(path),
        Standing::Directory => Ok(()),
    }
}

/// Removes the files and links at these names: reserved names of a removal, side names of a purge.
/// They keep their access until they go, since one of them may be another name of a file that
/// stays.
pub fn clear_names<H: Host>(host: &mut H, names: &[RootPath]) -> Result<(), HostFault>
    ensures cleared { Leaves result (Cleared names.now) (H.state host.old) (H.state host.new) }
    ensures any_moment { AtEachMoment (IsClearing names.now) (H.state host.old) (H.state host.new) }
    ensures silent { Silent (H.state host.old) (H.state host.new) }
    ensures counts { Counts (H.state host.old) (H.state host.new) result }
{
    for name in names {
        clear_name(host, name)?;
    }
    Ok(())
}

/// Takes a file's rights that it lends (set-id bits), and then the file or link away.
pub(crate) fn retire<H: Host>(host: &mut H, path: &RootPath) -> Result<(), HostFault>
    requires there { Needs (H.state host.old) (λ w. IsLoose (w path.now)) }
    ensures retired { Leaves result (Cleared (path.now ∷ [])) (H.state host.old)
        (H.state host.new) }
    ensures declined { result ≡ Err Declined → WasDenied (H.state host.old) (H.state host.new)
        path.now }
    ensures any_moment { AtEachMoment (IsRetiring (path.now ∷ [])) (H.state host.old)
        (H.state host.new) }
    ensures lowered { TookLowered (H.state host.old) (H.state host.new) }
    ensures silent { Silent (H.state host.old) (H.state host.new) }
    ensures counts { Counts (H.state host.old) (H.state host.new) result }
{
    host.lower(path)?;
    host.remove(path)
}

fn retire_name<H: Host>(host: &mut H, path: &RootPath) -> Result<(), HostFault>
    ensures cleared { Leaves result (Cleared (path.now ∷ [])) (H.state host.old)
        (H.state host.new) }
    ensures any_moment { AtEachMoment (IsRetiring (path.now ∷ [])) (H.state host.old)
        (H.state host.new) }
    ensures lowered { TookLowered (H.state host.old) (H.state host.new) }
    ensures silent { Silent (H.state host.old) (H.state host.new) }
    ensures counts { Counts (H.state host.old) (H.state host.new) result }
{
    match look(host, path)? {
        Standing::Nothing => Ok(()),
        Standing::Loose => retire(host, path),
        Standing::Directory => Ok(()),
    }
}

/// Removes the files and links at these names, backups and new versions of conffiles that are
/// shipped no more. No other name of such a file that somebody made lends rights any more.
pub fn retire_names<H: Host>(host: &mut H, names: &[RootPath]) -> Result<(), HostFault>
    ensures cleared { Leaves result (Cleared names.now) (H.state host.old) (H.state host.new) }
    ensures any_moment { AtEachMoment (IsRetiring names.now) (H.state host.old) (H.state host.new) }
    ensures lowered { TookLowered (H.state host.old) (H.state host.new) }
    ensures silent { Silent (H.state host.old) (H.state host.new) }
    ensures counts { Counts (H.state host.old) (H.state host.new) result }
{
    for name in names {
        retire_name(host, name)?;
    }
    Ok(())
}
